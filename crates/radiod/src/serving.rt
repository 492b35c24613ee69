//! A station on the air.

ghost use Rattle.std.specs.Prelude.{◌≡◌, ◌^◌, IfErr};
ghost use Rattle.std.specs.Option.{option_map};
ghost use Rattle.radio_log.specs.Moments.{offset_text};
ghost use Rattle.radio_parts_station.specs.World.{opening};
ghost use Rattle.radio_sockets.specs.declared.fault.ServeFault.TheVariants.{OutOfMemory as NoMemory};
ghost use Rattle.radiod.specs.Binding.{IsNotBound};
ghost use Rattle.radiod.specs.Ends.{EndsService};
ghost use Rattle.radiod.specs.declared.fault.NotBound.{NotBound as NotBoundOf};

use crate::fault::{Fault, NotBound};
use crate::log::{ProgramLog, say_unknown};
use radio_book::{Origin, PASSES, Unkept};
use radio_locks::Hall;
use radio_log::Moment;
use radio_outlet::LogQueue;
use radio_review::UnknownKey;
use radio_settings::AnswerSettings;
use radio_settings_values::Settings;
use radio_startup::{Station, moment_now, warn};
use radio_threads::{
    BindFault, Listening, OutOfMemory, ServeFault, Service, SystemNet, WebAnswers,
};
use std::alloc::Global;
use std::marker::Brand;
use std::sync::ledger::Blank;
use std::sync::{Arc, Wait};
use std::thread::Threads;
use std::time::Clock;

/// Binds the address and the port of the settings, says so in the log, and serves connections by so many workers as they say,
/// until a fault. `path` is that of the settings, `again` a second copy of them, by which relays are pulled in, and `unknown`
/// the keys of them that are passed over.
pub fn serve_station<W: Clock + Threads + Wait + Sync + Copy + Drop + Send + 'static>(
    rt: &HostRuntime,
    waits: &W,
    log: &ProgramLog<'_, W>,
    path: &str,
    station: Station,
    again: &Settings,
    unknown: &[UnknownKey],
) -> Fault
    ensures { EndsService result }
{
    match bind(rt, log, &station.settings, unknown) {
        Ok((listening, queue)) => {
            let _warnings = warn(rt, log, &station.settings, unknown);
            log.report_end(Fault::Serve(serve_in::<W, Brand>(
                rt,
                waits,
                station,
                again,
                listening,
                queue,
                Blank::new(PASSES),
            )))
        }
        Err(fault) => {
            drop(station);
            log.report_fault(path, fault)
        }
    }
}

/// Returns the bound socket, which was logged, and the queue of the log. Keys that are ignored are said first.
fn bind<W: Clock + Threads + Wait + Copy + Drop + Send + 'static>(
    rt: &HostRuntime,
    log: &ProgramLog<'_, W>,
    settings: &Settings,
    unknown: &[UnknownKey],
) -> Result<(Listening, Arc<LogQueue>), Fault>
    ensures { IfErr result (λ fault. (reason : NotBoundOf) × IsNotBound settings.now.listen reason fault) }
{
    let listening = bind_socket(rt, settings)?;
    say_unknown(rt, unknown);
    let listening = log.report_address(listening);
    match log.queue() {
        Ok(queue) => Ok((listening, queue)),
        Err(fault) => Err(fault),
    }
}

/// Returns the bound socket.
fn bind_socket(rt: &HostRuntime, settings: &Settings) -> Result<Listening, Fault>
    ensures { IfErr result (λ fault. (reason : NotBoundOf) × IsNotBound settings.now.listen reason fault) }
{
    let (address, port) = bound_to(settings);
    match Listening::bind(rt, rt.alloc(), address, port) {
        Ok(listening) => Ok(listening),
        Err(BindFault::NoAddress) => Err(cannot_bind(rt, settings, NotBound::NoAddress)),
        Err(BindFault::Refused(error)) => {
            Err(cannot_bind(rt, settings, NotBound::Refused(error)))
        }
        Err(BindFault::OutOfMemory) => Err(Fault::OutOfMemory),
    }
}

/// The address and the port to bind.
fn bound_to(settings: &Settings) -> (&str, u16)
    ensures address { result.0.now ≡ settings.now.listen.address }
    ensures port { result.1 ≡ settings.now.listen.port }
{
    let listen = &settings.listen;
    (listen.address.as_str(), listen.port.get() as u16)
}

/// The address and the port of the settings cannot be bound, for this reason. `OutOfMemory` if memory is refused.
fn cannot_bind(rt: &HostRuntime, settings: &Settings, reason: NotBound) -> Fault
    ensures { IsNotBound settings.now.listen reason result }
{
    let (address, port) = bound_to(settings);
    match format!(in rt.alloc(); "{address}:{port}") {
        Ok(address) => Fault::CannotBind { address, reason },
        Err(_) => Fault::OutOfMemory,
    }
}

/// Serves connections by the station's settings and lists.
fn serve_in<W: Clock + Threads + Wait + Sync, H: Origin + Send + Sync>(
    rt: &HostRuntime,
    waits: &W,
    station: Station,
    again: &Settings,
    listening: Listening,
    log: Arc<LogQueue>,
    blank: Blank,
) -> ServeFault
    requires opening { H.opening ≡ opening station.settings station.lists }
    requires ledger { (blank.name ≡ H.name) × (blank.parts ≡ H.parts) × (blank.parts ≡ 2 ^ 32) }
{
    let Station {
        settings,
        answers,
        lists,
        proxies,
    } = station;
    let listening = listening.behind(proxies);
    let service = service_of(again, answers, moment_now(waits));
    let hall = Hall::<Unkept, H>::new(rt.alloc(), settings, lists, blank);
    serve_through(rt, waits, hall, again, service, listening, log)
}

/// Serves connections in this hall, with this queue of the log. `OutOfMemory` if memory was refused for the hall.
fn serve_through<W: Clock + Threads + Wait + Sync, H: Origin + Send + Sync>(
    rt: &HostRuntime,
    waits: &W,
    hall: Result<Hall<Unkept, H>, OutOfMemory>,
    settings: &Settings,
    service: Service,
    listening: Listening,
    log: Arc<LogQueue>,
) -> ServeFault
    ensures { IfErr hall (λ _. result ≡ NoMemory) }
{
    match hall {
        Ok(hall) => {
            let net = SystemNet::new(rt);
            let fault = listening.serve(waits, &net, &hall, settings, service, log);
            drop(hall);
            fault
        }
        Err(_) => {
            drop(listening);
            drop(log);
            ServeFault::OutOfMemory
        }
    }
}

/// What the settings say of the service, which starts at this moment: as many may linger as may be clients.
// rule: Polls
fn service_of(settings: &Settings, answers: AnswerSettings, start: Option<Moment>) -> Service
    ensures commands { result.web.browser_commands ≡ answers.browser_commands }
    ensures caches { result.web.cache_control ≡ answers.cache_control }
    ensures sandbox { result.web.sandbox ≡ answers.has_table }
    ensures heads { result.web.icecast_heads ≡ answers.icecast_heads }
    ensures start { result.web.server_start ≡ option_map offset_text start }
    ensures polls { result.log_polls ≡ answers.log_polls }
    ensures workers { result.workers ≡ settings.now.listen.workers }
    ensures patience { result.patience_s ≡ settings.now.limits.source_timeout }
    ensures lingering { result.most_lingering ≡ settings.now.limits.clients }
    ensures queue { result.queue_size ≡ settings.now.limits.queue_size }
{
    Service {
        web: web_of(answers, start),
        log_polls: answers.log_polls,
        workers: settings.listen.workers.get(),
        patience_s: settings.limits.source_timeout.get(),
        most_lingering: settings.limits.clients.get() as usize,
        queue_size: settings.limits.queue_size.get() as u64,
    }
}

/// Returns what the settings say of answers, as connections take it, and when the server started, if
/// clients may know it.
// rule: Commands by a browser; Cache control
pub fn web_of(answers: AnswerSettings, start: Option<Moment>) -> WebAnswers
    ensures commands { result.browser_commands ≡ answers.browser_commands }
    ensures caches { result.cache_control ≡ answers.cache_control }
    ensures sandbox { result.sandbox ≡ answers.has_table }
    ensures heads { result.icecast_heads ≡ answers.icecast_heads }
    ensures start { result.server_start ≡ option_map offset_text start }
{
    WebAnswers {
        browser_commands: answers.browser_commands,
        cache_control: answers.cache_control,
        sandbox: answers.has_table,
        icecast_heads: answers.icecast_heads,
        server_start: match start {
            Some(start) => Some(start.offset_text()),
            None => None,
        },
    }
}
