//! The log of the program, and its faults.

ghost use Rattle.std.specs.Prelude.{◌≡◌, IfErr, IfSome};
ghost use Rattle.std.specs.String.{string_bytes};
ghost use Rattle.radiod.specs.declared.fault.Fault.TheVariants.{OutOfMemory as NoMemory};
ghost use Rattle.radiod.specs.Checks.{verdict_line};
ghost use Rattle.radiod.specs.FaultLines.{IsBindReason, IsReasonOf, bind_address, fault_fact, fault_place, faulty_key, file_of};

use crate::fault::{Fault, NotBound};
use crate::output::LimitedFile;
use radio_log::{Fact, FaultyKey, QuotedText};
use radio_outlet::{LogQueue, start_log};
use radio_review::UnknownKey;
use radio_startup::{Dated, Notices, line_now, log_start, words_of, words_of_unknown};
use radio_threads::Listening;
use std::sync::{Arc, Wait};
use std::thread::Threads;
use std::time::Clock;

/// For how many milliseconds the program waits at its end until what it says is written.
const LAST_WAIT_MS: u64 = 1000;

/// The log of the program, to which a thread of its own writes.
#[derive(Drop)]
pub struct ProgramLog<'a, W: Wait> {
    rt: &'a HostRuntime,
    waits: &'a W,
    queue: Arc<LogQueue>,
}

impl<'a, W: Clock + Threads + Wait + Copy + Drop + Send + 'static> ProgramLog<'a, W> {
    /// Starts the thread that writes the log to standard output. The fault `OutOfMemory` if memory or the thread is refused.
    pub fn start(rt: &'a HostRuntime, waits: &'a W) -> Result<ProgramLog<'a, W>, Fault>
        ensures { IfErr result (λ fault. fault ≡ NoMemory) }
    {
        let alloc = rt.alloc();
        let queue = match LimitedFile::standard_output(rt) {
            Some(file) => start_log(waits, alloc, file, rt.stderr()),
            None => start_log(waits, alloc, rt.stdout(), rt.stderr()),
        };
        match queue {
            Some(queue) => Ok(ProgramLog { rt, waits, queue }),
            None => Err(Fault::OutOfMemory),
        }
    }

    /// Returns the queue, for a thread that adds lines to it. The fault is `OutOfMemory`.
    pub fn queue(&self) -> Result<Arc<LogQueue>, Fault>
        ensures { IfErr result (λ fault. fault ≡ NoMemory) }
    {
        match self.queue.clone() {
            Ok(queue) => Ok(queue),
            Err(_) => Err(Fault::OutOfMemory),
        }
    }

    /// Adds the line that names the address at which this socket listens, and the log's first line. Returns the socket.
    pub fn report_address(&self, listening: Listening) -> Listening
        ensures { result ≡ listening }
    {
        let alloc = self.rt.alloc();
        if let Ok(address) = listening.address() {
            if let Ok(line) = format!(in alloc; "listening on {address}\n") {
                self.queue.add(self.waits, line.as_bytes(), 0);
            }
            if let Ok(address) = format!(in alloc; "{address}") {
                log_start(self, address.as_str());
            }
        }
        listening
    }

    /// Adds the last line of a check with this result, and returns that. It waits for a second at most until all is
    /// written.
    pub fn report_verdict(&self, verdict: Result<(), Fault>) -> Result<(), Fault>
        ensures { result ≡ verdict }
    {
        self.queue.add(self.waits, verdict_line(&verdict), 0);
        self.queue.wait_written(self.waits, LAST_WAIT_MS);
        verdict
    }

    /// Says the fault by which the program that served ends, adds its line, and returns the fault. It waits for a second at most
    /// until all is written: neither who reads the log nor who reads standard error keeps the program from its end.
    pub fn report_end(&self, fault: Fault) -> Fault
        ensures { result ≡ fault }
    {
        let fault = self.say_soon(fault);
        if let Some(why) = words_of(self.rt.alloc(), &fault) {
            self.add(Fact::Ended {
                why: QuotedText::of(why.as_bytes()),
            });
        }
        self.queue.wait_written(self.waits, LAST_WAIT_MS);
        fault
    }

    /// Says a fault on standard error, and waits for that for a second at most, if a thread can be had. Returns the fault.
    fn say_soon(&self, fault: Fault) -> Fault
        ensures { result ≡ fault }
    {
        let alloc = self.rt.alloc();
        let started = start_log(self.waits, alloc, self.rt.stderr(), self.rt.stderr());
        match (started, format!(in alloc; "radiod: {fault}\n")) {
            (Some(queue), Ok(line)) => {
                queue.add(self.waits, line.as_bytes(), 0);
                queue.wait_written(self.waits, LAST_WAIT_MS);
                fault
            }
            _ => say(self.rt, fault),
        }
    }

    /// Says a fault by which the program does not serve, and adds a line that has what is known of it in addition to its words.
    /// Returns the fault. `path` is that of the settings.
    pub fn report_fault(&self, path: &str, fault: Fault) -> Fault
        ensures { result ≡ fault }
    {
        let fault = say(self.rt, fault);
        let why = words_of(self.rt.alloc(), &fault);
        let reason = reason_of(self.rt, &fault);
        if let (Some(why), Some(reason)) = (why, reason) {
            self.add(fault_fact(path, &fault, why.as_str(), reason.as_str()));
            self.queue.wait_written(self.waits, LAST_WAIT_MS);
        }
        fault
    }
}

impl<'a, W: Wait> Notices for ProgramLog<'a, W> {
    fn add(&self, fact: Fact<'_>) {
        if let Some(Dated { line, seconds }) = line_now(self.rt, fact) {
            self.queue.add(self.waits, line.as_slice(), seconds);
        }
    }
}

/// Says on standard error which keys of the settings are passed over, a line for each.
pub fn say_unknown(rt: &HostRuntime, unknown: &[UnknownKey]) {
    for key in unknown {
        if let Some(words) = words_of_unknown(rt.alloc(), key) {
            let _ = eprintln!(rt; "radiod: warning {words}");
        }
    }
}

/// Says a fault on standard error, and returns it. If that takes nothing, only the status of the program says it.
pub fn say(rt: &HostRuntime, fault: Fault) -> Fault
    ensures { result ≡ fault }
{
    let _ = eprintln!(rt; "radiod: {fault}");
    fault
}

/// Returns the last line of a check with this result; none if it has a fault, which standard error
/// has.
fn verdict_line(verdict: &Result<(), Fault>) -> &'static [u8]
    ensures { result.now ≡ verdict_line verdict.now }
{
    match verdict {
        Ok(()) => b"ok\n",
        Err(_) => b"",
    }
}

/// The file that a fault is in.
fn file_of<'a>(settings: &'a str, fault: &'a Fault) -> &'a str
    ensures { result.now ≡ file_of fault.now settings.now }
{
    match fault {
        Fault::File(fault) => fault.file(settings),
        Fault::Usage
        | Fault::Play(_)
        | Fault::CannotBind { .. }
        | Fault::Serve(_)
        | Fault::Warnings
        | Fault::OutOfMemory => "",
    }
}

/// The line and the column of a fault, 0 where none is known.
fn place_of(fault: &Fault) -> (u64, u64)
    ensures { result ≡ fault_place fault.now }
{
    match fault {
        Fault::File(fault) => fault.place(),
        Fault::Usage
        | Fault::Play(_)
        | Fault::CannotBind { .. }
        | Fault::Serve(_)
        | Fault::Warnings
        | Fault::OutOfMemory => (0, 0),
    }
}

/// The key of the settings that a fault is of; all is empty if it is of none.
fn key_of(fault: &Fault) -> FaultyKey<'_>
    ensures { result ≡ faulty_key fault.now }
{
    match fault {
        Fault::File(fault) => fault.key(),
        Fault::Usage
        | Fault::Play(_)
        | Fault::CannotBind { .. }
        | Fault::Serve(_)
        | Fault::Warnings
        | Fault::OutOfMemory => FaultyKey {
            table: QuotedText::of(b""),
            mount: QuotedText::of(b""),
            value: QuotedText::of(b""),
            allowed: QuotedText::of(b""),
        },
    }
}

/// The address that was to be bound.
fn address_of(fault: &Fault) -> &str
    ensures { result.now ≡ bind_address fault.now }
{
    match fault {
        Fault::CannotBind { address, .. } => address.as_str(),
        Fault::Usage
        | Fault::File(_)
        | Fault::Play(_)
        | Fault::Serve(_)
        | Fault::Warnings
        | Fault::OutOfMemory => "",
    }
}

/// The reason that the system, or the reader of TOML, gives for a fault; empty if none is known. `None` if memory is refused.
fn reason_of(rt: &HostRuntime, fault: &Fault) -> Option<String>
    ensures { IfSome result (λ reason. IsReasonOf fault.now (string_bytes reason)) }
{
    match fault {
        Fault::File(fault) => fault.reason(rt.alloc()),
        Fault::CannotBind { reason, .. } => reason_not_bound(rt, reason),
        Fault::Usage | Fault::Play(_) | Fault::Serve(_) | Fault::Warnings | Fault::OutOfMemory =>
            words_of(rt.alloc(), &""),
    }
}

/// The reason why an address cannot be bound, in words. `None` if memory is refused.
fn reason_not_bound(rt: &HostRuntime, reason: &NotBound) -> Option<String>
    ensures { IfSome result (λ words. IsBindReason reason.now (string_bytes words)) }
{
    match reason {
        NotBound::Refused(error) => words_of(rt.alloc(), error),
        NotBound::NoAddress => words_of(rt.alloc(), &"not an IP address"),
    }
}

/// What the log says of a fault by which the program does not serve: these are its words and its reason, and `path` is that of the
/// settings.
fn fault_fact<'a>(path: &'a str, fault: &'a Fault, why: &'a str, reason: &'a str) -> Fact<'a>
    ensures { result ≡ fault_fact path.now fault.now why.now reason.now }
{
    let (line, column) = place_of(fault);
    Fact::Fault(radio_log::FaultNote {
        why: QuotedText::of(why.as_bytes()),
        file: QuotedText::of(file_of(path, fault).as_bytes()),
        line,
        column,
        address: QuotedText::of(address_of(fault).as_bytes()),
        reason: QuotedText::of(reason.as_bytes()),
        at: key_of(fault),
    })
}
