//! `radiod`: an Internet radio server.
//!
//! `radiod play SETTINGS` reads a script on standard input, and writes its transcript on standard
//! output. `radiod serve SETTINGS` serves connections over TCP. `radiod check SETTINGS` reads what `serve` reads, and writes
//! what is doubtful in it. `radiod --version` and `radiod --help` write what they name. A fault is one line on standard
//! error, with status 2 for the words of the call, 3 for the settings and the files that they name, and else 1.
#![tactic(auto)]

ghost use Rattle.std.specs.Prelude.{◌≡◌, ℕ, IfErr, IfOk, List, Ok, Option, length};
ghost use Rattle.radio_settings.specs.Document.{reading_of};
ghost use Rattle.radio_review.specs.declared.unknown.UnknownKey.{UnknownKey as UnknownKeyOf};
ghost use Rattle.radio_settings_values.specs.declared.settings.Settings.{Settings as SettingsOf};
ghost use Rattle.radio_startup.specs.Warnings.{warnings_of};
ghost use Rattle.radiod.specs.declared.fault.Fault.TheVariants.{File};
ghost use Rattle.radiod.specs.Checks.{verdict};
ghost use Rattle.radiod.specs.Ends.{Ends, EndsCall, EndsCheck, EndsPlay, EndsService};

mod fault;
mod help;
mod log;
mod output;
mod serving;
mod words;

use crate::fault::Fault;
use crate::help::{write_help, write_version};
use crate::log::{ProgramLog, say, say_unknown};
use crate::serving::{serve_station, web_of};
use crate::words::read_words;
use radio_floor::Tally;
use radio_headline::play;
use radio_script::BufferedTally;
use radio_startup::{
    CommandLine, FileFault, SettingsText, Station, SystemFiles, read_station, read_text, warn,
};
use std::process::ExitCode;
use std::sync::Wait;
use std::thread::Threads;
use std::time::Clock;

fn main(rt: HostRuntime) -> ExitCode {
    match run(&rt, &rt) {
        Ok(()) => ExitCode::SUCCESS,
        Err(fault) => ExitCode::from(fault.status()),
    }
}

/// Does what the words of the call ask for. The fault, which was said on standard error, is one of the words or of what they ask for.
fn run<W: Clock + Threads + Wait + Sync + Copy + Drop + Send + 'static>(
    rt: &HostRuntime,
    waits: &W,
) -> Result<(), Fault>
    ensures { IfErr result Ends }
{
    match read_words(rt) {
        Ok(call) => perform(rt, waits, call),
        Err(fault) => Err(say(rt, fault)),
    }
}

/// Does what a call asks for. A fault was said on standard error.
fn perform<W: Clock + Threads + Wait + Sync + Copy + Drop + Send + 'static>(
    rt: &HostRuntime,
    waits: &W,
    call: CommandLine,
) -> Result<(), Fault>
    ensures { IfErr result (EndsCall call) }
{
    match call {
        CommandLine::Play(path) => said(rt, play_script(rt, path.as_str())),
        CommandLine::Serve(path) => serve_file(rt, waits, path.as_str()),
        CommandLine::Check { path, is_strict } => check_file(rt, waits, path.as_str(), is_strict),
        CommandLine::Version => said(rt, write_version(rt)),
        CommandLine::Help => said(rt, write_help(rt)),
    }
}

/// The same, and a fault is said on standard error.
fn said(rt: &HostRuntime, done: Result<(), Fault>) -> Result<(), Fault>
    ensures { result ≡ done }
{
    match done {
        Ok(()) => Ok(()),
        Err(fault) => Err(say(rt, fault)),
    }
}

/// Serves connections, with the settings of this file, until a fault.
fn serve_file<W: Clock + Threads + Wait + Sync + Copy + Drop + Send + 'static>(
    rt: &HostRuntime,
    waits: &W,
    path: &str,
) -> Result<(), Fault>
    ensures { IfErr result EndsService }
{
    match ProgramLog::start(rt, waits) {
        Ok(log) => serve_logged(rt, waits, &log, path),
        Err(fault) => Err(say(rt, fault)),
    }
}

/// Serves connections, with the settings of this file and this log, until a fault.
fn serve_logged<W: Clock + Threads + Wait + Sync + Copy + Drop + Send + 'static>(
    rt: &HostRuntime,
    waits: &W,
    log: &ProgramLog<'_, W>,
    path: &str,
) -> Result<(), Fault>
    ensures { IfErr result EndsService }
{
    match read_text(&SystemFiles::new(rt), path) {
        Ok(text) => Err(serve_text(rt, waits, log, path, &text)),
        Err(fault) => Err(reported(log, path, fault)),
    }
}

/// Serves connections, with these settings of a file, until a fault.
fn serve_text<W: Clock + Threads + Wait + Sync + Copy + Drop + Send + 'static>(
    rt: &HostRuntime,
    waits: &W,
    log: &ProgramLog<'_, W>,
    path: &str,
    text: &SettingsText,
) -> Fault
    ensures { EndsService result }
{
    let unknown = match text.unknown_keys(rt.alloc()) {
        Ok(unknown) => unknown,
        Err(fault) => return reported(log, path, fault),
    };
    match text.station_twice(&SystemFiles::new(rt)) {
        Ok((station, again)) => {
            let fault = serve_station(rt, waits, log, path, station, &again, unknown.as_slice());
            drop(again);
            fault
        }
        Err(fault) => reported(log, path, fault),
    }
}

/// Returns the fault of a file, which the log and standard error get.
fn reported<W: Clock + Threads + Wait + Copy + Drop + Send + 'static>(
    log: &ProgramLog<'_, W>,
    path: &str,
    fault: FileFault,
) -> Fault
    ensures { result ≡ File fault }
{
    log.report_fault(path, Fault::File(fault))
}

/// Reads what `serve` reads. Logs what is doubtful as `serve` does, and then `ok`; warnings are a fault if the check is
/// strict.
fn check_file<W: Clock + Threads + Wait + Sync + Copy + Drop + Send + 'static>(
    rt: &HostRuntime,
    waits: &W,
    path: &str,
    is_strict: bool,
) -> Result<(), Fault>
    ensures { IfErr result (EndsCheck is_strict) }
{
    match ProgramLog::start(rt, waits) {
        Ok(log) => check_logged(rt, &log, path, is_strict),
        Err(fault) => Err(say(rt, fault)),
    }
}

/// Reads what `serve` reads, and logs here what is doubtful.
fn check_logged<W: Clock + Threads + Wait + Copy + Drop + Send + 'static>(
    rt: &HostRuntime,
    log: &ProgramLog<'_, W>,
    path: &str,
    is_strict: bool,
) -> Result<(), Fault>
    ensures { IfErr result (EndsCheck is_strict) }
{
    match warnings_of(rt, log, path) {
        Ok(warnings) => {
            let verdict = verdict(is_strict, warnings);
            said(rt, log.report_verdict(verdict))
        }
        Err(fault) => Err(reported(log, path, fault)),
    }
}

/// Returns the result of a check with so many warnings: they are a fault if it is strict.
// rule: Settings check
fn verdict(is_strict: bool, warnings: usize) -> Result<(), Fault>
    ensures { result ≡ verdict is_strict warnings }
{
    if is_strict && warnings > 0 {
        return Err(Fault::Warnings);
    }
    Ok(())
}

/// Returns how many warnings there are of a settings file; each was logged.
fn warnings_of<W: Clock + Threads + Wait + Copy + Drop + Send + 'static>(
    rt: &HostRuntime,
    log: &ProgramLog<'_, W>,
    path: &str,
) -> Result<usize, FileFault>
    // those of the settings that some bytes say, by some keys that are passed over and what the system allows
    ensures { IfOk result (λ count. (bytes : List ℕ) × (settings : SettingsOf) × (unknown : List UnknownKeyOf) × (descriptors : Option ℕ)
        × (reading_of bytes ≡ Ok settings) × (count ≡ length (warnings_of settings unknown descriptors))) }
{
    let files = SystemFiles::new(rt);
    let text = read_text(&files, path)?;
    let unknown = text.unknown_keys(rt.alloc())?;
    let station = text.station(&files)?;
    say_unknown(rt, unknown.as_slice());
    match warn(rt, log, &station.settings, unknown.as_slice()) {
        Ok(count) => Ok(count),
        Err(_) => Err(FileFault::OutOfMemory),
    }
}

/// Plays the script on standard input, with the settings of this file.
fn play_script(rt: &HostRuntime, path: &str) -> Result<(), Fault>
    ensures { IfErr result EndsPlay }
{
    match read_station(&SystemFiles::new(rt), path) {
        Ok(station) => play_in(rt, station),
        Err(fault) => Err(Fault::File(fault)),
    }
}

/// Plays the script on standard input.
fn play_in(rt: &HostRuntime, station: Station) -> Result<(), Fault>
    ensures { IfErr result EndsPlay }
{
    let Ok(mut reader) = BufferedTally::new(rt.alloc(), rt.stdin()) else {
        drop(station);
        return Err(Fault::OutOfMemory);
    };
    let mut writer = Tally::new(rt.stdout());
    let Station {
        settings,
        answers,
        lists,
        proxies,
    } = station;
    // A script names each peer itself.
    drop(proxies);
    // A script's transcript is the same whenever it is played.
    let web = web_of(answers, None);
    let played = play(rt.alloc(), web, settings, lists, &mut reader, &mut writer);
    drop(reader);
    drop(writer);
    match played {
        Ok(()) => Ok(()),
        Err(fault) => Err(Fault::Play(fault)),
    }
}
