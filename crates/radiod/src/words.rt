//! What the words of the call ask for.

ghost use Rattle.std.specs.Prelude.{◌≡◌, Err, IfErr, MatchOption, Ok};
ghost use Rattle.radiod.specs.declared.fault.Fault.TheVariants.{Usage as Unknown};
ghost use Rattle.radiod.specs.Ends.{EndsWords};

use crate::fault::Fault;
use radio_startup::{CommandLine, call_by};
use std::alloc::Global;
use std::env;
use std::env::Args;
use std::io::ErrorKind;

/// Returns what the words `play SETTINGS`, `serve SETTINGS`, `check SETTINGS`, `check SETTINGS --strict`, `--version` or
/// `--help` ask for. Any other words, and words that are not UTF-8, are the fault `Usage`; memory that was refused for them
/// is `OutOfMemory`.
pub fn read_words(rt: &HostRuntime) -> Result<CommandLine, Fault>
    ensures { IfErr result EndsWords }
{
    match env::args(rt) {
        Ok(words) => read_call(words),
        Err(error) if error.kind() == ErrorKind::OutOfMemory => Err(Fault::OutOfMemory),
        Err(_) => Err(Fault::Usage),
    }
}

/// Reads the words behind the program's name; more than four are as four. The fault is `Usage`.
fn read_call(mut words: Args<Global>) -> Result<CommandLine, Fault>
    ensures { IfErr result (λ fault. fault ≡ Unknown) }
{
    let _program = words.next();
    let verb = words.next();
    let path = words.next();
    let flag = words.next();
    let more = words.next();
    drop(words);
    known(call_by(verb, path, flag, more))
}

/// The call, if the words ask for one; else they are the fault `Usage`.
fn known(call: Option<CommandLine>) -> Result<CommandLine, Fault>
    ensures { MatchOption call (result ≡ Err Unknown) (λ call. result ≡ Ok call) }
{
    match call {
        Some(call) => Ok(call),
        None => Err(Fault::Usage),
    }
}
