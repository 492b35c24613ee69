//! What `--version` and `--help` write on standard output.

ghost use Rattle.std.specs.Prelude.{◌≡◌, IfErr, MatchResult};
ghost use Rattle.radio_script.specs.declared.faults.PlayFault.TheVariants.{Write};
ghost use Rattle.radiod.specs.declared.fault.Fault.TheVariants.{Play};

use crate::fault::Fault;
use radio_floor::PlayFault;
use radio_startup::VERSION;
use std::io;

/// What `--help` writes.
const HELP: &str = "\
radiod: an Internet radio server

usage:
  radiod serve SETTINGS   serves sources and listeners over TCP, and writes its log on standard output
  radiod check SETTINGS [--strict]
                          reads the settings as serve does, and writes its warnings and `ok`
  radiod play SETTINGS    plays the script on standard input, and writes its transcript on standard output
  radiod --version        writes the name of the program and its version
  radiod --help           writes this text

SETTINGS is a TOML file. The manual page radiod(1) and docs/ of its sources have the keys, the log and the statuses.
A fault is one line on standard error. The status is 2 for wrong words, 3 for the settings and the files that they
name, and 1 for other faults. With --strict it is 3 for warnings too.
";

/// Writes the program's name and its version on standard output. Output that takes no more is the fault `Play(Write)`.
pub fn write_version(rt: &HostRuntime) -> Result<(), Fault>
    ensures { IfErr result (λ fault. fault ≡ Play Write) }
{
    written(println!(rt; "radiod {VERSION}"))
}

/// Writes the usage on standard output. Output that takes no more is the fault `Play(Write)`.
pub fn write_help(rt: &HostRuntime) -> Result<(), Fault>
    ensures { IfErr result (λ fault. fault ≡ Play Write) }
{
    written(print!(rt; "{HELP}"))
}

fn written(done: io::Result<()>) -> Result<(), Fault>
    ensures { MatchResult done (λ _. result ≡ Ok tt) (λ _. result ≡ Err (Play Write)) }
{
    match done {
        Ok(()) => Ok(()),
        Err(_) => Err(Fault::Play(PlayFault::Write)),
    }
}
