//! What the words of a command line ask for.

ghost use Rattle.std.specs.Prelude.{◌≡◌, Some};
ghost use Rattle.radio_startup.specs.Calls.{asked_alone, asked_of, asked_with_flag, command_line_of};

/// What the program is to do.
#[derive(Drop)]
pub enum CommandLine {
    /// To play a script, with the settings of the file of this path.
    Play(String),
    /// To serve connections, with the settings of the file of this path.
    Serve(String),
    /// To check the settings of the file of this path, and the files that they name. If it is strict, warnings count as
    /// a fault.
    Check { path: String, is_strict: bool },
    /// To write its name and version.
    Version,
    /// To write its usage.
    Help,
}

/// Returns what the words behind the program's name ask for: `play SETTINGS`, `serve SETTINGS`, `check SETTINGS`,
/// `check SETTINGS --strict`, `--version` or `--help`. `None` for any other words. A word may be missing only if those behind
/// it are.
// rule: Fault of a call
pub fn call_by(
    verb: Option<String>,
    path: Option<String>,
    flag: Option<String>,
    more: Option<String>,
) -> Option<CommandLine>
    ensures { result ≡ command_line_of verb path flag more }
{
    match (verb, path, flag, more) {
        (Some(verb), None, None, None) => call_alone(verb.as_str()),
        (Some(verb), Some(path), None, None) => call_of(verb.as_str(), path),
        (Some(verb), Some(path), Some(flag), None) => {
            call_with(verb.as_str(), path, flag.as_str())
        }
        _ => None,
    }
}

/// What a single word asks for.
fn call_alone(word: &str) -> Option<CommandLine>
    ensures { result ≡ asked_alone word.now }
{
    match word {
        "--version" => Some(CommandLine::Version),
        "--help" => Some(CommandLine::Help),
        _ => None,
    }
}

/// What a word and a path ask for.
fn call_of(verb: &str, path: String) -> Option<CommandLine>
    ensures { result ≡ asked_of verb.now path }
{
    match verb {
        "play" => Some(CommandLine::Play(path)),
        "serve" => Some(CommandLine::Serve(path)),
        "check" => Some(CommandLine::Check {
            path,
            is_strict: false,
        }),
        _ => None,
    }
}

/// What a word, a path and a flag ask for.
fn call_with(verb: &str, path: String, flag: &str) -> Option<CommandLine>
    ensures { result ≡ asked_with_flag verb.now path flag.now }
{
    if verb == "check" && flag == "--strict" {
        return Some(CommandLine::Check {
            path,
            is_strict: true,
        });
    }
    None
}
