//! The program's arguments: `histdesk [SCRIPT [TRACE]...]`.

ghost use Rattle.std.specs.Prelude.{◌≡◌, ◌≢◌, map, IfOk};
ghost use Rattle.clap.specs.Words.{kind_of};
ghost use Rattle.clap.specs.declared.error.kind.ErrorKind.TheVariants.{OutOfMemory};
ghost use Rattle.ft_script.specs.Words.{WordsGive, named_by_words, named_of_words};
ghost use Rattle.ft_script.specs.inner.Found.{found_by};
ghost use Rattle.ft_script.specs.declared.words.WordsFault.TheVariants.{Memory, Refused};

use clap::error::ErrorKind;
use clap::{Arg, ArgAction, ArgMatches, Command, Error};
use std::alloc::{AllocError, Global};
use std::convert::AsStr;

/// The name that stands for standard input, in SCRIPT's place.
const STANDARD_INPUT: &str = "-";

/// What the program's arguments name.
#[derive(Drop)]
pub struct Words<'a> {
    /// The script's path, or `None` for standard input.
    pub script: Option<&'a str>,
    /// The paths of the trace files, in order: the first is `@1` in the script.
    pub traces: Vec<&'a str>,
}

/// Why the program's arguments could not be read.
#[derive(Clone, Copy, Debug, PartialEq, Eq)]
pub enum WordsFault {
    /// Memory ran out.
    Memory,
    /// An argument looks like an option, and there are no options.
    Refused,
}

impl From<AllocError> for WordsFault {
    ghost from_gives = { λ _ fault. fault ≡ Memory };

    fn from(_error: AllocError) -> WordsFault {
        WordsFault::Memory
    }
}

/// Reads the program's arguments, the first of which is its own name.
///
/// Before the first `--`, or if there is none, an argument that begins with `-` is refused, unless
/// it is `-` itself. No argument, or `-` in SCRIPT's place, is standard input; a trace is always a
/// file.
pub fn read_words<'a, S: AsStr>(alloc: Global, args: &'a [S]) -> Result<Words<'a>, WordsFault>
    ensures { WordsGive (named_by_words (map S.text args.entry.now)) result }
{
    let script = Arg::new(alloc, "SCRIPT").action(ArgAction::Set);
    let trace = Arg::new(alloc, "TRACE").action(ArgAction::Append);
    let command = Command::new(alloc, "histdesk")
        .disable_help_flag(true)
        .arg(script)?
        .arg(trace)?;
    match command.try_get_matches_from(args) {
        Ok(matches) => Ok(named_by(alloc, &matches)?),
        Err(error) => Err(refusal(&error)),
    }
}

/// Why the parser of the arguments failed.
fn refusal(error: &Error) -> WordsFault
    ensures memory { kind_of error.now ≡ OutOfMemory → result ≡ Memory }
    ensures refused { kind_of error.now ≢ OutOfMemory → result ≡ Refused }
{
    match error.kind() {
        ErrorKind::OutOfMemory => WordsFault::Memory,
        _ => WordsFault::Refused,
    }
}

/// The paths among the matches.
fn named_by<'a>(alloc: Global, matches: &ArgMatches<'a>) -> Result<Words<'a>, AllocError>
    ensures { IfOk result (λ words. named_of_words words ≡ found_by matches.now) }
{
    let mut traces = Vec::new(alloc);
    if let Some(paths) = matches.get_strs("TRACE") {
        traces.extend_from_slice(paths)?;
    }
    let script = match matches.get_str("SCRIPT") {
        Some(STANDARD_INPUT) | None => None,
        Some(path) => Some(path),
    };
    Ok(Words { script, traces })
}
