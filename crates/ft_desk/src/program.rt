//! The program: its arguments, its files, the run of its script, and its exit status.

ghost use Rattle.std.specs.Prelude.{◌≡◌, ◌≤◌, map, string_bytes};
ghost use Rattle.std.specs.Result.{result_map_both};
ghost use Rattle.ft_answers.specs.Base.{empty_base};
ghost use Rattle.ft_script.specs.Files.{FileAt, TellsReader};
ghost use Rattle.ft_script.specs.Words.{named_by_words};
ghost use Rattle.ft_desk.specs.Program.{exit_status_of, told_of_words, told_of_run, told_of_file, FilesGive};
ghost use Rattle.ft_desk.specs.inner.Ends.{RunTells, ProgramEnds};
ghost use Rattle.ft_desk.specs.declared.program.Fault.TheVariants.{Memory};

use crate::counted::{CountedReader, CountedWriter};
use crate::interpreter::Interpreter;
use crate::running::{RunFault, Status, run_counted};
use ft_answers::Board;
use ft_desk_core::Desk;
use ft_script::{FileFault, Paths, WordsFault, read_file, read_words};
use std::alloc::{AllocError, AllocFailed, Global};
use std::io::{BufReader, ErrorKind, Read};
use std::rt::{Env, Files};
use std::{env, io, mem};
use thiserror::Error;

/// The program's name, which stands before its faults.
const NAME: &str = "histdesk";

/// How many bytes of the script are read at once.
const BUFFER: usize = 65_536;

/// Why the program ended before its script did.
#[derive(Debug, Drop, Error)]
pub enum Fault<'a> {
    /// An argument looks like an option.
    #[error("bad words")]
    Words,
    /// A trace file cannot be read whole, or the script cannot be opened.
    #[error("cannot read {0}")]
    File(&'a str),
    /// Memory ran out.
    #[error("out of memory")]
    Memory,
    /// The script opened, but reading it failed; or the arguments are no text.
    #[error("read failed")]
    Read,
    /// Standard output failed.
    #[error("write failed")]
    Write,
}

impl<'a> From<AllocError> for Fault<'a> {
    ghost from_gives = { λ _ fault. fault ≡ Memory };

    fn from(_error: AllocError) -> Fault<'a> {
        Fault::Memory
    }
}

impl<'a, T: Drop> From<AllocFailed<T>> for Fault<'a> {
    ghost from_gives = { λ _ fault. fault ≡ Memory };

    fn from(_error: AllocFailed<T>) -> Fault<'a> {
        Fault::Memory
    }
}

impl<'a> From<WordsFault> for Fault<'a> {
    ghost from_gives = { λ fault told. told ≡ told_of_words fault };

    fn from(fault: WordsFault) -> Fault<'a> {
        match fault {
            WordsFault::Memory => Fault::Memory,
            WordsFault::Refused => Fault::Words,
        }
    }
}

impl<'a> From<RunFault> for Fault<'a> {
    ghost from_gives = { λ fault told. told ≡ told_of_run fault };

    fn from(fault: RunFault) -> Fault<'a> {
        match fault {
            RunFault::Memory => Fault::Memory,
            RunFault::Read => Fault::Read,
            RunFault::Write => Fault::Write,
        }
    }
}

impl<'a> Fault<'a> {
    /// The fault of arguments that cannot be read, for example because one is no text.
    pub fn of_arguments(error: &io::Error) -> Fault<'a> {
        match error.kind() {
            ErrorKind::OutOfMemory => Fault::Memory,
            _ => Fault::Read,
        }
    }

    /// The fault of a file that has this path.
    pub fn at(path: &'a str, fault: FileFault) -> Fault<'a>
        ensures { result ≡ told_of_file path.entry fault }
    {
        match fault {
            FileFault::Memory => Fault::Memory,
            FileFault::Unreadable => Fault::File(path),
        }
    }
}

/// The whole program, over a board that holds nothing: its exit status, 0 if each command of the
/// script was accepted, 1 if some was refused, and 2 after a fault, which goes to standard error.
pub fn histdesk<P, B>(rt: &P, board: B) -> u8
where
    P: Env + Files + Input + Print + Eprint + AllocGlobal,
    B: Board,
    requires { (B.shown board).base ≡ empty_base }
    ensures { result ≤ 2 }
{
    run_program(rt, NAME, Desk::new(rt.alloc(), board))
}

/// A program of a name that runs the script that its arguments name, over anything that answers the
/// script's lines and holds nothing yet: its exit status, as that of `histdesk`.
pub fn run_program<P, S>(rt: &P, name: &str, interpreter: S) -> u8
where
    P: Env + Files + Input + Print + Eprint + AllocGlobal,
    S: Interpreter,
    requires { S.base interpreter ≡ empty_base }
    ensures { result ≤ 2 }
{
    let args = match arguments(rt) {
        Ok(args) => args,
        Err(error) => return exit_status(rt, name, Err(Fault::of_arguments(&error))),
    };
    exit_status(rt, name, run_words(rt, interpreter, args.as_slice()))
}

/// The program's arguments, its own name first.
fn arguments<P: Env + AllocGlobal>(rt: &P) -> io::Result<Vec<String>> {
    Ok(env::args(rt)?.collect(rt.alloc())?)
}

/// The exit status of a run of the program of a name. A fault is printed after the name.
fn exit_status<P: Eprint>(rt: &P, name: &str, ended: Result<Status, Fault<'_>>) -> u8
    ensures { result ≡ exit_status_of ended.entry }
{
    match ended {
        Ok(Status::AllAccepted) => 0,
        Ok(Status::SomeRefused) => 1,
        Err(fault) => {
            let _ = eprintln!(rt; "{name}: {fault}");
            2
        }
    }
}

/// Reads the arguments, then the trace files in order, then runs the script: the first fault
/// decides.
fn run_words<'a, P, S>(rt: &P, interpreter: S, args: &'a [String]) -> Result<Status, Fault<'a>>
where
    P: Paths + Input + Print + AllocGlobal,
    S: Interpreter,
    requires { S.base interpreter ≡ empty_base }
    ensures { ProgramEnds S.means (P.told rt.now) (named_by_words (map string_bytes args.entry.now)) result }
{
    let alloc = rt.alloc();
    let words = read_words(alloc, args)?;
    let traces = read_traces(alloc, rt, words.traces.as_slice())?;
    let Some(path) = words.script else {
        return run_script(rt, interpreter, traces.as_slice(), rt.reader());
    };
    match rt.open_at(path) {
        Ok(script) => run_script(rt, interpreter, traces.as_slice(), script),
        Err(error) => Err(Fault::at(path, FileFault::from(error))),
    }
}

/// The trace files at these paths, each read whole.
fn read_traces<'a, P: Paths>(
    alloc: Global,
    files: &P,
    paths: &[&'a str],
) -> Result<Vec<Vec<u8>>, Fault<'a>>
    ensures { FilesGive (P.told files.now) (map (λ path. path.now) paths.now)
        (result_map_both (λ traces. map (λ trace. trace.items) traces.items) (λ fault. fault) result) }
{
    let mut traces = Vec::with_capacity(alloc, paths.len())?;
    for path in paths {
        match read_file(alloc, files, path) {
            Ok(trace) => traces.push(trace)?,
            Err(fault) => return Err(Fault::at(path, fault)),
        }
    }
    Ok(traces)
}

/// Runs a script from its reader to standard output.
fn run_script<'a, P, S, R>(
    rt: &P,
    mut interpreter: S,
    traces: &[Vec<u8>],
    script: R,
) -> Result<Status, Fault<'a>>
where
    P: Print + AllocGlobal,
    S: Interpreter,
    R: Read + Drop,
    requires { S.base interpreter ≡ empty_base }
    ensures { (told : FileAt) → TellsReader told (R.remaining script)
        → RunTells (S.means (map (λ trace. trace.items) traces.now)) told result }
{
    let alloc = rt.alloc();
    let mut script = BufReader::with_capacity(alloc, BUFFER, script).map_err(|_| Fault::Memory)?;
    // A command's output is written at once, so that whoever types a script sees it.
    let mut out = io::writer(rt);
    let mut script = CountedReader::new(&mut script);
    let mut out = CountedWriter::new(&mut out);
    let ended = run_counted(&mut interpreter, traces, &mut script, &mut out);
    // The process ends next, and all that is held goes with it at once.
    mem::forget(interpreter);
    Ok(ended?)
}
