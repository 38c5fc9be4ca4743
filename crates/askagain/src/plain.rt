//! Runs over the board that keeps no tables and replays at each answer: the slow way, to compare
//! with. Its edits have no report.

use ft_desk::{PlainBoard, RunFault, Status, run};
use ft_watch::run_watch;
use std::io::{self, ErrorKind};

/// Runs a script as `histdesk` does, to standard output, and answers whether each command was
/// accepted.
pub(crate) fn run_plain<P: Print + AllocGlobal>(
    rt: &P,
    script: &[u8],
    traces: &[Vec<u8>],
) -> io::Result<bool> {
    let alloc = rt.alloc();
    let mut rest = script;
    let mut out = io::writer(rt);
    match run(alloc, PlainBoard::new(alloc), traces, &mut rest, &mut out) {
        Ok(Status::AllAccepted) => Ok(true),
        Ok(Status::SomeRefused) => Ok(false),
        Err(fault) => Err(error_of(fault)),
    }
}

/// Runs a script as `histwatch` does, to standard output.
pub(crate) fn watch_plain<P: Print + AllocGlobal>(
    rt: &P,
    script: &[u8],
    traces: &[Vec<u8>],
) -> io::Result<()> {
    let alloc = rt.alloc();
    let mut rest = script;
    let mut out = io::writer(rt);
    match run_watch(alloc, PlainBoard::new(alloc), traces, &mut rest, &mut out) {
        Ok(_) => Ok(()),
        Err(fault) => Err(error_of(fault)),
    }
}

/// The error of a run that ended early.
fn error_of(fault: RunFault) -> io::Error {
    match fault {
        RunFault::Memory => io::Error::from(ErrorKind::OutOfMemory),
        RunFault::Read | RunFault::Write => io::Error::from(ErrorKind::Other),
    }
}
