//! The checks of a row.

ghost use Rattle.std.specs.Prelude.{◌≡◌};
ghost use Rattle.ft_desk.specs.Base.{empty_base};
ghost use Rattle.askagain.specs.declared.rows.checks.Unheld.TheVariants.{Memory};

use crate::rows::row::Row;
use ft_board::KeptBoard;
use ft_desk::{
    Board, Desk, FileFault, Performed, PlainBoard, RunFault, Status, perform, run, run_text,
};
use std::alloc::{AllocError, Global};
use std::fmt;

/// Why a row doesn't hold.
#[derive(Clone, Copy)]
pub(crate) enum Unheld {
    /// A file of the row cannot be read, or names no status.
    Unreadable,
    /// Memory ran out.
    Memory,
    /// `run` gives something else over the kept board.
    RunOverKept,
    /// `run` gives something else over the plain board.
    RunOverPlain,
    /// `run_text` gives something else over the kept board.
    TextOverKept,
    /// `run_text` gives something else over the plain board.
    TextOverPlain,
    /// A line gives something else over the kept board than over the plain one.
    LinesDiffer,
    /// A desk is deferred after a line.
    Deferred,
    /// The lines print something else.
    Lines,
}

impl fmt::Display for Unheld {
    fn fmt<W: fmt::Write>(&self, f: &mut fmt::Formatter<W>) -> fmt::Result {
        f.write_str(match self {
            Unheld::Unreadable => "cannot be read",
            Unheld::Memory => "out of memory",
            Unheld::RunOverKept => "run over the kept board",
            Unheld::RunOverPlain => "run over the plain board",
            Unheld::TextOverKept => "run_text over the kept board",
            Unheld::TextOverPlain => "run_text over the plain board",
            Unheld::LinesDiffer => "a line differs between the boards",
            Unheld::Deferred => "a desk is deferred after a line",
            Unheld::Lines => "line by line",
        })
    }
}

impl From<AllocError> for Unheld {
    ghost from_gives = { λ _ unheld. unheld ≡ Memory };

    fn from(_error: AllocError) -> Unheld {
        Unheld::Memory
    }
}

impl From<FileFault> for Unheld {
    fn from(fault: FileFault) -> Unheld {
        match fault {
            FileFault::Memory => Unheld::Memory,
            FileFault::Unreadable => Unheld::Unreadable,
        }
    }
}

/// Whether a row holds, and else the first check that it fails.
pub(crate) fn check(alloc: Global, row: &Row) -> Result<(), Unheld> {
    if !is_run(alloc, KeptBoard::new(alloc), row)? {
        return Err(Unheld::RunOverKept);
    }
    if !is_run(alloc, PlainBoard::new(alloc), row)? {
        return Err(Unheld::RunOverPlain);
    }
    if !is_run_in_memory(alloc, KeptBoard::new(alloc), row)? {
        return Err(Unheld::TextOverKept);
    }
    if !is_run_in_memory(alloc, PlainBoard::new(alloc), row)? {
        return Err(Unheld::TextOverPlain);
    }
    check_lines(alloc, Desks::new(alloc), row)
}

/// Whether `run` gives what it must over an empty board.
fn is_run<B: Board>(alloc: Global, board: B, row: &Row) -> Result<bool, AllocError>
    requires { (B.shown board).base ≡ empty_base }
{
    let mut script = row.script.as_slice();
    let mut out = Vec::new(alloc);
    match run(alloc, board, row.traces.as_slice(), &mut script, &mut out) {
        Ok(status) => Ok(gives(row, out.as_slice(), status)),
        // Writing to memory fails only if memory runs out.
        Err(RunFault::Memory | RunFault::Write) => Err(AllocError),
        Err(RunFault::Read) => Ok(false),
    }
}

/// Whether `run_text` gives what it must over an empty board.
fn is_run_in_memory<B: Board>(alloc: Global, board: B, row: &Row) -> Result<bool, AllocError>
    requires { (B.shown board).base ≡ empty_base }
{
    let ran = run_text(alloc, board, row.traces.as_slice(), row.script.as_slice())?;
    Ok(gives(row, ran.output.as_slice(), ran.status))
}

/// Whether that is the output and the status of a row.
fn gives(row: &Row, output: &[u8], status: Status) -> bool {
    output == row.expected.as_slice() && status == row.status
}

/// Whether the lines print what they must over both boards.
fn check_lines<K: Board, P: Board>(
    alloc: Global,
    mut desks: Desks<K, P>,
    row: &Row,
) -> Result<(), Unheld> {
    desks.perform_script(alloc, row.traces.as_slice(), row.script.as_slice())?;
    if desks.printed.as_slice() == row.expected.as_slice() {
        Ok(())
    } else {
        Err(Unheld::Lines)
    }
}

/// A desk over each board, and what the lines have printed.
#[derive(Drop)]
struct Desks<K: Board, P: Board> {
    kept: Desk<K>,
    plain: Desk<P>,
    printed: Vec<u8>,
}

impl Desks<KeptBoard, PlainBoard> {
    /// Desks over empty boards.
    fn new(alloc: Global) -> Desks<KeptBoard, PlainBoard> {
        Desks {
            kept: Desk::new(alloc, KeptBoard::new(alloc)),
            plain: Desk::new(alloc, PlainBoard::new(alloc)),
            printed: Vec::new(alloc),
        }
    }
}

impl<K: Board, P: Board> Desks<K, P> {
    /// Does the lines of a script. After the last line's end there is an empty line more, which asks
    /// for nothing.
    fn perform_script(
        &mut self,
        alloc: Global,
        traces: &[Vec<u8>],
        script: &[u8],
    ) -> Result<(), Unheld> {
        for line in script.split(|byte| *byte == b'\n') {
            self.perform_line(alloc, traces, line)?;
        }
        Ok(())
    }

    /// Does a line over both desks; it has to give the same over both. Neither desk may be deferred
    /// then: so an edit that was accepted has answered `Now`.
    fn perform_line(
        &mut self,
        alloc: Global,
        traces: &[Vec<u8>],
        line: &[u8],
    ) -> Result<(), Unheld> {
        let by_kept = perform(&mut self.kept, alloc, traces, line)?;
        let by_plain = perform(&mut self.plain, alloc, traces, line)?;
        if !is_same(&by_kept, &by_plain) {
            return Err(Unheld::LinesDiffer);
        }
        if self.kept.is_deferred() || self.plain.is_deferred() {
            return Err(Unheld::Deferred);
        }
        self.printed.extend_from_slice(by_kept.text.as_slice())?;
        Ok(())
    }
}

/// Whether a line gave the same over both desks.
fn is_same(by_kept: &Performed, by_plain: &Performed) -> bool {
    by_kept.text.as_slice() == by_plain.text.as_slice() && by_kept.refused == by_plain.refused
}
