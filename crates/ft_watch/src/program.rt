//! Running a script over a watch, and the program, except its `main`.

ghost use Rattle.std.specs.Prelude.{◌≡◌, ◌≤◌, map};
ghost use Rattle.ft_answers.specs.Base.{empty_base};
ghost use Rattle.ft_desk.specs.Run.{RunEnds};
ghost use Rattle.ft_watch.specs.Watched.{watched};

use crate::watch::Watch;
use ft_desk::{Board, CountedReader, CountedWriter, RunFault, Status, run_counted, run_program};
use std::alloc::Global;
use std::io::{BufRead, Write};
use std::rt::{Env, Files};

/// The program's name, which stands before its faults.
const NAME: &str = "histwatch";

/// Runs a script as `ft_desk::run` does, over a watch of a board on which nothing is held or
/// attached: after its own text, an accepted insert or strike prints also the rows that it changed.
///
/// Fails as `ft_desk::run` does, and for memory also if rows that changed find none: the output of
/// the commands before is then written whole. `ft_desk::run_counted`, over a `Watch`, says how
/// often it asks its reader and flushes its writer.
pub fn run_watch<B: Board, R: BufRead, W: Write>(
    alloc: Global,
    board: B,
    files: &[Vec<u8>],
    script: &mut R,
    out: &mut W,
) -> Result<Status, RunFault>
    requires { (B.shown board).base ≡ empty_base }
    ensures { RunEnds (watched (map (λ f. f.items) files.now)) result
        (R.remaining script.old) (R.remaining script.new)
        (W.contents out.old) (W.contents out.new) }
{
    let mut watch = Watch::new(alloc, board);
    let mut script = CountedReader::new(script);
    let mut out = CountedWriter::new(out);
    run_counted(&mut watch, files, &mut script, &mut out)
}

/// The whole program, over a board that holds nothing: its exit status, 0 if each command of the
/// script was accepted, 1 if some was refused, and 2 after a fault, which goes to standard error.
pub fn histwatch<P, B>(rt: &P, board: B) -> u8
where
    P: Env + Files + Input + Print + Eprint + AllocGlobal,
    B: Board,
    requires { (B.shown board).base ≡ empty_base }
    ensures { result ≤ 2 }
{
    run_program(rt, NAME, Watch::new(rt.alloc(), board))
}
