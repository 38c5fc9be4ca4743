//! Running a script.

ghost use Rattle.std.specs.Prelude.{◌≡◌, ◌≤◌, map};
ghost use Rattle.std.specs.Io.KnownBytes.{Keeps};
ghost use Rattle.ft_answers.specs.Base.{empty_base};
ghost use Rattle.ft_script.specs.Script.{asked_by};
ghost use Rattle.ft_desk.specs.Output.{outcome};
ghost use Rattle.ft_desk.specs.Run.{asking_limit, status_of, RunEnds};
ghost use Rattle.ft_desk.specs.Counts.{NoCalls};
ghost use Rattle.ft_desk.specs.Steps.{LineGives, AsksReader, CallsWriter, write_failures};
ghost use Rattle.ft_desk.specs.Steps.{LinesEnd, FlushGives};

use crate::counted::{CountedReader, CountedWriter};
use crate::interpreter::Interpreter;
use crate::pieces::{Taken, take_part};
use crate::sending::send;
use ft_answers::Board;
use ft_desk_core::Desk;
use std::alloc::{AllocError, Global};
use std::io::{BufRead, Write};
use thiserror::Error;

/// How often a script's reader is asked at most, so that a script without an end is given up: one of
/// 1 GiB that comes byte by byte is still read.
pub const ASKING_LIMIT: u32 = 1_073_741_824;

/// Whether each command of a script was accepted.
#[derive(Clone, Copy, Debug, PartialEq, Eq)]
pub enum Status {
    /// Each command was accepted.
    AllAccepted,
    /// Some command was refused.
    SomeRefused,
}

/// Why a run ended before its script did.
#[derive(Debug, Drop, Error)]
pub enum RunFault {
    /// A command or a part of a line found no memory. The output of the lines before it is written
    /// whole.
    #[error("out of memory")]
    Memory,
    /// The script's reader failed, or gave no end. The output of the lines that were read whole is
    /// written.
    #[error("read failed")]
    Read,
    /// The writer failed or took nothing. The output of the lines before the last that was read is
    /// written whole, and a beginning of that one's; or all output is written, if the flush failed.
    #[error("write failed")]
    Write,
}

/// Runs a script over a board on which nothing is held or attached, and writes what its commands
/// print, each command's text when the command is done. The Nth file is what `load @N` loads. A
/// script that is in memory is run by `run_text`.
///
/// Fails for memory, if the reader fails or shows no end though it was asked `ASKING_LIMIT` times,
/// and if the writer or the flush at the end fails; an interrupted read or write is a failure. The
/// writer is flushed once, but not after a failed write.
pub fn run<B: Board, R: BufRead, W: Write>(
    alloc: Global,
    board: B,
    files: &[Vec<u8>],
    script: &mut R,
    out: &mut W,
) -> Result<Status, RunFault>
    requires { (B.shown board).base ≡ empty_base }
    ensures { RunEnds (outcome (map (λ f. f.items) files.now)) result
        (R.remaining script.old) (R.remaining script.new)
        (W.contents out.old) (W.contents out.new) }
{
    let mut desk = Desk::new(alloc, board);
    let mut script = CountedReader::new(script);
    let mut out = CountedWriter::new(out);
    run_counted(&mut desk, files, &mut script, &mut out)
}

/// Runs a script as `run` does, over anything that answers its lines and holds nothing yet: what that
/// holds at the end is left to the caller. Reader and writer count their calls, and were not called
/// yet: the reader is asked `ASKING_LIMIT` times at most, and not again after it failed; nothing is
/// written after a failed write; the writer is flushed once, but not after a failed write.
pub fn run_counted<S: Interpreter, R: BufRead, W: Write>(
    interpreter: &mut S,
    files: &[Vec<u8>],
    script: &mut CountedReader<'_, R>,
    out: &mut CountedWriter<'_, W>,
) -> Result<Status, RunFault>
    requires empty { S.base interpreter.old ≡ empty_base }
    requires unasked { NoCalls script.old.asked }
    requires unwritten { NoCalls out.old.written }
    requires unflushed { NoCalls out.old.flushed }
    ensures ends { RunEnds (S.means (map (λ f. f.items) files.now)) result
        (R.remaining script.old.reader.now) (R.remaining script.new.reader.now)
        (W.contents out.old.writer.now) (W.contents out.new.writer.now) }
    ensures turns { script.new.asked.made ≤ asking_limit }
    ensures asks { AsksReader result script.new.asked }
    ensures calls { CallsWriter (S.means (map (λ f. f.items) files.now)) result
        out.new.written out.new.flushed
        (R.remaining script.old.reader.now) (R.remaining script.new.reader.now)
        (W.contents out.old.writer.now) (W.contents out.new.writer.now) }
    ensures same_reader { script.new.reader.ghost_name ≡ script.old.reader.ghost_name }
    ensures same_writer { out.new.writer.ghost_name ≡ out.old.writer.ghost_name }
{
    let answer = answer_script(interpreter, files, script, out);
    flush_after(answer, out)
}

/// Answers the lines of a script, one after the other. The reader is asked `ASKING_LIMIT` times at
/// most, and not again once it failed.
fn answer_script<S: Interpreter, R: BufRead, W: Write>(
    interpreter: &mut S,
    files: &[Vec<u8>],
    script: &mut CountedReader<'_, R>,
    out: &mut CountedWriter<'_, W>,
) -> Result<Status, RunFault>
    requires empty { S.base interpreter.old ≡ empty_base }
    requires unasked { NoCalls script.old.asked }
    requires unwritten { NoCalls out.old.written }
    ensures ends { LinesEnd (S.means (map (λ f. f.items) files.now)) result
        (R.remaining script.old.reader.now) (R.remaining script.new.reader.now)
        (W.contents out.old.writer.now) (W.contents out.new.writer.now) }
    ensures turns { script.new.asked.made ≤ asking_limit }
    ensures asks { AsksReader result script.new.asked }
    ensures failed { out.new.written.failed ≡ write_failures result }
    ensures flushed { out.new.flushed ≡ out.old.flushed }
    ensures same_reader { script.new.reader.ghost_name ≡ script.old.reader.ghost_name }
    ensures same_writer { out.new.writer.ghost_name ≡ out.old.writer.ghost_name }
{
    let mut piece = Vec::new(interpreter.alloc());
    let mut refused = false;
    for _turn in 0..ASKING_LIMIT {
        match take_part(script, &mut piece)? {
            Taken::Part => {}
            Taken::Line => {
                refused |= answer_line(interpreter, files, &piece, out)?;
                piece.clear();
            }
            Taken::End => {
                if !piece.is_empty() {
                    refused |= answer_line(interpreter, files, &piece, out)?;
                }
                return Ok(status_from(refused));
            }
        }
    }
    Err(RunFault::Read)
}

/// Does what a line asks for, and then writes what it prints: whether it was refused.
fn answer_line<S: Interpreter, W: Write>(
    interpreter: &mut S,
    files: &[Vec<u8>],
    line: &[u8],
    out: &mut CountedWriter<'_, W>,
) -> Result<bool, RunFault>
    requires well { out.old.written.failed ≡ 0 }
    ensures gives { LineGives
        (S.means (map (λ f. f.items) files.now) (S.base interpreter.old) (asked_by line.now))
        (S.base interpreter.new) (W.contents out.old.writer.now) (W.contents out.new.writer.now) result }
    ensures failed { out.new.written.failed ≡ write_failures result }
    ensures flushed { out.new.flushed ≡ out.old.flushed }
    ensures same { out.new.writer.ghost_name ≡ out.old.writer.ghost_name }
{
    let done = match interpreter.perform(files, line) {
        Ok(done) => done,
        Err(AllocError) => return Err(RunFault::Memory),
    };
    match send(out, &done.text) {
        Ok(()) => Ok(done.refused),
        Err(_) => Err(RunFault::Write),
    }
}

/// The status, from whether some command was refused.
pub(crate) fn status_from(refused: bool) -> Status
    ensures { result ≡ status_of refused }
{
    if refused {
        Status::SomeRefused
    } else {
        Status::AllAccepted
    }
}

/// Flushes the writer once, but not after a failed write. A failing flush spoils only a status.
fn flush_after<W: Write>(
    answer: Result<Status, RunFault>,
    out: &mut CountedWriter<'_, W>,
) -> Result<Status, RunFault>
    requires unflushed { NoCalls out.old.flushed }
    ensures answer { FlushGives answer result out.new.flushed }
    ensures kept { Keeps (W.contents out.old.writer.now) (W.contents out.new.writer.now) }
    ensures written { out.new.written ≡ out.old.written }
    ensures same { out.new.writer.ghost_name ≡ out.old.writer.ghost_name }
{
    match answer {
        Err(RunFault::Write) => Err(RunFault::Write),
        Err(fault) => {
            let _unheeded = out.flush();
            Err(fault)
        }
        Ok(status) => match out.flush() {
            Ok(()) => Ok(status),
            Err(_) => Err(RunFault::Write),
        },
    }
}
