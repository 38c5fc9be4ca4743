//! Reading a script by pieces of its lines.

ghost use Rattle.std.specs.Prelude.{◌≡◌, ◌≢◌, ◌++◌, ◌+◌, ◌≤◌, take, All, OnOk, vec_len};
ghost use Rattle.ft_script.specs.Script.{line_limit};
ghost use Rattle.ft_desk.specs.Steps.{TakingGives, read_failures};
ghost use Rattle.ft_desk.specs.inner.Asking.{CutsAt, PartGives};

use crate::counted::CountedReader;
use crate::running::RunFault;
use ft_script::LINE_LIMIT;
use memchr::memchr;
use std::alloc::AllocError;
use std::io::BufRead;

/// The most bytes that are kept of a line: one more than a command may have, so that a longer line
/// is seen to be one.
const KEPT: usize = LINE_LIMIT + 1;

/// What was taken of a script when its reader was asked once.
#[derive(Clone, Copy, Debug, PartialEq, Eq)]
pub(crate) enum Taken {
    /// A part of a line.
    Part,
    /// The rest of a line, and its end.
    Line,
    /// Nothing: the script is at its end.
    End,
}

/// What is taken of the bytes that a reader shows.
#[derive(Clone, Copy, Debug, PartialEq, Eq)]
pub(crate) struct Part {
    /// What that is.
    taken: Taken,
    /// How many of the first bytes: a line's end is one of them.
    amount: usize,
}

/// Reads what the reader shows, up to and including a line's end, and adds the line's part to its
/// piece: a part without an end isn't empty. Memory and the reader can fail; an interrupted read is
/// an error too. The reader is asked once, and not after it failed.
pub(crate) fn take_part<R: BufRead>(
    script: &mut CountedReader<'_, R>,
    piece: &mut Vec<u8>,
) -> Result<Taken, RunFault>
    requires room { vec_len piece.old ≤ line_limit + 1 }
    requires well { script.old.asked.failed ≡ 0 }
    ensures gives { TakingGives result (R.remaining script.old.reader.now)
        (R.remaining script.new.reader.now) piece.old.items piece.new.items }
    ensures made { script.new.asked.made ≡ script.old.asked.made + 1 }
    ensures failed { script.new.asked.failed ≡ read_failures result }
    ensures same { script.new.reader.ghost_name ≡ script.old.reader.ghost_name }
{
    let part = match script.ask(piece) {
        Ok(Ok(part)) => part,
        Ok(Err(AllocError)) => return Err(RunFault::Memory),
        Err(_) => return Err(RunFault::Read),
    };
    script.consume(part.amount);
    Ok(part.taken)
}

/// Adds the part of a line that the shown bytes begin with to the line's piece. At the end of the
/// script no bytes are shown.
pub(crate) fn add_shown(piece: &mut Vec<u8>, shown: &[u8]) -> Result<Part, AllocError>
    requires { vec_len piece.old ≤ line_limit + 1 }
    ensures { PartGives result shown.now piece.old.items piece.new.items }
{
    if shown.is_empty() {
        return Ok(Part {
            taken: Taken::End,
            amount: 0,
        });
    }
    let (part, taken) = cut(shown);
    add_part(piece, &shown[..part])?;
    let amount = match taken {
        Taken::Line => part + 1,
        Taken::Part | Taken::End => part,
    };
    Ok(Part { taken, amount })
}

/// Where the line's part ends, and whether its end was met there.
fn cut(shown: &[u8]) -> (usize, Taken)
    ensures plain { All (λ byte. byte ≢ 10) (take result.0 shown.now) }
    ensures end { CutsAt result.1 shown.now result.0 }
{
    match memchr(b'\n', shown) {
        Some(end) => (end, Taken::Line),
        None => (shown.len(), Taken::Part),
    }
}

/// Adds a part to the piece of a line, which keeps its first `KEPT` bytes.
fn add_part(piece: &mut Vec<u8>, part: &[u8]) -> Result<(), AllocError>
    requires { vec_len piece.old ≤ line_limit + 1 }
    ensures { OnOk result (piece.new.items ≡ take (line_limit + 1) (piece.old.items ++ part.now)) }
{
    let room = KEPT - piece.len();
    piece.extend_from_slice(&part[..room.min(part.len())])
}
