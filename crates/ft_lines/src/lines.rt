//! The lines of a text.

ghost use Rattle.std.specs.Prelude.{◌≡◌, IfOk};
ghost use Rattle.ft_lines.specs.Lines.{end_of, text_lines};

use crate::line::{LineKind, TextLine};
use ft_text::next_line;
use std::alloc::{AllocError, Global};

/// How many bytes of a text make a line, more or less: the kernel's own lines are a little longer.
const LINE_BYTES: usize = 128;

/// Where a line ends that begins at this byte of a text of this size: behind its line break, or with the text.
#[inline(always)]
fn end_of(size: u64, start: u64, line: &[u8]) -> u64
    ensures { result ≡ end_of size start line.now }
{
    start
        .saturating_add(line.len() as u64)
        .saturating_add(1)
        .min(size)
}

/// The lines of a text, in its order: where each ends, and what it is. Fails only for memory.
pub fn lines_in(alloc: Global, text: &[u8]) -> Result<Vec<TextLine>, AllocError>
    ensures { IfOk result (λ lines. lines.items ≡ text_lines text.now) }
{
    let size = text.len() as u64;
    let mut lines = Vec::with_capacity(alloc, text.len() / LINE_BYTES)?;
    let mut rest = text;
    let mut start = 0;
    while let Some((line, behind)) = next_line(rest) {
        let end = end_of(size, start, line);
        lines.push(TextLine {
            end,
            kind: LineKind::of(line),
        })?;
        start = end;
        rest = behind;
    }
    Ok(lines)
}
