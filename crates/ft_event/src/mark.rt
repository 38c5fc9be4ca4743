//! Lines that report lost events.

ghost use Rattle.std.specs.Prelude.{◌≡◌, IfSome, IfNone};
ghost use Rattle.std.specs.Option.{option_map};
ghost use Rattle.ft_event.specs.Marks.{MarkIs, last_count};
ghost use Rattle.ft_event.specs.Skipped.{is_at_end};
ghost use Rattle.ft_event.specs.Spans.{behind, limited_number};
ghost use Rattle.ft_event.specs.declared.mark.Mark.{Mark};
ghost use Rattle.ft_event.specs.inner.MarkOf.{leading_number, spaced_count, count_or_none};
ghost use Rattle.ft_event.specs.inner.MarkOf.{lost_of, started_of, overwritten_of, written_of};
ghost use Rattle.ft_event.specs.inner.MarkOf.{mark_of};
ghost use Rattle.ft_fields.specs.Traced.{last_cpu};

use crate::scan::{Class, behind, number, run};
use ft_fields::Event;

/// What a line without an event reports of lost events.
#[derive(Clone, Copy, Debug, PartialEq, Eq)]
pub enum Mark {
    /// `CPU:n [LOST k EVENTS]`, or without the count: the CPU's buffer lost events between the
    /// CPU's events before this line and those after it.
    Lost {
        /// The CPU.
        cpu: u16,
        /// How many events were lost, if the kernel knows.
        count: Option<u64>,
    },
    /// `##### CPU n buffer started ####`: the CPU's first event comes next. Earlier ones may be
    /// overwritten.
    Started {
        /// The CPU.
        cpu: u16,
    },
    /// `# CPU n: k events overwritten`, which `tools/record` writes at the end: so many events of
    /// the CPU were lost before its first one.
    Overwritten {
        /// The CPU.
        cpu: u16,
        /// How many events were lost.
        count: u64,
    },
    /// `# entries-in-buffer/entries-written: a/b`, and what follows: how many of the written events
    /// the buffers still held.
    Written {
        /// How many events the buffers held.
        held: u64,
        /// How many events were written to them.
        written: u64,
    },
}

/// The number that digits write, or `None` if it fits no `u64` or a byte is no digit.
#[tactic(auto, unfolding(crate::specs::Spans::limited_number))]
fn wide_number(text: &[u8]) -> Option<u64>
    ensures { result ≡ limited_number last_count text.now }
{
    let mut number: u64 = 0;
    for byte in text {
        if !Class::Digit.has(*byte) {
            return None;
        }
        number = number
            .checked_mul(10)?
            .checked_add(u64::from(*byte - b'0'))?;
    }
    Some(number)
}

/// The count that the text's first digits write, and what is after them.
#[tactic(auto, unfolding(crate::specs::inner::MarkOf::leading_number))]
fn leading_count(text: &[u8]) -> Option<(u64, &[u8])>
    ensures { option_map (λ x. (x.0, x.1.now)) result ≡ leading_number last_count text.now }
{
    let (digits, rest) = run(text, Class::Digit)?;
    let count = wide_number(digits)?;
    Some((count, rest))
}

/// The CPU that the text's first digits write, and what is after them.
#[tactic(auto, unfolding(crate::specs::inner::MarkOf::leading_number))]
fn leading_cpu(text: &[u8]) -> Option<(u16, &[u8])>
    ensures { option_map (λ x. (x.0, x.1.now)) result ≡ leading_number last_cpu text.now }
{
    let (digits, rest) = run(text, Class::Digit)?;
    let cpu = number(digits, Event::LAST_CPU)?;
    Some((cpu as u16, rest))
}

/// A count and a space, and what is after them.
#[tactic(auto, unfolding(crate::specs::inner::MarkOf::spaced_count))]
fn spaced_count(text: &[u8]) -> Option<(u64, &[u8])>
    ensures { option_map (λ x. (x.0, x.1.now)) result ≡ spaced_count text.now }
{
    let (count, rest) = leading_count(text)?;
    let rest = behind(b" ", rest)?;
    Some((count, rest))
}

/// Perhaps a count and a space, and what is after them.
fn count_column(text: &[u8]) -> (Option<u64>, &[u8])
    ensures { (result.0, result.1.now) ≡ count_or_none (spaced_count text.now) text.now }
{
    match spaced_count(text) {
        Some((count, rest)) => (Some(count), rest),
        None => (None, text),
    }
}

/// Whether the text is the label, and nothing more.
fn is_whole<const N: usize>(label: &[u8; N], text: &[u8]) -> bool
    ensures { result ≡ is_at_end (behind label.now text.now) }
{
    match behind(label, text) {
        Some(rest) => rest.is_empty(),
        None => false,
    }
}

/// The mark of a line that says that a CPU's events were lost, since its buffer was full.
#[tactic(auto, unfolding(crate::specs::inner::MarkOf::lost_of))]
fn lost_of(line: &[u8]) -> Option<Mark>
    ensures { result ≡ lost_of line.now }
{
    let (cpu, rest) = leading_cpu(behind(b"CPU:", line)?)?;
    let (count, rest) = count_column(behind(b" [LOST ", rest)?);
    if !is_whole(b"EVENTS]", rest) {
        return None;
    }
    Some(Mark::Lost { cpu, count })
}

/// The mark of a line that says where a CPU's events begin.
#[tactic(auto, unfolding(crate::specs::inner::MarkOf::started_of))]
fn started_of(line: &[u8]) -> Option<Mark>
    ensures { result ≡ started_of line.now }
{
    let (cpu, rest) = leading_cpu(behind(b"##### CPU ", line)?)?;
    if !is_whole(b" buffer started ####", rest) {
        return None;
    }
    Some(Mark::Started { cpu })
}

/// The mark of a line that says how many events of a CPU were overwritten.
#[tactic(auto, unfolding(crate::specs::inner::MarkOf::overwritten_of))]
fn overwritten_of(line: &[u8]) -> Option<Mark>
    ensures { result ≡ overwritten_of line.now }
{
    let (cpu, rest) = leading_cpu(behind(b"# CPU ", line)?)?;
    let (count, rest) = leading_count(behind(b": ", rest)?)?;
    if !is_whole(b" events overwritten", rest) {
        return None;
    }
    Some(Mark::Overwritten { cpu, count })
}

/// The mark of the header's line that counts the events.
#[tactic(auto, unfolding(crate::specs::inner::MarkOf::written_of))]
fn written_of(line: &[u8]) -> Option<Mark>
    ensures { result ≡ written_of line.now }
{
    let (held, rest) = leading_count(behind(b"# entries-in-buffer/entries-written: ", line)?)?;
    let (written, _) = leading_count(behind(b"/", rest)?)?;
    Some(Mark::Written { held, written })
}

/// The first of the marks that the line is, by its form.
#[tactic(auto, unfolding(crate::specs::inner::MarkOf::mark_of))]
fn first_mark(line: &[u8]) -> Option<Mark>
    ensures { result ≡ mark_of line.now }
{
    if let Some(mark) = lost_of(line) {
        return Some(mark);
    }
    if let Some(mark) = started_of(line) {
        return Some(mark);
    }
    if let Some(mark) = overwritten_of(line) {
        return Some(mark);
    }
    written_of(line)
}

/// The mark that a line is, without its line break; `None` for any other line.
pub fn mark_of(line: &[u8]) -> Option<Mark>
    // What the mark says of the whole line's bytes.
    ensures meaning { IfSome result (λ mark. MarkIs line.now mark) }
    // A line without a mark has no cuts of any mark.
    ensures none { IfNone result ((mark : Mark) → MarkIs line.now mark → ⊥) }
{
    first_mark(line)
}
