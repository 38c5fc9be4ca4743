//! Lines of a text, and what they report lost, as C lays them out.

ghost use Rattle.std.specs.Prelude.{◌≡◌, ◌-◌, length, min, unwrap_or};
ghost use Rattle.ft_layout.specs.Copied.{copied};
ghost use Rattle.ft_lines.specs.Layouts.{no_event, no_buffers, kind_layout, text_line_layout, losses_layout};

use crate::line::{LineKind, TextLine};
use ft_layout::{Shows, copy_part, name_number};
use ft_losses::{Buffers, LossesRead};

/// A line of a text.
#[repr(C)]
#[derive(Clone, Copy, Debug, PartialEq, Eq)]
pub struct TextLineLayout {
    /// Where it ends: how many bytes the text has up to the line's end, with its line break.
    pub end: u64,
    /// The stamp of its event, in microseconds; 0 if it has none.
    pub stamp: u64,
    /// The CPU of its event; 0 if it has none.
    pub cpu: u32,
    /// The number of its event's name; 253 for a line that is skipped, 254 for one that can't be
    /// read.
    pub event: u32,
    /// The number of its fault if it can't be read, else 0.
    pub fault: u32,
    /// 0.
    pub zero: u32,
}

/// What a text reports lost.
#[repr(C)]
#[derive(Clone, Copy, Debug, PartialEq, Eq)]
pub struct LossesLayout {
    /// How many holes there are.
    pub holes: u64,
    /// How many events the kernel's buffers held of those that were written to them; 0 if the text has no header.
    pub held: u64,
    /// How many events were written to them; 0 if the text has no header.
    pub written: u64,
    /// Whether the text has the kernel's header, which reports what the buffers held.
    pub has_written: bool,
}

/// The number in place of an event's name, for a line that is skipped.
const SKIPPED: u32 = 253;

/// The same for a line that can't be read.
const BAD: u32 = 254;

impl TextLineLayout {
    /// A line without an event.
    fn no_event(end: u64, event: u32, fault: u32) -> TextLineLayout
        ensures { result ≡ no_event end event fault }
    {
        TextLineLayout {
            end,
            stamp: 0,
            cpu: 0,
            event,
            fault,
            zero: 0,
        }
    }

    /// The line as C has it.
    pub fn of(line: &TextLine) -> TextLineLayout
        ensures { result ≡ text_line_layout line.now }
    {
        match line.kind {
            LineKind::Event(event) => TextLineLayout {
                end: line.end,
                stamp: event.stamp,
                cpu: u32::from(event.cpu),
                event: name_number(event.name),
                fault: 0,
                zero: 0,
            },
            LineKind::Skipped => TextLineLayout::no_event(line.end, SKIPPED, 0),
            LineKind::Bad(fault) => {
                TextLineLayout::no_event(line.end, BAD, u32::from(fault.number()))
            }
        }
    }
}

/// What the kernel's header reports; zeros if the text has none.
fn buffers_or_none(buffers: Option<Buffers>) -> Buffers
    ensures { result ≡ unwrap_or buffers no_buffers }
{
    match buffers {
        Some(buffers) => buffers,
        None => Buffers {
            held: 0,
            written: 0,
        },
    }
}

impl LossesLayout {
    /// What a text reports lost, as C has it.
    pub fn of(read: &LossesRead) -> LossesLayout
        ensures { result ≡ losses_layout read.now }
    {
        let buffers = buffers_or_none(read.buffers);
        LossesLayout {
            holes: read.holes.len() as u64,
            held: buffers.held,
            written: buffers.written,
            has_written: read.buffers.is_some(),
        }
    }
}

/// Shows each line by itself.
#[derive(Clone, Copy, Debug, PartialEq, Eq)]
struct OfText;

impl Shows<TextLine> for OfText {
    type Layout = TextLineLayout;

    ghost shown = { λ _ line. text_line_layout line };

    fn show(&self, item: &TextLine) -> TextLineLayout {
        TextLineLayout::of(item)
    }
}

/// Copies lines from the one of this number on, as `copy_part` of `ft_layout` does.
pub fn copy_lines(all: &[TextLine], from: u64, to: &mut [TextLineLayout]) -> usize
    ensures part { to.new ≡ copied text_line_layout from all.now to.old }
    ensures count { result ≡ min (length to.old) (length all.now - from) }
{
    copy_part(&OfText, all, from, to)
}
