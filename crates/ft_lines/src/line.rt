//! What a line of a text is.

ghost use Rattle.std.specs.Prelude.{◌≡◌, ◌==◌, false};
ghost use Rattle.std.specs.List.{list_any};
ghost use Rattle.ft_event.specs.Line.{line_of};
ghost use Rattle.ft_fields.specs.Borrowed.{event_told, owned_body};
ghost use Rattle.ft_fields.specs.Traced.{name_of};
ghost use Rattle.ft_lines.specs.Lines.{line_event, kind_of};

use ft_event::{LineFault, read_cut_line};
use ft_fields::{BodyRef, Event, EventRef, Name};
use ft_quick::cut_line;

/// When and on which CPU the event of a line was, and its name.
#[derive(Clone, Copy, Debug, PartialEq, Eq)]
pub struct LineEvent {
    /// When, in microseconds.
    pub stamp: u64,
    /// The CPU.
    pub cpu: u16,
    /// The event's name.
    pub name: Name,
}

/// What a line is.
#[derive(Clone, Copy, Debug, PartialEq, Eq)]
pub enum LineKind {
    /// It has an event.
    Event(LineEvent),
    /// It has none, and nothing is wrong with it: it is blank, a comment, or says that events were lost.
    Skipped,
    /// It can't be read.
    Bad(LineFault),
}

/// A line of a text.
#[derive(Clone, Copy, Debug, PartialEq, Eq)]
pub struct TextLine {
    /// Where it ends: how many bytes the text has up to the line's end, with its line break.
    pub end: u64,
    /// What it is.
    pub kind: LineKind,
}

/// The name of what was traced.
#[inline(always)]
fn name_of(body: &BodyRef<'_>) -> Name
    ensures { result ≡ name_of (owned_body body.now) }
{
    match body {
        BodyRef::Waking(_) => Name::Waking,
        BodyRef::Wakeup(_) => Name::Wakeup,
        BodyRef::WakeupNew(_) => Name::WakeupNew,
        BodyRef::Switch(_) => Name::Switch,
        BodyRef::WakeupLatency(_) => Name::WakeupLatency,
        BodyRef::Other => Name::Other,
    }
}

impl LineEvent {
    /// What is reported of an event.
    #[inline(always)]
    fn of(event: &EventRef<'_>) -> LineEvent
        ensures { result ≡ line_event (event_told event.now) }
    {
        LineEvent {
            stamp: event.stamp,
            cpu: event.cpu,
            name: name_of(&event.body),
        }
    }
}

impl LineKind {
    /// What a line is that was cut at its line break.
    #[inline(always)]
    pub(crate) fn of(line: &[u8]) -> LineKind
        requires { list_any (λ b. b == 10) line.now ≡ false }
        ensures { result ≡ kind_of (line_of line.now) }
    {
        match cut_line(line) {
            Some(event) => LineKind::Event(LineEvent::of(&event)),
            None => LineKind::of_any(line),
        }
    }

    /// The same of a line that may be of any form.
    #[inline(never)]
    fn of_any(line: &[u8]) -> LineKind
        requires { list_any (λ b. b == 10) line.now ≡ false }
        ensures { result ≡ kind_of (line_of line.now) }
    {
        let mut event = Event::blank();
        match read_cut_line(line, &mut event) {
            Ok(true) => LineKind::Event(LineEvent::of(&event.borrowed())),
            Ok(false) => LineKind::Skipped,
            Err(fault) => LineKind::Bad(fault),
        }
    }
}
