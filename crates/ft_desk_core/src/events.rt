//! The events of a trace text, and of one line.

ghost use Rattle.std.specs.Prelude.{◌≡◌, ◌==◌, false, ◌⊎◌, List, ◌++◌, ◌∷◌, [], Result, Err, OnOk, IfErr};
ghost use Rattle.std.specs.List.{list_any};
ghost use Rattle.ft_event.specs.Line.{line_of};
ghost use Rattle.ft_fields.specs.Borrowed.{event_told};
ghost use Rattle.ft_fields.specs.Traced.{Traced};
ghost use Rattle.ft_answers.specs.Edited.{AnswerIs};
ghost use Rattle.ft_desk_core.specs.Edits.{events_of, line_in_front, event_or_refused};
ghost use Rattle.ft_desk_core.specs.inner.Reading.{in_front};

use ft_answers::Refused;
use ft_event::{Event, Line, read_cut_line, read_line};
use ft_fields::EventRef;
use ft_quick::put_line;
use ft_store::Store;
use ft_text::next_line;
use std::alloc::Global;

/// About how many bytes of a text hold an event: the kernel's own lines are a little longer.
const LINE_BYTES: usize = 128;

/// About how many bytes the names of an event have.
const NAME_BYTES: usize = 22;

/// The most events that a desk holds.
const EVENT_LIMIT: usize = 1_048_576;

/// No events, with room for those of a text of so many bytes if there is memory for it.
fn store_for(alloc: Global, bytes: usize) -> Store
    ensures { result ≡ [] }
{
    let events = (bytes / LINE_BYTES).min(EVENT_LIMIT);
    match Store::with_room(alloc, events, events.saturating_mul(NAME_BYTES)) {
        Ok(store) => store,
        Err(_) => Store::new(alloc),
    }
}

/// Reads every line of a trace text: its events in file order. Refused at the first line that
/// cannot be read, or for memory.
pub(crate) fn events_in(alloc: Global, text: &[u8]) -> Result<Store, Refused>
    ensures { AnswerIs (λ events. events) (events_of text.now) result }
{
    let mut events = store_for(alloc, text.len());
    // The event of a line that is not of the usual form is put here, and stored from here.
    let mut event = Event::blank();
    // The event of a line of the usual form is put here; its names stay where they lie in the line.
    let blank = Event::blank();
    let mut told = blank.borrowed();
    let mut rest = text;
    let mut number = 1;
    while let Some((line, behind)) = next_line(rest) {
        add_line(&mut events, &mut told, &mut event, number, line)?;
        rest = behind;
        number += 1;
    }
    Ok(events)
}

/// Adds the event of the line of this number, if the line is not skipped. `told` and `event` may be
/// overwritten.
fn add_line<'a>(
    events: &mut Store,
    told: &mut EventRef<'a>,
    event: &mut Event,
    number: u64,
    line: &'a [u8],
) -> Result<(), Refused>
    requires { list_any (λ b. b == 10) line.now ≡ false }
    ensures ok { OnOk result ((behind : Result (List Traced) Refused) →
        in_front events.old (line_in_front number (line_of line.now) behind)
        ≡ in_front events.new behind) }
    ensures err { IfErr result (λ refused. (refused ≡ Refused.Memory)
        ⊎ ((behind : Result (List Traced) Refused) →
        line_in_front number (line_of line.now) behind ≡ Err refused)) }
{
    if put_line(line, told) {
        keep(events, told)
    } else {
        add_other(events, event, number, line)
    }
}

/// Adds the event of a line that may be of any form, if the line is not skipped. `event` is
/// overwritten.
#[inline(never)]
fn add_other(events: &mut Store, event: &mut Event, number: u64, line: &[u8]) -> Result<(), Refused>
    requires { list_any (λ b. b == 10) line.now ≡ false }
    ensures ok { OnOk result ((behind : Result (List Traced) Refused) →
        in_front events.old (line_in_front number (line_of line.now) behind)
        ≡ in_front events.new behind) }
    ensures err { IfErr result (λ refused. (refused ≡ Refused.Memory)
        ⊎ ((behind : Result (List Traced) Refused) →
        line_in_front number (line_of line.now) behind ≡ Err refused)) }
{
    match read_cut_line(line, event) {
        Ok(true) => keep(events, &event.borrowed()),
        Ok(false) => Ok(()),
        Err(fault) => Err(Refused::BadLine(number, fault)),
    }
}

/// Reads one line: its event. Refused if the line cannot be read or holds no event.
pub(crate) fn event_in(line: &[u8]) -> Result<Event, Refused>
    ensures { result ≡ event_or_refused (line_of line.now) }
{
    match read_line(line) {
        Ok(given) => match given {
            Line::Skip => Err(Refused::NoEvent),
            Line::Event(event) => Ok(event),
        },
        Err(fault) => Err(Refused::BadLine(1, fault)),
    }
}

/// Adds an event.
#[inline(always)]
fn keep(events: &mut Store, event: &EventRef<'_>) -> Result<(), Refused>
    ensures ok { OnOk result (events.new ≡ events.old ++ event_told event.now ∷ []) }
    ensures err { IfErr result (λ refused. refused ≡ Refused.Memory) }
{
    events.push_ref(event).map_err(|_| Refused::Memory)
}
