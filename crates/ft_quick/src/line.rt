//! One line of a trace, fast if it is of the usual form.

ghost use Rattle.std.specs.Prelude.{◌≡◌, ◌==◌, ◌≤◌, true, false, length, Ok, IfSome};
ghost use Rattle.std.specs.List.{list_any};
ghost use Rattle.ft_event.specs.declared.fault.Line.TheVariants as lines;
ghost use Rattle.ft_event.specs.Line.{line_of};
ghost use Rattle.ft_event.specs.LineIs.{LineIs};
ghost use Rattle.ft_fields.specs.Borrowed.{event_told};
ghost use Rattle.ft_quick.specs.inner.Lines.{HasColumns};

use crate::columns::{Columns, is_plain};
use crate::front::Front;
use crate::payload::put_event;
use ft_event::one_answer;
use ft_fields::{BodyRef, EventRef, NameRef};

/// The columns of a line, if they are of the usual form.
#[inline(never)]
fn front_of(line: &[u8]) -> Option<Front<'_>>
    requires { list_any (λ b. b == 10) line.now ≡ false }
    ensures front { IfSome result (HasColumns line.now) }
    ensures within { IfSome result (λ front. front.rest ≤ length line.now) }
{
    if !is_plain(line) {
        return None;
    }
    let columns = Columns::of(line);
    let begin = columns.behind_spaces(0)?;
    let end = columns.task_end(begin)?;
    let len = end - begin;
    if len > 31 {
        return None;
    }
    let (pid, cpu, at) = columns.tail(end + 1)?;
    let (stamp, rest) = columns.stamp(at)?;
    Some(Front {
        task: NameRef::new(&line[begin..], len),
        pid: pid as i32,
        cpu: cpu as u16,
        stamp,
        rest,
    })
}

/// The event of a line that was cut at its line break; its names stay where they lie in the line.
/// `None` if the line is not of the usual form, even if it holds an event.
pub fn cut_line(line: &[u8]) -> Option<EventRef<'_>>
    requires { list_any (λ b. b == 10) line.now ≡ false }
    // The line's answer, as the function that the definitions compute.
    ensures exact { IfSome result (λ event. line_of line.now ≡ Ok (lines.Event (event_told event))) }
    // What the answer says of the whole line's bytes.
    ensures meaning { IfSome result (λ event. LineIs line.now (Ok (lines.Event (event_told event)))) }
{
    let front = front_of(line)?;
    // Its one answer, so the general reader's too.
    one_answer();
    let mut event = front.with(BodyRef::Other);
    if put_event(&front, line, &mut event) {
        Some(event)
    } else {
        None
    }
}

/// The same in place: puts the event of such a line, if the line is of the usual form, and answers
/// whether it is; if not, `event` may be any event. An event is large to move.
#[inline(always)]
pub fn put_line<'a>(line: &'a [u8], event: &mut EventRef<'a>) -> bool
    requires { list_any (λ b. b == 10) line.now ≡ false }
    // The line's answer, as the function that the definitions compute.
    ensures exact { result ≡ true → line_of line.now ≡ Ok (lines.Event (event_told event.new)) }
    // What the answer says of the whole line's bytes.
    ensures meaning { result ≡ true → LineIs line.now (Ok (lines.Event (event_told event.new))) }
{
    match front_of(line) {
        Some(front) => {
            one_answer();
            put_event(&front, line, event)
        }
        None => false,
    }
}
