//! One line of a trace: what it says, or the first thing that is wrong with it.

ghost use Rattle.std.specs.Prelude.{◌≡◌, ◌≤◌, ◌==◌, false, length, Ok, Err, OnOk, IfErr};
ghost use Rattle.std.specs.List.{list_any};
ghost use Rattle.ft_event.specs.LineIs.{LineIs};
ghost use Rattle.ft_event.specs.Line.{name_from, wake_from};
ghost use Rattle.ft_event.specs.Line.{payload_from, body_from, event_from};
ghost use Rattle.ft_event.specs.Line.{line_with, line_of, line_given};
ghost use Rattle.ft_event.specs.inner.Fronts.{line_behind, switch_behind, line_put};
ghost use Rattle.ft_event.specs.inner.Texts.{head_texts};

use crate::columns::{Head, head_of, stamp_of};
use crate::fault::{Line, LineFault};
use crate::front::Front;
use crate::label::{EventLabel, label_of};
use crate::scan::{number, trimmed, without_spaces};
use crate::skipped::is_skipped;
use crate::turns::{turn_cut_of, turn_numbers};
use crate::wakes::{wake_cut_of, wake_numbers};
use ft_fields::{Body, Comm, Event, Turn, Wake};
use memchr::memchr;

/// The longest line that is read, in bytes.
const LONGEST_LINE: usize = 4096;

/// Tests that a name has at most 31 bytes.
#[tactic(auto, unfolding(crate::specs::Line::name_from))]
fn test_name(text: &[u8]) -> Result<(), LineFault>
    ensures name { OnOk result (name_from text.now ≡ Ok text.now) }
    ensures short { OnOk result (length text.now ≤ 31) }
    ensures fault { IfErr result (λ fault. name_from text.now ≡ Err fault) }
{
    if text.len() > 31 {
        return Err(LineFault::NameLong);
    }
    Ok(())
}

/// What the payload of a wake event says.
#[tactic(auto, unfolding(crate::specs::Line::wake_from, crate::specs::Line::success_from))]
fn wake_from(payload: &[u8]) -> Result<Wake, LineFault>
    ensures { result ≡ wake_from payload.now }
{
    let text = wake_cut_of(payload).ok_or(LineFault::BadPayload)?;
    let numbers = wake_numbers(&text).ok_or(LineFault::BadPayload)?;
    test_name(text.comm)?;
    let pid = numbers.pid.ok_or(LineFault::NumberRange)?;
    let prio = numbers.prio.ok_or(LineFault::NumberRange)?;
    if !numbers.success_fits {
        return Err(LineFault::NumberRange);
    }
    let target_cpu = numbers.target_cpu.ok_or(LineFault::NumberRange)?;
    Ok(Wake {
        comm: Comm::filled(text.comm),
        pid,
        prio,
        target_cpu,
    })
}

/// Puts the event of a switch with this payload.
#[tactic(auto, unfolding(crate::specs::Line::turn_from))]
fn put_turn(front: &Front<'_>, payload: &[u8], event: &mut Event) -> Result<(), LineFault>
    ensures { line_put result event.new ≡ switch_behind front.now payload.now }
{
    let text = turn_cut_of(payload).ok_or(LineFault::BadPayload)?;
    let numbers = turn_numbers(&text).ok_or(LineFault::BadPayload)?;
    test_name(text.prev_comm)?;
    let prev_pid = numbers.prev_pid.ok_or(LineFault::NumberRange)?;
    let prev_prio = numbers.prev_prio.ok_or(LineFault::NumberRange)?;
    test_name(text.prev_state)?;
    test_name(text.next_comm)?;
    let next_pid = numbers.next_pid.ok_or(LineFault::NumberRange)?;
    let next_prio = numbers.next_prio.ok_or(LineFault::NumberRange)?;
    let turn = Turn {
        prev_comm: Comm::filled(text.prev_comm),
        prev_pid,
        prev_prio,
        prev_state: Comm::filled(text.prev_state),
        next_comm: Comm::filled(text.next_comm),
        next_pid,
        next_prio,
    };
    front.put(event, Body::Switch(turn));
    Ok(())
}

/// Puts the event with the payload after a label.
#[tactic(auto, unfolding(crate::specs::Line::payload_from))]
fn put_named(
    front: &Front<'_>,
    label: EventLabel,
    payload: &[u8],
    event: &mut Event,
) -> Result<(), LineFault>
    ensures { line_put result event.new ≡ line_behind front.now (payload_from label payload.now) }
{
    let body = match label {
        EventLabel::Waking => Body::Waking(wake_from(payload)?),
        EventLabel::Wakeup => Body::Wakeup(wake_from(payload)?),
        EventLabel::WakeupNew => Body::WakeupNew(wake_from(payload)?),
        EventLabel::Switch => return put_turn(front, payload, event),
    };
    front.put(event, body);
    Ok(())
}

/// Puts the event with this after STAMP: a named event with its payload, or any other one.
#[tactic(auto, unfolding(crate::specs::Line::body_from))]
fn put_body(front: &Front<'_>, rest: &[u8], event: &mut Event) -> Result<(), LineFault>
    ensures { line_put result event.new ≡ line_behind front.now (body_from rest.now) }
{
    match label_of(without_spaces(rest)) {
        Some((label, payload)) => put_named(front, label, trimmed(payload), event),
        None => {
            front.put(event, Body::Other);
            Ok(())
        }
    }
}

/// Puts the event of a line with these columns.
#[tactic(auto, unfolding(crate::specs::Line::event_from))]
fn put_event(head: &Head<'_>, event: &mut Event) -> Result<(), LineFault>
    ensures { line_put result event.new ≡ line_with (event_from (head_texts head.now)) }
{
    let tail = &head.tail;
    test_name(head.task)?;
    let pid = number(tail.pid, i32::MAX as u32).ok_or(LineFault::NumberRange)?;
    let cpu = number(tail.cpu, Event::LAST_CPU).ok_or(LineFault::BadCpu)?;
    let (stamp, rest) = stamp_of(tail.rest).ok_or(LineFault::BadStamp)?;
    let front = Front {
        task: head.task,
        pid: pid as i32,
        cpu: cpu as u16,
        stamp,
    };
    put_body(&front, rest, event)
}

/// Whether a line break stands in the line.
fn is_broken(line: &[u8]) -> bool
    ensures { result ≡ list_any (λ b. b == 10) line.now }
{
    memchr(b'\n', line).is_some()
}

/// Reads a line that is not too long and has no line break: whether it holds an event, which is put
/// into `event`, or is skipped.
#[tactic(auto, unfolding(crate::specs::Line::line_of, crate::specs::Line::traced_from))]
fn put_unbroken(line: &[u8], event: &mut Event) -> Result<bool, LineFault>
    requires length { length line.now ≤ 4096 }
    requires unbroken { list_any (λ b. b == 10) line.now ≡ false }
    ensures { line_given result event.new ≡ line_of line.now }
{
    let text = without_spaces(line);
    if is_skipped(line, text) {
        return Ok(false);
    }
    let head = head_of(text).ok_or(LineFault::NoTask)?;
    put_event(&head, event)?;
    Ok(true)
}

/// The line's length, and then its columns: the first fault is the answer.
#[tactic(auto, unfolding(crate::specs::Line::line_of))]
fn put_cut(line: &[u8], event: &mut Event) -> Result<bool, LineFault>
    requires { list_any (λ b. b == 10) line.now ≡ false }
    ensures { line_given result event.new ≡ line_of line.now }
{
    if line.len() > LONGEST_LINE {
        return Err(LineFault::LineLong);
    }
    put_unbroken(line, event)
}

/// What a line that was cut at its line break gives.
fn answer_to_cut(line: &[u8]) -> Result<Line, LineFault>
    requires { list_any (λ b. b == 10) line.now ≡ false }
    ensures { result ≡ line_of line.now }
{
    let mut event = Event::blank();
    if put_cut(line, &mut event)? {
        Ok(Line::Event(event))
    } else {
        Ok(Line::Skip)
    }
}

/// The line's length, its bytes, and then its columns: the first fault is the answer.
#[tactic(auto, unfolding(crate::specs::Line::line_of))]
fn answer_to(line: &[u8]) -> Result<Line, LineFault>
    ensures { result ≡ line_of line.now }
{
    if line.len() > LONGEST_LINE {
        return Err(LineFault::LineLong);
    }
    if is_broken(line) {
        return Err(LineFault::NoTask);
    }
    answer_to_cut(line)
}

/// Reads one line of the kernel's `trace` file, without its line break.
pub fn read_line(line: &[u8]) -> Result<Line, LineFault>
    // The line's answer, as the function that the definitions compute.
    ensures exact { result ≡ line_of line.now }
    // What the answer says of the whole line's bytes.
    ensures meaning { LineIs line.now result }
{
    answer_to(line)
}

/// Reads one line that was cut at its line break, as `read_line` does, but in place: whether it
/// holds an event, which `event` then is. If it holds none, `event` may be any event.
pub fn read_cut_line(line: &[u8], event: &mut Event) -> Result<bool, LineFault>
    requires { list_any (λ b. b == 10) line.now ≡ false }
    // The line's answer, as the function that the definitions compute.
    ensures exact { line_given result event.new ≡ line_of line.now }
    // What the answer says of the whole line's bytes.
    ensures meaning { LineIs line.now (line_given result event.new) }
{
    put_cut(line, event)
}
