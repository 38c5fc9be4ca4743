//! The payloads of named events.

ghost use Rattle.std.specs.Prelude.{◌≡◌, ◌≤◌, true, length, drop, Ok, IfSome};
ghost use Rattle.ft_fields.specs.declared.event.Body.TheVariants as bodies;
ghost use Rattle.ft_fields.specs.Borrowed.{name_bytes, waked, turned, owned_body, event_told};
ghost use Rattle.ft_event.specs.LineIs.{BodyIs};
ghost use Rattle.ft_quick.specs.inner.Payloads.{IsLabelledName, AreTaskParts, IsFairWake, IsFairTurn, IsUnlabelled};
ghost use Rattle.ft_quick.specs.inner.Lines.{body_named, IsPutWake, IsPutTurn, IsPut};

use crate::cuts::{before, behind, number, signed, until};
use crate::front::Front;
use ft_fields::{BodyRef, EventRef, NameRef, TurnRef, WakeRef};

/// Which wake event it is.
#[derive(Clone, Copy)]
enum WakeName {
    /// `sched_waking`
    Waking,
    /// `sched_wakeup`
    Wakeup,
    /// `sched_wakeup_new`
    WakeupNew,
}

impl WakeName {
    /// What was traced: the wake event of this name that says this.
    #[inline(always)]
    fn body<'a>(self, wake: WakeRef<'a>) -> BodyRef<'a>
        ensures { owned_body result ≡ body_named self (waked wake.entry) }
    {
        match self {
            WakeName::Waking => BodyRef::Waking(wake),
            WakeName::Wakeup => BodyRef::Wakeup(wake),
            WakeName::WakeupNew => BodyRef::WakeupNew(wake),
        }
    }
}

/// A name of at most 31 bytes that stands here, and the place after the label that follows it and
/// `=`, the first from here on.
#[inline(always)]
fn name_of<'a, const N: usize>(
    label: &[u8; N],
    line: &'a [u8],
    at: usize,
) -> Option<(NameRef<'a>, usize)>
    requires { at ≤ length line.now }
    ensures name { IfSome result (λ x.
        IsLabelledName label.now (drop at line.now) (name_bytes x.0) (drop x.1 line.now)) }
    ensures within { IfSome result (λ x. x.1 ≤ length line.now) }
{
    let end = until(b'=', line, at)?;
    let len = before(label, &line[at..end])?.len();
    if len > 31 {
        return None;
    }
    Some((NameRef::new(&line[at..], len), end + 1))
}

/// A task's name that stands here, its PID and its priority, and the place after it.
#[inline(always)]
fn task_of<'a, const N: usize, const M: usize>(
    pid_label: &[u8; N],
    prio_label: &[u8; M],
    line: &'a [u8],
    at: usize,
) -> Option<(NameRef<'a>, i32, i32, usize)>
    requires { at ≤ length line.now }
    ensures task { IfSome result (λ x. AreTaskParts pid_label.now prio_label.now
        (drop at line.now) (name_bytes x.0) x.1 x.2 (drop x.3 line.now)) }
    ensures within { IfSome result (λ x. x.3 ≤ length line.now) }
{
    let (comm, at) = name_of(pid_label, line, at)?;
    let (pid, at) = signed(line, at)?;
    let (prio, at) = signed(line, behind(prio_label, line, at)?)?;
    Some((comm, pid, prio, at))
}

/// What the payload of a wake event says, if one stands here and ends the line.
#[inline(always)]
fn wake_of(line: &[u8], at: usize) -> Option<WakeRef<'_>>
    requires { at ≤ length line.now }
    ensures { IfSome result (λ wake. IsFairWake (drop at line.now) (waked wake)) }
{
    let name = behind(b"comm=", line, at)?;
    let (comm, pid, prio, at) = task_of(b" pid", b" prio=", line, name)?;
    let (target_cpu, at) = number(line, behind(b" target_cpu=", line, at)?)?;
    if at != line.len() {
        return None;
    }
    Some(WakeRef {
        comm,
        pid,
        prio,
        target_cpu: target_cpu as i32,
    })
}

/// What the payload of a switch says, if one stands here and ends the line.
#[inline(always)]
fn turn_of(line: &[u8], at: usize) -> Option<TurnRef<'_>>
    requires { at ≤ length line.now }
    ensures { IfSome result (λ turn. IsFairTurn (drop at line.now) (turned turn)) }
{
    let name = behind(b"prev_comm=", line, at)?;
    let (prev_comm, prev_pid, prev_prio, at) = task_of(b" prev_pid", b" prev_prio=", line, name)?;
    let state = behind(b" prev_state=", line, at)?;
    let end = until(b' ', line, state)?;
    let len = end - state;
    if len == 0 {
        return None;
    }
    if len > 31 {
        return None;
    }
    let prev_state = NameRef::new(&line[state..], len);
    let at = behind(b"==> next_comm=", line, end + 1)?;
    let (next_comm, next_pid, next_prio, at) = task_of(b" next_pid", b" next_prio=", line, at)?;
    if at != line.len() {
        return None;
    }
    Some(TurnRef {
        prev_comm,
        prev_pid,
        prev_prio,
        prev_state,
        next_comm,
        next_pid,
        next_prio,
    })
}

/// Puts the wake event of this name, if its payload is of the usual form: whether it is.
// A call of its own, so that registers are shared with no other part. The event is put in place,
// since it is large to move.
#[inline(never)]
fn put_wake<'a>(
    front: &Front<'a>,
    name: WakeName,
    line: &'a [u8],
    at: usize,
    event: &mut EventRef<'a>,
) -> bool
    requires { at ≤ length line.now }
    ensures { result ≡ true → IsPutWake name (drop at line.now) front.now (event_told event.new) }
{
    match wake_of(line, at) {
        Some(wake) => {
            *event = front.with(name.body(wake));
            true
        }
        None => false,
    }
}

/// Puts the switch, if its payload is of the usual form: whether it is.
#[inline(never)]
fn put_turn<'a>(front: &Front<'a>, line: &'a [u8], at: usize, event: &mut EventRef<'a>) -> bool
    requires { at ≤ length line.now }
    ensures { result ≡ true → IsPutTurn (drop at line.now) front.now (event_told event.new) }
{
    match turn_of(line, at) {
        Some(turn) => {
            *event = front.with(BodyRef::Switch(turn));
            true
        }
        None => false,
    }
}

/// Whether an event without a name surely begins here. A text that begins with `w` is left to the
/// general reader: it might be `wakeup_latency`.
#[inline(always)]
fn is_unlabelled(line: &[u8], at: usize) -> bool
    requires { at ≤ length line.now }
    ensures { result ≡ true → IsUnlabelled (drop at line.now) }
{
    let Some((front, _)) = line[at..].split_first_chunk::<8>() else {
        return false;
    };
    if front[0] == b' ' || front[0] == b':' || front[0] == b'w' {
        return false;
    }
    if front == b"sched_wa" {
        return false;
    }
    if front == b"sched_sw" {
        return false;
    }
    true
}

/// Whether what stands here is surely one space and an event without a name.
fn is_other(line: &[u8], at: usize) -> bool
    requires { at ≤ length line.now }
    ensures { result ≡ true → BodyIs (drop at line.now) (Ok bodies.Other) }
{
    match behind(b" ", line, at) {
        Some(text) => is_unlabelled(line, text),
        None => false,
    }
}

/// Puts the event of a line with these columns, if it surely is one without a name: whether it is.
#[inline(always)]
fn put_other<'a>(front: &Front<'a>, line: &'a [u8], event: &mut EventRef<'a>) -> bool
    requires { front.now.rest ≤ length line.now }
    ensures { result ≡ true → IsPut (drop front.now.rest line.now) front.now (event_told event.new) }
{
    *event = front.with(BodyRef::Other);
    is_other(line, front.rest)
}

/// Puts the event of a line with these columns, if it is of the usual form: whether it is.
#[inline(always)]
pub(crate) fn put_event<'a>(front: &Front<'a>, line: &'a [u8], event: &mut EventRef<'a>) -> bool
    requires { front.now.rest ≤ length line.now }
    ensures { result ≡ true → IsPut (drop front.now.rest line.now) front.now (event_told event.new) }
{
    if let Some(label) = behind(b" sched_", line, front.rest) {
        if let Some(at) = behind(b"switch: ", line, label) {
            return put_turn(front, line, at, event);
        }
        if let Some(at) = behind(b"waking: ", line, label) {
            return put_wake(front, WakeName::Waking, line, at, event);
        }
        if let Some(at) = behind(b"wakeup: ", line, label) {
            return put_wake(front, WakeName::Wakeup, line, at, event);
        }
        if let Some(at) = behind(b"wakeup_new: ", line, label) {
            return put_wake(front, WakeName::WakeupNew, line, at, event);
        }
    }
    put_other(front, line, event)
}
