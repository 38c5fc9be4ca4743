//! Events of their own, of events whose names stand in a text that is borrowed.

ghost use Rattle.std.specs.Prelude.{◌≡◌};
ghost use Rattle.ft_fields.specs.Borrowed.{name_bytes, waked, turned, owned_body, event_told};

use ft_fields::{Body, BodyRef, Comm, Event, EventRef, NameRef, Turn, TurnRef, Wake, WakeRef};

/// The name.
fn owned_name(name: &NameRef<'_>) -> Comm
    ensures { result ≡ name_bytes name.now }
{
    Comm::filled(name.bytes())
}

/// The wake event.
fn owned_wake(wake: &WakeRef<'_>) -> Wake
    ensures { result ≡ waked wake.now }
{
    Wake {
        comm: owned_name(&wake.comm),
        pid: wake.pid,
        prio: wake.prio,
        target_cpu: wake.target_cpu,
    }
}

/// The switch.
fn owned_turn(turn: &TurnRef<'_>) -> Turn
    ensures { result ≡ turned turn.now }
{
    Turn {
        prev_comm: owned_name(&turn.prev_comm),
        prev_pid: turn.prev_pid,
        prev_prio: turn.prev_prio,
        prev_state: owned_name(&turn.prev_state),
        next_comm: owned_name(&turn.next_comm),
        next_pid: turn.next_pid,
        next_prio: turn.next_prio,
    }
}

/// What was traced.
fn owned_body(body: &BodyRef<'_>) -> Body
    ensures { result ≡ owned_body body.now }
{
    match body {
        BodyRef::Waking(wake) => Body::Waking(owned_wake(wake)),
        BodyRef::Wakeup(wake) => Body::Wakeup(owned_wake(wake)),
        BodyRef::WakeupNew(wake) => Body::WakeupNew(owned_wake(wake)),
        BodyRef::Switch(turn) => Body::Switch(owned_turn(turn)),
        BodyRef::WakeupLatency(matched) => Body::WakeupLatency(*matched),
        BodyRef::Other => Body::Other,
    }
}

/// The event. It takes no memory.
pub(crate) fn owned_event(event: &EventRef<'_>) -> Event
    ensures { result ≡ event_told event.now }
{
    Event {
        task: owned_name(&event.task),
        pid: event.pid,
        cpu: event.cpu,
        stamp: event.stamp,
        body: owned_body(&event.body),
    }
}
