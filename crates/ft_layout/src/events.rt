//! Events, and the triggers that are attached to them.

ghost use Rattle.std.specs.Prelude.{◌≡◌};
ghost use Rattle.ft_layout.specs.Events.{event_layout, none_at, held_event_layout, with_wake, with_turn, trigger_layout};

use crate::names::{NameLayout, name_number};
use crate::places::PlaceLayout;
use ft_base::AttachedTrigger;
use ft_fields::{Body, Event, Pos, Turn, Wake};

/// The event that is held at a place. What its name has no field for is 0.
#[repr(C)]
#[derive(Clone, Copy, Debug, PartialEq, Eq)]
pub struct EventLayout {
    /// The place.
    pub place: PlaceLayout,
    /// The number of its name, or `EventLayout::NONE` if no event is held there.
    pub name: u32,
    /// The PID of the task that ran.
    pub common_pid: i32,
    /// The PID of the task that is woken, or switched to.
    pub pid: i32,
    /// Its priority.
    pub prio: i32,
    /// The CPU that a task is woken on.
    pub target_cpu: i32,
    /// The PID of the task that is switched from.
    pub prev_pid: i32,
    /// Its priority.
    pub prev_prio: i32,
    /// The name of the task that ran.
    pub task: NameLayout,
    /// The name of the task that is woken, or switched to.
    pub comm: NameLayout,
    /// The name of the task that is switched from.
    pub prev_comm: NameLayout,
    /// Its state.
    pub prev_state: NameLayout,
}

/// An attached trigger.
#[repr(C)]
#[derive(Clone, Copy, Debug, PartialEq, Eq)]
pub struct TriggerLayout {
    /// Its id.
    pub id: u32,
    /// The number of the name of its events.
    pub event: u32,
}

impl EventLayout {
    /// The number in place of a name if no event is held.
    pub const NONE: u32 = 255;

    /// The event that is held at the place as C has it. For one that a trigger made, which is never
    /// held, it has what all events have.
    pub fn of(pos: &Pos, event: Option<Event>) -> EventLayout
        ensures { result ≡ event_layout pos.now event }
    {
        match event {
            Some(event) => EventLayout::held(pos, &event),
            None => EventLayout::none(pos),
        }
    }

    /// No event at the place.
    fn none(pos: &Pos) -> EventLayout
        ensures { result ≡ none_at pos.now }
    {
        EventLayout {
            place: PlaceLayout::of(pos),
            name: EventLayout::NONE,
            common_pid: 0,
            pid: 0,
            prio: 0,
            target_cpu: 0,
            prev_pid: 0,
            prev_prio: 0,
            task: NameLayout::empty(),
            comm: NameLayout::empty(),
            prev_comm: NameLayout::empty(),
            prev_state: NameLayout::empty(),
        }
    }

    /// The event at the place.
    fn held(pos: &Pos, event: &Event) -> EventLayout
        ensures { result ≡ held_event_layout pos.now event.now }
    {
        let common = EventLayout {
            name: name_number(event.name()),
            common_pid: event.pid,
            task: NameLayout::of(&event.task),
            ..EventLayout::none(pos)
        };
        match &event.body {
            Body::Waking(wake) | Body::Wakeup(wake) | Body::WakeupNew(wake) => common.with_wake(
                wake,
            ),
            Body::Switch(turn) => common.with_turn(turn),
            Body::WakeupLatency(_) | Body::Other => common,
        }
    }

    /// With what a wake event says.
    fn with_wake(self, wake: &Wake) -> EventLayout
        ensures { result ≡ with_wake self wake.now }
    {
        EventLayout {
            pid: wake.pid,
            prio: wake.prio,
            target_cpu: wake.target_cpu,
            comm: NameLayout::of(&wake.comm),
            ..self
        }
    }

    /// With what a switch says.
    fn with_turn(self, turn: &Turn) -> EventLayout
        ensures { result ≡ with_turn self turn.now }
    {
        EventLayout {
            pid: turn.next_pid,
            prio: turn.next_prio,
            comm: NameLayout::of(&turn.next_comm),
            prev_pid: turn.prev_pid,
            prev_prio: turn.prev_prio,
            prev_comm: NameLayout::of(&turn.prev_comm),
            prev_state: NameLayout::of(&turn.prev_state),
            ..self
        }
    }
}

impl TriggerLayout {
    /// The trigger as C has it.
    pub fn of(attached: &AttachedTrigger) -> TriggerLayout
        ensures { result ≡ trigger_layout attached.now }
    {
        TriggerLayout {
            id: attached.id,
            event: name_number(attached.event),
        }
    }
}
