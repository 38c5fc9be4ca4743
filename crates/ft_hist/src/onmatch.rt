//! What a trigger makes an event of, at each latency that it measures.

ghost use Rattle.std.specs.Prelude.{◌≡◌};
ghost use Rattle.ft_fields.specs.declared.pos.Pos.{Pos};
ghost use Rattle.ft_hist.specs.Made.{made_of};

use crate::trigger::Trigger;
use crate::values::number_of_field;
use ft_fields::{Body, Event, Field, Matched, Name, Pos};

/// A trigger's part `onmatch(sched.EVENT).wakeup_latency($OWN,F,G)`: at each latency that the
/// trigger measures, an event `wakeup_latency` is made of it.
#[derive(Clone, Copy, Debug, PartialEq, Eq)]
pub struct Onmatch {
    /// The event that the stamp is saved at, EVENT.
    pub event: Name,
    /// The field of the reading event that gives the made event's `pid`, F.
    pub pid: Field,
    /// The field of the reading event that gives the made event's `prio`, G.
    pub prio: Field,
}

impl Trigger {
    /// The event that it makes of the latency between this event, which reads, and the event at
    /// this place, which saved the stamp. It has the task, the PID, the CPU and the stamp of the
    /// reading event. `None` if the trigger has no onmatch part.
    pub fn made(&self, event: &Event, saved: Pos) -> Option<Event>
        ensures { (at : Pos) → at.stamp ≡ event.now.stamp
            → result ≡ made_of self.now at event.now saved }
    {
        let onmatch = self.onmatch()?;
        let matched = Matched {
            lat: event.stamp.saturating_sub(saved.stamp) as i64,
            pid: number_of_field(event.field(onmatch.pid)),
            prio: number_of_field(event.field(onmatch.prio)),
        };
        Some(Event {
            task: event.task,
            pid: event.pid,
            cpu: event.cpu,
            stamp: event.stamp,
            body: Body::WakeupLatency(matched),
        })
    }
}
