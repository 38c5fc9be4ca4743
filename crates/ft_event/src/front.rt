//! What the columns of a line say of its event.

ghost use Rattle.std.specs.Prelude.{◌≤◌, length};
ghost use Rattle.ft_fields.specs.Traced.{last_cpu, last_stamp};

use ft_fields::{Body, Comm, Event};

/// What the columns of a line say of its event. TASK is still a text: it is copied once, into the
/// event.
#[derive(Clone, Copy)]
pub(crate) struct Front<'a> {
    /// TASK, of at most 31 bytes.
    pub(crate) task: &'a [u8],
    /// PID.
    pub(crate) pid: i32,
    /// CPU.
    pub(crate) cpu: u16,
    /// STAMP, in microseconds.
    pub(crate) stamp: u64,
    ghost task_short: { length task.now ≤ 31 },
    ghost cpu_within: { cpu ≤ last_cpu },
    ghost stamp_within: { stamp ≤ last_stamp },
}

impl Front<'_> {
    ghost use Rattle.std.specs.Prelude.{◌≡◌};
    ghost use Rattle.ft_event.specs.inner.Fronts.{traced_with};

    /// Makes `event` the line's event, with `body` as what was traced.
    #[inline(always)]
    pub(crate) fn put(&self, event: &mut Event, body: Body)
        ensures { event.new ≡ traced_with self.now body }
    {
        *event = Event {
            task: Comm::filled(self.task),
            pid: self.pid,
            cpu: self.cpu,
            stamp: self.stamp,
            body,
        };
    }
}
