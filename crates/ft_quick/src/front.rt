//! What the columns of a line say of its event.

ghost use Rattle.std.specs.Prelude.{◌≤◌};
ghost use Rattle.ft_fields.specs.Traced.{last_cpu, last_stamp};

use ft_fields::{BodyRef, EventRef, NameRef};

/// What the columns of a line say.
#[derive(Clone, Copy)]
pub(crate) struct Front<'a> {
    /// TASK.
    pub(crate) task: NameRef<'a>,
    /// PID.
    pub(crate) pid: i32,
    /// CPU.
    pub(crate) cpu: u16,
    /// STAMP, in microseconds.
    pub(crate) stamp: u64,
    /// The place after STAMP.
    pub(crate) rest: usize,
    ghost cpu_within: { cpu ≤ last_cpu },
    ghost stamp_within: { stamp ≤ last_stamp },
}

impl<'a> Front<'a> {
    ghost use Rattle.std.specs.Prelude.{◌≡◌};
    ghost use Rattle.ft_fields.specs.Borrowed.{owned_body, event_told};
    ghost use Rattle.ft_quick.specs.inner.Lines.{traced_by_columns};

    /// The line's event, with `body` as what was traced.
    #[inline(always)]
    pub(crate) fn with(&self, body: BodyRef<'a>) -> EventRef<'a>
        ensures { event_told result ≡ traced_by_columns self.now (owned_body body.entry) }
    {
        EventRef {
            task: self.task,
            pid: self.pid,
            cpu: self.cpu,
            stamp: self.stamp,
            body,
        }
    }
}
