//! The time so far, and for how much of it some task waited.

ghost use Rattle.std.specs.Prelude.{◌≡◌, ◌+◌, ◌-◌, ◌≤◌, max, if◌then◌else◌};

/// The latest stamp of the acts so far, and how long some task waited by then, in microseconds.
#[derive(Clone, Copy)]
pub(crate) struct Clock {
    pub(crate) latest: u64,
    pub(crate) waited: u64,
    ghost within: { waited ≤ latest },
}

impl Clock {
    /// Goes on to a stamp, up to which some task waited or none did. An earlier stamp changes nothing.
    #[inline(always)]
    pub(crate) fn advance(&mut self, stamp: u64, some_task_waits: bool)
        ensures latest { self.new.latest ≡ max self.old.latest stamp }
        ensures waited { self.new.waited ≡ self.old.waited
            + (if some_task_waits then stamp - self.old.latest else 0) }
    {
        if stamp > self.latest {
            let waited = if some_task_waits {
                stamp - self.latest
            } else {
                0
            };
            *self = Clock {
                latest: stamp,
                waited: self.waited + waited,
            };
        }
    }
}
