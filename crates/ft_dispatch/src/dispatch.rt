//! Dispatches, and where their tasks became runnable.

use ft_fields::{Comm, Pos};

/// A switch that took the CPU from a task.
#[derive(Clone, Copy, Debug, PartialEq, Eq)]
pub struct Left {
    /// Where the switch stands.
    pub place: Pos,
    /// Whether the task could still run then.
    pub runnable: bool,
    /// Whether it could, and can't be woken before it has run again: it was left in `R`, not in `R+`.
    pub queued: bool,
}

/// Where a task became runnable, by the events since it last ran.
#[derive(Clone, Copy, Debug, PartialEq, Eq)]
pub struct Since {
    /// The last `sched_waking` of the task.
    pub woken: Option<Pos>,
    /// The last `sched_wakeup_new` of the task.
    pub created: Option<Pos>,
    /// The last `sched_switch` that took the CPU from the task. If the switch of a dispatch takes
    /// the CPU from the task and gives it back, it is this very switch, and the task waited for
    /// nothing.
    pub left: Option<Left>,
    /// The last event that shows the task running: the switch that ran it last, or later a waking,
    /// creation, wakeup or switch on a line of its own, except for a switch that leaves it.
    pub seen: Option<Pos>,
    /// The first `sched_wakeup` of the task since its last waking, which it ends.
    pub roused: Option<Pos>,
}

/// A switch to a task.
#[derive(Clone, Copy, Debug, PartialEq, Eq)]
pub struct Dispatch {
    /// The task's PID, not 0.
    pub pid: i32,
    /// The priority with which it runs.
    pub prio: i32,
    /// Its name, as the switch has it.
    pub name: Comm,
    /// Where the switch stands.
    pub place: Pos,
    /// Where the task became runnable.
    pub since: Since,
}
