//! What acts sum up to.

/// What acts sum up to for a task. Each figure stops at the greatest `u64`.
#[derive(Clone, Copy, Debug, PartialEq, Eq)]
pub struct TaskSum {
    /// The task's PID, not 0.
    pub pid: i32,
    /// How long it ran, in microseconds: the runs whose switches to the task and from it are both known.
    pub run_time: u64,
    /// How often a CPU went to it.
    pub switches: u64,
    /// How often a switch to another task left it while it could run.
    pub preempted: u64,
    /// How often a switch to another task left it asleep, in a state that begins with `S` or `I`.
    pub slept: u64,
    /// How often a switch to another task left it blocked, in a state that begins with `D`.
    pub blocked: u64,
    /// How often it was run on another CPU than the one on which it last ran or was left.
    pub moved: u64,
}

/// What acts sum up to for a CPU. Each figure stops at the greatest `u64`.
#[derive(Clone, Copy, Debug, PartialEq, Eq)]
pub struct CpuSum {
    /// The CPU's number.
    pub cpu: u16,
    /// How long it ran task 0, in microseconds: the runs whose switches to task 0 and from it are both
    /// known.
    pub idle: u64,
    /// How long it isn't known what it ran, in microseconds: the times between two of its switches of
    /// which the second leaves another task than the first one went to.
    pub unknown: u64,
    /// For how much of that time some task waited for a processor, in microseconds.
    pub idle_with_waiters: u64,
    /// The most of `idle_with_waiters` that one such run has, in microseconds.
    pub longest: u64,
    /// When the first run began that has so much, in microseconds; 0 if `longest` is 0.
    pub longest_from: u64,
}

/// What acts sum up to.
#[derive(Drop)]
pub struct Sums {
    /// Each task that acts name, except task 0, ascending by PID.
    pub tasks: Vec<TaskSum>,
    /// Each CPU on which a switch stands, ascending by number.
    pub cpus: Vec<CpuSum>,
}
