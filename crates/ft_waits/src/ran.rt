//! What CPUs run.

/// What a CPU runs.
#[derive(Clone, Copy, Debug, PartialEq, Eq)]
pub(crate) enum Ran {
    /// A task.
    Task(i32),
    /// It isn't known: the CPU lost events.
    Lost,
}
