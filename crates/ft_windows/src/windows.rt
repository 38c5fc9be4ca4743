//! What is kept of events and showings.

ghost use Rattle.std.specs.Prelude.{◌≡◌, vec_len};

use crate::lanes::Lane;
use crate::naming::Names;
use crate::spans::SpanSet;

/// What events and showings tell of the time in which events of CPUs are missing.
#[derive(Drop)]
pub struct Windows {
    /// What is kept of each CPU.
    pub(crate) lanes: Vec<Lane>,
    /// What is kept of each task.
    pub(crate) tasks: Names,
    /// The stretches that were shown.
    pub(crate) spans: SpanSet,
    /// The least stamp of an event that shows one.
    pub(crate) least_at: Option<u64>,
    /// The greatest stamp at which one begins.
    pub(crate) greatest_from: Option<u64>,
    ghost all_cpus: { vec_len lanes ≡ 8192 },
}
