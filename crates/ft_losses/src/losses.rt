//! What is kept of lines, as far as the holes need it.

ghost use Rattle.std.specs.Prelude.{◌≡◌, vec_len};

use crate::hole::{Beginning, Buffers, Hole, Loss};
use crate::lanes::Lane;

/// Where events were lost, by the lines so far.
#[derive(Drop)]
pub struct Losses {
    /// What is kept of each CPU.
    pub(crate) lanes: Vec<Lane>,
    /// The holes that an event ended.
    pub(crate) ended: Vec<Hole>,
    /// What lines report of how the buffers begin.
    pub(crate) begins: Beginning,
    ghost all_cpus: { vec_len lanes ≡ 8192 },
}

/// Where events were lost in a text.
#[derive(Drop)]
pub struct LossesRead {
    /// The holes: those of CPUs that begin late, by CPU, if only the header says that events were overwritten; those that
    /// an event ended, the first one first; and those that last to the end, by CPU.
    pub holes: Vec<Hole>,
    /// How many events the kernel's buffers held of those that were written, if the text has its header.
    pub buffers: Option<Buffers>,
}
