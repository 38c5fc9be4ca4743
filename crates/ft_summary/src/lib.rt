//! Summaries: what the acts of a recording sum up to, by task and by CPU.
//!
//! ```ignore
//! let mut summary = Summary::new(alloc);
//! // Acts come in the order of their places, in any number of calls.
//! summary.take_all(&acts)?;
//! let sums = summary.finish(alloc)?;
//! for task in &sums.tasks {
//!     // task.run_time microseconds in task.switches runs
//! }
//! ```
//!
//! # Contracts
//!
//! - `Summary::new`, `take_all`, `finish`: after acts that came in any number of calls, `finish`
//!   gives what all these acts sum up to: `task_sums`, by PID, and `cpu_sums`, by CPU
//!   (`specs/Figures.antt`). A run of a task is known if the CPU's last switch went to the task
//!   that the next one leaves; if not, the time between them is unknown, and neither idle nor part
//!   of a run (`specs/Runs.antt`). A task waits if it can run and doesn't
//!   (`specs/Waiting.antt`). The end of a waking sums up to nothing, and names no task. Sums stop at
//!   the greatest `u64`. Each act takes a look-up for each task that it names, except task 0, and a
//!   switch one more for its CPU; the first act of a task or CPU also puts it in. Fails only for
//!   memory. Lets through: running out of memory at any time; what is summed up then.
#![tactic(auto)]

mod clock;
mod cpus;
mod standing;
mod summary;
mod sums;
mod tasks;

pub use summary::Summary;
pub use sums::{CpuSum, Sums, TaskSum};
