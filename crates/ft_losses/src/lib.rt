//! Losses: where events of a recording were lost, as the lines of its text report it, and how sure
//! a wait is if events were lost in its time.
//!
//! ```ignore
//! let mut losses = Losses::new(alloc)?;
//! losses.pass(&event)?;
//! losses.skip(2, Some(Mark::Lost { cpu: 0, count: Some(12) }));
//! losses.pass(&next_event)?;
//! let read = losses.finish(alloc)?;
//! let doubts = Doubts::of(alloc, &read.holes)?;
//! for dispatch in &dispatches {
//!     if let Some(wait) = doubts.wait_of(dispatch) {
//!         let micros = dispatch.place.stamp - wait.began.place.stamp;
//!     }
//! }
//! ```
//!
//! # Contracts
//!
//! - `Losses::new`, `pass`, `skip`, `finish`: after one call for each line, the holes are those
//!   that the lines report: `holes` (`specs/Holes.antt`) of what each line reports
//!   (`specs/Notes.antt`). A hole stands between two events of a CPU, if a line between them
//!   reports a loss: several lines there are one hole. If only the header says that events were
//!   overwritten, and no line says of which CPUs, each CPU that begins after another one has a hole
//!   before its first event. `finish` reports the counts of the kernel's header too. Fails only for
//!   memory. Lets through: running out of memory at any time.
//! - `Losses::is_open`, `join`: a part that was read apart, from `Losses::new` on, is joined to the
//!   lines before it: what is kept afterwards is what those lines report, and behind that what its
//!   own lines report, if no hole has begun before it that has not ended: `Joins`
//!   (`specs/Joining.antt`). `join` fails only for memory. Lets through: running out of memory at
//!   any time, and what is kept after that.
//! - `Losses::told`: a truth value for each CPU, by CPU: whether a line so far tells how many events
//!   of the CPU were overwritten before its first one; exact, `is_told` (`specs/Holes.antt`). A line
//!   that counts 0 events tells it too. Fails only for memory. Lets through: running out of memory
//!   at any time.
//! - `Doubts::of`, `holes`: an index of holes is seen as the list of these holes, in their order. Fails
//!   only for memory. Lets through: running out of memory at any time.
//! - `Doubts::doubt`: how sure a wait from a place to another is; exact, `doubt`
//!   (`specs/Doubt.antt`). Any hole in its time makes it likely at most, and one of these on the
//!   CPU on which it began or ended makes it doubtful. A hole of a CPU that isn't known is on none.
//! - `Doubts::any`: whether any hole is in a time; exact, `any_spans` (`specs/Doubt.antt`).
//! - `Doubts::wait`, `wait_of`: the wait that a dispatch ends, and how sure it is; exact,
//!   `wait_from` and `wait_of` (`specs/Doubt.antt`). A wait that would be sure is likely, if its
//!   task was left asleep after it began: what woke the task after that is unknown.
//! - `Doubt::is_sure`: exact, `is_sure` (`specs/Doubt.antt`).
#![tactic(auto)]

mod doubt;
mod ending;
mod hole;
mod index;
mod joining;
mod lanes;
mod late;
mod losses;
mod reading;
mod stretches;
mod told;

pub use doubt::{Doubt, Wait};
pub use hole::{Buffers, Hole};
pub use index::Doubts;
pub use losses::{Losses, LossesRead};
