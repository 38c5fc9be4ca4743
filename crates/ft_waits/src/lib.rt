//! Who waited for a processor, and since when: the switches to tasks in a trace text that comes in
//! pieces, each with where its task became runnable.
//!
//! ```ignore
//! let mut waits = Waits::new(alloc, BadLines::Refuse)?;
//! let mut dispatches = Vec::new(alloc);
//! while let Some(piece) = next_piece() {
//!     waits.feed(piece, &mut dispatches)?;
//! }
//! let read = waits.finish(&mut dispatches)?;
//! for dispatch in &dispatches {
//!     if let Some(began) = dispatch.since.waiting() {
//!         let micros = dispatch.place.stamp - began.place.stamp;
//!     }
//! }
//! ```
//!
//! # Contracts
//!
//! - `Waits::new`, `feed`, `finish`: what was told of the pieces is what the whole text tells, however
//!   it is cut: `dispatches_in` (`specs/Reading.antt`). Events count in the order of stamp, CPU and
//!   line, as in the desk; `ft_dispatch` says what a dispatch is. `finish` reports how many lines there
//!   are, how many of them can't be read, and the first of these (`lines_read`); how many switches are
//!   missing, as far as events show it by the task that ran, and no line reports a loss (`missing_in`,
//!   `specs/Missing.antt`); and where events were lost, as lines report it, and as events show it
//!   though no line does: the holes of `ft_losses` and of `ft_windows` (`AreAllLosses`,
//!   `specs/Lost.antt`). A text is refused at the first line that can't be read, unless such lines are
//!   skipped, or whose stamp is before the last event's (`refused`); otherwise it fails only for
//!   memory, and for more than 4,294,967,295 lines. A stream that failed answers the same from then on.
//!   Lets through: running out of memory at any time; how early a dispatch is told, and which are told
//!   before a failure.
//! - `Waits::leave_out`: events of a name that pass a filter say nothing of who runs (`acts_of`, by
//!   `specs/LeftOut.antt`): the dispatches are those of `dispatches_in` without them, what shows that a
//!   task ran unseen is what the other acts show, and all else is told of the whole text. `finish`
//!   reports how many events have the name, and how many of them pass (`left_out_of`). Refused once
//!   bytes of the text were read, and for memory. Law `nothing_left_out`: with no filters each event
//!   says what it says.
//! - `Waits::sum_up`: `finish` reports what the acts sum up to as well, those whose dispatches are told:
//!   `task_sums` and `cpu_sums` of `ft_summary`, and nothing if it was not asked for (`specs/Summing.antt`).
//!   Refused once bytes of the text were read. Lets through: figures past the greatest `u64`, as there.
//! - `Waits::events`, `last`: the counts and the last stamp of the lines that have ended so far; exact
//!   (`history_so_far`). `has_begun`: whether bytes were read; exact.
//! - `waits_in`: the same of pieces that are all there.
//! - `Waits::join`: a text and the text after it, which another stream read from its own start, are
//!   joined as if one stream had read both: `JoinsTexts` (`specs/Joining.antt`). Of the part's
//!   dispatches the caller keeps the first one of each task: they are completed, and of all others
//!   only the places move (law `ft_dispatch::first_ones_join`). Refused, with all as before, for
//!   the reasons of `CannotJoin`: so is a stream that sums up, on either side, since who waits at
//!   the seam changes the idle time with waiters of the whole part. `meets` is only the test, and
//!   `join_met` joins a part that passed it. Lets through: running out of memory at any time, after
//!   which the stream has failed; joining streams that leave out the same number of kinds of
//!   events, but different kinds.
//! - `moved_place`: a place of a part that was read apart, behind so many events of each CPU; exact,
//!   `moved_within` (`specs/Moving.antt`). `places_move`: the law that such places are those of the whole.
#![tactic(auto)]

mod events;
mod fault;
mod joining;
mod kept;
pub mod laws;
mod left_out;
mod missing;
mod moving;
mod owned;
mod pieces;
mod ran;
mod reading;
mod seam;
mod showing;
mod so_far;
mod starts;
mod state;
mod steps;
mod stream;
mod summing;
mod whole;

pub use fault::{BadLine, BadLines, LinesRead, TextRead, WaitsFault, WithoutFault};
pub use laws::nothing_left_out;
pub use left_out::{LeftOut, Without};
pub use missing::Missing;
pub use moving::{moved_place, places_move};
pub use seam::JoinFault;
pub use stream::Waits;
pub use whole::{WaitsRead, waits_in};
