//! Dispatches: what events say of who runs, and since when each task that a CPU switches to was runnable.
//!
//! ```ignore
//! let mut tasks = Tasks::new(alloc);
//! let mut dispatches = Vec::new(alloc);
//! let mut shown = Shown::new(alloc);
//! // Acts come in the order of their places.
//! tasks.take_all(&acts, &mut dispatches, &mut shown)?;
//! for dispatch in &dispatches {
//!     if let Some(began) = dispatch.since.waiting() {
//!         let micros = dispatch.place.stamp - began.place.stamp;
//!     }
//! }
//! ```
//!
//! Parts may be read apart, from `Tasks::new` on, and joined in order:
//!
//! ```ignore
//! tasks.show_firsts(&shown_by_part.firsts, &mut shown)?;
//! tasks.join(part, &events_by_cpu, &mut dispatches_of_part)?;
//! ```
//!
//! # Contracts
//!
//! - `PlacedAct::of`: what an event says of who runs, if it says anything; exact, `act_of`
//!   (`specs/Acts.antt`).
//! - `PrevState::can_run`: whether a task that a switch leaves so can still run; exact.
//! - `Tasks::new`, `take_all`: after acts that came in any number of calls, the dispatches that
//!   were added are those of all these acts, the oldest first: `dispatches`
//!   (`specs/Dispatches.antt`). A dispatch has the places where its task was last woken, created
//!   and left, each since it last ran, and where it was last seen to run. The stretches in which a
//!   task must have run though no event says so are added too: `showings`, with the wakings that may
//!   show more behind other acts, `first_wakings` (`specs/Showings.antt`). Fails only for memory. Lets
//!   through: running out of memory at any time; which dispatches are added before that.
//! - `Tasks::join`: a part that was read apart, from `Tasks::new` on, and is joined to what is
//!   known after the acts before it, gives what its acts give behind those: `Joins`
//!   (`specs/Joining.antt`). Of its dispatches the first one of each task is enough: the others
//!   only get their places behind. Linear in the dispatches and tasks of the part, times a look-up.
//!   Fails only for memory. Lets through: running out of memory at any time; what is known, and
//!   which dispatches are completed, then.
//! - `parts_join`, `first_ones_join`: the laws behind it, on the definitions; what joining does to
//!   the first dispatches of tasks, and that in all others only the places change.
//! - `Tasks::show_firsts`: what the first wakings of a part show behind the acts before it: exact,
//!   `ShowsFirsts` (`specs/Telling.antt`). Takes a look-up for each. Fails only for memory. Lets
//!   through: what is added before that.
//! - `first_wakings_join`, `showings_move`: the laws of what a part shows behind the acts before it: only
//!   its first wakings depend on those, and places don't matter as long as their order stays.
//! - `FirstOnes::new`, `take_all`: of dispatches that came in any number of calls, the first one of
//!   each task is held, and the others are passed on, in their order: `Holds`, `TakesOn`
//!   (`specs/Holding.antt`). Takes the logarithm of the tasks for each. Fails only for memory. Lets
//!   through: what is held and passed on then.
//! - `Since::waiting`: which of the three places a wait counts from, and why; exact, `waiting_since`
//!   (`specs/Began.antt`).
//! - `Since::is_before_sleep`: whether a wait that began with this began before its task was last left
//!   asleep, and not with the waking of a task that was about to sleep; exact, `is_before_sleep`
//!   (`specs/Began.antt`).
#![tactic(auto)]

mod act;
mod began;
mod dispatch;
mod holding;
mod joining;
mod laws;
mod showing;
mod taking;
mod tasks;

pub use act::{Kind, PlacedAct, PrevState};
pub use began::{Began, Cause};
pub use dispatch::{Dispatch, Left, Since};
pub use holding::FirstOnes;
pub use laws::{first_ones_join, first_wakings_join, parts_join, showings_move};
pub use showing::{FirstWaking, Showing, Shown};
pub use tasks::Tasks;
