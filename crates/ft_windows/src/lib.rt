//! Windows: where events of a recording are missing though no line reports it: before a CPU's first
//! event or after its last one, and wherever a task must have run unseen.
//!
//! ```ignore
//! let mut windows = Windows::new(alloc)?;
//! windows.take(&event)?;
//! windows.show_all(&showings)?;
//! let told = losses.told(alloc)?;
//! let mut holes = losses.finish(alloc)?.holes;
//! windows.add_to(alloc, &told, &mut holes)?;
//! let doubts = Doubts::of(alloc, &holes)?;
//! ```
//!
//! Parts may be read apart, from `Windows::new` on, and joined in order:
//!
//! ```ignore
//! windows.join(part)?;
//! ```
//!
//! # Contracts
//!
//! - `Windows::new`, `take`, `show`, `show_all`: what is kept answers as all events and showings do
//!   that came: `Keeps` (`specs/Telling.antt`). Showings may come in any order, and more than once.
//!   Fails only for memory. Lets through: running out of memory at any time; what is kept then; how
//!   much is kept of a task or a showing.
//! - `Windows::join`: what is kept of a part that was read apart, from `Windows::new` on, is joined
//!   to what is kept of the events before it: it then answers as those do with the part's events
//!   behind them, and as the showings of both do. Takes a look-up for each task and stretch of the
//!   part. Fails only for memory. Lets through: running out of memory at any time; what is kept
//!   then.
//! - `Windows::add_to`: adds the windows to the holes that lines report, and then each showing that
//!   none of all these holes spans; exact, `with_windows` (`specs/Windows.antt`). A CPU is told, if
//!   the recorder told how many of its events were overwritten before its first one: it has no
//!   window there, and its window after its last event stays. A CPU without a truth value isn't
//!   told. Which holes are added, and in which order, doesn't depend on the order in which showings
//!   came. Fails only for memory. Lets through: running out of memory at any time; which holes are
//!   added then.
//! - `showings_in_any_order`: the law that what is kept of some showings is kept of any others that
//!   answer alike.
#![tactic(auto)]

mod adding;
mod joining;
mod lanes;
mod laws;
mod naming;
mod spans;
mod taking;
mod windows;

pub use laws::showings_in_any_order;
pub use windows::Windows;
