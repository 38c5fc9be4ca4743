//! Held events: lanes by CPU, over one store in which each event stands once.
//!
//! Each CPU has at most one lane: its events by line number, from 1. While the lane is held, no number
//! is given twice, even after its event was taken out. A load makes a lane for each CPU of its
//! events; no such CPU may have one already. A lane is walked by line number, and shown as a text.
//!
//! ```ignore
//! let mut lanes = Lanes::new(rt.alloc());
//! if lanes.held_cpu(&store).is_none() {
//!     lanes.load(store)?;
//! }
//! let line = lanes.push(event)?;
//! assert!(rt; lanes.get(event.cpu, line) == Some(event));
//! let taken = lanes.take(event.cpu, line);
//! // The number stays used.
//! assert!(rt; lanes.next_line(event.cpu) > u64::from(line));
//! let text = lanes.list(rt.alloc(), event.cpu)?;
//! ```
//!
//! # Contracts
//!
//! - `Lanes::load`, `push`, `take`, `take_lane`: contracts see a finite map from CPU to a lane,
//!   which is its events by line and its next number (`specs/Held.antt`). `load` gives each CPU of
//!   the events a lane; `push` adds an event at its lane's next number; `take` and `take_lane` take
//!   one event or one lane away, which needs no memory. A refusal changes nothing. `load` and `push`
//!   let through: running out of memory at any time; whether dead places in the store are ever used
//!   again, which a test shows at a later load.
//! - `Lanes::get`, `lane`, `lanes`, `next_line`, `held_cpu`, `held_on`, `len`: exact.
//! - `Lanes::list`: the text of a lane (`specs/Listing.antt`). Lets through: running out of memory
//!   at any time.
//! - `Lanes::stored`, `cpu_at`: at least as many places as events are held; at most the last CPU.
//!   Lets through: any such numbers. They only help walks.
#![tactic(auto)]

mod edits;
mod lanes;
mod listing;
mod load;
mod rebuild;
mod rows;
mod slots;
mod store;
mod walk;

pub use lanes::Lanes;
pub use walk::{ByCpu, Lane, Lines};
