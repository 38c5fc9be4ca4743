//! Replaying: what the attached triggers count if all held events go past them in order, now.
//!
//! All held events are in one merged order: by stamp, then by CPU, then by line. At each of them
//! the triggers act in order of id: a hit is counted, and may save a variable or read one.
//! `replay_held` returns a `Counter` for each attached trigger. `ft_answers` makes the answers of
//! them.
//!
//! ```ignore
//! let mut work = Work::new();
//! let counters = replay_held(rt.alloc(), &lanes, &triggers, &mut work)?;
//! let counter = counters.get(&id).unwrap();
//! let totals = counter.table().totals();
//! let pairs = counter.pairs();
//! ```
//!
//! # Contracts
//!
//! - `replay_held`, `Counter`: a counter for each attached trigger, whose hits and pairs are the tally
//!   that replaying what is held gives (`specs/Counters.antt`), with the trigger's role and size,
//!   and only keys that fit it; no count of steps falls. `Counter::role`, `table`, `pairs`: exact.
//!   Lets through: running out of memory at any time; any number of steps.
//! - `merged_events`, `merged_events_but`, `events_with`, `Names`: the events of these names in
//!   merged order; exact. Lets through: running out of memory at any time.
//! - Law `merged_order`: what the merged order holds at a place is the event held there, and
//!   nothing else.
//! - Law `named_events`: events whose name no trigger is on change nothing as they are replayed.
//! - Law `matched_readings`, the matching law: a reading finds the place of the last operation
//!   before it, if that is a save, and nothing else (`specs/Operations.antt`).
//! - Law `counted_hits`, the admission law: what a trigger has counted is what a table makes of its
//!   hits. A key is in the table exactly if it has a hit and fewer than `size` other keys have an
//!   earlier first one.
//! - Law `kept_maps`: maps with the right look-ups give the tally that replaying gives
//!   (`specs/Found.antt`).
//! - Law `same_elsewhere`: what stays as events change elsewhere (`specs/Elsewhere.antt`).
#![tactic(auto)]

mod act;
mod counter;
pub mod laws;
mod merge;
mod names;
mod ordered;
mod pair;
mod replay;
mod rests;

pub use counter::Counter;
pub use laws::{
    counted_hits, kept_maps, matched_readings, merged_order, named_events, same_elsewhere,
};
pub use merge::{events_with, merged_events, merged_events_but};
pub use names::Names;
pub use pair::Pair;
pub use replay::replay_held;
