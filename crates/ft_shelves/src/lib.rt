//! A shelf: what is kept of one attached trigger beside the events that it counts. Its hits are a
//! table; what it saves of a variable stands as operations, with the reads of other triggers among
//! them; what its readings found stands by place. Each edit changes one part and leaves the others,
//! except for a saver's hit: the operations follow the keys that are in its table. If nothing is kept
//! of a trigger yet, each key's part is made as a whole.
//!
//! ```ignore
//! let mut shelf = Shelf::new(alloc, Role::Saves, 2048);
//! let hit = hit_with(trigger, &event, Spot::traced(pos), key, None);
//! // The hit's key is in the table now, so the hit saves.
//! let moved = change_saver_hit(&mut shelf, 1, HitChange::Insert(hit), &mut work)?;
//! assert!(rt; moved.own);
//! shelf.change_op(key, reading, Op::Read, Sign::Insert, &mut work)?;
//! // The reading finds the save of that hit.
//! let found = shelf.ops().source(&key, reading);
//! ```
//!
//! # Contracts
//!
//! Contracts see the parts of a *shelf* (`specs/Shelves.antt`), and say what an edit makes of them.
//! No edit tests an event (`specs/Counts.antt`). An edit that returns a `Result` lets through:
//! running out of memory, unless a clause `memory` rules it out, and then nothing is said of the
//! shelf; any number of puts, if its contract names no number.
#![tactic(auto)]

mod joining;
mod saver;
mod shelf;
mod sign;

pub use joining::Joining;
pub use saver::{Moved, change_saver_hit};
pub use shelf::Shelf;
pub use sign::{HitChange, Sign};
