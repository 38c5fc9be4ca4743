//! Events that readings make: a trigger that reads may make one at each latency that it measures,
//! and the event goes past the attached triggers at once.
//!
//! Replaying with made events is two replays, one after the other: the held events go past as if
//! none were made, and what their readings find says which events are made. So a trigger that
//! counts made events needs no replay: its table is made of what is kept of readings, and as these
//! change, it changes at their places only.
//!
//! ```ignore
//! let counting = Counting { lanes, triggers, trigger };
//! let mut table = counting.made_table(rt.alloc(), &readings, &mut work)?;
//! // One more reading, of the trigger with id 2, found a saving.
//! let spot = Spot { pos: read, maker: 2 };
//! put_made(&mut table, trigger, spot, maker.made(event, saved), &mut work)?;
//! // Later, readings changed: what they had found and what they find.
//! counting.put_changed_keys(&mut keys, &changes, &mut work)?;
//! counting.update_made(&mut table, &changes, &mut work)?;
//! ```
//!
//! # Contracts
//!
//! What a reading makes is `made_of` of the trigger (`ft_hist/specs/Made.antt`): an event if the
//! trigger has an onmatch part. It depends on the place and the event of the reading, and on the
//! place of the saving that it finds. The laws (`specs/Laws.antt`) lead from replaying with made
//! events (`specs/ReplayMaking.antt`) to the events that are made (`specs/MadeEvents.antt`), to the
//! hits of a trigger among them (`specs/MadeHits.antt`), and to a table that holds just these, made
//! of kept readings (`IsMadeTable`, `specs/MadeTables.antt`) and changed as these change
//! (`specs/Updating.antt`).
//!
//! The functions are exact if they succeed. They let through:
//!
//! - `Counting::made_table`, `Counting::put_changed_keys`: running out of memory at any time; any
//!   number of steps, but the first takes none if no trigger has an onmatch part.
//! - `Counting::update_made`: running out of memory, and any number of steps, both only if there
//!   are changes; if memory runs out, nothing is said of the table.
//! - `put_made`, `take_made`: one test if the trigger is on the event's name, and one put at most.
//!   `put_made` lets through running out of memory at any time, and then the table is as it was.
#![tactic(auto)]

pub mod laws;
mod tables;
mod updating;

pub use laws::{
    changed_keys, made_by_spot, made_counters, made_tables, made_tallies, replayed_pairs, same_made,
};
pub use tables::KeptReadings;
pub use updating::{Counting, put_made, take_made};
