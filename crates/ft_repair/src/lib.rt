//! Kept shelves that follow the base: repaired as events come and go, as triggers join and leave,
//! or built anew. No repair replays the events: one event more or less changes a few entries, and a
//! trigger that joins, leaves or gets another filter lets the shelves of most others stay as they
//! are. If memory runs out, the shelves are given up. If there are none, a repair leaves it so.
//!
//! ```ignore
//! let mut kept = Some(Tables::new(alloc));
//! let id = content.attach(trigger)?;
//! join(&mut kept, &content, id, work);
//! let Place { cpu, line } = content.insert(event)?;
//! let pos = Pos { stamp: event.stamp, cpu, line };
//! let delta = Delta { sign: Sign::Insert, pos, event: &event };
//! let_change(&mut kept, &content, &delta, &mut Changes::unasked(), work);
//! // The shelves are those of all triggers and events, unless memory ran out on the way.
//! if kept.is_none() {
//!     kept = rebuilt(alloc, &content, work).ok();
//! }
//! ```
//!
//! # Contracts
//!
//! The shelves are an `Option<Tables>`. Contracts say, in terms of the base, for which triggers and
//! events the shelves are kept, before a repair and after it (`AreKeptOf`,
//! `specs/KeptShelves.antt`). The law `kept_shelves` leads from there to the replay.
//!
//! The contracts let through:
//!
//! - giving the shelves up at any time, unless a clause `now` says that no memory is needed;
//! - any number of puts, unless a clause `costs` or `none` says how many, and any number of tests
//!   in `rebuilt`, and in `make_way` and `leave` of a trigger that reads (`none` is for others);
//! - any change of the other readers of a variable as one reader comes, goes or gets another
//!   filter, since they miss what this one reads (`readers_stay`).
#![tactic(auto)]

mod events;
mod lane;
pub mod laws;
mod triggers;

pub use events::{cpus_before, let_change, let_lanes_come};
pub use lane::let_lane_go;
pub use laws::{kept_shelves, others_stay, readers_stay};
pub use triggers::{join, leave, make_way, rebuilt};
