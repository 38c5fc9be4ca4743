//! Groups: the events that a trigger counts, by the key under which it counts them.
//!
//! If many events come to a trigger at once, what it keeps of each key is made in one piece, from
//! the key's events in order.
//!
//! ```ignore
//! let events = merged_events(rt.alloc(), &lanes, &triggers)?;
//! let groups = grouped(rt.alloc(), &trigger, &events, &mut work)?;
//! for key in groups.keys() {
//!     // The events that the trigger counts under `key`, in the order of `events`.
//!     let run = groups.run(key);
//! }
//! ```
//!
//! # Contracts
//!
//! Each key under which the trigger counts an event comes once, with its events in the order of the
//! list (`specs/Grouped.antt`). Lets through: running out of memory at any time; the order of the
//! keys, which is that of their first events; fewer tests than there are events, since the key of a
//! number that was met before is looked up; tests that are not counted, since only the ticks of
//! `evals` are bounded, by the number of events. That each test is counted is seen in the source.
#![tactic(auto)]

mod groups;
mod keys;
mod recent;
mod runs;

pub use groups::{Groups, grouped};
