//! Hits: what events add to a trigger's table, where they stand, and how those of a key are kept.
//!
//! A hit has a *spot*: the place of an event, and who made the event, which is 0 for an event of
//! the trace, else the id of a trigger. A spot and a key are a *mark*; hits stand in the order of
//! their marks. The hits of one key are an entry, by spot, with the sums of their values modulo
//! 2^64, and an index has an entry for each key.
//!
//! A hit comes or goes at its mark. If a key has no hits yet, all its hits can come at once, as an
//! entry made of a run: spots with values, in any order.
//!
//! ```ignore
//! let mut hits = HitIndex::new(rt.alloc());
//! let mark = Mark { spot: Spot::traced(pos), key };
//! hits.put_hit(rt.alloc(), mark, [20, 0, 0])?;
//! assert!(rt; hits.count_of(&key) == 1 && hits.sums_at(&key) == [20, 0, 0]);
//! assert!(rt; hits.first_at(&key) == Some(mark.spot));
//! // All hits of another key at once.
//! hits.put_entry(other, Entry::of(rt.alloc(), run)?)?;
//! assert!(rt; hits.take_hit(mark) && !hits.holds(mark));
//! ```
//!
//! # Contracts
//!
//! - `Spot::traced`: the spot of an event of the trace (`specs/Spots.antt`); exact. `Mark` and
//!   `Hit` have plain fields (`specs/Marks.antt`).
//! - `HitIndex::new`, `put_hit`, `take_hit`: contracts see an index as all its hits: a finite map
//!   from mark to values (`specs/Hits.antt`). `put_hit` puts one where none stands, and a refusal
//!   changes nothing; `take_hit` takes one, answers whether it stood there, and needs no memory.
//!   `put_hit` lets through: running out of memory at any time.
//! - `HitIndex::put_behind`: puts a hit if its key has one before it, and answers where the first
//!   of these stands; else, and at a refusal, nothing changes. Lets through: running out of memory
//!   at any time.
//! - `HitIndex::put_entry`: a key has the hits of an entry, and all others stay. Lets through:
//!   running out of memory at any time, and then all is as it was.
//! - `HitIndex::count_of`, `sums_at`, `first_at`, `next_hit`, `holds`: how many hits a key has,
//!   their sums modulo 2^64, the spot of the first, the first after a spot or of all, whether one
//!   stands at a mark (`specs/Hits.antt`); exact.
//! - `Entry::of`, `Entry::len`, `Entry::first`: contracts see an entry as its hits, a finite map
//!   from spot to values. `of` makes it of a list, and keeps the first of several hits at one spot;
//!   exact. `of` lets through: running out of memory at any time.
//! - `count_puts`: one tick of `puts` for each hit of a list, and none of `evals`.
//! - Laws `one_spot_order`, `one_mark_order`: spots stand by place, then by maker; marks by spot,
//!   then by key; those that tie are equal.
#![tactic(auto)]

mod entry;
mod hit;
mod index;
pub mod laws;
mod mark;
mod run;
mod series;
mod spot;

pub use entry::Entry;
pub use hit::Hit;
pub use index::HitIndex;
pub use laws::{one_mark_order, one_spot_order};
pub use mark::Mark;
pub use run::count_puts;
pub use spot::Spot;
