//! Sorted maps in blocks: entries in the order of their keys, which lie one after the other.
//!
//! A map of few entries is one vector. A map of many is a list of vectors, its *blocks*, each of at
//! most 256 entries: a binary search finds the block for a key, and another its place in the block.
//! So an entry takes its own bytes and little more, its neighbours are at hand, and a map is
//! dropped block by block. Entries that come in the order of their keys are pushed. A `BTreeMap` is
//! quicker if a million entries come and go in any order.
//!
//! ```ignore
//! let mut map = Blocks::of(rt.alloc(), vec![in rt.alloc(); (3, 30), (7, 70)]?)?;
//! map.insert(rt.alloc(), 5, 50)?;
//! assert!(rt; map.get(&5) == Some(&50) && map.first() == Some((3, 30)));
//! assert!(rt; map.before(&5) == Some((3, 30)) && map.after(&5) == Some((7, 70)));
//! // The entry of 3 goes to 6, though there may be no memory for it.
//! map.move_on(rt.alloc(), &3, 6);
//! // 5, 6, 7
//! for (key, _) in map.entries() {
//!     keys.push(key)?;
//! }
//! assert!(rt; map.remove(&6) == Some(30));
//! ```
//!
//! # Contracts
//!
//! Contracts see a map as the list of its entries, whose keys strictly rise (`specs/Sorted.antt`).
//! `specs/Seen.antt` leads from there to the finite maps that contracts above see.
//!
//! - `Blocks::new`, `of`: no entries, and those of a run whose keys strictly rise; exact. `of` lets
//!   through: running out of memory at any time.
//! - `Blocks::insert`: a key has a value, in place of what it had, and all other entries stay; a
//!   refusal changes nothing. Lets through: running out of memory at any time.
//! - `Blocks::remove`: a key has nothing, and all other entries stay; it reports what the key had.
//!   Exact, and needs no memory.
//! - `Blocks::move_on`: what a key has goes to a later key, which must have nothing; exact, and
//!   can't be refused. If the key has nothing, nothing changes.
//! - `Blocks::get`, `before`, `after`, `first`, `entries`, `entries_from`: what a key has, the last
//!   entry below a key, the first above it, the first of all, all in order, all from a key on;
//!   exact. All except `get` and `entries_from` also say that the keys strictly rise.
//! - No clause says how entries are spread over blocks, nor how many steps a call takes.
#![tactic(auto)]

mod block;
mod blocks;
mod edits;
mod entries;
mod moves;
mod places;

pub use blocks::Blocks;
pub use entries::Entries;
