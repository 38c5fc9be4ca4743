//! Changes: what an edit of a trace changes of what is kept, and which rows of a table differ then.
//!
//! A change of a reading says which saving it had found and which it finds, maybe the same. Of many
//! changes one after the other, each begins where the one before it ended, so that they lead from
//! what all readings found to what they find.
//!
//! A table has only so many keys: the first ones, in order of their first hits. So if it is full, a
//! key that comes in sends another out, and one that goes out lets another in. Whatever happens to
//! the hits of some keys, in whatever order, these others are always among the same few, the keys'
//! rivals. There are at most as many rivals as keys, and which they are depends only on the size
//! and on the other keys' hits. All rows stay, except those of the keys and of their rivals.
//!
//! ```ignore
//! let keys = [key];
//! let found = rivals(rt.alloc(), &table, &keys)?;
//! table.remove(spot, key);
//! // The rows of `key` and of `found`, which is one key at most, may differ now, and no others.
//! ```
//!
//! # Contracts
//!
//! - `Changed`: a row of a report (`specs/Reports.antt`). `ReadingChange`: changes *lead* from what
//!   readings found to what they find if each had found what its change says, and what all of them
//!   made of it is what is found then (`specs/Findings.antt`).
//! - Law `some_rivals`: take two tables of one size that differ only in the hits of some keys. They
//!   have the same rows, except those of these keys and of their *rivals* (`specs/Rivals.antt`).
//!   Rivals are other keys, none twice, at most as many as the keys. They depend only on the size
//!   and on the other keys' hits, so they are the same before and after. One hit that comes or goes
//!   is such a change at its key; several changes together are one at all their keys, in any order,
//!   and so is a change that is undone.
//! - `rivals`: the rivals of keys of which no two are the same, in order of their first hits;
//!   exact. Lets through: running out of memory at any time; how far from the table's edge it
//!   looks.
//! - `SortedKeys`: contracts see the keys. `new`, `of`, `insert`, `contains`: none, some keys, one
//!   more, and whether a key is one of them; exact, except that the order of the keys is left open.
//!   `of` and `insert` let through: running out of memory at any time. No clause says how many steps
//!   a call takes.
#![tactic(auto)]

mod changed;
mod edge;
pub mod laws;
mod sorted_keys;

pub use changed::{Changed, ReadingChange};
pub use edge::rivals;
pub use laws::some_rivals;
pub use sorted_keys::SortedKeys;
