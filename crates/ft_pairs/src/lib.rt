//! Variables: their saves and reads, kept in order, and which saving a reading finds.
//!
//! A trigger that saves a variable sets it for the key of each counted hit. One that reads it finds
//! what was saved last for its own key, and unsets it: so a reading finds the last operation on its
//! key before it, if that is a save. Operations stand by place in the merged order, then by the
//! trigger's id, and come and go in any order, one by one or all those of a key together.
//!
//! ```ignore
//! let mut pairs = Pairs::new(rt.alloc());
//! pairs.insert(key, saving, Op::Save, &mut work)?;
//! pairs.insert(key, reading, Op::Read, &mut work)?;
//! assert!(rt; pairs.source(&key, reading) == Some(saving));
//! // The reading has unset the variable, so one after it finds nothing.
//! assert!(rt; pairs.source(&key, later).is_none());
//! pairs.remove(&key, reading);
//! assert!(rt; pairs.source(&key, later) == Some(saving));
//! ```
//!
//! # Contracts
//!
//! - `Role`, `Variable`: what a trigger does with which variable (`specs/Roles.antt`); variables
//!   stand by saver, then by key.
//! - `Pairs::insert`, `remove`, `remove_key`: contracts see what stands at each key and place
//!   (`specs/ByKey.antt`). `insert` puts one operation, at exactly one tick of `puts`, and a
//!   refusal changes nothing; `remove` takes one away, if it is there, and `remove_key` all saves
//!   of a key, without memory (`specs/Edits.antt`). `insert` lets through: running out of memory at
//!   any time.
//! - `Pairs::put_key`: puts all operations of a key that has none yet, those of a list, at a tick
//!   of `puts` for each, refused or not; a refusal changes nothing (`specs/Runs.antt`). Lets
//!   through: running out of memory at any time.
//! - `Pairs::put_reads`: puts reads of a key at some places, and returns what each of them finds
//!   then. It makes a tick of `puts` for each, refused or not. Lets through: running out of memory
//!   at any time; then some of the reads may stand: each place of the key has what it had or its
//!   read, and other keys have what they had.
//! - `Pairs::is_empty`: if it says yes, no operation is there. Lets through: saying no.
//! - `Pairs::op_at`, `source`, `next_op`: the operation at a place; what a reading finds
//!   (`specs/Source.antt`); the next operation (`specs/Next.antt`), after which fewer are left.
//! - Laws `one_act_order`, `one_source`, `one_next`: triggers act in order of place, then of id;
//!   what a reading finds, and the next operation, are one thing or nothing.
//! - Laws `local_sources`, `one_operation`, `reads_of_one_key`, `own_operations`, `whole_walks`:
//!   what a reading finds depends only on the operations before it, back to the last one that
//!   stays; one operation more or less changes at most what the next one on its key finds; if a
//!   key's saves go, only reads of that key are touched; what is found for a key, and which
//!   operation is next, depends only on the operations of that key; a walk has each operation once,
//!   in order.
#![tactic(auto)]

mod at;
pub mod laws;
mod pairs;
mod role;
mod sequence;

pub use at::{At, Op};
pub use laws::{
    local_sources, one_act_order, one_next, one_operation, one_source, own_operations,
    reads_of_one_key, whole_walks,
};
pub use pairs::Pairs;
pub use role::{Role, Variable};
