//! The head of a hist trigger's text: its parts, read from left to right into a draft. A part is a
//! list of keys, values or sort items, a size, a variable, or what events are made of; the first
//! fault decides. What values and sort items name is looked up once all parts are read, by
//! `ft_trigger`, which also reads the tail.
//!
//! ```ignore
//! let text = b"keys=pid,prio.log2:vals=$ts0:ts0=common_timestamp.usecs";
//! let draft = parts_of(alloc, Name::Waking, 5, text)?;
//! assert!(draft.keys.is_some() && draft.values.is_some() && draft.variable.is_some());
//! assert!(draft.sort.is_none() && draft.size.is_none());
//! match parts_of(alloc, Name::Waking, 5, b"keys=pid:pause") {
//!     Err(fault) => assert_eq!(fault, TriggerFault::LeftOut(14)),
//!     Ok(_) => return Err("that part was read"),
//! }
//! ```
//!
//! # Contracts
//!
//! - `parts_of`: the draft that the parts make, or the first fault among them with its place, as
//!   `parts_from` has it (`specs/Draft.antt`). Lets through: running out of memory at any time.
//! - `Draft`, `Action`: exact. `TriggerFault` is that of `ft_hist`, passed on.
//! - Law `sizes`: the size that a text writes.
//! - Law `one_action`: a part is read as what events are made of exactly if it is of the form
//!   (`specs/Onmatch.antt`, `specs/PartSpelling.antt`).
#![tactic(auto)]

mod draft;
pub mod laws;
mod lists;
mod onmatch;

pub use draft::{Draft, Kind, parts_of};
pub use ft_hist::TriggerFault;
pub use ft_text::Word;
pub use laws::{one_action, one_list, one_word, sizes};
pub use onmatch::Action;
