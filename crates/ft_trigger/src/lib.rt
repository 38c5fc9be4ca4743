//! The trigger language: reading the texts of hist triggers. A text is a head, which is read into a
//! draft (`ft_head`), and a tail, which is a filter or nothing; what the words of the draft name is
//! looked up once its parts are read. A trigger that some text gives is given again by its
//! canonical text. What a trigger is, and under which keys it counts events, stands in `ft_hist`,
//! whose items are re-exported here.
//!
//! ```ignore
//! let trigger = parse(alloc, Name::Waking, b"hist:keys=pid:vals=prio:size=130 if prio < 100")?;
//! assert_eq!(trigger.size(), 256);
//! let mut text = Vec::new(alloc);
//! trigger.write(&mut text)?;
//! match parse(alloc, Name::Waking, b"hist:keys=next_pid") {
//!     Err(fault) => assert_eq!(fault, TriggerFault::NoField),
//!     Ok(_) => return Err("a waking has no such field"),
//! }
//! ```
//!
//! # Contracts
//!
//! - `parse`, clause `meaning`: `TriggerIs` (`specs/TriggerIs.antt`, with
//!   `ft_head/specs/Draft.antt`), for every text and event: the trigger that the text is, or the
//!   first fault with its place. Lets through: running out of memory at any time; by clause
//!   `memory` it is never reported as the filter's fault.
//! - Law `one_answer`: every text has one answer on every event.
//! - Laws `reads_again`, `refiltered_reads_again`: a trigger that some text gives, also with
//!   another filter or none, is given again by its canonical text.
//! - Law `sound_triggers`: such a trigger is of its event, within the limits, and sound.
//! - Laws `cuts`, `one_tail`, `shapes`: every text is a head, and then nothing or a gap and a tail;
//!   a tail says one thing; what the text of a trigger looks like.
//! - Laws `heads_first`, `faults_stay`: a text has each fault of its head, whatever its tail is; a
//!   fault of the head's parts stays with any parts after them.
//! - Law `any_order`: if a head is a trigger, swapping any two neighbours among its parts gives the
//!   same trigger.
//! - Laws `one_cut`, `first_parts`, `first_items`: a text is cut at a separator in one way. Of the
//!   parts of a head, and of the items of keys, values and sort items, the first that has a fault,
//!   given what is read of those before it, decides; if none has one, the answer is what is read of
//!   all (`specs/FirstFaults.antt`). Let through: which fault a part or an item has. Only the rules
//!   `with_part`, `with_key`, `with_value` and `with_sort` say that.
//! - Law `forms_in_front`: what is read of parts shows which forms stand among them, each once; a
//!   part has the same fault after any parts of the same forms; a second part of a kind has
//!   `Duplicate`, unless it is one that is left out (`specs/Forms.antt`).
#![tactic(auto)]

pub mod laws;
mod reading;
mod resolving;
mod tail;

pub use ft_head::{TriggerFault, one_action, one_list, one_word, sizes};
pub use ft_hist::{
    Item, Key, KeyItem, Label, Mode, Onmatch, Part, SortBy, SortItem, Trigger, TriggerParts, Var,
    Work, asked_events, equal_keys, fitting_parts, mode_named, multiples, one_key_order, powers,
    summed_fields,
};
pub use laws::{
    any_order, cuts, faults_stay, first_items, first_parts, forms_in_front, heads_first,
    one_answer, one_cut, one_tail, reads_again, refiltered_reads_again, shapes, sound_triggers,
};
pub use reading::parse;
