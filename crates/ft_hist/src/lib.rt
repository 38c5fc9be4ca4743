//! Hist triggers: their parts, their canonical text, what they count events under, whether the keys
//! of two match, which are attached, and what may be wrong with a trigger's text. Their texts are
//! read above, in `ft_trigger`.
//!
//! A trigger belongs to one event name. It has one to three keys, which are fields of the event
//! with or without modifiers, up to three values, at most one variable, one or two sort items, a
//! size, and perhaps a filter and an onmatch part, by which it makes events. An event is a hit if it
//! has the name and passes the filter; its key is the list of the key fields' values after their
//! modifiers. Attached triggers stand by id.
//!
//! The crate `ft_fields` below says what a key is; its `Key`, `Part` and laws `one_key_order` and
//! `equal_keys` are passed on, and so is `Work` of `ft_maps`, which counts steps.
//!
//! ```ignore
//! let parts = TriggerParts { keys, values, sort, variable, size: 2048 };
//! let trigger = Trigger::of(Name::Waking, parts, None);
//! let mut work = Work::new();
//! if let Some(key) = trigger.hit_of(&event, &mut work) {
//!     let first = key.part(0);
//!     let sums = trigger.values_of(&event, latency);
//! }
//! trigger.write(&mut text)?;
//! let mut triggers = Triggers::new(alloc);
//! triggers.insert(1, trigger)?;
//! for (id, trigger) in triggers.iter() {
//!     assert_eq!((*id, trigger.size()), (1, 2048));
//! }
//! ```
//!
//! # Contracts
//!
//! - `Trigger::of`, `TriggerParts`: the trigger of these parts (`specs/FromParts.antt`), without an
//!   onmatch part; exact. It requires of the parts what is said below of every trigger.
//! - `Trigger::event`, `keys`, `values`, `sort`, `variable`, `size`, `onmatch`, `filter`: exact. A
//!   trigger keeps the limits (1 to 3 keys, at most 3 values, 1 or 2 sort items, a size of 128 to
//!   131,072) and is sound (`specs/Sound.antt`): its items are fields of its event that suit them,
//!   or its own variable; one with an onmatch part reads a variable, that part names one of the
//!   four events, and both its fields are numbers of the trigger's own event; one on
//!   `wakeup_latency` has neither variable nor onmatch part.
//! - `KeyItem`, `Item`, `SortItem`, `SortBy`, `Mode`, `Onmatch`, `Var`: parts with plain fields.
//!   `mode_named`: the modifier that is a name and nothing else (`specs/Modifiers.antt`);
//!   `Var::own_name`, `Label::bytes`: a variable's name; exact. `Label::of` lets through: running
//!   out of memory at any time.
//! - `Trigger::write`: the canonical text is added (`specs/Canonical.antt`); after an error the
//!   text is as it was. Lets through: running out of memory at any time.
//! - `Trigger::set_filter`, `Trigger::set_onmatch`: that filter or onmatch part, or none; all else
//!   stays.
//! - `Trigger::hit_of`: the key if the event has the trigger's name and passes its filter, else
//!   none (`specs/Hit.antt`), at exactly one tick of `evals` of the `Work` handed in and none of
//!   `puts`. Lets through: ticks of another `Work`.
//! - `Trigger::key_of`: that key, at one tick of `evals` if the trigger is on the event's name,
//!   else at none (`specs/Tests.antt`).
//! - `Trigger::values_of`: what an event adds to the sums, in the order of the values; 0 after the
//!   last one (`specs/Values.antt`).
//! - `Trigger::made`: if there is an onmatch part, the event `wakeup_latency` of a reading and the
//!   saving that it found (`specs/Made.antt`): the reading event's task, PID, CPU and stamp, the
//!   microseconds between the two, and the numbers of both fields.
//! - `Trigger::keys_match`: whether the keys of two triggers make parts of the same kinds
//!   (`specs/Matching.antt`); exact, with a clause `meaning`.
//! - `Trigger::counts_made`: whether it is on the name of made events (`specs/Made.antt`); exact.
//! - `TriggerFault::number`, `TriggerFault::place`: exact.
//! - `Triggers`: contracts see a finite map from ids to triggers (`specs/Triggers.antt`). `new`,
//!   `len`, `get`, `iter`, `remove`, `set_filter`: exact. `insert` puts a trigger at an id, or leaves
//!   the map as it was. It lets through: running out of memory at any time.
//! - Law `powers`: `.log2` gives the least n for which 2 to the n is not below the value.
//! - Law `multiples`: `.buckets` gives the greatest multiple that is not above the value.
//! - Law `fitting_parts`: the key of a hit has a part of its kind for each key item.
//! - Law `asked_events`: an event is a hit exactly if it has the trigger's name and passes its
//!   filter.
//! - Law `summed_fields`: at a hit each field that is summed holds a number, which is its value.
#![tactic(auto)]

mod fault;
mod hitting;
mod item;
mod label;
pub mod laws;
mod matching;
mod modifier;
mod onmatch;
mod trigger;
mod triggers;
mod values;
mod writing;

pub use fault::TriggerFault;
pub use ft_fields::{Key, Part};
pub use ft_maps::Work;
pub use item::{Item, KeyItem, SortBy, SortItem};
pub use label::{Label, Var};
pub use laws::{
    asked_events, equal_keys, fitting_parts, multiples, one_key_order, powers, summed_fields,
};
pub use modifier::{Mode, mode_named};
pub use onmatch::Onmatch;
pub use trigger::{Trigger, TriggerParts};
pub use triggers::Triggers;
