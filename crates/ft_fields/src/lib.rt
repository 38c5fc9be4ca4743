//! Events and keys: what an event has by name, where it stands, and what hits are counted under.
//!
//! An event says which task ran, on which CPU, when, and what was traced: that a task is woken,
//! that a CPU switches to another task, or anything else. One event is not of a trace:
//! `wakeup_latency`, which a trigger makes when it measures a latency. Filters and triggers speak
//! of an event by the names of its fields. All events stand in one order: by stamp, then by CPU,
//! then by line number.
//!
//! A key has one to three parts. A part is a number, a power of 2, a multiple of a bucket's size,
//! or a text. Parts are ordered by kind, then by value; keys are ordered by their parts from the
//! left, and a key stands before those that it begins.
//!
//! ```ignore
//! let mut event = Event::blank();
//! event.body = Body::Waking(Wake { comm: task, pid: 42, prio: 120, target_cpu: 0 });
//! assert_eq!(rt; event.name(), Name::Waking);
//! assert_eq!(rt; field_named(event.name(), b"pid"), Some(Field::Pid));
//! assert_eq!(rt; event.field(Field::Pid), Some(Value::Num(42)));
//! assert_eq!(rt; event.field(Field::NextPid), None);
//! let earlier = Pos { stamp: 6_000_100, cpu: 1, line: 9 };
//! assert!(rt; earlier < Pos { stamp: 6_000_100, cpu: 2, line: 3 });
//! ```
//!
//! ```ignore
//! let short = Key::of_one(Part::Num(-1));
//! let long = Key::of_two(Part::Num(-1), Part::Log2(3));
//! assert!(short < long && long < Key::of_one(Part::Num(0)));
//! assert_eq!(long.part(1), Some(Part::Log2(3)));
//! assert!(short.part(1).is_none());
//! ```
//!
//! # Contracts
//!
//! - `Event`, and in it `Body`, `Wake`, `Turn` and `Matched`: contracts see a record of the same
//!   fields, whose stamp and CPU (`Event::LAST_CPU`) are within their limits. `Event::blank`: exact.
//! - `Event::name`, `Event::field` (a `Value`), `field_named`, `field_text`, `Field::is_text`: the
//!   table of fields (`specs/Fields.antt`), exact. A second clause of `field_named`, `meaning`: a
//!   field is given exactly if the event has it and the text is its name.
//! - `Name::text`, `Name::called`, `Name::is_traced`: the names of events, and which of them are
//!   traced (`specs/Names.antt`), exact. `called` has a clause `meaning` too.
//! - `Comm::of`, `Comm::filled`, `Comm::bytes`: contracts see a list of at most 31 bytes; exact.
//!   `of` gives none exactly if the text is longer; `filled` requires that it is not.
//! - `EventRef`, and in it `BodyRef`, `WakeRef`, `TurnRef` and `NameRef`: the event that one tells is
//!   a function of it (`specs/Borrowed.antt`), and that of `Event::borrowed` is the event itself;
//!   exact. `NameRef::text` lets through: whatever follows the name.
//! - `Key`: contracts see a list of one to three parts. The functions that make one and read its
//!   parts are exact.
//! - `Comm`, `Pos`, `Part`, `Key`: lawful total orders.
//! - Law `one_order`: places are ordered by stamp, then CPU, then line number
//!   (`specs/Places.antt`); places that tie are equal.
//! - Laws `one_key_order`, `equal_keys`: keys are ordered by their parts from the left, a beginning
//!   before what it begins (`specs/Parts.antt`); keys that tie are equal.
//! - Law `values_of_fields`: an event has a value in exactly the fields of its name, and a text in
//!   exactly those of them that hold texts.
#![tactic(auto)]

mod borrowed;
mod comm;
mod event;
mod field;
mod key;
pub mod laws;
mod pos;

pub use borrowed::{BodyRef, EventRef, NameRef, TurnRef, WakeRef};
pub use comm::Comm;
pub use event::{Body, Event, Matched, Name, Turn, Wake};
pub use field::{Field, Value, field_named, field_text};
pub use key::{Key, Part};
pub use laws::{equal_keys, one_key_order, one_order, values_of_fields};
pub use pos::Pos;
