//! What is kept of attached triggers beside the events that they count, so that an answer needs no
//! replay: each trigger's table, the saves and reads of each variable, and what each reading found.
//! As an event is put in or taken away, all of it is repaired where the event touches it, and the
//! keys under which hits may have changed are recorded. If nothing is kept of a trigger yet, all
//! its events come at once, each key's part as a whole.
//!
//! ```ignore
//! let mut tables = Tables::new(alloc);
//! tables.add(1, Role::Saves, 2048)?;
//! tables.add(2, Role::Reads(1), 2048)?;
//! let scene = Scene { triggers: &triggers, lanes: &lanes };
//! let mut changes = Changes { keys: Log::new(alloc), readings: Log::new(alloc) };
//! let mut work = Work::new();
//! // `Sign::Retract` if the event is taken away.
//! let delta = Delta { sign: Sign::Insert, pos, event: &event };
//! tables.apply(&scene, &delta, &mut changes, &mut work)?;
//! if let Some(shelf) = tables.shelf(2) {
//!     let found = shelf.readings().get(&pos);
//! }
//! // If memory was found for the keys under which hits may have changed:
//! if let Some(keys) = changes.keys.items() {
//!     let rows = changed_rows(alloc, &tables, &triggers, keys)?;
//!     // The row of `rows[0].key` in the table of trigger `rows[0].id` may differ, and so on.
//! }
//! ```
//!
//! # Contracts
//!
//! Contracts see a *shelf* for each trigger (`ft_shelves/specs/Shelves.antt`). Shelves and held
//! events tell an *input* (`specs/Input.antt`): which held events each trigger counts, and under
//! which key. Shelves are *views* of it if they contain what it says (`specs/Views.antt`,
//! `specs/Entries.antt`). No replay is in it. A function that returns a `Result` lets through:
//! running out of memory at any time, unless a clause `memory` rules it out. Nothing is said of the
//! shelves then, except by `Tables::add`, which leaves all as it was.
//!
//! - `Tables::apply`, and `apply_to` at one trigger. Lets through: any walks and look-ups, and any
//!   work on kept readings, which isn't counted; giving up the record of keys, or that of readings,
//!   at any time. That only what an event touches is repaired, and that only running out of memory
//!   ends the recording, is seen in the source.
//! - `Tables::join`: no event is tested again (`specs/AtOnce.antt`). Lets through: any number of
//!   puts.
//! - `Tables::is_bare`. Lets through: saying no; then the acts come one by one.
//! - `changed_rows`: the report of an event by the keys that were recorded, exact
//!   (`specs/Report.antt`, `specs/Touched.antt`). The law `reported_rows` says what such a report
//!   has, if hits stay except under these keys (`specs/Laws.antt`).
//! - All others are exact.
#![tactic(auto)]

mod act;
mod apply;
mod at_once;
mod changes;
pub mod laws;
mod report;
mod saver;
mod settle;
mod tables;

pub use act::{Attached, Delta, Scene};
pub use changes::{Changes, KeyChange, Log, Whose};
pub use ft_changes::Changed;
pub use ft_shelves::{Joining, Shelf, Sign};
pub use laws::reported_rows;
pub use report::{changed_rows, keys_with_rivals, put_rows};
pub use tables::Tables;
