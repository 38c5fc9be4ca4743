//! The table of a hist trigger: its hits, which keys are in, and its rows, totals and text.
//!
//! A table holds every hit, so that one may come before all others, or go again. Hits come one by
//! one, or all hits of a key at once, with one look-up of the key. The keys in the table are the
//! first `size` keys in order of their first hits. If a key is in, all its hits are counted, else
//! all are dropped.
//!
//! A table shows a row for each key that is in, and totals. A row says how often the key was hit,
//! and what the values of its hits sum up to, modulo 2^64. Rows are sorted by the sort items of the
//! trigger, and by key if these leave them equal. A table's text has lines that name the trigger,
//! the rows, one per line, and the totals.
//!
//! The crate `ft_hits` below says what a hit, its spot and its mark are; its `Hit`, `Mark`, `Spot`
//! and laws `one_spot_order` and `one_mark_order` are passed on.
//!
//! ```ignore
//! let mut table = Table::new(rt.alloc(), 128);
//! let spot = Spot::traced(pos);
//! let hit = hit_with(&trigger, &event, spot, key, None);
//! table.insert(hit, &mut work)?;
//! assert!(rt; table.is_in(&key) && table.totals().hits == 1);
//! let text = table.text(rt.alloc(), &trigger)?;
//! table.remove(spot, key);
//! assert!(rt; table.row(&key).is_none());
//! ```
//!
//! ```ignore
//! let mut rows = Vec::new(rt.alloc());
//! rows.push(Row { key: Key::of_one(Part::Num(42)), hitcount: 2, sums: [0, 0, 0] })?;
//! rows.push(Row { key: Key::of_one(Part::Num(8)), hitcount: 1, sums: [0, 0, 0] })?;
//! sort_rows(&mut rows, trigger.sort());
//! let totals = Totals { hits: 3, entries: 2, dropped: 0 };
//! let mut text = Vec::new(rt.alloc());
//! write_heading(&trigger, &mut text)?;
//! write_rows(&trigger, &rows, totals, &mut text)?;
//! ```
//!
//! # Contracts
//!
//! - `Table::new`, `insert`, `remove`: contracts see a table as its hits, a finite map from mark to
//!   values, and its size (`specs/Tabled.antt`). `new` has no hits. `insert` puts one where none
//!   stands, at exactly one tick of `puts`, and a refusal changes nothing; `remove` takes one, if
//!   it is there, without memory. `insert` lets through: running out of memory at any time.
//! - `Table::put_key`: a key that has no hits yet gets those of a list, at a tick of `puts` for
//!   each; a refusal changes nothing (`specs/Runs.antt`). Lets through: running out of memory at
//!   any time.
//! - `Table::is_empty`, `is_in`, `size`, `edge` (an `Edge`), `holds`, `hit_after`: whether there are
//!   hits, which keys are in, and which hits there are (`specs/Tabled.antt`); exact.
//! - `Table::mark_near_edge`, `marks_from`, `is_before`: the keys in the order of their first hits
//!   around the edge: the mark so many places before the first one outside, all marks from one on,
//!   and whether a key's first hit stands before a mark (`specs/Tabled.antt`); exact.
//! - `Table::row`, `rows`, `totals`: the `Row` of a key that is in, all of them by sort items, and
//!   the `Totals` (`specs/Rows.antt`); exact. `rows` lets through: running out of memory at any
//!   time.
//! - `Table::write`, `Table::text`: the rows and the totals of a table, added to a text, which at a
//!   refusal is as it was; the same with the heading, as a text of its own (`specs/Text.antt`). Both
//!   require that the keys fit the trigger. Let through: running out of memory at any time.
//! - `Table::keyed_rows`, `text_of_row`: the rows with their texts, each a `TableRow`, of which
//!   contracts see the key and the text's bytes (`specs/Keyed.antt`); the text of one key's row, or
//!   none if the key isn't in. Let through: running out of memory at any time.
//! - `hit_with`: the hit of a trigger at an event, with its values (`specs/Values.antt`); exact.
//! - `own_value`: the value of a trigger's own variable at an event's stamp, by what was read
//!   (`specs/Values.antt`); exact. Requires a stamp that an event can have.
//! - `sort_rows`: rows of different keys, in order (`specs/Sorting.antt`); exact.
//! - `write_heading`, `write_rows`: the lines above the rows, with the trigger's canonical text, and
//!   the text of rows and totals, are added (`specs/Text.antt`). Let through: running out of memory
//!   at any time; after a refusal of `write_rows` any bytes after the old ones, and after one of
//!   `write_heading` any text.
//! - `row_text`, `table_rows`: the text of a row, which `write_rows` adds with a line break; rows
//!   with their texts, in the same order. Let through: running out of memory at any time.
//! - Law `first_keys`: a key is in exactly if it has a hit and fewer than `size` other keys have an
//!   earlier first hit (`specs/Admission.antt`).
//! - Law `all_hits`: a key in the table has all its hits counted, all hits of the others are
//!   dropped, and both together are all hits (`specs/Admission.antt`).
//! - Law `one_more_hit`: what a hit after all others does (`specs/Growth.antt`).
//! - Law `one_key`: with any change of one key's hits, only it and at most one other key come in or
//!   go out (`specs/OneKey.antt`).
//! - Law `first_outside`: the first key outside isn't in (`specs/OneKey.antt`).
//! - Law `fitting_keys`: keys fit a trigger as long as only keys that fit come in
//!   (`specs/Fits.antt`).
//! - Law `one_row_order`: the order of rows is total, and rows of distinct keys have one sorted
//!   order (`specs/Sorting.antt`).
#![tactic(auto)]

mod keyed;
pub mod laws;
mod number;
mod order;
mod part;
mod ranked;
mod row;
mod sorting;
mod table;
mod text;
mod values;

pub use ft_hits::{Hit, Mark, Spot};
pub use laws::{
    all_hits, first_keys, first_outside, fitting_keys, one_key, one_mark_order, one_more_hit,
    one_row_order, one_spot_order,
};
pub use row::{Row, TableRow, Totals};
pub use sorting::sort_rows;
pub use table::{Edge, Table};
pub use text::{row_text, table_rows, write_heading, write_rows};
pub use values::{hit_with, own_value};
