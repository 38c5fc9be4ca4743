//! What a desk answers about the triggers that are attached, however its tables are kept, and where
//! held events stand.
//!
//! What a `Board` answers is a function of what replaying its events gives, with the events that
//! readings make. `PlainBoard` keeps no tables, and replays at each answer.
//!
//! An event stands at its stamp, its CPU and its line there (`Pos`); an edit answers only CPU and
//! line (`Place`). The places of all held events, and of those that pass a filter, come in merged
//! order; the places of one CPU's lane come by line.
//!
//! ```ignore
//! let mut board = PlainBoard::new(rt.alloc());
//! board.load(events)?;
//! let id = board.attach(trigger)?.value;
//! let totals = board.totals(id)?;
//! let Place { cpu, line } = board.insert(event)?.value.place;
//! let text = board.hist(id)?;
//! board.strike(u32::from(cpu), line)?;
//! // An answer depends on what is held and attached, and on nothing else.
//! assert!(rt; board.totals(id)? == totals);
//!
//! let lanes = board.content().lanes();
//! for place in &places(rt.alloc(), lanes)? {
//!     let event = lanes.get(place.cpu, place.line);
//! }
//! // The places on CPU 0 from line 10 on.
//! let on_cpu = lane_places(rt.alloc(), lanes, 0, 10)?;
//! let filter = parse(rt.alloc(), b"pid == 42", Name::Waking)?;
//! let wakings = matching_places(rt.alloc(), lanes, &filter)?;
//! ```
//!
//! # Contracts
//!
//! These are the clauses of trait `Board`. Steps are tests of an event against a trigger (`evals`),
//! and hits and operations that are put into tables and pairs (`puts`).
//!
//! - `gives` of the edits (`EditGives`, `specs/Edited.antt`): the base is what `after_load` to
//!   `after_remove` make of the base before (`ft_base/specs/After.antt`), or the refusal is theirs
//!   and nothing has changed. A board may keep tables and put off bringing them up to its base:
//!   then it is *deferred*, and the edit says so in `Done::kept`. A refused edit changes nothing of
//!   this. Lets through: running out of memory at any time, except in `unload`, `strike` and
//!   `remove` (clause `memory`), which may give up what is kept beside the base; deferring without
//!   need, unless `now` rules it out.
//! - `gives` of `hist`, `row_texts`, `rows`, `row_text`, `totals`, `latencies`, `pairs`
//!   (`AnswersFrom`): each is a function of what replaying the base with the events that readings
//!   make gives (`specs/Answers.antt`, `ft_made/specs/ReplayMaking.antt`). The table of a trigger
//!   on `wakeup_latency` shows made events, that of any other trigger held ones
//!   (`specs/Counting.antt`). The base stays; no answer makes a board deferred, and after an
//!   accepted answer it isn't deferred. Lets through: running out of memory at any time.
//! - `content`, `list`, `name_of`, `is_deferred`: exact. `list` lets through: running out of memory
//!   at any time.
//! - `counts`: no count falls, and a refused edit takes no step.
//! - `repairs` and `costs` (`specs/Costs.antt`) bound the steps if no made event is counted
//!   (`MakesNothing`): if no reader has an onmatch part, or no trigger is on `wakeup_latency`.
//!   - `insert` and `strike`, with m attached triggers on the event's name: m tests at most and, if
//!     each saver's table has the same keys before and after, 3m puts at most. This holds on a
//!     deferred board too.
//!   - `unload` of a lane with fewer events than all other lanes together, and `load` of fewer
//!     events than are held: one test at most for each of these events and each trigger on its
//!     name.
//!   - `refilter` of a trigger that reads nothing: one test at most for each held event on its
//!     name, and likewise for each trigger that reads what it saves.
//!   - Let through: any number of steps of the other edits, of all edits if made events are
//!     counted, of another filter for a reader, and of tables built anew; the puts of `unload`,
//!     `load` and `refilter`; which trigger took which steps (`ft_kept` says it of each); steps
//!     that are not counted, or that another `Work` counts. That only the boards' constructors make
//!     that `Work`, and that in edits and in answers from tables only `hit_of` evaluates filters,
//!     is seen in the source. Keys are evaluated by it too, except those that `grouped` of
//!     `ft_groups` looks up by a number, which it doesn't count.
//! - `steps`: on a board that keeps tables and isn't deferred, `hist`, `row_texts`, `rows`,
//!   `row_text`, `totals`, `latencies` and `pairs` take no step. Lets through: any number of steps
//!   of these answers on other boards.
//! - `now` (`specs/Deferral.antt`): on a board that isn't deferred, these accepted edits put
//!   nothing off, whether made events are counted or not: `insert` of an event that is a hit of no
//!   trigger; `strike` of one that is a hit of no trigger with a variable; `unload` of a lane that
//!   has only such events, and fewer than all other lanes together; `remove` of a trigger that
//!   reads nothing. Lets through: running out of memory for tables at any other edit.
//! - `memory` of `totals`: on a board that keeps tables, `totals` runs out of memory only if the
//!   board is deferred, and then the board stays deferred. The other answers make a text or a list,
//!   and may run out at any time. That `row_text` makes no other row's text is seen in the source.
//! - `reports` of `insert` and `strike` (`specs/Reporting.antt`): if an accepted edit has a report,
//!   no row is in it twice, and each is of an attached trigger that counts held events. A row of
//!   such a trigger that isn't in it is the one that replaying gave before, or there is none before
//!   and after. At most two rows are of one trigger that reads nothing; at most four are of one
//!   reader, and two more for each attached trigger that reads the same variable, itself among
//!   them. Apart from the report, an accepted edit may name rows of triggers that count made events
//!   (`IsMadeReport`): none twice, each of such an attached trigger, and a row that isn't named
//!   stays as it was. A board that is deferred after the edit gives neither, nor does one that
//!   keeps no tables, such as `PlainBoard`. Lets through: no report at all, and no rows of made
//!   events; rows that are named and have not changed; any number of rows of made events. Nothing
//!   is said of totals and latencies.
//!
//! And the rest:
//!
//! - `PlainBoard`, law `plain_board_keeps_none`: it meets `Board`, keeps no tables, and so is never
//!   deferred.
//! - Law `rows_make_the_text`: the text of a trigger's table is the lines above its rows, the texts
//!   that `row_texts` gives, each with a line break, and the totals. The text that `row_text` gives
//!   is the one that the key has among those of `row_texts`, or none if the key has none there
//!   (`specs/Rows.antt`).
//! - `latency_of`, `latencies_of`, `table_text`, `table_row_texts`, `table_rows`, `table_row_text`:
//!   exact. Those that make a text or a list let through: running out of memory at any time.
//! - `places`, `lane_places`, `matching_places`: the places of all held events, in merged order; of
//!   a lane's events from a line on, by line; and of the events that have a filter's name and pass
//!   it, in merged order (`specs/Places.antt`). Exact. Let through: running out of memory at any
//!   time; any number of passes over what is held.
#![tactic(auto)]

mod answers;
mod board;
mod counted;
mod done;
mod edited;
mod in_lane;
mod in_order;
mod latency;
mod plain;
mod readings;
mod tables;

pub use board::Board;
pub use done::{Done, Kept};
pub use edited::Edited;
pub use ft_base::{
    AttachedTrigger, Content, Latency, Place, Refused, is_reader, one_saver, reachable_bases,
    role_of,
};
pub use ft_changes::Changed;
pub use ft_replay::Pair;
pub use ft_table::{Row, TableRow};
pub use in_lane::lane_places;
pub use in_order::{matching_places, places};
pub use latency::{latencies_of, latency_of};
pub use plain::{PlainBoard, plain_board_keeps_none};
pub use tables::{rows_make_the_text, table_row_text, table_row_texts, table_rows, table_text};
