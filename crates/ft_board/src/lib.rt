//! A board that keeps tables beside what it holds, and repairs them as it is edited, so that no
//! answer replays the events.
//!
//! ```ignore
//! let mut board = KeptBoard::new(rt.alloc());
//! board.load(events)?;
//! let id = board.attach(trigger)?.value;
//! let Done { value: edited, kept } = board.insert(event)?;
//! assert!(rt; board.is_deferred() == (kept == Kept::Later));
//! // Which rows may have changed, as far as memory was found: all others are as they were, except
//! // those of triggers that count made events, which `edited.made` names.
//! let rows = edited.report;
//! // Read off the tables: no event is tested, if they have the edit.
//! let totals = board.totals(id)?;
//! assert!(rt; !board.is_deferred());
//! ```
//!
//! # Contracts
//!
//! - `KeptBoard`, law `kept_board_keeps`: it meets `Board`, and keeps tables. Its invariant: if it
//!   is not deferred, the shelves are those of the base's triggers and hold what their acts at all
//!   held events say (`AreKeptOf`, of `ft_repair`), and beside them each trigger on
//!   `wakeup_latency` has the table of the events that all readings make (`AreMade`,
//!   `specs/MadeShelves.antt`). Lets through: deferring without need at an edit for which no clause
//!   `now` rules it out; leaving a report out. No clause says that this happens only if memory runs
//!   out. The source shows it, and so does a test that refuses each growth of memory in turn.
//! - Law `made_events_stay` (`specs/Makers.antt`): which triggers may come, go or get another filter
//!   while the same events are made. Tables of made events take no step then, by clauses of the
//!   private `join`, `leave` and `refit`.
//! - The laws `kept_shelves`, `others_stay` and `readers_stay` of `ft_repair` are reached here too.
//!
//! Which tables an edit touches is up to the source. If no made event is counted, the clause
//! `costs` of `Board` rules out that `refilter` of a trigger that reads nothing builds all anew,
//! and the clause `repairs` rules it out for `unload` of a smaller lane and for `load` of fewer
//! events than are held. No clause bounds the steps of tables of made events that are mended or
//! made anew.
#![tactic(auto)]

mod edits;
mod kept;
pub mod laws;
mod made_rows;
mod making;
mod mend;
mod views;

pub use ft_answers::{Board, PlainBoard};
pub use kept::KeptBoard;
pub use laws::{kept_board_keeps, kept_shelves, made_events_stay, others_stay, readers_stay};
