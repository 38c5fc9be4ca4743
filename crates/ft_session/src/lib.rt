//! A session: a desk over the board that keeps tables, and what was last asked of it, for callers
//! that take an answer in parts.
//!
//! Each call that the desk may refuse answers a code: 0 if it is accepted, else the refusal's
//! number, of which 1 is that memory ran out. The refusal itself is held until the next such call.
//! An answer whose size isn't known before is held until another of its kind is asked for, or until
//! it is forgotten, also over edits; so is what the last accepted insert or strike told.
//!
//! ```ignore
//! let mut session = Session::new(rt.alloc());
//! let mut events = 0;
//! assert_eq!(rt; session.load(trace, &mut events), 0);
//! let mut id = 0;
//! assert_eq!(rt; session.attach(Name::Waking, b"hist:keys=pid", &mut id), 0);
//! let mut length = 0;
//! assert_eq!(rt; session.hist(id, &mut length), 0);
//! assert!(rt; session.text.len() as u64 == length);
//! // No trigger has the id 7: the text stays.
//! assert_eq!(rt; session.hist(7, &mut length), 10);
//! assert!(rt; session.refused == Some(Refused::NoTrigger));
//! ```
//!
//! # Contracts
//!
//! - The calls of `Session`: each does what the desk's call does, by the clauses `gives` and
//!   `reports` that `Desk` has, with the answer put together of what the session shows: the refusal
//!   that it holds, the value that was written, the list that was asked for (`specs/Calls.antt`,
//!   `specs/Told.antt`). The code is 0 or the refusal's number, and a value is written only if the
//!   call is accepted. What was asked for before stays, except what is of the kind that an accepted
//!   call asks for. `unload`, `strike` and `remove` never run out of memory. Lets through: running
//!   out of memory at any time in the other calls; any number of steps; putting the tables off at
//!   any edit (the desk's own clauses `repairs` and `now` are not told again here); a new session
//!   whose tables are deferred; memory that is kept of what `forget` and later answers let go.
//! - `Session::strike_events`: what the strikes of the events at places make of the base, one after the
//!   other up to the first one that is refused, how many events they take, and why that one is refused;
//!   exact (`after_strikes` in `specs/Strikes.antt`), although the events go in another order. If it is
//!   asked for, one report has each row that they together may have changed, none twice
//!   (`ReportsStrikes`). Lets through: no report at any time; naming rows that didn't change, any number
//!   of them; which of the struck events has the report's place; the order in which they go.
//! - `Session::lines`, `losses`: what `ft_lines` says of a text, of which the desk holds nothing
//!   (`ReadsLines`, `ReadsLosses` in `specs/Calls.antt`); all else stays. Let through: running out of memory
//!   at any time.
//! - The places that a session holds are those of the moment when they were asked for. The desk's
//!   lanes tell which events are there now (`event_in` of `ft_layout`).
#![tactic(auto)]

mod front;
mod joint_report;
mod lines;
mod outcome;
mod session;
mod strikes;

pub use session::Session;
