//! The desk: texts in, edits and answers of a board out, over any board.
//!
//! A trace text or a line becomes events, the text of a trigger or filter becomes that trigger or
//! filter, and the board does the rest. Scripts and the program stand above, in `ft_desk`, which
//! passes `Desk` on.
//!
//! ```ignore
//! let mut desk = Desk::new(alloc, PlainBoard::new(alloc));
//! let done = desk.insert(b"a-1 [003] 1.000001: sched_waking: comm=b pid=8 prio=19 target_cpu=000")?;
//! assert_eq!(rt; done.value.place, Place { cpu: 3, line: 1 });
//! let done = desk.attach(Name::Waking, b"hist:keys=pid")?;
//! assert_eq!(rt; desk.totals(done.value)?.hits, 1);
//! ```
//!
//! # Contracts
//!
//! - `Desk`, over every board: says of texts what the clauses of `Board` say of events, triggers and
//!   filters: `after_load_text`, `after_insert_text`, `after_attach_text`, `after_refilter_text`
//!   (`specs/Edits.antt`). The first line that can't be read is named; `refilter` looks the id up
//!   before it reads the filter. The board's counts and reports are the desk's. Lets through: what
//!   the board does.
//! - `Desk::event`, `events`, `lane`, `matching`, `attached_triggers`, `trigger_text`: functions of the base
//!   (`specs/Found.antt`, `ft_answers/specs/Places.antt`), which they leave as it is. All except
//!   `event` let through: running out of memory at any time.
//! - `Desk::waits`: the switches to tasks among the held events, each with where its task became
//!   runnable; exact, `dispatches_held` of `ft_held_waits`. Lets through: running out of memory at
//!   any time.
#![tactic(auto)]

mod desk;
mod events;

pub use desk::Desk;
