//! Lines of the kernel's `trace` file as events, fast if a line is of the usual form.
//!
//! That is the form that the kernel gives the lines of events, with columns of any width within the first
//! 64 bytes and no thread groups: TASK, PID and CPU, perhaps LETTERS, STAMP, one space, and a named event
//! whose names hold no `=` or an event without a name. Nothing in it is out of range. The bytes that tell
//! such a line's columns apart are found all at once, and what follows is cut from the left. The names
//! of its event stay where they lie in the line. Any other line, and so each that has a fault, is left to
//! the reader of `ft_event`.
//!
//! ```ignore
//! let line = b"sim-1 [001] 6.000100: sched_waking: comm=w pid=42 prio=120 target_cpu=000";
//! let Some(event) = cut_line(line) else {
//!     panic!(rt; "a line of the usual form");
//! };
//! assert_eq!(rt; event.task.bytes(), b"sim");
//! assert_eq!(rt; event.stamp, 6_000_100);
//! assert!(rt; cut_line(b"# a comment").is_none());
//! ```
//!
//! # Contracts
//!
//! - `cut_line`, and `put_line` in place: if it gives an event, that is the line's event, by both
//!   clauses of `ft_event::read_cut_line`. Lets through: for which lines it gives none; a body that
//!   gave none for any would meet it. A test has lines of the usual form.
//!
//! A line of the usual form is cut from the left, and each cut is an equation of texts. Together
//! they are a cut as the line relation asks for; by `ft_event`'s law `one_answer` its answer is
//! that of the general reader.
#![tactic(auto)]

mod columns;
mod cuts;
mod front;
mod line;
mod marks;
mod numbers;
mod payload;
mod same;

pub use line::{cut_line, put_line};
