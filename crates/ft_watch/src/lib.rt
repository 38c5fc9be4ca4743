//! A desk whose tables are watched: after each accepted insert or strike of a script, the rows that
//! it changed are printed as `hist` prints them, and how many they are. What changed is looked for
//! among the rows that the board names, if it gives both `report` and `made`, and else among all
//! rows; what is printed is the same. And the program `histwatch`, except its `main`.
//!
//! ```ignore
//! let mut watch = Watch::new(alloc, KeptBoard::new(alloc));
//! watch.perform(&[], b"attach sched_waking hist:keys=pid")?;
//! let line = b"insert a-1 [000] 1.000000: sched_waking: comm=b pid=8 prio=19 target_cpu=000";
//! let done = watch.perform(&[], line)?;
//! let printed = b"inserted 0:1\n+ 1 { pid:          8 } hitcount:          1\nchanged 1\n";
//! assert!(rt; done.text.as_slice() == printed);
//! ```
//!
//! # Contracts
//!
//! - `Watch`, an `Interpreter`, over every board: `watched` (`specs/Watched.antt`). A command means
//!   what it means to a desk. An accepted insert or strike prints also `changes_text` of the bases
//!   before and after it (`specs/ChangedRows.antt`): of each attached trigger in order of id, and
//!   of each key of its rows before or after in order, a `-` line of the row that was and a `+`
//!   line of the row that is, if they differ; and then `changed N`, where N is the number of these
//!   rows. Exact, whatever rows the board names. Lets through: running out of memory at any time,
//!   after which the watch answers nothing else to an insert or a strike.
//! - `run_watch`, over every reader and writer: `RunEnds` of `watched`. `run_counted` over a
//!   `Watch` says how often its reader is asked and its writer flushed. Lets through: what `run`
//!   does.
//! - `histwatch`: the exit status is at most 2, as that of `histdesk`. Lets through: what goes to
//!   standard error.
#![tactic(auto)]

mod keys;
mod known_rows;
mod known_tables;
mod program;
mod signed_lines;
mod watch;

pub use program::{histwatch, run_watch};
pub use watch::Watch;
