//! Scripts: what a run is given, and what each command prints.
//!
//! A run is given the command line, `histdesk [SCRIPT [TRACE]...]`, files that are read whole, and
//! the lines of a script, with the command that each asks for.
//!
//! An argument that looks like an option is refused: there are no options. A file cannot be read if
//! it isn't there, is no file or is past a limit, or if reading it fails. The only other fault is
//! that memory runs out. A line of a script that is empty, has only spaces or is a comment asks for
//! nothing; a line that has the form of no command, or is over `LINE_LIMIT`, is a command too,
//! `Command::NoForm`, which is refused.
//!
//! A command prints the line of an accepted edit, the lines of an answer, or the line of its
//! refusal. Each is a function of what the edit, the answer or the refusal gives, and needs no
//! board.
//!
//! ```ignore
//! let words = read_words(alloc, &["histdesk", "my.script", "a.trace", "b.trace"])?;
//! assert_eq!(rt; words.script, Some("my.script"));
//! let mut traces = Vec::new(alloc);
//! for path in words.traces {
//!     traces.push(read_file(alloc, rt, path)?)?;
//! }
//! assert_eq!(rt; read_words(alloc, &["histdesk", "-1"]).err(), Some(WordsFault::Refused));
//!
//! let script = b"attach sched_waking hist:keys=pid\nstrike 0:7";
//! let Some((line, rest)) = next_line(script) else { return };
//! assert_eq!(rt; read_command(line), Command::Attach(Name::Waking, b"hist:keys=pid"));
//! assert_eq!(rt; read_command(rest), Command::Strike(0, 7));
//! assert_eq!(rt; read_command(b"# strike 0:7"), Command::Nothing);
//! assert_eq!(rt; read_command(b"strike 0"), Command::NoForm);
//! ```
//!
//! ```ignore
//! let line = done_line(alloc, b"inserted ", Place { cpu: 3, line: 1 })?;
//! assert!(rt; line.as_slice() == b"inserted 3:1\n");
//! let lines = Totals { hits: 7, entries: 2, dropped: 1 }.into_lines(alloc)?;
//! assert!(rt; lines.as_slice() == b"hits 7 entries 2 dropped 1\n");
//! let line = refused_line(alloc, Refused::LaneHeld(3))?;
//! assert!(rt; line.as_slice() == b"refused 4: cpu 3\n");
//! ```
//!
//! # Contracts
//!
//! - `read_words`: which script and traces the program's arguments name, and which arguments are
//!   refused (`specs/Words.antt`); exact. Lets through: running out of memory at any time.
//! - `read_whole`, `read_file`: all that a reader had, to its end and within the limit, if the
//!   reader tells its bytes; for all that opens paths (trait `Paths`), the bytes that are told of
//!   the path (`specs/Files.antt`). Lets through: running out of memory and failing to read at any
//!   time; any bytes of the system's files, about which the kit's contracts say nothing.
//! - `read_command`: what a script line asks for, `asked_by` of the line (`specs/Script.antt`,
//!   `specs/Command.antt`); exact.
//! - Law `written_commands`: a command that is written out, within the limit of lines, asks for
//!   exactly what it names (`specs/Written.antt`): each form with every number of 32 bits, every
//!   event that has a name, and the text of every trigger and filter without spaces at its ends.
//! - Law `writable_commands`: what any line asks for may be written out so. Lets through: which
//!   other lines ask for it, such as those with more spaces or with zeros before numbers. Only
//!   `asked_by` says that.
//! - `EditValue::add_to`, `done_line`: the text of a number or a place is added after the old
//!   bytes; the line of an accepted edit is its word, its value and byte 10; exact. Lets through:
//!   running out of memory at any time.
//! - `Answer::into_lines`, `refused_line`: the lines of totals and latencies
//!   (`specs/Answered.antt`), a text as it is; the line of a refusal, with what it says beside its
//!   number (`specs/Refusals.antt`); exact. Lets through: running out of memory at any time.
#![tactic(auto)]

mod accepted;
mod answered;
mod files;
pub mod laws;
mod numbers;
mod refusals;
mod script;
mod words;

pub use accepted::{EditValue, done_line};
pub use answered::Answer;
pub use files::{FILE_LIMIT, FileFault, Paths, READ_LIMIT, read_file, read_whole};
pub use ft_text::next_line;
pub use laws::{writable_commands, written_commands};
pub use refusals::refused_line;
pub use script::{Command, LINE_LIMIT, Numbered, read_command};
pub use words::{Words, WordsFault, read_words};
