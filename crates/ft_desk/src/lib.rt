//! Scripts over a desk, one command on each line, with what each command prints; and the program,
//! except its `main`. What a script prints is a function of the script and its trace files:
//! `run_text` answers it, and `run` writes it, if the reader and the writer tell their bytes. All
//! of this is over any board. The desk itself stands below, in `ft_desk_core`; this crate passes it
//! on, and also what else a caller names of the crates below.
//!
//! ```ignore
//! let script = b"attach sched_waking hist:keys=pid\ntotals 1\nhist 2\n";
//! let ran = run_text(alloc, PlainBoard::new(alloc), &[], script)?;
//! let printed = b"attached 1\nhits 0 entries 0 dropped 0\nrefused 10\n";
//! assert!(rt; ran.output.as_slice() == printed && ran.status == Status::SomeRefused);
//!
//! let mut desk = Desk::new(alloc, PlainBoard::new(alloc));
//! let done = desk.insert(b"a-1 [003] 1.000001: sched_waking: comm=b pid=8 prio=19 target_cpu=000")?;
//! assert_eq!(rt; done.value.place, Place { cpu: 3, line: 1 });
//! ```
//!
//! # Contracts
//!
//! - `perform`: what one script line prints, whether it is refused, and the base after it:
//!   `outcome` (`specs/Output.antt`). Lets through: running out of memory at any time, and then
//!   holding anything; any number of steps; putting the tables off.
//! - `print_refusal`: the line of a refusal, exact; it fails if the refusal is that memory ran out.
//!   Lets through: running out of memory at any time.
//! - `run_text`, over every board: what a script in memory prints is the text of `output` of files
//!   and script, and its status is that of `output`. Lets through: running out of memory at any
//!   time, which is its one failure.
//! - `run`, over every reader and writer: `RunEnds` (`specs/Run.antt`) of what commands mean to a
//!   desk (`outcome`). It says what was read and what was written by how the run ends:
//!   - Well: the script was read to its end, and what was written is its whole output; the status
//!     is that of the output.
//!   - For memory: the whole output of the lines before the last one that was read was written, or
//!     of all that had ended, if a part of the next found no memory.
//!   - For reading: the whole output of the lines which byte 10 had ended was written.
//!   - For writing: the whole output of the lines before the last one that was read was written
//!     and, of that one's, a beginning with something left; or the script was read to its end and
//!     its whole output written, and the flush failed.
//!   - So a body that holds output back or reads ahead is refused. However it ends, at most
//!     1,073,741,824 lines that byte 10 ended were read.
//!   - Lets through: if the reader tells nothing, each case speaks of some script, and if the
//!     writer tells nothing, it speaks of no bytes; this is so with the system's streams.
//! - `run_counted`, over every `Interpreter`, reader and writer, which `run` and both programs
//!   call: it takes the two as a `CountedReader` and a `CountedWriter`, whose private fields leave
//!   no way to them except calls that count. `RunEnds` of what commands mean to the interpreter.
//!   The reader is asked 1,073,741,824 times at most. It fails at most once, and then the answer is
//!   `Read`; otherwise the answer is `Read` only if the reader was asked that often (`AsksReader`,
//!   `specs/Steps.antt`). An answer `Write` comes with the one failed write and no flush, in the
//!   text of the last line that was read, or with the one flush, which failed after the whole
//!   output; every other answer comes with one flush and no failed write, and with `Ok` the flush
//!   didn't fail (`CallsWriter`). A failing flush makes `Write` of `Ok`, and changes no other
//!   answer. Lets through: what the methods `ask`, `consume`, `write` and `flush` of the two types
//!   do beside their count, which their few lines show: no contract of a stream says that it was
//!   called, so `flush` need not flush, and `ask`, `write` and `flush` may make up a failure. The
//!   private `ask` requires that the reader has not failed, `write` that no write has, so that
//!   neither is called again after that.
//! - Trait `Interpreter`, met by `Desk`: what a line prints, whether it is refused and what is held
//!   then is what commands mean to the interpreter (`means`, a `Meaning` of `specs/Output.antt`); to a
//!   desk that is `outcome`. Lets through: what `perform` does.
//! - Laws `first_lines`, `what_runs_write`: whatever commands mean, the output of the first lines
//!   of a script is a beginning of the whole script's; however a run ends, what it wrote is a
//!   beginning of the output of the lines that it read, and of the whole script's.
//! - `histdesk`, `run_program`: the exit status is at most 2; which one, by how the run ended, is a
//!   clause of the private `exit_status`. Lets through: arguments that are no text; what goes to
//!   standard error; and, since nothing is told of the system's files and standard input, all that
//!   `run_words` says of those of which something is told. The tests of the built program show
//!   these.
//! - `read_traces`, `run_words` and `run_script`, which are private, over all that opens paths and
//!   every interpreter: `ProgramEnds` (`specs/inner/Ends.antt`). Arguments that name nothing are
//!   refused as such, and only they are. Else a path is reported that cannot be read while all
//!   paths before it can; the script's path is the last. Else the script that the arguments name is
//!   run with the files at the paths that they name, in order, and the status is that of `output`.
//!   Lets through: running out of memory at any time; a path that is there and yet cannot be read.
#![tactic(auto)]

mod counted;
mod in_memory;
mod interpreter;
pub mod laws;
mod performing;
mod pieces;
mod program;
mod running;
mod sending;

pub use counted::{Calls, CountedReader, CountedWriter};
pub use ft_answers::{
    AttachedTrigger, Board, Changed, Done, Edited, Kept, Latency, Pair, Place, PlainBoard, Refused,
    Row, TableRow,
};
pub use ft_desk_core::Desk;
pub use ft_dispatch::{Began, Cause, Dispatch, Left, Since};
pub use ft_event::{Event, LineFault, Name};
pub use ft_fields::Pos;
pub use ft_filter::FilterFault;
pub use ft_script::{FileFault, Words, WordsFault, read_file, read_whole, read_words};
pub use ft_table::Totals;
pub use ft_trigger::{Key, Part, TriggerFault};
pub use in_memory::{Ran, run_text};
pub use interpreter::Interpreter;
pub use laws::{first_lines, what_runs_write};
pub use performing::{Performed, perform, print_refusal};
pub use program::{Fault, histdesk, run_program};
pub use running::{ASKING_LIMIT, RunFault, Status, run, run_counted};
