//! Lines of a trace text: what each line is and where it ends, and what the lines report lost, in whatever order of
//! time they stand.
//!
//! ```ignore
//! let text = b"# a comment\nsim-1 [001] 6.000100: x: y\nno line";
//! let lines = lines_in(alloc, text)?;
//! assert!(rt; lines[0] == TextLine { end: 12, kind: LineKind::Skipped });
//! let event = LineEvent { stamp: 6_000_100, cpu: 1, name: Name::Other };
//! assert!(rt; lines[1] == TextLine { end: 39, kind: LineKind::Event(event) });
//! assert!(rt; lines[2] == TextLine { end: 46, kind: LineKind::Bad(LineFault::NoTask) });
//! let read = losses_in(alloc, text)?;
//! assert!(rt; read.holes.is_empty());
//! ```
//!
//! # Contracts
//!
//! - `lines_in`: the lines of a text, one for each line that `ft_text` cuts off (`lines_of`), each by what
//!   `ft_event` reads of it (`line_of`); exact, `text_lines` (`specs/Lines.antt`). No order of stamps is asked for,
//!   a line that can't be read ends nothing, and there may be any number of lines. Fails only for memory. Lets
//!   through: running out of memory at any time; how much is kept for more lines.
//! - Law `ends_cut_lines`: a text that is cut where one of its lines ends has the lines up to this one in front,
//!   and the others behind.
//! - `losses_in`: where events were lost, by what each line reports (`AreNotes` and `AreLosses` of `ft_losses`);
//!   exact, `AreLossesOf` (`specs/Losses.antt`). A line that can't be read reports nothing. Fails only for memory.
//!   Lets through: running out of memory at any time.
//! - `TextLineLayout::of`, `LossesLayout::of`: each struct is a function of what it shows (`specs/Layouts.antt`).
//!   `copy_lines`: a part of a list, as the copies of `ft_layout` are.
#![tactic(auto)]

pub mod laws;
mod layouts;
mod line;
mod lines;
mod losses;

pub use laws::ends_cut_lines;
pub use layouts::{LossesLayout, TextLineLayout, copy_lines};
pub use line::{LineEvent, LineKind, TextLine};
pub use lines::lines_in;
pub use losses::losses_in;
