//! A stream of waits, for callers that take answers in parts: who waited for a processor in a text that
//! comes in pieces, and since when.
//!
//! Each call that may be refused answers a code: 0 if it is accepted, else the refusal's number, of which
//! 1 is that memory ran out. The refusal itself is held until the next such call.
//!
//! ```ignore
//! let mut stream = Stream::new(rt.alloc());
//! assert_eq!(rt; stream.begin(BadLines::Refuse), 0);
//! let mut count = 0;
//! while let Some(piece) = next_piece() {
//!     assert_eq!(rt; stream.feed(piece, &mut count), 0);
//!     for wait in stream.waits.as_slice() {
//!         // A dispatch that ends a wait.
//!     }
//! }
//! let mut read = ReadLayout::empty();
//! assert_eq!(rt; stream.finish(&mut read, &mut count), 0);
//! // The stream has ended.
//! assert_eq!(rt; stream.feed(piece, &mut count), 19);
//! ```
//!
//! A text may be read in parts, each by a stream of its own, also in other threads:
//!
//! ```ignore
//! assert_eq!(rt; part.begin_part(BadLines::Refuse), 0);
//! // Both take pieces; what the part tells has places from its own start. Then, in order:
//! let before = stream.phase.events();
//! // The lines of what the part told move by what its CPU had `before`.
//! assert_eq!(rt; stream.join(&mut part, &mut count), 0);
//! for wait in stream.waits.as_slice() {
//!     // A dispatch that ends a wait, and that the part held back, or of the microsecond before the part.
//! }
//! ```
//!
//! # Contracts
//!
//! - `Stream::new`, `begin`, `feed`, `finish`, `end`: the waits that the calls leave, one after the
//!   other, are those of the whole text, however it is cut: `waits_in` (`specs/Telling.antt`), over
//!   what `ft_waits` says of a text. A relation describes each call completely
//!   (`specs/Calls.antt`): the code, what is written, and what the stream is afterwards. A text is
//!   refused as `ft_waits` refuses it; from then on each call answers the same, until a stream
//!   begins or ends. Lets through: running out of memory at any time; how early a wait is told;
//!   memory that is kept of waits that were told.
//! - `Stream::begin_part`, `join`: a text may be read in parts, each by a stream of its own, and joined in
//!   order. What is told of the parts and by the joins is together what one stream tells of the whole text:
//!   `IsJoined` (`specs/Joining.antt`), over `JoinsTexts` of `ft_waits`. A part that doesn't fit is refused,
//!   with both streams as before. Lets through: running out of memory at any time, after which the text has
//!   failed and the part is gone.
//! - `Stream::leave_out`: events of a name are left out, by the text of a filter
//!   (`specs/Leaving.antt`). If it is refused for memory, what was read is as before; if for another
//!   reason, the whole stream. Lets through: in which order its refusals are tested.
//! - `Stream::last`, `Phase::events`: the last stamp and the counts so far, of lines that have
//!   ended.
//! - `Stream::sum_up`: the text is summed up by task and by CPU as well (`specs/Summing.antt`), as
//!   `ft_summary` sums up; if it is refused, the stream is as before. `Phase::tasks`, `cpus`: these sums,
//!   once the text has ended.
//! - `Stream::doubt`: how sure waits of a text that has ended are, by its holes, and by whether their tasks were
//!   left asleep after they began; exact, `with_doubt` (`specs/Doubting.antt`), over `wait_from` of `ft_losses`.
//! - `Stream::hold`: the waits of held events, by `ft_held_waits`.
//! - `WaitLayout::of` and the other layouts: each struct is a function of what it shows
//!   (`specs/Layouts.antt`). `copy_waits`, `copy_holes`, `copy_left_out`, `copy_tasks`, `copy_cpus`, `copy_numbers`: a
//!   part of a list, as the copies of `ft_layout` are.
#![tactic(auto)]

mod apart;
mod copying;
mod doubting;
mod fault;
mod held;
mod joining;
mod layouts;
mod leaving;
mod phase;
mod stream;
mod summing;

pub use apart::Part;
pub use copying::{copy_holes, copy_left_out, copy_numbers, copy_waits};
pub use fault::{StreamFault, refusal_of};
pub use ft_waits::BadLines;
pub use layouts::{HoleLayout, LeftOutLayout, ReadLayout, WaitLayout};
pub use phase::{Finished, Phase};
pub use stream::Stream;
pub use summing::{CpuSumLayout, TaskSumLayout, copy_cpus, copy_tasks};
