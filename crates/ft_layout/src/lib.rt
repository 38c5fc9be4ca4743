//! Answers of the desk as C lays them out: structs of numbers and arrays that a caller in C gives room
//! for, and calls that copy a part of an answer into such room.
//!
//! ```ignore
//! let layout = PlaceLayout::of(&Pos { stamp: 6_000_100, cpu: 3, line: 1 });
//! assert!(layout.stamp == 6_000_100 && layout.cpu == 3 && layout.line == 1);
//! let mut room = [layout; 2];
//! // Of five places, those from the fourth on.
//! assert_eq!(copy_places(&places, 3, &mut room), 2);
//! ```
//!
//! # Contracts
//!
//! - `RowLayout::of` and the other layouts: each struct is a function of the value that it shows
//!   (`specs/Rows.antt`, `specs/Events.antt`, `specs/Places.antt`, `specs/Refusals.antt`).
//!   `name_number`, `name_numbered`: a name's number and back.
//! - `copy_part`, `copy_rows` and the other copies: as many items as there are from a number on and
//!   as have room are shown at the front of the caller's array, the rest of which stays, and the
//!   answer is how many (`specs/Copied.antt`); exact. `copy_events` shows at each place the event
//!   that the lanes hold there, on the CPU's line and with the stamp, or that there is none
//!   (`event_in`).
//! - `refusal_in`, law `numbers_of_refusals`: the refusal that numbers are of, if they are of one;
//!   that of a refusal's layout is the refusal. Law `numbers_of_names`: the same of names.
//! - `refusal_text`, `refusal_words`: the line that a script prints of it, without its line break,
//!   exact; its words, which have no clause, and none if the numbers are of no refusal. Lets
//!   through: running out of memory at any time.
#![tactic(auto)]

mod copying;
mod events;
pub mod laws;
mod names;
mod places;
mod refusals;
mod rows;
mod words;

pub use copying::{
    ByItself, Shows, copy_bytes, copy_changed, copy_events, copy_latencies, copy_part, copy_places,
    copy_rows, copy_triggers,
};
pub use events::{EventLayout, TriggerLayout};
pub use laws::{numbers_of_names, numbers_of_refusals};
pub use names::{NameLayout, name_number, name_numbered};
pub use places::{LatencyLayout, LineLayout, PlaceLayout};
pub use refusals::{RefusalLayout, refusal_in};
pub use rows::{ChangedLayout, KeyLayout, PartLayout, ReportLayout, RowLayout, TotalsLayout};
pub use words::{refusal_text, refusal_words};
