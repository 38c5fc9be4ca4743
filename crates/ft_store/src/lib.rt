//! Stores of events: one after the other, each at its place from 0 on.
//!
//! A store gives its events by value, and packs them: their names stand one after the other in one
//! text, as long as they are, and the rest takes 56 bytes. A reference to an event (`Stored`) tells
//! its name, its stamp and the number of a field without unpacking it, and gives the event without
//! its names (`bare`) to those who ask it for more numbers. An event whose names are borrowed from a
//! line (`EventRef`) is packed from there (`push_ref`).
//!
//! ```ignore
//! let mut store = Store::new(rt.alloc());
//! store.push(&event)?;
//! assert!(rt; store.len() == 1 && store.get(0) == event);
//! let stored = Stored::new(&store, 0);
//! assert!(rt; stored.name() == event.name() && stored.event() == event);
//! store.truncate(0);
//! ```
//!
//! # Contracts
//!
//! - `Store::new`, `with_room`, `of`, `push`, `push_ref`, `push_from`, `append`, `truncate`, `clear`:
//!   contracts see the list of the events. What is added stands after the others, and what is taken
//!   off is the end. A refusal changes nothing. Lets through: running out of
//!   memory at any time; how events are packed; whether the bytes of names that were taken off are
//!   ever used again, which a test shows.
//! - `Store::get`, `bare`, `len`, `cpu`, and `Stored::event`, `bare`, `name`, `stamp`, `number`,
//!   `place`: exact (`specs/Stored.antt`). A place past the last event gives the blank event. A bare
//!   event is the event without its names.
//! - `Stored::stamp_fits`: a law, which does nothing: a stamp is at most an event's.
//! - `Store::room`: no clause. It only tells lanes when to copy what is held.
#![tactic(auto)]

mod packed;
mod store;
mod stored;

pub use store::Store;
pub use stored::Stored;
