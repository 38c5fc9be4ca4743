//! The base: what is held and attached, and what an edit makes of it.
//!
//! A base has three parts: lanes of events, attached triggers by id, and the next id. An edit loads
//! a lane or takes it away, puts in one event or takes it out, attaches a trigger, gives it another
//! filter, or removes it. A refused edit says why, and changes nothing. `Content` is the base that
//! boards hold.
//!
//! ```ignore
//! let mut content = Content::new(rt.alloc());
//! let id = content.attach(trigger)?;
//! let Place { cpu, line } = content.insert(event)?;
//! assert!(rt; content.lanes().get(cpu, line) == Some(event));
//! let place = content.place_of(u32::from(cpu), line)?;
//! content.strike(place);
//! // The lane is still held, and has no such line any more.
//! assert!(rt; content.place_of(u32::from(cpu), line) == Err(Refused::NoEvent));
//! content.removable(id)?;
//! content.remove(id);
//! ```
//!
//! # Contracts
//!
//! - `Content::load`, `unload`, `insert`, `attach`, `refilter`, and `strike` and `remove` once
//!   `place_of` and `removable` have found what goes: contracts see the base, which is lanes,
//!   attached triggers and the next id (`specs/Base.antt`). The base is what `after_load` to
//!   `after_remove` make of the one before (`specs/After.antt`), or the refusal is theirs and
//!   nothing has changed (`BaseGives`). `load`, `insert` and `attach` let through: running out of
//!   memory at any time.
//! - `Content::list`, `name_of`, `attached_triggers`, `trigger_text`, and `find_trigger`,
//!   `role_of`, `is_reader`, `Refused::number`: exact. `list`, `attached_triggers` and
//!   `trigger_text` let through: running out of memory at any time.
//! - `Place`, `Latency`: plain fields, for answers that name lines and measure the time between them.
//! - Law `reachable_bases`: `IsReachable` (`specs/Reachable.antt`: limits, line numbers below the
//!   lane's next one, one saver of a name, a saver with matching keys for each reader) holds of the
//!   empty base, and each edit keeps it. Both boards have it as their invariant.
//! - Law `one_saver`: who a reader's saver is.
//! - Law `last_numbers`: the line number and the id 4,294,967,295 are still given; after each, the
//!   lane's next event is refused with 7 and the next trigger with 15.
#![tactic(auto)]

mod attach;
mod content;
mod latency;
pub mod laws;
mod listed;
mod refused;
mod roles;

pub use content::Content;
pub use latency::Latency;
pub use laws::{last_numbers, one_saver, reachable_bases};
pub use listed::AttachedTrigger;
pub use refused::{Place, Refused};
pub use roles::{find_trigger, is_reader, role_of};
