//! Dispatches of held events: who waited, by the events that a desk holds now.
//!
//! ```ignore
//! let mut lanes = Lanes::new(rt.alloc());
//! lanes.load(store)?;
//! for dispatch in &held_dispatches(rt.alloc(), &lanes)? {
//!     if let Some(began) = dispatch.since.waiting() {
//!         let micros = dispatch.place.stamp - began.place.stamp;
//!     }
//! }
//! ```
//!
//! # Contracts
//!
//! - `held_dispatches`: the dispatches of all held events in merged order; exact, `dispatches_held`
//!   (`specs/Held.antt`). Lets through: running out of memory at any time.
//! - Law `woken_dispatches_are_latencies`: the dispatches that have a waking are the latencies of
//!   `hist:keys=pid:ts0=common_timestamp.usecs` on `sched_waking` and
//!   `hist:keys=next_pid:lat=common_timestamp.usecs-$ts0` on `sched_switch`, as long as the first one
//!   drops no hit, whatever other triggers are attached that don't read `ts0`
//!   (`specs/Latencies.antt`).
#![tactic(auto)]

mod held;
pub mod laws;

pub use held::held_dispatches;
pub use laws::woken_dispatches_are_latencies;
