//! Dispatches of held events and of a trace text are the same.
//!
//! # Contracts
//!
//! - Law `same_dispatches`: the dispatches of the events that a desk holds (`ft_held_waits`), if it has
//!   loaded one trace text, are those that the text tells as a stream (`ft_waits`).
#![tactic(auto)]

pub mod laws;

pub use laws::same_dispatches;
