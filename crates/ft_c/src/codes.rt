//! Codes that no refusal has, and the code of running out of memory.

/// The code of an accepted call.
pub(crate) const ACCEPTED: u32 = 0;

/// The code of a call that memory ran out for: the number of that refusal.
pub(crate) const MEMORY: u32 = 1;

/// The code of a call of a handle that holds nothing.
pub(crate) const CLOSED: u32 = 255;
