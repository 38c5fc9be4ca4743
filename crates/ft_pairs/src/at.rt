//! Operations on a variable, and where they stand.

use ft_fields::Pos;

/// Where a trigger acts: at the place of an event, and among the triggers that act there by its
/// id.
#[derive(Clone, Copy, Debug, PartialEq, Eq, PartialOrd, Ord)]
pub struct At {
    /// The place of the event.
    pub pos: Pos,
    /// The id of the trigger.
    pub trigger: u32,
}

/// What a trigger does to a variable.
#[derive(Clone, Copy, Debug, PartialEq, Eq)]
pub enum Op {
    /// It sets the variable.
    Save,
    /// It takes what the variable is set to, and unsets it.
    Read,
}
