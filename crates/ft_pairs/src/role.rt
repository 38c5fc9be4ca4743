//! What triggers do with variables.

use ft_fields::Key;

/// What a trigger does with a variable.
#[derive(Clone, Copy, Debug, PartialEq, Eq)]
pub enum Role {
    /// It has none.
    Plain,
    /// It saves its own.
    Saves,
    /// It reads the one of the saver with this id. 0 is no saver's id.
    Reads(u32),
}

/// A variable: what a saver saves for one key. Variables are ordered by saver, then by key.
#[derive(Clone, Copy, Debug, PartialEq, Eq, PartialOrd, Ord)]
pub struct Variable {
    /// The id of the trigger that saves it.
    pub saver: u32,
    /// The key that it is saved for.
    pub key: Key,
}
