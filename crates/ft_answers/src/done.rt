//! What an accepted edit answers.

/// An accepted edit: its value, and whether the kept tables are up to date.
#[derive(Clone, Copy, Debug, PartialEq, Eq)]
pub struct Done<T> {
    /// What the edit gives.
    pub value: T,
    /// Whether the kept tables have the edit.
    pub kept: Kept,
}

/// Whether the tables that a board keeps have an edit.
#[derive(Clone, Copy, Debug, PartialEq, Eq)]
pub enum Kept {
    /// They have it.
    Now,
    /// Memory ran out for them: the next answer that reads them rebuilds them.
    Later,
}
