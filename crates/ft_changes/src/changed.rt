//! What an edit changes.

use ft_fields::{Key, Pos};

/// A row that may differ: of which trigger, and under which key.
#[derive(Clone, Copy, Debug, PartialEq, Eq)]
pub struct Changed {
    /// The trigger's id.
    pub id: u32,
    /// The key.
    pub key: Key,
}

/// What a reading had found and what it finds: one saving, or none, and maybe the same as before. A
/// reading that comes had found none, and one that goes finds none.
#[derive(Clone, Copy, Debug, PartialEq, Eq)]
pub struct ReadingChange {
    /// The id of the trigger that reads.
    pub id: u32,
    /// The place of the reading.
    pub pos: Pos,
    /// The place of the saving that it had found.
    pub before: Option<Pos>,
    /// The place of the saving that it finds.
    pub after: Option<Pos>,
}
