//! Pairs of a saving and its reading.

use ft_fields::Pos;

/// A saving and the reading that found it.
#[derive(Clone, Copy, Debug, PartialEq, Eq)]
pub struct Pair {
    /// The place of the event that saved.
    pub saved: Pos,
    /// The place of the event that read.
    pub read: Pos,
}
