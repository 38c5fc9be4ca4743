//! Changes: their sign, and those of one hit.

ghost use Rattle.std.specs.Prelude.{◌≡◌};
ghost use Rattle.ft_shelves.specs.Changes.{change_mark, is_insert, sign_of};

use ft_table::{Hit, Mark};

/// Whether a change puts something in or takes it away: the sign of a delta.
#[derive(Clone, Copy, Debug, PartialEq, Eq)]
pub enum Sign {
    /// It puts in.
    Insert,
    /// It takes away.
    Retract,
}

impl Sign {
    /// Whether it puts in.
    pub fn is_insert(self) -> bool
        ensures { result ≡ is_insert self }
    {
        match self {
            Sign::Insert => true,
            Sign::Retract => false,
        }
    }
}

/// A change of what a trigger counts by one hit.
#[derive(Clone, Copy)]
pub enum HitChange {
    /// This hit comes.
    Insert(Hit),
    /// The hit that stands here goes, if there is one.
    Retract(Mark),
}

impl HitChange {
    /// Whether the hit comes or goes.
    pub fn sign(&self) -> Sign
        ensures { result ≡ sign_of self.now }
    {
        match self {
            HitChange::Insert(_) => Sign::Insert,
            HitChange::Retract(_) => Sign::Retract,
        }
    }

    /// Where the hit stands.
    pub fn mark(&self) -> Mark
        ensures { result ≡ change_mark self.now }
    {
        match *self {
            HitChange::Insert(Hit { spot, key, .. }) => Mark { spot, key },
            HitChange::Retract(mark) => mark,
        }
    }
}
