//! How sure a wait is.

ghost use Rattle.std.specs.Prelude.{◌≡◌};
ghost use Rattle.ft_losses.specs.Doubt.{is_sure, lowered};

use ft_dispatch::Began;

/// How sure a wait is, by the events that were lost in its time, and by whether its task was left asleep in it.
#[derive(Clone, Copy, Debug, PartialEq, Eq)]
pub enum Doubt {
    /// No events were lost in its time, and its task was not left asleep in it.
    Sure,
    /// The CPUs on which it began and ended lost no events in its time.
    Likely,
    /// One of these CPUs did: the wait may be false.
    Doubtful,
}

/// A wait for a processor, as it is counted.
#[derive(Clone, Copy, Debug, PartialEq, Eq)]
pub struct Wait {
    /// What it began with.
    pub began: Began,
    /// How sure it is.
    pub doubt: Doubt,
}

impl Doubt {
    /// Whether the wait is sure.
    pub fn is_sure(self) -> bool
        ensures { result ≡ is_sure self }
    {
        match self {
            Doubt::Sure => true,
            Doubt::Likely | Doubt::Doubtful => false,
        }
    }

    /// The same, but likely in place of sure if the wait's task was left asleep after it began.
    pub(crate) fn lowered(self, slept: bool) -> Doubt
        ensures { result ≡ lowered slept self }
    {
        if slept && self.is_sure() {
            Doubt::Likely
        } else {
            self
        }
    }
}
