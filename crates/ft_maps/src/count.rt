//! A count, as a chain of what was seen.

ghost use Rattle.std.specs.Prelude.{◌≡◌, ◌+◌};

use std::marker::Model;
use std::mem;
use std::snapshot::Snapshot;

/// A number of any size that only contracts see. At run time it is nothing.
#[derive(Drop)]
pub struct Count {
    last: Snapshot<Seen>,
}

/// What a count was: 0, or one more than what it was before.
#[derive(Drop)]
struct Seen {
    before: Option<Snapshot<Seen>>,
}

impl Model for Seen {
    ghost use Rattle.std.specs.Prelude.{ℕ};
    ghost use Rattle.ft_maps.specs.inner.Chain.{one_above};

    ghost Value = { ℕ };

    ghost view = { λ s. one_above s.before };

    ghost size = { λ n. n };

    ghost use Rattle.std.proofs.Common.{arith};

    ghost size_decreases = { Prim.grind (arith) };
}

impl Model for Count {
    ghost use Rattle.std.specs.Prelude.{ℕ};

    ghost Value = { ℕ };

    ghost view = { λ c. c.last.value };
}

impl Count {
    /// The count 0.
    pub fn zero() -> Count
        ensures { result ≡ 0 }
    {
        Count { last: nothing() }
    }

    /// Raises the count by one.
    pub fn raise(&mut self)
        ensures { self.new ≡ self.old + 1 }
    {
        let before = Some(mem::replace(&mut self.last, nothing()));
        self.last = Snapshot::of(&Seen { before });
    }
}

/// What the count 0 was.
fn nothing() -> Snapshot<Seen>
    ensures { result.value ≡ 0 }
{
    Snapshot::of(&Seen { before: None })
}
