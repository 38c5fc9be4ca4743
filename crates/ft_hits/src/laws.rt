//! Laws of spots and of marks.

ghost use Rattle.std.specs.Prelude.{◌≡◌};
ghost use Rattle.std.specs.declared.cmp.Ordering.TheVariants.{Equal};
ghost use Rattle.ft_hits.specs.Marks.{mark_cmp};
ghost use Rattle.ft_hits.specs.Spots.{spot_cmp};

use crate::mark::Mark;
use crate::spot::Spot;

/// A law: spots are ordered by place, then by maker, and spots that tie are equal.
pub fn one_spot_order()
    ensures order { (p q : Spot) → ⟦<Spot as Ord>⟧.cmp p q ≡ spot_cmp p q }
    ensures ties { (p q : Spot) → spot_cmp p q ≡ Equal → p ≡ q }
{}

/// A law: marks are ordered by spot, then by key, and marks that tie are equal.
pub fn one_mark_order()
    ensures order { (p q : Mark) → ⟦<Mark as Ord>⟧.cmp p q ≡ mark_cmp p q }
    ensures ties { (p q : Mark) → mark_cmp p q ≡ Equal → p ≡ q }
{}
