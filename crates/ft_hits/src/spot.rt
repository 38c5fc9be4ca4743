//! Spots: where hits stand.

ghost use Rattle.std.specs.Prelude.{◌≡◌};
ghost use Rattle.ft_hits.specs.Spots.{traced};

use ft_fields::Pos;

/// Where a hit stands: the place of an event, and who made the event. Spots are ordered by place,
/// then by maker, so that an event of the trace stands before those that triggers made of it.
#[derive(Clone, Copy, Debug, PartialEq, Eq, PartialOrd, Ord)]
pub struct Spot {
    /// The place of the event; of one that a trigger made, the place where the trigger acted.
    pub pos: Pos,
    /// The id of the trigger that made the event, or 0 for an event of the trace.
    pub maker: u32,
}

impl Spot {
    /// Where a hit of an event of the trace stands.
    pub fn traced(pos: Pos) -> Spot
        ensures { result ≡ traced pos }
    {
        Spot { pos, maker: 0 }
    }
}
