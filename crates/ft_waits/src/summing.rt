//! What the acts of a text sum up to, if that is wanted.

ghost use Rattle.std.specs.Prelude.{OnOk, IfOk, List, is_some};
ghost use Rattle.ft_dispatch.specs.Acts.{Act};
ghost use Rattle.ft_dispatch.specs.Telling.{entries_of};
ghost use Rattle.ft_fields.specs.declared.pos.Pos.{Pos};
ghost use Rattle.ft_waits.specs.Summing.{AreSumsIf};
ghost use Rattle.ft_waits.specs.inner.Known.{SumsTell, SumsTake};

use ft_dispatch::PlacedAct;
use ft_summary::{Summary, Sums};
use std::alloc::{AllocError, Global};

/// Sums up acts that follow, if that is wanted.
#[inline(always)]
pub(crate) fn sum_up(sums: &mut Option<Summary>, acts: &[PlacedAct]) -> Result<(), AllocError>
    ensures { OnOk result (SumsTake (entries_of acts.now) sums.old sums.new) }
{
    match sums {
        Some(summary) => summary.take_all(acts),
        None => Ok(()),
    }
}

/// What all acts sum up to, if that is wanted. Fails only for memory.
pub(crate) fn sums_of(alloc: Global, sums: &Option<Summary>) -> Result<Option<Sums>, AllocError>
    ensures { IfOk result (λ all. (acts : List (Pos × Act)) → SumsTell sums.now acts
        → AreSumsIf (is_some sums.now) acts all) }
{
    match sums {
        Some(summary) => Ok(Some(summary.finish(alloc)?)),
        None => Ok(None),
    }
}
