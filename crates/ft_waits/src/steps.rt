//! Acts of one microsecond.

ghost use Rattle.std.specs.Prelude.{OnOk, IsPermutation};
ghost use Rattle.std.specs.List.Sorted.{IsSortedByKey};
ghost use Rattle.ft_fields.specs.Places.{pos_cmp};
ghost use Rattle.ft_waits.specs.inner.Known.{Settles};

use crate::kept::KeptActs;
use crate::showing::give;
use crate::summing::sum_up;
use ft_dispatch::{Dispatch, PlacedAct};
use ft_summary::Summary;
use std::alloc::AllocError;

/// Puts held acts in order of their places.
#[inline(always)]
fn sort(held: &mut Vec<PlacedAct>)
    ensures moved { IsPermutation held.old.items held.new.items }
    ensures sorted { IsSortedByKey (λ one. one.place) pos_cmp held.new.items }
{
    held.sort_unstable_by_key(|one| one.place);
}

/// Takes held acts in the order of their places, adds their dispatches, gives what they show to the windows, and
/// sums them up, if that is wanted: none is held then.
#[inline(always)]
pub(crate) fn settle(
    acts: &mut KeptActs,
    sums: &mut Option<Summary>,
    out: &mut Vec<Dispatch>,
) -> Result<(), AllocError>
    ensures { OnOk result (Settles acts.old sums.old out.old.items acts.new sums.new out.new.items) }
{
    sort(&mut acts.held);
    acts.tasks.take_all(&acts.held, out, &mut acts.shown)?;
    give(&mut acts.windows, &mut acts.shown)?;
    sum_up(sums, &acts.held)?;
    acts.held.clear();
    Ok(())
}
