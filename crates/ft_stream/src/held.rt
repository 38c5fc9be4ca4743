//! The waits of held events.

ghost use Rattle.std.specs.Prelude.{◌≡◌, IfOk};
ghost use Rattle.ft_held_waits.specs.Held.{dispatches_held};
ghost use Rattle.ft_stream.specs.Telling.{waits_of};

use crate::phase::keep_waits;
use ft_dispatch::Dispatch;
use ft_held_waits::held_dispatches;
use ft_lanes::Lanes;
use std::alloc::{AllocError, Global};

/// The waits of the events that lanes hold: the dispatches that end them. Fails only for memory.
pub(crate) fn held_waits(alloc: Global, lanes: &Lanes) -> Result<Vec<Dispatch>, AllocError>
    ensures { IfOk result (λ waits. waits.items ≡ waits_of (dispatches_held lanes.now)) }
{
    let mut told = held_dispatches(alloc, lanes)?;
    keep_waits(&mut told);
    Ok(told)
}
