//! CPUs of which a line tells how many events were overwritten.

ghost use Rattle.std.specs.Prelude.{◌≡◌, List, length, map as list_map, IfOk, vec_len};
ghost use Rattle.std.specs.Option.{is_some};
ghost use Rattle.ft_losses.specs.Holes.{is_told};
ghost use Rattle.ft_losses.specs.Notes.{Note};
ghost use Rattle.ft_losses.specs.Telling.{Keeps, Tells};

use crate::lanes::Lane;
use crate::losses::Losses;
use std::alloc::{AllocError, Global};

/// Of which CPUs it is known how many events were overwritten, by CPU.
fn told_of(alloc: Global, lanes: &[Lane]) -> Result<Vec<bool>, AllocError>
    ensures len { IfOk result (λ told. vec_len told ≡ length lanes.now) }
    ensures each { IfOk result (λ told. told.items ≡ list_map (λ lane. is_some lane.overwritten) lanes.now) }
{
    let mut told = Vec::new(alloc);
    for lane in lanes {
        told.push(lane.overwritten.is_some())?;
    }
    Ok(told)
}

impl Losses {
    /// Of which CPUs a line tells how many events were overwritten before the first one: a truth value for each CPU
    /// that there can be, by CPU. Fails only for memory.
    pub fn told(&self, alloc: Global) -> Result<Vec<bool>, AllocError>
        ensures len { IfOk result (λ told. vec_len told ≡ 8192) }
        ensures each { IfOk result (λ told. (notes : List Note) → Keeps self.now notes
            → Tells told.items (λ cpu. is_told cpu notes)) }
    {
        told_of(alloc, &self.lanes)
    }
}
