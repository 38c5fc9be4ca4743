//! The end of a text.

ghost use Rattle.std.specs.Prelude.{◌≡◌, ◌++◌, List, OnOk, IfOk, option_map};
ghost use Rattle.std.specs.List.{flat_map};
ghost use Rattle.std.specs.Option.{option_and_then};
ghost use Rattle.ft_losses.specs.Holes.{cpus_below, hole_of, counted_as, counted_by};
ghost use Rattle.ft_losses.specs.Notes.{Note};
ghost use Rattle.ft_losses.specs.Telling.{Keeps, AreLosses};
ghost use Rattle.ft_losses.specs.inner.Lanes.{lane_in};

use crate::hole::{Buffers, Header, Hole};
use crate::lanes::{CPUS, Lane, lane_of};
use crate::late::add_late;
use crate::losses::{Losses, LossesRead};
use crate::reading::add_hole;
use std::alloc::{AllocError, Global};

/// Adds the holes that last to the end, by CPU.
fn add_open(lanes: &[Lane], holes: &mut Vec<Hole>) -> Result<(), AllocError>
    ensures { OnOk result (holes.new.items ≡ holes.old.items
        ++ flat_map (λ cpu. hole_of cpu (lane_in lanes.now cpu).last None (lane_in lanes.now cpu).lost) (cpus_below 8192)) }
{
    for cpu in 0..CPUS {
        add_hole(holes, cpu, lane_of(lanes, cpu), None)?;
    }
    Ok(())
}

/// Adds a hole by a count of overwritten events: as it is without a count, with the count if that
/// isn't 0; adds none if it is 0.
fn add_counted_as(holes: &mut Vec<Hole>, hole: &Hole, count: Option<u64>) -> Result<(), AllocError>
    ensures { OnOk result (holes.new.items ≡ holes.old.items ++ counted_as hole.now count) }
{
    match count {
        None => holes.push(*hole)?,
        Some(0) => {}
        Some(count) => holes.push(Hole {
            count: Some(count),
            ..*hole
        })?,
    }
    Ok(())
}

/// Adds a hole, by how many events of its CPU were overwritten before the first one.
fn add_counted(holes: &mut Vec<Hole>, hole: &Hole, count: Option<u64>) -> Result<(), AllocError>
    ensures { OnOk result (holes.new.items ≡ holes.old.items ++ counted_by count hole.now) }
{
    if hole.after.is_none() && hole.count.is_none() {
        return add_counted_as(holes, hole, count);
    }
    holes.push(*hole)?;
    Ok(())
}

/// How many events of a hole's CPU were overwritten before the first one.
fn overwritten_on(lanes: &[Lane], cpu: Option<u16>) -> Option<u64>
    ensures { result ≡ option_and_then (λ cpu. (lane_in lanes.now cpu).overwritten) cpu }
{
    match cpu {
        Some(cpu) => lane_of(lanes, cpu).overwritten,
        None => None,
    }
}

/// Adds holes, each by how many events of its CPU were overwritten before the first one.
fn add_all_counted(
    counted: &mut Vec<Hole>,
    lanes: &[Lane],
    holes: &[Hole],
) -> Result<(), AllocError>
    ensures { OnOk result (counted.new.items ≡ counted.old.items
        ++ flat_map (λ hole. counted_by (option_and_then (λ cpu. (lane_in lanes.now cpu).overwritten) hole.cpu) hole) holes.now) }
{
    for hole in holes {
        add_counted(counted, hole, overwritten_on(lanes, hole.cpu))?;
    }
    Ok(())
}

/// What the kernel's header counts, if there is one.
fn buffers_of(header: Option<Header>) -> Option<Buffers>
    ensures { result ≡ option_map (λ header. header.buffers) header }
{
    match header {
        Some(header) => Some(header.buffers),
        None => None,
    }
}

impl Losses {
    /// The holes of all lines, and what the kernel's header counts. Fails only for memory.
    pub fn finish(self, alloc: Global) -> Result<LossesRead, AllocError>
        ensures { IfOk result (λ read. (notes : List Note) → Keeps self notes → AreLosses notes read) }
    {
        let Losses {
            lanes,
            mut ended,
            begins,
        } = self;
        let mut late = Vec::new(alloc);
        add_late(&lanes, begins, &mut late)?;
        add_open(&lanes, &mut ended)?;
        let mut holes = Vec::new(alloc);
        add_all_counted(&mut holes, &lanes, &late)?;
        add_all_counted(&mut holes, &lanes, &ended)?;
        Ok(LossesRead {
            holes,
            buffers: buffers_of(begins.header),
        })
    }
}
