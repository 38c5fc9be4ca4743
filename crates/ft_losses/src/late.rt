//! CPUs that begin late, if only the kernel's header says that events were overwritten.

ghost use Rattle.std.specs.Prelude.{◌≡◌, ◌++◌, ◌||◌, ℕ, OnOk};
ghost use Rattle.ft_losses.specs.Holes.{is_earlier, any_earlier, all_late, late_by, late_hole};
ghost use Rattle.ft_losses.specs.inner.Lanes.{lane_in};

use crate::hole::{Beginning, Hole};
use crate::lanes::{CPUS, Lane, lane_of};
use std::alloc::AllocError;

/// The earlier one of two first stamps.
fn earlier(first: Option<u64>, other: Option<u64>) -> Option<u64>
    ensures { (stamp : ℕ) → is_earlier result stamp ≡ (is_earlier first stamp || is_earlier other stamp) }
{
    match first {
        None => other,
        Some(stamp) => match other {
            None => Some(stamp),
            Some(next) => Some(stamp.min(next)),
        },
    }
}

/// The least first stamp of all CPUs.
fn least_first(lanes: &[Lane]) -> Option<u64>
    ensures { (stamp : ℕ) → is_earlier result stamp ≡ any_earlier (λ cpu. (lane_in lanes.now cpu).first) stamp }
{
    let mut least = None;
    for cpu in 0..CPUS {
        least = earlier(least, lane_of(lanes, cpu).first);
    }
    least
}

/// Whether there is a first event before a stamp.
fn is_earlier(first: Option<u64>, stamp: u64) -> bool
    ensures { result ≡ is_earlier first stamp }
{
    match first {
        Some(first) => first < stamp,
        None => false,
    }
}

/// Adds the hole before a CPU's first event, if the least first stamp is before it.
fn add_late_at(
    least: Option<u64>,
    line: u64,
    cpu: u16,
    first: Option<u64>,
    holes: &mut Vec<Hole>,
) -> Result<(), AllocError>
    ensures { OnOk result (holes.new.items ≡ holes.old.items ++ late_hole (is_earlier least) line cpu first) }
{
    let Some(stamp) = first else {
        return Ok(());
    };
    if is_earlier(least, stamp) {
        holes.push(Hole {
            cpu: Some(cpu),
            line,
            after: None,
            before: Some(stamp),
            count: None,
        })?;
    }
    Ok(())
}

/// Adds the holes of all CPUs that begin late, by CPU, which the line of this number reports.
fn add_all_late(lanes: &[Lane], line: u64, holes: &mut Vec<Hole>) -> Result<(), AllocError>
    ensures { OnOk result (holes.new.items ≡ holes.old.items ++ all_late (λ cpu. (lane_in lanes.now cpu).first) line) }
{
    let least = least_first(lanes);
    for cpu in 0..CPUS {
        add_late_at(least, line, cpu, lane_of(lanes, cpu).first, holes)?;
    }
    Ok(())
}

/// Adds the holes of CPUs that begin late, by CPU, if only the header says that events were overwritten.
pub(crate) fn add_late(
    lanes: &[Lane],
    begins: Beginning,
    holes: &mut Vec<Hole>,
) -> Result<(), AllocError>
    ensures { OnOk result (holes.new.items ≡ holes.old.items
        ++ late_by (λ cpu. (lane_in lanes.now cpu).first) begins.is_marked begins.header) }
{
    if let Some(header) = begins.header {
        if header.buffers.held < header.buffers.written && !begins.is_marked {
            add_all_late(lanes, header.line, holes)?;
        }
    }
    Ok(())
}
