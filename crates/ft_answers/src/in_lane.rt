//! Places in a lane.

ghost use Rattle.std.specs.Prelude.{◌≡◌, IfOk, nat_le, filter, map as list_map};
ghost use Rattle.ft_replay.specs.Merged.{place_of};
ghost use Rattle.ft_answers.specs.Places.{lane_places};

use ft_fields::Pos;
use ft_lanes::{Lanes, Lines};
use std::alloc::{AllocError, Global};

/// The places of the events of a CPU's lane from a line on, by line; none if the CPU has no lane.
/// Refused for memory.
pub fn lane_places(
    alloc: Global,
    lanes: &Lanes,
    cpu: u16,
    line: u32,
) -> Result<Vec<Pos>, AllocError>
    ensures { IfOk result (λ found. found.items ≡ lane_places lanes.now cpu line) }
{
    match lanes.lane(cpu) {
        Some(lines) => places_from(alloc, cpu, lines, line),
        None => Ok(Vec::new(alloc)),
    }
}

/// The places of these lines of a CPU, from a line on. Refused for memory.
fn places_from(
    alloc: Global,
    cpu: u16,
    lines: Lines<'_>,
    first: u32,
) -> Result<Vec<Pos>, AllocError>
    ensures { IfOk result (λ found. found.items
        ≡ list_map (place_of cpu) (filter (λ entry. nat_le first entry.0) lines.entry)) }
{
    let mut found = Vec::new(alloc);
    for (line, stored) in lines {
        if line >= first {
            let stamp = stored.stamp();
            found.push(Pos { stamp, cpu, line })?;
        }
    }
    Ok(found)
}
