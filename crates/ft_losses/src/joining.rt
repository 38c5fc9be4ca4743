//! Losses of a part that was read apart.

ghost use Rattle.std.specs.Prelude.{◌≡◌, ◌≤◌, ◌++◌, ◌||◌, ℕ, List, map as list_map, option_map, OnOk, vec_len};
ghost use Rattle.std.specs.List.{list_any};
ghost use Rattle.std.specs.Option.{is_some, option_and_then};
ghost use Rattle.ft_fields.specs.Traced.{last_cpu};
ghost use Rattle.ft_losses.specs.Holes.{cpus_below};
ghost use Rattle.ft_losses.specs.Joining.{any_lost, number_behind, loss_behind, header_behind, hole_behind, Joins};
ghost use Rattle.ft_losses.specs.Notes.{Note};
ghost use Rattle.ft_losses.specs.Telling.{Keeps};
ghost use Rattle.ft_losses.specs.inner.Lanes.{lane_in};
ghost use Rattle.ft_losses.specs.inner.Joined.{lane_behind};

use crate::hole::{Beginning, Header, Hole, Loss};
use crate::lanes::{CPUS, Lane, lane_of, put_lane};
use crate::losses::Losses;
use std::alloc::AllocError;

/// Whether one of two holds.
fn either(first: bool, second: bool) -> bool
    ensures { result ≡ (first || second) }
{
    first || second
}

/// Whether any CPU lost events since its last event.
fn any_lost(lanes: &[Lane]) -> bool
    ensures { result ≡ list_any (λ cpu. is_some (lane_in lanes.now cpu).lost) (cpus_below 8192) }
{
    let mut any = false;
    for cpu in 0..CPUS {
        any = either(any, lane_of(lanes, cpu).lost.is_some());
    }
    any
}

/// A line's number behind so many lines.
fn number_behind(lines: u64, number: u64) -> u64
    ensures { result ≡ number_behind lines number }
{
    number.saturating_add(lines)
}

/// What a CPU lost, behind so many lines.
fn loss_behind(lines: u64, lost: Option<Loss>) -> Option<Loss>
    ensures { result ≡ option_map (loss_behind lines) lost }
{
    match lost {
        Some(lost) => Some(Loss {
            line: number_behind(lines, lost.line),
            count: lost.count,
        }),
        None => None,
    }
}

/// The header behind so many lines.
fn header_behind(lines: u64, header: Option<Header>) -> Option<Header>
    ensures { result ≡ option_map (header_behind lines) header }
{
    match header {
        Some(header) => Some(Header {
            line: number_behind(lines, header.line),
            buffers: header.buffers,
        }),
        None => None,
    }
}

/// The stamp of the last event of a hole's CPU.
fn last_on(lanes: &[Lane], cpu: Option<u16>) -> Option<u64>
    ensures { result ≡ option_and_then (λ cpu. (lane_in lanes.now cpu).last) cpu }
{
    match cpu {
        Some(cpu) => lane_of(lanes, cpu).last,
        None => None,
    }
}

/// A hole of a part, behind so many lines and the last event of its CPU.
fn hole_behind(lines: u64, lanes: &[Lane], hole: &Hole) -> Hole
    ensures { result ≡ hole_behind lines (λ cpu. (lane_in lanes.now cpu).last) hole.now }
{
    Hole {
        cpu: hole.cpu,
        line: number_behind(lines, hole.line),
        after: hole.after.or(last_on(lanes, hole.cpu)),
        before: hole.before,
        count: hole.count,
    }
}

/// Adds the holes of a part.
fn add_behind(
    ended: &mut Vec<Hole>,
    lanes: &[Lane],
    part: &[Hole],
    lines: u64,
) -> Result<(), AllocError>
    ensures { OnOk result (ended.new.items ≡ ended.old.items
        ++ list_map (hole_behind lines (λ cpu. (lane_in lanes.now cpu).last)) part.now) }
{
    for hole in part {
        ended.push(hole_behind(lines, lanes, hole))?;
    }
    Ok(())
}

/// A CPU after a part, which lost no events before it.
fn lane_behind(lines: u64, before: Lane, part: Lane) -> Lane
    ensures { result ≡ lane_behind lines before part }
{
    Lane {
        first: before.first.or(part.first),
        last: part.last.or(before.last),
        lost: loss_behind(lines, part.lost),
        overwritten: part.overwritten.or(before.overwritten),
    }
}

/// Puts each CPU behind the part.
fn join_lanes(lanes: &mut Vec<Lane>, part: &[Lane], lines: u64)
    requires { vec_len lanes.old ≡ 8192 }
    ensures len { vec_len lanes.new ≡ 8192 }
    ensures at { (cpu : ℕ) → cpu ≤ last_cpu → lane_in lanes.new.items cpu
        ≡ lane_behind lines (lane_in lanes.old.items cpu) (lane_in part.now cpu) }
{
    for cpu in 0..CPUS {
        let lane = lane_behind(lines, lane_of(lanes, cpu), lane_of(part, cpu));
        put_lane(lanes, cpu, lane);
    }
}

impl Losses {
    /// Whether any CPU lost events since its last event: a hole has begun, and no event has ended
    /// it.
    pub fn is_open(&self) -> bool
        ensures { (notes : List Note) → Keeps self.now notes → result ≡ any_lost notes }
    {
        any_lost(&self.lanes)
    }

    /// Joins a part that was read apart, as if its lines had followed the lines so far. `lines` is
    /// how many lines there are so far, and no hole has begun in them that has not ended. Fails
    /// only for memory.
    pub fn join(&mut self, part: Losses, lines: u64) -> Result<(), AllocError>
        ensures { OnOk result (Joins lines self.old part self.new) }
    {
        add_behind(&mut self.ended, &self.lanes, &part.ended, lines)?;
        join_lanes(&mut self.lanes, &part.lanes, lines);
        let header = header_behind(lines, part.begins.header);
        self.begins = Beginning {
            header: self.begins.header.or(header),
            is_marked: either(self.begins.is_marked, part.begins.is_marked),
        };
        Ok(())
    }
}
