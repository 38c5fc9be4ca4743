//! One line after the other.

ghost use Rattle.std.specs.Prelude.{◌≡◌, ◌≤◌, ◌==◌, ℕ, suc, ◌∷◌, ◌++◌, [], List, length, OnOk, IfOk, vec_len, if◌then◌else◌};
ghost use Rattle.ft_fields.specs.Borrowed.{event_told};
ghost use Rattle.ft_fields.specs.Traced.{last_cpu};
ghost use Rattle.ft_losses.specs.Holes.{sum_known, reported, hole_of};
ghost use Rattle.ft_losses.specs.Notes.{Note, Passed, Marked, quiet_note};
ghost use Rattle.ft_losses.specs.Telling.{Keeps};
ghost use Rattle.ft_losses.specs.inner.Lanes.{lane_in, with_loss, with_overwritten};

use crate::hole::{Beginning, Buffers, Header, Hole, Loss};
use crate::lanes::{Lane, lane_of, no_lanes, put_lane};
use crate::losses::Losses;
use ft_event::Mark;
use ft_fields::EventRef;
use std::alloc::{AllocError, Global};

/// The sum of what is known of two counts, up to the largest one.
fn sum_known(known: Option<u64>, count: Option<u64>) -> Option<u64>
    ensures { result ≡ sum_known known count }
{
    match known {
        None => count,
        Some(known) => match count {
            None => Some(known),
            Some(count) => Some(known.saturating_add(count)),
        },
    }
}

/// A loss, with one more line that reports it.
fn reported(line: u64, count: Option<u64>, lost: Option<Loss>) -> Loss
    ensures { result ≡ reported line count lost }
{
    match lost {
        None => Loss { line, count },
        Some(lost) => Loss {
            line: lost.line,
            count: sum_known(lost.count, count),
        },
    }
}

/// Adds the hole that a CPU's loss makes, if it lost any events.
#[inline(always)]
pub(crate) fn add_hole(
    holes: &mut Vec<Hole>,
    cpu: u16,
    lane: Lane,
    before: Option<u64>,
) -> Result<(), AllocError>
    ensures { OnOk result (holes.new.items ≡ holes.old.items ++ hole_of cpu lane.last before lane.lost) }
{
    if let Some(lost) = lane.lost {
        holes.push(Hole {
            cpu: Some(cpu),
            line: lost.line,
            after: lane.last,
            before,
            count: lost.count,
        })?;
    }
    Ok(())
}

/// Takes the line of this number that reports a CPU's loss.
fn report(lanes: &mut Vec<Lane>, cpu: u16, line: u64, count: Option<u64>)
    requires { vec_len lanes.old ≡ 8192 }
    ensures len { vec_len lanes.new ≡ 8192 }
    ensures at { (other : ℕ) → other ≤ last_cpu → lane_in lanes.new.items other
        ≡ if cpu == other then with_loss line count (lane_in lanes.old.items cpu) else lane_in lanes.old.items other }
{
    let mut lane = lane_of(lanes, cpu);
    lane.lost = Some(reported(line, count, lane.lost));
    put_lane(lanes, cpu, lane);
}

/// Takes a line that reports how many events of a CPU were overwritten.
fn overwrite(lanes: &mut Vec<Lane>, cpu: u16, count: u64)
    requires { vec_len lanes.old ≡ 8192 }
    ensures len { vec_len lanes.new ≡ 8192 }
    ensures at { (other : ℕ) → other ≤ last_cpu → lane_in lanes.new.items other
        ≡ if cpu == other then with_overwritten count (lane_in lanes.old.items cpu) else lane_in lanes.old.items other }
{
    let mut lane = lane_of(lanes, cpu);
    lane.overwritten = Some(count);
    put_lane(lanes, cpu, lane);
}

impl Losses {
    /// No lines.
    pub fn new(alloc: Global) -> Result<Losses, AllocError>
        ensures { IfOk result (λ losses. Keeps losses []) }
    {
        Ok(Losses {
            lanes: no_lanes(alloc)?,
            ended: Vec::new(alloc),
            begins: Beginning {
                header: None,
                is_marked: false,
            },
        })
    }

    /// Takes a line with an event. Fails only for memory.
    #[inline(always)]
    pub fn pass(&mut self, event: &EventRef<'_>) -> Result<(), AllocError>
        ensures { OnOk result ((notes : List Note) → Keeps self.old notes
            → Keeps self.new (Passed (event_told event.now) ∷ notes)) }
    {
        let lane = lane_of(&self.lanes, event.cpu);
        add_hole(&mut self.ended, event.cpu, lane, Some(event.stamp))?;
        let passed = Lane {
            first: Some(lane.first.unwrap_or(event.stamp)),
            last: Some(event.stamp),
            lost: None,
            overwritten: lane.overwritten,
        };
        put_lane(&mut self.lanes, event.cpu, passed);
        Ok(())
    }

    /// Takes the line of this number that is a mark.
    fn mark(&mut self, line: u64, mark: Mark)
        ensures { (notes : List Note) → Keeps self.old notes → line ≡ suc (length notes)
            → Keeps self.new (Marked mark ∷ notes) }
    {
        match mark {
            Mark::Lost { cpu, count } => report(&mut self.lanes, cpu, line, count),
            Mark::Started { cpu } => {
                self.begins.is_marked = true;
                report(&mut self.lanes, cpu, line, None);
            }
            Mark::Overwritten { cpu, count } => overwrite(&mut self.lanes, cpu, count),
            Mark::Written { held, written } => {
                let buffers = Buffers { held, written };
                let header = Header { line, buffers };
                self.begins.header = Some(self.begins.header.unwrap_or(header));
            }
        }
    }

    /// Takes the line of this number, which has no event, and the mark that it is, if it is one.
    pub fn skip(&mut self, line: u64, mark: Option<Mark>)
        ensures { (notes : List Note) → Keeps self.old notes → line ≡ suc (length notes)
            → Keeps self.new (quiet_note mark ∷ notes) }
    {
        match mark {
            Some(mark) => self.mark(line, mark),
            None => {}
        }
    }
}
