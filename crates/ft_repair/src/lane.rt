//! Tables from which the events of a lane go. What is kept of the others is repaired.

ghost use Rattle.std.specs.Prelude.{◌≡◌, ◌+◌, ◌≤◌, None, Some, IfOk, IfSome, reverse};
ghost use Rattle.std.specs.List.Sorted.{IsSortedByKey};
ghost use Rattle.std.specs.FinMap as map;
ghost use Rattle.ft_fields.specs.Places.{pos_cmp};
ghost use Rattle.ft_hist.specs.Steps.{StepsGrow};
ghost use Rattle.ft_kept.specs.Changes.{ReadingsTold};
ghost use Rattle.ft_kept.specs.Shelves.{FormsStay};
ghost use Rattle.ft_lanes.specs.Held.{Lane};
ghost use Rattle.ft_maps.specs.Mapped.{entries_by};
ghost use Rattle.ft_store.specs.Stored.{held};
ghost use Rattle.ft_base.specs.PlainHits.{IsPlainLane};
ghost use Rattle.ft_replay.specs.Costs.{count_on_lane};
ghost use Rattle.ft_repair.specs.ButOneLane.{AreKeptWithoutLane};
ghost use Rattle.ft_repair.specs.KeptShelves.{AreKeptOf};
ghost use Rattle.ft_repair.specs.Repaired.{IfBoth};
ghost use Rattle.ft_repair.specs.inner.Going.{HasItsLane, LaneGoes, lane_events};

use crate::events::scene_of;
use ft_base::Content;
use ft_fields::Pos;
use ft_hist::Work;
use ft_kept::{Changes, Delta, Sign, Tables};
use ft_lanes::Lanes;
use ft_store::Stored;
use std::alloc::{AllocError, Global};

/// The events of a CPU's lane, which is still held, go from the tables, and what that changes is
/// recorded. If memory runs out, the tables are given up; events that are hits of only triggers without
/// a variable take none, and change no reading.
pub fn let_lane_go(
    kept: &mut Option<Tables>,
    content: &Content,
    cpu: u16,
    changes: &mut Changes,
    work: &mut Work,
)
    requires { IfSome kept.old (AreKeptOf content.now) }
    ensures kept { IfSome kept.new (AreKeptWithoutLane content.now cpu) }
    ensures deferred { kept.old ≡ None → kept.new ≡ None }
    ensures forms { IfBoth FormsStay kept.old kept.new }
    ensures reread { IfBoth (ReadingsTold changes.old.readings changes.new.readings)
        kept.old kept.new }
    ensures quiet { IsPlainLane content.now.triggers content.now.lanes cpu
        → changes.new.readings ≡ changes.old.readings }
    ensures now { IsPlainLane content.now.triggers content.now.lanes cpu
        → kept.new ≡ None → kept.old ≡ None }
    ensures evals { (lane : Lane) → map.get content.now.lanes cpu ≡ Some lane
        → work.new.evals ≤ work.old.evals + count_on_lane content.now.triggers lane }
    ensures grow { StepsGrow work.old work.new }
{
    let Some(mut tables) = kept.take() else {
        return;
    };
    if let Ok(()) = take_lane(&mut tables, content, cpu, changes, work) {
        *kept = Some(tables);
    }
}

/// The events of a CPU's lane go from the tables: the last in merged order first, so that the first hit
/// of each key moves only as its last hit in the lane goes, and no key's saves go and come again and
/// again. If there is no memory for a list of the events, they go in order of their lines.
fn take_lane(
    tables: &mut Tables,
    content: &Content,
    cpu: u16,
    changes: &mut Changes,
    work: &mut Work,
) -> Result<(), AllocError>
    requires { AreKeptOf content.now tables.old }
    ensures { LaneGoes content.now cpu result tables.old tables.new
        changes.old.readings changes.new.readings work.old work.new }
{
    match last_first(tables.alloc(), content.lanes(), cpu) {
        Ok(events) => take_listed(tables, content, cpu, &events, changes, work),
        Err(_) => take_lines(tables, content, cpu, changes, work),
    }
}

/// The events of a CPU's lane go from the tables in the order of a list that has each of them once.
fn take_listed(
    tables: &mut Tables,
    content: &Content,
    cpu: u16,
    events: &[(Pos, Stored<'_>)],
    changes: &mut Changes,
    work: &mut Work,
) -> Result<(), AllocError>
    requires kept { AreKeptOf content.now tables.old }
    requires listed { HasItsLane content.now.lanes cpu (entries_by held events.now) }
    ensures { LaneGoes content.now cpu result tables.old tables.new
        changes.old.readings changes.new.readings work.old work.new }
{
    let scene = scene_of(content);
    let sign = Sign::Retract;
    for &(pos, stored) in events {
        let event = &stored.event();
        let delta = Delta { sign, pos, event };
        tables.apply(&scene, &delta, changes, work)?;
    }
    Ok(())
}

/// The events of a CPU's lane go from the tables in order of their lines.
fn take_lines(
    tables: &mut Tables,
    content: &Content,
    cpu: u16,
    changes: &mut Changes,
    work: &mut Work,
) -> Result<(), AllocError>
    requires { AreKeptOf content.now tables.old }
    ensures { LaneGoes content.now cpu result tables.old tables.new
        changes.old.readings changes.new.readings work.old work.new }
{
    let scene = scene_of(content);
    let Some(lines) = scene.lanes.lane(cpu) else {
        return Ok(());
    };
    for (line, stored) in lines {
        let event = stored.event();
        let stamp = event.stamp;
        let delta = Delta {
            sign: Sign::Retract,
            pos: Pos { stamp, cpu, line },
            event: &event,
        };
        tables.apply(&scene, &delta, changes, work)?;
    }
    Ok(())
}

/// The events of a CPU's lane with their places, the last in merged order first. Refused for memory.
fn last_first<'a>(
    alloc: Global,
    lanes: &'a Lanes,
    cpu: u16,
) -> Result<Vec<(Pos, Stored<'a>)>, AllocError>
    ensures all { IfOk result (λ events. HasItsLane lanes.now cpu (entries_by held events.items)) }
    ensures last { IfOk result (λ events.
        IsSortedByKey (λ entry. entry.0) pos_cmp (reverse events.items)) }
{
    let mut events = events_of(alloc, lanes, cpu)?;
    events.sort_by_key(|entry| entry.0)?;
    events.reverse();
    Ok(events)
}

/// The events of a CPU's lane with their places, in order of their lines. Refused for memory.
fn events_of<'a>(
    alloc: Global,
    lanes: &'a Lanes,
    cpu: u16,
) -> Result<Vec<(Pos, Stored<'a>)>, AllocError>
    ensures { IfOk result (λ events. entries_by held events.items ≡ lane_events lanes.now cpu) }
{
    let mut events = Vec::new(alloc);
    let Some(lines) = lanes.lane(cpu) else {
        return Ok(events);
    };
    for (line, stored) in lines {
        let stamp = stored.stamp();
        events.push((Pos { stamp, cpu, line }, stored))?;
    }
    Ok(events)
}
