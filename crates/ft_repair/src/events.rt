//! Tables to which held events come: one event, which may also go, or those of new lanes. What is kept
//! of the others is repaired.

ghost use Rattle.std.specs.Prelude.{◌≡◌, ◌+◌, ◌≤◌, length, nat_lt, is_some, None, IfOk, IfSome};
ghost use Rattle.std.specs.FinMap as map;
ghost use Rattle.ft_hist.specs.Steps.{StepsGrow};
ghost use Rattle.ft_kept.specs.Changes.{HasToldFew, ReadingsTold};
ghost use Rattle.ft_kept.specs.Repairs.{IsHeldAt};
ghost use Rattle.ft_kept.specs.Shelves.{FormsStay};
ghost use Rattle.ft_kept.specs.Views.{triggers_of};
ghost use Rattle.ft_lanes.specs.Held.{held_in};
ghost use Rattle.ft_base.specs.Reachable.{HasSavers};
ghost use Rattle.ft_base.specs.PlainHits.{IsPlainHit};
ghost use Rattle.ft_repair.specs.KeptShelves.{AreKeptOf};
ghost use Rattle.ft_repair.specs.OneEvent.{AreKeptBefore, AreKeptAfter, ChangeCosts, EventNeedsNoMemory};
ghost use Rattle.ft_repair.specs.Repaired.{IfBoth};
ghost use Rattle.ft_repair.specs.SomeLanes.{AreKeptOfLanes, count_coming};

use ft_base::Content;
use ft_fields::Pos;
use ft_hist::Work;
use ft_kept::{Changes, Delta, Scene, Sign, Tables};
use ft_lanes::Lanes;
use ft_replay::merged_events_but;
use ft_store::Store;
use std::alloc::{AllocError, Global};

/// The attached triggers and the lanes of a base.
pub(crate) fn scene_of(content: &Content) -> Scene<'_>
    ensures triggers { triggers_of result ≡ content.now.triggers }
    ensures lanes { result.lanes.now ≡ content.now.lanes }
    ensures savers { HasSavers content.now.triggers }
{
    Scene {
        triggers: content.triggers(),
        lanes: content.lanes(),
    }
}

/// An event that is held comes to the tables or goes from them, and what that changes is recorded.
/// If memory runs out, the tables are given up: an event that comes takes none if no trigger hits
/// it, and one that goes takes none, except for what is recorded, if only triggers without a variable
/// hit it.
pub fn let_change(
    kept: &mut Option<Tables>,
    content: &Content,
    delta: &Delta<'_>,
    changes: &mut Changes,
    work: &mut Work,
)
    requires held { IsHeldAt content.now.lanes delta.now.pos delta.now.event.now }
    requires kept { IfSome kept.old (AreKeptBefore delta.now.sign content.now delta.now.pos) }
    ensures kept { IfSome kept.new (AreKeptAfter delta.now.sign content.now delta.now.pos) }
    ensures deferred { kept.old ≡ None → kept.new ≡ None }
    ensures forms { IfBoth FormsStay kept.old kept.new }
    ensures told { IfBoth (HasToldFew (map.entries content.now.triggers) changes.old changes.new)
        kept.old kept.new }
    ensures quiet { IsPlainHit content.now.triggers delta.now.event.now
        → changes.new.readings ≡ changes.old.readings }
    ensures now { EventNeedsNoMemory delta.now.sign content.now.triggers delta.now.event.now
        → kept.new ≡ None → kept.old ≡ None }
    ensures costs { ChangeCosts delta.now.sign content.now delta.now.pos delta.now.event.now
        work.old work.new }
    ensures grow { StepsGrow work.old work.new }
{
    // The keys of savers in a replay tell how many steps it takes. These laws bind them to those of
    // the tables.
    ft_table::laws::one_more_hit();
    ft_pairs::laws::one_source();
    let Some(mut tables) = kept.take() else {
        return;
    };
    let scene = scene_of(content);
    if let Ok(()) = tables.apply(&scene, delta, changes, work) {
        *kept = Some(tables);
    }
}

/// The CPUs whose lanes are held, if fewer events come than are held. Refused for memory.
pub fn cpus_before(
    alloc: Global,
    lanes: &Lanes,
    events: &Store,
) -> Result<Option<Vec<u16>>, AllocError>
    ensures fewer { IfOk result (λ cpus.
        is_some cpus ≡ nat_lt (length events.now) (held_in lanes.now)) }
    ensures cpus { IfOk result (λ cpus.
        IfSome cpus (λ before. before.items ≡ map.keys lanes.now)) }
{
    if events.len() as u64 >= lanes.len() {
        return Ok(None);
    }
    let mut cpus = Vec::new(alloc);
    for (cpu, _) in lanes.lanes() {
        cpus.push(cpu)?;
    }
    Ok(Some(cpus))
}

/// The events of all lanes, except those of some CPUs, which the tables have, come to the tables,
/// in merged order, and what that changes is recorded. If memory runs out, the tables are given up.
pub fn let_lanes_come(
    kept: &mut Option<Tables>,
    content: &Content,
    before: &[u16],
    changes: &mut Changes,
    work: &mut Work,
)
    requires { IfSome kept.old (AreKeptOfLanes before.now content.now) }
    ensures kept { IfSome kept.new (AreKeptOf content.now) }
    ensures deferred { kept.old ≡ None → kept.new ≡ None }
    ensures forms { IfBoth FormsStay kept.old kept.new }
    ensures reread { IfBoth (ReadingsTold changes.old.readings changes.new.readings)
        kept.old kept.new }
    ensures evals { work.new.evals ≤ work.old.evals + count_coming before.now content.now }
    ensures grow { StepsGrow work.old work.new }
{
    let Some(mut tables) = kept.take() else {
        return;
    };
    let scene = scene_of(content);
    let Ok(events) = merged_events_but(tables.alloc(), scene.lanes, scene.triggers, before) else {
        return;
    };
    let sign = Sign::Insert;
    for &(pos, stored) in &events {
        let event = &stored.event();
        let delta = Delta { sign, pos, event };
        if let Err(_) = tables.apply(&scene, &delta, changes, work) {
            return;
        }
    }
    *kept = Some(tables);
}
