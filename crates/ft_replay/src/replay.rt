//! Replaying what is held: one pass over the merged order, at which the attached triggers act.

ghost use Rattle.std.specs.Prelude.{◌≡◌, IfOk, OnOk};
ghost use Rattle.std.specs.declared.cmp.Ordering.TheVariants.{Less};
ghost use Rattle.std.specs.Ordering.{nat_cmp};
ghost use Rattle.ft_fields.specs.Places.{pos_cmp};
ghost use Rattle.ft_fields.specs.declared.pos.Pos.{Pos};
ghost use Rattle.ft_maps.specs.Mapped.{map_by};
ghost use Rattle.ft_maps.specs.Seen.{seen};
ghost use Rattle.ft_hist.specs.Steps.{StepsGrow};
ghost use Rattle.ft_replay.specs.Merged.{merged};
ghost use Rattle.ft_replay.specs.Replay.{step, replay};
ghost use Rattle.ft_replay.specs.Counters.{tally_in, HaveCounters};
ghost use Rattle.ft_replay.specs.inner.Replaying.{state_in, new_counters};
ghost use Rattle.ft_replay.specs.inner.Replaying.{AllBeforePlace};
ghost use Rattle.ft_pairs.specs.Variables.{variable_cmp};

use crate::act::Act;
use crate::counter::Counter;
use crate::merge::merged_events;
use ft_base::role_of;
use ft_fields::{Event, Pos};
use ft_hist::{Triggers, Work};
use ft_lanes::Lanes;
use ft_maps::put;
use ft_pairs::{At, Variable};
use std::alloc::{AllocError, Global};
use std::collections::BTreeMap;

/// The counter of each attached trigger after all held events. Refused for memory.
pub fn replay_held(
    alloc: Global,
    lanes: &Lanes,
    triggers: &Triggers,
    work: &mut Work,
) -> Result<BTreeMap<u32, Counter>, AllocError>
    ensures tallies { IfOk result (λ counters. map_by tally_in (seen nat_cmp counters)
        ≡ (replay triggers.now (merged lanes.now)).tallies) }
    ensures complete { IfOk result (λ counters.
        HaveCounters triggers.now (seen nat_cmp counters)) }
    ensures grow { StepsGrow work.old work.new }
{
    let merged = merged_events(alloc, lanes, triggers)?;
    let mut counters = new_counters(alloc, triggers)?;
    let mut saved = BTreeMap::new(alloc);
    for (pos, stored) in &merged {
        let event = stored.event();
        step(triggers, *pos, &event, &mut counters, &mut saved, work)?;
    }
    Ok(counters)
}

/// A counter without hits for each attached trigger. Refused for memory.
fn new_counters(alloc: Global, triggers: &Triggers) -> Result<BTreeMap<u32, Counter>, AllocError>
    ensures { IfOk result (λ counters.
        seen nat_cmp counters ≡ new_counters triggers.now) }
{
    let mut counters = BTreeMap::new(alloc);
    for (id, attached) in triggers.iter() {
        let role = role_of(triggers, attached.variable());
        put(
            &mut counters,
            *id,
            Counter::new(alloc, role, attached.size()),
        )?;
    }
    Ok(counters)
}

/// One event, whose place is after all hits: the attached triggers act in order of id. Refused for
/// memory.
fn step(
    triggers: &Triggers,
    pos: Pos,
    event: &Event,
    counters: &mut BTreeMap<u32, Counter>,
    saved: &mut BTreeMap<Variable, Pos>,
    work: &mut Work,
) -> Result<(), AllocError>
    requires stamped { pos.stamp ≡ event.now.stamp }
    requires complete { HaveCounters triggers.now (seen nat_cmp counters.old) }
    requires before { AllBeforePlace pos (seen nat_cmp counters.old) }
    ensures state { OnOk result (state_in (seen nat_cmp counters.new, seen variable_cmp saved.new)
        ≡ step triggers.now
        (state_in (seen nat_cmp counters.old, seen variable_cmp saved.old)) (pos, event.now)) }
    ensures complete { OnOk result
        (HaveCounters triggers.now (seen nat_cmp counters.new)) }
    ensures before { OnOk result ((next : Pos) → pos_cmp pos next ≡ Less
        → AllBeforePlace next (seen nat_cmp counters.new)) }
    ensures grow { StepsGrow work.old work.new }
{
    ft_hist::laws::fitting_parts();
    ft_table::laws::one_more_hit();
    for (id, trigger) in triggers.iter() {
        let at = At { pos, trigger: *id };
        let act = Act { trigger, event, at };
        act.replay(counters, saved, work)?;
    }
    Ok(())
}
