//! What an attached trigger counts, from replaying what is held.

ghost use Rattle.std.specs.Prelude.{◌≡◌, List, [], Some, IfOk, IsSome};
ghost use Rattle.std.specs.FinMap as map;
ghost use Rattle.ft_hist.specs.Hist.{Hist};
ghost use Rattle.ft_hist.specs.Steps.{StepsGrow};
ghost use Rattle.ft_table.specs.Rows.{AllFit};
ghost use Rattle.ft_replay.specs.Merged.{merged};
ghost use Rattle.ft_replay.specs.Counters.{tally_in};
ghost use Rattle.ft_replay.specs.Tally.{tally_of};
ghost use Rattle.ft_replay.specs.declared.pair.Pair.{Pair};
ghost use Rattle.ft_answers.specs.Answers.{tally_at, tally_made, tally_shown};
ghost use Rattle.ft_answers.specs.inner.Counts.{counted_table};

use crate::readings::ReplayedReadings;
use ft_hist::{Trigger, Triggers, Work};
use ft_lanes::Lanes;
use ft_made::Counting;
use ft_replay::{Counter, replay_held};
use ft_table::Table;
use std::alloc::{AllocError, Global};

/// What a trigger counts.
#[derive(Drop)]
pub(crate) enum Counted {
    /// Held events.
    Held(Counter),
    /// The events that readings make.
    Made(Table),
}

impl Counted {
    /// Its table.
    pub(crate) fn table(&self) -> &Table
        ensures { result.now ≡ counted_table self.now }
    {
        match self {
            Counted::Held(counter) => counter.table(),
            Counted::Made(table) => table,
        }
    }
}

/// What an attached trigger counts, after all held events. Refused for memory.
pub(crate) fn counted_at(
    alloc: Global,
    lanes: &Lanes,
    triggers: &Triggers,
    id: u32,
    trigger: &Trigger,
    work: &mut Work,
) -> Result<Counted, AllocError>
    requires { map.get triggers.now id ≡ Some trigger.now }
    ensures tally { IfOk result (λ counted. (pairs : List Pair) × (tally_of (counted_table counted) pairs
        ≡ tally_shown triggers.now (merged lanes.now) id trigger.now)) }
    ensures fit { IfOk result (λ counted. AllFit (counted_table counted) trigger.now) }
    ensures grow { StepsGrow work.old work.new }
{
    if trigger.counts_made() {
        let made = made_at(alloc, lanes, triggers, id, trigger, work)?;
        return Ok(Counted::Made(made));
    }
    let counter = counter_at(alloc, lanes, triggers, id, work)?;
    Ok(Counted::Held(counter))
}

/// The counter of an attached trigger after all held events. Refused for memory.
pub(crate) fn counter_at(
    alloc: Global,
    lanes: &Lanes,
    triggers: &Triggers,
    id: u32,
    work: &mut Work,
) -> Result<Counter, AllocError>
    requires { IsSome (map.get triggers.now id) }
    ensures tally { IfOk result (λ counter. tally_in counter
        ≡ tally_at triggers.now (merged lanes.now) id) }
    ensures fit { IfOk result (λ counter. (hist : Hist)
        → map.get triggers.now id ≡ Some hist → AllFit counter.table hist) }
    ensures grow { StepsGrow work.old work.new }
{
    ft_made::made_counters();
    let mut counters = replay_held(alloc, lanes, triggers, work)?;
    Ok(counters.remove(&id).unwrap())
}

/// The table of an attached trigger that counts the events which readings make, after all held
/// events. Refused for memory.
fn made_at(
    alloc: Global,
    lanes: &Lanes,
    triggers: &Triggers,
    id: u32,
    trigger: &Trigger,
    work: &mut Work,
) -> Result<Table, AllocError>
    requires { map.get triggers.now id ≡ Some trigger.now }
    ensures tally { IfOk result (λ table. tally_of table []
        ≡ tally_made triggers.now (merged lanes.now) id) }
    ensures fit { IfOk result (λ table. AllFit table trigger.now) }
    ensures grow { StepsGrow work.old work.new }
{
    ft_replay::counted_hits();
    ft_made::made_tables();
    ft_made::replayed_pairs();
    let counters = replay_held(alloc, lanes, triggers, work)?;
    let readings = ReplayedReadings { alloc, counters };
    let counting = Counting {
        lanes,
        triggers,
        trigger,
    };
    counting.made_table(alloc, &readings, work)
}
