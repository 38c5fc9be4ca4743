//! The tables of the triggers that count made events, filled from what is kept of readings.

ghost use Rattle.std.specs.Prelude.{◌≡◌, ℕ, IfOk};
ghost use Rattle.std.specs.FinMap.{FinMap};
ghost use Rattle.ft_fields.specs.Places.{pos_cmp};
ghost use Rattle.ft_fields.specs.declared.pos.Pos.{Pos};
ghost use Rattle.ft_hist.specs.Steps.{StepsGrow};
ghost use Rattle.ft_replay.specs.Merged.{merged};
ghost use Rattle.ft_made.specs.Laws.{MakeNone};
ghost use Rattle.ft_made.specs.MadeTables.{IsMadeTable, AreInOrder, ArePairsOf, found_in};
ghost use Rattle.ft_made.specs.inner.First.{first_changes};

use crate::updating::Counting;
use ft_changes::ReadingChange;
use ft_hist::{Trigger, Work};
use ft_replay::Pair;
use ft_table::Table;
use std::alloc::{AllocError, Global};

/// What is kept of the readings of attached triggers: with each reading, the saving that it found.
pub trait KeptReadings {
    ghost use Rattle.std.specs.Prelude.{◌≡◌, ℕ, List, IfOk};
    ghost use Rattle.ft_replay.specs.declared.pair.Pair.{Pair};

    /// The pairs of the readings of a trigger.
    ghost pairs: { Self → ℕ → List Pair };

    /// The pairs of the readings of the trigger with an id. Refused for memory.
    fn pairs_by(&self, id: u32) -> Result<Vec<Pair>, AllocError>
        ensures { IfOk result (λ found. found.items ≡ pairs self.now id) };
}

impl Counting<'_> {
    /// The trigger's table: of the events that the attached triggers make of held events, if their
    /// readings found what is kept of them. If no trigger makes events, it takes no step. Refused
    /// for memory.
    pub fn made_table<R: KeptReadings>(
        &self,
        alloc: Global,
        readings: &R,
        work: &mut Work,
    ) -> Result<Table, AllocError>
        requires { AreInOrder self.now.triggers.now (R.pairs readings.now) }
        ensures table { IfOk result (λ table. (found : ℕ → FinMap pos_cmp Pos)
            → ArePairsOf self.now.triggers.now (R.pairs readings.now) found
            → IsMadeTable self.now.triggers.now (merged self.now.lanes.now) (found_in found)
            self.now.trigger.now table) }
        ensures idle { MakeNone self.now.triggers.now → work.new ≡ work.old }
        ensures grow { StepsGrow work.old work.new }
    {
        let mut table = Table::new(alloc, self.trigger.size());
        for (id, maker) in self.triggers.iter() {
            let changes = first_changes(alloc, *id, maker, readings)?;
            self.update_made(&mut table, &changes, work)?;
        }
        Ok(table)
    }
}

/// The changes that lead from nothing to what is kept of a trigger's readings; none if it makes no
/// events. Refused for memory.
fn first_changes<R: KeptReadings>(
    alloc: Global,
    id: u32,
    maker: &Trigger,
    readings: &R,
) -> Result<Vec<ReadingChange>, AllocError>
    ensures { IfOk result (λ changes. changes.items
        ≡ first_changes (R.pairs readings.now) (id, maker.now)) }
{
    if maker.onmatch().is_none() {
        return Ok(Vec::new(alloc));
    }
    let pairs = readings.pairs_by(id)?;
    pairs
        .iter()
        .map(|pair| ReadingChange {
            id,
            pos: pair.read,
            before: None,
            after: Some(pair.saved),
        })
        .collect(alloc)
}
