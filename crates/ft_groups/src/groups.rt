//! Groups: events by key.

ghost use Rattle.std.specs.Prelude.{◌≡◌, ◌+◌, ◌≤◌, length, IfOk, OnOk};
ghost use Rattle.ft_hist.specs.Hit.{hit};
ghost use Rattle.ft_hist.specs.Steps.{StepsGrow};
ghost use Rattle.ft_maps.specs.Mapped.{entries_by};
ghost use Rattle.ft_store.specs.Stored.{held};
ghost use Rattle.ft_groups.specs.Codes.{grouped_code};
ghost use Rattle.ft_groups.specs.Grouped.{Grouped, referenced_events, run_of, AreGrouped};
ghost use Rattle.ft_groups.specs.inner.Adding.{Adds};
ghost use Rattle.ft_groups.specs.inner.Finding.{FindsKeys};
ghost use Rattle.ft_groups.specs.inner.Recent.{AreMet};
ghost use Rattle.ft_groups.specs.inner.Runs.{AreByKey, groups_of};

use crate::keys::KeyFinder;
use crate::recent::Recent;
use crate::runs::Runs;
use ft_fields::Pos;
use ft_hist::{Key, Trigger, Work};
use ft_store::Stored;
use std::alloc::{AllocError, Global};
use std::marker::Model;

/// Keys, and for each of them events with their places.
///
/// Contracts see the list of the keys, and the lists of events by key.
#[derive(Drop)]
pub struct Groups<'a> {
    runs: Runs<'a>,
}

impl<'a> Model for Groups<'a> {
    ghost Value = { Grouped };

    ghost coded = { grouped_code };

    ghost view = { λ g. groups_of g.runs };

    ghost invariant = { λ g. AreByKey g.runs };
}

impl<'a> Groups<'a> {
    /// The keys, each once.
    pub fn keys(&self) -> &[Key]
        ensures { result.now ≡ self.now.keys }
    {
        &self.runs.keys
    }

    /// References to the events of a key with their places, in order.
    pub fn run(&self, key: &Key) -> &[&'a (Pos, Stored<'a>)]
        ensures { referenced_events result.now ≡ run_of self.now key.now }
    {
        self.runs.run(key)
    }
}

/// Groups events by the key under which a trigger counts them. Only events on the trigger's name
/// are tested; if one number tells the key, events whose number was met lately are not tested
/// either. Refused for memory.
pub fn grouped<'a>(
    alloc: Global,
    trigger: &Trigger,
    events: &'a [(Pos, Stored<'a>)],
    work: &mut Work,
) -> Result<Groups<'a>, AllocError>
    ensures groups { IfOk result (AreGrouped trigger.now (entries_by held events.now)) }
    ensures evals { work.new.evals ≤ work.old.evals + length events.now }
    ensures puts { work.new.puts ≡ work.old.puts }
    ensures grow { StepsGrow work.old work.new }
{
    let finder = KeyFinder::of(trigger);
    let mut runs = Runs::new(alloc, events.len())?;
    let mut met = Recent::new(alloc, events.len())?;
    for event in events {
        add_event(&mut runs, &mut met, &finder, event, work)?;
    }
    Ok(Groups { runs })
}

/// Adds an event to the run of the key that a trigger counts it under, if it counts it. Refused for
/// memory.
fn add_event<'a>(
    runs: &mut Runs<'a>,
    met: &mut Recent,
    finder: &KeyFinder<'_>,
    event: &'a (Pos, Stored<'a>),
    work: &mut Work,
) -> Result<(), AllocError>
    requires by_key { AreByKey runs.old }
    requires met { AreMet finder.now runs.old.keys.items met.old.slots.items }
    requires finds { FindsKeys finder.now }
    ensures by_key { OnOk result (AreByKey runs.new) }
    ensures met { OnOk result (AreMet finder.now runs.new.keys.items met.new.slots.items) }
    ensures adds { OnOk result (Adds (hit finder.now.trigger.now (held event.now.1))
        (event.now.0, held event.now.1) (groups_of runs.old) (groups_of runs.new)) }
    ensures evals { work.new.evals ≤ work.old.evals + 1 }
    ensures puts { work.new.puts ≡ work.old.puts }
    ensures grow { work.old.evals ≤ work.new.evals }
{
    let number = finder.number(&event.1);
    if let Some(index) = met.get(number) {
        return runs.push(index, event);
    }
    let Some(key) = finder.key_of(&event.1, work) else {
        return Ok(());
    };
    let index = runs.add(key, event)?;
    met.note(number, index);
    Ok(())
}
