//! Tables of made events, updated from what readings had found to what they find.

ghost use Rattle.std.specs.Prelude.{◌≡◌, ◌+◌, ◌≤◌, ◌==◌, ◌++◌, [], IfSome, Ok, OnOk, OnErr, Some, None};
ghost use Rattle.std.specs.Option.{option_map_or};
ghost use Rattle.ft_hist.specs.Steps.{StepsGrow};
ghost use Rattle.ft_hist.specs.Tests.{tests_taken};
ghost use Rattle.ft_replay.specs.Merged.{merged};
ghost use Rattle.ft_made.specs.MadeTables.{IsFreeAt, with_made, without_made};
ghost use Rattle.ft_made.specs.Updating.{CanUpdate, IsUpdated, keys_of_made, changed_keys, made_as};

use ft_changes::ReadingChange;
use ft_fields::{Event, Pos};
use ft_hist::{Key, Trigger, Triggers, Work};
use ft_lanes::Lanes;
use ft_table::{Spot, Table, hit_with};
use std::alloc::AllocError;

/// A trigger that counts made events, and what these are made of.
#[derive(Clone, Copy)]
pub struct Counting<'a> {
    /// The lanes of held events.
    pub lanes: &'a Lanes,
    /// The attached triggers, which make events of their readings.
    pub triggers: &'a Triggers,
    /// The trigger that counts these.
    pub trigger: &'a Trigger,
}

impl Counting<'_> {
    /// Updates the table of a trigger that counts made events from what readings had found to what
    /// they find, one change after the other: the hit of the event that the reading made is taken
    /// out, and that of the event that it makes now is put in. If there are no changes, it takes
    /// neither memory nor steps. Refused for memory, and then the table must not be used.
    pub fn update_made(
        &self,
        table: &mut Table,
        changes: &[ReadingChange],
        work: &mut Work,
    ) -> Result<(), AllocError>
        requires { CanUpdate self.now.triggers.now (merged self.now.lanes.now) changes.now self.now.trigger.now
            table.old }
        ensures updated { OnOk result (IsUpdated self.now.triggers.now (merged self.now.lanes.now)
            changes.now self.now.trigger.now table.old table.new) }
        ensures idle { changes.now ≡ []
            → (result ≡ Ok tt) × ((table.new ≡ table.old) × (work.new ≡ work.old)) }
        ensures grow { StepsGrow work.old work.new }
    {
        for change in changes {
            let before = self.made_of_change(change, change.before);
            let after = self.made_of_change(change, change.after);
            let spot = Spot {
                pos: change.pos,
                maker: change.id,
            };
            take_made(table, self.trigger, spot, before, work);
            put_made(table, self.trigger, spot, after, work)?;
        }
        Ok(())
    }

    /// Adds the keys under which a trigger counts what changed readings make: of the events that
    /// they made of what they had found, and of those that they make of what they find, one for
    /// each of these that is a hit. Hits under other keys stay when the trigger's table is updated.
    /// Refused for memory.
    pub fn put_changed_keys(
        &self,
        keys: &mut Vec<Key>,
        changes: &[ReadingChange],
        work: &mut Work,
    ) -> Result<(), AllocError>
        ensures keys { OnOk result (keys.new.items ≡ keys.old.items
            ++ changed_keys self.now.triggers.now (merged self.now.lanes.now) self.now.trigger.now changes.now) }
        ensures grow { StepsGrow work.old work.new }
    {
        for change in changes {
            let before = self.made_of_change(change, change.before);
            let after = self.made_of_change(change, change.after);
            put_key(keys, self.trigger, before, work)?;
            put_key(keys, self.trigger, after, work)?;
        }
        Ok(())
    }

    /// The event that a changed reading makes if it finds this saving, or none: it has the place's
    /// stamp. If it finds none, or its trigger has no onmatch part, no event is looked up.
    fn made_of_change(&self, change: &ReadingChange, found: Option<Pos>) -> Option<Event>
        ensures made { result ≡ made_as self.now.triggers.now (merged self.now.lanes.now) change.now found }
        ensures stamped { IfSome result (λ made. change.now.pos.stamp ≡ made.stamp) }
    {
        let maker = self.triggers.get(change.id)?;
        maker.onmatch()?;
        let saved = found?;
        let event = self
            .lanes
            .get(change.pos.cpu, change.pos.line)
            .filter(|event| event.stamp == change.pos.stamp)?;
        maker.made(&event, saved)
    }
}

/// Adds to keys the one under which a trigger counts an event, if one was made and is a hit.
/// Refused for memory.
fn put_key(
    keys: &mut Vec<Key>,
    trigger: &Trigger,
    made: Option<Event>,
    work: &mut Work,
) -> Result<(), AllocError>
    ensures key { OnOk result (keys.new.items ≡ keys.old.items ++ keys_of_made trigger.now made) }
    ensures grow { StepsGrow work.old work.new }
{
    let Some(made) = made else {
        return Ok(());
    };
    if let Some(key) = trigger.key_of(&made, work) {
        keys.push(key)?;
    }
    Ok(())
}

/// Puts the event made at a spot into a trigger's table, if one is made and is a hit of the
/// trigger. The table must have no hit at the spot. Tests the event only if the trigger is on its
/// name. Refused for memory, and then the table is as it was.
pub fn put_made(
    table: &mut Table,
    trigger: &Trigger,
    spot: Spot,
    made: Option<Event>,
    work: &mut Work,
) -> Result<(), AllocError>
    requires stamped { IfSome made (λ made. spot.pos.stamp ≡ made.stamp) }
    requires free { IsFreeAt spot table.old }
    ensures ok { OnOk result (table.new ≡ with_made trigger.now spot made table.old) }
    ensures err { OnErr result (table.new ≡ table.old) }
    ensures evals { work.new.evals ≡ work.old.evals + option_map_or (tests_taken trigger.now) made 0 }
    ensures puts { work.new.puts ≤ work.old.puts + 1 }
    ensures grow { StepsGrow work.old work.new }
{
    let Some(made) = made else {
        return Ok(());
    };
    match trigger.key_of(&made, work) {
        Some(key) => table.insert(hit_with(trigger, &made, spot, key, None), work),
        None => Ok(()),
    }
}

/// Takes the event made at a spot out of a trigger's table, if one was made and is a hit of the
/// trigger. Tests the event only if the trigger is on its name. It needs no memory.
pub fn take_made(
    table: &mut Table,
    trigger: &Trigger,
    spot: Spot,
    made: Option<Event>,
    work: &mut Work,
)
    ensures table { table.new ≡ without_made trigger.now spot made table.old }
    ensures evals { work.new.evals ≡ work.old.evals + option_map_or (tests_taken trigger.now) made 0 }
    ensures puts { work.new.puts ≡ work.old.puts }
    ensures grow { StepsGrow work.old work.new }
{
    let Some(made) = made else {
        return;
    };
    if let Some(key) = trigger.key_of(&made, work) {
        table.remove(spot, key);
    }
}
