//! One event at one attached trigger: what it adds to counters and does to variables.

ghost use Rattle.std.specs.Prelude.{◌≡◌, None, if◌then◌else◌, OnOk};
ghost use Rattle.std.specs.Ordering.{nat_cmp};
ghost use Rattle.std.specs.FinMap as map;
ghost use Rattle.ft_fields.specs.declared.pos.Pos.{Pos};
ghost use Rattle.ft_maps.specs.Seen.{seen};
ghost use Rattle.ft_table.specs.Spots.{traced};
ghost use Rattle.ft_table.specs.Tabled.{is_in};
ghost use Rattle.ft_hist.specs.Steps.{StepsGrow};
ghost use Rattle.ft_table.specs.Values.{values_at};
ghost use Rattle.ft_replay.specs.inner.Replaying.{after_hit, after_act, IsFree};
ghost use Rattle.ft_pairs.specs.Variables.{variable_cmp};

use crate::counter::Counter;
use ft_fields::{Event, Pos};
use ft_hist::{Key, Trigger, Work};
use ft_maps::{get, put, take};
use ft_pairs::{At, Role, Variable};
use ft_table::{Hit, Spot, hit_with};
use std::alloc::AllocError;
use std::collections::BTreeMap;

/// One event at one attached trigger.
#[derive(Clone, Copy)]
pub(crate) struct Act<'a> {
    /// The trigger.
    pub(crate) trigger: &'a Trigger,
    /// The event.
    pub(crate) event: &'a Event,
    /// The event's place and the trigger's id.
    pub(crate) at: At,
}

impl<'a> Act<'a> {
    /// Counts the event if it is a hit. The trigger's counter has no hit there yet. Refused for memory.
    pub(crate) fn replay(
        &self,
        counters: &mut BTreeMap<u32, Counter>,
        saved: &mut BTreeMap<Variable, Pos>,
        work: &mut Work,
    ) -> Result<(), AllocError>
        requires stamped { self.now.at.pos.stamp ≡ self.now.event.now.stamp }
        requires free { IsFree self.now.at (seen nat_cmp counters.old) }
        ensures acts { OnOk result ((seen nat_cmp counters.new, seen variable_cmp saved.new)
            ≡ after_act self.now.trigger.now self.now.event.now self.now.at
            (seen nat_cmp counters.old, seen variable_cmp saved.old)) }
        ensures grow { StepsGrow work.old work.new }
    {
        let Some(key) = self.trigger.hit_of(self.event, work) else {
            return Ok(());
        };
        match counters.get_mut(&self.at.trigger) {
            Some(counter) => self.count(key, counter, saved, work),
            // Each attached trigger has a counter.
            None => Ok(()),
        }
    }

    /// Counts a hit of a key, in the trigger's counter and on the variables. Refused for memory.
    fn count(
        &self,
        key: Key,
        counter: &mut Counter,
        saved: &mut BTreeMap<Variable, Pos>,
        work: &mut Work,
    ) -> Result<(), AllocError>
        requires stamped { self.now.at.pos.stamp ≡ self.now.event.now.stamp }
        requires free { map.get counter.old.table.hits
            (record { spot = traced self.now.at.pos; key = key }) ≡ None }
        ensures acts { OnOk result ((counter.new, seen variable_cmp saved.new)
            ≡ after_hit (values_at self.now.trigger.now self.now.at.pos self.now.event.now)
            counter.old.role self.now.at key (counter.old, seen variable_cmp saved.old)) }
        ensures grow { StepsGrow work.old work.new }
    {
        match counter.role() {
            Role::Plain => counter.add(self.hit(key, None), None, work),
            Role::Saves => {
                counter.add(self.hit(key, None), None, work)?;
                save(counter, self.at, key, saved)
            }
            Role::Reads(saver) => {
                let Some(place) = take_saved(saved, Variable { saver, key }) else {
                    return Ok(());
                };
                counter.add(self.hit(key, Some(place)), Some(place), work)
            }
        }
    }

    /// The hit of a key, with its values: it read what was saved at the place `read`, or nothing.
    fn hit(&self, key: Key, read: Option<Pos>) -> Hit
        requires { self.now.at.pos.stamp ≡ self.now.event.now.stamp }
        ensures { result ≡ record {
          spot = traced self.now.at.pos;
          key = key;
          values = values_at self.now.trigger.now self.now.at.pos self.now.event.now read;
        } }
    {
        hit_with(
            self.trigger,
            self.event,
            Spot::traced(self.at.pos),
            key,
            read,
        )
    }
}

/// Sets the variable of a saver's hit that is in its counter, if the key is in the table. Refused for
/// memory.
fn save(
    counter: &Counter,
    at: At,
    key: Key,
    saved: &mut BTreeMap<Variable, Pos>,
) -> Result<(), AllocError>
    ensures { OnOk result (seen variable_cmp saved.new
        ≡ (if is_in counter.now.table key
        then map.insert (seen variable_cmp saved.old) (record { saver = at.trigger; key = key }) at.pos
        else seen variable_cmp saved.old)) }
{
    if counter.table().is_in(&key) {
        let variable = Variable {
            saver: at.trigger,
            key,
        };
        return put(saved, variable, at.pos);
    }
    Ok(())
}

/// Takes what a variable is set to, and unsets it.
fn take_saved(saved: &mut BTreeMap<Variable, Pos>, variable: Variable) -> Option<Pos>
    ensures value { result ≡ map.get (seen variable_cmp saved.old) variable }
    ensures unset { seen variable_cmp saved.new
        ≡ map.remove (seen variable_cmp saved.old) variable }
{
    let place = get(saved, &variable).copied();
    take(saved, &variable);
    place
}
