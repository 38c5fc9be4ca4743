//! One event more or less: what is kept is repaired at one trigger, or at all triggers of an event.

ghost use Rattle.std.specs.Prelude.{◌≡◌, ◌+◌, ◌*◌, ◌≤◌, ◌⊎◌, [], ◌∷◌, Some, Ok, OnOk, option_and_then};
ghost use Rattle.std.specs.FinMap as map;
ghost use Rattle.ft_hist.specs.Steps.{StepsGrow};
ghost use Rattle.ft_hist.specs.Tests.{count_on, tests_taken};
ghost use Rattle.ft_pairs.specs.declared.role.Role.TheVariants.{Plain};
ghost use Rattle.ft_shelves.specs.Counts.{TestsNone};
ghost use Rattle.ft_shelves.specs.Shelves.{FormsStay, role_on};
ghost use Rattle.ft_shelves.specs.declared.sign.Sign.TheVariants.{Retract};
ghost use Rattle.ft_kept.specs.Acts.{Acts};
ghost use Rattle.ft_kept.specs.Bounds.{SaverMoves, SomeSaverMoves, OtherSaversStay};
ghost use Rattle.ft_kept.specs.Changes.{HasToldFew};
ghost use Rattle.ft_kept.specs.Input.{MayApply, MayApplyTo, input_in};
ghost use Rattle.ft_kept.specs.Memory.{ActsPlainly, AllActPlainly};
ghost use Rattle.ft_kept.specs.Signs.{event_after, table_edit, NeedsNoMemory, NeedsNoMemoryAt};
ghost use Rattle.ft_kept.specs.Views.{AreViewsOf, act_under, set, triggers_of, with_event};
ghost use Rattle.ft_kept.specs.inner.Changing.{MayChange, HasChanged, HasToldAct};

use crate::act::{Act, Attached, Delta, Scene};
use crate::changes::{Changes, Whose};
use crate::saver::{change_saving, hit_change};
use crate::settle::change_reading;
use crate::tables::Tables;
use ft_hist::Work;
use ft_pairs::{At, Role};
use std::alloc::AllocError;

impl Tables {
    /// Puts a held event in or takes it away at each trigger that it is a hit of, in order of id, and
    /// records what that changes. Refused for memory, and then the tables are of no use any more.
    pub fn apply(
        &mut self,
        scene: &Scene<'_>,
        delta: &Delta<'_>,
        changes: &mut Changes,
        work: &mut Work,
    ) -> Result<(), AllocError>
        requires { MayApply scene.now delta.now self.old }
        ensures forms { OnOk result (FormsStay self.old self.new) }
        ensures views { OnOk result (AreViewsOf (triggers_of scene.now) scene.now.lanes.now
            (with_event (triggers_of scene.now) (input_in scene.now self.old) delta.now.pos
            (event_after delta.now.sign delta.now.event.now)) self.new) }
        ensures told { OnOk result (HasToldFew (map.entries (triggers_of scene.now))
            changes.old changes.new self.old self.new) }
        ensures evals { work.new.evals
            ≤ work.old.evals + count_on (triggers_of scene.now) delta.now.event.now }
        ensures puts { (work.new.puts
            ≤ work.old.puts + 3 * count_on (triggers_of scene.now) delta.now.event.now)
            ⊎ SomeSaverMoves (table_edit delta.now.sign delta.now.pos delta.now.event.now)
            (triggers_of scene.now) self.old }
        ensures memory { NeedsNoMemory delta.now.sign (triggers_of scene.now) self.old
            delta.now.event.now → result ≡ Ok tt }
        ensures quiet { AllActPlainly (triggers_of scene.now) self.old delta.now.event.now
            → changes.new.readings ≡ changes.old.readings }
        ensures grow { StepsGrow work.old work.new }
    {
        for (id, trigger) in scene.triggers.iter() {
            let attached = Attached { id: *id, trigger };
            self.apply_to(scene, &attached, delta, changes, work)?;
        }
        Ok(())
    }

    /// Does what `apply` does, at one attached trigger.
    pub fn apply_to(
        &mut self,
        scene: &Scene<'_>,
        attached: &Attached<'_>,
        delta: &Delta<'_>,
        changes: &mut Changes,
        work: &mut Work,
    ) -> Result<(), AllocError>
        requires { MayApplyTo scene.now attached.now delta.now self.old }
        ensures forms { OnOk result (FormsStay self.old self.new) }
        ensures savers { OnOk result (OtherSaversStay attached.now.id self.old self.new) }
        ensures views { OnOk result (AreViewsOf (triggers_of scene.now) scene.now.lanes.now
            (set (input_in scene.now self.old) (record { pos = delta.now.pos; trigger = attached.now.id })
            (option_and_then (act_under attached.now.trigger.now)
            (event_after delta.now.sign delta.now.event.now))) self.new) }
        ensures told { OnOk result (HasToldFew ((attached.now.id, attached.now.trigger.now) ∷ [])
            changes.old changes.new self.old self.new) }
        ensures evals { work.new.evals
            ≡ work.old.evals + tests_taken attached.now.trigger.now delta.now.event.now }
        ensures puts { (work.new.puts
            ≤ work.old.puts + 3 * tests_taken attached.now.trigger.now delta.now.event.now)
            ⊎ SaverMoves (table_edit delta.now.sign delta.now.pos delta.now.event.now)
            attached.now.trigger.now self.old attached.now.id }
        ensures memory { NeedsNoMemoryAt delta.now.sign self.old attached.now.id
            attached.now.trigger.now delta.now.event.now → result ≡ Ok tt }
        ensures quiet { ActsPlainly self.old attached.now.id attached.now.trigger.now
            delta.now.event.now → changes.new.readings ≡ changes.old.readings }
        ensures grow { StepsGrow work.old work.new }
    {
        let Some(key) = attached.trigger.key_of(delta.event, work) else {
            return Ok(());
        };
        let act = Act {
            scene: *scene,
            sign: delta.sign,
            trigger: attached.trigger,
            at: At {
                pos: delta.pos,
                trigger: attached.id,
            },
            event: delta.event,
            key,
        };
        change_act(self, &act, changes, work)
    }
}

/// An act of a trigger comes or goes. Refused for memory.
fn change_act(
    tables: &mut Tables,
    act: &Act<'_>,
    changes: &mut Changes,
    work: &mut Work,
) -> Result<(), AllocError>
    ghost acts: { Acts }
    requires { MayChange act.now acts tables.old }
    ensures changed { OnOk result (HasChanged act.now acts tables.old tables.new) }
    ensures told { OnOk result (HasToldAct act.now changes.old changes.new tables.old tables.new) }
    ensures quiet { role_on tables.old act.now.at.trigger ≡ Plain
        → changes.new.readings ≡ changes.old.readings }
    ensures memory { act.now.sign ≡ Retract → role_on tables.old act.now.at.trigger ≡ Plain
        → result ≡ Ok tt }
    ensures puts { (work.new.puts ≤ work.old.puts + 3)
        ⊎ SaverMoves (table_edit act.now.sign act.now.at.pos act.now.event.now) act.now.trigger.now
        tables.old act.now.at.trigger }
    ensures work { TestsNone work.old work.new }
{
    match tables.role(act.at.trigger) {
        Role::Saves => change_saving(tables, act, changes, work),
        Role::Reads(saver) => change_reading(tables, saver, act, changes, work),
        Role::Plain => {
            changes.record_key(Whose::Trigger(act.at.trigger), act.key);
            let change = hit_change(act);
            match tables.shelf_mut(act.at.trigger) {
                Some(shelf) => shelf.change_hit(change, work),
                // Each attached trigger has a shelf.
                None => Ok(()),
            }
        }
    }
}
