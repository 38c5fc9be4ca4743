//! Readings that come or go, and readings made right: what they had goes, and what they find now
//! comes.

ghost use Rattle.std.specs.Prelude.{◌≡◌, Some, OnOk};
ghost use Rattle.ft_pairs.specs.declared.at.Op.TheVariants.{Read};
ghost use Rattle.ft_pairs.specs.declared.role.Role.TheVariants.{Reads};
ghost use Rattle.ft_shelves.specs.Counts.{TestsNone, PutsAtMost};
ghost use Rattle.ft_shelves.specs.Shelves.{kept_on, role_on};
ghost use Rattle.ft_kept.specs.Acts.{Acts};
ghost use Rattle.ft_kept.specs.Changes.{ChangeUnder};
ghost use Rattle.ft_kept.specs.Views.{triggers_of};
ghost use Rattle.ft_kept.specs.inner.Changing.{MayChange, HasChanged, HasToldAct};
ghost use Rattle.ft_kept.specs.inner.Readings.{AreSettled, CanSettle, IsReadAt, IsReady, IsReread, IsSettled, NextIsSettled};
ghost use Rattle.ft_kept.specs.inner.Telling.{variable_key};

use crate::act::{Act, Scene};
use crate::changes::{Changes, Log, Whose};
use crate::tables::Tables;
use ft_changes::ReadingChange;
use ft_fields::{Event, Pos};
use ft_hist::{Trigger, Work};
use ft_maps::get;
use ft_pairs::{At, Op, Variable};
use ft_shelves::{Shelf, Sign};
use ft_table::{Mark, Spot, hit_with};
use std::alloc::AllocError;

/// A reading of a key comes or goes, and the next one is made right. Refused for memory.
pub(crate) fn change_reading(
    tables: &mut Tables,
    saver: u32,
    act: &Act<'_>,
    changes: &mut Changes,
    work: &mut Work,
) -> Result<(), AllocError>
    ghost acts: { Acts }
    requires may { MayChange act.now acts tables.old }
    requires role { role_on tables.old act.now.at.trigger ≡ Reads saver }
    ensures changed { OnOk result (HasChanged act.now acts tables.old tables.new) }
    ensures told { OnOk result (HasToldAct act.now changes.old changes.new tables.old tables.new) }
    ensures work { PutsAtMost 3 work.old work.new }
{
    changes.record_key(Whose::ReadersOf(saver), act.key);
    let key = act.key;
    let variable = Variable { saver, key };
    let reading = Reading {
        variable,
        at: act.at,
        event: act.event,
        sign: act.sign,
    };
    tables.change_read(&variable, act.at, act.sign, work)?;
    settle(tables, &act.scene, &reading, &mut changes.readings, work)?;
    settle_next(tables, act, &variable, &mut changes.readings, work)
}

/// A reading of a variable at a place, at the event that is held there.
#[derive(Clone, Copy)]
struct Reading<'a> {
    variable: Variable,
    at: At,
    event: &'a Event,
    /// Whether it comes or stays, or goes.
    sign: Sign,
}

/// Makes a reading right. Refused for memory.
fn settle(
    tables: &mut Tables,
    scene: &Scene<'_>,
    reading: &Reading<'_>,
    readings: &mut Log<ReadingChange>,
    work: &mut Work,
) -> Result<(), AllocError>
    requires { IsReady (triggers_of scene.now) reading.now tables.old }
    ensures settled { OnOk result (IsSettled (triggers_of scene.now) reading.now tables.old tables.new) }
    ensures told { OnOk result (ChangeUnder (variable_key reading.now.variable)
        readings.old readings.new tables.old tables.new) }
    ensures work { PutsAtMost 1 work.old work.new }
{
    let at = reading.at;
    let found = tables.finds(&reading.variable, at, reading.sign);
    // Each reader is attached, and has a shelf.
    let Some(trigger) = scene.triggers.get(at.trigger) else {
        return Ok(());
    };
    let Some(shelf) = tables.shelf_mut(at.trigger) else {
        return Ok(());
    };
    readings.add(ReadingChange {
        id: at.trigger,
        pos: at.pos,
        before: get(shelf.readings(), &at.pos).copied(),
        after: found,
    });
    put_found(shelf, trigger, reading, found, work)
}

/// Puts what a reading finds on its trigger's shelf, with its hit. Refused for memory.
fn put_found(
    shelf: &mut Shelf,
    trigger: &Trigger,
    reading: &Reading<'_>,
    found: Option<Pos>,
    work: &mut Work,
) -> Result<(), AllocError>
    requires { reading.now.event.now.stamp ≡ reading.now.at.pos.stamp }
    ensures reread { OnOk result (IsReread reading.now trigger.now found shelf.old shelf.new) }
    ensures work { PutsAtMost 1 work.old work.new }
{
    let spot = Spot::traced(reading.at.pos);
    let key = reading.variable.key;
    shelf.take_hit(Mark { spot, key });
    match found {
        None => Ok(()),
        Some(_) => {
            let hit = hit_with(trigger, reading.event, spot, key, found);
            shelf.put_hit(hit, found, work)
        }
    }
}

/// An operation on a variable.
#[derive(Clone, Copy)]
struct Operation<'a> {
    variable: &'a Variable,
    at: At,
    op: Op,
}

/// Makes the reading of an operation right, if it is a read. Refused for memory.
fn settle_op(
    tables: &mut Tables,
    act: &Act<'_>,
    operation: &Operation<'_>,
    readings: &mut Log<ReadingChange>,
    work: &mut Work,
) -> Result<(), AllocError>
    ghost acts: { Acts }
    requires can { CanSettle act.now.scene acts tables.old }
    requires there { (kept_on tables.old).ops operation.now.variable.now operation.now.at
        ≡ Some operation.now.op }
    ensures settled { OnOk result (AreSettled act.now.scene acts
        (IsReadAt (Some (operation.now.at, operation.now.op))) tables.old tables.new) }
    ensures told { OnOk result (ChangeUnder (variable_key operation.now.variable.now)
        readings.old readings.new tables.old tables.new) }
    ensures work { PutsAtMost 1 work.old work.new }
{
    let at = operation.at;
    match operation.op {
        Op::Save => Ok(()),
        Op::Read => match act.scene.lanes.get(at.pos.cpu, at.pos.line) {
            Some(event) => {
                let reading = Reading {
                    variable: *operation.variable,
                    at,
                    event: &event,
                    sign: Sign::Insert,
                };
                settle(tables, &act.scene, &reading, readings, work)
            }
            // The event of each read is held.
            None => Ok(()),
        },
    }
}

/// Makes the next operation on a variable after an act right, if it is a read. Refused for memory.
pub(crate) fn settle_next(
    tables: &mut Tables,
    act: &Act<'_>,
    variable: &Variable,
    readings: &mut Log<ReadingChange>,
    work: &mut Work,
) -> Result<(), AllocError>
    ghost acts: { Acts }
    requires { CanSettle act.now.scene acts tables.old }
    ensures settled { OnOk result (NextIsSettled act.now.scene acts variable.now act.now.at
        tables.old tables.new) }
    ensures told { OnOk result (ChangeUnder (variable_key variable.now)
        readings.old readings.new tables.old tables.new) }
    ensures work { PutsAtMost 1 work.old work.new }
{
    match tables.next_op(variable, Some(act.at)) {
        Some((at, op)) => {
            let operation = Operation { variable, at, op };
            settle_op(tables, act, &operation, readings, work)
        }
        None => Ok(()),
    }
}

/// Makes each reading of a variable right, by a walk over its operations. Refused for memory.
pub(crate) fn settle_key(
    tables: &mut Tables,
    act: &Act<'_>,
    variable: &Variable,
    readings: &mut Log<ReadingChange>,
    work: &mut Work,
) -> Result<(), AllocError>
    ghost acts: { Acts }
    requires { CanSettle act.now.scene acts tables.old }
    ensures settled { OnOk result (AreSettled act.now.scene acts
        (λ at. (kept_on tables.old).ops variable.now at ≡ Some Read) tables.old tables.new) }
    ensures told { OnOk result (ChangeUnder (variable_key variable.now)
        readings.old readings.new tables.old tables.new) }
    ensures work { TestsNone work.old work.new }
{
    let mut next = tables.next_op(variable, None);
    while let Some((at, op)) = next {
        let operation = Operation { variable, at, op };
        settle_op(tables, act, &operation, readings, work)?;
        next = tables.next_op(variable, Some(at));
    }
    Ok(())
}
