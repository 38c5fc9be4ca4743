//! A saver's acts that come or go: operations follow the keys of its table, and readings follow them.

ghost use Rattle.std.specs.Prelude.{◌≡◌, ◌+◌, ◌≤◌, ◌⊎◌, OnOk, IfOk};
ghost use Rattle.ft_pairs.specs.declared.role.Role.TheVariants.{Saves};
ghost use Rattle.ft_shelves.specs.Changes.{table_with};
ghost use Rattle.ft_shelves.specs.Counts.{TestsNone};
ghost use Rattle.ft_shelves.specs.Shelves.{role_on};
ghost use Rattle.ft_kept.specs.Acts.{Acts};
ghost use Rattle.ft_kept.specs.Bounds.{TableMoves};
ghost use Rattle.ft_kept.specs.Changes.{HasTold};
ghost use Rattle.ft_kept.specs.inner.Changing.{MayChange, HasChanged, HasToldAct, change_of};
ghost use Rattle.ft_kept.specs.inner.Readings.{CanSettle};
ghost use Rattle.ft_kept.specs.inner.Saving.{HasFollowed, MovedAreSettled, NoneMoved};
ghost use Rattle.ft_kept.specs.inner.Telling.{own_key, moved_keys};

use crate::act::Act;
use crate::changes::{Changes, Whose};
use crate::settle::{settle_key, settle_next};
use crate::tables::Tables;
use ft_hist::Work;
use ft_pairs::Variable;
use ft_shelves::{HitChange, Moved, Sign, change_saver_hit};
use ft_table::{Mark, Spot, hit_with};
use std::alloc::AllocError;

/// A saver's hit comes or goes. Refused for memory.
pub(crate) fn change_saving(
    tables: &mut Tables,
    act: &Act<'_>,
    changes: &mut Changes,
    work: &mut Work,
) -> Result<(), AllocError>
    ghost acts: { Acts }
    requires may { MayChange act.now acts tables.old }
    requires role { role_on tables.old act.now.at.trigger ≡ Saves }
    ensures changed { OnOk result (HasChanged act.now acts tables.old tables.new) }
    ensures told { OnOk result (HasToldAct act.now changes.old changes.new tables.old tables.new) }
    ensures puts { (work.new.puts ≤ work.old.puts + 3)
        ⊎ TableMoves (table_with (change_of act.now)) tables.old act.now.at.trigger }
    ensures work { TestsNone work.old work.new }
{
    // By `match`, since the prover doesn't take `?` on a result that holds a key in a struct.
    match change_shelf(tables, act, changes, work) {
        Ok(moved) => settle_moved(tables, act, moved, changes, work),
        Err(refused) => Err(refused),
    }
}

/// A saver's hit comes to its shelf or goes, and the operations on what it saves follow the keys of
/// its table. Returns which keys moved; their readings are not right yet. Refused for memory.
fn change_shelf(
    tables: &mut Tables,
    act: &Act<'_>,
    changes: &mut Changes,
    work: &mut Work,
) -> Result<Moved, AllocError>
    ghost acts: { Acts }
    requires may { MayChange act.now acts tables.old }
    requires role { role_on tables.old act.now.at.trigger ≡ Saves }
    ensures followed { IfOk result (λ moved. HasFollowed act.now acts moved tables.old tables.new) }
    ensures told { IfOk result (λ moved. HasTold (own_key act.now.at.trigger act.now.key)
        changes.old changes.new tables.old tables.new) }
    ensures moves { IfOk result (λ moved. NoneMoved moved
        ⊎ TableMoves (table_with (change_of act.now)) tables.old act.now.at.trigger) }
    ensures puts { (work.new.puts ≤ work.old.puts + 2)
        ⊎ TableMoves (table_with (change_of act.now)) tables.old act.now.at.trigger }
    ensures work { TestsNone work.old work.new }
{
    changes.record_key(Whose::Trigger(act.at.trigger), act.key);
    let change = hit_change(act);
    match tables.shelf_mut(act.at.trigger) {
        Some(shelf) => change_saver_hit(shelf, act.at.trigger, change, work),
        // Each saver has a shelf.
        None => Ok(Moved {
            own: false,
            other: None,
        }),
    }
}

/// An act that reads nothing, as a change of hits. Values are worked out only if it comes.
pub(crate) fn hit_change(act: &Act<'_>) -> HitChange
    requires stamped { act.now.event.now.stamp ≡ act.now.at.pos.stamp }
    ensures { result ≡ change_of act.now }
{
    let spot = Spot::traced(act.at.pos);
    match act.sign {
        Sign::Insert => { HitChange::Insert(hit_with(act.trigger, act.event, spot, act.key, None)) }
        Sign::Retract => HitChange::Retract(Mark { spot, key: act.key }),
    }
}

/// Makes the readings right that a change of a saver's hits may have made wrong: those of the keys
/// that moved, and the next one of its own key if that didn't move. Refused for memory.
fn settle_moved(
    tables: &mut Tables,
    act: &Act<'_>,
    moved: Moved,
    changes: &mut Changes,
    work: &mut Work,
) -> Result<(), AllocError>
    ghost acts: { Acts }
    requires { CanSettle act.now.scene acts tables.old }
    ensures settled { OnOk result (MovedAreSettled act.now acts moved tables.old tables.new) }
    ensures told { OnOk result (HasTold (moved_keys act.now.at.trigger act.now.key moved)
        changes.old changes.new tables.old tables.new) }
    ensures puts { NoneMoved moved → work.new.puts ≤ work.old.puts + 1 }
    ensures work { TestsNone work.old work.new }
{
    let saver = act.at.trigger;
    if let Some(key) = moved.other {
        changes.record_key(Whose::ReadersOf(saver), key);
        let variable = Variable { saver, key };
        settle_key(tables, act, &variable, &mut changes.readings, work)?;
    }
    changes.record_key(Whose::ReadersOf(saver), act.key);
    let key = act.key;
    let variable = Variable { saver, key };
    if moved.own {
        settle_key(tables, act, &variable, &mut changes.readings, work)
    } else {
        settle_next(tables, act, &variable, &mut changes.readings, work)
    }
}
