//! All acts of a trigger that joins come at once: its events are grouped by key, so that each key's
//! part is made as a whole.

ghost use Rattle.std.specs.Prelude.{◌≡◌, ℕ, List, OnOk, IsTrue, is_some, true};
ghost use Rattle.std.specs.FinMap as map;
ghost use Rattle.ft_fields.specs.declared.key.Part.{Part};
ghost use Rattle.ft_hist.specs.Steps.{StepsGrow};
ghost use Rattle.ft_pairs.specs.ByKey.{ops_of};
ghost use Rattle.ft_pairs.specs.declared.at.At.{At};
ghost use Rattle.ft_pairs.specs.declared.role.Role.TheVariants.{Reads};
ghost use Rattle.ft_shelves.specs.Counts.{TestsNone};
ghost use Rattle.ft_shelves.specs.Shelves.{ChangesShelf, kept_on, role_on};
ghost use Rattle.ft_kept.specs.AtOnce.{HasAllActs, IsBare, MayJoin};
ghost use Rattle.ft_kept.specs.inner.Joining.{HasOps};

use crate::tables::Tables;
use ft_hist::Work;
use ft_maps::entries;
use ft_pairs::{Pairs, Role};
use ft_shelves::Joining;
use std::alloc::AllocError;

impl Tables {
    /// Whether nothing is kept yet of a trigger, and no other trigger reads what it reads, so that
    /// all its acts can come at once.
    pub fn is_bare(&self, id: u32) -> bool
        ensures { IsTrue result → IsBare id self.now }
    {
        let Some(shelf) = self.shelf(id) else {
            return true;
        };
        shelf.table().is_empty()
            && match shelf.role() {
                Role::Plain => true,
                Role::Saves => shelf.ops().is_empty(),
                Role::Reads(saver) => self.is_only_reader(id, saver),
            }
    }

    /// All events that a trigger counts, grouped by key, come to it at once. Refused for memory, and
    /// then the tables are of no use any more.
    pub fn join(&mut self, joining: &Joining<'_, '_>, work: &mut Work) -> Result<(), AllocError>
        requires { MayJoin joining.now self.old }
        ensures joined { OnOk result (HasAllActs joining.now self.old self.new) }
        ensures evals { work.new.evals ≡ work.old.evals }
        ensures grow { StepsGrow work.old work.new }
    {
        match self.role(joining.id) {
            Role::Reads(saver) => readings_come(self, joining, saver, work),
            Role::Plain | Role::Saves => match self.shelf_mut(joining.id) {
                Some(shelf) => shelf.join(joining, work),
                // Each attached trigger has a shelf.
                None => Ok(()),
            },
        }
    }

    /// Gives a saver's shelf other operations, and returns those that it had.
    fn swap_ops(&mut self, saver: u32, ops: Pairs) -> Pairs
        ensures swapped { ChangesShelf saver (HasOps ops) self.old self.new }
        ensures had { is_some (map.get self.old saver) ≡ true → (key : List Part) (at : At)
            → ops_of result key at ≡ (kept_on self.old).ops (record { saver = saver; key = key }) at }
    {
        match self.shelf_mut(saver) {
            Some(shelf) => shelf.swap_ops(ops),
            None => ops,
        }
    }

    /// Whether no other trigger reads what a saver saves.
    fn is_only_reader(&self, id: u32, saver: u32) -> bool
        ensures { IsTrue result → (other : ℕ) → role_on self.now other ≡ Reads saver → other ≡ id }
    {
        for (other, shelf) in entries(&self.shelves) {
            if *other != id && shelf.role() == Role::Reads(saver) {
                return false;
            }
        }
        true
    }
}

/// All readings of a reader come. Refused for memory.
fn readings_come(
    tables: &mut Tables,
    joining: &Joining<'_, '_>,
    saver: u32,
    work: &mut Work,
) -> Result<(), AllocError>
    requires role { role_on tables.old joining.now.id ≡ Reads saver }
    requires joins { MayJoin joining.now tables.old }
    ensures joined { OnOk result (HasAllActs joining.now tables.old tables.new) }
    ensures work { TestsNone work.old work.new }
{
    // Two shelves change together, so the operations are taken off one of them.
    let mut ops = tables.swap_ops(saver, Pairs::new(joining.alloc));
    match tables.shelf_mut(joining.id) {
        Some(shelf) => shelf.join_reading(&mut ops, joining, work)?,
        // Each attached trigger has a shelf.
        None => return Ok(()),
    }
    tables.swap_ops(saver, ops);
    Ok(())
}
