//! Tables: the shelves of all attached triggers.

ghost use Rattle.std.specs.Prelude.{◌≡◌, ◌<◌, OnOk, OnErr, OnSome, IfSome, Some, None, true};
ghost use Rattle.std.specs.Borrow.{LendsSo, sem};
ghost use Rattle.std.specs.FinMap as map;
ghost use Rattle.std.specs.Option.{option_copied, option_copied_mut};
ghost use Rattle.ft_pairs.specs.Next.{IsNext};
ghost use Rattle.ft_pairs.specs.declared.at.Op.TheVariants.{Read};
ghost use Rattle.ft_shelves.specs.Changes.{is_insert, op_after, set_op};
ghost use Rattle.ft_shelves.specs.Counts.{PutsAtMost};
ghost use Rattle.ft_shelves.specs.Edits.{OpsChange};
ghost use Rattle.ft_shelves.specs.Shelves.{AddsShelf, ChangesShelf, role_on, kept_on};
ghost use Rattle.ft_shelves.specs.contracts.shelf.Shelf as shelf;
ghost use Rattle.ft_kept.specs.Signs.{FindsBy};
ghost use Rattle.ft_kept.specs.contracts.tables.Tables.{the_row};
ghost use Rattle.ft_kept.specs.inner.Edits.{left_on};

use ft_fields::Pos;
use ft_hist::Work;
use ft_maps::{get, put, take};
use ft_pairs::{At, Op, Role, Variable};
use ft_shelves::{Shelf, Sign};
use std::alloc::{AllocError, Global};
use std::collections::BTreeMap;
use std::marker::Model;

/// What is kept of all attached triggers, by their ids.
///
/// Contracts see a finite map of shelves.
#[derive(Drop)]
pub struct Tables {
    pub(crate) alloc: Global,
    pub(crate) shelves: BTreeMap<u32, Shelf>,
}

impl Model for Tables {
    ghost use Rattle.std.specs.Ordering.{nat_cmp};
    ghost use Rattle.ft_maps.specs.Seen.{seen};
    ghost use Rattle.ft_kept.specs.Codes.{shelves_code};
    ghost use Rattle.ft_shelves.specs.Shelves.{Shelves};

    ghost Value = { Shelves };

    ghost coded = { shelves_code };

    ghost view = { λ t. seen nat_cmp t.shelves };
}

impl Tables {
    /// No shelves. It takes no memory.
    pub fn new(alloc: Global) -> Tables
        ensures { result ≡ map.empty }
    {
        Tables {
            alloc,
            shelves: BTreeMap::new(alloc),
        }
    }

    /// The allocator of the shelves.
    pub fn alloc(&self) -> Global {
        self.alloc
    }

    /// Gives a trigger a shelf without hits, in place of any that it has. Refused for memory, and
    /// then all is as it was.
    pub fn add(&mut self, id: u32, role: Role, size: u32) -> Result<(), AllocError>
        requires { 0 < size }
        ensures ok { OnOk result (AddsShelf id role size self.old self.new) }
        ensures err { OnErr result (self.new ≡ self.old) }
    {
        put(&mut self.shelves, id, Shelf::new(self.alloc, role, size))
    }

    /// Takes the shelf of a trigger away, if it has one. Takes no memory.
    pub fn drop_shelf(&mut self, id: u32)
        ensures { self.new ≡ map.remove self.old id }
    {
        take(&mut self.shelves, &id);
    }

    /// The shelf of a trigger.
    pub fn shelf(&self, id: u32) -> Option<&Shelf>
        ensures { option_copied result ≡ map.get self.now id }
    {
        get(&self.shelves, &id)
    }

    /// The shelf of a trigger, to be changed in its place.
    pub(crate) fn shelf_mut(&mut self, id: u32) -> Option<&mut Shelf>
        ensures* writes_back { sem 𝓛 (LendsSo the_row shelf.the_row self.entry result
            (λ n w. OnSome result (n ≡ map.insert self.old id w)) (λ n. n ≡ self.old)) }
        ensures value { option_copied_mut result ≡ map.get self.old id }
    {
        self.shelves.get_mut(&id)
    }

    /// What a trigger does with its variable; one without a shelf has none.
    pub(crate) fn role(&self, id: u32) -> Role
        ensures { result ≡ role_on self.now id }
    {
        match self.shelf(id) {
            Some(shelf) => shelf.role(),
            None => Role::Plain,
        }
    }

    /// The place of the saving that a reading finds at a place; one that goes finds none.
    pub(crate) fn finds(&self, variable: &Variable, at: At, sign: Sign) -> Option<Pos>
        ensures { FindsBy sign ((kept_on self.now).ops variable.now) at result }
    {
        match (sign, self.shelf(variable.saver)) {
            (Sign::Insert, Some(shelf)) => shelf
                .ops()
                .source(&variable.key, at)
                .map(|saved| saved.pos),
            (Sign::Insert, None) | (Sign::Retract, _) => None,
        }
    }

    /// The first operation on a variable after a place, or the first of all.
    pub(crate) fn next_op(&self, variable: &Variable, after: Option<At>) -> Option<(At, Op)>
        ensures next { IsNext ((kept_on self.now).ops variable.now) after result }
        ensures fewer { IfSome result (λ next.
            left_on self.now variable.now (Some next.0) < left_on self.now variable.now after) }
    {
        match self.shelf(variable.saver) {
            Some(shelf) => shelf.ops().next_op(&variable.key, after),
            None => None,
        }
    }

    /// Puts a read of a variable at a place, or takes the operation there away. Refused for memory.
    pub(crate) fn change_read(
        &mut self,
        variable: &Variable,
        at: At,
        sign: Sign,
        work: &mut Work,
    ) -> Result<(), AllocError>
        requires { is_insert sign ≡ true → (kept_on self.old).ops variable.now at ≡ None }
        ensures ok { OnOk result (ChangesShelf variable.now.saver
            (OpsChange variable.now.key (set_op at (op_after sign Read))) self.old self.new) }
        ensures work { PutsAtMost 1 work.old work.new }
    {
        match self.shelf_mut(variable.saver) {
            Some(shelf) => shelf.change_op(variable.key, at, Op::Read, sign, work),
            // A variable whose saver has no shelf has no operations.
            None => Ok(()),
        }
    }
}
