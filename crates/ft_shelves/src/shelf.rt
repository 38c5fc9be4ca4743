//! Shelves: what is kept of one attached trigger.

ghost use Rattle.std.specs.Prelude.{◌≡◌, ◌<◌, List, false, true, Some, None, Ok, OnOk, IfOk, if◌then◌else◌};
ghost use Rattle.std.specs.FinMap as map;
ghost use Rattle.ft_fields.specs.Places.{pos_cmp};
ghost use Rattle.ft_fields.specs.declared.pos.Pos.{Pos};
ghost use Rattle.ft_fields.specs.declared.key.Part.{Part};
ghost use Rattle.ft_maps.specs.Seen.{seen};
ghost use Rattle.ft_pairs.specs.ByKey.{ChangesKey, ops_of};
ghost use Rattle.ft_pairs.specs.declared.at.At.{At};
ghost use Rattle.ft_pairs.specs.declared.role.Role.TheVariants.{Saves};
ghost use Rattle.ft_shelves.specs.Changes.{PlaceIsFree, is_insert, on_insert, op_after, set_op, sign_of, with_change};
ghost use Rattle.ft_shelves.specs.declared.sign.Sign.TheVariants.{Retract};
ghost use Rattle.ft_shelves.specs.Shelves.{IsNewShelf};
ghost use Rattle.ft_shelves.specs.Edits.{OpsChange, with_hit_on, without_hit_on};
ghost use Rattle.ft_shelves.specs.Joining.{AreGroupsOf, HasJoined, HasRead};
ghost use Rattle.ft_shelves.specs.inner.Joining.{found_last};
ghost use Rattle.ft_shelves.specs.Following.{with_saves};
ghost use Rattle.ft_shelves.specs.inner.Following.{FollowsTable, has_moved, with_save};
ghost use Rattle.ft_shelves.specs.Counts.{TestsNone, PutsAtMost, PutsExactly};

use crate::joining::{Joining, put_groups, read_groups, save_groups};
use crate::sign::{HitChange, Sign};
use ft_fields::Pos;
use ft_hist::{Key, Work};
use ft_maps::{put, take};
use ft_pairs::{At, Op, Pairs, Role};
use ft_table::{Hit, Mark, Spot, Table};
use std::alloc::{AllocError, Global};
use std::collections::BTreeMap;
use std::marker::Model;
use std::mem;

/// What is kept of one attached trigger: what it does with its variable, its hits, the operations
/// on what it saves, and what its readings found.
///
/// Contracts see a record of the same fields.
#[derive(Drop)]
pub struct Shelf {
    role: Role,
    table: Table,
    pairs: Pairs,
    readings: BTreeMap<Pos, Pos>,
}

impl Model for Shelf {
    ghost use Rattle.ft_fields.specs.Places.{pos_cmp};
    ghost use Rattle.ft_maps.specs.Seen.{seen};
    ghost use Rattle.ft_shelves.specs.Shelves.{Shelved, shelved_code};

    ghost Value = { Shelved };

    ghost coded = { shelved_code };

    ghost view = { λ s. record {
      role = s.role;
      table = s.table;
      ops = s.pairs;
      readings = seen pos_cmp s.readings;
    } };
}

impl Shelf {
    /// A shelf without hits, with room for at least one key. It takes no memory.
    pub fn new(alloc: Global, role: Role, size: u32) -> Shelf
        requires { 0 < size }
        ensures { IsNewShelf role size result }
    {
        Shelf {
            role,
            table: Table::new(alloc, size),
            pairs: Pairs::new(alloc),
            readings: BTreeMap::new(alloc),
        }
    }

    /// What the trigger does with its variable.
    pub fn role(&self) -> Role
        ensures { result ≡ self.now.role }
    {
        self.role
    }

    /// Its hits.
    pub fn table(&self) -> &Table
        ensures { result.now ≡ self.now.table }
    {
        &self.table
    }

    /// What its readings found: the place of the saving, by the place of the reading.
    pub fn readings(&self) -> &BTreeMap<Pos, Pos>
        ensures { seen pos_cmp result.now ≡ self.now.readings }
    {
        &self.readings
    }

    /// The operations on what it saves.
    pub fn ops(&self) -> &Pairs
        ensures { result.now ≡ self.now.ops }
    {
        &self.pairs
    }

    /// Puts a hit where none stands, and what it read, if it read. Refused for memory.
    pub fn put_hit(
        &mut self,
        hit: Hit,
        read: Option<Pos>,
        work: &mut Work,
    ) -> Result<(), AllocError>
        requires { map.get self.old.table.hits (record { spot = hit.spot; key = hit.key }) ≡ None }
        ensures ok { OnOk result (self.new
            ≡ with_hit_on (record { spot = hit.spot; key = hit.key }) hit.values read self.old) }
        ensures work { PutsAtMost 1 work.old work.new }
    {
        if let Some(saved) = read {
            put(&mut self.readings, hit.spot.pos, saved)?;
        }
        self.table.insert(hit, work)
    }

    /// Takes what stands at a mark: the hit, and what the reading at its place found.
    pub fn take_hit(&mut self, mark: Mark)
        ensures { self.new ≡ without_hit_on mark self.old }
    {
        self.table.remove(mark.spot, mark.key);
        take(&mut self.readings, &mark.spot.pos);
    }

    /// Puts a hit that read nothing where none stands, or takes what stands at a mark. Refused for
    /// memory; taking needs none.
    pub fn change_hit(&mut self, change: HitChange, work: &mut Work) -> Result<(), AllocError>
        requires { PlaceIsFree change self.old.table.hits }
        ensures ok { OnOk result (self.new ≡ with_change change self.old) }
        ensures memory { sign_of change ≡ Retract → result ≡ Ok tt }
        ensures work { PutsAtMost (on_insert (sign_of change) 1) work.old work.new }
    {
        match change {
            HitChange::Insert(hit) => self.put_hit(hit, None, work),
            HitChange::Retract(mark) => {
                self.take_hit(mark);
                Ok(())
            }
        }
    }

    /// Puts an operation of a key at a place where none stands, or takes away the one there.
    /// Refused for memory; taking needs none.
    pub fn change_op(
        &mut self,
        key: Key,
        at: At,
        op: Op,
        sign: Sign,
        work: &mut Work,
    ) -> Result<(), AllocError>
        requires { is_insert sign ≡ true → ops_of self.old.ops key at ≡ None }
        ensures ok { OnOk result (OpsChange key (set_op at (op_after sign op)) self.old self.new) }
        ensures memory { sign ≡ Retract → result ≡ Ok tt }
        ensures work { PutsExactly (on_insert sign 1) work.old work.new }
    {
        match sign {
            Sign::Insert => self.pairs.insert(key, at, op, work),
            Sign::Retract => {
                self.pairs.remove(&key, at);
                Ok(())
            }
        }
    }

    /// Puts the hits of all groups of a trigger that joins, which has none yet, and for a saver,
    /// which has no operations yet, a save at each event whose key is in its table. Refused for
    /// memory.
    pub fn join(&mut self, joining: &Joining<'_, '_>, work: &mut Work) -> Result<(), AllocError>
        requires empty { self.old.table.hits ≡ map.empty }
        requires free { self.old.role ≡ Saves → (key : List Part) (at : At)
            → ops_of self.old.ops key at ≡ None }
        requires grouped { AreGroupsOf joining.now.trigger.now joining.now.groups.now }
        ensures ok { OnOk result (HasJoined joining.now.id joining.now.trigger.now
            joining.now.groups.now self.old self.new) }
        ensures work { TestsNone work.old work.new }
    {
        put_groups(&mut self.table, joining, work)?;
        match self.role {
            Role::Saves => save_groups(&mut self.pairs, &self.table, joining, work),
            Role::Plain | Role::Reads(_) => Ok(()),
        }
    }

    /// Lets the operations of a key of this saver follow its table, if a key is given; `was_in`
    /// says whether it was in the table. If it comes in, its hits of the trace's events save; if it
    /// goes out, none does. Returns the key, if it came in or went out. Refused for memory.
    pub(crate) fn follow_table(
        &mut self,
        id: u32,
        key: Option<Key>,
        was_in: bool,
        work: &mut Work,
    ) -> Result<Option<Key>, AllocError>
        requires { (k : List Part) → key ≡ Some k → was_in ≡ false → (pos : Pos)
            → ops_of self.old.ops k (record { pos = pos; trigger = id }) ≡ None }
        ensures ok { OnOk result (FollowsTable id key was_in self.old self.new) }
        ensures moved { IfOk result (λ moved.
            moved ≡ (if has_moved was_in self.old.table key then key else None)) }
        ensures puts { has_moved was_in self.old.table key ≡ false
            → work.new.puts ≡ work.old.puts }
        ensures work { TestsNone work.old work.new }
    {
        let Some(moved) = key else {
            return Ok(None);
        };
        let is_in = self.table.is_in(&moved);
        if is_in == was_in {
            return Ok(None);
        }
        if is_in {
            self.put_saves(id, moved, work)?;
            return Ok(key);
        }
        self.pairs.remove_key(&moved);
        Ok(key)
    }

    /// Puts a save at each of a key's hits that is of an event of the trace. Refused for memory.
    fn put_saves(&mut self, id: u32, key: Key, work: &mut Work) -> Result<(), AllocError>
        requires { (pos : Pos)
            → ops_of self.old.ops key (record { pos = pos; trigger = id }) ≡ None }
        ensures ok { OnOk result (OpsChange key
            (with_saves self.old.table.hits id key) self.old self.new) }
        ensures work { TestsNone work.old work.new }
    {
        let mut next = self.table.hit_after(&key, None);
        while let Some(hit) = next {
            put_save(&mut self.pairs, id, key, hit.spot, work)?;
            next = self.table.hit_after(&key, Some(hit.spot));
        }
        Ok(())
    }

    /// Puts the reads of all groups of a reader that joins among the operations on what it reads.
    /// The hits of those that find something are put on this shelf, the reader's own, which has
    /// none, with what they found. Refused for memory.
    pub fn join_reading(
        &mut self,
        ops: &mut Pairs,
        joining: &Joining<'_, '_>,
        work: &mut Work,
    ) -> Result<(), AllocError>
        requires empty { self.old.table.hits ≡ map.empty }
        requires grouped { AreGroupsOf joining.now.trigger.now joining.now.groups.now }
        ensures ok { OnOk result (HasRead joining.now.id joining.now.trigger.now
            joining.now.groups.now ops.old ops.new self.old self.new) }
        ensures work { TestsNone work.old work.new }
    {
        let readings = read_groups(ops, &mut self.table, joining, work)?;
        self.readings = by_place(joining.alloc, readings)?;
        Ok(())
    }

    /// Has these operations from now on, and returns those that it had.
    pub fn swap_ops(&mut self, ops: Pairs) -> Pairs
        ensures had { result ≡ self.old.ops }
        ensures has { self.new ≡ record self.old { ops = ops } }
    {
        mem::replace(&mut self.pairs, ops)
    }
}

/// Puts a save of a saver at a hit of a key, where none stands yet, if the hit is of an event of
/// the trace; no other hit saves. Refused for memory.
fn put_save(
    pairs: &mut Pairs,
    id: u32,
    key: Key,
    spot: Spot,
    work: &mut Work,
) -> Result<(), AllocError>
    requires { spot.maker ≡ 0 → ops_of pairs.old key (record { pos = spot.pos; trigger = id }) ≡ None }
    ensures ok { OnOk result (ChangesKey key (with_save id spot) pairs.old pairs.new) }
    ensures work { TestsNone work.old work.new }
{
    if spot.maker != 0 {
        return Ok(());
    }
    let pos = spot.pos;
    pairs.insert(key, At { pos, trigger: id }, Op::Save, work)
}

/// The map of these readings, by place: of those at one place the last. Refused for memory.
fn by_place(alloc: Global, readings: Vec<(Pos, Pos)>) -> Result<BTreeMap<Pos, Pos>, AllocError>
    ensures { IfOk result (λ m. (pos : Pos)
        → map.get (seen pos_cmp m) pos ≡ found_last readings.items pos) }
{
    readings.into_iter().collect(alloc)
}
