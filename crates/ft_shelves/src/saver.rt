//! What a saver's shelf keeps: the operations on what it saves follow the keys of its table.

ghost use Rattle.std.specs.Prelude.{◌≡◌, ◌+◌, ◌≤◌, ◌⊎◌, List, false, None, OnOk, IfOk};
ghost use Rattle.ft_fields.specs.declared.pos.Pos.{Pos};
ghost use Rattle.ft_fields.specs.declared.key.Part.{Part};
ghost use Rattle.ft_pairs.specs.ByKey.{ops_of};
ghost use Rattle.ft_table.specs.Tabled.{is_in};
ghost use Rattle.ft_shelves.specs.Changes.{change_mark, on_insert, sign_of, table_with};
ghost use Rattle.ft_shelves.specs.Following.{HitFollows, IsUnsaved, MovesKeys};
ghost use Rattle.ft_shelves.specs.Switches.{HasMoved};
ghost use Rattle.ft_shelves.specs.inner.Following.{OwnChanges, beside, edge_for};
ghost use Rattle.ft_shelves.specs.Counts.{TestsNone, PutsAtMost};

use crate::shelf::Shelf;
use crate::sign::{HitChange, Sign};
use ft_hist::{Key, Work};
use ft_pairs::{At, Op};
use ft_table::{Mark, Table, first_outside, one_key};
use std::alloc::AllocError;

/// Which keys came into a saver's table or went out, as hits of one key changed.
#[derive(Clone, Copy, Debug, PartialEq, Eq)]
pub struct Moved {
    /// Whether the key itself did.
    pub own: bool,
    /// The other key that did, if one did.
    pub other: Option<Key>,
}

/// Changes what a saver counts by one hit: each key's operations follow as it comes into the table,
/// goes out or stays. Returns which keys moved. Refused for memory.
pub fn change_saver_hit(
    shelf: &mut Shelf,
    id: u32,
    change: HitChange,
    work: &mut Work,
) -> Result<Moved, AllocError>
    requires free { IsUnsaved id change shelf.old }
    requires outside { (k : List Part) → is_in shelf.old.table k ≡ false
        → (pos : Pos) → ops_of shelf.old.ops k (record { pos = pos; trigger = id }) ≡ None }
    ensures follows { OnOk result (HitFollows id change shelf.old shelf.new) }
    ensures moved { IfOk result (λ moved. MovesKeys (change_mark change).key moved
        (is_in shelf.old.table) (is_in shelf.new.table)) }
    ensures puts { (work.new.puts ≤ work.old.puts + on_insert (sign_of change) 2)
        ⊎ HasMoved (is_in shelf.old.table) (is_in (table_with change shelf.old.table)) }
    ensures work { TestsNone work.old work.new }
{
    // Beside its own key only the one at the edge can move.
    one_key();
    first_outside();
    let sign = change.sign();
    let key = change.mark().key;
    let was_in = shelf.table().is_in(&key);
    let edge = edge_beside(shelf.table(), &key, sign);
    change_own(shelf, id, change, was_in, work)?;
    let own = shelf.follow_table(id, Some(key), was_in, work)?;
    let other = shelf.follow_table(id, edge, sign.is_insert(), work)?;
    Ok(Moved {
        own: own.is_some(),
        other,
    })
}

/// Changes what a saver counts by one hit, and the hit's own save, if its key was in the table.
/// Refused for memory.
fn change_own(
    shelf: &mut Shelf,
    id: u32,
    change: HitChange,
    was_in: bool,
    work: &mut Work,
) -> Result<(), AllocError>
    requires { IsUnsaved id change shelf.old }
    ensures ok { OnOk result (OwnChanges id change was_in shelf.old shelf.new) }
    ensures work { PutsAtMost (on_insert (sign_of change) 2) work.old work.new }
{
    shelf.change_hit(change, work)?;
    if !was_in {
        return Ok(());
    }
    let Mark { spot, key } = change.mark();
    let pos = spot.pos;
    let at = At { pos, trigger: id };
    shelf.change_op(key, at, Op::Save, change.sign(), work)
}

/// The key at a table's edge that a change may move, if it is another than the hit's own: the last one
/// in as a hit comes, the first one out as one goes.
fn edge_beside(table: &Table, key: &Key, sign: Sign) -> Option<Key>
    ensures { result ≡ beside key.now (edge_for sign table.now) }
{
    let edge = match sign {
        Sign::Insert => table.edge().last_in,
        Sign::Retract => table.edge().first_out,
    };
    edge.filter(|other| other != key)
}
