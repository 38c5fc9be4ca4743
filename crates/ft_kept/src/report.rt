//! The report of an event: the rows that may differ with it and without it.

ghost use Rattle.std.specs.Prelude.{◌≡◌, ◌++◌, IfOk, OnOk};
ghost use Rattle.ft_kept.specs.Changes.{keys_of};
ghost use Rattle.ft_kept.specs.Report.{keys_reported, report_of, rows_at};
ghost use Rattle.ft_kept.specs.Touched.{each_once, with_rivals};

use crate::changes::{KeyChange, Whose};
use crate::tables::Tables;
use ft_changes::{Changed, SortedKeys, rivals};
use ft_fields::Key;
use ft_hist::{Trigger, Triggers};
use ft_table::Table;
use std::alloc::{AllocError, Global};

/// The rows that may differ with an event and without it, if hits may have changed under these
/// keys: those of all attached triggers that count held events, in order of id. It looks at what is
/// kept afterwards. Refused for memory.
#[tactic(auto, unfolding(crate::specs::Report::report_of))]
pub fn changed_rows(
    alloc: Global,
    tables: &Tables,
    triggers: &Triggers,
    changes: &[KeyChange],
) -> Result<Vec<Changed>, AllocError>
    ensures { IfOk result (λ rows. rows.items
        ≡ report_of triggers.now tables.now changes.now) }
{
    let mut rows = Vec::new(alloc);
    for (id, trigger) in triggers.iter() {
        let keys = keys_reported(alloc, tables, changes, *id, trigger)?;
        put_rows(&mut rows, *id, &keys)?;
    }
    Ok(rows)
}

/// The keys of a trigger whose rows may differ: those under which its hits may have changed, and
/// their rivals in its table; none of a trigger that counts made events. Refused for memory.
fn keys_reported(
    alloc: Global,
    tables: &Tables,
    changes: &[KeyChange],
    id: u32,
    trigger: &Trigger,
) -> Result<Vec<Key>, AllocError>
    ensures { IfOk result (λ keys. keys.items
        ≡ keys_reported tables.now changes.now (id, trigger.now)) }
{
    match tables.shelf(id) {
        Some(shelf) if !trigger.counts_made() => {
            let keys = keys_of(alloc, Whose::of(shelf.role(), id), changes)?;
            keys_with_rivals(alloc, shelf.table(), &keys)
        }
        _ => Ok(Vec::new(alloc)),
    }
}

/// The keys that were recorded of some hits, each as often as it was recorded. Refused for memory.
fn keys_of(alloc: Global, whose: Whose, changes: &[KeyChange]) -> Result<Vec<Key>, AllocError>
    ensures { IfOk result (λ keys. keys.items ≡ keys_of whose changes.now) }
{
    changes
        .iter()
        .filter(|change| whose == change.whose)
        .map(|change| change.key)
        .collect(alloc)
}

/// Some keys, each once (the first of equal ones stays), and their rivals in a table. Refused for
/// memory.
pub fn keys_with_rivals(alloc: Global, table: &Table, keys: &[Key]) -> Result<Vec<Key>, AllocError>
    ensures { IfOk result (λ found. found.items ≡ with_rivals table.now keys.now) }
{
    let mut found = each_once(alloc, keys)?;
    let others = rivals(alloc, table, &found)?;
    found.extend_from_slice(&others)?;
    Ok(found)
}

/// Some keys, each once: the first of equal ones stays. Refused for memory.
#[tactic(auto, unfolding(crate::specs::Touched::each_once))]
fn each_once(alloc: Global, keys: &[Key]) -> Result<Vec<Key>, AllocError>
    ensures { IfOk result (λ found. found.items ≡ each_once keys.now) }
{
    let mut met = SortedKeys::new(alloc);
    let mut found = Vec::new(alloc);
    for key in keys {
        if met.insert(*key)? {
            found.push(*key)?;
        }
    }
    Ok(found)
}

/// Adds the rows of some keys of a trigger to others. Refused for memory.
pub fn put_rows(rows: &mut Vec<Changed>, id: u32, keys: &[Key]) -> Result<(), AllocError>
    ensures { OnOk result (rows.new.items ≡ rows.old.items ++ rows_at id keys.now) }
{
    for key in keys {
        rows.push(Changed { id, key: *key })?;
    }
    Ok(())
}
