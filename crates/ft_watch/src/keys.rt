//! Sets of keys, in order: those of rows that may have changed.

ghost use Rattle.std.specs.Prelude.{◌≡◌, ◌||◌, List, IfOk, OnOk, is_some};
ghost use Rattle.std.specs.FinMap as map;
ghost use Rattle.ft_fields.specs.declared.key.Part.{Part};
ghost use Rattle.ft_fields.specs.Parts.{key_cmp};
ghost use Rattle.ft_maps.specs.Seen.{seen};
ghost use Rattle.ft_changes.specs.Reports.{is_reported};

use ft_desk::Changed;
use ft_fields::Key;
use ft_maps::{entries, put};
use std::alloc::{AllocError, Global};
use std::collections::BTreeMap;

/// Keys, in order, each once.
pub(crate) type KeySet = BTreeMap<Key, ()>;

/// Adds the keys of a trigger's rows among some rows to a set. Refused for memory.
pub(crate) fn add_named(keys: &mut KeySet, rows: &[Changed], id: u32) -> Result<(), AllocError>
    ensures { OnOk result ((key : List Part) → is_some (map.get (seen key_cmp keys.new) key)
        ≡ (is_some (map.get (seen key_cmp keys.old) key) || is_reported rows.now id key)) }
{
    for row in rows {
        if id == row.id {
            put(keys, row.key, ())?;
        }
    }
    Ok(())
}

/// The keys of two maps. Refused for memory.
pub(crate) fn keys_of_both<V>(
    alloc: Global,
    before: &BTreeMap<Key, V>,
    now: &BTreeMap<Key, V>,
) -> Result<KeySet, AllocError>
    ensures { IfOk result (λ keys. (key : List Part) → is_some (map.get (seen key_cmp keys) key)
        ≡ (is_some (map.get (seen key_cmp before.now) key)
        || is_some (map.get (seen key_cmp now.now) key))) }
{
    let mut keys = BTreeMap::new(alloc);
    add_keys(&mut keys, before)?;
    add_keys(&mut keys, now)?;
    Ok(keys)
}

/// Adds the keys of a map to a set. Refused for memory.
fn add_keys<V>(keys: &mut KeySet, rows: &BTreeMap<Key, V>) -> Result<(), AllocError>
    ensures { OnOk result ((key : List Part) → is_some (map.get (seen key_cmp keys.new) key)
        ≡ (is_some (map.get (seen key_cmp keys.old) key)
        || is_some (map.get (seen key_cmp rows.now) key))) }
{
    for (key, _mark) in entries(rows) {
        put(keys, *key, ())?;
    }
    Ok(())
}
