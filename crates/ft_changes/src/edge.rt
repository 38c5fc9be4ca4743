//! The rivals of some keys, found near the table's edge, without a walk over its whole order.

ghost use Rattle.std.specs.Prelude.{◌≡◌, IfOk, not, length, take, drop, map as list_map};
ghost use Rattle.std.specs.List.{filter, IsDistinct};
ghost use Rattle.ft_fields.specs.Parts.{same_key};
ghost use Rattle.ft_table.specs.Tabled.{is_before};
ghost use Rattle.ft_changes.specs.Rivals.{is_of, rivals};

use crate::sorted_keys::SortedKeys;
use ft_blocks::Entries;
use ft_fields::Key;
use ft_table::{Mark, Table};
use std::alloc::{AllocError, Global};

/// The rivals of some keys, no two of which are the same: all other keys that may come in or go out
/// as hits of these come and go, at most as many as these. Refused for memory.
pub fn rivals(alloc: Global, table: &Table, keys: &[Key]) -> Result<Vec<Key>, AllocError>
    requires { IsDistinct same_key keys.now }
    ensures { IfOk result (λ found. found.items ≡ rivals table.now keys.now) }
{
    let few = keys.len().min(table.size() as usize);
    match table.mark_near_edge(few) {
        // The table has room, so that no key is near its edge.
        None => Ok(Vec::new(alloc)),
        Some(start) => {
            // Without those of the keys that stand in front of the last places, as many others move
            // up.
            let passed = count_before(table, keys, &start);
            let sorted = SortedKeys::of(alloc, keys)?;
            other_keys(alloc, table.marks_from(&start), &sorted, passed, few)
        }
    }
}

/// How many of some keys have their first hit before a mark.
fn count_before(table: &Table, keys: &[Key], mark: &Mark) -> usize
    ensures { result
        ≡ length (filter (λ key. is_before table.now.hits key mark.now) keys.now) }
{
    keys.iter().filter(|key| table.is_before(key, mark)).count()
}

/// The keys of marks except for some keys: the first `few`, after `passed` that are left out.
fn other_keys(
    alloc: Global,
    marks: Entries<'_, Mark, ()>,
    keys: &SortedKeys,
    passed: usize,
    few: usize,
) -> Result<Vec<Key>, AllocError>
    ensures { IfOk result (λ found. found.items ≡ list_map (λ entry. entry.0.key)
        (take few (drop passed (filter (λ entry. not (is_of keys.now entry.0.key)) marks.entry)))) }
{
    marks
        .filter(|entry| !keys.contains(&entry.0.key))
        .skip(passed)
        .take(few)
        .map(|entry| entry.0.key)
        .collect(alloc)
}
