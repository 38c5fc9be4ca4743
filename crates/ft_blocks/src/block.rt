//! A block: sorted entries in one vector.

ghost use Rattle.std.specs.Prelude.{◌≡◌, ◌<◌, ◌≤◌, ◌++◌, [], ◌∷◌, drop, length, vec_len, OnOk, OnErr};
ghost use Rattle.std.specs.Vec.{vec_capacity};
ghost use Rattle.std.specs.List.{remove};
ghost use Rattle.std.specs.Option.{option_copied};
ghost use Rattle.std.specs.FinMap.{put, find};
ghost use Rattle.ft_blocks.specs.Sorted.{Ascend, IsCut, from_key, ties_first, without, last_below, first_above, first_entry};

use std::alloc::AllocError;

/// How many entries stand before a key.
pub(crate) fn cut_of<K: Ord, V>(block: &[(K, V)], key: &K) -> usize
    requires { Ascend K.cmp block.now }
    ensures { IsCut K.cmp block.now key.now result }
{
    if let Some(last) = block.last() {
        if last.0.cmp(key).is_lt() {
            return block.len();
        }
    }
    let mut low = 0;
    let mut high = block.len();
    while low < high {
        let mid = low + (high - low) / 2;
        if block[mid].0.cmp(key).is_lt() {
            low = mid + 1;
        } else {
            high = mid;
        }
    }
    low
}

/// Whether the entry at a place has a key.
fn has_key<K: Ord, V>(block: &[(K, V)], place: usize, key: &K) -> bool
    ensures { result ≡ ties_first K.cmp key.now (drop place block.now) }
{
    place < block.len() && key.cmp(&block[place].0).is_eq()
}

/// Puts a value at a key, in place of what the key had. Refused for memory, and then the block is as
/// it was.
pub(crate) fn put_in<K: Ord + Drop, V: Drop>(
    block: &mut Vec<(K, V)>,
    key: K,
    value: V,
) -> Result<(), AllocError>
    requires { Ascend K.cmp block.old.items }
    ensures ok { OnOk result (block.new.items ≡ put K.cmp key value block.old.items) }
    ensures err { OnErr result (block.new.items ≡ block.old.items) }
    ensures full { OnErr result (vec_capacity block.old ≤ vec_len block.old) }
{
    let place = cut_of(block, &key);
    if has_key(block, place, &key) {
        block[place].1 = value;
        return Ok(());
    }
    block.insert(place, (key, value))?;
    Ok(())
}

/// Takes what a key has.
pub(crate) fn take_in<K: Ord + Drop, V: Drop>(block: &mut Vec<(K, V)>, key: &K) -> Option<V>
    requires { Ascend K.cmp block.old.items }
    ensures left { block.new.items ≡ without K.cmp key.now block.old.items }
    ensures value { result ≡ find K.cmp key.now block.old.items }
{
    let place = cut_of(block, key);
    if !has_key(block, place, key) {
        return None;
    }
    let (_, value) = block.remove(place);
    Some(value)
}

/// Takes the entry at a place, and puts another behind the last one. It needs no memory.
pub(crate) fn trade_for_last<E: Drop>(block: &mut Vec<E>, place: usize, entry: E)
    requires { place < vec_len block.old }
    ensures { block.new.items ≡ remove block.old.items place ++ entry ∷ [] }
{
    block.remove(place);
    block.push_reserved(entry);
}

/// Takes the entry at a place, and puts a value at a key. It needs no memory.
pub(crate) fn trade<K: Ord + Drop, V: Drop>(block: &mut Vec<(K, V)>, place: usize, key: K, value: V)
    requires inside { place < vec_len block.old }
    requires ascend { Ascend K.cmp (remove block.old.items place) }
    ensures { block.new.items ≡ put K.cmp key value (remove block.old.items place) }
{
    block.remove(place);
    let _ = put_in(block, key, value);
}

/// The value of a key.
pub(crate) fn get_in<'a, K: Ord, V>(block: &'a [(K, V)], key: &K) -> Option<&'a V>
    requires { Ascend K.cmp block.now }
    ensures { option_copied result ≡ find K.cmp key.now block.now }
{
    let place = cut_of(block, key);
    if !has_key(block, place, key) {
        return None;
    }
    Some(&block[place].1)
}

/// The last entry below a key.
pub(crate) fn before_in<K: Ord + Copy, V: Copy>(block: &[(K, V)], key: &K) -> Option<(K, V)>
    requires { Ascend K.cmp block.now }
    ensures { result ≡ last_below K.cmp key.now block.now }
{
    let place = cut_of(block, key);
    if place == 0 {
        return None;
    }
    Some(block[place - 1])
}

/// The first entry above a key.
pub(crate) fn after_in<K: Ord + Copy, V: Copy>(block: &[(K, V)], key: &K) -> Option<(K, V)>
    requires { Ascend K.cmp block.now }
    ensures { result ≡ first_above K.cmp key.now block.now }
{
    let place = cut_of(block, key);
    if has_key(block, place, key) {
        return entry_at(block, place + 1);
    }
    entry_at(block, place)
}

/// The entries from a key on.
pub(crate) fn from_in<'a, K: Ord, V>(block: &'a [(K, V)], key: &K) -> &'a [(K, V)]
    requires { Ascend K.cmp block.now }
    ensures { result.now ≡ from_key K.cmp key.now block.now }
{
    rest_of(block, cut_of(block, key))
}

/// What stands from a place on.
pub(crate) fn rest_of<E>(list: &[E], place: usize) -> &[E]
    requires { place ≤ length list.now }
    ensures { result.now ≡ drop place list.now }
{
    &list[place..]
}

/// The entry at a place, if one stands there.
pub(crate) fn entry_at<E: Copy>(block: &[E], place: usize) -> Option<E>
    ensures { result ≡ first_entry (drop place block.now) }
{
    if place < block.len() {
        Some(block[place])
    } else {
        None
    }
}
