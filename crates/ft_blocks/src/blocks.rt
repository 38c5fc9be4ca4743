//! Blocks: a sorted map in blocks.

ghost use Rattle.std.specs.Prelude.{◌≡◌, ◌≤◌, ◌++◌, OnOk, OnErr, IfOk, [], take, drop, length, Some, None};
ghost use Rattle.std.specs.declared.cmp.Ordering.TheVariants.{Less};
ghost use Rattle.std.specs.Option.{option_copied};
ghost use Rattle.std.specs.FinMap.{put, find};
ghost use Rattle.ft_blocks.specs.Sorted.{Ascend, from_key, without, last_below, last_entry, later_of, first_above, first_entry};
ghost use Rattle.ft_blocks.specs.Blocks.{joined, AreFilled, IsBlockOf};

use crate::block::{after_in, before_in, entry_at, from_in, get_in, put_in, rest_of, take_in};
use crate::edits::{FULL, begin_last, copied, cut_up, put_at, split_at, take_at};
use crate::entries::Entries;
use crate::moves::move_along;
use crate::places::block_of;
use std::alloc::{AllocError, Global};
use std::marker::Model;

/// A sorted map: entries in blocks, and the last ones in a block of their own, so that few entries
/// are one vector and entries that come in order are pushed.
///
/// The steps that it takes to find a key grow with the logarithm of the number of entries. A block
/// of 256 entries is cut into halves if one more comes, and goes with its last entry; each time the
/// list of the blocks behind it moves. The last block stays, and if it is full, a new one begins
/// behind it. Blocks are never joined, so a map that has lost most of its entries may keep a block
/// for each of the others.
///
/// Contracts see the entries in the order of their keys.
#[derive(Drop)]
pub struct Blocks<K: Ord, V> {
    blocks: Vec<Vec<(K, V)>>,
    last: Vec<(K, V)>,
}

impl<K: Ord, V> Model for Blocks<K, V> {
    ghost use Rattle.std.specs.Prelude.{◌++◌, List};
    ghost use Rattle.std.specs.Coded.{coded_list, coded×};
    ghost use Rattle.ft_blocks.specs.Sorted.{Ascend};
    ghost use Rattle.ft_blocks.specs.Blocks.{joined, AreFilled};

    ghost Value = { List (K × V) };

    ghost coded = { coded_list (coded× K.code V.code) };

    ghost view = { λ b. joined b.blocks.items ++ b.last.items };

    ghost invariant = { λ b. AreFilled b.blocks.items
        × Ascend K.cmp (joined b.blocks.items ++ b.last.items) };
}

impl<K: Ord, V> Blocks<K, V> {
    /// No entries. It takes no memory.
    pub fn new(alloc: Global) -> Blocks<K, V>
        ensures { result ≡ [] }
    {
        Blocks {
            blocks: Vec::new(alloc),
            last: Vec::new(alloc),
        }
    }

    /// The entries in the order of their keys, each in a few steps.
    pub fn entries(&self) -> Entries<'_, K, V>
        ensures all { result ≡ self.now }
        ensures ordered { Ascend K.cmp self.now }
    {
        Entries {
            here: &[],
            blocks: &self.blocks,
            last: &self.last,
        }
    }

    /// The entries whose keys aren't below a key, in the order of their keys.
    pub fn entries_from(&self, key: &K) -> Entries<'_, K, V>
        ensures { result ≡ from_key K.cmp key.now self.now }
    {
        entries_between(&self.blocks, &self.last, key)
    }

    /// The value of a key. The steps grow with the logarithm of the number of entries.
    pub fn get(&self, key: &K) -> Option<&V>
        ensures { option_copied result ≡ find K.cmp key.now self.now }
    {
        get_between(&self.blocks, &self.last, key)
    }
}

impl<K: Ord + Copy, V: Copy> Blocks<K, V> {
    /// The entries of a run whose keys strictly rise. Refused for memory.
    ///
    /// A run of at most 256 entries is taken as it stands; a longer one is copied into blocks.
    pub fn of(alloc: Global, run: Vec<(K, V)>) -> Result<Blocks<K, V>, AllocError>
        requires { Ascend K.cmp run.items }
        ensures { IfOk result (λ map. map ≡ run.items) }
    {
        if run.len() <= FULL {
            return Ok(Blocks {
                blocks: Vec::new(alloc),
                last: run,
            });
        }
        let (blocks, from) = cut_up(alloc, &run)?;
        let last = copied(alloc, &run[from..])?;
        Ok(Blocks { blocks, last })
    }

    /// The last entry below a key. The steps grow with the logarithm of the number of entries.
    pub fn before(&self, key: &K) -> Option<(K, V)>
        ensures before { result ≡ last_below K.cmp key.now self.now }
        ensures ordered { Ascend K.cmp self.now }
    {
        before_between(&self.blocks, &self.last, key)
    }

    /// The first entry above a key. The steps grow with the logarithm of the number of entries.
    pub fn after(&self, key: &K) -> Option<(K, V)>
        ensures after { result ≡ first_above K.cmp key.now self.now }
        ensures ordered { Ascend K.cmp self.now }
    {
        after_between(&self.blocks, &self.last, key)
    }

    /// The first entry, in a few steps.
    pub fn first(&self) -> Option<(K, V)>
        ensures first { result ≡ first_entry self.now }
        ensures ordered { Ascend K.cmp self.now }
    {
        first_from(&self.blocks, &self.last, 0)
    }
}

impl<K: Ord + Copy + Drop, V: Copy + Drop> Blocks<K, V> {
    /// Puts a value at a key, in place of what the key had. Refused for memory, and then all is as it
    /// was.
    ///
    /// The steps that it takes to find the block for the key grow with the logarithm of the number
    /// of entries, and at most 256 entries move. Memory is taken if a block must grow, or if it is
    /// full, for another block and for the list of them.
    pub fn insert(&mut self, alloc: Global, key: K, value: V) -> Result<(), AllocError>
        ensures ok { OnOk result (self.new ≡ put K.cmp key value self.old) }
        ensures err { OnErr result (self.new ≡ self.old) }
    {
        put_between(alloc, &mut self.blocks, &mut self.last, key, value)
    }

    /// Moves the entry of a key to a later key, at which none stands. It is never refused.
    ///
    /// It costs as much as `insert` and `remove`. If there is no memory for that, each entry between
    /// goes to the place of the one before it, and the later key gets the place of the last of them.
    pub fn move_on(&mut self, alloc: Global, from: &K, to: K)
        requires later { K.cmp from.now to ≡ Less }
        requires absent { find K.cmp to self.old ≡ None }
        ensures moved { (value : V) → find K.cmp from.now self.old ≡ Some value
            → self.new ≡ put K.cmp to value (without K.cmp from.now self.old) }
        ensures none { find K.cmp from.now self.old ≡ None → self.new ≡ self.old }
    {
        if let Some(value) = self.get(from).copied() {
            move_between(alloc, &mut self.blocks, &mut self.last, from, (to, value));
        }
    }
}

impl<K: Ord + Drop, V: Drop> Blocks<K, V> {
    /// Takes what a key has. It needs no memory.
    ///
    /// The steps that it takes to find the block of the key grow with the logarithm of the number
    /// of entries, and at most 256 entries move.
    pub fn remove(&mut self, key: &K) -> Option<V>
        ensures left { self.new ≡ without K.cmp key.now self.old }
        ensures value { result ≡ find K.cmp key.now self.old }
    {
        take_between(&mut self.blocks, &mut self.last, key)
    }
}

/// Puts a value at a key, among blocks or in the last one.
fn put_between<K: Ord + Copy + Drop, V: Copy + Drop>(
    alloc: Global,
    blocks: &mut Vec<Vec<(K, V)>>,
    last: &mut Vec<(K, V)>,
    key: K,
    value: V,
) -> Result<(), AllocError>
    requires filled { AreFilled blocks.old.items }
    requires ascend { Ascend K.cmp (joined blocks.old.items ++ last.old.items) }
    ensures ok { OnOk result (joined blocks.new.items ++ last.new.items
        ≡ put K.cmp key value (joined blocks.old.items ++ last.old.items)) }
    ensures err { OnErr result (joined blocks.new.items ++ last.new.items
        ≡ joined blocks.old.items ++ last.old.items) }
    ensures filled { AreFilled blocks.new.items }
    ensures ascend { Ascend K.cmp (joined blocks.new.items ++ last.new.items) }
{
    let at = block_of(blocks, &key);
    if !is_full(blocks, last, at) {
        return put_there(blocks, last, at, key, value);
    }
    make_room(alloc, blocks, last, at)?;
    let at = block_of(blocks, &key);
    put_there(blocks, last, at, key, value)
}

/// Puts a value at a key, in the block for it. Refused for memory, and then all is as it was.
fn put_there<K: Ord + Copy + Drop, V: Copy + Drop>(
    blocks: &mut Vec<Vec<(K, V)>>,
    last: &mut Vec<(K, V)>,
    at: usize,
    key: K,
    value: V,
) -> Result<(), AllocError>
    requires filled { AreFilled blocks.old.items }
    requires ascend { Ascend K.cmp (joined blocks.old.items ++ last.old.items) }
    requires place { IsBlockOf K.cmp blocks.old.items key at }
    ensures ok { OnOk result (joined blocks.new.items ++ last.new.items
        ≡ put K.cmp key value (joined blocks.old.items ++ last.old.items)) }
    ensures err { OnErr result (joined blocks.new.items ++ last.new.items
        ≡ joined blocks.old.items ++ last.old.items) }
    ensures filled { AreFilled blocks.new.items }
    ensures ascend { Ascend K.cmp (joined blocks.new.items ++ last.new.items) }
{
    if at < blocks.len() {
        put_at(blocks, at, key, value)?;
    } else {
        put_in(last, key, value)?;
    }
    Ok(())
}

/// Whether a block is full.
fn is_full<E>(blocks: &[Vec<E>], last: &[E], at: usize) -> bool {
    if at < blocks.len() {
        blocks[at].len() >= FULL
    } else {
        last.len() >= FULL
    }
}

/// Makes room in a block that is full. Refused for memory. The entries stay.
fn make_room<E: Copy + Drop>(
    alloc: Global,
    blocks: &mut Vec<Vec<E>>,
    last: &mut Vec<E>,
    at: usize,
) -> Result<(), AllocError>
    requires filled { AreFilled blocks.old.items }
    ensures same { joined blocks.new.items ++ last.new.items
        ≡ joined blocks.old.items ++ last.old.items }
    ensures filled { AreFilled blocks.new.items }
{
    if at < blocks.len() {
        split_at(alloc, blocks, at)?;
    } else if last.len() >= FULL {
        begin_last(alloc, blocks, last)?;
    }
    Ok(())
}

/// Takes what a key has, among blocks or from the last one.
fn take_between<K: Ord + Drop, V: Drop>(
    blocks: &mut Vec<Vec<(K, V)>>,
    last: &mut Vec<(K, V)>,
    key: &K,
) -> Option<V>
    requires filled { AreFilled blocks.old.items }
    requires ascend { Ascend K.cmp (joined blocks.old.items ++ last.old.items) }
    ensures left { joined blocks.new.items ++ last.new.items
        ≡ without K.cmp key.now (joined blocks.old.items ++ last.old.items) }
    ensures value { result ≡ find K.cmp key.now (joined blocks.old.items ++ last.old.items) }
    ensures filled { AreFilled blocks.new.items }
    ensures ascend { Ascend K.cmp (joined blocks.new.items ++ last.new.items) }
{
    let at = block_of(blocks, key);
    if at < blocks.len() {
        return take_at(blocks, at, key);
    }
    take_in(last, key)
}

/// Moves the entry of a key to a later key, among blocks or in the last one.
fn move_between<K: Ord + Copy + Drop, V: Copy + Drop>(
    alloc: Global,
    blocks: &mut Vec<Vec<(K, V)>>,
    last: &mut Vec<(K, V)>,
    from: &K,
    to: (K, V),
)
    requires filled { AreFilled blocks.old.items }
    requires ascend { Ascend K.cmp (joined blocks.old.items ++ last.old.items) }
    requires there { find K.cmp from.now (joined blocks.old.items ++ last.old.items)
        ≡ Some to.1 }
    requires later { K.cmp from.now to.0 ≡ Less }
    requires absent { find K.cmp to.0 (joined blocks.old.items ++ last.old.items) ≡ None }
    ensures moved { joined blocks.new.items ++ last.new.items ≡ put K.cmp to.0 to.1
        (without K.cmp from.now (joined blocks.old.items ++ last.old.items)) }
    ensures filled { AreFilled blocks.new.items }
    ensures ascend { Ascend K.cmp (joined blocks.new.items ++ last.new.items) }
{
    match put_between(alloc, blocks, last, to.0, to.1) {
        Ok(()) => {
            take_between(blocks, last, from);
        }
        Err(_) => move_along(blocks, last, from, to),
    }
}

/// The value of a key, among blocks or in the last one.
fn get_between<'a, K: Ord, V>(
    blocks: &'a [Vec<(K, V)>],
    last: &'a [(K, V)],
    key: &K,
) -> Option<&'a V>
    requires filled { AreFilled blocks.now }
    requires ascend { Ascend K.cmp (joined blocks.now ++ last.now) }
    ensures { option_copied result ≡ find K.cmp key.now (joined blocks.now ++ last.now) }
{
    let at = block_of(blocks, key);
    if at < blocks.len() {
        return get_in(&blocks[at], key);
    }
    get_in(last, key)
}

/// The last entry below a key, among blocks or in the last one.
fn before_between<K: Ord + Copy, V: Copy>(
    blocks: &[Vec<(K, V)>],
    last: &[(K, V)],
    key: &K,
) -> Option<(K, V)>
    requires filled { AreFilled blocks.now }
    requires ascend { Ascend K.cmp (joined blocks.now ++ last.now) }
    ensures { result ≡ last_below K.cmp key.now (joined blocks.now ++ last.now) }
{
    let at = block_of(blocks, key);
    if at < blocks.len() {
        let here = before_in(&blocks[at], key);
        return or_last(here, blocks, at);
    }
    or_last(before_in(last, key), blocks, at)
}

/// An entry, or the last one of the blocks before a place.
fn or_last<E: Copy>(entry: Option<E>, blocks: &[Vec<E>], at: usize) -> Option<E>
    requires inside { at ≤ length blocks.now }
    requires filled { AreFilled blocks.now }
    ensures { result ≡ later_of entry (last_entry (joined (take at blocks.now))) }
{
    match entry {
        Some(entry) => Some(entry),
        None => last_of(blocks, at),
    }
}

/// The last entry of the blocks before a place.
fn last_of<E: Copy>(blocks: &[Vec<E>], at: usize) -> Option<E>
    requires inside { at ≤ length blocks.now }
    requires filled { AreFilled blocks.now }
    ensures { result ≡ last_entry (joined (take at blocks.now)) }
{
    if at == 0 {
        return None;
    }
    let block = &blocks[at - 1];
    Some(block[block.len() - 1])
}

/// The first entry above a key, among blocks or in the last one.
fn after_between<K: Ord + Copy, V: Copy>(
    blocks: &[Vec<(K, V)>],
    last: &[(K, V)],
    key: &K,
) -> Option<(K, V)>
    requires filled { AreFilled blocks.now }
    requires ascend { Ascend K.cmp (joined blocks.now ++ last.now) }
    ensures { result ≡ first_above K.cmp key.now (joined blocks.now ++ last.now) }
{
    let at = block_of(blocks, key);
    if at >= blocks.len() {
        return after_in(last, key);
    }
    match after_in(&blocks[at], key) {
        Some(entry) => Some(entry),
        None => first_from(blocks, last, at + 1),
    }
}

/// The first entry of the blocks from a place on, and of the last one.
pub(crate) fn first_from<E: Copy>(blocks: &[Vec<E>], last: &[E], at: usize) -> Option<E>
    requires filled { AreFilled blocks.now }
    ensures { result ≡ first_entry (joined (drop at blocks.now) ++ last.now) }
{
    if at < blocks.len() {
        return entry_at(&blocks[at], 0);
    }
    entry_at(last, 0)
}

/// The entries from a key on, among blocks and in the last one.
fn entries_between<'a, K: Ord, V>(
    blocks: &'a [Vec<(K, V)>],
    last: &'a [(K, V)],
    key: &K,
) -> Entries<'a, K, V>
    requires filled { AreFilled blocks.now }
    requires ascend { Ascend K.cmp (joined blocks.now ++ last.now) }
    ensures { result ≡ from_key K.cmp key.now (joined blocks.now ++ last.now) }
{
    let at = block_of(blocks, key);
    if at < blocks.len() {
        return Entries {
            here: from_in(&blocks[at], key),
            blocks: rest_of(blocks, at + 1),
            last,
        };
    }
    Entries {
        here: from_in(last, key),
        blocks: &[],
        last: &[],
    }
}
