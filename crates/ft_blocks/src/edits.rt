//! Edits of one of several blocks, and of their list.

ghost use Rattle.std.specs.Prelude.{◌≡◌, ◌<◌, ◌≤◌, ◌++◌, List, drop, take, length, vec_len, OnOk, OnErr, IfOk};
ghost use Rattle.std.specs.List.{remove};
ghost use Rattle.std.specs.FinMap.{put, find};
ghost use Rattle.ft_blocks.specs.Sorted.{Ascend, without};
ghost use Rattle.ft_blocks.specs.Blocks.{joined, AreFilled, IsBlockOf};

use crate::block::{put_in, take_in};
use std::alloc::{AllocError, Global};
use std::mem;

/// How many entries a block has at most.
pub(crate) const FULL: usize = 256;

/// Puts a value at a key, in the block for it. Refused for memory, and then all is as it was.
pub(crate) fn put_at<K: Ord + Drop, V: Drop>(
    blocks: &mut Vec<Vec<(K, V)>>,
    at: usize,
    key: K,
    value: V,
) -> Result<(), AllocError>
    requires ascend { Ascend K.cmp (joined blocks.old.items) }
    requires filled { AreFilled blocks.old.items }
    requires place { IsBlockOf K.cmp blocks.old.items key at }
    requires inside { at < vec_len blocks.old }
    ensures ok { OnOk result ((rest : List (K × V)) → joined blocks.new.items ++ rest
        ≡ put K.cmp key value (joined blocks.old.items ++ rest)) }
    ensures err { OnErr result (joined blocks.new.items ≡ joined blocks.old.items) }
    ensures filled { AreFilled blocks.new.items }
{
    put_in(&mut blocks[at], key, value)?;
    Ok(())
}

/// Takes what a key has, in the block for it.
pub(crate) fn take_at<K: Ord + Drop, V: Drop>(
    blocks: &mut Vec<Vec<(K, V)>>,
    at: usize,
    key: &K,
) -> Option<V>
    requires ascend { Ascend K.cmp (joined blocks.old.items) }
    requires filled { AreFilled blocks.old.items }
    requires place { IsBlockOf K.cmp blocks.old.items key.now at }
    requires inside { at < vec_len blocks.old }
    ensures left { (rest : List (K × V)) → Ascend K.cmp (joined blocks.old.items ++ rest)
        → joined blocks.new.items ++ rest
        ≡ without K.cmp key.now (joined blocks.old.items ++ rest) }
    ensures value { (rest : List (K × V)) → Ascend K.cmp (joined blocks.old.items ++ rest)
        → result ≡ find K.cmp key.now (joined blocks.old.items ++ rest) }
    ensures filled { AreFilled blocks.new.items }
{
    let value = take_in(&mut blocks[at], key);
    drop_empty(blocks, at);
    value
}

/// Takes a block out if it is empty.
fn drop_empty<E: Drop>(blocks: &mut Vec<Vec<E>>, at: usize)
    requires inside { at < vec_len blocks.old }
    requires others { AreFilled (remove blocks.old.items at) }
    ensures same { joined blocks.new.items ≡ joined blocks.old.items }
    ensures filled { AreFilled blocks.new.items }
{
    if blocks[at].len() == 0 {
        blocks.remove(at);
    }
}

/// A block of some entries, with room for more. Refused for memory.
pub(crate) fn copied<E: Copy>(alloc: Global, entries: &[E]) -> Result<Vec<E>, AllocError>
    ensures { IfOk result (λ block. block.items ≡ entries.now) }
{
    let mut block = Vec::with_capacity(alloc, FULL)?;
    block.extend_from_slice(entries)?;
    Ok(block)
}

/// A block of the entries from a place on, with room for more. Refused for memory.
fn second_half<E: Copy>(alloc: Global, entries: &[E], half: usize) -> Result<Vec<E>, AllocError>
    requires { half ≤ length entries.now }
    ensures { IfOk result (λ block. block.items ≡ drop half entries.now) }
{
    copied(alloc, &entries[half..])
}

/// Makes two blocks of one. Refused for memory, and then all is as it was.
pub(crate) fn split_at<E: Copy>(
    alloc: Global,
    blocks: &mut Vec<Vec<E>>,
    at: usize,
) -> Result<(), AllocError>
    requires inside { at < vec_len blocks.old }
    requires filled { AreFilled blocks.old.items }
    ensures same { joined blocks.new.items ≡ joined blocks.old.items }
    ensures filled { AreFilled blocks.new.items }
{
    let half = blocks[at].len() / 2;
    if half == 0 {
        return Ok(());
    }
    let second = second_half(alloc, &blocks[at], half)?;
    blocks.insert(at + 1, second)?;
    blocks[at].truncate(half);
    Ok(())
}

/// Begins a new last block. Refused for memory, and then all is as it was.
pub(crate) fn begin_last<E: Drop>(
    alloc: Global,
    blocks: &mut Vec<Vec<E>>,
    last: &mut Vec<E>,
) -> Result<(), AllocError>
    requires some { 0 < vec_len last.old }
    requires filled { AreFilled blocks.old.items }
    ensures same { joined blocks.new.items ++ last.new.items
        ≡ joined blocks.old.items ++ last.old.items }
    ensures filled { AreFilled blocks.new.items }
{
    let fresh = Vec::with_capacity(alloc, FULL)?;
    blocks.reserve(1)?;
    let full = mem::replace(last, fresh);
    let _ = blocks.push(full);
    Ok(())
}

/// Blocks of some entries in their order, without the last ones, and how many entries those blocks
/// have. Refused for memory.
pub(crate) fn cut_up<E: Copy>(
    alloc: Global,
    entries: &[E],
) -> Result<(Vec<Vec<E>>, usize), AllocError>
    ensures within { IfOk result (λ cut. cut.1 ≤ length entries.now) }
    ensures front { IfOk result (λ cut. joined cut.0.items ≡ take cut.1 entries.now) }
    ensures filled { IfOk result (λ cut. AreFilled cut.0.items) }
{
    let mut blocks = Vec::with_capacity(alloc, entries.len() / FULL)?;
    let mut from = 0;
    while entries.len() - from > FULL {
        let block = copied(alloc, &entries[from..from + FULL])?;
        blocks.push(block)?;
        from += FULL;
    }
    Ok((blocks, from))
}
