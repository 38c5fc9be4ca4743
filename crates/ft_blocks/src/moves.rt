//! Moves: an entry goes to a later key without memory.

ghost use Rattle.std.specs.Prelude.{◌≡◌, ◌++◌, IfSome, Some, None, true};
ghost use Rattle.std.specs.declared.cmp.Ordering.TheVariants.{Less};
ghost use Rattle.std.specs.FinMap.{put, find};
ghost use Rattle.std.specs.Option.{is_some};
ghost use Rattle.ft_blocks.specs.Sorted.{AllBelow, Ascend, StartsAt, without, first_entry};
ghost use Rattle.ft_blocks.specs.Blocks.{joined, AreFilled};
ghost use Rattle.ft_blocks.specs.inner.Moves.{StandsAt, all_but, all_before, all_behind};

use crate::block::{cut_of, trade, trade_for_last};
use crate::blocks::first_from;
use crate::places::block_of;

/// Moves the entry of a key to a later key, at which none stands. It needs no memory: each entry
/// between goes to the place of the one before it, from block to block too, so that each block keeps
/// its number of entries.
pub(crate) fn move_along<K: Ord + Copy + Drop, V: Copy + Drop>(
    blocks: &mut Vec<Vec<(K, V)>>,
    last: &mut Vec<(K, V)>,
    from: &K,
    to: (K, V),
)
    requires filled { AreFilled blocks.old.items }
    requires ascend { Ascend K.cmp (joined blocks.old.items ++ last.old.items) }
    requires there { find K.cmp from.now (joined blocks.old.items ++ last.old.items)
        ≡ Some to.1 }
    requires later { K.cmp from.now to.0 ≡ Less }
    requires absent { find K.cmp to.0 (joined blocks.old.items ++ last.old.items) ≡ None }
    ensures moved { joined blocks.new.items ++ last.new.items ≡ put K.cmp to.0 to.1
        (without K.cmp from.now (joined blocks.old.items ++ last.old.items)) }
    ensures filled { AreFilled blocks.new.items }
    ensures ascend { Ascend K.cmp (joined blocks.new.items ++ last.new.items) }
{
    let place = place_of(blocks, last, from);
    let place = pass_on(blocks, last, place, &to.0);
    settle(blocks, last, place, to);
}

/// Where the entry of a key stands: in which block, and at which place there.
fn place_of<K: Ord, V>(blocks: &[Vec<(K, V)>], last: &[(K, V)], key: &K) -> (usize, usize)
    requires filled { AreFilled blocks.now }
    requires ascend { Ascend K.cmp (joined blocks.now ++ last.now) }
    requires there { is_some (find K.cmp key.now (joined blocks.now ++ last.now)) ≡ true }
    ensures stands { StandsAt blocks.now last.now result.0 result.1 }
    ensures others { all_but blocks.now last.now result.0 result.1
        ≡ without K.cmp key.now (joined blocks.now ++ last.now) }
    ensures before { AllBelow K.cmp key.now (all_before blocks.now last.now result.0 result.1) }
{
    let at = block_of(blocks, key);
    if at < blocks.len() {
        return (at, cut_of(&blocks[at], key));
    }
    (at, cut_of(last, key))
}

/// The first entry behind a block, if it is below a key.
fn next_below<K: Ord + Copy, V: Copy>(
    blocks: &[Vec<(K, V)>],
    last: &[(K, V)],
    at: usize,
    key: &K,
) -> Option<(K, V)>
    requires filled { AreFilled blocks.now }
    ensures first { IfSome result (λ e. first_entry (all_behind blocks.now last.now at) ≡ Some e) }
    ensures below { IfSome result (λ e. K.cmp e.0 key.now ≡ Less) }
    ensures none { result ≡ None → StartsAt K.cmp key.now (all_behind blocks.now last.now at) }
{
    if at >= blocks.len() {
        return None;
    }
    match first_from(blocks, last, at + 1) {
        None => None,
        Some(next) => {
            if next.0.cmp(key).is_lt() {
                Some(next)
            } else {
                None
            }
        }
    }
}

/// Passes the place of an entry on to the block for a later key: each block on the way takes the
/// first entry of the next one in place of its own. It answers where that place is then.
fn pass_on<K: Ord + Copy + Drop, V: Copy + Drop>(
    blocks: &mut Vec<Vec<(K, V)>>,
    last: &[(K, V)],
    place: (usize, usize),
    key: &K,
) -> (usize, usize)
    requires filled { AreFilled blocks.old.items }
    requires stands { StandsAt blocks.old.items last.now place.0 place.1 }
    requires ascend { Ascend K.cmp (all_but blocks.old.items last.now place.0 place.1) }
    requires before { AllBelow K.cmp key.now
        (all_before blocks.old.items last.now place.0 place.1) }
    ensures filled { AreFilled blocks.new.items }
    ensures stands { StandsAt blocks.new.items last.now result.0 result.1 }
    ensures others { all_but blocks.new.items last.now result.0 result.1
        ≡ all_but blocks.old.items last.now place.0 place.1 }
    ensures before { AllBelow K.cmp key.now
        (all_before blocks.new.items last.now result.0 result.1) }
    ensures behind { StartsAt K.cmp key.now (all_behind blocks.new.items last.now result.0) }
{
    let mut at = place.0;
    let mut from = place.1;
    while let Some(next) = next_below(blocks, last, at, key) {
        trade_for_last(&mut blocks[at], from, next);
        at += 1;
        from = 0;
    }
    (at, from)
}

/// Puts an entry at its key, in place of the one that stands in the block for it.
fn settle<K: Ord + Drop, V: Drop>(
    blocks: &mut Vec<Vec<(K, V)>>,
    last: &mut Vec<(K, V)>,
    place: (usize, usize),
    entry: (K, V),
)
    requires filled { AreFilled blocks.old.items }
    requires stands { StandsAt blocks.old.items last.old.items place.0 place.1 }
    requires ascend { Ascend K.cmp (all_but blocks.old.items last.old.items place.0 place.1) }
    requires absent { find K.cmp entry.0 (all_but blocks.old.items last.old.items place.0 place.1)
        ≡ None }
    requires before { AllBelow K.cmp entry.0
        (all_before blocks.old.items last.old.items place.0 place.1) }
    requires behind { StartsAt K.cmp entry.0
        (all_behind blocks.old.items last.old.items place.0) }
    ensures filled { AreFilled blocks.new.items }
    ensures put { joined blocks.new.items ++ last.new.items ≡ put K.cmp entry.0 entry.1
        (all_but blocks.old.items last.old.items place.0 place.1) }
{
    let (at, from) = place;
    let (key, value) = entry;
    if at < blocks.len() {
        trade(&mut blocks[at], from, key, value);
    } else {
        trade(last, from, key, value);
    }
}
