//! Finite maps, the form in which contracts see a `BTreeMap`, and counts, which only contracts see.
//!
//! A contract says which finite map a `BTreeMap` is seen as, and which key an edit puts in or takes
//! out. An edit requires that keys which tie are equal, so that look-ups tell maps apart. For
//! numbers, and for structs of numbers with a derived order, a caller's check finds that by itself.
//!
//! A count is a number of any size, which begins at 0 and is raised by one. At run time it is
//! nothing, so that counting calls or steps costs nothing. `Work` is two counts of steps: tests of
//! events against triggers, and puts into maps.
//!
//! ```ignore
//! let mut map: BTreeMap<u32, u64> = BTreeMap::new(rt.alloc());
//! put(&mut map, 7, 70)?;
//! put(&mut map, 3, 30)?;
//! assert_eq!(rt; (len(&map), get(&map, &7)), (2, Some(&70)));
//! // 3, then 7
//! for (key, _) in entries(&map) {
//!     keys.push(*key)?;
//! }
//! take(&mut map, &3);
//! ```
//!
//! ```ignore
//! let mut count = Count::zero();
//! count.raise();
//! count.raise();
//! // Contracts see 2.
//! ```
//!
//! # Contracts
//!
//! - `put`, `take`, `get`, `len`, `entries`: contracts see a finite map (`specs/Seen.antt`). One
//!   key of it is put, taken or looked up, its keys are counted, its entries walked in order;
//!   exact. `put` and `take` require an order in which keys that tie are equal. A refused `put`
//!   leaves the map as it was. `put` lets through: running out of memory at any time.
//! - `Count::zero`, `Count::raise`: 0, and one more than before; exact.
//! - `Work::new`, `tick_eval`, `tick_put`: no steps yet, and one more of either kind
//!   (`specs/Steps.antt`); exact. Lets through: a tick for anything. No clause says what a step is.
#![tactic(auto)]

mod count;
mod work;

ghost use Rattle.std.specs.Prelude.{◌≡◌, ◌<◌, ◌^◌, length, OnOk, OnErr};
ghost use Rattle.std.specs.Option.{option_copied};
ghost use Rattle.std.specs.Map.Iter.{ShowsInOrder, deref_pair};
ghost use Rattle.std.specs.FinMap as finite;
ghost use Rattle.std.specs.FinMap.{IsAntisymmetric};
ghost use Rattle.ft_maps.specs.Seen.{seen};

pub use count::Count;
use std::alloc::AllocError;
use std::collections::BTreeMap;
use std::collections::btree_map::Iter;
pub use work::Work;

/// Puts a value at a key, in place of what the key had. Refused for memory, and then the map is as
/// it was.
pub fn put<K: Ord + Drop, V: Drop>(
    map: &mut BTreeMap<K, V>,
    key: K,
    value: V,
) -> Result<(), AllocError>
    requires { IsAntisymmetric K.cmp }
    ensures ok { OnOk result (seen K.cmp map.new ≡ finite.insert (seen K.cmp map.old) key value) }
    ensures err { OnErr result (seen K.cmp map.new ≡ seen K.cmp map.old) }
{
    map.insert(key, value)?;
    Ok(())
}

/// Takes out what a key has, if it has anything.
pub fn take<K: Ord + Drop, V: Drop>(map: &mut BTreeMap<K, V>, key: &K)
    requires { IsAntisymmetric K.cmp }
    ensures { seen K.cmp map.new ≡ finite.remove (seen K.cmp map.old) key.now }
{
    map.remove(key);
}

/// How many keys have something.
pub fn len<K: Ord, V>(map: &BTreeMap<K, V>) -> usize
    ensures { result ≡ finite.len (seen K.cmp map.now) }
{
    map.len()
}

/// The value of a key.
pub fn get<'a, K: Ord, V>(map: &'a BTreeMap<K, V>, key: &K) -> Option<&'a V>
    ensures { option_copied result ≡ finite.get (seen K.cmp map.now) key.now }
{
    map.get(key)
}

/// The keys with their values, in order.
pub fn entries<K: Ord, V>(map: &BTreeMap<K, V>) -> Iter<'_, K, V>
    ensures rest { result ≡ finite.entries (seen K.cmp map.now) }
    ensures fits { length result < 2 ^ 63 }
    // A loop takes them from the front.
    ensures runs { ShowsInOrder (deref_pair {K = K} {X = V}) }
{
    map.iter()
}
