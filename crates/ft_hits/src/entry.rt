//! Entries: the hits of one key with their sums, and trees of all keys with theirs.

ghost use Rattle.std.specs.Prelude.{◌≡◌, ◌<◌, ◌^◌, OnOk, OnErr, IfOk, None, Some, IsTrue};
ghost use Rattle.std.specs.Prelude.{IfSome, MatchOption};
ghost use Rattle.std.specs.declared.cmp.Ordering.TheVariants.{Less};
ghost use Rattle.std.specs.FinMap as map;
ghost use Rattle.ft_hits.specs.Hits.{sums_of, least_key, first_place, hitcount, hits_of};
ghost use Rattle.ft_hits.specs.Hits.{first_entry, hits_after};
ghost use Rattle.ft_hits.specs.ByKey.{hits_in};
ghost use Rattle.ft_hits.specs.Marks.{mark_of};
ghost use Rattle.ft_fields.specs.Parts.{key_cmp};
ghost use Rattle.ft_maps.specs.Seen.{seen};
ghost use Rattle.ft_hits.specs.Hits.{hit_after};
ghost use Rattle.ft_hits.specs.inner.Held.{only};
ghost use Rattle.ft_hits.specs.Spots.{spot_cmp};
ghost use Rattle.ft_hits.specs.declared.spot.Spot.{Spot};

use crate::hit::Hit;
use crate::mark::Mark;
use crate::series::{Series, added, is_after};
use crate::spot::Spot;
use ft_fields::Key;
use ft_maps::take;
use std::alloc::{AllocError, Global};
use std::collections::BTreeMap;
use std::marker::Model;

/// The hits of one key, by spot, with the sums of their values modulo 2^64. One hit stands in the
/// entry itself, so that a key of one hit needs no blocks.
///
/// Contracts see only the hits.
#[derive(Drop)]
pub struct Entry {
    held: Held,
}

/// The hits that are held.
#[derive(Drop)]
enum Held {
    Nothing,
    One((Spot, [i64; 3])),
    Many(Series),
}

impl Model for Entry {
    ghost use Rattle.ft_hits.specs.Hits.{EntryHits};
    ghost use Rattle.ft_hits.specs.Codes.{entry_code};
    ghost use Rattle.ft_hits.specs.inner.Held.{hits_held};

    ghost Value = { EntryHits };

    ghost coded = { entry_code };

    ghost view = { λ e. hits_held e.held };
}

/// The sums of the values of one hit.
fn sums_of_one(values: [i64; 3]) -> [u64; 3]
    ensures { (spot : Spot) → result ≡ sums_of (only (spot, values)) }
{
    [
        added(0, values[0]),
        added(0, values[1]),
        added(0, values[2]),
    ]
}

/// Two hits at unlike spots.
fn two_hits(
    alloc: Global,
    first: (Spot, [i64; 3]),
    second: (Spot, [i64; 3]),
) -> Result<Series, AllocError>
    requires { map.get (only first) second.0 ≡ None }
    ensures { IfOk result (λ hits. hits ≡ map.insert (only first) second.0 second.1) }
{
    let mut series = Series::new(alloc);
    series.insert(alloc, first.0, first.1)?;
    series.insert(alloc, second.0, second.1)?;
    Ok(series)
}

impl Entry {
    /// No hits.
    fn new() -> Entry
        ensures { result ≡ map.empty }
    {
        Entry {
            held: Held::Nothing,
        }
    }

    /// The hits of a run; of several at one spot, the first. Refused for memory.
    pub fn of(alloc: Global, run: Vec<(Spot, [i64; 3])>) -> Result<Entry, AllocError>
        ensures { IfOk result (λ hits. hits ≡ map.from_entries run.items) }
    {
        if run.is_empty() {
            return Ok(Entry::new());
        }
        if run.len() == 1 {
            return Ok(Entry {
                held: Held::One(run[0]),
            });
        }
        let series = Series::of(alloc, run)?;
        Ok(Entry {
            held: Held::Many(series),
        })
    }

    /// How many hits it has.
    pub fn len(&self) -> usize
        ensures len { result ≡ map.len self.now }
        ensures small { result < 2 ^ 63 }
    {
        match &self.held {
            Held::Nothing => 0,
            Held::One(_) => 1,
            Held::Many(series) => series.len(),
        }
    }

    /// The spot of its first hit.
    pub fn first(&self) -> Option<Spot>
        ensures { result ≡ least_key (map.entries self.now) }
    {
        match &self.held {
            Held::Nothing => None,
            Held::One(hit) => Some(hit.0),
            Held::Many(series) => series.first(),
        }
    }

    /// Its first hit after a spot; without a spot, its first.
    fn after(&self, place: Option<Spot>) -> Option<(Spot, [i64; 3])>
        ensures { result ≡ first_entry (hits_after place self.now) }
    {
        match &self.held {
            Held::Nothing => None,
            Held::One(hit) => {
                if is_after(place, hit.0) {
                    Some(*hit)
                } else {
                    None
                }
            }
            Held::Many(series) => series.after(place),
        }
    }

    /// Puts a hit at a spot. Refused for memory, and then it is as it was.
    fn insert(&mut self, alloc: Global, spot: Spot, values: [i64; 3]) -> Result<(), AllocError>
        requires { map.get self.old spot ≡ None }
        ensures ok { OnOk result (self.new ≡ map.insert self.old spot values) }
        ensures err { OnErr result (self.new ≡ self.old) }
    {
        match &mut self.held {
            Held::Nothing => {
                self.held = Held::One((spot, values));
                Ok(())
            }
            Held::One(hit) => {
                let series = two_hits(alloc, *hit, (spot, values))?;
                self.held = Held::Many(series);
                Ok(())
            }
            Held::Many(series) => series.insert(alloc, spot, values),
        }
    }

    /// Puts a hit at a spot if it has one before that spot, and answers where its first hit stands.
    /// Else, and if it is refused for memory, it is as it was.
    fn insert_behind(
        &mut self,
        alloc: Global,
        spot: Spot,
        values: [i64; 3],
    ) -> Result<Option<Spot>, AllocError>
        requires { map.get self.old spot ≡ None }
        ensures ok { IfOk result (λ first. MatchOption first (self.new ≡ self.old)
            (λ _. self.new ≡ map.insert self.old spot values)) }
        ensures first { IfOk result (λ first. IfSome first (λ at.
            least_key (map.entries self.old) ≡ Some at)) }
        ensures behind { IfOk result (λ first. IfSome first (λ at. spot_cmp at spot ≡ Less)) }
        ensures before { IfOk result (λ first. first ≡ None → (at : Spot)
            → least_key (map.entries self.old) ≡ Some at → spot_cmp spot at ≡ Less) }
        ensures err { OnErr result (self.new ≡ self.old) }
    {
        match self.first() {
            None => Ok(None),
            Some(first) => {
                if first < spot {
                    self.insert(alloc, spot, values)?;
                    return Ok(Some(first));
                }
                Ok(None)
            }
        }
    }

    /// The sums of its values, modulo 2^64.
    fn sums(&self) -> [u64; 3]
        ensures { result ≡ sums_of self.now }
    {
        match &self.held {
            Held::Nothing => [0, 0, 0],
            Held::One(hit) => sums_of_one(hit.1),
            Held::Many(series) => series.sums(),
        }
    }

    /// Whether a hit stands at a spot.
    fn contains(&self, spot: Spot) -> bool
        ensures { result ≡ map.contains_key self.now spot }
    {
        match &self.held {
            Held::Nothing => false,
            Held::One(hit) => spot.cmp(&hit.0).is_eq(),
            Held::Many(series) => series.contains(spot),
        }
    }

    /// Takes the hit at a spot.
    fn remove(&mut self, spot: Spot) -> bool
        ensures left { self.new ≡ map.remove self.old spot }
        ensures found { result ≡ map.contains_key self.old spot }
    {
        match &mut self.held {
            Held::Nothing => false,
            Held::One(hit) => {
                if spot.cmp(&hit.0).is_ne() {
                    return false;
                }
                self.held = Held::Nothing;
                true
            }
            Held::Many(series) => series.remove(spot),
        }
    }
}

/// How many hits a key has.
pub(crate) fn count_of(by_key: &BTreeMap<Key, Entry>, key: &Key) -> u64
    ensures { result ≡ hitcount (hits_in by_key.now) key.now }
{
    match by_key.get(key) {
        Some(entry) => entry.len() as u64,
        None => 0,
    }
}

/// The sums of a key's values, modulo 2^64.
pub(crate) fn sums_at(by_key: &BTreeMap<Key, Entry>, key: &Key) -> [u64; 3]
    ensures { result ≡ sums_of (hits_of (hits_in by_key.now) key.now) }
{
    match by_key.get(key) {
        Some(entry) => entry.sums(),
        None => [0, 0, 0],
    }
}

/// The first hit of a key after a spot; without a spot, its first.
pub(crate) fn next_hit(by_key: &BTreeMap<Key, Entry>, key: &Key, after: Option<Spot>) -> Option<Hit>
    ensures { result ≡ hit_after (hits_in by_key.now) key.now after }
{
    let entry = by_key.get(key)?;
    let (spot, values) = entry.after(after)?;
    Some(Hit {
        spot,
        key: *key,
        values,
    })
}

/// The spot of a key's first hit.
pub(crate) fn first_at(by_key: &BTreeMap<Key, Entry>, key: &Key) -> Option<Spot>
    ensures { result ≡ first_place (hits_in by_key.now) key.now }
{
    match by_key.get(key) {
        Some(entry) => entry.first(),
        None => None,
    }
}

/// Whether a hit stands at a mark.
pub(crate) fn holds(by_key: &BTreeMap<Key, Entry>, mark: Mark) -> bool
    ensures { result ≡ map.contains_key (hits_in by_key.now) mark }
{
    match by_key.get(&mark.key) {
        Some(entry) => entry.contains(mark.spot),
        None => false,
    }
}

/// Puts a hit in if its key has one before it, and answers where the key's first hit stands. Else,
/// and if it is refused for memory, all is as it was.
pub(crate) fn put_behind(
    alloc: Global,
    by_key: &mut BTreeMap<Key, Entry>,
    hit: &Hit,
) -> Result<Option<Spot>, AllocError>
    requires { map.get (hits_in by_key.old) (mark_of hit.now) ≡ None }
    ensures ok { IfOk result (λ first. MatchOption first (hits_in by_key.new ≡ hits_in by_key.old)
        (λ _. hits_in by_key.new ≡ map.insert (hits_in by_key.old) (mark_of hit.now) hit.now.values)) }
    ensures first { IfOk result (λ first. IfSome first (λ at.
        first_place (hits_in by_key.old) hit.now.key ≡ Some at)) }
    ensures behind { IfOk result (λ first. IfSome first (λ at. spot_cmp at hit.now.spot ≡ Less)) }
    ensures before { IfOk result (λ first. first ≡ None → (at : Spot)
        → first_place (hits_in by_key.old) hit.now.key ≡ Some at → spot_cmp hit.now.spot at ≡ Less) }
    ensures err { OnErr result (hits_in by_key.new ≡ hits_in by_key.old) }
{
    match by_key.get_mut(&hit.key) {
        Some(entry) => entry.insert_behind(alloc, hit.spot, hit.values),
        None => Ok(None),
    }
}

/// Puts a hit at a mark. Refused for memory, and then all is as it was.
pub(crate) fn put_hit(
    alloc: Global,
    by_key: &mut BTreeMap<Key, Entry>,
    mark: Mark,
    values: [i64; 3],
) -> Result<(), AllocError>
    requires { map.get (hits_in by_key.old) mark ≡ None }
    ensures ok { OnOk result (hits_in by_key.new ≡ map.insert (hits_in by_key.old) mark values) }
    ensures err { OnErr result (hits_in by_key.new ≡ hits_in by_key.old) }
{
    if let Some(entry) = by_key.get_mut(&mark.key) {
        return entry.insert(alloc, mark.spot, values);
    }
    let mut entry = Entry::new();
    entry.insert(alloc, mark.spot, values)?;
    by_key.insert(mark.key, entry)?;
    Ok(())
}

/// Takes the hit at a mark, and answers whether there was one. The key goes too if it has no hits
/// left.
pub(crate) fn take_hit(by_key: &mut BTreeMap<Key, Entry>, mark: Mark) -> bool
    ensures left { hits_in by_key.new ≡ map.remove (hits_in by_key.old) mark }
    ensures found { result ≡ map.contains_key (hits_in by_key.old) mark }
{
    let found = take_from(by_key, mark);
    clear_out(by_key, &mark.key);
    found
}

/// Takes the hit at a mark from its key's entry, and answers whether there was one.
fn take_from(by_key: &mut BTreeMap<Key, Entry>, mark: Mark) -> bool
    ensures left { hits_in by_key.new ≡ map.remove (hits_in by_key.old) mark }
    ensures found { result ≡ map.contains_key (hits_in by_key.old) mark }
{
    match by_key.get_mut(&mark.key) {
        Some(entry) => entry.remove(mark.spot),
        None => false,
    }
}

/// Takes a key out if it has no hits, so that it takes no memory.
fn clear_out(by_key: &mut BTreeMap<Key, Entry>, key: &Key)
    ensures { hits_in by_key.new ≡ hits_in by_key.old }
{
    if is_clear(by_key, key) {
        take(by_key, key);
    }
}

/// Whether a key stands there without hits.
fn is_clear(by_key: &BTreeMap<Key, Entry>, key: &Key) -> bool
    ensures { IsTrue result → map.get (seen key_cmp by_key.now) key.now ≡ Some map.empty }
{
    match by_key.get(key) {
        Some(entry) => entry.len() == 0,
        None => false,
    }
}
