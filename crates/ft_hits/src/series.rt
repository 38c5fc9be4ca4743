//! Series: several hits of one key, with their sums.

ghost use Rattle.std.specs.Prelude.{◌≡◌, ℕ, ◌+◌, ◌%◌, ◌<◌, ◌^◌, OnOk, OnErr, IfOk, IfSome, None};
ghost use Rattle.std.specs.Int.{w64, cast_unsigned};
ghost use Rattle.std.specs.FinMap as map;
ghost use Rattle.ft_blocks.specs.Sorted.{Ascend};
ghost use Rattle.ft_hits.specs.Spots.{spot_cmp};
ghost use Rattle.ft_hits.specs.Hits.{sums_of, least_key, first_entry, hits_after, is_after};

use crate::spot::Spot;
use ft_blocks::Blocks;
use std::alloc::{AllocError, Global};
use std::marker::Model;

/// How many hits a key has at most.
const MOST: usize = usize::MAX / 2;

/// The hits of one key in blocks, by spot, with how many they are and the sums of their values
/// modulo 2^64.
///
/// Contracts see only the hits.
#[derive(Drop)]
pub(crate) struct Series {
    hits: Blocks<Spot, [i64; 3]>,
    count: usize,
    sums: [u64; 3],
}

impl Model for Series {
    ghost use Rattle.std.specs.FinMap as map;
    ghost use Rattle.ft_hits.specs.Spots.{spot_cmp};
    ghost use Rattle.ft_hits.specs.Hits.{EntryHits};
    ghost use Rattle.ft_hits.specs.Codes.{entry_code};

    ghost Value = { EntryHits };

    ghost coded = { entry_code };

    ghost view = { λ e. map.from_entries e.hits };

    ghost use Rattle.std.specs.Prelude.{◌≡◌, ◌<◌, ◌^◌};
    ghost use Rattle.ft_hits.specs.Hits.{sums_of};

    ghost invariant = { λ e. (e.sums ≡ sums_of (map.from_entries e.hits))
        × (e.count ≡ map.len (map.from_entries {R = spot_cmp} e.hits)) × (e.count < 2 ^ 63) };
}

/// A sum and a value, modulo 2^64.
pub(crate) fn added(sum: u64, value: i64) -> u64
    ensures { result ≡ (sum + cast_unsigned w64 value) % 2 ^ 64 }
{
    sum.wrapping_add(value.cast_unsigned())
}

/// A sum without a value that is in it, modulo 2^64.
fn taken(sum: u64, value: i64) -> u64
    ensures { (rest : ℕ) → sum ≡ (rest + cast_unsigned w64 value) % 2 ^ 64
        → result ≡ rest % 2 ^ 64 }
{
    sum.wrapping_sub(value.cast_unsigned())
}

/// Whether a spot is after another, if there is another.
pub(crate) fn is_after(place: Option<Spot>, spot: Spot) -> bool
    ensures { result ≡ is_after place spot }
{
    match place {
        None => true,
        Some(before) => before < spot,
    }
}

/// The sums of the values of a run whose spots ascend, and none of another.
fn sums_of_run(run: &[(Spot, [i64; 3])]) -> Option<[u64; 3]>
    ensures rise { IfSome result (λ _. Ascend spot_cmp run.now) }
    ensures sums { IfSome result (λ sums. sums ≡ sums_of (map.from_entries run.now)) }
{
    let mut sums = [0, 0, 0];
    let mut before = None;
    for hit in run {
        if !is_after(before, hit.0) {
            return None;
        }
        sums = [
            added(sums[0], hit.1[0]),
            added(sums[1], hit.1[1]),
            added(sums[2], hit.1[2]),
        ];
        before = Some(hit.0);
    }
    Some(sums)
}

/// The hits of a run in any order; of several at one spot, the first. Refused for memory.
fn one_by_one(alloc: Global, run: &[(Spot, [i64; 3])]) -> Result<Series, AllocError>
    ensures { IfOk result (λ hits. hits ≡ map.from_entries run.now) }
{
    let mut series = Series::new(alloc);
    for hit in run {
        if !series.contains(hit.0) {
            series.insert(alloc, hit.0, hit.1)?;
        }
    }
    Ok(series)
}

impl Series {
    /// No hits.
    pub(crate) fn new(alloc: Global) -> Series
        ensures { result ≡ map.empty }
    {
        Series {
            hits: Blocks::new(alloc),
            count: 0,
            sums: [0, 0, 0],
        }
    }

    /// The hits of a run; of several at one spot, the first. Refused for memory.
    ///
    /// A run whose spots ascend is cut up as it stands.
    pub(crate) fn of(alloc: Global, run: Vec<(Spot, [i64; 3])>) -> Result<Series, AllocError>
        ensures { IfOk result (λ hits. hits ≡ map.from_entries run.items) }
    {
        match sums_of_run(&run) {
            Some(sums) => {
                let count = run.len();
                let hits = Blocks::of(alloc, run)?;
                Ok(Series { hits, count, sums })
            }
            None => one_by_one(alloc, &run),
        }
    }

    /// How many hits it has.
    pub(crate) fn len(&self) -> usize
        ensures len { result ≡ map.len self.now }
        ensures small { result < 2 ^ 63 }
    {
        self.count
    }

    /// The spot of its first hit.
    pub(crate) fn first(&self) -> Option<Spot>
        ensures { result ≡ least_key (map.entries self.now) }
    {
        match self.hits.first() {
            None => None,
            Some((spot, _)) => Some(spot),
        }
    }

    /// Its first hit after a spot; without a spot, its first.
    pub(crate) fn after(&self, place: Option<Spot>) -> Option<(Spot, [i64; 3])>
        ensures { result ≡ first_entry (hits_after place self.now) }
    {
        match place {
            None => self.hits.first(),
            Some(spot) => self.hits.after(&spot),
        }
    }

    /// Puts a hit at a spot. Refused for memory, and then it is as it was.
    pub(crate) fn insert(
        &mut self,
        alloc: Global,
        spot: Spot,
        values: [i64; 3],
    ) -> Result<(), AllocError>
        requires { map.get self.old spot ≡ None }
        ensures ok { OnOk result (self.new ≡ map.insert self.old spot values) }
        ensures err { OnErr result (self.new ≡ self.old) }
    {
        // There is no memory for so many.
        if self.count >= MOST {
            return Err(AllocError);
        }
        self.hits.insert(alloc, spot, values)?;
        self.count += 1;
        self.sums = [
            added(self.sums[0], values[0]),
            added(self.sums[1], values[1]),
            added(self.sums[2], values[2]),
        ];
        Ok(())
    }

    /// The sums of its values, modulo 2^64.
    pub(crate) fn sums(&self) -> [u64; 3]
        ensures { result ≡ sums_of self.now }
    {
        self.sums
    }

    /// Whether a hit stands at a spot.
    pub(crate) fn contains(&self, spot: Spot) -> bool
        ensures { result ≡ map.contains_key self.now spot }
    {
        self.hits.get(&spot).is_some()
    }

    /// Takes the hit at a spot.
    pub(crate) fn remove(&mut self, spot: Spot) -> bool
        ensures left { self.new ≡ map.remove self.old spot }
        ensures found { result ≡ map.contains_key self.old spot }
    {
        match self.hits.remove(&spot) {
            None => false,
            Some(values) => {
                self.count -= 1;
                self.sums = [
                    taken(self.sums[0], values[0]),
                    taken(self.sums[1], values[1]),
                    taken(self.sums[2], values[2]),
                ];
                true
            }
        }
    }
}
