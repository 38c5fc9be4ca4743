//! All hits of a table, found by their keys.

ghost use Rattle.std.specs.Prelude.{◌≡◌, OnOk, OnErr, IfOk, IfSome, MatchOption, None, Some};
ghost use Rattle.ft_hits.specs.declared.spot.Spot.{Spot};
ghost use Rattle.std.specs.declared.cmp.Ordering.TheVariants.{Less};
ghost use Rattle.std.specs.FinMap as map;
ghost use Rattle.ft_hits.specs.Hits.{TakesHits, first_place, hit_after, hitcount, hits_of, sums_of};
ghost use Rattle.ft_hits.specs.Marks.{mark_of};
ghost use Rattle.ft_hits.specs.Spots.{spot_cmp};

use crate::entry::{
    Entry, count_of, first_at, holds, next_hit, put_behind, put_hit, sums_at, take_hit,
};
use crate::hit::Hit;
use crate::mark::Mark;
use crate::spot::Spot;
use ft_fields::Key;
use ft_maps::put;
use std::alloc::{AllocError, Global};
use std::collections::BTreeMap;
use std::marker::Model;

/// Hits by key, and those of each key by spot, with the sums of their values.
///
/// Contracts see the values of all hits, by mark.
#[derive(Drop)]
pub struct HitIndex {
    by_key: BTreeMap<Key, Entry>,
}

impl Model for HitIndex {
    ghost use Rattle.ft_hits.specs.ByKey.{hits_in};
    ghost use Rattle.ft_hits.specs.Codes.{hits_code};
    ghost use Rattle.ft_hits.specs.Hits.{Hits};

    ghost Value = { Hits };

    ghost coded = { hits_code };

    ghost view = { λ h. hits_in h.by_key };
}

impl HitIndex {
    /// No hits. It takes no memory.
    pub fn new(alloc: Global) -> HitIndex
        ensures { result ≡ map.empty }
    {
        HitIndex {
            by_key: BTreeMap::new(alloc),
        }
    }

    /// How many hits a key has.
    pub fn count_of(&self, key: &Key) -> u64
        ensures { result ≡ hitcount self.now key.now }
    {
        count_of(&self.by_key, key)
    }

    /// The sums of a key's values, modulo 2^64.
    pub fn sums_at(&self, key: &Key) -> [u64; 3]
        ensures { result ≡ sums_of (hits_of self.now key.now) }
    {
        sums_at(&self.by_key, key)
    }

    /// The first hit of a key after a spot; without a spot, its first.
    pub fn next_hit(&self, key: &Key, after: Option<Spot>) -> Option<Hit>
        ensures { result ≡ hit_after self.now key.now after }
    {
        next_hit(&self.by_key, key, after)
    }

    /// The spot of a key's first hit.
    pub fn first_at(&self, key: &Key) -> Option<Spot>
        ensures { result ≡ first_place self.now key.now }
    {
        first_at(&self.by_key, key)
    }

    /// Whether a hit stands at a mark.
    pub fn holds(&self, mark: Mark) -> bool
        ensures { result ≡ map.contains_key self.now mark }
    {
        holds(&self.by_key, mark)
    }

    /// Puts a hit in if its key has one before it, and answers where the key's first hit stands.
    /// Else, and if it is refused for memory, all is as it was.
    pub fn put_behind(&mut self, alloc: Global, hit: &Hit) -> Result<Option<Spot>, AllocError>
        requires { map.get self.old (mark_of hit.now) ≡ None }
        ensures ok { IfOk result (λ first. MatchOption first (self.new ≡ self.old)
            (λ _. self.new ≡ map.insert self.old (mark_of hit.now) hit.now.values)) }
        ensures first { IfOk result (λ first. IfSome first (λ at.
            first_place self.old hit.now.key ≡ Some at)) }
        ensures behind { IfOk result (λ first. IfSome first (λ at. spot_cmp at hit.now.spot ≡ Less)) }
        ensures before { IfOk result (λ first. first ≡ None → (at : Spot)
            → first_place self.old hit.now.key ≡ Some at → spot_cmp hit.now.spot at ≡ Less) }
        ensures err { OnErr result (self.new ≡ self.old) }
    {
        put_behind(alloc, &mut self.by_key, hit)
    }

    /// Puts a hit at a mark. Refused for memory, and then all is as it was.
    pub fn put_hit(&mut self, alloc: Global, mark: Mark, values: [i64; 3]) -> Result<(), AllocError>
        requires { map.get self.old mark ≡ None }
        ensures ok { OnOk result (self.new ≡ map.insert self.old mark values) }
        ensures err { OnErr result (self.new ≡ self.old) }
    {
        put_hit(alloc, &mut self.by_key, mark, values)
    }

    /// Puts in all hits of a key, in place of those that it has. Refused for memory, and then all
    /// is as it was.
    pub fn put_entry(&mut self, key: Key, entry: Entry) -> Result<(), AllocError>
        ensures ok { OnOk result (TakesHits key entry self.old self.new) }
        ensures err { OnErr result (self.new ≡ self.old) }
    {
        put(&mut self.by_key, key, entry)
    }

    /// Takes the hit at a mark, and answers whether there was one. The key goes too if it has no
    /// hits left.
    pub fn take_hit(&mut self, mark: Mark) -> bool
        ensures left { self.new ≡ map.remove self.old mark }
        ensures found { result ≡ map.contains_key self.old mark }
    {
        take_hit(&mut self.by_key, mark)
    }
}
