//! The keys of a table, ranked by their first hits and cut at the size, and how many hits the keys
//! on both sides have.

ghost use Rattle.std.specs.Prelude.{◌≡◌, ℕ, ◌+◌, ◌<◌, ◌^◌, nat_lt, OnOk, OnErr, Some};
ghost use Rattle.std.specs.declared.cmp.Ordering.TheVariants.{Less};
ghost use Rattle.std.specs.FinMap as map;
ghost use Rattle.ft_hits.specs.declared.spot.Spot.{Spot};
ghost use Rattle.ft_hits.specs.Hits.{TakesHits, first_place, hitcount};
ghost use Rattle.ft_hits.specs.Marks.{mark_cmp, mark_of};
ghost use Rattle.ft_hits.specs.Spots.{spot_cmp};
ghost use Rattle.ft_table.specs.inner.Ascending.{IsRank};
ghost use Rattle.ft_table.specs.inner.Cut.{IsCutAtSize, IsSplit, all_counted};
ghost use Rattle.ft_table.specs.inner.Moves.{order_with, order_without, with_more, with_less};
ghost use Rattle.ft_table.specs.inner.Ordered.{IsWith, Lacks, Stands};
ghost use Rattle.ft_table.specs.Runs.{HasNone};
ghost use Rattle.ft_table.specs.Tabled.{order_of};

use crate::order::{Order, Standing};
use ft_hist::Key;
use ft_hits::{Entry, Hit, HitIndex, Mark};
use std::alloc::{AllocError, Global};

/// The keys of a table in the order of their first hits, cut at the size. A method is told the hits
/// as they are when it is called.
#[derive(Drop)]
pub(crate) struct Ranked {
    /// Where the first hits of all keys stand, and for how many keys there is room.
    pub(crate) order: Order,
    /// How many hits the keys in the table have.
    pub(crate) hits: u64,
    /// How many hits the keys outside have.
    pub(crate) dropped: u64,
}

impl Ranked {
    /// No keys.
    pub(crate) fn new(alloc: Global, size: u32) -> Ranked
        requires { 0 < size }
        ensures size { result.order.size ≡ size }
        ensures order { result.order.marks ≡ order_of map.empty }
        ensures cut { IsCutAtSize (hitcount map.empty) result }
    {
        Ranked {
            order: Order::new(alloc, size),
            hits: 0,
            dropped: 0,
        }
    }

    /// Counts a key with so many hits that has come into the order. The last key in the table may
    /// have gone out for it.
    fn count_in(&mut self, hits: &HitIndex, mark: Mark, count: u64)
        requires count { count ≡ hitcount hits.now mark.key }
        requires order { self.old.order.marks ≡ order_with hits.now mark }
        requires cut { IsSplit (hitcount hits.now) self.old.order.size
            (order_without hits.now mark.key) self.old.hits self.old.dropped }
        requires few { all_counted self.old + hitcount hits.now mark.key < 2 ^ 64 }
        ensures order { self.new.order ≡ self.old.order }
        ensures cut { IsCutAtSize (hitcount hits.now) self.new }
    {
        if self.order.is_inside(&mark) {
            self.hits += count;
            match self.order.first_outside() {
                None => {}
                Some(last) => {
                    let out = hits.count_of(&last.key);
                    self.hits -= out;
                    self.dropped += out;
                }
            }
        } else {
            self.dropped += count;
        }
    }

    /// Stops counting a key that stood in the order. The first key outside may have come in for it.
    fn count_out(&mut self, hits: &HitIndex, mark: Mark, standing: Standing)
        requires standing { Stands
            (record { marks = order_with hits.now mark; size = self.old.order.size }) mark standing }
        requires cut { IsSplit (hitcount hits.now) self.old.order.size (order_with hits.now mark)
            self.old.hits self.old.dropped }
        ensures order { self.new.order ≡ self.old.order }
        ensures cut { IsSplit (hitcount hits.now) self.new.order.size
            (order_without hits.now mark.key) self.new.hits self.new.dropped }
        ensures fewer { all_counted self.new + hitcount hits.now mark.key ≡ all_counted self.old }
    {
        let count = hits.count_of(&mark.key);
        if !standing.inside {
            self.dropped -= count;
            return;
        }
        match &standing.next {
            None => self.hits -= count,
            Some(next) => {
                let back = hits.count_of(&next.key);
                self.hits += back;
                self.hits -= count;
                self.dropped -= back;
            }
        }
    }

    /// Counts a hit that came to a key whose first hit stands at a mark.
    fn count_up(&mut self, hits: &HitIndex, first: Mark, inside: bool)
        requires inside { (i : ℕ) → IsRank mark_cmp (order_with hits.now first) first i
            → inside ≡ nat_lt i self.old.order.size }
        requires cut { IsSplit (with_less (hitcount hits.now) first.key) self.old.order.size
            (order_with hits.now first) self.old.hits self.old.dropped }
        requires some { 0 < hitcount hits.now first.key }
        requires few { all_counted self.old + 1 < 2 ^ 64 }
        ensures order { self.new.order ≡ self.old.order }
        ensures cut { IsSplit (hitcount hits.now) self.new.order.size (order_with hits.now first)
            self.new.hits self.new.dropped }
    {
        if inside {
            self.hits += 1;
        } else {
            self.dropped += 1;
        }
    }

    /// Stops counting a hit that went from a key whose first hit stood at a mark.
    fn count_down(&mut self, hits: &HitIndex, first: Mark, inside: bool)
        requires inside { (i : ℕ) → IsRank mark_cmp (order_with hits.now first) first i
            → inside ≡ nat_lt i self.old.order.size }
        requires cut { IsSplit (with_more (hitcount hits.now) first.key) self.old.order.size
            (order_with hits.now first) self.old.hits self.old.dropped }
        ensures order { self.new.order ≡ self.old.order }
        ensures cut { IsSplit (hitcount hits.now) self.new.order.size (order_with hits.now first)
            self.new.hits self.new.dropped }
    {
        if inside {
            self.hits -= 1;
        } else {
            self.dropped -= 1;
        }
    }

    /// Adds a hit at a mark where none stands. Refused for memory, or if the counts would pass 64
    /// bits; then all is as it was.
    pub(crate) fn add_hit(
        &mut self,
        alloc: Global,
        hits: &mut HitIndex,
        hit: &Hit,
    ) -> Result<(), AllocError>
        requires order { self.old.order.marks ≡ order_of hits.old }
        requires cut { IsCutAtSize (hitcount hits.old) self.old }
        requires absent { map.get hits.old (mark_of hit.now) ≡ None }
        ensures hits { OnOk result (hits.new ≡ map.insert hits.old (mark_of hit.now)
            hit.now.values) }
        ensures same_hits { OnErr result (hits.new ≡ hits.old) }
        ensures order { self.new.order.marks ≡ order_of hits.new }
        ensures cut { IsCutAtSize (hitcount hits.new) self.new }
        ensures size { self.new.order.size ≡ self.old.order.size }
    {
        if self.hits == u64::MAX - self.dropped {
            return Err(AllocError);
        }
        // A hit after its key's first leaves the order as it is.
        match hits.put_behind(alloc, hit)? {
            Some(spot) => {
                let first = Mark { spot, key: hit.key };
                let inside = self.order.is_inside(&first);
                self.count_up(hits, first, inside);
                Ok(())
            }
            None => {
                let mark = Mark {
                    spot: hit.spot,
                    key: hit.key,
                };
                self.add_first(alloc, hits, mark, hit.values)
            }
        }
    }

    /// Adds a hit before all others of its key. Refused for memory, and then all is as it was.
    fn add_first(
        &mut self,
        alloc: Global,
        hits: &mut HitIndex,
        mark: Mark,
        values: [i64; 3],
    ) -> Result<(), AllocError>
        requires order { self.old.order.marks ≡ order_of hits.old }
        requires cut { IsCutAtSize (hitcount hits.old) self.old }
        requires absent { map.get hits.old mark ≡ None }
        requires early { (spot : Spot) → first_place hits.old mark.key ≡ Some spot
            → spot_cmp mark.spot spot ≡ Less }
        requires few { all_counted self.old + 1 < 2 ^ 64 }
        ensures hits { OnOk result (hits.new ≡ map.insert hits.old mark values) }
        ensures same_hits { OnErr result (hits.new ≡ hits.old) }
        ensures order { self.new.order.marks ≡ order_of hits.new }
        ensures cut { IsCutAtSize (hitcount hits.new) self.new }
        ensures size { self.new.order.size ≡ self.old.order.size }
    {
        match hits.first_at(&mark.key) {
            None => {
                self.put_first(alloc, hits, mark, values)?;
                self.count_in(hits, mark, 1);
            }
            Some(spot) => {
                let first = Mark {
                    spot,
                    key: mark.key,
                };
                let standing = self.order.standing(&first);
                self.put_first(alloc, hits, mark, values)?;
                self.order.remove(&first);
                self.count_up(hits, first, standing.inside);
                self.count_out(hits, first, standing);
                let count = hits.count_of(&mark.key);
                self.count_in(hits, mark, count);
            }
        }
        Ok(())
    }

    /// Puts a hit at a mark, and the mark into the order, but counts neither. Refused for memory, and
    /// then both are as they were.
    fn put_first(
        &mut self,
        alloc: Global,
        hits: &mut HitIndex,
        mark: Mark,
        values: [i64; 3],
    ) -> Result<(), AllocError>
        requires order { self.old.order.marks ≡ order_of hits.old }
        requires absent { map.get hits.old mark ≡ None }
        ensures hits { OnOk result (hits.new ≡ map.insert hits.old mark values) }
        ensures same_hits { OnErr result (hits.new ≡ hits.old) }
        ensures order { OnOk result (IsWith mark self.old.order self.new.order) }
        ensures same_order { OnErr result (self.new.order ≡ self.old.order) }
        ensures counts { (self.new.hits ≡ self.old.hits) × (self.new.dropped ≡ self.old.dropped) }
    {
        self.order.insert(mark)?;
        match hits.put_hit(alloc, mark, values) {
            Ok(()) => Ok(()),
            Err(refused) => {
                self.order.remove(&mark);
                Err(refused)
            }
        }
    }

    /// Puts in all hits of a key that has none yet. Refused for memory, or if the counts would pass
    /// 64 bits; then all is as it was.
    pub(crate) fn add_key(
        &mut self,
        hits: &mut HitIndex,
        key: Key,
        entry: Entry,
    ) -> Result<(), AllocError>
        requires order { self.old.order.marks ≡ order_of hits.old }
        requires cut { IsCutAtSize (hitcount hits.old) self.old }
        requires absent { HasNone key hits.old }
        ensures hits { OnOk result (TakesHits key entry hits.old hits.new) }
        ensures same_hits { OnErr result (hits.new ≡ hits.old) }
        ensures order { self.new.order.marks ≡ order_of hits.new }
        ensures cut { IsCutAtSize (hitcount hits.new) self.new }
        ensures size { self.new.order.size ≡ self.old.order.size }
    {
        let count = entry.len() as u64;
        if count > u64::MAX - self.dropped - self.hits {
            return Err(AllocError);
        }
        match entry.first() {
            None => Ok(()),
            Some(spot) => {
                let mark = Mark { spot, key };
                self.order.insert(mark)?;
                match hits.put_entry(key, entry) {
                    Ok(()) => {
                        self.count_in(hits, mark, count);
                        Ok(())
                    }
                    Err(refused) => {
                        self.order.remove(&mark);
                        Err(refused)
                    }
                }
            }
        }
    }

    /// Takes the hit at a mark away, if one stands there.
    pub(crate) fn drop_hit(&mut self, hits: &mut HitIndex, mark: Mark)
        requires order { self.old.order.marks ≡ order_of hits.old }
        requires cut { IsCutAtSize (hitcount hits.old) self.old }
        ensures hits { hits.new ≡ map.remove hits.old mark }
        ensures order { self.new.order.marks ≡ order_of hits.new }
        ensures cut { IsCutAtSize (hitcount hits.new) self.new }
        ensures size { self.new.order.size ≡ self.old.order.size }
    {
        match hits.first_at(&mark.key) {
            None => {}
            Some(spot) => {
                let first = Mark {
                    spot,
                    key: mark.key,
                };
                let standing = self.order.standing(&first);
                if hits.take_hit(mark) {
                    self.count_down(hits, first, standing.inside);
                    self.settle(hits, first, standing);
                }
            }
        }
    }

    /// Moves a key from where its first hit stood to where it stands now, which isn't before that,
    /// or takes it out if it has no hits any more.
    fn settle(&mut self, hits: &HitIndex, first: Mark, standing: Standing)
        requires order { self.old.order.marks ≡ order_with hits.now first }
        requires cut { IsCutAtSize (hitcount hits.now) self.old }
        requires standing { Stands self.old.order first standing }
        requires late { (spot : Spot) → first_place hits.now first.key ≡ Some spot
            → spot_cmp spot first.spot ≡ Less → ⊥ }
        ensures order { self.new.order.marks ≡ order_of hits.now }
        ensures cut { IsCutAtSize (hitcount hits.now) self.new }
        ensures size { self.new.order.size ≡ self.old.order.size }
    {
        match hits.first_at(&first.key) {
            None => {
                self.order.remove(&first);
                self.count_out(hits, first, standing);
            }
            Some(spot) => {
                if first.spot < spot {
                    let mark = Mark {
                        spot,
                        key: first.key,
                    };
                    self.order.move_on(&first, mark);
                    self.count_out(hits, first, standing);
                    let count = hits.count_of(&mark.key);
                    self.count_in(hits, mark, count);
                }
            }
        }
    }
}
