//! Tables: the hits of one trigger, by key, and the order of the keys.

ghost use Rattle.std.specs.Prelude.{◌≡◌, ◌↔◌, ◌+◌, ◌-◌, ◌<◌, ◌≤◌, ◌++◌, length, take, slice_get, option_map, OnOk, OnErr, IfOk, IsTrue};
ghost use Rattle.std.specs.Prelude.{map as list_map};
ghost use Rattle.std.specs.FinMap as map;
ghost use Rattle.ft_text.specs.Fronts.{IsFront};
ghost use Rattle.ft_table.specs.Rows.{counted_row};

use crate::ranked::Ranked;
use crate::row::{Row, Totals};
use crate::sorting::sort_rows;
use crate::text::{write_heading, write_rows};
use ft_blocks::Entries;
use ft_hist::{Key, SortItem, Trigger, Work};
use ft_hits::{Entry, Hit, HitIndex, Mark, Spot, count_puts};
use std::alloc::{AllocError, Global};
use std::marker::Model;

/// The keys at a table's edge.
#[derive(Clone, Copy, Debug)]
pub struct Edge {
    /// The key in the table whose first hit is last.
    pub last_in: Option<Key>,
    /// The key outside whose first hit is first.
    pub first_out: Option<Key>,
}

/// The hits of one trigger, and for how many keys there is room.
///
/// Contracts see the hits by spot and key, and the size. Each key's sums, the order of first hits
/// and the totals are kept beside the hits, so that no question walks the hits.
#[derive(Drop)]
pub struct Table {
    alloc: Global,
    hits: HitIndex,
    ranked: Ranked,
}

impl Model for Table {
    ghost use Rattle.ft_table.specs.Tabled.{Tabled};
    ghost use Rattle.ft_table.specs.Codes.{tabled_code};

    ghost Value = { Tabled };

    ghost coded = { tabled_code };

    ghost use Rattle.ft_table.specs.inner.InStep.{table_of, IsInStep};

    ghost view = { table_of };

    ghost invariant = { IsInStep };
}

impl Table {
    ghost use Rattle.std.specs.Prelude.{None};
    ghost use Rattle.std.specs.Map.{keys_of};
    ghost use Rattle.ft_table.specs.Growth.{with_hit};
    ghost use Rattle.ft_table.specs.OneKey.{without_hit};
    ghost use Rattle.ft_hits.specs.Hits.{hit_after};
    ghost use Rattle.ft_table.specs.Rows.{row_at, rows_of, totals_of};
    ghost use Rattle.ft_table.specs.Rows.{AllFit, table_text};
    ghost use Rattle.ft_table.specs.Runs.{HasNone, TakesRun};
    ghost use Rattle.ft_table.specs.Text.{heading};
    ghost use Rattle.ft_table.specs.Tabled.{order_of, marks_from, is_before, is_in, last_in, first_out};

    /// A table without hits, with room for at least one key. It takes no memory.
    pub fn new(alloc: Global, size: u32) -> Table
        requires { 0 < size }
        ensures { result ≡ record { hits = map.empty; size = size } }
    {
        Table {
            alloc,
            hits: HitIndex::new(alloc),
            ranked: Ranked::new(alloc, size),
        }
    }

    /// Puts a hit in at a mark where none stands. Counts one put in `work`, refused or not.
    ///
    /// Refused for memory, or if the hits would be too many for 64 bits; then the table is as it
    /// was.
    pub fn insert(&mut self, hit: Hit, work: &mut Work) -> Result<(), AllocError>
        requires { map.get self.old.hits (record { spot = hit.spot; key = hit.key }) ≡ None }
        ensures ok { OnOk result (self.new
            ≡ with_hit self.old (record { spot = hit.spot; key = hit.key }) hit.values) }
        ensures err { OnErr result (self.new ≡ self.old) }
        ensures puts { work.new.puts ≡ work.old.puts + 1 }
        ensures evals { work.new.evals ≡ work.old.evals }
    {
        work.tick_put();
        self.ranked.add_hit(self.alloc, &mut self.hits, &hit)
    }

    /// Puts in all hits of a key that has none yet: those of a run, by spot; of several at one
    /// spot, the first. Counts a put in `work` for each hit of the run, refused or not. It is quick
    /// if the spots of the run ascend.
    ///
    /// Refused for memory, or if the hits would be too many for 64 bits; then the table is as it
    /// was.
    pub fn put_key(
        &mut self,
        key: Key,
        run: Vec<(Spot, [i64; 3])>,
        work: &mut Work,
    ) -> Result<(), AllocError>
        requires { HasNone key self.old.hits }
        ensures ok { OnOk result (TakesRun key run.items self.old self.new) }
        ensures err { OnErr result (self.new ≡ self.old) }
        ensures puts { work.new.puts ≡ work.old.puts + length run.items }
        ensures evals { work.new.evals ≡ work.old.evals }
    {
        count_puts(&run, work);
        let entry = Entry::of(self.alloc, run)?;
        self.ranked.add_key(&mut self.hits, key, entry)
    }

    /// Takes a hit away, if one stands there. It needs no memory.
    pub fn remove(&mut self, spot: Spot, key: Key)
        ensures { self.new ≡ without_hit self.old (record { spot = spot; key = key }) }
    {
        self.ranked.drop_hit(&mut self.hits, Mark { spot, key });
    }

    /// Whether a hit stands at a spot under a key.
    pub fn holds(&self, spot: Spot, key: Key) -> bool
        ensures { result ≡ map.contains_key self.now.hits (record { spot = spot; key = key }) }
    {
        self.hits.holds(Mark { spot, key })
    }

    /// Whether it has no hits at all.
    pub fn is_empty(&self) -> bool
        ensures { IsTrue result ↔ self.now.hits ≡ map.empty }
    {
        self.ranked.order.inside() == 0
    }

    /// For how many keys there is room.
    pub fn size(&self) -> u32
        ensures { result ≡ self.now.size }
    {
        self.ranked.order.size()
    }

    /// The mark of the key that stands so many places before the first one outside, in order of
    /// first hits, if there is one. It takes a step for each place.
    pub fn mark_near_edge(&self, places: usize) -> Option<Mark>
        requires { places ≤ self.now.size }
        ensures { result ≡ slice_get (order_of self.now.hits) (self.now.size - places) }
    {
        self.ranked.order.mark_near_edge(places)
    }

    /// Where the first hits of all keys stand, in order, from a mark on.
    pub fn marks_from(&self, mark: &Mark) -> Entries<'_, Mark, ()>
        ensures { keys_of result ≡ marks_from mark.now (order_of self.now.hits) }
    {
        self.ranked.order.marks_from(mark)
    }

    /// Whether a key's first hit stands before a mark.
    pub fn is_before(&self, key: &Key, mark: &Mark) -> bool
        ensures { result ≡ is_before self.now.hits key.now mark.now }
    {
        match self.hits.first_at(key) {
            Some(spot) => Mark { spot, key: *key } < *mark,
            None => false,
        }
    }

    /// Whether a key is in the table.
    pub fn is_in(&self, key: &Key) -> bool
        ensures { result ≡ is_in self.now key.now }
    {
        match self.hits.first_at(key) {
            Some(spot) => self.ranked.order.is_inside(&Mark { spot, key: *key }),
            None => false,
        }
    }

    /// The row of a key, if it is in the table.
    pub fn row(&self, key: &Key) -> Option<Row>
        ensures { result ≡ row_at self.now key.now }
    {
        if self.is_in(key) {
            Some(row_of(&self.hits, key))
        } else {
            None
        }
    }

    /// The rows of the keys in the table, sorted by the sort items from the left, each with the
    /// least first unless it is `descending`, and by key if these leave them equal.
    pub fn rows(&self, sort: &[SortItem]) -> Result<Vec<Row>, AllocError>
        ensures { IfOk result (λ rows. rows.items ≡ rows_of self.now sort.now) }
    {
        let order = &self.ranked.order;
        let mut rows = first_rows(self.alloc, &self.hits, order.marks(), order.inside())?;
        sort_rows(&mut rows, sort);
        Ok(rows)
    }

    /// The whole text of a trigger's table: the lines above its rows, and what `write` adds. Refused
    /// for memory.
    pub fn text(&self, alloc: Global, trigger: &Trigger) -> Result<Vec<u8>, AllocError>
        requires { AllFit self.now trigger.now }
        ensures { IfOk result (λ text. text.items
            ≡ heading trigger.now ++ table_text self.now trigger.now) }
    {
        let mut text = Vec::new(alloc);
        write_heading(trigger, &mut text)?;
        self.write(trigger, &mut text)?;
        Ok(text)
    }

    /// Adds the text of a trigger's table: its rows by the trigger's sort items, one per line, and
    /// the totals below an empty line. After a refusal the vector holds its old bytes.
    pub fn write(&self, trigger: &Trigger, text: &mut Vec<u8>) -> Result<(), AllocError>
        requires { AllFit self.now trigger.now }
        ensures ok { OnOk result (text.new.items
            ≡ text.old.items ++ table_text self.now trigger.now) }
        ensures err { OnErr result (text.new.items ≡ text.old.items) }
    {
        let len = text.len();
        match self.write_parts(trigger, text) {
            Ok(()) => Ok(()),
            Err(refused) => {
                text.truncate(len);
                Err(refused)
            }
        }
    }

    /// Adds the text of a trigger's table. What it added before a refusal stays.
    fn write_parts(&self, trigger: &Trigger, text: &mut Vec<u8>) -> Result<(), AllocError>
        requires { AllFit self.now trigger.now }
        ensures ok { OnOk result (text.new.items
            ≡ text.old.items ++ table_text self.now trigger.now) }
        ensures err { OnErr result (IsFront text.old.items text.new.items) }
    {
        crate::laws::one_row_order();
        let rows = self.rows(trigger.sort())?;
        write_rows(trigger, &rows, self.totals(), text)
    }

    /// How many hits are counted, under how many keys, and how many are dropped.
    pub fn totals(&self) -> Totals
        ensures { result ≡ totals_of self.now }
    {
        Totals {
            hits: self.ranked.hits,
            entries: self.ranked.order.inside() as u64,
            dropped: self.ranked.dropped,
        }
    }

    /// The keys at the table's edge: the last one in by first hit, and the first one outside.
    pub fn edge(&self) -> Edge
        ensures last { result.last_in ≡ last_in self.now }
        ensures first { result.first_out ≡ first_out self.now }
    {
        Edge {
            last_in: key_of(&self.ranked.order.last_inside()),
            first_out: key_of(&self.ranked.order.first_outside()),
        }
    }

    /// The first hit of a key after a spot; without a spot, its first.
    pub fn hit_after(&self, key: &Key, after: Option<Spot>) -> Option<Hit>
        ensures { result ≡ hit_after self.now.hits key.now after }
    {
        self.hits.next_hit(key, after)
    }
}

/// What the hits of a key come to.
fn row_of(hits: &HitIndex, key: &Key) -> Row
    ensures { result ≡ counted_row hits.now key.now }
{
    Row {
        key: *key,
        hitcount: hits.count_of(key),
        sums: hits.sums_at(key),
    }
}

/// What the hits of each of the first so many keys come to.
fn first_rows(
    alloc: Global,
    hits: &HitIndex,
    marks: Entries<'_, Mark, ()>,
    count: usize,
) -> Result<Vec<Row>, AllocError>
    ensures { IfOk result (λ rows. rows.items
        ≡ list_map (λ entry. counted_row hits.now entry.0.key) (take count marks.entry)) }
{
    marks
        .take(count)
        .map(|entry| row_of(hits, &entry.0.key))
        .collect(alloc)
}

/// The key of a mark, if there is one.
fn key_of(mark: &Option<Mark>) -> Option<Key>
    ensures { result ≡ option_map (λ mark. mark.key) mark.now }
{
    match mark {
        Some(mark) => Some(mark.key),
        None => None,
    }
}
