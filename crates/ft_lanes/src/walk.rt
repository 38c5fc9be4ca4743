//! Walks over held events.

ghost use Rattle.std.specs.Prelude.{length};
ghost use Rattle.std.specs.Iterator.{at_most};
ghost use Rattle.std.specs.Map.Iter.{TakesFirst};
ghost use Rattle.ft_lanes.specs.Walks.{traced_line, itself};

use crate::rows::next_held;
use crate::slots::Slots;
use ft_store::{Store, Stored};
use std::collections::btree_map::Iter;
use std::marker::Model;

/// The events of one CPU with their line numbers, by line number.
#[derive(Drop)]
pub struct Lines<'a> {
    store: &'a Store,
    rows: &'a [(u32, u32)],
}

impl<'a> Model for Lines<'a> {
    ghost use Rattle.std.specs.Prelude.{ℕ, List};
    ghost use Rattle.ft_fields.specs.Traced.{Traced};
    ghost use Rattle.ft_maps.specs.Mapped.{entries_by};
    ghost use Rattle.ft_store.specs.Stored.{stored_at};
    ghost use Rattle.ft_lanes.specs.inner.Rows.{held_rows};

    ghost Value = { List (ℕ × Traced) };

    ghost view = { λ l. entries_by (stored_at l.store.now) (held_rows l.rows.now) };
}

impl<'a> Lines<'a> {
    ghost use Rattle.std.specs.Prelude.{◌≡◌};
    ghost use Rattle.ft_maps.specs.Mapped.{entries_by};
    ghost use Rattle.ft_store.specs.Stored.{stored_at};
    ghost use Rattle.ft_lanes.specs.inner.Rows.{held_rows};

    /// The events at the places of these rows, except the struck ones.
    pub(crate) fn new(store: &'a Store, rows: &'a [(u32, u32)]) -> Lines<'a>
        ensures { result ≡ entries_by (stored_at store.now) (held_rows rows.now) }
    {
        Lines { store, rows }
    }
}

impl<'a> Iterator for Lines<'a> {
    type Item = (u32, Stored<'a>);

    ghost next_gives = { TakesFirst traced_line };

    ghost remaining = { λ s. at_most (length s) };

    fn next(&mut self) -> Option<(u32, Stored<'a>)> {
        match next_held(&mut self.rows) {
            Some((line, place)) => Some((line, Stored::new(self.store, place))),
            None => None,
        }
    }
}

/// The lane of one CPU.
#[derive(Drop)]
pub struct Lane<'a> {
    store: &'a Store,
    slots: &'a Slots,
}

impl<'a> Model for Lane<'a> {
    ghost use Rattle.ft_lanes.specs.Held.{Lane as Held};
    ghost use Rattle.ft_store.specs.Stored.{stored_at};
    ghost use Rattle.ft_lanes.specs.inner.Slots.{lane_by};
    ghost use Rattle.ft_lanes.specs.Codes.{lane_code};

    ghost Value = { Held };

    ghost coded = { lane_code };

    ghost view = { λ l. lane_by (stored_at l.store.now) l.slots.now };
}

impl<'a> Lane<'a> {
    ghost use Rattle.std.specs.Prelude.{◌≡◌, ◌<◌, ◌^◌};
    ghost use Rattle.std.specs.List.{AllByRecursion};
    ghost use Rattle.std.specs.Map.{keys_of};
    ghost use Rattle.std.specs.Map.Iter.{ShowsInOrder};
    ghost use Rattle.std.specs.FinMap as map;
    ghost use Rattle.ft_store.specs.Stored.{stored_at};
    ghost use Rattle.ft_lanes.specs.inner.Slots.{lane_by};

    /// The events at the places of these slots in a store.
    pub(crate) fn new(store: &'a Store, slots: &'a Slots) -> Lane<'a>
        ensures { result ≡ lane_by (stored_at store.now) slots.now }
    {
        Lane { store, slots }
    }

    /// The number of its next line, which is above all its lines.
    pub(crate) fn next(&self) -> u64
        ensures value { result ≡ self.now.next }
        ensures above { AllByRecursion (λ line. line < result) (keys_of (map.entries self.now.events)) }
    {
        self.slots.next()
    }

    /// Its events with their line numbers, by line number.
    pub fn lines(&self) -> Lines<'a>
        ensures rest { result ≡ map.entries self.now.events }
        ensures fits { length result < 2 ^ 63 }
        // A loop takes them from the front.
        ensures runs { ShowsInOrder traced_line }
    {
        Lines::new(self.store, self.slots.rows())
    }
}

/// The lanes with their CPUs, by CPU.
#[derive(Drop)]
pub struct ByCpu<'a> {
    store: &'a Store,
    lanes: Iter<'a, u16, Slots>,
}

impl<'a> Model for ByCpu<'a> {
    ghost use Rattle.std.specs.Prelude.{ℕ, List};
    ghost use Rattle.ft_maps.specs.Mapped.{entries_by};
    ghost use Rattle.ft_lanes.specs.Held.{Lane as Held};
    ghost use Rattle.ft_store.specs.Stored.{stored_at};
    ghost use Rattle.ft_lanes.specs.inner.Slots.{lane_by};
    ghost use Rattle.ft_lanes.specs.Codes.{walk_code};

    ghost Value = { List (ℕ × Held) };

    ghost coded = { walk_code };

    ghost view = { λ w. entries_by (lane_by (stored_at w.store.now)) w.lanes };
}

impl<'a> ByCpu<'a> {
    ghost use Rattle.std.specs.Prelude.{◌≡◌};
    ghost use Rattle.ft_maps.specs.Mapped.{entries_by};
    ghost use Rattle.ft_store.specs.Stored.{stored_at};
    ghost use Rattle.ft_lanes.specs.inner.Slots.{lane_by};

    /// The lanes of these slots in a store.
    pub(crate) fn new(store: &'a Store, lanes: Iter<'a, u16, Slots>) -> ByCpu<'a>
        ensures { result ≡ entries_by (lane_by (stored_at store.now)) lanes.entry }
    {
        ByCpu { store, lanes }
    }
}

impl<'a> Iterator for ByCpu<'a> {
    type Item = (u16, Lane<'a>);

    ghost next_gives = { TakesFirst itself };

    ghost remaining = { λ s. at_most (length s) };

    fn next(&mut self) -> Option<(u16, Lane<'a>)> {
        match self.lanes.next() {
            Some((cpu, slots)) => Some((*cpu, Lane::new(self.store, slots))),
            None => None,
        }
    }
}
