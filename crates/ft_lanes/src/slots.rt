//! Where the events of one CPU stand.

ghost use Rattle.std.specs.Prelude.{◌≡◌, ◌+◌, ◌≤◌, ◌<◌, ◌^◌, length, OnOk, OnErr, IfOk};
ghost use Rattle.std.specs.FinMap as map;

use crate::rows::{STRUCK, place_of, strike};
use std::alloc::{AllocError, Global};
use std::marker::Model;

/// The places of one CPU's events in a store, by line number, and the next number.
///
/// A row for each line, by line number. A slot that is taken out leaves its row struck, and the
/// struck rows go as soon as there are as many as others.
#[derive(Drop)]
pub(crate) struct Slots {
    rows: Vec<(u32, u32)>,
    struck: usize,
    next: u64,
}

impl Model for Slots {
    ghost use Rattle.ft_lanes.specs.inner.Slots.{SlotsOf, slots_of};
    ghost use Rattle.ft_lanes.specs.inner.Rows.{held_rows, AreRows};
    ghost use Rattle.ft_lanes.specs.inner.Codes.{slots_code};

    ghost Value = { SlotsOf };

    ghost coded = { slots_code };

    ghost view = { λ s. slots_of (held_rows s.rows.items) s.next };

    ghost invariant = { λ s. AreRows s.struck s.next s.rows.items };
}

impl Slots {
    ghost use Rattle.ft_lanes.specs.Held.{number_limit};
    ghost use Rattle.ft_lanes.specs.inner.Slots.{no_slots, slots_of, slots_with, slots_without};
    ghost use Rattle.ft_lanes.specs.inner.Rows.{struck_place, held_rows, Rise, AreBelow};

    /// No slots; the first line is 1.
    pub(crate) fn new(alloc: Global) -> Slots
        ensures { result ≡ no_slots }
    {
        Slots {
            rows: Vec::new(alloc),
            struck: 0,
            next: 1,
        }
    }

    /// These lines with their places, by rising line numbers below the next one.
    pub(crate) fn of(rows: Vec<(u32, u32)>, next: u64) -> Slots
        requires rising { Rise rows.items }
        requires below { AreBelow next rows.items }
        requires held { held_rows rows.items ≡ rows.items }
        ensures { result ≡ slots_of rows.items next }
    {
        Slots {
            rows,
            struck: 0,
            next,
        }
    }

    /// Adds a place at the next line number, which is at most 4,294,967,295, and returns that
    /// number. Refused for memory, and then all is as it was.
    pub(crate) fn push(&mut self, place: u32) -> Result<u32, AllocError>
        requires numbered { self.old.next ≤ number_limit }
        requires placed { place < struck_place }
        ensures ok { OnOk result (self.new ≡ slots_with self.old place) }
        ensures line { IfOk result (λ line. line ≡ self.old.next) }
        ensures grows { OnOk result (map.len self.new.places ≡ map.len self.old.places + 1) }
        ensures err { OnErr result (self.new ≡ self.old) }
    {
        let line = self.next as u32;
        self.rows.push((line, place))?;
        self.next += 1;
        Ok(line)
    }

    /// The place of a line's event.
    pub(crate) fn get(&self, line: u32) -> Option<u32>
        ensures { result ≡ map.get self.now.places line }
    {
        place_of(&self.rows, line)
    }

    /// Takes the slot of a line out, if there is one, and returns its place.
    pub(crate) fn take(&mut self, line: u32) -> Option<u32>
        ensures value { result ≡ map.get self.old.places line }
        ensures rest { self.new ≡ slots_without self.old line }
    {
        let place = strike(&mut self.rows, line);
        self.struck += usize::from(place.is_some());
        self.forget_struck();
        place
    }

    /// Takes the struck rows away if they are at least as many as the others.
    fn forget_struck(&mut self)
        ensures { self.new ≡ self.old }
    {
        if self.struck >= self.len() {
            self.rows.retain(|row| row.1 != STRUCK);
            self.struck = 0;
        }
    }

    /// How many slots there are.
    pub(crate) fn len(&self) -> usize
        ensures { result ≡ map.len self.now.places }
    {
        self.rows.len() - self.struck
    }

    /// The rows, of which those that are not struck are the lines with their places, by line
    /// number.
    pub(crate) fn rows(&self) -> &[(u32, u32)]
        ensures value { held_rows result.now ≡ map.entries self.now.places }
        ensures fits { length (held_rows result.now) < 2 ^ 63 }
    {
        &self.rows
    }

    /// The number of the next line.
    pub(crate) fn next(&self) -> u64
        ensures value { result ≡ self.now.next }
        ensures above { AreBelow result (map.entries self.now.places) }
    {
        self.next
    }
}
