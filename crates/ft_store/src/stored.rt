//! `Stored`: a reference to one event of a store, and what it tells without the rest.

ghost use Rattle.std.specs.Prelude.{◌≡◌, ◌≤◌};

use crate::store::Store;
use ft_fields::{Event, Field, Name};

/// The event at a place of a store, as a reference to it.
#[derive(Clone, Copy)]
pub struct Stored<'a> {
    store: &'a Store,
    place: u32,
}

impl<'a> Stored<'a> {
    ghost use Rattle.ft_fields.specs.Traced.{last_stamp, name_of};
    ghost use Rattle.ft_store.specs.Stored.{bare, held, field_number, stored_at};

    /// The event at a place of a store.
    pub fn new(store: &'a Store, place: u32) -> Stored<'a>
        ensures { held result ≡ stored_at store.now place }
    {
        Stored { store, place }
    }

    /// The store.
    pub(crate) fn store(&self) -> &'a Store
        ensures { result.now ≡ self.now.store.now }
    {
        self.store
    }

    /// The event.
    pub fn event(&self) -> Event
        ensures { result ≡ held self.now }
    {
        self.store.get(self.place as usize)
    }

    /// The event without its names: what it says in numbers. No name is read.
    pub fn bare(&self) -> Event
        ensures { result ≡ bare (held self.now) }
    {
        self.store.bare(self.place as usize)
    }

    /// Which event it is.
    pub fn name(&self) -> Name
        ensures { result ≡ name_of (held self.now).body }
    {
        self.store.name_at(self.place as usize)
    }

    /// Its stamp, in microseconds, which is at most an event's.
    pub fn stamp(&self) -> u64
        ensures value { result ≡ (held self.now).stamp }
        ensures fits { result ≤ last_stamp }
    {
        self.store.stamp_at(self.place as usize)
    }

    /// A law: its stamp is at most an event's. It reads nothing.
    #[inline(always)]
    pub fn stamp_fits(&self)
        ensures { (held self.now).stamp ≤ last_stamp }
    {
        self.store.stamps_fit();
    }

    /// The number that a field of it holds, or `None` if it has no such field or the field holds a
    /// text. The event is not unpacked for it, and no name is read.
    pub fn number(&self, field: Field) -> Option<i64>
        ensures { result ≡ field_number (held self.now) field }
    {
        self.store.number_at(self.place as usize, field)
    }

    /// Its place in the store.
    pub fn place(&self) -> u32
        ensures { result ≡ self.now.place }
    {
        self.place
    }
}
