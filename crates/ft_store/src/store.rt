//! `Store` and its calls: events packed one after the other.

ghost use Rattle.std.specs.Prelude.{◌≡◌, ◌≤◌, ◌++◌, ◌∷◌, ℕ, [], length, map, take, OnOk, OnErr, IfOk};
ghost use Rattle.ft_fields.specs.Borrowed.{event_told};
ghost use Rattle.ft_store.specs.inner.Packing.{event_names, event_of, packed, moved, width, IsSoundPacked};

use crate::packed::{LAST_PLACE, Packed, push_names};
use crate::stored::Stored;
use ft_fields::{Event, EventRef, Field, Name};
use std::alloc::{AllocError, Global};
use std::marker::Model;

/// Events one after the other.
///
/// The bytes of all names stand in one text, and the rest of each event in 56 bytes beside it.
/// Contracts see the list of the events.
#[derive(Drop)]
pub struct Store {
    names: Vec<u8>,
    events: Vec<Packed>,
}

impl Model for Store {
    ghost use Rattle.std.specs.Prelude.{List, length};
    ghost use Rattle.ft_fields.specs.Traced.{Traced};
    ghost use Rattle.ft_store.specs.Codes.{store_code};
    ghost use Rattle.ft_store.specs.inner.Packing.{all_unpacked, AreLaid};

    ghost Value = { List Traced };

    ghost coded = { store_code };

    ghost view = { λ s. all_unpacked s.names.items s.events.items };

    ghost invariant = { λ s. AreLaid 0 s.events.items (length s.names.items) };
}

/// Adds an event to those that are packed, and its names to their text. After a refusal some of
/// the names may be there.
#[inline(always)]
fn push_packed(
    names: &mut Vec<u8>,
    events: &mut Vec<Packed>,
    event: &EventRef<'_>,
) -> Result<(), AllocError>
    ensures names { OnOk result
        (names.new.items ≡ names.old.items ++ event_names (event_told event.now)) }
    ensures events { OnOk result (events.new.items
        ≡ events.old.items ++ packed (length names.old.items) (event_told event.now) ∷ []) }
    ensures sound { OnOk result (IsSoundPacked (packed (length names.old.items) (event_told event.now))) }
    ensures err { OnErr result (take (length names.old.items) names.new.items ≡ names.old.items) }
    ensures same { OnErr result (events.new.items ≡ events.old.items) }
{
    let begins = names.len();
    if begins > LAST_PLACE {
        return Err(AllocError);
    }
    events.reserve(1)?;
    push_names(names, event)?;
    events.push_reserved(Packed::of(event, begins as u32));
    Ok(())
}

/// Adds packed events after others, their names so many bytes further on. After a refusal
/// some of them may be there.
fn push_moved(events: &mut Vec<Packed>, more: &[Packed], by: usize) -> Result<(), AllocError>
    ensures ok { OnOk result (events.new.items ≡ events.old.items ++ map (moved by) more.now) }
    ensures err { OnErr result (take (length events.old.items) events.new.items ≡ events.old.items) }
{
    events.reserve(more.len())?;
    for packed in more {
        events.push(packed.moved(by)?)?;
    }
    Ok(())
}

/// Adds packed events after others, and the text of their names after theirs. After a refusal
/// some of both may be there.
fn append_packed(
    names: &mut Vec<u8>,
    events: &mut Vec<Packed>,
    text: &[u8],
    more: &[Packed],
) -> Result<(), AllocError>
    ensures names { OnOk result (names.new.items ≡ names.old.items ++ text.now) }
    ensures events { OnOk result
        (events.new.items ≡ events.old.items ++ map (moved (length names.old.items)) more.now) }
    ensures names_err { OnErr result
        (take (length names.old.items) names.new.items ≡ names.old.items) }
    ensures events_err { OnErr result
        (take (length events.old.items) events.new.items ≡ events.old.items) }
{
    let by = names.len();
    names.extend_from_slice(text)?;
    push_moved(events, more, by)
}

impl Store {
    ghost use Rattle.ft_fields.specs.Traced.{last_cpu, last_stamp, name_of};
    ghost use Rattle.ft_store.specs.Stored.{bare, held, field_number, stored_at};

    /// No events. It takes no memory.
    pub fn new(alloc: Global) -> Store
        ensures { result ≡ [] }
    {
        Store {
            names: Vec::new(alloc),
            events: Vec::new(alloc),
        }
    }

    /// No events, with room for so many and for so many bytes of names. Refused for memory.
    pub fn with_room(alloc: Global, events: usize, names: usize) -> Result<Store, AllocError>
        ensures { IfOk result (λ store. store ≡ []) }
    {
        Ok(Store {
            names: Vec::with_capacity(alloc, names)?,
            events: Vec::with_capacity(alloc, events)?,
        })
    }

    /// These events, in this order. Refused for memory.
    pub fn of(alloc: Global, events: &[Event]) -> Result<Store, AllocError>
        ensures { IfOk result (λ store. store ≡ events.now) }
    {
        let mut store = Store::new(alloc);
        for event in events {
            store.push(event)?;
        }
        Ok(store)
    }

    /// How many events there are.
    pub fn len(&self) -> usize
        ensures { result ≡ length self.now }
    {
        self.events.len()
    }

    /// For how many more events there is room before the store grows, more or less.
    pub fn room(&self) -> usize {
        self.events.capacity().saturating_sub(self.events.len())
    }

    /// Adds an event after the others. Refused for memory, or if the names of the others take 4
    /// GiB: then all is as it was.
    pub fn push(&mut self, event: &Event) -> Result<(), AllocError>
        ensures ok { OnOk result (self.new ≡ self.old ++ event.now ∷ []) }
        ensures err { OnErr result (self.new ≡ self.old) }
    {
        self.push_ref(&event.borrowed())
    }

    /// Adds an event, whose names are borrowed, after the others. Refused for memory, or if the
    /// names of the others take 4 GiB: then all is as it was.
    pub fn push_ref(&mut self, event: &EventRef<'_>) -> Result<(), AllocError>
        ensures ok { OnOk result (self.new ≡ self.old ++ event_told event.now ∷ []) }
        ensures err { OnErr result (self.new ≡ self.old) }
    {
        let begins = self.names.len();
        if let Err(refused) = push_packed(&mut self.names, &mut self.events, event) {
            self.names.truncate(begins);
            return Err(refused);
        }
        Ok(())
    }

    /// Adds an event of another store after the others, without unpacking it. Refused for memory,
    /// or if the names of the others take 4 GiB: then all is as it was.
    pub fn push_from(&mut self, stored: &Stored<'_>) -> Result<(), AllocError>
        ensures ok { OnOk result (self.new ≡ self.old ++ held stored.now ∷ []) }
        ensures err { OnErr result (self.new ≡ self.old) }
    {
        let from = stored.store();
        match from.events.get(stored.place() as usize) {
            Some(packed) => self.push_behind(packed, packed.own_names(&from.names)),
            None => self.push(&Event::blank()),
        }
    }

    /// Adds a packed event with its names after the others. Refused for memory, or if the names of
    /// the others take 4 GiB: then all is as it was.
    fn push_behind(&mut self, packed: &Packed, names: &[u8]) -> Result<(), AllocError>
        requires sound { IsSoundPacked packed.now }
        requires long { length names.now ≡ width packed.now }
        ensures ok { OnOk result (self.new ≡ self.old ++ event_of names.now packed.now ∷ []) }
        ensures err { OnErr result (self.new ≡ self.old) }
    {
        let behind = packed.placed(self.names.len())?;
        self.events.reserve(1)?;
        self.names.extend_from_slice(names)?;
        self.events.push_reserved(behind);
        Ok(())
    }

    /// Adds events after the others. An empty store takes them over. Refused for memory, or if the
    /// names of an event would begin 4 GiB after the first: then all is as it was.
    pub fn append(&mut self, events: Store) -> Result<(), AllocError>
        ensures ok { OnOk result (self.new ≡ self.old ++ events) }
        ensures err { OnErr result (self.new ≡ self.old) }
    {
        if self.events.is_empty() {
            *self = events;
            return Ok(());
        }
        let ends = self.names.len();
        let kept = self.events.len();
        let appended = append_packed(
            &mut self.names,
            &mut self.events,
            &events.names,
            &events.events,
        );
        if let Err(refused) = appended {
            self.names.truncate(ends);
            self.events.truncate(kept);
            return Err(refused);
        }
        Ok(())
    }

    /// Takes away all events after the first `len`.
    pub fn truncate(&mut self, len: usize)
        ensures { self.new ≡ take len self.old }
    {
        match self.events.get(len) {
            Some(first) => {
                let begins = first.begins as usize;
                self.names.truncate(begins);
                self.events.truncate(len);
            }
            None => {}
        }
    }

    /// Takes away all events.
    pub fn clear(&mut self)
        ensures { self.new ≡ [] }
    {
        self.names.clear();
        self.events.clear();
    }

    /// The event at a place, or the blank event past the last one.
    pub fn get(&self, place: usize) -> Event
        ensures { result ≡ stored_at self.now place }
    {
        match self.events.get(place) {
            Some(packed) => packed.unpacked(&self.names),
            None => Event::blank(),
        }
    }

    /// The event at a place without its names, or the blank event past the last one. No name is
    /// read.
    pub fn bare(&self, place: usize) -> Event
        ensures { result ≡ bare (stored_at self.now place) }
    {
        match self.events.get(place) {
            Some(packed) => packed.bare(),
            None => Event::blank(),
        }
    }

    /// The CPU of the event at a place, which is at most `Event::LAST_CPU`.
    pub fn cpu(&self, place: usize) -> u16
        ensures value { result ≡ (stored_at self.now place).cpu }
        ensures fits { result ≤ last_cpu }
    {
        match self.events.get(place) {
            Some(packed) => packed.cpu,
            None => 0,
        }
    }

    /// Which event stands at a place.
    pub(crate) fn name_at(&self, place: usize) -> Name
        ensures { result ≡ name_of (stored_at self.now place).body }
    {
        match self.events.get(place) {
            Some(packed) => packed.name(),
            None => Name::Other,
        }
    }

    /// The stamp of the event at a place, which is at most an event's.
    pub(crate) fn stamp_at(&self, place: usize) -> u64
        ensures value { result ≡ (stored_at self.now place).stamp }
        ensures fits { result ≤ last_stamp }
    {
        match self.events.get(place) {
            Some(packed) => packed.stamp,
            None => 0,
        }
    }

    /// A law: the stamp at each place is at most an event's.
    #[inline(always)]
    pub(crate) fn stamps_fit(&self)
        ensures { (place : ℕ) → (stored_at self.now place).stamp ≤ last_stamp }
    {
        let _ = &self.events;
    }

    /// The number that a field of the event at a place holds. No name is read.
    pub(crate) fn number_at(&self, place: usize, field: Field) -> Option<i64>
        ensures { result ≡ field_number (stored_at self.now place) field }
    {
        match self.events.get(place) {
            Some(packed) => packed.number(field),
            None => match field {
                Field::CommonPid | Field::CommonCpu => Some(0),
                _ => None,
            },
        }
    }
}
