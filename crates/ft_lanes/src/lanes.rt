//! Lanes of events.

ghost use Rattle.std.specs.Prelude.{◌≡◌, ◌+◌, ◌≤◌, ◌<◌, ◌^◌, None, length, unwrap_or, option_map, OnOk, OnErr, IfOk, IfSome};

use crate::edits::{count_in, next_in, place_in, push_in, take_in, take_lane_in};
use crate::load::{held_cpu_in, push_load};
use crate::rebuild::copy_lane;
use crate::slots::Slots;
use crate::store::{end_before, end_of, event_of};
use crate::walk::{ByCpu, Lines};
use ft_fields::Event;
use ft_store::Store;
use std::alloc::{AllocError, Global};
use std::collections::BTreeMap;
use std::marker::Model;

/// Events by CPU and line number, each held once.
#[derive(Drop)]
pub struct Lanes {
    alloc: Global,
    store: Store,
    lanes: BTreeMap<u16, Slots>,
    held: u64,
}

impl Model for Lanes {
    ghost use Rattle.std.specs.Prelude.{length};
    ghost use Rattle.std.specs.Ordering.{nat_cmp};
    ghost use Rattle.ft_maps.specs.Seen.{seen};
    ghost use Rattle.ft_lanes.specs.Held.{Lanes as Held};
    ghost use Rattle.ft_store.specs.Stored.{stored_at};
    ghost use Rattle.ft_lanes.specs.inner.Slots.{lanes_by, AreStored};
    ghost use Rattle.ft_lanes.specs.Codes.{lanes_code};

    ghost Value = { Held };

    ghost coded = { lanes_code };

    ghost view = { λ l. lanes_by (stored_at l.store) (seen nat_cmp l.lanes) };

    ghost invariant = { λ l. AreStored (length l.store) l.held (seen nat_cmp l.lanes) };
}

impl Lanes {
    ghost use Rattle.std.specs.FinMap as map;
    ghost use Rattle.std.specs.Prelude.{ℕ};
    ghost use Rattle.std.specs.List.{AllByRecursion};
    ghost use Rattle.std.specs.Map.Iter.{ShowsInOrder};
    ghost use Rattle.ft_fields.specs.Traced.{last_cpu};
    ghost use Rattle.ft_lanes.specs.Held.{Lane, event_limit, number_limit, event_at, held_in, held_on, HasCpu};
    ghost use Rattle.ft_lanes.specs.Walks.{traced_line, itself};
    ghost use Rattle.ft_lanes.specs.Loaded.{first_held, with_lanes};
    ghost use Rattle.ft_lanes.specs.Edits.{new_lane, lanes_with, lanes_without};

    /// No lanes.
    pub fn new(alloc: Global) -> Lanes
        ensures { result ≡ map.empty }
    {
        Lanes {
            alloc,
            store: Store::new(alloc),
            lanes: BTreeMap::new(alloc),
            held: 0,
        }
    }

    /// The number of the next line of a CPU, which is 1 if it has no lane.
    pub fn next_line(&self, cpu: u16) -> u64
        ensures { result ≡ (unwrap_or (map.get self.now cpu) new_lane).next }
    {
        next_in(&self.lanes, cpu)
    }

    /// Adds an event to the lane of its CPU, at the lane's next number, which is at most
    /// 4,294,967,295, and returns that number. The first of a new lane is 1. Refused for memory,
    /// and then all is as it was.
    pub fn push(&mut self, event: Event) -> Result<u32, AllocError>
        requires { (unwrap_or (map.get self.old event.cpu) new_lane).next ≤ number_limit }
        ensures ok { OnOk result (self.new ≡ lanes_with self.old event) }
        ensures line { IfOk result (λ line.
            line ≡ (unwrap_or (map.get self.old event.cpu) new_lane).next) }
        ensures err { OnErr result (self.new ≡ self.old) }
    {
        self.make_room(1);
        self.push_behind(event)
    }

    /// The same, with the event after the store as it is.
    fn push_behind(&mut self, event: Event) -> Result<u32, AllocError>
        requires { (unwrap_or (map.get self.old event.cpu) new_lane).next ≤ number_limit }
        ensures ok { OnOk result (self.new ≡ lanes_with self.old event) }
        ensures line { IfOk result (λ line.
            line ≡ (unwrap_or (map.get self.old event.cpu) new_lane).next) }
        ensures err { OnErr result (self.new ≡ self.old) }
    {
        let place = end_of(&self.store)?;
        self.store.push(&event)?;
        let pushed = push_in(self.alloc, &mut self.lanes, event.cpu, place);
        if pushed.is_err() {
            self.store.truncate(place as usize);
            return pushed;
        }
        self.held += 1;
        pushed
    }

    /// Adds a lane for each CPU of the events, which has its events in this order from line 1 on.
    /// No event's lane may be held, and the events are at most 1,048,576. Refused for memory, and
    /// then all is as it was.
    pub fn load(&mut self, events: Store) -> Result<(), AllocError>
        requires apart { first_held self.old events ≡ None }
        requires few { length events ≤ event_limit }
        ensures ok { OnOk result (self.new ≡ with_lanes self.old events) }
        ensures err { OnErr result (self.new ≡ self.old) }
    {
        self.make_room(events.len());
        self.load_behind(events)
    }

    /// The same, with the events after the store as it is.
    fn load_behind(&mut self, events: Store) -> Result<(), AllocError>
        requires apart { first_held self.old events ≡ None }
        requires few { length events ≤ event_limit }
        ensures ok { OnOk result (self.new ≡ with_lanes self.old events) }
        ensures err { OnErr result (self.new ≡ self.old) }
    {
        let first = end_before(&self.store, &events)?;
        let count = events.len() as u64;
        self.store.append(events)?;
        let loaded = push_load(self.alloc, &mut self.lanes, &self.store, first);
        if loaded.is_err() {
            self.store.truncate(first as usize);
            return loaded;
        }
        self.held += count;
        loaded
    }

    /// The CPU of the first event whose lane is held.
    pub fn held_cpu(&self, events: &Store) -> Option<u16>
        ensures value { result ≡ first_held self.now events.now }
        ensures cpus { result ≡ None → AllByRecursion HasCpu events.now }
    {
        held_cpu_in(&self.lanes, events)
    }

    /// The event of a CPU's line.
    pub fn get(&self, cpu: u16, line: u32) -> Option<Event>
        ensures { result ≡ event_at self.now cpu line }
    {
        event_of(&self.store, place_in(&self.lanes, cpu, line))
    }

    /// The lane of a CPU, if there is one: its events by line number.
    pub fn lane(&self, cpu: u16) -> Option<Lines<'_>>
        ensures rest { result
            ≡ option_map (λ lane. map.entries lane.events) (map.get self.now cpu) }
        ensures fits { IfSome result (λ lines. length lines < 2 ^ 63) }
        // A loop takes them from the front.
        ensures runs { ShowsInOrder traced_line }
    {
        match self.lanes.get(&cpu) {
            Some(slots) => Some(Lines::new(&self.store, slots.rows())),
            None => None,
        }
    }

    /// The lanes with their CPUs, by CPU.
    pub fn lanes(&self) -> ByCpu<'_>
        ensures rest { result ≡ map.entries self.now }
        ensures fits { length result < 2 ^ 63 }
        // A loop takes them from the front.
        ensures runs { ShowsInOrder (itself {X = ℕ × Lane}) }
    {
        ByCpu::new(&self.store, self.lanes.iter())
    }

    /// Takes the event of a CPU's line out, if there is one, and returns it. No other line changes
    /// its number, and this one's is not given again.
    pub fn take(&mut self, cpu: u16, line: u32) -> Option<Event>
        ensures value { result ≡ event_at self.old cpu line }
        ensures rest { self.new ≡ lanes_without self.old cpu line }
    {
        let place = take_in(&mut self.lanes, cpu, line);
        let event = event_of(&self.store, place);
        self.held -= u64::from(event.is_some());
        self.forget_dead();
        event
    }

    /// Takes the lane of a CPU out, if there is one, and returns how many events it had.
    pub fn take_lane(&mut self, cpu: u16) -> Option<u64>
        ensures value { result ≡ option_map (λ lane. map.len lane.events) (map.get self.old cpu) }
        ensures rest { self.new ≡ map.remove self.old cpu }
    {
        let count = take_lane_in(&mut self.lanes, cpu);
        self.held -= count.unwrap_or(0);
        self.forget_dead();
        count
    }

    /// How many events are held.
    pub fn len(&self) -> u64
        ensures { result ≡ held_in self.now }
    {
        self.held
    }

    /// How many events a CPU's lane holds: none if there is no lane.
    pub fn held_on(&self, cpu: u16) -> u64
        ensures { result ≡ held_on self.now cpu }
    {
        count_in(&self.lanes, cpu)
    }

    /// How many places there are, counted from 0, that held events may stand at: at least as many
    /// as there are events held.
    pub fn stored(&self) -> usize
        ensures { held_in self.now ≤ result }
    {
        self.store.len()
    }

    /// The CPU of the event that stands at a place, even if that event is no longer held; 0 after
    /// the last place.
    pub fn cpu_at(&self, place: u32) -> u16
        ensures { result ≤ last_cpu }
    {
        self.store.cpu(place as usize)
    }

    /// Clears the store if nothing is held.
    fn forget_dead(&mut self)
        ensures { self.new ≡ self.old }
    {
        if self.held == 0 {
            self.store.clear();
        }
    }

    /// If the store has no room for so many more events and more of it is dead than held, puts the
    /// held events in a store of their own. If memory for that is refused, the store stays.
    fn make_room(&mut self, more: usize)
        ensures { self.new ≡ self.old }
    {
        let room = self.store.room();
        let dead = self.store.len() as u64 - self.held;
        if room >= more || dead <= self.held {
            return;
        }
        if let Ok(lanes) = self.rebuilt() {
            *self = lanes;
        }
    }

    /// The same lanes over a store that has only the held events. Refused for memory.
    fn rebuilt(&self) -> Result<Lanes, AllocError>
        ensures { IfOk result (λ lanes. lanes ≡ self.now) }
    {
        let mut store = Store::new(self.alloc);
        let mut slots = BTreeMap::new(self.alloc);
        for (cpu, lane) in self.lanes() {
            copy_lane(self.alloc, &mut store, &mut slots, cpu, &lane)?;
        }
        Ok(Lanes {
            alloc: self.alloc,
            store,
            lanes: slots,
            held: self.held,
        })
    }
}
