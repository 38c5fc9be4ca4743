//! Slots for the events of a load, or none.

ghost use Rattle.std.specs.Prelude.{◌≡◌, ℕ, ◌+◌, ◌<◌, ◌≤◌, ◌^◌, None, length, drop, fold, OnOk, OnErr};
ghost use Rattle.std.specs.List.{AllByRecursion};
ghost use Rattle.std.specs.Ordering.{nat_cmp};
ghost use Rattle.std.specs.FinMap as map;
ghost use Rattle.ft_maps.specs.Seen.{seen};
ghost use Rattle.ft_lanes.specs.Held.{event_limit, number_limit, HasCpu};
ghost use Rattle.ft_lanes.specs.inner.Rows.{struck_place};
ghost use Rattle.ft_lanes.specs.inner.Slots.{cpu_limit, all_from, all_put, all_merged, slots_at, slots_with, first_cpu, slots_in, AgreeBeside, AgreeUnmoved, IsFreeOf};

use crate::slots::Slots;
use ft_maps::{put, take};
use ft_store::Store;
use std::alloc::{AllocError, Global};
use std::collections::BTreeMap;

/// The CPU of the first event that has slots.
pub(crate) fn held_cpu_in(lanes: &BTreeMap<u16, Slots>, events: &Store) -> Option<u16>
    ensures value { result ≡ first_cpu (map.contains_key (seen nat_cmp lanes.now)) events.now }
    ensures cpus { result ≡ None → AllByRecursion HasCpu events.now }
{
    for place in 0..events.len() {
        let cpu = events.cpu(place);
        if lanes.contains_key(&cpu) {
            return Some(cpu);
        }
    }
    None
}

/// Removes the slots of the CPUs of a store's events from a place on.
fn remove_all(lanes: &mut BTreeMap<u16, Slots>, store: &Store, first: u32)
    ensures { seen nat_cmp lanes.new
        ≡ fold (λ m e. map.remove m e.cpu) (seen nat_cmp lanes.old) (drop first store.now) }
{
    for i in 0..store.len().saturating_sub(first as usize) {
        take(lanes, &store.cpu(first as usize + i));
    }
}

/// Adds a place to the slots of a CPU. Refused for memory.
fn push_at(alloc: Global, by_cpu: &mut Vec<Slots>, cpu: u16, place: u32) -> Result<(), AllocError>
    requires few { length by_cpu.old.items ≤ cpu_limit }
    requires narrow { cpu < cpu_limit }
    requires numbered { (slots_at by_cpu.old.items cpu).next ≤ number_limit }
    requires placed { place < struck_place }
    ensures here { OnOk result
        (slots_at by_cpu.new.items cpu ≡ slots_with (slots_at by_cpu.old.items cpu) place) }
    ensures grows { OnOk result (map.len (slots_at by_cpu.new.items cpu).places
        ≡ map.len (slots_at by_cpu.old.items cpu).places + 1) }
    ensures others { OnOk result ((q : ℕ) → (q ≡ cpu → ⊥)
        → slots_at by_cpu.new.items q ≡ slots_at by_cpu.old.items q) }
    ensures few { OnOk result (length by_cpu.new.items ≤ cpu_limit) }
{
    let at = cpu as usize;
    while by_cpu.len() <= at {
        by_cpu.push(Slots::new(alloc))?;
    }
    by_cpu[at].push(place)?;
    Ok(())
}

/// Puts slots in as those of a CPU, if there are any. Refused for memory, and then all is as it
/// was.
fn put_any(lanes: &mut BTreeMap<u16, Slots>, cpu: u16, slots: Slots) -> Result<(), AllocError>
    ensures ok { OnOk result (seen nat_cmp lanes.new ≡ all_put (seen nat_cmp lanes.old) cpu slots) }
    ensures err { OnErr result (seen nat_cmp lanes.new ≡ seen nat_cmp lanes.old) }
{
    if slots.next() == 1 {
        return Ok(());
    }
    put(lanes, cpu, slots)
}

/// Puts the slots of each CPU in, if there are any. After a refusal for memory, some may be in.
fn put_all(lanes: &mut BTreeMap<u16, Slots>, by_cpu: Vec<Slots>) -> Result<(), AllocError>
    requires few { length by_cpu.items ≤ cpu_limit }
    ensures ok { OnOk result (seen nat_cmp lanes.new ≡ all_merged (seen nat_cmp lanes.old) 0 by_cpu.items) }
    ensures err { OnErr result (AgreeUnmoved by_cpu.items
        (seen nat_cmp lanes.old) (seen nat_cmp lanes.new)) }
{
    let mut cpu: u32 = 0;
    for slots in by_cpu {
        put_any(lanes, cpu as u16, slots)?;
        cpu += 1;
    }
    Ok(())
}

/// Adds a slot for each event of a store from a place on. No event's CPU may have slots. After a
/// refusal for memory, some may be there.
fn push_all(
    alloc: Global,
    lanes: &mut BTreeMap<u16, Slots>,
    store: &Store,
    first: u32,
) -> Result<(), AllocError>
    requires apart { IsFreeOf (seen nat_cmp lanes.old) (drop first store.now) }
    requires few { length (drop first store.now) ≤ event_limit }
    requires places { length store.now < 2 ^ 32 }
    ensures ok { OnOk result
        (seen nat_cmp lanes.new
        ≡ all_from (seen nat_cmp lanes.old) first (drop first store.now)) }
    ensures count { OnOk result (slots_in (seen nat_cmp lanes.new)
        ≡ slots_in (seen nat_cmp lanes.old) + length (drop first store.now)) }
    ensures err { OnErr result (AgreeBeside (drop first store.now)
        (seen nat_cmp lanes.old) (seen nat_cmp lanes.new)) }
{
    let mut by_cpu = Vec::new(alloc);
    for i in 0..store.len().saturating_sub(first as usize) {
        let place = first + i as u32;
        push_at(alloc, &mut by_cpu, store.cpu(place as usize), place)?;
    }
    put_all(lanes, by_cpu)
}

/// Adds a slot for each event of a store from a place on. No event's CPU may have slots. Refused
/// for memory, and then all is as it was.
pub(crate) fn push_load(
    alloc: Global,
    lanes: &mut BTreeMap<u16, Slots>,
    store: &Store,
    first: u32,
) -> Result<(), AllocError>
    requires apart { first_cpu (map.contains_key (seen nat_cmp lanes.old)) (drop first store.now) ≡ None }
    requires few { length (drop first store.now) ≤ event_limit }
    requires places { length store.now < 2 ^ 32 }
    ensures ok { OnOk result
        (seen nat_cmp lanes.new
        ≡ all_from (seen nat_cmp lanes.old) first (drop first store.now)) }
    ensures count { OnOk result (slots_in (seen nat_cmp lanes.new)
        ≡ slots_in (seen nat_cmp lanes.old) + length (drop first store.now)) }
    ensures err { OnErr result (seen nat_cmp lanes.new ≡ seen nat_cmp lanes.old) }
{
    let pushed = push_all(alloc, lanes, store, first);
    if pushed.is_err() {
        remove_all(lanes, store, first);
    }
    pushed
}
