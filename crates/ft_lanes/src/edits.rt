//! Edits of slots by CPU.

ghost use Rattle.std.specs.Prelude.{◌≡◌, ◌+◌, ◌≤◌, ◌<◌, OnOk, OnErr, IfOk, unwrap_or, option_map, option_and_then};
ghost use Rattle.std.specs.Option.{option_len, option_map_or};
ghost use Rattle.std.specs.Ordering.{nat_cmp};
ghost use Rattle.std.specs.FinMap as map;
ghost use Rattle.ft_maps.specs.Seen.{seen};
ghost use Rattle.ft_lanes.specs.Held.{number_limit};
ghost use Rattle.ft_lanes.specs.inner.Rows.{struck_place};
ghost use Rattle.ft_lanes.specs.inner.Slots.{no_slots, all_with, all_without, slots_in};

use crate::slots::Slots;
use ft_maps::put;
use std::alloc::{AllocError, Global};
use std::collections::BTreeMap;

/// Adds a place to the lane of a CPU, which is made if there is none, and returns the line number.
/// Refused for memory, and then all is as it was.
pub(crate) fn push_in(
    alloc: Global,
    lanes: &mut BTreeMap<u16, Slots>,
    cpu: u16,
    place: u32,
) -> Result<u32, AllocError>
    requires numbered { (unwrap_or (map.get (seen nat_cmp lanes.old) cpu) no_slots).next ≤ number_limit }
    requires placed { place < struck_place }
    ensures ok { OnOk result (seen nat_cmp lanes.new ≡ all_with (seen nat_cmp lanes.old) cpu place) }
    ensures line { IfOk result (λ line.
        line ≡ (unwrap_or (map.get (seen nat_cmp lanes.old) cpu) no_slots).next) }
    ensures count { OnOk result
        (slots_in (seen nat_cmp lanes.new) ≡ slots_in (seen nat_cmp lanes.old) + 1) }
    ensures err { OnErr result (seen nat_cmp lanes.new ≡ seen nat_cmp lanes.old) }
{
    match lanes.get_mut(&cpu) {
        Some(slots) => slots.push(place),
        None => {
            let mut slots = Slots::new(alloc);
            let line = slots.push(place)?;
            put(lanes, cpu, slots)?;
            Ok(line)
        }
    }
}

/// The number of the next line of a CPU.
pub(crate) fn next_in(lanes: &BTreeMap<u16, Slots>, cpu: u16) -> u64
    ensures { result ≡ (unwrap_or (map.get (seen nat_cmp lanes.now) cpu) no_slots).next }
{
    match lanes.get(&cpu) {
        Some(slots) => slots.next(),
        None => 1,
    }
}

/// The place of the event of a CPU's line.
pub(crate) fn place_in(lanes: &BTreeMap<u16, Slots>, cpu: u16, line: u32) -> Option<u32>
    ensures { result ≡ option_and_then (λ slots. map.get slots.places line)
        (map.get (seen nat_cmp lanes.now) cpu) }
{
    match lanes.get(&cpu) {
        Some(slots) => slots.get(line),
        None => None,
    }
}

/// Takes the slot of a CPU's line out, if there is one, and returns its place.
pub(crate) fn take_in(lanes: &mut BTreeMap<u16, Slots>, cpu: u16, line: u32) -> Option<u32>
    ensures value { result ≡ option_and_then (λ slots. map.get slots.places line)
        (map.get (seen nat_cmp lanes.old) cpu) }
    ensures rest { seen nat_cmp lanes.new ≡ all_without (seen nat_cmp lanes.old) cpu line }
    ensures count { slots_in (seen nat_cmp lanes.old)
        ≡ slots_in (seen nat_cmp lanes.new) + option_len result }
{
    match lanes.get_mut(&cpu) {
        Some(slots) => slots.take(line),
        None => None,
    }
}

/// How many slots a CPU has: none if it has no lane.
pub(crate) fn count_in(lanes: &BTreeMap<u16, Slots>, cpu: u16) -> u64
    ensures { result ≡ option_map_or (λ slots. map.len slots.places)
        (map.get (seen nat_cmp lanes.now) cpu) 0 }
{
    match lanes.get(&cpu) {
        Some(slots) => slots.len() as u64,
        None => 0,
    }
}

/// Takes the lane of a CPU out, if there is one, and returns how many slots it had.
pub(crate) fn take_lane_in(lanes: &mut BTreeMap<u16, Slots>, cpu: u16) -> Option<u64>
    ensures value { result ≡ option_map (λ slots. map.len slots.places)
        (map.get (seen nat_cmp lanes.old) cpu) }
    ensures rest { seen nat_cmp lanes.new ≡ map.remove (seen nat_cmp lanes.old) cpu }
    ensures count { slots_in (seen nat_cmp lanes.old)
        ≡ slots_in (seen nat_cmp lanes.new) + unwrap_or result 0 }
{
    match lanes.remove(&cpu) {
        Some(slots) => Some(slots.len() as u64),
        None => None,
    }
}
