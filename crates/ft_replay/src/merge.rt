//! The merged order: held events by their places, as references into the lanes.

ghost use Rattle.std.specs.Prelude.{◌≡◌, ◌++◌, ◌∷◌, [], IfOk, OnOk, IsPermutation};
ghost use Rattle.std.specs.List.Sorted.{IsSortedByKey};
ghost use Rattle.std.specs.FinMap as map;
ghost use Rattle.ft_fields.specs.Places.{pos_cmp};
ghost use Rattle.ft_maps.specs.Mapped.{entries_by};
ghost use Rattle.ft_store.specs.Stored.{held};
ghost use Rattle.ft_replay.specs.Chosen.{lanes_but};
ghost use Rattle.ft_replay.specs.Merged.{merged};
ghost use Rattle.ft_replay.specs.Named.{named, events_on, has_name};
ghost use Rattle.ft_replay.specs.inner.Rests.{traced_entry, entries_left, listed_and_left, with_names};

use crate::names::Names;
use crate::ordered::Ordered;
use crate::rests::{Rest, Rests};
use ft_fields::Pos;
use ft_hist::Triggers;
use ft_lanes::Lanes;
use ft_store::Stored;
use std::alloc::{AllocError, Global};

/// The events whose name some trigger is on, with their places, in merged order. Refused for
/// memory.
pub fn merged_events<'a>(
    alloc: Global,
    lanes: &'a Lanes,
    triggers: &Triggers,
) -> Result<Vec<(Pos, Stored<'a>)>, AllocError>
    ensures { IfOk result (λ events. entries_by held events.items
        ≡ map.entries (named triggers.now (merged lanes.now))) }
{
    events_with(alloc, lanes, Names::of(triggers))
}

/// The events whose name some trigger is on, except those of some CPUs, with their places, in
/// merged order. Refused for memory.
pub fn merged_events_but<'a>(
    alloc: Global,
    lanes: &'a Lanes,
    triggers: &Triggers,
    but: &[u16],
) -> Result<Vec<(Pos, Stored<'a>)>, AllocError>
    ensures { IfOk result (λ events. entries_by held events.items
        ≡ map.entries (named triggers.now (merged (lanes_but but.now lanes.now)))) }
{
    events_but(alloc, lanes, Names::of(triggers), but)
}

/// The events that have one of the names, with their places, in merged order. Refused for memory.
pub fn events_with<'a>(
    alloc: Global,
    lanes: &'a Lanes,
    names: Names,
) -> Result<Vec<(Pos, Stored<'a>)>, AllocError>
    ensures { IfOk result (λ events. entries_by held events.items
        ≡ map.entries (events_on (has_name names) (merged lanes.now))) }
{
    events_but(alloc, lanes, names, &[])
}

/// The events that have one of the names, except those of some CPUs, with their places, in merged
/// order. Refused for memory.
fn events_but<'a>(
    alloc: Global,
    lanes: &'a Lanes,
    names: Names,
    but: &[u16],
) -> Result<Vec<(Pos, Stored<'a>)>, AllocError>
    ensures { IfOk result (λ events. entries_by held events.items
        ≡ map.entries (events_on (has_name names) (merged (lanes_but but.now lanes.now)))) }
{
    if names.are_none() {
        return Ok(Vec::new(alloc));
    }
    let mut rests = Rests::of(alloc, lanes, but)?;
    let mut ordered = Ordered::new(alloc);
    walk(
        lanes,
        walk_limit(lanes, but),
        &mut rests,
        names,
        &mut ordered,
    )?;
    let mut events = ordered.into_events();
    push_rests(&mut events, rests.into_rests(), names)?;
    sort_by_place(&mut events)?;
    Ok(events)
}

/// How many places of the store a walk goes over: all, if at least one of eight is that of an event of
/// a CPU that is not left out; otherwise none, since sorting costs less then.
fn walk_limit(lanes: &Lanes, but: &[u16]) -> u32 {
    let mut count = lanes.len();
    for cpu in but {
        count = count.saturating_sub(lanes.held_on(*cpu));
    }
    if count < lanes.stored() as u64 / 8 {
        return 0;
    }
    // The store has fewer places than 32 bits count.
    u32::try_from(lanes.stored()).unwrap_or(u32::MAX)
}

/// Takes events out of the lanes in the order of so many places of the store, and adds those that have
/// one of the names. Refused for memory.
fn walk<'a>(
    lanes: &Lanes,
    places: u32,
    rests: &mut Rests<'a>,
    names: Names,
    ordered: &mut Ordered<'a>,
) -> Result<(), AllocError>
    ensures { OnOk result (IsPermutation
        (listed_and_left names ordered.old.events.items (entries_left rests.old.rests.items))
        (listed_and_left names ordered.new.events.items (entries_left rests.new.rests.items))) }
{
    for place in 0..places {
        take_one(rests, lanes.cpu_at(place), place, names, ordered)?;
    }
    Ok(())
}

/// Takes the event at a place of the store, if it is the first that is left of the lane of this
/// CPU, and adds it if it has one of the names. Refused for memory.
fn take_one<'a>(
    rests: &mut Rests<'a>,
    cpu: u16,
    place: u32,
    names: Names,
    ordered: &mut Ordered<'a>,
) -> Result<(), AllocError>
    ensures { OnOk result (IsPermutation
        (listed_and_left names ordered.old.events.items (entries_left rests.old.rests.items))
        (listed_and_left names ordered.new.events.items (entries_left rests.new.rests.items))) }
{
    match rests.take_at(cpu, place) {
        Some((pos, stored)) => push_named(ordered, pos, stored, names),
        None => Ok(()),
    }
}

/// Adds an event if it has one of the names. Refused for memory.
fn push_named<'a>(
    ordered: &mut Ordered<'a>,
    pos: Pos,
    stored: Stored<'a>,
    names: Names,
) -> Result<(), AllocError>
    ensures { OnOk result (IsPermutation
        (entries_by held ordered.old.events.items ++ with_names names (traced_entry (pos, stored.entry) ∷ []))
        (entries_by held ordered.new.events.items)) }
{
    if names.has(stored.name()) {
        ordered.push(pos, stored)?;
    }
    Ok(())
}

/// Adds what is left of lanes: the events that have one of the names. What it added before a
/// refusal for memory stays.
fn push_rests<'a>(
    events: &mut Vec<(Pos, Stored<'a>)>,
    rests: Vec<Rest<'a>>,
    names: Names,
) -> Result<(), AllocError>
    ensures { OnOk result (entries_by held events.new.items
        ≡ listed_and_left names events.old.items (entries_left rests.entry.items)) }
{
    for rest in rests {
        push_rest(events, rest, names)?;
    }
    Ok(())
}

/// Adds what is left of a lane: the events that have one of the names. What it added before a
/// refusal for memory stays.
fn push_rest<'a>(
    events: &mut Vec<(Pos, Stored<'a>)>,
    rest: Rest<'a>,
    names: Names,
) -> Result<(), AllocError>
    ensures { OnOk result (entries_by held events.new.items ≡ listed_and_left names events.old.items rest.entry) }
{
    for (pos, stored) in rest {
        if names.has(stored.name()) {
            events.push((pos, stored))?;
        }
    }
    Ok(())
}

/// Puts events in order of their places. Refused for memory.
fn sort_by_place(events: &mut Vec<(Pos, Stored<'_>)>) -> Result<(), AllocError>
    ensures permutation { IsPermutation events.old.items events.new.items }
    ensures sorted { OnOk result (IsSortedByKey (λ entry. entry.0) pos_cmp events.new.items) }
{
    events.sort_by_key(|entry| entry.0)
}
