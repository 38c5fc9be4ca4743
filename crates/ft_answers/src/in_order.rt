//! Places in merged order.

ghost use Rattle.std.specs.Prelude.{◌≡◌, IfOk, filter as list_filter};
ghost use Rattle.std.specs.Map.{keys_of};
ghost use Rattle.ft_fields.specs.declared.event.Name.{Name};
ghost use Rattle.ft_filter.specs.Holds.{holds};
ghost use Rattle.ft_hist.specs.Hit.{same_name};
ghost use Rattle.ft_store.specs.Stored.{held};
ghost use Rattle.ft_replay.specs.Named.{has_name};
ghost use Rattle.ft_answers.specs.Places.{places, matching_places};

use ft_fields::Pos;
use ft_filter::Filter;
use ft_lanes::Lanes;
use ft_replay::{Names, events_with};
use ft_store::Stored;
use std::alloc::{AllocError, Global};

/// The places of all held events, in merged order. Refused for memory.
pub fn places(alloc: Global, lanes: &Lanes) -> Result<Vec<Pos>, AllocError>
    ensures { IfOk result (λ found. found.items ≡ places lanes.now) }
{
    let events = events_with(alloc, lanes, Names::all())?;
    places_of(alloc, &events)
}

/// The places of events, in their order. Refused for memory.
fn places_of(alloc: Global, events: &[(Pos, Stored<'_>)]) -> Result<Vec<Pos>, AllocError>
    ensures { IfOk result (λ found. found.items ≡ keys_of events.now) }
{
    events.iter().map(|event| event.0).collect(alloc)
}

/// The places of the events that have the filter's name and pass it, in merged order. Refused for
/// memory.
pub fn matching_places(
    alloc: Global,
    lanes: &Lanes,
    filter: &Filter,
) -> Result<Vec<Pos>, AllocError>
    ensures { IfOk result (λ found. found.items
        ≡ matching_places lanes.now filter.now.event filter.now.tree) }
{
    let events = events_with(alloc, lanes, name_of(filter))?;
    passing(alloc, &events, filter)
}

/// Only the name that a filter is for.
fn name_of(filter: &Filter) -> Names
    ensures { (name : Name) → has_name result name ≡ same_name filter.now.event name }
{
    Names::only(filter.event())
}

/// The places of the events that pass a filter, in their order. Refused for memory.
fn passing(
    alloc: Global,
    events: &[(Pos, Stored<'_>)],
    filter: &Filter,
) -> Result<Vec<Pos>, AllocError>
    ensures { IfOk result (λ found. found.items
        ≡ keys_of (list_filter (λ entry. holds (held entry.1) filter.now.tree) events.now)) }
{
    events
        .iter()
        .filter(|event| filter.holds(&event.1.event()))
        .map(|event| event.0)
        .collect(alloc)
}
