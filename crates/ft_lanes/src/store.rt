//! Places in the store of events.

ghost use Rattle.std.specs.Prelude.{◌≡◌, ◌+◌, ◌<◌, ◌^◌, length, option_map, OnOk, IfOk};
ghost use Rattle.ft_store.specs.Stored.{stored_at};
ghost use Rattle.ft_lanes.specs.inner.Rows.{struck_place};

use crate::rows::STRUCK;
use ft_fields::Event;
use ft_store::Store;
use std::alloc::AllocError;

/// The place after the last event of a store. Refused for memory if 32 bits can't number it, or
/// struck rows have that number.
pub(crate) fn end_of(store: &Store) -> Result<u32, AllocError>
    ensures value { IfOk result (λ place. place ≡ length store.now) }
    ensures free { IfOk result (λ place. place < struck_place) }
{
    match u32::try_from(store.len()) {
        Ok(place) if place < STRUCK => Ok(place),
        _ => Err(AllocError),
    }
}

/// The place after the last event of a store. Refused for memory if 32 bits can't number the
/// places of so many more.
pub(crate) fn end_before(store: &Store, more: &Store) -> Result<u32, AllocError>
    ensures value { IfOk result (λ place. place ≡ length store.now) }
    ensures room { OnOk result (length store.now + length more.now < 2 ^ 32) }
{
    match u32::try_from(store.len().saturating_add(more.len())) {
        Ok(_) => Ok(store.len() as u32),
        Err(_) => Err(AllocError),
    }
}

/// The event at a place of a store.
pub(crate) fn event_of(store: &Store, place: Option<u32>) -> Option<Event>
    ensures { result ≡ option_map (stored_at store.now) place }
{
    match place {
        Some(place) => Some(store.get(place as usize)),
        None => None,
    }
}
