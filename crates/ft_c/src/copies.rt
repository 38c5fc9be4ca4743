//! Copies of what was asked for into a caller's room: as much as there is from a place on, and as fits.

ghost use Rattle.std.specs.Prelude.{◌≡◌, None, [], unwrap_or};
ghost use Rattle.std.specs.Option.{MatchOption};
ghost use Rattle.ft_layout.specs.Events.{event_in, trigger_layout};
ghost use Rattle.ft_layout.specs.Places.{place_layout, latency_layout};
ghost use Rattle.ft_layout.specs.Rows.{row_layout, changed_layout};
ghost use Rattle.ft_session.specs.Told.{rows_told, made_told};
ghost use Rattle.ft_c.specs.Copies.{IsCopied};

use crate::handle::Handle;
use ft_layout::{
    ChangedLayout, EventLayout, LatencyLayout, PlaceLayout, RowLayout, TriggerLayout, copy_bytes,
    copy_changed, copy_events, copy_latencies, copy_places, copy_rows, copy_triggers,
};
use std::alloc::Global;

/// Copies bytes of the text: how many.
#[unsafe(no_mangle)]
pub extern "C" fn histdesk_text_copy(
    alloc: Global,
    desk: &mut Handle,
    from: u64,
    to: &mut [u8],
) -> usize
    ensures part { MatchOption desk.old.held
        ((result ≡ 0) × (to.new ≡ to.old))
        (λ held. IsCopied (λ byte. byte) held.text.items from to.old result to.new) }
    ensures unchanged { desk.new.held ≡ desk.old.held }
{
    match desk.take(alloc) {
        Some(session) => {
            let copied = copy_bytes(session.text.as_slice(), from, to);
            desk.put(alloc, session);
            copied
        }
        None => 0,
    }
}

/// Copies rows: how many.
#[unsafe(no_mangle)]
pub extern "C" fn histdesk_rows_copy(
    alloc: Global,
    desk: &mut Handle,
    from: u64,
    to: &mut [RowLayout],
) -> usize
    ensures part { MatchOption desk.old.held
        ((result ≡ 0) × (to.new ≡ to.old))
        (λ held. IsCopied row_layout held.rows.items from to.old result to.new) }
    ensures unchanged { desk.new.held ≡ desk.old.held }
{
    match desk.take(alloc) {
        Some(session) => {
            let copied = copy_rows(session.rows.as_slice(), from, to);
            desk.put(alloc, session);
            copied
        }
        None => 0,
    }
}

/// Copies what readings found: how many.
#[unsafe(no_mangle)]
pub extern "C" fn histdesk_latencies_copy(
    alloc: Global,
    desk: &mut Handle,
    from: u64,
    to: &mut [LatencyLayout],
) -> usize
    ensures part { MatchOption desk.old.held
        ((result ≡ 0) × (to.new ≡ to.old))
        (λ held. IsCopied latency_layout held.pairs.items from to.old result to.new) }
    ensures unchanged { desk.new.held ≡ desk.old.held }
{
    match desk.take(alloc) {
        Some(session) => {
            let copied = copy_latencies(session.pairs.as_slice(), from, to);
            desk.put(alloc, session);
            copied
        }
        None => 0,
    }
}

/// Copies places: how many.
#[unsafe(no_mangle)]
pub extern "C" fn histdesk_places_copy(
    alloc: Global,
    desk: &mut Handle,
    from: u64,
    to: &mut [PlaceLayout],
) -> usize
    ensures part { MatchOption desk.old.held
        ((result ≡ 0) × (to.new ≡ to.old))
        (λ held. IsCopied place_layout held.places.items from to.old result to.new) }
    ensures unchanged { desk.new.held ≡ desk.old.held }
{
    match desk.take(alloc) {
        Some(session) => {
            let copied = copy_places(session.places.as_slice(), from, to);
            desk.put(alloc, session);
            copied
        }
        None => 0,
    }
}

/// Copies, for each of the places, the event that is held there now, on its CPU's line and with its
/// stamp, or a note that there is none: how many are copied.
#[unsafe(no_mangle)]
pub extern "C" fn histdesk_events_copy(
    alloc: Global,
    desk: &mut Handle,
    from: u64,
    to: &mut [EventLayout],
) -> usize
    ensures part { MatchOption desk.old.held
        ((result ≡ 0) × (to.new ≡ to.old))
        (λ held. IsCopied (event_in held.desk.base.lanes) held.places.items from to.old result to.new) }
    ensures unchanged { desk.new.held ≡ desk.old.held }
{
    match desk.take(alloc) {
        Some(session) => {
            let copied = copy_events(session.desk.lanes(), session.places.as_slice(), from, to);
            desk.put(alloc, session);
            copied
        }
        None => 0,
    }
}

/// Copies attached triggers: how many.
#[unsafe(no_mangle)]
pub extern "C" fn histdesk_triggers_copy(
    alloc: Global,
    desk: &mut Handle,
    from: u64,
    to: &mut [TriggerLayout],
) -> usize
    ensures part { MatchOption desk.old.held
        ((result ≡ 0) × (to.new ≡ to.old))
        (λ held. IsCopied trigger_layout held.attached.items from to.old result to.new) }
    ensures unchanged { desk.new.held ≡ desk.old.held }
{
    match desk.take(alloc) {
        Some(session) => {
            let copied = copy_triggers(session.attached.as_slice(), from, to);
            desk.put(alloc, session);
            copied
        }
        None => 0,
    }
}

/// Copies the rows of triggers that count held events that the last accepted insert or strike may have
/// changed: how many.
#[unsafe(no_mangle)]
pub extern "C" fn histdesk_rows_changed_copy(
    alloc: Global,
    desk: &mut Handle,
    from: u64,
    to: &mut [ChangedLayout],
) -> usize
    ensures part { MatchOption desk.old.held
        ((result ≡ 0) × (to.new ≡ to.old))
        (λ held. IsCopied changed_layout (unwrap_or (rows_told held.edited) []) from to.old result to.new) }
    ensures unchanged { desk.new.held ≡ desk.old.held }
{
    match desk.take(alloc) {
        Some(session) => {
            let copied = copy_changed(session.rows_changed(), from, to);
            desk.put(alloc, session);
            copied
        }
        None => 0,
    }
}

/// Copies the rows of triggers that count made events that the last accepted insert or strike may have
/// changed: how many.
#[unsafe(no_mangle)]
pub extern "C" fn histdesk_made_changed_copy(
    alloc: Global,
    desk: &mut Handle,
    from: u64,
    to: &mut [ChangedLayout],
) -> usize
    ensures part { MatchOption desk.old.held
        ((result ≡ 0) × (to.new ≡ to.old))
        (λ held. IsCopied changed_layout (unwrap_or (made_told held.edited) []) from to.old result to.new) }
    ensures unchanged { desk.new.held ≡ desk.old.held }
{
    match desk.take(alloc) {
        Some(session) => {
            let copied = copy_changed(session.made_changed(), from, to);
            desk.put(alloc, session);
            copied
        }
        None => 0,
    }
}
