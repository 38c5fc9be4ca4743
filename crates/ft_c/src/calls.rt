//! Calls of a session that answer a code: edits, and questions. Each does what the session's method
//! does, and answers its code.

ghost use Rattle.std.specs.Prelude.{Some, None, Ok};
ghost use Rattle.ft_answers.specs.After.{after_unload, after_strike, after_remove};
ghost use Rattle.ft_answers.specs.Answers.{totals, hist_text, rows_shown, pairs_shown};
ghost use Rattle.ft_answers.specs.Places.{places};
ghost use Rattle.ft_base.specs.Answers.{list_text, trigger_text, attached_in};
ghost use Rattle.ft_desk_core.specs.Edits.{after_load_text, after_insert_text};
ghost use Rattle.ft_desk_core.specs.Edits.{after_attach_text, after_refilter_text};
ghost use Rattle.ft_desk_core.specs.Found.{event_found, lane_found, matching_found};
ghost use Rattle.ft_layout.specs.Names.{name_numbered};
ghost use Rattle.ft_session.specs.Calls.{Edits, EditsInPlace, Inserts, Strikes, StrikesEvents};
ghost use Rattle.ft_session.specs.Calls.{AnswersTotals, AnswersText, AnswersRows, AnswersPairs};
ghost use Rattle.ft_session.specs.Calls.{ReadsText, ReadsPlaces, ReadsTriggers, ReadsEvent};
ghost use Rattle.ft_c.specs.Calls.{Calls, CallsWriting};

use crate::codes::CLOSED;
use crate::handle::Handle;
use ft_layout::{EventLayout, LineLayout, PlaceLayout, TotalsLayout, name_numbered};
use std::alloc::Global;

/// Loads a trace text: how many events were loaded.
#[unsafe(no_mangle)]
pub extern "C" fn histdesk_load(
    alloc: Global,
    desk: &mut Handle,
    trace: &[u8],
    events: &mut u64,
) -> u32
    ensures { CallsWriting desk.old.held desk.new.held result events.old events.new (λ before after.
        Edits (after_load_text before.desk.base trace.now) before events.old result events.new after) }
{
    match desk.take(alloc) {
        Some(mut session) => {
            let code = session.load(trace, events);
            desk.put(alloc, session);
            code
        }
        None => CLOSED,
    }
}

/// Takes the lane of a CPU away: how many events it had.
#[unsafe(no_mangle)]
pub extern "C" fn histdesk_unload(
    alloc: Global,
    desk: &mut Handle,
    cpu: u32,
    events: &mut u64,
) -> u32
    ensures { CallsWriting desk.old.held desk.new.held result events.old events.new (λ before after.
        EditsInPlace (after_unload before.desk.base cpu) before events.old result events.new after) }
{
    match desk.take(alloc) {
        Some(mut session) => {
            let code = session.unload(cpu, events);
            desk.put(alloc, session);
            code
        }
        None => CLOSED,
    }
}

/// Adds the event of a trace line: where it stands.
#[unsafe(no_mangle)]
pub extern "C" fn histdesk_insert(
    alloc: Global,
    desk: &mut Handle,
    line: &[u8],
    at: &mut LineLayout,
) -> u32
    ensures { CallsWriting desk.old.held desk.new.held result at.old at.new (λ before after.
        Inserts (after_insert_text before.desk.base line.now) before at.old result at.new after) }
{
    match desk.take(alloc) {
        Some(mut session) => {
            let code = session.insert(line, at);
            desk.put(alloc, session);
            code
        }
        None => CLOSED,
    }
}

/// Takes the event of a CPU's line away.
#[unsafe(no_mangle)]
pub extern "C" fn histdesk_strike(alloc: Global, desk: &mut Handle, cpu: u32, line: u32) -> u32
    ensures { Calls desk.old.held desk.new.held result (λ before after.
        Strikes (after_strike before.desk.base cpu line) before result after) }
{
    match desk.take(alloc) {
        Some(mut session) => {
            let code = session.strike(cpu, line);
            desk.put(alloc, session);
            code
        }
        None => CLOSED,
    }
}

/// Takes the events at places away, in their order: how many, up to the first one that is refused.
#[unsafe(no_mangle)]
pub extern "C" fn histdesk_strike_events(
    alloc: Global,
    desk: &mut Handle,
    places: &[PlaceLayout],
    reports: bool,
    struck: &mut u64,
) -> u32
    ensures { CallsWriting desk.old.held desk.new.held result struck.old struck.new (λ before after.
        StrikesEvents places.now reports before result struck.new after) }
{
    match desk.take(alloc) {
        Some(mut session) => {
            let code = session.strike_events(places, reports, struck);
            desk.put(alloc, session);
            code
        }
        None => CLOSED,
    }
}

/// Attaches a trigger's text to the event of a number: the trigger's id.
#[unsafe(no_mangle)]
pub extern "C" fn histdesk_attach(
    alloc: Global,
    desk: &mut Handle,
    event: u32,
    trigger: &[u8],
    id: &mut u32,
) -> u32
    ensures { CallsWriting desk.old.held desk.new.held result id.old id.new (λ before after.
        Edits (after_attach_text before.desk.base (name_numbered event) trigger.now) before id.old result id.new after) }
{
    match desk.take(alloc) {
        Some(mut session) => {
            let code = session.attach(name_numbered(event), trigger, id);
            desk.put(alloc, session);
            code
        }
        None => CLOSED,
    }
}

/// Gives a trigger the filter of a text.
#[unsafe(no_mangle)]
pub extern "C" fn histdesk_refilter(alloc: Global, desk: &mut Handle, id: u32, filter: &[u8]) -> u32
    ensures { Calls desk.old.held desk.new.held result (λ before after.
        Edits (after_refilter_text before.desk.base id (Some filter.now)) before id result id after) }
{
    match desk.take(alloc) {
        Some(mut session) => {
            let code = session.refilter(id, Some(filter));
            desk.put(alloc, session);
            code
        }
        None => CLOSED,
    }
}

/// Takes the filter of a trigger away.
#[unsafe(no_mangle)]
pub extern "C" fn histdesk_unfilter(alloc: Global, desk: &mut Handle, id: u32) -> u32
    ensures { Calls desk.old.held desk.new.held result (λ before after.
        Edits (after_refilter_text before.desk.base id None) before id result id after) }
{
    match desk.take(alloc) {
        Some(mut session) => {
            let code = session.refilter(id, None);
            desk.put(alloc, session);
            code
        }
        None => CLOSED,
    }
}

/// Takes a trigger away.
#[unsafe(no_mangle)]
pub extern "C" fn histdesk_remove(alloc: Global, desk: &mut Handle, id: u32) -> u32
    ensures { Calls desk.old.held desk.new.held result (λ before after.
        EditsInPlace (after_remove before.desk.base id) before id result id after) }
{
    match desk.take(alloc) {
        Some(mut session) => {
            let code = session.remove(id);
            desk.put(alloc, session);
            code
        }
        None => CLOSED,
    }
}

/// What a trigger has counted.
#[unsafe(no_mangle)]
pub extern "C" fn histdesk_totals_of(
    alloc: Global,
    desk: &mut Handle,
    id: u32,
    counted: &mut TotalsLayout,
) -> u32
    ensures { CallsWriting desk.old.held desk.new.held result counted.old counted.new (λ before after.
        AnswersTotals (totals before.desk.base id) before counted.old result counted.new after) }
{
    match desk.take(alloc) {
        Some(mut session) => {
            let code = session.totals(id, counted);
            desk.put(alloc, session);
            code
        }
        None => CLOSED,
    }
}

/// Asks for the text of a trigger's table: its length in bytes.
#[unsafe(no_mangle)]
pub extern "C" fn histdesk_hist(alloc: Global, desk: &mut Handle, id: u32, length: &mut u64) -> u32
    ensures { CallsWriting desk.old.held desk.new.held result length.old length.new (λ before after.
        AnswersText (hist_text before.desk.base id) before length.old result length.new after) }
{
    match desk.take(alloc) {
        Some(mut session) => {
            let code = session.hist(id, length);
            desk.put(alloc, session);
            code
        }
        None => CLOSED,
    }
}

/// Asks for the rows of a trigger's table: how many they are.
#[unsafe(no_mangle)]
pub extern "C" fn histdesk_rows(alloc: Global, desk: &mut Handle, id: u32, count: &mut u64) -> u32
    ensures { CallsWriting desk.old.held desk.new.held result count.old count.new (λ before after.
        AnswersRows (rows_shown before.desk.base id) before count.old result count.new after) }
{
    match desk.take(alloc) {
        Some(mut session) => {
            let code = session.rows(id, count);
            desk.put(alloc, session);
            code
        }
        None => CLOSED,
    }
}

/// Asks for what the readings of a trigger found: how many they are.
#[unsafe(no_mangle)]
pub extern "C" fn histdesk_latencies(
    alloc: Global,
    desk: &mut Handle,
    id: u32,
    count: &mut u64,
) -> u32
    ensures { CallsWriting desk.old.held desk.new.held result count.old count.new (λ before after.
        AnswersPairs (pairs_shown before.desk.base id) before count.old result count.new after) }
{
    match desk.take(alloc) {
        Some(mut session) => {
            let code = session.latencies(id, count);
            desk.put(alloc, session);
            code
        }
        None => CLOSED,
    }
}

/// Asks for the text of a CPU's lane: its length in bytes.
#[unsafe(no_mangle)]
pub extern "C" fn histdesk_list(alloc: Global, desk: &mut Handle, cpu: u32, length: &mut u64) -> u32
    ensures { CallsWriting desk.old.held desk.new.held result length.old length.new (λ before after.
        ReadsText (list_text before.desk.base cpu) before length.old result length.new after) }
{
    match desk.take(alloc) {
        Some(mut session) => {
            let code = session.list(cpu, length);
            desk.put(alloc, session);
            code
        }
        None => CLOSED,
    }
}

/// Asks for the canonical text of a trigger: its length in bytes.
#[unsafe(no_mangle)]
pub extern "C" fn histdesk_trigger_text(
    alloc: Global,
    desk: &mut Handle,
    id: u32,
    length: &mut u64,
) -> u32
    ensures { CallsWriting desk.old.held desk.new.held result length.old length.new (λ before after.
        ReadsText (trigger_text before.desk.base id) before length.old result length.new after) }
{
    match desk.take(alloc) {
        Some(mut session) => {
            let code = session.trigger_text(id, length);
            desk.put(alloc, session);
            code
        }
        None => CLOSED,
    }
}

/// Asks for the attached triggers, by id: how many they are.
#[unsafe(no_mangle)]
pub extern "C" fn histdesk_triggers(alloc: Global, desk: &mut Handle, count: &mut u64) -> u32
    ensures { CallsWriting desk.old.held desk.new.held result count.old count.new (λ before after.
        ReadsTriggers (Ok (attached_in before.desk.base.triggers)) before count.old result count.new after) }
{
    match desk.take(alloc) {
        Some(mut session) => {
            let code = session.triggers(count);
            desk.put(alloc, session);
            code
        }
        None => CLOSED,
    }
}

/// Asks for the places of all held events, in merged order: how many they are.
#[unsafe(no_mangle)]
pub extern "C" fn histdesk_events(alloc: Global, desk: &mut Handle, count: &mut u64) -> u32
    ensures { CallsWriting desk.old.held desk.new.held result count.old count.new (λ before after.
        ReadsPlaces (Ok (places before.desk.base.lanes)) before count.old result count.new after) }
{
    match desk.take(alloc) {
        Some(mut session) => {
            let code = session.events(count);
            desk.put(alloc, session);
            code
        }
        None => CLOSED,
    }
}

/// Asks for the places of a CPU's events from a line on, by line: how many they are.
#[unsafe(no_mangle)]
pub extern "C" fn histdesk_lane(
    alloc: Global,
    desk: &mut Handle,
    cpu: u32,
    line: u32,
    count: &mut u64,
) -> u32
    ensures { CallsWriting desk.old.held desk.new.held result count.old count.new (λ before after.
        ReadsPlaces (lane_found before.desk.base cpu line) before count.old result count.new after) }
{
    match desk.take(alloc) {
        Some(mut session) => {
            let code = session.lane(cpu, line, count);
            desk.put(alloc, session);
            code
        }
        None => CLOSED,
    }
}

/// Asks for the places of the events of a name's number on which a filter holds, in merged order: how
/// many they are.
#[unsafe(no_mangle)]
pub extern "C" fn histdesk_matching(
    alloc: Global,
    desk: &mut Handle,
    event: u32,
    filter: &[u8],
    count: &mut u64,
) -> u32
    ensures { CallsWriting desk.old.held desk.new.held result count.old count.new (λ before after.
        ReadsPlaces (matching_found before.desk.base (name_numbered event) filter.now) before count.old result count.new after) }
{
    match desk.take(alloc) {
        Some(mut session) => {
            let code = session.matching(name_numbered(event), filter, count);
            desk.put(alloc, session);
            code
        }
        None => CLOSED,
    }
}

/// The event of a CPU's line.
#[unsafe(no_mangle)]
pub extern "C" fn histdesk_event_at(
    alloc: Global,
    desk: &mut Handle,
    cpu: u32,
    line: u32,
    event: &mut EventLayout,
) -> u32
    ensures { CallsWriting desk.old.held desk.new.held result event.old event.new (λ before after.
        ReadsEvent line (event_found before.desk.base cpu line) before event.old result event.new after) }
{
    match desk.take(alloc) {
        Some(mut session) => {
            let code = session.event(cpu, line, event);
            desk.put(alloc, session);
            code
        }
        None => CLOSED,
    }
}
