//! The waits of a recording, by the stream that a desk has for them. Each call does what the stream's call
//! does, and answers its code; the desk is as before.

ghost use Rattle.std.specs.Prelude.{◌≡◌, None, IfNone, IsSomeAnd};
ghost use Rattle.std.specs.Option.{MatchOption};
ghost use Rattle.ft_layout.specs.Names.{name_numbered};
ghost use Rattle.ft_stream.specs.Calls.{Begins, BeginsPart, Joins, LeavesOut, SumsUp, Feeds, Finishes, TellsLast, DoubtsWaits, IsIdle};
ghost use Rattle.ft_stream.specs.Faults.{refusal_layout};
ghost use Rattle.ft_stream.specs.Layouts.{wait_layout, hole_layout, left_out_layout, task_sum_layout, cpu_sum_layout};
ghost use Rattle.ft_stream.specs.Summing.{tasks_at, cpus_at};
ghost use Rattle.ft_stream.specs.Telling.{holes_at, left_out_at, events_at};
ghost use Rattle.ft_session.specs.Calls.{HoldsWaits};
ghost use Rattle.ft_c.specs.Calls.{Calls, CallsWriting, CallsBoth, OnlyWaits};
ghost use Rattle.ft_c.specs.Codes.{closed};
ghost use Rattle.ft_c.specs.Copies.{IsCopied};
ghost use Rattle.ft_c.specs.Policies.{bad_lines};

use crate::codes::{ACCEPTED, CLOSED};
use crate::handle::Handle;
use ft_layout::{RefusalLayout, name_numbered};
use ft_stream::{
    BadLines, CpuSumLayout, HoleLayout, LeftOutLayout, ReadLayout, TaskSumLayout, WaitLayout,
    copy_cpus, copy_holes, copy_left_out, copy_numbers, copy_tasks, copy_waits, refusal_of,
};
use std::alloc::Global;

/// What is done with lines that can't be read.
fn bad_lines(skips: bool) -> BadLines
    ensures { result ≡ bad_lines skips }
{
    if skips {
        BadLines::Skip
    } else {
        BadLines::Refuse
    }
}

/// Begins a stream, and ends the one that was there.
#[unsafe(no_mangle)]
pub extern "C" fn histdesk_waits_new(alloc: Global, desk: &mut Handle, skips: bool) -> u32
    ensures { Calls desk.old.held desk.new.held result (λ before after.
        Begins (bad_lines skips) before.waits result after.waits × OnlyWaits before after) }
{
    match desk.take(alloc) {
        Some(mut session) => {
            let code = session.waits.begin(bad_lines(skips));
            desk.put(alloc, session);
            code
        }
        None => CLOSED,
    }
}

/// Begins a stream whose text is a part of a longer one, and ends the one that was there.
#[unsafe(no_mangle)]
pub extern "C" fn histdesk_waits_part(alloc: Global, desk: &mut Handle, skips: bool) -> u32
    ensures { Calls desk.old.held desk.new.held result (λ before after.
        BeginsPart (bad_lines skips) before.waits result after.waits × OnlyWaits before after) }
{
    match desk.take(alloc) {
        Some(mut session) => {
            let code = session.waits.begin_part(bad_lines(skips));
            desk.put(alloc, session);
            code
        }
        None => CLOSED,
    }
}

/// Joins the part that another handle's stream has read behind the text of this one: how many waits it told.
#[unsafe(no_mangle)]
pub extern "C" fn histdesk_waits_join(
    alloc: Global,
    desk: &mut Handle,
    part: &mut Handle,
    count: &mut u64,
) -> u32
    ensures { CallsBoth desk.old.held part.old.held desk.new.held part.new.held result count.old count.new
        (λ before before_part after after_part.
        Joins before.waits before_part.waits count.old result count.new after.waits after_part.waits
        × OnlyWaits before after × OnlyWaits before_part after_part) }
{
    match desk.take(alloc) {
        Some(mut session) => match part.take(alloc) {
            Some(mut other) => {
                let code = session.waits.join(&mut other.waits, count);
                part.put(alloc, other);
                desk.put(alloc, session);
                code
            }
            None => {
                desk.put(alloc, session);
                CLOSED
            }
        },
        None => CLOSED,
    }
}

/// Leaves events out of the text: those of a name's number that pass a filter, or all of the name.
#[unsafe(no_mangle)]
pub extern "C" fn histdesk_waits_without(
    alloc: Global,
    desk: &mut Handle,
    event: u32,
    filter: &[u8],
) -> u32
    ensures { Calls desk.old.held desk.new.held result (λ before after.
        LeavesOut (name_numbered event) filter.now before.waits result after.waits × OnlyWaits before after) }
{
    match desk.take(alloc) {
        Some(mut session) => {
            let code = session.waits.leave_out(name_numbered(event), filter);
            desk.put(alloc, session);
            code
        }
        None => CLOSED,
    }
}

/// Sums up the tasks and CPUs of the text as well.
#[unsafe(no_mangle)]
pub extern "C" fn histdesk_waits_sum_up(alloc: Global, desk: &mut Handle) -> u32
    ensures { Calls desk.old.held desk.new.held result (λ before after.
        SumsUp before.waits result after.waits × OnlyWaits before after) }
{
    match desk.take(alloc) {
        Some(mut session) => {
            let code = session.waits.sum_up();
            desk.put(alloc, session);
            code
        }
        None => CLOSED,
    }
}

/// Takes the next piece of the text: how many waits it told.
#[unsafe(no_mangle)]
pub extern "C" fn histdesk_waits_feed(
    alloc: Global,
    desk: &mut Handle,
    piece: &[u8],
    count: &mut u64,
) -> u32
    ensures { CallsWriting desk.old.held desk.new.held result count.old count.new (λ before after.
        Feeds piece.now before.waits count.old result count.new after.waits × OnlyWaits before after) }
{
    match desk.take(alloc) {
        Some(mut session) => {
            let code = session.waits.feed(piece, count);
            desk.put(alloc, session);
            code
        }
        None => CLOSED,
    }
}

/// Ends the text: what was read of it, and how many waits were left.
#[unsafe(no_mangle)]
pub extern "C" fn histdesk_waits_finish(
    alloc: Global,
    desk: &mut Handle,
    read: &mut ReadLayout,
    count: &mut u64,
) -> u32
    ensures does { CallsWriting desk.old.held desk.new.held result count.old count.new (λ before after.
        Finishes before.waits read.old count.old result read.new count.new after.waits
        × OnlyWaits before after) }
    ensures read { IfNone desk.old.held (read.new ≡ read.old) }
{
    match desk.take(alloc) {
        Some(mut session) => {
            let code = session.waits.finish(read, count);
            desk.put(alloc, session);
            code
        }
        None => CLOSED,
    }
}

/// Copies the waits that the last feed, finish, join or `histdesk_waits_held` reported, and returns how
/// many were copied.
#[unsafe(no_mangle)]
pub extern "C" fn histdesk_waits_copy(
    alloc: Global,
    desk: &mut Handle,
    from: u64,
    to: &mut [WaitLayout],
) -> usize
    ensures part { MatchOption desk.old.held
        ((result ≡ 0) × (to.new ≡ to.old))
        (λ held. IsCopied wait_layout held.waits.waits.items from to.old result to.new) }
    ensures unchanged { desk.new.held ≡ desk.old.held }
{
    match desk.take(alloc) {
        Some(session) => {
            let copied = copy_waits(session.waits.waits.as_slice(), from, to);
            desk.put(alloc, session);
            copied
        }
        None => 0,
    }
}

/// Copies the holes of a text that has ended: how many.
#[unsafe(no_mangle)]
pub extern "C" fn histdesk_waits_holes(
    alloc: Global,
    desk: &mut Handle,
    from: u64,
    to: &mut [HoleLayout],
) -> usize
    ensures part { MatchOption desk.old.held
        ((result ≡ 0) × (to.new ≡ to.old))
        (λ held. IsCopied hole_layout (holes_at held.waits.phase) from to.old result to.new) }
    ensures unchanged { desk.new.held ≡ desk.old.held }
{
    match desk.take(alloc) {
        Some(session) => {
            let copied = copy_holes(session.waits.phase.holes(), from, to);
            desk.put(alloc, session);
            copied
        }
        None => 0,
    }
}

/// Copies how many events were left out of a text that has ended: how many such counts.
#[unsafe(no_mangle)]
pub extern "C" fn histdesk_waits_left_out(
    alloc: Global,
    desk: &mut Handle,
    from: u64,
    to: &mut [LeftOutLayout],
) -> usize
    ensures part { MatchOption desk.old.held
        ((result ≡ 0) × (to.new ≡ to.old))
        (λ held. IsCopied left_out_layout (left_out_at held.waits.phase) from to.old result to.new) }
    ensures unchanged { desk.new.held ≡ desk.old.held }
{
    match desk.take(alloc) {
        Some(session) => {
            let copied = copy_left_out(session.waits.phase.left_out(), from, to);
            desk.put(alloc, session);
            copied
        }
        None => 0,
    }
}

/// Copies what a text that has ended sums up to by task: how many tasks.
#[unsafe(no_mangle)]
pub extern "C" fn histdesk_waits_tasks(
    alloc: Global,
    desk: &mut Handle,
    from: u64,
    to: &mut [TaskSumLayout],
) -> usize
    ensures part { MatchOption desk.old.held
        ((result ≡ 0) × (to.new ≡ to.old))
        (λ held. IsCopied task_sum_layout (tasks_at held.waits.phase) from to.old result to.new) }
    ensures unchanged { desk.new.held ≡ desk.old.held }
{
    match desk.take(alloc) {
        Some(session) => {
            let copied = copy_tasks(session.waits.phase.tasks(), from, to);
            desk.put(alloc, session);
            copied
        }
        None => 0,
    }
}

/// Copies what a text that has ended sums up to by CPU: how many CPUs.
#[unsafe(no_mangle)]
pub extern "C" fn histdesk_waits_cpus(
    alloc: Global,
    desk: &mut Handle,
    from: u64,
    to: &mut [CpuSumLayout],
) -> usize
    ensures part { MatchOption desk.old.held
        ((result ≡ 0) × (to.new ≡ to.old))
        (λ held. IsCopied cpu_sum_layout (cpus_at held.waits.phase) from to.old result to.new) }
    ensures unchanged { desk.new.held ≡ desk.old.held }
{
    match desk.take(alloc) {
        Some(session) => {
            let copied = copy_cpus(session.waits.phase.cpus(), from, to);
            desk.put(alloc, session);
            copied
        }
        None => 0,
    }
}

/// Copies how many events each CPU had so far, by the CPU's number: how many CPUs.
#[unsafe(no_mangle)]
pub extern "C" fn histdesk_waits_events(
    alloc: Global,
    desk: &mut Handle,
    from: u64,
    to: &mut [u32],
) -> usize
    ensures part { MatchOption desk.old.held
        ((result ≡ 0) × (to.new ≡ to.old))
        (λ held. IsCopied (λ number. number) (events_at held.waits.phase) from to.old result to.new) }
    ensures unchanged { desk.new.held ≡ desk.old.held }
{
    match desk.take(alloc) {
        Some(session) => {
            let copied = copy_numbers(session.waits.phase.events(), from, to);
            desk.put(alloc, session);
            copied
        }
        None => 0,
    }
}

/// Writes the stamp of the last event so far, and whether there is one.
#[unsafe(no_mangle)]
pub extern "C" fn histdesk_waits_last(
    alloc: Global,
    desk: &mut Handle,
    stamp: &mut u64,
    has: &mut bool,
) -> u32
    ensures does { CallsWriting desk.old.held desk.new.held result stamp.old stamp.new (λ before after.
        TellsLast before.waits stamp.old has.old result stamp.new has.new after.waits
        × OnlyWaits before after) }
    ensures has { IfNone desk.old.held (has.new ≡ has.old) }
{
    match desk.take(alloc) {
        Some(mut session) => {
            let code = session.waits.last(stamp, has);
            desk.put(alloc, session);
            code
        }
        None => CLOSED,
    }
}

/// Asks for the waits of all held events: how many they are.
#[unsafe(no_mangle)]
pub extern "C" fn histdesk_waits_held(alloc: Global, desk: &mut Handle, count: &mut u64) -> u32
    ensures { CallsWriting desk.old.held desk.new.held result count.old count.new (λ before after.
        HoldsWaits before count.old result count.new after) }
{
    match desk.take(alloc) {
        Some(mut session) => {
            let code = session.held_waits(count);
            desk.put(alloc, session);
            code
        }
        None => CLOSED,
    }
}

/// Writes how sure waits of a text are, once it has ended.
#[unsafe(no_mangle)]
pub extern "C" fn histdesk_waits_doubt(
    alloc: Global,
    desk: &mut Handle,
    waits: &mut [WaitLayout],
) -> u32
    ensures { CallsWriting desk.old.held desk.new.held result waits.old waits.new (λ before after.
        DoubtsWaits waits.old before.waits result waits.new after.waits × OnlyWaits before after) }
{
    match desk.take(alloc) {
        Some(mut session) => {
            let code = session.waits.doubt(waits);
            desk.put(alloc, session);
            code
        }
        None => CLOSED,
    }
}

/// Why the last of these calls was refused, if it was: 0.
#[unsafe(no_mangle)]
pub extern "C" fn histdesk_waits_refused(
    alloc: Global,
    desk: &mut Handle,
    refusal: &mut RefusalLayout,
) -> u32
    ensures refusal { MatchOption desk.old.held
        ((result ≡ closed) × (refusal.new ≡ refusal.old))
        (λ held. (result ≡ 0) × (refusal.new ≡ refusal_layout held.waits.refused)) }
    ensures unchanged { desk.new.held ≡ desk.old.held }
{
    match desk.take(alloc) {
        Some(session) => {
            *refusal = refusal_of(session.waits.refused);
            desk.put(alloc, session);
            ACCEPTED
        }
        None => CLOSED,
    }
}

/// Ends the stream, if there is one, and gives back all that it keeps.
#[unsafe(no_mangle)]
pub extern "C" fn histdesk_waits_free(alloc: Global, desk: &mut Handle)
    ensures { MatchOption desk.old.held (desk.new.held ≡ None)
        (λ before. IsSomeAnd desk.new.held (λ after. IsIdle after.waits × OnlyWaits before after)) }
{
    if let Some(mut session) = desk.take(alloc) {
        session.waits.end();
        desk.put(alloc, session);
    }
}
