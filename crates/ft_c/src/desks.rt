//! How desks come and go, and what they tell of themselves.

ghost use Rattle.std.specs.Prelude.{◌≡◌, ◌⊎◌, false, None, IsSomeAnd};
ghost use Rattle.std.specs.Option.{MatchOption};
ghost use Rattle.ft_layout.specs.Refusals.{refusal_layout};
ghost use Rattle.ft_layout.specs.Rows.{report_layout};
ghost use Rattle.ft_session.specs.Calls.{IsNew, Forgets};
ghost use Rattle.ft_session.specs.Told.{rows_told, made_told};
ghost use Rattle.ft_c.specs.Codes.{closed};

use crate::codes::{ACCEPTED, CLOSED, MEMORY};
use crate::handle::Handle;
use ft_layout::{RefusalLayout, ReportLayout};
use ft_session::Session;
use std::alloc::Global;

/// Puts a desk that holds nothing in the handle, and drops the one that was there: 0; or 1 if
/// memory ran out.
#[unsafe(no_mangle)]
pub extern "C" fn histdesk_new(alloc: Global, desk: &mut Handle) -> u32
    ensures { ((result ≡ 0) × IsSomeAnd desk.new.held IsNew)
        ⊎ ((result ≡ 1) × (desk.new.held ≡ desk.old.held)) }
{
    match Box::new(alloc, Session::new(alloc)) {
        Ok(new) => {
            desk.put(alloc, new);
            ACCEPTED
        }
        Err(_) => MEMORY,
    }
}

/// Drops the desk that the handle holds, if there is one. The handle then holds nothing.
#[unsafe(no_mangle)]
pub extern "C" fn histdesk_free(alloc: Global, desk: &mut Handle)
    ensures { desk.new.held ≡ None }
{
    drop(desk.take(alloc));
}

/// Whether the kept tables lack an edit; false if there is no desk.
#[unsafe(no_mangle)]
pub extern "C" fn histdesk_is_deferred(alloc: Global, desk: &mut Handle) -> bool
    ensures value { MatchOption desk.old.held (result ≡ false)
        (λ held. result ≡ held.desk.deferred) }
    ensures unchanged { desk.new.held ≡ desk.old.held }
{
    match desk.take(alloc) {
        Some(session) => {
            let is_deferred = session.is_deferred();
            desk.put(alloc, session);
            is_deferred
        }
        None => false,
    }
}

/// Forgets what was asked for, and what the last insert or strike told.
#[unsafe(no_mangle)]
pub extern "C" fn histdesk_forget(alloc: Global, desk: &mut Handle)
    ensures { MatchOption desk.old.held (desk.new.held ≡ None)
        (λ before. IsSomeAnd desk.new.held (λ after. Forgets before after)) }
{
    if let Some(mut session) = desk.take(alloc) {
        session.forget();
        desk.put(alloc, session);
    }
}

/// Writes how many rows the last accepted insert or strike may have changed, and whether that is
/// told. The code is 0 in either case.
#[unsafe(no_mangle)]
pub extern "C" fn histdesk_report_of(
    alloc: Global,
    desk: &mut Handle,
    report: &mut ReportLayout,
) -> u32
    ensures report { MatchOption desk.old.held
        ((result ≡ closed) × (report.new ≡ report.old))
        (λ held. (result ≡ 0)
        × (report.new ≡ report_layout (rows_told held.edited) (made_told held.edited))) }
    ensures unchanged { desk.new.held ≡ desk.old.held }
{
    match desk.take(alloc) {
        Some(session) => {
            *report = session.report();
            desk.put(alloc, session);
            ACCEPTED
        }
        None => CLOSED,
    }
}

/// Why the last call with a code was refused, if it was: 0.
#[unsafe(no_mangle)]
pub extern "C" fn histdesk_refused(
    alloc: Global,
    desk: &mut Handle,
    refusal: &mut RefusalLayout,
) -> u32
    ensures refusal { MatchOption desk.old.held
        ((result ≡ closed) × (refusal.new ≡ refusal.old))
        (λ held. (result ≡ 0) × (refusal.new ≡ refusal_layout held.refused)) }
    ensures unchanged { desk.new.held ≡ desk.old.held }
{
    match desk.take(alloc) {
        Some(session) => {
            *refusal = RefusalLayout::of(session.refused);
            desk.put(alloc, session);
            ACCEPTED
        }
        None => CLOSED,
    }
}
