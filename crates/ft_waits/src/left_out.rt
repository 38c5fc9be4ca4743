//! Events that are left out, and how many they are.

ghost use Rattle.std.specs.Prelude.{◌≡◌, ◌++◌, ◌∷◌, [], OnOk, OnErr, IfOk, IfErr, Any, map, option_map};
ghost use Rattle.std.specs.Option.{option_copied};
ghost use Rattle.ft_fields.specs.Borrowed.{event_told, owned_body as body_told};
ghost use Rattle.ft_fields.specs.Traced.{name_of};
ghost use Rattle.ft_hist.specs.Hit.{same_name, passes_filter};
ghost use Rattle.ft_waits.specs.LeftOut.{has_name, leaves_out, is_left_out, left_out_of};
ghost use Rattle.ft_waits.specs.inner.Known.{left_out_by, with_event, IsFull};

use crate::fault::WaitsFault;
use crate::owned::owned_event;
use crate::reading::one_more;
use ft_fields::{BodyRef, EventRef, Name};
use ft_filter::Filter;
use std::alloc::AllocError;

/// Which events are left out: those of a name.
#[derive(Drop)]
pub struct Without {
    /// The name.
    pub name: Name,
    /// Which of them: those that pass this filter, or all.
    pub filter: Option<Filter>,
}

/// How many events are left out.
#[derive(Drop)]
pub struct LeftOut {
    /// Which events these are.
    pub without: Without,
    /// How many events have the name.
    pub events: u64,
    /// How many of them are left out by this.
    pub left_out: u64,
}

/// The name of what was traced.
#[inline(always)]
fn name_of(body: &BodyRef<'_>) -> Name
    ensures { result ≡ name_of (body_told body.now) }
{
    match body {
        BodyRef::Waking(_) => Name::Waking,
        BodyRef::Wakeup(_) => Name::Wakeup,
        BodyRef::WakeupNew(_) => Name::WakeupNew,
        BodyRef::Switch(_) => Name::Switch,
        BodyRef::WakeupLatency(_) => Name::WakeupLatency,
        BodyRef::Other => Name::Other,
    }
}

/// Whether two names are the same.
#[inline(always)]
fn is_same(a: Name, b: Name) -> bool
    ensures { result ≡ same_name a b }
{
    a == b
}

/// Whether an event passes a filter, if there is one.
fn passes(filter: Option<&Filter>, event: &EventRef<'_>) -> bool
    ensures { result
        ≡ passes_filter (option_map (λ f. f.tree) (option_copied filter.entry)) (event_told event.now) }
{
    match filter {
        Some(filter) => filter.holds(&owned_event(event)),
        None => true,
    }
}

impl Without {
    /// Whether an event has the name.
    #[inline(always)]
    fn has_name(&self, event: &EventRef<'_>) -> bool
        ensures { result ≡ has_name self.now (event_told event.now) }
    {
        is_same(self.name, name_of(&event.body))
    }

    /// Whether an event that has the name is left out.
    fn passes(&self, event: &EventRef<'_>) -> bool
        ensures { result ≡ passes_filter (option_map (λ c. c.tree) self.now.filter) (event_told event.now) }
    {
        passes(self.filter.as_ref(), event)
    }
}

impl LeftOut {
    /// No events.
    pub(crate) fn none(without: Without) -> LeftOut
        ensures { result ≡ left_out_of [] without }
    {
        LeftOut {
            without,
            events: 0,
            left_out: 0,
        }
    }

    /// Counts an event: whether it is left out by this. Fails if a count does not fit.
    fn take(&mut self, event: &EventRef<'_>) -> Result<bool, WaitsFault>
        ensures counts { OnOk result (self.new ≡ with_event (event_told event.now) self.old) }
        ensures left_out { IfOk result (λ is_out. is_out ≡ leaves_out self.old.without (event_told event.now)) }
        ensures full { IfErr result (λ fault. (fault ≡ WaitsFault.TooLong) × IsFull self.old) }
    {
        if !self.without.has_name(event) {
            return Ok(false);
        }
        let is_out = self.without.passes(event);
        self.events = one_more(self.events)?;
        if is_out {
            self.left_out = one_more(self.left_out)?;
        }
        Ok(is_out)
    }
}

/// Leaves more events out, of which none is counted yet. Fails only for memory.
pub(crate) fn add(all: &mut Vec<LeftOut>, without: Without) -> Result<(), AllocError>
    ensures ok { OnOk result (all.new.items ≡ all.old.items ++ left_out_of [] without ∷ []) }
    ensures err { OnErr result (all.new.items ≡ all.old.items) }
{
    all.push(LeftOut::none(without))?;
    Ok(())
}

/// Counts an event: whether it is left out by one of these. Fails if a count does not fit.
#[inline(always)]
pub(crate) fn count_left_out(
    all: &mut Vec<LeftOut>,
    event: &EventRef<'_>,
) -> Result<bool, WaitsFault>
    ensures counts { OnOk result (all.new.items ≡ map (with_event (event_told event.now)) all.old.items) }
    ensures left_out { IfOk result (λ is_out. is_out
        ≡ is_left_out (left_out_by all.old.items) (event_told event.now)) }
    ensures full { IfErr result (λ fault. (fault ≡ WaitsFault.TooLong)
        × Any IsFull all.old.items) }
{
    let mut is_out = false;
    for number in 0..all.len() {
        if all[number].take(event)? {
            is_out = true;
        }
    }
    Ok(is_out)
}
