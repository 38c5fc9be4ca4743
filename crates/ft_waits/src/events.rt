//! One event after the other.

ghost use Rattle.std.specs.Prelude.{◌≡◌, ◌≤◌, ◌++◌, ◌∷◌, [], ℕ, List, None, reverse, nat_lt, is_some, OnOk, IfOk, IfErr, vec_len, ◌⊎◌};
ghost use Rattle.ft_fields.specs.Borrowed.{event_told, owned_body};
ghost use Rattle.ft_fields.specs.Traced.{Traced};
ghost use Rattle.ft_losses.specs.Notes.{Note, Passed};
ghost use Rattle.ft_waits.specs.Missing.{passed};
ghost use Rattle.ft_dispatch.specs.Acts.{Act, act_of};
ghost use Rattle.ft_waits.specs.LeftOut.{act_unless};
ghost use Rattle.ft_waits.specs.Reading.{place_after, act_at, in_order, acts_of, CountsEvents};
ghost use Rattle.ft_dispatch.specs.Dispatches.{dispatches};
ghost use Rattle.ft_dispatch.specs.Showings.{showings};
ghost use Rattle.ft_waits.specs.inner.Known.{Follows, IsNumbered, Misses, Orders, SumsTell, left_out_by};
ghost use Rattle.ft_dispatch.specs.Telling.{entries_of};
ghost use Rattle.ft_windows.specs.Telling.{Keeps as KeepsWindows};

use crate::fault::WaitsFault;
use crate::kept::KeptActs;
use crate::left_out::count_left_out;
use crate::missing::{Missing, none_running, notice};
use crate::starts::note_start;
use crate::state::{CPUS, State};
use crate::steps::settle;
use ft_dispatch::{Dispatch, PlacedAct, Shown, Tasks};
use ft_fields::{EventRef, Pos};
use ft_summary::Summary;
use ft_windows::Windows;
use std::alloc::{AllocError, Global};

/// No events of any CPU.
fn no_lines(alloc: Global) -> Result<Vec<u32>, AllocError>
    ensures len { IfOk result (λ lines. vec_len lines ≡ 8192) }
    ensures none { IfOk result (λ lines. CountsEvents lines.items []) }
{
    let mut lines = Vec::new(alloc);
    lines.resize(CPUS, 0)?;
    Ok(lines)
}

/// Counts an event of a CPU, and answers its place. Refused if the count does not fit.
#[inline(always)]
fn count(lines: &mut Vec<u32>, event: &EventRef<'_>) -> Result<Pos, WaitsFault>
    requires { vec_len lines.old ≡ 8192 }
    ensures len { vec_len lines.new ≡ 8192 }
    ensures place { IfOk result (λ place. (before : List Traced) → CountsEvents lines.old.items before
        → place ≡ place_after before (event_told event.now)) }
    ensures counts { OnOk result ((before : List Traced) → CountsEvents lines.old.items before
        → CountsEvents lines.new.items (event_told event.now ∷ before)) }
    ensures full { IfErr result (λ fault. (fault ≡ WaitsFault.TooLong)
        × ((before : List Traced) → CountsEvents lines.old.items before → IsNumbered before)) }
{
    let cpu = event.cpu as usize;
    let Some(line) = lines[cpu].checked_add(1) else {
        return Err(WaitsFault::TooLong);
    };
    lines[cpu] = line;
    Ok(Pos {
        stamp: event.stamp,
        cpu: event.cpu,
        line,
    })
}

/// No acts.
fn no_acts(alloc: Global) -> Result<KeptActs, AllocError>
    ensures { IfOk result (λ acts. Orders acts None 0 [] [] []) }
{
    Ok(KeptActs {
        held: Vec::new(alloc),
        tasks: Tasks::new(alloc),
        shown: Shown::new(alloc),
        windows: Windows::new(alloc)?,
    })
}

/// Goes on to a stamp: if it is a later one, the acts of the one before are taken in their order, and
/// their dispatches added.
#[inline(always)]
fn advance(
    is_later: bool,
    acts: &mut KeptActs,
    sums: &mut Option<Summary>,
    out: &mut Vec<Dispatch>,
) -> Result<(), AllocError>
    ensures orders { OnOk result ((latest stamp : ℕ) → latest ≤ stamp → is_later ≡ nat_lt latest stamp
        → (events : List Traced) (entries : List (Pos × Act)) (told : List Dispatch)
        → Orders acts.old sums.old latest events entries (told ++ out.old.items)
        → Orders acts.new sums.new stamp events entries (told ++ out.new.items)) }
    ensures sums { OnOk result (is_some sums.new ≡ is_some sums.old) }
{
    if is_later {
        settle(acts, sums, out)?;
    }
    Ok(())
}

/// Holds what an event says of who runs, if it says anything and is not left out.
#[inline(always)]
fn hold(
    held: &mut Vec<PlacedAct>,
    is_left_out: bool,
    event: &EventRef<'_>,
    place: Pos,
) -> Result<(), AllocError>
    ensures { OnOk result (entries_of held.new.items
        ≡ entries_of held.old.items ++ act_at place (act_unless is_left_out (act_of event.now.pid (owned_body event.now.body)))) }
{
    if is_left_out {
        return Ok(());
    }
    match PlacedAct::of(event.pid, &event.body, place) {
        Some(one) => held.push(one)?,
        None => {}
    }
    Ok(())
}

impl State {
    /// No events.
    pub(crate) fn new(alloc: Global) -> Result<State, AllocError>
        ensures follows { IfOk result (λ state. Follows state [] []) }
        ensures misses { IfOk result (λ state. Misses state []) }
        ensures left_out { IfOk result (λ state. state.left_out.items ≡ []) }
        ensures sums { IfOk result (λ state. state.sums ≡ None) }
    {
        Ok(State {
            lines: no_lines(alloc)?,
            first: None,
            latest: 0,
            acts: no_acts(alloc)?,
            sums: None,
            running: none_running(alloc)?,
            starts: Vec::new(alloc),
            missing: Missing::none(),
            left_out: Vec::new(alloc),
        })
    }

    /// Takes the next event, whose stamp is not before the last one's. Adds the dispatches of the events
    /// before its microsecond.
    #[inline(always)]
    pub(crate) fn push(
        &mut self,
        event: &EventRef<'_>,
        out: &mut Vec<Dispatch>,
    ) -> Result<(), WaitsFault>
        requires { self.old.latest ≤ event.now.stamp }
        ensures follows { OnOk result ((events : List Traced) (told : List Dispatch)
            → Follows self.old events (told ++ out.old.items)
            → Follows self.new (event_told event.now ∷ events) (told ++ out.new.items)) }
        ensures misses { OnOk result ((notes : List Note) → CountsEvents self.old.lines.items (passed notes)
            → Misses self.old notes → Misses self.new (Passed (event_told event.now) ∷ notes)) }
        ensures fails { IfErr result (λ fault. (fault ≡ WaitsFault.Memory) ⊎ ((fault ≡ WaitsFault.TooLong)
            × ((notes : List Note) (told : List Dispatch) → Follows self.old (passed notes) told → Misses self.old notes
            → IsNumbered (passed notes)))) }
        ensures left_out { OnOk result (left_out_by self.new.left_out.items ≡ left_out_by self.old.left_out.items) }
        ensures sums { OnOk result (is_some self.new.sums ≡ is_some self.old.sums) }
    {
        let place = count(&mut self.lines, event)?;
        note_start(&mut self.starts, &self.running, &self.missing, event, place)?;
        notice(&mut self.running, &mut self.missing, event, place)?;
        let is_later = self.latest < event.stamp;
        advance(is_later, &mut self.acts, &mut self.sums, out)?;
        self.first = Some(self.first.unwrap_or(event.stamp));
        self.latest = event.stamp;
        let is_left_out = count_left_out(&mut self.left_out, event)?;
        hold(&mut self.acts.held, is_left_out, event, place)?;
        self.acts.windows.take(event)?;
        Ok(())
    }

    /// Takes the acts that are still held, as the last ones, and adds their dispatches.
    pub(crate) fn finish(&mut self, out: &mut Vec<Dispatch>) -> Result<(), AllocError>
        ensures told { OnOk result ((events : List Traced) (told : List Dispatch)
            → Follows self.old events (told ++ out.old.items)
            → told ++ out.new.items ≡ dispatches (reverse (in_order (acts_of (left_out_by self.old.left_out.items) events)))) }
        ensures sums { OnOk result ((events : List Traced) (told : List Dispatch)
            → Follows self.old events (told ++ out.old.items)
            → SumsTell self.new.sums (reverse (in_order (acts_of (left_out_by self.old.left_out.items) events)))) }
        ensures wanted { OnOk result (is_some self.new.sums ≡ is_some self.old.sums) }
        ensures windows { OnOk result ((events : List Traced) (told : List Dispatch)
            → Follows self.old events (told ++ out.old.items)
            → KeepsWindows self.new.acts.windows events
            (showings (reverse (in_order (acts_of (left_out_by self.old.left_out.items) events))))) }
        ensures missing { self.new.missing ≡ self.old.missing }
        ensures first { self.new.first ≡ self.old.first }
        ensures latest { self.new.latest ≡ self.old.latest }
        ensures lines { self.new.lines ≡ self.old.lines }
        ensures left_out { self.new.left_out ≡ self.old.left_out }
    {
        settle(&mut self.acts, &mut self.sums, out)
    }
}
