//! Switches that are missing.

ghost use Rattle.std.specs.Prelude.{◌≡◌, ◌≤◌, ◌==◌, ◌+◌, ◌∷◌, [], ℕ, List, Some, None, slice_index_or, if◌then◌else◌, OnOk, IfOk, IfErr, vec_len};
ghost use Rattle.ft_fields.specs.Borrowed.{event_told};
ghost use Rattle.ft_fields.specs.Traced.{last_cpu};
ghost use Rattle.ft_losses.specs.Notes.{Note, Passed, quiet_note};
ghost use Rattle.ft_waits.specs.Missing.{runs_after, running_after_mark, is_other, with_event, running as running_on};
ghost use Rattle.ft_waits.specs.inner.Running.{RunsTasks};

use crate::fault::WaitsFault;
use crate::ran::Ran;
use crate::state::CPUS;
use ft_event::Mark;
use ft_fields::{BodyRef, EventRef, Pos};
use std::alloc::{AllocError, Global};

/// Switches that are missing in a text though no line reports them, as far as its events show it.
#[derive(Clone, Copy, Debug, PartialEq, Eq)]
pub struct Missing {
    /// How many events show that a switch is missing before them: another task runs than the one
    /// that the CPU's event before shows, and no line between reports a loss.
    pub switches: u64,
    /// The place of the first of these events.
    pub first: Option<Pos>,
}

/// It is not known of any CPU what it runs.
#[tactic(auto, unfolding(crate::specs::Missing::running))]
pub(crate) fn none_running(alloc: Global) -> Result<Vec<Option<Ran>>, AllocError>
    ensures len { IfOk result (λ running. vec_len running ≡ 8192) }
    ensures none { IfOk result (λ running. RunsTasks running.items []) }
{
    let mut running = Vec::new(alloc);
    running.resize(CPUS, None)?;
    Ok(running)
}

/// The task that a CPU runs after an event.
#[inline(always)]
fn runs_after(event: &EventRef<'_>) -> i32
    ensures { result ≡ runs_after (event_told event.now) }
{
    match event.body {
        BodyRef::Switch(turn) => turn.next_pid,
        _ => event.pid,
    }
}

/// Whether another task runs than the one that ran last, if it is known which did.
#[inline(always)]
pub(crate) fn is_other(ran: Option<Ran>, pid: i32) -> bool
    ensures { result ≡ is_other ran pid }
{
    match ran {
        Some(Ran::Task(ran)) => ran != pid,
        Some(Ran::Lost) => false,
        None => false,
    }
}

/// Takes note of a CPU's loss: it isn't known then what the CPU runs.
fn lose(running: &mut Vec<Option<Ran>>, cpu: u16)
    requires { vec_len running.old ≡ 8192 }
    ensures len { vec_len running.new ≡ 8192 }
    ensures at { (other : ℕ) → other ≤ last_cpu → slice_index_or running.new.items other None
        ≡ if cpu == other then Some Ran.Lost else slice_index_or running.old.items other None }
{
    let cpu = usize::from(cpu);
    if cpu < CPUS {
        running[cpu] = Some(Ran::Lost);
    }
}

/// Takes note of a mark: what a CPU runs that it says has lost events.
fn lose_by(running: &mut Vec<Option<Ran>>, mark: Mark)
    requires { vec_len running.old ≡ 8192 }
    ensures len { vec_len running.new ≡ 8192 }
    ensures at { (cpu : ℕ) → cpu ≤ last_cpu → slice_index_or running.new.items cpu None
        ≡ running_after_mark cpu mark (slice_index_or running.old.items cpu None) }
{
    match mark {
        Mark::Lost { cpu, .. } => lose(running, cpu),
        Mark::Started { cpu } => lose(running, cpu),
        Mark::Overwritten { .. } => {}
        Mark::Written { .. } => {}
    }
}

/// Takes note of a line that has no event, and of the mark that it is, if it is one.
pub(crate) fn notice_mark(running: &mut Vec<Option<Ran>>, mark: Option<Mark>)
    requires { vec_len running.old ≡ 8192 }
    ensures len { vec_len running.new ≡ 8192 }
    ensures running { (before : List Note) → RunsTasks running.old.items before
        → RunsTasks running.new.items (quiet_note mark ∷ before) }
{
    match mark {
        Some(mark) => lose_by(running, mark),
        None => {}
    }
}

impl Missing {
    /// No event showed that a switch is missing.
    pub(crate) fn none() -> Missing
        ensures switches { result.switches ≡ 0 }
        ensures first { result.first ≡ None }
    {
        Missing {
            switches: 0,
            first: None,
        }
    }

    /// Counts an event at a place, if it shows that a switch is missing. Fails if the count does not fit.
    #[inline(always)]
    fn count(&mut self, is_missing: bool, place: Pos) -> Result<(), WaitsFault>
        ensures ok { OnOk result (self.new ≡ with_event is_missing place self.old) }
        ensures full { IfErr result (λ fault. (fault ≡ WaitsFault.TooLong) × (self.old.switches ≡ 18446744073709551615)) }
    {
        if is_missing {
            self.switches = self.switches.checked_add(1).ok_or(WaitsFault::TooLong)?;
            self.first = Some(self.first.unwrap_or(place));
        }
        Ok(())
    }
}

/// Takes note of an event at its place: whether it shows that a switch is missing, and which task its CPU
/// runs then.
#[inline(always)]
pub(crate) fn notice(
    running: &mut Vec<Option<Ran>>,
    missing: &mut Missing,
    event: &EventRef<'_>,
    place: Pos,
) -> Result<(), WaitsFault>
    requires { vec_len running.old ≡ 8192 }
    ensures len { vec_len running.new ≡ 8192 }
    ensures running { OnOk result ((before : List Note) → RunsTasks running.old.items before
        → RunsTasks running.new.items (Passed (event_told event.now) ∷ before)) }
    ensures missing { OnOk result ((before : List Note) → RunsTasks running.old.items before
        → missing.new ≡ with_event (is_other (running_on event.now.cpu before) event.now.pid) place missing.old) }
    ensures full { IfErr result (λ fault. (fault ≡ WaitsFault.TooLong) × (missing.old.switches ≡ 18446744073709551615)) }
{
    let cpu = event.cpu as usize;
    missing.count(is_other(running[cpu], event.pid), place)?;
    running[cpu] = Some(Ran::Task(runs_after(event)));
    Ok(())
}
