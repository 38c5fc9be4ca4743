//! One act after the other.

ghost use Rattle.std.specs.Prelude.{◌≡◌, ◌||◌, ℤ, [], ◌++◌, OnOk, if◌then◌else◌};
ghost use Rattle.std.specs.Ordering.{int_eq};
ghost use Rattle.ft_dispatch.specs.Dispatches.{ended_by, dispatch_at, dispatch_of};
ghost use Rattle.ft_dispatch.specs.Telling.{known, handover_of, act_from, entries_of, Tells, TakesAll, ShowsAll};
ghost use Rattle.ft_dispatch.specs.inner.Changes.{after, changed, leaving, seen_if};

use crate::act::{Kind, PlacedAct};
use crate::dispatch::{Dispatch, Left, Since};
use crate::showing::{Shown, show};
use crate::tasks::{Change, Known, Tasks, run, set};
use std::alloc::{AllocError, Global};

/// Where a switch leaves a task, and how.
#[inline(always)]
fn leaving(turn: &PlacedAct) -> Left
    ensures { result ≡ leaving (handover_of turn.now) turn.now.place }
{
    Left {
        place: turn.place,
        runnable: turn.prev_state.can_run(),
        queued: turn.prev_state.is_queued(),
    }
}

/// What a switch ends.
#[inline(always)]
fn ended_by(turn: &PlacedAct, since: Since) -> Since
    ensures { result ≡ ended_by turn.now.place (handover_of turn.now) since }
{
    if turn.prev_pid == turn.pid {
        Since {
            woken: since.woken,
            created: since.created,
            left: Some(Left {
                place: turn.place,
                runnable: false,
                queued: false,
            }),
            seen: since.seen,
            roused: since.roused,
        }
    } else {
        since
    }
}

/// Adds the dispatch of the task that a switch runs; task 0 has none.
#[inline(always)]
fn dispatch(turn: &PlacedAct, since: Since, out: &mut Vec<Dispatch>) -> Result<(), AllocError>
    ensures { OnOk result (out.new.items ≡ out.old.items ++ dispatch_at turn.now.place (handover_of turn.now) since) }
{
    if turn.pid == 0 {
        return Ok(());
    }
    out.push(Dispatch {
        pid: turn.pid,
        prio: turn.prio,
        name: turn.name,
        place: turn.place,
        since: ended_by(turn, since),
    })?;
    Ok(())
}

/// Takes an act on a task's line: the task runs.
#[inline(always)]
fn see(tasks: &mut Known, act: &PlacedAct) -> Result<(), AllocError>
    ensures { OnOk result ((pid : ℤ) → known tasks.new pid
        ≡ seen_if (int_eq act.now.by pid) act.now.place (known tasks.old pid)) }
{
    set(tasks, act.by, Change::Seen(act.place))
}

/// Takes an act that a task's line says of another task.
#[inline(always)]
fn change(tasks: &mut Known, act: &PlacedAct, change: Change) -> Result<(), AllocError>
    ensures { OnOk result ((pid : ℤ) → known tasks.new pid
        ≡ if int_eq act.now.pid pid then changed change (seen_if (int_eq act.now.by pid) act.now.place (known tasks.old pid))
        else seen_if (int_eq act.now.by pid) act.now.place (known tasks.old pid)) }
{
    see(tasks, act)?;
    set(tasks, act.pid, change)
}

/// Takes a switch on the line of a task that it neither leaves nor runs: that task runs.
#[inline(always)]
fn see_another(tasks: &mut Known, turn: &PlacedAct) -> Result<(), AllocError>
    ensures { OnOk result ((pid : ℤ) → known tasks.new pid
        ≡ if int_eq turn.now.pid pid || int_eq turn.now.prev_pid pid then known tasks.old pid
        else seen_if (int_eq turn.now.by pid) turn.now.place (known tasks.old pid)) }
{
    // A switch stands on the line of the task that it leaves.
    if turn.by == turn.prev_pid {
        return Ok(());
    }
    if turn.by == turn.pid {
        return Ok(());
    }
    see(tasks, turn)
}

/// Takes a switch, and adds its dispatch.
#[inline(always)]
fn switch(tasks: &mut Known, turn: &PlacedAct, out: &mut Vec<Dispatch>) -> Result<(), AllocError>
    ensures knows { OnOk result ((pid : ℤ) → known tasks.new pid
        ≡ after pid turn.now.place (act_from Kind.Switch turn.now) (known tasks.old pid)) }
    ensures out { OnOk result (out.new.items ≡ out.old.items
        ++ dispatch_at turn.now.place (handover_of turn.now) (known tasks.old turn.now.pid)) }
{
    set(tasks, turn.prev_pid, Change::Left(leaving(turn)))?;
    let since = run(tasks, turn.pid, turn.place)?;
    see_another(tasks, turn)?;
    dispatch(turn, since, out)
}

/// Takes an act, and adds its dispatch, if it is a switch to a task.
#[inline(always)]
fn take(tasks: &mut Known, act: &PlacedAct, out: &mut Vec<Dispatch>) -> Result<(), AllocError>
    ensures knows { OnOk result ((pid : ℤ) → known tasks.new pid
        ≡ after pid act.now.place (act_from act.now.kind act.now) (known tasks.old pid)) }
    ensures out { OnOk result (out.new.items ≡ out.old.items
        ++ dispatch_of act.now.place (act_from act.now.kind act.now) (known tasks.old)) }
{
    match act.kind {
        Kind::Switch => switch(tasks, act, out),
        Kind::Waking => change(tasks, act, Change::Woken(act.place)),
        Kind::Creation => change(tasks, act, Change::Created(act.place)),
        Kind::Wakeup => change(tasks, act, Change::Roused(act.place)),
    }
}

impl Tasks {
    /// No act made a task runnable.
    pub fn new(alloc: Global) -> Tasks
        ensures { Tells result [] [] }
    {
        Tasks {
            since: Known::new(alloc),
        }
    }

    /// Takes acts that follow in order, and adds their dispatches, and what they show. Fails only for memory.
    #[inline(always)]
    pub fn take_all(
        &mut self,
        acts: &[PlacedAct],
        out: &mut Vec<Dispatch>,
        shown: &mut Shown,
    ) -> Result<(), AllocError>
        ensures takes { OnOk result (TakesAll (entries_of acts.now) self.old out.old.items self.new out.new.items) }
        ensures shows { OnOk result (ShowsAll (entries_of acts.now) self.old out.old.items shown.old shown.new) }
    {
        for one in acts {
            show(&self.since, one, shown)?;
            take(&mut self.since, one, out)?;
        }
        Ok(())
    }
}
