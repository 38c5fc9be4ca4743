//! How a task stands after some acts, and what an act changes of that.

ghost use Rattle.std.specs.Prelude.{◌≡◌};
ghost use Rattle.ft_summary.specs.Figures.{is_another, is_asleep, is_blocked};
ghost use Rattle.ft_summary.specs.Runs.{one_if};
ghost use Rattle.ft_summary.specs.inner.Changes.{changed, leaving_by, left_by, none, ran_on, standing_waits, summed};

use crate::sums::TaskSum;
use ft_dispatch::{PlacedAct, PrevState};

/// How a task stands after some acts.
#[derive(Clone, Copy)]
pub(crate) struct Standing {
    /// What they sum up to for it.
    pub(crate) sum: TaskSum,
    /// The CPU on which it last ran or was left.
    pub(crate) cpu: Option<u16>,
    /// Whether it runs.
    pub(crate) running: bool,
    /// Whether it can run: the last act that named it ran, woke or created it, or left it while it could run.
    pub(crate) runnable: bool,
}

/// How a switch leaves a task.
#[derive(Clone, Copy)]
pub(crate) struct Leaving {
    /// The switch's CPU.
    pub(crate) cpu: u16,
    /// The length of the run that it ends, in microseconds; 0 if that isn't known.
    pub(crate) ran_for: u64,
    /// How the task is then.
    pub(crate) state: PrevState,
    /// Whether the CPU goes to another task.
    pub(crate) for_another: bool,
}

impl Leaving {
    /// How a switch leaves a task, by how long its run lasted.
    #[inline(always)]
    pub(crate) fn by(turn: &PlacedAct, ran_for: u64) -> Leaving
        ensures { result ≡ leaving_by turn.now ran_for }
    {
        Leaving {
            cpu: turn.place.cpu,
            ran_for,
            state: turn.prev_state,
            for_another: turn.prev_pid != turn.pid,
        }
    }
}

/// What an act changes for a task.
#[derive(Clone, Copy)]
pub(crate) enum Change {
    /// It is woken or created.
    Awoken,
    /// A switch leaves it.
    Left(Leaving),
    /// This CPU goes to it.
    Run(u16),
}

/// Whether a task sleeps that a switch leaves so.
#[inline(always)]
fn is_asleep(state: PrevState) -> bool
    ensures { result ≡ is_asleep state }
{
    match state {
        PrevState::Asleep => true,
        PrevState::Runnable | PrevState::Preempted | PrevState::Blocked | PrevState::Other => false,
    }
}

/// Whether it is blocked.
#[inline(always)]
fn is_blocked(state: PrevState) -> bool
    ensures { result ≡ is_blocked state }
{
    match state {
        PrevState::Blocked => true,
        PrevState::Runnable | PrevState::Preempted | PrevState::Asleep | PrevState::Other => false,
    }
}

/// Whether a CPU is another one than the known one.
#[inline(always)]
fn is_another(known: Option<u16>, cpu: u16) -> bool
    ensures { result ≡ is_another known cpu }
{
    match known {
        Some(known) => known != cpu,
        None => false,
    }
}

/// Adds 1 to a figure if `counts`.
#[inline(always)]
fn add_if(figure: u64, counts: bool) -> u64
    ensures { result ≡ summed figure (one_if counts) }
{
    figure.saturating_add(if counts { 1 } else { 0 })
}

impl Standing {
    /// How a task stands if no act named it.
    #[inline(always)]
    pub(crate) fn none(pid: i32) -> Standing
        ensures { result ≡ none pid }
    {
        Standing {
            sum: TaskSum {
                pid,
                run_time: 0,
                switches: 0,
                preempted: 0,
                slept: 0,
                blocked: 0,
                moved: 0,
            },
            cpu: None,
            running: false,
            runnable: false,
        }
    }

    /// Whether the task waits for a processor.
    #[inline(always)]
    pub(crate) fn waits(&self) -> bool
        ensures { result ≡ standing_waits self.now }
    {
        self.runnable && !self.running
    }

    /// A switch leaves the task.
    #[inline(always)]
    fn left_by(&self, leaving: &Leaving) -> Standing
        ensures { result ≡ left_by leaving.now self.now }
    {
        let to = leaving.for_another;
        let can_run = leaving.state.can_run();
        let sum = TaskSum {
            pid: self.sum.pid,
            run_time: self.sum.run_time.saturating_add(leaving.ran_for),
            switches: self.sum.switches,
            preempted: add_if(self.sum.preempted, to && can_run),
            slept: add_if(self.sum.slept, to && is_asleep(leaving.state)),
            blocked: add_if(self.sum.blocked, to && is_blocked(leaving.state)),
            moved: self.sum.moved,
        };
        Standing {
            sum,
            cpu: Some(leaving.cpu),
            running: false,
            runnable: can_run,
        }
    }

    /// A CPU goes to the task.
    #[inline(always)]
    fn ran_on(&self, cpu: u16) -> Standing
        ensures { result ≡ ran_on cpu self.now }
    {
        let sum = TaskSum {
            pid: self.sum.pid,
            run_time: self.sum.run_time,
            switches: add_if(self.sum.switches, true),
            preempted: self.sum.preempted,
            slept: self.sum.slept,
            blocked: self.sum.blocked,
            moved: add_if(self.sum.moved, is_another(self.cpu, cpu)),
        };
        Standing {
            sum,
            cpu: Some(cpu),
            running: true,
            runnable: true,
        }
    }

    /// Changes how the task stands.
    #[inline(always)]
    pub(crate) fn change(&mut self, change: Change)
        ensures { self.new ≡ changed change self.old }
    {
        match change {
            Change::Awoken => self.runnable = true,
            Change::Left(leaving) => *self = self.left_by(&leaving),
            Change::Run(cpu) => *self = self.ran_on(cpu),
        }
    }
}
