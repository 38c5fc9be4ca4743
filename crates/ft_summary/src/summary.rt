//! What acts sum up to, one act after the other.

ghost use Rattle.std.specs.Prelude.{◌≡◌, [], OnOk, IfOk, nat_lt};
ghost use Rattle.ft_dispatch.specs.Telling.{entries_of, entry_of};
ghost use Rattle.ft_summary.specs.inner.Changes.{Switches};
ghost use Rattle.ft_summary.specs.Telling.{Tells, Takes, TakesAll, IsTold};

use crate::clock::Clock;
use crate::cpus::{Cpu, cpu_sums, turn};
use crate::standing::{Change, Leaving, Standing};
use crate::sums::Sums;
use crate::tasks::{Task, change, task_sums};
use ft_dispatch::{Kind, PlacedAct};
use std::alloc::{AllocError, Global};
use std::collections::BTreeMap;

/// What acts sum up to, by task and by CPU.
#[derive(Drop)]
pub struct Summary {
    pub(crate) clock: Clock,
    /// How many tasks wait for a processor.
    pub(crate) waiting: usize,
    pub(crate) tasks: BTreeMap<Task, Standing>,
    pub(crate) cpus: BTreeMap<u16, Cpu>,
}

impl Summary {
    /// No act was taken.
    pub fn new(alloc: Global) -> Summary
        ensures { Tells result [] }
    {
        Summary {
            clock: Clock {
                latest: 0,
                waited: 0,
            },
            waiting: 0,
            tasks: BTreeMap::new(alloc),
            cpus: BTreeMap::new(alloc),
        }
    }

    /// Whether some task waits for a processor.
    #[inline(always)]
    fn some_task_waits(&self) -> bool
        ensures { result ≡ nat_lt 0 self.now.waiting }
    {
        self.waiting > 0
    }

    /// Takes a switch, once its time has come.
    #[inline(always)]
    fn switch(&mut self, act: &PlacedAct) -> Result<(), AllocError>
        ensures { OnOk result (Switches self.old self.new act.now) }
    {
        let ran_for = turn(&mut self.cpus, act, self.clock.waited)?;
        change(
            &mut self.tasks,
            &mut self.waiting,
            act.prev_pid,
            Change::Left(Leaving::by(act, ran_for)),
        )?;
        change(
            &mut self.tasks,
            &mut self.waiting,
            act.pid,
            Change::Run(act.place.cpu),
        )
    }

    /// Takes an act.
    #[inline(always)]
    fn take(&mut self, act: &PlacedAct) -> Result<(), AllocError>
        ensures { OnOk result (Takes (entry_of act.now) self.old self.new) }
    {
        let some_task_waits = self.some_task_waits();
        self.clock.advance(act.place.stamp, some_task_waits);
        match act.kind {
            Kind::Switch => self.switch(act),
            Kind::Waking | Kind::Creation => change(
                &mut self.tasks,
                &mut self.waiting,
                act.pid,
                Change::Awoken,
            ),
            // The task could run from the waking on.
            Kind::Wakeup => Ok(()),
        }
    }

    /// Takes acts that follow in the order of their places. Fails only for memory.
    #[inline(always)]
    pub fn take_all(&mut self, acts: &[PlacedAct]) -> Result<(), AllocError>
        ensures { OnOk result (TakesAll (entries_of acts.now) self.old self.new) }
    {
        for one in acts {
            self.take(one)?;
        }
        Ok(())
    }

    /// What all acts so far sum up to. Fails only for memory.
    pub fn finish(&self, alloc: Global) -> Result<Sums, AllocError>
        ensures { IfOk result (IsTold self.now) }
    {
        let tasks = task_sums(alloc, &self.tasks)?;
        let cpus = cpu_sums(alloc, &self.cpus)?;
        Ok(Sums { tasks, cpus })
    }
}
