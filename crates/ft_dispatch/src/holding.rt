//! First dispatches that are held back from the others.

ghost use Rattle.std.specs.Prelude.{◌≡◌, ℤ, true, [], ◌∷◌, if◌then◌else◌, OnOk};
ghost use Rattle.std.specs.Ordering.{int_eq};
ghost use Rattle.ft_dispatch.specs.Holding.{has_task, Holds, TakesOn};

use crate::dispatch::Dispatch;
use std::alloc::{AllocError, Global};
use std::collections::BTreeSet;

/// A task.
#[derive(Clone, Copy, Debug, PartialEq, Eq, PartialOrd, Ord)]
pub(crate) struct Task {
    pub(crate) pid: i32,
}

/// The first dispatch of each task, of dispatches that come in any number of calls.
#[derive(Drop)]
pub struct FirstOnes {
    /// These dispatches, the oldest first.
    pub ones: Vec<Dispatch>,
    /// Their tasks.
    pub(crate) tasks: BTreeSet<Task>,
}

/// Whether a task is among some.
fn has_task(tasks: &BTreeSet<Task>, pid: i32) -> bool
    ensures { result ≡ has_task pid tasks.now }
{
    tasks.contains(&Task { pid })
}

/// Puts a task among some.
fn add_task(tasks: &mut BTreeSet<Task>, pid: i32) -> Result<(), AllocError>
    ensures { OnOk result ((q : ℤ) → has_task q tasks.new ≡ if int_eq pid q then true else has_task q tasks.old) }
{
    tasks.insert(Task { pid })?;
    Ok(())
}

impl FirstOnes {
    /// No dispatch has come.
    pub fn new(alloc: Global) -> FirstOnes
        ensures { Holds result [] }
    {
        FirstOnes {
            ones: Vec::new(alloc),
            tasks: BTreeSet::new(alloc),
        }
    }

    /// Takes the next dispatch: holds it, if it is the first one of its task, else adds it to `out`.
    fn take(&mut self, one: &Dispatch, out: &mut Vec<Dispatch>) -> Result<(), AllocError>
        ensures { OnOk result (TakesOn (one.now ∷ []) self.old out.old.items self.new out.new.items) }
    {
        if has_task(&self.tasks, one.pid) {
            out.push(*one)?;
            return Ok(());
        }
        self.ones.push(*one)?;
        add_task(&mut self.tasks, one.pid)?;
        Ok(())
    }

    /// Takes the dispatches that come next: holds the first one of each task, and adds the others to `out`.
    /// Fails only for memory.
    pub fn take_all(&mut self, told: &[Dispatch], out: &mut Vec<Dispatch>) -> Result<(), AllocError>
        ensures { OnOk result (TakesOn told.now self.old out.old.items self.new out.new.items) }
    {
        for one in told {
            self.take(one, out)?;
        }
        Ok(())
    }
}
