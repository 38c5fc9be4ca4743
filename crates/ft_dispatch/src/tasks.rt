//! Since when each task is runnable.

ghost use Rattle.std.specs.Prelude.{◌≡◌, ◌<◌, ℤ, true, length, slice_get, if◌then◌else◌, OnOk, IfOk};
ghost use Rattle.std.specs.Option.{is_some, option_or};
ghost use Rattle.std.specs.Ordering.{int_eq};
ghost use Rattle.ft_pids.specs.Entries.{own};
ghost use Rattle.ft_dispatch.specs.Telling.{unknown, known, task_of};
ghost use Rattle.ft_dispatch.specs.Joining.{over};
ghost use Rattle.ft_dispatch.specs.inner.Changes.{changed, ran_at};

use crate::dispatch::{Left, Since};
use ft_fields::Pos;
use ft_pids::Numbers;
use std::alloc::{AllocError, Global};
use std::mem;

/// What is known of a task.
#[derive(Clone, Copy)]
pub(crate) struct Entry {
    pub(crate) pid: i32,
    pub(crate) since: Since,
}

/// What is known of each task. The entry of a task stands at the number of its PID; at the number of a
/// PID of which nothing is known, there is none, or that of another task.
#[derive(Drop)]
pub(crate) struct Known {
    pub(crate) numbers: Numbers,
    pub(crate) entries: Vec<Entry>,
}

/// Since when each task is runnable, after some acts.
#[derive(Drop)]
pub struct Tasks {
    pub(crate) since: Known,
}

/// Nothing made a task runnable.
#[inline(always)]
pub(crate) fn unknown() -> Since
    ensures { result ≡ unknown }
{
    Since {
        woken: None,
        created: None,
        left: None,
        seen: None,
        roused: None,
    }
}

/// The first end of the last waking: the part's, if the waking is; else that before, or the part's.
#[inline(always)]
fn roused_over(part: Since, before: Since) -> Option<Pos>
    ensures { result ≡ if is_some part.woken then part.roused else option_or before.roused part.roused }
{
    if part.woken.is_some() {
        part.roused
    } else {
        before.roused.or(part.roused)
    }
}

/// Each place from what a part says, if it says one, else from what was known before.
#[inline(always)]
pub(crate) fn over(part: Since, before: Since) -> Since
    ensures { result ≡ over part before }
{
    Since {
        woken: part.woken.or(before.woken),
        created: part.created.or(before.created),
        left: part.left.or(before.left),
        seen: part.seen.or(before.seen),
        roused: roused_over(part, before),
    }
}

/// Whether the entry at a number is that of a task.
#[inline(always)]
pub(crate) fn is_of(entries: &[Entry], number: usize, pid: i32) -> bool
    ensures is { result ≡ is_some (own task_of pid (slice_get entries.now number)) }
    ensures within { result ≡ true → number < length entries.now }
{
    match entries.get(number) {
        Some(entry) => entry.pid == pid,
        None => false,
    }
}

impl Known {
    /// Nothing is known of any task.
    pub(crate) fn new(alloc: Global) -> Known
        ensures { (pid : ℤ) → known result pid ≡ unknown }
    {
        Known {
            numbers: Numbers::new(alloc),
            entries: Vec::new(alloc),
        }
    }

    /// What is known of a task.
    #[inline(always)]
    pub(crate) fn of(&self, pid: i32) -> Since
        ensures { result ≡ known self.now pid }
    {
        let number = self.numbers.get(pid);
        if is_of(&self.entries, number, pid) {
            self.entries[number].since
        } else {
            unknown()
        }
    }

    /// Adds the entry of a task.
    #[inline(never)]
    fn add(&mut self, pid: i32, since: Since) -> Result<(), AllocError>
        ensures { OnOk result ((q : ℤ) → known self.new q ≡ if int_eq pid q then since else known self.old q) }
    {
        let number = self.entries.len();
        self.entries.push(Entry { pid, since })?;
        self.numbers.put(pid, number)
    }

    /// Puts what is known of a task, in place of what was known.
    #[inline(always)]
    pub(crate) fn replace(&mut self, pid: i32, since: Since) -> Result<Since, AllocError>
        ensures was { IfOk result (λ was. was ≡ known self.old pid) }
        ensures is { OnOk result ((q : ℤ) → known self.new q ≡ if int_eq pid q then since else known self.old q) }
    {
        let number = self.numbers.get(pid);
        if is_of(&self.entries, number, pid) {
            Ok(mem::replace(&mut self.entries[number].since, since))
        } else {
            self.add(pid, since)?;
            Ok(unknown())
        }
    }

    /// Takes what is known of a task: nothing is known of it then.
    #[inline(always)]
    pub(crate) fn forget(&mut self, pid: i32) -> Since
        ensures was { result ≡ known self.old pid }
        ensures forgets { (q : ℤ) → known self.new q ≡ if int_eq pid q then unknown else known self.old q }
    {
        let number = self.numbers.get(pid);
        if is_of(&self.entries, number, pid) {
            mem::replace(&mut self.entries[number].since, unknown())
        } else {
            unknown()
        }
    }
}

/// A task that runs here: nothing has made it runnable since.
#[inline(always)]
fn ran_at(place: Pos) -> Since
    ensures { result ≡ ran_at place }
{
    Since {
        woken: None,
        created: None,
        left: None,
        seen: Some(place),
        roused: None,
    }
}

/// Takes what was known of a task that runs here.
#[inline(always)]
pub(crate) fn run(tasks: &mut Known, pid: i32, place: Pos) -> Result<Since, AllocError>
    ensures was { IfOk result (λ since. since ≡ known tasks.old pid) }
    ensures ran { OnOk result ((q : ℤ) → known tasks.new q ≡ if int_eq pid q then ran_at place else known tasks.old q) }
{
    tasks.replace(pid, ran_at(place))
}

/// What an act changes of what is known of a task.
#[derive(Clone, Copy)]
pub(crate) enum Change {
    /// It was woken here.
    Woken(Pos),
    /// It was created here.
    Created(Pos),
    /// The CPU was taken from it here.
    Left(Left),
    /// It ran here.
    Seen(Pos),
    /// Its waking ended here.
    Roused(Pos),
    /// Acts that were read apart say this, and came behind.
    Behind(Since),
}

impl Since {
    /// Changes what is known of a task.
    #[inline(always)]
    fn set(&mut self, change: Change)
        ensures { self.new ≡ changed change self.old }
    {
        match change {
            Change::Woken(place) => {
                self.woken = Some(place);
                self.roused = None;
            }
            Change::Created(place) => self.created = Some(place),
            Change::Left(left) => self.left = Some(left),
            Change::Seen(place) => self.seen = Some(place),
            Change::Roused(place) => self.roused = self.roused.or(Some(place)),
            Change::Behind(part) => *self = over(part, *self),
        }
    }
}

/// Changes what is known of a task.
#[inline(always)]
pub(crate) fn set(tasks: &mut Known, pid: i32, change: Change) -> Result<(), AllocError>
    ensures { OnOk result ((q : ℤ) → known tasks.new q ≡ if int_eq pid q
        then changed change (known tasks.old q) else known tasks.old q) }
{
    let number = tasks.numbers.get(pid);
    if is_of(&tasks.entries, number, pid) {
        tasks.entries[number].since.set(change);
        Ok(())
    } else {
        let mut since = unknown();
        since.set(change);
        tasks.add(pid, since)
    }
}
