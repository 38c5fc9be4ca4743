//! Between which stamps events name a task.

ghost use Rattle.std.specs.Prelude.{◌≡◌, ◌<◌, ◌&&◌, ◌||◌, ℕ, ℤ, true, Some, None, nat_lt, is_some, length, slice_get, OnOk, if◌then◌else◌};
ghost use Rattle.std.specs.Ordering.{int_eq};
ghost use Rattle.ft_fields.specs.Borrowed.{owned_body};
ghost use Rattle.ft_windows.specs.Naming.{says};
ghost use Rattle.ft_pids.specs.Entries.{own};
ghost use Rattle.ft_windows.specs.Telling.{named_in, begins_before, ends_after, task_of};

use ft_fields::BodyRef;
use ft_pids::Numbers;
use std::alloc::{AllocError, Global};

/// The least and the greatest stamp of events that name a task.
#[derive(Clone, Copy)]
pub(crate) struct Named {
    /// The least stamp.
    pub(crate) first: u64,
    /// The greatest stamp.
    pub(crate) last: u64,
}

/// What is kept of a task, or of a number that stands for none, such as 0.
#[derive(Clone, Copy)]
pub(crate) struct Entry {
    /// The number.
    pub(crate) pid: i32,
    /// Between which stamps events name it.
    pub(crate) named: Named,
}

/// What is kept of each task. The entry of a task stands at the number of its PID; at the number of a
/// PID of which nothing is kept, there is none, or that of another task.
#[derive(Drop)]
pub(crate) struct Names {
    pub(crate) numbers: Numbers,
    pub(crate) entries: Vec<Entry>,
}

/// Nothing is kept of any task.
pub(crate) fn no_names(alloc: Global) -> Names
    ensures { (pid : ℤ) → named_in result pid ≡ None }
{
    Names {
        numbers: Numbers::new(alloc),
        entries: Vec::new(alloc),
    }
}

/// Whether the entry at a number is that of a task.
#[inline(always)]
fn is_of(entries: &[Entry], number: usize, pid: i32) -> bool
    ensures is { result ≡ is_some (own task_of pid (slice_get entries.now number)) }
    ensures within { result ≡ true → number < length entries.now }
{
    match entries.get(number) {
        Some(entry) => entry.pid == pid,
        None => false,
    }
}

impl Names {
    /// What is kept of a task.
    #[inline(always)]
    pub(crate) fn of(&self, pid: i32) -> Option<Named>
        ensures { result ≡ named_in self.now pid }
    {
        let number = self.numbers.get(pid);
        if is_of(&self.entries, number, pid) {
            Some(self.entries[number].named)
        } else {
            None
        }
    }
}

/// The least and the greatest stamp of the events of both.
#[inline(always)]
fn both(named: Named, more: Named) -> Named
    ensures before { (stamp : ℕ) → nat_lt result.first stamp ≡ (nat_lt more.first stamp || nat_lt named.first stamp) }
    ensures after { (stamp : ℕ) → nat_lt stamp result.last ≡ (nat_lt stamp more.last || nat_lt stamp named.last) }
{
    Named {
        first: more.first.min(named.first),
        last: more.last.max(named.last),
    }
}

/// Keeps between which stamps events name a task of which nothing is kept.
#[inline(never)]
fn add(tasks: &mut Names, pid: i32, named: Named) -> Result<(), AllocError>
    ensures { OnOk result ((q : ℤ) → named_in tasks.new q ≡ if int_eq pid q then Some named else named_in tasks.old q) }
{
    let number = tasks.entries.len();
    tasks.entries.push(Entry { pid, named })?;
    tasks.numbers.put(pid, number)
}

/// Takes events that name a task, by their least and their greatest stamp.
#[inline(always)]
pub(crate) fn note(tasks: &mut Names, pid: i32, named: Named) -> Result<(), AllocError>
    ensures before { OnOk result ((q : ℤ) (stamp : ℕ) → begins_before (named_in tasks.new q) stamp
        ≡ ((int_eq pid q && nat_lt named.first stamp) || begins_before (named_in tasks.old q) stamp)) }
    ensures after { OnOk result ((q : ℤ) (stamp : ℕ) → ends_after (named_in tasks.new q) stamp
        ≡ ((int_eq pid q && nat_lt stamp named.last) || ends_after (named_in tasks.old q) stamp)) }
{
    let number = tasks.numbers.get(pid);
    if is_of(&tasks.entries, number, pid) {
        let known = tasks.entries[number].named;
        tasks.entries[number].named = both(known, named);
        Ok(())
    } else {
        add(tasks, pid, named)
    }
}

/// Takes the tasks of which an event says something, by the event's stamp as the least and the greatest one.
#[inline(always)]
pub(crate) fn note_body(
    tasks: &mut Names,
    body: &BodyRef<'_>,
    named: Named,
) -> Result<(), AllocError>
    ensures before { OnOk result ((q : ℤ) (stamp : ℕ) → begins_before (named_in tasks.new q) stamp
        ≡ ((says q (owned_body body.now) && nat_lt named.first stamp) || begins_before (named_in tasks.old q) stamp)) }
    ensures after { OnOk result ((q : ℤ) (stamp : ℕ) → ends_after (named_in tasks.new q) stamp
        ≡ ((says q (owned_body body.now) && nat_lt stamp named.last) || ends_after (named_in tasks.old q) stamp)) }
{
    match body {
        BodyRef::Waking(wake) => note(tasks, wake.pid, named),
        BodyRef::Wakeup(wake) => note(tasks, wake.pid, named),
        BodyRef::WakeupNew(wake) => note(tasks, wake.pid, named),
        BodyRef::Switch(turn) => {
            note(tasks, turn.prev_pid, named)?;
            note(tasks, turn.next_pid, named)
        }
        BodyRef::WakeupLatency(_) | BodyRef::Other => Ok(()),
    }
}
