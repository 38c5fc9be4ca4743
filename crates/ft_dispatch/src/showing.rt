//! What acts show of runs that no event says.

ghost use Rattle.std.specs.Prelude.{◌≡◌, ◌∷◌, ◌++◌, [], OnOk, if◌then◌else◌};
ghost use Rattle.std.specs.List.{flat_map};
ghost use Rattle.ft_dispatch.specs.Showings.{latest_of, queued_at, ready_by, unless_seen, ready_since, showing_at, showing_of, is_unsaid, first_at, first_of, shown_by, first_by};
ghost use Rattle.ft_dispatch.specs.Telling.{known, act_from, Shows, ShowsFirsts};

use crate::act::{Kind, PlacedAct};
use crate::began::is_later;
use crate::dispatch::{Left, Since};
use crate::tasks::{Known, Tasks};
use ft_fields::Pos;
use std::alloc::{AllocError, Global};

/// A stretch of time in which a task must have run though no event says so.
#[derive(Clone, Copy, Debug, PartialEq, Eq)]
pub struct Showing {
    /// The stamp from which on it was runnable, and ran.
    pub from: u64,
    /// The stamp of the waking that shows it.
    pub at: u64,
}

/// A waking of a task by another, if nothing was said of the task before: what it shows depends on the acts before
/// all that were taken.
#[derive(Clone, Copy, Debug, PartialEq, Eq)]
pub struct FirstWaking {
    /// The task, not 0.
    pub pid: i32,
    /// The stamp of the waking.
    pub at: u64,
}

/// What acts show.
#[derive(Drop)]
pub struct Shown {
    /// The stretches, the oldest first.
    pub showings: Vec<Showing>,
    /// The first wakings, the oldest first: a part that is read apart keeps them until it is joined.
    pub firsts: Vec<FirstWaking>,
}

/// The later one of two places.
fn latest_of(first: Option<Pos>, second: Option<Pos>) -> Option<Pos>
    ensures { result ≡ latest_of first second }
{
    if is_later(first, second) {
        second
    } else {
        first
    }
}

/// Where a task was last left, if it can't be woken before it has run again.
fn queued_at(left: Left) -> Option<Pos>
    ensures { result ≡ queued_at left }
{
    if left.queued { Some(left.place) } else { None }
}

/// Where a task became runnable, by what was last said of it.
fn ready_by(left: Option<Left>, made: Option<Pos>) -> Option<Pos>
    ensures { result ≡ ready_by left made }
{
    match left {
        None => made,
        Some(left) => {
            if is_later(Some(left.place), made) {
                made
            } else {
                queued_at(left)
            }
        }
    }
}

/// A place, unless the task was seen to run in the same microsecond or later.
fn unless_seen(seen: Option<Pos>, place: Option<Pos>) -> Option<Pos>
    ensures { result ≡ unless_seen seen place }
{
    match place {
        None => None,
        Some(place) => match seen {
            None => Some(place),
            Some(seen) => {
                if seen.stamp < place.stamp {
                    Some(place)
                } else {
                    None
                }
            }
        },
    }
}

impl Since {
    /// Where the task became runnable, if it has not been seen to run since then.
    fn ready(&self) -> Option<Pos>
        ensures { result ≡ ready_since self.now }
    {
        unless_seen(
            self.seen,
            ready_by(self.left, latest_of(self.woken, self.created)),
        )
    }

    /// Whether nothing is said of the task but the end of its waking.
    fn is_unsaid(&self) -> bool
        ensures { result ≡ is_unsaid self.now }
    {
        !(self.left.is_some()
            || self.woken.is_some()
            || self.created.is_some()
            || self.seen.is_some())
    }
}

impl Shown {
    /// Nothing is shown.
    pub fn new(alloc: Global) -> Shown
        ensures { Shows [] result [] }
    {
        Shown {
            showings: Vec::new(alloc),
            firsts: Vec::new(alloc),
        }
    }

    /// Adds what a waking at a stamp shows of a task that is runnable since this place.
    #[inline(always)]
    fn add(&mut self, at: u64, ready: Option<Pos>) -> Result<(), AllocError>
        ensures showings { OnOk result (self.new.showings.items ≡ self.old.showings.items ++ showing_at at ready) }
        ensures firsts { self.new.firsts ≡ self.old.firsts }
    {
        let Some(ready) = ready else {
            return Ok(());
        };
        if ready.stamp < at {
            self.showings.push(Showing {
                from: ready.stamp,
                at,
            })?;
        }
        Ok(())
    }

    /// Adds a first waking, if it is one.
    #[inline(always)]
    fn add_first(&mut self, at: u64, pid: i32, is_first: bool) -> Result<(), AllocError>
        ensures showings { self.new.showings ≡ self.old.showings }
        ensures firsts { OnOk result (self.new.firsts.items ≡ self.old.firsts.items
            ++ (if is_first then record { pid = pid; at = at } ∷ [] else [])) }
    {
        if is_first {
            self.firsts.push(FirstWaking { pid, at })?;
        }
        Ok(())
    }

    /// Adds what a waking of a task by another shows, by what is known of the task.
    #[inline(always)]
    fn take(&mut self, at: u64, pid: i32, since: Since) -> Result<(), AllocError>
        ensures showings { OnOk result (self.new.showings.items ≡ self.old.showings.items
            ++ showing_at at (ready_since since)) }
        ensures firsts { OnOk result (self.new.firsts.items ≡ self.old.firsts.items ++ first_at at pid since) }
    {
        self.add_first(at, pid, since.is_unsaid())?;
        self.add(at, since.ready())
    }
}

/// Adds what an act shows.
#[inline(always)]
pub(crate) fn show(tasks: &Known, act: &PlacedAct, shown: &mut Shown) -> Result<(), AllocError>
    ensures showings { OnOk result (shown.new.showings.items ≡ shown.old.showings.items
        ++ showing_of act.now.place (act_from act.now.kind act.now) (known tasks.now)) }
    ensures firsts { OnOk result (shown.new.firsts.items ≡ shown.old.firsts.items
        ++ first_of act.now.place (act_from act.now.kind act.now) (known tasks.now)) }
{
    match act.kind {
        Kind::Waking => {
            if act.pid == 0 {
                return Ok(());
            }
            if act.by == act.pid {
                return Ok(());
            }
            shown.take(act.place.stamp, act.pid, tasks.of(act.pid))
        }
        Kind::Creation | Kind::Wakeup | Kind::Switch => Ok(()),
    }
}

/// Adds what a first waking of a part shows, by what is known of its task, and the waking, if it is the first one of
/// all acts.
#[inline(always)]
fn show_first(tasks: &Known, first: &FirstWaking, shown: &mut Shown) -> Result<(), AllocError>
    ensures showings { OnOk result (shown.new.showings.items
        ≡ shown.old.showings.items ++ shown_by (known tasks.now) first.now) }
    ensures firsts { OnOk result (shown.new.firsts.items
        ≡ shown.old.firsts.items ++ first_by (known tasks.now) first.now) }
{
    shown.take(first.at, first.pid, tasks.of(first.pid))
}

/// Adds what the first wakings of a part show, by what is known of their tasks, and those that are first wakings of
/// all acts.
fn show_all(tasks: &Known, firsts: &[FirstWaking], shown: &mut Shown) -> Result<(), AllocError>
    ensures { OnOk result ((shown.new.showings.items
        ≡ shown.old.showings.items ++ flat_map (shown_by (known tasks.now)) firsts.now)
        × (shown.new.firsts.items
        ≡ shown.old.firsts.items ++ flat_map (first_by (known tasks.now)) firsts.now)) }
{
    for first in firsts {
        show_first(tasks, first, shown)?;
    }
    Ok(())
}

impl Tasks {
    /// Adds what the first wakings of a part show that was read apart, and that comes behind the acts so far, and
    /// those that are first wakings of all acts. To be called before the part is joined. Fails only for memory.
    pub fn show_firsts(&self, firsts: &[FirstWaking], shown: &mut Shown) -> Result<(), AllocError>
        ensures { OnOk result (ShowsFirsts self.now firsts.now shown.old shown.new) }
    {
        show_all(&self.since, firsts, shown)
    }
}
