//! What a wait began with.

ghost use Rattle.std.specs.Prelude.{◌≡◌};
ghost use Rattle.ft_dispatch.specs.Began.{is_later, began_at, awoken, is_renewed, runnable_by, is_past, is_asleep_since, unless_over, waiting_since, is_asleep_later, is_roused_after, is_woken, is_of_sleeper, is_before_sleep};

use crate::dispatch::{Left, Since};
use ft_fields::Pos;

/// Why a task waits for a processor.
#[derive(Clone, Copy, Debug, PartialEq, Eq)]
pub enum Cause {
    /// It was woken: `sched_waking`.
    Woken,
    /// It is new: `sched_wakeup_new`.
    Created,
    /// The CPU was taken from it while it could run: `sched_switch`.
    Preempted,
}

/// The beginning of a wait.
#[derive(Clone, Copy, Debug, PartialEq, Eq)]
pub struct Began {
    /// Why the task waits.
    pub cause: Cause,
    /// The place of the event that says so.
    pub place: Pos,
}

/// Whether the second place comes after the first; no place comes before any.
pub(crate) fn is_later(first: Option<Pos>, second: Option<Pos>) -> bool
    ensures { result ≡ is_later first second }
{
    match second {
        None => false,
        Some(place) => match first {
            None => true,
            Some(earlier) => earlier < place,
        },
    }
}

/// A wait that began so at a place, if there is one.
fn began_at(cause: Cause, place: Option<Pos>) -> Option<Began>
    ensures { result ≡ began_at cause place }
{
    match place {
        Some(place) => Some(Began { cause, place }),
        None => None,
    }
}

/// Whether a task that was left while it could run was made runnable once more.
fn is_renewed(left: Left, since: &Since) -> bool
    ensures { result ≡ is_renewed left since.now }
{
    if is_later(Some(left.place), since.created) {
        return true;
    }
    is_later(Some(left.place), since.woken)
}

/// Whether a task was seen to run at a later stamp than a place.
fn is_past(seen: Option<Pos>, place: Pos) -> bool
    ensures { result ≡ is_past seen place }
{
    match seen {
        None => false,
        Some(seen) => place.stamp < seen.stamp,
    }
}

/// Whether a task was left asleep, and not before it was last seen to run.
fn is_asleep_since(seen: Option<Pos>, left: Option<Left>) -> bool
    ensures { result ≡ is_asleep_since seen left }
{
    match left {
        None => false,
        Some(left) => !left.runnable && !is_past(seen, left.place),
    }
}

/// Whether a task was left there when it could not run, at a later stamp.
fn is_asleep_later(left: Option<Left>, stamp: u64) -> bool
    ensures { result ≡ is_asleep_later left stamp }
{
    match left {
        None => false,
        Some(left) => !left.runnable && stamp < left.place.stamp,
    }
}

/// Whether the waking of a task ended where it was last left, or later.
fn is_roused_after(left: Option<Left>, roused: Option<Pos>) -> bool
    ensures { result ≡ is_roused_after left roused }
{
    match roused {
        None => false,
        Some(roused) => match left {
            None => true,
            Some(left) => !(roused.stamp < left.place.stamp),
        },
    }
}

/// Whether a wait began with a waking.
fn is_woken(cause: Cause) -> bool
    ensures { result ≡ is_woken cause }
{
    match cause {
        Cause::Woken => true,
        Cause::Created | Cause::Preempted => false,
    }
}

impl Since {
    /// What made the task runnable while it was not.
    fn awoken(&self) -> Option<Began>
        ensures { result ≡ awoken self.now }
    {
        if is_later(self.woken, self.created) {
            began_at(Cause::Created, self.created)
        } else {
            began_at(Cause::Woken, self.woken)
        }
    }

    /// What made the task runnable last.
    fn runnable(&self) -> Option<Began>
        ensures { result ≡ runnable_by self.now.left self.now }
    {
        match self.left {
            None => self.awoken(),
            Some(left) => {
                if left.runnable && !is_renewed(left, self) {
                    Some(Began {
                        cause: Cause::Preempted,
                        place: left.place,
                    })
                } else {
                    self.awoken()
                }
            }
        }
    }

    /// What the wait of the task began with: that the CPU was taken from it while it could run, unless it was
    /// woken or created after that; else its creation or its waking, whichever came later. `None` if nothing
    /// is known to have made it runnable, or if it was seen to run at a later stamp and not left asleep since.
    pub fn waiting(&self) -> Option<Began>
        ensures { result ≡ waiting_since self.now }
    {
        match self.runnable() {
            None => None,
            Some(began) => {
                if is_past(self.seen, began.place) && !is_asleep_since(self.seen, self.left) {
                    None
                } else {
                    Some(began)
                }
            }
        }
    }

    /// Whether a wait began with the waking of a task that was about to sleep, and had not run since.
    fn is_of_sleeper(&self, began: Began) -> bool
        ensures { result ≡ is_of_sleeper self.now began }
    {
        is_woken(began.cause)
            && is_roused_after(self.left, self.roused)
            && !is_past(self.seen, began.place)
    }

    /// Whether a wait that began with this began before its task was last left asleep, by stamps: what woke the
    /// task after that is unknown. A task that is woken as it goes to sleep leaves its CPU before its waking ends,
    /// and its wait does not count as begun before.
    pub fn is_before_sleep(&self, began: Began) -> bool
        ensures { result ≡ is_before_sleep self.now began }
    {
        is_asleep_later(self.left, began.place.stamp) && !self.is_of_sleeper(began)
    }
}
