//! Stretches of time in which events were lost, on one CPU or on any, in an order that a question can search.

ghost use Rattle.std.specs.Prelude.{◌≡◌, ◌≤◌, ◌++◌, ◌&&◌, List, length, IsPermutation, OnOk, IfOk};
ghost use Rattle.std.specs.List.{flat_map, list_any};
ghost use Rattle.ft_losses.specs.Doubt.{ends_after};
ghost use Rattle.ft_losses.specs.inner.Stretches.{stretches_of, later_end, extended, is_on, is_in, AreInOrder, AreBefore, AllReach, Indexes};

use crate::hole::Hole;
use std::alloc::{AllocError, Global};

/// Where a stretch begins: stretches are in the order of their CPU, then of their beginning.
#[derive(Clone, Copy, PartialEq, Eq, PartialOrd, Ord)]
pub(crate) struct Start {
    /// The CPU; `None` for any.
    pub(crate) cpu: Option<u16>,
    /// The stamp after which it begins; `None` if no event was before it.
    pub(crate) after: Option<u64>,
}

/// A stretch of time in which events were lost.
#[derive(Clone, Copy)]
pub(crate) struct Stretch {
    /// Where it begins.
    pub(crate) start: Start,
    /// The stamp before which it ends; `None` if no event was after it.
    pub(crate) before: Option<u64>,
}

/// Whether a stretch that ends there ends after a stamp.
fn ends_after(before: Option<u64>, stamp: u64) -> bool
    ensures { result ≡ ends_after before stamp }
{
    match before {
        None => true,
        Some(end) => stamp < end,
    }
}

/// The later one of two ends.
fn later_end(first: Option<u64>, second: Option<u64>) -> Option<u64>
    ensures { result ≡ later_end first second }
{
    match first {
        None => None,
        Some(end) => match second {
            None => None,
            Some(other) => Some(end.max(other)),
        },
    }
}

impl Stretch {
    /// This stretch, which ends no earlier than the one before it, if that is on the same CPU.
    fn extended(&self, last: &Stretch) -> Stretch
        ensures { result ≡ extended self.now last.now }
    {
        if last.start.cpu == self.start.cpu {
            Stretch {
                start: self.start,
                before: later_end(last.before, self.before),
            }
        } else {
            *self
        }
    }
}

/// Adds the stretches of a hole: one on its CPU, if that is known, and one on any.
fn add(stretches: &mut Vec<Stretch>, hole: &Hole) -> Result<(), AllocError>
    ensures { OnOk result (stretches.new.items ≡ stretches.old.items ++ stretches_of hole.now) }
{
    let (after, before) = (hole.after, hole.before);
    let cpu = hole.cpu;
    stretches.push(Stretch {
        start: Start { cpu, after },
        before,
    })?;
    stretches.push(Stretch {
        start: Start { cpu: None, after },
        before,
    })?;
    Ok(())
}

/// The stretches of holes.
fn stretches_of(alloc: Global, holes: &[Hole]) -> Result<Vec<Stretch>, AllocError>
    ensures { IfOk result (λ stretches. stretches.items ≡ flat_map stretches_of holes.now) }
{
    let mut stretches = Vec::new(alloc);
    for hole in holes {
        add(&mut stretches, hole)?;
    }
    Ok(stretches)
}

/// Puts stretches in order.
fn sort(stretches: &mut Vec<Stretch>)
    ensures moved { IsPermutation stretches.old.items stretches.new.items }
    ensures order { AreInOrder stretches.new.items }
{
    stretches.sort_unstable_by_key(|one| one.start);
}

/// Extends each stretch to the last end of those on its CPU that begin no later.
fn extend(rows: &mut Vec<Stretch>)
    requires { AreInOrder rows.old.items }
    ensures length { length rows.new.items ≡ length rows.old.items }
    ensures reach { AllReach rows.old.items rows.new.items (length rows.old.items) }
{
    for at in 1..rows.len() {
        rows[at] = rows[at].extended(&rows[at - 1]);
    }
}

/// The stretches of holes in order, each extended to the last end of those on its CPU that begin no later.
pub(crate) fn rows_of(alloc: Global, holes: &[Hole]) -> Result<Vec<Stretch>, AllocError>
    ensures { IfOk result (λ rows. Indexes rows.items (flat_map stretches_of holes.now)) }
{
    let mut rows = stretches_of(alloc, holes)?;
    sort(&mut rows);
    extend(&mut rows);
    Ok(rows)
}

/// How many rows begin before a place; these are the first ones.
fn count_before(rows: &[Stretch], limit: Start) -> usize
    ensures bound { result ≤ length rows.now }
    ensures before { AreInOrder rows.now → AreBefore limit rows.now result }
{
    rows.partition_point(|row| row.start < limit)
}

/// Whether a stretch on a CPU, or on any, begins before a time ends and ends after it began.
pub(crate) fn any_in(rows: &[Stretch], cpu: Option<u16>, began: u64, ended: u64) -> bool
    ensures { (stretches : List Stretch) → Indexes rows.now stretches
        → result ≡ list_any (λ one. is_on cpu one && is_in began ended one) stretches }
{
    let after = Some(ended);
    let count = count_before(rows, Start { cpu, after });
    match rows[..count].last() {
        Some(row) => row.start.cpu == cpu && ends_after(row.before, began),
        None => false,
    }
}
