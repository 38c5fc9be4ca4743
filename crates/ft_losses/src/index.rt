//! How sure waits are, by an index of the holes.

ghost use Rattle.std.specs.Prelude.{◌≡◌, IfOk};
ghost use Rattle.ft_losses.specs.Doubt.{any_spans, any_spans_on, doubt, wait_from, wait_of};

use crate::doubt::{Doubt, Wait};
use crate::hole::Hole;
use crate::stretches::{Stretch, any_in, rows_of};
use ft_dispatch::{Began, Dispatch};
use ft_fields::Pos;
use std::alloc::{AllocError, Global};
use std::marker::Model;

/// Holes, with an index of them: a question about a wait searches it, and does not pass over all holes.
#[derive(Drop)]
pub struct Doubts {
    holes: Vec<Hole>,
    rows: Vec<Stretch>,
}

impl Model for Doubts {
    ghost use Rattle.std.specs.Prelude.{List};
    ghost use Rattle.std.specs.List.{flat_map};
    ghost use Rattle.ft_losses.specs.declared.hole.Hole.{Hole};
    ghost use Rattle.ft_losses.specs.inner.Stretches.{stretches_of, Indexes};

    ghost Value = { List Hole };

    ghost view = { λ d. d.holes.items };

    ghost invariant = { λ d. Indexes d.rows.items (flat_map stretches_of d.holes.items) };
}

/// The same holes, owned.
fn copy_list(alloc: Global, holes: &[Hole]) -> Result<Vec<Hole>, AllocError>
    ensures { IfOk result (λ owned. owned.items ≡ holes.now) }
{
    let mut owned = Vec::new(alloc);
    owned.extend_from_slice(holes)?;
    Ok(owned)
}

impl Doubts {
    /// An index of these holes, in whatever order they stand. Fails only for memory.
    pub fn of(alloc: Global, holes: &[Hole]) -> Result<Doubts, AllocError>
        ensures { IfOk result (λ doubts. doubts ≡ holes.now) }
    {
        Ok(Doubts {
            holes: copy_list(alloc, holes)?,
            rows: rows_of(alloc, holes)?,
        })
    }

    /// The holes, in the order in which they were given.
    pub fn holes(&self) -> &[Hole]
        ensures { result.now ≡ self.now }
    {
        &self.holes
    }

    /// Whether any hole is in a time, from its beginning to its end in microseconds: the hole begins before the
    /// end and ends after the beginning.
    pub fn any(&self, began: u64, ended: u64) -> bool
        ensures { result ≡ any_spans self.now began ended }
    {
        any_in(&self.rows, None, began, ended)
    }

    /// Whether any hole of a CPU is in a wait's time.
    fn any_spans_on(&self, cpu: u16, began: u64, ended: u64) -> bool
        ensures { result ≡ any_spans_on cpu self.now began ended }
    {
        any_in(&self.rows, Some(cpu), began, ended)
    }

    /// How sure a wait is that began at a place and ended at another. A hole is in its time if it begins before
    /// the wait ends and ends after the wait began.
    pub fn doubt(&self, began: Pos, ended: Pos) -> Doubt
        ensures { result ≡ doubt self.now began ended }
    {
        let (from, to) = (began.stamp, ended.stamp);
        // Mostly no hole is in a wait's time, and one question shows it.
        if !self.any(from, to) {
            return Doubt::Sure;
        }
        if self.any_spans_on(began.cpu, from, to) {
            return Doubt::Doubtful;
        }
        if self.any_spans_on(ended.cpu, from, to) {
            Doubt::Doubtful
        } else {
            Doubt::Likely
        }
    }

    /// The wait that began with this and ended there, and how sure it is. `slept` says whether its task was
    /// left asleep after it began: then the wait is likely at most.
    pub fn wait(&self, began: Began, slept: bool, ended: Pos) -> Wait
        ensures { result ≡ wait_from self.now began slept ended }
    {
        Wait {
            began,
            doubt: self.doubt(began.place, ended).lowered(slept),
        }
    }

    /// The wait that a dispatch ends, and how sure it is; `None` if nothing is known to have made the task
    /// runnable.
    pub fn wait_of(&self, dispatch: &Dispatch) -> Option<Wait>
        ensures { result ≡ wait_of self.now dispatch.now }
    {
        match dispatch.since.waiting() {
            Some(began) => {
                let slept = dispatch.since.is_before_sleep(began);
                Some(self.wait(began, slept, dispatch.place))
            }
            None => None,
        }
    }
}
