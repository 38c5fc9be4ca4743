//! One event or showing after the other.

ghost use Rattle.std.specs.Prelude.{◌≡◌, ◌∷◌, ◌++◌, ◌||◌, [], ℕ, ℤ, List, OnOk, IfOk};
ghost use Rattle.ft_dispatch.specs.declared.showing.Showing.{Showing};
ghost use Rattle.ft_fields.specs.Borrowed.{event_told, owned_body};
ghost use Rattle.ft_fields.specs.Traced.{Traced};
ghost use Rattle.ft_windows.specs.Naming.{next_by};
ghost use Rattle.ft_windows.specs.Telling.{Keeps, is_before, is_from};

use crate::lanes::{Edge, Lane, lane_of, no_lanes, put_lane};
use crate::naming::{Named, no_names, note, note_body};
use crate::spans::add_span;
use crate::windows::Windows;
use ft_dispatch::Showing;
use ft_fields::{BodyRef, EventRef};
use std::alloc::{AllocError, Global};
use std::collections::BTreeMap;

/// The task that a CPU runs after an event on the line of a task.
#[inline(always)]
fn next_by(pid: i32, body: &BodyRef<'_>) -> i32
    ensures { result ≡ next_by pid (owned_body body.now) }
{
    match body {
        BodyRef::Switch(turn) => turn.next_pid,
        _ => pid,
    }
}

/// The lesser one of two stamps.
pub(crate) fn least(first: Option<u64>, other: Option<u64>) -> Option<u64>
    ensures { (stamp : ℕ) → is_before result stamp ≡ (is_before first stamp || is_before other stamp) }
{
    match first {
        None => other,
        Some(stamp) => match other {
            None => Some(stamp),
            Some(next) => Some(stamp.min(next)),
        },
    }
}

/// The greater one of two stamps.
pub(crate) fn greatest(first: Option<u64>, other: Option<u64>) -> Option<u64>
    ensures { (stamp : ℕ) → is_from result stamp ≡ (is_from first stamp || is_from other stamp) }
{
    match first {
        None => other,
        Some(stamp) => match other {
            None => Some(stamp),
            Some(next) => Some(stamp.max(next)),
        },
    }
}

impl Windows {
    /// No events, and no showings.
    pub fn new(alloc: Global) -> Result<Windows, AllocError>
        ensures { IfOk result (λ windows. Keeps windows [] []) }
    {
        Ok(Windows {
            lanes: no_lanes(alloc)?,
            tasks: no_names(alloc),
            spans: BTreeMap::new(alloc),
            least_at: None,
            greatest_from: None,
        })
    }

    /// Takes an event. Fails only for memory.
    #[inline(always)]
    pub fn take(&mut self, event: &EventRef<'_>) -> Result<(), AllocError>
        ensures { OnOk result ((events : List Traced) (showings : List Showing) → Keeps self.old events showings
            → Keeps self.new (event_told event.now ∷ events) showings) }
    {
        let named = Named {
            first: event.stamp,
            last: event.stamp,
        };
        note(&mut self.tasks, event.pid, named)?;
        note_body(&mut self.tasks, &event.body, named)?;
        let lane = lane_of(&self.lanes, event.cpu);
        let first = Edge {
            stamp: event.stamp,
            pid: event.pid,
        };
        let last = Edge {
            stamp: event.stamp,
            pid: next_by(event.pid, &event.body),
        };
        let taken = Lane {
            first: Some(lane.first.unwrap_or(first)),
            last: Some(last),
        };
        put_lane(&mut self.lanes, event.cpu, taken);
        Ok(())
    }

    /// Takes a showing. Fails only for memory.
    pub fn show(&mut self, showing: Showing) -> Result<(), AllocError>
        ensures { OnOk result ((events : List Traced) (showings : List Showing) → Keeps self.old events showings
            → Keeps self.new events (showings ++ showing ∷ [])) }
    {
        add_span(&mut self.spans, showing)?;
        self.least_at = least(Some(showing.at), self.least_at);
        self.greatest_from = greatest(Some(showing.from), self.greatest_from);
        Ok(())
    }

    /// Takes some showings. Fails only for memory.
    pub fn show_all(&mut self, more: &[Showing]) -> Result<(), AllocError>
        ensures { OnOk result ((events : List Traced) (showings : List Showing) → Keeps self.old events showings
            → Keeps self.new events (showings ++ more.now)) }
    {
        for showing in more {
            self.show(*showing)?;
        }
        Ok(())
    }
}
