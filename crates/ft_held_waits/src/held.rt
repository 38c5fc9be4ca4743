//! Held events one after the other, in merged order.

ghost use Rattle.std.specs.Prelude.{◌≡◌, ◌∷◌, [], IfOk, OnOk, filter_map};
ghost use Rattle.ft_maps.specs.Mapped.{entries_by};
ghost use Rattle.ft_store.specs.Stored.{held};
ghost use Rattle.ft_dispatch.specs.Dispatches.{dispatches};
ghost use Rattle.ft_dispatch.specs.Telling.{TakesAll};
ghost use Rattle.ft_held_waits.specs.Held.{placed_act, acts_of_entries, dispatches_held};

use ft_dispatch::{Dispatch, PlacedAct, Shown, Tasks};
use ft_fields::Pos;
use ft_lanes::Lanes;
use ft_replay::{Names, events_with};
use ft_store::Stored;
use std::alloc::{AllocError, Global};

/// The switches to tasks among all held events, in merged order: by stamp, CPU and line. Refused for
/// memory.
pub fn held_dispatches(alloc: Global, lanes: &Lanes) -> Result<Vec<Dispatch>, AllocError>
    ensures { IfOk result (λ told. told.items ≡ dispatches_held lanes.now) }
{
    let events = events_with(alloc, lanes, Names::all())?;
    dispatches_of(alloc, &events)
}

/// The dispatches of events that follow in order. Refused for memory.
fn dispatches_of(alloc: Global, events: &[(Pos, Stored<'_>)]) -> Result<Vec<Dispatch>, AllocError>
    ensures { IfOk result (λ told. told.items ≡ dispatches (acts_of_entries (entries_by held events.now))) }
{
    let mut tasks = Tasks::new(alloc);
    let mut told = Vec::new(alloc);
    for event in events {
        take_event(alloc, &mut tasks, event, &mut told)?;
    }
    Ok(told)
}

/// Takes what an event says of who runs, and adds its dispatch, if it is a switch to a task. What it
/// shows of runs that no event says is let go. Fails only for memory.
fn take_event(
    alloc: Global,
    tasks: &mut Tasks,
    event: &(Pos, Stored<'_>),
    out: &mut Vec<Dispatch>,
) -> Result<(), AllocError>
    ensures { OnOk result (TakesAll (filter_map placed_act (entries_by held (event.now ∷ [])))
        tasks.old out.old.items tasks.new out.new.items) }
{
    let whole = event.1.event();
    let told = whole.borrowed();
    let mut shown = Shown::new(alloc);
    match PlacedAct::of(told.pid, &told.body, event.0) {
        Some(act) => tasks.take_all(&[act], out, &mut shown),
        None => Ok(()),
    }
}
