//! The holes that no line reports.

ghost use Rattle.std.specs.Prelude.{◌≡◌, ◌∷◌, ◌++◌, ◌&&◌, ◌||◌, [], ℕ, ℤ, Bool, List, not, OnOk, if◌then◌else◌};
ghost use Rattle.std.specs.FinMap as finite;
ghost use Rattle.std.specs.List.{flat_map};
ghost use Rattle.ft_dispatch.specs.declared.showing.Showing.{Showing};
ghost use Rattle.ft_fields.specs.Traced.{Traced};
ghost use Rattle.ft_losses.specs.Holes.{cpus_below};
ghost use Rattle.ft_losses.specs.Telling.{told_in, Tells};
ghost use Rattle.ft_maps.specs.Seen.{seen};
ghost use Rattle.ft_windows.specs.Naming.{is_task};
ghost use Rattle.ft_windows.specs.Showings.{span_cmp};
ghost use Rattle.ft_windows.specs.Telling.{Keeps, lane_in, named_in, begins_before, ends_after, is_before, is_from};
ghost use Rattle.ft_windows.specs.Windows.{unreported, late_window, early_window, unspanned, with_windows};

use crate::lanes::{CPUS, Edge, lane_of};
use crate::naming::Names;
use crate::spans::{Span, SpanSet};
use crate::windows::Windows;
use ft_losses::{Doubts, Hole};
use ft_maps::entries;
use std::alloc::{AllocError, Global};

/// Whether a number is that of a task, and not that of an idle or ended one.
fn is_task(pid: i32) -> bool
    ensures { result ≡ is_task pid }
{
    0 < pid
}

/// Whether a task was named before a stamp.
fn begins_before(tasks: &Names, pid: i32, stamp: u64) -> bool
    ensures { result ≡ begins_before (named_in tasks.now pid) stamp }
{
    match tasks.of(pid) {
        Some(named) => named.first < stamp,
        None => false,
    }
}

/// Whether a task was named after a stamp.
fn ends_after(tasks: &Names, pid: i32, stamp: u64) -> bool
    ensures { result ≡ ends_after (named_in tasks.now pid) stamp }
{
    match tasks.of(pid) {
        Some(named) => stamp < named.last,
        None => false,
    }
}

/// Whether a least stamp is before another.
fn is_before(least: Option<u64>, stamp: u64) -> bool
    ensures { result ≡ is_before least stamp }
{
    match least {
        Some(least) => least < stamp,
        None => false,
    }
}

/// Whether a greatest stamp is no earlier than another.
fn is_from(greatest: Option<u64>, stamp: u64) -> bool
    ensures { result ≡ is_from greatest stamp }
{
    match greatest {
        Some(greatest) => !(greatest < stamp),
        None => false,
    }
}

/// Whether a CPU is told, by truth values. One without a value isn't.
fn told_in(told: &[bool], cpu: u16) -> bool
    ensures { result ≡ told_in told.now cpu }
{
    match told.get(usize::from(cpu)) {
        Some(told) => *told,
        None => false,
    }
}

/// A hole that no line reports.
fn unreported(cpu: Option<u16>, after: Option<u64>, before: Option<u64>) -> Hole
    ensures { result ≡ unreported cpu after before }
{
    Hole {
        cpu,
        line: 0,
        after,
        before,
        count: None,
    }
}

/// Adds a hole, if it is one.
fn add_if(is_hole: bool, hole: Hole, holes: &mut Vec<Hole>) -> Result<(), AllocError>
    ensures { OnOk result (holes.new.items ≡ holes.old.items ++ (if is_hole then hole ∷ [] else [])) }
{
    if is_hole {
        holes.push(hole)?;
    }
    Ok(())
}

/// Adds a stretch that was shown as a hole, if none of those in the index spans it.
fn add_unspanned(doubts: &Doubts, span: Span, holes: &mut Vec<Hole>) -> Result<(), AllocError>
    ensures { OnOk result (holes.new.items ≡ holes.old.items ++ unspanned doubts.now span) }
{
    let hole = unreported(None, Some(span.from), Some(span.at));
    add_if(!doubts.any(span.from, span.at), hole, holes)
}

/// Adds stretches that were shown as holes, in their order: each that none of those in the index spans.
fn add_all_unspanned(
    doubts: &Doubts,
    spans: &SpanSet,
    holes: &mut Vec<Hole>,
) -> Result<(), AllocError>
    ensures { OnOk result (holes.new.items ≡ holes.old.items
        ++ flat_map (unspanned doubts.now) (finite.keys (seen span_cmp spans.now))) }
{
    for (span, _mark) in entries(spans) {
        add_unspanned(doubts, *span, holes)?;
    }
    Ok(())
}

impl Windows {
    /// Whether the time before this first event of a CPU is a window.
    fn is_late(&self, told: &[bool], cpu: u16, first: Edge) -> bool
        ensures { result ≡ (not (told_in told.now cpu)
            && ((is_task first.pid && begins_before (named_in self.now.tasks first.pid) first.stamp)
            || is_before self.now.least_at first.stamp)) }
    {
        if told_in(told, cpu) {
            return false;
        }
        if is_before(self.least_at, first.stamp) {
            return true;
        }
        is_task(first.pid) && begins_before(&self.tasks, first.pid, first.stamp)
    }

    /// Whether the time after this last event of a CPU is a window.
    fn is_early(&self, last: Edge) -> bool
        ensures { result ≡ ((is_task last.pid && ends_after (named_in self.now.tasks last.pid) last.stamp) || is_from self.now.greatest_from last.stamp) }
    {
        if is_from(self.greatest_from, last.stamp) {
            return true;
        }
        is_task(last.pid) && ends_after(&self.tasks, last.pid, last.stamp)
    }

    /// Adds the window before a CPU's first event, if it is one.
    fn add_late(
        &self,
        told: &[bool],
        cpu: u16,
        first: Option<Edge>,
        holes: &mut Vec<Hole>,
    ) -> Result<(), AllocError>
        ensures { OnOk result (holes.new.items ≡ holes.old.items
            ++ late_window (told_in told.now) (λ pid stamp. begins_before (named_in self.now.tasks pid) stamp)
            (is_before self.now.least_at) cpu first) }
    {
        let Some(first) = first else {
            return Ok(());
        };
        let hole = unreported(Some(cpu), None, Some(first.stamp));
        add_if(self.is_late(told, cpu, first), hole, holes)
    }

    /// Adds the window after a CPU's last event, if it is one.
    fn add_early(
        &self,
        cpu: u16,
        last: Option<Edge>,
        holes: &mut Vec<Hole>,
    ) -> Result<(), AllocError>
        ensures { OnOk result (holes.new.items ≡ holes.old.items
            ++ early_window (λ pid stamp. ends_after (named_in self.now.tasks pid) stamp) (is_from self.now.greatest_from) cpu last) }
    {
        let Some(last) = last else {
            return Ok(());
        };
        let hole = unreported(Some(cpu), Some(last.stamp), None);
        add_if(self.is_early(last), hole, holes)
    }

    /// Adds the windows before CPUs' first events, by CPU.
    fn add_all_late(&self, told: &[bool], holes: &mut Vec<Hole>) -> Result<(), AllocError>
        ensures { OnOk result (holes.new.items ≡ holes.old.items
            ++ flat_map (λ cpu. late_window (told_in told.now) (λ pid stamp. begins_before (named_in self.now.tasks pid) stamp)
            (is_before self.now.least_at) cpu (lane_in self.now.lanes.items cpu).first) (cpus_below 8192)) }
    {
        for cpu in 0..CPUS {
            self.add_late(told, cpu, lane_of(&self.lanes, cpu).first, holes)?;
        }
        Ok(())
    }

    /// Adds the windows after CPUs' last events, by CPU.
    fn add_all_early(&self, holes: &mut Vec<Hole>) -> Result<(), AllocError>
        ensures { OnOk result (holes.new.items ≡ holes.old.items
            ++ flat_map (λ cpu. early_window (λ pid stamp. ends_after (named_in self.now.tasks pid) stamp) (is_from self.now.greatest_from) cpu
            (lane_in self.now.lanes.items cpu).last) (cpus_below 8192)) }
    {
        for cpu in 0..CPUS {
            self.add_early(cpu, lane_of(&self.lanes, cpu).last, holes)?;
        }
        Ok(())
    }

    /// Adds to the holes that lines report those that no line reports: the windows before CPUs' first events, by
    /// CPU; those after their last ones, by CPU; and then each showing that none of all these spans, on a CPU
    /// that isn't known, in the order of their beginnings. `told` says of which CPUs the recorder told how many
    /// events were overwritten before the first one, by CPU: these have no window before it. Fails only for memory.
    pub fn add_to(
        &self,
        alloc: Global,
        told: &[bool],
        holes: &mut Vec<Hole>,
    ) -> Result<(), AllocError>
        ensures { OnOk result ((events : List Traced) (showings : List Showing) (is_told : ℕ → Bool)
            → Keeps self.now events showings → Tells told.now is_told
            → holes.new.items ≡ with_windows is_told holes.old.items events showings) }
    {
        self.add_all_late(told, holes)?;
        self.add_all_early(holes)?;
        let doubts = Doubts::of(alloc, holes)?;
        add_all_unspanned(&doubts, &self.spans, holes)
    }
}
