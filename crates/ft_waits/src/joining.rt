//! A part that was read apart.

ghost use Rattle.std.specs.Prelude.{◌≡◌, ◌≤◌, ◌<◌, ◌+◌, ◌++◌, min, ℕ, ℤ, List, None, reverse, length, get_or, map as list_map, option_map, OnOk, IfOk, vec_len, slice_index, slice_index_or};
ghost use Rattle.std.specs.Option.{option_or};
ghost use Rattle.ft_fields.specs.Traced.{last_cpu};
ghost use Rattle.ft_dispatch.specs.Joining.{place_behind, Joins};
ghost use Rattle.ft_waits.specs.Missing.{is_other};
ghost use Rattle.ft_waits.specs.inner.Starts.{Seam, with_start, seam_after, seam, missing_with};
ghost use Rattle.ft_waits.specs.inner.Seams.{held_behind, left_out_with, JoinsMisses, JoinsStates, ShowsBoth};

use crate::kept::KeptActs;
use crate::left_out::LeftOut;
use crate::missing::{Missing, is_other};
use crate::ran::Ran;
use crate::showing::show_part;
use crate::starts::{Start, running_on};
use crate::state::{CPUS, State};
use crate::steps::settle;
use ft_dispatch::{Dispatch, PlacedAct, first_wakings_join, showings_move};
use ft_fields::Pos;
use ft_windows::showings_in_any_order;
use std::alloc::AllocError;

/// A place of a part, behind so many events of each CPU.
fn place_behind(counts: &[u32], place: Pos) -> Pos
    ensures { result ≡ place_behind counts.now place }
{
    let before = match counts.get(usize::from(place.cpu)) {
        Some(count) => *count,
        None => 0,
    };
    Pos {
        stamp: place.stamp,
        cpu: place.cpu,
        line: place.line.saturating_add(before),
    }
}

/// A held act of a part, behind those events.
fn held_behind(counts: &[u32], act: &PlacedAct) -> PlacedAct
    ensures { result ≡ held_behind (place_behind counts.now) act.now }
{
    PlacedAct {
        place: place_behind(counts, act.place),
        ..*act
    }
}

/// Holds what a part holds, behind those events.
fn add_held(held: &mut Vec<PlacedAct>, counts: &[u32], part: &[PlacedAct]) -> Result<(), AllocError>
    ensures { OnOk result (held.new.items ≡ held.old.items ++ list_map (held_behind (place_behind counts.now)) part.now) }
{
    for act in part {
        held.push(held_behind(counts, act))?;
    }
    Ok(())
}

/// Joins the acts of a part, behind those events, if no act before is held. Completes the dispatches of the part,
/// and gives what its first wakings show to the windows.
fn join_acts(
    acts: &mut KeptActs,
    part: KeptActs,
    counts: &[u32],
    ones: &mut [Dispatch],
) -> Result<(), AllocError>
    ensures joins { OnOk result (Joins (place_behind counts.now) acts.old.tasks part.tasks ones.old acts.new.tasks ones.new) }
    ensures held { OnOk result (acts.new.held.items
        ≡ acts.old.held.items ++ list_map (held_behind (place_behind counts.now)) part.held.items) }
    ensures shows { OnOk result (ShowsBoth counts.now acts.old part acts.new) }
{
    first_wakings_join();
    showings_move();
    showings_in_any_order();
    let KeptActs {
        held,
        tasks,
        shown,
        windows,
    } = part;
    show_part(acts, &shown.firsts, windows)?;
    acts.tasks.join(tasks, counts, ones)?;
    add_held(&mut acts.held, counts, &held)?;
    Ok(())
}

impl Missing {
    /// Counts the first event of a CPU in a part, if another task runs than before the part.
    fn count_start(&mut self, other: bool, is_clear: bool, place: Pos)
        ensures { self.new ≡ with_start other is_clear place self.old }
    {
        if other {
            self.switches = self.switches.saturating_add(1);
        }
        if other && is_clear {
            self.first = Some(self.first.unwrap_or(place));
        }
    }

    /// Adds what is missing in a part, behind so many events of each CPU.
    fn add(&mut self, part: Missing, counts: &[u32])
        ensures { self.new ≡ missing_with (place_behind counts.now) self.old part }
    {
        self.switches = self.switches.saturating_add(part.switches);
        let first = match part.first {
            Some(place) => Some(place_behind(counts, place)),
            None => None,
        };
        self.first = self.first.or(first);
    }
}

/// Takes the first event of a CPU in a part, by what the CPU ran before the part.
fn take_start(
    missing: &mut Missing,
    starts: &mut Vec<Start>,
    ran: Option<Ran>,
    place: Pos,
    start: &Start,
) -> Result<(), AllocError>
    ensures { OnOk result (record { missing = missing.new; starts = starts.new.items }
        ≡ seam_after ran place start.now (record { missing = missing.old; starts = starts.old.items })) }
{
    match ran {
        Some(_) => {
            missing.count_start(is_other(ran, start.pid), start.is_clear, place);
        }
        None => starts.push(Start {
            pid: start.pid,
            place,
            is_clear: start.is_clear && missing.first.is_none(),
        })?,
    }
    Ok(())
}

/// The first event of a CPU in a part, by its number.
fn start_at(part: &[Start], number: usize) -> Start
    requires { number < length part.now }
    ensures { result ≡ get_or part.now number result }
{
    part[number]
}

/// Takes the first events of CPUs in a part.
fn take_starts(
    missing: &mut Missing,
    starts: &mut Vec<Start>,
    running: &[Option<Ran>],
    counts: &[u32],
    part: &[Start],
) -> Result<(), AllocError>
    ensures { OnOk result (record { missing = missing.new; starts = starts.new.items }
        ≡ seam (λ cpu. slice_index_or running.now cpu None) (place_behind counts.now)
        (record { missing = missing.old; starts = starts.old.items }) (reverse part.now)) }
{
    for number in 0..part.len() {
        let start = start_at(part, number);
        let ran = running_on(running, start.place.cpu);
        let place = place_behind(counts, start.place);
        take_start(missing, starts, ran, place, &start)?;
    }
    Ok(())
}

/// Puts what CPUs run after a part over what they ran before it.
fn put_running(running: &mut Vec<Option<Ran>>, part: &[Option<Ran>])
    requires { vec_len running.old ≡ 8192 }
    ensures len { vec_len running.new ≡ 8192 }
    ensures at { (cpu : ℕ) → cpu ≤ last_cpu → slice_index_or running.new.items cpu None
        ≡ option_or (slice_index_or part.now cpu None) (slice_index_or running.old.items cpu None) }
{
    for cpu in 0..CPUS {
        let own = match part.get(cpu) {
            Some(ran) => *ran,
            None => None,
        };
        running[cpu] = own.or(running[cpu]);
    }
}

/// Adds the events of each CPU in a part.
fn add_lines(lines: &mut Vec<u32>, part: &[u32])
    requires { vec_len lines.old ≡ 8192 }
    ensures len { vec_len lines.new ≡ 8192 }
    ensures at { (cpu : ℕ) → cpu ≤ last_cpu → slice_index lines.new.items cpu
        ≡ min (slice_index lines.old.items cpu + slice_index part.now cpu) 4294967295 }
{
    for cpu in 0..CPUS {
        let own = match part.get(cpu) {
            Some(count) => *count,
            None => 0,
        };
        lines[cpu] = lines[cpu].saturating_add(own);
    }
}

impl LeftOut {
    /// Adds what is left out of a part.
    fn add(&mut self, part: &LeftOut)
        ensures { self.new ≡ left_out_with self.old part.now }
    {
        self.events = self.events.saturating_add(part.events);
        self.left_out = self.left_out.saturating_add(part.left_out);
    }
}

/// Adds what is left out of a part, which leaves out the same.
fn add_left_out(all: &mut Vec<LeftOut>, part: &[LeftOut])
    requires { length all.old.items ≡ length part.now }
    ensures len { length all.new.items ≡ length all.old.items }
    ensures at { (i : ℕ) (d : LeftOut) → i < length all.old.items
        → get_or all.new.items i d ≡ left_out_with (get_or all.old.items i d) (get_or part.now i d) }
{
    for number in 0..part.len() {
        all[number].add(&part[number]);
    }
}

impl State {
    /// Joins a part that was read apart, and whose events come after the last stamp so far. Adds the
    /// dispatches of that microsecond, and completes those of the part. Neither of the two sums up its tasks
    /// and CPUs. Fails only for memory.
    pub(crate) fn join(
        &mut self,
        part: State,
        out: &mut Vec<Dispatch>,
        ones: &mut [Dispatch],
    ) -> Result<(), AllocError>
        requires { length self.old.left_out.items ≡ length part.left_out.items }
        ensures { OnOk result (JoinsStates self.old part out.old.items ones.old self.new out.new.items ones.new
            × JoinsMisses self.old part self.new) }
    {
        let Some(first) = part.first else {
            put_running(&mut self.running, &part.running);
            return Ok(());
        };
        settle(&mut self.acts, &mut self.sums, out)?;
        join_acts(&mut self.acts, part.acts, &self.lines, ones)?;
        take_starts(
            &mut self.missing,
            &mut self.starts,
            &self.running,
            &self.lines,
            &part.starts,
        )?;
        self.missing.add(part.missing, &self.lines);
        put_running(&mut self.running, &part.running);
        add_left_out(&mut self.left_out, &part.left_out);
        self.first = Some(self.first.unwrap_or(first));
        self.latest = part.latest;
        add_lines(&mut self.lines, &part.lines);
        Ok(())
    }
}
