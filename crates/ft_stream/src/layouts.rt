//! Waits and what was read of a text, as C lays them out.

ghost use Rattle.std.specs.Prelude.{◌≡◌, unwrap_or};
ghost use Rattle.ft_event.specs.LineFault.{line_number};
ghost use Rattle.std.specs.Option.{option_map_or};
ghost use Rattle.ft_layout.specs.Places.{place_layout};
ghost use Rattle.ft_stream.specs.Layouts.{no_place, cause_number, cause_of, place_of, slept_of, no_buffers, wait_layout, cpu_of, hole_layout, left_out_layout, read_layout};

use crate::phase::Finished;
use ft_dispatch::{Began, Cause, Dispatch, Since};
use ft_fields::Pos;
use ft_layout::{NameLayout, PlaceLayout};
use ft_losses::{Buffers, Hole};
use ft_waits::{BadLine, LeftOut};

/// A wait for a processor.
#[repr(C)]
#[derive(Clone, Copy, Debug, PartialEq, Eq)]
pub struct WaitLayout {
    /// The place of the switch that runs the task.
    pub ended: PlaceLayout,
    /// The place of the event that the wait began with.
    pub began: PlaceLayout,
    /// The task's PID.
    pub pid: i32,
    /// The priority with which it runs.
    pub prio: i32,
    /// Why it waited: 1 it was woken, 2 it was created, 3 the CPU was taken from it.
    pub cause: u32,
    /// How sure the wait is: 0 sure, 1 likely, 2 doubtful.
    pub doubt: u32,
    /// 1 if the task was left asleep after the wait began, so that it isn't known what woke it then; else 0.
    pub slept: u32,
    /// 0.
    pub zero: u32,
    /// The task's name.
    pub name: NameLayout,
}

/// A stretch of time in which a CPU's events were lost. What isn't there or isn't known is 0.
#[repr(C)]
#[derive(Clone, Copy, Debug, PartialEq, Eq)]
pub struct HoleLayout {
    /// The first line that reports it, from 1; 0 if no line does.
    pub line: u64,
    /// The stamp of the CPU's last event before it.
    pub after: u64,
    /// The stamp of the CPU's first event after it.
    pub before: u64,
    /// How many events were lost.
    pub count: u64,
    /// The CPU.
    pub cpu: u32,
    /// Whether there is an event before it.
    pub has_after: bool,
    /// Whether there is an event after it.
    pub has_before: bool,
    /// Whether a line reports how many events were lost.
    pub has_count: bool,
    /// Whether the CPU is known.
    pub has_cpu: bool,
}

/// How many events were left out of a text.
#[repr(C)]
#[derive(Clone, Copy, Debug, PartialEq, Eq)]
pub struct LeftOutLayout {
    /// How many events have the name.
    pub events: u64,
    /// How many of them were left out.
    pub left_out: u64,
}

/// What was read of a text. What isn't there is 0.
#[repr(C)]
#[derive(Clone, Copy, Debug, PartialEq, Eq)]
pub struct ReadLayout {
    /// How many lines there are.
    pub lines: u64,
    /// How many of them can't be read.
    pub bad: u64,
    /// The first of these lines, from 1.
    pub bad_line: u64,
    /// How many events show that a switch is missing before them, though no line reports it.
    pub missing: u64,
    /// How many holes there are.
    pub holes: u64,
    /// How many events the kernel's buffers held of those that were written to them.
    pub held: u64,
    /// How many events were written to them.
    pub written: u64,
    /// The stamp of the first event, in microseconds.
    pub first: u64,
    /// The stamp of the last event.
    pub last: u64,
    /// The place of the first of these events.
    pub missing_at: PlaceLayout,
    /// The number of the fault of the first line that can't be read.
    pub bad_fault: u32,
    /// Whether the text has an event.
    pub has_first: bool,
    /// Whether the text has the kernel's header, which reports what the buffers held.
    pub has_written: bool,
}

/// The number of a CPU; 0 if it isn't known.
fn cpu_of(cpu: Option<u16>) -> u32
    ensures { result ≡ cpu_of cpu }
{
    match cpu {
        Some(cpu) => u32::from(cpu),
        None => 0,
    }
}

impl HoleLayout {
    /// The hole as C has it.
    pub fn of(hole: &Hole) -> HoleLayout
        ensures { result ≡ hole_layout hole.now }
    {
        HoleLayout {
            line: hole.line,
            after: hole.after.unwrap_or(0),
            before: hole.before.unwrap_or(0),
            count: hole.count.unwrap_or(0),
            cpu: cpu_of(hole.cpu),
            has_after: hole.after.is_some(),
            has_before: hole.before.is_some(),
            has_count: hole.count.is_some(),
            has_cpu: hole.cpu.is_some(),
        }
    }
}

impl LeftOutLayout {
    /// The counts as C has them.
    pub fn of(count: &LeftOut) -> LeftOutLayout
        ensures { result ≡ left_out_layout count.now }
    {
        LeftOutLayout {
            events: count.events,
            left_out: count.left_out,
        }
    }
}

/// No place.
fn no_place() -> PlaceLayout
    ensures { result ≡ no_place }
{
    PlaceLayout {
        stamp: 0,
        cpu: 0,
        line: 0,
    }
}

/// A place as C has it; zeros if there is none.
fn place_or_none(place: Option<Pos>) -> PlaceLayout
    ensures { result ≡ option_map_or place_layout place no_place }
{
    match place {
        Some(place) => PlaceLayout::of(&place),
        None => no_place(),
    }
}

/// The number of a cause.
fn cause_number(cause: Cause) -> u32
    ensures { result ≡ cause_number cause }
{
    match cause {
        Cause::Woken => 1,
        Cause::Created => 2,
        Cause::Preempted => 3,
    }
}

/// The number of a beginning's cause; 0 if there is none.
fn cause_of(began: Option<Began>) -> u32
    ensures { result ≡ cause_of began }
{
    match began {
        Some(began) => cause_number(began.cause),
        None => 0,
    }
}

/// The place of a beginning; zeros if there is none.
fn place_of(began: Option<Began>) -> PlaceLayout
    ensures { result ≡ place_of began }
{
    match began {
        Some(began) => PlaceLayout::of(&began.place),
        None => no_place(),
    }
}

/// 1 if the task of a wait that began so was left asleep after that; else 0.
fn slept_of(since: &Since, began: Option<Began>) -> u32
    ensures { result ≡ slept_of since.now began }
{
    match began {
        Some(began) => u32::from(since.is_before_sleep(began)),
        None => 0,
    }
}

impl WaitLayout {
    /// The wait that a dispatch ends, before anything says how sure it is.
    pub fn of(dispatch: &Dispatch) -> WaitLayout
        ensures { result ≡ wait_layout dispatch.now }
    {
        let began = dispatch.since.waiting();
        WaitLayout {
            ended: PlaceLayout::of(&dispatch.place),
            began: place_of(began),
            pid: dispatch.pid,
            prio: dispatch.prio,
            cause: cause_of(began),
            doubt: 0,
            slept: slept_of(&dispatch.since, began),
            zero: 0,
            name: NameLayout::of(&dispatch.name),
        }
    }
}

/// The line of the first one that can't be read; 0 if there is none.
fn bad_line_of(first: Option<BadLine>) -> u64
    ensures { result ≡ option_map_or (λ bad. bad.line) first 0 }
{
    match first {
        Some(bad) => bad.line,
        None => 0,
    }
}

/// The number of its fault; 0 if there is none.
fn bad_fault_of(first: Option<BadLine>) -> u32
    ensures { result ≡ option_map_or (λ bad. line_number bad.fault) first 0 }
{
    match first {
        Some(bad) => u32::from(bad.fault.number()),
        None => 0,
    }
}

/// What the kernel's header reports; zeros if the text has none.
fn buffers_or_none(buffers: Option<Buffers>) -> Buffers
    ensures { result ≡ unwrap_or buffers no_buffers }
{
    match buffers {
        Some(buffers) => buffers,
        None => Buffers {
            held: 0,
            written: 0,
        },
    }
}

impl ReadLayout {
    /// What was read of a text that has ended.
    pub fn of(finished: &Finished) -> ReadLayout
        ensures { result ≡ read_layout finished.now }
    {
        let read = &finished.read;
        let buffers = buffers_or_none(read.losses.buffers);
        ReadLayout {
            lines: read.lines.lines,
            bad: read.lines.bad,
            bad_line: bad_line_of(read.lines.first),
            missing: read.missing.switches,
            holes: read.losses.holes.len() as u64,
            held: buffers.held,
            written: buffers.written,
            first: read.first.unwrap_or(0),
            last: read.last.unwrap_or(0),
            missing_at: place_or_none(read.missing.first),
            bad_fault: bad_fault_of(read.lines.first),
            has_first: read.first.is_some(),
            has_written: read.losses.buffers.is_some(),
        }
    }
}
