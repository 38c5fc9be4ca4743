//! What a stream sums up, by task and by CPU.

ghost use Rattle.std.specs.Prelude.{◌≡◌, ◌-◌, OnOk, IfErr, IfSome, IfNone, Err, length, min};
ghost use Rattle.ft_layout.specs.Copied.{copied};
ghost use Rattle.ft_stream.specs.Layouts.{task_sum_layout, cpu_sum_layout};
ghost use Rattle.ft_stream.specs.Summing.{SumsThemUp, IsTooLate, tasks_of, cpus_of, tasks_at, cpus_at};
ghost use Rattle.ft_stream.specs.Telling.{no_whole_at};

use crate::copying::OfText;
use crate::fault::StreamFault;
use crate::phase::Phase;
use ft_layout::{Shows, copy_part};
use ft_summary::{CpuSum, Sums, TaskSum};
use std::alloc::Global;

/// What acts sum up to for a task.
#[repr(C)]
#[derive(Clone, Copy, Debug, PartialEq, Eq)]
pub struct TaskSumLayout {
    /// How long it ran, in microseconds.
    pub run_time: u64,
    /// How often a CPU went to it.
    pub switches: u64,
    /// How often a switch to another task left it while it could run.
    pub preempted: u64,
    /// How often one left it asleep.
    pub slept: u64,
    /// How often one left it blocked.
    pub blocked: u64,
    /// How often it was run on another CPU than before.
    pub moved: u64,
    /// The task's PID.
    pub pid: i32,
    /// 0.
    pub zero: u32,
}

/// What acts sum up to for a CPU.
#[repr(C)]
#[derive(Clone, Copy, Debug, PartialEq, Eq)]
pub struct CpuSumLayout {
    /// How long it ran task 0, in microseconds.
    pub idle: u64,
    /// For how long, between two of its switches, it isn't known what it ran.
    pub unknown: u64,
    /// For how much of the time of task 0 some task waited for a processor.
    pub idle_with_waiters: u64,
    /// The most of that in one run of task 0.
    pub longest: u64,
    /// When the first such run began; 0 if `longest` is 0.
    pub longest_from: u64,
    /// The CPU's number.
    pub cpu: u32,
    /// 0.
    pub zero: u32,
}

impl TaskSumLayout {
    /// The sums of a task as C has them.
    pub fn of(sum: &TaskSum) -> TaskSumLayout
        ensures { result ≡ task_sum_layout sum.now }
    {
        TaskSumLayout {
            run_time: sum.run_time,
            switches: sum.switches,
            preempted: sum.preempted,
            slept: sum.slept,
            blocked: sum.blocked,
            moved: sum.moved,
            pid: sum.pid,
            zero: 0,
        }
    }
}

impl CpuSumLayout {
    /// The sums of a CPU as C has them.
    pub fn of(sum: &CpuSum) -> CpuSumLayout
        ensures { result ≡ cpu_sum_layout sum.now }
    {
        CpuSumLayout {
            idle: sum.idle,
            unknown: sum.unknown,
            idle_with_waiters: sum.idle_with_waiters,
            longest: sum.longest,
            longest_from: sum.longest_from,
            cpu: u32::from(sum.cpu),
            zero: 0,
        }
    }
}

impl Shows<TaskSum> for OfText {
    type Layout = TaskSumLayout;

    ghost shown = { λ _ sum. task_sum_layout sum };

    fn show(&self, item: &TaskSum) -> TaskSumLayout {
        TaskSumLayout::of(item)
    }
}

impl Shows<CpuSum> for OfText {
    type Layout = CpuSumLayout;

    ghost shown = { λ _ sum. cpu_sum_layout sum };

    fn show(&self, item: &CpuSum) -> CpuSumLayout {
        CpuSumLayout::of(item)
    }
}

/// Copies the sums of tasks from the one of this number on, as `copy_part` does.
pub fn copy_tasks(all: &[TaskSum], from: u64, to: &mut [TaskSumLayout]) -> usize
    ensures part { to.new ≡ copied task_sum_layout from all.now to.old }
    ensures count { result ≡ min (length to.old) (length all.now - from) }
{
    copy_part(&OfText, all, from, to)
}

/// Copies the sums of CPUs from the one of this number on, as `copy_part` does.
pub fn copy_cpus(all: &[CpuSum], from: u64, to: &mut [CpuSumLayout]) -> usize
    ensures part { to.new ≡ copied cpu_sum_layout from all.now to.old }
    ensures count { result ≡ min (length to.old) (length all.now - from) }
{
    copy_part(&OfText, all, from, to)
}

/// The sums of tasks, if they were wanted.
fn tasks_of(sums: &Option<Sums>) -> &[TaskSum]
    ensures { result.now ≡ tasks_of sums.now }
{
    match sums {
        Some(sums) => sums.tasks.as_slice(),
        None => &[],
    }
}

/// The sums of CPUs, if they were wanted.
fn cpus_of(sums: &Option<Sums>) -> &[CpuSum]
    ensures { result.now ≡ cpus_of sums.now }
{
    match sums {
        Some(sums) => sums.cpus.as_slice(),
        None => &[],
    }
}

impl Phase {
    /// What the text sums up to by task, once it has ended, if that was asked for.
    pub fn tasks(&self) -> &[TaskSum]
        ensures { result.now ≡ tasks_at self.now }
    {
        match self {
            Phase::Finished(finished) => tasks_of(&finished.read.sums),
            _ => &[],
        }
    }

    /// What the text sums up to by CPU, once it has ended, if that was asked for.
    pub fn cpus(&self) -> &[CpuSum]
        ensures { result.now ≡ cpus_at self.now }
    {
        match self {
            Phase::Finished(finished) => cpus_of(&finished.read.sums),
            _ => &[],
        }
    }
}

/// Sums up tasks and CPUs of a text as well, by where its stream stands.
pub(crate) fn sum_up_phase(phase: &mut Phase, alloc: Global) -> Result<(), StreamFault>
    ensures sums { IfNone (no_whole_at phase.old) (OnOk result (SumsThemUp phase.old phase.new)) }
    ensures late { IfNone (no_whole_at phase.old) (IfErr result (λ why. IsTooLate phase.old why
        × (phase.new ≡ phase.old))) }
    ensures stays { IfSome (no_whole_at phase.old) (λ why. (result ≡ Err why) × (phase.new ≡ phase.old)) }
{
    match phase {
        Phase::Running(running) => match running.sum_up(alloc) {
            Ok(()) => Ok(()),
            Err(_) => Err(StreamFault::NoStream),
        },
        Phase::Failed(fault) => Err(StreamFault::Text(*fault)),
        Phase::Idle | Phase::Part(_) | Phase::Finished(_) => Err(StreamFault::NoStream),
    }
}
