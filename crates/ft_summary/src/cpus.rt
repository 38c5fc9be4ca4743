//! What each CPU runs since its last switch.

ghost use Rattle.std.specs.Prelude.{◌≡◌, ◌-◌, ℕ, Some, OnOk, IfOk, map as list_map, nat_eq, if◌then◌else◌};
ghost use Rattle.std.specs.Ordering.{nat_cmp};
ghost use Rattle.std.specs.BTreeMap.{IsOrdered, values};
ghost use Rattle.ft_summary.specs.inner.Changes.{cpu_turned, cpu_from, found_cpu, idled, not_known, run_of};

use crate::sums::CpuSum;
use ft_dispatch::PlacedAct;
use std::alloc::{AllocError, Global};
use std::collections::BTreeMap;

/// What a CPU runs since its last switch, and what its acts sum up to.
#[derive(Clone, Copy)]
pub(crate) struct Cpu {
    /// The task to which it went.
    pub(crate) pid: i32,
    /// When, in microseconds.
    pub(crate) stamp: u64,
    /// How long some task had waited by then.
    pub(crate) waited: u64,
    /// What the acts sum up to for the CPU.
    pub(crate) sum: CpuSum,
}

impl Cpu {
    /// The length of the run that a switch ends, in microseconds; 0 if a switch is missing.
    #[inline(always)]
    fn run_of(&self, turn: &PlacedAct) -> u64
        ensures { result ≡ run_of (Some self.now) turn.now.prev_pid turn.now.place.stamp }
    {
        if self.pid == turn.prev_pid {
            turn.place.stamp.saturating_sub(self.stamp)
        } else {
            0
        }
    }

    /// What the acts sum up to once a run of task 0 ends: some task waited so long by now.
    #[inline(always)]
    fn idle_until(&self, stamp: u64, waited: u64) -> CpuSum
        ensures { result ≡ idled self.now.stamp (stamp - self.now.stamp) (waited - self.now.waited) self.now.sum }
    {
        let mut sum = self.sum;
        let waited_in_run = waited.saturating_sub(self.waited);
        sum.idle = sum.idle.saturating_add(stamp.saturating_sub(self.stamp));
        sum.idle_with_waiters = sum.idle_with_waiters.saturating_add(waited_in_run);
        if waited_in_run > sum.longest {
            sum.longest = waited_in_run;
            sum.longest_from = self.stamp;
        }
        sum
    }

    /// What the acts sum up to once a switch is missing: it isn't known what ran by now.
    #[inline(always)]
    fn unknown_until(&self, stamp: u64) -> CpuSum
        ensures { result ≡ not_known (stamp - self.now.stamp) self.now.sum }
    {
        let mut sum = self.sum;
        let lasted = stamp.saturating_sub(self.stamp);
        sum.unknown = sum.unknown.saturating_add(lasted);
        sum
    }

    /// Takes a switch of the CPU: some task waited so long by now.
    #[inline(always)]
    fn turn(&mut self, turn: &PlacedAct, waited: u64)
        ensures { self.new ≡ cpu_turned self.old turn.now waited }
    {
        let sum = if self.pid != turn.prev_pid {
            self.unknown_until(turn.place.stamp)
        } else if turn.prev_pid == 0 {
            self.idle_until(turn.place.stamp, waited)
        } else {
            self.sum
        };
        *self = Cpu {
            pid: turn.pid,
            stamp: turn.place.stamp,
            waited,
            sum,
        };
    }

    /// A CPU whose first switch this is.
    #[inline(always)]
    fn first(turn: &PlacedAct, waited: u64) -> Cpu
        ensures { result ≡ cpu_from None turn.now waited }
    {
        Cpu {
            pid: turn.pid,
            stamp: turn.place.stamp,
            waited,
            sum: CpuSum {
                cpu: turn.place.cpu,
                idle: 0,
                unknown: 0,
                idle_with_waiters: 0,
                longest: 0,
                longest_from: 0,
            },
        }
    }
}

/// Takes the first switch of a CPU.
#[inline(never)]
fn add(cpus: &mut BTreeMap<u16, Cpu>, turn: &PlacedAct, waited: u64) -> Result<(), AllocError>
    ensures finds { OnOk result ((q : ℕ) → found_cpu cpus.new q ≡ (if nat_eq turn.now.place.cpu q
        then Some (cpu_from None turn.now waited) else found_cpu cpus.old q)) }
    ensures ordered { OnOk result (IsOrdered nat_cmp cpus.new) }
{
    cpus.insert(turn.place.cpu, Cpu::first(turn, waited))?;
    Ok(())
}

/// Takes a switch: answers the length of the run that it ends, or 0 if a switch is missing.
#[inline(always)]
pub(crate) fn turn(
    cpus: &mut BTreeMap<u16, Cpu>,
    turn: &PlacedAct,
    waited: u64,
) -> Result<u64, AllocError>
    ensures run { IfOk result (λ run. run
        ≡ run_of (found_cpu cpus.old turn.now.place.cpu) turn.now.prev_pid turn.now.place.stamp) }
    ensures finds { OnOk result ((q : ℕ) → found_cpu cpus.new q ≡ (if nat_eq turn.now.place.cpu q
        then Some (cpu_from (found_cpu cpus.old turn.now.place.cpu) turn.now waited) else found_cpu cpus.old q)) }
    ensures ordered { OnOk result (IsOrdered nat_cmp cpus.new) }
{
    match cpus.get_mut(&turn.place.cpu) {
        Some(cpu) => {
            let run = cpu.run_of(turn);
            cpu.turn(turn, waited);
            Ok(run)
        }
        None => {
            add(cpus, turn, waited)?;
            Ok(0)
        }
    }
}

/// What acts sum up to for each CPU, ascending by number.
pub(crate) fn cpu_sums(alloc: Global, cpus: &BTreeMap<u16, Cpu>) -> Result<Vec<CpuSum>, AllocError>
    ensures { IfOk result (λ sums. sums.items ≡ list_map (λ cpu. cpu.sum) (values cpus.now)) }
{
    cpus.values().map(|cpu| cpu.sum).collect(alloc)
}
