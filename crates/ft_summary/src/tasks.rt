//! How each task stands, and how many wait.

ghost use Rattle.std.specs.Prelude.{◌≡◌, ℤ, pos, not, ◌&&◌, Some, OnOk, IfOk, map as list_map, if◌then◌else◌};
ghost use Rattle.std.specs.Option.{unwrap_or};
ghost use Rattle.std.specs.Ordering.{int_eq};
ghost use Rattle.std.specs.BTreeMap.{IsOrdered, values};
ghost use Rattle.ft_summary.specs.Waiting.{is_counted};
ghost use Rattle.ft_summary.specs.inner.Changes.{changed, changed_in, found_task, none, number_waiting, count_after, task_cmp};

use crate::standing::{Change, Standing};
use crate::sums::TaskSum;
use std::alloc::{AllocError, Global};
use std::collections::BTreeMap;

/// A task.
#[derive(Clone, Copy, Debug, PartialEq, Eq, PartialOrd, Ord)]
pub(crate) struct Task {
    pub(crate) pid: i32,
}

/// Whether a task isn't an idle task: each CPU has a task 0, which runs if no other can.
#[inline(always)]
fn is_counted(pid: i32) -> bool
    ensures { result ≡ is_counted pid }
{
    pid != 0
}

/// How many tasks wait after one of them changed: whether it waited, and whether it waits.
#[inline(always)]
fn count_after(waiting: usize, waited: bool, waits: bool) -> usize
    ensures { result ≡ count_after waiting waited waits }
{
    if waits && !waited {
        waiting.saturating_add(1)
    } else if waited && !waits {
        waiting.saturating_sub(1)
    } else {
        waiting
    }
}

/// Changes how a task that no act named before stands.
#[inline(never)]
fn add(
    tasks: &mut BTreeMap<Task, Standing>,
    waiting: &mut usize,
    pid: i32,
    change: Change,
) -> Result<(), AllocError>
    requires new { found_task tasks.now pid ≡ None }
    ensures finds { OnOk result ((q : ℤ) → found_task tasks.new q
        ≡ (if int_eq pid q then Some (changed change (none pid)) else found_task tasks.old q)) }
    ensures counts { OnOk result (waiting.old ≡ number_waiting tasks.old → waiting.new ≡ number_waiting tasks.new) }
    ensures ordered { OnOk result (IsOrdered task_cmp tasks.new) }
{
    let mut standing = Standing::none(pid);
    standing.change(change);
    tasks.insert(Task { pid }, standing)?;
    *waiting = count_after(*waiting, false, standing.waits());
    // So many tasks wait at most, and that is below the greatest number.
    prove!(tasks.len() < usize::MAX);
    Ok(())
}

/// Changes how a task stands, if it isn't task 0.
#[inline(always)]
pub(crate) fn change(
    tasks: &mut BTreeMap<Task, Standing>,
    waiting: &mut usize,
    pid: i32,
    change: Change,
) -> Result<(), AllocError>
    ensures finds { OnOk result ((q : ℤ) → found_task tasks.new q ≡ changed_in (found_task tasks.old) change pid q) }
    ensures counts { OnOk result (waiting.old ≡ number_waiting tasks.old → waiting.new ≡ number_waiting tasks.new) }
    ensures ordered { OnOk result (IsOrdered task_cmp tasks.old → IsOrdered task_cmp tasks.new) }
{
    if !is_counted(pid) {
        return Ok(());
    }
    // So many tasks wait at most, and that is below the greatest number.
    prove!(tasks.len() < usize::MAX);
    match tasks.get_mut(&Task { pid }) {
        Some(standing) => {
            let waited = standing.waits();
            standing.change(change);
            *waiting = count_after(*waiting, waited, standing.waits());
            Ok(())
        }
        None => add(tasks, waiting, pid, change),
    }
}

/// What acts sum up to for each task, ascending by PID.
pub(crate) fn task_sums(
    alloc: Global,
    tasks: &BTreeMap<Task, Standing>,
) -> Result<Vec<TaskSum>, AllocError>
    ensures { IfOk result (λ sums. sums.items ≡ list_map (λ standing. standing.sum) (values tasks.now)) }
{
    tasks.values().map(|standing| standing.sum).collect(alloc)
}
