//! What is kept of a part that was read apart.

ghost use Rattle.std.specs.Prelude.{◌≡◌, ◌≤◌, ◌<◌, ◌&&◌, ◌||◌, ◌++◌, ℕ, ℤ, nat_eq, length, List, OnOk, vec_len};
ghost use Rattle.std.specs.Option.{option_or};
ghost use Rattle.ft_fields.specs.Traced.{Traced, last_cpu};
ghost use Rattle.ft_pids.specs.Numbers.{number_of};
ghost use Rattle.ft_windows.specs.Telling.{Keeps, lane_in, named_in, begins_before, ends_after};
ghost use Rattle.ft_dispatch.specs.declared.showing.Showing.{Showing};

use crate::lanes::{CPUS, Lane, lane_of, put_lane};
use crate::naming::{Names, note};
use crate::spans::add_spans;
use crate::taking::{greatest, least};
use crate::windows::Windows;
use std::alloc::AllocError;

/// Adds what is kept of a part's task: of that whose entry stands at this number, if it is the number of its PID.
#[inline(always)]
fn note_one(tasks: &mut Names, part: &Names, number: usize) -> Result<(), AllocError>
    requires { number < length part.now.entries.items }
    ensures before { OnOk result ((q : ℤ) (stamp : ℕ) → begins_before (named_in tasks.new q) stamp
        ≡ ((nat_eq (number_of part.now.numbers q) number && begins_before (named_in part.now q) stamp) || begins_before (named_in tasks.old q) stamp)) }
    ensures after { OnOk result ((q : ℤ) (stamp : ℕ) → ends_after (named_in tasks.new q) stamp
        ≡ ((nat_eq (number_of part.now.numbers q) number && ends_after (named_in part.now q) stamp) || ends_after (named_in tasks.old q) stamp)) }
{
    let entry = part.entries[number];
    if part.numbers.get(entry.pid) != number {
        return Ok(());
    }
    note(tasks, entry.pid, entry.named)
}

/// Adds what is kept of a part's tasks.
fn note_all(tasks: &mut Names, part: &Names) -> Result<(), AllocError>
    ensures before { OnOk result ((q : ℤ) (stamp : ℕ) → begins_before (named_in tasks.new q) stamp
        ≡ (begins_before (named_in part.now q) stamp || begins_before (named_in tasks.old q) stamp)) }
    ensures after { OnOk result ((q : ℤ) (stamp : ℕ) → ends_after (named_in tasks.new q) stamp
        ≡ (ends_after (named_in part.now q) stamp || ends_after (named_in tasks.old q) stamp)) }
{
    for number in 0..part.entries.len() {
        note_one(tasks, part, number)?;
    }
    Ok(())
}

/// Puts each CPU behind the part.
fn join_lanes(lanes: &mut Vec<Lane>, part: &[Lane])
    requires { vec_len lanes.old ≡ 8192 }
    ensures len { vec_len lanes.new ≡ 8192 }
    ensures at { (cpu : ℕ) → cpu ≤ last_cpu → lane_in lanes.new.items cpu
        ≡ record {
          first = option_or (lane_in lanes.old.items cpu).first (lane_in part.now cpu).first;
          last = option_or (lane_in part.now cpu).last (lane_in lanes.old.items cpu).last;
        } }
{
    for cpu in 0..CPUS {
        let before = lane_of(lanes, cpu);
        let own = lane_of(part, cpu);
        let joined = Lane {
            first: before.first.or(own.first),
            last: own.last.or(before.last),
        };
        put_lane(lanes, cpu, joined);
    }
}

impl Windows {
    /// Joins a part that was read apart, from `Windows::new` on, as if its events and showings had followed those
    /// so far. Fails only for memory.
    pub fn join(&mut self, part: Windows) -> Result<(), AllocError>
        ensures { OnOk result ((events own : List Traced) (showings more : List Showing) → Keeps self.old events showings
            → Keeps part own more → Keeps self.new (own ++ events) (showings ++ more)) }
    {
        note_all(&mut self.tasks, &part.tasks)?;
        add_spans(&mut self.spans, &part.spans)?;
        join_lanes(&mut self.lanes, &part.lanes);
        self.least_at = least(self.least_at, part.least_at);
        self.greatest_from = greatest(self.greatest_from, part.greatest_from);
        Ok(())
    }
}
