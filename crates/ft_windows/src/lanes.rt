//! What is kept of each CPU.

ghost use Rattle.std.specs.Prelude.{◌≡◌, ◌≤◌, ◌==◌, ℕ, IfOk, vec_len, if◌then◌else◌};
ghost use Rattle.ft_fields.specs.Traced.{last_cpu};
ghost use Rattle.ft_windows.specs.Telling.{no_lane, lane_in};

use std::alloc::{AllocError, Global};

/// How many CPUs there can be.
pub(crate) const CPUS: u16 = 8192;

/// A CPU's first event and the task that ran before it, or its last event and the task that runs after it.
#[derive(Clone, Copy)]
pub(crate) struct Edge {
    /// The event's stamp.
    pub(crate) stamp: u64,
    /// The task.
    pub(crate) pid: i32,
}

/// What is kept of a CPU.
#[derive(Clone, Copy)]
pub(crate) struct Lane {
    /// Its first event.
    pub(crate) first: Option<Edge>,
    /// Its last event.
    pub(crate) last: Option<Edge>,
}

impl Lane {
    /// Nothing is known of the CPU.
    fn none() -> Lane
        ensures { result ≡ no_lane }
    {
        Lane {
            first: None,
            last: None,
        }
    }
}

/// Nothing is known of any CPU.
pub(crate) fn no_lanes(alloc: Global) -> Result<Vec<Lane>, AllocError>
    ensures len { IfOk result (λ lanes. vec_len lanes ≡ 8192) }
    ensures none { IfOk result (λ lanes. (cpu : ℕ) → lane_in lanes.items cpu ≡ no_lane) }
{
    let mut lanes = Vec::new(alloc);
    lanes.resize(usize::from(CPUS), Lane::none())?;
    Ok(lanes)
}

/// What is kept of a CPU.
#[inline(always)]
pub(crate) fn lane_of(lanes: &[Lane], cpu: u16) -> Lane
    ensures { result ≡ lane_in lanes.now cpu }
{
    match lanes.get(usize::from(cpu)) {
        Some(lane) => *lane,
        None => Lane::none(),
    }
}

/// Changes what is kept of a CPU, if there can be such a CPU.
#[inline(always)]
pub(crate) fn put_lane(lanes: &mut Vec<Lane>, cpu: u16, lane: Lane)
    requires { vec_len lanes.old ≡ 8192 }
    ensures len { vec_len lanes.new ≡ 8192 }
    ensures at { (other : ℕ) → other ≤ last_cpu → lane_in lanes.new.items other
        ≡ if cpu == other then lane else lane_in lanes.old.items other }
{
    if cpu < CPUS {
        lanes[usize::from(cpu)] = lane;
    }
}
