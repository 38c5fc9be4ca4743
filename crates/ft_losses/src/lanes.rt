//! What is kept of each CPU.

ghost use Rattle.std.specs.Prelude.{◌≡◌, ◌≤◌, ◌==◌, ℕ, IfOk, vec_len, if◌then◌else◌};
ghost use Rattle.ft_fields.specs.Traced.{last_cpu};
ghost use Rattle.ft_losses.specs.inner.Lanes.{no_lane, lane_in};

use crate::hole::Loss;
use std::alloc::{AllocError, Global};

/// How many CPUs there can be.
pub(crate) const CPUS: u16 = 8192;

/// What is kept of a CPU.
#[derive(Clone, Copy)]
pub(crate) struct Lane {
    /// The stamp of its first event.
    pub(crate) first: Option<u64>,
    /// The stamp of its last event.
    pub(crate) last: Option<u64>,
    /// What it lost since then.
    pub(crate) lost: Option<Loss>,
    /// How many of its events were overwritten before the first one.
    pub(crate) overwritten: Option<u64>,
}

impl Lane {
    /// Nothing is known of the CPU.
    fn none() -> Lane
        ensures { result ≡ no_lane }
    {
        Lane {
            first: None,
            last: None,
            lost: None,
            overwritten: None,
        }
    }
}

/// Nothing is known of any CPU.
pub(crate) fn no_lanes(alloc: Global) -> Result<Vec<Lane>, AllocError>
    ensures len { IfOk result (λ lanes. vec_len lanes ≡ 8192) }
    ensures none { IfOk result (λ lanes. (cpu : ℕ) → lane_in lanes.items cpu ≡ no_lane) }
{
    let mut lanes = Vec::new(alloc);
    lanes.resize(usize::from(CPUS), Lane::none())?;
    Ok(lanes)
}

/// What is kept of a CPU.
#[inline(always)]
pub(crate) fn lane_of(lanes: &[Lane], cpu: u16) -> Lane
    ensures { result ≡ lane_in lanes.now cpu }
{
    match lanes.get(usize::from(cpu)) {
        Some(lane) => *lane,
        None => Lane::none(),
    }
}

/// Changes what is kept of a CPU, if there can be such a CPU.
#[inline(always)]
pub(crate) fn put_lane(lanes: &mut Vec<Lane>, cpu: u16, lane: Lane)
    requires { vec_len lanes.old ≡ 8192 }
    ensures len { vec_len lanes.new ≡ 8192 }
    ensures at { (other : ℕ) → other ≤ last_cpu → lane_in lanes.new.items other
        ≡ if cpu == other then lane else lane_in lanes.old.items other }
{
    if cpu < CPUS {
        lanes[usize::from(cpu)] = lane;
    }
}
