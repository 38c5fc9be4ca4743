//! Latencies of what readings found.

ghost use Rattle.std.specs.Prelude.{◌≡◌, IfOk, map as list_map};
ghost use Rattle.ft_answers.specs.Answers.{latency_of, line_at};

use ft_base::{Latency, Place};
use ft_fields::Pos;
use ft_replay::Pair;
use std::alloc::{AllocError, Global};

/// What readings found, as latencies, in the same order. Refused for memory.
pub fn latencies_of(alloc: Global, pairs: &[Pair]) -> Result<Vec<Latency>, AllocError>
    ensures { IfOk result (λ latencies. latencies.items ≡ list_map latency_of pairs.now) }
{
    pairs.iter().map(|pair| latency_of(*pair)).collect(alloc)
}

/// A pair as a latency.
pub fn latency_of(pair: Pair) -> Latency
    ensures { result ≡ latency_of pair }
{
    Latency {
        saved: line_at(pair.saved),
        read: line_at(pair.read),
        micros: pair.read.stamp.saturating_sub(pair.saved.stamp),
    }
}

/// The line that stands at a place in the merged order.
fn line_at(pos: Pos) -> Place
    ensures { result ≡ line_at pos }
{
    Place {
        cpu: pos.cpu,
        line: pos.line,
    }
}
