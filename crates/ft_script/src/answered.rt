//! The lines of answers.

ghost use Rattle.std.specs.Prelude.{◌≡◌, ℕ, List, ◌++◌, IfOk, OnOk};
ghost use Rattle.ft_table.specs.declared.row.Totals.{Totals};
ghost use Rattle.ft_base.specs.declared.latency.Latency.{Latency};
ghost use Rattle.ft_script.specs.Answered.{totals_line, latency_line, latency_lines};

use crate::numbers::{add, add_numbered};
use ft_base::Latency;
use ft_table::Totals;
use std::alloc::{AllocError, Global};

/// What an answer gives, as its lines show it.
pub trait Answer {
    ghost use Rattle.std.specs.Prelude.{◌≡◌, ℕ, List, IfOk};

    /// What contracts see of it.
    ghost Seen: { Type 0 };

    /// It, as contracts see it.
    ghost seen: { Self → Seen };

    /// The lines that show it.
    ghost shown: { Seen → List ℕ };

    /// The text of its lines.
    fn into_lines(self, alloc: Global) -> Result<Vec<u8>, AllocError>
        ensures { IfOk result (λ text. text.items ≡ shown (seen self)) };
}

impl Answer for Vec<u8> {
    ghost Seen = { List ℕ };

    ghost seen = { λ text. text.items };

    ghost shown = { λ text. text };

    fn into_lines(self, _alloc: Global) -> Result<Vec<u8>, AllocError> {
        Ok(self)
    }
}

impl Answer for Totals {
    ghost Seen = { Totals };

    ghost seen = { λ totals. totals };

    ghost shown = { totals_line };

    fn into_lines(self, alloc: Global) -> Result<Vec<u8>, AllocError> {
        totals_line(alloc, self)
    }
}

impl Answer for Vec<Latency> {
    ghost Seen = { List Latency };

    ghost seen = { λ latencies. latencies.items };

    ghost shown = { latency_lines };

    fn into_lines(self, alloc: Global) -> Result<Vec<u8>, AllocError> {
        latency_lines(alloc, &self)
    }
}

/// The line of a trigger's totals.
#[tactic(auto, unfolding(crate::specs::Answered::totals_line))]
fn totals_line(alloc: Global, totals: Totals) -> Result<Vec<u8>, AllocError>
    ensures { IfOk result (λ line. line.items ≡ totals_line totals) }
{
    let mut line = Vec::new(alloc);
    add(&mut line, b"hits ", totals.hits)?;
    add(&mut line, b" entries ", totals.entries)?;
    add(&mut line, b" dropped ", totals.dropped)?;
    line.extend_from_slice(b"\n")?;
    Ok(line)
}

/// The lines of a trigger's latencies, and a last line with their count.
fn latency_lines(alloc: Global, latencies: &[Latency]) -> Result<Vec<u8>, AllocError>
    ensures { IfOk result (λ lines. lines.items ≡ latency_lines latencies.now) }
{
    let mut lines = Vec::new(alloc);
    for latency in latencies {
        add_latency(&mut lines, *latency)?;
    }
    add(&mut lines, b"Latencies: ", latencies.len() as u64)?;
    lines.extend_from_slice(b"\n")?;
    Ok(lines)
}

/// Adds the line of a latency.
#[tactic(auto, unfolding(crate::specs::Answered::latency_line))]
fn add_latency(lines: &mut Vec<u8>, latency: Latency) -> Result<(), AllocError>
    ensures { OnOk result (lines.new.items ≡ lines.old.items ++ latency_line latency) }
{
    add_numbered(lines, latency.saved)?;
    lines.extend_from_slice(b" -> ")?;
    add_numbered(lines, latency.read)?;
    add(lines, b": ", latency.micros)?;
    lines.extend_from_slice(b" us\n")
}
