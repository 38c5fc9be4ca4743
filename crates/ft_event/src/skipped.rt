//! Lines that hold no event.

ghost use Rattle.std.specs.Prelude.{◌≡◌};
ghost use Rattle.std.specs.Option.{option_copied};
ghost use Rattle.ft_event.specs.Skipped.{behind_count, behind_lost, is_at_end, is_skipped};
ghost use Rattle.ft_event.specs.Spans.{without_spaces};

use crate::scan::{Class, behind, front_len, run};

/// What stands after digits and a space.
#[tactic(auto, unfolding(crate::specs::Skipped::behind_count))]
fn behind_count(text: &[u8]) -> Option<&[u8]>
    ensures { option_copied result ≡ behind_count text.now }
{
    let (_, rest) = run(text, Class::Digit)?;
    behind(b" ", rest)
}

/// What stands after `CPU:`, digits, ` [LOST `, perhaps a count, `EVENTS]`.
#[tactic(auto, unfolding(crate::specs::Skipped::behind_lost))]
fn behind_lost(line: &[u8]) -> Option<&[u8]>
    ensures { option_copied result ≡ behind_lost line.now }
{
    let rest = behind(b"CPU:", line)?;
    let (_, rest) = run(rest, Class::Digit)?;
    let rest = behind(b" [LOST ", rest)?;
    behind(b"EVENTS]", behind_count(rest).unwrap_or(rest))
}

/// Whether the line says that a CPU's events were lost, since its buffer was full.
fn is_lost(line: &[u8]) -> bool
    ensures { result ≡ is_at_end (behind_lost line.now) }
{
    match behind_lost(line) {
        Some(rest) => rest.is_empty(),
        None => false,
    }
}

/// Whether the line, which is this text after its spaces, is blank, a comment of the header, or
/// says that events were lost.
#[tactic(auto, unfolding(crate::specs::Skipped::is_skipped), using(crate::proofs::Skips::blank_behind))]
pub(crate) fn is_skipped(line: &[u8], text: &[u8]) -> bool
    requires { text.now ≡ without_spaces line.now }
    ensures { result ≡ is_skipped line.now }
{
    front_len(text, Class::Blank) == text.len() || line[0] == b'#' || is_lost(line)
}
