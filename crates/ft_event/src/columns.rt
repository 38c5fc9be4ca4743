//! The columns of a line, before the event's own text.

ghost use Rattle.std.specs.Prelude.{◌≡◌, ◌≤◌, IfSome};
ghost use Rattle.std.specs.Option.{option_map, option_copied};
ghost use Rattle.ft_event.specs.Columns.{behind_group, tail_of, head_of};
ghost use Rattle.ft_event.specs.Columns.{stamp_word_of, micros_of, stamp_of};
ghost use Rattle.ft_event.specs.inner.Texts.{tail_texts, head_texts};
ghost use Rattle.ft_fields.specs.Traced.{last_stamp};

use crate::scan::{Class, behind, number, run, without_spaces, word};

/// What stands after TASK and its `-`.
#[derive(Clone, Copy)]
pub(crate) struct Tail<'a> {
    /// The digits of PID.
    pub(crate) pid: &'a [u8],
    /// The digits of CPU.
    pub(crate) cpu: &'a [u8],
    /// What stands after `] `.
    pub(crate) rest: &'a [u8],
}

/// TASK, and what stands after it.
#[derive(Clone, Copy)]
pub(crate) struct Head<'a> {
    /// TASK, of any length.
    pub(crate) task: &'a [u8],
    /// What stands after its `-`.
    pub(crate) tail: Tail<'a>,
}

/// What stands after GROUP and its spaces: `(`, any spaces, digits or `-`, `)`, spaces.
#[tactic(auto, unfolding(crate::specs::Columns::behind_group))]
fn behind_group(text: &[u8]) -> Option<&[u8]>
    ensures { option_copied result ≡ behind_group text.now }
{
    let rest = behind(b"(", text)?;
    let (_, rest) = run(without_spaces(rest), Class::Group)?;
    let rest = behind(b")", rest)?;
    let (_, rest) = run(rest, Class::Space)?;
    Some(rest)
}

/// PID, spaces, perhaps GROUP, `[`, CPU, `]`, a space, and the rest.
#[tactic(auto, unfolding(crate::specs::Columns::tail_of))]
// Not inlined, so that the search for a `-` keeps its registers.
#[inline(never)]
fn tail_of(text: &[u8]) -> Option<Tail<'_>>
    ensures { option_map tail_texts result ≡ tail_of text.now }
{
    let (pid, rest) = run(text, Class::Digit)?;
    let (_, rest) = run(rest, Class::Space)?;
    let rest = behind_group(rest).unwrap_or(rest);
    let rest = behind(b"[", rest)?;
    let (cpu, rest) = run(rest, Class::Digit)?;
    let rest = behind(b"] ", rest)?;
    Some(Tail { pid, cpu, rest })
}

/// The head that ends at the first `-` with a tail.
pub(crate) fn head_of(text: &[u8]) -> Option<Head<'_>>
    ensures { option_map head_texts result ≡ head_of text.now }
{
    for (at, byte) in text.iter().enumerate() {
        if *byte == b'-' {
            if let Some(tail) = tail_of(&text[at + 1..]) {
                return Some(Head {
                    task: &text[..at],
                    tail,
                });
            }
        }
    }
    None
}

/// The word that is STAMP, and what stands after it: the first word if it holds a `:`, else the
/// one after LETTERS of at most 16 bytes.
#[tactic(auto, unfolding(crate::specs::Columns::stamp_word_of))]
fn stamp_word_of(text: &[u8]) -> Option<(&[u8], &[u8])>
    ensures { option_map (λ x. (x.0.now, x.1.now)) result ≡ stamp_word_of text.now }
{
    let (first, rest) = word(without_spaces(text));
    if first.contains(&b':') {
        return Some((first, rest));
    }
    if first.len() > 16 {
        return None;
    }
    Some(word(without_spaces(rest)))
}

/// The microseconds that STAMP says: SECONDS of up to ten digits, `.`, six digits, `:`.
fn micros_of(word: &[u8]) -> Option<u64>
    ensures value { result ≡ micros_of word.now }
    ensures within { IfSome result (λ micros. micros ≤ last_stamp) }
{
    // The six digits and what is round them stand at the word's end, so no digit is looked for.
    let len = word.len();
    if len < 9 {
        return None;
    }
    if len > 18 {
        return None;
    }
    let point = len - 8;
    if word[point] != b'.' {
        return None;
    }
    if word[len - 1] != b':' {
        return None;
    }
    let whole = number(&word[..point], u32::MAX)?;
    let part = number(&word[point + 1..len - 1], 999_999)?;
    Some(whole * 1_000_000 + part)
}

/// The event's stamp in microseconds, and what stands after STAMP.
#[tactic(auto, unfolding(crate::specs::Columns::stamp_of))]
pub(crate) fn stamp_of(text: &[u8]) -> Option<(u64, &[u8])>
    ensures value { option_map (λ x. (x.0, x.1.now)) result ≡ stamp_of text.now }
    ensures within { IfSome result (λ x. x.0 ≤ last_stamp) }
{
    let (word, rest) = stamp_word_of(text)?;
    let micros = micros_of(word)?;
    Some((micros, rest))
}
