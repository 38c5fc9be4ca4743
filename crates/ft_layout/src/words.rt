//! Refusals as texts.

ghost use Rattle.std.specs.Prelude.{◌≡◌, ◌-◌, [], None, length, take, IfOk};
ghost use Rattle.ft_layout.specs.Refusals.{refusal_in};
ghost use Rattle.ft_layout.specs.Words.{refusal_text};

use crate::refusals::{RefusalLayout, refusal_in};
use ft_script::refused_line;
use std::alloc::{AllocError, Global};

/// The text that a script's run prints of the refusal, without its line break; empty if the numbers
/// are of no refusal.
pub fn refusal_text(alloc: Global, layout: &RefusalLayout) -> Result<Vec<u8>, AllocError>
    ensures { IfOk result (λ text. text.items ≡ refusal_text layout.now) }
{
    match refusal_in(layout) {
        Some(refused) => Ok(without_last(refused_line(alloc, refused)?)),
        None => Ok(Vec::new(alloc)),
    }
}

/// A text without its last byte.
fn without_last(mut text: Vec<u8>) -> Vec<u8>
    ensures { result.items ≡ take (length text.items - 1) text.items }
{
    text.truncate(text.len().saturating_sub(1));
    text
}

/// What the refusal means, in words; empty if the numbers are of no refusal.
pub fn refusal_words(alloc: Global, layout: &RefusalLayout) -> Result<Vec<u8>, AllocError>
    ensures { refusal_in layout.now ≡ None → IfOk result (λ words. words.items ≡ []) }
{
    match refusal_in(layout) {
        Some(refused) => Ok(format!(in alloc; "{refused}")?.into_bytes()),
        None => Ok(Vec::new(alloc)),
    }
}
