//! Why calls are refused, as a script says it and in words. These need no desk.

ghost use Rattle.std.specs.Prelude.{◌≡◌, ◌⊎◌, None};
ghost use Rattle.ft_layout.specs.Refusals.{refusal_in};
ghost use Rattle.ft_layout.specs.Words.{refusal_text};
ghost use Rattle.ft_c.specs.Copies.{IsCopied, AreWordsCopied};

use ft_layout::{RefusalLayout, copy_bytes, refusal_text, refusal_words};
use std::alloc::Global;

/// Copies what a script's run prints of a refusal, without its line break: how many bytes; 0 if the
/// numbers are of no refusal, or memory ran out.
#[unsafe(no_mangle)]
pub extern "C" fn histdesk_refusal_text(
    alloc: Global,
    refusal: &RefusalLayout,
    to: &mut [u8],
) -> usize
    ensures { IsCopied (λ byte. byte) (refusal_text refusal.now) 0 to.old result to.new
        ⊎ ((result ≡ 0) × (to.new ≡ to.old)) }
{
    match refusal_text(alloc, refusal) {
        Ok(text) => copy_bytes(text.as_slice(), 0, to),
        Err(_) => 0,
    }
}

/// Copies what a refusal means, in words: how many bytes; 0 if the numbers are of no refusal, or
/// memory ran out.
#[unsafe(no_mangle)]
pub extern "C" fn histdesk_refusal_words(
    alloc: Global,
    refusal: &RefusalLayout,
    to: &mut [u8],
) -> usize
    ensures part { AreWordsCopied to.old result to.new }
    ensures of_none { refusal_in refusal.now ≡ None → (result ≡ 0) × (to.new ≡ to.old) }
{
    match refusal_words(alloc, refusal) {
        Ok(words) => copy_bytes(words.as_slice(), 0, to),
        Err(_) => 0,
    }
}
