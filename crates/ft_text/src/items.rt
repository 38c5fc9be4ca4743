//! What stands in pieces: words, names, numbers.

ghost use Rattle.std.specs.Prelude.{◌≡◌, ◌≤◌, IfSome};
ghost use Rattle.std.specs.Option.{option_copied};
ghost use Rattle.ft_text.specs.Items.{word_of, word_with, number_in, is_name, is_word, same_word};

use crate::digits::number_within;
use crate::same::is_same;
use crate::words::name_at;
use std::marker::Model;

/// A word as it stands: a name, and what is in front of it and after it.
///
/// Contracts see the same with its texts as lists of bytes.
#[derive(Drop)]
pub struct Word<'a> {
    dollar: bool,
    name: &'a [u8],
    suffix: Option<&'a [u8]>,
}

impl<'a> Model for Word<'a> {
    ghost use Rattle.std.specs.Option.{option_copied};
    ghost use Rattle.ft_text.specs.Items.{Word};

    ghost Value = { Word };

    ghost view = { λ w. record {
      dollar = w.dollar;
      name = w.name.now;
      suffix = option_copied w.suffix;
    } };
}

impl<'a> Word<'a> {
    /// Whether a `$` stands in front of the name.
    pub fn dollar(&self) -> bool
        ensures { result ≡ self.now.dollar }
    {
        self.dollar
    }

    /// The name.
    pub fn name(&self) -> &'a [u8]
        ensures { result.now ≡ self.now.name }
    {
        self.name
    }

    /// What is after the `.`, if one stands after the name.
    pub fn suffix(&self) -> Option<&'a [u8]>
        ensures { option_copied result ≡ self.now.suffix }
    {
        self.suffix
    }

    /// Whether it is this name, without a `$`.
    pub fn is(&self, name: &[u8]) -> bool
        ensures { result ≡ is_word self.now name.now }
    {
        !self.dollar && is_same(self.name, name)
    }

    /// Whether it has the name of another, both with a `$` or both without one.
    pub fn is_same(&self, other: &Word<'_>) -> bool
        ensures { result ≡ same_word self.now other.now }
    {
        is_same(self.name, other.name) && self.dollar == other.dollar
    }
}

/// The word that a text is, if it has the form.
#[tactic(auto, unfolding(crate::specs::Items::word_of))]
pub fn word_of(item: &[u8]) -> Option<Word<'_>>
    ensures { result ≡ word_of item.now }
{
    match item.strip_prefix(b"$") {
        Some(name) => word_with(true, name),
        None => word_with(false, item),
    }
}

/// The word of a text after its `$`, or without one.
#[tactic(auto, unfolding(crate::specs::Items::word_with))]
fn word_with(dollar: bool, text: &[u8]) -> Option<Word<'_>>
    ensures { result ≡ word_with dollar text.now }
{
    let (name, behind) = name_at(text)?;
    match behind.split_first() {
        None => Some(Word {
            dollar,
            name,
            suffix: None,
        }),
        Some((b'.', suffix)) if !suffix.is_empty() => Some(Word {
            dollar,
            name,
            suffix: Some(suffix),
        }),
        Some(_) => None,
    }
}

/// Whether the text is a name and nothing else.
pub fn is_name(text: &[u8]) -> bool
    ensures { result ≡ is_name text.now }
{
    match name_at(text) {
        Some((_, behind)) => behind.is_empty(),
        None => false,
    }
}

/// The number that decimal digits write, if it is from the least to the greatest.
#[tactic(auto, unfolding(crate::specs::Items::number_in, crate::specs::Digits::number_within))]
pub fn number_in(text: &[u8], least: u32, most: u32) -> Option<u32>
    ensures value { result ≡ number_in least most text.now }
    ensures within { IfSome result (λ number. (least ≤ number) × (number ≤ most)) }
{
    if text.is_empty() {
        return None;
    }
    let number = number_within(text, most)?;
    if number < least {
        return None;
    }
    Some(number)
}
