//! Numbers, of 64 bits with a sign or farther from 0.

ghost use Rattle.std.specs.Prelude.{◌≡◌, ◌<◌, ◌≤◌, length, Some, IsTrue, ◌==◌, ◌&&◌, ℕ, pos, neg_ℤ};
ghost use Rattle.std.specs.Option.{option_map};
ghost use Rattle.std.specs.List.{list_all};
ghost use Rattle.std.specs.Char.{is_ascii_hexdigit, digit_value};
ghost use Rattle.std.specs.Str.Parse.{digits_value};
ghost use Rattle.ft_text.specs.Ranged.{ranged, ranged_at};
ghost use Rattle.ft_text.specs.Tokens.{number_at, number_of, is_decimal, is_hexadecimal, word_len};
ghost use Rattle.ft_text.specs.inner.Words.{within_reach};

use crate::digits::are_digits;
use crate::words::{Class, front_len};

/// How far from 0 a number may be: below it by this, above it by one less.
const FARTHEST: u64 = 1 << 63;

/// A number that a text writes.
#[derive(Clone, Copy, Debug, PartialEq, Eq)]
pub enum Number {
    /// One of 64 bits with a sign.
    InRange(i64),
    /// Any other.
    OutOfRange,
}

/// How many bytes are read as a number: a `-`, if one stands there, and the longest run of letters,
/// digits and `_`.
fn word_len(text: &[u8]) -> usize
    ensures value { result ≡ word_len text.now }
    ensures within { result ≤ length text.now }
{
    match text.split_first() {
        Some((b'-', behind)) => 1 + front_len(behind, Class::Name),
        _ => front_len(text, Class::Name),
    }
}

/// The number that the text begins with, and what is after it.
#[tactic(auto, unfolding(crate::specs::Tokens::number_at))]
pub fn number_at(text: &[u8]) -> Option<(Number, &[u8])>
    ensures { option_map (λ x. (x.0, x.1.now)) result
        ≡ ranged_at (number_at text.now) }
{
    let (word, rest) = text.split_at(word_len(text));
    match number_of(word) {
        Some(number) => Some((number, rest)),
        None => None,
    }
}

/// The number that a word writes, if it has one of the forms.
#[tactic(auto, unfolding(crate::specs::Tokens::number_of))]
fn number_of(word: &[u8]) -> Option<Number>
    ensures { result ≡ option_map ranged (number_of word.now) }
{
    if is_decimal(word) {
        return Some(above_zero(magnitude(word, 10)));
    }
    if let Some(digits) = word.strip_prefix(b"-") {
        if is_decimal(digits) {
            return Some(below_zero(magnitude(digits, 10)));
        }
    }
    if let Some(digits) = word.strip_prefix(b"0x") {
        if is_hexadecimal(digits) {
            return Some(above_zero(magnitude(digits, 16)));
        }
    }
    None
}

/// Whether the word is decimal digits, with no zero in front of others.
fn is_decimal(word: &[u8]) -> bool
    ensures { result ≡ is_decimal word.now }
{
    !word.is_empty() && are_digits(word) && (word.first() != Some(&b'0') || word.len() == 1)
}

/// Whether the word is one or more hexadecimal digits.
fn is_hexadecimal(word: &[u8]) -> bool
    ensures { result ≡ is_hexadecimal word.now }
{
    !word.is_empty() && are_hex_digits(word)
}

/// Whether all bytes are hexadecimal digits.
fn are_hex_digits(word: &[u8]) -> bool
    ensures { result ≡ list_all is_ascii_hexdigit word.now }
{
    word.iter().all(|byte| byte.is_ascii_hexdigit())
}

/// The number that digits write, or `None` if it is farther from 0 than a number may be.
fn magnitude(digits: &[u8], radix: u32) -> Option<u64>
    requires radix { (1 ≤ radix) × (radix ≤ 16) }
    requires digits { IsTrue (list_all is_ascii_hexdigit digits.now) }
    ensures { result ≡ within_reach (digits_value radix digits.now) }
{
    let mut number: u128 = 0;
    for byte in digits {
        number = number * u128::from(radix) + u128::from(digit(*byte));
        if number > u128::from(FARTHEST) {
            return None;
        }
    }
    Some(number as u64)
}

/// What a digit stands for.
fn digit(byte: u8) -> u8
    requires { IsTrue (is_ascii_hexdigit byte) }
    ensures { result ≡ digit_value byte }
{
    if byte <= b'9' {
        byte - b'0'
    } else {
        byte.to_ascii_lowercase() - b'a' + 10
    }
}

/// The number so far above 0.
fn above_zero(magnitude: Option<u64>) -> Number
    ensures { (n : ℕ) → magnitude ≡ within_reach n → result ≡ ranged (pos n) }
{
    match magnitude {
        Some(number) if number < FARTHEST => Number::InRange(number as i64),
        _ => Number::OutOfRange,
    }
}

/// The number so far below 0.
fn below_zero(magnitude: Option<u64>) -> Number
    ensures { (n : ℕ) → magnitude ≡ within_reach n → result ≡ ranged (neg_ℤ (pos n)) }
{
    match magnitude {
        Some(number) if number < FARTHEST => Number::InRange(-(number as i64)),
        Some(_) => Number::InRange(i64::MIN),
        None => Number::OutOfRange,
    }
}
