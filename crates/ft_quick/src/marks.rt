//! Which of a line's first 64 bytes are of a kind, all found at once: bit k is for byte k.

ghost use Rattle.std.specs.Prelude.{◌≡◌, ◌==◌, ◌≤◌, ◌<◌, ◌+◌, ◌-◌, ℕ, if◌then◌else◌, true, length, slice_index, take, drop, IfSome};
ghost use Rattle.std.specs.Int.{bit_at};
ghost use Rattle.ft_event.specs.Bytes.{is_digit};
ghost use Rattle.ft_quick.specs.inner.Cuts.{IsUntil};
ghost use Rattle.ft_quick.specs.inner.Marks.{IsFirst, IsMarks, IsNextMark, IsNextOther, IsNextPair};

use std::simd::prelude::*;

/// The bytes of a line that has fewer than 64, and zeros after them.
#[inline(never)]
fn padded(line: &[u8]) -> u8x64
    requires { length line.now < 64 }
    ensures { IsFirst line.now result }
{
    let mut bytes = [0; 64];
    bytes[..line.len()].copy_from_slice(line);
    u8x64::from_slice(&bytes)
}

/// A line's first 64 bytes, with zeros after them if it has fewer.
#[inline(always)]
pub(crate) fn first_bytes(line: &[u8]) -> u8x64
    ensures { IsFirst line.now result }
{
    if line.len() < 64 {
        return padded(line);
    }
    u8x64::from_slice(line)
}

/// The places where this byte stands.
#[inline(always)]
pub(crate) fn places_of(byte: u8, bytes: u8x64) -> u64
    ensures { IsMarks (λ k. slice_index bytes k == byte) result }
{
    bytes.simd_eq(u8x64::splat(byte)).to_bitmask()
}

/// The places of digits.
#[inline(always)]
pub(crate) fn digits_of(bytes: u8x64) -> u64
    ensures { IsMarks (λ k. is_digit (slice_index bytes k)) result }
{
    (bytes - u8x64::splat(b'0'))
        .simd_lt(u8x64::splat(10))
        .to_bitmask()
}

/// The 32 bytes that stand here.
#[inline(always)]
fn bytes_at(line: &[u8], at: usize) -> u8x32
    requires { at + 32 ≤ length line.now }
    ensures { result ≡ take 32 (drop at line.now) }
{
    u8x32::from_slice(&line[at..])
}

/// The places in 32 bytes where this byte stands.
#[inline(always)]
fn near_places(byte: u8, bytes: u8x32) -> u64
    ensures marks { (k : ℕ) → k < 32 → bit_at result k ≡ if slice_index bytes k == byte then 1 else 0 }
    ensures few { result < 4294967296 }
{
    bytes.simd_eq(u8x32::splat(byte)).to_bitmask()
}

/// The place of the first byte of this value among the 32 that stand here.
#[inline(always)]
pub(crate) fn near(byte: u8, line: &[u8], at: usize) -> Option<usize>
    requires { at ≤ length line.now }
    ensures until { IfSome result (λ end.
        IsUntil byte (drop at line.now) (take (end - at) (drop at line.now)) (drop (end + 1) line.now)) }
    ensures behind { IfSome result (λ end. at ≤ end) }
    ensures within { IfSome result (λ end. end < length line.now) }
{
    if line.len() - at < 32 {
        return None;
    }
    let places = near_places(byte, bytes_at(line, at));
    let len = next(places, 0)?;
    Some(at + len)
}

/// The eight bytes that stand here.
#[inline(always)]
fn eight_at(line: &[u8], at: usize) -> u8x8
    requires { at + 8 ≤ length line.now }
    ensures { result ≡ take 8 (drop at line.now) }
{
    u8x8::from_slice(&line[at..])
}

/// The places of digits in eight bytes.
#[inline(always)]
fn near_digits(bytes: u8x8) -> u64
    ensures { (k : ℕ) → k < 8 → bit_at result k ≡ if is_digit (slice_index bytes k) then 1 else 0 }
{
    (bytes - u8x8::splat(b'0'))
        .simd_lt(u8x8::splat(10))
        .to_bitmask()
}

/// Where the digits that stand here end, of which there are at most seven.
#[inline(always)]
pub(crate) fn digits_end(line: &[u8], at: usize) -> Option<usize>
    requires { at ≤ length line.now }
    ensures digits { IfSome result (λ end.
        (k : ℕ) → at ≤ k → k < end → is_digit (slice_index line.now k) ≡ true) }
    ensures behind { IfSome result (λ end. at ≤ end) }
    ensures within { IfSome result (λ end. end ≤ length line.now) }
{
    if line.len() - at < 8 {
        return None;
    }
    let places = near_digits(eight_at(line, at));
    let len = next_other(places, 0)?;
    if len > 7 {
        return None;
    }
    Some(at + len)
}

/// The next place from here on that is marked.
#[inline(always)]
pub(crate) fn next(marks: u64, from: usize) -> Option<usize>
    ensures { IfSome result (IsNextMark marks from) }
{
    if from > 63 {
        return None;
    }
    let left = marks >> from;
    if left == 0 {
        return None;
    }
    Some(from + left.trailing_zeros() as usize)
}

/// The next place from here on that is not marked.
#[inline(always)]
pub(crate) fn next_other(marks: u64, from: usize) -> Option<usize>
    ensures { IfSome result (IsNextOther marks from) }
{
    let at = next(!marks, from)?;
    Some(at)
}

/// The next place from here on that is marked as a first one, with the one after it as a second.
#[inline(always)]
pub(crate) fn next_pair(firsts: u64, seconds: u64, from: usize) -> Option<usize>
    ensures { IfSome result (IsNextPair firsts seconds from) }
{
    let at = next(firsts & (seconds >> 1), from)?;
    Some(at)
}
