//! Cuts of a line from the left: what stands at a place, and the place after it.
//!
//! A line stays one slice and places in it are numbers, so that few registers hold all that a loop needs.

ghost use Rattle.std.specs.Prelude.{◌≡◌, ◌≤◌, ◌<◌, ◌+◌, ◌-◌, ◌++◌, length, take, drop, IfSome};
ghost use Rattle.ft_quick.specs.inner.Cuts.{IsNumbered, IsSigned, IsUntil};

use crate::marks::{digits_end, near};
use crate::numbers::number_of;
use crate::same::is_same;
use memchr::memchr;

/// The place after a label that stands here.
#[inline(always)]
pub(crate) fn behind<const N: usize>(label: &[u8; N], line: &[u8], at: usize) -> Option<usize>
    requires { at ≤ length line.now }
    ensures cut { IfSome result (λ next. drop at line.now ≡ label.now ++ drop next line.now) }
    ensures within { IfSome result (λ next. next ≤ length line.now) }
{
    let (front, _) = line[at..].split_first_chunk::<N>()?;
    if is_same(front, label) {
        Some(at + N)
    } else {
        None
    }
}

/// What is before a label that the text ends with.
#[inline(always)]
pub(crate) fn before<'a, const N: usize>(label: &[u8; N], text: &'a [u8]) -> Option<&'a [u8]>
    ensures { IfSome result (λ front. text.now ≡ front.now ++ label.now) }
{
    let (front, last) = text.split_last_chunk::<N>()?;
    if is_same(last, label) {
        Some(front)
    } else {
        None
    }
}

/// The number that stands here, of one to nine digits, and the place after it, byte by byte.
#[inline(always)]
fn number_by_bytes(line: &[u8], from: usize) -> Option<(u32, usize)>
    requires { from ≤ length line.now }
    ensures number { IfSome result (λ x. IsNumbered (drop from line.now) x.0 (drop x.1 line.now)) }
    ensures behind { IfSome result (λ x. from ≤ x.1) }
    ensures within { IfSome result (λ x. x.1 ≤ length line.now) }
{
    let mut number: u32 = 0;
    let stop = line.len().min(from + 9);
    for at in from..stop {
        if !line[at].is_ascii_digit() {
            if at == from {
                return None;
            }
            return Some((number, at));
        }
        number = number * 10 + u32::from(line[at] - b'0');
    }
    if from == stop {
        return None;
    }
    Some((number, stop))
}

/// The number that stands here, of one to seven digits, and the place after it, if this is not near
/// the line's end.
#[inline(always)]
fn number_at_once(line: &[u8], from: usize) -> Option<(u32, usize)>
    requires { from ≤ length line.now }
    ensures number { IfSome result (λ x. IsNumbered (drop from line.now) x.0 (drop x.1 line.now)) }
    ensures within { IfSome result (λ x. x.1 ≤ length line.now) }
{
    let end = digits_end(line, from)?;
    let number = number_of(line, from, end)?;
    Some((number, end))
}

/// The number that stands here, of one to nine digits, and the place after it.
#[inline(always)]
pub(crate) fn number(line: &[u8], from: usize) -> Option<(u32, usize)>
    requires { from ≤ length line.now }
    ensures number { IfSome result (λ x. IsNumbered (drop from line.now) x.0 (drop x.1 line.now)) }
    ensures within { IfSome result (λ x. x.1 ≤ length line.now) }
{
    match number_at_once(line, from) {
        Some(found) => Some(found),
        None => number_by_bytes(line, from),
    }
}

/// The number that stands here, perhaps a `-` and one to nine digits, and the place after it.
#[inline(always)]
pub(crate) fn signed(line: &[u8], at: usize) -> Option<(i32, usize)>
    requires { at ≤ length line.now }
    ensures signed { IfSome result (λ x. IsSigned (drop at line.now) x.0 (drop x.1 line.now)) }
    ensures within { IfSome result (λ x. x.1 ≤ length line.now) }
{
    match behind(b"-", line, at) {
        Some(digits) => {
            let (number, next) = number(line, digits)?;
            Some((-(number as i32), next))
        }
        None => {
            let (number, next) = number(line, at)?;
            Some((number as i32, next))
        }
    }
}

/// The place of the first byte of this value, from here on.
#[inline(always)]
pub(crate) fn until(byte: u8, line: &[u8], at: usize) -> Option<usize>
    requires { at ≤ length line.now }
    ensures until { IfSome result (λ end.
        IsUntil byte (drop at line.now) (take (end - at) (drop at line.now)) (drop (end + 1) line.now)) }
    ensures behind { IfSome result (λ end. at ≤ end) }
    ensures within { IfSome result (λ end. end < length line.now) }
{
    match near(byte, line, at) {
        Some(end) => Some(end),
        None => {
            let len = memchr(byte, &line[at..])?;
            Some(at + len)
        }
    }
}
