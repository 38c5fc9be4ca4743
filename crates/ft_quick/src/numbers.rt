//! Numbers that digits from one place of a line to another write.

ghost use Rattle.std.specs.Prelude.{◌≡◌, ◌≤◌, ◌<◌, ℕ, true, length, slice_index, drop, IfSome};
ghost use Rattle.ft_event.specs.Bytes.{is_digit};
ghost use Rattle.ft_quick.specs.inner.Cuts.{IsNumbered};

/// Eight times `0`.
const ZEROS: u64 = 0x3030_3030_3030_3030;

/// Bytes 0 and 4 of a word.
const BYTES: u64 = 0x0000_00ff_0000_00ff;

/// The number that one to eight digits write, all read at once, if eight bytes or more stand there.
#[inline(always)]
fn at_once(line: &[u8], from: usize, end: usize) -> Option<u32>
    requires some { from < end }
    requires within { end ≤ length line.now }
    requires digits { (k : ℕ) → from ≤ k → k < end → is_digit (slice_index line.now k) ≡ true }
    ensures { IfSome result (λ n. IsNumbered (drop from line.now) n (drop end line.now)) }
{
    let count = end - from;
    if count > 8 {
        return None;
    }
    let (bytes, _) = line[from..].split_first_chunk::<8>()?;
    // The digits' values, moved up to the word's end: the bytes after the digits fall out.
    let values = u64::from_le_bytes(*bytes).wrapping_sub(ZEROS) << (64 - 8 * count);
    // Pairs of digits in every other byte, which two products sum up.
    let pairs = values.wrapping_mul(10).wrapping_add(values >> 8);
    let first = (pairs & BYTES).wrapping_mul(100 + (1_000_000 << 32));
    let second = ((pairs >> 16) & BYTES).wrapping_mul(1 + (10_000 << 32));
    Some((first.wrapping_add(second) >> 32) as u32)
}

/// The number that one to nine digits write, read one by one.
fn one_by_one(line: &[u8], from: usize, end: usize) -> Option<u32>
    requires some { from < end }
    requires within { end ≤ length line.now }
    requires digits { (k : ℕ) → from ≤ k → k < end → is_digit (slice_index line.now k) ≡ true }
    ensures { IfSome result (λ n. IsNumbered (drop from line.now) n (drop end line.now)) }
{
    if end - from > 9 {
        return None;
    }
    let mut number: u32 = 0;
    for at in from..end {
        number = number * 10 + u32::from(line[at] - b'0');
    }
    Some(number)
}

/// The number that these digits write, if there are one to nine of them.
#[inline(always)]
pub(crate) fn number_of(line: &[u8], from: usize, end: usize) -> Option<u32>
    requires behind { from ≤ end }
    requires within { end ≤ length line.now }
    requires digits { (k : ℕ) → from ≤ k → k < end → is_digit (slice_index line.now k) ≡ true }
    ensures { IfSome result (λ n. IsNumbered (drop from line.now) n (drop end line.now)) }
{
    if end == from {
        return None;
    }
    match at_once(line, from, end) {
        Some(number) => Some(number),
        None => one_by_one(line, from, end),
    }
}
