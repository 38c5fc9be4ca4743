//! Whether two short texts of one length are the same. They are compared word by word, which is
//! faster than byte by byte.

ghost use Rattle.std.specs.Prelude.{◌≡◌, ◌≤◌, true, IfSome};

/// Whether these eight bytes are the same.
#[inline(always)]
fn same_eight(a: &[u8; 8], b: &[u8; 8]) -> bool
    ensures { result ≡ true → a.now ≡ b.now }
{
    u64::from_le_bytes(*a) == u64::from_le_bytes(*b)
}

/// Whether these four bytes are the same.
#[inline(always)]
fn same_four(a: &[u8; 4], b: &[u8; 4]) -> bool
    ensures { result ≡ true → a.now ≡ b.now }
{
    u32::from_le_bytes(*a) == u32::from_le_bytes(*b)
}

/// Whether texts of 8 to 16 bytes are the same: their first eight and their last eight bytes.
#[inline(always)]
fn same_by_eight<const N: usize>(a: &[u8; N], b: &[u8; N]) -> Option<bool>
    ensures { IfSome result (λ same. N ≤ 16 → same ≡ true → a.now ≡ b.now) }
{
    let (a_first, _) = a.split_first_chunk::<8>()?;
    let (b_first, _) = b.split_first_chunk::<8>()?;
    let (_, a_last) = a.split_last_chunk::<8>()?;
    let (_, b_last) = b.split_last_chunk::<8>()?;
    Some(same_eight(a_first, b_first) && same_eight(a_last, b_last))
}

/// Whether texts of 4 to 8 bytes are the same: their first four and their last four bytes.
#[inline(always)]
fn same_by_four<const N: usize>(a: &[u8; N], b: &[u8; N]) -> Option<bool>
    ensures { IfSome result (λ same. N ≤ 8 → same ≡ true → a.now ≡ b.now) }
{
    let (a_first, _) = a.split_first_chunk::<4>()?;
    let (b_first, _) = b.split_first_chunk::<4>()?;
    let (_, a_last) = a.split_last_chunk::<4>()?;
    let (_, b_last) = b.split_last_chunk::<4>()?;
    Some(same_four(a_first, b_first) && same_four(a_last, b_last))
}

/// Whether the texts are the same.
#[inline(always)]
pub(crate) fn is_same<const N: usize>(a: &[u8; N], b: &[u8; N]) -> bool
    ensures { result ≡ true → a.now ≡ b.now }
{
    if N > 16 {
        return a == b;
    }
    if N < 8 {
        return match same_by_four(a, b) {
            Some(same) => same,
            None => a == b,
        };
    }
    match same_by_eight(a, b) {
        Some(same) => same,
        None => a == b,
    }
}
