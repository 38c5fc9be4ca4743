//! Numbers that digits write.

ghost use Rattle.std.specs.Prelude.{◌≡◌, ◌≤◌, IfSome};
ghost use Rattle.std.specs.List.{list_all};
ghost use Rattle.std.specs.Char.{is_ascii_digit};
ghost use Rattle.ft_text.specs.Digits.{number_within};

/// Whether all bytes are decimal digits.
#[inline]
pub fn are_digits(text: &[u8]) -> bool
    ensures { result ≡ list_all is_ascii_digit text.now }
{
    text.iter().all(|byte| byte.is_ascii_digit())
}

/// The number that digits write, or `None` if it is above the limit or a byte is no digit. An
/// empty text is 0, and zeros may stand in front.
#[tactic(auto, unfolding(crate::specs::Digits::number_within))]
#[inline]
pub fn number_within(text: &[u8], limit: u32) -> Option<u32>
    ensures value { result ≡ number_within limit text.now }
    ensures within { IfSome result (λ n. n ≤ limit) }
{
    let mut number: u64 = 0;
    for byte in text {
        if !byte.is_ascii_digit() {
            return None;
        }
        number = number * 10 + u64::from(*byte - b'0');
        if number > u64::from(limit) {
            return None;
        }
    }
    Some(number as u32)
}
