//! Cuts of a text: runs of bytes, words, labels.

ghost use Rattle.std.specs.Prelude.{◌≡◌, ◌<◌, ◌≤◌, ◌==◌, length, IfSome};
ghost use lib.Pointwise.{pointwise};
ghost use Rattle.std.specs.Option.{option_map, option_copied};
ghost use Rattle.std.specs.List.{prefix_len, suffix_len};
ghost use Rattle.ft_event.specs.Spans.{test_of, leading_run, leading_word, without_spaces, trimmed};
ghost use Rattle.ft_event.specs.Spans.{behind, last_cut, label_cut, limited_number};

/// A class of bytes.
#[derive(Clone, Copy)]
pub(crate) enum Class {
    /// A space.
    Space,
    /// Any byte except a space.
    Word,
    /// A decimal digit.
    Digit,
    /// A space or a tab.
    Blank,
    /// A decimal digit or a `-`.
    Group,
}

impl Class {
    /// Whether the byte is of the class.
    pub(crate) fn has(self, byte: u8) -> bool
        ensures { result ≡ test_of self byte }
    {
        match self {
            Class::Space => byte == b' ',
            Class::Word => byte != b' ',
            Class::Digit => byte.is_ascii_digit(),
            Class::Blank => byte == b' ' || byte == b'\t',
            Class::Group => byte.is_ascii_digit() || byte == b'-',
        }
    }
}

/// How many bytes of the class the text begins with.
pub(crate) fn front_len(text: &[u8], class: Class) -> usize
    ensures within { result ≤ length text.now }
    ensures value { result ≡ prefix_len (test_of class) text.now }
{
    for (at, byte) in text.iter().enumerate() {
        if !class.has(*byte) {
            return at;
        }
    }
    text.len()
}

/// How many bytes of the class the text ends with.
pub(crate) fn back_len(text: &[u8], class: Class) -> usize
    ensures within { result ≤ length text.now }
    ensures value { result ≡ suffix_len (test_of class) text.now }
{
    let mut start = text.len();
    while start > 0 {
        if !class.has(text[start - 1]) {
            return text.len() - start;
        }
        start -= 1;
    }
    text.len()
}

/// A run of one or more bytes of the class, as long as it goes, and what is after it.
#[tactic(auto, unfolding(crate::specs::Spans::leading_run))]
pub(crate) fn run(text: &[u8], class: Class) -> Option<(&[u8], &[u8])>
    ensures { option_map (λ x. (x.0.now, x.1.now)) result ≡ leading_run (test_of class) text.now }
{
    let len = front_len(text, class);
    if len == 0 {
        return None;
    }
    Some(text.split_at(len))
}

/// The word that the text begins with, which may be empty, and what is after it.
pub(crate) fn word(text: &[u8]) -> (&[u8], &[u8])
    ensures { (result.0.now, result.1.now) ≡ leading_word text.now }
{
    text.split_at(front_len(text, Class::Word))
}

/// The text without the spaces that it begins with.
pub(crate) fn without_spaces(text: &[u8]) -> &[u8]
    ensures { result.now ≡ without_spaces text.now }
{
    &text[front_len(text, Class::Space)..]
}

/// The text without the spaces at both ends.
#[tactic(auto, unfolding(crate::specs::Spans::trimmed))]
pub(crate) fn trimmed(text: &[u8]) -> &[u8]
    ensures { result.now ≡ trimmed text.now }
{
    let rest = without_spaces(text);
    &rest[..rest.len() - back_len(rest, Class::Space)]
}

/// Whether a text is a label of its length.
// If the label is known, this is a test for each byte up to the first that differs, and nothing is
// called.
#[inline(always)]
fn is_label<const N: usize>(label: &[u8; N], text: &[u8; N]) -> bool
    ensures { result ≡ pointwise ◌==◌ text.now label.now }
{
    for (at, byte) in label.iter().enumerate() {
        if text[at] != *byte {
            return false;
        }
    }
    true
}

/// What is after a label that the text begins with.
#[tactic(auto, unfolding(crate::specs::Spans::behind))]
#[inline(always)]
pub(crate) fn behind<'a, const N: usize>(label: &[u8; N], text: &'a [u8]) -> Option<&'a [u8]>
    ensures { option_copied result ≡ behind label.now text.now }
{
    let (front, rest) = text.split_first_chunk::<N>()?;
    if is_label(label, front) {
        Some(rest)
    } else {
        None
    }
}

/// What stands before and after the last space.
#[tactic(auto, unfolding(crate::specs::Spans::last_cut))]
pub(crate) fn last_cut(text: &[u8]) -> Option<(&[u8], &[u8])>
    ensures { option_map (λ x. (x.0.now, x.1.now)) result ≡ last_cut text.now }
{
    let word_len = back_len(text, Class::Word);
    if word_len == text.len() {
        return None;
    }
    let start = text.len() - word_len;
    Some((&text[..start - 1], &text[start..]))
}

/// What stands before and after the last place of a label, which must not be empty.
pub(crate) fn label_cut<'a, const N: usize>(
    label: &[u8; N],
    text: &'a [u8],
) -> Option<(&'a [u8], &'a [u8])>
    requires { 0 < length label.now }
    ensures { option_map (λ x. (x.0.now, x.1.now)) result ≡ label_cut label.now text.now }
{
    let mut start = text.len();
    while start > 0 {
        start -= 1;
        // Most places fail at the first byte, which costs less to see.
        if text[start] == label[0] {
            if let Some(rest) = behind(label, &text[start..]) {
                return Some((&text[..start], rest));
            }
        }
    }
    None
}

/// The number that digits write, or `None` if it is above the limit or a byte is no digit.
#[tactic(auto, unfolding(crate::specs::Spans::limited_number))]
pub(crate) fn number(text: &[u8], limit: u32) -> Option<u64>
    ensures value { result ≡ limited_number limit text.now }
    ensures within { IfSome result (λ n. n ≤ limit) }
{
    let mut number: u64 = 0;
    for byte in text {
        if !Class::Digit.has(*byte) {
            return None;
        }
        number = number * 10 + u64::from(*byte - b'0');
        if number > u64::from(limit) {
            return None;
        }
    }
    Some(number)
}
