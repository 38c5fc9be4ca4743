//! Gaps, names and quoted texts.

ghost use Rattle.std.specs.Prelude.{◌≡◌, ◌≤◌, length, ◌==◌};
ghost use Rattle.std.specs.Option.{option_map};
ghost use Rattle.std.specs.List.{prefix_len};
ghost use Rattle.ft_text.specs.Tokens.{is_gap, skip, name_at, quoted_at, cut_at, is_quote, begins_name};
ghost use Rattle.ft_text.specs.inner.Words.{word_test};

/// A class of bytes.
#[derive(Clone, Copy)]
pub(crate) enum Class {
    /// A space or a tab.
    Gap,
    /// A letter, a digit or `_`.
    Name,
    /// Any byte except this one.
    Except(u8),
}

impl Class {
    /// Whether the byte is of the class.
    fn has(self, byte: u8) -> bool
        ensures { result ≡ word_test self byte }
    {
        match self {
            Class::Gap => is_gap(byte),
            Class::Name => byte.is_ascii_alphanumeric() || byte == b'_',
            Class::Except(mark) => byte != mark,
        }
    }
}

/// Whether the byte is a space or a tab.
pub fn is_gap(byte: u8) -> bool
    ensures { result ≡ is_gap byte }
{
    byte == b' ' || byte == b'\t'
}

/// How many bytes of the class the text begins with.
pub(crate) fn front_len(text: &[u8], class: Class) -> usize
    ensures within { result ≤ length text.now }
    ensures value { result ≡ prefix_len (word_test class) text.now }
{
    for (at, byte) in text.iter().enumerate() {
        if !class.has(*byte) {
            return at;
        }
    }
    text.len()
}

/// The text after the spaces and tabs that it begins with.
pub fn skip(text: &[u8]) -> &[u8]
    ensures value { result.now ≡ skip text.now }
    ensures within { length result.now ≤ length text.now }
{
    &text[front_len(text, Class::Gap)..]
}

/// Whether a name may begin with the byte.
fn begins_name(byte: u8) -> bool
    ensures { result ≡ begins_name byte }
{
    byte.is_ascii_alphabetic() || byte == b'_'
}

/// The name that the text begins with, and what is after it.
#[tactic(auto, unfolding(crate::specs::Tokens::name_at))]
pub fn name_at(text: &[u8]) -> Option<(&[u8], &[u8])>
    ensures { option_map (λ x. (x.0.now, x.1.now)) result ≡ name_at text.now }
{
    match text.first() {
        Some(first) if begins_name(*first) => Some(text.split_at(front_len(text, Class::Name))),
        _ => None,
    }
}

/// Whether the byte is `"` or `'`.
pub fn is_quote(byte: u8) -> bool
    ensures { result ≡ is_quote byte }
{
    byte == b'"' || byte == b'\''
}

/// The text in the quotes that the text begins with, and what is after the closing one.
#[tactic(auto, unfolding(crate::specs::Tokens::quoted_at))]
pub fn quoted_at(text: &[u8]) -> Option<(&[u8], &[u8])>
    ensures { option_map (λ x. (x.0.now, x.1.now)) result ≡ quoted_at text.now }
{
    match text.split_first() {
        Some((mark, behind)) if is_quote(*mark) => cut_at(behind, *mark),
        _ => None,
    }
}

/// What stands before and after the first such byte.
fn cut_at(text: &[u8], mark: u8) -> Option<(&[u8], &[u8])>
    ensures { option_map (λ x. (x.0.now, x.1.now)) result ≡ cut_at mark text.now }
{
    let len = front_len(text, Class::Except(mark));
    if len == text.len() {
        return None;
    }
    Some((&text[..len], &text[len + 1..]))
}
