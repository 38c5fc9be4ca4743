//! The lines of a text.

ghost use Rattle.std.specs.Prelude.{◌≡◌, ◌==◌, false, ◌∷◌, ◌<◌, [], length, MatchOption, IfSome};
ghost use Rattle.std.specs.List.{list_any};
ghost use Rattle.ft_text.specs.Lines.{lines_of};

use memchr::memchr;

/// The byte that ends a line.
const LINE_BREAK: u8 = b'\n';

/// The first line of a text without its break, and the text after it; `None` if the text is
/// empty. A last piece without a break is a line too.
pub fn next_line(text: &[u8]) -> Option<(&[u8], &[u8])>
    ensures cut { MatchOption result (text.now ≡ [])
        (λ cut. lines_of text.now ≡ cut.0.now ∷ lines_of cut.1.now) }
    ensures unbroken { IfSome result (λ cut. list_any (λ b. b == 10) cut.0.now ≡ false) }
    ensures shorter { IfSome result (λ cut. length cut.1.now < length text.now) }
{
    if text.is_empty() {
        return None;
    }
    match memchr(LINE_BREAK, text) {
        Some(end) => Some((&text[..end], &text[end + 1..])),
        None => Some((text, &[])),
    }
}
