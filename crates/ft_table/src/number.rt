//! Numbers in texts.

ghost use Rattle.std.specs.Prelude.{◌≡◌, ◌<◌, false, [], ◌∷◌, ◌++◌, OnOk, OnErr};
ghost use Rattle.std.specs.Fmt.{digit_glyph};
ghost use Rattle.ft_text.specs.Fronts.{IsFront};
ghost use Rattle.ft_table.specs.Text.{right_in_10, hexadecimal};

use ft_text::write_right;
use std::alloc::AllocError;

/// How many bytes a number takes at least.
const NUMBER_WIDTH: u8 = 10;

/// Adds a number in decimal digits, with spaces in front up to 10 bytes.
#[tactic(auto, unfolding(crate::specs::Text::right_in_10))]
pub(crate) fn write_in_10(number: u64, text: &mut Vec<u8>) -> Result<(), AllocError>
    ensures ok { OnOk result (text.new.items ≡ text.old.items ++ right_in_10 number) }
    ensures err { OnErr result (IsFront text.old.items text.new.items) }
{
    write_right(number, NUMBER_WIDTH, b' ', text)
}

/// Adds a number in lower case hexadecimal digits.
pub(crate) fn write_hexadecimal(number: u64, text: &mut Vec<u8>) -> Result<(), AllocError>
    ensures ok { OnOk result (text.new.items ≡ text.old.items ++ hexadecimal number) }
    ensures err { OnErr result (IsFront text.old.items text.new.items) }
{
    if number < 16 {
        return write_digit(number, text);
    }
    write_hexadecimal(number / 16, text)?;
    write_digit(number % 16, text)
}

/// Adds one lower case hexadecimal digit.
fn write_digit(digit: u64, text: &mut Vec<u8>) -> Result<(), AllocError>
    requires { digit < 16 }
    ensures ok { OnOk result (text.new.items ≡ text.old.items ++ digit_glyph false digit ∷ []) }
    ensures err { OnErr result (IsFront text.old.items text.new.items) }
{
    let zero = if digit < 10 { b'0' } else { b'a' - 10 };
    text.extend_from_slice(&[zero + digit as u8])
}
