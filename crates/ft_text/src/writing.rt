//! Numbers added to texts.

ghost use Rattle.std.specs.Prelude.{◌≡◌, ◌-◌, ◌++◌, length, replicate, decimal, OnOk, OnErr};
ghost use Rattle.std.specs.Fmt.{signed_decimal};
ghost use Rattle.ft_text.specs.Fronts.{IsFront};

use itoa::Buffer;
use std::alloc::AllocError;

/// Adds a number in decimal digits.
#[inline]
pub fn write_decimal(number: u64, text: &mut Vec<u8>) -> Result<(), AllocError>
    ensures ok { OnOk result (text.new.items ≡ text.old.items ++ decimal number) }
    ensures err { OnErr result (IsFront text.old.items text.new.items) }
{
    let mut buffer = Buffer::new();
    text.extend_from_slice(buffer.format(number).as_bytes())
}

/// Adds a number in decimal digits, after a `-` if it is negative.
#[inline]
pub fn write_signed(number: i64, text: &mut Vec<u8>) -> Result<(), AllocError>
    ensures ok { OnOk result (text.new.items ≡ text.old.items ++ signed_decimal number) }
    ensures err { OnErr result (IsFront text.old.items text.new.items) }
{
    let mut digits = Buffer::new();
    text.extend_from_slice(digits.format(number).as_bytes())
}

/// Adds a number in decimal digits, with the fill byte in front of it as often as is needed to
/// fill a column of this width. A longer number stands as it is.
pub fn write_right(number: u64, width: u8, fill: u8, text: &mut Vec<u8>) -> Result<(), AllocError>
    ensures ok { OnOk result (text.new.items ≡ text.old.items
        ++ (replicate (width - length (decimal number)) fill ++ decimal number)) }
    ensures err { OnErr result (IsFront text.old.items text.new.items) }
{
    let mut buffer = Buffer::new();
    let digits = buffer.format(number).as_bytes();
    write_fill(digits.len(), width, fill, text)?;
    text.extend_from_slice(digits)
}

/// Adds the fill byte as often as a text of this length needs it to fill a column of this width.
#[inline]
pub fn write_fill(len: usize, width: u8, fill: u8, text: &mut Vec<u8>) -> Result<(), AllocError>
    ensures ok { OnOk result (text.new.items ≡ text.old.items ++ replicate (width - len) fill) }
    ensures err { OnErr result (IsFront text.old.items text.new.items) }
{
    let lacking = usize::from(width).saturating_sub(len);
    text.resize(text.len() + lacking, fill)
}
