//! Numbers in lines.

ghost use Rattle.std.specs.Prelude.{◌≡◌, ◌++◌, decimal, OnOk};
ghost use Rattle.ft_script.specs.Answered.{lane_place_text};

use ft_base::Place;
use ft_text::write_decimal;
use std::alloc::AllocError;

/// Adds a line's CPU and number.
pub(crate) fn add_numbered(text: &mut Vec<u8>, place: Place) -> Result<(), AllocError>
    ensures { OnOk result (text.new.items ≡ text.old.items ++ lane_place_text place) }
{
    write_decimal(u64::from(place.cpu), text)?;
    add(text, b":", u64::from(place.line))
}

/// Adds a text and a number.
pub(crate) fn add(line: &mut Vec<u8>, text: &[u8], number: u64) -> Result<(), AllocError>
    ensures { OnOk result (line.new.items ≡ line.old.items ++ (text.now ++ decimal number)) }
{
    line.extend_from_slice(text)?;
    write_decimal(number, line)
}
