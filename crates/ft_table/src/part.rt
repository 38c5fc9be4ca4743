//! The parts of keys in texts.

ghost use Rattle.std.specs.Prelude.{◌≡◌, ◌≤◌, ◌++◌, OnOk, OnErr, IsTrue, codes, decimal};
ghost use Rattle.ft_fields.specs.Fields.{is_text};
ghost use Rattle.ft_hist.specs.Modifiers.{mode_suits};
ghost use Rattle.ft_text.specs.Fronts.{IsFront};
ghost use Rattle.ft_table.specs.Text.{left_aligned, bucket_end, part_text, named_part};

use crate::number::{write_hexadecimal, write_in_10};
use ft_fields::{Comm, field_text};
use ft_hist::{KeyItem, Mode, Part};
use ft_text::{write_decimal, write_fill};
use itoa::Buffer;
use std::alloc::AllocError;

/// How many bytes a text takes at least.
const TEXT_WIDTH: u8 = 50;

/// How many bytes the exponent of a power takes at least.
const POWER_WIDTH: u8 = 2;

/// Adds a part of a key after its field's name.
pub(crate) fn write_named(item: KeyItem, part: Part, text: &mut Vec<u8>) -> Result<(), AllocError>
    requires { IsTrue (mode_suits (is_text item.field) item.mode) }
    ensures ok { OnOk result (text.new.items ≡ text.old.items ++ named_part item part) }
    ensures err { OnErr result (IsFront text.old.items text.new.items) }
{
    text.extend_from_slice(field_text(item.field))?;
    text.extend_from_slice(b": ")?;
    write_part(item, part, text)
}

/// Adds a part of a key, as its item's modifier has it.
fn write_part(item: KeyItem, part: Part, text: &mut Vec<u8>) -> Result<(), AllocError>
    requires { IsTrue (mode_suits (is_text item.field) item.mode) }
    ensures ok { OnOk result (text.new.items ≡ text.old.items ++ part_text item.mode part) }
    ensures err { OnErr result (IsFront text.old.items text.new.items) }
{
    match (item.mode, part) {
        (Mode::Plain, Part::Num(number)) => write_in_10(number.cast_unsigned(), text),
        (Mode::Hex, Part::Num(number)) => write_hexadecimal(number.cast_unsigned(), text),
        (Mode::Log2, Part::Log2(power)) => write_power(power, text),
        (Mode::Buckets(size), Part::Bucket(first)) => write_bucket(size, first, text),
        (Mode::Plain, Part::Text(name)) => write_text(&name, text),
        // A modifier makes no other part.
        _ => Ok(()),
    }
}

/// Adds a power of 2, and spaces after its exponent up to 2 bytes.
fn write_power(power: u8, text: &mut Vec<u8>) -> Result<(), AllocError>
    ensures ok { OnOk result (text.new.items
        ≡ text.old.items ++ (codes "~ 2^" ++ left_aligned 2 (decimal power))) }
    ensures err { OnErr result (IsFront text.old.items text.new.items) }
{
    let mut buffer = Buffer::new();
    let digits = buffer.format(power).as_bytes();
    text.extend_from_slice(b"~ 2^")?;
    text.extend_from_slice(digits)?;
    write_fill(digits.len(), POWER_WIDTH, b' ', text)
}

/// Adds the first and the last number of a bucket.
fn write_bucket(size: u32, first: u64, text: &mut Vec<u8>) -> Result<(), AllocError>
    requires { 1 ≤ size }
    ensures ok { OnOk result (text.new.items ≡ text.old.items
        ++ (codes "~ " ++ decimal first ++ codes "-" ++ decimal (bucket_end size first))) }
    ensures err { OnErr result (IsFront text.old.items text.new.items) }
{
    text.extend_from_slice(b"~ ")?;
    write_decimal(first, text)?;
    text.extend_from_slice(b"-")?;
    write_decimal(bucket_end(size, first), text)
}

/// The last number of a bucket.
fn bucket_end(size: u32, first: u64) -> u64
    requires { 1 ≤ size }
    ensures { result ≡ bucket_end size first }
{
    first.saturating_add(u64::from(size - 1))
}

/// Adds a text, and spaces after it up to 50 bytes.
fn write_text(name: &Comm, text: &mut Vec<u8>) -> Result<(), AllocError>
    ensures ok { OnOk result (text.new.items ≡ text.old.items ++ left_aligned 50 name.now) }
    ensures err { OnErr result (IsFront text.old.items text.new.items) }
{
    text.extend_from_slice(name.bytes())?;
    write_fill(name.bytes().len(), TEXT_WIDTH, b' ', text)
}
