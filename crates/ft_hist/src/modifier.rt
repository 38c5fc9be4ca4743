//! Modifiers of keys: how they are written, and what they make of values.

ghost use Rattle.std.specs.Prelude.{◌≡◌, ◌++◌, OnOk, OnErr};
ghost use Rattle.std.specs.List.{find};
ghost use Rattle.ft_text.specs.Fronts.{IsFront};
ghost use Rattle.ft_hist.specs.Modifiers.{mode_name, named_modes, mode_is_called, mode_text};
ghost use Rattle.ft_hist.specs.Modifiers.{number_part, text_part, value_part};
ghost use Rattle.ft_hist.specs.Modifiers.{number_kind, same_kind};
ghost use Rattle.ft_hist.specs.Powers.{log2_of, bucket_of};

use ft_fields::{Comm, Part, Value};
use ft_text::write_decimal;
use std::alloc::AllocError;

/// A modifier: what a key item makes of its field's value.
#[derive(Clone, Copy, Debug, PartialEq, Eq)]
pub enum Mode {
    /// No modifier: the value itself.
    Plain,
    /// `.hex`: the value itself, printed in hexadecimal.
    Hex,
    /// `.log2`: the least power of 2 that is not below the value.
    Log2,
    /// `.buckets=N`: the greatest multiple of N that is not above the value.
    Buckets(u32),
}

/// The modifiers that are a name and nothing else.
const NAMED: [Mode; 2] = [Mode::Hex, Mode::Log2];

/// The modifier that is this name and nothing else, if there is one.
pub fn mode_named(name: &[u8]) -> Option<Mode>
    ensures { result ≡ find (mode_is_called name.now) named_modes }
{
    NAMED.iter().copied().find(|mode| mode.name() == name)
}

impl Mode {
    /// Its name, after the `.` of its field; that of buckets stands before their size.
    fn name(self) -> &'static [u8]
        ensures { result.now ≡ mode_name self }
    {
        match self {
            Mode::Plain => b"",
            Mode::Hex => b"hex",
            Mode::Log2 => b"log2",
            Mode::Buckets(_) => b"buckets=",
        }
    }

    /// Adds it as it stands after its field. What it added before a refusal stays.
    pub(crate) fn write(self, text: &mut Vec<u8>) -> Result<(), AllocError>
        ensures ok { OnOk result (text.new.items ≡ text.old.items ++ mode_text self) }
        ensures err { OnErr result (IsFront text.old.items text.new.items) }
    {
        if self == Mode::Plain {
            return Ok(());
        }
        text.extend_from_slice(b".")?;
        text.extend_from_slice(self.name())?;
        match self {
            Mode::Plain | Mode::Hex | Mode::Log2 => Ok(()),
            Mode::Buckets(size) => write_decimal(u64::from(size), text),
        }
    }

    /// What it makes of a field's value.
    pub(crate) fn part_of(self, value: Value) -> Option<Part>
        ensures { result ≡ value_part self value }
    {
        match value {
            Value::Num(number) => Some(self.number_part(number)),
            Value::Text(text) => self.text_part(text),
        }
    }

    /// What it makes of a number.
    fn number_part(self, number: i64) -> Part
        ensures { result ≡ number_part self number }
    {
        match self {
            Mode::Plain | Mode::Hex => Part::Num(number),
            Mode::Log2 => Part::Log2(log2_of(number.cast_unsigned())),
            Mode::Buckets(size) => Part::Bucket(bucket_of(size, number.cast_unsigned())),
        }
    }

    /// What it makes of a text: a part if it is no modifier at all, else nothing.
    fn text_part(self, text: Comm) -> Option<Part>
        ensures { result ≡ text_part self text }
    {
        match self {
            Mode::Plain => Some(Part::Text(text)),
            Mode::Hex | Mode::Log2 | Mode::Buckets(_) => None,
        }
    }

    /// Whether it makes parts of the same kind of numbers as another.
    pub(crate) fn matches(self, other: Mode) -> bool
        ensures { result ≡ same_kind (number_kind self) (number_kind other) }
    {
        match (self, other) {
            (Mode::Plain | Mode::Hex, Mode::Plain | Mode::Hex) => true,
            (Mode::Log2, Mode::Log2) => true,
            (Mode::Buckets(a), Mode::Buckets(b)) => a == b,
            _ => false,
        }
    }
}

/// The least n for which the value is at most 2 to the n.
fn log2_of(value: u64) -> u8
    ensures { result ≡ log2_of value }
{
    if value == 0 {
        0
    } else {
        (64 - (value - 1).leading_zeros()) as u8
    }
}

/// The greatest multiple of the size that is not above the value; for the size 0 it is 0.
fn bucket_of(size: u32, value: u64) -> u64
    ensures { result ≡ bucket_of size value }
{
    if size == 0 {
        0
    } else {
        value / u64::from(size) * u64::from(size)
    }
}
