//! Short texts, and the names of events as numbers.

ghost use Rattle.std.specs.Prelude.{◌≡◌, []};
ghost use Rattle.ft_layout.specs.Names.{name_layout, name_number, name_numbered};

use ft_fields::{Comm, Name};

/// A text of at most 31 bytes: a task's name or state.
#[repr(C)]
#[derive(Clone, Copy, Debug, PartialEq, Eq)]
pub struct NameLayout {
    /// The bytes, and zeros after them.
    pub bytes: [u8; 31],
    /// How many bytes the text has.
    pub length: u8,
}

impl NameLayout {
    /// The text as C has it.
    pub fn of(text: &Comm) -> NameLayout
        ensures { result ≡ name_layout text.now }
    {
        let own = text.bytes();
        let mut bytes = [0; 31];
        bytes[..own.len()].copy_from_slice(own);
        NameLayout {
            bytes,
            length: own.len() as u8,
        }
    }

    /// The text of no bytes.
    pub fn empty() -> NameLayout
        ensures { result ≡ name_layout [] }
    {
        NameLayout {
            bytes: [0; 31],
            length: 0,
        }
    }
}

/// The events that have a name, in the order of their numbers.
const NAMES: [Name; 5] = [
    Name::Waking,
    Name::Wakeup,
    Name::WakeupNew,
    Name::Switch,
    Name::WakeupLatency,
];

/// The number that C has for the name of an event.
pub fn name_number(name: Name) -> u32
    ensures { result ≡ name_number name }
{
    match name {
        Name::Waking => 0,
        Name::Wakeup => 1,
        Name::WakeupNew => 2,
        Name::Switch => 3,
        Name::WakeupLatency => 4,
        Name::Other => 5,
    }
}

/// The name with the number; any other number is of an event without a name.
pub fn name_numbered(number: u32) -> Name
    ensures { result ≡ name_numbered number }
{
    NAMES.get(number as usize).copied().unwrap_or(Name::Other)
}
