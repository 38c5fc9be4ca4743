//! What may be wrong with a trigger's text.

ghost use Rattle.std.specs.Prelude.{◌≡◌};
ghost use Rattle.ft_hist.specs.TriggerFault.{trigger_number, trigger_place};

use ft_filter::FilterFault;
use std::{error, fmt};

/// The first thing that is wrong with a trigger's text. Places are bytes of the text, from 0.
#[derive(Clone, Copy, Debug, PartialEq, Eq)]
pub enum TriggerFault {
    /// Memory ran out.
    Memory,
    /// A part or an item that is not allowed here.
    Syntax(usize),
    /// The event has no such field, or the trigger has no such variable.
    NoField,
    /// The field of a value holds text.
    NotNumeric,
    /// More than three keys, three values or two sort items.
    TooMany,
    /// A part, an item or a name is given twice.
    Duplicate,
    /// The size is not a number, or is out of range.
    BadSize,
    /// A sort item is neither a key nor a value, or has an unknown suffix.
    BadSort,
    /// A modifier is unknown, or does not apply to its field.
    BadModifier,
    /// Kernel syntax that histdesk does not support.
    LeftOut(usize),
    /// The filter's text cannot be read. Its place is counted in the filter's text.
    BadFilter(FilterFault),
}

impl fmt::Display for TriggerFault {
    fn fmt<W: fmt::Write>(&self, f: &mut fmt::Formatter<W>) -> fmt::Result {
        match self {
            TriggerFault::BadFilter(fault) => write!(f, "{}: {fault}", self.text()),
            _ => f.write_str(self.text()),
        }
    }
}

impl error::Error for TriggerFault {}

impl TriggerFault {
    /// What is wrong, in words.
    fn text(self) -> &'static str {
        match self {
            TriggerFault::Memory => "out of memory",
            TriggerFault::Syntax(_) => "unexpected token",
            TriggerFault::NoField =>
                "the event has no such field, or the trigger has no such variable",
            TriggerFault::NotNumeric => "expected a numeric field, but this one holds text",
            TriggerFault::TooMany => "more than 3 keys, 3 values besides hitcount, or 2 sort items",
            TriggerFault::Duplicate => "a part, an item or a name is given twice",
            TriggerFault::BadSize => "the size is not a number from 65 to 131072",
            TriggerFault::BadSort =>
                "a sort item is neither a key nor a value, or has an unknown suffix",
            TriggerFault::BadModifier => "a modifier is unknown, or does not apply to its field",
            TriggerFault::LeftOut(_) => "kernel syntax that histdesk does not support",
            TriggerFault::BadFilter(_) => "its filter",
        }
    }

    /// Its number in the desk's texts.
    pub fn number(self) -> u8
        ensures { result ≡ trigger_number self }
    {
        match self {
            TriggerFault::Memory => 1,
            TriggerFault::Syntax(_) => 2,
            TriggerFault::NoField => 3,
            TriggerFault::NotNumeric => 4,
            TriggerFault::TooMany => 5,
            TriggerFault::Duplicate => 6,
            TriggerFault::BadSize => 7,
            TriggerFault::BadSort => 8,
            TriggerFault::BadModifier => 9,
            TriggerFault::LeftOut(_) => 10,
            TriggerFault::BadFilter(_) => 11,
        }
    }

    /// The byte of the text at which it was found, from 0; `None` if it has no place. A filter's
    /// fault has its own place.
    pub fn place(self) -> Option<usize>
        ensures { result ≡ trigger_place self }
    {
        match self {
            TriggerFault::Syntax(place) | TriggerFault::LeftOut(place) => Some(place),
            TriggerFault::Memory
            | TriggerFault::NoField
            | TriggerFault::NotNumeric
            | TriggerFault::TooMany
            | TriggerFault::Duplicate
            | TriggerFault::BadSize
            | TriggerFault::BadSort
            | TriggerFault::BadModifier
            | TriggerFault::BadFilter(_) => None,
        }
    }
}
