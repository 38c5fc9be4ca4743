//! What may be wrong with a filter's text.

ghost use Rattle.std.specs.Prelude.{◌≡◌};
ghost use Rattle.ft_filter.specs.FilterFault.{filter_number, filter_place};

use std::{error, fmt};

/// The first thing that is wrong with a filter's text. Places are bytes of the text, from 0.
#[derive(Clone, Copy, Debug, PartialEq, Eq)]
pub enum FilterFault {
    /// Memory ran out.
    Memory,
    /// A token that is not allowed here. At the end of the text, the place is the text's length.
    Syntax(usize),
    /// The event has no such field.
    NoField(usize),
    /// The operator or the value does not match the type of the field.
    WrongKind(usize),
    /// The value after `~` is not a glob.
    BadGlob(usize),
    /// The number does not fit into 64 bits with a sign.
    NumberRange(usize),
    /// More than 32 `(` and `!` are open.
    TooDeep,
}

impl fmt::Display for FilterFault {
    fn fmt<W: fmt::Write>(&self, f: &mut fmt::Formatter<W>) -> fmt::Result {
        f.write_str(self.text())
    }
}

impl error::Error for FilterFault {}

impl FilterFault {
    /// What is wrong, in words.
    fn text(self) -> &'static str {
        match self {
            FilterFault::Memory => "out of memory",
            FilterFault::Syntax(_) => "unexpected token",
            FilterFault::NoField(_) => "the event has no such field",
            FilterFault::WrongKind(_) =>
                "the operator or the value does not match the type of the field",
            FilterFault::BadGlob(_) => "invalid glob pattern",
            FilterFault::NumberRange(_) => "the number is not between -2^63 and 2^63-1",
            FilterFault::TooDeep => "more than 32 nested ( and !",
        }
    }

    /// Its number in the desk's texts.
    pub fn number(self) -> u8
        ensures { result ≡ filter_number self }
    {
        match self {
            FilterFault::Memory => 1,
            FilterFault::Syntax(_) => 2,
            FilterFault::NoField(_) => 3,
            FilterFault::WrongKind(_) => 4,
            FilterFault::BadGlob(_) => 5,
            FilterFault::NumberRange(_) => 6,
            FilterFault::TooDeep => 7,
        }
    }

    /// The byte of the text at which it was found, from 0; `None` if it has no place.
    pub fn place(self) -> Option<usize>
        ensures { result ≡ filter_place self }
    {
        match self {
            FilterFault::Syntax(place)
            | FilterFault::NoField(place)
            | FilterFault::WrongKind(place)
            | FilterFault::BadGlob(place)
            | FilterFault::NumberRange(place) => Some(place),
            FilterFault::Memory | FilterFault::TooDeep => None,
        }
    }
}
