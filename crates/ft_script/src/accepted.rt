//! The lines of accepted edits.

ghost use Rattle.std.specs.Prelude.{◌≡◌, ◌++◌, codes, decimal, IfOk};
ghost use Rattle.ft_script.specs.Answered.{lane_place_text};

use crate::numbers::add_numbered;
use ft_base::Place;
use ft_text::write_decimal;
use std::alloc::{AllocError, Global};

/// What an edit gives, as the edit's line shows it.
pub trait EditValue: Copy {
    ghost use Rattle.std.specs.Prelude.{◌≡◌, ◌++◌, ℕ, List, OnOk};

    /// Its text.
    ghost shown: { Self → List ℕ };

    /// Adds its text to a line.
    fn add_to(self, line: &mut Vec<u8>) -> Result<(), AllocError>
        ensures { OnOk result (line.new.items ≡ line.old.items ++ shown self) };
}

impl EditValue for u64 {
    ghost shown = { decimal };

    fn add_to(self, line: &mut Vec<u8>) -> Result<(), AllocError> {
        write_decimal(self, line)
    }
}

impl EditValue for u32 {
    ghost shown = { decimal };

    fn add_to(self, line: &mut Vec<u8>) -> Result<(), AllocError> {
        write_decimal(u64::from(self), line)
    }
}

impl EditValue for Place {
    ghost shown = { lane_place_text };

    fn add_to(self, line: &mut Vec<u8>) -> Result<(), AllocError> {
        add_numbered(line, self)
    }
}

/// The line of an accepted edit: its word, and its value.
pub fn done_line<V: EditValue>(alloc: Global, word: &[u8], value: V) -> Result<Vec<u8>, AllocError>
    ensures { IfOk result (λ line. line.items ≡ word.now ++ V.shown value ++ codes "\n") }
{
    let mut line = Vec::from_slice(alloc, word)?;
    value.add_to(&mut line)?;
    line.extend_from_slice(b"\n")?;
    Ok(line)
}
