//! The lines of rows that changed, and how many rows these are.

ghost use Rattle.std.specs.Prelude.{◌≡◌, ◌++◌, ◌≤◌, [], length, OnOk, IfOk};
ghost use Rattle.std.specs.Option.{option_copied};
ghost use Rattle.ft_watch.specs.ChangedRows.{signed_line, is_same_row, change_lines};
ghost use Rattle.ft_watch.specs.inner.Told.{with_row};

use ft_text::{is_same, write_decimal};
use std::alloc::{AllocError, Global};
use std::marker::Model;

/// The lines of rows that changed, and how many rows these are: at most as many as the lines have
/// bytes.
///
/// Contracts see a record of the lines' bytes and the count.
#[derive(Drop)]
pub(crate) struct SignedLines {
    lines: Vec<u8>,
    count: u64,
}

impl Model for SignedLines {
    ghost use Rattle.std.specs.Prelude.{◌≤◌, vec_len};
    ghost use Rattle.ft_watch.specs.inner.Told.{ChangedLines, changed_lines_code};

    ghost Value = { ChangedLines };

    ghost coded = { changed_lines_code };

    ghost view = { λ c. record { lines = c.lines.items; count = c.count } };

    ghost invariant = { λ c. c.count ≤ vec_len c.lines };
}

impl SignedLines {
    /// No rows yet, after a text.
    pub(crate) fn behind(text: Vec<u8>) -> SignedLines
        ensures { result ≡ record { lines = text.items; count = 0 } }
    {
        SignedLines {
            lines: text,
            count: 0,
        }
    }

    /// How many rows changed.
    pub(crate) fn count(&self) -> u64
        ensures { result ≡ self.now.count }
    {
        self.count
    }

    /// The lines.
    pub(crate) fn into_lines(self) -> Vec<u8>
        ensures { result.items ≡ self.lines }
    {
        self.lines
    }

    /// Adds what is printed of a trigger's row, by its text before and its text now. Refused for
    /// memory.
    pub(crate) fn with_row(
        self,
        id: u32,
        before: Option<&[u8]>,
        now: Option<&[u8]>,
    ) -> Result<SignedLines, AllocError>
        ensures { IfOk result (λ changes. changes
            ≡ with_row id (option_copied before.entry) (option_copied now.entry) self) }
    {
        if is_same_row(before, now) {
            return Ok(self);
        }
        let SignedLines { mut lines, count } = self;
        add_signed(&mut lines, b'-', id, before)?;
        add_signed(&mut lines, b'+', id, now)?;
        Ok(SignedLines {
            lines,
            count: count + 1,
        })
    }
}

/// Whether two texts of a row, if there are any, are the same.
fn is_same_row(before: Option<&[u8]>, now: Option<&[u8]>) -> bool
    ensures { result ≡ is_same_row (option_copied before.entry)
        (option_copied now.entry) }
{
    match (before, now) {
        (Some(before), Some(now)) => is_same(before, now),
        (None, None) => true,
        _ => false,
    }
}

/// Adds a line of a row after a sign and its trigger's id, if there is one.
fn add_signed(lines: &mut Vec<u8>, sign: u8, id: u32, row: Option<&[u8]>) -> Result<(), AllocError>
    ensures { OnOk result (lines.new.items ≡ lines.old.items
        ++ signed_line sign id (option_copied row.entry)) }
{
    let Some(text) = row else {
        return Ok(());
    };
    lines.extend_from_slice(&[sign, b' '])?;
    write_decimal(u64::from(id), lines)?;
    lines.extend_from_slice(b" ")?;
    lines.extend_from_slice(text)?;
    lines.extend_from_slice(b"\n")
}
