//! Rows and totals.

use ft_hist::Key;
use std::marker::Model;

/// A row of a table: a key, how often it was hit, and what the values of its hits sum up to.
///
/// Contracts see a record of the same fields.
#[derive(Clone, Copy, Debug, PartialEq, Eq)]
pub struct Row {
    /// The key.
    pub key: Key,
    /// Its hits.
    pub hitcount: u64,
    /// The sums of its hits' values modulo 2^64, in the order of the trigger's values.
    pub sums: [u64; 3],
}

/// What a table holds besides its rows.
#[derive(Clone, Copy, Debug, PartialEq, Eq)]
pub struct Totals {
    /// The hits of all keys in the table.
    pub hits: u64,
    /// The keys in the table.
    pub entries: u64,
    /// The hits of keys that found no room.
    pub dropped: u64,
}

/// A row of a table as a text: its key, and the text of its line without the line break.
///
/// Contracts see a record of the key and the text's bytes.
#[derive(Drop)]
pub struct TableRow {
    /// The key.
    pub key: Key,
    /// The text.
    pub text: Vec<u8>,
}

impl Model for Row {
    ghost use Rattle.ft_table.specs.Counted.{Counted};
    ghost use Rattle.ft_table.specs.RowCodes.{counted_code};

    ghost Value = { Counted };

    ghost coded = { counted_code };

    ghost view = { λ row. record { key = row.key; hitcount = row.hitcount; sums = row.sums } };

    ghost inverse = { λ row. record { key = row.key; hitcount = row.hitcount; sums = row.sums } };
}

impl Model for TableRow {
    ghost use Rattle.ft_table.specs.Keyed.{KeyedText};
    ghost use Rattle.ft_table.specs.RowCodes.{keyed_code};

    ghost Value = { KeyedText };

    ghost coded = { keyed_code };

    ghost view = { λ row. record { key = row.key; text = row.text.items } };
}
