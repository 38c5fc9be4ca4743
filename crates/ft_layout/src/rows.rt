//! Rows of tables, their keys and totals, and which rows an edit may have changed.

ghost use Rattle.std.specs.Prelude.{◌≡◌, length};
ghost use Rattle.std.specs.Option.{option_map, option_map_or};
ghost use Rattle.ft_layout.specs.Rows.{totals_layout, part_layout, no_part, part_at, key_layout, row_layout, changed_layout, report_layout};

use crate::names::NameLayout;
use ft_changes::Changed;
use ft_fields::{Key, Part};
use ft_table::{Row, Totals};

/// What a table holds beside its rows.
#[repr(C)]
#[derive(Clone, Copy, Debug, PartialEq, Eq)]
pub struct TotalsLayout {
    /// The hits of all keys in the table.
    pub hits: u64,
    /// The keys in the table.
    pub entries: u64,
    /// The hits of keys that found no room.
    pub dropped: u64,
}

/// One part of a key. What is not of its kind is 0.
#[repr(C)]
#[derive(Clone, Copy, Debug, PartialEq, Eq)]
pub struct PartLayout {
    /// The number of kind 0, or the power of kind 1.
    pub number: i64,
    /// The multiple of kind 2.
    pub bucket: u64,
    /// The text of kind 3.
    pub text: NameLayout,
    /// Its kind: 0 a number, 1 a power of 2, 2 a multiple of a bucket's size, 3 a text.
    pub kind: u64,
}

/// A key.
#[repr(C)]
#[derive(Clone, Copy, Debug, PartialEq, Eq)]
pub struct KeyLayout {
    /// How many parts it has: 1 to 3.
    pub parts: u64,
    /// The parts; those that it doesn't have are all 0.
    pub part: [PartLayout; 3],
}

/// A row of a table.
#[repr(C)]
#[derive(Clone, Copy, Debug, PartialEq, Eq)]
pub struct RowLayout {
    /// The key.
    pub key: KeyLayout,
    /// Its hits.
    pub hitcount: u64,
    /// The sums of its hits' values modulo 2^64, in the order of the trigger's values.
    pub sums: [u64; 3],
}

/// A row that an edit may have changed.
#[repr(C)]
#[derive(Clone, Copy, Debug, PartialEq, Eq)]
pub struct ChangedLayout {
    /// The id of its trigger.
    pub id: u64,
    /// Its key.
    pub key: KeyLayout,
}

/// How many rows an accepted insert or strike may have changed, if that is told.
#[repr(C)]
#[derive(Clone, Copy, Debug, PartialEq, Eq)]
pub struct ReportLayout {
    /// Whether it is told of triggers that count held events.
    pub has_rows: bool,
    /// Whether it is told of triggers that count made events.
    pub has_made: bool,
    /// How many rows they are, of triggers that count held events.
    pub rows: u64,
    /// How many rows they are, of triggers that count made events.
    pub made: u64,
}

impl TotalsLayout {
    /// The totals as C has them.
    pub fn of(totals: &Totals) -> TotalsLayout
        ensures { result ≡ totals_layout totals.now }
    {
        TotalsLayout {
            hits: totals.hits,
            entries: totals.entries,
            dropped: totals.dropped,
        }
    }
}

impl PartLayout {
    /// The part as C has it.
    pub fn of(part: &Part) -> PartLayout
        ensures { result ≡ part_layout part.now }
    {
        let none = PartLayout::none();
        match part {
            Part::Num(number) => PartLayout {
                number: *number,
                ..none
            },
            Part::Log2(power) => PartLayout {
                number: i64::from(*power),
                kind: 1,
                ..none
            },
            Part::Bucket(bucket) => PartLayout {
                bucket: *bucket,
                kind: 2,
                ..none
            },
            Part::Text(text) => PartLayout {
                text: NameLayout::of(text),
                kind: 3,
                ..none
            },
        }
    }

    /// A part that a key doesn't have: all 0.
    fn none() -> PartLayout
        ensures { result ≡ no_part }
    {
        PartLayout {
            number: 0,
            bucket: 0,
            text: NameLayout::empty(),
            kind: 0,
        }
    }

    /// The key's part of this number, from 0.
    fn at(key: &Key, number: usize) -> PartLayout
        ensures { result ≡ part_at key.now number }
    {
        match key.part(number) {
            Some(part) => PartLayout::of(&part),
            None => PartLayout::none(),
        }
    }
}

impl KeyLayout {
    /// The key as C has it.
    pub fn of(key: &Key) -> KeyLayout
        ensures { result ≡ key_layout key.now }
    {
        KeyLayout {
            parts: parts_of(key),
            part: [
                PartLayout::at(key, 0),
                PartLayout::at(key, 1),
                PartLayout::at(key, 2),
            ],
        }
    }
}

/// How many parts a key has.
fn parts_of(key: &Key) -> u64
    ensures { result ≡ length key.now }
{
    if key.part(1).is_none() {
        return 1;
    }
    if key.part(2).is_none() {
        return 2;
    }
    3
}

impl RowLayout {
    /// The row as C has it.
    pub fn of(row: &Row) -> RowLayout
        ensures { result ≡ row_layout row.now }
    {
        RowLayout {
            key: KeyLayout::of(&row.key),
            hitcount: row.hitcount,
            sums: row.sums,
        }
    }
}

impl ChangedLayout {
    /// The changed row as C has it.
    pub fn of(changed: &Changed) -> ChangedLayout
        ensures { result ≡ changed_layout changed.now }
    {
        ChangedLayout {
            id: u64::from(changed.id),
            key: KeyLayout::of(&changed.key),
        }
    }
}

impl ReportLayout {
    /// How many rows there are, of triggers that count held events and of those that count made
    /// ones: each number if it is told, else 0.
    pub fn of(rows: Option<&[Changed]>, made: Option<&[Changed]>) -> ReportLayout
        ensures { result
            ≡ report_layout (option_map (λ rows. rows.now) rows.entry) (option_map (λ made. made.now) made.entry) }
    {
        ReportLayout {
            has_rows: rows.is_some(),
            has_made: made.is_some(),
            rows: count_of(rows),
            made: count_of(made),
        }
    }
}

/// How many rows are told.
fn count_of(rows: Option<&[Changed]>) -> u64
    ensures { result ≡ option_map_or (λ rows. length rows.now) rows.entry 0 }
{
    match rows {
        Some(rows) => rows.len() as u64,
        None => 0,
    }
}
