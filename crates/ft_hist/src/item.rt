//! The items of a trigger's parts: what it counts under, what it sums, how its rows are sorted.

use crate::modifier::Mode;
use ft_fields::Field;

/// A key item: a field, and its modifier.
#[derive(Clone, Copy, Debug, PartialEq, Eq)]
pub struct KeyItem {
    /// The field.
    pub field: Field,
    /// Its modifier: what is made of its value.
    pub mode: Mode,
}

/// A value item: what a trigger sums besides the count of hits.
#[derive(Clone, Copy, Debug, PartialEq, Eq)]
pub enum Item {
    /// A numeric field.
    Num(Field),
    /// The trigger's own variable.
    Own,
}

/// A sort item: what rows are sorted by, and which way.
#[derive(Clone, Copy, Debug, PartialEq, Eq)]
pub struct SortItem {
    /// What rows are sorted by.
    pub what: SortBy,
    /// Whether the greatest comes first.
    pub descending: bool,
}

/// What rows are sorted by.
#[derive(Clone, Copy, Debug, PartialEq, Eq)]
pub enum SortBy {
    /// The count of hits.
    Hits,
    /// The key item of this number, from 0.
    Key(u8),
    /// The sum of the value item of this number, from 0.
    Value(u8),
}
