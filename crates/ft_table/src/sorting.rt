//! Rows in order.

ghost use Rattle.std.specs.Prelude.{◌≡◌};
ghost use Rattle.ft_table.specs.Sorting.{by_cmp, item_cmp, row_cmp, in_order, HasDistinctKeys};

use crate::row::Row;
use ft_hist::{SortBy, SortItem};
use std::cmp::Ordering;

/// Puts rows of different keys in order: by the sort items from the left, each with the least first
/// unless it is `descending`, and by key if these leave them equal.
pub fn sort_rows(rows: &mut Vec<Row>, sort: &[SortItem])
    requires { HasDistinctKeys rows.old.items }
    ensures { rows.new.items ≡ in_order sort.now rows.old.items }
{
    rows.sort_unstable_by(|a, b| row_cmp(sort, a, b));
}

/// How two rows are ordered: by the first sort item that tells them apart, or else by key.
fn row_cmp(sort: &[SortItem], a: &Row, b: &Row) -> Ordering
    ensures { result ≡ row_cmp sort.now a.now b.now }
{
    for item in sort {
        match item_cmp(*item, a, b) {
            Ordering::Equal => {}
            unlike => return unlike,
        }
    }
    a.key.cmp(&b.key)
}

/// How two rows are ordered by a sort item.
fn item_cmp(item: SortItem, a: &Row, b: &Row) -> Ordering
    ensures { result ≡ item_cmp item a.now b.now }
{
    if item.descending {
        by_cmp(item.what, b, a)
    } else {
        by_cmp(item.what, a, b)
    }
}

/// How two rows are ordered by what a sort item names, with the least first.
fn by_cmp(what: SortBy, a: &Row, b: &Row) -> Ordering
    ensures { result ≡ by_cmp what a.now b.now }
{
    match what {
        SortBy::Hits => a.hitcount.cmp(&b.hitcount),
        SortBy::Key(at) => a.key.part(at as usize).cmp(&b.key.part(at as usize)),
        SortBy::Value(at) => {
            a.sums
                .get(at as usize)
                .copied()
                .cmp(&b.sums.get(at as usize).copied())
        }
    }
}
