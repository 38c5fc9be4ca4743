//! Laws of tables and of rows.

ghost use Rattle.std.specs.Prelude.{◌≡◌, List, IsPermutation, IsSorted};
ghost use Rattle.std.specs.declared.cmp.Ordering.TheVariants.{Equal};
ghost use Rattle.std.specs.Cmp.{IsTotalOrder};
ghost use Rattle.ft_table.specs.Admission.{FirstsAreFirst, InByRank, AllCount, InsideCount, OutsideDrop, WholeCount};
ghost use Rattle.ft_table.specs.Fits.{NoneFits, OneMoreFits, OneLessFits};
ghost use Rattle.ft_table.specs.Growth.{KeysGrow, InGrows, RowsGrow, TotalsGrow};
ghost use Rattle.ft_table.specs.OneKey.{LastGoesOut, FirstComesIn, FirstIsOut, OneOtherMoves};
ghost use Rattle.ft_hist.specs.declared.item.SortItem.{SortItem};
ghost use Rattle.ft_table.specs.Counted.{Counted};
ghost use Rattle.ft_table.specs.Sorting.{row_cmp, in_order, HasDistinctKeys};

pub use ft_hits::laws::{one_mark_order, one_spot_order};

/// A law: a key is in a table exactly if it has a hit and fewer than `size` other keys have an
/// earlier first hit.
pub fn first_keys()
    ensures firsts { FirstsAreFirst }
    ensures rank { InByRank }
{}

/// A law: a key in the table has all its hits counted, all hits of the others are dropped, and
/// hits and dropped make up all hits.
pub fn all_hits()
    ensures each { AllCount }
    ensures inside { InsideCount }
    ensures outside { OutsideDrop }
    ensures whole { WholeCount }
{}

/// A law: a hit after all others is counted exactly if its key is in the table or the table has
/// fewer keys than its size. Its key then comes last into the table, if it isn't in, and its row
/// and the totals have one hit more; else the dropped hits are one more. All else stays.
pub fn one_more_hit()
    ensures keys { KeysGrow }
    ensures members { InGrows }
    ensures rows { RowsGrow }
    ensures totals { TotalsGrow }
{}

/// A law: as a hit comes or goes, at most two keys come in or go out: its own, and the last one in
/// the table as it comes, or the first one outside as it goes. And whatever happens to the hits of
/// one key, at most one other comes in or goes out.
pub fn one_key()
    ensures comes { LastGoesOut }
    ensures goes { FirstComesIn }
    ensures any { OneOtherMoves }
{}

/// A law: the first key outside a table isn't in it.
pub fn first_outside()
    ensures { FirstIsOut }
{}

/// A law: if the keys of all hits fit a trigger's key items, they still do when a hit comes whose
/// key fits, and when a hit goes. So the text of a table that was fed by its trigger can be
/// written.
pub fn fitting_keys()
    ensures none { NoneFits }
    ensures comes { OneMoreFits }
    ensures goes { OneLessFits }
{}

/// A law: what the order of rows is. Any sort items give a total order, and rows that tie in it
/// have one key. Rows in order are the same rows, each as often as before, in that order; if their
/// keys differ, there is no other such list.
pub fn one_row_order()
    ensures total { (sort : List SortItem) → IsTotalOrder (row_cmp sort) }
    ensures ties { (sort : List SortItem) (a b : Counted) →
        row_cmp sort a b ≡ Equal → a.key ≡ b.key }
    ensures permutation { (sort : List SortItem) (rows : List Counted) →
        IsPermutation rows (in_order sort rows) }
    ensures sorted { (sort : List SortItem) (rows : List Counted) →
        IsSorted (row_cmp sort) (in_order sort rows) }
    ensures alone { (sort : List SortItem) (rows others : List Counted) →
        HasDistinctKeys rows → IsPermutation rows others → IsSorted (row_cmp sort) others →
        others ≡ in_order sort rows }
{}
