//! What a trigger with a table answers, however the table is kept.

ghost use Rattle.std.specs.Prelude.{◌≡◌, List, IfOk, option_map};
ghost use Rattle.ft_table.specs.Rows.{AllFit};
ghost use Rattle.ft_answers.specs.Answers.{tally_text, tally_row_texts, tally_row_text, tally_rows};
ghost use Rattle.ft_answers.specs.Rows.{RowsMakeText, RowIsAmong};
ghost use Rattle.ft_replay.specs.Tally.{tally_of};
ghost use Rattle.ft_replay.specs.declared.pair.Pair.{Pair};

use ft_hist::{Key, Trigger};
use ft_table::{Row, Table, TableRow};
use std::alloc::{AllocError, Global};

/// The text of a trigger with this table. Refused for memory.
pub fn table_text(alloc: Global, trigger: &Trigger, table: &Table) -> Result<Vec<u8>, AllocError>
    requires { AllFit table.now trigger.now }
    ensures { IfOk result (λ text. (pairs : List Pair)
        → text.items ≡ tally_text trigger.now (tally_of table.now pairs)) }
{
    ft_table::laws::one_row_order();
    table.text(alloc, trigger)
}

/// The rows of a trigger with this table. Refused for memory.
pub fn table_row_texts(
    alloc: Global,
    trigger: &Trigger,
    table: &Table,
) -> Result<Vec<TableRow>, AllocError>
    requires { AllFit table.now trigger.now }
    ensures { IfOk result (λ rows. (pairs : List Pair)
        → rows.items ≡ tally_row_texts trigger.now (tally_of table.now pairs)) }
{
    ft_table::laws::one_row_order();
    table.keyed_rows(alloc, trigger)
}

/// The rows of a trigger with this table, in numbers. Refused for memory.
pub fn table_rows(trigger: &Trigger, table: &Table) -> Result<Vec<Row>, AllocError>
    ensures { IfOk result (λ rows. (pairs : List Pair)
        → rows.items ≡ tally_rows trigger.now (tally_of table.now pairs)) }
{
    ft_table::laws::one_row_order();
    table.rows(trigger.sort())
}

/// The text of a key's row of a trigger with this table; none if the key isn't in it. Refused for
/// memory.
pub fn table_row_text(
    alloc: Global,
    trigger: &Trigger,
    table: &Table,
    key: &Key,
) -> Result<Option<Vec<u8>>, AllocError>
    requires { AllFit table.now trigger.now }
    ensures { IfOk result (λ text. (pairs : List Pair) → option_map (λ t. t.items) text
        ≡ tally_row_text trigger.now (tally_of table.now pairs) key.now) }
{
    table.text_of_row(alloc, trigger, key)
}

/// A law: the text of a trigger's table is the lines above its rows, the texts of its rows, each
/// with a line break, and its totals. The text of a key's row is the one that it has among all
/// rows, and there is none for a key without a row there.
pub fn rows_make_the_text()
    ensures text { RowsMakeText }
    ensures row { RowIsAmong }
{
    ft_table::laws::one_row_order();
    ft_replay::counted_hits();
    ft_made::made_counters();
    ft_made::made_tallies();
}
