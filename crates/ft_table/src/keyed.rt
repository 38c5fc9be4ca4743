//! The rows of a table one by one, each as a text.

ghost use Rattle.std.specs.Prelude.{◌≡◌, IfOk, option_map, map as list_map};

use crate::row::TableRow;
use crate::table::Table;
use crate::text::{row_text, table_rows};
use ft_hist::{Key, Trigger};
use std::alloc::{AllocError, Global};

impl Table {
    ghost use Rattle.ft_table.specs.Text.{row_text, keyed_text};
    ghost use Rattle.ft_table.specs.Rows.{row_at, rows_of, AllFit};

    /// The rows of a trigger's table in the order in which `write` adds them, each with its key,
    /// and with its text without the line break. Refused for memory.
    pub fn keyed_rows(&self, alloc: Global, trigger: &Trigger) -> Result<Vec<TableRow>, AllocError>
        requires { AllFit self.now trigger.now }
        ensures { IfOk result (λ rows. rows.items
            ≡ list_map (keyed_text trigger.now) (rows_of self.now trigger.now.sort)) }
    {
        crate::laws::one_row_order();
        let rows = self.rows(trigger.sort())?;
        table_rows(alloc, trigger, &rows)
    }

    /// The text of a key's row as `write` adds it, except for the line break; none if the key isn't
    /// in the table. Refused for memory.
    pub fn text_of_row(
        &self,
        alloc: Global,
        trigger: &Trigger,
        key: &Key,
    ) -> Result<Option<Vec<u8>>, AllocError>
        requires { AllFit self.now trigger.now }
        ensures { IfOk result (λ text. option_map (λ t. t.items) text
            ≡ option_map (row_text trigger.now) (row_at self.now key.now)) }
    {
        match self.row(key) {
            Some(row) => Ok(Some(row_text(alloc, trigger, &row)?)),
            None => Ok(None),
        }
    }
}
