//! The text of a table.

ghost use Rattle.std.specs.Prelude.{◌≡◌, ◌+◌, ◌<◌, ◌++◌, All, OnOk, OnErr, IfOk};
ghost use Rattle.std.specs.Prelude.{decimal, map};
ghost use Rattle.std.specs.Option.{option_copied};
ghost use Rattle.ft_hist.specs.Fitting.{KeyFits};
ghost use Rattle.ft_text.specs.Fronts.{IsFront};
ghost use Rattle.ft_table.specs.Text.{listed_parts, key_text, title, sums_text};
ghost use Rattle.ft_table.specs.Text.{row_text, row_line, keyed_text, totals_text, rows_text, heading};

use crate::number::write_in_10;
use crate::part::write_named;
use crate::row::{Row, TableRow, Totals};
use ft_fields::field_text;
use ft_hist::{Item, Key, Trigger, Var};
use ft_text::write_decimal;
use std::alloc::{AllocError, Global};

/// Adds the lines above the rows. What it added before a refusal stays.
#[tactic(auto, unfolding(crate::specs::Text::heading))]
pub fn write_heading(trigger: &Trigger, text: &mut Vec<u8>) -> Result<(), AllocError>
    ensures { OnOk result (text.new.items ≡ text.old.items ++ heading trigger.now) }
{
    text.extend_from_slice(b"# event histogram\n#\n# trigger info: ")?;
    trigger.write(text)?;
    text.extend_from_slice(b" [active]\n#\n\n")
}

/// Adds the text of a table from its first row on: the rows, one per line, and the totals. After a
/// refusal the old bytes are a front of what is there.
pub fn write_rows(
    trigger: &Trigger,
    rows: &[Row],
    totals: Totals,
    text: &mut Vec<u8>,
) -> Result<(), AllocError>
    requires { All (λ row. KeyFits trigger.now.keys row.key) rows.now }
    ensures ok { OnOk result (text.new.items
        ≡ text.old.items ++ rows_text trigger.now rows.now totals) }
    ensures err { OnErr result (IsFront text.old.items text.new.items) }
{
    for row in rows {
        write_line(trigger, row, text)?;
    }
    write_totals(totals, text)
}

/// The rows with their texts, in the same order. Refused for memory.
pub fn table_rows(
    alloc: Global,
    trigger: &Trigger,
    rows: &[Row],
) -> Result<Vec<TableRow>, AllocError>
    requires { All (λ row. KeyFits trigger.now.keys row.key) rows.now }
    ensures { IfOk result (λ keyed. keyed.items ≡ map (keyed_text trigger.now) rows.now) }
{
    let mut keyed = Vec::with_capacity(alloc, rows.len())?;
    for row in rows {
        let text = row_text(alloc, trigger, row)?;
        keyed.push(TableRow { key: row.key, text })?;
    }
    Ok(keyed)
}

/// The text of a row as `write_rows` adds it, except for the line break. Refused for memory.
pub fn row_text(alloc: Global, trigger: &Trigger, row: &Row) -> Result<Vec<u8>, AllocError>
    requires { KeyFits trigger.now.keys row.now.key }
    ensures { IfOk result (λ text. text.items ≡ row_text trigger.now row.now) }
{
    let mut text = Vec::new(alloc);
    write_row(trigger, row, &mut text)?;
    Ok(text)
}

/// Adds a row's line.
fn write_line(trigger: &Trigger, row: &Row, text: &mut Vec<u8>) -> Result<(), AllocError>
    requires { KeyFits trigger.now.keys row.now.key }
    ensures ok { OnOk result (text.new.items ≡ text.old.items ++ row_line trigger.now row.now) }
    ensures err { OnErr result (IsFront text.old.items text.new.items) }
{
    write_row(trigger, row, text)?;
    text.extend_from_slice(b"\n")
}

/// Adds a row's text.
fn write_row(trigger: &Trigger, row: &Row, text: &mut Vec<u8>) -> Result<(), AllocError>
    requires { KeyFits trigger.now.keys row.now.key }
    ensures ok { OnOk result (text.new.items ≡ text.old.items ++ row_text trigger.now row.now) }
    ensures err { OnErr result (IsFront text.old.items text.new.items) }
{
    write_key(trigger, &row.key, text)?;
    text.extend_from_slice(b" hitcount: ")?;
    write_in_10(row.hitcount, text)?;
    write_sums(trigger, &row.sums, text)
}

/// Adds a key: its parts in braces, with a `, ` between each two.
fn write_key(trigger: &Trigger, key: &Key, text: &mut Vec<u8>) -> Result<(), AllocError>
    requires { KeyFits trigger.now.keys key.now }
    ensures ok { OnOk result (text.new.items
        ≡ text.old.items ++ key_text trigger.now.keys key.now) }
    ensures err { OnErr result (IsFront text.old.items text.new.items) }
{
    text.extend_from_slice(b"{ ")?;
    write_parts(trigger, key, text)?;
    text.extend_from_slice(b" }")
}

/// Adds the parts of a key with a `, ` between each two.
fn write_parts(trigger: &Trigger, key: &Key, text: &mut Vec<u8>) -> Result<(), AllocError>
    requires { KeyFits trigger.now.keys key.now }
    ensures ok { OnOk result (text.new.items
        ≡ text.old.items ++ listed_parts trigger.now.keys key.now) }
    ensures err { OnErr result (IsFront text.old.items text.new.items) }
{
    let items = trigger.keys();
    write_named(items[0], key.part(0).unwrap(), text)?;
    for at in 1..items.len() {
        text.extend_from_slice(b", ")?;
        write_named(items[at], key.part(at).unwrap(), text)?;
    }
    Ok(())
}

/// Adds the sums, each after its title.
fn write_sums(trigger: &Trigger, sums: &[u64; 3], text: &mut Vec<u8>) -> Result<(), AllocError>
    ensures ok { OnOk result (text.new.items ≡ text.old.items
        ++ sums_text trigger.now.variable trigger.now.values sums.now) }
    ensures err { OnErr result (IsFront text.old.items text.new.items) }
{
    let values = trigger.values();
    for at in 0..values.len() {
        text.extend_from_slice(b"  ")?;
        text.extend_from_slice(title(trigger.variable(), values[at]))?;
        text.extend_from_slice(b": ")?;
        write_in_10(sums[at], text)?;
    }
    Ok(())
}

/// What a value is called: its field's name, or the variable's own name.
fn title(variable: Option<&Var>, item: Item) -> &[u8]
    ensures { result.now ≡ title (option_copied variable.entry) item }
{
    match (item, variable) {
        (Item::Num(field), _) => field_text(field),
        (Item::Own, Some(variable)) => variable.own_name(),
        (Item::Own, None) => b"",
    }
}

/// Adds the totals, below an empty line.
fn write_totals(totals: Totals, text: &mut Vec<u8>) -> Result<(), AllocError>
    ensures ok { OnOk result (text.new.items ≡ text.old.items ++ totals_text totals) }
    ensures err { OnErr result (IsFront text.old.items text.new.items) }
{
    write_total(b"\nTotals:\n    Hits: ", totals.hits, text)?;
    write_total(b"\n    Entries: ", totals.entries, text)?;
    write_total(b"\n    Dropped: ", totals.dropped, text)?;
    text.extend_from_slice(b"\n")
}

/// Adds a total after its name.
fn write_total(name: &[u8], number: u64, text: &mut Vec<u8>) -> Result<(), AllocError>
    ensures ok { OnOk result (text.new.items ≡ text.old.items ++ (name.now ++ decimal number)) }
    ensures err { OnErr result (IsFront text.old.items text.new.items) }
{
    text.extend_from_slice(name)?;
    write_decimal(number, text)
}
