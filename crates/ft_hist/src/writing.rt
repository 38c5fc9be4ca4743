//! The canonical text of a trigger, which is the one that is printed.

#![tactic(auto)]

ghost use Rattle.std.specs.Prelude.{◌≡◌, ◌++◌, OnOk, OnErr, map, option_map, codes, decimal};
ghost use Rattle.std.specs.Option.{option_copied};
ghost use Rattle.ft_text.specs.Fronts.{IsFront};
ghost use Rattle.ft_hist.specs.Canonical.{canonical, listed, more_items, key_item_text};
ghost use Rattle.ft_hist.specs.Canonical.{value_text, by_text, sort_text};
ghost use Rattle.ft_hist.specs.Canonical.{variable_name, variable_text, if_text};
ghost use Rattle.ft_hist.specs.Canonical.{matching_text, param_text, making_text, onmatch_text};

use crate::item::{Item, KeyItem, SortBy, SortItem};
use crate::label::{Label, Var};
use crate::onmatch::Onmatch;
use crate::trigger::Trigger;
use ft_fields::{Field, Name, field_text};
use ft_filter::Filter;
use ft_text::write_decimal;
use std::alloc::AllocError;

impl Trigger {
    /// Adds its canonical text. After a refusal the vector holds its old bytes.
    pub fn write(&self, text: &mut Vec<u8>) -> Result<(), AllocError>
        ensures ok { OnOk result (text.new.items ≡ text.old.items ++ canonical self.now) }
        ensures err { OnErr result (text.new.items ≡ text.old.items) }
    {
        let len = text.len();
        match write_trigger(self, text) {
            Ok(()) => Ok(()),
            Err(refused) => {
                text.truncate(len);
                Err(refused)
            }
        }
    }
}

/// Adds the text of a trigger. What it added before a refusal stays, here and below.
fn write_trigger(trigger: &Trigger, text: &mut Vec<u8>) -> Result<(), AllocError>
    ensures ok { OnOk result (text.new.items ≡ text.old.items ++ canonical trigger.now) }
    ensures err { OnErr result (IsFront text.old.items text.new.items) }
{
    write_counted(trigger, text)?;
    write_variable(trigger.variable(), text)?;
    write_table(trigger, text)?;
    write_onmatch(trigger, text)?;
    write_filter(trigger.filter(), text)
}

/// Adds what is counted: the keys, and the values with `hitcount` in front.
fn write_counted(trigger: &Trigger, text: &mut Vec<u8>) -> Result<(), AllocError>
    ensures ok { OnOk result (text.new.items ≡ text.old.items
        ++ (codes "hist:keys=" ++ listed (map key_item_text trigger.now.keys)
        ++ codes ":vals=hitcount"
        ++ more_items (map (value_text trigger.now.variable) trigger.now.values))) }
    ensures err { OnErr result (IsFront text.old.items text.new.items) }
{
    text.extend_from_slice(b"hist:keys=")?;
    write_keys(trigger.keys(), text)?;
    text.extend_from_slice(b":vals=hitcount")?;
    write_values(trigger, text)
}

/// Adds how the table is printed and how large it is: the sort items and the size.
fn write_table(trigger: &Trigger, text: &mut Vec<u8>) -> Result<(), AllocError>
    ensures ok { OnOk result (text.new.items ≡ text.old.items
        ++ (codes ":sort=" ++ listed (map (sort_text trigger.now) trigger.now.sort)
        ++ codes ":size=" ++ decimal trigger.now.size)) }
    ensures err { OnErr result (IsFront text.old.items text.new.items) }
{
    text.extend_from_slice(b":sort=")?;
    write_sort(trigger, text)?;
    text.extend_from_slice(b":size=")?;
    write_decimal(u64::from(trigger.size()), text)
}

/// Adds key items with a `,` between each two.
fn write_keys(keys: &[KeyItem], text: &mut Vec<u8>) -> Result<(), AllocError>
    ensures ok { OnOk result (text.new.items ≡ text.old.items ++ listed (map key_item_text keys.now)) }
    ensures err { OnErr result (IsFront text.old.items text.new.items) }
{
    if keys.is_empty() {
        return Ok(());
    }
    write_key(keys[0], text)?;
    for at in 1..keys.len() {
        text.extend_from_slice(b",")?;
        write_key(keys[at], text)?;
    }
    Ok(())
}

/// Adds a key item: a field and its modifier.
fn write_key(key: KeyItem, text: &mut Vec<u8>) -> Result<(), AllocError>
    ensures ok { OnOk result (text.new.items ≡ text.old.items ++ key_item_text key) }
    ensures err { OnErr result (IsFront text.old.items text.new.items) }
{
    text.extend_from_slice(field_text(key.field))?;
    key.mode.write(text)
}

/// Adds the value items, each after a `,`.
fn write_values(trigger: &Trigger, text: &mut Vec<u8>) -> Result<(), AllocError>
    ensures ok { OnOk result (text.new.items ≡ text.old.items
        ++ more_items (map (value_text trigger.now.variable) trigger.now.values)) }
    ensures err { OnErr result (IsFront text.old.items text.new.items) }
{
    let values = trigger.values();
    for at in 0..values.len() {
        text.extend_from_slice(b",")?;
        write_value(trigger.variable(), values[at], text)?;
    }
    Ok(())
}

/// Adds a value item: a field, or the own variable after a `$`.
fn write_value(variable: Option<&Var>, item: Item, text: &mut Vec<u8>) -> Result<(), AllocError>
    ensures ok { OnOk result (text.new.items ≡ text.old.items
        ++ value_text (option_copied variable.entry) item) }
    ensures err { OnErr result (IsFront text.old.items text.new.items) }
{
    match item {
        Item::Num(field) => text.extend_from_slice(field_text(field)),
        Item::Own => {
            text.extend_from_slice(b"$")?;
            match variable {
                Some(variable) => text.extend_from_slice(variable.own_name()),
                // A trigger sums its variable only if it has one.
                None => Ok(()),
            }
        }
    }
}

/// Adds a variable's part after a `:`, if there is a variable.
fn write_variable(variable: Option<&Var>, text: &mut Vec<u8>) -> Result<(), AllocError>
    ensures ok { OnOk result (text.new.items ≡ text.old.items
        ++ variable_text (option_copied variable.entry)) }
    ensures err { OnErr result (IsFront text.old.items text.new.items) }
{
    match variable {
        None => Ok(()),
        Some(Var::Saves(name)) => {
            write_name(name, text)?;
            text.extend_from_slice(b"=common_timestamp.usecs")
        }
        Some(Var::Reads { own, source }) => {
            write_name(own, text)?;
            text.extend_from_slice(b"=common_timestamp.usecs-$")?;
            text.extend_from_slice(source.bytes())
        }
    }
}

/// Adds a variable's own name after a `:`.
fn write_name(name: &Label, text: &mut Vec<u8>) -> Result<(), AllocError>
    ensures ok { OnOk result (text.new.items ≡ text.old.items ++ (codes ":" ++ name.now)) }
    ensures err { OnErr result (IsFront text.old.items text.new.items) }
{
    text.extend_from_slice(b":")?;
    text.extend_from_slice(name.bytes())
}

/// Adds the sort items with a `,` between each two.
fn write_sort(trigger: &Trigger, text: &mut Vec<u8>) -> Result<(), AllocError>
    ensures ok { OnOk result (text.new.items ≡ text.old.items
        ++ listed (map (sort_text trigger.now) trigger.now.sort)) }
    ensures err { OnErr result (IsFront text.old.items text.new.items) }
{
    let items = trigger.sort();
    if items.is_empty() {
        return Ok(());
    }
    write_sort_item(trigger, items[0], text)?;
    for at in 1..items.len() {
        text.extend_from_slice(b",")?;
        write_sort_item(trigger, items[at], text)?;
    }
    Ok(())
}

/// Adds a sort item, with the suffix `.descending` exactly if the greatest comes first.
fn write_sort_item(trigger: &Trigger, item: SortItem, text: &mut Vec<u8>) -> Result<(), AllocError>
    ensures ok { OnOk result (text.new.items ≡ text.old.items ++ sort_text trigger.now item) }
    ensures err { OnErr result (IsFront text.old.items text.new.items) }
{
    write_by(trigger, item.what, text)?;
    if item.descending {
        text.extend_from_slice(b".descending")?;
    }
    Ok(())
}

/// Adds what rows are sorted by: `hitcount`, a key's field, or a value.
fn write_by(trigger: &Trigger, by: SortBy, text: &mut Vec<u8>) -> Result<(), AllocError>
    ensures ok { OnOk result (text.new.items ≡ text.old.items ++ by_text trigger.now by) }
    ensures err { OnErr result (IsFront text.old.items text.new.items) }
{
    match by {
        SortBy::Hits => text.extend_from_slice(b"hitcount"),
        SortBy::Key(at) => match trigger.keys().get(at as usize) {
            Some(key) => text.extend_from_slice(field_text(key.field)),
            // A trigger sorts by keys that it has, and by values that it has.
            None => Ok(()),
        },
        SortBy::Value(at) => match trigger.values().get(at as usize) {
            Some(item) => write_value(trigger.variable(), *item, text),
            None => Ok(()),
        },
    }
}

/// Adds an onmatch part after a `:`, if there is one.
fn write_onmatch(trigger: &Trigger, text: &mut Vec<u8>) -> Result<(), AllocError>
    ensures ok { OnOk result (text.new.items ≡ text.old.items
        ++ onmatch_text trigger.now.variable trigger.now.onmatch) }
    ensures err { OnErr result (IsFront text.old.items text.new.items) }
{
    match trigger.onmatch() {
        None => Ok(()),
        Some(onmatch) => {
            text.extend_from_slice(b":")?;
            write_matching(onmatch.event, text)?;
            write_making(trigger.variable(), onmatch, text)
        }
    }
}

/// Adds the event at which the stamp is saved, after `onmatch`.
fn write_matching(event: Name, text: &mut Vec<u8>) -> Result<(), AllocError>
    ensures ok { OnOk result (text.new.items ≡ text.old.items ++ matching_text event) }
    ensures err { OnErr result (IsFront text.old.items text.new.items) }
{
    text.extend_from_slice(b"onmatch(sched.")?;
    match event.text() {
        Some(name) => text.extend_from_slice(name),
        // It is one of the four events that a trace names.
        None => Ok(()),
    }
}

/// Adds the event that is made, with what is handed on.
fn write_making(
    variable: Option<&Var>,
    onmatch: &Onmatch,
    text: &mut Vec<u8>,
) -> Result<(), AllocError>
    ensures ok { OnOk result (text.new.items ≡ text.old.items
        ++ making_text (variable_name (option_copied variable.entry)) onmatch.now) }
    ensures err { OnErr result (IsFront text.old.items text.new.items) }
{
    write_own(variable, text)?;
    write_param(onmatch.pid, text)?;
    write_param(onmatch.prio, text)?;
    text.extend_from_slice(b")")
}

/// Adds the name of the event that is made, and the own variable.
fn write_own(variable: Option<&Var>, text: &mut Vec<u8>) -> Result<(), AllocError>
    ensures ok { OnOk result (text.new.items ≡ text.old.items
        ++ (codes ").wakeup_latency($" ++ variable_name (option_copied variable.entry))) }
    ensures err { OnErr result (IsFront text.old.items text.new.items) }
{
    text.extend_from_slice(b").wakeup_latency($")?;
    match variable {
        Some(variable) => text.extend_from_slice(variable.own_name()),
        // A trigger with an onmatch part has a variable.
        None => Ok(()),
    }
}

/// Adds a field that is handed on, after a `,`.
fn write_param(field: Field, text: &mut Vec<u8>) -> Result<(), AllocError>
    ensures ok { OnOk result (text.new.items ≡ text.old.items ++ param_text field) }
    ensures err { OnErr result (IsFront text.old.items text.new.items) }
{
    text.extend_from_slice(b",")?;
    text.extend_from_slice(field_text(field))
}

/// Adds a filter, if there is one, after `if`.
fn write_filter(filter: Option<&Filter>, text: &mut Vec<u8>) -> Result<(), AllocError>
    ensures ok { OnOk result (text.new.items ≡ text.old.items
        ++ if_text (option_map (λ f. f.tree) (option_copied filter.entry))) }
    ensures err { OnErr result (IsFront text.old.items text.new.items) }
{
    match filter {
        None => Ok(()),
        Some(filter) => {
            text.extend_from_slice(b" if ")?;
            filter.write(text)
        }
    }
}
