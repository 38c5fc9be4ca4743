//! What the words of a head name, once all its parts are read.

ghost use Rattle.std.specs.Prelude.{◌≡◌, ◌<◌, ◌≤◌, length, IfOk, IfSome, IfErr, option_map, false, Ok, ◌++◌, ◌∷◌, [], codes, if◌then◌else◌};
ghost use Rattle.std.specs.Option.{option_copied, option_map_or};
ghost use Rattle.std.specs.List.{find};
ghost use Rattle.std.specs.Str.{bytes_eq};
ghost use Rattle.ft_fields.specs.Fields.{field_text, is_field_named, all_fields};
ghost use Rattle.ft_hist.specs.declared.fault.TriggerFault.TheVariants.{NoField, BadSort};
ghost use Rattle.ft_hist.specs.declared.item.Item.TheVariants as items;
ghost use Rattle.ft_head.specs.Draft.{given_or, besides_hitcount};
ghost use Rattle.ft_text.specs.Items.{is_word};
ghost use Rattle.ft_trigger.specs.TriggerIs.{own_name, value_item, value_items, reads_as, hands_other, index_where, names_value, sort_by, is_descending, sorts_of, sort_of, by_hits};
ghost use Rattle.ft_head.specs.Given.{Gives};
ghost use Rattle.ft_head.specs.inner.Leaving.{Leaves};

use ft_fields::{Name, field_named, field_text};
use ft_head::{Action, TriggerFault, Word};
use ft_hist::{Item, KeyItem, SortBy, SortItem, Var};
use ft_text::is_same;
use std::alloc::Global;

/// The own name of a trigger's variable, if there is one.
#[tactic(auto, using(crate::proofs::ResolveLemmas::own_named))]
pub(crate) fn own_name(variable: &Option<Var>) -> Option<&[u8]>
    ensures { option_copied result ≡ own_name variable.now }
{
    variable.as_ref().map(Var::own_name)
}

/// What the words of values name, in order, without `hitcount`. A `$name` that is not the
/// trigger's own variable is a fault.
pub(crate) fn value_items(
    alloc: Global,
    event: Name,
    own: Option<&[u8]>,
    words: &[Word<'_>],
) -> Result<Vec<Item>, TriggerFault>
    ensures gives { Gives (λ values. values.items)
        (value_items event (option_copied own.entry) (besides_hitcount words.now)) result }
    ensures few { IfOk result (λ values.
        length values.items ≤ length (besides_hitcount words.now)) }
{
    let mut values = Vec::new(alloc);
    for word in words {
        add_value(&mut values, event, own, word)?;
    }
    Ok(values)
}

/// Adds what a word names as a value; `hitcount` adds nothing.
fn add_value(
    values: &mut Vec<Item>,
    event: Name,
    own: Option<&[u8]>,
    word: &Word<'_>,
) -> Result<(), TriggerFault>
    ensures { Leaves (if is_word word.now (codes "hitcount") then Ok values.old.items
        else given_or NoField (value_item event (option_copied own.entry) word.now)
        (λ value. Ok (values.old.items ++ value ∷ []))) values.new.items result }
{
    if word.is(b"hitcount") {
        return Ok(());
    }
    match value_item(event, own, word) {
        Some(value) => values.push(value).map_err(|_| TriggerFault::Memory),
        None => Err(TriggerFault::NoField),
    }
}

/// What a word names as a value.
fn value_item(event: Name, own: Option<&[u8]>, word: &Word<'_>) -> Option<Item>
    ensures { result ≡ value_item event (option_copied own.entry) word.now }
{
    if !word.dollar() {
        return field_value(event, word.name());
    }
    match own {
        Some(name) if is_same(word.name(), name) => Some(Item::Own),
        _ => None,
    }
}

/// The field of a name as a value.
fn field_value(event: Name, name: &[u8]) -> Option<Item>
    ensures { result ≡ option_map items.Num (find (is_field_named event name.now) all_fields) }
{
    match field_named(event, name) {
        Some(field) => Some(Item::Num(field)),
        None => None,
    }
}

/// Whether events are made of a name that isn't the trigger's own variable, or that variable reads
/// no stamp.
pub(crate) fn hands_other(variable: &Option<Var>, action: &Option<Action<'_>>) -> bool
    ensures { result ≡ hands_other variable.now action.now }
{
    match action {
        Some(action) => !reads_as(variable, action.own()),
        None => false,
    }
}

/// Whether the variable reads a stamp, and has this name.
fn reads_as(variable: &Option<Var>, name: &[u8]) -> bool
    ensures { result ≡ reads_as variable.now name.now }
{
    match variable {
        Some(Var::Reads { own, source: _ }) => is_same(name, own.bytes()),
        Some(Var::Saves(_)) | None => false,
    }
}

/// What the words of sort items name, in order. If there are no sort items, the trigger sorts only
/// by hits.
pub(crate) fn sort_of(
    alloc: Global,
    keys: &[KeyItem],
    values: &[Item],
    own: Option<&[u8]>,
    words: &Option<Vec<Word<'_>>>,
) -> Result<Vec<SortItem>, TriggerFault>
    requires keys { length keys.now ≤ 3 }
    requires values { length values.now ≤ 3 }
    requires words { IfSome words.now (λ words.
        (0 < length words.items) × (length words.items ≤ 2)) }
    ensures gives { Gives (λ sort. sort.items)
        (sort_of keys.now values.now (option_copied own.entry)
        (option_map (λ words. words.items) words.now)) result }
    ensures some { IfOk result (λ sort. 0 < length sort.items) }
    ensures few { IfOk result (λ sort. length sort.items ≤ 2) }
{
    match words {
        Some(words) => sorts_of(alloc, keys, values, own, words),
        None => by_hits(alloc),
    }
}

/// The one sort item of a trigger that names none.
fn by_hits(alloc: Global) -> Result<Vec<SortItem>, TriggerFault>
    ensures ok { IfOk result (λ sort. sort.items ≡ by_hits) }
    ensures err { IfErr result (λ fault. fault ≡ TriggerFault.Memory) }
{
    let hits = SortItem {
        what: SortBy::Hits,
        descending: false,
    };
    let mut sort = Vec::new(alloc);
    sort.push(hits).map_err(|_| TriggerFault::Memory)?;
    Ok(sort)
}

/// What the words of sort items name, in order. One that names nothing is a fault.
fn sorts_of(
    alloc: Global,
    keys: &[KeyItem],
    values: &[Item],
    own: Option<&[u8]>,
    words: &[Word<'_>],
) -> Result<Vec<SortItem>, TriggerFault>
    requires keys { length keys.now ≤ 3 }
    requires values { length values.now ≤ 3 }
    ensures gives { Gives (λ sort. sort.items)
        (sorts_of keys.now values.now (option_copied own.entry) words.now) result }
    ensures len { IfOk result (λ sort. length sort.items ≡ length words.now) }
{
    let mut sort = Vec::new(alloc);
    for word in words {
        let what = sort_by(keys, values, own, word);
        add_sort(&mut sort, what, is_descending(word))?;
    }
    Ok(sort)
}

/// Adds a sort item by what it names, if that is something.
fn add_sort(
    sort: &mut Vec<SortItem>,
    what: Option<SortBy>,
    descending: bool,
) -> Result<(), TriggerFault>
    ensures { Leaves (given_or BadSort what
        (λ what. Ok (sort.old.items ++ record { what = what; descending = descending } ∷ [])))
        sort.new.items result }
{
    match what {
        Some(what) => sort
            .push(SortItem { what, descending })
            .map_err(|_| TriggerFault::Memory),
        None => Err(TriggerFault::BadSort),
    }
}

/// What a word names as a sort item: `hitcount`, a key's field, or a value; a key before a value.
#[tactic(auto, unfolding(crate::specs::TriggerIs::sort_by))]
fn sort_by(keys: &[KeyItem], values: &[Item], own: Option<&[u8]>, word: &Word<'_>) -> Option<SortBy>
    requires keys { length keys.now ≤ 3 }
    requires values { length values.now ≤ 3 }
    ensures { result ≡ sort_by keys.now values.now (option_copied own.entry) word.now }
{
    if word.is(b"hitcount") {
        return Some(SortBy::Hits);
    }
    match key_named(keys, word) {
        Some(number) => Some(SortBy::Key(number)),
        None => match value_named(values, own, word) {
            Some(number) => Some(SortBy::Value(number)),
            None => None,
        },
    }
}

/// The number of the first key of the word's field, from 0.
fn key_named(keys: &[KeyItem], word: &Word<'_>) -> Option<u8>
    requires { length keys.now ≤ 3 }
    ensures { result ≡ index_where (λ key. is_word word.now (field_text key.field)) 0 keys.now }
{
    let mut number = 0;
    for key in keys {
        if word.is(field_text(key.field)) {
            return Some(number);
        }
        number += 1;
    }
    None
}

/// The number of the first value that the word names, from 0.
fn value_named(values: &[Item], own: Option<&[u8]>, word: &Word<'_>) -> Option<u8>
    requires { length values.now ≤ 3 }
    ensures { result ≡ index_where (names_value (option_copied own.entry) word.now) 0 values.now }
{
    let mut number = 0;
    for value in values {
        if names_value(own, word, *value) {
            return Some(number);
        }
        number += 1;
    }
    None
}

/// Whether the word names the value: a field, or the own variable with its `$`.
fn names_value(own: Option<&[u8]>, word: &Word<'_>, value: Item) -> bool
    ensures { result ≡ names_value (option_copied own.entry) word.now value }
{
    match value {
        Item::Num(field) => word.is(field_text(field)),
        Item::Own => word.dollar() && is_own(own, word.name()),
    }
}

/// Whether the name is the own variable's.
fn is_own(own: Option<&[u8]>, name: &[u8]) -> bool
    ensures { result ≡ option_map_or (bytes_eq name.now) (option_copied own.entry) false }
{
    match own {
        Some(own) => is_same(name, own),
        None => false,
    }
}

/// Whether the sort item says that the greatest comes first.
fn is_descending(word: &Word<'_>) -> bool
    ensures { result ≡ is_descending word.now }
{
    match word.suffix() {
        Some(suffix) => is_same(b"descending", suffix),
        None => false,
    }
}
