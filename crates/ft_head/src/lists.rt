//! The lists of a trigger's head: keys, values, sort items.

ghost use Rattle.std.specs.Prelude.{◌≡◌, ◌<◌, ◌≤◌, length, false, IfOk, OnOk, Ok, Some, None, codes, ◌∷◌, [], ◌++◌, ℕ, not, ◌&&◌, nat_le, List, Result, Err};
ghost use Rattle.std.specs.Option.{option_copied, option_map_or, is_some};
ghost use Rattle.std.specs.List.{list_any};
ghost use Rattle.ft_hist.specs.declared.fault.TriggerFault.TheVariants.{Syntax, LeftOut, BadModifier};
ghost use Rattle.ft_hist.specs.declared.fault.TriggerFault.{TriggerFault};
ghost use Rattle.ft_text.specs.Items.{Word, word_of, is_word, same_word};
ghost use Rattle.ft_head.specs.Draft.{given_or, unless, items_of, with_key, with_value, with_sort, is_left_out, mode_of, number_mode, buckets_of, is_key, besides_hitcount, value_fault, is_direction, is_no_key, with_field};
ghost use Rattle.ft_head.specs.Given.{Gives};
ghost use Rattle.ft_head.specs.inner.Leaving.{Leaves};

use ft_fields::{Field, Name, field_named, field_text};
use ft_hist::{KeyItem, Mode, TriggerFault, mode_named};
use ft_text::{Piece, Pieces, Word, is_same, number_in, word_of};
use std::alloc::Global;

/// Most keys of a trigger.
const MOST_KEYS: usize = 3;

/// Most values of a trigger besides `hitcount`.
const MOST_VALUES: usize = 3;

/// Most sort items of a trigger.
const MOST_SORT_ITEMS: usize = 2;

/// The key items of a part's list.
pub(crate) fn keys_of(
    alloc: Global,
    event: Name,
    list: &Piece<'_>,
) -> Result<Vec<KeyItem>, TriggerFault>
    ensures gives { Gives (λ keys. keys.items)
        (items_of (with_key event) list.now.place list.now.bytes) result }
    ensures some { IfOk result (λ keys. 0 < length keys.items) }
    ensures few { IfOk result (λ keys. length keys.items ≤ 3) }
{
    let mut keys = Vec::new(alloc);
    let mut items = Pieces::of(list, b',');
    while let Some(item) = items.next_piece() {
        add_key(&mut keys, event, &item)?;
    }
    Ok(keys)
}

/// Adds one more key item.
fn add_key(keys: &mut Vec<KeyItem>, event: Name, item: &Piece<'_>) -> Result<(), TriggerFault>
    ensures leaves { Leaves
        (given_or (Syntax item.now.place) (word_of item.now.bytes)
        (with_key event keys.old.items item.now.place))
        keys.new.items result }
    ensures some { OnOk result (0 < length keys.new.items) }
    ensures few { OnOk result (length keys.new.items ≤ 3) }
{
    match word_of(item.bytes()) {
        Some(word) => with_key(keys, event, item.place(), &word),
        None => Err(TriggerFault::Syntax(item.place())),
    }
}

/// Adds the key item of a word that begins at a place.
#[tactic(auto, unfolding(crate::specs::Draft::with_key))]
fn with_key(
    keys: &mut Vec<KeyItem>,
    event: Name,
    place: usize,
    word: &Word<'_>,
) -> Result<(), TriggerFault>
    ensures leaves { Leaves (with_key event keys.old.items place word.now) keys.new.items result }
    ensures some { OnOk result (0 < length keys.new.items) }
    ensures few { OnOk result (length keys.new.items ≤ 3) }
{
    if keys.len() >= MOST_KEYS {
        return Err(TriggerFault::TooMany);
    }
    if is_no_key(word) {
        return Err(TriggerFault::LeftOut(place));
    }
    match field_named(event, word.name()) {
        Some(field) => with_field(keys, place, field, word.suffix()),
        None => Err(TriggerFault::NoField),
    }
}

/// Whether the word is no key, though the kernel has it: a variable, a stamp, a stack trace.
fn is_no_key(word: &Word<'_>) -> bool
    ensures { result ≡ is_no_key word.now }
{
    let name = word.name();
    word.dollar()
        || is_same(name, b"common_timestamp")
        || is_same(name, b"stacktrace")
        || is_same(name, b"common_stacktrace")
}

/// Adds the key item of a field with what stands after its `.`.
fn with_field(
    keys: &mut Vec<KeyItem>,
    place: usize,
    field: Field,
    suffix: Option<&[u8]>,
) -> Result<(), TriggerFault>
    requires { length keys.old.items < 3 }
    ensures leaves { Leaves (with_field keys.old.items place field (option_copied suffix.entry))
        keys.new.items result }
    ensures some { OnOk result (0 < length keys.new.items) }
    ensures few { OnOk result (length keys.new.items ≤ 3) }
{
    if is_left_out(suffix) {
        return Err(TriggerFault::LeftOut(place));
    }
    match mode_of(field.is_text(), suffix) {
        Some(mode) => {
            if is_key(keys, field) {
                return Err(TriggerFault::Duplicate);
            }
            keep(keys, KeyItem { field, mode })
        }
        None => Err(TriggerFault::BadModifier),
    }
}

/// Adds to a list. Refused for memory.
fn keep<T: Drop>(list: &mut Vec<T>, item: T) -> Result<(), TriggerFault>
    ensures { Leaves (Ok (list.old.items ++ item ∷ [])) list.new.items result }
{
    match list.push(item) {
        Ok(()) => Ok(()),
        Err(_) => Err(TriggerFault::Memory),
    }
}

/// Whether there is a modifier, and the kernel has it and the desk has not.
fn is_left_out(suffix: Option<&[u8]>) -> bool
    ensures { result ≡ is_left_out (option_copied suffix.entry) }
{
    match suffix {
        Some(suffix) => is_left_out_modifier(suffix),
        None => false,
    }
}

/// Whether the modifier is one that the kernel has and the desk has not.
fn is_left_out_modifier(suffix: &[u8]) -> bool
    ensures { result ≡ is_left_out (Some suffix.now) }
{
    is_same(suffix, b"execname")
        || is_same(suffix, b"sym")
        || is_same(suffix, b"sym-offset")
        || is_same(suffix, b"syscall")
        || is_same(suffix, b"percent")
        || is_same(suffix, b"graph")
        || is_same(suffix, b"stacktrace")
}

/// What a modifier makes of a field that holds texts, or of one that holds numbers.
fn mode_of(is_text: bool, suffix: Option<&[u8]>) -> Option<Mode>
    ensures { result ≡ mode_of is_text (option_copied suffix.entry) }
{
    match suffix {
        None => Some(Mode::Plain),
        Some(_) if is_text => None,
        Some(suffix) => number_mode(suffix),
    }
}

/// The modifier that stands after a `.`: a name and nothing else, or buckets of a size.
fn number_mode(suffix: &[u8]) -> Option<Mode>
    ensures { result ≡ number_mode suffix.now }
{
    match mode_named(suffix) {
        Some(mode) => Some(mode),
        None => buckets_of(suffix),
    }
}

/// Buckets of a size.
fn buckets_of(suffix: &[u8]) -> Option<Mode>
    ensures { result ≡ buckets_of suffix.now }
{
    match suffix.strip_prefix(b"buckets=") {
        Some(size) => number_in(size, 1, u32::MAX).map(Mode::Buckets),
        None => None,
    }
}

/// Whether the field is a key's.
fn is_key(keys: &[KeyItem], field: Field) -> bool
    ensures { result ≡ is_key keys.now field }
{
    keys.iter()
        .any(|key| field_text(key.field) == field_text(field))
}

/// The words of a part's list of values.
pub(crate) fn value_words<'a>(
    alloc: Global,
    event: Name,
    list: &Piece<'a>,
) -> Result<Vec<Word<'a>>, TriggerFault>
    ensures gives { Gives (λ words. words.items)
        (items_of (with_value event) list.now.place list.now.bytes) result }
    ensures few { IfOk result (λ words. length (besides_hitcount words.items) ≤ 3) }
{
    let mut words = Vec::new(alloc);
    let mut items = Pieces::of(list, b',');
    while let Some(item) = items.next_piece() {
        add_value(&mut words, event, &item)?;
    }
    Ok(words)
}

/// Adds one more value item.
fn add_value<'a>(
    words: &mut Vec<Word<'a>>,
    event: Name,
    item: &Piece<'a>,
) -> Result<(), TriggerFault>
    requires { length (besides_hitcount words.old.items) ≤ 3 }
    ensures leaves { Leaves
        (given_or (Syntax item.now.place) (word_of item.now.bytes)
        (with_value event words.old.items item.now.place))
        words.new.items result }
    ensures few { OnOk result (length (besides_hitcount words.new.items) ≤ 3) }
{
    match word_of(item.bytes()) {
        Some(word) => with_value(words, event, item.place(), word),
        None => Err(TriggerFault::Syntax(item.place())),
    }
}

/// Adds, as a value, a word that begins at a place.
#[tactic(auto, unfolding(crate::specs::Draft::with_value))]
fn with_value<'a>(
    words: &mut Vec<Word<'a>>,
    event: Name,
    place: usize,
    word: Word<'a>,
) -> Result<(), TriggerFault>
    requires { length (besides_hitcount words.old.items) ≤ 3 }
    ensures leaves { Leaves (with_value event words.old.items place word.entry)
        words.new.items result }
    ensures few { OnOk result (length (besides_hitcount words.new.items) ≤ 3) }
{
    if is_one_too_many(words, &word) {
        return Err(TriggerFault::TooMany);
    }
    if let Some(fault) = word_fault(event, place, &word) {
        return Err(fault);
    }
    if has_word(words, &word) {
        return Err(TriggerFault::Duplicate);
    }
    keep(words, word)
}

/// Whether the word is no `hitcount`, and as many others stand already as a trigger may have.
fn is_one_too_many(words: &[Word<'_>], word: &Word<'_>) -> bool
    ensures { result ≡ (not (is_word word.now (codes "hitcount"))
        && nat_le 3 (length (besides_hitcount words.now))) }
{
    !word.is(b"hitcount") && value_count(words) >= MOST_VALUES
}

/// How many of the words are no `hitcount`.
fn value_count(words: &[Word<'_>]) -> usize
    ensures value { result ≡ length (besides_hitcount words.now) }
    ensures within { result ≤ length words.now }
{
    match words.split_first() {
        None => 0,
        Some((first, rest)) if first.is(b"hitcount") => value_count(rest),
        Some((_, rest)) => 1 + value_count(rest),
    }
}

/// What is wrong with a word as a value, if something is, whatever stands before it. The word
/// begins at a place.
fn word_fault(event: Name, place: usize, word: &Word<'_>) -> Option<TriggerFault>
    ensures { (next : Result (List Word) TriggerFault) →
        option_map_or Err result next
        ≡ unless (
        (is_word word.now (codes "common_timestamp"), LeftOut place)
        ∷ (is_left_out word.now.suffix, LeftOut place)
        ∷ (is_some word.now.suffix, BadModifier)
        ∷ []
        ) (option_map_or Err (value_fault event word.now) next) }
{
    if word.is(b"common_timestamp") {
        return Some(TriggerFault::LeftOut(place));
    }
    if is_left_out(word.suffix()) {
        return Some(TriggerFault::LeftOut(place));
    }
    if word.suffix().is_some() {
        return Some(TriggerFault::BadModifier);
    }
    value_fault(event, word)
}

/// What is wrong with a word as a value's field, if something is.
fn value_fault(event: Name, word: &Word<'_>) -> Option<TriggerFault>
    ensures { result ≡ value_fault event word.now }
{
    if word.dollar() || word.is(b"hitcount") {
        return None;
    }
    match field_named(event, word.name()) {
        Some(field) if field.is_text() => Some(TriggerFault::NotNumeric),
        Some(_) => None,
        None => Some(TriggerFault::NoField),
    }
}

/// Whether the word is among the words.
fn has_word(words: &[Word<'_>], word: &Word<'_>) -> bool
    ensures { result ≡ list_any (same_word word.now) words.now }
{
    words.iter().any(|held| word.is_same(held))
}

/// The words of a part's list of sort items.
pub(crate) fn sort_of<'a>(alloc: Global, list: &Piece<'a>) -> Result<Vec<Word<'a>>, TriggerFault>
    ensures gives { Gives (λ words. words.items)
        (items_of with_sort list.now.place list.now.bytes) result }
    ensures some { IfOk result (λ words. 0 < length words.items) }
    ensures few { IfOk result (λ words. length words.items ≤ 2) }
{
    let mut words = Vec::new(alloc);
    let mut items = Pieces::of(list, b',');
    while let Some(item) = items.next_piece() {
        add_sort(&mut words, &item)?;
    }
    Ok(words)
}

/// Adds one more sort item.
fn add_sort<'a>(words: &mut Vec<Word<'a>>, item: &Piece<'a>) -> Result<(), TriggerFault>
    ensures leaves { Leaves
        (given_or (Syntax item.now.place) (word_of item.now.bytes)
        (with_sort words.old.items item.now.place))
        words.new.items result }
    ensures some { OnOk result (0 < length words.new.items) }
    ensures few { OnOk result (length words.new.items ≤ 2) }
{
    match word_of(item.bytes()) {
        Some(word) => with_sort(words, word),
        None => Err(TriggerFault::Syntax(item.place())),
    }
}

/// Adds a word as a sort item.
#[tactic(auto, unfolding(crate::specs::Draft::with_sort))]
fn with_sort<'a>(words: &mut Vec<Word<'a>>, word: Word<'a>) -> Result<(), TriggerFault>
    ensures leaves { (place : ℕ) → Leaves (with_sort words.old.items place word.entry)
        words.new.items result }
    ensures some { OnOk result (0 < length words.new.items) }
    ensures few { OnOk result (length words.new.items ≤ 2) }
{
    if words.len() >= MOST_SORT_ITEMS {
        return Err(TriggerFault::TooMany);
    }
    if !is_direction(word.suffix()) {
        return Err(TriggerFault::BadSort);
    }
    if has_word(words, &word) {
        return Err(TriggerFault::Duplicate);
    }
    keep(words, word)
}

/// Whether the suffix, if there is one, says which way.
fn is_direction(suffix: Option<&[u8]>) -> bool
    ensures { result ≡ is_direction (option_copied suffix.entry) }
{
    match suffix {
        Some(suffix) => is_same(suffix, b"ascending") || is_same(suffix, b"descending"),
        None => true,
    }
}
