//! Reading a field, an operator and a value.

ghost use Rattle.std.specs.Prelude.{◌≡◌, not, ◌||◌, IsTrue, IfOk};
ghost use Rattle.ft_fields.specs.Fields.{is_text};
ghost use Rattle.ft_text.specs.Matching.{is_glob};
ghost use Rattle.ft_filter.specs.Predicate.{place, pred_at, comparison_at, literal_at, text_value, number_value, is_match, literal_of};
ghost use Rattle.ft_filter.specs.inner.Given.{GivesPred, GivesValue};

use crate::fault::FilterFault;
use crate::operators::op_at;
use crate::tree::{Literal, Op, Pattern, Pred, Text};
use ft_fields::{Field, Name, field_named};
use ft_text::{Number, is_glob, is_quote, name_at, number_at, quoted_at, skip};
use std::alloc::{AllocError, Global};

/// What a text is read for.
#[derive(Clone, Copy)]
pub(crate) struct Source {
    /// Where memory comes from.
    pub(crate) alloc: Global,
    /// The event whose fields may be named.
    pub(crate) event: Name,
    /// How many bytes the whole text has.
    pub(crate) len: usize,
}

/// A predicate, and the text after it.
#[derive(Drop)]
pub(crate) struct Compared<'a> {
    pub(crate) pred: Pred,
    pub(crate) rest: &'a [u8],
}

/// A value, and the text after it.
#[derive(Drop)]
struct Valued<'a> {
    value: Literal,
    rest: &'a [u8],
}

impl Source {
    /// The place of a rest of the text.
    pub(crate) fn place(self, rest: &[u8]) -> usize
        ensures { result ≡ place self.len rest.now }
    {
        self.len.saturating_sub(rest.len())
    }
}

/// Reads the predicate that the text begins with.
#[tactic(auto, unfolding(crate::specs::Predicate::pred_at))]
pub(crate) fn predicate(source: Source, text: &[u8]) -> Result<Compared<'_>, FilterFault>
    ensures { GivesPred (pred_at source.event source.len text.now) result }
{
    match name_at(text) {
        Some((name, rest)) => match field_named(source.event, name) {
            Some(field) => comparison(source, field, skip(rest)),
            None => Err(FilterFault::NoField(source.place(text))),
        },
        None => Err(FilterFault::Syntax(source.place(text))),
    }
}

/// Reads the operator and the value after a field.
#[tactic(auto, unfolding(crate::specs::Predicate::comparison_at))]
fn comparison(source: Source, field: Field, text: &[u8]) -> Result<Compared<'_>, FilterFault>
    ensures { GivesPred (comparison_at source.len field text.now) result }
{
    match op_at(text) {
        Some((op, rest)) => {
            if !op.suits(field.is_text()) {
                return Err(FilterFault::WrongKind(source.place(text)));
            }
            let valued = value(source, field.is_text(), op, skip(rest))?;
            Ok(Compared {
                pred: Pred {
                    field,
                    op,
                    value: valued.value,
                },
                rest: valued.rest,
            })
        }
        None => Err(FilterFault::Syntax(source.place(text))),
    }
}

/// Reads the value after an operator, for a field that holds texts or one that holds numbers.
#[tactic(auto, unfolding(crate::specs::Predicate::literal_at))]
fn value(source: Source, is_text: bool, op: Op, text: &[u8]) -> Result<Valued<'_>, FilterFault>
    ensures { GivesValue (literal_at source.len is_text op text.now) result }
{
    match text.first() {
        Some(first) if is_quote(*first) => text_value(source, is_text, op, text),
        _ => number_value(source, is_text, text),
    }
}

/// Reads a quoted text as the value.
#[tactic(auto, unfolding(crate::specs::Predicate::text_value))]
fn text_value(source: Source, is_text: bool, op: Op, text: &[u8]) -> Result<Valued<'_>, FilterFault>
    ensures { GivesValue (text_value (place source.len text.now) is_text op text.now) result }
{
    match quoted_at(text) {
        Some((inside, rest)) => {
            if !is_text {
                return Err(FilterFault::WrongKind(source.place(text)));
            }
            if !may_follow(op, inside) {
                return Err(FilterFault::BadGlob(source.place(text)));
            }
            match literal(source.alloc, op, inside) {
                Ok(value) => Ok(Valued { value, rest }),
                Err(_) => Err(FilterFault::Memory),
            }
        }
        None => Err(FilterFault::Syntax(source.place(text))),
    }
}

/// Whether the text may stand after the operator: after `~` it must be a glob.
fn may_follow(op: Op, text: &[u8]) -> bool
    ensures { result ≡ (not (is_match op) || is_glob text.now) }
{
    op != Op::Glob || is_glob(text)
}

/// The text as the value after the operator: a glob after `~`. Refused for memory.
fn literal(alloc: Global, op: Op, text: &[u8]) -> Result<Literal, AllocError>
    requires { IsTrue (not (is_match op) || is_glob text.now) }
    ensures { IfOk result (λ value. value ≡ literal_of (is_match op) text.now) }
{
    if op == Op::Glob {
        Ok(Literal::Glob(Pattern::of(alloc, text)?))
    } else {
        Ok(Literal::Text(Text::of(alloc, text)?))
    }
}

/// Reads a number as the value.
#[tactic(auto, unfolding(crate::specs::Predicate::number_value))]
fn number_value(source: Source, is_text: bool, text: &[u8]) -> Result<Valued<'_>, FilterFault>
    ensures { GivesValue (number_value (place source.len text.now) is_text text.now) result }
{
    match number_at(text) {
        Some((number, rest)) => {
            if is_text {
                return Err(FilterFault::WrongKind(source.place(text)));
            }
            match number {
                Number::InRange(number) => Ok(Valued {
                    value: Literal::Number(number),
                    rest,
                }),
                Number::OutOfRange => Err(FilterFault::NumberRange(source.place(text))),
            }
        }
        None => Err(FilterFault::Syntax(source.place(text))),
    }
}
