//! Whether an event passes a filter.

#![tactic(auto, using(crate::proofs::Trees::shapes))]

ghost use Rattle.std.specs.Prelude.{◌≡◌};
ghost use Rattle.ft_filter.specs.Holds.{holds, passes, values_hold, numbers_hold, texts_hold, some_holds, each_holds};
ghost use Rattle.ft_filter.specs.Tree.{tree_of, trees_in, trees};

use crate::filter::Filter;
use crate::tree::{Expr, Exprs, Literal, Op, Pred};
use ft_fields::{Event, Value};

impl Filter {
    /// Whether the event passes the filter. A field that the event does not have fails each
    /// comparison.
    pub fn holds(&self, event: &Event) -> bool
        ensures { result ≡ holds event.now self.now.tree }
    {
        expr_holds(self.expr(), event)
    }
}

/// Whether the event passes.
#[cycle(holds)]
fn expr_holds(expr: &Expr, event: &Event) -> bool
    ensures { result ≡ holds event.now (tree_of expr.now) }
{
    match expr {
        Expr::Any(operands) => some_holds(operands, event),
        Expr::All(operands) => each_holds(operands, event),
        Expr::Not(operand) => !expr_holds(operand, event),
        Expr::Pred(pred) => passes(pred, event),
    }
}

/// Whether it passes some operand.
#[cycle(holds)]
fn some_holds(operands: &Exprs, event: &Event) -> bool
    ensures { result ≡ some_holds event.now (trees (trees_in operands.now)) }
{
    for operand in operands.as_slice() {
        if expr_holds(operand, event) {
            return true;
        }
    }
    false
}

/// Whether it passes each operand.
#[cycle(holds)]
fn each_holds(operands: &Exprs, event: &Event) -> bool
    ensures { result ≡ each_holds event.now (trees (trees_in operands.now)) }
{
    for operand in operands.as_slice() {
        if !expr_holds(operand, event) {
            return false;
        }
    }
    true
}

/// Whether the event's field compares so.
#[tactic(auto, unfolding(crate::specs::Holds::passes))]
fn passes(pred: &Pred, event: &Event) -> bool
    ensures { result ≡ passes event.now pred.now }
{
    match event.field(pred.field) {
        Some(value) => value_holds(pred.op, value, &pred.value),
        None => false,
    }
}

/// Whether what a field holds compares so.
fn value_holds(op: Op, value: Value, literal: &Literal) -> bool
    ensures { result ≡ values_hold op value literal.now }
{
    match literal {
        Literal::Number(number) => match value {
            Value::Num(value) => number_holds(op, value, *number),
            Value::Text(_) => false,
        },
        Literal::Text(text) => match value {
            Value::Num(_) => false,
            Value::Text(value) => text_holds(op, value.bytes(), text.bytes()),
        },
        Literal::Glob(pattern) => match value {
            Value::Num(_) => false,
            Value::Text(value) => op == Op::Glob && pattern.matches(value.bytes()),
        },
    }
}

/// Whether a number compares so.
fn number_holds(op: Op, value: i64, number: i64) -> bool
    ensures { result ≡ numbers_hold op value number }
{
    match op {
        Op::Eq => value == number,
        Op::Ne => value != number,
        Op::Lt => value < number,
        Op::Le => value <= number,
        Op::Gt => value > number,
        Op::Ge => value >= number,
        Op::Bits => value & number != 0,
        Op::Glob => false,
    }
}

/// Whether a text compares so.
fn text_holds(op: Op, value: &[u8], text: &[u8]) -> bool
    ensures { result ≡ texts_hold op value.now text.now }
{
    match op {
        Op::Eq => value == text,
        Op::Ne => value != text,
        Op::Lt | Op::Le | Op::Gt | Op::Ge | Op::Bits | Op::Glob => false,
    }
}
