//! The one text of a filter that is printed.

#![tactic(auto, using(crate::proofs::Trees::shapes))]

ghost use Rattle.std.specs.Prelude.{◌≡◌, ◌++◌, ◌==◌, not, OnOk, OnErr, map};
ghost use Rattle.std.specs.List.{list_all};
ghost use Rattle.ft_filter.specs.Canonical.{canonical, pred_text, literal_text, quoted, spaced_joint_text, enclosed_if, is_joined, needs_enclosing, joined_text};
ghost use Rattle.ft_text.specs.Fronts.{IsFront};
ghost use Rattle.ft_filter.specs.Tree.{tree_of, trees};

use crate::filter::Filter;
use crate::tree::{Expr, Joint, Literal, Pred};
use ft_fields::field_text;
use ft_text::write_signed;
use std::alloc::AllocError;

impl Filter {
    /// Adds its canonical text. After a refusal the vector holds its old bytes.
    pub fn write(&self, text: &mut Vec<u8>) -> Result<(), AllocError>
        ensures ok { OnOk result (text.new.items ≡ text.old.items ++ canonical self.now.tree) }
        ensures err { OnErr result (text.new.items ≡ text.old.items) }
    {
        let len = text.len();
        match write_expr(self.expr(), text) {
            Ok(()) => Ok(()),
            Err(refused) => {
                text.truncate(len);
                Err(refused)
            }
        }
    }
}

/// Adds the text of an expression. What it added before a refusal stays.
#[cycle(write)]
fn write_expr(expr: &Expr, text: &mut Vec<u8>) -> Result<(), AllocError>
    ensures ok { OnOk result (text.new.items ≡ text.old.items ++ canonical (tree_of expr.now)) }
    ensures err { OnErr result (IsFront text.old.items text.new.items) }
{
    match expr {
        Expr::Any(operands) => write_joined(Joint::Or, operands.as_slice(), text),
        Expr::All(operands) => write_joined(Joint::And, operands.as_slice(), text),
        Expr::Not(operand) => {
            text.extend_from_slice(b"!")?;
            write_enclosed(is_joined(operand), operand, text)
        }
        Expr::Pred(pred) => write_pred(pred, text),
    }
}

/// Adds operands with a joint between each two.
#[cycle(write)]
fn write_joined(joint: Joint, operands: &[Expr], text: &mut Vec<u8>) -> Result<(), AllocError>
    ensures ok { OnOk result (text.new.items ≡ text.old.items
        ++ joined_text joint (trees (map tree_of operands.now))) }
    ensures err { OnErr result (IsFront text.old.items text.new.items) }
{
    if operands.is_empty() {
        return Ok(());
    }
    let first = &operands[0];
    write_enclosed(needs_enclosing(joint, first), first, text)?;
    for at in 1..operands.len() {
        let operand = &operands[at];
        write_joint(joint, text)?;
        write_enclosed(needs_enclosing(joint, operand), operand, text)?;
    }
    Ok(())
}

/// Adds an expression, in parentheses if it needs them.
#[cycle(write)]
fn write_enclosed(enclosed: bool, expr: &Expr, text: &mut Vec<u8>) -> Result<(), AllocError>
    ensures ok { OnOk result (text.new.items ≡ text.old.items
        ++ enclosed_if enclosed (canonical (tree_of expr.now))) }
    ensures err { OnErr result (IsFront text.old.items text.new.items) }
{
    if !enclosed {
        return write_expr(expr, text);
    }
    text.extend_from_slice(b"(")?;
    write_expr(expr, text)?;
    text.extend_from_slice(b")")
}

/// Whether the expression is operands of either joint.
fn is_joined(expr: &Expr) -> bool
    ensures { result ≡ is_joined (tree_of expr.now) }
{
    match expr {
        Expr::Any(_) | Expr::All(_) => true,
        Expr::Not(_) | Expr::Pred(_) => false,
    }
}

/// Whether the expression needs parentheses as an operand of the joint.
fn needs_enclosing(joint: Joint, expr: &Expr) -> bool
    ensures { result ≡ needs_enclosing joint (tree_of expr.now) }
{
    match joint {
        Joint::Or => match expr {
            Expr::Any(_) => true,
            Expr::All(_) | Expr::Not(_) | Expr::Pred(_) => false,
        },
        Joint::And => is_joined(expr),
    }
}

/// Adds a joint, with a space at each side.
fn write_joint(joint: Joint, text: &mut Vec<u8>) -> Result<(), AllocError>
    ensures ok { OnOk result (text.new.items ≡ text.old.items ++ spaced_joint_text joint) }
    ensures err { OnErr result (IsFront text.old.items text.new.items) }
{
    match joint {
        Joint::Or => text.extend_from_slice(b" || "),
        Joint::And => text.extend_from_slice(b" && "),
    }
}

/// Adds a field, an operator and a value.
#[tactic(auto, unfolding(crate::specs::Canonical::pred_text))]
fn write_pred(pred: &Pred, text: &mut Vec<u8>) -> Result<(), AllocError>
    ensures ok { OnOk result (text.new.items ≡ text.old.items ++ pred_text pred.now) }
    ensures err { OnErr result (IsFront text.old.items text.new.items) }
{
    text.extend_from_slice(field_text(pred.field))?;
    text.extend_from_slice(b" ")?;
    text.extend_from_slice(pred.op.text())?;
    text.extend_from_slice(b" ")?;
    write_value(&pred.value, text)
}

/// Adds a value.
fn write_value(value: &Literal, text: &mut Vec<u8>) -> Result<(), AllocError>
    ensures ok { OnOk result (text.new.items ≡ text.old.items ++ literal_text value.now) }
    ensures err { OnErr result (IsFront text.old.items text.new.items) }
{
    match value {
        Literal::Number(number) => write_signed(*number, text),
        Literal::Text(inside) => write_quoted(inside.bytes(), text),
        Literal::Glob(pattern) => write_quoted(pattern.bytes(), text),
    }
}

/// Adds a text in double quotes, or in single quotes if it holds a double one.
#[tactic(auto, unfolding(crate::specs::Canonical::quoted))]
fn write_quoted(inside: &[u8], text: &mut Vec<u8>) -> Result<(), AllocError>
    ensures ok { OnOk result (text.new.items ≡ text.old.items ++ quoted inside.now) }
    ensures err { OnErr result (IsFront text.old.items text.new.items) }
{
    if is_plain(inside) {
        write_between(b"\"", inside, text)
    } else {
        write_between(b"'", inside, text)
    }
}

/// Adds a text, with a mark at each side.
fn write_between(mark: &[u8], inside: &[u8], text: &mut Vec<u8>) -> Result<(), AllocError>
    ensures ok { OnOk result (text.new.items ≡ text.old.items
        ++ (mark.now ++ inside.now ++ mark.now)) }
    ensures err { OnErr result (IsFront text.old.items text.new.items) }
{
    text.extend_from_slice(mark)?;
    text.extend_from_slice(inside)?;
    text.extend_from_slice(mark)
}

/// Whether no double quote stands in the text.
fn is_plain(inside: &[u8]) -> bool
    ensures { result ≡ list_all (λ byte. not (byte == 34)) inside.now }
{
    inside.iter().all(|byte| *byte != b'"')
}
