//! Reading filters.

#![tactic(auto, using(crate::proofs::Trees::shapes))]

ghost use Rattle.std.specs.Prelude.{◌≡◌, ◌<◌, ◌++◌, ◌∷◌, [], ℕ, List, length, Some, Result, Ok, IfOk, IfErr, OnOk, IfSome};
ghost use Rattle.std.specs.Option.{option_copied};
ghost use Rattle.ft_text.specs.Tokens.{skip};
ghost use Rattle.ft_filter.specs.Predicate.{pred_at, Found};
ghost use Rattle.ft_filter.specs.FilterIs.{FilterIs, Reads, Joined, Operand, below, behind_joint, tree_of_joint, made, parenthesised};
ghost use Rattle.ft_filter.specs.Answers.{filter_of, GivesFilter};
ghost use Rattle.ft_filter.specs.inner.Given.{GivesTree, OperandsFollow};
ghost use Rattle.ft_filter.specs.Tree.{tree_of, trees_in, trees, Not, Test};

use crate::fault::FilterFault;
use crate::filter::Filter;
use crate::predicate::{Source, predicate};
use crate::tree::{Expr, Exprs, Joint};
use ft_fields::Name;
use ft_text::skip;
use std::alloc::Global;

/// How many `(` and `!` may be open at once.
const MOST_OPEN: u32 = 32;

/// An expression, and the text after it.
#[derive(Drop)]
struct Parsed<'a> {
    expr: Expr,
    rest: &'a [u8],
}

/// Reads a filter's text, for an event. The first fault from the left decides, and memory may run
/// out. By `exact` the answer is a function of the text, by `meaning` it is what the rules of the
/// grammar say.
pub fn parse(alloc: Global, text: &[u8], event: Name) -> Result<Filter, FilterFault>
    ensures exact { GivesFilter (λ answer. answer ≡ filter_of event text.now) result }
    ensures meaning { GivesFilter (FilterIs event text.now) result }
    ensures event { IfOk result (λ filter. filter.event ≡ event) }
{
    let source = Source {
        alloc,
        event,
        len: text.len(),
    };
    let parsed = read_joined(source, Joint::Or, MOST_OPEN, text)?;
    let rest = skip(parsed.rest);
    if !rest.is_empty() {
        return Err(FilterFault::Syntax(source.place(rest)));
    }
    Ok(Filter::new(event, parsed.expr))
}

/// The text after the joint, if the joint comes next.
fn behind_joint(joint: Joint, text: &[u8]) -> Option<&[u8]>
    ensures value { option_copied result ≡ behind_joint joint text.now }
    ensures shorter { IfSome result (λ rest. length rest.now < length text.now) }
{
    skip(text).strip_prefix(joint.text())
}

/// Reads operands of a joint, or a single one.
#[cycle(read)]
fn read_joined<'a>(
    source: Source,
    joint: Joint,
    room: u32,
    text: &'a [u8],
) -> Result<Parsed<'a>, FilterFault>
    ensures reads { GivesTree (Reads source.event source.len (Joined joint) room text.now) result }
    ensures shorter { IfOk result (λ parsed. length parsed.rest.now < length text.now) }
{
    let first = read_below(source, joint, room, text)?;
    match behind_joint(joint, first.rest) {
        Some(behind) => read_more(source, joint, room, first.expr, behind),
        None => Ok(first),
    }
}

/// Reads what stands beside a joint.
#[cycle(read)]
fn read_below<'a>(
    source: Source,
    joint: Joint,
    room: u32,
    text: &'a [u8],
) -> Result<Parsed<'a>, FilterFault>
    ensures reads { GivesTree (Reads source.event source.len (below joint) room text.now) result }
    ensures shorter { IfOk result (λ parsed. length parsed.rest.now < length text.now) }
{
    match joint {
        Joint::Or => read_joined(source, Joint::And, room, text),
        Joint::And => read_operand(source, room, text),
    }
}

/// Reads on after a first operand, which a joint follows.
#[cycle(read)]
fn read_more<'a>(
    source: Source,
    joint: Joint,
    room: u32,
    first: Expr,
    behind: &'a [u8],
) -> Result<Parsed<'a>, FilterFault>
    ensures reads { (rest : List ℕ) → behind_joint joint rest ≡ Some behind.now →
        GivesTree (OperandsFollow source.event source.len joint room (tree_of first) rest) result }
    ensures shorter { IfOk result (λ parsed. length parsed.rest.now < length behind.now) }
{
    let mut operands = Exprs::new(source.alloc);
    add(&mut operands, first)?;
    let second = read_below(source, joint, room, behind)?;
    add(&mut operands, second.expr)?;
    let mut rest = second.rest;
    while let Some(behind) = behind_joint(joint, rest) {
        let next = read_below(source, joint, room, behind)?;
        add(&mut operands, next.expr)?;
        rest = next.rest;
    }
    Ok(Parsed {
        expr: join(joint, operands),
        rest,
    })
}

/// Reads one operand.
#[cycle(read)]
fn read_operand<'a>(source: Source, room: u32, text: &'a [u8]) -> Result<Parsed<'a>, FilterFault>
    ensures reads { GivesTree (Reads source.event source.len Operand room text.now) result }
    ensures shorter { IfOk result (λ parsed. length parsed.rest.now < length text.now) }
{
    let text = skip(text);
    if let Some(behind) = text.strip_prefix(b"!") {
        return read_not(source, room, behind);
    }
    if let Some(behind) = text.strip_prefix(b"(") {
        return read_enclosed(source, room, behind);
    }
    read_predicate(source, text)
}

/// Reads the operand after a `!`.
#[cycle(read)]
fn read_not<'a>(source: Source, room: u32, behind: &'a [u8]) -> Result<Parsed<'a>, FilterFault>
    ensures reads { (text : List ℕ) → skip text ≡ 33 ∷ behind.now →
        GivesTree (Reads source.event source.len Operand room text) result }
    ensures shorter { IfOk result (λ parsed. length parsed.rest.now < length behind.now) }
{
    if room == 0 {
        return Err(FilterFault::TooDeep);
    }
    let operand = read_operand(source, room - 1, behind)?;
    negate(source.alloc, operand.expr, operand.rest)
}

/// Reads the operands after a `(`, and the `)` after them.
#[cycle(read)]
fn read_enclosed<'a>(source: Source, room: u32, behind: &'a [u8]) -> Result<Parsed<'a>, FilterFault>
    ensures reads { (text : List ℕ) → skip text ≡ 40 ∷ behind.now →
        GivesTree (Reads source.event source.len Operand room text) result }
    ensures shorter { IfOk result (λ parsed. length parsed.rest.now < length behind.now) }
{
    if room == 0 {
        return Err(FilterFault::TooDeep);
    }
    let inside = read_joined(source, Joint::Or, room - 1, behind)?;
    close_group(source, inside.expr, inside.rest)
}

/// Reads a field, an operator and a value.
fn read_predicate(source: Source, text: &[u8]) -> Result<Parsed<'_>, FilterFault>
    ensures reads { GivesTree (λ read. read ≡ made Test (pred_at source.event source.len text.now))
        result }
    ensures shorter { IfOk result (λ parsed. length parsed.rest.now < length text.now) }
{
    let parsed = predicate(source, text)?;
    Ok(Parsed {
        expr: Expr::Pred(parsed.pred),
        rest: parsed.rest,
    })
}

/// The negation of an operand, and the text after it.
fn negate(alloc: Global, operand: Expr, rest: &[u8]) -> Result<Parsed<'_>, FilterFault>
    ensures reads { GivesTree (λ read. read ≡ Found (Not (tree_of operand)) rest.now) result }
    ensures same { IfOk result (λ parsed. parsed.rest.now ≡ rest.now) }
{
    match Box::new(alloc, operand) {
        Ok(expr) => Ok(Parsed {
            expr: Expr::Not(expr),
            rest,
        }),
        Err(_) => Err(FilterFault::Memory),
    }
}

/// Reads the closing parenthesis after the operands in a group.
fn close_group(source: Source, inside: Expr, rest: &[u8]) -> Result<Parsed<'_>, FilterFault>
    ensures reads { GivesTree (λ read. read ≡ parenthesised source.len (Found (tree_of inside) rest.now))
        result }
    ensures shorter { IfOk result (λ parsed. length parsed.rest.now < length rest.now) }
{
    let rest = skip(rest);
    match rest.strip_prefix(b")") {
        Some(behind) => Ok(Parsed {
            expr: inside,
            rest: behind,
        }),
        None => Err(FilterFault::Syntax(source.place(rest))),
    }
}

/// Adds an operand. Refused for memory.
fn add(operands: &mut Exprs, expr: Expr) -> Result<(), FilterFault>
    ensures ok { OnOk result (trees_in operands.new ≡ trees_in operands.old ++ tree_of expr ∷ []) }
    ensures err { IfErr result (λ fault. fault ≡ FilterFault.Memory) }
{
    match operands.push(expr) {
        Ok(()) => Ok(()),
        Err(_) => Err(FilterFault::Memory),
    }
}

/// Operands, joined.
fn join(joint: Joint, operands: Exprs) -> Expr
    ensures { tree_of result ≡ tree_of_joint joint (trees (trees_in operands)) }
{
    match joint {
        Joint::Or => Expr::Any(operands),
        Joint::And => Expr::All(operands),
    }
}
