//! A trigger's text, cut into a head and a tail, and the filter in a tail.

ghost use Rattle.std.specs.Prelude.{◌≡◌, ◌≤◌, length, position, IfOk, IfErr, IfSome, option_map, ◌≢◌};
ghost use Rattle.std.specs.Option.{option_copied};
ghost use Rattle.ft_filter.specs.Answers.{filter_of};
ghost use Rattle.ft_filter.specs.declared.fault.FilterFault.{FilterFault};
ghost use Rattle.ft_text.specs.Tokens.{is_gap};
ghost use Rattle.ft_trigger.specs.TriggerIs.{head_len, without_end, behind_if, tail_filter, filter_or_fault};
ghost use Rattle.ft_trigger.specs.inner.FilterFaults.{of_filter};
ghost use Rattle.ft_head.specs.Given.{Gives};

use ft_fields::Name;
use ft_filter::{Filter, FilterFault};
use ft_hist::TriggerFault;
use ft_text::{is_gap, skip};
use std::alloc::Global;

/// The place of the first space or tab.
fn first_gap(text: &[u8]) -> Option<usize>
    ensures { result ≡ position is_gap text.now }
{
    text.iter().position(|byte| is_gap(*byte))
}

/// How many bytes the head has: up to the first space or tab.
pub(crate) fn head_len(text: &[u8]) -> usize
    ensures value { result ≡ head_len text.now }
    ensures within { result ≤ length text.now }
{
    first_gap(text).unwrap_or(text.len())
}

/// The text without the spaces and tabs that it ends with.
pub(crate) fn without_end(text: &[u8]) -> &[u8]
    ensures { result.now ≡ without_end text.now }
{
    let mut rest = text;
    while let Some((last, before)) = rest.split_last() {
        if !is_gap(*last) {
            return rest;
        }
        rest = before;
    }
    rest
}

/// What a tail has after `if` and one or more spaces or tabs, if it begins so.
fn behind_if(tail: &[u8]) -> Option<&[u8]>
    ensures { option_copied result ≡ behind_if tail.now }
{
    let behind = tail.strip_prefix(b"if")?;
    match behind.first() {
        Some(first) if is_gap(*first) => Some(skip(behind)),
        _ => None,
    }
}

/// The filter of a tail that begins at a place: none if the tail is empty.
#[tactic(auto, unfolding(crate::specs::TriggerIs::tail_filter))]
pub(crate) fn filter_in(
    alloc: Global,
    event: Name,
    place: usize,
    tail: &[u8],
) -> Result<Option<Filter>, TriggerFault>
    ensures gives { Gives (option_map (λ filter. filter.tree))
        (tail_filter event place tail.now) result }
    ensures event { IfOk result (λ found. IfSome found (λ filter. filter.event ≡ event)) }
    ensures memory { IfErr result (λ fault. fault ≢ TriggerFault.BadFilter FilterFault.Memory) }
{
    if tail.is_empty() {
        return Ok(None);
    }
    match behind_if(tail) {
        Some(text) => filter_of(alloc, event, text),
        None => Err(TriggerFault::Syntax(place)),
    }
}

/// The filter of a text.
fn filter_of(alloc: Global, event: Name, text: &[u8]) -> Result<Option<Filter>, TriggerFault>
    ensures gives { Gives (option_map (λ filter. filter.tree))
        (filter_or_fault (filter_of event text.now)) result }
    ensures event { IfOk result (λ found. IfSome found (λ filter. filter.event ≡ event)) }
    ensures memory { IfErr result (λ fault. fault ≢ TriggerFault.BadFilter FilterFault.Memory) }
{
    match ft_filter::parse(alloc, text, event) {
        Ok(filter) => Ok(Some(filter)),
        Err(fault) => Err(of_filter(fault)),
    }
}

/// The fault of a trigger whose filter has this fault. Out of memory is its own.
fn of_filter(fault: FilterFault) -> TriggerFault
    ensures { result ≡ of_filter fault }
{
    match fault {
        FilterFault::Memory => TriggerFault::Memory,
        FilterFault::Syntax(_)
        | FilterFault::NoField(_)
        | FilterFault::WrongKind(_)
        | FilterFault::BadGlob(_)
        | FilterFault::NumberRange(_)
        | FilterFault::TooDeep => TriggerFault::BadFilter(fault),
    }
}
