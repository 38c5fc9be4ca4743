//! Reading triggers.

ghost use Rattle.std.specs.Prelude.{◌≡◌, ◌≢◌, IfOk, IfErr, option_map, unwrap_or, [], Ok};
ghost use Rattle.ft_filter.specs.declared.fault.FilterFault.{FilterFault};
ghost use Rattle.ft_hist.specs.Hist.{Hist};
ghost use Rattle.ft_hist.specs.Sound.{IsSound};
ghost use Rattle.ft_trigger.specs.TriggerIs.{TriggerIs, trigger_of, finished};
ghost use Rattle.ft_head.specs.Given.{Gives};
ghost use Rattle.ft_trigger.specs.Given.{GivesTrigger};

use crate::resolving::{hands_other, own_name, sort_of, value_items};
use crate::tail::{filter_in, head_len, without_end};
use ft_fields::Name;
use ft_head::{Action, Draft, TriggerFault, Word, parts_of};
use ft_hist::{Onmatch, Trigger, TriggerParts};
use ft_text::skip;
use std::alloc::Global;

/// How a trigger's text begins.
const HIST: &[u8] = b"hist:";

/// The size of a trigger that names none.
const DEFAULT_SIZE: u32 = 2048;

/// Reads a trigger's text, for an event. The first fault decides: those of the head from the left,
/// then those of what its parts name, then those of the tail. Memory may run out.
#[tactic(auto, unfolding(crate::specs::TriggerIs::trigger_of))]
pub fn parse(alloc: Global, event: Name, text: &[u8]) -> Result<Trigger, TriggerFault>
    // What the text says.
    ensures meaning { GivesTrigger (TriggerIs event text.now) result }
    // Whose fields it names.
    ensures event { IfOk result (λ trigger. trigger.event ≡ event) }
    // Out of memory is never the filter's fault.
    ensures memory { IfErr result (λ fault. fault ≢ TriggerFault.BadFilter FilterFault.Memory) }
{
    let (head, behind) = text.split_at(head_len(text));
    match head.strip_prefix(HIST) {
        Some(parts) => {
            let tail = skip(behind);
            let draft = parts_of(alloc, event, HIST.len(), parts)?;
            finished(
                alloc,
                event,
                head.len(),
                text.len() - tail.len(),
                without_end(tail),
                draft,
            )
        }
        None => Err(TriggerFault::Syntax(0)),
    }
}

/// Makes a trigger of what has been read of a head of so many bytes, and of a tail that begins at
/// a place.
#[tactic(auto, unfolding(crate::specs::TriggerIs::finished))]
fn finished(
    alloc: Global,
    event: Name,
    head: usize,
    place: usize,
    tail: &[u8],
    draft: Draft<'_>,
) -> Result<Trigger, TriggerFault>
    requires sound { (hist : Hist) → finished event head place tail.now draft ≡ Ok hist
        → IsSound hist }
    ensures gives { Gives (λ trigger. trigger)
        (finished event head place tail.now draft.entry) result }
    ensures event { IfOk result (λ trigger. trigger.event ≡ event) }
    ensures memory { IfErr result (λ fault. fault ≢ TriggerFault.BadFilter FilterFault.Memory) }
{
    let Draft {
        keys,
        values,
        sort,
        size,
        variable,
        onmatch,
    } = draft;
    match keys {
        Some(keys) => {
            let own = own_name(&variable);
            let values = value_items(alloc, event, own, words_in(&values))?;
            if hands_other(&variable, &onmatch) {
                return Err(TriggerFault::NoField);
            }
            let sort = sort_of(alloc, &keys, &values, own, &sort)?;
            let filter = filter_in(alloc, event, place, tail)?;
            let size = size.unwrap_or(DEFAULT_SIZE);
            let onmatch = onmatch_of(&onmatch);
            let parts = TriggerParts {
                keys,
                values,
                sort,
                variable,
                size,
            };
            let mut trigger = Trigger::of(event, parts, filter);
            trigger.set_onmatch(onmatch);
            Ok(trigger)
        }
        None => Err(TriggerFault::Syntax(head)),
    }
}

/// The words of a list, or none if there is no list.
fn words_in<'w, 'a>(words: &'w Option<Vec<Word<'a>>>) -> &'w [Word<'a>]
    ensures { result.now ≡ unwrap_or (option_map (λ words. words.items) words.now) [] }
{
    match words {
        Some(words) => words,
        None => &[],
    }
}

/// What events are made of, if a part says that.
fn onmatch_of(action: &Option<Action<'_>>) -> Option<Onmatch>
    ensures { result ≡ option_map (λ action. action.onmatch) action.now }
{
    match action {
        Some(action) => Some(action.onmatch()),
        None => None,
    }
}
