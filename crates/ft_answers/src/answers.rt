//! What a desk answers about an attached trigger, from replaying what it holds.

ghost use Rattle.std.specs.Prelude.{option_map};
ghost use Rattle.ft_hist.specs.Steps.{StepsGrow};
ghost use Rattle.ft_replay.specs.Merged.{merged};
ghost use Rattle.ft_answers.specs.Answers.{rows_from, hist_from, pairs_from, row_text_from, row_texts_from, totals_from};
ghost use Rattle.ft_answers.specs.Edited.{AnswerIs};

use crate::counted::{counted_at, counter_at};
use crate::tables::{table_row_text, table_row_texts, table_rows, table_text};
use ft_base::{Refused, find_trigger, is_reader};
use ft_hist::{Key, Triggers, Work};
use ft_lanes::Lanes;
use ft_replay::Pair;
use ft_table::{Row, TableRow, Totals};
use std::alloc::Global;

/// The text of the table of the trigger with an id. Refused if no trigger has the id, or for
/// memory.
pub(crate) fn hist_from(
    alloc: Global,
    lanes: &Lanes,
    triggers: &Triggers,
    id: u32,
    work: &mut Work,
) -> Result<Vec<u8>, Refused>
    ensures gives { AnswerIs (λ text. text.items)
        (hist_from triggers.now (merged lanes.now) id) result }
    ensures grow { StepsGrow work.old work.new }
{
    let trigger = find_trigger(triggers, id)?;
    let counted = counted_at(alloc, lanes, triggers, id, trigger, work)?;
    Ok(table_text(alloc, trigger, counted.table())?)
}

/// The rows of the table of the trigger with an id. Refused if no trigger has the id, or for
/// memory.
pub(crate) fn row_texts_from(
    alloc: Global,
    lanes: &Lanes,
    triggers: &Triggers,
    id: u32,
    work: &mut Work,
) -> Result<Vec<TableRow>, Refused>
    ensures gives { AnswerIs (λ rows. rows.items)
        (row_texts_from triggers.now (merged lanes.now) id) result }
    ensures grow { StepsGrow work.old work.new }
{
    let trigger = find_trigger(triggers, id)?;
    let counted = counted_at(alloc, lanes, triggers, id, trigger, work)?;
    Ok(table_row_texts(alloc, trigger, counted.table())?)
}

/// The text of a key's row of the table of the trigger with an id. Refused if no trigger has the
/// id, or for memory.
pub(crate) fn row_text_from(
    alloc: Global,
    lanes: &Lanes,
    triggers: &Triggers,
    id: u32,
    key: &Key,
    work: &mut Work,
) -> Result<Option<Vec<u8>>, Refused>
    ensures gives { AnswerIs (option_map (λ text. text.items))
        (row_text_from triggers.now (merged lanes.now) id key.now) result }
    ensures grow { StepsGrow work.old work.new }
{
    let trigger = find_trigger(triggers, id)?;
    let counted = counted_at(alloc, lanes, triggers, id, trigger, work)?;
    Ok(table_row_text(alloc, trigger, counted.table(), key)?)
}

/// The rows of the table of the trigger with an id, in numbers. Refused if no trigger has the id,
/// or for memory.
pub(crate) fn rows_from(
    alloc: Global,
    lanes: &Lanes,
    triggers: &Triggers,
    id: u32,
    work: &mut Work,
) -> Result<Vec<Row>, Refused>
    ensures gives { AnswerIs (λ rows. rows.items)
        (rows_from triggers.now (merged lanes.now) id) result }
    ensures grow { StepsGrow work.old work.new }
{
    let trigger = find_trigger(triggers, id)?;
    let counted = counted_at(alloc, lanes, triggers, id, trigger, work)?;
    Ok(table_rows(trigger, counted.table())?)
}

/// The totals of the trigger with an id. Refused if no trigger has the id, or for memory.
pub(crate) fn totals_from(
    alloc: Global,
    lanes: &Lanes,
    triggers: &Triggers,
    id: u32,
    work: &mut Work,
) -> Result<Totals, Refused>
    ensures gives { AnswerIs (λ totals. totals)
        (totals_from triggers.now (merged lanes.now) id) result }
    ensures grow { StepsGrow work.old work.new }
{
    let trigger = find_trigger(triggers, id)?;
    let counted = counted_at(alloc, lanes, triggers, id, trigger, work)?;
    Ok(counted.table().totals())
}

/// What the readings of the trigger with an id found. Refused if no trigger has the id, if the
/// trigger reads no variable, or for memory.
pub(crate) fn pairs_from(
    alloc: Global,
    lanes: &Lanes,
    triggers: &Triggers,
    id: u32,
    work: &mut Work,
) -> Result<Vec<Pair>, Refused>
    ensures gives { AnswerIs (λ pairs. pairs.items)
        (pairs_from triggers.now (merged lanes.now) id) result }
    ensures grow { StepsGrow work.old work.new }
{
    let trigger = find_trigger(triggers, id)?;
    if !is_reader(trigger) {
        return Err(Refused::NotReading);
    }
    let counter = counter_at(alloc, lanes, triggers, id, work)?;
    Ok(Vec::from_slice(alloc, counter.pairs())?)
}
