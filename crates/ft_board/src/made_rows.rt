//! Which rows of triggers that count made events may differ when their tables are mended.

ghost use Rattle.std.specs.Prelude.{◌≡◌, ◌++◌, IfSome, OnOk};
ghost use Rattle.std.specs.Ordering.{nat_cmp};
ghost use Rattle.ft_hist.specs.Steps.{StepsGrow};
ghost use Rattle.ft_changes.specs.Findings.{Findings};
ghost use Rattle.ft_kept.specs.Report.{rows_at};
ghost use Rattle.ft_maps.specs.Seen.{seen};
ghost use Rattle.ft_replay.specs.Merged.{merged};
ghost use Rattle.ft_answers.specs.Counting.{MakesNothing};
ghost use Rattle.ft_board.specs.inner.MadeRows.{AreUpdatedRows, keys_counted};
ghost use Rattle.ft_board.specs.inner.Mending.{CanMendTo};

use crate::making::are_made;
use ft_base::Content;
use ft_changes::{Changed, ReadingChange};
use ft_hist::{Trigger, Work};
use ft_kept::{Changes, keys_with_rivals, put_rows};
use ft_made::Counting;
use ft_maps::get;
use ft_table::Table;
use std::alloc::{AllocError, Global};
use std::collections::BTreeMap;

/// The rows that may differ once the tables of triggers that count made events are mended by what a
/// repair reported of readings. If no made event is counted, there are none, which takes neither
/// memory nor steps; else `None` if nothing was reported of readings, or if memory runs out.
#[tactic(auto, unfolding(crate::specs::inner::MadeRows::updated_rows))]
pub(crate) fn made_rows(
    alloc: Global,
    content: &Content,
    made: &BTreeMap<u32, Table>,
    changes: &Changes,
    work: &mut Work,
) -> Option<Vec<Changed>>
    ensures rows { (now : Findings) → CanMendTo content.now.triggers (merged content.now.lanes)
        changes.now.readings now (seen nat_cmp made.now)
        → IfSome result (λ rows. AreUpdatedRows content.now.triggers (merged content.now.lanes) now
        (seen nat_cmp made.now) rows.items) }
    ensures nothing { MakesNothing content.now.triggers → work.new ≡ work.old }
    ensures grow { StepsGrow work.old work.new }
{
    ft_changes::some_rivals();
    ft_made::changed_keys();
    let mut rows = Vec::new(alloc);
    if !are_made(content.triggers()) {
        return Some(rows);
    }
    let changes = changes.readings.items()?;
    let rereading = Rereading {
        alloc,
        content,
        made,
        changes,
    };
    for (id, trigger) in content.triggers().iter() {
        let Ok(()) = rereading.put_rows(&mut rows, *id, trigger, work) else {
            return None;
        };
    }
    Some(rows)
}

/// What is held and attached, the tables of made events, and how readings changed since.
#[derive(Clone, Copy)]
struct Rereading<'a> {
    alloc: Global,
    content: &'a Content,
    made: &'a BTreeMap<u32, Table>,
    changes: &'a [ReadingChange],
}

impl Rereading<'_> {
    /// Adds to a list the rows of a trigger that may differ, if it counts made events: those of the
    /// keys of what the readings made and make, and of the rivals of these keys in the trigger's
    /// table. Refused for memory.
    fn put_rows(
        &self,
        rows: &mut Vec<Changed>,
        id: u32,
        trigger: &Trigger,
        work: &mut Work,
    ) -> Result<(), AllocError>
        ensures rows { OnOk result (rows.new.items ≡ rows.old.items ++ rows_at id
            (keys_counted self.now.content.now.triggers (merged self.now.content.now.lanes)
            self.now.changes.now (seen nat_cmp self.now.made.now) (id, trigger.now))) }
        ensures grow { StepsGrow work.old work.new }
    {
        if !trigger.counts_made() {
            return Ok(());
        }
        let (lanes, triggers) = (self.content.lanes(), self.content.triggers());
        let counting = Counting {
            lanes,
            triggers,
            trigger,
        };
        let mut updated = Vec::new(self.alloc);
        counting.put_changed_keys(&mut updated, self.changes, work)?;
        let bare = Table::new(self.alloc, trigger.size());
        let table = get(self.made, &id).unwrap_or(&bare);
        let keys = keys_with_rivals(self.alloc, table, &updated)?;
        put_rows(rows, id, &keys)
    }
}
