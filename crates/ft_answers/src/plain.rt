//! A board that keeps no tables: each answer replays what is held.

ghost use Rattle.std.specs.Prelude.{◌≡◌, false, None};

use crate::answers::{
    hist_from, pairs_from, row_text_from, row_texts_from, rows_from, totals_from,
};
use crate::board::Board;
use crate::done::{Done, Kept};
use crate::edited::Edited;
use crate::latency::latencies_of;
use ft_base::{Content, Latency, Place, Refused};
use ft_fields::{Event, Name};
use ft_filter::Filter;
use ft_hist::{Key, Trigger, Work};
use ft_replay::Pair;
use ft_store::Store;
use ft_table::{Row, TableRow, Totals};
use std::alloc::Global;
use std::marker::Model;

/// Lanes of events and attached triggers, and no tables. The steps of all its answers are counted
/// in one place.
#[derive(Drop)]
pub struct PlainBoard {
    alloc: Global,
    content: Content,
    work: Work,
}

impl Model for PlainBoard {
    ghost use Rattle.std.specs.Prelude.{false};
    ghost use Rattle.ft_answers.specs.Codes.{shown_code};
    ghost use Rattle.ft_answers.specs.Shown.{Shown};

    ghost Value = { Shown };

    ghost coded = { shown_code };

    ghost view = { λ b. record {
      base = b.content;
      deferred = false;
      keeps = false;
      steps = b.work;
    } };
}

impl PlainBoard {
    ghost use Rattle.ft_base.specs.Base.{empty_base};

    /// A board that holds nothing and has no trigger.
    pub fn new(alloc: Global) -> PlainBoard
        ensures { result ≡ record {
          base = empty_base;
          deferred = false;
          keeps = false;
          steps = record { evals = 0; puts = 0 };
        } }
    {
        PlainBoard {
            alloc,
            content: Content::new(alloc),
            work: Work::new(),
        }
    }
}

impl Board for PlainBoard {
    ghost shown = { λ b. b };

    fn load(&mut self, events: Vec<Event>) -> Result<Done<u64>, Refused> {
        let store = Store::of(self.alloc, &events)?;
        self.load_store(store)
    }

    fn load_store(&mut self, events: Store) -> Result<Done<u64>, Refused> {
        let count = self.content.load(events)?;
        Ok(Done {
            value: count,
            kept: Kept::Now,
        })
    }

    fn unload(&mut self, cpu: u32) -> Result<Done<u64>, Refused> {
        let count = self.content.unload(cpu)?;
        Ok(Done {
            value: count,
            kept: Kept::Now,
        })
    }

    fn insert(&mut self, event: Event) -> Result<Done<Edited>, Refused> {
        Ok(unreported(self.content.insert(event)?))
    }

    fn strike(&mut self, cpu: u32, line: u32) -> Result<Done<Edited>, Refused> {
        let place = self.content.place_of(cpu, line)?;
        self.content.strike(place);
        Ok(unreported(place))
    }

    fn attach(&mut self, trigger: Trigger) -> Result<Done<u32>, Refused> {
        let id = self.content.attach(trigger)?;
        Ok(Done {
            value: id,
            kept: Kept::Now,
        })
    }

    fn refilter(&mut self, id: u32, filter: Option<Filter>) -> Result<Done<u32>, Refused> {
        let id = self.content.refilter(id, filter)?;
        Ok(Done {
            value: id,
            kept: Kept::Now,
        })
    }

    fn remove(&mut self, id: u32) -> Result<Done<u32>, Refused> {
        self.content.removable(id)?;
        self.content.remove(id);
        Ok(Done {
            value: id,
            kept: Kept::Now,
        })
    }

    fn content(&self) -> &Content {
        &self.content
    }

    fn name_of(&self, id: u32) -> Option<Name> {
        self.content.name_of(id)
    }

    fn hist(&mut self, id: u32) -> Result<Vec<u8>, Refused> {
        let lanes = self.content.lanes();
        let triggers = self.content.triggers();
        hist_from(self.alloc, lanes, triggers, id, &mut self.work)
    }

    fn row_texts(&mut self, id: u32) -> Result<Vec<TableRow>, Refused> {
        let lanes = self.content.lanes();
        let triggers = self.content.triggers();
        row_texts_from(self.alloc, lanes, triggers, id, &mut self.work)
    }

    fn rows(&mut self, id: u32) -> Result<Vec<Row>, Refused> {
        let lanes = self.content.lanes();
        let triggers = self.content.triggers();
        rows_from(self.alloc, lanes, triggers, id, &mut self.work)
    }

    fn row_text(&mut self, id: u32, key: &Key) -> Result<Option<Vec<u8>>, Refused> {
        let lanes = self.content.lanes();
        let triggers = self.content.triggers();
        row_text_from(self.alloc, lanes, triggers, id, key, &mut self.work)
    }

    fn totals(&mut self, id: u32) -> Result<Totals, Refused> {
        let lanes = self.content.lanes();
        let triggers = self.content.triggers();
        totals_from(self.alloc, lanes, triggers, id, &mut self.work)
    }

    fn latencies(&mut self, id: u32) -> Result<Vec<Latency>, Refused> {
        let pairs = self.pairs(id)?;
        Ok(latencies_of(self.alloc, &pairs)?)
    }

    fn pairs(&mut self, id: u32) -> Result<Vec<Pair>, Refused> {
        let lanes = self.content.lanes();
        let triggers = self.content.triggers();
        pairs_from(self.alloc, lanes, triggers, id, &mut self.work)
    }

    fn list(&self, cpu: u32) -> Result<Vec<u8>, Refused> {
        self.content.list(self.alloc, cpu)
    }

    fn is_deferred(&self) -> bool {
        // This look at a field lets a proof see what the board shows.
        let _ = &self.work;
        false
    }
}

/// An accepted edit of one event: the event's place, and no report of rows.
fn unreported(place: Place) -> Done<Edited>
    ensures place { result.value.place ≡ place }
    ensures report { result.value.report ≡ None }
    ensures made { result.value.made ≡ None }
    ensures kept { result.kept ≡ Kept.Now }
{
    Done {
        value: Edited {
            place,
            report: None,
            made: None,
        },
        kept: Kept::Now,
    }
}

/// A law: this board keeps no tables, so none lack an edit.
pub fn plain_board_keeps_none(board: &PlainBoard)
    ensures keeps { board.now.keeps ≡ false }
    ensures deferred { board.now.deferred ≡ false }
{
    // This look at a field lets a proof see what the board shows.
    let _ = &board.work;
}
