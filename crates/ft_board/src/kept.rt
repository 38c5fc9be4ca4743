//! A board that keeps its tables: an edit repairs them, or they are built anew.

ghost use Rattle.std.specs.Prelude.{◌≡◌, true, false};
ghost use Rattle.ft_board.specs.inner.Edits.{pos_at};

use crate::laws::made_events_stay;
use crate::making::bears_on_makers;
use crate::mend::pairs_of;
use crate::views::Views;
use ft_answers::{
    Board, Done, Edited, Latency, Pair, Row, TableRow, latencies_of, table_row_text,
    table_row_texts, table_rows, table_text,
};
use ft_base::{Content, Place, Refused, find_trigger, is_reader};
use ft_fields::{Event, Name, Pos};
use ft_filter::Filter;
use ft_hist::{Key, Trigger};
use ft_kept::Sign;
use ft_maps::get;
use ft_repair::{cpus_before, make_way};
use ft_store::Store;
use ft_table::{Table, Totals};
use std::alloc::Global;
use std::marker::Model;

/// Lanes of events and attached triggers, and what is kept of them.
#[derive(Drop)]
pub struct KeptBoard {
    content: Content,
    views: Views,
}

impl Model for KeptBoard {
    ghost use Rattle.std.specs.Prelude.{true};
    ghost use Rattle.std.specs.Option.{is_none};
    ghost use Rattle.ft_answers.specs.Codes.{shown_code};
    ghost use Rattle.ft_answers.specs.Shown.{Shown};
    ghost use Rattle.ft_board.specs.inner.Views.{AreFresh};

    ghost Value = { Shown };

    ghost coded = { shown_code };

    ghost view = { λ b. record {
      base = b.content;
      deferred = is_none b.views.shelves;
      keeps = true;
      steps = b.views.work;
    } };

    ghost invariant = { λ b. AreFresh b.content b.views };
}

impl KeptBoard {
    ghost use Rattle.std.specs.Prelude.{IfOk, IfErr, IsSome, OnOk, OnErr};
    ghost use Rattle.std.specs.FinMap as map;
    ghost use Rattle.ft_base.specs.Base.{empty_base};
    ghost use Rattle.ft_base.specs.declared.refused.Refused.TheVariants.{Memory, NoTrigger};
    ghost use Rattle.ft_answers.specs.Costs.{AnswerCosts};
    ghost use Rattle.ft_board.specs.inner.Told.{TableTells};

    /// A board that holds nothing and has no trigger. It takes no memory.
    pub fn new(alloc: Global) -> KeptBoard
        ensures { result ≡ record {
          base = empty_base;
          deferred = false;
          keeps = true;
          steps = record { evals = 0; puts = 0 };
        } }
    {
        KeptBoard {
            content: Content::new(alloc),
            views: Views::new(alloc),
        }
    }

    /// Builds all that was put off, if a trigger has this id. Refused if none has it.
    fn catch_up(&mut self, id: u32) -> Result<(), Refused>
        ensures same { self.new.base ≡ self.old.base }
        ensures attached { OnOk result (IsSome (map.get self.new.base.triggers id)) }
        ensures refused { IfErr result (λ refused. (refused ≡ NoTrigger)
            × ((map.get self.old.base.triggers id ≡ None) × (self.new ≡ self.old))) }
        ensures back { self.new.deferred ≡ true → self.old.deferred ≡ true }
        ensures steps { AnswerCosts self.old self.new }
    {
        find_trigger(self.content.triggers(), id)?;
        self.views.catch_up(&self.content);
        Ok(())
    }

    /// The attached trigger with an id and its table: if it counts made events, the table of these,
    /// otherwise the one on its shelf. Refused for memory if there are no shelves.
    fn told(&self, id: u32) -> Result<TableOf<'_>, Refused>
        requires { IsSome (map.get self.now.base.triggers id) }
        ensures tells { IfOk result (λ told. TableTells self.now.base id told) }
        ensures now { OnOk result (self.now.deferred ≡ false) }
        ensures memory { IfErr result (λ refused. refused ≡ Memory) }
        ensures later { OnErr result (self.now.deferred ≡ true) }
    {
        ft_made::made_tables();
        let trigger = find_trigger(self.content.triggers(), id)?;
        let shelf = self.views.shelf(id)?;
        let bare = Table::new(self.views.alloc, trigger.size());
        if trigger.counts_made() {
            return Ok(TableOf {
                trigger,
                kept: get(&self.views.made, &id),
                bare,
            });
        }
        Ok(TableOf {
            trigger,
            kept: Some(shelf.table()),
            bare,
        })
    }
}

/// A trigger with its table: the one that is kept, or else one without hits.
#[derive(Drop)]
pub(crate) struct TableOf<'a> {
    trigger: &'a Trigger,
    kept: Option<&'a Table>,
    bare: Table,
}

impl TableOf<'_> {
    ghost use Rattle.ft_board.specs.inner.Told.{tabled_in};

    /// The table.
    fn as_table(&self) -> &Table
        ensures { result.now ≡ tabled_in self.now }
    {
        self.kept.unwrap_or(&self.bare)
    }
}

impl Board for KeptBoard {
    ghost shown = { λ b. b };

    fn load(&mut self, events: Vec<Event>) -> Result<Done<u64>, Refused> {
        let store = Store::of(self.views.alloc, &events)?;
        self.load_store(store)
    }

    fn load_store(&mut self, events: Store) -> Result<Done<u64>, Refused> {
        let before = cpus_before(self.views.alloc, self.content.lanes(), &events);
        let value = self.content.load(events)?;
        let kept = match before {
            Ok(Some(before)) => self.views.let_lanes_come(&before, &self.content),
            Ok(None) => self.views.rebuild(&self.content),
            Err(_) => self.views.give_up(),
        };
        Ok(Done { value, kept })
    }

    fn unload(&mut self, cpu: u32) -> Result<Done<u64>, Refused> {
        let lane = self.content.lane_of(cpu)?;
        if self.content.is_small(lane) {
            let kept = self.views.let_lane_go(lane, &self.content);
            let value = self.content.take_lane(lane);
            return Ok(Done { value, kept });
        }
        let value = self.content.take_lane(lane);
        let kept = self.views.rebuild(&self.content);
        Ok(Done { value, kept })
    }

    fn insert(&mut self, event: Event) -> Result<Done<Edited>, Refused> {
        let place = self.content.insert(event)?;
        let pos = pos_at(place, &event);
        Ok(self.views.change(Sign::Insert, pos, &event, &self.content))
    }

    fn strike(&mut self, cpu: u32, line: u32) -> Result<Done<Edited>, Refused> {
        let place = self.content.place_of(cpu, line)?;
        // `place_of` found it there.
        let Some(event) = self.content.lanes().get(place.cpu, place.line) else {
            return Err(Refused::NoEvent);
        };
        let pos = pos_at(place, &event);
        let done = self.views.change(Sign::Retract, pos, &event, &self.content);
        self.content.strike(place);
        Ok(done)
    }

    fn attach(&mut self, trigger: Trigger) -> Result<Done<u32>, Refused> {
        made_events_stay();
        let id = self.content.attach(trigger)?;
        let kept = self.views.join(id, &self.content);
        Ok(Done { value: id, kept })
    }

    fn refilter(&mut self, id: u32, filter: Option<Filter>) -> Result<Done<u32>, Refused> {
        made_events_stay();
        let views = &mut self.views;
        make_way(&mut views.shelves, &self.content, id, &mut views.work);
        let value = self.content.refilter(id, filter)?;
        let kept = self.views.join(id, &self.content);
        Ok(Done { value, kept })
    }

    fn remove(&mut self, id: u32) -> Result<Done<u32>, Refused> {
        self.content.removable(id)?;
        let bears = bears_on_makers(self.content.triggers(), id);
        let kept = self.views.leave(id, &self.content);
        self.content.remove(id);
        if bears {
            let kept = self.views.remake(&self.content);
            return Ok(Done { value: id, kept });
        }
        Ok(Done { value: id, kept })
    }

    fn content(&self) -> &Content {
        &self.content
    }

    fn name_of(&self, id: u32) -> Option<Name> {
        self.content.name_of(id)
    }

    fn hist(&mut self, id: u32) -> Result<Vec<u8>, Refused> {
        self.catch_up(id)?;
        let told = self.told(id)?;
        Ok(table_text(self.views.alloc, told.trigger, told.as_table())?)
    }

    fn row_texts(&mut self, id: u32) -> Result<Vec<TableRow>, Refused> {
        self.catch_up(id)?;
        let told = self.told(id)?;
        Ok(table_row_texts(self.views.alloc, told.trigger, told.as_table())?)
    }

    fn rows(&mut self, id: u32) -> Result<Vec<Row>, Refused> {
        self.catch_up(id)?;
        let told = self.told(id)?;
        Ok(table_rows(told.trigger, told.as_table())?)
    }

    fn row_text(&mut self, id: u32, key: &Key) -> Result<Option<Vec<u8>>, Refused> {
        self.catch_up(id)?;
        let told = self.told(id)?;
        Ok(table_row_text(self.views.alloc, told.trigger, told.as_table(), key)?)
    }

    fn totals(&mut self, id: u32) -> Result<Totals, Refused> {
        self.catch_up(id)?;
        let told = self.told(id)?;
        Ok(told.as_table().totals())
    }

    fn latencies(&mut self, id: u32) -> Result<Vec<Latency>, Refused> {
        let pairs = self.pairs(id)?;
        Ok(latencies_of(self.views.alloc, &pairs)?)
    }

    fn pairs(&mut self, id: u32) -> Result<Vec<Pair>, Refused> {
        let trigger = find_trigger(self.content.triggers(), id)?;
        if !is_reader(trigger) {
            return Err(Refused::NotReading);
        }
        self.views.catch_up(&self.content);
        let shelf = self.views.shelf(id)?;
        Ok(pairs_of(self.views.alloc, shelf.readings())?)
    }

    fn list(&self, cpu: u32) -> Result<Vec<u8>, Refused> {
        self.content.list(self.views.alloc, cpu)
    }

    fn is_deferred(&self) -> bool {
        self.views.shelves.is_none()
    }
}

/// The place in merged order of an event that stands at this one.
fn pos_at(place: Place, event: &Event) -> Pos
    ensures { result ≡ pos_at place event.now.stamp }
{
    let Place { cpu, line } = place;
    let stamp = event.stamp;
    Pos { stamp, cpu, line }
}

/// A law: this board keeps tables.
pub fn kept_board_keeps(board: &KeptBoard)
    ensures { board.now.keeps ≡ true }
{
    // A look at a field, by which a proof sees what the board shows.
    let _ = &board.views;
}
