//! Tables of made events that are brought up to date, by what a repair of the shelves reports of
//! readings, or else made anew of what the shelves keep.

ghost use Rattle.std.specs.Prelude.{◌≡◌, ◌⊎◌, [], true, false, None, Some, Ok, IfOk, IfSome, OnOk};
ghost use Rattle.std.specs.Ordering.{nat_cmp};
ghost use Rattle.ft_fields.specs.Places.{pos_cmp};
ghost use Rattle.ft_hist.specs.Steps.{StepsGrow};
ghost use Rattle.ft_maps.specs.Seen.{seen};
ghost use Rattle.ft_replay.specs.Found.{pairs_in};
ghost use Rattle.ft_replay.specs.Merged.{merged};
ghost use Rattle.ft_made.specs.MadeTables.{found_in};
ghost use Rattle.ft_made.specs.Making.{MakeNone};
ghost use Rattle.ft_answers.specs.Counting.{CountNone, MakesNothing, counts_made};
ghost use Rattle.ft_board.specs.MadeShelves.{AreMadeBy, OfEachCounted, made_on};
ghost use Rattle.ft_board.specs.inner.Mending.{CanUpdateTo, OtherTablesStay, Updates, triggers_in};
ghost use Rattle.ft_board.specs.inner.Readings.{readings_on};
ghost use Rattle.ft_board.specs.inner.Views.{CanBeMended, EndsAs, made_in};

use crate::making::are_made;
use crate::views::Views;
use ft_answers::Kept;
use ft_base::Content;
use ft_changes::ReadingChange;
use ft_fields::Pos;
use ft_hist::{Trigger, Work};
use ft_kept::{Changes, Log, Tables};
use ft_made::{Counting, KeptReadings};
use ft_maps::{entries, put};
use ft_replay::Pair;
use ft_table::Table;
use std::alloc::{AllocError, Global};
use std::collections::BTreeMap;

/// What the tables of made events are brought up to date from.
#[derive(Clone, Copy)]
pub(crate) enum Basis<'a> {
    /// How readings changed since the tables were made.
    Changes(&'a [ReadingChange]),
    /// What is kept of readings, of which the tables are made anew.
    Shelves(&'a Tables),
}

/// What it takes to bring the tables of made events up to date.
#[derive(Clone, Copy)]
pub(crate) struct Mending<'a, 'b> {
    pub(crate) alloc: Global,
    pub(crate) content: &'a Content,
    pub(crate) basis: Basis<'b>,
}

impl Views {
    /// What a repair has to report so that the tables of made events can be mended: how readings
    /// change, if such events are made and counted. It takes no memory.
    pub(crate) fn changes_to_report(&self, content: &Content) -> Changes
        ensures keys { result.keys ≡ None }
        ensures readings { (result.readings ≡ Some [])
            ⊎ ((result.readings ≡ None)
            × (MakeNone content.now.triggers ⊎ CountNone content.now.triggers)) }
        ensures unasked { MakesNothing content.now.triggers → result.readings ≡ None }
    {
        let mut changes = Changes::unasked();
        if are_made(content.triggers()) {
            changes.readings = Log::new(self.alloc);
        }
        changes
    }

    /// Mends the tables of made events after a repair of the shelves, by what the repair reported of
    /// readings, and returns whether there are shelves then. They are given up if memory runs out
    /// here, or ran out for that report. If no reading changed, or no made event is counted, it takes
    /// neither memory nor steps.
    pub(crate) fn mend(&mut self, content: &Content, changes: &Changes) -> Kept
        requires { CanBeMended content.now changes.now.readings self.old }
        ensures shelves { (self.new.shelves ≡ self.old.shelves) ⊎ (self.new.shelves ≡ None) }
        ensures made { IfSome self.new.shelves (λ shelves. AreMadeBy content.now.triggers
            (merged content.now.lanes) (found_in (readings_on shelves)) (made_in self.new)) }
        ensures ends { EndsAs result self.old self.new }
        ensures quiet { changes.now.readings ≡ Some []
            → self.new.shelves ≡ None → self.old.shelves ≡ None }
        ensures nothing { MakesNothing content.now.triggers
            → (self.new.shelves ≡ self.old.shelves) × (self.new.work ≡ self.old.work) }
    {
        if self.shelves.is_none() {
            return self.give_up();
        }
        if !are_made(content.triggers()) {
            return Kept::Now;
        }
        let Some(changes) = changes.readings.items() else {
            return self.give_up();
        };
        if changes.is_empty() {
            return Kept::Now;
        }
        let mending = Mending {
            alloc: self.alloc,
            content,
            basis: Basis::Changes(changes),
        };
        match mending.update_all(&mut self.made, &mut self.work) {
            Ok(()) => Kept::Now,
            Err(_) => self.give_up(),
        }
    }
}

impl Mending<'_, '_> {
    /// Brings the table of each attached trigger that counts made events up to date. Refused for
    /// memory.
    pub(crate) fn update_all(
        &self,
        made: &mut BTreeMap<u32, Table>,
        work: &mut Work,
    ) -> Result<(), AllocError>
        requires { OfEachCounted (triggers_in self.now) (λ id hist.
            CanUpdateTo self.now hist (made_on (seen nat_cmp made.old) id hist)) }
        ensures made { OnOk result (OfEachCounted (triggers_in self.now) (λ id hist.
            Updates self.now hist (made_on (seen nat_cmp made.old) id hist)
            (made_on (seen nat_cmp made.new) id hist))) }
        ensures grow { StepsGrow work.old work.new }
    {
        for (id, trigger) in self.content.triggers().iter() {
            self.update_counted(made, *id, trigger, work)?;
        }
        Ok(())
    }

    /// Brings the table that is kept of a trigger up to date, if it counts made events; if none is
    /// kept, that is one without hits. Refused for memory.
    pub(crate) fn update_counted(
        &self,
        made: &mut BTreeMap<u32, Table>,
        id: u32,
        trigger: &Trigger,
        work: &mut Work,
    ) -> Result<(), AllocError>
        requires { counts_made trigger.now ≡ true
            → CanUpdateTo self.now trigger.now (made_on (seen nat_cmp made.old) id trigger.now) }
        ensures updated { counts_made trigger.now ≡ true → OnOk result (Updates self.now trigger.now
            (made_on (seen nat_cmp made.old) id trigger.now)
            (made_on (seen nat_cmp made.new) id trigger.now)) }
        ensures others { OnOk result (OtherTablesStay id (seen nat_cmp made.old) (seen nat_cmp made.new)) }
        ensures idle { counts_made trigger.now ≡ false → (result ≡ Ok tt) × (work.new ≡ work.old) }
        ensures grow { StepsGrow work.old work.new }
    {
        if !trigger.counts_made() {
            return Ok(());
        }
        match made.get_mut(&id) {
            Some(table) => self.update(table, trigger, work),
            None => {
                let mut table = Table::new(self.alloc, trigger.size());
                self.update(&mut table, trigger, work)?;
                put(made, id, table)
            }
        }
    }

    /// Brings a trigger's table up to date. Refused for memory.
    fn update(
        &self,
        table: &mut Table,
        trigger: &Trigger,
        work: &mut Work,
    ) -> Result<(), AllocError>
        requires { CanUpdateTo self.now trigger.now table.old }
        ensures updated { OnOk result (Updates self.now trigger.now table.old table.new) }
        ensures grow { StepsGrow work.old work.new }
    {
        let (lanes, triggers) = (self.content.lanes(), self.content.triggers());
        let counting = Counting {
            lanes,
            triggers,
            trigger,
        };
        match self.basis {
            Basis::Changes(changes) => counting.update_made(table, changes, work),
            Basis::Shelves(tables) => {
                let readings = ShelfReadings { tables };
                *table = counting.made_table(self.alloc, &readings, work)?;
                Ok(())
            }
        }
    }
}

/// The readings that tables keep.
#[derive(Drop)]
pub(crate) struct ShelfReadings<'a> {
    pub(crate) tables: &'a Tables,
}

impl KeptReadings for ShelfReadings<'_> {
    ghost use Rattle.ft_board.specs.inner.Readings.{pairs_on};

    ghost pairs = { λ r. pairs_on r.tables.now };

    fn pairs_by(&self, id: u32) -> Result<Vec<Pair>, AllocError> {
        match self.tables.shelf(id) {
            Some(shelf) => pairs_of(self.tables.alloc(), shelf.readings()),
            None => Ok(Vec::new(self.tables.alloc())),
        }
    }
}

/// What readings found, as pairs in merged order of the reading. Refused for memory.
pub(crate) fn pairs_of(
    alloc: Global,
    readings: &BTreeMap<Pos, Pos>,
) -> Result<Vec<Pair>, AllocError>
    ensures { IfOk result (λ pairs. pairs.items ≡ pairs_in (seen pos_cmp readings.now)) }
{
    entries(readings)
        .map(|(read, saved)| Pair {
            saved: *saved,
            read: *read,
        })
        .collect(alloc)
}
