//! What is kept of a base, so that no answer replays its events.

ghost use Rattle.std.specs.Prelude.{◌≡◌, false, None, Some, IfErr, IfOk, IfSome, IsSome, OnErr, OnOk};
ghost use Rattle.std.specs.FinMap as map;
ghost use Rattle.std.specs.Option.{is_none};
ghost use Rattle.ft_hist.specs.Hist.{Hist};
ghost use Rattle.ft_hist.specs.Steps.{StepsGrow};
ghost use Rattle.ft_answers.specs.Counting.{MakesNothing};
ghost use Rattle.ft_answers.specs.Edited.{kept_of};
ghost use Rattle.ft_base.specs.Base.{Base, empty_base};
ghost use Rattle.ft_base.specs.declared.refused.Refused.TheVariants.{Memory};
ghost use Rattle.ft_repair.specs.KeptShelves.{AreKeptOf};
ghost use Rattle.ft_board.specs.Makers.{LeavesMade};
ghost use Rattle.ft_board.specs.inner.Told.{ShelfTells};
ghost use Rattle.ft_board.specs.inner.Views.{AreFresh, AwaitTrigger, EndsAs, made_in};

use crate::making::{are_made, bears_on_makers};
use crate::mend::{Basis, Mending};
use ft_answers::Kept;
use ft_base::{Content, Refused};
use ft_hist::Work;
use ft_kept::{Shelf, Tables};
use ft_repair::{kept_shelves, rebuilt};
use ft_table::Table;
use std::alloc::Global;
use std::collections::BTreeMap;

/// What is kept of a base: a shelf of each trigger, and beside the shelves a table of each trigger
/// that counts the events that readings make. If memory ran out for that, there are no shelves, and the
/// next answer that needs them builds them anew.
#[derive(Drop)]
pub(crate) struct Views {
    pub(crate) alloc: Global,
    pub(crate) shelves: Option<Tables>,
    pub(crate) made: BTreeMap<u32, Table>,
    pub(crate) work: Work,
}

impl Views {
    /// What is kept if nothing is held and no trigger is attached. It takes no memory.
    pub(crate) fn new(alloc: Global) -> Views
        ensures fresh { AreFresh empty_base result }
        ensures now { is_none result.shelves ≡ false }
        ensures work { result.work ≡ record { evals = 0; puts = 0 } }
    {
        Views {
            alloc,
            shelves: Some(Tables::new(alloc)),
            made: BTreeMap::new(alloc),
            work: Work::new(),
        }
    }

    /// Builds all anew if there are shelves, and returns whether there are some then. What was kept is
    /// dropped first, so that its memory is free.
    pub(crate) fn rebuild(&mut self, content: &Content) -> Kept
        ensures fresh { AreFresh content.now self.new }
        ensures ends { EndsAs result self.old self.new }
    {
        let had = self.shelves.is_some();
        let kept = self.give_up();
        if had { self.catch_up(content) } else { kept }
    }

    /// Builds all anew if there are no shelves, and returns whether there are some then.
    pub(crate) fn catch_up(&mut self, content: &Content) -> Kept
        requires { AreFresh content.now self.old }
        ensures fresh { AreFresh content.now self.new }
        ensures kept { result ≡ kept_of (is_none self.new.shelves) }
        ensures now { self.new.shelves ≡ None
            → (self.old.shelves ≡ None) × (made_in self.new ≡ map.empty) }
        ensures none { is_none self.old.shelves ≡ false → self.new.work ≡ self.old.work }
        ensures grow { StepsGrow self.old.work self.new.work }
    {
        if self.shelves.is_none() {
            self.shelves = rebuilt(self.alloc, content, &mut self.work).ok();
            return self.remake(content);
        }
        Kept::Now
    }

    /// Gives up all that is kept, also the tables of made events, so that what is built anew finds
    /// their memory.
    pub(crate) fn give_up(&mut self) -> Kept
        ensures shelves { self.new.shelves ≡ None }
        ensures made { made_in self.new ≡ map.empty }
        ensures work { self.new.work ≡ self.old.work }
        ensures kept { result ≡ kept_of (is_none self.new.shelves) }
    {
        self.shelves = None;
        self.made = BTreeMap::new(self.alloc);
        Kept::Later
    }

    /// Forgets the tables of made events, makes them anew if there are shelves, and returns whether
    /// there are some then. If memory runs out, the shelves are given up too. If no made event is
    /// counted, it takes neither memory nor steps.
    pub(crate) fn remake(&mut self, content: &Content) -> Kept
        requires { IfSome self.old.shelves (AreKeptOf content.now) }
        ensures fresh { AreFresh content.now self.new }
        ensures ends { EndsAs result self.old self.new }
        ensures nothing { MakesNothing content.now.triggers
            → (self.new.shelves ≡ self.old.shelves) × (self.new.work ≡ self.old.work) }
    {
        kept_shelves();
        self.made = BTreeMap::new(self.alloc);
        let Some(tables) = &self.shelves else {
            return Kept::Later;
        };
        if !are_made(content.triggers()) {
            return Kept::Now;
        }
        let making = Mending {
            alloc: self.alloc,
            content,
            basis: Basis::Shelves(tables),
        };
        match making.update_all(&mut self.made, &mut self.work) {
            Ok(()) => Kept::Now,
            Err(_) => self.give_up(),
        }
    }

    /// Brings the tables of made events up to date after a trigger was attached or got another filter,
    /// and returns whether there are shelves then. All are built anew if the trigger bears on those
    /// that make such events, and its own if it counts them. Otherwise the tables stay, and it takes
    /// neither memory nor steps.
    pub(crate) fn refit(&mut self, id: u32, content: &Content) -> Kept
        requires kept { IfSome self.old.shelves (AreKeptOf content.now) }
        requires made { AwaitTrigger id content.now self.old }
        ensures fresh { AreFresh content.now self.new }
        ensures ends { EndsAs result self.old self.new }
        ensures nothing { MakesNothing content.now.triggers → self.new.work ≡ self.old.work }
        ensures apart { LeavesMade content.now.triggers id
            → (self.new.shelves ≡ self.old.shelves) × (self.new.work ≡ self.old.work) }
    {
        kept_shelves();
        let triggers = content.triggers();
        if !are_made(triggers) {
            return self.remake(content);
        }
        if bears_on_makers(triggers, id) {
            return self.remake(content);
        }
        let Some(tables) = &self.shelves else {
            return self.give_up();
        };
        let making = Mending {
            alloc: self.alloc,
            content,
            basis: Basis::Shelves(tables),
        };
        match triggers.get(id) {
            Some(trigger) => {
                match making.update_counted(&mut self.made, id, trigger, &mut self.work) {
                    Ok(()) => Kept::Now,
                    Err(_) => self.give_up(),
                }
            }
            None => Kept::Now,
        }
    }

    /// What is kept of the attached trigger with an id. Refused for memory if there are no shelves.
    pub(crate) fn shelf(&self, id: u32) -> Result<&Shelf, Refused>
        ensures tells { (base : Base) (hist : Hist) → AreFresh base self.now
            → map.get base.triggers id ≡ Some hist
            → IfOk result (λ shelf. ShelfTells base id hist shelf.now) }
        ensures there { OnOk result (IsSome self.now.shelves) }
        ensures memory { IfErr result (λ refused. refused ≡ Memory) }
        ensures none { (base : Base) (hist : Hist) → AreFresh base self.now
            → map.get base.triggers id ≡ Some hist → OnErr result (self.now.shelves ≡ None) }
    {
        kept_shelves();
        ft_made::made_counters();
        let tables = self.shelves.as_ref().ok_or(Refused::Memory)?;
        // Each attached trigger has a shelf.
        tables.shelf(id).ok_or(Refused::Memory)
    }
}
