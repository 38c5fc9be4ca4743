//! A desk whose tables are watched.

ghost use Rattle.std.specs.Prelude.{◌≡◌, map, codes, decimal};
ghost use Rattle.ft_answers.specs.After.{after_strike};
ghost use Rattle.ft_answers.specs.Base.{empty_base};
ghost use Rattle.ft_script.specs.Script.{asked_by};
ghost use Rattle.ft_script.specs.Script.Asked.{About};
ghost use Rattle.ft_script.specs.declared.script.Numbered.TheVariants.{Remove};
ghost use Rattle.ft_script.specs.Answered.{lane_place_text};
ghost use Rattle.ft_desk.specs.Edits.{after_insert_text, after_attach_text};
ghost use Rattle.ft_desk.specs.Output.{outcome, edit_outcome};
ghost use Rattle.ft_desk.specs.inner.Printed.{Prints};
ghost use Rattle.ft_watch.specs.Watched.{told, watched};
ghost use Rattle.ft_watch.specs.inner.Told.{KeepsIds, AsksNoEdit};

use crate::known_tables::{Known, KnownTables};
use ft_answers::rows_make_the_text;
use ft_desk::{Board, Desk, Interpreter, Name, Performed, perform, print_refusal};
use ft_script::{Command, Numbered, done_line, read_command};
use std::alloc::{AllocError, Global};
use std::marker::Model;

/// A desk that does a script's lines, and prints for each accepted insert and strike which rows it
/// changed.
///
/// Contracts see what they see of its board.
#[derive(Drop)]
pub struct Watch<B: Board> {
    desk: Desk<B>,
    alloc: Global,
    tables: KnownTables,
}

impl<B: Board> Model for Watch<B> {
    ghost use Rattle.std.specs.Ordering.{nat_cmp};
    ghost use Rattle.ft_maps.specs.Seen.{seen};
    ghost use Rattle.ft_answers.specs.Codes.{shown_code};
    ghost use Rattle.ft_answers.specs.Shown.{Shown};
    ghost use Rattle.ft_watch.specs.inner.Told.{AreKnown};

    ghost Value = { Shown };

    ghost coded = { shown_code };

    ghost view = { λ w. w.desk };

    ghost invariant = { λ w. AreKnown w.tables.known w.desk.base (seen nat_cmp w.tables.by_id) };
}

impl<B: Board> Interpreter for Watch<B> {
    ghost base = { λ watch. watch.base };

    ghost means = { watched };

    fn alloc(&self) -> Global {
        self.alloc
    }

    /// Does what a line of a script asks for, as `ft_desk::perform` does. After what that prints of
    /// an accepted insert or strike, this prints the lines of the rows that changed, in order of
    /// trigger id, then key, and a line with their number.
    ///
    /// Fails only for memory, also if it is the rows' texts that find none; then the edit may have
    /// been made, and the watch is of no use any more.
    fn perform(&mut self, files: &[Vec<u8>], line: &[u8]) -> Result<Performed, AllocError> {
        self.obey(files, line)
    }
}

impl<B: Board> Watch<B> {
    /// A watch over a board on which nothing is held or attached.
    pub fn new(alloc: Global, board: B) -> Watch<B>
        requires { (B.shown board).base ≡ empty_base }
        ensures { result ≡ B.shown board }
    {
        Watch {
            desk: Desk::new(alloc, board),
            alloc,
            tables: KnownTables::new(alloc),
        }
    }

    /// Does what a line asks for.
    fn obey(&mut self, files: &[Vec<u8>], line: &[u8]) -> Result<Performed, AllocError>
        ensures { Prints (watched (map (λ f. f.items) files.now) self.old.base (asked_by line.now))
            self.new.base result }
    {
        match read_command(line) {
            Command::Insert(text) => self.insert(text),
            Command::Strike(cpu, number) => self.strike(cpu, number),
            Command::Attach(event, text) => self.attach(event, text),
            Command::About(Numbered::Remove, id) => self.remove(files, line, id),
            Command::Load(_) | Command::Refilter(..) | Command::About(Numbered::Unload, _) => {
                self.edit(files, line)
            }
            _ => self.answer(files, line),
        }
    }

    /// Inserts the event of a trace line.
    fn insert(&mut self, text: &[u8]) -> Result<Performed, AllocError>
        ensures { Prints (told self.old.base (edit_outcome lane_place_text self.old.base (codes "inserted ")
            (after_insert_text self.old.base text.now))) self.new.base result }
    {
        rows_make_the_text();
        self.tables.look(&mut self.desk, self.alloc)?;
        match self.desk.insert(text) {
            Ok(done) => self
                .tables
                .tell(&mut self.desk, self.alloc, b"inserted ", &done.value),
            Err(reason) => print_refusal(self.alloc, reason),
        }
    }

    /// Strikes the event of a CPU's line.
    fn strike(&mut self, cpu: u32, number: u32) -> Result<Performed, AllocError>
        ensures { Prints (told self.old.base (edit_outcome lane_place_text self.old.base (codes "struck ")
            (after_strike self.old.base cpu number))) self.new.base result }
    {
        rows_make_the_text();
        self.tables.look(&mut self.desk, self.alloc)?;
        match self.desk.strike(cpu, number) {
            Ok(done) => self
                .tables
                .tell(&mut self.desk, self.alloc, b"struck ", &done.value),
            Err(reason) => print_refusal(self.alloc, reason),
        }
    }

    /// Attaches the trigger of a text, whose table is watched from then on.
    fn attach(&mut self, event: Name, text: &[u8]) -> Result<Performed, AllocError>
        ensures { Prints (edit_outcome decimal self.old.base (codes "attached ")
            (after_attach_text self.old.base event text.now)) self.new.base result }
    {
        match self.desk.attach(event, text) {
            Ok(done) => {
                self.tables.attach(self.alloc, done.value)?;
                Ok(Performed {
                    text: done_line(self.alloc, b"attached ", done.value)?,
                    refused: false,
                })
            }
            Err(reason) => print_refusal(self.alloc, reason),
        }
    }

    /// Does a line that removes a trigger, with which its table goes.
    fn remove(&mut self, files: &[Vec<u8>], line: &[u8], id: u32) -> Result<Performed, AllocError>
        requires { asked_by line.now ≡ About Remove id }
        ensures { Prints (outcome (map (λ f. f.items) files.now) self.old.base (asked_by line.now))
            self.new.base result }
    {
        let known = self.tables.known;
        self.tables.known = Known::Nothing;
        let done = perform(&mut self.desk, self.alloc, files, line)?;
        if done.refused {
            self.tables.known = known;
        } else {
            self.tables.remove(known, id);
        }
        Ok(done)
    }

    /// Does a line that asks for an edit after which the same triggers are attached.
    fn edit(&mut self, files: &[Vec<u8>], line: &[u8]) -> Result<Performed, AllocError>
        requires { KeepsIds (asked_by line.now) }
        ensures { Prints (outcome (map (λ f. f.items) files.now) self.old.base (asked_by line.now))
            self.new.base result }
    {
        let known = self.tables.known;
        self.tables.known = Known::Nothing;
        let done = perform(&mut self.desk, self.alloc, files, line)?;
        self.tables.known = known.forget_rows();
        Ok(done)
    }

    /// Does a line that asks for no edit.
    fn answer(&mut self, files: &[Vec<u8>], line: &[u8]) -> Result<Performed, AllocError>
        requires { AsksNoEdit (asked_by line.now) }
        ensures { Prints (outcome (map (λ f. f.items) files.now) self.old.base (asked_by line.now))
            self.new.base result }
    {
        let known = self.tables.known;
        self.tables.known = Known::Nothing;
        let done = perform(&mut self.desk, self.alloc, files, line)?;
        self.tables.known = known;
        Ok(done)
    }
}
