//! The tables of a watch: what is known of each, and what an edit prints of them.

ghost use Rattle.std.specs.Prelude.{◌≡◌, ◌+◌, ◌++◌, false, codes, decimal, option_map, ℕ, IfOk, OnOk, OnErr};
ghost use Rattle.std.specs.Ordering.{nat_cmp};
ghost use Rattle.std.specs.FinMap as map;
ghost use Rattle.ft_fields.specs.Parts.{key_cmp};
ghost use Rattle.ft_maps.specs.Seen.{seen};
ghost use Rattle.ft_script.specs.Answered.{lane_place_text};
ghost use Rattle.std.specs.List.{AllByRecursion};
ghost use Rattle.ft_watch.specs.ChangedRows.{texts_at};
ghost use Rattle.ft_watch.specs.inner.Told.{with_table, lines_since, count_since, NamesRows};
ghost use Rattle.ft_watch.specs.inner.Told.{AreKnown, attached_at_most};

use crate::keys::add_named;
use crate::known_rows::KnownRows;
use crate::signed_lines::SignedLines;
use ft_desk::{Board, Desk, Edited, Performed};
use ft_maps::{put, take};
use ft_script::done_line;
use ft_text::write_decimal;
use std::alloc::{AllocError, Global};
use std::collections::BTreeMap;
use std::mem;

/// What is known of the tables of the attached triggers.
#[derive(Clone, Copy, Debug, PartialEq, Eq)]
pub(crate) enum Known {
    /// Each is there with the rows that it shows.
    Shown,
    /// Each is there.
    Attached,
    /// Nothing: memory ran out.
    Nothing,
}

impl Known {
    /// What is known after an edit that attaches nothing and removes nothing: which tables there are, but not
    /// their rows.
    pub(crate) fn forget_rows(self) -> Known
        ensures { result ≡ attached_at_most self }
    {
        match self {
            Known::Shown | Known::Attached => Known::Attached,
            Known::Nothing => Known::Nothing,
        }
    }
}

/// Tables by the trigger's id.
#[derive(Drop)]
pub(crate) struct KnownTables {
    pub(crate) by_id: BTreeMap<u32, KnownRows>,
    pub(crate) known: Known,
}

impl KnownTables {
    /// No tables, if no trigger is attached. It takes no memory.
    pub(crate) fn new(alloc: Global) -> KnownTables
        ensures by_id { seen nat_cmp result.by_id ≡ map.empty }
        ensures known { result.known ≡ Known.Shown }
    {
        KnownTables {
            by_id: BTreeMap::new(alloc),
            known: Known::Shown,
        }
    }

    /// Looks at all tables, unless their rows are known. Refused for memory.
    pub(crate) fn look<B: Board>(
        &mut self,
        desk: &mut Desk<B>,
        alloc: Global,
    ) -> Result<(), AllocError>
        requires { AreKnown self.old.known desk.old.base (seen nat_cmp self.old.by_id) }
        ensures base { desk.new.base ≡ desk.old.base }
        ensures known { AreKnown self.new.known desk.new.base (seen nat_cmp self.new.by_id) }
        ensures shown { OnOk result (self.new.known ≡ Known.Shown) }
    {
        match self.known {
            Known::Shown => Ok(()),
            Known::Nothing => Err(AllocError),
            Known::Attached => {
                self.known = Known::Nothing;
                let old = mem::replace(&mut self.by_id, BTreeMap::new(alloc));
                self.by_id = look_at_all(old, desk, alloc)?;
                self.known = Known::Shown;
                Ok(())
            }
        }
    }

    /// Adds a table for a trigger that was attached. Refused for memory, and then nothing is known.
    pub(crate) fn attach(&mut self, alloc: Global, id: u32) -> Result<(), AllocError>
        ensures by_id { OnOk result (seen nat_cmp self.new.by_id
            ≡ map.insert (seen nat_cmp self.old.by_id) id map.empty) }
        ensures known { OnOk result (self.new.known ≡ attached_at_most self.old.known) }
        ensures failed { OnErr result (self.new.known ≡ Known.Nothing) }
    {
        let known = self.known.forget_rows();
        self.known = Known::Nothing;
        put(&mut self.by_id, id, KnownRows::new(alloc))?;
        self.known = known;
        Ok(())
    }

    /// Takes away the table of a trigger that was removed; `known` is what was known before that.
    pub(crate) fn remove(&mut self, known: Known, id: u32)
        ensures by_id { seen nat_cmp self.new.by_id ≡ map.remove (seen nat_cmp self.old.by_id) id }
        ensures known { self.new.known ≡ attached_at_most known }
    {
        take(&mut self.by_id, &id);
        self.known = known.forget_rows();
    }

    /// What an accepted edit of one event prints: its word, its place, the rows that changed since
    /// the tables were looked at, and how many they are. Then the tables have the rows that they show
    /// now. Refused for memory, and then nothing is known.
    pub(crate) fn tell<B: Board>(
        &mut self,
        desk: &mut Desk<B>,
        alloc: Global,
        word: &[u8],
        edited: &Edited,
    ) -> Result<Performed, AllocError>
        requires { AllByRecursion (NamesRows edited.now desk.old.base)
            (map.entries (seen nat_cmp self.old.by_id)) }
        ensures base { desk.new.base ≡ desk.old.base }
        ensures tables { OnOk result ((id : ℕ) → map.get (seen nat_cmp self.new.by_id) id
            ≡ option_map (λ _. texts_at desk.old.base id) (map.get (seen nat_cmp self.old.by_id) id)) }
        ensures known { OnOk result (self.new.known ≡ Known.Shown) }
        ensures text { IfOk result (λ done. done.text.items
            ≡ (word.now ++ lane_place_text edited.now.place ++ codes "\n")
            ++ (lines_since (map.entries (seen nat_cmp self.old.by_id)) desk.old.base
            ++ (codes "changed " ++ (decimal (count_since (map.entries (seen nat_cmp self.old.by_id))
            desk.old.base) ++ codes "\n")))) }
        ensures refused { IfOk result (λ done. done.refused ≡ false) }
        ensures failed { OnErr result (self.new.known ≡ Known.Nothing) }
    {
        self.known = Known::Nothing;
        let changes = SignedLines::behind(done_line(alloc, word, edited.place)?);
        let old = mem::replace(&mut self.by_id, BTreeMap::new(alloc));
        let told = report_all(old, desk, alloc, edited, changes)?;
        self.by_id = told.by_id;
        let count = told.changes.count();
        let mut text = told.changes.into_lines();
        text.extend_from_slice(b"changed ")?;
        write_decimal(count, &mut text)?;
        text.extend_from_slice(b"\n")?;
        self.known = Known::Shown;
        Ok(Performed {
            text,
            refused: false,
        })
    }
}

/// Tables that were looked at, and the changes that were found.
#[derive(Drop)]
struct Looked {
    by_id: BTreeMap<u32, KnownRows>,
    changes: SignedLines,
}

/// The tables with the rows that they show now. Refused for memory.
fn look_at_all<B: Board>(
    old: BTreeMap<u32, KnownRows>,
    desk: &mut Desk<B>,
    alloc: Global,
) -> Result<BTreeMap<u32, KnownRows>, AllocError>
    ensures base { desk.new.base ≡ desk.old.base }
    ensures tables { IfOk result (λ now. (id : ℕ) → map.get (seen nat_cmp now) id
        ≡ option_map (λ _. texts_at desk.old.base id) (map.get (seen nat_cmp old) id)) }
{
    let mut now = BTreeMap::new(alloc);
    for (id, mut table) in old {
        table.look(desk, alloc, id)?;
        put(&mut now, id, table)?;
    }
    Ok(now)
}

/// The tables with the rows that they show after an edit; what differs is added to the changes.
/// Refused for memory.
fn report_all<B: Board>(
    old: BTreeMap<u32, KnownRows>,
    desk: &mut Desk<B>,
    alloc: Global,
    edited: &Edited,
    changes: SignedLines,
) -> Result<Looked, AllocError>
    requires { AllByRecursion (NamesRows edited.now desk.old.base) (map.entries (seen nat_cmp old)) }
    ensures base { desk.new.base ≡ desk.old.base }
    ensures tables { IfOk result (λ told. (id : ℕ) → map.get (seen nat_cmp told.by_id) id
        ≡ option_map (λ _. texts_at desk.old.base id) (map.get (seen nat_cmp old) id)) }
    ensures lines { IfOk result (λ told. told.changes.lines
        ≡ changes.lines ++ lines_since (map.entries (seen nat_cmp old)) desk.old.base) }
    ensures count { IfOk result (λ told. told.changes.count
        ≡ changes.count + count_since (map.entries (seen nat_cmp old)) desk.old.base) }
{
    let mut now = BTreeMap::new(alloc);
    let mut told = changes;
    for (id, mut table) in old {
        told = add_changes(&mut table, desk, alloc, id, edited, told)?;
        put(&mut now, id, table)?;
    }
    Ok(Looked {
        by_id: now,
        changes: told,
    })
}

/// Adds the lines of a table's rows that changed by an edit, and takes the rows that the table has
/// now. If the edit gives both `report` and `made`, only the rows that it names are compared, else
/// all. Refused for memory.
fn add_changes<B: Board>(
    table: &mut KnownRows,
    desk: &mut Desk<B>,
    alloc: Global,
    id: u32,
    edited: &Edited,
    changes: SignedLines,
) -> Result<SignedLines, AllocError>
    requires { NamesRows edited.now desk.old.base (id, table.old) }
    ensures base { desk.new.base ≡ desk.old.base }
    ensures table { OnOk result (table.new ≡ texts_at desk.old.base id) }
    ensures changes { IfOk result (λ told. told
        ≡ with_table id table.old (texts_at desk.old.base id) changes) }
{
    let (Some(held), Some(made)) = (&edited.report, &edited.made) else {
        return table.add_all(desk, alloc, id, changes);
    };
    let mut keys = BTreeMap::new(alloc);
    add_named(&mut keys, held, id)?;
    add_named(&mut keys, made, id)?;
    table.add_named(desk, id, &keys, changes)
}
