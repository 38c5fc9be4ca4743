//! The rows of one trigger's table, as they were when it was looked at last.

ghost use Rattle.std.specs.Prelude.{◌≡◌, ◌≢◌, false, List, None, IfOk, OnOk, option_map};
ghost use Rattle.std.specs.Option.{option_copied};
ghost use Rattle.std.specs.FinMap as map;
ghost use Rattle.ft_fields.specs.declared.key.Part.{Part};
ghost use Rattle.ft_fields.specs.Parts.{key_cmp};
ghost use Rattle.ft_maps.specs.Seen.{seen};
ghost use Rattle.ft_watch.specs.ChangedRows.{texts_of, texts_at};
ghost use Rattle.ft_watch.specs.inner.Told.{with_text, with_table, AreAmong};

use crate::keys::{KeySet, keys_of_both};
use crate::signed_lines::SignedLines;
use ft_answers::{TableRow, rows_make_the_text};
use ft_desk::{Board, Desk, Refused};
use ft_fields::Key;
use ft_maps::{entries, put, take};
use std::alloc::{AllocError, Global};
use std::collections::BTreeMap;
use std::marker::Model;

/// The rows of a table, as they were when it was looked at last.
///
/// Contracts see the texts of the rows, by key.
#[derive(Drop)]
pub(crate) struct KnownRows {
    texts: BTreeMap<Key, Vec<u8>>,
}

impl Model for KnownRows {
    ghost use Rattle.ft_fields.specs.Parts.{key_cmp};
    ghost use Rattle.ft_maps.specs.Mapped.{map_by};
    ghost use Rattle.ft_maps.specs.Seen.{seen};
    ghost use Rattle.ft_watch.specs.ChangedRows.{Texts};
    ghost use Rattle.ft_watch.specs.inner.Told.{texts_code};

    ghost Value = { Texts };

    ghost coded = { texts_code };

    ghost view = { λ t. map_by (λ text. text.items) (seen key_cmp t.texts) };
}

impl KnownRows {
    /// A table without rows. It takes no memory.
    pub(crate) fn new(alloc: Global) -> KnownRows
        ensures { result ≡ map.empty }
    {
        KnownRows {
            texts: BTreeMap::new(alloc),
        }
    }

    /// The table of some rows; if two have one key, it has the first. Refused for memory.
    fn of_rows(alloc: Global, rows: Vec<TableRow>) -> Result<KnownRows, AllocError>
        ensures { IfOk result (λ table. table ≡ texts_of rows.items) }
    {
        let mut table = KnownRows::new(alloc);
        let mut left = rows;
        while let Some(row) = left.pop() {
            table.set(row.key, Some(row.text))?;
        }
        Ok(table)
    }

    /// The text of a key's row, if it has one.
    fn text_of(&self, key: &Key) -> Option<&[u8]>
        ensures { option_copied result ≡ map.get self.now key.now }
    {
        match self.texts.get(key) {
            Some(text) => Some(text.as_slice()),
            None => None,
        }
    }

    /// Gives a key's row a text, or takes it away. Refused for memory.
    fn set(&mut self, key: Key, text: Option<Vec<u8>>) -> Result<(), AllocError>
        ensures { OnOk result (self.new
            ≡ with_text key (option_map (λ t. t.items) text) self.old) }
    {
        match text {
            Some(text) => put(&mut self.texts, key, text),
            None => {
                take(&mut self.texts, &key);
                Ok(())
            }
        }
    }

    /// Takes the rows that the table of a trigger has now. Refused for memory.
    pub(crate) fn look<B: Board>(
        &mut self,
        desk: &mut Desk<B>,
        alloc: Global,
        id: u32,
    ) -> Result<(), AllocError>
        ensures base { desk.new.base ≡ desk.old.base }
        ensures table { OnOk result (self.new ≡ texts_at desk.old.base id) }
    {
        *self = table_now(desk, alloc, id)?;
        Ok(())
    }

    /// Adds the lines of the rows that changed since the table was looked at, all of them rows of
    /// these keys, and takes the rows that it has now. Refused for memory.
    pub(crate) fn add_named<B: Board>(
        &mut self,
        desk: &mut Desk<B>,
        id: u32,
        keys: &KeySet,
        changes: SignedLines,
    ) -> Result<SignedLines, AllocError>
        requires { AreAmong (seen key_cmp keys.now) self.old (texts_at desk.old.base id) }
        ensures base { desk.new.base ≡ desk.old.base }
        ensures table { OnOk result (self.new ≡ texts_at desk.old.base id) }
        ensures changes { IfOk result (λ told. told
            ≡ with_table id self.old (texts_at desk.old.base id) changes) }
    {
        let mut told = changes;
        for (key, _mark) in entries(keys) {
            let now = row_now(desk, id, key)?;
            told = told.with_row(id, self.text_of(key), now.as_deref())?;
            self.set(*key, now)?;
        }
        Ok(told)
    }

    /// Adds the lines of all rows that changed since the table was looked at, and takes the rows that
    /// it has now. Refused for memory.
    pub(crate) fn add_all<B: Board>(
        &mut self,
        desk: &mut Desk<B>,
        alloc: Global,
        id: u32,
        changes: SignedLines,
    ) -> Result<SignedLines, AllocError>
        ensures base { desk.new.base ≡ desk.old.base }
        ensures table { OnOk result (self.new ≡ texts_at desk.old.base id) }
        ensures changes { IfOk result (λ told. told
            ≡ with_table id self.old (texts_at desk.old.base id) changes) }
    {
        let now = table_now(desk, alloc, id)?;
        let keys = keys_of_both(alloc, &self.texts, &now.texts)?;
        let told = self.with_changes(&now, id, &keys, changes)?;
        *self = now;
        Ok(told)
    }

    /// Changes with those of the rows that differ between this table and another, all of them rows of
    /// these keys. Refused for memory.
    fn with_changes(
        &self,
        now: &KnownRows,
        id: u32,
        keys: &KeySet,
        changes: SignedLines,
    ) -> Result<SignedLines, AllocError>
        requires { AreAmong (seen key_cmp keys.now) self.now now.now }
        ensures { IfOk result (λ told. told ≡ with_table id self.now now.now changes) }
    {
        let mut told = changes;
        for (key, _mark) in entries(keys) {
            told = told.with_row(id, self.text_of(key), now.text_of(key))?;
        }
        Ok(told)
    }
}

/// The rows of a trigger's table as they are now. A trigger that isn't attached has none. Refused for
/// memory.
fn table_now<B: Board>(desk: &mut Desk<B>, alloc: Global, id: u32) -> Result<KnownRows, AllocError>
    ensures base { desk.new.base ≡ desk.old.base }
    ensures table { IfOk result (λ table. table ≡ texts_at desk.old.base id) }
{
    match desk.row_texts(id) {
        Ok(rows) => KnownRows::of_rows(alloc, rows),
        Err(Refused::Memory) => Err(AllocError),
        Err(_) => Ok(KnownRows::new(alloc)),
    }
}

/// The text of a key's row as it is now, if there is one. A trigger that isn't attached has no rows.
/// Refused for memory.
fn row_now<B: Board>(desk: &mut Desk<B>, id: u32, key: &Key) -> Result<Option<Vec<u8>>, AllocError>
    ensures base { desk.new.base ≡ desk.old.base }
    ensures row { IfOk result (λ text.
        option_map (λ t. t.items) text ≡ map.get (texts_at desk.old.base id) key.now) }
{
    rows_make_the_text();
    match desk.row_text(id, key) {
        Ok(text) => Ok(text),
        Err(reason) => {
            if is_memory(reason) {
                return Err(AllocError);
            }
            Ok(None)
        }
    }
}

/// Whether a refusal says that memory ran out.
fn is_memory(reason: Refused) -> bool
    ensures { result ≡ false → reason ≢ Refused.Memory }
{
    reason == Refused::Memory
}
