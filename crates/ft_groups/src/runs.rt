//! Runs: the events of each key. Events come to them one after the other.

ghost use Rattle.std.specs.Prelude.{◌≡◌, ◌<◌, List, [], length, Some, slice_get, IfOk, OnOk};
ghost use Rattle.std.specs.FinMap as map;
ghost use Rattle.ft_fields.specs.Parts.{key_cmp};
ghost use Rattle.ft_fields.specs.declared.key.Part.{Part};
ghost use Rattle.ft_hist.specs.Hist.{Hist};
ghost use Rattle.ft_maps.specs.Seen.{seen};
ghost use Rattle.ft_store.specs.Stored.{held};
ghost use Rattle.ft_groups.specs.Grouped.{referenced_events, run_of, AreGrouped};
ghost use Rattle.ft_groups.specs.inner.Adding.{Adds, Notes};
ghost use Rattle.ft_groups.specs.inner.Runs.{AreByKey, Stay, groups_of};

use crate::recent::{Recent, number_for};
use ft_fields::Pos;
use ft_hist::Key;
use ft_maps::put;
use ft_store::Stored;
use std::alloc::{AllocError, Global};
use std::collections::BTreeMap;

/// Keys as they came, with the run of each at the same index, and the indices by key.
///
/// Most events are of a key that came lately, whose index is known without a look-up.
#[derive(Drop)]
pub(crate) struct Runs<'a> {
    pub(crate) keys: Vec<Key>,
    pub(crate) runs: Vec<Vec<&'a (Pos, Stored<'a>)>>,
    pub(crate) indices: BTreeMap<Key, usize>,
    alloc: Global,
    recent: Recent,
}

impl<'a> Runs<'a> {
    /// No keys yet, for so many events. Refused for memory.
    pub(crate) fn new(alloc: Global, events: usize) -> Result<Runs<'a>, AllocError>
        ensures by_key { IfOk result AreByKey }
        ensures none { IfOk result (λ runs. (hist : Hist)
            → AreGrouped hist [] (groups_of runs)) }
    {
        let recent = Recent::new(alloc, events)?;
        Ok(Runs {
            keys: Vec::new(alloc),
            runs: Vec::new(alloc),
            indices: BTreeMap::new(alloc),
            alloc,
            recent,
        })
    }

    /// Adds an event of a key, and returns the key's index. Refused for memory.
    pub(crate) fn add(
        &mut self,
        key: Key,
        event: &'a (Pos, Stored<'a>),
    ) -> Result<usize, AllocError>
        requires { AreByKey self.old }
        ensures by_key { OnOk result (AreByKey self.new) }
        ensures adds { OnOk result (Adds (Some key) (event.now.0, held event.now.1)
            (groups_of self.old) (groups_of self.new)) }
        ensures stands { IfOk result (λ index.
            slice_get self.new.keys.items index ≡ Some key) }
        ensures stay { OnOk result (Stay self.old.keys.items self.new.keys.items) }
    {
        let index = self.index_for(key)?;
        self.recent.note(Some(number_for(&key)), index);
        self.push(index, event)?;
        Ok(index)
    }

    /// Adds an event of the key at an index. Refused for memory.
    pub(crate) fn push(
        &mut self,
        index: usize,
        event: &'a (Pos, Stored<'a>),
    ) -> Result<(), AllocError>
        requires by_key { AreByKey self.old }
        requires within { index < length self.old.keys.items }
        ensures by_key { OnOk result (AreByKey self.new) }
        ensures keys { OnOk result (self.new.keys.items ≡ self.old.keys.items) }
        ensures adds { OnOk result ((key : List Part)
            → slice_get self.old.keys.items index ≡ Some key
            → Adds (Some key) (event.now.0, held event.now.1) (groups_of self.old) (groups_of self.new)) }
    {
        self.runs[index].push(event)?;
        Ok(())
    }

    /// The events of a key, in order.
    pub(crate) fn run(&self, key: &Key) -> &[&'a (Pos, Stored<'a>)]
        requires { AreByKey self.now }
        ensures { referenced_events result.now ≡ run_of (groups_of self.now) key.now }
    {
        match self.index_of(key) {
            Some(index) => &self.runs[index],
            None => &[],
        }
    }

    /// The index of a key, if it is there.
    fn index_of(&self, key: &Key) -> Option<usize>
        requires { AreByKey self.now }
        ensures { result ≡ map.get (seen key_cmp self.now.indices) key.now }
    {
        if let Some(index) = self.recent.get(Some(number_for(key))) {
            match self.keys.get(index) {
                // Other keys may have its number.
                Some(other) if other == key => return Some(index),
                _ => {}
            }
        }
        self.indices.get(key).copied()
    }

    /// The index of a key, which comes after the others if it isn't there yet. Refused for memory.
    fn index_for(&mut self, key: Key) -> Result<usize, AllocError>
        requires { AreByKey self.old }
        ensures by_key { OnOk result (AreByKey self.new) }
        ensures stands { IfOk result (λ index.
            slice_get self.new.keys.items index ≡ Some key) }
        ensures notes { OnOk result (Notes key (groups_of self.old) (groups_of self.new)) }
        ensures stay { OnOk result (Stay self.old.keys.items self.new.keys.items) }
    {
        if let Some(index) = self.index_of(&key) {
            return Ok(index);
        }
        let index = self.keys.len();
        self.runs.push(Vec::new(self.alloc))?;
        put(&mut self.indices, key, index)?;
        self.keys.push(key)?;
        Ok(index)
    }
}
