//! Attached triggers, by id.

ghost use Rattle.std.specs.Prelude.{◌≡◌, ◌<◌, ◌^◌, ℕ, length, option_map, Some, OnOk, OnErr};
ghost use Rattle.std.specs.Option.{ForSome, option_copied, option_map_or};
ghost use Rattle.std.specs.Map.Iter.{ShowsInOrder, deref_pair};
ghost use Rattle.std.specs.Ordering.{nat_cmp};
ghost use Rattle.std.specs.FinMap as map;
ghost use Rattle.ft_hist.specs.Hist.{Hist, with_filter};
ghost use Rattle.ft_maps.specs.Seen.{seen};

use crate::trigger::Trigger;
use ft_filter::Filter;
use ft_maps::{entries, get, len, put, take};
use std::alloc::{AllocError, Global};
use std::collections::BTreeMap;
use std::collections::btree_map::Iter;
use std::marker::Model;

/// Attached triggers, by id.
///
/// Contracts see a finite map from ids to triggers.
#[derive(Drop)]
pub struct Triggers {
    by_id: BTreeMap<u32, Trigger>,
}

impl Model for Triggers {
    ghost use Rattle.std.specs.Ordering.{nat_cmp};
    ghost use Rattle.ft_maps.specs.Seen.{seen};
    ghost use Rattle.ft_hist.specs.Codes.{triggers_code};
    ghost use Rattle.ft_hist.specs.Triggers.{Triggers};

    ghost Value = { Triggers };

    ghost coded = { triggers_code };

    ghost view = { λ t. seen nat_cmp t.by_id };
}

impl Triggers {
    /// No triggers. It takes no memory.
    pub fn new(alloc: Global) -> Triggers
        ensures { result ≡ map.empty }
    {
        Triggers {
            by_id: BTreeMap::new(alloc),
        }
    }

    /// How many triggers are attached.
    pub fn len(&self) -> usize
        ensures { result ≡ map.len self.now }
    {
        len(&self.by_id)
    }

    /// The trigger of an id.
    pub fn get(&self, id: u32) -> Option<&Trigger>
        ensures { option_copied result ≡ map.get self.now id }
    {
        get(&self.by_id, &id)
    }

    /// The ids with their triggers, in order of id.
    pub fn iter(&self) -> Iter<'_, u32, Trigger>
        ensures rest { result ≡ map.entries self.now }
        ensures fits { length result < 2 ^ 63 }
        // A loop takes them from the front.
        ensures runs { ShowsInOrder (deref_pair {K = ℕ} {X = Hist}) }
    {
        entries(&self.by_id)
    }

    /// Attaches a trigger with an id, in place of the one that the id had. Refused for memory, and
    /// then all is as it was.
    pub fn insert(&mut self, id: u32, trigger: Trigger) -> Result<(), AllocError>
        ensures ok { OnOk result (self.new ≡ map.insert self.old id trigger) }
        ensures err { OnErr result (self.new ≡ self.old) }
    {
        put(&mut self.by_id, id, trigger)
    }

    /// Takes out the trigger of an id, if it has one.
    pub fn remove(&mut self, id: u32)
        ensures { self.new ≡ map.remove self.old id }
    {
        take(&mut self.by_id, &id);
    }

    /// Gives the trigger of an id this filter, or none, in place of its own; the other triggers stay.
    /// Answers whether there is such a trigger.
    pub fn set_filter(&mut self, id: u32, filter: Option<Filter>) -> bool
        requires { (hist : Hist) → map.get self.old id ≡ Some hist
            → ForSome filter (λ f. f.event ≡ hist.event) }
        ensures there { result ≡ map.contains_key self.old id }
        ensures rest { self.new ≡ option_map_or (λ hist. map.insert self.old id
            (with_filter hist (option_map (λ f. f.tree) filter)))
            (map.get self.old id) self.old }
    {
        set_filter(&mut self.by_id, id, filter)
    }
}

/// Gives the trigger that a map holds at an id this filter, or none, in place of its own. Answers
/// whether the map holds one there.
fn set_filter(by_id: &mut BTreeMap<u32, Trigger>, id: u32, filter: Option<Filter>) -> bool
    requires { (hist : Hist) → map.get (seen nat_cmp by_id.old) id ≡ Some hist
        → ForSome filter (λ f. f.event ≡ hist.event) }
    ensures there { result ≡ map.contains_key (seen nat_cmp by_id.old) id }
    ensures rest { seen nat_cmp by_id.new ≡ option_map_or (λ hist.
        map.insert (seen nat_cmp by_id.old) id
        (with_filter hist (option_map (λ f. f.tree) filter)))
        (map.get (seen nat_cmp by_id.old) id) (seen nat_cmp by_id.old) }
{
    match by_id.get_mut(&id) {
        Some(trigger) => {
            trigger.set_filter(filter);
            true
        }
        None => false,
    }
}
