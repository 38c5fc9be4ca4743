//! `Trigger`: a hist trigger, its parts, its `onmatch` and its filter.

ghost use Rattle.std.specs.Prelude.{◌≡◌, ◌<◌, ◌≤◌, length, option_map, IsTrue, true};
ghost use Rattle.std.specs.List.{list_all};
ghost use Rattle.std.specs.Option.{option_copied, option_map_or, ForSome};
ghost use Rattle.ft_hist.specs.Hist.{IsWithin, hist_with_onmatch, with_filter};
ghost use Rattle.ft_hist.specs.FromParts.{hist_of_parts};
ghost use Rattle.ft_hist.specs.Sound.{key_suits, value_suits, by_suits, onmatch_suits, IsSound};

use crate::item::{Item, KeyItem, SortItem};
use crate::label::Var;
use crate::onmatch::Onmatch;
use ft_fields::Name;
use ft_filter::Filter;
use std::marker::Model;

/// A hist trigger: what it counts events under, and what it sums.
///
/// Contracts see a record of its parts, with its filter as a tree. It has 1 to 3 keys, at most 3
/// values, 1 or 2 sort items, and a size of 128 to 131,072.
#[derive(Drop)]
pub struct Trigger {
    event: Name,
    keys: Vec<KeyItem>,
    values: Vec<Item>,
    sort: Vec<SortItem>,
    variable: Option<Var>,
    size: u32,
    onmatch: Option<Onmatch>,
    filter: Option<Filter>,
}

impl Model for Trigger {
    ghost use Rattle.ft_hist.specs.Hist.{Hist};
    ghost use Rattle.ft_hist.specs.Codes.{hist_code};

    ghost Value = { Hist };

    ghost coded = { hist_code };

    ghost use Rattle.ft_hist.specs.inner.Triggers.{hist_of, IsWhole};

    ghost view = { hist_of };

    ghost invariant = { IsWhole };
}

/// What a trigger counts under, what it sums and saves, and how its rows are kept and sorted.
#[derive(Drop)]
pub struct TriggerParts {
    /// What it counts events under, 1 to 3 items.
    pub keys: Vec<KeyItem>,
    /// What it sums, at most 3 items.
    pub values: Vec<Item>,
    /// How its rows are sorted, 1 or 2 items.
    pub sort: Vec<SortItem>,
    /// Its variable, if it has one.
    pub variable: Option<Var>,
    /// The most keys that its table holds, 128 to 131,072.
    pub size: u32,
}

impl Trigger {
    /// A trigger of these parts, which makes no events.
    ///
    /// `ft_trigger::parse` uses it to make triggers of texts, and tests use it to make them of
    /// parts written out. It requires what makes the parts one trigger: they are within the limits,
    /// their items are the event's and the trigger's own, and the filter is for the event. No test
    /// of that is offered: whoever reads a text has already checked it part by part, each with a
    /// fault and a place of its own, and would have no answer left to give here.
    pub fn of(event: Name, parts: TriggerParts, filter: Option<Filter>) -> Trigger
        requires within { IsWithin (hist_of_parts event parts filter) }
        requires sound { IsSound (hist_of_parts event parts filter) }
        requires filter { ForSome filter (λ f. f.event ≡ event) }
        ensures { result ≡ hist_of_parts event parts filter }
    {
        Trigger {
            event,
            keys: parts.keys,
            values: parts.values,
            sort: parts.sort,
            variable: parts.variable,
            size: parts.size,
            onmatch: None,
            filter,
        }
    }

    /// The event that it is on.
    pub fn event(&self) -> Name
        ensures { result ≡ self.now.event }
    {
        self.event
    }

    /// What it counts events under, 1 to 3 items: fields of its event, with modifiers that suit
    /// them.
    pub fn keys(&self) -> &[KeyItem]
        ensures value { result.now ≡ self.now.keys }
        ensures some { 0 < length self.now.keys }
        ensures few { length self.now.keys ≤ 3 }
        ensures sound { IsTrue (list_all (key_suits self.now.event) self.now.keys) }
    {
        &self.keys
    }

    /// What it sums, at most 3 items: fields of numbers of its event, and its own variable, if it
    /// has one.
    pub fn values(&self) -> &[Item]
        ensures value { result.now ≡ self.now.values }
        ensures few { length self.now.values ≤ 3 }
        ensures sound { IsTrue
            (list_all (value_suits self.now.event self.now.variable) self.now.values) }
    {
        &self.values
    }

    /// How its rows are sorted, 1 or 2 items: by hits, or by keys and values that are there.
    pub fn sort(&self) -> &[SortItem]
        ensures value { result.now ≡ self.now.sort }
        ensures some { 0 < length self.now.sort }
        ensures few { length self.now.sort ≤ 2 }
        ensures sound { IsTrue (list_all
            (λ item. by_suits (length self.now.keys) (length self.now.values) item.what)
            self.now.sort) }
    {
        &self.sort
    }

    /// Its variable, if it has one.
    pub fn variable(&self) -> Option<&Var>
        ensures { option_copied result ≡ self.now.variable }
    {
        self.variable.as_ref()
    }

    /// The most keys that its table holds, 128 to 131,072.
    pub fn size(&self) -> u32
        ensures value { result ≡ self.now.size }
        ensures least { 128 ≤ result }
        ensures most { result ≤ 131072 }
    {
        self.size
    }

    /// What it makes events of, if it has an onmatch part. Then it reads a variable, and both
    /// fields are its event's and hold numbers.
    pub fn onmatch(&self) -> Option<&Onmatch>
        ensures value { option_copied result ≡ self.now.onmatch }
        ensures sound { IsTrue
            (option_map_or (onmatch_suits self.now.event self.now.variable) (option_copied result)
            true) }
    {
        self.onmatch.as_ref()
    }

    /// Takes this onmatch part, or none, in place of its own. All else stays.
    pub fn set_onmatch(&mut self, onmatch: Option<Onmatch>)
        requires { IsSound (hist_with_onmatch self.old onmatch) }
        ensures { self.new ≡ hist_with_onmatch self.old onmatch }
    {
        self.onmatch = onmatch;
    }

    /// Its filter, if it has one. It is for the trigger's event.
    pub fn filter(&self) -> Option<&Filter>
        ensures { option_copied result
            ≡ option_map (λ tree. record { event = self.now.event; tree = tree })
            self.now.filter }
    {
        self.filter.as_ref()
    }

    /// Takes this filter, or none, in place of its own. All else stays.
    pub fn set_filter(&mut self, filter: Option<Filter>)
        requires { ForSome filter (λ f. f.event ≡ self.old.event) }
        ensures { self.new ≡ with_filter self.old (option_map (λ f. f.tree) filter) }
    {
        self.filter = filter;
    }
}
