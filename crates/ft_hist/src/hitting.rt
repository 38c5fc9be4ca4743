//! What a trigger counts an event under.

ghost use Rattle.std.specs.Prelude.{◌≡◌, ◌+◌, ◌<◌, ◌≤◌, length, option_map};
ghost use Rattle.std.specs.Option.{option_copied};
ghost use Rattle.ft_hist.specs.declared.item.KeyItem.{KeyItem};
ghost use Rattle.ft_hist.specs.Hit.{part_of, key_of, same_name, passes_filter, hit};
ghost use Rattle.ft_hist.specs.Made.{counts_made};
ghost use Rattle.ft_hist.specs.Tests.{tests_taken};

use crate::item::KeyItem;
use crate::trigger::Trigger;
use ft_fields::{Event, Key, Name, Part};
use ft_filter::Filter;
use ft_maps::Work;

impl Trigger {
    /// The key that it counts the event under, or `None` if the event is no hit: it is not the
    /// trigger's, or does not pass its filter. Counts one test in `work`.
    pub fn hit_of(&self, event: &Event, work: &mut Work) -> Option<Key>
        ensures value { result ≡ hit self.now event.now }
        ensures evals { work.new.evals ≡ work.old.evals + 1 }
        ensures puts { work.new.puts ≡ work.old.puts }
    {
        work.tick_eval();
        if is_same(self.event(), event.name()) && passes(self.filter(), event) {
            key_of(self.keys(), event)
        } else {
            None
        }
    }

    /// The key that it counts the event under, or `None` if the event is no hit. Tests the event
    /// only if the trigger is on its name.
    pub fn key_of(&self, event: &Event, work: &mut Work) -> Option<Key>
        ensures key { result ≡ hit self.now event.now }
        ensures evals { work.new.evals ≡ work.old.evals + tests_taken self.now event.now }
        ensures puts { work.new.puts ≡ work.old.puts }
    {
        if !is_same(self.event(), event.name()) {
            return None;
        }
        self.hit_of(event, work)
    }

    /// Whether it counts the events that readings make. Then it counts no held ones.
    pub fn counts_made(&self) -> bool
        ensures { result ≡ counts_made self.now }
    {
        is_same(self.event(), Name::WakeupLatency)
    }
}

/// Whether two names are the same.
fn is_same(a: Name, b: Name) -> bool
    ensures { result ≡ same_name a b }
{
    a == b
}

/// Whether the event passes the filter, if there is one.
fn passes(filter: Option<&Filter>, event: &Event) -> bool
    ensures { result
        ≡ passes_filter (option_map (λ f. f.tree) (option_copied filter.entry)) event.now }
{
    match filter {
        Some(filter) => filter.holds(event),
        None => true,
    }
}

/// The key that key items make of an event, if each makes a part.
fn key_of(items: &[KeyItem], event: &Event) -> Option<Key>
    requires some { 0 < length items.now }
    requires few { length items.now ≤ 3 }
    ensures { result ≡ key_of items.now event.now }
{
    let first = part_of(items[0], event)?;
    if items.len() == 1 {
        return Some(Key::of_one(first));
    }
    let second = part_of(items[1], event)?;
    if items.len() == 2 {
        return Some(Key::of_two(first, second));
    }
    let third = part_of(items[2], event)?;
    Some(Key::of_three(first, second, third))
}

/// The part of a key that a key item makes of an event; none if the event doesn't have the item's
/// field, or if the item's modifier makes nothing of its value.
pub(crate) fn part_of(item: KeyItem, event: &Event) -> Option<Part>
    ensures { result ≡ part_of item event.now }
{
    match event.field(item.field) {
        Some(value) => item.mode.part_of(value),
        None => None,
    }
}
