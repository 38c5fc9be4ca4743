//! The keys of events, each found by reading as little of the event as the trigger allows.

ghost use Rattle.std.specs.Prelude.{◌≡◌, ◌+◌, ◌≤◌};
ghost use Rattle.std.specs.List.{list_any};
ghost use Rattle.ft_hist.specs.Hit.{hit};
ghost use Rattle.ft_store.specs.Stored.{held};
ghost use Rattle.ft_groups.specs.inner.Finding.{FindsKeys, is_text_item, counted_by};

use ft_fields::Field;
use ft_hist::{Key, KeyItem, Trigger, Work};
use ft_store::Stored;

/// A trigger, and what it reads of an event to find the event's key.
#[derive(Clone, Copy)]
pub(crate) struct KeyFinder<'a> {
    trigger: &'a Trigger,
    /// Whether it reads only numbers.
    bare: bool,
    /// The field whose number tells the key of an event, if one does.
    field: Option<Field>,
}

impl<'a> KeyFinder<'a> {
    /// A trigger, with what it reads.
    pub(crate) fn of(trigger: &'a Trigger) -> KeyFinder<'a>
        ensures trigger { result.trigger.now ≡ trigger.now }
        ensures finds { FindsKeys result }
    {
        let keys = trigger.keys();
        let mut finder = KeyFinder {
            trigger,
            bare: false,
            field: None,
        };
        if trigger.filter().is_some() || has_text(keys) {
            return finder;
        }
        finder.bare = true;
        match keys.first() {
            Some(key) if keys.len() == 1 => KeyFinder {
                field: Some(key.field),
                ..finder
            },
            _ => finder,
        }
    }

    /// The number that tells the key of an event, if one does and the trigger is on the event's name.
    pub(crate) fn number(&self, stored: &Stored<'_>) -> Option<i64>
        ensures { result ≡ counted_by self.now (held stored.now) }
    {
        let field = self.field?;
        if self.trigger.event() != stored.name() {
            return None;
        }
        stored.number(field)
    }

    /// The key that the trigger counts an event under, if the event is a hit of it. Tests the event
    /// if the trigger is on its name.
    pub(crate) fn key_of(&self, stored: &Stored<'_>, work: &mut Work) -> Option<Key>
        requires { FindsKeys self.now }
        ensures key { result ≡ hit self.now.trigger.now (held stored.now) }
        ensures evals { work.new.evals ≤ work.old.evals + 1 }
        ensures grow { work.old.evals ≤ work.new.evals }
        ensures puts { work.new.puts ≡ work.old.puts }
    {
        let trigger = self.trigger;
        if trigger.event() != stored.name() {
            return None;
        }
        if self.bare {
            return trigger.hit_of(&stored.bare(), work);
        }
        trigger.hit_of(&stored.event(), work)
    }
}

/// Whether one of these key items is of a field that holds a text.
fn has_text(keys: &[KeyItem]) -> bool
    ensures { result ≡ list_any is_text_item keys.now }
{
    keys.iter().any(|key| key.field.is_text())
}
