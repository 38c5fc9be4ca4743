//! What a repair changes, recorded on the way.

ghost use Rattle.std.specs.Prelude.{◌≡◌, [], ◌∷◌, Some, None, option_map};
ghost use Rattle.ft_kept.specs.Changes.{Tells, whose_of};

use ft_changes::ReadingChange;
use ft_fields::Key;
use ft_pairs::Role;
use std::alloc::Global;
use std::marker::Model;

/// Whose hits may have changed.
#[derive(Clone, Copy, Debug, PartialEq, Eq)]
pub enum Whose {
    /// Those of the trigger with this id, which reads nothing.
    Trigger(u32),
    /// Those of all triggers that read what the trigger with this id saves.
    ReadersOf(u32),
}

impl Whose {
    /// The hits of the trigger with an id, which has this role, are among these.
    pub(crate) fn of(role: Role, id: u32) -> Whose
        ensures { result ≡ whose_of role id }
    {
        match role {
            Role::Plain | Role::Saves => Whose::Trigger(id),
            Role::Reads(saver) => Whose::ReadersOf(saver),
        }
    }
}

/// A key under which hits may have changed.
#[derive(Clone, Copy, Debug, PartialEq, Eq)]
pub struct KeyChange {
    /// Whose hits.
    pub whose: Whose,
    /// The key.
    pub key: Key,
}

/// A list of changes in the order in which they came, if it is asked for and memory for it is found.
///
/// Contracts see the list, or none.
#[derive(Drop)]
pub struct Log<T> {
    items: Option<Vec<T>>,
}

impl<T> Model for Log<T> {
    ghost use Rattle.std.specs.Prelude.{List, Option, option_map};
    ghost use Rattle.std.specs.Coded.{coded_list, coded_option};

    ghost Value = { Option (List T) };

    ghost coded = { coded_option (coded_list T.code) };

    ghost view = { λ log. option_map (λ items. items.items) log.items };
}

impl<T: Drop> Log<T> {
    /// Asked for from now on. It takes no memory.
    pub fn new(alloc: Global) -> Log<T>
        ensures { result ≡ Some [] }
    {
        Log {
            items: Some(Vec::new(alloc)),
        }
    }

    /// The changes; none if they weren't asked for, or memory for them ran out.
    pub fn items(&self) -> Option<&[T]>
        ensures { option_map (λ items. items.now) result ≡ self.now }
    {
        self.items.as_deref()
    }

    /// Records one more. If memory for it runs out, none are recorded any more.
    pub(crate) fn add(&mut self, item: T)
        ensures { Tells (item ∷ []) self.old self.new }
    {
        let Some(mut items) = self.items.take() else {
            return;
        };
        if items.push(item).is_ok() {
            self.items = Some(items);
        }
    }
}

/// What repairs changed.
#[derive(Drop)]
pub struct Changes {
    /// The keys under which hits may have changed.
    pub keys: Log<KeyChange>,
    /// What readings found before and find now.
    pub readings: Log<ReadingChange>,
}

impl Changes {
    /// Nothing is asked for.
    pub fn unasked() -> Changes
        ensures { result ≡ record { keys = None; readings = None } }
    {
        Changes {
            keys: Log { items: None },
            readings: Log { items: None },
        }
    }

    /// Records a key under which hits may have changed.
    pub(crate) fn record_key(&mut self, whose: Whose, key: Key)
        ensures keys { Tells (record { whose = whose; key = key } ∷ []) self.old.keys self.new.keys }
        ensures readings { self.new.readings ≡ self.old.readings }
    {
        self.keys.add(KeyChange { whose, key });
    }
}
