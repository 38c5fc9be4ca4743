//! Keys among which others are looked up.

ghost use Rattle.std.specs.Prelude.{◌≡◌, ◌||◌, List, [], not, IfOk, OnOk, OnErr};
ghost use Rattle.ft_fields.specs.declared.key.Part.{Part};
ghost use Rattle.ft_fields.specs.Parts.{same_key};
ghost use Rattle.ft_changes.specs.Rivals.{is_of};

use ft_blocks::Blocks;
use ft_fields::Key;
use std::alloc::{AllocError, Global};
use std::marker::Model;

/// Keys in order, each once. The steps that a look-up takes grow with the logarithm of their number.
///
/// Contracts see the keys.
#[derive(Drop)]
pub struct SortedKeys {
    alloc: Global,
    keys: Blocks<Key, ()>,
}

impl Model for SortedKeys {
    ghost use Rattle.std.specs.Prelude.{List};
    ghost use Rattle.std.specs.Map.{keys_of};
    ghost use Rattle.ft_fields.specs.declared.key.Part.{Part};

    ghost Value = { List (List Part) };

    ghost view = { λ s. keys_of s.keys };
}

impl SortedKeys {
    /// No keys. It takes no memory.
    pub fn new(alloc: Global) -> SortedKeys
        ensures { result ≡ [] }
    {
        SortedKeys {
            alloc,
            keys: Blocks::new(alloc),
        }
    }

    /// Some keys, which may come in any order, and more than once. Refused for memory.
    pub fn of(alloc: Global, keys: &[Key]) -> Result<SortedKeys, AllocError>
        ensures { IfOk result (λ sorted. (q : List Part) → is_of sorted q ≡ is_of keys.now q) }
    {
        let mut sorted = SortedKeys::new(alloc);
        for key in keys {
            sorted.insert(*key)?;
        }
        Ok(sorted)
    }

    /// Adds a key, and returns whether it wasn't there. Refused for memory, and then all is as it was.
    pub fn insert(&mut self, key: Key) -> Result<bool, AllocError>
        ensures fresh { IfOk result (λ fresh. fresh ≡ not (is_of self.old key)) }
        ensures added { OnOk result ((q : List Part)
            → is_of self.new q ≡ (same_key q key || is_of self.old q)) }
        ensures err { OnErr result (self.new ≡ self.old) }
    {
        if self.contains(&key) {
            return Ok(false);
        }
        self.keys.insert(self.alloc, key, ())?;
        Ok(true)
    }

    /// Whether a key is one of them.
    pub fn contains(&self, key: &Key) -> bool
        ensures { result ≡ is_of self.now key.now }
    {
        self.keys.get(key).is_some()
    }
}
