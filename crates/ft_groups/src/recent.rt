//! What was noted lately: an index for each of some numbers. A number may be forgotten again.

ghost use Rattle.std.specs.Prelude.{◌≡◌, ◌⊎◌, None, IfOk, IfSome, IsSomeAnd};
ghost use Rattle.ft_groups.specs.declared.recent.Slot.{Slot};
ghost use Rattle.ft_groups.specs.inner.Recent.{IsIn, noted};

use ft_hist::{Key, Part};
use std::alloc::{AllocError, Global};

/// How many numbers are known at most: 2 MiB of them.
const MOST: usize = 131_072;

/// What spreads numbers over 64 bits: 2 to the 64, divided by the golden ratio.
const SPREAD: u64 = 0x9e37_79b9_7f4a_7c15;

/// The number that was noted last in a slot, with its index; it has no index if none was noted.
#[derive(Clone, Copy)]
pub(crate) struct Slot {
    number: i64,
    index: Option<u32>,
}

/// Numbers with indices, the last one that was noted for each slot.
#[derive(Drop)]
pub(crate) struct Recent {
    pub(crate) slots: Vec<Slot>,
}

impl Recent {
    /// No numbers, with room for those of so many events. Refused for memory.
    pub(crate) fn new(alloc: Global, events: usize) -> Result<Recent, AllocError>
        ensures { IfOk result (λ recent. (slot : Slot) → IsIn recent.slots.items slot
            → slot.index ≡ None) }
    {
        let free = Slot {
            number: 0,
            index: None,
        };
        let mut slots = Vec::new(alloc);
        slots.resize(events.min(MOST), free)?;
        Ok(Recent { slots })
    }

    /// The index that was noted for a number, if there is a number and its index is known.
    pub(crate) fn get(&self, number: Option<i64>) -> Option<usize>
        ensures { IfSome result (λ index. IsSomeAnd number (λ number.
            IsIn self.now.slots.items (noted number index))) }
    {
        let number = number?;
        let slot = self.slots.get(self.slot(number))?;
        if slot.number != number {
            return None;
        }
        Some(slot.index? as usize)
    }

    /// Notes the index of a number, if there is a number.
    pub(crate) fn note(&mut self, number: Option<i64>, index: usize)
        ensures { (slot : Slot) → IsIn self.new.slots.items slot
            → IsIn self.old.slots.items slot
            ⊎ IsSomeAnd number (λ number. slot ≡ noted number index) }
    {
        let Some(number) = number else {
            return;
        };
        let slot = self.slot(number);
        if slot >= self.slots.len() {
            return;
        }
        if let Ok(index) = u32::try_from(index) {
            self.slots[slot] = Slot {
                number,
                index: Some(index),
            };
        }
    }

    /// The slot of a number, by the upper bits of its hash.
    fn slot(&self, number: i64) -> usize {
        let hash = mixed(0, number.cast_unsigned());
        ((hash >> 32).wrapping_mul(self.slots.len() as u64) >> 32) as usize
    }
}

/// A number for a key, which depends on all of its parts. Other keys may have it too.
pub(crate) fn number_for(key: &Key) -> i64 {
    let mut hash = 0;
    for number in 0..3 {
        let Some(part) = key.part(number) else {
            break;
        };
        hash = with_part(hash, part);
    }
    hash.cast_signed()
}

/// A hash with one more part.
fn with_part(hash: u64, part: Part) -> u64 {
    match part {
        Part::Num(number) => mixed(hash, number.cast_unsigned()),
        Part::Log2(power) => mixed(hash, u64::from(power)),
        Part::Bucket(multiple) => mixed(hash, multiple),
        Part::Text(text) => {
            let bytes = text.bytes().iter();
            bytes.fold(hash, |hash, byte| mixed(hash, u64::from(*byte)))
        }
    }
}

/// A hash with one more number.
fn mixed(hash: u64, number: u64) -> u64 {
    (hash ^ number).wrapping_mul(SPREAD)
}
