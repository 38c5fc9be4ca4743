//! What replaying leaves of the readings of attached triggers.

use ft_made::KeptReadings;
use ft_maps::get;
use ft_replay::{Counter, Pair};
use std::alloc::{AllocError, Global};
use std::collections::BTreeMap;

/// The counters of a whole replay: what is kept of the readings of a trigger are its counter's
/// pairs.
#[derive(Drop)]
pub(crate) struct ReplayedReadings {
    /// Where copies of pairs are made.
    pub(crate) alloc: Global,
    /// The counter of each attached trigger.
    pub(crate) counters: BTreeMap<u32, Counter>,
}

impl KeptReadings for ReplayedReadings {
    ghost use Rattle.std.specs.Ordering.{nat_cmp};
    ghost use Rattle.ft_maps.specs.Seen.{seen};
    ghost use Rattle.ft_answers.specs.inner.Readings.{pairs_by};

    ghost pairs = { λ kept. pairs_by (seen nat_cmp kept.counters) };

    fn pairs_by(&self, id: u32) -> Result<Vec<Pair>, AllocError> {
        match get(&self.counters, &id) {
            Some(counter) => counter.pairs().to_vec(self.alloc),
            None => Ok(Vec::new(self.alloc)),
        }
    }
}
