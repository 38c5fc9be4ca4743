//! Counters: what replaying holds of one attached trigger.

ghost use Rattle.std.specs.Prelude.{◌≡◌, ◌<◌, [], None, OnOk};
ghost use Rattle.std.specs.FinMap as map;
ghost use Rattle.ft_hist.specs.Steps.{StepsGrow};
ghost use Rattle.ft_replay.specs.inner.Replaying.{counter_with};

use crate::pair::Pair;
use ft_fields::Pos;
use ft_hist::Work;
use ft_pairs::Role;
use ft_table::{Hit, Table};
use std::alloc::{AllocError, Global};
use std::marker::Model;

/// The hits of one attached trigger, the pairs that its readings made, and what it does with its
/// variable.
///
/// Contracts see a record of the same fields.
#[derive(Drop)]
pub struct Counter {
    role: Role,
    table: Table,
    pairs: Vec<Pair>,
}

impl Model for Counter {
    ghost use Rattle.ft_replay.specs.Counters.{Counting, counting_code};

    ghost Value = { Counting };

    ghost coded = { counting_code };

    ghost view = { λ s. record { role = s.role; table = s.table; pairs = s.pairs.items } };
}

impl Counter {
    /// A counter without hits, with room for at least one key.
    pub(crate) fn new(alloc: Global, role: Role, size: u32) -> Counter
        requires { 0 < size }
        ensures { result
            ≡ record { role = role; table = record { hits = map.empty; size = size }; pairs = [] } }
    {
        Counter {
            role,
            table: Table::new(alloc, size),
            pairs: Vec::new(alloc),
        }
    }

    /// What the trigger does with its variable.
    pub fn role(&self) -> Role
        ensures { result ≡ self.now.role }
    {
        self.role
    }

    /// Its hits.
    pub fn table(&self) -> &Table
        ensures { result.now ≡ self.now.table }
    {
        &self.table
    }

    /// The pairs of its readings, in merged order of the reading.
    pub fn pairs(&self) -> &[Pair]
        ensures { result.now ≡ self.now.pairs }
    {
        &self.pairs
    }

    /// Adds a hit at a free place, and its pair if it read what was saved at a place. Refused for
    /// memory.
    pub(crate) fn add(
        &mut self,
        hit: Hit,
        read: Option<Pos>,
        work: &mut Work,
    ) -> Result<(), AllocError>
        requires { map.get self.old.table.hits (record { spot = hit.spot; key = hit.key }) ≡ None }
        ensures ok { OnOk result (self.new
            ≡ counter_with (record { spot = hit.spot; key = hit.key }) read hit.values self.old) }
        ensures grow { StepsGrow work.old work.new }
    {
        if let Some(saved) = read {
            self.pairs.push(Pair {
                saved,
                read: hit.spot.pos,
            })?;
        }
        self.table.insert(hit, work)
    }
}
