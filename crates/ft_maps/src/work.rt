//! Counts of steps, which only contracts see.

ghost use Rattle.std.specs.Prelude.{◌≡◌, ◌+◌};

use crate::count::Count;
use std::marker::Model;

/// Two counts of steps: how often an event was tested against a trigger, and how often something
/// was put into a map.
///
/// Contracts see the two numbers, `evals` and `puts`. At run time it is nothing.
#[derive(Drop)]
pub struct Work {
    evals: Count,
    puts: Count,
}

impl Model for Work {
    ghost use Rattle.ft_maps.specs.Steps.{Steps};

    ghost Value = { Steps };

    ghost view = { λ w. record { evals = w.evals; puts = w.puts } };
}

impl Work {
    /// No steps yet.
    pub fn new() -> Work
        ensures evals { result.evals ≡ 0 }
        ensures puts { result.puts ≡ 0 }
    {
        Work {
            evals: Count::zero(),
            puts: Count::zero(),
        }
    }

    /// Counts one test of an event against a trigger.
    pub fn tick_eval(&mut self)
        ensures evals { self.new.evals ≡ self.old.evals + 1 }
        ensures puts { self.new.puts ≡ self.old.puts }
    {
        self.evals.raise();
    }

    /// Counts one put into a map.
    pub fn tick_put(&mut self)
        ensures evals { self.new.evals ≡ self.old.evals }
        ensures puts { self.new.puts ≡ self.old.puts + 1 }
    {
        self.puts.raise();
    }
}
