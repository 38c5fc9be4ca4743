//! Variables of triggers, and their names.

ghost use Rattle.std.specs.Prelude.{◌≡◌, Some, IfOk};

use std::alloc::{AllocError, Global};
use std::marker::Model;

/// The name of a variable. Contracts see the list of its bytes.
#[derive(Drop)]
pub struct Label {
    bytes: Vec<u8>,
}

/// A trigger's variable.
#[derive(Drop)]
pub enum Var {
    /// `name=common_timestamp.usecs`: the stamp of each entry's last hit is saved under the name.
    Saves(Label),
    /// `name=common_timestamp.usecs-$other`: the time since the stamp that the other name saves.
    Reads {
        /// The trigger's own name for the difference.
        own: Label,
        /// The name that the stamp is saved under.
        source: Label,
    },
}

impl Model for Label {
    ghost use Rattle.std.specs.Prelude.{ℕ, List};

    ghost Value = { List ℕ };

    ghost view = { λ l. l.bytes.items };
}

impl Var {
    ghost use Rattle.ft_hist.specs.Canonical.{variable_name};

    /// The trigger's own name for it: what its stamps are saved under, or what its differences are
    /// called.
    pub fn own_name(&self) -> &[u8]
        ensures { result.now ≡ variable_name (Some self.now) }
    {
        match self {
            Var::Saves(name) => name.bytes(),
            Var::Reads { own, source: _ } => own.bytes(),
        }
    }
}

impl Label {
    /// The name of these bytes. Refused for memory.
    pub fn of(alloc: Global, bytes: &[u8]) -> Result<Label, AllocError>
        ensures { IfOk result (λ label. label ≡ bytes.now) }
    {
        let mut copy = Vec::new(alloc);
        copy.extend_from_slice(bytes)?;
        Ok(Label { bytes: copy })
    }

    /// Its bytes.
    pub fn bytes(&self) -> &[u8]
        ensures { result.now ≡ self.now }
    {
        &self.bytes
    }
}
