//! Which trigger has an id, which saves a name or reads it, and what a trigger does with its
//! variable.

ghost use Rattle.std.specs.Prelude.{◌≡◌, Some, None, IfOk, IfErr};
ghost use Rattle.std.specs.Option.{option_copied};
ghost use Rattle.std.specs.FinMap as map;
ghost use Rattle.ft_base.specs.declared.refused.Refused.TheVariants.{NoTrigger};
ghost use Rattle.ft_base.specs.After.{reader_on};
ghost use Rattle.ft_base.specs.Roles.{saves_name, reads_name, saver_of, reader_of};
ghost use Rattle.ft_base.specs.Roles.{is_reader, role_of};

use crate::refused::Refused;
use ft_hist::{Trigger, Triggers, Var};
use ft_pairs::Role;

/// The attached trigger with an id. Refused if no trigger has it.
pub fn find_trigger(triggers: &Triggers, id: u32) -> Result<&Trigger, Refused>
    ensures there { IfOk result (λ trigger.
        map.get triggers.now id ≡ Some trigger.now) }
    ensures refused { IfErr result (λ refused. (refused ≡ NoTrigger)
        × (map.get triggers.now id ≡ None)) }
{
    match triggers.get(id) {
        Some(trigger) => Ok(trigger),
        None => Err(Refused::NoTrigger),
    }
}

/// Whether a variable is saved under a name.
fn saves_name(variable: Option<&Var>, name: &[u8]) -> bool
    ensures { result ≡ saves_name name.now (option_copied variable.entry) }
{
    match variable {
        Some(Var::Saves(label)) => label.bytes() == name,
        Some(Var::Reads { .. }) | None => false,
    }
}

/// The smallest id of an attached trigger that saves a name.
pub(crate) fn saver_of(triggers: &Triggers, name: &[u8]) -> Option<u32>
    ensures { result ≡ saver_of triggers.now name.now }
{
    for (id, trigger) in triggers.iter() {
        if saves_name(trigger.variable(), name) {
            return Some(*id);
        }
    }
    None
}

/// Whether a variable reads one that is saved under a name.
fn reads_name(variable: Option<&Var>, name: &[u8]) -> bool
    ensures { result ≡ reads_name name.now (option_copied variable.entry) }
{
    match variable {
        Some(Var::Reads { source, .. }) => source.bytes() == name,
        Some(Var::Saves(_)) | None => false,
    }
}

/// The smallest id of an attached trigger that reads a name.
fn reader_of(triggers: &Triggers, name: &[u8]) -> Option<u32>
    ensures { result ≡ reader_of triggers.now name.now }
{
    for (id, trigger) in triggers.iter() {
        if reads_name(trigger.variable(), name) {
            return Some(*id);
        }
    }
    None
}

/// The smallest id of an attached trigger that reads what a trigger with this variable saves.
pub(crate) fn reader_on(triggers: &Triggers, variable: Option<&Var>) -> Option<u32>
    ensures { result ≡ reader_on triggers.now (option_copied variable.entry) }
{
    match variable {
        Some(Var::Saves(label)) => reader_of(triggers, label.bytes()),
        Some(Var::Reads { .. }) | None => None,
    }
}

/// What a trigger with a variable does with it.
pub fn role_of(triggers: &Triggers, variable: Option<&Var>) -> Role
    ensures { result ≡ role_of triggers.now (option_copied variable.entry) }
{
    match variable {
        None => Role::Plain,
        Some(Var::Saves(_)) => Role::Saves,
        Some(Var::Reads { source, .. }) => {
            // An attached reader has a saver; else it would be 0, which is no trigger's id.
            Role::Reads(saver_of(triggers, source.bytes()).unwrap_or(0))
        }
    }
}

/// Whether a trigger reads a variable.
pub fn is_reader(trigger: &Trigger) -> bool
    ensures { result ≡ is_reader trigger.now.variable }
{
    matches!(trigger.variable(), Some(Var::Reads { .. }))
}
