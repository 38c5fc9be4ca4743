//! Whether a trigger's variable can be attached.

ghost use Rattle.std.specs.Prelude.{◌≡◌};
ghost use Rattle.ft_base.specs.After.{reader_refusal, saver_refusal, variable_refusal};
ghost use Rattle.ft_base.specs.Roles.{saves_for};

use crate::refused::Refused;
use crate::roles::saver_of;
use ft_hist::{Trigger, Triggers, Var};

/// Why a trigger can't be attached because of its variable: its name is already saved, nobody saves
/// what it reads, or the saver doesn't match.
pub(crate) fn variable_refusal(triggers: &Triggers, trigger: &Trigger) -> Option<Refused>
    ensures { result ≡ variable_refusal triggers.now
        trigger.now trigger.now.variable }
{
    match trigger.variable() {
        None => None,
        Some(Var::Saves(label)) => saver_of(triggers, label.bytes()).map(Refused::NameTaken),
        Some(Var::Reads { source, .. }) => reader_refusal(triggers, trigger, source.bytes()),
    }
}

/// Why a reader of a name can't be attached.
#[tactic(auto, unfolding(crate::specs::After::reader_refusal))]
fn reader_refusal(triggers: &Triggers, reader: &Trigger, source: &[u8]) -> Option<Refused>
    ensures { result ≡ reader_refusal triggers.now reader.now source.now }
{
    match saver_of(triggers, source).and_then(|id| triggers.get(id)) {
        None => Some(Refused::NoVariable),
        Some(saver) => saver_refusal(reader, saver),
    }
}

/// Why a reader can't read from a saver: the saver is on another event than the reader's onmatch
/// part names, or the keys don't match.
fn saver_refusal(reader: &Trigger, saver: &Trigger) -> Option<Refused>
    ensures { result ≡ saver_refusal reader.now saver.now }
{
    if !saves_for(reader, saver) {
        Some(Refused::NoVariable)
    } else if !reader.keys_match(saver) {
        Some(Refused::KeyMismatch)
    } else {
        None
    }
}

/// Whether a saver is on the event that a reader's onmatch part names, if it has one.
fn saves_for(reader: &Trigger, saver: &Trigger) -> bool
    ensures { result ≡ saves_for reader.now saver.now }
{
    match reader.onmatch() {
        None => true,
        Some(onmatch) => onmatch.event == saver.event(),
    }
}
