//! Whether events are made of readings and counted, and which triggers bear on that. As any other
//! comes, goes or gets another filter, the tables of made events stay as they are.

ghost use Rattle.std.specs.Prelude.{◌≡◌, ◌⊎◌, true, false, is_some};
ghost use Rattle.ft_made.specs.Making.{MakeNone};
ghost use Rattle.ft_answers.specs.Counting.{CountNone, MakesNothing};
ghost use Rattle.ft_base.specs.Roles.{is_reader, role_at};
ghost use Rattle.ft_board.specs.Makers.{LeavesMakers, shares_read};

use ft_base::role_of;
use ft_hist::{Trigger, Triggers};
use ft_pairs::Role;

/// Whether events are made that are counted: some attached trigger makes events of its readings,
/// and some counts such events.
pub(crate) fn are_made(triggers: &Triggers) -> bool
    ensures none { result ≡ false
        → MakeNone triggers.now ⊎ CountNone triggers.now }
    ensures nothing { MakesNothing triggers.now → result ≡ false }
{
    triggers.iter().any(|(_, trigger)| makes(trigger))
        && triggers.iter().any(|(_, trigger)| trigger.counts_made())
}

/// Whether a trigger makes events of its readings. If it does, it is a reader.
#[tactic(auto, using(crate::proofs::Makers::makers_read))]
fn makes(trigger: &Trigger) -> bool
    ensures makes { result ≡ is_some trigger.now.onmatch }
    ensures reads { result ≡ true → is_reader trigger.now.variable ≡ true }
{
    trigger.onmatch().is_some()
}

/// Whether the trigger with an id makes events, or saves or reads what a trigger that makes events
/// reads: since a reading unsets its variable, what one reader finds, another may miss.
pub(crate) fn bears_on_makers(triggers: &Triggers, id: u32) -> bool
    ensures none { result ≡ false → LeavesMakers triggers.now id }
    ensures some { LeavesMakers triggers.now id → result ≡ false }
{
    triggers.iter().any(|(_, maker)| {
        maker.onmatch().is_some() && shares_read(triggers, id, role_of(triggers, maker.variable()))
    })
}

/// Whether the trigger with an id saves what one with this role reads, or reads it too.
fn shares_read(triggers: &Triggers, id: u32, role: Role) -> bool
    ensures { result ≡ shares_read triggers.now id role }
{
    match role {
        Role::Plain | Role::Saves => false,
        Role::Reads(saver) => id == saver || role_at(triggers, id) == role,
    }
}

/// What the trigger with an id, if there is one, does with its variable.
fn role_at(triggers: &Triggers, id: u32) -> Role
    ensures { result ≡ role_at triggers.now id }
{
    match triggers.get(id) {
        Some(trigger) => role_of(triggers, trigger.variable()),
        None => Role::Plain,
    }
}
