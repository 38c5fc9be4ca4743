//! The names of the events that attached triggers are on.

ghost use Rattle.std.specs.Prelude.{◌≡◌, IsTrue, false, true};
ghost use Rattle.ft_fields.specs.declared.event.Name.{Name};
ghost use Rattle.ft_hist.specs.Hit.{same_name};
ghost use Rattle.ft_replay.specs.Named.{is_on, has_name};

use ft_fields::Name;
use ft_hist::Triggers;

/// Names of events: for each whether it is among them.
#[derive(Clone, Copy)]
pub struct Names {
    waking: bool,
    wakeup: bool,
    wakeup_new: bool,
    switch: bool,
    wakeup_latency: bool,
    other: bool,
}

impl Names {
    /// The names that some trigger is on.
    pub(crate) fn of(triggers: &Triggers) -> Names
        ensures { (name : Name) → has_name result name ≡ is_on triggers.now name }
    {
        Names {
            waking: is_on(triggers, Name::Waking),
            wakeup: is_on(triggers, Name::Wakeup),
            wakeup_new: is_on(triggers, Name::WakeupNew),
            switch: is_on(triggers, Name::Switch),
            wakeup_latency: is_on(triggers, Name::WakeupLatency),
            other: is_on(triggers, Name::Other),
        }
    }

    /// Only one name.
    pub fn only(name: Name) -> Names
        ensures { (other : Name) → has_name result other ≡ same_name name other }
    {
        Names {
            waking: name == Name::Waking,
            wakeup: name == Name::Wakeup,
            wakeup_new: name == Name::WakeupNew,
            switch: name == Name::Switch,
            wakeup_latency: name == Name::WakeupLatency,
            other: name == Name::Other,
        }
    }

    /// Every name.
    pub fn all() -> Names
        ensures { (name : Name) → has_name result name ≡ true }
    {
        Names {
            waking: true,
            wakeup: true,
            wakeup_new: true,
            switch: true,
            wakeup_latency: true,
            other: true,
        }
    }

    /// Whether there is none.
    pub(crate) fn are_none(self) -> bool
        ensures { IsTrue result → (name : Name) → has_name self name ≡ false }
    {
        match (
            self.waking,
            self.wakeup,
            self.wakeup_new,
            self.switch,
            self.wakeup_latency,
            self.other,
        ) {
            (false, false, false, false, false, false) => true,
            _ => false,
        }
    }

    /// Whether the name is among them.
    pub(crate) fn has(self, name: Name) -> bool
        ensures { result ≡ has_name self name }
    {
        match name {
            Name::Waking => self.waking,
            Name::Wakeup => self.wakeup,
            Name::WakeupNew => self.wakeup_new,
            Name::Switch => self.switch,
            Name::WakeupLatency => self.wakeup_latency,
            Name::Other => self.other,
        }
    }
}

/// Whether some trigger is on the events of a name.
fn is_on(triggers: &Triggers, name: Name) -> bool
    ensures { result ≡ is_on triggers.now name }
{
    for (_, trigger) in triggers.iter() {
        if trigger.event() == name {
            return true;
        }
    }
    false
}
