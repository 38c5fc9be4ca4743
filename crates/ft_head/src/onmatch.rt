//! The part of a head that makes events: `onmatch(sched.EVENT).wakeup_latency($OWN,F,G)`.

ghost use Rattle.std.specs.Prelude.{◌≡◌, option_map};
ghost use Rattle.ft_head.specs.Onmatch.{handed_of, name_before, traced_called};
ghost use Rattle.ft_head.specs.Draft.{number_field, action_of};
ghost use Rattle.ft_head.specs.Given.{Gives};

use ft_fields::{Field, Name, field_named};
use ft_hist::{Onmatch, TriggerFault};
use ft_text::name_at;
use std::marker::Model;

/// What has been read of such a part.
///
/// Contracts see the same with its name as a list of bytes.
#[derive(Drop)]
pub struct Action<'a> {
    own: &'a [u8],
    onmatch: Onmatch,
}

/// The words of such a part.
#[derive(Drop)]
pub(crate) struct Handed<'a> {
    /// The event that the stamp is saved at.
    event: Name,
    /// The name of the variable that is handed on.
    own: &'a [u8],
    /// The name of the field that is handed on first.
    pid: &'a [u8],
    /// The name of the field that is handed on then.
    prio: &'a [u8],
}

impl<'a> Model for Action<'a> {
    ghost use Rattle.ft_head.specs.Onmatch.{Action};

    ghost Value = { Action };

    ghost view = { λ a. record { own = a.own.now; onmatch = a.onmatch } };
}

impl<'a> Model for Handed<'a> {
    ghost use Rattle.ft_head.specs.Onmatch.{Handed};

    ghost Value = { Handed };

    ghost view = { λ h. record {
      event = h.event;
      own = h.own.now;
      pid = h.pid.now;
      prio = h.prio.now;
    } };
}

impl<'a> Action<'a> {
    /// The name of the variable that is handed on.
    pub fn own(&self) -> &'a [u8]
        ensures { result.now ≡ self.now.own }
    {
        self.own
    }

    /// What events are made of.
    pub fn onmatch(&self) -> Onmatch
        ensures { result ≡ self.now.onmatch }
    {
        self.onmatch
    }
}

impl<'a> Handed<'a> {
    /// What events are made of, if the event has both fields and they hold numbers.
    pub fn action(&self, event: Name) -> Result<Action<'a>, TriggerFault>
        ensures { Gives (λ action. action) (action_of event self.now) result }
    {
        let pid = number_field(event, self.pid)?;
        let prio = number_field(event, self.prio)?;
        Ok(Action {
            own: self.own,
            onmatch: Onmatch {
                event: self.event,
                pid,
                prio,
            },
        })
    }
}

/// The field of numbers that the event has under this name.
fn number_field(event: Name, name: &[u8]) -> Result<Field, TriggerFault>
    ensures { result ≡ number_field event name.now }
{
    match field_named(event, name) {
        Some(field) if field.is_text() => Err(TriggerFault::NotNumeric),
        Some(field) => Ok(field),
        None => Err(TriggerFault::NoField),
    }
}

/// The words of a part, if it is of the form.
#[tactic(auto, unfolding(crate::specs::Onmatch::handed_of))]
pub(crate) fn handed_of(part: &[u8]) -> Option<Handed<'_>>
    ensures { result ≡ handed_of part.now }
{
    let rest = part.strip_prefix(b"onmatch(sched.")?;
    let (event, rest) = name_before(rest, b").wakeup_latency($")?;
    let (own, rest) = name_before(rest, b",")?;
    let (pid, rest) = name_before(rest, b",")?;
    let (prio, rest) = name_before(rest, b")")?;
    if !rest.is_empty() {
        return None;
    }
    let event = traced_called(event)?;
    Some(Handed {
        event,
        own,
        pid,
        prio,
    })
}

/// A name that stands before an end, and what is after that.
fn name_before<'a>(text: &'a [u8], end: &[u8]) -> Option<(&'a [u8], &'a [u8])>
    ensures { option_map (λ cut. (cut.0.now, cut.1.now)) result ≡ name_before end.now text.now }
{
    match name_at(text) {
        Some((name, behind)) => match behind.strip_prefix(end) {
            Some(rest) => Some((name, rest)),
            None => None,
        },
        None => None,
    }
}

/// The event of the kernel that has the text as its name.
fn traced_called(text: &[u8]) -> Option<Name>
    ensures { result ≡ traced_called text.now }
{
    match Name::called(text) {
        Some(event) if event.is_traced() => Some(event),
        _ => None,
    }
}
