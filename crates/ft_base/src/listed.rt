//! The attached triggers one by one.

ghost use Rattle.std.specs.Prelude.{◌≡◌, IfOk};
ghost use Rattle.ft_base.specs.Answers.{attached_in};

use ft_event::Name;
use ft_hist::Triggers;
use std::alloc::{AllocError, Global};

/// An attached trigger: its id, and the event that it is on.
#[derive(Clone, Copy, Debug, PartialEq, Eq)]
pub struct AttachedTrigger {
    /// Its id, from 1.
    pub id: u32,
    /// The event that it is on.
    pub event: Name,
}

/// The attached triggers, by id. Refused for memory.
pub(crate) fn attached_in(
    alloc: Global,
    triggers: &Triggers,
) -> Result<Vec<AttachedTrigger>, AllocError>
    ensures { IfOk result (λ attached. attached.items ≡ attached_in triggers.now) }
{
    let mut attached = Vec::with_capacity(alloc, triggers.len())?;
    for (id, trigger) in triggers.iter() {
        attached.push(AttachedTrigger {
            id: *id,
            event: trigger.event(),
        })?;
    }
    Ok(attached)
}
