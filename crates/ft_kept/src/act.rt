//! What a repair is given: where it looks things up, and the act that comes or goes.

use ft_fields::{Event, Pos};
use ft_hist::{Key, Trigger, Triggers};
use ft_lanes::Lanes;
use ft_pairs::At;
use ft_shelves::Sign;

/// Where a repair looks things up: the attached triggers, and the lanes of held events.
#[derive(Clone, Copy)]
pub struct Scene<'a> {
    /// The attached triggers, by id.
    pub triggers: &'a Triggers,
    /// The lanes of held events.
    pub lanes: &'a Lanes,
}

/// One event more or less.
#[derive(Clone, Copy)]
pub struct Delta<'a> {
    /// Whether the event is put in or taken away.
    pub sign: Sign,
    /// The event's place.
    pub pos: Pos,
    /// The event, which is held at its place.
    pub event: &'a Event,
}

/// An attached trigger.
#[derive(Clone, Copy)]
pub struct Attached<'a> {
    /// Its id.
    pub id: u32,
    /// The trigger.
    pub trigger: &'a Trigger,
}

/// A trigger counts an event under a key, or no longer does; and where its repair looks things up.
#[derive(Clone, Copy)]
pub(crate) struct Act<'a> {
    pub(crate) scene: Scene<'a>,
    pub(crate) sign: Sign,
    pub(crate) trigger: &'a Trigger,
    pub(crate) at: At,
    pub(crate) event: &'a Event,
    pub(crate) key: Key,
}
