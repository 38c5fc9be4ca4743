//! The labels of the named events.

ghost use Rattle.std.specs.Prelude.{◌≡◌};
ghost use Rattle.std.specs.Option.{option_map};
ghost use Rattle.ft_event.specs.Labels.{label_of};

use crate::scan::behind;

/// The label of a named event.
#[derive(Clone, Copy)]
pub(crate) enum EventLabel {
    /// `sched_waking:`
    Waking,
    /// `sched_wakeup:`
    Wakeup,
    /// `sched_wakeup_new:`
    WakeupNew,
    /// `sched_switch:`
    Switch,
}

/// The label that the text begins with, and what stands after it. No label begins another one.
#[tactic(auto, unfolding(crate::specs::Labels::label_of))]
pub(crate) fn label_of(text: &[u8]) -> Option<(EventLabel, &[u8])>
    ensures { option_map (λ x. (x.0, x.1.now)) result ≡ label_of text.now }
{
    if let Some(rest) = behind(b"sched_waking:", text) {
        return Some((EventLabel::Waking, rest));
    }
    if let Some(rest) = behind(b"sched_wakeup:", text) {
        return Some((EventLabel::Wakeup, rest));
    }
    if let Some(rest) = behind(b"sched_wakeup_new:", text) {
        return Some((EventLabel::WakeupNew, rest));
    }
    if let Some(rest) = behind(b"sched_switch:", text) {
        return Some((EventLabel::Switch, rest));
    }
    None
}
