//! What is kept of acts.

use ft_dispatch::{PlacedAct, Shown, Tasks};
use ft_windows::Windows;

/// What is kept of the acts so far.
#[derive(Drop)]
pub(crate) struct KeptActs {
    /// The acts at the last stamp, in the order of the text: others of the same microsecond may come.
    pub(crate) held: Vec<PlacedAct>,
    /// Since when each task is runnable, by the acts before that stamp.
    pub(crate) tasks: Tasks,
    /// The first wakings of those acts. What they show is given to the windows.
    pub(crate) shown: Shown,
    /// What all events, and what those acts show, say of events that are missing.
    pub(crate) windows: Windows,
}
