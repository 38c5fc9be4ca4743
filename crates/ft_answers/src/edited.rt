//! What an accepted edit of one event gives.

use ft_base::Place;
use ft_changes::Changed;

/// What an accepted insert or strike gives: where the event stands or stood and, if the board
/// reports them, which rows may have changed.
#[derive(Drop)]
pub struct Edited {
    /// The event's place.
    pub place: Place,
    /// The rows that may have changed, of all triggers that count held events; `None` if the board
    /// has no report.
    pub report: Option<Vec<Changed>>,
    /// The rows that may have changed, of all triggers that count made events; `None` if the board
    /// doesn't report them.
    pub made: Option<Vec<Changed>>,
}
