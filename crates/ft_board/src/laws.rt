//! Laws: functions that do nothing, whose clauses are proved.

ghost use Rattle.ft_board.specs.Makers.{MadeStay, StayByFilter, StayWithout};

pub use crate::kept::kept_board_keeps;
pub use ft_repair::laws::{kept_shelves, others_stay, readers_stay};

/// A law: the events that triggers make stay as they are, whatever other triggers come, go or get
/// another filter, if each trigger that makes any stays with its saver, and the same triggers read
/// that. So they stay if a trigger comes, goes or gets another filter that makes no events, and
/// neither saves nor reads what is read by a trigger that makes events. Since a reading unsets its
/// variable, a trigger that only reads the same variable does bear on what is made.
pub fn made_events_stay()
    ensures events { MadeStay }
    ensures without { StayWithout }
    ensures filter { StayByFilter }
{
    kept_shelves();
    readers_stay();
}
