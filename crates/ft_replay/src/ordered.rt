//! A list of events that is kept in order of their places while that is cheap.

ghost use Rattle.std.specs.Prelude.{◌≡◌, ◌≤◌, ◌++◌, ◌∷◌, [], length, OnOk, IfSome, IsPermutation};

use ft_fields::Pos;
use ft_store::Stored;
use std::alloc::{AllocError, Global};

/// How many places back each event may move, on average.
const MOVES_EACH: usize = 4;

/// Events with their places. A new event is moved forward to its place in the merged order. If that
/// would take more than a few moves for each event so far, it stays at the end.
#[derive(Drop)]
pub(crate) struct Ordered<'a> {
    events: Vec<(Pos, Stored<'a>)>,
    moves_left: usize,
}

impl<'a> Ordered<'a> {
    /// No events.
    pub(crate) fn new(alloc: Global) -> Ordered<'a>
        ensures { result.events.items ≡ [] }
    {
        Ordered {
            events: Vec::new(alloc),
            moves_left: 0,
        }
    }

    /// The list.
    pub(crate) fn into_events(self) -> Vec<(Pos, Stored<'a>)>
        ensures { result.items ≡ self.entry.events.items }
    {
        let Ordered {
            events,
            moves_left: _,
        } = self;
        events
    }

    /// Adds an event. Refused for memory.
    pub(crate) fn push(&mut self, pos: Pos, stored: Stored<'a>) -> Result<(), AllocError>
        ensures { OnOk result
            (IsPermutation (self.old.events.items ++ (pos, stored.entry) ∷ []) self.new.events.items) }
    {
        self.moves_left = self.moves_left.saturating_add(MOVES_EACH);
        match moves_back(&self.events, pos, self.moves_left) {
            Some(moves) => {
                self.moves_left -= moves;
                let index = self.events.len() - moves;
                put_at(&mut self.events, index, (pos, stored))
            }
            None => {
                self.moves_left = 0;
                self.events.push((pos, stored))?;
                Ok(())
            }
        }
    }
}

/// How many of the last events come after a place, if they are at most `most`.
fn moves_back(events: &[(Pos, Stored<'_>)], pos: Pos, most: usize) -> Option<usize>
    ensures within { IfSome result (λ moves. moves ≤ length events.now) }
    ensures few { IfSome result (λ moves. moves ≤ most) }
{
    let mut moves = 0;
    while moves < events.len() && pos < events[events.len() - 1 - moves].0 {
        if moves >= most {
            return None;
        }
        moves += 1;
    }
    Some(moves)
}

/// Inserts an event at an index. Refused for memory.
fn put_at<'a>(
    events: &mut Vec<(Pos, Stored<'a>)>,
    index: usize,
    event: (Pos, Stored<'a>),
) -> Result<(), AllocError>
    requires { index ≤ length events.old.items }
    ensures { OnOk result (IsPermutation (events.old.items ++ event.entry ∷ []) events.new.items) }
{
    if index < events.len() {
        events.insert(index, event)?;
    } else {
        events.push(event)?;
    }
    Ok(())
}
