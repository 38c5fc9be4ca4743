//! How sure waits are, by the holes of their text.

ghost use Rattle.std.specs.Prelude.{◌≡◌, map};
ghost use Rattle.ft_stream.specs.Doubting.{pos_of, cause_numbered, began_of, doubt_number, with_doubt};

use crate::layouts::WaitLayout;
use ft_dispatch::{Began, Cause};
use ft_fields::Pos;
use ft_layout::PlaceLayout;
use ft_losses::{Doubt, Doubts};

/// The largest CPU that a place can have.
const MOST_CPU: u32 = 65535;

/// A place that C has; a larger CPU counts as the largest one.
fn pos_of(place: &PlaceLayout) -> Pos
    ensures { result ≡ pos_of place.now }
{
    Pos {
        stamp: place.stamp,
        cpu: place.cpu.min(MOST_CPU) as u16,
        line: place.line,
    }
}

/// The cause with a number.
fn cause_numbered(number: u32) -> Option<Cause>
    ensures { result ≡ cause_numbered number }
{
    match number {
        1 => Some(Cause::Woken),
        2 => Some(Cause::Created),
        3 => Some(Cause::Preempted),
        _ => None,
    }
}

/// A beginning, if its number is that of a cause.
fn began_of(number: u32, place: &PlaceLayout) -> Option<Began>
    ensures { result ≡ began_of number place.now }
{
    match cause_numbered(number) {
        Some(cause) => Some(Began {
            cause,
            place: pos_of(place),
        }),
        None => None,
    }
}

/// The number of how sure a wait is.
fn doubt_number(doubt: Doubt) -> u32
    ensures { result ≡ doubt_number doubt }
{
    match doubt {
        Doubt::Sure => 0,
        Doubt::Likely => 1,
        Doubt::Doubtful => 2,
    }
}

impl WaitLayout {
    /// The wait with how sure it is, by the holes of its text; it is likely at most if its task was left asleep
    /// after it began. Without a cause it stays as it is.
    fn with_doubt(self, doubts: &Doubts) -> WaitLayout
        ensures { result ≡ with_doubt doubts.now self }
    {
        match began_of(self.cause, &self.began) {
            Some(began) => {
                let wait = doubts.wait(began, self.slept != 0, pos_of(&self.ended));
                WaitLayout {
                    doubt: doubt_number(wait.doubt),
                    ..self
                }
            }
            None => self,
        }
    }
}

/// Writes how sure waits are.
pub(crate) fn doubt_all(doubts: &Doubts, waits: &mut [WaitLayout])
    ensures { waits.new ≡ map (with_doubt doubts.now) waits.old }
{
    for number in 0..waits.len() {
        waits[number] = waits[number].with_doubt(doubts);
    }
}
