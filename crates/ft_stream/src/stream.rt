//! A stream of waits, and its calls.

ghost use Rattle.std.specs.Prelude.{◌≡◌, [], Some, None};
ghost use Rattle.ft_stream.specs.Calls.{IsIdle, Begins, BeginsPart, Joins, LeavesOut, SumsUp, Feeds, Finishes, TellsLast, Holds, DoubtsWaits};
ghost use Rattle.ft_stream.specs.Faults.{fault_code};

use crate::apart::Part;
use crate::fault::StreamFault;
use crate::held::held_waits;
use crate::joining::join_phase;
use crate::layouts::{ReadLayout, WaitLayout};
use crate::leaving::leave_out_phase;
use crate::phase::{Phase, doubt_phase, feed_phase, finish_phase};
use crate::summing::sum_up_phase;
use ft_dispatch::Dispatch;
use ft_fields::Name;
use ft_lanes::Lanes;
use ft_waits::{BadLines, Waits, WaitsFault};
use std::alloc::Global;

/// A stream of waits: where it stands, and what it told last.
#[derive(Drop)]
pub struct Stream {
    /// Its allocator.
    pub alloc: Global,
    /// Where it stands.
    pub phase: Phase,
    /// The waits that the last feed, finish or join told, or those of held events, whichever was
    /// asked for last: the dispatches that end them.
    pub waits: Vec<Dispatch>,
    /// Why the last call with a code was refused, if it was.
    pub refused: Option<StreamFault>,
}

/// Notes that a call is accepted: the code 0.
fn accept(refused: &mut Option<StreamFault>) -> u32
    ensures note { refused.new ≡ None }
    ensures code { result ≡ 0 }
{
    *refused = None;
    0
}

/// Notes why a call is refused: the refusal's code.
fn refuse(refused: &mut Option<StreamFault>, why: StreamFault) -> u32
    ensures note { refused.new ≡ Some why }
    ensures code { result ≡ fault_code why }
{
    *refused = Some(why);
    why.code()
}

impl Stream {
    /// No stream has begun. It takes no memory.
    pub fn new(alloc: Global) -> Stream
        ensures { IsIdle result }
    {
        Stream {
            alloc,
            phase: Phase::Idle,
            waits: Vec::new(alloc),
            refused: None,
        }
    }

    /// Puts the stream there, with no wait told: the code 0.
    fn stand_at(&mut self, phase: Phase) -> u32
        ensures code { result ≡ 0 }
        ensures none { self.new.waits.items ≡ [] }
        ensures stands { self.new ≡ record self.old { phase = phase; waits = self.new.waits; refused = None } }
    {
        self.phase = phase;
        self.waits.clear();
        accept(&mut self.refused)
    }

    /// Begins a stream, and ends the one that was there. Refused only for memory: the one that was there
    /// stays then.
    #[tactic(auto, unfolding(crate::specs::Calls::Begins))]
    pub fn begin(&mut self, bad_lines: BadLines) -> u32
        ensures { Begins bad_lines self.old result self.new }
    {
        match Waits::new(self.alloc, bad_lines) {
            Ok(running) => self.stand_at(Phase::Running(running)),
            Err(_) => refuse(&mut self.refused, StreamFault::Text(WaitsFault::Memory)),
        }
    }

    /// Begins a stream whose text is a part of a longer one, not its beginning, and ends the one that was
    /// there. What came before the part is not known, so it tells no wait that ends with the first dispatch
    /// of a task: those are held back until it is joined behind the text before it. Places are counted from
    /// its own start. It is not ended or summed up by itself. Refused only for memory: the one that was
    /// there stays then.
    #[tactic(auto, unfolding(crate::specs::Calls::BeginsPart))]
    pub fn begin_part(&mut self, bad_lines: BadLines) -> u32
        ensures { BeginsPart bad_lines self.old result self.new }
    {
        match Part::new(self.alloc, bad_lines) {
            Ok(part) => self.stand_at(Phase::Part(part)),
            Err(_) => refuse(&mut self.refused, StreamFault::Text(WaitsFault::Memory)),
        }
    }

    /// Joins a part behind the text that was read so far, as if its text had been fed here: how
    /// many waits this told. They are those of the last microsecond before the seam, and after them
    /// those of the dispatches that the part held back, at their places in the whole text. Of the
    /// waits that the part told before only the places move: by how many events each CPU had here
    /// before the join. No stream is left where the part was.
    ///
    /// Refused if no whole text runs here or no part there, if one of the two is refused, and for
    /// the reasons of `Waits::meets`: both are as before then. If memory runs out, the stream has
    /// failed and the part is gone.
    #[tactic(auto, unfolding(crate::specs::Calls::Joins))]
    pub fn join(&mut self, part: &mut Stream, count: &mut u64) -> u32
        ensures { Joins self.old part.old count.old result count.new self.new part.new }
    {
        match join_phase(&mut self.phase, &mut part.phase, &mut self.waits) {
            Ok(()) => {
                *count = self.waits.len() as u64;
                accept(&mut self.refused)
            }
            Err(why) => refuse(&mut self.refused, why),
        }
    }

    /// Leaves events of a name out of the text: those that pass the filter of a text, or all if that is
    /// empty. They say nothing of who runs, and all else is as it would be with them. Refused if no stream
    /// runs or the one that runs has taken a piece, if no event has the name, as the desk refuses a
    /// filter, and for memory: the stream goes on as before then, and a text that has ended keeps what was
    /// read of it.
    #[tactic(auto, unfolding(crate::specs::Calls::LeavesOut, crate::specs::Calls::LeavesOutOn))]
    pub fn leave_out(&mut self, name: Name, filter: &[u8]) -> u32
        ensures { LeavesOut name filter.now self.old result self.new }
    {
        match leave_out_phase(&mut self.phase, self.alloc, name, filter) {
            Ok(()) => accept(&mut self.refused),
            Err(why) => refuse(&mut self.refused, why),
        }
    }

    /// Sums up the tasks and CPUs of the text as well. Refused if no stream runs, or the one that runs has
    /// taken a piece or is a part: the stream is as before then, also if its text has ended.
    #[tactic(auto, unfolding(crate::specs::Calls::SumsUp, crate::specs::Calls::SumsUpOn))]
    pub fn sum_up(&mut self) -> u32
        ensures { SumsUp self.old result self.new }
    {
        match sum_up_phase(&mut self.phase, self.alloc) {
            Ok(()) => accept(&mut self.refused),
            Err(why) => refuse(&mut self.refused, why),
        }
    }

    /// Takes the next piece of the text: how many waits it told, of lines that ended so far. Refused as
    /// `Waits::feed` is, and if no stream runs.
    #[tactic(auto, unfolding(crate::specs::Calls::Feeds, crate::specs::Calls::FeedsOn))]
    pub fn feed(&mut self, piece: &[u8], count: &mut u64) -> u32
        ensures { Feeds piece.now self.old count.old result count.new self.new }
    {
        match feed_phase(&mut self.phase, piece, &mut self.waits) {
            Ok(()) => {
                *count = self.waits.len() as u64;
                accept(&mut self.refused)
            }
            Err(why) => refuse(&mut self.refused, why),
        }
    }

    /// Ends the text: how many waits were left, and what was read of it. The stream has ended then. Refused
    /// as `Waits::finish` is, and if no stream runs, or a part.
    #[tactic(auto, unfolding(crate::specs::Calls::Finishes, crate::specs::Calls::FinishesOn))]
    pub fn finish(&mut self, read: &mut ReadLayout, count: &mut u64) -> u32
        ensures { Finishes self.old read.old count.old result read.new count.new self.new }
    {
        match finish_phase(&mut self.phase, self.alloc, &mut self.waits) {
            Ok(shown) => {
                *read = shown;
                *count = self.waits.len() as u64;
                accept(&mut self.refused)
            }
            Err(why) => refuse(&mut self.refused, why),
        }
    }

    /// Writes the stamp of the last event so far, and whether there is one: 0 if there is none. Refused if no
    /// stream has begun, and of a text that is refused.
    #[tactic(auto, unfolding(crate::specs::Calls::TellsLast))]
    pub fn last(&mut self, stamp: &mut u64, has: &mut bool) -> u32
        ensures { TellsLast self.old stamp.old has.old result stamp.new has.new self.new }
    {
        match self.phase.last() {
            Ok(last) => {
                *stamp = last.unwrap_or(0);
                *has = last.is_some();
                accept(&mut self.refused)
            }
            Err(why) => refuse(&mut self.refused, why),
        }
    }

    /// Asks for the waits of the events that lanes hold: how many they are. The stream goes on as before.
    /// Refused only for memory.
    #[tactic(auto, unfolding(crate::specs::Calls::Holds))]
    pub fn hold(&mut self, lanes: &Lanes, count: &mut u64) -> u32
        ensures { Holds lanes.now self.old count.old result count.new self.new }
    {
        match held_waits(self.alloc, lanes) {
            Ok(waits) => {
                *count = waits.len() as u64;
                self.waits = waits;
                accept(&mut self.refused)
            }
            Err(_) => refuse(&mut self.refused, StreamFault::Text(WaitsFault::Memory)),
        }
    }

    /// Writes how sure waits of the text are, by its holes. Refused if the text has not ended.
    #[tactic(auto, unfolding(crate::specs::Calls::DoubtsWaits))]
    pub fn doubt(&mut self, waits: &mut [WaitLayout]) -> u32
        ensures { DoubtsWaits waits.old self.old result waits.new self.new }
    {
        match doubt_phase(&self.phase, waits) {
            Ok(()) => accept(&mut self.refused),
            Err(why) => refuse(&mut self.refused, why),
        }
    }

    /// Ends the stream: all that it keeps is given back.
    pub fn end(&mut self)
        ensures { IsIdle self.new }
    {
        *self = Stream::new(self.alloc);
    }
}
