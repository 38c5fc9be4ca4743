//! The place of an event, and why an edit or an answer is refused.

ghost use Rattle.std.specs.Prelude.{◌≡◌};
ghost use Rattle.ft_base.specs.declared.refused.Refused.TheVariants.{Memory};

use ft_event::LineFault;
use ft_filter::FilterFault;
use ft_hist::TriggerFault;
use std::alloc::AllocError;
use thiserror::Error;

/// The place of an event: its lane, and its line number there.
#[derive(Clone, Copy, Debug, PartialEq, Eq)]
pub struct Place {
    /// The CPU of the lane.
    pub cpu: u16,
    /// The line number, from 1.
    pub line: u32,
}

/// Why an edit or an answer is refused. A refused edit changes nothing.
#[derive(Clone, Copy, Debug, PartialEq, Eq, Error)]
pub enum Refused {
    /// Memory ran out.
    #[error("out of memory")]
    Memory,
    /// The script has no trace file with that number.
    #[error("no trace has that number")]
    NoFile,
    /// A line cannot be read: the number of the first such line, from 1, and what is wrong with it.
    #[error("line {0}: {1}")]
    BadLine(u64, LineFault),
    /// The CPU's lane is already held.
    #[error("events of CPU {0} are already held")]
    LaneHeld(u32),
    /// No lane of the CPU is held.
    #[error("no events of CPU {0} are held")]
    NoLane(u32),
    /// The lane has no such line, or the line to insert is one that is skipped.
    #[error("there is no event on that line")]
    NoEvent,
    /// More than 1,048,576 events would be held, or a line number would pass 4,294,967,295.
    #[error("more than 1048576 events would be held, or a line number would pass 4294967295")]
    Full,
    /// The trigger's text cannot be read.
    #[error("the trigger can't be read: {0}")]
    BadTrigger(TriggerFault),
    /// The filter's text cannot be read.
    #[error("the filter can't be read: {0}")]
    BadFilter(FilterFault),
    /// No trigger with that id is attached.
    #[error("no such trigger is attached")]
    NoTrigger,
    /// The trigger saves a variable that the trigger with this id reads, the smallest such id.
    #[error("trigger {0} reads the variable that this one saves")]
    InUse(u32),
    /// The trigger saves a variable, and the trigger with this id already saves one of that name.
    #[error("trigger {0} already saves a variable of that name")]
    NameTaken(u32),
    /// The trigger reads a variable that no attached trigger saves.
    #[error("no attached trigger saves the variable that it reads")]
    NoVariable,
    /// The keys of a reader and of the trigger that saves what it reads don't match.
    #[error("its keys don't match those of the trigger that saves what it reads")]
    KeyMismatch,
    /// 64 triggers are attached, or the ids are used up.
    #[error("64 triggers are attached, or the ids are used up")]
    TooManyTriggers,
    /// There is no such command or event.
    #[error("there is no such command or event")]
    BadCommand,
    /// The trigger reads no variable, so it has no latencies.
    #[error("the trigger reads no variable, so it measures no latencies")]
    NotReading,
}

impl From<AllocError> for Refused {
    ghost from_gives = { λ _ refused. refused ≡ Memory };

    fn from(_error: AllocError) -> Refused {
        Refused::Memory
    }
}

impl Refused {
    ghost use Rattle.std.specs.Prelude.{◌≡◌};
    ghost use Rattle.ft_base.specs.Refused.{refused_number};

    /// Its number in the desk's texts.
    pub fn number(self) -> u8
        ensures { result ≡ refused_number self }
    {
        match self {
            Refused::Memory => 1,
            Refused::NoFile => 2,
            Refused::BadLine(_, _) => 3,
            Refused::LaneHeld(_) => 4,
            Refused::NoLane(_) => 5,
            Refused::NoEvent => 6,
            Refused::Full => 7,
            Refused::BadTrigger(_) => 8,
            Refused::BadFilter(_) => 9,
            Refused::NoTrigger => 10,
            Refused::InUse(_) => 11,
            Refused::NameTaken(_) => 12,
            Refused::NoVariable => 13,
            Refused::KeyMismatch => 14,
            Refused::TooManyTriggers => 15,
            Refused::BadCommand => 16,
            Refused::NotReading => 17,
        }
    }
}
