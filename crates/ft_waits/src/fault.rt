//! What was read of a text, and why it is refused.

use crate::left_out::LeftOut;
use crate::missing::Missing;
use ft_event::LineFault;
use ft_losses::LossesRead;
use ft_summary::Sums;
use std::alloc::AllocError;
use thiserror::Error;

/// What to do with lines that can't be read.
#[derive(Clone, Copy, Debug, PartialEq, Eq)]
pub enum BadLines {
    /// Stop at the first one.
    Refuse,
    /// Count and skip them.
    Skip,
}

/// A line that can't be read.
#[derive(Clone, Copy, Debug, PartialEq, Eq)]
pub struct BadLine {
    /// Its number in the text, from 1.
    pub line: u64,
    /// The first thing that is wrong with it.
    pub fault: LineFault,
}

/// How many lines a text has, and which of them can't be read.
#[derive(Clone, Copy, Debug, PartialEq, Eq)]
pub struct LinesRead {
    /// How many lines there are.
    pub lines: u64,
    /// How many of them can't be read.
    pub bad: u64,
    /// The first one of these.
    pub first: Option<BadLine>,
}

/// What was read of a text.
#[derive(Drop)]
pub struct TextRead {
    /// Its lines.
    pub lines: LinesRead,
    /// The stamp of its first event, in microseconds; `None` if it has none.
    pub first: Option<u64>,
    /// The stamp of its last event.
    pub last: Option<u64>,
    /// How many events each CPU has, by the CPU's number.
    pub events: Vec<u32>,
    /// The switches that are missing in it.
    pub missing: Missing,
    /// How many events were left out.
    pub left_out: Vec<LeftOut>,
    /// The sums of the acts of its events, if they were requested.
    pub sums: Option<Sums>,
    /// Where events were lost: as lines report it, and as events show it though no line does.
    pub losses: LossesRead,
}

/// Why reading a text was stopped.
#[derive(Clone, Copy, Debug, PartialEq, Eq, Error)]
pub enum WaitsFault {
    /// Out of memory.
    #[error("out of memory")]
    Memory,
    /// The first line that can't be read.
    #[error("line {} can't be read", .0.line)]
    BadLine(BadLine),
    /// The number of the first line whose stamp is before that of the event above.
    #[error("line {0}: the timestamp is before that of the event above")]
    Backwards(u64),
    /// The text has more than 4,294,967,295 lines.
    #[error("more than 4294967295 lines")]
    TooLong,
}

/// Why a stream can't leave events out.
#[derive(Clone, Copy, Debug, PartialEq, Eq, Error)]
pub enum WithoutFault {
    /// Out of memory.
    #[error("out of memory")]
    Memory,
    /// Part of the text has already been read, or the stream failed.
    #[error("part of the text has already been read")]
    Late,
}

impl From<AllocError> for WaitsFault {
    ghost use Rattle.std.specs.Prelude.{◌≡◌};
    ghost use Rattle.ft_waits.specs.declared.fault.WaitsFault.TheVariants.{Memory};

    ghost from_gives = { λ _ fault. fault ≡ Memory };

    fn from(_error: AllocError) -> WaitsFault {
        WaitsFault::Memory
    }
}
