//! Holes: stretches of time in which a CPU's events were lost.

/// A stretch of time in which a CPU's events were lost. Stamps are in microseconds.
#[derive(Clone, Copy, Debug, PartialEq, Eq)]
pub struct Hole {
    /// The CPU; `None` if it isn't known.
    pub cpu: Option<u16>,
    /// The number of the first line that reports the loss, from 1; 0 if no line does.
    pub line: u64,
    /// The stamp of the CPU's last event before the loss; `None` if it had none.
    pub after: Option<u64>,
    /// The stamp of the CPU's first event after the loss; `None` if there is none.
    pub before: Option<u64>,
    /// How many events were lost, as far as lines report it; `None` if none does.
    pub count: Option<u64>,
}

/// How many events the kernel's buffers held of those that were written to them.
#[derive(Clone, Copy, Debug, PartialEq, Eq)]
pub struct Buffers {
    /// How many events they held.
    pub held: u64,
    /// How many events were written to them.
    pub written: u64,
}

/// What the line of the kernel's header counts.
#[derive(Clone, Copy, Debug, PartialEq, Eq)]
pub(crate) struct Header {
    /// The line's number.
    pub(crate) line: u64,
    /// The counts.
    pub(crate) buffers: Buffers,
}

/// What lines report of how the buffers begin.
#[derive(Clone, Copy, Debug, PartialEq, Eq)]
pub(crate) struct Beginning {
    /// The first line that counts what the buffers held.
    pub(crate) header: Option<Header>,
    /// Whether a line says of any CPU that its buffer begins.
    pub(crate) is_marked: bool,
}

/// What a CPU lost since its last event.
#[derive(Clone, Copy, Debug, PartialEq, Eq)]
pub(crate) struct Loss {
    /// The number of the first line that reports it.
    pub(crate) line: u64,
    /// How many events were lost, as far as lines report it.
    pub(crate) count: Option<u64>,
}
