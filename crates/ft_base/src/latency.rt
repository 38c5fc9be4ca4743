//! Latencies: the time between a saving and its reading.

use crate::refused::Place;

/// What a reading trigger measured: the line whose stamp was saved, the line that read it, and the
/// time between them.
#[derive(Clone, Copy, Debug, PartialEq, Eq)]
pub struct Latency {
    /// The line of the event that saved.
    pub saved: Place,
    /// The line of the event that read.
    pub read: Place,
    /// The microseconds from the saving to the reading.
    pub micros: u64,
}
