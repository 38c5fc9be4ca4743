//! Where events stand, and the time between two of them.

ghost use Rattle.std.specs.Prelude.{◌≡◌};
ghost use Rattle.ft_layout.specs.Places.{line_layout, place_layout, latency_layout};

use ft_base::Place;
use ft_fields::Pos;
use ft_replay::Pair;

/// A line of a CPU's lane.
#[repr(C)]
#[derive(Clone, Copy, Debug, PartialEq, Eq)]
pub struct LineLayout {
    /// The CPU.
    pub cpu: u32,
    /// The line number, from 1.
    pub line: u32,
}

/// The place of an event in the merged order.
#[repr(C)]
#[derive(Clone, Copy, Debug, PartialEq, Eq)]
pub struct PlaceLayout {
    /// The event's stamp, in microseconds.
    pub stamp: u64,
    /// The CPU of its lane.
    pub cpu: u32,
    /// Its line number there, from 1.
    pub line: u32,
}

/// What a reading trigger measured.
#[repr(C)]
#[derive(Clone, Copy, Debug, PartialEq, Eq)]
pub struct LatencyLayout {
    /// The place of the event whose stamp was saved.
    pub saved: PlaceLayout,
    /// The place of the event that read it.
    pub read: PlaceLayout,
    /// The microseconds from the saving to the reading; 0 if the reading has the lower stamp.
    pub micros: u64,
}

impl LineLayout {
    /// The line as C has it.
    pub fn of(place: Place) -> LineLayout
        ensures { result ≡ line_layout place }
    {
        LineLayout {
            cpu: u32::from(place.cpu),
            line: place.line,
        }
    }
}

impl PlaceLayout {
    /// The place as C has it.
    pub fn of(pos: &Pos) -> PlaceLayout
        ensures { result ≡ place_layout pos.now }
    {
        PlaceLayout {
            stamp: pos.stamp,
            cpu: u32::from(pos.cpu),
            line: pos.line,
        }
    }
}

impl LatencyLayout {
    /// The latency of a pair as C has it.
    pub fn of(pair: &Pair) -> LatencyLayout
        ensures { result ≡ latency_layout pair.now }
    {
        LatencyLayout {
            saved: PlaceLayout::of(&pair.saved),
            read: PlaceLayout::of(&pair.read),
            micros: pair.read.stamp.saturating_sub(pair.saved.stamp),
        }
    }
}
