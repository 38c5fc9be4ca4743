//! Why a call of a stream is refused.

ghost use Rattle.std.specs.Prelude.{◌≡◌, Some};
ghost use Rattle.ft_stream.specs.Faults.{text_code, fault_code, join_number, with_text_detail, refusal_layout};

use ft_base::Refused;
use ft_filter::FilterFault;
use ft_layout::RefusalLayout;
use ft_waits::{JoinFault, WaitsFault};

/// Why a call of a stream is refused.
#[derive(Clone, Copy, Debug, PartialEq, Eq)]
pub enum StreamFault {
    /// The text is refused, or memory ran out.
    Text(WaitsFault),
    /// No stream runs, or none of this kind, none has finished, or the one that runs has taken a piece.
    NoStream,
    /// No event has the name.
    NoEvent,
    /// The text of a filter can't be read.
    Filter(FilterFault),
    /// The part can't be joined.
    Part(JoinFault),
}

/// The code of a text's refusal.
fn text_code(fault: WaitsFault) -> u32
    ensures { result ≡ text_code fault }
{
    match fault {
        WaitsFault::Memory => 1,
        WaitsFault::BadLine(_) => 3,
        WaitsFault::TooLong => 7,
        WaitsFault::Backwards(_) => 18,
    }
}

impl StreamFault {
    /// Its code.
    pub fn code(self) -> u32
        ensures { result ≡ fault_code self }
    {
        match self {
            StreamFault::Text(fault) => text_code(fault),
            StreamFault::NoStream => 19,
            StreamFault::NoEvent => 16,
            StreamFault::Filter(_) => 9,
            StreamFault::Part(_) => 20,
        }
    }
}

/// The number of why a part is not joined.
fn join_number(fault: JoinFault) -> u32
    ensures { result ≡ join_number fault }
{
    match fault {
        JoinFault::Failed => 1,
        JoinFault::Unended => 2,
        JoinFault::Differs => 3,
        JoinFault::Summed => 4,
        JoinFault::TooLong => 5,
        JoinFault::Overlaps => 6,
        JoinFault::Torn => 7,
        JoinFault::Memory => 8,
    }
}

/// With the line of a text's refusal, and its fault, if it has them.
fn with_text_detail(layout: RefusalLayout, fault: WaitsFault) -> RefusalLayout
    ensures { result ≡ with_text_detail layout fault }
{
    match fault {
        WaitsFault::BadLine(bad) => RefusalLayout {
            line: bad.line,
            fault: u32::from(bad.fault.number()),
            ..layout
        },
        WaitsFault::Backwards(line) => RefusalLayout { line, ..layout },
        // The code of the others says all.
        WaitsFault::Memory | WaitsFault::TooLong => layout,
    }
}

/// A refusal as C has it.
fn refusal_layout(fault: StreamFault) -> RefusalLayout
    ensures { result ≡ refusal_layout (Some fault) }
{
    let numbered = RefusalLayout {
        number: fault.code(),
        ..RefusalLayout::of(None)
    };
    match fault {
        StreamFault::Text(fault) => with_text_detail(numbered, fault),
        StreamFault::Filter(fault) => RefusalLayout::of(Some(Refused::BadFilter(fault))),
        StreamFault::Part(fault) => RefusalLayout {
            fault: join_number(fault),
            ..numbered
        },
        StreamFault::NoStream | StreamFault::NoEvent => numbered,
    }
}

/// A refusal as C has it, or that nothing was refused.
pub fn refusal_of(refused: Option<StreamFault>) -> RefusalLayout
    ensures { result ≡ refusal_layout refused }
{
    match refused {
        Some(fault) => refusal_layout(fault),
        None => RefusalLayout::of(None),
    }
}
