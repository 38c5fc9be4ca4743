//! The dispatches of a text that is all there.

ghost use Rattle.std.specs.Prelude.{◌≡◌, IfOk, IfErr};
ghost use Rattle.std.specs.List.{flat_map};
ghost use Rattle.ft_waits.specs.Choice.{all_events};
ghost use Rattle.ft_waits.specs.Reading.{history, FailsAt};
ghost use Rattle.ft_waits.specs.Streams.{AreDispatches};

use crate::fault::{BadLines, TextRead, WaitsFault};
use crate::stream::Waits;
use ft_dispatch::Dispatch;
use std::alloc::Global;

/// The dispatches of a text, and what was read of it.
#[derive(Drop)]
pub struct WaitsRead {
    /// The switches to tasks, in the order of stamp, CPU and line.
    pub dispatches: Vec<Dispatch>,
    /// Its lines, the switches that are missing in it, and where events were lost.
    pub text: TextRead,
}

/// The dispatches of a text that stands in pieces: those of the whole text, however it is cut.
///
/// Fails as `Waits::feed` does.
pub fn waits_in(
    alloc: Global,
    bad_lines: BadLines,
    pieces: &[Vec<u8>],
) -> Result<WaitsRead, WaitsFault>
    ensures reads { IfOk result (λ read. AreDispatches (all_events bad_lines)
        (flat_map (λ piece. piece.items) pieces.now) read.dispatches.items read.text) }
    ensures fails { IfErr result (λ fault. FailsAt bad_lines
        (history (flat_map (λ piece. piece.items) pieces.now)) fault) }
{
    let mut dispatches = Vec::new(alloc);
    let Ok(mut waits) = Waits::new(alloc, bad_lines) else {
        return Err(WaitsFault::Memory);
    };
    for piece in pieces {
        waits.feed(piece, &mut dispatches)?;
    }
    let text = waits.finish(alloc, &mut dispatches)?;
    Ok(WaitsRead { dispatches, text })
}
