//! What the lines of a text are, and what they report lost. The desk holds nothing of the text.

ghost use Rattle.std.specs.Prelude.{◌≡◌, Ok};
ghost use Rattle.std.specs.Option.{MatchOption};
ghost use Rattle.ft_lines.specs.Layouts.{text_line_layout};
ghost use Rattle.ft_lines.specs.Lines.{text_lines};
ghost use Rattle.ft_stream.specs.Layouts.{hole_layout};
ghost use Rattle.ft_session.specs.Calls.{ReadsLines, ReadsLosses};
ghost use Rattle.ft_c.specs.Calls.{CallsWriting};
ghost use Rattle.ft_c.specs.Copies.{IsCopied};

use crate::codes::CLOSED;
use crate::handle::Handle;
use ft_lines::{LossesLayout, TextLineLayout, copy_lines};
use ft_stream::{HoleLayout, copy_holes};
use std::alloc::Global;

/// Asks for the lines of a text: how many they are.
#[unsafe(no_mangle)]
pub extern "C" fn histdesk_lines(
    alloc: Global,
    desk: &mut Handle,
    text: &[u8],
    count: &mut u64,
) -> u32
    ensures { CallsWriting desk.old.held desk.new.held result count.old count.new (λ before after.
        ReadsLines (Ok (text_lines text.now)) before count.old result count.new after) }
{
    match desk.take(alloc) {
        Some(mut session) => {
            let code = session.lines(text, count);
            desk.put(alloc, session);
            code
        }
        None => CLOSED,
    }
}

/// Copies lines: how many.
#[unsafe(no_mangle)]
pub extern "C" fn histdesk_lines_copy(
    alloc: Global,
    desk: &mut Handle,
    from: u64,
    to: &mut [TextLineLayout],
) -> usize
    ensures part { MatchOption desk.old.held
        ((result ≡ 0) × (to.new ≡ to.old))
        (λ held. IsCopied text_line_layout held.lines.items from to.old result to.new) }
    ensures unchanged { desk.new.held ≡ desk.old.held }
{
    match desk.take(alloc) {
        Some(session) => {
            let copied = copy_lines(session.lines.as_slice(), from, to);
            desk.put(alloc, session);
            copied
        }
        None => 0,
    }
}

/// Asks for what the lines of a text report lost: how many holes there are, and what the kernel's header counts.
#[unsafe(no_mangle)]
pub extern "C" fn histdesk_losses(
    alloc: Global,
    desk: &mut Handle,
    text: &[u8],
    read: &mut LossesLayout,
) -> u32
    ensures { CallsWriting desk.old.held desk.new.held result read.old read.new (λ before after.
        ReadsLosses text.now before read.old result read.new after) }
{
    match desk.take(alloc) {
        Some(mut session) => {
            let code = session.losses(text, read);
            desk.put(alloc, session);
            code
        }
        None => CLOSED,
    }
}

/// Copies the holes that the lines of a text report: how many.
#[unsafe(no_mangle)]
pub extern "C" fn histdesk_losses_copy(
    alloc: Global,
    desk: &mut Handle,
    from: u64,
    to: &mut [HoleLayout],
) -> usize
    ensures part { MatchOption desk.old.held
        ((result ≡ 0) × (to.new ≡ to.old))
        (λ held. IsCopied hole_layout held.losses.holes.items from to.old result to.new) }
    ensures unchanged { desk.new.held ≡ desk.old.held }
{
    match desk.take(alloc) {
        Some(session) => {
            let copied = copy_holes(session.losses.holes.as_slice(), from, to);
            desk.put(alloc, session);
            copied
        }
        None => 0,
    }
}
