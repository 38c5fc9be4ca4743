//! What the lines of a text report lost.

ghost use Rattle.std.specs.Prelude.{◌≡◌, ◌==◌, false, OnOk, IfOk};
ghost use Rattle.std.specs.List.{list_any};
ghost use Rattle.ft_lines.specs.Losses.{AreLossesOf};
ghost use Rattle.ft_lines.specs.inner.Noted.{TakesLine};

use ft_event::{mark_of, read_cut_line};
use ft_fields::Event;
use ft_losses::{Losses, LossesRead};
use ft_quick::cut_line;
use ft_text::next_line;
use std::alloc::{AllocError, Global};

/// Takes the line of this number, which may be of any form.
#[inline(never)]
fn take_any(losses: &mut Losses, number: u64, line: &[u8]) -> Result<(), AllocError>
    requires { list_any (λ b. b == 10) line.now ≡ false }
    ensures { OnOk result (TakesLine line.now number losses.old losses.new) }
{
    let mut event = Event::blank();
    match read_cut_line(line, &mut event) {
        Ok(true) => losses.pass(&event.borrowed())?,
        Ok(false) => losses.skip(number, mark_of(line)),
        Err(_) => losses.skip(number, None),
    }
    Ok(())
}

/// Takes the line of this number.
#[inline(always)]
fn take_line(losses: &mut Losses, number: u64, line: &[u8]) -> Result<(), AllocError>
    requires { list_any (λ b. b == 10) line.now ≡ false }
    ensures { OnOk result (TakesLine line.now number losses.old losses.new) }
{
    match cut_line(line) {
        Some(event) => losses.pass(&event),
        None => take_any(losses, number, line),
    }
}

/// Where events were lost, as the lines of a text report it, in whatever order of time. Fails only for memory.
pub fn losses_in(alloc: Global, text: &[u8]) -> Result<LossesRead, AllocError>
    ensures { IfOk result (λ read. AreLossesOf text.now read) }
{
    let mut losses = Losses::new(alloc)?;
    let mut rest = text;
    let mut number = 1;
    while let Some((line, behind)) = next_line(rest) {
        take_line(&mut losses, number, line)?;
        rest = behind;
        number += 1;
    }
    losses.finish(alloc)
}
