//! A text that comes in pieces, and the dispatches in it.

ghost use Rattle.std.specs.Prelude.{◌≡◌, ◌==◌, ◌<◌, ◌-◌, ◌++◌, ◌∷◌, [], List, ℕ, false, length, take, OnOk, OnErr, IfOk, IfErr, IfSome, IfNone, Some, None, ◌≢◌};
ghost use Rattle.std.specs.List.{list_any};
ghost use Rattle.ft_event.specs.Line.{line_of};
ghost use Rattle.ft_fields.specs.Traced.{Traced};
ghost use Rattle.ft_dispatch.specs.declared.showing.Showing.{Showing};
ghost use Rattle.ft_losses.specs.Notes.{Note};
ghost use Rattle.ft_losses.specs.Telling.{Keeps};
ghost use Rattle.ft_windows.specs.Telling.{Keeps as KeepsWindows};
ghost use Rattle.ft_waits.specs.Lost.{AreAllLosses};
ghost use Rattle.ft_waits.specs.Choice.{Choice, all_events, and_sums, and_without};
ghost use Rattle.ft_waits.specs.Reading.{history, FailsAt, Fails};
ghost use Rattle.ft_waits.specs.Streams.{HasRead, AreDispatches};
ghost use Rattle.ft_waits.specs.inner.Streams.{choice_of, Reads, EndsLines, ReadsLines, ReadsOn, TakesLine, FailsLine, FailsIn, Cuts, room};

use crate::fault::{BadLines, TextRead, WaitsFault, WithoutFault};
use crate::left_out::{Without, add};
use crate::reading::Reading;
use crate::so_far::last_stamp;
use crate::stream::Waits;
use crate::summing::sums_of;
use ft_dispatch::Dispatch;
use ft_losses::{Losses, LossesRead};
use ft_summary::Summary;
use ft_windows::Windows;
use memchr::memchr;
use std::alloc::{AllocError, Global};

/// How many bytes are kept of a line that has not ended: one more than a line may have.
const ROOM: usize = 4097;

/// Splits off the first line of a text, if byte 10 ends it.
#[inline(always)]
fn split_first_line(text: &[u8]) -> Option<(&[u8], &[u8])>
    ensures cut { IfSome result (λ cut. text.now ≡ cut.0.now ++ 10 ∷ cut.1.now) }
    ensures line { IfSome result (λ cut. list_any (λ b. b == 10) cut.0.now ≡ false) }
    ensures none { IfNone result (list_any (λ b. b == 10) text.now ≡ false) }
    ensures shorter { IfSome result (λ cut. length cut.1.now < length text.now) }
{
    match memchr(b'\n', text) {
        Some(end) => Some((&text[..end], &text[end + 1..])),
        None => None,
    }
}

/// Adds bytes to a line that has not ended, of which no more are kept than there is room for.
fn keep(unended: &mut Vec<u8>, bytes: &[u8]) -> Result<(), AllocError>
    ensures ok { OnOk result (unended.new.items ≡ unended.old.items ++ take (room - length unended.old.items) bytes.now) }
    ensures err { OnErr result (unended.new.items ≡ unended.old.items) }
{
    let left = ROOM.saturating_sub(unended.len());
    unended.extend_from_slice(&bytes[..left.min(bytes.len())])
}

/// Takes the lines of a text that a byte 10 ends, and answers what follows them.
fn take_lines<'t>(
    reading: &mut Reading,
    text: &'t [u8],
    out: &mut Vec<Dispatch>,
) -> Result<&'t [u8], WaitsFault>
    ensures reads { IfOk result (λ rest. ReadsOn reading.old out.old.items text.now reading.new out.new.items rest.now) }
    ensures unbroken { IfOk result (λ rest. list_any (λ b. b == 10) rest.now ≡ false) }
    ensures fails { IfErr result (λ fault. FailsIn reading.old out.old.items text.now fault) }
    ensures choice { OnOk result (choice_of reading.new ≡ choice_of reading.old) }
{
    let mut rest = text;
    while let Some((line, behind)) = split_first_line(rest) {
        reading.take_line(line, out)?;
        rest = behind;
    }
    Ok(rest)
}

/// Takes a text before which no line has begun, and keeps the line that has not ended at its end.
fn go_on(
    reading: &mut Reading,
    unended: &mut Vec<u8>,
    part: &[u8],
    out: &mut Vec<Dispatch>,
) -> Result<(), WaitsFault>
    requires { unended.old.items ≡ [] }
    ensures unbroken { list_any (λ b. b == 10) unended.new.items ≡ false }
    ensures reads { OnOk result ((text : List ℕ) (before : List (List ℕ)) (told : List Dispatch)
        → Cuts text before part.now → ReadsLines reading.old before (told ++ out.old.items)
        → Reads (choice_of reading.old) reading.new unended.new.items text (told ++ out.new.items)) }
    ensures fails { IfErr result (λ fault. FailsIn reading.old out.old.items part.now fault) }
{
    let rest = take_lines(reading, part, out)?;
    keep(unended, rest)?;
    Ok(())
}

/// Takes the line that has not ended, as it ends here: nothing is kept of it then.
fn take_unended(
    reading: &mut Reading,
    unended: &mut Vec<u8>,
    out: &mut Vec<Dispatch>,
) -> Result<(), WaitsFault>
    requires { list_any (λ b. b == 10) unended.old.items ≡ false }
    ensures ok { OnOk result (TakesLine unended.old.items reading.old out.old.items reading.new out.new.items) }
    ensures err { IfErr result (λ fault. FailsLine (line_of unended.old.items) reading.old fault) }
    ensures choice { OnOk result (choice_of reading.new ≡ choice_of reading.old) }
    ensures none { OnOk result (unended.new.items ≡ []) }
    ensures unbroken { list_any (λ b. b == 10) unended.new.items ≡ false }
{
    reading.take_line(unended, out)?;
    unended.clear();
    Ok(())
}

/// Takes a piece of the text after a line that has not ended.
fn take_piece(
    reading: &mut Reading,
    unended: &mut Vec<u8>,
    piece: &[u8],
    out: &mut Vec<Dispatch>,
) -> Result<(), WaitsFault>
    requires { list_any (λ b. b == 10) unended.old.items ≡ false }
    ensures unbroken { list_any (λ b. b == 10) unended.new.items ≡ false }
    ensures reads { OnOk result ((choice : Choice) (text : List ℕ) (told : List Dispatch)
        → Reads choice reading.old unended.old.items text (told ++ out.old.items)
        → Reads choice reading.new unended.new.items (text ++ piece.now) (told ++ out.new.items)) }
    ensures fails { IfErr result (λ fault. (choice : Choice) (text : List ℕ) (told : List Dispatch)
        → Reads choice reading.old unended.old.items text (told ++ out.old.items)
        → Fails choice.bad_lines (text ++ piece.now) fault) }
{
    match split_first_line(piece) {
        Some((front, behind)) => {
            keep(unended, front)?;
            take_unended(reading, unended, out)?;
            go_on(reading, unended, behind, out)
        }
        None => {
            keep(unended, piece)?;
            Ok(())
        }
    }
}

/// Takes the line that has not ended, if there is one, as the last.
fn take_last(
    reading: &mut Reading,
    unended: &[u8],
    out: &mut Vec<Dispatch>,
) -> Result<(), WaitsFault>
    requires { list_any (λ b. b == 10) unended.now ≡ false }
    ensures reads { OnOk result ((choice : Choice) (text : List ℕ) (told : List Dispatch)
        → Reads choice reading.old unended.now text (told ++ out.old.items)
        → EndsLines choice reading.new text (told ++ out.new.items)) }
    ensures fails { IfErr result (λ fault. (choice : Choice) (text : List ℕ) (told : List Dispatch)
        → Reads choice reading.old unended.now text (told ++ out.old.items)
        → FailsAt choice.bad_lines (history text) fault) }
{
    if unended.is_empty() {
        return Ok(());
    }
    reading.take_line(unended, out)
}

/// What was lost of a text: as its lines report it, and as no line reports it. Fails only for memory.
fn all_losses(alloc: Global, losses: Losses, windows: &Windows) -> Result<LossesRead, AllocError>
    ensures { IfOk result (λ read. (notes : List Note) (events : List Traced) (shown : List Showing)
        → Keeps losses notes → KeepsWindows windows.now events shown → AreAllLosses notes events shown read) }
{
    let told = losses.told(alloc)?;
    let mut read = losses.finish(alloc)?;
    windows.add_to(alloc, &told, &mut read.holes)?;
    Ok(read)
}

/// Ends the text: what has not ended is its last line, and its last microsecond is over.
fn end(
    alloc: Global,
    reading: Reading,
    unended: &[u8],
    out: &mut Vec<Dispatch>,
) -> Result<TextRead, WaitsFault>
    requires { list_any (λ b. b == 10) unended.now ≡ false }
    ensures reads { IfOk result (λ read. (choice : Choice) (text : List ℕ) (told : List Dispatch)
        → Reads choice reading unended.now text (told ++ out.old.items)
        → AreDispatches choice text (told ++ out.new.items) read) }
    ensures fails { IfErr result (λ fault. (choice : Choice) (text : List ℕ) (told : List Dispatch)
        → Reads choice reading unended.now text (told ++ out.old.items)
        → FailsAt choice.bad_lines (history text) fault) }
{
    let mut reading = reading;
    take_last(&mut reading, unended, out)?;
    reading.state.finish(out)?;
    let Reading {
        read,
        losses,
        state,
        ..
    } = reading;
    let losses = all_losses(alloc, losses, &state.acts.windows)?;
    Ok(TextRead {
        lines: read,
        first: state.first,
        last: last_stamp(state.first, state.latest),
        events: state.lines,
        missing: state.missing,
        left_out: state.left_out,
        sums: sums_of(alloc, &state.sums)?,
        losses,
    })
}

impl Waits {
    /// A stream of which nothing is read, and what it does with lines that can't be read.
    pub fn new(alloc: Global, bad_lines: BadLines) -> Result<Waits, AllocError>
        ensures reads { IfOk result (λ waits. HasRead (all_events bad_lines) waits [] []) }
        ensures well { IfOk result (λ waits. waits.failed ≡ None) }
    {
        Ok(Waits {
            reading: Reading::new(alloc, bad_lines)?,
            unended: Vec::new(alloc),
            failed: None,
        })
    }

    /// Leaves events out of the text to come: they say nothing of who runs, and all else is as it
    /// would be with them. After several calls, each `Without` counts the events that it leaves
    /// out. Refused for memory, and once bytes of the text were read: the stream is as before then.
    pub fn leave_out(&mut self, without: Without) -> Result<(), WithoutFault>
        ensures adds { OnOk result ((choice : Choice) (text : List ℕ) (told : List Dispatch)
            → HasRead choice self.old text told
            → (text ≡ []) × HasRead (and_without choice without) self.new text told) }
        ensures failed { self.new.failed ≡ self.old.failed }
        ensures late { result ≡ Err WithoutFault.Late → self.old.failed ≡ None
            → (choice : Choice) (text : List ℕ) (told : List Dispatch)
            → HasRead choice self.old text told → text ≢ [] }
        ensures same { result ≡ Err WithoutFault.Late → self.new ≡ self.old }
        ensures stays { OnErr result ((choice : Choice) (text : List ℕ) (told : List Dispatch)
            → HasRead choice self.old text told → HasRead choice self.new text told) }
    {
        if self.has_begun() {
            return Err(WithoutFault::Late);
        }
        match add(&mut self.reading.state.left_out, without) {
            Ok(()) => Ok(()),
            Err(_) => Err(WithoutFault::Memory),
        }
    }

    /// Sums up the tasks and CPUs of the text to come as well, by its events without those that are left
    /// out. Refused once bytes of the text were read: the stream is as before then.
    pub fn sum_up(&mut self, alloc: Global) -> Result<(), WithoutFault>
        ensures adds { OnOk result ((choice : Choice) (text : List ℕ) (told : List Dispatch)
            → HasRead choice self.old text told
            → (text ≡ []) × HasRead (and_sums choice) self.new text told) }
        ensures failed { self.new.failed ≡ self.old.failed }
        ensures late { IfErr result (λ fault. (fault ≡ WithoutFault.Late) × (self.new ≡ self.old)) }
        ensures begun { result ≡ Err WithoutFault.Late → self.old.failed ≡ None
            → (choice : Choice) (text : List ℕ) (told : List Dispatch)
            → HasRead choice self.old text told → text ≢ [] }
    {
        if self.has_begun() {
            return Err(WithoutFault::Late);
        }
        self.reading.state.sums = Some(Summary::new(alloc));
        Ok(())
    }

    /// Takes the next piece of the text, and adds the dispatches of lines that ended so far, except for
    /// those of the last microsecond.
    ///
    /// Fails for memory, at more than 4,294,967,295 lines, and at the first line that is refused: it
    /// can't be read, unless such lines are skipped, or its stamp is before the last event's. Once it
    /// failed, the answer stays the same.
    pub fn feed(&mut self, piece: &[u8], out: &mut Vec<Dispatch>) -> Result<(), WaitsFault>
        ensures reads { OnOk result ((choice : Choice) (text : List ℕ) (told : List Dispatch)
            → HasRead choice self.old text (told ++ out.old.items)
            → HasRead choice self.new (text ++ piece.now) (told ++ out.new.items)) }
        ensures fails { IfErr result (λ fault. (choice : Choice) (text : List ℕ) (told : List Dispatch)
            → HasRead choice self.old text (told ++ out.old.items)
            → Fails choice.bad_lines (text ++ piece.now) fault) }
        ensures well { OnOk result (self.new.failed ≡ None) }
        ensures stays { IfErr result (λ fault. self.new.failed ≡ Some fault) }
        ensures again { IfSome self.old.failed (λ fault. (result ≡ Err fault)
            × (self.new ≡ self.old) × (out.new.items ≡ out.old.items)) }
    {
        if let Some(fault) = self.failed {
            return Err(fault);
        }
        match take_piece(&mut self.reading, &mut self.unended, piece, out) {
            Ok(()) => Ok(()),
            Err(fault) => {
                self.failed = Some(fault);
                Err(fault)
            }
        }
    }

    /// Takes the line that has not ended, if there is one, as the last, and adds the dispatches that are
    /// left. Answers how many lines there were and which can't be read, which switches are missing, and
    /// where events were lost, as lines report it and as events show it.
    ///
    /// Fails as `feed` does.
    pub fn finish(self, alloc: Global, out: &mut Vec<Dispatch>) -> Result<TextRead, WaitsFault>
        ensures reads { IfOk result (λ read. (choice : Choice) (text : List ℕ) (told : List Dispatch)
            → HasRead choice self text (told ++ out.old.items)
            → AreDispatches choice text (told ++ out.new.items) read) }
        ensures fails { IfErr result (λ fault. (choice : Choice) (text : List ℕ) (told : List Dispatch)
            → HasRead choice self text (told ++ out.old.items)
            → FailsAt choice.bad_lines (history text) fault) }
    {
        let Waits {
            reading,
            unended,
            failed,
        } = self;
        match failed {
            Some(fault) => Err(fault),
            None => end(alloc, reading, &unended, out),
        }
    }
}
