//! A text and the text after it, which was read apart.

ghost use Rattle.std.specs.Prelude.{◌≡◌, ◌≢◌, ◌+◌, ◌<◌, ◌≤◌, true, false, ℕ, List, Some, None, Err, option_map, length, OnOk, OnErr, IfErr};
ghost use Rattle.ft_waits.specs.Joining.{CanJoin, CannotJoin, JoinsTexts};
ghost use Rattle.ft_waits.specs.inner.Lines.{bad_behind, lines_with, JoinsReadings};

use crate::fault::{BadLine, LinesRead, WaitsFault};
use crate::reading::Reading;
use crate::stream::Waits;
use ft_dispatch::Dispatch;
use std::alloc::AllocError;
use std::{error, fmt};

/// Why a part can't be joined.
#[derive(Clone, Copy, Debug, PartialEq, Eq)]
pub enum JoinFault {
    /// One of the two failed.
    Failed,
    /// The text before the part doesn't end with a line break.
    Unended,
    /// The two were read with different options.
    Differs,
    /// One of the two sums up its tasks and CPUs.
    Summed,
    /// Together they have more than 4,294,967,295 lines.
    TooLong,
    /// The part's first event doesn't come after the last stamp before it.
    Overlaps,
    /// A CPU lost events at the seam.
    Torn,
    /// Out of memory.
    Memory,
}

impl JoinFault {
    /// What is wrong, in words.
    fn text(self) -> &'static str {
        match self {
            JoinFault::Failed => "one of the parts was refused",
            JoinFault::Unended => "the part starts in the middle of a line",
            JoinFault::Differs => "the parts were read with different options",
            JoinFault::Summed => "parts with sums can't be joined",
            JoinFault::TooLong => "more than 4294967295 lines",
            JoinFault::Overlaps =>
                "the part starts in the microsecond of the last event, or before it",
            JoinFault::Torn => "a CPU lost events where the part starts",
            JoinFault::Memory => "out of memory",
        }
    }
}

impl fmt::Display for JoinFault {
    fn fmt<W: fmt::Write>(&self, f: &mut fmt::Formatter<W>) -> fmt::Result {
        f.write_str(self.text())
    }
}

impl error::Error for JoinFault {}

/// A line of a part that can't be read, behind so many lines.
fn bad_behind(lines: u64, bad: Option<BadLine>) -> Option<BadLine>
    ensures { result ≡ option_map (bad_behind lines) bad }
{
    match bad {
        Some(bad) => Some(BadLine {
            line: bad.line.saturating_add(lines),
            fault: bad.fault,
        }),
        None => None,
    }
}

/// The lines of both.
fn lines_with(before: LinesRead, part: LinesRead) -> LinesRead
    ensures { result ≡ lines_with before part }
{
    LinesRead {
        lines: before.lines.saturating_add(part.lines),
        bad: before.bad.saturating_add(part.bad),
        first: before.first.or(bad_behind(before.lines, part.first)),
    }
}

impl Reading {
    /// Joins what was read of a part. Fails only for memory.
    fn join(
        &mut self,
        part: Reading,
        out: &mut Vec<Dispatch>,
        ones: &mut [Dispatch],
    ) -> Result<(), AllocError>
        requires { length self.old.state.left_out.items ≡ length part.state.left_out.items }
        ensures { OnOk result (JoinsReadings self.old part out.old.items ones.old self.new out.new.items ones.new) }
    {
        let Reading {
            read,
            losses,
            state,
            ..
        } = part;
        self.losses.join(losses, self.read.lines)?;
        self.state.join(state, out, ones)?;
        self.read = lines_with(self.read, read);
        Ok(())
    }

    /// Whether the events of a part come after the last stamp so far.
    fn is_before(&self, part: &Reading) -> bool
        ensures yes { result ≡ true → (first : ℕ) → part.now.state.first ≡ Some first → self.now.state.latest < first }
        ensures no { result ≡ false → ((first : ℕ) → part.now.state.first ≡ Some first → self.now.state.latest < first) → ⊥ }
    {
        match part.state.first {
            Some(first) => self.state.latest < first,
            None => true,
        }
    }

    /// Whether the lines of a part have numbers behind those so far.
    fn has_room(&self, part: &Reading) -> bool
        ensures yes { result ≡ true → part.now.read.lines + self.now.read.lines ≤ 4294967295 }
        ensures no { result ≡ false → 4294967295 < part.now.read.lines + self.now.read.lines }
    {
        self.read.lines <= 4_294_967_295 && part.read.lines <= 4_294_967_295 - self.read.lines
    }

    /// Whether a part is read in the same way, as far as that can be seen.
    fn is_like(&self, part: &Reading) -> bool
        ensures yes { result ≡ true → (self.now.bad_lines ≡ part.now.bad_lines)
            × (length self.now.state.left_out.items ≡ length part.now.state.left_out.items) }
        ensures no { result ≡ false → self.now.bad_lines ≡ part.now.bad_lines
            → length self.now.state.left_out.items ≡ length part.now.state.left_out.items → ⊥ }
    {
        if self.bad_lines != part.bad_lines {
            return false;
        }
        self.state.left_out.len() == part.state.left_out.len()
    }
}

impl Waits {
    /// Whether a part can be joined, or why not: each reason for which `join` is refused, except
    /// memory.
    pub fn meets(&self, part: &Waits) -> Result<(), JoinFault>
        ensures ok { OnOk result (CanJoin self.now part.now) }
        ensures err { IfErr result (λ fault. CannotJoin fault self.now part.now) }
    {
        if self.failed.is_some() {
            return Err(JoinFault::Failed);
        }
        if part.failed.is_some() {
            return Err(JoinFault::Failed);
        }
        if !self.unended.is_empty() {
            return Err(JoinFault::Unended);
        }
        if !self.reading.is_like(&part.reading) {
            return Err(JoinFault::Differs);
        }
        if self.reading.state.sums.is_some() {
            return Err(JoinFault::Summed);
        }
        if part.reading.state.sums.is_some() {
            return Err(JoinFault::Summed);
        }
        if !self.reading.has_room(&part.reading) {
            return Err(JoinFault::TooLong);
        }
        if !self.reading.is_before(&part.reading) {
            return Err(JoinFault::Overlaps);
        }
        if self.reading.losses.is_open() {
            return Err(JoinFault::Torn);
        }
        Ok(())
    }

    /// Joins a part that can be joined (`meets`), as `join` does. Fails only if memory runs out:
    /// the stream has failed then.
    pub fn join_met(
        &mut self,
        part: Waits,
        out: &mut Vec<Dispatch>,
        ones: &mut [Dispatch],
    ) -> Result<(), AllocError>
        requires { CanJoin self.old part }
        ensures joins { OnOk result (JoinsTexts self.old part out.old.items ones.old self.new out.new.items ones.new) }
        ensures well { OnOk result (self.new.failed ≡ None) }
        ensures memory { OnErr result (self.new.failed ≡ Some WaitsFault.Memory) }
    {
        let Waits {
            reading,
            unended,
            ..
        } = part;
        match self.reading.join(reading, out, ones) {
            Ok(()) => {
                self.unended = unended;
                Ok(())
            }
            Err(refused) => {
                self.failed = Some(WaitsFault::Memory);
                Err(refused)
            }
        }
    }

    /// Joins a part, as if its text had followed: `self` has read a text that ends with a line break, and
    /// `part` the text after it, from its own start. `ones` are dispatches that the part told, the first
    /// one of each task at least. Adds the dispatches of the last microsecond before the seam, and moves
    /// and completes `ones`; of the part's other dispatches only the places move. Both texts are to be
    /// read with the same choice.
    ///
    /// Refused, with all as before: if one of the two failed, the text before the part ends within
    /// a line, the two don't skip the same lines or don't leave out the same number of kinds of
    /// events, one of the two sums up its tasks and CPUs, they have more than 4,294,967,295 lines
    /// together, the part's first event is not after the last stamp before it, or a CPU lost events
    /// at the seam. If memory runs out, the stream has failed.
    pub fn join(
        &mut self,
        part: Waits,
        out: &mut Vec<Dispatch>,
        ones: &mut [Dispatch],
    ) -> Result<(), JoinFault>
        ensures meets { OnOk result (CanJoin self.old part) }
        ensures joins { OnOk result (JoinsTexts self.old part out.old.items ones.old self.new out.new.items ones.new) }
        ensures refused { IfErr result (λ fault. fault ≢ JoinFault.Memory → CannotJoin fault self.old part
            × (self.new ≡ self.old) × (out.new.items ≡ out.old.items) × (ones.new ≡ ones.old)) }
        ensures memory { result ≡ Err JoinFault.Memory → self.new.failed ≡ Some WaitsFault.Memory }
    {
        self.meets(&part)?;
        match self.join_met(part, out, ones) {
            Ok(()) => Ok(()),
            Err(_) => Err(JoinFault::Memory),
        }
    }
}
