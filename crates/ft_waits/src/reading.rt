//! One line after the other.

ghost use Rattle.std.specs.Prelude.{◌≡◌, ◌==◌, ◌+◌, false, [], OnOk, IfOk, IfErr, Ok, Err};
ghost use Rattle.std.specs.List.{list_any};
ghost use Rattle.ft_event.specs.Line.{line_of};
ghost use Rattle.ft_event.specs.declared.fault.Line.TheVariants as lines;
ghost use Rattle.ft_fields.specs.Borrowed.{event_told};
ghost use Rattle.ft_waits.specs.Choice.{all_events};
ghost use Rattle.ft_waits.specs.inner.Streams.{choice_of, ReadsLines, TakesLine, TakesEvent, TakesQuietly, FailsLine};
ghost use Rattle.ft_losses.specs.Notes.{Silent, quiet_note};

use crate::fault::{BadLine, BadLines, LinesRead, WaitsFault};
use crate::missing::notice_mark;
use crate::state::State;
use ft_dispatch::Dispatch;
use ft_event::{LineFault, Mark, mark_of, read_cut_line};
use ft_fields::{Event, EventRef};
use ft_losses::Losses;
use ft_quick::cut_line;
use std::alloc::{AllocError, Global};

/// What is read of the lines of a text.
#[derive(Drop)]
pub(crate) struct Reading {
    pub(crate) bad_lines: BadLines,
    pub(crate) read: LinesRead,
    pub(crate) losses: Losses,
    pub(crate) state: State,
}

/// One more number.
#[inline(always)]
pub(crate) fn one_more(count: u64) -> Result<u64, WaitsFault>
    ensures ok { IfOk result (λ n. n ≡ count + 1) }
    ensures full { IfErr result (λ fault. (fault ≡ WaitsFault.TooLong) × (count ≡ 18446744073709551615)) }
{
    count.checked_add(1).ok_or(WaitsFault::TooLong)
}

/// Skips a line that can't be read, or refuses it.
fn skip(bad_lines: BadLines, bad_line: BadLine) -> Result<(), WaitsFault>
    ensures ok { OnOk result (bad_lines ≡ BadLines.Skip) }
    ensures err { IfErr result (λ fault. (bad_lines ≡ BadLines.Refuse) × (fault ≡ WaitsFault.BadLine bad_line)) }
{
    match bad_lines {
        BadLines::Skip => Ok(()),
        BadLines::Refuse => Err(WaitsFault::BadLine(bad_line)),
    }
}

impl Reading {
    /// No lines.
    pub(crate) fn new(alloc: Global, bad_lines: BadLines) -> Result<Reading, AllocError>
        ensures choice { IfOk result (λ reading. choice_of reading ≡ all_events bad_lines) }
        ensures none { IfOk result (λ reading. ReadsLines reading [] []) }
    {
        Ok(Reading {
            bad_lines,
            read: LinesRead {
                lines: 0,
                bad: 0,
                first: None,
            },
            losses: Losses::new(alloc)?,
            state: State::new(alloc)?,
        })
    }

    /// Takes the event of a line.
    #[inline(always)]
    fn take_event(
        &mut self,
        event: &EventRef<'_>,
        out: &mut Vec<Dispatch>,
    ) -> Result<(), WaitsFault>
        ensures ok { OnOk result (TakesEvent (event_told event.now) self.old out.old.items self.new out.new.items) }
        ensures err { IfErr result (λ fault. FailsLine (Ok (lines.Event (event_told event.now))) self.old fault) }
        ensures choice { OnOk result (choice_of self.new ≡ choice_of self.old) }
    {
        let number = one_more(self.read.lines)?;
        if event.stamp < self.state.latest {
            return Err(WaitsFault::Backwards(number));
        }
        self.read.lines = number;
        self.losses.pass(event)?;
        self.state.push(event, out)
    }

    /// Takes a line without an event, and the mark that it is, if it is one.
    fn take_skipped(&mut self, mark: Option<Mark>) -> Result<(), WaitsFault>
        ensures ok { OnOk result (TakesQuietly (Ok lines.Skip) (quiet_note mark) self.old self.new) }
        ensures err { IfErr result (λ fault. FailsLine (Ok lines.Skip) self.old fault) }
        ensures choice { OnOk result (choice_of self.new ≡ choice_of self.old) }
    {
        let number = one_more(self.read.lines)?;
        self.read.lines = number;
        self.losses.skip(number, mark);
        notice_mark(&mut self.state.running, mark);
        Ok(())
    }

    /// Takes a line that can't be read.
    fn take_bad(&mut self, fault: LineFault) -> Result<(), WaitsFault>
        ensures ok { OnOk result (TakesQuietly (Err fault) Silent self.old self.new) }
        ensures err { IfErr result (λ why. FailsLine (Err fault) self.old why) }
        ensures choice { OnOk result (choice_of self.new ≡ choice_of self.old) }
    {
        let line = one_more(self.read.lines)?;
        let bad_line = BadLine { line, fault };
        skip(self.bad_lines, bad_line)?;
        self.read.bad = one_more(self.read.bad)?;
        self.read.lines = line;
        self.read.first = Some(self.read.first.unwrap_or(bad_line));
        self.losses.skip(line, None);
        Ok(())
    }

    /// Takes a line of any form.
    #[inline(never)]
    fn take_other(&mut self, line: &[u8], out: &mut Vec<Dispatch>) -> Result<(), WaitsFault>
        requires { list_any (λ b. b == 10) line.now ≡ false }
        ensures ok { OnOk result (TakesLine line.now self.old out.old.items self.new out.new.items) }
        ensures err { IfErr result (λ fault. FailsLine (line_of line.now) self.old fault) }
        ensures choice { OnOk result (choice_of self.new ≡ choice_of self.old) }
    {
        let mut event = Event::blank();
        match read_cut_line(line, &mut event) {
            Ok(true) => self.take_event(&event.borrowed(), out),
            Ok(false) => self.take_skipped(mark_of(line)),
            Err(fault) => self.take_bad(fault),
        }
    }

    /// Takes a line, and adds the dispatches of the events before its microsecond.
    #[inline(always)]
    pub(crate) fn take_line(
        &mut self,
        line: &[u8],
        out: &mut Vec<Dispatch>,
    ) -> Result<(), WaitsFault>
        requires { list_any (λ b. b == 10) line.now ≡ false }
        ensures ok { OnOk result (TakesLine line.now self.old out.old.items self.new out.new.items) }
        ensures err { IfErr result (λ fault. FailsLine (line_of line.now) self.old fault) }
        ensures choice { OnOk result (choice_of self.new ≡ choice_of self.old) }
    {
        match cut_line(line) {
            Some(event) => self.take_event(&event, out),
            None => self.take_other(line, out),
        }
    }
}
