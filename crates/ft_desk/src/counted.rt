//! A reader and a writer whose calls are counted, by counts that only contracts see. What is
//! counted stands in private fields: whoever has such a value cannot call its reader or its writer
//! without a count, and cannot change a count without a call.

ghost use Rattle.std.specs.Prelude.{◌≡◌, ◌+◌, ◌<◌, ◌≤◌, length, take, vec_len, IfOk, OnErr};
ghost use Rattle.std.specs.Io.KnownBytes.{Keeps, Appends};
ghost use Rattle.std.specs.Io.BufRead.{DropsConsumable};
ghost use Rattle.ft_script.specs.Script.{line_limit};
ghost use Rattle.ft_desk.specs.Counts.{NoCalls, CountsCall};
ghost use Rattle.ft_desk.specs.inner.Asking.{AskGives};

use crate::pieces::{Part, add_shown};
use ft_maps::Count;
use std::alloc::AllocError;
use std::io::{self, BufRead, ErrorKind, Write};
use std::marker::Model;

/// How often calls of one kind were made, and how many of them failed.
///
/// Contracts see the two numbers, `made` and `failed`. At run time it is nothing.
#[derive(Drop)]
pub struct Calls {
    made: Count,
    failed: Count,
}

impl Model for Calls {
    ghost use Rattle.ft_desk.specs.Counts.{Counts};

    ghost Value = { Counts };

    ghost view = { λ c. record { made = c.made; failed = c.failed } };
}

impl Calls {
    /// No call yet.
    fn none() -> Calls
        ensures { NoCalls result }
    {
        Calls {
            made: Count::zero(),
            failed: Count::zero(),
        }
    }

    /// Counts a call, before it is known how it goes.
    fn tick(&mut self)
        ensures made { self.new.made ≡ self.old.made + 1 }
        ensures failed { self.new.failed ≡ self.old.failed }
    {
        self.made.raise();
    }

    /// Counts that a call failed.
    fn tick_failed(&mut self)
        ensures made { self.new.made ≡ self.old.made }
        ensures failed { self.new.failed ≡ self.old.failed + 1 }
    {
        self.failed.raise();
    }
}

/// The reader of a script, and how often it was asked for bytes.
pub struct CountedReader<'a, R> {
    reader: &'a mut R,
    asked: Calls,
}

impl<'a, R: BufRead> CountedReader<'a, R> {
    /// A reader that was not asked yet.
    pub fn new(reader: &'a mut R) -> CountedReader<'a, R>
        ensures same { result.reader.ghost_name ≡ reader.entry.ghost_name }
        ensures reader { result.reader.now ≡ reader.old }
        ensures asked { NoCalls result.asked }
    {
        CountedReader {
            reader,
            asked: Calls::none(),
        }
    }

    /// Asks the reader for bytes, which is counted, and adds the part of a line that they begin
    /// with to the line's piece. Fails if the reader does, and is not to be called after that.
    pub(crate) fn ask(&mut self, piece: &mut Vec<u8>) -> io::Result<Result<Part, AllocError>>
        requires room { vec_len piece.old ≤ line_limit + 1 }
        requires well { self.old.asked.failed ≡ 0 }
        ensures gives { AskGives result (R.remaining self.old.reader.now) (R.remaining self.new.reader.now)
            (R.consumable_len self.new.reader.now) piece.old.items piece.new.items }
        ensures asked { CountsCall self.old.asked self.new.asked result }
        ensures same { self.new.reader.ghost_name ≡ self.old.reader.ghost_name }
    {
        self.asked.tick();
        match self.reader.fill_buf() {
            Ok(shown) => Ok(add_shown(piece, shown)),
            Err(error) => {
                self.asked.tick_failed();
                Err(error)
            }
        }
    }

    /// Takes the first bytes that the reader showed.
    pub(crate) fn consume(&mut self, amount: usize)
        ensures bytes { DropsConsumable (R.remaining self.old.reader.now) (R.remaining self.new.reader.now)
            (R.consumable_len self.old.reader.now) amount }
        ensures asked { self.new.asked ≡ self.old.asked }
        ensures same { self.new.reader.ghost_name ≡ self.old.reader.ghost_name }
    {
        self.reader.consume(amount);
    }
}

impl<R> Drop for CountedReader<'_, R> {
    /// Leaves the reader as it is.
    fn drop(self)
        ensures { self.exit.0.now ≡ self.entry.reader.now }
    {
        let Self {
            reader: _,
            asked: _,
        } = self;
    }
}

/// A writer, how often it was called for a write, and how often for a flush.
pub struct CountedWriter<'a, W> {
    writer: &'a mut W,
    written: Calls,
    flushed: Calls,
}

impl<'a, W: Write> CountedWriter<'a, W> {
    /// A writer that was not called yet.
    pub fn new(writer: &'a mut W) -> CountedWriter<'a, W>
        ensures same { result.writer.ghost_name ≡ writer.entry.ghost_name }
        ensures writer { result.writer.now ≡ writer.old }
        ensures written { NoCalls result.written }
        ensures flushed { NoCalls result.flushed }
    {
        CountedWriter {
            writer,
            written: Calls::none(),
            flushed: Calls::none(),
        }
    }

    /// Writes a beginning of a text that is not empty, which is counted: how many bytes those are,
    /// at least one. Fails if the writer does or takes nothing, and is not to be called after that.
    pub(crate) fn write(&mut self, text: &[u8]) -> io::Result<usize>
        requires some { 0 < length text.now }
        requires well { self.old.written.failed ≡ 0 }
        ensures some { IfOk result (λ taken. (0 < taken) × (taken ≤ length text.now)) }
        ensures ok { IfOk result (λ taken. Appends (W.contents self.old.writer.now)
            (W.contents self.new.writer.now) (take taken text.now)) }
        ensures err { OnErr result (Keeps (W.contents self.old.writer.now) (W.contents self.new.writer.now)) }
        ensures written { CountsCall self.old.written self.new.written result }
        ensures flushed { self.new.flushed ≡ self.old.flushed }
        ensures same { self.new.writer.ghost_name ≡ self.old.writer.ghost_name }
    {
        self.written.tick();
        let taken = match self.writer.write(text) {
            Ok(0) => Err(io::Error::from(ErrorKind::WriteZero)),
            answer => answer,
        };
        if taken.is_err() {
            self.written.tick_failed();
        }
        taken
    }

    /// Flushes the writer, which is counted. Fails if the writer does.
    pub(crate) fn flush(&mut self) -> io::Result<()>
        ensures kept { Keeps (W.contents self.old.writer.now) (W.contents self.new.writer.now) }
        ensures flushed { CountsCall self.old.flushed self.new.flushed result }
        ensures written { self.new.written ≡ self.old.written }
        ensures same { self.new.writer.ghost_name ≡ self.old.writer.ghost_name }
    {
        self.flushed.tick();
        let ended = self.writer.flush();
        if ended.is_err() {
            self.flushed.tick_failed();
        }
        ended
    }
}

impl<W> Drop for CountedWriter<'_, W> {
    /// Leaves the writer as it is.
    fn drop(self)
        ensures { self.exit.0.now ≡ self.entry.writer.now }
    {
        let Self {
            writer: _,
            written: _,
            flushed: _,
        } = self;
    }
}
