//! Writing what a command prints.

ghost use Rattle.std.specs.Prelude.{◌≡◌, [], OnOk, OnErr};
ghost use Rattle.std.specs.Io.KnownBytes.{Appends};
ghost use Rattle.ft_desk.specs.Counts.{failures_of};
ghost use Rattle.ft_desk.specs.Run.{BreaksOff};

use crate::counted::CountedWriter;
use std::io::{self, Write};

/// Writes a text, by as many calls as the writer asks for. Fails, with something of the text left,
/// if the writer fails, also by an interrupted write, or if a write takes nothing.
pub(crate) fn send<W: Write>(out: &mut CountedWriter<'_, W>, text: &[u8]) -> io::Result<()>
    requires well { out.old.written.failed ≡ 0 }
    ensures ok { OnOk result (Appends (W.contents out.old.writer.now) (W.contents out.new.writer.now) text.now) }
    ensures err { OnErr result
        (BreaksOff (W.contents out.old.writer.now) (W.contents out.new.writer.now) [] text.now) }
    ensures failed { out.new.written.failed ≡ failures_of result }
    ensures flushed { out.new.flushed ≡ out.old.flushed }
    ensures same { out.new.writer.ghost_name ≡ out.old.writer.ghost_name }
{
    let mut rest = text;
    while !rest.is_empty() {
        let taken = out.write(rest)?;
        rest = &rest[taken..];
    }
    Ok(())
}
