//! Rows: scripts with their trace files, and what they must give.

ghost use Rattle.std.specs.Prelude.{Some};

use ft_desk::{FileFault, Status, read_file};
use std::alloc::Global;
use std::rt::Files;

/// A script with its trace files, what it must print, and how it must end.
#[derive(Drop)]
pub(crate) struct Row {
    pub(crate) script: Vec<u8>,
    pub(crate) traces: Vec<Vec<u8>>,
    pub(crate) expected: Vec<u8>,
    pub(crate) status: Status,
}

/// Reads the row in a folder.
pub(crate) fn read_row<F: Files>(alloc: Global, files: &F, folder: &str) -> Result<Row, FileFault> {
    let script = read_in(alloc, files, folder, "script")?;
    let traces = read_traces(alloc, files, folder)?;
    let expected = read_in(alloc, files, folder, "expected")?;
    let status = read_in(alloc, files, folder, "status")?;
    Ok(Row {
        script,
        traces,
        expected,
        status: status_in(status.as_slice())?,
    })
}

/// Reads the file of a name in a folder.
fn read_in<F: Files>(
    alloc: Global,
    files: &F,
    folder: &str,
    name: &str,
) -> Result<Vec<u8>, FileFault> {
    let path = format!(in alloc; "{folder}/{name}")?;
    read_file(alloc, files, path.as_str())
}

/// Reads the trace files in a folder, up to the first number that has none.
fn read_traces<F: Files>(
    alloc: Global,
    files: &F,
    folder: &str,
) -> Result<Vec<Vec<u8>>, FileFault> {
    let mut traces = Vec::new(alloc);
    for number in 1..u32::MAX {
        let name = format!(in alloc; "trace{number}")?;
        match read_in(alloc, files, folder, name.as_str()) {
            Ok(trace) => traces.push(trace).map_err(|_| FileFault::Memory)?,
            Err(FileFault::Unreadable) => break,
            Err(FileFault::Memory) => return Err(FileFault::Memory),
        }
    }
    Ok(traces)
}

/// The status that a text names by its first byte.
fn status_in(text: &[u8]) -> Result<Status, FileFault> {
    match text.first() {
        Some(b'0') => Ok(Status::AllAccepted),
        Some(b'1') => Ok(Status::SomeRefused),
        _ => Err(FileFault::Unreadable),
    }
}
