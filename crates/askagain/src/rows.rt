//! `askagain rows FOLDER..`: whether worked examples hold. Each folder is a row: a `script`, the
//! trace files `trace1`, `trace2`, .. that it may load, the `expected` output, and a `status`,
//! whose first byte is `0` if each command is to be accepted, and `1` if some is to be refused.
//!
//! A row holds if `run` and `run_text` give that output and that status over both boards, and if
//! the script, done line by line over a desk of each board, prints that output, the same over both,
//! with no line after which a desk is deferred.
//!
//! A line `FOLDER: WHAT` is printed for each row that doesn't hold, and last how many rows hold.

ghost use Rattle.std.specs.Prelude.{◌≡◌, ◌≤◌, ◌↔◌, length, IfOk, IsTrue};

mod checks;
mod row;

use crate::rows::checks::{Unheld, check};
use crate::rows::row::read_row;
use std::io;
use std::rt::Files;

/// How many rows there are, and how many of them hold.
#[derive(Clone, Copy)]
pub(crate) struct Count {
    rows: usize,
    held: usize,
}

impl Count {
    /// Whether all rows hold.
    pub(crate) fn all_hold(self) -> bool
        ensures { IsTrue result ↔ (self.held ≡ self.rows) }
    {
        self.held == self.rows
    }
}

/// Checks the rows in these folders, and prints which don't hold, and how many do. Refused if no
/// folder is named, or if standard output fails.
pub(crate) fn check_rows<P: Files + Print + AllocGlobal>(
    rt: &P,
    folders: &[String],
) -> io::Result<Count> {
    if folders.is_empty() {
        return Err(io::Error::from(io::ErrorKind::InvalidInput));
    }
    let count = check_folders(rt, folders)?;
    println!(rt; "{} of {} rows hold", count.held, count.rows)?;
    Ok(count)
}

/// Checks the rows in these folders, and prints a line for each that doesn't hold.
fn check_folders<P: Files + Print + AllocGlobal>(rt: &P, folders: &[String]) -> io::Result<Count>
    ensures rows { IfOk result (λ count. count.rows ≡ length folders.now) }
    ensures held { IfOk result (λ count. count.held ≤ count.rows) }
{
    let mut held = 0;
    for folder in folders {
        match check_folder(rt, folder.as_str()) {
            Ok(()) => held += 1,
            Err(unheld) => println!(rt; "{folder}: {unheld}")?,
        }
    }
    Ok(Count {
        rows: folders.len(),
        held,
    })
}

/// Whether the row in a folder holds.
fn check_folder<P: Files + AllocGlobal>(rt: &P, folder: &str) -> Result<(), Unheld> {
    let row = read_row(rt.alloc(), rt, folder)?;
    check(rt.alloc(), &row)
}
