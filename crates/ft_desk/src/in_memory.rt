//! Running a script in memory.

ghost use Rattle.std.specs.Prelude.{◌≡◌, map, IfOk};
ghost use Rattle.ft_answers.specs.Base.{empty_base};
ghost use Rattle.ft_desk.specs.Output.{output};
ghost use Rattle.ft_desk.specs.Run.{status_of};

use crate::performing::perform;
use crate::running::{Status, status_from};
use ft_answers::Board;
use ft_desk_core::Desk;
use ft_text::next_line;
use std::alloc::{AllocError, Global};

/// What a script in memory printed, and how it ended.
#[derive(Drop)]
pub struct Ran {
    /// What its commands print, one after the other.
    pub output: Vec<u8>,
    /// Whether each command was accepted.
    pub status: Status,
}

/// Runs a script in memory over a board on which nothing is held or attached: all that its commands
/// print, and its status. The Nth file is what `load @N` loads. Fails only for memory, and then
/// gives no output at all.
pub fn run_text<B: Board>(
    alloc: Global,
    board: B,
    files: &[Vec<u8>],
    script: &[u8],
) -> Result<Ran, AllocError>
    requires { (B.shown board).base ≡ empty_base }
    ensures output { IfOk result (λ ran.
        ran.output.items ≡ (output (map (λ f. f.items) files.now) script.now).text) }
    ensures status { IfOk result (λ ran.
        ran.status ≡ status_of (output (map (λ f. f.items) files.now) script.now).refused) }
{
    let mut desk = Desk::new(alloc, board);
    let mut output = Vec::new(alloc);
    let mut refused = false;
    let mut rest = script;
    while let Some((line, behind)) = next_line(rest) {
        let done = perform(&mut desk, alloc, files, line)?;
        output.extend_from_slice(&done.text)?;
        refused |= done.refused;
        rest = behind;
    }
    Ok(Ran {
        output,
        status: status_from(refused),
    })
}
