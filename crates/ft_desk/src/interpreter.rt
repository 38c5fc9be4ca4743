//! Whatever does the commands of a script.

ghost use Rattle.ft_desk.specs.Output.{outcome};

use crate::performing::{Performed, perform};
use ft_answers::Board;
use ft_desk_core::Desk;
use std::alloc::{AllocError, Global};

/// Something that does the commands of a script: a desk, or something over a desk that prints more.
pub trait Interpreter: Drop {
    ghost use Rattle.std.specs.Prelude.{◌≡◌, ℕ, List, map, IfOk};
    ghost use Rattle.ft_answers.specs.Base.{Base};
    ghost use Rattle.ft_script.specs.Script.{asked_by};
    ghost use Rattle.ft_desk.specs.Output.{Meaning};

    /// What it holds, and what is attached.
    ghost base: { Self → Base };

    /// What commands mean to it, with the trace files that they may load.
    ghost means: { List (List ℕ) → Meaning };

    /// Its allocator.
    fn alloc(&self) -> Global;

    /// Does what a line of a script asks for. The line has no line break, and the Nth file is what
    /// `load @N` loads.
    ///
    /// What a refused line changes is told by `means`: for a desk, nothing that is held. Fails for
    /// memory only, which has no line of its own; then the edit may have been made, and no clause
    /// says what is held.
    fn perform(&mut self, files: &[Vec<u8>], line: &[u8]) -> Result<Performed, AllocError>
        ensures text { IfOk result (λ done. done.text.items
            ≡ (means (map (λ f. f.items) files.now) (base self.old) (asked_by line.now)).text) }
        ensures refused { IfOk result (λ done. done.refused
            ≡ (means (map (λ f. f.items) files.now) (base self.old) (asked_by line.now)).refused) }
        ensures base { IfOk result (λ _. base self.new
            ≡ (means (map (λ f. f.items) files.now) (base self.old) (asked_by line.now)).base) };
}

impl<B: Board> Interpreter for Desk<B> {
    ghost base = { λ desk. desk.base };

    ghost means = { outcome };

    fn alloc(&self) -> Global {
        self.allocator()
    }

    fn perform(&mut self, files: &[Vec<u8>], line: &[u8]) -> Result<Performed, AllocError> {
        let alloc = self.allocator();
        perform(self, alloc, files, line)
    }
}
