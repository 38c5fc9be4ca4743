//! Laws of lines, and those of places and of fields: a call of one makes it known to the caller's
//! proof.

ghost use Rattle.std.specs.Prelude.{◌≡◌, ℕ, true, false, List, Result, Ok};
ghost use Rattle.ft_fields.specs.Traced.{Traced, is_made};
ghost use Rattle.ft_event.specs.Line.{line_of};
ghost use Rattle.ft_event.specs.LineIs.{LineIs};
ghost use Rattle.ft_event.specs.Marks.{MarkIs};
ghost use Rattle.ft_event.specs.Skipped.{is_skipped};
ghost use Rattle.ft_event.specs.declared.fault.Line.{Line};
ghost use Rattle.ft_event.specs.declared.fault.Line.TheVariants as lines;
ghost use Rattle.ft_event.specs.declared.fault.LineFault.{LineFault};
ghost use Rattle.ft_event.specs.declared.mark.Mark.{Mark};

pub use ft_fields::laws::{one_order, values_of_fields};

/// A line has one answer, that of `read_line`.
pub fn one_answer()
    ensures found { (bytes : List ℕ) → LineIs bytes (line_of bytes) }
    ensures only { (bytes : List ℕ) (answer : Result Line LineFault) → LineIs bytes answer
        → answer ≡ line_of bytes }
{}

/// No line gives an event that triggers make.
pub fn no_made_event()
    ensures { (bytes : List ℕ) (event : Traced) → line_of bytes ≡ Ok (lines.Event event)
        → is_made event.body ≡ false }
{}

/// A line is one mark at most.
pub fn one_mark()
    ensures { (line : List ℕ) (mark other : Mark) → MarkIs line mark → MarkIs line other
        → mark ≡ other }
{}

/// A line that is a mark is skipped.
pub fn skipped_marks()
    ensures { (line : List ℕ) (mark : Mark) → MarkIs line mark → is_skipped line ≡ true }
{}
