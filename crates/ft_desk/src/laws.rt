//! Laws: functions that do nothing, whose clauses are proved.

ghost use Rattle.std.specs.Prelude.{ℕ, List, Option, Some, Result, take};
ghost use Rattle.std.specs.Io.{StartsWith};
ghost use Rattle.ft_text.specs.Lines.{lines_of};
ghost use Rattle.ft_desk.specs.declared.running.RunFault.{RunFault};
ghost use Rattle.ft_desk.specs.declared.running.Status.{Status};
ghost use Rattle.ft_desk.specs.Output.{Meaning, output_by, output_of_lines};
ghost use Rattle.ft_desk.specs.Run.{RunEnds, WritesFront, WritesInOrder};

/// A law: whatever commands mean, the output of the first lines of a script is a beginning of the
/// whole script's output.
pub fn first_lines()
    ensures { (means : Meaning) (script : List ℕ) (n : ℕ) → StartsWith
        (output_by means script).text (output_of_lines means (take n (lines_of script))).text }
{}

/// A law: however a run ends, what it wrote is a beginning of the output of the lines that it read,
/// and so of the whole script's output.
pub fn what_runs_write()
    ensures lines { (means : Meaning) (result : Result Status RunFault)
        (reader rest before after : Option (List ℕ)) →
        RunEnds means result reader rest before after →
        WritesInOrder means reader rest before after }
    ensures script { (means : Meaning) (result : Result Status RunFault) (script : List ℕ)
        (rest before after : Option (List ℕ)) →
        RunEnds means result (Some script) rest before after →
        WritesFront before after (output_by means script).text }
{}
