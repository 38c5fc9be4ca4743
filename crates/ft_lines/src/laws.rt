//! Laws of the lines of texts, as functions that do nothing.

ghost use Rattle.std.specs.Prelude.{ℕ, ◌<◌, List, suc, length, take, drop, slice_index_or};
ghost use Rattle.ft_text.specs.Lines.{lines_of};
ghost use Rattle.ft_lines.specs.Lines.{text_lines, CutsAt};
ghost use Rattle.ft_lines.specs.declared.line.TextLine.{TextLine};

/// A law: a text that is cut where one of its lines ends has the lines up to this one in front, and the
/// others behind.
pub fn ends_cut_lines()
    ensures { (text : List ℕ) (number : ℕ) (d : TextLine) → number < length (lines_of text)
        → CutsAt text (take (suc number) (lines_of text)) (drop (suc number) (lines_of text))
        (slice_index_or (text_lines text) number d).end }
{}
