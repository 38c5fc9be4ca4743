//! Laws of filters' texts: what they are read as, word by word and whole.

ghost use Rattle.std.specs.Prelude.{◌≡◌, ◌↔◌, ℕ, ℤ, List, Some, Result, Ok};
ghost use Rattle.ft_fields.specs.declared.event.Name.{Name};
ghost use Rattle.ft_text.specs.Tokens.{skip, name_at, quoted_at, number_at, number_of};
ghost use Rattle.ft_filter.specs.declared.fault.FilterFault.{FilterFault};
ghost use Rattle.ft_filter.specs.declared.tree.Op.{Op};
ghost use Rattle.ft_filter.specs.declared.tree.Pred.{Pred};
ghost use Rattle.ft_filter.specs.Answers.{filter_of};
ghost use Rattle.ft_filter.specs.Canonical.{canonical};
ghost use Rattle.ft_filter.specs.FilterIs.{FilterIs};
ghost use Rattle.ft_filter.specs.Numbers.{Writes, IsNumber};
ghost use Rattle.ft_filter.specs.Operators.{op_at};
ghost use Rattle.ft_filter.specs.PredIs.{PredIs, IsBehindGap, BeginsWithName, IsOperator, IsQuoted};
ghost use Rattle.ft_filter.specs.Predicate.{Read, pred_at};
ghost use Rattle.ft_filter.specs.Shape.{IsFilterOf};
ghost use Rattle.ft_filter.specs.Tree.{Tree};

/// A law: the grammar relates exactly one answer to a text.
pub fn one_answer()
    ensures some { (event : Name) (text : List ℕ) → FilterIs event text (filter_of event text) }
    ensures one { (event : Name) (text : List ℕ) (answer : Result Tree FilterFault)
        → FilterIs event text answer → answer ≡ filter_of event text }
{}

/// A law: a tree that some text gives is given again by its canonical text.
pub fn reads_again()
    ensures { (event : Name) (text : List ℕ) (tree : Tree) → FilterIs event text (Ok tree)
        → FilterIs event (canonical tree) (Ok tree) }
{}

/// A law: the trees that some text on an event gives are those of the event's own predicates, with
/// at least two operands in each `Any` and `All`, and with at most 32 levels, which are the `(` and
/// `!` that are open at once in their canonical text.
pub fn trees_of_texts()
    ensures { (event : Name) (tree : Tree)
        → ((text : List ℕ) × FilterIs event text (Ok tree)) ↔ IsFilterOf event tree }
{}

/// A law: a text's head is read as the predicate, or the first fault with its place, that the
/// conditions on its words say, in their order.
pub fn predicates_of_texts()
    ensures { (event : Name) (whole : ℕ) (text : List ℕ) (read : Read Pred)
        → PredIs event whole text read ↔ (read ≡ pred_at event whole text) }
{}

/// A law: what is after a gap, and which name, operator or quoted text stands first, is what the
/// cuts of the text say.
pub fn words_of_texts()
    ensures gap { (text rest : List ℕ) → (skip text ≡ rest) ↔ IsBehindGap text rest }
    ensures name { (text name rest : List ℕ)
        → (name_at text ≡ Some (name, rest)) ↔ BeginsWithName text name rest }
    ensures operator { (text : List ℕ) (op : Op) (rest : List ℕ)
        → (op_at text ≡ Some (op, rest)) ↔ IsOperator text op rest }
    ensures quoted { (text inside rest : List ℕ)
        → (quoted_at text ≡ Some (inside, rest)) ↔ IsQuoted text inside rest }
{}

/// A law: a word writes a number if and only if it has one of the three forms, and a text begins
/// with a number if and only if its word writes it.
pub fn numbers_of_words()
    ensures word { (word : List ℕ) (z : ℤ) → (number_of word ≡ Some z) ↔ Writes word z }
    ensures token { (text : List ℕ) (z : ℤ) (rest : List ℕ)
        → (number_at text ≡ Some (z, rest)) ↔ IsNumber text z rest }
{}
