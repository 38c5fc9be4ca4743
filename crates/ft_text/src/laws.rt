//! Laws of texts, apart from the steps that read them: pieces, words, and patterns.

ghost use Rattle.std.specs.Prelude.{◌≡◌, ◌↔◌, ℕ, List, Some, IsTrue};
ghost use Rattle.ft_text.specs.Spelling.{ArePieces, IsItem};
ghost use Rattle.ft_text.specs.Items.{Piece, pieces, Word, word_of};
ghost use Rattle.ft_text.specs.Glob.{Item, ItemsAre};
ghost use Rattle.ft_text.specs.Matching.{matches, Matches};

/// A law: a text is cut into these pieces if and only if they make it: with a separator between
/// each two and none in them, each at its place.
pub fn one_list()
    ensures { (separator place : ℕ) (text : List ℕ) (list : List Piece)
        → (pieces separator place text ≡ list) ↔ ArePieces separator place text list }
{}

/// A law: a text is read as a word if and only if it is the word as it stands: a `$` or none, a
/// name, and nothing or a `.` and one or more bytes.
pub fn one_word()
    ensures { (item : List ℕ) (word : Word) → (word_of item ≡ Some word) ↔ IsItem item word }
{}

/// A law: a pattern reads as items in one way.
pub fn one_reading()
    ensures { (pattern : List ℕ) (items other : List Item) → ItemsAre pattern items
        → ItemsAre pattern other → items ≡ other }
{}

/// A law: a pattern matches exactly the texts that its items match.
pub fn what_matches()
    ensures { (pattern text : List ℕ) → IsTrue (matches pattern text) ↔ Matches pattern text }
{}
