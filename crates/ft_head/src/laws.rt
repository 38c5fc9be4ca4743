//! Laws on sizes and on parts that make events, apart from the steps that read them. The laws on
//! pieces and words are passed on.

ghost use Rattle.std.specs.Prelude.{◌≡◌, ◌↔◌, ℕ, List, Some};
ghost use Rattle.ft_head.specs.Draft.{size_of};
ghost use Rattle.ft_head.specs.Onmatch.{Handed, handed_of};
ghost use Rattle.ft_head.specs.Sizes.{IsSize};
ghost use Rattle.ft_head.specs.PartSpelling.{IsHanded};

pub use ft_text::laws::{one_list, one_word};

/// A law: a part is read as what events are made of exactly if it is of the form: an event of the
/// kernel, and what is handed on, spelled like fields.
pub fn one_action()
    ensures { (part : List ℕ) (words : Handed)
        → (handed_of part ≡ Some words) ↔ IsHanded part words }
{}

/// A law: the size that a text writes is the least power of 2 that is not below its number, of any
/// number of decimal digits, if that power is from 128 to 131,072; any other text writes none.
pub fn sizes()
    ensures { (text : List ℕ) (size : ℕ) → (size_of text ≡ Some size) ↔ IsSize text size }
{}
