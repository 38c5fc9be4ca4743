//! Laws of places and of fields: a call of one makes it known to the caller's proof.

ghost use Rattle.std.specs.Prelude.{◌≡◌, IfSome};
ghost use Rattle.std.specs.Option.{is_some};
ghost use Rattle.std.specs.declared.cmp.Ordering.TheVariants.{Equal};
ghost use Rattle.ft_fields.specs.Fields.{has_field, field_of, is_text, is_text_value};
ghost use Rattle.ft_fields.specs.Places.{pos_cmp};
ghost use Rattle.ft_fields.specs.Traced.{Traced, name_of};
ghost use Rattle.ft_fields.specs.declared.field.Field.{Field};
ghost use Rattle.ft_fields.specs.Parts.{part_cmp, key_cmp};

use crate::key::{Key, Part};
use crate::pos::Pos;

/// Places are ordered by stamp, then CPU, then line, and places that tie are equal.
pub fn one_order()
    ensures order { (p q : Pos) → ⟦<Pos as Ord>⟧.cmp p q ≡ pos_cmp p q }
    ensures ties { (p q : Pos) → pos_cmp p q ≡ Equal → p ≡ q }
{}

/// An event has a value in exactly the fields of its name, and a text in exactly those of them that
/// hold texts.
pub fn values_of_fields()
    ensures has { (event : Traced) (field : Field) →
        is_some (field_of event field) ≡ has_field (name_of event.body) field }
    ensures kind { (event : Traced) (field : Field) →
        IfSome (field_of event field) (λ value. is_text_value value ≡ is_text field) }
{}

/// A law: keys are ordered by their parts from the left, and a key stands before those that it
/// begins; parts are ordered by kind, then as signed numbers, as powers, as multiples, as bytes.
pub fn one_key_order()
    ensures order { (a b : Key) → ⟦<Key as Ord>⟧.cmp a b ≡ key_cmp a b }
    ensures parts { (a b : Part) → ⟦<Part as Ord>⟧.cmp a b ≡ part_cmp a b }
{}

/// A law: keys that tie in the order are equal, and so are parts.
pub fn equal_keys()
    ensures keys { (a b : Key) → key_cmp a b ≡ Equal → a ≡ b }
    ensures parts { (a b : Part) → part_cmp a b ≡ Equal → a ≡ b }
{}
