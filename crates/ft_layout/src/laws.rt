//! Laws of names and refusals as numbers.

ghost use Rattle.std.specs.Prelude.{◌≡◌, ℕ, ◌≤◌, Option};
ghost use Rattle.ft_base.specs.declared.refused.Refused.{Refused};
ghost use Rattle.ft_fields.specs.declared.event.Name.{Name};
ghost use Rattle.ft_layout.specs.Names.{name_number, name_numbered};
ghost use Rattle.ft_layout.specs.Refusals.{refusal_layout, refusal_in};

/// A law: a name is told by its number, and a number up to 5 by its name.
pub fn numbers_of_names()
    ensures names { (name : Name) → name_numbered (name_number name) ≡ name }
    ensures numbers { (number : ℕ) → number ≤ 5 →
        name_number (name_numbered number) ≡ number }
{}

/// A law: a refusal, or that nothing was refused, is told by its numbers.
pub fn numbers_of_refusals()
    ensures { (refused : Option Refused) → refusal_in (refusal_layout refused) ≡ refused }
{}
