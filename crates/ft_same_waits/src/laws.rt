//! A law: a function that does nothing, whose clauses are proved.

ghost use Rattle.std.specs.Prelude.{◌≡◌, ℕ, List, [], Ok, reverse};
ghost use Rattle.std.specs.FinMap as map;
ghost use Rattle.ft_fields.specs.Traced.{Traced};
ghost use Rattle.ft_base.specs.Base.{Base};
ghost use Rattle.ft_desk_core.specs.Edits.{after_load_text};
ghost use Rattle.ft_dispatch.specs.Dispatches.{dispatches};
ghost use Rattle.ft_waits.specs.Reading.{acts_of, in_order, dispatches_in};
ghost use Rattle.ft_held_waits.specs.Held.{dispatches_held};
ghost use Rattle.ft_same_waits.specs.Loaded.{loaded, loaded_text};

/// A law: the dispatches of held events that were loaded are those that the events tell as a stream.
/// So a trace text has the same dispatches if a desk that held nothing has loaded it, and if it is read
/// as a stream. A desk refuses a text with a line that can't be read; if such lines are left out of a
/// load, the dispatches are those of a stream that skips them. No event is left out of the stream.
pub fn same_dispatches()
    ensures events { (events : List Traced)
        → dispatches_held (loaded events) ≡ dispatches (reverse (in_order (acts_of [] events))) }
    ensures lines { (text : List ℕ) → dispatches_held (loaded_text text) ≡ dispatches_in [] text }
    ensures load { (base new : Base) (text : List ℕ) (count : ℕ) → base.lanes ≡ map.empty
        → after_load_text base text ≡ Ok (new, count)
        → dispatches_held new.lanes ≡ dispatches_in [] text }
{}
