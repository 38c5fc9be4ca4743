//! A law: a function that does nothing, whose clauses are proved.

ghost use Rattle.std.specs.Prelude.{◌≡◌, ◌++◌, ◌∷◌, [], List};
ghost use Rattle.ft_fields.specs.Traced.{Traced};
ghost use Rattle.ft_dispatch.specs.Acts.{act_of};
ghost use Rattle.ft_waits.specs.Reading.{place_after, act_at, acts_of};

/// A law: if nothing is left out, each event says at its place what it says of who runs.
pub fn nothing_left_out()
    ensures none { acts_of [] [] ≡ [] }
    ensures more { (event : Traced) (before : List Traced)
        → acts_of [] (event ∷ before) ≡ act_at (place_after before event) (act_of event.pid event.body) ++ acts_of [] before }
{}
