//! Laws of joining: functions that do nothing, whose clauses are proved.

ghost use Rattle.std.specs.Prelude.{◌≡◌, ◌+◌, ◌||◌, ℕ, ℤ, Bool, true, false, List, [], ◌∷◌, ◌++◌, map as list_map};
ghost use Rattle.std.specs.List.{count_by, flat_map, list_any};
ghost use Rattle.ft_fields.specs.declared.pos.Pos.{Pos};
ghost use Rattle.ft_dispatch.specs.Acts.{Act};
ghost use Rattle.ft_dispatch.specs.Dispatches.{runnable_since, dispatches};
ghost use Rattle.ft_dispatch.specs.Showings.{ready_since, showings, first_wakings, shown_by, first_by};
ghost use Rattle.ft_dispatch.specs.Joining.{act_behind, ready_behind, AreAfter, AreUpTo, KeepsOrder, ran, known_behind, has_one, completed_by, joined, firsts, others, dispatch_behind, joined_behind, AreOfTasks};
ghost use Rattle.ft_dispatch.specs.declared.dispatch.Dispatch.{Dispatch};
ghost use Rattle.ft_dispatch.specs.declared.dispatch.Since.{Since};
ghost use Rattle.ft_dispatch.specs.declared.showing.Showing.{Showing};

/// A law: what acts say of a task is what the last part of them says, put over what those before say if
/// the part didn't run the task; and their dispatches are those of the acts before, and of the part, if
/// the first one of each task is completed by what the acts before say.
pub fn parts_join()
    ensures known { (pid : ℤ) (part before : List (Pos × Act)) → runnable_since pid (part ++ before)
        ≡ known_behind (ran pid part) (runnable_since pid part) (runnable_since pid before) }
    ensures dispatches { (part before : List (Pos × Act)) → dispatches (part ++ before)
        ≡ dispatches before ++ joined (λ pid. runnable_since pid before) (dispatches part) }
{}

/// A law: what a caller has to keep of a part's dispatches that are joined later. A dispatch that
/// isn't the first one of its task stays as it is, except for its places; and the first ones may be
/// joined without the others. Of each kind of dispatches there are as many among the first ones and
/// the others as among all.
pub fn first_ones_join()
    ensures stays { (known : ℤ → Since) (told : List Dispatch) (one : Dispatch) → has_one one.pid told ≡ true
        → joined known (told ++ one ∷ []) ≡ joined known told ++ one ∷ [] }
    ensures completed { (known : ℤ → Since) (told : List Dispatch) (one : Dispatch) → has_one one.pid told ≡ false
        → joined known (told ++ one ∷ []) ≡ joined known told ++ completed_by (known one.pid) one ∷ [] }
    ensures firsts { (known : ℤ → Since) (told : List Dispatch) → joined known (firsts told) ≡ firsts (joined known told) }
    ensures tasks { (told : List Dispatch) → AreOfTasks told (firsts told) }
    ensures others { (known : ℤ → Since) (told : List Dispatch) → others (joined known told) ≡ others told }
    ensures firsts_behind { (move : Pos → Pos) (before : List (Pos × Act)) (told : List Dispatch)
        → firsts (joined_behind move before told) ≡ joined_behind move before (firsts told) }
    ensures others_behind { (move : Pos → Pos) (before : List (Pos × Act)) (told : List Dispatch)
        → others (joined_behind move before told) ≡ list_map (dispatch_behind move) (others told) }
    ensures all { (passes : Dispatch → Bool) (told : List Dispatch)
        → count_by passes (firsts told) + count_by passes (others told) ≡ count_by passes told }
{}

/// A law: what a caller has to keep of a part's wakings that are joined later. What a waking shows is told by the
/// part alone, unless the part says nothing of its task before: then it is told by what was known before the
/// part, if all acts of the part come later. So whatever is asked of any showing, those of both are the showings
/// before, the part's own, and those that its first wakings show.
pub fn first_wakings_join()
    ensures ready { (stamp : ℕ) (pid : ℤ) (part before : List (Pos × Act)) → AreAfter stamp part → AreUpTo stamp before
        → ready_since (runnable_since pid (part ++ before))
        ≡ ready_behind (runnable_since pid part) (runnable_since pid before) }
    ensures showings { (stamp : ℕ) (part before : List (Pos × Act)) → AreAfter stamp part → AreUpTo stamp before
        → (passes : Showing → Bool) → list_any passes (showings (part ++ before))
        ≡ (list_any passes (flat_map (shown_by (λ pid. runnable_since pid before)) (first_wakings part))
        || (list_any passes (showings part) || list_any passes (showings before))) }
    ensures firsts { (part before : List (Pos × Act)) → first_wakings (part ++ before)
        ≡ first_wakings before ++ flat_map (first_by (λ pid. runnable_since pid before)) (first_wakings part) }
{}

/// A law: acts show the same at other places, if these keep their stamps and their order.
pub fn showings_move()
    ensures showings { (move : Pos → Pos) → KeepsOrder move → (acts : List (Pos × Act))
        → showings (list_map (act_behind move) acts) ≡ showings acts }
    ensures firsts { (move : Pos → Pos) → KeepsOrder move → (acts : List (Pos × Act))
        → first_wakings (list_map (act_behind move) acts) ≡ first_wakings acts }
{}
