//! Laws of bases: functions that do nothing, whose clauses are proved.

ghost use Rattle.std.specs.Prelude.{◌≡◌, ℕ, ◌+◌, ◌<◌, List, Option, Some, None, Ok, Err, true};
ghost use Rattle.std.specs.FinMap as map;
ghost use Rattle.std.specs.List.{AllByRecursion};
ghost use Rattle.ft_fields.specs.Traced.{Traced};
ghost use Rattle.ft_filter.specs.Tree.{Tree};
ghost use Rattle.ft_hist.specs.Hist.{Hist};
ghost use Rattle.ft_hist.specs.declared.label.Var.TheVariants as vars;
ghost use Rattle.ft_lanes.specs.Edits.{lanes_with};
ghost use Rattle.ft_lanes.specs.Held.{Lane, HasCpu, event_limit, number_limit, held_in};
ghost use Rattle.ft_pairs.specs.declared.role.Role.TheVariants.{Reads};
ghost use Rattle.ft_base.specs.declared.refused.Place.{Place};
ghost use Rattle.ft_base.specs.declared.refused.Refused.TheVariants.{Full, TooManyTriggers};
ghost use Rattle.ft_base.specs.After.{after_load, after_unload, after_insert, after_strike};
ghost use Rattle.ft_base.specs.After.{after_attach, after_refilter, after_remove, variable_refusal};
ghost use Rattle.ft_base.specs.Base.{Base, Triggers, empty_base, trigger_limit, id_limit};
ghost use Rattle.ft_base.specs.Reachable.{IsReachable, HasOneSaver};
ghost use Rattle.ft_base.specs.Roles.{role_of, saves_name, saver_of};

/// The empty base is reachable, and each edit that is not refused leads from a reachable base to a
/// reachable one.
pub fn reachable_bases()
    ensures empty { IsReachable empty_base }
    ensures load { (base : Base) (events : List Traced) (new : Base) (count : ℕ)
        → IsReachable base → AllByRecursion HasCpu events
        → after_load base events ≡ Ok (new, count) → IsReachable new }
    ensures unload { (base : Base) (cpu : ℕ) (new : Base) (count : ℕ)
        → IsReachable base → after_unload base cpu ≡ Ok (new, count) → IsReachable new }
    ensures insert { (base : Base) (event : Traced) (new : Base) (place : Place)
        → IsReachable base → HasCpu event
        → after_insert base event ≡ Ok (new, place) → IsReachable new }
    ensures strike { (base : Base) (cpu line : ℕ) (new : Base) (place : Place)
        → IsReachable base → after_strike base cpu line ≡ Ok (new, place) → IsReachable new }
    ensures attach { (base : Base) (hist : Hist) (new : Base) (id : ℕ)
        → IsReachable base → after_attach base hist ≡ Ok (new, id) → IsReachable new }
    ensures refilter { (base : Base) (id : ℕ) (filter : Option Tree) (new : Base) (same : ℕ)
        → IsReachable base → after_refilter base id filter ≡ Ok (new, same) → IsReachable new }
    ensures remove { (base : Base) (id : ℕ) (new : Base) (same : ℕ)
        → IsReachable base → after_remove base id ≡ Ok (new, same) → IsReachable new }
{}

/// A law: if no two attached triggers save one name, the saver of a name is the trigger that saves
/// it, and those who read the name read that trigger's variables.
pub fn one_saver()
    ensures saver { (triggers : Triggers) → HasOneSaver triggers
        → (name : List ℕ) (id : ℕ) (hist : Hist)
        → map.get triggers id ≡ Some hist → saves_name name hist.variable ≡ true
        → saver_of triggers name ≡ Some id }
    ensures role { (triggers : Triggers) → HasOneSaver triggers
        → (name : List ℕ) (id : ℕ) (hist : Hist)
        → map.get triggers id ≡ Some hist → saves_name name hist.variable ≡ true
        → (own : List ℕ) → role_of triggers (Some (vars.Reads own name)) ≡ Reads id }
{}

/// A law of the last numbers: the greatest line number of a lane is still given to an event, and
/// the greatest id to a trigger; after each, the next event of the lane and the next trigger are
/// refused.
pub fn last_numbers()
    ensures last_line { (base : Base) (event : Traced) (lane : Lane)
        → map.get base.lanes event.cpu ≡ Some lane → lane.next ≡ number_limit
        → held_in base.lanes < event_limit
        → after_insert base event ≡ Ok (
          record base { lanes = lanes_with base.lanes event },
          record { cpu = event.cpu; line = number_limit },
        ) }
    ensures no_line { (base : Base) (event : Traced) (lane : Lane)
        → map.get base.lanes event.cpu ≡ Some lane → lane.next ≡ number_limit + 1
        → after_insert base event ≡ Err Full }
    ensures last_id { (base : Base) (hist : Hist)
        → base.next_id ≡ id_limit → map.len base.triggers < trigger_limit
        → variable_refusal base.triggers hist hist.variable ≡ None
        → after_attach base hist ≡ Ok (
          record base {
            triggers = map.insert base.triggers id_limit hist;
            next_id = id_limit + 1;
          },
          id_limit,
        ) }
    ensures no_id { (base : Base) (hist : Hist)
        → base.next_id ≡ id_limit + 1 → after_attach base hist ≡ Err TooManyTriggers }
{}
