//! Laws of a whole replay: functions that do nothing, whose clauses are proved.

ghost use Rattle.std.specs.Prelude.{◌≡◌, ◌↔◌, ℕ, ◌≤◌, List, Some, None, IsTrue, false, option_map};
ghost use Rattle.std.specs.FinMap as map;
ghost use Rattle.std.specs.declared.cmp.Ordering.TheVariants.{Less};
ghost use Rattle.std.specs.List.{All};
ghost use Rattle.std.specs.FinMap.{FinMap};
ghost use Rattle.ft_fields.specs.Traced.{Traced};
ghost use Rattle.ft_fields.specs.declared.pos.Pos.{Pos};
ghost use Rattle.ft_fields.specs.Places.{pos_cmp};
ghost use Rattle.ft_hist.specs.Hist.{Hist};
ghost use Rattle.ft_hist.specs.declared.item.SortItem.{SortItem};
ghost use Rattle.ft_fields.specs.declared.key.Part.{Part};
ghost use Rattle.ft_table.specs.Admission.{IsAmongFirst};
ghost use Rattle.ft_table.specs.Hits.{Hits};
ghost use Rattle.ft_table.specs.Rows.{row_at, rows_of, totals_of};
ghost use Rattle.ft_table.specs.Tabled.{Tabled};
ghost use Rattle.ft_hits.specs.declared.mark.Mark.{Mark};
ghost use Rattle.ft_pairs.specs.declared.at.At.{At};
ghost use Rattle.ft_pairs.specs.declared.at.Op.{Op};
ghost use Rattle.ft_pairs.specs.Order.{at_cmp};
ghost use Rattle.ft_pairs.specs.Source.{IsSource};
ghost use Rattle.ft_pairs.specs.declared.role.Variable.{Variable};
ghost use Rattle.ft_lanes.specs.Held.{Lanes};
ghost use Rattle.ft_base.specs.Base.{Triggers};
ghost use Rattle.ft_replay.specs.Merged.{Events, merged, held_at};
ghost use Rattle.ft_replay.specs.Named.{is_named, named};
ghost use Rattle.ft_replay.specs.Replay.{State, step, replay};
ghost use Rattle.ft_replay.specs.Elsewhere.{IsSameAct, FindsTheSame, AdmitsTheSame};
ghost use Rattle.ft_replay.specs.Elsewhere.{OperatesTheSame};
ghost use Rattle.ft_replay.specs.Hits.{found_at, hit_at, pairs_of, replayed_hits, table_for};
ghost use Rattle.ft_replay.specs.Operations.{ops_on, is_admitted};
ghost use Rattle.ft_replay.specs.Found.{values_found, saving_found, pairs_in};
ghost use Rattle.ft_replay.specs.Tally.{tally_of, rows_in, totals_in};
ghost use Rattle.ft_replay.specs.declared.pair.Pair.{Pair};

/// The law of the merged order: at each place it has the event that is held there, and nothing
/// else.
pub fn merged_order()
    ensures { (lanes : Lanes) (pos : Pos) → map.get (merged lanes) pos ≡ held_at lanes pos }
{}

/// A law: an event whose name no trigger is on changes nothing, and so replaying asks only for the
/// others.
pub fn named_events()
    ensures step { (triggers : Triggers) (state : State) (pos : Pos) (event : Traced) →
        is_named triggers event ≡ false → step triggers state (pos, event) ≡ state }
    ensures replay { (triggers : Triggers) (events : Events) →
        replay triggers (named triggers events) ≡ replay triggers events }
{}

/// A law: what a reading finds as events are replayed is the last operation on its variable before
/// it, if that is a saving; if it is a reading, or there is none before, the reading finds nothing.
/// There is no other such answer (`one_source` in `ft_pairs`). So no pair's saving has a later
/// stamp than its reading, and the time between them is never cut off at 0.
pub fn matched_readings()
    ensures found { (triggers : Triggers) (events : Events) (variable : Variable) (at : At)
        → IsSource (ops_on triggers events variable) at
        (option_map (λ place. record { pos = place; trigger = variable.saver })
        (found_at triggers events variable at)) }
    ensures saved_first { (triggers : Triggers) (events : Events) (id : ℕ)
        → All (λ pair. pair.saved.stamp ≤ pair.read.stamp) (pairs_of triggers events id) }
{}

/// A law: what changes elsewhere changes nothing here. If a place keeps its event, its trigger and
/// the trigger's role, and other triggers or events change:
///
/// - its hit is what it was, provided that its reading, if there is one, finds what it found;
/// - its operation on a variable is what it was, provided that the saver has the variable's key in
///   its table if and only if it had.
///
/// And a reading finds what it found, if the operations on its variable before it are what they
/// were. It is enough that one of them and all after it are what they were.
pub fn same_elsewhere()
    ensures hits { (triggers others : Triggers) (events more : Events) (at : At)
        → IsSameAct triggers others events more at → FindsTheSame triggers others events more at
        → hit_at others more at.trigger at.pos ≡ hit_at triggers events at.trigger at.pos }
    ensures ops { (triggers others : Triggers) (events more : Events) (at : At)
        → IsSameAct triggers others events more at
        → (variable : Variable) → AdmitsTheSame triggers others events more variable
        → OperatesTheSame triggers others events more variable at }
    ensures front { (triggers others : Triggers) (events more : Events)
        (variable : Variable) (at : At)
        → ((q : At) → at_cmp q at ≡ Less → OperatesTheSame triggers others events more variable q)
        → found_at others more variable at ≡ found_at triggers events variable at }
    ensures behind { (triggers others : Triggers) (events more : Events)
        (variable : Variable) (at mid : At) (op : Op)
        → ops_on triggers events variable mid ≡ Some op
        → OperatesTheSame triggers others events more variable mid → at_cmp mid at ≡ Less
        → ((q : At) → at_cmp mid q ≡ Less → at_cmp q at ≡ Less
        → OperatesTheSame triggers others events more variable q)
        → found_at others more variable at ≡ found_at triggers events variable at }
{
    ft_pairs::laws::one_source();
    ft_pairs::laws::local_sources();
}

/// A law: replaying gives each attached trigger the tally of the table that its hits make, with
/// the pairs of its readings, and no other trigger has a tally. The hits are at each spot and key
/// what the trigger's hit there adds; the pairs are what each reading found, in merged order of
/// the reading. The tally's rows and totals are those of the table, and its keys those with a hit
/// and with fewer than `size` other keys that have an earlier first hit.
pub fn counted_hits()
    ensures tally { (triggers : Triggers) (events : Events) (id : ℕ) (hist : Hist)
        → map.get triggers id ≡ Some hist
        → map.get (replay triggers events).tallies id
        ≡ Some (tally_of (table_for hist (replayed_hits triggers events id))
        (pairs_of triggers events id)) }
    ensures none { (triggers : Triggers) (events : Events) (id : ℕ)
        → map.get triggers id ≡ None → map.get (replay triggers events).tallies id ≡ None }
    ensures hits { (triggers : Triggers) (events : Events) (id : ℕ) (mark : Mark)
        → map.get (replayed_hits triggers events id) mark ≡ values_found triggers events id mark }
    ensures pairs { (triggers : Triggers) (events : Events) (id : ℕ)
        → (readings : FinMap pos_cmp Pos)
        × (((at : Pos) → map.get readings at ≡ saving_found triggers events id at)
        × (pairs_of triggers events id ≡ pairs_in readings)) }
    ensures row { (table : Tabled) (pairs : List Pair) (key : List Part)
        → map.get (tally_of table pairs).table key ≡ row_at table key }
    ensures rows { (table : Tabled) (pairs : List Pair) (sort : List SortItem)
        → rows_in sort (tally_of table pairs) ≡ rows_of table sort }
    ensures totals { (table : Tabled) (pairs : List Pair)
        → totals_in (tally_of table pairs) ≡ totals_of table }
    ensures rank { (triggers : Triggers) (events : Events) (id : ℕ) (hist : Hist)
        (key : List Part) → map.get triggers id ≡ Some hist
        → IsTrue (is_admitted (replay triggers events) id key)
        ↔ IsAmongFirst (table_for hist (replayed_hits triggers events id)) key }
{
    ft_table::laws::one_more_hit();
    ft_table::laws::one_row_order();
    ft_table::laws::first_keys();
}

/// A law: two maps that hold what an attached trigger's hits add, by spot and key, and what its
/// readings found, by place, give the tally that replaying gives it.
pub fn kept_maps()
    ensures { (triggers : Triggers) (events : Events) (id : ℕ) (hist : Hist)
        → map.get triggers id ≡ Some hist
        → (values : Hits)
        → ((mark : Mark) → map.get values mark ≡ values_found triggers events id mark)
        → (readings : FinMap pos_cmp Pos)
        → ((at : Pos) → map.get readings at ≡ saving_found triggers events id at)
        → map.get (replay triggers events).tallies id
        ≡ Some (tally_of (table_for hist values) (pairs_in readings)) }
{
    ft_table::laws::one_more_hit();
}
