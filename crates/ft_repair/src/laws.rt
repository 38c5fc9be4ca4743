//! Laws: functions that do nothing, whose clauses are proved.

ghost use Rattle.std.specs.Prelude.{◌≡◌, ℕ, List, false, Some};
ghost use Rattle.std.specs.FinMap as map;
ghost use Rattle.ft_hist.specs.Hist.{Hist};
ghost use Rattle.ft_fields.specs.declared.pos.Pos.{Pos};
ghost use Rattle.ft_fields.specs.declared.key.Part.{Part};
ghost use Rattle.ft_kept.specs.Shelves.{Shelved, Shelves, kept_on};
ghost use Rattle.ft_pairs.specs.declared.at.At.{At};
ghost use Rattle.ft_pairs.specs.declared.role.Role.TheVariants.{Reads};
ghost use Rattle.ft_pairs.specs.declared.role.Variable.{Variable};
ghost use Rattle.ft_table.specs.Rows.{AllFit};
ghost use Rattle.ft_base.specs.Base.{Base, Triggers};
ghost use Rattle.ft_base.specs.OneTrigger.{GetsFilter};
ghost use Rattle.ft_base.specs.Roles.{is_reader, role_at};
ghost use Rattle.ft_replay.specs.Merged.{Events};
ghost use Rattle.ft_replay.specs.Found.{pairs_in, saving_found};
ghost use Rattle.ft_replay.specs.Hits.{replayed_hits, table_for};
ghost use Rattle.ft_replay.specs.Operations.{ops_on};
ghost use Rattle.ft_repair.specs.KeptShelves.{AreKept, AreKeptOf, OnEachShelf};
ghost use Rattle.ft_repair.specs.Staying.{IsReadAlike, ReadsAsBefore};
ghost use Rattle.ft_replay.specs.Replay.{replay};
ghost use Rattle.ft_replay.specs.Tally.{tally_of};

/// A law: shelves that keep what the triggers' acts at events say, told place by place, hold what
/// replaying the events gives. The keys of hits fit the triggers' key items.
pub fn kept_shelves()
    ensures tally { OnEachShelf (λ triggers events id hist shelf.
        map.get (replay triggers events).tallies id
        ≡ Some (tally_of shelf.table (pairs_in shelf.readings))) }
    ensures fit { OnEachShelf (λ triggers events id hist shelf. AllFit shelf.table hist) }
    ensures hits { OnEachShelf (λ triggers events id hist shelf.
        shelf.table ≡ table_for hist (replayed_hits triggers events id)) }
    ensures readings { OnEachShelf (λ triggers events id hist shelf. (at : Pos)
        → map.get shelf.readings at ≡ saving_found triggers events id at) }
    ensures ops { (triggers : Triggers) (events : Events) (shelves : Shelves)
        → AreKept triggers events shelves → (variable : Variable) (at : At)
        → (kept_on shelves).ops variable at ≡ ops_on triggers events variable at }
{
    ft_hist::laws::fitting_parts();
    ft_table::laws::one_more_hit();
    ft_pairs::laws::one_source();
}

/// A law: a trigger that reads nothing keeps its table, whatever other triggers come, go or get
/// another filter.
pub fn others_stay()
    ensures { (triggers others : Triggers) (events : Events) (old new : Shelves)
        → AreKept triggers events old → AreKept others events new → (id : ℕ) (hist : Hist)
        → map.get triggers id ≡ Some hist → map.get others id ≡ Some hist
        → is_reader hist.variable ≡ false → (shelf its : Shelved)
        → map.get old id ≡ Some shelf → map.get new id ≡ Some its → its.table ≡ shelf.table }
{
    ft_table::laws::one_more_hit();
    ft_pairs::laws::one_source();
}

/// A law: a trigger that reads keeps its table and what its readings found, whatever other triggers
/// come, go or get another filter, if its saver stays and the same triggers read that; so do the
/// operations on what the saver saves. Another filter of the saver, or of one that reads it, can
/// change more: since a reading unsets its variable, what one reader's filter admits another may miss.
pub fn readers_stay()
    ensures operations { (triggers others : Triggers) (events : Events) (old new : Shelves)
        → AreKept triggers events old → AreKept others events new → (saver : ℕ)
        → IsReadAlike triggers others saver → (key : List Part) (at : At)
        → (kept_on new).ops (record { saver = saver; key = key }) at
        ≡ (kept_on old).ops (record { saver = saver; key = key }) at }
    ensures shelves { (triggers others : Triggers) (events : Events) (old new : Shelves)
        → AreKept triggers events old → AreKept others events new → (saver : ℕ)
        → IsReadAlike triggers others saver → (id : ℕ) → role_at triggers id ≡ Reads saver
        → ReadsAsBefore id old new }
    ensures filter { (id : ℕ) (base changed : Base) → GetsFilter id base changed
        → (old new : Shelves) → AreKeptOf base old → AreKeptOf changed new → (saver : ℕ)
        → (saver ≡ id → ⊥) → (role_at base.triggers id ≡ Reads saver → ⊥) → (reader : ℕ)
        → role_at base.triggers reader ≡ Reads saver → ReadsAsBefore reader old new }
{
    ft_table::laws::one_more_hit();
    ft_pairs::laws::one_source();
}
