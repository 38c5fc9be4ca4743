//! Laws of made events: functions that do nothing, whose clauses are proved.

ghost use Rattle.ft_made.specs.Laws.{FoundMakeAll, HeldAreCounted, KeptAreTallied, KeysAreUpdated, MadeAreCounted};
ghost use Rattle.ft_made.specs.Laws.{MadeAreTallied, MadeBySpot, MadeHitsAre, MadeInOrder, MadeTablesChange};
ghost use Rattle.ft_made.specs.Laws.{MadeTablesFit, NamedMakeAll, NoneIsMade, OthersCountNone, ReadingsAreTallied};
ghost use Rattle.ft_made.specs.Laws.{SameIsMade, PutMadeChanges, SpotsAreDistinct, TablesAreTallied};
ghost use Rattle.ft_made.specs.Laws.{ReplayedAreInOrder, ReplayedAreTallied, TakeMadeChanges, UpdatedButForKeys};

/// A law: replaying with made events is two replays, one after the other. Held events are counted,
/// and variables set, as if no event were made; beside that, each attached trigger, and no other
/// id, counts the made events in order of their spots.
pub fn made_counters()
    ensures first { HeldAreCounted }
    ensures second { MadeAreCounted }
    ensures none { OthersCountNone }
    ensures named { NamedMakeAll }
    ensures idle { NoneIsMade }
{}

/// A law: the made events are a finite map from spots: each is what a trigger makes there of the
/// event and of the saving that its reading finds. They stand in order of their spots, no two at
/// one spot.
pub fn made_by_spot()
    ensures events { MadeBySpot }
    ensures order { MadeInOrder }
    ensures distinct { SpotsAreDistinct }
{}

/// A law: at a place that keeps its event, its trigger and the trigger's role, what is made depends
/// only on what readings find. So what is kept of readings makes what the replay makes.
pub fn same_made()
    ensures local { SameIsMade }
    ensures kept { FoundMakeAll }
{
    ft_replay::same_elsewhere();
}

/// A law: what an attached trigger counts of made events is the tally of the table that its hits
/// among them make. Any map that holds at each spot and key what the hit there adds gives this
/// tally.
pub fn made_tallies()
    ensures tally { MadeAreTallied }
    ensures hits { MadeHitsAre }
    ensures kept { KeptAreTallied }
    ensures readings { ReadingsAreTallied }
{
    ft_table::laws::one_more_hit();
}

/// A law: if what is kept of readings is what they find, a table that holds just what the events
/// made of it add has the tally that replaying gives its trigger. Its keys fit the trigger, and
/// when what is made at one spot changes, the table need only change there.
pub fn made_tables()
    ensures tally { TablesAreTallied }
    ensures fit { MadeTablesFit }
    ensures change { MadeTablesChange }
    ensures put { PutMadeChanges }
    ensures take { TakeMadeChanges }
{
    ft_table::laws::one_more_hit();
    ft_hist::laws::fitting_parts();
}

/// A law: the pairs that replaying gives are those of readings in merged order, and so a table of
/// made events can be made of them. It has the tally that replaying with made events gives.
pub fn replayed_pairs()
    ensures order { ReplayedAreInOrder }
    ensures tally { ReplayedAreTallied }
{
    ft_replay::counted_hits();
    made_tables();
}

/// A law: take the table of what readings make by what they found, and the table of what they make
/// by what they find later. The two differ only by hits of keys under which made events that differ
/// are counted. If changes lead from what readings found to what they find later, the keys of the
/// changes include these.
pub fn changed_keys()
    ensures tables { UpdatedButForKeys }
    ensures keys { KeysAreUpdated }
{}
