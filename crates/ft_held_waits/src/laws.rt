//! A law of held dispatches: a function that does nothing, whose clauses are proved.

ghost use Rattle.std.specs.Prelude.{◌≡◌, ℕ, List, Some};
ghost use Rattle.ft_hist.specs.Hist.{Hist};
ghost use Rattle.ft_base.specs.Base.{Triggers};
ghost use Rattle.ft_replay.specs.Merged.{Events};
ghost use Rattle.ft_replay.specs.Replay.{replay};
ghost use Rattle.ft_held_waits.specs.Latencies.{AreLatencyTriggers, both, saver_of_wakings, reader_of_switches};
ghost use Rattle.ft_held_waits.specs.Latencies.{dropped_by, task_pairs, woken_pairs};

/// A law: if one trigger saves the stamp of each waking for the task that is woken, and another
/// reads it at each switch for the task that the CPU goes to, what they match are the dispatches
/// that have a waking, in order: the saving event is the waking, and the reading event is the
/// switch. The saver's table must have had room for each of its hits. Task 0 may be matched, and
/// has no dispatch.
///
/// Other triggers may be attached, if none reads what this one saves; if no third trigger is attached,
/// any two such triggers are so.
pub fn woken_dispatches_are_latencies()
    ensures pairs { (triggers : Triggers) (events : Events) (saver reader : ℕ)
        → AreLatencyTriggers triggers saver reader
        → dropped_by (replay triggers events) saver ≡ Some 0
        → task_pairs triggers events reader ≡ Some (woken_pairs events) }
    ensures both { (name own : List ℕ) (saving reading : Hist) (saver reader : ℕ)
        → (saver ≡ reader → ⊥)
        → AreLatencyTriggers (both (saver, saver_of_wakings name saving)
        (reader, reader_of_switches own name reading)) saver reader }
{}
