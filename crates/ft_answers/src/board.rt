//! What a board is, however it keeps its tables.

use crate::done::Done;
use crate::edited::Edited;
use ft_base::{Content, Latency, Refused};
use ft_fields::{Event, Name};
use ft_filter::Filter;
use ft_hist::{Key, Trigger};
use ft_replay::Pair;
use ft_store::Store;
use ft_table::{Row, TableRow, Totals};

/// Lanes of events and attached triggers, with the answers that replaying the events gives.
///
/// A board that keeps tables repairs them when one event comes or goes, in few steps, and answers
/// from them without a step. Contracts count the steps of a repair if no made event is counted.
///
/// A refused edit changes nothing, and drops its arguments. `strike`, `unload` and `remove` never
/// run out of memory.
pub trait Board: Drop {
    ghost use Rattle.std.specs.Prelude.{◌≡◌, ◌≢◌, true, false, Some, Err, option_map};
    ghost use Rattle.std.specs.List.{All};
    ghost use Rattle.std.specs.Option.{ForSome};
    ghost use Rattle.std.specs.FinMap as map;
    ghost use Rattle.ft_fields.specs.Traced.{Traced, is_made};
    ghost use Rattle.ft_hist.specs.Hist.{Hist};
    ghost use Rattle.ft_lanes.specs.Held.{event_at, is_small};
    ghost use Rattle.ft_base.specs.declared.refused.Refused.TheVariants.{Memory};
    ghost use Rattle.ft_base.specs.After.{after_load, after_unload, after_insert, after_strike, after_attach};
    ghost use Rattle.ft_base.specs.After.{after_refilter, after_remove};
    ghost use Rattle.ft_answers.specs.Answers.{hist_text, row_texts_shown, row_text_shown, totals, latencies, list_text};
    ghost use Rattle.ft_answers.specs.Answers.{rows_shown, pairs_shown};
    ghost use Rattle.ft_answers.specs.Costs.{EditCounts, RepairCosts, LoadCosts, UnloadCosts, FilterCosts, AnswerCosts};
    ghost use Rattle.ft_answers.specs.Deferral.{IsNoHit, IsPlainHit, IsPlainLane, ReadsNothing, PutsNothingOff};
    ghost use Rattle.ft_answers.specs.Deferral.{WantsForTables};
    ghost use Rattle.ft_answers.specs.Edited.{EditGives, AnswersFrom, AnswerIs};
    ghost use Rattle.ft_answers.specs.Reporting.{Reports};
    ghost use Rattle.ft_answers.specs.Shown.{Shown};

    /// What is held and attached, whether tables are kept and lack an edit, and the steps taken.
    ghost shown: { Self → Shown };

    /// Loads events in file order, into a lane for each of their CPUs. Returns how many were
    /// loaded. They must not be events that triggers make. Refused if one of these lanes is held
    /// already, if too many events would be held, or for memory.
    fn load(&mut self, events: Vec<Event>) -> Result<Done<u64>, Refused>
        requires { All (λ event. is_made event.body ≡ false) events.items }
        ensures gives { EditGives (λ count. count) (after_load (shown self.old).base events.items)
            (shown self.old) (shown self.new) result }
        ensures counts { EditCounts (shown self.old) (shown self.new) result }
        ensures repairs { LoadCosts events.items (shown self.old) (shown self.new) };

    /// Like `load`, for events that are in a store already. The board takes the store over, which
    /// spares a copy of the events.
    fn load_store(&mut self, events: Store) -> Result<Done<u64>, Refused>
        requires { All (λ event. is_made event.body ≡ false) events }
        ensures gives { EditGives (λ count. count) (after_load (shown self.old).base events)
            (shown self.old) (shown self.new) result }
        ensures counts { EditCounts (shown self.old) (shown self.new) result }
        ensures repairs { LoadCosts events (shown self.old) (shown self.new) };

    /// Removes the lane of a CPU. Returns how many events it had. Refused if the lane is not held.
    fn unload(&mut self, cpu: u32) -> Result<Done<u64>, Refused>
        ensures gives { EditGives (λ count. count) (after_unload (shown self.old).base cpu)
            (shown self.old) (shown self.new) result }
        ensures memory { result ≢ Err Memory }
        ensures counts { EditCounts (shown self.old) (shown self.new) result }
        ensures repairs { UnloadCosts cpu (shown self.old) (shown self.new) }
        ensures now { is_small (shown self.old).base.lanes cpu ≡ true
            → IsPlainLane (shown self.old).base.triggers (shown self.old).base.lanes cpu
            → PutsNothingOff (shown self.old) (shown self.new) };

    /// Adds an event, which must not be one that triggers make, at the next line of its CPU's lane.
    /// The lane is made if there is none. Returns the event's place and, if the board reports them,
    /// which rows may have changed: `report` has those of triggers that count held events, and
    /// `made` has those of triggers that count made events. Both are `None` if the board is
    /// deferred after the edit, or keeps no tables. Refused if too many events would be held, if
    /// the lane's line numbers are used up, or for memory.
    fn insert(&mut self, event: Event) -> Result<Done<Edited>, Refused>
        requires { is_made event.body ≡ false }
        ensures gives { EditGives (λ edited. edited.place) (after_insert (shown self.old).base event)
            (shown self.old) (shown self.new) result }
        ensures counts { EditCounts (shown self.old) (shown self.new) result }
        ensures repairs { RepairCosts event (shown self.old) (shown self.new) }
        ensures now { IsNoHit (shown self.old).base.triggers event
            → PutsNothingOff (shown self.old) (shown self.new) }
        ensures reports { Reports (shown self.old) (shown self.new) result };

    /// Removes the event of a CPU's line. Returns its place and, if the board reports them, which
    /// rows may have changed, in `report` and `made` as for `insert`. The line number is not given
    /// again while the lane is held. Refused if the lane is not held, or has no such line.
    fn strike(&mut self, cpu: u32, line: u32) -> Result<Done<Edited>, Refused>
        ensures gives { EditGives (λ edited. edited.place) (after_strike (shown self.old).base cpu line)
            (shown self.old) (shown self.new) result }
        ensures memory { result ≢ Err Memory }
        ensures counts { EditCounts (shown self.old) (shown self.new) result }
        ensures repairs { (event : Traced)
            → event_at (shown self.old).base.lanes cpu line ≡ Some event
            → RepairCosts event (shown self.old) (shown self.new) }
        ensures now { (event : Traced)
            → event_at (shown self.old).base.lanes cpu line ≡ Some event
            → IsPlainHit (shown self.old).base.triggers event
            → PutsNothingOff (shown self.old) (shown self.new) }
        ensures reports { Reports (shown self.old) (shown self.new) result };

    /// Attaches a trigger. Returns its id. Refused if 64 are attached or the ids are used up, if
    /// its variable's name is saved already, if nobody saves what it reads (at the event that its
    /// onmatch part names, if it has one), if its keys don't match its saver's, or for memory.
    fn attach(&mut self, trigger: Trigger) -> Result<Done<u32>, Refused>
        requires { trigger.event ≢ Name.Other }
        ensures gives { EditGives (λ id. id) (after_attach (shown self.old).base trigger)
            (shown self.old) (shown self.new) result }
        ensures counts { EditCounts (shown self.old) (shown self.new) result };

    /// Gives a trigger another filter, or none. Returns its id. The filter must be for the
    /// trigger's event, and applies to the events held before as to those to come. Refused if no
    /// trigger has the id, or for memory.
    fn refilter(&mut self, id: u32, filter: Option<Filter>) -> Result<Done<u32>, Refused>
        requires { (hist : Hist) → map.get (shown self.old).base.triggers id ≡ Some hist
            → ForSome filter (λ f. f.event ≡ hist.event) }
        ensures gives { EditGives (λ id. id)
            (after_refilter (shown self.old).base id (option_map (λ f. f.tree) filter))
            (shown self.old) (shown self.new) result }
        ensures counts { EditCounts (shown self.old) (shown self.new) result }
        ensures costs { FilterCosts id (shown self.old) (shown self.new) };

    /// Removes a trigger. Returns its id, which is not given again. Refused if no trigger has the
    /// id, or if it saves what another one reads.
    fn remove(&mut self, id: u32) -> Result<Done<u32>, Refused>
        ensures gives { EditGives (λ id. id) (after_remove (shown self.old).base id)
            (shown self.old) (shown self.new) result }
        ensures memory { result ≢ Err Memory }
        ensures counts { EditCounts (shown self.old) (shown self.new) result }
        ensures now { ReadsNothing (shown self.old).base.triggers id
            → PutsNothingOff (shown self.old) (shown self.new) };

    /// What is held and attached. It needs no tables, and takes no memory.
    fn content(&self) -> &Content
        ensures { result.now ≡ (shown self.now).base };

    /// The event that the trigger with an id is on. Takes no memory.
    fn name_of(&self, id: u32) -> Option<Name>
        ensures { result
            ≡ option_map (λ hist. hist.event) (map.get (shown self.now).base.triggers id) };

    /// The text of a trigger's table. Refused if no trigger has the id, or for memory.
    fn hist(&mut self, id: u32) -> Result<Vec<u8>, Refused>
        ensures gives { AnswersFrom (λ text. text.items) (hist_text (shown self.old).base id)
            (shown self.old) (shown self.new) result }
        ensures steps { AnswerCosts (shown self.old) (shown self.new) };

    /// The rows of a trigger's table in the order of its text: the key of each, and its text as
    /// `hist` gives it, without the line break. Refused if no trigger has the id, or for memory.
    fn row_texts(&mut self, id: u32) -> Result<Vec<TableRow>, Refused>
        ensures gives { AnswersFrom (λ rows. rows.items) (row_texts_shown (shown self.old).base id)
            (shown self.old) (shown self.new) result }
        ensures steps { AnswerCosts (shown self.old) (shown self.new) };

    /// The rows of a trigger's table in numbers, in the order of its text. Refused if no trigger
    /// has the id, or for memory.
    fn rows(&mut self, id: u32) -> Result<Vec<Row>, Refused>
        ensures gives { AnswersFrom (λ rows. rows.items) (rows_shown (shown self.old).base id)
            (shown self.old) (shown self.new) result }
        ensures steps { AnswerCosts (shown self.old) (shown self.new) };

    /// The text of a key's row of a trigger's table as `hist` gives it, without the line break;
    /// none if the key isn't in the table. Refused if no trigger has the id, or for memory.
    fn row_text(&mut self, id: u32, key: &Key) -> Result<Option<Vec<u8>>, Refused>
        ensures gives { AnswersFrom (option_map (λ text. text.items))
            (row_text_shown (shown self.old).base id key.now) (shown self.old) (shown self.new) result }
        ensures steps { AnswerCosts (shown self.old) (shown self.new) };

    /// What a trigger has counted: its hits, the keys in its table, and the hits that found no
    /// room. Refused if no trigger has the id, or for memory.
    fn totals(&mut self, id: u32) -> Result<Totals, Refused>
        ensures gives { AnswersFrom (λ totals. totals) (totals (shown self.old).base id)
            (shown self.old) (shown self.new) result }
        ensures steps { AnswerCosts (shown self.old) (shown self.new) }
        ensures memory { WantsForTables (shown self.old) (shown self.new) result };

    /// What a reading trigger measured, in merged order of the reading, dropped hits included.
    /// Refused if no trigger has the id, if the trigger reads no variable, or for memory.
    fn latencies(&mut self, id: u32) -> Result<Vec<Latency>, Refused>
        ensures gives { AnswersFrom (λ latencies. latencies.items)
            (latencies (shown self.old).base id) (shown self.old) (shown self.new) result }
        ensures steps { AnswerCosts (shown self.old) (shown self.new) };

    /// The pairs of events that `latencies` measures, in its order. A pair has the place of the
    /// event that saved and of the one that read, each with its stamp in microseconds. Refused if
    /// no trigger has the id, if the trigger reads no variable, or for memory.
    fn pairs(&mut self, id: u32) -> Result<Vec<Pair>, Refused>
        ensures gives { AnswersFrom (λ pairs. pairs.items)
            (pairs_shown (shown self.old).base id) (shown self.old) (shown self.new) result }
        ensures steps { AnswerCosts (shown self.old) (shown self.new) };

    /// The text of a CPU's lane. It needs no tables. Refused if the lane is not held, or for
    /// memory.
    fn list(&self, cpu: u32) -> Result<Vec<u8>, Refused>
        ensures { AnswerIs (λ text. text.items) (list_text (shown self.now).base cpu) result };

    /// Whether the kept tables are deferred. If so, the next answer that reads them rebuilds them.
    fn is_deferred(&self) -> bool
        ensures { result ≡ (shown self.now).deferred };
}
