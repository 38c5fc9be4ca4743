//! The desk over a board.

ghost use Rattle.std.specs.Prelude.{◌≡◌, ◌≢◌, option_map, IfOk};
ghost use Rattle.std.specs.Option.{option_copied, ForSome};
ghost use Rattle.ft_answers.specs.Edited.{AnswerIs};
ghost use Rattle.ft_trigger.specs.TriggerIs.{trigger_of};
ghost use Rattle.ft_desk_core.specs.Edits.{trigger_for, trigger_or_refused, trigger_refusal};
ghost use Rattle.ft_desk_core.specs.Edits.{filter_for, filter_refusal};
ghost use Rattle.ft_desk_core.specs.Found.{tree_for};

use crate::events::{event_in, events_in};
use ft_answers::{
    AttachedTrigger, Board, Done, Edited, Latency, Pair, Place, Refused, Row, TableRow,
    lane_places, matching_places, places,
};
use ft_dispatch::Dispatch;
use ft_event::{Event, Name};
use ft_fields::Pos;
use ft_filter::{Filter, FilterFault};
use ft_held_waits::held_dispatches;
use ft_lanes::Lanes;
use ft_table::Totals;
use ft_trigger::{Key, Trigger, TriggerFault, parse};
use std::alloc::Global;
use std::marker::Model;

/// A desk: texts in, edits and answers of a board out.
#[derive(Drop)]
pub struct Desk<B: Board> {
    board: B,
    alloc: Global,
}

impl<B: Board> Model for Desk<B> {
    ghost use Rattle.ft_answers.specs.Codes.{shown_code};
    ghost use Rattle.ft_answers.specs.Shown.{Shown};

    ghost Value = { Shown };

    ghost coded = { shown_code };

    ghost view = { λ d. B.shown d.board };
}

impl<B: Board> Desk<B> {
    ghost use Rattle.std.specs.Prelude.{◌≡◌, ◌≢◌, true, List, Some, Ok, Err, option_map};
    ghost use Rattle.std.specs.Option.{option_copied};
    ghost use Rattle.ft_base.specs.declared.refused.Refused.TheVariants.{Memory};
    ghost use Rattle.ft_answers.specs.After.{after_unload, after_strike, after_remove};
    ghost use Rattle.ft_event.specs.Line.{line_of};
    ghost use Rattle.ft_fields.specs.Traced.{Traced};
    ghost use Rattle.ft_answers.specs.Held.{event_at, is_small};
    ghost use Rattle.ft_answers.specs.Costs.{EditCounts, RepairCosts, LoadCosts, UnloadCosts};
    ghost use Rattle.ft_answers.specs.Costs.{FilterCosts, AnswerCosts};
    ghost use Rattle.ft_answers.specs.Deferral.{PutsNothingOff};
    ghost use Rattle.ft_answers.specs.Deferral.{IsNoHit, IsPlainHit, IsPlainLane};
    ghost use Rattle.ft_answers.specs.Deferral.{ReadsNothing, WantsForTables};
    ghost use Rattle.ft_answers.specs.Edited.{EditGives, AnswersFrom, AnswerIs};
    ghost use Rattle.ft_answers.specs.Answers.{hist_text, row_texts_shown, row_text_shown};
    ghost use Rattle.ft_answers.specs.Answers.{totals, latencies, list_text};
    ghost use Rattle.ft_answers.specs.Answers.{rows_shown, pairs_shown};
    ghost use Rattle.ft_base.specs.Answers.{trigger_text, attached_in};
    ghost use Rattle.ft_answers.specs.Reporting.{Reports};
    ghost use Rattle.ft_desk_core.specs.Edits.{after_load_text, after_insert_text};
    ghost use Rattle.ft_desk_core.specs.Edits.{after_attach_text, after_refilter_text};
    ghost use Rattle.ft_desk_core.specs.Edits.{event_or_refused, events_of};
    ghost use Rattle.ft_desk_core.specs.Found.{event_found, lane_found, matching_found};
    ghost use Rattle.ft_answers.specs.Places.{places};
    ghost use Rattle.ft_held_waits.specs.Held.{dispatches_held};

    /// A desk over a board, as the board is.
    pub fn new(alloc: Global, board: B) -> Desk<B>
        ensures { result ≡ B.shown board }
    {
        Desk { board, alloc }
    }

    /// Its allocator.
    pub fn allocator(&self) -> Global {
        self.alloc
    }

    /// Loads a trace text, a lane for each of its CPUs: how many events were loaded. Refused if a
    /// line cannot be read (for the first such line), if one of these lanes is held, if too many
    /// events would be held, or for memory.
    pub fn load(&mut self, text: &[u8]) -> Result<Done<u64>, Refused>
        ensures gives { EditGives (λ count. count) (after_load_text self.old.base text.now)
            self.old self.new result }
        ensures counts { EditCounts self.old self.new result }
        ensures repairs { (events : List Traced) → events_of text.now ≡ Ok events
            → LoadCosts events self.old self.new }
    {
        let events = events_in(self.alloc, text)?;
        ft_event::laws::no_made_event();
        self.board.load_store(events)
    }

    /// Takes the lane of a CPU away: how many events it had. Refused if the lane is not held.
    pub fn unload(&mut self, cpu: u32) -> Result<Done<u64>, Refused>
        ensures gives { EditGives (λ count. count) (after_unload self.old.base cpu)
            self.old self.new result }
        ensures memory { result ≢ Err Memory }
        ensures counts { EditCounts self.old self.new result }
        ensures repairs { UnloadCosts cpu self.old self.new }
        ensures now { is_small self.old.base.lanes cpu ≡ true
            → IsPlainLane self.old.base.triggers self.old.base.lanes cpu
            → PutsNothingOff self.old self.new }
    {
        self.board.unload(cpu)
    }

    /// Adds the event of a trace line, which has no line break, at the next line of its CPU's lane:
    /// in `place` the event's place, and in `report` which rows of triggers that count held events
    /// may have changed, if the board has a report. `made` gives which rows of triggers that count
    /// made events may have changed, if the board names them. Refused if the line cannot be read or
    /// holds no event, if too many events would be held or the lane's line numbers are used up, or
    /// for memory.
    pub fn insert(&mut self, line: &[u8]) -> Result<Done<Edited>, Refused>
        ensures gives { EditGives (λ edited. edited.place) (after_insert_text self.old.base line.now)
            self.old self.new result }
        ensures counts { EditCounts self.old self.new result }
        ensures repairs { (event : Traced) → event_or_refused (line_of line.now) ≡ Ok event
            → RepairCosts event self.old self.new }
        ensures now { (event : Traced) → event_or_refused (line_of line.now) ≡ Ok event
            → IsNoHit self.old.base.triggers event → PutsNothingOff self.old self.new }
        ensures reports { Reports self.old self.new result }
    {
        let event = event_in(line)?;
        ft_event::laws::no_made_event();
        self.board.insert(event)
    }

    /// Takes the event of a CPU's line away: in `place` its place, and in `report` which rows of
    /// triggers that count held events may have changed, if the board has a report. `made` gives
    /// which rows of triggers that count made events may have changed, if the board names them.
    /// Refused if the lane is not held, or has no such line.
    pub fn strike(&mut self, cpu: u32, line: u32) -> Result<Done<Edited>, Refused>
        ensures gives { EditGives (λ edited. edited.place) (after_strike self.old.base cpu line)
            self.old self.new result }
        ensures memory { result ≢ Err Memory }
        ensures counts { EditCounts self.old self.new result }
        ensures repairs { (event : Traced) → event_at self.old.base.lanes cpu line ≡ Some event
            → RepairCosts event self.old self.new }
        ensures now { (event : Traced) → event_at self.old.base.lanes cpu line ≡ Some event
            → IsPlainHit self.old.base.triggers event → PutsNothingOff self.old self.new }
        ensures reports { Reports self.old self.new result }
    {
        self.board.strike(cpu, line)
    }

    /// Attaches a trigger's text to an event: the trigger's id. Refused if the event is neither one
    /// of the four named ones nor the one that triggers make, if the text cannot be read, if 64
    /// triggers are attached or the ids are used up, if its variable's name is saved already, if
    /// nobody saves what it reads (at the event that its onmatch part names, if it has one), if its
    /// keys don't match its saver's, or for memory.
    pub fn attach(&mut self, event: Name, text: &[u8]) -> Result<Done<u32>, Refused>
        ensures gives { EditGives (λ id. id) (after_attach_text self.old.base event text.now)
            self.old self.new result }
        ensures counts { EditCounts self.old self.new result }
    {
        let trigger = read_trigger(self.alloc, event, text)?;
        self.board.attach(trigger)
    }

    /// Gives a trigger the filter of a text, or none, for the events held and for those to come:
    /// the trigger's id. Refused if no trigger has the id, if the text cannot be read, or for
    /// memory.
    pub fn refilter(&mut self, id: u32, text: Option<&[u8]>) -> Result<Done<u32>, Refused>
        ensures gives { EditGives (λ id. id)
            (after_refilter_text self.old.base id (option_copied text.entry))
            self.old self.new result }
        ensures counts { EditCounts self.old self.new result }
        ensures costs { FilterCosts id self.old self.new }
    {
        let event = self.board.name_of(id).ok_or(Refused::NoTrigger)?;
        let filter = read_filter(self.alloc, event, text)?;
        self.board.refilter(id, filter)
    }

    /// Takes a trigger away: its id. Refused if no trigger has the id, or if it saves what another
    /// reads.
    pub fn remove(&mut self, id: u32) -> Result<Done<u32>, Refused>
        ensures gives { EditGives (λ id. id) (after_remove self.old.base id)
            self.old self.new result }
        ensures memory { result ≢ Err Memory }
        ensures counts { EditCounts self.old self.new result }
        ensures now { ReadsNothing self.old.base.triggers id
            → PutsNothingOff self.old self.new }
    {
        self.board.remove(id)
    }

    /// The text of a trigger's table. Refused if no trigger has the id, or for memory.
    pub fn hist(&mut self, id: u32) -> Result<Vec<u8>, Refused>
        ensures gives { AnswersFrom (λ text. text.items) (hist_text self.old.base id)
            self.old self.new result }
        ensures steps { AnswerCosts self.old self.new }
    {
        self.board.hist(id)
    }

    /// The rows of a trigger's table in the order of its text, each with its key, and with its text
    /// as `hist` gives it, without the line break. Refused if no trigger has the id, or for memory.
    pub fn row_texts(&mut self, id: u32) -> Result<Vec<TableRow>, Refused>
        ensures gives { AnswersFrom (λ rows. rows.items) (row_texts_shown self.old.base id)
            self.old self.new result }
        ensures steps { AnswerCosts self.old self.new }
    {
        self.board.row_texts(id)
    }

    /// The rows of a trigger's table in numbers, in the order of its text. Refused if no trigger
    /// has the id, or for memory.
    pub fn rows(&mut self, id: u32) -> Result<Vec<Row>, Refused>
        ensures gives { AnswersFrom (λ rows. rows.items) (rows_shown self.old.base id)
            self.old self.new result }
        ensures steps { AnswerCosts self.old self.new }
    {
        self.board.rows(id)
    }

    /// The text of a key's row of a trigger's table as `hist` gives it, without the line break;
    /// none if the key isn't in the table. Refused if no trigger has the id, or for memory.
    pub fn row_text(&mut self, id: u32, key: &Key) -> Result<Option<Vec<u8>>, Refused>
        ensures gives { AnswersFrom (option_map (λ text. text.items))
            (row_text_shown self.old.base id key.now) self.old self.new result }
        ensures steps { AnswerCosts self.old self.new }
    {
        self.board.row_text(id, key)
    }

    /// What a trigger has counted: its hits, the keys in its table, and the hits that found no
    /// room. Refused if no trigger has the id, or for memory.
    pub fn totals(&mut self, id: u32) -> Result<Totals, Refused>
        ensures gives { AnswersFrom (λ totals. totals) (totals self.old.base id)
            self.old self.new result }
        ensures steps { AnswerCosts self.old self.new }
        ensures memory { WantsForTables self.old self.new result }
    {
        self.board.totals(id)
    }

    /// What a reading trigger measured, in merged order of the reading, dropped hits too: for each,
    /// the two places and the microseconds between them. Refused if no trigger has the id, if it
    /// reads no variable, or for memory.
    pub fn latencies(&mut self, id: u32) -> Result<Vec<Latency>, Refused>
        ensures gives { AnswersFrom (λ latencies. latencies.items) (latencies self.old.base id)
            self.old self.new result }
        ensures steps { AnswerCosts self.old self.new }
    {
        self.board.latencies(id)
    }

    /// The pairs of events that `latencies` measures, in its order: for each, the places of the
    /// event that saved and of the one that read, each with its stamp in microseconds. Refused if
    /// no trigger has the id, if it reads no variable, or for memory.
    pub fn pairs(&mut self, id: u32) -> Result<Vec<Pair>, Refused>
        ensures gives { AnswersFrom (λ pairs. pairs.items) (pairs_shown self.old.base id)
            self.old self.new result }
        ensures steps { AnswerCosts self.old self.new }
    {
        self.board.pairs(id)
    }

    /// The event of a CPU's line. Refused if the lane is not held, or has no such line. Takes no
    /// memory.
    pub fn event(&self, cpu: u32, line: u32) -> Result<Event, Refused>
        ensures { result ≡ event_found self.now.base cpu line }
    {
        let content = self.board.content();
        let place = content.place_of(cpu, line)?;
        content
            .lanes()
            .get(place.cpu, place.line)
            .ok_or(Refused::NoEvent)
    }

    /// The lanes that are held, with their events. Takes no memory.
    pub fn lanes(&self) -> &Lanes
        ensures { result.now ≡ self.now.base.lanes }
    {
        self.board.content().lanes()
    }

    /// The places of all held events, in merged order: by stamp, then CPU, then line. Refused for
    /// memory.
    pub fn events(&self) -> Result<Vec<Pos>, Refused>
        ensures { AnswerIs (λ places. places.items) (Ok (places self.now.base.lanes)) result }
    {
        Ok(places(self.alloc, self.board.content().lanes())?)
    }

    /// The switches to tasks among all held events, in merged order, each with where its task
    /// became runnable. A switch whose `since.waiting()` is something ends a wait. Refused for
    /// memory.
    pub fn waits(&self) -> Result<Vec<Dispatch>, Refused>
        ensures { AnswerIs (λ told. told.items) (Ok (dispatches_held self.now.base.lanes)) result }
    {
        Ok(held_dispatches(self.alloc, self.board.content().lanes())?)
    }

    /// The places of a CPU's events from a line on, by line. Refused if the lane is not held, or
    /// for memory.
    pub fn lane(&self, cpu: u32, line: u32) -> Result<Vec<Pos>, Refused>
        ensures { AnswerIs (λ places. places.items) (lane_found self.now.base cpu line) result }
    {
        let content = self.board.content();
        let lane = content.lane_of(cpu)?;
        Ok(lane_places(self.alloc, content.lanes(), lane, line)?)
    }

    /// The places of the held events of a name on which the filter of a text holds, in merged
    /// order. Refused if the event has no name, if the text cannot be read as a filter on events of
    /// that name, or for memory.
    pub fn matching(&self, event: Name, text: &[u8]) -> Result<Vec<Pos>, Refused>
        ensures { AnswerIs (λ places. places.items)
            (matching_found self.now.base event text.now) result }
    {
        let filter = parse_filter(self.alloc, event, text)?;
        Ok(matching_places(self.alloc, self.board.content().lanes(), &filter)?)
    }

    /// The attached triggers, by id. Refused for memory.
    pub fn attached_triggers(&self) -> Result<Vec<AttachedTrigger>, Refused>
        ensures { AnswerIs (λ attached. attached.items)
            (Ok (attached_in self.now.base.triggers)) result }
    {
        Ok(self.board.content().attached_triggers(self.alloc)?)
    }

    /// The canonical text of an attached trigger. Refused if no trigger has the id, or for memory.
    pub fn trigger_text(&self, id: u32) -> Result<Vec<u8>, Refused>
        ensures { AnswerIs (λ text. text.items) (trigger_text self.now.base id) result }
    {
        self.board.content().trigger_text(self.alloc, id)
    }

    /// The text of a CPU's lane. Refused if the lane is not held, or for memory.
    pub fn list(&self, cpu: u32) -> Result<Vec<u8>, Refused>
        ensures { AnswerIs (λ text. text.items) (list_text self.now.base cpu) result }
    {
        self.board.list(cpu)
    }

    /// Whether the board is deferred: its kept tables lack an edit, and the next table, row, totals or
    /// latencies of an attached trigger rebuild them.
    pub fn is_deferred(&self) -> bool
        ensures { result ≡ self.now.deferred }
    {
        self.board.is_deferred()
    }
}

/// Reads the text of a trigger on an event, which is one of the named ones.
fn read_trigger(alloc: Global, event: Name, text: &[u8]) -> Result<Trigger, Refused>
    ensures reads { AnswerIs (λ trigger. trigger) (trigger_for event text.now) result }
    ensures event { IfOk result (λ trigger. trigger.event ≢ Name.Other) }
{
    match event {
        Name::Waking | Name::Wakeup | Name::WakeupNew | Name::Switch | Name::WakeupLatency =>
            named_trigger(alloc, event, text),
        Name::Other => Err(Refused::BadCommand),
    }
}

/// Reads the text of a trigger on a named event.
fn named_trigger(alloc: Global, event: Name, text: &[u8]) -> Result<Trigger, Refused>
    ensures reads { AnswerIs (λ trigger. trigger)
        (trigger_or_refused (trigger_of event text.now)) result }
    ensures event { IfOk result (λ trigger. trigger.event ≡ event) }
{
    match parse(alloc, event, text) {
        Ok(trigger) => Ok(trigger),
        Err(fault) => Err(trigger_refusal(fault)),
    }
}

/// A trigger's fault as a refusal. Out of memory is a refusal of its own.
fn trigger_refusal(fault: TriggerFault) -> Refused
    ensures { result ≡ trigger_refusal fault }
{
    match fault {
        TriggerFault::Memory => Refused::Memory,
        _ => Refused::BadTrigger(fault),
    }
}

/// Reads the text of a filter on an event. No text is no filter.
fn read_filter(alloc: Global, event: Name, text: Option<&[u8]>) -> Result<Option<Filter>, Refused>
    ensures reads { AnswerIs (option_map (λ filter. filter.tree))
        (filter_for event (option_copied text.entry)) result }
    ensures event { IfOk result (λ filter. ForSome filter (λ f. f.event ≡ event)) }
{
    match text {
        Some(text) => match ft_filter::parse(alloc, text, event) {
            Ok(filter) => Ok(Some(filter)),
            Err(fault) => Err(filter_refusal(fault)),
        },
        None => Ok(None),
    }
}

/// Reads the text of a filter on events of a name, which is one of the named ones.
fn parse_filter(alloc: Global, event: Name, text: &[u8]) -> Result<Filter, Refused>
    ensures reads { AnswerIs (λ filter. filter.tree) (tree_for event text.now) result }
    ensures event { IfOk result (λ filter. filter.event ≡ event) }
{
    if event == Name::Other {
        return Err(Refused::BadCommand);
    }
    match ft_filter::parse(alloc, text, event) {
        Ok(filter) => Ok(filter),
        Err(fault) => Err(filter_refusal(fault)),
    }
}

/// A filter's fault as a refusal. Out of memory is a refusal of its own.
fn filter_refusal(fault: FilterFault) -> Refused
    ensures { result ≡ filter_refusal fault }
{
    match fault {
        FilterFault::Memory => Refused::Memory,
        _ => Refused::BadFilter(fault),
    }
}
