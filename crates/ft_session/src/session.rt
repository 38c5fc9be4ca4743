//! `Session` and its calls: a desk, and what was last asked of it.

ghost use Rattle.std.specs.Prelude.{◌≡◌, Ok, [], unwrap_or};
ghost use Rattle.std.specs.Option.{option_copied};
ghost use Rattle.ft_answers.specs.After.{after_unload, after_strike, after_remove};
ghost use Rattle.ft_answers.specs.Answers.{hist_text, rows_shown, totals, pairs_shown};
ghost use Rattle.ft_base.specs.Answers.{list_text, trigger_text, attached_in};
ghost use Rattle.ft_desk_core.specs.Edits.{after_load_text, after_insert_text};
ghost use Rattle.ft_desk_core.specs.Edits.{after_attach_text, after_refilter_text};
ghost use Rattle.ft_desk_core.specs.Found.{event_found, lane_found, matching_found};
ghost use Rattle.ft_answers.specs.Places.{places};
ghost use Rattle.ft_layout.specs.Rows.{report_layout};
ghost use Rattle.ft_session.specs.Told.{rows_told, made_told};
ghost use Rattle.ft_session.specs.Calls.{IsNew, Forgets};
ghost use Rattle.ft_session.specs.Calls.{Edits, EditsInPlace, Inserts, Strikes};
ghost use Rattle.ft_session.specs.Calls.{AnswersTotals, AnswersText, AnswersRows};
ghost use Rattle.ft_session.specs.Calls.{AnswersPairs, ReadsText, ReadsPlaces};
ghost use Rattle.ft_session.specs.Calls.{ReadsTriggers, ReadsEvent, HoldsWaits};

use crate::lines::no_losses;
use crate::outcome::{accept, as_rows, hold, refuse, rows_or_empty};
use ft_answers::{AttachedTrigger, Changed, Edited, Pair, Refused, Row};
use ft_board::KeptBoard;
use ft_desk_core::Desk;
use ft_fields::{Name, Pos};
use ft_layout::{EventLayout, LineLayout, ReportLayout, TotalsLayout};
use ft_lines::TextLine;
use ft_losses::LossesRead;
use ft_stream::Stream;
use std::alloc::Global;

/// A desk over the board that keeps tables, and what was last asked of it.
#[derive(Drop)]
pub struct Session {
    /// The desk.
    pub desk: Desk<KeptBoard>,
    /// Its allocator.
    pub alloc: Global,
    /// The text that was last asked for.
    pub text: Vec<u8>,
    /// The rows that were last asked for.
    pub rows: Vec<Row>,
    /// What readings found, as last asked for.
    pub pairs: Vec<Pair>,
    /// The places that were last asked for.
    pub places: Vec<Pos>,
    /// The attached triggers, as last asked for.
    pub attached: Vec<AttachedTrigger>,
    /// The lines of the text that was last asked for by `lines`.
    pub lines: Vec<TextLine>,
    /// What the lines of a text report lost, as last asked for by `losses`.
    pub losses: LossesRead,
    /// What the last accepted insert or strike reported, or the strikes of one call together: then its
    /// place is that of one of the struck events.
    pub edited: Option<Edited>,
    /// Why the last call with a code was refused, if it was.
    pub refused: Option<Refused>,
    /// A stream of waits. Its own calls touch nothing else, and of those below only `held_waits` touches it.
    pub waits: Stream,
}

impl Session {
    /// A session that holds nothing. It takes no memory.
    #[tactic(auto, unfolding(crate::specs::Calls::IsNew))]
    pub fn new(alloc: Global) -> Session
        ensures { IsNew result }
    {
        Session {
            desk: Desk::new(alloc, KeptBoard::new(alloc)),
            alloc,
            text: Vec::new(alloc),
            rows: Vec::new(alloc),
            pairs: Vec::new(alloc),
            places: Vec::new(alloc),
            attached: Vec::new(alloc),
            lines: Vec::new(alloc),
            losses: no_losses(alloc),
            edited: None,
            refused: None,
            waits: Stream::new(alloc),
        }
    }

    /// Loads a trace text: how many events were loaded. Refused as `Desk::load` is.
    #[tactic(auto, unfolding(crate::specs::Calls::Edits))]
    pub fn load(&mut self, trace: &[u8], events: &mut u64) -> u32
        ensures { Edits (after_load_text self.old.desk.base trace.now)
            self.old events.old result events.new self.new }
    {
        match self.desk.load(trace) {
            Ok(done) => {
                *events = done.value;
                accept(&mut self.refused)
            }
            Err(why) => refuse(&mut self.refused, why),
        }
    }

    /// Takes the lane of a CPU away: how many events it had. Refused as `Desk::unload` is.
    #[tactic(auto, unfolding(crate::specs::Calls::Edits, crate::specs::Calls::EditsInPlace))]
    pub fn unload(&mut self, cpu: u32, events: &mut u64) -> u32
        ensures { EditsInPlace (after_unload self.old.desk.base cpu)
            self.old events.old result events.new self.new }
    {
        match self.desk.unload(cpu) {
            Ok(done) => {
                *events = done.value;
                accept(&mut self.refused)
            }
            Err(why) => refuse(&mut self.refused, why),
        }
    }

    /// Attaches a trigger's text to an event: the trigger's id. Refused as `Desk::attach` is.
    #[tactic(auto, unfolding(crate::specs::Calls::Edits))]
    pub fn attach(&mut self, event: Name, trigger: &[u8], id: &mut u32) -> u32
        ensures { Edits (after_attach_text self.old.desk.base event trigger.now)
            self.old id.old result id.new self.new }
    {
        match self.desk.attach(event, trigger) {
            Ok(done) => {
                *id = done.value;
                accept(&mut self.refused)
            }
            Err(why) => refuse(&mut self.refused, why),
        }
    }

    /// Gives a trigger the filter of a text, or none. Refused as `Desk::refilter` is.
    #[tactic(auto, unfolding(crate::specs::Calls::Edits))]
    pub fn refilter(&mut self, id: u32, filter: Option<&[u8]>) -> u32
        ensures { Edits (after_refilter_text self.old.desk.base id (option_copied filter.entry))
            self.old id result id self.new }
    {
        match self.desk.refilter(id, filter) {
            Ok(_) => accept(&mut self.refused),
            Err(why) => refuse(&mut self.refused, why),
        }
    }

    /// Takes a trigger away. Refused as `Desk::remove` is.
    #[tactic(auto, unfolding(crate::specs::Calls::Edits, crate::specs::Calls::EditsInPlace))]
    pub fn remove(&mut self, id: u32) -> u32
        ensures { EditsInPlace (after_remove self.old.desk.base id)
            self.old id result id self.new }
    {
        match self.desk.remove(id) {
            Ok(_) => accept(&mut self.refused),
            Err(why) => refuse(&mut self.refused, why),
        }
    }

    /// Adds the event of a trace line: its place. Refused as `Desk::insert` is.
    #[tactic(auto, unfolding(crate::specs::Calls::EditsEvent, crate::specs::Calls::Inserts))]
    pub fn insert(&mut self, line: &[u8], at: &mut LineLayout) -> u32
        ensures { Inserts (after_insert_text self.old.desk.base line.now)
            self.old at.old result at.new self.new }
    {
        match self.desk.insert(line) {
            Ok(done) => {
                *at = LineLayout::of(done.value.place);
                self.edited = Some(done.value);
                accept(&mut self.refused)
            }
            Err(why) => refuse(&mut self.refused, why),
        }
    }

    /// Takes the event of a CPU's line away. Refused as `Desk::strike` is.
    #[tactic(auto, unfolding(crate::specs::Calls::EditsEvent, crate::specs::Calls::Strikes))]
    pub fn strike(&mut self, cpu: u32, line: u32) -> u32
        ensures { Strikes (after_strike self.old.desk.base cpu line)
            self.old result self.new }
    {
        match self.desk.strike(cpu, line) {
            Ok(done) => {
                self.edited = Some(done.value);
                accept(&mut self.refused)
            }
            Err(why) => refuse(&mut self.refused, why),
        }
    }

    /// What a trigger has counted. Refused as `Desk::totals` is.
    #[tactic(auto, unfolding(crate::specs::Calls::AnswersTotals))]
    pub fn totals(&mut self, id: u32, counted: &mut TotalsLayout) -> u32
        ensures { AnswersTotals (totals self.old.desk.base id)
            self.old counted.old result counted.new self.new }
    {
        match self.desk.totals(id) {
            Ok(totals) => {
                *counted = TotalsLayout::of(&totals);
                accept(&mut self.refused)
            }
            Err(why) => refuse(&mut self.refused, why),
        }
    }

    /// Asks for the text of a trigger's table: its length in bytes. Refused as `Desk::hist` is.
    #[tactic(auto, unfolding(crate::specs::Calls::AnswersText))]
    pub fn hist(&mut self, id: u32, length: &mut u64) -> u32
        ensures { AnswersText (hist_text self.old.desk.base id)
            self.old length.old result length.new self.new }
    {
        let answer = self.desk.hist(id);
        hold(answer, &mut self.text, length, &mut self.refused)
    }

    /// Asks for the rows of a trigger's table: how many they are. Refused as `Desk::rows` is.
    #[tactic(auto, unfolding(crate::specs::Calls::AnswersRows))]
    pub fn rows(&mut self, id: u32, count: &mut u64) -> u32
        ensures { AnswersRows (rows_shown self.old.desk.base id)
            self.old count.old result count.new self.new }
    {
        let answer = self.desk.rows(id);
        hold(answer, &mut self.rows, count, &mut self.refused)
    }

    /// Asks for what the readings of a trigger found: how many they are. Refused as `Desk::pairs` is.
    #[tactic(auto, unfolding(crate::specs::Calls::AnswersPairs))]
    pub fn latencies(&mut self, id: u32, count: &mut u64) -> u32
        ensures { AnswersPairs (pairs_shown self.old.desk.base id)
            self.old count.old result count.new self.new }
    {
        let answer = self.desk.pairs(id);
        hold(answer, &mut self.pairs, count, &mut self.refused)
    }

    /// Asks for the text of a CPU's lane: its length in bytes. Refused as `Desk::list` is.
    #[tactic(auto, unfolding(crate::specs::Calls::ReadsText))]
    pub fn list(&mut self, cpu: u32, length: &mut u64) -> u32
        ensures { ReadsText (list_text self.old.desk.base cpu)
            self.old length.old result length.new self.new }
    {
        let answer = self.desk.list(cpu);
        hold(answer, &mut self.text, length, &mut self.refused)
    }

    /// Asks for the canonical text of a trigger: its length in bytes. Refused as `Desk::trigger_text`
    /// is.
    #[tactic(auto, unfolding(crate::specs::Calls::ReadsText))]
    pub fn trigger_text(&mut self, id: u32, length: &mut u64) -> u32
        ensures { ReadsText (trigger_text self.old.desk.base id)
            self.old length.old result length.new self.new }
    {
        let answer = self.desk.trigger_text(id);
        hold(answer, &mut self.text, length, &mut self.refused)
    }

    /// Asks for the places of all held events: how many they are. Refused as `Desk::events` is.
    #[tactic(auto, unfolding(crate::specs::Calls::ReadsPlaces))]
    pub fn events(&mut self, count: &mut u64) -> u32
        ensures { ReadsPlaces (Ok (places self.old.desk.base.lanes))
            self.old count.old result count.new self.new }
    {
        let answer = self.desk.events();
        hold(answer, &mut self.places, count, &mut self.refused)
    }

    /// Asks for the places of a CPU's events from a line on: how many they are. Refused as `Desk::lane`
    /// is.
    #[tactic(auto, unfolding(crate::specs::Calls::ReadsPlaces))]
    pub fn lane(&mut self, cpu: u32, line: u32, count: &mut u64) -> u32
        ensures { ReadsPlaces (lane_found self.old.desk.base cpu line)
            self.old count.old result count.new self.new }
    {
        let answer = self.desk.lane(cpu, line);
        hold(answer, &mut self.places, count, &mut self.refused)
    }

    /// Asks for the places of the events of a name on which a filter holds: how many they are. Refused
    /// as `Desk::matching` is.
    #[tactic(auto, unfolding(crate::specs::Calls::ReadsPlaces))]
    pub fn matching(&mut self, event: Name, filter: &[u8], count: &mut u64) -> u32
        ensures { ReadsPlaces (matching_found self.old.desk.base event filter.now)
            self.old count.old result count.new self.new }
    {
        let answer = self.desk.matching(event, filter);
        hold(answer, &mut self.places, count, &mut self.refused)
    }

    /// Asks for the attached triggers: how many they are. Refused for memory.
    #[tactic(auto, unfolding(crate::specs::Calls::ReadsTriggers))]
    pub fn triggers(&mut self, count: &mut u64) -> u32
        ensures { ReadsTriggers (Ok (attached_in self.old.desk.base.triggers))
            self.old count.old result count.new self.new }
    {
        let answer = self.desk.attached_triggers();
        hold(answer, &mut self.attached, count, &mut self.refused)
    }

    /// The event of a CPU's line. Refused as `Desk::event` is.
    #[tactic(auto, unfolding(crate::specs::Calls::ReadsEvent))]
    pub fn event(&mut self, cpu: u32, line: u32, event: &mut EventLayout) -> u32
        ensures { ReadsEvent line (event_found self.old.desk.base cpu line)
            self.old event.old result event.new self.new }
    {
        match self.desk.event(cpu, line) {
            Ok(found) => {
                let pos = Pos {
                    stamp: found.stamp,
                    cpu: found.cpu,
                    line,
                };
                *event = EventLayout::of(&pos, Some(found));
                accept(&mut self.refused)
            }
            Err(why) => refuse(&mut self.refused, why),
        }
    }

    /// Asks for the waits of all held events: how many they are. Refused only for memory, which the stream of
    /// waits tells.
    #[tactic(auto, unfolding(crate::specs::Calls::HoldsWaits))]
    pub fn held_waits(&mut self, count: &mut u64) -> u32
        ensures { HoldsWaits self.old count.old result count.new self.new }
    {
        self.waits.hold(self.desk.lanes(), count)
    }

    /// How many rows the last accepted insert or strike may have changed, if that is reported.
    pub fn report(&self) -> ReportLayout
        ensures { result ≡ report_layout (rows_told self.now.edited) (made_told self.now.edited) }
    {
        match &self.edited {
            Some(edited) => ReportLayout::of(as_rows(&edited.report), as_rows(&edited.made)),
            None => ReportLayout::of(None, None),
        }
    }

    /// The rows of triggers that count held events that the last accepted insert or strike may have
    /// changed; none if that isn't reported.
    pub fn rows_changed(&self) -> &[Changed]
        ensures { result.now ≡ unwrap_or (rows_told self.now.edited) [] }
    {
        match &self.edited {
            Some(edited) => rows_or_empty(&edited.report),
            None => &[],
        }
    }

    /// The rows of triggers that count made events that the last accepted insert or strike may have
    /// changed; none if that isn't reported.
    pub fn made_changed(&self) -> &[Changed]
        ensures { result.now ≡ unwrap_or (made_told self.now.edited) [] }
    {
        match &self.edited {
            Some(edited) => rows_or_empty(&edited.made),
            None => &[],
        }
    }

    /// Whether the kept tables lack an edit.
    pub fn is_deferred(&self) -> bool
        ensures { result ≡ self.now.desk.deferred }
    {
        self.desk.is_deferred()
    }

    /// Forgets what was asked for, and what the last insert or strike told: their memory is given
    /// back. The stream of waits stays.
    #[tactic(auto, unfolding(crate::specs::Calls::Forgets))]
    pub fn forget(&mut self)
        ensures { Forgets self.old self.new }
    {
        self.text = Vec::new(self.alloc);
        self.rows = Vec::new(self.alloc);
        self.pairs = Vec::new(self.alloc);
        self.places = Vec::new(self.alloc);
        self.attached = Vec::new(self.alloc);
        self.lines = Vec::new(self.alloc);
        self.losses = no_losses(self.alloc);
        self.edited = None;
    }
}
