//! What a desk holds and what is attached to it, however a board keeps its tables.

ghost use Rattle.std.specs.Prelude.{ℕ, ◌≡◌, ◌≢◌, ◌≤◌, None, Some, Ok, Err};
ghost use Rattle.std.specs.Prelude.{IfOk, IfSome, OnOk, OnErr, IsSome};
ghost use Rattle.std.specs.Prelude.{option_map};
ghost use Rattle.std.specs.Option.{ForSome};
ghost use Rattle.std.specs.FinMap as map;
ghost use Rattle.ft_fields.specs.Traced.{last_cpu};
ghost use Rattle.ft_hist.specs.Hist.{Hist};
ghost use Rattle.ft_lanes.specs.Edits.{lanes_without};
ghost use Rattle.ft_lanes.specs.Held.{Lane, event_at, held_on, is_small};
ghost use Rattle.ft_base.specs.declared.refused.Refused.TheVariants.{Memory};
ghost use Rattle.ft_base.specs.After.{after_load, after_unload, after_insert};
ghost use Rattle.ft_base.specs.After.{after_attach, after_refilter};
ghost use Rattle.ft_base.specs.Answers.{AnswerIs, list_text, trigger_text, attached_in};
ghost use Rattle.ft_base.specs.Base.{empty_base};
ghost use Rattle.ft_base.specs.Edited.{BaseGives, FindsToUnload, FindsToStrike, FindsToRemove};
ghost use Rattle.ft_base.specs.OneTrigger.{IsUnread, JoinsAs, GetsFilter, base_without};
ghost use Rattle.ft_base.specs.Reachable.{IsReachable};

use crate::attach::variable_refusal;
use crate::listed::{AttachedTrigger, attached_in};
use crate::refused::{Place, Refused};
use crate::roles::{find_trigger, reader_on};
use ft_event::{Event, Name};
use ft_filter::Filter;
use ft_hist::{Trigger, Triggers};
use ft_lanes::Lanes;
use ft_store::Store;
use std::alloc::{AllocError, Global};
use std::marker::Model;

/// The last CPU that an event can have.
const CPU_LIMIT: u32 = Event::LAST_CPU;

/// The most events that are held.
const EVENT_LIMIT: u64 = 1_048_576;

/// The greatest line number of a lane.
const LINE_LIMIT: u64 = 4_294_967_295;

/// The most triggers that are attached.
const TRIGGER_LIMIT: usize = 64;

/// The greatest id of a trigger.
const ID_LIMIT: u64 = 4_294_967_295;

/// Lanes of events, attached triggers, and the next id.
///
/// Contracts see the base. A refused edit changes nothing, and drops its arguments.
#[derive(Drop)]
pub struct Content {
    lanes: Lanes,
    triggers: Triggers,
    next_id: u64,
}

impl Model for Content {
    ghost use Rattle.ft_base.specs.Base.{Base};
    ghost use Rattle.ft_base.specs.Codes.{base_code};
    ghost use Rattle.ft_base.specs.Reachable.{IsReachable};

    ghost Value = { Base };

    ghost coded = { base_code };

    ghost view = { λ b. record {
      lanes = b.lanes;
      triggers = b.triggers;
      next_id = b.next_id;
    } };

    ghost invariant = { λ b. IsReachable (record {
      lanes = b.lanes;
      triggers = b.triggers;
      next_id = b.next_id;
    }) };
}

impl Content {
    /// Nothing held, and no trigger. It takes no memory.
    pub fn new(alloc: Global) -> Content
        ensures { result ≡ empty_base }
    {
        Content {
            lanes: Lanes::new(alloc),
            triggers: Triggers::new(alloc),
            next_id: 1,
        }
    }

    /// The lanes.
    pub fn lanes(&self) -> &Lanes
        ensures lanes { result.now ≡ self.now.lanes }
        // What all edits keep.
        ensures reachable { IsReachable self.now }
    {
        &self.lanes
    }

    /// The attached triggers by id.
    pub fn triggers(&self) -> &Triggers
        ensures { result.now ≡ self.now.triggers }
    {
        &self.triggers
    }

    /// Loads events in file order, into a lane for each of their CPUs. Returns how many were
    /// loaded.
    pub fn load(&mut self, events: Store) -> Result<u64, Refused>
        ensures { BaseGives (after_load self.old events) self.old self.new result }
    {
        if let Some(cpu) = self.lanes.held_cpu(&events) {
            return Err(Refused::LaneHeld(u32::from(cpu)));
        }
        let count = events.len() as u64;
        if self.lanes.len().saturating_add(count) > EVENT_LIMIT {
            return Err(Refused::Full);
        }
        if self.lanes.load(events).is_err() {
            return Err(Refused::Memory);
        }
        Ok(count)
    }

    /// Removes the lane of a CPU. Returns how many events it had.
    pub fn unload(&mut self, cpu: u32) -> Result<u64, Refused>
        ensures gives { BaseGives (after_unload self.old cpu) self.old self.new result }
        ensures memory { result ≢ Err Memory }
    {
        let lane = self.lane_of(cpu)?;
        Ok(self.take_lane(lane))
    }

    /// The lane of a CPU, if it can be removed.
    pub fn lane_of(&self, cpu: u32) -> Result<u16, Refused>
        ensures gives { FindsToUnload self.now cpu result }
        ensures same { IfOk result (λ lane. lane ≡ cpu) }
        ensures memory { result ≢ Err Memory }
    {
        match held_lane(&self.lanes, cpu) {
            Some(lane) => Ok(lane),
            None => Err(Refused::NoLane(cpu)),
        }
    }

    /// Whether a CPU's lane has fewer events than all other lanes together.
    pub fn is_small(&self, lane: u16) -> bool
        ensures { result ≡ is_small self.now.lanes lane }
    {
        let count = self.lanes.held_on(lane);
        count < self.lanes.len().saturating_sub(count)
    }

    /// Removes the lane of a CPU, if there is one. Returns how many events it had.
    pub fn take_lane(&mut self, lane: u16) -> u64
        ensures value { result ≡ held_on self.old.lanes lane }
        ensures rest { self.new
            ≡ record self.old { lanes = map.remove self.old.lanes lane } }
    {
        self.lanes.take_lane(lane).unwrap_or(0)
    }

    /// Adds an event at the next line of its CPU's lane. Returns its place.
    pub fn insert(&mut self, event: Event) -> Result<Place, Refused>
        ensures gives { BaseGives (after_insert self.old event) self.old self.new result }
        ensures reachable { IsReachable self.old }
    {
        let cpu = event.cpu;
        if self.lanes.len() >= EVENT_LIMIT || self.lanes.next_line(cpu) > LINE_LIMIT {
            return Err(Refused::Full);
        }
        let Ok(line) = self.lanes.push(event) else {
            return Err(Refused::Memory);
        };
        Ok(Place { cpu, line })
    }

    /// The place of a CPU's line, if it can be struck.
    pub fn place_of(&self, cpu: u32, line: u32) -> Result<Place, Refused>
        ensures gives { FindsToStrike self.now cpu line result }
        ensures held { IfOk result (λ place.
            IsSome (event_at self.now.lanes place.cpu place.line)) }
        ensures memory { result ≢ Err Memory }
    {
        let Some(lane) = held_lane(&self.lanes, cpu) else {
            return Err(Refused::NoLane(cpu));
        };
        let Some(_) = self.lanes.get(lane, line) else {
            return Err(Refused::NoEvent);
        };
        Ok(Place { cpu: lane, line })
    }

    /// Removes the event at a place, if there is one.
    pub fn strike(&mut self, place: Place)
        ensures { self.new
            ≡ record self.old { lanes = lanes_without self.old.lanes place.cpu place.line } }
    {
        self.lanes.take(place.cpu, place.line);
    }

    /// Attaches a trigger. Returns its id.
    pub fn attach(&mut self, trigger: Trigger) -> Result<u32, Refused>
        ensures gives { BaseGives (after_attach self.old trigger) self.old self.new result }
        ensures joins { IfOk result (λ id. JoinsAs id trigger self.old self.new) }
    {
        if self.triggers.len() >= TRIGGER_LIMIT || self.next_id > ID_LIMIT {
            return Err(Refused::TooManyTriggers);
        }
        if let Some(refused) = variable_refusal(&self.triggers, &trigger) {
            return Err(refused);
        }
        let id = self.next_id as u32;
        if self.triggers.insert(id, trigger).is_err() {
            return Err(Refused::Memory);
        }
        self.next_id += 1;
        Ok(id)
    }

    /// Gives a trigger another filter, which is for the trigger's event, or none. Returns its id.
    pub fn refilter(&mut self, id: u32, filter: Option<Filter>) -> Result<u32, Refused>
        requires { (hist : Hist) → map.get self.old.triggers id ≡ Some hist
            → ForSome filter (λ f. f.event ≡ hist.event) }
        ensures gives { BaseGives (after_refilter self.old id (option_map (λ f. f.tree) filter))
            self.old self.new result }
        ensures filters { OnOk result (GetsFilter id self.old self.new) }
        ensures refused { OnErr result (map.get self.old.triggers id ≡ None) }
    {
        if !self.triggers.set_filter(id, filter) {
            return Err(Refused::NoTrigger);
        }
        Ok(id)
    }

    /// Whether a trigger can be removed. Refused if no trigger has the id, or if it saves what
    /// another one reads.
    pub fn removable(&self, id: u32) -> Result<(), Refused>
        ensures gives { FindsToRemove self.now id result }
        ensures unread { IfOk result (λ _. IsUnread self.now.triggers id) }
        ensures memory { result ≢ Err Memory }
    {
        let Some(trigger) = self.triggers.get(id) else {
            return Err(Refused::NoTrigger);
        };
        if let Some(reader) = reader_on(&self.triggers, trigger.variable()) {
            return Err(Refused::InUse(reader));
        }
        Ok(())
    }

    /// Removes a trigger that can be removed.
    pub fn remove(&mut self, id: u32)
        requires { FindsToRemove self.old id (Ok tt) }
        ensures { self.new ≡ base_without self.old id }
    {
        self.triggers.remove(id);
    }

    /// The event that the trigger with an id is on.
    pub fn name_of(&self, id: u32) -> Option<Name>
        ensures { result ≡ option_map (λ hist. hist.event) (map.get self.now.triggers id) }
    {
        self.triggers.get(id).map(|trigger| trigger.event())
    }

    /// The attached triggers, by id. Refused for memory.
    pub fn attached_triggers(&self, alloc: Global) -> Result<Vec<AttachedTrigger>, AllocError>
        ensures { IfOk result (λ attached.
            attached.items ≡ attached_in self.now.triggers) }
    {
        attached_in(alloc, &self.triggers)
    }

    /// The canonical text of the trigger with an id. Refused if no trigger has the id, or for
    /// memory.
    #[tactic(auto, unfolding(crate::specs::Answers::trigger_text))]
    pub fn trigger_text(&self, alloc: Global, id: u32) -> Result<Vec<u8>, Refused>
        ensures { AnswerIs (λ text. text.items) (trigger_text self.now id) result }
    {
        let trigger = find_trigger(&self.triggers, id)?;
        let mut text = Vec::new(alloc);
        trigger.write(&mut text)?;
        Ok(text)
    }

    /// The text of a CPU's lane.
    pub fn list(&self, alloc: Global, cpu: u32) -> Result<Vec<u8>, Refused>
        ensures { AnswerIs (λ text. text.items) (list_text self.now cpu) result }
    {
        let Some(lane) = held_lane(&self.lanes, cpu) else {
            return Err(Refused::NoLane(cpu));
        };
        match self.lanes.list(alloc, lane) {
            Ok(Some(text)) => Ok(text),
            // The lane is held, as was just found.
            Ok(None) => Err(Refused::NoLane(cpu)),
            Err(_) => Err(Refused::Memory),
        }
    }
}

/// A CPU as lanes name it, if its lane is held.
fn held_lane(lanes: &Lanes, cpu: u32) -> Option<u16>
    requires { (held : ℕ) (lane : Lane) → map.get lanes.now held ≡ Some lane → held ≤ last_cpu }
    ensures none { result ≡ None → map.get lanes.now cpu ≡ None }
    ensures same { IfSome result (λ lane. lane ≡ cpu) }
    ensures held { IfSome result (λ _. IsSome (map.get lanes.now cpu)) }
{
    if cpu > CPU_LIMIT {
        return None;
    }
    let lane = cpu as u16;
    match lanes.lane(lane) {
        Some(_) => Some(lane),
        None => None,
    }
}
