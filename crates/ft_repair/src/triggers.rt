//! Tables that a trigger joins or leaves, while the others' stay as they are; or that all triggers
//! join anew.

ghost use Rattle.std.specs.Prelude.{◌≡◌, ◌+◌, ◌≤◌, None, IfOk, IfSome, Ok, OnOk, length};
ghost use Rattle.std.specs.FinMap as map;
ghost use Rattle.ft_hist.specs.Steps.{StepsGrow};
ghost use Rattle.ft_maps.specs.Mapped.{entries_by};
ghost use Rattle.ft_store.specs.Stored.{held};
ghost use Rattle.ft_base.specs.OneTrigger.{IsUnread, ReadsNothing, is_in_family};
ghost use Rattle.ft_replay.specs.Costs.{family_tests};
ghost use Rattle.ft_repair.specs.ButOneTrigger.{AreKeptBut, AwaitFilter, OtherShelvesStay};
ghost use Rattle.ft_repair.specs.KeptShelves.{AreKeptOf};
ghost use Rattle.ft_repair.specs.Outside.{AreKeptOutside, AreRenewed};
ghost use Rattle.ft_repair.specs.Repaired.{IfBoth};
ghost use Rattle.ft_repair.specs.inner.Joining.{CanJoinWith, CanLeave, CanMove, HasItsActs, HaveMoved, family_of, is_meant};

use crate::events::scene_of;
use ft_base::{Content, is_reader, role_of};
use ft_fields::Pos;
use ft_groups::grouped;
use ft_hist::{Trigger, Triggers, Work};
use ft_kept::{Attached, Changes, Delta, Joining, Scene, Sign, Tables};
use ft_pairs::Role;
use ft_replay::{Names, events_with, merged_events};
use ft_store::Stored;
use std::alloc::{AllocError, Global};

/// A trigger that is attached joins the tables, with those that read what it saves: each of them
/// gets a new shelf, and the events on its name. If memory runs out, the tables are given up.
pub fn join(kept: &mut Option<Tables>, content: &Content, id: u32, work: &mut Work)
    requires { IfSome kept.old (AreKeptOutside (is_in_family content.now.triggers id)
        content.now.triggers content.now.lanes) }
    ensures kept { IfSome kept.new (AreKeptOf content.now) }
    ensures deferred { kept.old ≡ None → kept.new ≡ None }
    ensures evals { work.new.evals
        ≤ work.old.evals + family_tests content.now.triggers content.now.lanes id }
    ensures grow { StepsGrow work.old work.new }
{
    let Some(mut tables) = kept.take() else {
        return;
    };
    if let Ok(()) = join_family(&mut tables, content, id, work) {
        *kept = Some(tables);
    }
}

/// Gives a trigger and those that read what it saves new shelves, and the events on their names, one
/// trigger after the other. Refused for memory, and then the tables are of no use any more.
fn join_family(
    tables: &mut Tables,
    content: &Content,
    head: u32,
    work: &mut Work,
) -> Result<(), AllocError>
    requires { AreKeptOutside (is_in_family content.now.triggers head)
        content.now.triggers content.now.lanes tables.old }
    ensures kept { OnOk result (AreKeptOf content.now tables.new) }
    ensures evals { work.new.evals
        ≤ work.old.evals + family_tests content.now.triggers content.now.lanes head }
    ensures grow { StepsGrow work.old work.new }
{
    let scene = scene_of(content);
    renew_shelves(tables, scene.triggers, Some(head))?;
    for (id, trigger) in scene.triggers.iter() {
        let id = *id;
        if is_kin(Some(head), id, role_of(scene.triggers, trigger.variable())) {
            let member = Member { scene, id, trigger };
            let events = events_with(tables.alloc(), scene.lanes, Names::only(trigger.event()))?;
            member.put_events(tables, &events, work)?;
        }
    }
    Ok(())
}

/// What is kept of all attached triggers, from all held events. Refused for memory.
pub fn rebuilt(alloc: Global, content: &Content, work: &mut Work) -> Result<Tables, AllocError>
    ensures kept { IfOk result (AreKeptOf content.now) }
    ensures grow { StepsGrow work.old work.new }
{
    let scene = scene_of(content);
    let events = merged_events(alloc, scene.lanes, scene.triggers)?;
    let mut tables = Tables::new(alloc);
    renew_shelves(&mut tables, scene.triggers, None)?;
    for (id, trigger) in scene.triggers.iter() {
        let id = *id;
        let member = Member { scene, id, trigger };
        member.put_events(&mut tables, &events, work)?;
    }
    Ok(tables)
}

/// Whether a trigger with a role is the one with the first id, or reads what that one saves. Without
/// that id, any is meant.
fn is_kin(head: Option<u32>, other: u32, role: Role) -> bool
    ensures { result ≡ is_meant head other role }
{
    let Some(id) = head else {
        return true;
    };
    match role {
        Role::Plain | Role::Saves => other == id,
        Role::Reads(saver) => other == id || saver == id,
    }
}

/// Gives a trigger and those that read what it saves, or all triggers, shelves without hits, in place
/// of theirs. Refused for memory.
fn renew_shelves(
    tables: &mut Tables,
    triggers: &Triggers,
    head: Option<u32>,
) -> Result<(), AllocError>
    ensures { OnOk result (AreRenewed triggers.now (family_of triggers.now head)
        tables.old tables.new) }
{
    for (id, trigger) in triggers.iter() {
        let role = role_of(triggers, trigger.variable());
        if is_kin(head, *id, role) {
            tables.add(*id, role, trigger.size())?;
        }
    }
    Ok(())
}

/// An attached trigger, and where its events and the other triggers are looked up.
#[derive(Clone, Copy)]
struct Member<'a> {
    scene: Scene<'a>,
    id: u32,
    trigger: &'a Trigger,
}

impl Member<'_> {
    /// The events of a list that the trigger counts come to it or go from it, one by one. Refused
    /// for memory, and then the tables are of no use any more.
    fn move_acts(
        &self,
        tables: &mut Tables,
        sign: Sign,
        events: &[(Pos, Stored<'_>)],
        work: &mut Work,
    ) -> Result<(), AllocError>
        requires { CanMove self.now sign (entries_by held events.now) tables.old }
        ensures moved { OnOk result (HaveMoved self.now sign tables.old tables.new) }
        ensures evals { work.new.evals ≤ work.old.evals + length events.now }
        ensures grow { StepsGrow work.old work.new }
    {
        let Member { scene, id, trigger } = *self;
        let attached = Attached { id, trigger };
        for &(pos, stored) in events {
            let event = &stored.event();
            let delta = Delta { sign, pos, event };
            tables.apply_to(&scene, &attached, &delta, &mut Changes::unasked(), work)?;
        }
        Ok(())
    }

    /// The events of a list that the trigger counts come to it: at once if nothing is kept of it
    /// yet, else one by one. Refused for memory, and then the tables are of no use any more.
    fn put_events(
        &self,
        tables: &mut Tables,
        events: &[(Pos, Stored<'_>)],
        work: &mut Work,
    ) -> Result<(), AllocError>
        requires { CanJoinWith self.now (entries_by held events.now) tables.old }
        ensures joined { OnOk result (HasItsActs self.now tables.old tables.new) }
        ensures evals { work.new.evals ≤ work.old.evals + length events.now }
        ensures grow { StepsGrow work.old work.new }
    {
        let Member { scene, id, trigger } = *self;
        if tables.is_bare(id) {
            let alloc = tables.alloc();
            let groups = grouped(alloc, trigger, events, work)?;
            let joining = Joining {
                alloc,
                triggers: scene.triggers,
                trigger,
                id,
                groups: &groups,
            };
            return tables.join(&joining, work);
        }
        self.move_acts(tables, Sign::Insert, events, work)
    }
}

/// A trigger that is still attached, and that no other reads, leaves the tables. If memory runs
/// out, the tables are given up; one that reads nothing takes none.
pub fn leave(kept: &mut Option<Tables>, content: &Content, id: u32, work: &mut Work)
    requires unread { IsUnread content.now.triggers id }
    requires kept { IfSome kept.old (AreKeptOf content.now) }
    ensures kept { IfSome kept.new (AreKeptBut id content.now) }
    ensures deferred { kept.old ≡ None → kept.new ≡ None }
    ensures others { ReadsNothing content.now.triggers id
        → IfBoth (OtherShelvesStay id) kept.old kept.new }
    ensures now { ReadsNothing content.now.triggers id → kept.new ≡ None → kept.old ≡ None }
    ensures none { ReadsNothing content.now.triggers id → work.new ≡ work.old }
    ensures grow { StepsGrow work.old work.new }
{
    let Some(mut tables) = kept.take() else {
        return;
    };
    if let Err(_) = take_reads(&mut tables, content, id, work) {
        return;
    }
    tables.drop_shelf(id);
    *kept = Some(tables);
}

/// If the trigger with an id is a reader, the events on its name go from it, since what it read
/// stands among the operations of its saver: the last in merged order first, so that the first hit
/// of a key moves only as the key goes. Refused for memory, and then the tables are of no use any
/// more; one that reads nothing takes none.
fn take_reads(
    tables: &mut Tables,
    content: &Content,
    id: u32,
    work: &mut Work,
) -> Result<(), AllocError>
    requires { AreKeptOf content.now tables.old }
    ensures leaves { OnOk result (CanLeave id content.now tables.new) }
    ensures nothing { ReadsNothing content.now.triggers id
        → (result ≡ Ok tt) × ((tables.new ≡ tables.old) × (work.new ≡ work.old)) }
    ensures grow { StepsGrow work.old work.new }
{
    let scene = scene_of(content);
    let Some(trigger) = scene.triggers.get(id) else {
        return Ok(());
    };
    if !is_reader(trigger) {
        return Ok(());
    }
    let mut events = events_with(tables.alloc(), scene.lanes, Names::only(trigger.event()))?;
    events.reverse();
    let reader = Member { scene, id, trigger };
    reader.move_acts(tables, Sign::Retract, &events, work)
}

/// What a trigger read goes from the tables, since with a new filter it is no longer known what
/// that was. Nothing else of it needs to go first: it joins again with its readers.
pub fn make_way(kept: &mut Option<Tables>, content: &Content, id: u32, work: &mut Work)
    requires { IfSome kept.old (AreKeptOf content.now) }
    ensures waits { IfSome kept.new (AwaitFilter id content.now) }
    ensures missing { map.get content.now.triggers id ≡ None
        → (kept.new ≡ kept.old) × (work.new ≡ work.old) }
    ensures deferred { kept.old ≡ None → kept.new ≡ None }
    ensures none { ReadsNothing content.now.triggers id → work.new ≡ work.old }
    ensures grow { StepsGrow work.old work.new }
{
    let Some(mut tables) = kept.take() else {
        return;
    };
    if let Ok(()) = take_reads(&mut tables, content, id, work) {
        *kept = Some(tables);
    }
}
