//! A trigger that joins: each key's part of what is kept of it is made as a whole, from the events of
//! that key.

ghost use Rattle.std.specs.Prelude.{◌≡◌, ◌++◌, ◌∷◌, [], List, Option, None, OnOk, IfOk};
ghost use Rattle.std.specs.List.{list_any};
ghost use Rattle.std.specs.Option.{option_copied};
ghost use Rattle.std.specs.FinMap as map;
ghost use Rattle.ft_groups.specs.Grouped.{run_of};
ghost use Rattle.ft_fields.specs.declared.key.Part.{Part};
ghost use Rattle.ft_fields.specs.declared.pos.Pos.{Pos};
ghost use Rattle.ft_pairs.specs.ByKey.{ops_of};
ghost use Rattle.ft_pairs.specs.declared.at.At.{At};
ghost use Rattle.ft_store.specs.Stored.{held};
ghost use Rattle.ft_table.specs.Values.{values_at};
ghost use Rattle.ft_shelves.specs.Joining.{AreGroupsOf, HasGroups, HasSaves, unread};
ghost use Rattle.ft_shelves.specs.inner.Joining.{AreReadAt, ReadingsJoin, hits_of_run, is_field, read_at, readings_of_run, reads_of_run, saves_of_run};
ghost use Rattle.ft_shelves.specs.Counts.{TestsNone};

use ft_fields::{Event, Pos};
use ft_groups::Groups;
use ft_hist::{Item, Key, Trigger, Triggers, Work};
use ft_pairs::{At, Op, Pairs};
use ft_store::Stored;
use ft_table::{Spot, Table, own_value};
use std::alloc::{AllocError, Global};

/// A trigger that joins others, and the events that it counts, grouped by key.
#[derive(Clone, Copy)]
pub struct Joining<'a, 'e> {
    /// What memory comes from.
    pub alloc: Global,
    /// The attached triggers, it among them.
    pub triggers: &'a Triggers,
    /// The trigger.
    pub trigger: &'a Trigger,
    /// Its id.
    pub id: u32,
    /// The events that it counts, by key.
    pub groups: &'a Groups<'e>,
}

/// Puts the hits of all groups of a trigger that reads nothing into a table that has none. Refused
/// for memory.
pub(crate) fn put_groups(
    table: &mut Table,
    joining: &Joining<'_, '_>,
    work: &mut Work,
) -> Result<(), AllocError>
    requires empty { table.old.hits ≡ map.empty }
    requires grouped { AreGroupsOf joining.now.trigger.now joining.now.groups.now }
    ensures ok { OnOk result (HasGroups joining.now.trigger.now joining.now.groups.now unread
        table.old table.new) }
    ensures work { TestsNone work.old work.new }
{
    let mut none = Vec::new(joining.alloc);
    for key in joining.groups.keys() {
        let run = hits_of(joining, key, None, &mut none)?;
        table.put_key(*key, run, work)?;
    }
    Ok(())
}

/// Puts a save at each event of the groups whose keys are in a table. There are no operations yet.
/// Refused for memory.
pub(crate) fn save_groups(
    pairs: &mut Pairs,
    table: &Table,
    joining: &Joining<'_, '_>,
    work: &mut Work,
) -> Result<(), AllocError>
    requires free { (key : List Part) (at : At) → ops_of pairs.old key at ≡ None }
    requires grouped { AreGroupsOf joining.now.trigger.now joining.now.groups.now }
    ensures ok { OnOk result (HasSaves joining.now.id joining.now.groups.now table.now pairs.new) }
    ensures work { TestsNone work.old work.new }
{
    for key in joining.groups.keys() {
        if table.is_in(key) {
            let run = saves_of(joining, key)?;
            pairs.put_key(*key, run, work)?;
        }
    }
    Ok(())
}

/// Puts the reads of all groups of a reader among operations, and the hits of those that find
/// something into a table that has none. Returns what they found: the place of the saving by that
/// of the reading. Refused for memory.
pub(crate) fn read_groups(
    pairs: &mut Pairs,
    table: &mut Table,
    joining: &Joining<'_, '_>,
    work: &mut Work,
) -> Result<Vec<(Pos, Pos)>, AllocError>
    requires empty { table.old.hits ≡ map.empty }
    requires grouped { AreGroupsOf joining.now.trigger.now joining.now.groups.now }
    ensures ok { IfOk result (λ readings. ReadingsJoin joining.now.id joining.now.trigger.now
        joining.now.groups.now pairs.old pairs.new table.old table.new readings.items) }
    ensures work { TestsNone work.old work.new }
{
    let mut readings = Vec::new(joining.alloc);
    for key in joining.groups.keys() {
        // First all reads of the key, so that each finds what it will find.
        let reads = reads_of(joining, key)?;
        let found = pairs.put_reads(*key, &reads, work)?;
        let run = hits_of(joining, key, Some(&found), &mut readings)?;
        table.put_key(*key, run, work)?;
    }
    Ok(readings)
}

/// The hits of a key's events, by what their readings found, if they read: an event whose reading
/// found nothing is no hit. What was found is added to the readings. Refused for memory.
fn hits_of(
    joining: &Joining<'_, '_>,
    key: &Key,
    found: Option<&[Option<At>]>,
    readings: &mut Vec<(Pos, Pos)>,
) -> Result<Vec<(Spot, [i64; 3])>, AllocError>
    requires { AreGroupsOf joining.now.trigger.now joining.now.groups.now }
    ensures hits { (read : Pos → Option (Option Pos))
        → AreReadAt (option_copied found.entry) read (run_of joining.now.groups.now key.now)
        → IfOk result (λ hits. hits.items
        ≡ hits_of_run joining.now.trigger.now read (run_of joining.now.groups.now key.now)) }
    ensures readings { (read : Pos → Option (Option Pos))
        → AreReadAt (option_copied found.entry) read (run_of joining.now.groups.now key.now)
        → OnOk result (readings.new.items ≡ readings.old.items
        ++ readings_of_run read (run_of joining.now.groups.now key.now)) }
{
    let run = joining.groups.run(key);
    let mut hits = Vec::with_capacity(joining.alloc, run.len())?;
    for (i, event) in run.iter().enumerate() {
        let read = read_at(found, i);
        add_hit(joining.trigger, event, read, &mut hits, readings)?;
    }
    Ok(hits)
}

/// What the event at an index of a run read, if it is a hit: nothing if nothing reads, else what its
/// reading found.
fn read_at(found: Option<&[Option<At>]>, i: usize) -> Option<Option<Pos>>
    ensures { result ≡ read_at (option_copied found.entry) i }
{
    let Some(found) = found else {
        return Some(None);
    };
    match found.get(i) {
        Some(Some(saved)) => Some(Some(saved.pos)),
        Some(None) | None => None,
    }
}

/// Adds the hit of an event, if it is one, by what it read, and what its reading found. Refused for
/// memory.
fn add_hit(
    trigger: &Trigger,
    event: &(Pos, Stored<'_>),
    read: Option<Option<Pos>>,
    hits: &mut Vec<(Spot, [i64; 3])>,
    readings: &mut Vec<(Pos, Pos)>,
) -> Result<(), AllocError>
    requires { (held event.now.1).stamp ≡ event.now.0.stamp }
    ensures hits { OnOk result (hits.new.items ≡ hits.old.items
        ++ hits_of_run trigger.now (λ _. read) ((event.now.0, held event.now.1) ∷ [])) }
    ensures readings { OnOk result (readings.new.items ≡ readings.old.items
        ++ readings_of_run (λ _. read) ((event.now.0, held event.now.1) ∷ [])) }
{
    let Some(read) = read else {
        return Ok(());
    };
    hits.push((Spot::traced(event.0), sums_at(trigger, event, read)))?;
    let Some(saved) = read else {
        return Ok(());
    };
    readings.push((event.0, saved))?;
    Ok(())
}

/// What a trigger's hit at an event adds to its sums, by what it read. The event's stamp is that of
/// its place, so the event is looked at only if the trigger sums a field of it.
fn sums_at(trigger: &Trigger, event: &(Pos, Stored<'_>), read: Option<Pos>) -> [i64; 3]
    requires { (held event.now.1).stamp ≡ event.now.0.stamp }
    ensures { result ≡ values_at trigger.now event.now.0 (held event.now.1) read }
{
    if trigger.values().is_empty() {
        return [0, 0, 0];
    }
    let (pos, stored) = *event;
    // A law, by which the stamp of its place is at most an event's.
    stored.stamp_fits();
    let own = own_value(pos.stamp, read);
    if sums_field(trigger.values()) {
        return trigger.values_of(&stored.bare(), own);
    }
    trigger.values_of(&Event::blank(), own)
}

/// Whether one of these value items is a field of events.
fn sums_field(items: &[Item]) -> bool
    ensures { result ≡ list_any is_field items.now }
{
    items.iter().any(|item| matches!(item, Item::Num(_)))
}

/// The saves of a key's events. Refused for memory.
fn saves_of(joining: &Joining<'_, '_>, key: &Key) -> Result<Vec<(At, Op)>, AllocError>
    ensures { IfOk result (λ saves. saves.items
        ≡ saves_of_run joining.now.id (run_of joining.now.groups.now key.now)) }
{
    let run = joining.groups.run(key);
    run.iter()
        .map(|event| (at_of(joining.id, event.0), Op::Save))
        .collect(joining.alloc)
}

/// The reads of a key's events. Refused for memory.
fn reads_of(joining: &Joining<'_, '_>, key: &Key) -> Result<Vec<At>, AllocError>
    ensures { IfOk result (λ reads. reads.items
        ≡ reads_of_run joining.now.id (run_of joining.now.groups.now key.now)) }
{
    let run = joining.groups.run(key);
    run.iter()
        .map(|event| at_of(joining.id, event.0))
        .collect(joining.alloc)
}

/// Where a trigger acts at an event's place.
fn at_of(trigger: u32, pos: Pos) -> At
    ensures { result ≡ record { pos = pos; trigger = trigger } }
{
    At { pos, trigger }
}
