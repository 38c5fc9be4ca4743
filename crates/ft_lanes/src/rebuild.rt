//! Lanes copied after another store.

ghost use Rattle.std.specs.Prelude.{◌≡◌, ◌++◌, length, OnOk, IfOk};
ghost use Rattle.std.specs.Ordering.{nat_cmp};
ghost use Rattle.std.specs.Map.{keys_of, values_of};
ghost use Rattle.std.specs.FinMap as map;
ghost use Rattle.ft_maps.specs.Seen.{seen};
ghost use Rattle.ft_lanes.specs.inner.Rows.{held_rows};
ghost use Rattle.ft_lanes.specs.inner.Slots.{placed_from, slots_from};

use crate::slots::Slots;
use crate::store::end_of;
use crate::walk::Lane;
use ft_maps::put;
use ft_store::Store;
use std::alloc::{AllocError, Global};
use std::collections::BTreeMap;

/// Adds the events of a lane after a store, by line, and returns their lines with their places
/// there. After a refusal for memory, some may be there.
#[tactic(auto, using(crate::proofs::RowLines::held_more))]
fn append_lane(
    alloc: Global,
    store: &mut Store,
    lane: &Lane<'_>,
) -> Result<Vec<(u32, u32)>, AllocError>
    ensures store { OnOk result
        (store.new ≡ store.old ++ values_of (map.entries lane.now.events)) }
    ensures lines { IfOk result (λ lines. lines.items
        ≡ placed_from (length store.old) (keys_of (map.entries lane.now.events))) }
    ensures held { IfOk result (λ lines. held_rows lines.items ≡ lines.items) }
{
    let mut lines = Vec::new(alloc);
    for (line, stored) in lane.lines() {
        let place = end_of(store)?;
        store.push_from(&stored)?;
        lines.push((line, place))?;
    }
    Ok(lines)
}

/// Adds the events of a lane after a store, and its slots there, as those of the CPU. After a
/// refusal for memory, some of it may be done.
pub(crate) fn copy_lane(
    alloc: Global,
    store: &mut Store,
    lanes: &mut BTreeMap<u16, Slots>,
    cpu: u16,
    lane: &Lane<'_>,
) -> Result<(), AllocError>
    ensures store { OnOk result
        (store.new ≡ store.old ++ values_of (map.entries lane.now.events)) }
    ensures lanes { OnOk result (seen nat_cmp lanes.new
        ≡ map.insert (seen nat_cmp lanes.old) cpu (slots_from (length store.old) lane.now)) }
{
    let lines = append_lane(alloc, store, lane)?;
    let slots = Slots::of(lines, lane.next());
    put(lanes, cpu, slots)
}
