//! Copies of a part of an answer into a caller's room.

ghost use Rattle.std.specs.Prelude.{◌≡◌, ◌-◌, length, min, drop};
ghost use Rattle.ft_fields.specs.Traced.{Traced};
ghost use Rattle.ft_replay.specs.Merged.{held_at};
ghost use Rattle.ft_layout.specs.Copied.{copied};
ghost use Rattle.ft_layout.specs.Places.{place_layout, latency_layout};
ghost use Rattle.ft_layout.specs.Rows.{row_layout, changed_layout};
ghost use Rattle.ft_layout.specs.Events.{event_layout, event_in, trigger_layout};

use crate::events::{EventLayout, TriggerLayout};
use crate::places::{LatencyLayout, PlaceLayout};
use crate::rows::{ChangedLayout, RowLayout};
use ft_base::AttachedTrigger;
use ft_changes::Changed;
use ft_fields::{Event, Pos};
use ft_lanes::Lanes;
use ft_replay::Pair;
use ft_table::Row;

/// A way to show the items of an answer to C.
pub trait Shows<Item> {
    ghost use Rattle.std.specs.Prelude.{◌≡◌};

    /// What C has for an item.
    type Layout: Copy;

    /// What C has for this one.
    ghost shown: { Self → Item → Self.Layout };

    /// An item as C has it.
    fn show(&self, item: &Item) -> Self::Layout
        ensures { result ≡ shown self.now item.now };
}

/// Shows each item by itself.
#[derive(Clone, Copy, Debug, PartialEq, Eq)]
pub struct ByItself;

impl Shows<u8> for ByItself {
    type Layout = u8;

    ghost shown = { λ _ byte. byte };

    fn show(&self, item: &u8) -> u8 {
        *item
    }
}

impl Shows<Row> for ByItself {
    type Layout = RowLayout;

    ghost shown = { λ _ row. row_layout row };

    fn show(&self, item: &Row) -> RowLayout {
        RowLayout::of(item)
    }
}

impl Shows<Pair> for ByItself {
    type Layout = LatencyLayout;

    ghost shown = { λ _ pair. latency_layout pair };

    fn show(&self, item: &Pair) -> LatencyLayout {
        LatencyLayout::of(item)
    }
}

impl Shows<Pos> for ByItself {
    type Layout = PlaceLayout;

    ghost shown = { λ _ pos. place_layout pos };

    fn show(&self, item: &Pos) -> PlaceLayout {
        PlaceLayout::of(item)
    }
}

impl Shows<Changed> for ByItself {
    type Layout = ChangedLayout;

    ghost shown = { λ _ changed. changed_layout changed };

    fn show(&self, item: &Changed) -> ChangedLayout {
        ChangedLayout::of(item)
    }
}

impl Shows<AttachedTrigger> for ByItself {
    type Layout = TriggerLayout;

    ghost shown = { λ _ attached. trigger_layout attached };

    fn show(&self, item: &AttachedTrigger) -> TriggerLayout {
        TriggerLayout::of(item)
    }
}

/// Lanes show places by the events that they hold there.
impl Shows<Pos> for Lanes {
    type Layout = EventLayout;

    ghost shown = { event_in };

    fn show(&self, item: &Pos) -> EventLayout {
        EventLayout::of(item, held_at(self, item))
    }
}

/// The event that the lanes hold at a place: the one of its CPU's line, if that has its stamp.
fn held_at(lanes: &Lanes, at: &Pos) -> Option<Event>
    ensures { result ≡ held_at lanes.now at.now }
{
    match lanes.get(at.cpu, at.line) {
        Some(event) if event.stamp == at.stamp => Some(event),
        _ => None,
    }
}

/// Copies the items from the one of this number on, counted from 0: as many as there are and as
/// have room. How many that is; none if the number is past the end.
pub fn copy_part<Item, W: Shows<Item>>(
    way: &W,
    all: &[Item],
    from: u64,
    to: &mut [W::Layout],
) -> usize
    ensures part { to.new ≡ copied (W.shown way.now) from all.now to.old }
    ensures count { result ≡ min (length to.old) (length all.now - from) }
{
    let rest = rest_from(all, from);
    let count = to.len().min(rest.len());
    for number in 0..count {
        to[number] = way.show(&rest[number]);
    }
    count
}

/// The items from the one of this number on; none if it is past the end.
fn rest_from<Item>(all: &[Item], from: u64) -> &[Item]
    ensures { result.now ≡ drop from all.now }
{
    match all.get(from as usize..) {
        Some(rest) => rest,
        None => &[],
    }
}

/// Copies rows from the one of this number on, as `copy_part` does.
pub fn copy_rows(all: &[Row], from: u64, to: &mut [RowLayout]) -> usize
    ensures part { to.new ≡ copied row_layout from all.now to.old }
    ensures count { result ≡ min (length to.old) (length all.now - from) }
{
    copy_part(&ByItself, all, from, to)
}

/// Copies latencies from the one of this number on, as `copy_part` does.
pub fn copy_latencies(all: &[Pair], from: u64, to: &mut [LatencyLayout]) -> usize
    ensures part { to.new ≡ copied latency_layout from all.now to.old }
    ensures count { result ≡ min (length to.old) (length all.now - from) }
{
    copy_part(&ByItself, all, from, to)
}

/// Copies places from the one of this number on, as `copy_part` does.
pub fn copy_places(all: &[Pos], from: u64, to: &mut [PlaceLayout]) -> usize
    ensures part { to.new ≡ copied place_layout from all.now to.old }
    ensures count { result ≡ min (length to.old) (length all.now - from) }
{
    copy_part(&ByItself, all, from, to)
}

/// Copies the events that the lanes hold at places, from the place of this number on, as
/// `copy_part` does: no event for a place where none is held, or where one of another stamp is.
pub fn copy_events(lanes: &Lanes, places: &[Pos], from: u64, to: &mut [EventLayout]) -> usize
    ensures part { to.new ≡ copied (event_in lanes.now) from places.now to.old }
    ensures count { result ≡ min (length to.old) (length places.now - from) }
{
    copy_part(lanes, places, from, to)
}

/// Copies changed rows from the one of this number on, as `copy_part` does.
pub fn copy_changed(all: &[Changed], from: u64, to: &mut [ChangedLayout]) -> usize
    ensures part { to.new ≡ copied changed_layout from all.now to.old }
    ensures count { result ≡ min (length to.old) (length all.now - from) }
{
    copy_part(&ByItself, all, from, to)
}

/// Copies attached triggers from the one of this number on, as `copy_part` does.
pub fn copy_triggers(all: &[AttachedTrigger], from: u64, to: &mut [TriggerLayout]) -> usize
    ensures part { to.new ≡ copied trigger_layout from all.now to.old }
    ensures count { result ≡ min (length to.old) (length all.now - from) }
{
    copy_part(&ByItself, all, from, to)
}

/// Copies the bytes of a text from the one of this number on, as `copy_part` does.
pub fn copy_bytes(all: &[u8], from: u64, to: &mut [u8]) -> usize
    ensures part { to.new ≡ copied (λ byte. byte) from all.now to.old }
    ensures count { result ≡ min (length to.old) (length all.now - from) }
{
    copy_part(&ByItself, all, from, to)
}
