//! The events at the first of some places, which are struck in an order that takes little time.

ghost use Rattle.std.specs.Prelude.{◌≡◌, ◌+◌, ℕ, Bool, length, reverse, IfOk, IfSome};
ghost use Rattle.std.specs.List.Sorted.{IsStrictlySortedBy};
ghost use Rattle.std.specs.List.{AllByRecursion, IsDistinct};
ghost use Rattle.std.specs.Ordering.{eq_by_cmp};
ghost use Rattle.std.specs.FinMap as map;
ghost use Rattle.ft_fields.specs.Places.{pos_cmp};
ghost use Rattle.ft_maps.specs.Seen.{seen};
ghost use Rattle.ft_answers.specs.Shown.{Shown};
ghost use Rattle.ft_session.specs.inner.Fronts.{ComeFirst, IsFront, IsHeldIn, IsPosOf, IsWithout, has_place};
ghost use Rattle.ft_session.specs.inner.JointReports.{Joins};

use crate::joint_report::JointReport;
use ft_board::KeptBoard;
use ft_desk_core::Desk;
use ft_fields::Pos;
use ft_layout::PlaceLayout;
use ft_maps::{entries, get, put};
use std::alloc::{AllocError, Global};
use std::collections::BTreeMap;

/// The events at the first of some places, up to the first place at which none is held or that came
/// before, or for which no memory is left: by their places, the last in merged order first. Struck in this
/// order, the first hit of each key moves at most once, so that no key's saves go and come again and
/// again. Refused for memory.
pub(crate) fn front_of(
    alloc: Global,
    desk: &Desk<KeptBoard>,
    places: &[PlaceLayout],
) -> Result<Vec<Pos>, AllocError>
    ensures front { IfOk result (λ front. IsFront desk.now.base places.now front.items) }
    ensures last { IfOk result (λ front. IsStrictlySortedBy pos_cmp (reverse front.items)) }
{
    let held = held_first(alloc, desk, places);
    let mut front: Vec<Pos> = entries(&held).map(|(pos, _)| *pos).collect(alloc)?;
    front.reverse();
    Ok(front)
}

/// The same events as a set.
fn held_first(alloc: Global, desk: &Desk<KeptBoard>, places: &[PlaceLayout]) -> BTreeMap<Pos, ()>
    ensures { ComeFirst desk.now.base places.now (seen pos_cmp result) }
{
    let mut held = BTreeMap::new(alloc);
    for place in places {
        let pos = match pos_of(desk, place) {
            Some(pos) => pos,
            None => return held,
        };
        if has(&held, &pos) {
            return held;
        }
        if let Err(_) = put(&mut held, pos, ()) {
            return held;
        }
    }
    held
}

/// Whether a place is among some.
fn has(held: &BTreeMap<Pos, ()>, pos: &Pos) -> bool
    ensures { result ≡ map.contains_key (seen pos_cmp held.now) pos.now }
{
    get(held, pos).is_some()
}

/// The place in merged order of the event at a place, if one is held there.
fn pos_of(desk: &Desk<KeptBoard>, place: &PlaceLayout) -> Option<Pos>
    ensures { IfSome result (IsPosOf desk.now.base place.now) }
{
    let event = match desk.event(place.cpu, place.line) {
        Ok(event) => event,
        Err(_) => return None,
    };
    match u16::try_from(place.cpu) {
        Ok(cpu) => Some(Pos {
            stamp: event.stamp,
            cpu,
            line: place.line,
        }),
        Err(_) => None,
    }
}

/// Strikes the events at places, at each of which one is held, and adds what that reports.
pub(crate) fn strike_front(desk: &mut Desk<KeptBoard>, front: &[Pos], joint: &mut JointReport)
    requires held { AllByRecursion (IsHeldIn desk.old.base) front.now }
    requires apart { IsDistinct (eq_by_cmp pos_cmp) front.now }
    ensures without { IsWithout (has_place front.now) desk.old.base desk.new.base }
    ensures joins { (reports : Bool) (first : Shown) (count : ℕ)
        → Joins reports first desk.old count joint.old
        → Joins reports first desk.new (count + length front.now) joint.new }
{
    for pos in front {
        match desk.strike(u32::from(pos.cpu), pos.line) {
            Ok(done) => joint.add(&done.value),
            Err(_) => return,
        }
    }
}
