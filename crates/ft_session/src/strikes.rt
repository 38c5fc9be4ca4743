//! Strikes of many events by one call.

ghost use Rattle.std.specs.Prelude.{◌≡◌, ◌≢◌, ◌+◌, ◌<◌, ◌^◌, Bool, length, Some};
ghost use Rattle.ft_answers.specs.Shown.{Shown};
ghost use Rattle.ft_base.specs.declared.refused.Refused.TheVariants.{Memory};
ghost use Rattle.ft_session.specs.Calls.{StrikesEvents};
ghost use Rattle.ft_session.specs.Told.{code_of};
ghost use Rattle.ft_session.specs.Strikes.{after_strikes};
ghost use Rattle.ft_session.specs.inner.Fronts.{after_others};
ghost use Rattle.ft_session.specs.inner.JointReports.{Joins, IsHeld};

use crate::front::{front_of, strike_front};
use crate::joint_report::JointReport;
use crate::outcome::{accept, refuse};
use crate::session::Session;
use ft_answers::{Edited, Refused};
use ft_board::KeptBoard;
use ft_desk_core::Desk;
use ft_layout::PlaceLayout;
use std::alloc::Global;

impl Session {
    /// Takes the events at places away: how many, up to the first one that is refused as `strike` is. If
    /// `reports`, one report has the rows that they may have changed; else there is none.
    pub fn strike_events(&mut self, places: &[PlaceLayout], reports: bool, struck: &mut u64) -> u32
        ensures { StrikesEvents places.now reports self.old result struck.new self.new }
    {
        let strikes = strike_all(self.alloc, &mut self.desk, places, reports);
        *struck = strikes.count;
        hold_report(self.alloc, &strikes.joint, &mut self.edited);
        note(strikes.refused, &mut self.refused)
    }
}

/// What strikes came to.
#[derive(Drop)]
struct Strikes {
    /// How many events were struck.
    count: u64,
    /// Why the next one was refused, if it was.
    refused: Option<Refused>,
    /// What the strikes report.
    joint: JointReport,
}

/// Strikes the events at places from a desk, up to the first one that is refused: the others first, from
/// the last in merged order to the first, if there is memory for a list of them.
fn strike_all(
    alloc: Global,
    desk: &mut Desk<KeptBoard>,
    places: &[PlaceLayout],
    reports: bool,
) -> Strikes
    ensures gives { after_strikes desk.old.base places.now
        ≡ record { base = desk.new.base; count = result.count; refused = result.refused } }
    ensures memory { result.refused ≢ Some Memory }
    ensures joins { Joins reports desk.old desk.new result.count result.joint }
{
    let mut joint = JointReport::new(alloc, reports);
    match front_of(alloc, desk, places) {
        Ok(front) => {
            strike_front(desk, &front, &mut joint);
            strike_each(desk, &places[front.len()..], front.len() as u64, joint)
        }
        Err(_) => strike_each(desk, places, 0, joint),
    }
}

/// Strikes the events at places from a desk after others, in their order, up to the first one that is
/// refused.
fn strike_each(
    desk: &mut Desk<KeptBoard>,
    places: &[PlaceLayout],
    struck: u64,
    joint: JointReport,
) -> Strikes
    requires few { struck + length places.now < 2 ^ 64 }
    ensures gives { after_others struck (after_strikes desk.old.base places.now)
        ≡ record { base = desk.new.base; count = result.count; refused = result.refused } }
    ensures memory { result.refused ≢ Some Memory }
    ensures joins { (reports : Bool) (first : Shown) → Joins reports first desk.old struck joint
        → Joins reports first desk.new result.count result.joint }
{
    let mut joint = joint;
    let mut count = struck;
    for place in places {
        match desk.strike(place.cpu, place.line) {
            Ok(done) => {
                count += 1;
                joint.add(&done.value);
            }
            Err(why) => {
                return Strikes {
                    count,
                    refused: Some(why),
                    joint,
                };
            }
        }
    }
    Strikes {
        count,
        refused: None,
        joint,
    }
}

/// Holds what edits report together, if there was one.
fn hold_report(alloc: Global, joint: &JointReport, edited: &mut Option<Edited>)
    ensures { IsHeld joint.now edited.old edited.new }
{
    if let Some(told) = joint.joint_edit(alloc) {
        *edited = Some(told);
    }
}

/// Notes why a call is refused, if it is: its code.
fn note(why: Option<Refused>, refused: &mut Option<Refused>) -> u32
    ensures note { refused.new ≡ why }
    ensures code { result ≡ code_of why }
{
    match why {
        Some(why) => refuse(refused, why),
        None => accept(refused),
    }
}
