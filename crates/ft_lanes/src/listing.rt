//! The text of a lane.

ghost use Rattle.std.specs.Prelude.{◌≡◌, ◌++◌, decimal, option_map, IfOk, OnOk};
ghost use Rattle.std.specs.Fmt.{signed_decimal};
ghost use Rattle.std.specs.List.{flat_map};
ghost use Rattle.ft_lanes.specs.Listing.{event_line, event_text, stamp_text, body_text, label_text};
ghost use Rattle.ft_lanes.specs.Listing.{shown_name};
ghost use Rattle.ft_lanes.specs.Listing.{payload_text, wake_text, turn_text, prev_text, next_text};
ghost use Rattle.ft_lanes.specs.Listing.{target_text, zero_filled};

use crate::lanes::Lanes;
use crate::walk::Lines;
use ft_fields::{Body, Comm, Event, Name, Turn, Wake};
use ft_text::{write_decimal, write_right, write_signed};
use std::alloc::{AllocError, Global};

/// How many digits a CPU takes at least, except for the one in front of a line.
const CPU_WIDTH: u8 = 3;

/// How many digits the microseconds of a stamp take.
const MICROS_WIDTH: u8 = 6;

/// Microseconds in a second.
const MICROS_PER_SECOND: u64 = 1_000_000;

impl Lanes {
    ghost use Rattle.std.specs.FinMap as map;
    ghost use Rattle.ft_lanes.specs.Listing.{lane_text};

    /// The text of the lane of a CPU, if there is one: a line for each event, by line number, which
    /// is the lane's CPU and line number and the event as a trace line shows it. Refused for memory.
    pub fn list(&self, alloc: Global, cpu: u16) -> Result<Option<Vec<u8>>, AllocError>
        ensures { IfOk result (λ text. option_map (λ t. t.items) text
            ≡ option_map (lane_text cpu) (map.get self.now cpu)) }
    {
        match self.lane(cpu) {
            Some(lines) => Ok(Some(lines_text(alloc, cpu, lines)?)),
            None => Ok(None),
        }
    }
}

/// The text of these events of a CPU.
fn lines_text(alloc: Global, cpu: u16, lines: Lines<'_>) -> Result<Vec<u8>, AllocError>
    ensures { IfOk result (λ text. text.items ≡ flat_map (λ e. event_line cpu e.0 e.1) lines.entry) }
{
    let mut text = Vec::new(alloc);
    for (line, stored) in lines {
        add_line(&mut text, cpu, line, &stored.event())?;
    }
    Ok(text)
}

/// Adds an event's line, after its CPU and line number.
#[tactic(auto, unfolding(crate::specs::Listing::event_line))]
fn add_line(text: &mut Vec<u8>, cpu: u16, line: u32, event: &Event) -> Result<(), AllocError>
    ensures { OnOk result (text.new.items ≡ text.old.items ++ event_line cpu line event.now) }
{
    write_decimal(u64::from(cpu), text)?;
    text.extend_from_slice(b":")?;
    write_decimal(u64::from(line), text)?;
    text.extend_from_slice(b" ")?;
    add_event(text, event)?;
    text.extend_from_slice(b"\n")
}

/// Adds an event as a trace line shows it.
#[tactic(auto, unfolding(crate::specs::Listing::event_text))]
fn add_event(text: &mut Vec<u8>, event: &Event) -> Result<(), AllocError>
    ensures { OnOk result (text.new.items ≡ text.old.items ++ event_text event.now) }
{
    text.extend_from_slice(event.task.bytes())?;
    add_number(text, b"-", event.pid)?;
    text.extend_from_slice(b" [")?;
    add_zero_filled(text, u64::from(event.cpu), CPU_WIDTH)?;
    text.extend_from_slice(b"] ")?;
    add_stamp(text, event.stamp)?;
    text.extend_from_slice(b":")?;
    add_body(text, event)
}

/// Adds a stamp: its seconds, and six digits of microseconds.
#[tactic(auto, unfolding(crate::specs::Listing::stamp_text))]
fn add_stamp(text: &mut Vec<u8>, micros: u64) -> Result<(), AllocError>
    ensures { OnOk result (text.new.items ≡ text.old.items ++ stamp_text micros) }
{
    write_decimal(micros / MICROS_PER_SECOND, text)?;
    text.extend_from_slice(b".")?;
    add_zero_filled(text, micros % MICROS_PER_SECOND, MICROS_WIDTH)
}

/// Adds the name that is shown of an event and what it says, after a space.
fn add_body(text: &mut Vec<u8>, event: &Event) -> Result<(), AllocError>
    ensures { OnOk result (text.new.items ≡ text.old.items ++ body_text event.now.body) }
{
    match shown_name(event.name()) {
        Some(name) => {
            add_label(text, name)?;
            add_payload(text, &event.body)
        }
        None => Ok(()),
    }
}

/// The name that a trace line shows, if it is that of one of the four events that the kernel
/// traces.
fn shown_name(name: Name) -> Option<&'static [u8]>
    ensures { option_map (λ text. text.now) result ≡ shown_name name }
{
    if name.is_traced() { name.text() } else { None }
}

/// Adds the name of an event between a space and a colon.
fn add_label(text: &mut Vec<u8>, name: &[u8]) -> Result<(), AllocError>
    ensures { OnOk result (text.new.items ≡ text.old.items ++ label_text name.now) }
{
    text.extend_from_slice(b" ")?;
    text.extend_from_slice(name)?;
    text.extend_from_slice(b": ")
}

/// Adds what an event that the kernel traces says. One that triggers make stands in no lane.
fn add_payload(text: &mut Vec<u8>, body: &Body) -> Result<(), AllocError>
    ensures { OnOk result (text.new.items ≡ text.old.items ++ payload_text body.now) }
{
    match body {
        Body::Waking(wake) | Body::Wakeup(wake) | Body::WakeupNew(wake) => add_wake(text, wake),
        Body::Switch(turn) => add_turn(text, turn),
        Body::WakeupLatency(_) | Body::Other => Ok(()),
    }
}

/// Adds what a wake event says.
#[tactic(auto, unfolding(crate::specs::Listing::wake_text))]
fn add_wake(text: &mut Vec<u8>, wake: &Wake) -> Result<(), AllocError>
    ensures { OnOk result (text.new.items ≡ text.old.items ++ wake_text wake.now) }
{
    add_comm(text, b"comm=", &wake.comm)?;
    add_number(text, b" pid=", wake.pid)?;
    add_number(text, b" prio=", wake.prio)?;
    text.extend_from_slice(b" target_cpu=")?;
    add_target(text, wake.target_cpu)
}

/// Adds what a switch says.
#[tactic(auto, unfolding(crate::specs::Listing::turn_text))]
fn add_turn(text: &mut Vec<u8>, turn: &Turn) -> Result<(), AllocError>
    ensures { OnOk result (text.new.items ≡ text.old.items ++ turn_text turn.now) }
{
    add_prev(text, turn)?;
    text.extend_from_slice(b" ==> ")?;
    add_next(text, turn)
}

/// Adds what a switch says of the task that is switched from.
#[tactic(auto, unfolding(crate::specs::Listing::prev_text))]
fn add_prev(text: &mut Vec<u8>, turn: &Turn) -> Result<(), AllocError>
    ensures { OnOk result (text.new.items ≡ text.old.items ++ prev_text turn.now) }
{
    add_comm(text, b"prev_comm=", &turn.prev_comm)?;
    add_number(text, b" prev_pid=", turn.prev_pid)?;
    add_number(text, b" prev_prio=", turn.prev_prio)?;
    add_comm(text, b" prev_state=", &turn.prev_state)
}

/// Adds what a switch says of the task that is switched to.
#[tactic(auto, unfolding(crate::specs::Listing::next_text))]
fn add_next(text: &mut Vec<u8>, turn: &Turn) -> Result<(), AllocError>
    ensures { OnOk result (text.new.items ≡ text.old.items ++ next_text turn.now) }
{
    add_comm(text, b"next_comm=", &turn.next_comm)?;
    add_number(text, b" next_pid=", turn.next_pid)?;
    add_number(text, b" next_prio=", turn.next_prio)
}

/// Adds a CPU that a payload names: at least three digits, after a `-` if it is negative.
fn add_target(text: &mut Vec<u8>, cpu: i32) -> Result<(), AllocError>
    ensures { OnOk result (text.new.items ≡ text.old.items ++ target_text cpu) }
{
    if cpu < 0 {
        text.extend_from_slice(b"-")?;
    }
    add_zero_filled(text, u64::from(cpu.unsigned_abs()), CPU_WIDTH)
}

/// Adds a label and a name.
fn add_comm(text: &mut Vec<u8>, label: &[u8], comm: &Comm) -> Result<(), AllocError>
    ensures { OnOk result (text.new.items ≡ text.old.items ++ (label.now ++ comm.now)) }
{
    text.extend_from_slice(label)?;
    text.extend_from_slice(comm.bytes())
}

/// Adds a label and a number.
fn add_number(text: &mut Vec<u8>, label: &[u8], number: i32) -> Result<(), AllocError>
    ensures { OnOk result (text.new.items ≡ text.old.items ++ (label.now ++ signed_decimal number)) }
{
    text.extend_from_slice(label)?;
    write_signed(i64::from(number), text)
}

/// Adds a number in decimal digits, with zeros in front up to a width.
#[tactic(auto, unfolding(crate::specs::Listing::zero_filled))]
fn add_zero_filled(text: &mut Vec<u8>, number: u64, width: u8) -> Result<(), AllocError>
    ensures { OnOk result (text.new.items ≡ text.old.items ++ zero_filled width number) }
{
    write_right(number, width, b'0', text)
}
