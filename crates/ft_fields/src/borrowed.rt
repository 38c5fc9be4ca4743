//! Events whose names stand in a text that is borrowed.

ghost use Rattle.std.specs.Prelude.{◌≡◌, ◌≤◌, length, take};
ghost use Rattle.ft_fields.specs.Traced.{last_cpu, last_stamp};

use crate::comm::Comm;
use crate::event::{Body, Event, Matched, Turn, Wake};

/// A name of at most 31 bytes, with which a text begins.
///
/// What follows it in the text is at hand, so that a short name can be copied in one step.
#[derive(Clone, Copy)]
pub struct NameRef<'a> {
    text: &'a [u8],
    len: u8,
    ghost short: { len ≤ 31 },
    ghost within: { len ≤ length text.now },
}

impl<'a> NameRef<'a> {
    ghost use Rattle.ft_fields.specs.Borrowed.{name_bytes};

    /// The first `len` bytes of a text: at most 31, and no more than there are.
    #[inline(always)]
    pub fn new(text: &'a [u8], len: usize) -> NameRef<'a>
        requires short { len ≤ 31 }
        requires within { len ≤ length text.now }
        ensures { name_bytes result ≡ take len text.now }
    {
        NameRef {
            text,
            len: len as u8,
        }
    }

    /// How many bytes it has.
    #[inline(always)]
    pub fn len(&self) -> u8
        ensures value { result ≡ length (name_bytes self.now) }
        ensures short { result ≤ 31 }
    {
        self.len
    }

    /// Its bytes.
    #[inline(always)]
    pub fn bytes(&self) -> &'a [u8]
        ensures { result.now ≡ name_bytes self.now }
    {
        &self.text[..self.len as usize]
    }

    /// The text that begins with it.
    #[inline(always)]
    pub fn text(&self) -> &'a [u8]
        ensures within { length (name_bytes self.now) ≤ length result.now }
        ensures begins { take (length (name_bytes self.now)) result.now ≡ name_bytes self.now }
    {
        self.text
    }
}

/// What a wake event says, its name borrowed.
#[derive(Clone, Copy)]
pub struct WakeRef<'a> {
    /// The woken task's name.
    pub comm: NameRef<'a>,
    /// Its PID.
    pub pid: i32,
    /// Its priority.
    pub prio: i32,
    /// The CPU that it is woken on.
    pub target_cpu: i32,
}

/// What a switch says, its names borrowed.
#[derive(Clone, Copy)]
pub struct TurnRef<'a> {
    /// The name of the task that is switched from.
    pub prev_comm: NameRef<'a>,
    /// Its PID.
    pub prev_pid: i32,
    /// Its priority.
    pub prev_prio: i32,
    /// Its state, as the trace shows it.
    pub prev_state: NameRef<'a>,
    /// The name of the task that is switched to.
    pub next_comm: NameRef<'a>,
    /// Its PID.
    pub next_pid: i32,
    /// Its priority.
    pub next_prio: i32,
}

/// What was traced, or made, its names borrowed.
#[derive(Clone, Copy)]
pub enum BodyRef<'a> {
    /// `sched_waking`
    Waking(WakeRef<'a>),
    /// `sched_wakeup`
    Wakeup(WakeRef<'a>),
    /// `sched_wakeup_new`
    WakeupNew(WakeRef<'a>),
    /// `sched_switch`
    Switch(TurnRef<'a>),
    /// `wakeup_latency`
    WakeupLatency(Matched),
    /// Any other event.
    Other,
}

/// One event of a trace, its names borrowed: from a line that tells it, or from an `Event`.
#[derive(Clone, Copy)]
pub struct EventRef<'a> {
    /// The task that ran as the event was traced.
    pub task: NameRef<'a>,
    /// Its PID.
    pub pid: i32,
    /// The CPU, at most `Event::LAST_CPU`.
    pub cpu: u16,
    /// When, in microseconds.
    pub stamp: u64,
    /// What was traced.
    pub body: BodyRef<'a>,
    ghost cpu_within: { cpu ≤ last_cpu },
    ghost stamp_within: { stamp ≤ last_stamp },
}

impl Comm {
    ghost use Rattle.ft_fields.specs.Borrowed.{name_bytes};

    /// The text as a borrowed name.
    #[inline(always)]
    pub fn borrowed(&self) -> NameRef<'_>
        ensures { name_bytes result ≡ self.now }
    {
        let (text, len) = self.whole();
        NameRef::new(text, len as usize)
    }
}

impl Wake {
    ghost use Rattle.ft_fields.specs.Borrowed.{waked};

    /// The same, its name borrowed.
    #[inline(always)]
    fn borrowed(&self) -> WakeRef<'_>
        ensures { waked result ≡ self.now }
    {
        WakeRef {
            comm: self.comm.borrowed(),
            pid: self.pid,
            prio: self.prio,
            target_cpu: self.target_cpu,
        }
    }
}

impl Turn {
    ghost use Rattle.ft_fields.specs.Borrowed.{turned};

    /// The same, its names borrowed.
    #[inline(always)]
    fn borrowed(&self) -> TurnRef<'_>
        ensures { turned result ≡ self.now }
    {
        TurnRef {
            prev_comm: self.prev_comm.borrowed(),
            prev_pid: self.prev_pid,
            prev_prio: self.prev_prio,
            prev_state: self.prev_state.borrowed(),
            next_comm: self.next_comm.borrowed(),
            next_pid: self.next_pid,
            next_prio: self.next_prio,
        }
    }
}

impl Body {
    ghost use Rattle.ft_fields.specs.Borrowed.{owned_body};

    /// The same, its names borrowed.
    #[inline(always)]
    fn borrowed(&self) -> BodyRef<'_>
        ensures { owned_body result ≡ self.now }
    {
        match self {
            Body::Waking(wake) => BodyRef::Waking(wake.borrowed()),
            Body::Wakeup(wake) => BodyRef::Wakeup(wake.borrowed()),
            Body::WakeupNew(wake) => BodyRef::WakeupNew(wake.borrowed()),
            Body::Switch(turn) => BodyRef::Switch(turn.borrowed()),
            Body::WakeupLatency(matched) => BodyRef::WakeupLatency(*matched),
            Body::Other => BodyRef::Other,
        }
    }
}

impl Event {
    ghost use Rattle.ft_fields.specs.Borrowed.{event_told};

    /// The same, its names borrowed.
    #[inline(always)]
    pub fn borrowed(&self) -> EventRef<'_>
        ensures { event_told result ≡ self.now }
    {
        EventRef {
            task: self.task.borrowed(),
            pid: self.pid,
            cpu: self.cpu,
            stamp: self.stamp,
            body: self.body.borrowed(),
        }
    }
}
