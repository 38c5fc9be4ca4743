//! Events without their names, which stand in a text beside them.

ghost use Rattle.std.specs.Prelude.{◌≡◌, ◌+◌, ◌≤◌, ◌++◌, ℕ, List, [], length, take, OnOk, OnErr, IfOk};
ghost use Rattle.std.specs.Option.{option_map};
ghost use Rattle.ft_fields.specs.Borrowed.{name_bytes, waked, turned, owned_body, event_told};
ghost use Rattle.ft_fields.specs.Fields as fields;
ghost use Rattle.ft_fields.specs.Fields.{matched_of, task_of};
ghost use Rattle.ft_store.specs.inner.Packing.{turn_names, body_names, event_names, packed_wake, packed_turn, packed_body, packed};
ghost use Rattle.ft_store.specs.inner.Packing.{turn_width, body_width, width, unpacked_wake, unpacked_turn, body_of, own_names, unpacked, packed_name};
ghost use Rattle.ft_store.specs.inner.Packing.{IsShortTurn, IsShortBody, IsSoundPacked, packed_at, moved};
ghost use Rattle.ft_store.specs.Stored.{bare_wake, bare_turn, bare_body, bare, field_number};

use ft_fields::{
    Body, BodyRef, Comm, Event, EventRef, Field, Matched, Name, NameRef, Turn, TurnRef, Wake,
    WakeRef,
};
use std::alloc::AllocError;
use std::mem::size_of;

/// What a wake event says, with the length of its name.
#[derive(Clone, Copy)]
pub(crate) struct PackedWake {
    pid: i32,
    prio: i32,
    target_cpu: i32,
    comm: u8,
}

/// What a switch says, with the lengths of its names.
#[derive(Clone, Copy)]
pub(crate) struct PackedTurn {
    prev_pid: i32,
    prev_prio: i32,
    next_pid: i32,
    next_prio: i32,
    prev_comm: u8,
    prev_state: u8,
    next_comm: u8,
}

/// What was traced, or made, with the lengths of its names.
#[derive(Clone, Copy)]
pub(crate) enum PackedBody {
    Waking(PackedWake),
    Wakeup(PackedWake),
    WakeupNew(PackedWake),
    Switch(PackedTurn),
    WakeupLatency(Matched),
    Other,
}

/// An event, with the place in the text where its names begin, and with their lengths.
///
/// The task's name is first. Those of the body are after it, in the order of its fields.
#[derive(Clone, Copy)]
pub(crate) struct Packed {
    pub(crate) stamp: u64,
    pub(crate) begins: u32,
    pid: i32,
    pub(crate) cpu: u16,
    task: u8,
    body: PackedBody,
}

const _: () = prove!(size_of::<Packed>() == 56);

/// The last place of a text where the names of an event can begin.
pub(crate) const LAST_PLACE: usize = 4_294_967_295;

/// The name that these bytes begin with.
#[inline(always)]
fn name_in(names: &[u8], len: u8) -> Comm
    requires short { len ≤ 31 }
    requires within { len ≤ length names.now }
    ensures { result ≡ take len names.now }
{
    Comm::filled(&names[..len as usize])
}

/// No name.
#[inline(always)]
fn no_name() -> Comm
    ensures { result ≡ [] }
{
    Comm::filled(&[])
}

impl PackedWake {
    /// A wake event without its name.
    #[inline(always)]
    fn of(wake: &WakeRef<'_>) -> PackedWake
        ensures value { result ≡ packed_wake (waked wake.now) }
        ensures short { result.comm ≤ 31 }
    {
        PackedWake {
            pid: wake.pid,
            prio: wake.prio,
            target_cpu: wake.target_cpu,
            comm: wake.comm.len(),
        }
    }

    /// The event with its name, which these bytes begin with.
    #[inline(always)]
    fn unpacked(&self, names: &[u8]) -> Wake
        requires short { self.now.comm ≤ 31 }
        requires within { self.now.comm ≤ length names.now }
        ensures { result ≡ unpacked_wake names.now self.now }
    {
        Wake {
            comm: name_in(names, self.comm),
            pid: self.pid,
            prio: self.prio,
            target_cpu: self.target_cpu,
        }
    }

    /// The event without its name.
    #[inline(always)]
    fn bare(&self) -> Wake
        ensures { (names : List ℕ) → result ≡ bare_wake (unpacked_wake names self.now) }
    {
        Wake {
            comm: no_name(),
            pid: self.pid,
            prio: self.prio,
            target_cpu: self.target_cpu,
        }
    }
}

impl PackedTurn {
    /// A switch without its names.
    #[inline(always)]
    fn of(turn: &TurnRef<'_>) -> PackedTurn
        ensures value { result ≡ packed_turn (turned turn.now) }
        ensures short { IsShortTurn result }
    {
        PackedTurn {
            prev_pid: turn.prev_pid,
            prev_prio: turn.prev_prio,
            next_pid: turn.next_pid,
            next_prio: turn.next_prio,
            prev_comm: turn.prev_comm.len(),
            prev_state: turn.prev_state.len(),
            next_comm: turn.next_comm.len(),
        }
    }

    /// The switch with its names, which these bytes begin with.
    #[inline(always)]
    fn unpacked(&self, names: &[u8]) -> Turn
        requires short { IsShortTurn self.now }
        requires within { turn_width self.now ≤ length names.now }
        ensures { result ≡ unpacked_turn names.now self.now }
    {
        let behind = &names[self.prev_comm as usize..];
        let last = &behind[self.prev_state as usize..];
        Turn {
            prev_comm: name_in(names, self.prev_comm),
            prev_pid: self.prev_pid,
            prev_prio: self.prev_prio,
            prev_state: name_in(behind, self.prev_state),
            next_comm: name_in(last, self.next_comm),
            next_pid: self.next_pid,
            next_prio: self.next_prio,
        }
    }

    /// The switch without its names.
    #[inline(always)]
    fn bare(&self) -> Turn
        ensures { (names : List ℕ) → result ≡ bare_turn (unpacked_turn names self.now) }
    {
        Turn {
            prev_comm: no_name(),
            prev_pid: self.prev_pid,
            prev_prio: self.prev_prio,
            prev_state: no_name(),
            next_comm: no_name(),
            next_pid: self.next_pid,
            next_prio: self.next_prio,
        }
    }
}

impl PackedBody {
    /// What was traced, without its names.
    #[inline(always)]
    fn of(body: &BodyRef<'_>) -> PackedBody
        ensures value { result ≡ packed_body (owned_body body.now) }
        ensures short { IsShortBody result }
    {
        match body {
            BodyRef::Waking(wake) => PackedBody::Waking(PackedWake::of(wake)),
            BodyRef::Wakeup(wake) => PackedBody::Wakeup(PackedWake::of(wake)),
            BodyRef::WakeupNew(wake) => PackedBody::WakeupNew(PackedWake::of(wake)),
            BodyRef::Switch(turn) => PackedBody::Switch(PackedTurn::of(turn)),
            BodyRef::WakeupLatency(matched) => PackedBody::WakeupLatency(*matched),
            BodyRef::Other => PackedBody::Other,
        }
    }

    /// The same with its names, which these bytes begin with.
    #[inline(always)]
    fn unpacked(&self, names: &[u8]) -> Body
        requires short { IsShortBody self.now }
        requires within { body_width self.now ≤ length names.now }
        ensures { result ≡ body_of names.now self.now }
    {
        match self {
            PackedBody::Waking(wake) => Body::Waking(wake.unpacked(names)),
            PackedBody::Wakeup(wake) => Body::Wakeup(wake.unpacked(names)),
            PackedBody::WakeupNew(wake) => Body::WakeupNew(wake.unpacked(names)),
            PackedBody::Switch(turn) => Body::Switch(turn.unpacked(names)),
            PackedBody::WakeupLatency(matched) => Body::WakeupLatency(*matched),
            PackedBody::Other => Body::Other,
        }
    }

    /// The same without its names.
    #[inline(always)]
    fn bare(&self) -> Body
        ensures { (names : List ℕ) → result ≡ bare_body (body_of names self.now) }
    {
        match self {
            PackedBody::Waking(wake) => Body::Waking(wake.bare()),
            PackedBody::Wakeup(wake) => Body::Wakeup(wake.bare()),
            PackedBody::WakeupNew(wake) => Body::WakeupNew(wake.bare()),
            PackedBody::Switch(turn) => Body::Switch(turn.bare()),
            PackedBody::WakeupLatency(matched) => Body::WakeupLatency(*matched),
            PackedBody::Other => Body::Other,
        }
    }

    /// How many bytes its names take.
    #[inline(always)]
    fn width(&self) -> usize
        ensures value { result ≡ body_width self.now }
        ensures small { result ≤ 765 }
    {
        match self {
            PackedBody::Waking(wake) | PackedBody::Wakeup(wake) | PackedBody::WakeupNew(wake) => {
                wake.comm as usize
            }
            PackedBody::Switch(turn) => {
                turn.prev_comm as usize + (turn.prev_state as usize + turn.next_comm as usize)
            }
            PackedBody::WakeupLatency(_) | PackedBody::Other => 0,
        }
    }

    /// What it says of a task that is woken, if it is a wake event.
    #[inline(always)]
    fn wake(&self) -> Option<PackedWake>
        ensures { (names : List ℕ) → option_map (unpacked_wake names) result
            ≡ fields.wake_of (body_of names self.now) }
    {
        match self {
            PackedBody::Waking(wake) | PackedBody::Wakeup(wake) | PackedBody::WakeupNew(wake) => {
                Some(*wake)
            }
            PackedBody::Switch(_) | PackedBody::WakeupLatency(_) | PackedBody::Other => None,
        }
    }

    /// What it says of the two tasks, if it is a switch.
    #[inline(always)]
    fn turn(&self) -> Option<PackedTurn>
        ensures { (names : List ℕ) → option_map (unpacked_turn names) result
            ≡ fields.turn_of (body_of names self.now) }
    {
        match self {
            PackedBody::Switch(turn) => Some(*turn),
            PackedBody::Waking(_) | PackedBody::Wakeup(_) | PackedBody::WakeupNew(_) => None,
            PackedBody::WakeupLatency(_) | PackedBody::Other => None,
        }
    }

    /// What it says of a latency, if a trigger made it.
    #[inline(always)]
    fn matched(&self) -> Option<Matched>
        ensures { (names : List ℕ) → result ≡ matched_of (body_of names self.now) }
    {
        match self {
            PackedBody::WakeupLatency(matched) => Some(*matched),
            PackedBody::Waking(_) | PackedBody::Wakeup(_) | PackedBody::WakeupNew(_) => None,
            PackedBody::Switch(_) | PackedBody::Other => None,
        }
    }

    /// The PID of the task that it says is woken, if it is a wake event or a made one.
    #[inline(always)]
    fn pid(&self) -> Option<i64>
        ensures { (names : List ℕ) → result
            ≡ option_map (λ task. task.pid) (task_of (body_of names self.now)) }
    {
        match self {
            PackedBody::Waking(wake) | PackedBody::Wakeup(wake) | PackedBody::WakeupNew(wake) => {
                Some(i64::from(wake.pid))
            }
            PackedBody::WakeupLatency(matched) => Some(matched.pid),
            PackedBody::Switch(_) | PackedBody::Other => None,
        }
    }

    /// The priority of the task that it says is woken, if it is a wake event or a made one.
    #[inline(always)]
    fn prio(&self) -> Option<i64>
        ensures { (names : List ℕ) → result
            ≡ option_map (λ task. task.prio) (task_of (body_of names self.now)) }
    {
        match self {
            PackedBody::Waking(wake) | PackedBody::Wakeup(wake) | PackedBody::WakeupNew(wake) => {
                Some(i64::from(wake.prio))
            }
            PackedBody::WakeupLatency(matched) => Some(matched.prio),
            PackedBody::Switch(_) | PackedBody::Other => None,
        }
    }

    /// Which event it is.
    fn name(&self) -> Name
        ensures { result ≡ packed_name self.now }
    {
        match self {
            PackedBody::Waking(_) => Name::Waking,
            PackedBody::Wakeup(_) => Name::Wakeup,
            PackedBody::WakeupNew(_) => Name::WakeupNew,
            PackedBody::Switch(_) => Name::Switch,
            PackedBody::WakeupLatency(_) => Name::WakeupLatency,
            PackedBody::Other => Name::Other,
        }
    }
}

impl Packed {
    /// An event without its names, which begin at a place.
    #[inline(always)]
    pub(crate) fn of(event: &EventRef<'_>, begins: u32) -> Packed
        ensures value { result ≡ packed begins (event_told event.now) }
        ensures sound { IsSoundPacked result }
    {
        Packed {
            stamp: event.stamp,
            begins,
            pid: event.pid,
            cpu: event.cpu,
            task: event.task.len(),
            body: PackedBody::of(&event.body),
        }
    }

    /// The same with its names at another place of the text. Refused past the last place.
    #[inline(always)]
    pub(crate) fn placed(&self, begins: usize) -> Result<Packed, AllocError>
        ensures { IfOk result (λ packed. packed ≡ packed_at begins self.now) }
    {
        if begins > LAST_PLACE {
            return Err(AllocError);
        }
        Ok(Packed {
            begins: begins as u32,
            ..*self
        })
    }

    /// The same with its names so many bytes further on. Refused past the last place.
    #[inline(always)]
    pub(crate) fn moved(&self, by: usize) -> Result<Packed, AllocError>
        ensures { IfOk result (λ packed. packed ≡ moved by self.now) }
    {
        self.placed(by.saturating_add(self.begins as usize))
    }

    /// How many bytes its names take.
    #[inline(always)]
    fn width(&self) -> usize
        ensures { result ≡ width self.now }
    {
        self.task as usize + self.body.width()
    }

    /// Its names in the text.
    #[inline(always)]
    pub(crate) fn own_names<'a>(&self, text: &'a [u8]) -> &'a [u8]
        requires { self.now.begins + width self.now ≤ length text.now }
        ensures value { result.now ≡ own_names text.now self.now }
        ensures long { length result.now ≡ width self.now }
    {
        let begins = self.begins as usize;
        &text[begins..begins + self.width()]
    }

    /// The event with its names from the text.
    pub(crate) fn unpacked(&self, text: &[u8]) -> Event
        requires sound { IsSoundPacked self.now }
        requires within { self.now.begins + width self.now ≤ length text.now }
        ensures { result ≡ unpacked text.now self.now }
    {
        let names = self.own_names(text);
        Event {
            task: name_in(names, self.task),
            pid: self.pid,
            cpu: self.cpu,
            stamp: self.stamp,
            body: self.body.unpacked(&names[self.task as usize..]),
        }
    }

    /// The event without its names.
    pub(crate) fn bare(&self) -> Event
        requires { IsSoundPacked self.now }
        ensures { (text : List ℕ) → result ≡ bare (unpacked text self.now) }
    {
        Event {
            task: no_name(),
            pid: self.pid,
            cpu: self.cpu,
            stamp: self.stamp,
            body: self.body.bare(),
        }
    }

    /// The number that a field of it holds.
    pub(crate) fn number(&self, field: Field) -> Option<i64>
        ensures { (text : List ℕ) → result ≡ field_number (unpacked text self.now) field }
    {
        match field {
            Field::CommonPid => Some(i64::from(self.pid)),
            Field::CommonCpu => Some(i64::from(self.cpu)),
            Field::Pid => self.body.pid(),
            Field::Prio => self.body.prio(),
            Field::TargetCpu => Some(i64::from(self.body.wake()?.target_cpu)),
            Field::PrevPid => Some(i64::from(self.body.turn()?.prev_pid)),
            Field::PrevPrio => Some(i64::from(self.body.turn()?.prev_prio)),
            Field::NextPid => Some(i64::from(self.body.turn()?.next_pid)),
            Field::NextPrio => Some(i64::from(self.body.turn()?.next_prio)),
            Field::Lat => Some(self.body.matched()?.lat),
            Field::Comm | Field::PrevComm | Field::PrevState | Field::NextComm => None,
        }
    }

    /// Which event it is.
    pub(crate) fn name(&self) -> Name
        ensures { result ≡ packed_name self.now.body }
    {
        self.body.name()
    }
}

/// Adds any number of bytes to a text.
#[cold]
#[inline(never)]
fn push_bytes(text: &mut Vec<u8>, bytes: &[u8]) -> Result<(), AllocError>
    ensures ok { OnOk result (text.new.items ≡ text.old.items ++ bytes.now) }
    ensures err { OnErr result (text.new.items ≡ text.old.items) }
{
    text.extend_from_slice(bytes)
}

/// Adds a name to a text. A name of at most 16 bytes is copied in one step, with what follows it in
/// its own text, if there is room for 16.
#[inline(always)]
fn push_name(text: &mut Vec<u8>, name: &NameRef<'_>) -> Result<(), AllocError>
    ensures ok { OnOk result (text.new.items ≡ text.old.items ++ name_bytes name.now) }
    ensures err { OnErr result (text.new.items ≡ text.old.items) }
{
    let len = name.len() as usize;
    let begins = text.len();
    if len <= 16 && text.capacity() - begins >= 16 {
        if let Some(chunk) = name.text().first_chunk::<16>() {
            let bytes = *chunk;
            text.extend_from_slice(&bytes)?;
            text.truncate(begins + len);
            return Ok(());
        }
    }
    push_bytes(text, name.bytes())
}

/// Adds the names of a switch to a text. After a refusal for memory some of them may be there.
#[inline(always)]
fn push_turn(text: &mut Vec<u8>, turn: &TurnRef<'_>) -> Result<(), AllocError>
    ensures ok { OnOk result (text.new.items ≡ text.old.items ++ turn_names (turned turn.now)) }
    ensures err { OnErr result (take (length text.old.items) text.new.items ≡ text.old.items) }
{
    push_name(text, &turn.prev_comm)?;
    push_name(text, &turn.prev_state)?;
    push_name(text, &turn.next_comm)
}

/// Adds the names of what was traced to a text. After a refusal for memory some of them may be
/// there.
#[inline(always)]
fn push_body(text: &mut Vec<u8>, body: &BodyRef<'_>) -> Result<(), AllocError>
    ensures ok { OnOk result (text.new.items ≡ text.old.items ++ body_names (owned_body body.now)) }
    ensures err { OnErr result (take (length text.old.items) text.new.items ≡ text.old.items) }
{
    match body {
        BodyRef::Waking(wake) | BodyRef::Wakeup(wake) | BodyRef::WakeupNew(wake) => {
            push_name(text, &wake.comm)
        }
        BodyRef::Switch(turn) => push_turn(text, turn),
        BodyRef::WakeupLatency(_) | BodyRef::Other => Ok(()),
    }
}

/// Adds the names of an event to a text. After a refusal for memory some of them may be there.
#[inline(always)]
pub(crate) fn push_names(text: &mut Vec<u8>, event: &EventRef<'_>) -> Result<(), AllocError>
    ensures ok { OnOk result (text.new.items ≡ text.old.items ++ event_names (event_told event.now)) }
    ensures err { OnErr result (take (length text.old.items) text.new.items ≡ text.old.items) }
{
    push_name(text, &event.task)?;
    push_body(text, &event.body)
}
