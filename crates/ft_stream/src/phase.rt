//! Where a stream stands.

ghost use Rattle.std.specs.Prelude.{◌≡◌, ◌++◌, [], List, ℕ, OnOk, OnErr, IfOk, IfErr, IfSome, IfNone, IsSomeAnd, Some, None, Err, map};
ghost use Rattle.ft_waits.specs.Reading.{history, history_so_far, events_of, last_stamp, CountsEvents, Fails, FailsAt};
ghost use Rattle.ft_waits.specs.Streams.{HasRead, AreDispatches};
ghost use Rattle.ft_waits.specs.Choice.{Choice};
ghost use Rattle.ft_dispatch.specs.declared.dispatch.Dispatch.{Dispatch as Told};
ghost use Rattle.ft_stream.specs.Telling.{Kind, Whole, HasTold, AreWaits, Streams, Ends, refused_at, no_whole_at, failed_at, unfinished_at, untold_at, finished_at, holes_at, left_out_at, events_at, last_at, waits_of};
ghost use Rattle.ft_stream.specs.Doubting.{with_doubt};
ghost use Rattle.ft_stream.specs.Layouts.{read_layout};

use crate::apart::Part;
use crate::doubting::doubt_all;
use crate::fault::StreamFault;
use crate::layouts::{ReadLayout, WaitLayout};
use ft_dispatch::Dispatch;
use ft_losses::{Doubts, Hole};
use ft_waits::{LeftOut, TextRead, Waits, WaitsFault};
use std::alloc::Global;
use std::mem;

/// What was read of a text that has ended.
#[derive(Drop)]
pub struct Finished {
    /// Its lines, the switches that are missing in it, and where events were lost.
    pub read: TextRead,
    /// An index of its holes.
    pub doubts: Doubts,
}

/// Where a stream stands.
#[derive(Drop)]
pub enum Phase {
    /// No stream has begun.
    Idle,
    /// It takes pieces of a text.
    Running(Waits),
    /// It takes pieces of a text that is a part of a longer one, not its beginning.
    Part(Part),
    /// It failed, and takes no more.
    Failed(WaitsFault),
    /// Its text has ended.
    Finished(Finished),
}

/// Keeps the dispatches that end a wait.
pub(crate) fn keep_waits(told: &mut Vec<Dispatch>)
    ensures { told.new.items ≡ waits_of told.old.items }
{
    told.retain(|dispatch| dispatch.since.waiting().is_some());
}

/// Takes a piece into a stream that runs: the waits that it told are there then, and none if it fails.
fn take_piece(running: &mut Waits, piece: &[u8], told: &mut Vec<Dispatch>) -> Result<(), WaitsFault>
    ensures reads { OnOk result ((choice : Choice) (text : List ℕ) (before : List Told)
        → HasTold choice running.old text before
        → HasTold choice running.new (text ++ piece.now) (before ++ told.new.items)) }
    ensures fails { IfErr result (λ fault. (choice : Choice) (text : List ℕ) (before : List Told)
        → HasTold choice running.old text before
        → Fails choice.bad_lines (text ++ piece.now) fault) }
    ensures none { IfErr result (λ fault. told.new.items ≡ []) }
{
    told.clear();
    match running.feed(piece, told) {
        Ok(()) => {
            keep_waits(told);
            Ok(())
        }
        Err(fault) => {
            told.clear();
            Err(fault)
        }
    }
}

/// Ends the text of a stream that runs: the waits that are left are there then, and none if it fails.
fn take_end(running: Waits, alloc: Global, told: &mut Vec<Dispatch>) -> Result<Finished, WaitsFault>
    ensures reads { IfOk result (λ finished. (choice : Choice) (text : List ℕ) (before : List Told)
        → HasTold choice running text before
        → AreWaits choice text (before ++ told.new.items) finished) }
    ensures fails { IfErr result (λ fault. (choice : Choice) (text : List ℕ) (before : List Told)
        → HasTold choice running text before
        → FailsAt choice.bad_lines (history text) fault) }
    ensures none { IfErr result (λ fault. told.new.items ≡ []) }
{
    told.clear();
    match end_text(running, alloc, told) {
        Ok(finished) => {
            keep_waits(told);
            Ok(finished)
        }
        Err(fault) => {
            told.clear();
            Err(fault)
        }
    }
}

/// Ends the text of a stream that runs, and makes an index of its holes.
fn end_text(running: Waits, alloc: Global, out: &mut Vec<Dispatch>) -> Result<Finished, WaitsFault>
    ensures reads { IfOk result (λ finished. (choice : Choice) (text : List ℕ) (told : List Told)
        → HasRead choice running text (told ++ out.old.items)
        → AreDispatches choice text (told ++ out.new.items) finished.read) }
    ensures doubts { IfOk result (λ finished. finished.doubts ≡ finished.read.losses.holes.items) }
    ensures fails { IfErr result (λ fault. (choice : Choice) (text : List ℕ) (told : List Told)
        → HasRead choice running text (told ++ out.old.items)
        → FailsAt choice.bad_lines (history text) fault) }
{
    let read = running.finish(alloc, out)?;
    let doubts = Doubts::of(alloc, &read.losses.holes)?;
    Ok(Finished { read, doubts })
}

/// Feeds a stream, by where it stands.
pub(crate) fn feed_phase(
    phase: &mut Phase,
    piece: &[u8],
    told: &mut Vec<Dispatch>,
) -> Result<(), StreamFault>
    ensures reads { IfNone (refused_at phase.old) ((kind : Kind) (choice : Choice) (text : List ℕ) (before : List Told)
        → Streams kind choice phase.old text before
        → Streams kind choice phase.new (text ++ piece.now) (before ++ told.new.items)) }
    ensures accepted { OnOk result (refused_at phase.new ≡ None) }
    ensures refused { IfErr result (λ why. refused_at phase.new ≡ Some why) }
    ensures none { IfNone (refused_at phase.old) (OnErr result (told.new.items ≡ [])) }
    ensures stays { IfSome (refused_at phase.old) (λ why. (result ≡ Err why)
        × (phase.new ≡ phase.old) × (told.new ≡ told.old)) }
{
    match phase {
        Phase::Running(running) => match take_piece(running, piece, told) {
            Ok(()) => Ok(()),
            Err(fault) => {
                *phase = Phase::Failed(fault);
                Err(StreamFault::Text(fault))
            }
        },
        Phase::Part(part) => match part.feed(piece, told) {
            Ok(()) => Ok(()),
            Err(fault) => {
                *phase = Phase::Failed(fault);
                Err(StreamFault::Text(fault))
            }
        },
        Phase::Failed(fault) => Err(StreamFault::Text(*fault)),
        Phase::Idle | Phase::Finished(_) => Err(StreamFault::NoStream),
    }
}

/// Ends a stream's text, by where it stands: what was read of it, as C has it.
pub(crate) fn finish_phase(
    phase: &mut Phase,
    alloc: Global,
    told: &mut Vec<Dispatch>,
) -> Result<ReadLayout, StreamFault>
    ensures reads { IfNone (no_whole_at phase.old) ((choice : Choice) (text : List ℕ) (before : List Told)
        → Streams Whole choice phase.old text before
        → Ends choice phase.new text (before ++ told.new.items)) }
    ensures accepted { IfOk result (λ shown. (failed_at phase.new ≡ None)
        × IsSomeAnd (finished_at phase.new) (λ finished. shown ≡ read_layout finished)) }
    ensures refused { IfNone (no_whole_at phase.old) (IfErr result (λ why. (failed_at phase.new ≡ Some why)
        × (told.new.items ≡ []))) }
    ensures stays { IfSome (no_whole_at phase.old) (λ why. (result ≡ Err why)
        × (phase.new ≡ phase.old) × (told.new ≡ told.old)) }
{
    match mem::replace(phase, Phase::Idle) {
        Phase::Running(running) => match take_end(running, alloc, told) {
            Ok(finished) => {
                let shown = ReadLayout::of(&finished);
                *phase = Phase::Finished(finished);
                Ok(shown)
            }
            Err(fault) => {
                *phase = Phase::Failed(fault);
                Err(StreamFault::Text(fault))
            }
        },
        Phase::Part(part) => {
            *phase = Phase::Part(part);
            Err(StreamFault::NoStream)
        }
        Phase::Failed(fault) => {
            *phase = Phase::Failed(fault);
            Err(StreamFault::Text(fault))
        }
        Phase::Finished(finished) => {
            *phase = Phase::Finished(finished);
            Err(StreamFault::NoStream)
        }
        Phase::Idle => Err(StreamFault::NoStream),
    }
}

/// Writes how sure waits are, if the text has ended.
pub(crate) fn doubt_phase(phase: &Phase, waits: &mut [WaitLayout]) -> Result<(), StreamFault>
    ensures accepted { OnOk result ((unfinished_at phase.now ≡ None)
        × (waits.new ≡ map (with_doubt (holes_at phase.now)) waits.old)) }
    ensures refused { IfErr result (λ why. (unfinished_at phase.now ≡ Some why)
        × (waits.new ≡ waits.old)) }
{
    match phase {
        Phase::Finished(finished) => {
            doubt_all(&finished.doubts, waits);
            Ok(())
        }
        Phase::Failed(fault) => Err(StreamFault::Text(*fault)),
        Phase::Idle | Phase::Running(_) | Phase::Part(_) => Err(StreamFault::NoStream),
    }
}

impl Phase {
    /// The holes of a text that has ended.
    pub fn holes(&self) -> &[Hole]
        ensures { result.now ≡ holes_at self.now }
    {
        match self {
            Phase::Finished(finished) => finished.doubts.holes(),
            _ => &[],
        }
    }

    /// How many events were left out, once the text has ended.
    pub fn left_out(&self) -> &[LeftOut]
        ensures { result.now ≡ left_out_at self.now }
    {
        match self {
            Phase::Finished(finished) => finished.read.left_out.as_slice(),
            _ => &[],
        }
    }

    /// How many events each CPU had so far, by its number: in lines that have ended, if the text hasn't.
    pub fn events(&self) -> &[u32]
        ensures value { result.now ≡ events_at self.now }
        ensures meaning { (kind : Kind) (choice : Choice) (text : List ℕ) (told : List Told)
            → Streams kind choice self.now text told → refused_at self.now ≡ None
            → CountsEvents result.now (events_of (history_so_far text)) }
    {
        match self {
            Phase::Running(running) => running.events(),
            Phase::Part(part) => part.waits.events(),
            Phase::Finished(finished) => finished.read.events.as_slice(),
            Phase::Idle | Phase::Failed(_) => &[],
        }
    }

    /// The stamp of the last event so far, in lines that have ended, if the text hasn't. Refused if no
    /// stream has begun, and of a text that is refused.
    pub(crate) fn last(&self) -> Result<Option<u64>, StreamFault>
        ensures value { IfOk result (λ last. (untold_at self.now ≡ None) × (last ≡ last_at self.now)) }
        ensures refused { IfErr result (λ why. untold_at self.now ≡ Some why) }
        ensures meaning { IfOk result (λ last. (kind : Kind) (choice : Choice) (text : List ℕ) (told : List Told)
            → Streams kind choice self.now text told → last ≡ last_stamp (events_of (history_so_far text))) }
    {
        match self {
            Phase::Running(running) => Ok(running.last()),
            Phase::Part(part) => Ok(part.waits.last()),
            Phase::Finished(finished) => Ok(finished.read.last),
            Phase::Failed(fault) => Err(StreamFault::Text(*fault)),
            Phase::Idle => Err(StreamFault::NoStream),
        }
    }
}
