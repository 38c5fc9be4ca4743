//! A part, behind the text of another stream.

ghost use Rattle.std.specs.Prelude.{◌≡◌, ◌⊎◌, [], OnOk, OnErr, IfOk, IfErr, None};
ghost use Rattle.ft_stream.specs.Joining.{CanBeJoined, IsUnfit, IsNotJoined, JoinsTold, RanOut};
ghost use Rattle.ft_stream.specs.Telling.{refused_at};
ghost use Rattle.ft_stream.specs.declared.phase.Phase.TheVariants.{Idle, Running, Part as Apart};
ghost use Rattle.ft_waits.specs.Joining.{CanJoin};

use crate::apart::Part;
use crate::fault::StreamFault;
use crate::phase::{Phase, keep_waits};
use ft_dispatch::{Dispatch, FirstOnes, first_ones_join};
use ft_waits::{JoinFault, Waits, WaitsFault};
use std::alloc::AllocError;
use std::mem;

/// Takes a part out that can be joined to a text.
fn take_part(phase: &mut Phase, running: &Waits) -> Result<Part, StreamFault>
    ensures fits { IfOk result (λ part. (phase.old ≡ Apart part) × CanJoin running.now part.waits × (phase.new ≡ Idle)) }
    ensures refused { IfErr result (λ why. IsUnfit running.now phase.old why × (phase.new ≡ phase.old)) }
{
    match mem::replace(phase, Phase::Idle) {
        Phase::Part(part) => match running.meets(&part.waits) {
            Ok(()) => Ok(part),
            Err(fault) => {
                *phase = Phase::Part(part);
                Err(StreamFault::Part(fault))
            }
        },
        Phase::Running(other) => {
            *phase = Phase::Running(other);
            Err(StreamFault::NoStream)
        }
        Phase::Failed(fault) => {
            *phase = Phase::Failed(fault);
            Err(StreamFault::Part(JoinFault::Failed))
        }
        Phase::Finished(finished) => {
            *phase = Phase::Finished(finished);
            Err(StreamFault::NoStream)
        }
        Phase::Idle => Err(StreamFault::NoStream),
    }
}

/// Joins a part that can be joined: the waits of the last microsecond before the seam are there then, and
/// after them those of the dispatches that the part held back.
fn join_all(running: &mut Waits, part: Part, told: &mut Vec<Dispatch>) -> Result<(), AllocError>
    requires { CanJoin running.old part.waits }
    ensures { OnOk result (JoinsTold (Running running.old) (Apart part) (Running running.new) told.new.items) }
{
    first_ones_join();
    told.clear();
    let Part { waits, firsts, .. } = part;
    let FirstOnes { ones, .. } = firsts;
    let mut ones = ones;
    running.join_met(waits, told, &mut ones)?;
    told.append(&mut ones)?;
    keep_waits(told);
    Ok(())
}

/// Joins a part that can be joined: the waits that this told are there then, and none if memory runs out.
fn join_part(running: &mut Waits, part: Part, told: &mut Vec<Dispatch>) -> Result<(), AllocError>
    requires { CanJoin running.old part.waits }
    ensures joins { OnOk result (JoinsTold (Running running.old) (Apart part) (Running running.new) told.new.items) }
    ensures none { OnErr result (told.new.items ≡ []) }
{
    match join_all(running, part, told) {
        Ok(()) => Ok(()),
        Err(refused) => {
            told.clear();
            Err(refused)
        }
    }
}

/// Joins a part to a text, by where both stand.
pub(crate) fn join_phase(
    phase: &mut Phase,
    part: &mut Phase,
    told: &mut Vec<Dispatch>,
) -> Result<(), StreamFault>
    ensures joins { OnOk result (CanBeJoined phase.old part.old
        × JoinsTold phase.old part.old phase.new told.new.items
        × (refused_at phase.new ≡ None) × (part.new ≡ Idle)) }
    ensures refused { IfErr result (λ why. (IsNotJoined phase.old part.old why
        × (phase.new ≡ phase.old) × (part.new ≡ part.old) × (told.new ≡ told.old))
        ⊎ (CanBeJoined phase.old part.old × RanOut why phase.new part.new told.new.items)) }
{
    match phase {
        Phase::Running(running) => {
            let apart = take_part(part, running)?;
            match join_part(running, apart, told) {
                Ok(()) => Ok(()),
                Err(_) => {
                    *phase = Phase::Failed(WaitsFault::Memory);
                    Err(StreamFault::Text(WaitsFault::Memory))
                }
            }
        }
        Phase::Failed(fault) => Err(StreamFault::Text(*fault)),
        Phase::Idle | Phase::Part(_) | Phase::Finished(_) => Err(StreamFault::NoStream),
    }
}
