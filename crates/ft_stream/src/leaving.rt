//! Events that a stream leaves out.

ghost use Rattle.std.specs.Prelude.{◌≡◌, ◌⊎◌, OnOk, IfOk, IfErr, IfSome, IfNone, Ok, Err};
ghost use Rattle.ft_stream.specs.Leaving.{without_for, IsUnread, LeavesThemOut, IsRefused};
ghost use Rattle.ft_stream.specs.Telling.{refused_at};
ghost use Rattle.ft_stream.specs.inner.Leaving.{AreLeftOut, AreNotLeftOut};

use crate::fault::StreamFault;
use crate::phase::Phase;
use ft_fields::Name;
use ft_filter::{FilterFault, parse};
use ft_waits::{Waits, WaitsFault, Without, WithoutFault};
use std::alloc::Global;

/// Reads which events of a name are left out: those that pass the filter of a text, or all if that
/// is empty.
fn read_without(alloc: Global, name: Name, filter: &[u8]) -> Result<Without, StreamFault>
    ensures ok { IfOk result (λ without. without_for name filter.now ≡ Ok without) }
    ensures err { IfErr result (λ why. (why ≡ StreamFault.Text WaitsFault.Memory) ⊎ IsUnread name filter.now why) }
{
    if filter.is_empty() {
        return Ok(Without { name, filter: None });
    }
    match parse(alloc, filter, name) {
        Ok(filter) => Ok(Without {
            name,
            filter: Some(filter),
        }),
        Err(FilterFault::Memory) => Err(StreamFault::Text(WaitsFault::Memory)),
        Err(fault) => Err(StreamFault::Filter(fault)),
    }
}

/// Leaves events out of a text, or of a part.
fn leave_out(waits: &mut Waits, alloc: Global, name: Name, filter: &[u8]) -> Result<(), StreamFault>
    ensures leaves { OnOk result (AreLeftOut name filter.now waits.old waits.new) }
    ensures failed { waits.new.failed ≡ waits.old.failed }
    ensures refused { IfErr result (λ why. AreNotLeftOut name filter.now waits.old waits.new why) }
{
    if waits.has_begun() {
        return Err(StreamFault::NoStream);
    }
    if name == Name::Other {
        return Err(StreamFault::NoEvent);
    }
    let without = read_without(alloc, name, filter)?;
    match waits.leave_out(without) {
        Ok(()) => Ok(()),
        Err(WithoutFault::Memory) => Err(StreamFault::Text(WaitsFault::Memory)),
        Err(WithoutFault::Late) => Err(StreamFault::NoStream),
    }
}

/// Leaves events out of a text, by where its stream stands.
pub(crate) fn leave_out_phase(
    phase: &mut Phase,
    alloc: Global,
    name: Name,
    filter: &[u8],
) -> Result<(), StreamFault>
    ensures leaves { IfNone (refused_at phase.old) (OnOk result (LeavesThemOut name filter.now phase.old phase.new)) }
    ensures refused { IfNone (refused_at phase.old) (IfErr result (λ why.
        IsRefused name filter.now phase.old phase.new why)) }
    ensures stays { IfSome (refused_at phase.old) (λ why. (result ≡ Err why) × (phase.new ≡ phase.old)) }
{
    match phase {
        Phase::Running(running) => leave_out(running, alloc, name, filter),
        Phase::Part(part) => leave_out(&mut part.waits, alloc, name, filter),
        Phase::Failed(fault) => Err(StreamFault::Text(*fault)),
        Phase::Idle | Phase::Finished(_) => Err(StreamFault::NoStream),
    }
}
