//! The first events of CPUs: by them a part that was read apart shows whether switches are missing before it.

ghost use Rattle.std.specs.Prelude.{◌≡◌, ◌++◌, None, OnOk, slice_index_or};
ghost use Rattle.ft_waits.specs.inner.Starts.{started, start_of};

use crate::missing::Missing;
use crate::ran::Ran;
use ft_fields::{EventRef, Pos};
use std::alloc::AllocError;

/// The first event of a CPU.
#[derive(Clone, Copy, Debug, PartialEq, Eq)]
pub(crate) struct Start {
    /// The task that ran.
    pub(crate) pid: i32,
    /// Where the event stands.
    pub(crate) place: Pos,
    /// Whether no event before it shows that a switch is missing.
    pub(crate) is_clear: bool,
}

/// What a CPU runs, if a line says anything of it.
#[inline(always)]
pub(crate) fn running_on(running: &[Option<Ran>], cpu: u16) -> Option<Ran>
    ensures { result ≡ slice_index_or running.now cpu None }
{
    match running.get(usize::from(cpu)) {
        Some(ran) => *ran,
        None => None,
    }
}

/// Takes note of an event at its place, if it is the first one of its CPU, and no line before says that the CPU
/// lost events.
#[inline(always)]
pub(crate) fn note_start(
    starts: &mut Vec<Start>,
    running: &[Option<Ran>],
    missing: &Missing,
    event: &EventRef<'_>,
    place: Pos,
) -> Result<(), AllocError>
    ensures { OnOk result (starts.new.items ≡ starts.old.items
        ++ started (slice_index_or running.now event.now.cpu None) (start_of event.now.pid place missing.now)) }
{
    if running_on(running, event.cpu).is_none() {
        starts.push(Start {
            pid: event.pid,
            place,
            is_clear: missing.first.is_none(),
        })?;
    }
    Ok(())
}
