//! What acts show, given to the windows.

ghost use Rattle.std.specs.Prelude.{◌≡◌, ◌++◌, [], List, OnOk};
ghost use Rattle.ft_fields.specs.Traced.{Traced};
ghost use Rattle.ft_dispatch.specs.declared.showing.Showing.{Showing};
ghost use Rattle.ft_windows.specs.Telling.{Keeps};
ghost use Rattle.ft_waits.specs.inner.Seams.{ShowsPart};

use crate::kept::KeptActs;
use ft_dispatch::{FirstWaking, Shown};
use ft_windows::Windows;
use std::alloc::AllocError;

/// Gives what acts show to the windows: no showing is kept then. Fails only for memory.
#[inline(always)]
pub(crate) fn give(windows: &mut Windows, shown: &mut Shown) -> Result<(), AllocError>
    ensures windows { OnOk result ((events : List Traced) (showings : List Showing) → Keeps windows.old events showings
        → Keeps windows.new events (showings ++ shown.old.showings.items)) }
    ensures none { OnOk result (shown.new.showings.items ≡ []) }
    ensures firsts { shown.new.firsts ≡ shown.old.firsts }
{
    windows.show_all(&shown.showings)?;
    shown.showings.clear();
    Ok(())
}

/// Gives what a part showed, and what its first wakings show behind the acts so far, to the windows. To be called
/// before the tasks of the part are joined. Fails only for memory.
pub(crate) fn show_part(
    acts: &mut KeptActs,
    firsts: &[FirstWaking],
    windows: Windows,
) -> Result<(), AllocError>
    ensures shows { OnOk result (ShowsPart acts.old firsts.now windows acts.new) }
    ensures tasks { acts.new.tasks ≡ acts.old.tasks }
    ensures held { acts.new.held ≡ acts.old.held }
{
    acts.tasks.show_firsts(firsts, &mut acts.shown)?;
    acts.windows.join(windows)?;
    give(&mut acts.windows, &mut acts.shown)?;
    Ok(())
}
