//! `histwatch [SCRIPT [TRACE]...]`: `histdesk` that also prints, after the line of each accepted
//! insert or strike, the rows that it changed, as they were, with `-` in front, and as they are,
//! with `+` in front, and a line with the number of these rows. This is `ft_watch` over the board
//! that keeps tables.
//!
//! ```text
//! $ printf 'load @1\nattach sched_waking hist:keys=pid\nstrike 1:2\n' | histwatch - two-wakings.trace
//! loaded 2
//! attached 1
//! struck 1:2
//! - 1 { pid:         42 } hitcount:          2
//! + 1 { pid:         42 } hitcount:          1
//! changed 1
//! ```
#![tactic(auto)]

use ft_board::KeptBoard;
use std::process::ExitCode;

fn main(rt: HostRuntime) -> ExitCode {
    ExitCode::from(ft_watch::histwatch(&rt, KeptBoard::new(rt.alloc())))
}
