//! `histdesk [SCRIPT [TRACE]...]`: hist triggers over the text of a tracefs trace. The script has
//! one command on each line, and `@1` in it is the first trace; without SCRIPT, or if it is `-`,
//! the script is standard input. This is `ft_desk` over the board that keeps tables.
//!
//! ```text
//! $ printf 'load @1\nattach sched_waking hist:keys=pid\ntotals 1\n' | histdesk - two-wakings.trace
//! loaded 2
//! attached 1
//! hits 2 entries 1 dropped 0
//! ```
#![tactic(auto)]

use ft_board::KeptBoard;
use std::process::ExitCode;

fn main(rt: HostRuntime) -> ExitCode {
    ExitCode::from(ft_desk::histdesk(&rt, KeptBoard::new(rt.alloc())))
}
