//! The events so far, as far as switches to come need them.

ghost use Rattle.std.specs.Prelude.{◌≡◌, vec_len};

use crate::kept::KeptActs;
use crate::left_out::LeftOut;
use crate::missing::Missing;
use crate::ran::Ran;
use crate::starts::Start;
use ft_summary::Summary;

/// How many CPUs there can be.
pub(crate) const CPUS: usize = 8192;

/// What is kept of the events so far.
#[derive(Drop)]
pub(crate) struct State {
    /// How many events each CPU had.
    pub(crate) lines: Vec<u32>,
    /// The first event's stamp.
    pub(crate) first: Option<u64>,
    /// The last event's stamp.
    pub(crate) latest: u64,
    /// Its acts, and what is known by the acts before it.
    pub(crate) acts: KeptActs,
    /// What the acts before that stamp sum up to, if that is wanted.
    pub(crate) sums: Option<Summary>,
    /// What each CPU runs, if a line says anything of it.
    pub(crate) running: Vec<Option<Ran>>,
    /// The first event of each CPU, in the order of the text, if no line before says that the CPU lost events.
    pub(crate) starts: Vec<Start>,
    /// Switches that are missing.
    pub(crate) missing: Missing,
    /// Events that are left out: they say nothing of who runs.
    pub(crate) left_out: Vec<LeftOut>,
    ghost all_cpus: { vec_len lines ≡ 8192 },
    ghost each_cpu: { vec_len running ≡ 8192 },
}
