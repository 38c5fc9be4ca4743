//! Runs: all hits of a key, by spot.

ghost use Rattle.std.specs.Prelude.{◌≡◌, ◌+◌, length};

use crate::spot::Spot;
use ft_maps::Work;

/// Counts a put for each hit of a run. At run time it is nothing.
pub fn count_puts(run: &[(Spot, [i64; 3])], work: &mut Work)
    ensures puts { work.new.puts ≡ work.old.puts + length run.now }
    ensures evals { work.new.evals ≡ work.old.evals }
{
    for _ in run {
        work.tick_put();
    }
}
