//! Questions about a text of which nothing is held: its lines, and what they report lost.

ghost use Rattle.std.specs.Prelude.{◌≡◌, [], Ok, None};
ghost use Rattle.ft_lines.specs.Lines.{text_lines};
ghost use Rattle.ft_session.specs.Calls.{ReadsLines, ReadsLosses};

use crate::outcome::{accept, hold, refuse};
use crate::session::Session;
use ft_answers::Refused;
use ft_lines::{LossesLayout, lines_in, losses_in};
use ft_losses::LossesRead;
use std::alloc::Global;

/// No losses.
pub(crate) fn no_losses(alloc: Global) -> LossesRead
    ensures holes { result.holes.items ≡ [] }
    ensures buffers { result.buffers ≡ None }
{
    LossesRead {
        holes: Vec::new(alloc),
        buffers: None,
    }
}

impl Session {
    /// Asks for the lines of a text: how many they are. Refused only for memory.
    #[tactic(auto, unfolding(crate::specs::Calls::ReadsLines))]
    pub fn lines(&mut self, text: &[u8], count: &mut u64) -> u32
        ensures { ReadsLines (Ok (text_lines text.now))
            self.old count.old result count.new self.new }
    {
        let answer = lines_in(self.alloc, text).map_err(|_| Refused::Memory);
        hold(answer, &mut self.lines, count, &mut self.refused)
    }

    /// Asks for what the lines of a text report lost: how many holes there are, and what the kernel's header
    /// counts. Refused only for memory.
    #[tactic(auto, unfolding(crate::specs::Calls::ReadsLosses))]
    pub fn losses(&mut self, text: &[u8], read: &mut LossesLayout) -> u32
        ensures { ReadsLosses text.now self.old read.old result read.new self.new }
    {
        match losses_in(self.alloc, text) {
            Ok(losses) => {
                *read = LossesLayout::of(&losses);
                self.losses = losses;
                accept(&mut self.refused)
            }
            Err(_) => refuse(&mut self.refused, Refused::Memory),
        }
    }
}
