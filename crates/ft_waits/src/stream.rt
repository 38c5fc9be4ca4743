//! What is kept of a text that comes in pieces.

ghost use Rattle.std.specs.Prelude.{◌≡◌, ◌==◌, false};
ghost use Rattle.std.specs.List.{list_any};

use crate::fault::WaitsFault;
use crate::reading::Reading;

/// The switches to tasks in a trace text that comes in pieces of any size.
#[derive(Drop)]
pub struct Waits {
    pub(crate) reading: Reading,
    /// The beginning of a line that has not ended.
    pub(crate) unended: Vec<u8>,
    /// Why the text is read no further.
    pub(crate) failed: Option<WaitsFault>,
    ghost unbroken: { list_any (λ b. b == 10) unended.items ≡ false },
}
