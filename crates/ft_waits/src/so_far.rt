//! What a stream knows of the text so far.

ghost use Rattle.std.specs.Prelude.{◌≡◌, ◌≢◌, [], ℕ, List, None, true, false, option_map};
ghost use Rattle.ft_dispatch.specs.declared.dispatch.Dispatch.{Dispatch};
ghost use Rattle.ft_waits.specs.Choice.{Choice};
ghost use Rattle.ft_waits.specs.Reading.{events_of, history_so_far, last_stamp as stamp_of_last, CountsEvents};
ghost use Rattle.ft_waits.specs.Streams.{HasRead, counts_kept, last_kept};

use crate::stream::Waits;

/// The last event's stamp, if there is a first event.
pub(crate) fn last_stamp(first: Option<u64>, latest: u64) -> Option<u64>
    ensures { result ≡ option_map (λ stamp. latest) first }
{
    match first {
        Some(_) => Some(latest),
        None => None,
    }
}

impl Waits {
    /// Whether bytes of the text were read, or the stream failed.
    pub fn has_begun(&self) -> bool
        ensures yes { result ≡ true → self.now.failed ≡ None
            → (choice : Choice) (text : List ℕ) (told : List Dispatch)
            → HasRead choice self.now text told → text ≢ [] }
        ensures no { result ≡ false → (choice : Choice) (text : List ℕ) (told : List Dispatch)
            → HasRead choice self.now text told → text ≡ [] }
        ensures failed { result ≡ false → self.now.failed ≡ None }
        ensures lines { result ≡ false → self.now.reading.read.lines ≡ 0 }
        ensures unended { result ≡ false → self.now.unended.items ≡ [] }
    {
        if self.failed.is_some() {
            return true;
        }
        if self.reading.read.lines > 0 {
            return true;
        }
        !self.unended.is_empty()
    }

    /// How many events each CPU had in the lines that have ended so far, by its number.
    pub fn events(&self) -> &[u32]
        ensures value { result.now ≡ counts_kept self.now }
        ensures meaning { self.now.failed ≡ None → (choice : Choice) (text : List ℕ) (told : List Dispatch)
            → HasRead choice self.now text told → CountsEvents result.now (events_of (history_so_far text)) }
    {
        &self.reading.state.lines
    }

    /// The stamp of the last event in the lines that have ended so far, in microseconds.
    pub fn last(&self) -> Option<u64>
        ensures value { result ≡ last_kept self.now }
        ensures meaning { self.now.failed ≡ None → (choice : Choice) (text : List ℕ) (told : List Dispatch)
            → HasRead choice self.now text told → result ≡ stamp_of_last (events_of (history_so_far text)) }
    {
        last_stamp(self.reading.state.first, self.reading.state.latest)
    }
}
