//! The desk for C: `histdesk_new`, `histdesk_load` and the other calls of `include/histdesk.h`.
//!
//! Each call takes the session out of the caller's handle, calls it, and puts it back. What it does
//! is told by the relation that the session's method has. If the handle holds nothing, a call with
//! a code answers `CLOSED` (`histdesk_new` fills it), a copy answers 0, and nothing is written.
//!
//! A caller in C passes no argument for a `Global`, and a pointer and a length for a slice. Nothing
//! checks what it must keep: it passes a handle that is all zero or as these calls left it, no copy
//! of one, from one thread at a time, and two handles that are not the same; no null pointer, not
//! even for a text of no bytes; and a `bool` of 0 or 1 in a refusal that is read.
//!
//! ```ignore
//! let mut desk = Handle::empty();
//! assert_eq!(rt; histdesk_new(alloc, &mut desk), 0);
//! let mut events = 0;
//! assert_eq!(rt; histdesk_load(alloc, &mut desk, trace, &mut events), 0);
//! histdesk_free(alloc, &mut desk);
//! // No desk is there.
//! assert_eq!(rt; histdesk_load(alloc, &mut desk, trace, &mut events), 255);
//! ```
//!
//! # Contracts
//!
//! - Each `histdesk_..` with a code, except `histdesk_new`: if the handle holds a session, what the
//!   session's call says, and it is in the handle again; if it holds nothing, the code for that
//!   (`specs/Calls.antt`), and nothing is written. A copy copies from what the session holds
//!   (`specs/Copies.antt`), or nothing; `histdesk_events_copy` copies what is held now at the
//!   places that the session holds, by stamp, CPU and line. Lets through: what the session does.
//! - `histdesk_lines`, `histdesk_losses`: what the session's call says of a text (`ReadsLines`, `ReadsLosses` of
//!   `ft_session`, over `ft_lines`); the desk holds nothing of it. Their copies are as any other.
//! - `histdesk_waits_..`: what the call of the session's stream says (`specs/Calls.antt` of
//!   `ft_stream`), and the session is as before, except for the stream (`OnlyWaits`).
//!   `histdesk_waits_join` has two handles (`CallsBoth`): if one of them holds nothing, it answers
//!   the code for that, and both stay as they are.
//! - `Handle::empty`, `take`, `put`: contracts see what a handle holds: a session, or nothing,
//!   which is null. `take` gives the session and leaves nothing; `put` drops what was there and
//!   holds the session; exact. `end` drops what is held, and has no clause. `Handle` has no `Drop`,
//!   so that no code lets a session go unseen. Lets through: that the memory of a session that is let
//!   go is kept, in `end`, `put`, `histdesk_new` and `histdesk_free`; tests see that it is freed.
//! - `Parts::of`, `Parts::into_box`: the parts of a box own what the box owned and have its value,
//!   and the box is that of the parts.
//! - `histdesk_refusal_text` copies the line of a refusal; `histdesk_refusal_words` copies some
//!   words, as much of them as has room, and none if the numbers are of no refusal. Both answer how
//!   many bytes that is. Let through: copying nothing at any time, since memory may run out; any
//!   words.
//!
//! What C owes stands at the head of `include/histdesk.h`, and is assumed. That a handle is null or
//! owns its session is what every export leaves, so that C can break it only by writing to it.
#![tactic(auto)]

mod calls;
mod codes;
mod copies;
mod desks;
mod handle;
mod lines;
mod parts;
mod refusals;
mod waits;
