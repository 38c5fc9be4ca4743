//! A handle: a session in a box, as C keeps it.
//!
//! It is one word in memory, null at first, so that a struct of C which is all zero is a handle that
//! holds nothing. A caller in C writes nothing to it, and uses no copy of it. Whoever has the handle
//! takes the session out, calls it as any value, and puts it back.
//!
//! ```ignore
//! let mut handle = Handle::empty();
//! handle.put(alloc, Box::new(alloc, Session::new(alloc))?);
//! if let Some(mut session) = handle.take(alloc) {
//!     let code = session.load(trace, &mut events);
//!     handle.put(alloc, session);
//! }
//! handle.end(alloc);
//! ```

ghost use Rattle.std.specs.Prelude.{◌≡◌, Option, Some, None};
ghost use Rattle.std.specs.Option.{MatchOption};
ghost use Rattle.ft_c.specs.Owned.{Held, held_code};

use crate::parts::Parts;
use ft_session::Session;
use std::alloc::Global;
use std::marker::Model;
use std::mem;
use std::ptr::null_mut;

/// A pointer that is null, or that owns a session in a box at the global allocator.
///
/// It is not `Drop`, so that no code lets a session go unseen: a handle ends by `end`.
#[repr(C)]
pub struct Handle {
    at: *mut u8,
    pub ghost held: { Option Held } by { held_code },
}

impl Model for Handle {
    ghost use Rattle.ft_c.specs.Owned.{handle_owns};

    ghost also_owns = { λ h. handle_owns h.at h.held };
}

impl Handle {
    /// A handle that holds nothing.
    pub fn empty() -> Handle
        ensures { result.held ≡ None }
    {
        Handle { at: null_mut() }
    }

    /// Takes the session out, if there is one. The handle then holds nothing.
    pub fn take(&mut self, alloc: Global) -> Option<Box<Session>>
        ensures value { MatchOption result (self.old.held ≡ None)
            (λ session. self.old.held ≡ Some session.value) }
        ensures after { self.new.held ≡ None }
    {
        match mem::replace(self, Handle::empty()).into_parts(alloc) {
            Some(parts) => Some(parts.into_box()),
            None => None,
        }
    }

    /// Puts a session in, and drops the one that was there.
    pub fn put(&mut self, alloc: Global, session: Box<Session>)
        ensures { self.new.held ≡ Some session.value }
    {
        mem::replace(self, Handle::of_parts(Parts::of(session))).end(alloc);
    }

    /// Ends a handle, and drops the session that it holds.
    pub fn end(self, alloc: Global) {
        if let Some(parts) = self.into_parts(alloc) {
            drop(parts.into_box());
        }
    }

    /// The handle that holds what was in a box.
    fn of_parts(parts: Parts<Session, Global>) -> Handle
        ensures { result.held ≡ Some parts.value }
    {
        let Parts { ptr, alloc: _ } = parts;
        Handle { at: ptr as *mut u8 }
    }

    /// The parts of the box that a handle holds, if it holds one.
    fn into_parts(self, alloc: Global) -> Option<Parts<Session, Global>>
        ensures { MatchOption result (self.held ≡ None) (λ parts. self.held ≡ Some parts.value) }
    {
        let Handle { at } = self;
        if at.is_null() {
            None
        } else {
            Some(Parts {
                ptr: at as *mut Session,
                alloc,
            })
        }
    }
}
