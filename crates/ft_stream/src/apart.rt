//! A part of a longer text, which is read apart.

ghost use Rattle.std.specs.Prelude.{◌≡◌, ◌++◌, [], List, ℕ, OnOk, IfOk, IfErr};
ghost use Rattle.ft_dispatch.specs.declared.dispatch.Dispatch.{Dispatch as Told};
ghost use Rattle.ft_waits.specs.Choice.{Choice, all_events};
ghost use Rattle.ft_waits.specs.Reading.{Fails};
ghost use Rattle.ft_stream.specs.Telling.{HoldsBack};
ghost use Rattle.ft_stream.specs.inner.Parts.{TakesApart, FailsApart};

use crate::phase::keep_waits;
use ft_dispatch::{Dispatch, FirstOnes};
use ft_waits::{BadLines, Waits, WaitsFault};
use std::alloc::{AllocError, Global};

/// A part that takes pieces. What came before it is not known, so the first dispatch of each task is held
/// back: only a join can complete it.
#[derive(Drop)]
pub struct Part {
    /// What was read of it.
    pub waits: Waits,
    /// The first dispatch of each task.
    pub firsts: FirstOnes,
    /// Room for the dispatches of a piece.
    pub(crate) room: Vec<Dispatch>,
}

impl Part {
    /// A part of which nothing is read.
    pub(crate) fn new(alloc: Global, bad_lines: BadLines) -> Result<Part, AllocError>
        ensures { IfOk result (λ part. HoldsBack (all_events bad_lines) part [] []) }
    {
        Ok(Part {
            waits: Waits::new(alloc, bad_lines)?,
            firsts: FirstOnes::new(alloc),
            room: Vec::new(alloc),
        })
    }

    /// Takes a piece: the dispatches that it told are there then, except for the first one of each
    /// task.
    fn take(&mut self, piece: &[u8], told: &mut Vec<Dispatch>) -> Result<(), WaitsFault>
        ensures takes { OnOk result (TakesApart piece.now self.old self.new told.new.items) }
        ensures fails { IfErr result (λ fault. FailsApart piece.now self.old fault) }
    {
        told.clear();
        self.room.clear();
        match self.waits.feed(piece, &mut self.room) {
            Ok(()) => {
                self.firsts.take_all(&self.room, told)?;
                Ok(())
            }
            Err(fault) => Err(fault),
        }
    }

    /// Takes a piece: the waits that it told are there then, and none if it fails.
    pub(crate) fn feed(&mut self, piece: &[u8], told: &mut Vec<Dispatch>) -> Result<(), WaitsFault>
        ensures reads { OnOk result ((choice : Choice) (text : List ℕ) (before : List Told)
            → HoldsBack choice self.old text before
            → HoldsBack choice self.new (text ++ piece.now) (before ++ told.new.items)) }
        ensures fails { IfErr result (λ fault. (choice : Choice) (text : List ℕ) (before : List Told)
            → HoldsBack choice self.old text before
            → Fails choice.bad_lines (text ++ piece.now) fault) }
        ensures none { IfErr result (λ fault. told.new.items ≡ []) }
    {
        match self.take(piece, told) {
            Ok(()) => {
                keep_waits(told);
                Ok(())
            }
            Err(fault) => {
                told.clear();
                Err(fault)
            }
        }
    }
}
