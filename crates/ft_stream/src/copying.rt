//! Copies of what a text told into a caller's room.

ghost use Rattle.std.specs.Prelude.{◌≡◌, ◌-◌, length, min};
ghost use Rattle.ft_layout.specs.Copied.{copied};
ghost use Rattle.ft_stream.specs.Layouts.{wait_layout, hole_layout, left_out_layout};

use crate::layouts::{HoleLayout, LeftOutLayout, WaitLayout};
use ft_dispatch::Dispatch;
use ft_layout::{Shows, copy_part};
use ft_losses::Hole;
use ft_waits::LeftOut;

/// Shows what a text told, each item by itself.
#[derive(Clone, Copy, Debug, PartialEq, Eq)]
pub(crate) struct OfText;

impl Shows<Dispatch> for OfText {
    type Layout = WaitLayout;

    ghost shown = { λ _ dispatch. wait_layout dispatch };

    fn show(&self, item: &Dispatch) -> WaitLayout {
        WaitLayout::of(item)
    }
}

impl Shows<Hole> for OfText {
    type Layout = HoleLayout;

    ghost shown = { λ _ hole. hole_layout hole };

    fn show(&self, item: &Hole) -> HoleLayout {
        HoleLayout::of(item)
    }
}

impl Shows<LeftOut> for OfText {
    type Layout = LeftOutLayout;

    ghost shown = { λ _ count. left_out_layout count };

    fn show(&self, item: &LeftOut) -> LeftOutLayout {
        LeftOutLayout::of(item)
    }
}

impl Shows<u32> for OfText {
    type Layout = u32;

    ghost shown = { λ _ number. number };

    fn show(&self, item: &u32) -> u32 {
        *item
    }
}

/// Copies waits, the dispatches that end them, from the one of this number on, as `copy_part` does.
pub fn copy_waits(all: &[Dispatch], from: u64, to: &mut [WaitLayout]) -> usize
    ensures part { to.new ≡ copied wait_layout from all.now to.old }
    ensures count { result ≡ min (length to.old) (length all.now - from) }
{
    copy_part(&OfText, all, from, to)
}

/// Copies holes from the one of this number on, as `copy_part` does.
pub fn copy_holes(all: &[Hole], from: u64, to: &mut [HoleLayout]) -> usize
    ensures part { to.new ≡ copied hole_layout from all.now to.old }
    ensures count { result ≡ min (length to.old) (length all.now - from) }
{
    copy_part(&OfText, all, from, to)
}

/// Copies how many events were left out, from the count of this number on, as `copy_part` does.
pub fn copy_left_out(all: &[LeftOut], from: u64, to: &mut [LeftOutLayout]) -> usize
    ensures part { to.new ≡ copied left_out_layout from all.now to.old }
    ensures count { result ≡ min (length to.old) (length all.now - from) }
{
    copy_part(&OfText, all, from, to)
}

/// Copies numbers from the one of this number on, as `copy_part` does.
pub fn copy_numbers(all: &[u32], from: u64, to: &mut [u32]) -> usize
    ensures part { to.new ≡ copied (λ number. number) from all.now to.old }
    ensures count { result ≡ min (length to.old) (length all.now - from) }
{
    copy_part(&OfText, all, from, to)
}
