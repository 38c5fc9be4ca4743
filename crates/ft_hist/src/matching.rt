//! Whether the keys of two triggers can be the same.

ghost use Rattle.std.specs.Prelude.{◌≡◌, ◌↔◌, IsTrue, map};
ghost use Rattle.ft_hist.specs.Matching.{item_kind, keys_match};
ghost use Rattle.ft_hist.specs.Modifiers.{same_kind};

use crate::item::KeyItem;
use crate::trigger::Trigger;

impl Trigger {
    /// Whether its keys match those of the trigger that saves the variable that it reads: there are
    /// as many of both, and the two of each pair are both plain or hexadecimal numbers, both
    /// powers, both multiples of one size, or both texts.
    pub fn keys_match(&self, saver: &Trigger) -> bool
        // The answer, as a function of both lists of keys.
        ensures exact { result ≡ keys_match self.now.keys saver.now.keys }
        // What the answer says: one by one, the keys make parts of the same kinds.
        ensures meaning { IsTrue result
            ↔ (map item_kind self.now.keys ≡ map item_kind saver.now.keys) }
    {
        items_match(self.keys(), saver.keys())
    }
}

/// Whether two lists have the same number of key items, and the two of each pair are of the same
/// kind.
fn items_match(a: &[KeyItem], b: &[KeyItem]) -> bool
    ensures { result ≡ keys_match a.now b.now }
{
    match (a.split_first(), b.split_first()) {
        (None, None) => true,
        (Some((x, xs)), Some((y, ys))) => is_same_kind(*x, *y) && items_match(xs, ys),
        _ => false,
    }
}

/// Whether two key items make parts of the same kind.
fn is_same_kind(a: KeyItem, b: KeyItem) -> bool
    ensures { result ≡ same_kind (item_kind a) (item_kind b) }
{
    match (a.field.is_text(), b.field.is_text()) {
        (true, true) => true,
        (false, false) => a.mode.matches(b.mode),
        _ => false,
    }
}
