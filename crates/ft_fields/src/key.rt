//! Keys: what a trigger counts events under.

ghost use Rattle.std.specs.Prelude.{◌≡◌, ◌<◌, ◌≤◌, ◌∷◌, [], length, slice_get};
ghost use Rattle.std.proofs.Common.{rules};
ghost use Rattle.std.specs.Cmp.{partial_equiv_from_equiv, partial_order_from_total};
ghost use Rattle.std.specs.Cmp.Rules.{comparing};
ghost use Rattle.std.specs.Ordering.{as_partial_cmp, eq_by_cmp};
ghost use Rattle.ft_fields.specs.Parts.{part_kind, part_cmp, key_cmp};
ghost use Rattle.ft_fields.specs.inner.Stored.{last_parts, rest_parts};
ghost use Rattle.ft_fields.specs.Orders.{part_cmp_total, key_cmp_total, part_ties, key_ties};

use crate::comm::Comm;
use std::cmp::Ordering;
use std::marker::Model;

/// One part of a key: what a key item makes of its field's value.
#[derive(Clone, Copy, Debug)]
pub enum Part {
    /// A number, plain or to be printed in hexadecimal.
    Num(i64),
    /// The least n for which the number is at most 2 to the n.
    Log2(u8),
    /// The greatest multiple of the bucket's size that is not above the number.
    Bucket(u64),
    /// A text.
    Text(Comm),
}

/// What a trigger counts an event under: one to three parts.
///
/// Contracts see the list of its parts.
#[derive(Clone, Copy, Debug)]
pub struct Key {
    first: Part,
    rest: Rest,
}

/// What stands after a key's first part.
#[derive(Clone, Copy, Debug)]
enum Rest {
    End,
    More(Part, Last),
}

/// What stands after a key's second part.
#[derive(Clone, Copy, Debug)]
enum Last {
    Done,
    Third(Part),
}

impl Model for Key {
    ghost use Rattle.std.specs.Prelude.{List, ◌∷◌};
    ghost use Rattle.ft_fields.specs.declared.key.Part.{Part};
    ghost use Rattle.ft_fields.specs.inner.Stored.{rest_parts, first_of, rest_of, rest_back};

    ghost Value = { List Part };

    ghost view = { λ k. k.first ∷ rest_parts k.rest };

    ghost inverse = { λ parts. record { first = first_of parts; rest = rest_of parts } };

    ghost inverse_ok = { λ k h i. record { first = k.first; rest = rest_back k.first k.rest i } };
}

impl Key {
    /// The key of one part.
    pub fn of_one(first: Part) -> Key
        ensures { result ≡ first ∷ [] }
    {
        Key {
            first,
            rest: Rest::End,
        }
    }

    /// The key of two parts.
    pub fn of_two(first: Part, second: Part) -> Key
        ensures { result ≡ first ∷ second ∷ [] }
    {
        Key {
            first,
            rest: Rest::More(second, Last::Done),
        }
    }

    /// The key of three parts.
    pub fn of_three(first: Part, second: Part, third: Part) -> Key
        ensures { result ≡ first ∷ second ∷ third ∷ [] }
    {
        Key {
            first,
            rest: Rest::More(second, Last::Third(third)),
        }
    }

    /// Its part of this number, from 0, or `None` after its last. There are one to three.
    pub fn part(&self, number: usize) -> Option<Part>
        ensures value { result ≡ slice_get self.now number }
        ensures some { 0 < length self.now }
        ensures few { length self.now ≤ 3 }
    {
        match (number, self.rest) {
            (0, _) => Some(self.first),
            (1, Rest::More(second, _)) => Some(second),
            (2, Rest::More(_, Last::Third(third))) => Some(third),
            _ => None,
        }
    }
}

impl Part {
    /// The number of its kind, by which unlike parts are ordered.
    fn kind(&self) -> u8
        ensures { result ≡ part_kind self.now }
    {
        match self {
            Part::Num(_) => 0,
            Part::Log2(_) => 1,
            Part::Bucket(_) => 2,
            Part::Text(_) => 3,
        }
    }
}

impl PartialEq for Part {
    ghost eq = { eq_by_cmp part_cmp };

    ghost laws = { partial_equiv_from_equiv part_ties };

    fn eq(&self, other: &Part) -> bool {
        self.cmp(other) == Ordering::Equal
    }
}

impl Eq for Part {
    ghost laws = { part_ties };
}

impl PartialOrd for Part {
    ghost partial_cmp = { as_partial_cmp part_cmp };

    ghost laws = { partial_order_from_total part_cmp_total };

    fn partial_cmp(&self, other: &Part) -> Option<Ordering> {
        Some(self.cmp(other))
    }
}

impl Ord for Part {
    ghost cmp = { part_cmp };

    ghost total = { part_cmp_total };

    ghost matches_partial_cmp = { Prim.search (comparing, rules) };

    ghost matches_eq = { Prim.search (comparing, rules) };

    fn cmp(&self, other: &Part) -> Ordering {
        match (self, other) {
            (Part::Num(a), Part::Num(b)) => a.cmp(b),
            (Part::Log2(a), Part::Log2(b)) => a.cmp(b),
            (Part::Bucket(a), Part::Bucket(b)) => a.cmp(b),
            (Part::Text(a), Part::Text(b)) => a.cmp(b),
            _ => self.kind().cmp(&other.kind()),
        }
    }
}

/// How what stands after two keys' second parts is ordered.
fn last_cmp(a: &Last, b: &Last) -> Ordering
    ensures { result ≡ key_cmp (last_parts a.now) (last_parts b.now) }
{
    match (a, b) {
        (Last::Done, Last::Done) => Ordering::Equal,
        (Last::Done, Last::Third(_)) => Ordering::Less,
        (Last::Third(_), Last::Done) => Ordering::Greater,
        (Last::Third(x), Last::Third(y)) => x.cmp(y),
    }
}

/// How what stands after two keys' first parts is ordered.
fn rest_cmp(a: &Rest, b: &Rest) -> Ordering
    ensures { result ≡ key_cmp (rest_parts a.now) (rest_parts b.now) }
{
    match (a, b) {
        (Rest::End, Rest::End) => Ordering::Equal,
        (Rest::End, Rest::More(_, _)) => Ordering::Less,
        (Rest::More(_, _), Rest::End) => Ordering::Greater,
        (Rest::More(x, xs), Rest::More(y, ys)) => match x.cmp(y) {
            Ordering::Equal => last_cmp(xs, ys),
            unlike => unlike,
        },
    }
}

impl PartialEq for Key {
    ghost eq = { eq_by_cmp key_cmp };

    ghost laws = { partial_equiv_from_equiv key_ties };

    fn eq(&self, other: &Key) -> bool {
        self.cmp(other) == Ordering::Equal
    }
}

impl Eq for Key {
    ghost laws = { key_ties };
}

impl PartialOrd for Key {
    ghost partial_cmp = { as_partial_cmp key_cmp };

    ghost laws = { partial_order_from_total key_cmp_total };

    fn partial_cmp(&self, other: &Key) -> Option<Ordering> {
        Some(self.cmp(other))
    }
}

impl Ord for Key {
    ghost cmp = { key_cmp };

    ghost total = { key_cmp_total };

    ghost matches_partial_cmp = { Prim.search (comparing, rules) };

    ghost matches_eq = { Prim.search (comparing, rules) };

    fn cmp(&self, other: &Key) -> Ordering {
        match self.first.cmp(&other.first) {
            Ordering::Equal => rest_cmp(&self.rest, &other.rest),
            unlike => unlike,
        }
    }
}
