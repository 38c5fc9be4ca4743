//! Globs: patterns with `*`, `?` and classes of bytes, which match a whole text.

ghost use Rattle.std.specs.Prelude.{◌≡◌, ◌<◌, ◌≤◌, ◌↔◌, ℕ, Bool, List, [], ◌∷◌, length, take, slice_index, Contains, IsTrue, IfSome, IfNone, ◌==◌};
ghost use Rattle.std.specs.List.{list_all};
ghost use Rattle.ft_text.specs.Glob.{Item, Member, MembersAre, SomeHas, IsBracketed};
ghost use Rattle.ft_text.specs.Glob.{ItemsAre, GlobIs, IsGlob, Glob};
ghost use Rattle.ft_text.specs.Matching.{is_glob};
ghost use Rattle.ft_text.specs.inner.Walk.{ReadsAsMembers, ReadsAsItems, Bounds, StepIs, Shortens};

/// Whether the pattern is a glob. It is no glob exactly if a class is not closed, has no member or
/// has a range from a higher byte to a lower one, if a backslash stands anywhere, or if a `!`
/// stands first. By `exact` the answer is worked out from the pattern, by `meaning` it says that
/// the pattern is a glob of some items.
pub fn is_glob(pattern: &[u8]) -> bool
    ensures exact { result ≡ is_glob pattern.now }
    ensures meaning { IsTrue result ↔ IsGlob pattern.now }
{
    if pattern.starts_with(b"!") || pattern.contains(&b'\\') {
        return false;
    }
    let mut rest = pattern;
    while let Some((first, behind)) = rest.split_first() {
        match behind_item(*first, behind) {
            Some(left) => rest = left,
            None => return false,
        }
    }
    true
}

/// Whether the glob matches the whole text. Of the stars that it meets it remembers only the
/// last, so the time grows at most as the product of the two lengths.
pub fn glob(pattern: &[u8], text: &[u8]) -> bool
    requires { IsGlob pattern.now }
    ensures { (items : List Item) → GlobIs pattern.now items
        → (IsTrue result ↔ Glob items text.now) }
{
    let mut place = Place { pattern, text };
    let mut star: Option<Place> = None;
    while let Some((byte, behind)) = place.text.split_first() {
        match step_before(place.pattern, *byte) {
            Step::Star(rest) => {
                place = Place {
                    pattern: rest,
                    text: place.text,
                };
                star = Some(place);
            }
            Step::Past(rest) => place = Place {
                pattern: rest,
                text: behind,
            },
            Step::Miss => match star {
                None => return false,
                Some(last) => {
                    place = Place {
                        pattern: last.pattern,
                        text: &last.text[1..],
                    };
                    star = Some(place);
                }
            },
        }
    }
    are_stars(place.pattern)
}

/// What is left of a pattern, and of a text that it is to match.
#[derive(Clone, Copy)]
struct Place<'a> {
    pattern: &'a [u8],
    text: &'a [u8],
}

/// How a pattern goes on before a byte.
#[derive(Clone, Copy)]
enum Step<'a> {
    /// A star stands first; what is after it.
    Star(&'a [u8]),
    /// The first item takes the byte; what is after it.
    Past(&'a [u8]),
    /// Neither.
    Miss,
}

/// A class, without its brackets, and what is after it.
#[derive(Clone, Copy)]
struct Class<'a> {
    negated: bool,
    inside: &'a [u8],
    rest: &'a [u8],
}

/// The first member of a class by its bounds, and what is after it. Both bounds of a single byte
/// are that byte.
#[derive(Clone, Copy)]
struct Bounded<'a> {
    low: u8,
    high: u8,
    rest: &'a [u8],
}

/// How the pattern goes on before the byte.
fn step_before(pattern: &[u8], byte: u8) -> Step<'_>
    ensures meaning { (items : List Item) → ItemsAre pattern.now items → StepIs items byte result }
    ensures shorter { Shortens pattern.now result }
{
    let Some((first, rest)) = pattern.split_first() else {
        return Step::Miss;
    };
    if *first == b'*' {
        return Step::Star(rest);
    }
    if *first == b'[' {
        return class_step(rest, byte);
    }
    if *first == b'?' {
        return Step::Past(rest);
    }
    if *first == byte {
        Step::Past(rest)
    } else {
        Step::Miss
    }
}

/// How a pattern that begins with a class goes on before the byte; the text is after its `[`.
fn class_step(text: &[u8], byte: u8) -> Step<'_>
    ensures meaning { (items : List Item) → ItemsAre (91 ∷ text.now) items
        → StepIs items byte result }
    ensures shorter { Shortens text.now result }
{
    match class_of(text) {
        Some(class) => {
            if has(class.inside, byte) != class.negated {
                Step::Past(class.rest)
            } else {
                Step::Miss
            }
        }
        // Each class of a glob is closed.
        None => Step::Miss,
    }
}

/// Whether nothing but stars is left of the pattern.
fn are_stars(pattern: &[u8]) -> bool
    ensures { result ≡ list_all (λ byte. byte == 42) pattern.now }
{
    pattern.iter().all(|byte| *byte == b'*')
}

/// What is after the item that begins with the byte, if one does.
fn behind_item(first: u8, behind: &[u8]) -> Option<&[u8]>
    ensures shorter { IfSome result (λ rest. length rest.now ≤ length behind.now) }
    ensures found { IfSome result (λ rest. ReadsAsItems (first ∷ behind.now)
        ↔ ReadsAsItems rest.now) }
    ensures none { IfNone result (ReadsAsItems (first ∷ behind.now) → ⊥) }
{
    if first != b'[' {
        return Some(behind);
    }
    match class_of(behind) {
        Some(class) => {
            if !class.inside.is_empty() && are_members(class.inside) {
                Some(class.rest)
            } else {
                None
            }
        }
        None => None,
    }
}

/// The class whose `[` stands before the text, if it is closed.
fn class_of(text: &[u8]) -> Option<Class<'_>>
    ensures shorter { IfSome result (λ class. length class.rest.now < length text.now) }
    ensures found { IfSome result (λ class. IsBracketed text.now class.negated class.inside.now
        class.rest.now) }
    ensures none { IfNone result ((negated : Bool) (inside rest : List ℕ)
        → IsBracketed text.now negated inside rest → ⊥) }
{
    let negated = text.starts_with(b"!");
    let text = if negated { &text[1..] } else { text };
    match close_of(text) {
        Some(len) => Some(Class {
            negated,
            inside: &text[..len],
            rest: &text[len + 1..],
        }),
        None => None,
    }
}

/// The place of the first `]`.
fn close_of(text: &[u8]) -> Option<usize>
    ensures found { IfSome result (λ at. (at < length text.now) × (slice_index text.now at ≡ 93)) }
    ensures first { IfSome result (λ at. Contains (take at text.now) 93 → ⊥) }
    ensures none { IfNone result (Contains text.now 93 → ⊥) }
{
    text.iter().position(|byte| *byte == b']')
}

/// Whether the inside of a class is members, each range from a byte to itself or a higher one.
fn are_members(inside: &[u8]) -> bool
    ensures { IsTrue result ↔ ReadsAsMembers inside.now }
{
    let mut rest = inside;
    while let Some(member) = first_member(rest) {
        if member.low > member.high {
            return false;
        }
        rest = member.rest;
    }
    true
}

/// Whether a member of the class has the byte.
fn has(inside: &[u8], byte: u8) -> bool
    ensures { (members : List Member) → MembersAre inside.now members
        → (IsTrue result ↔ SomeHas members byte) }
{
    let mut rest = inside;
    while let Some(member) = first_member(rest) {
        if member.low <= byte && byte <= member.high {
            return true;
        }
        rest = member.rest;
    }
    false
}

/// The first member of the class.
fn first_member(inside: &[u8]) -> Option<Bounded<'_>>
    ensures shorter { IfSome result (λ member. length member.rest.now < length inside.now) }
    ensures found { IfSome result (λ member. Bounds inside.now member.low member.high
        member.rest.now) }
    ensures none { IfNone result (inside.now ≡ []) }
{
    let (low, rest) = inside.split_first()?;
    if rest.len() > 1 && rest[0] == b'-' {
        return Some(Bounded {
            low: *low,
            high: rest[1],
            rest: &rest[2..],
        });
    }
    Some(Bounded {
        low: *low,
        high: *low,
        rest,
    })
}
