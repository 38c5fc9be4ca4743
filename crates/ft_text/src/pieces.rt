//! The pieces of a text, between separators.

ghost use Rattle.std.specs.Prelude.{◌≡◌, ◌+◌, ◌<◌, ◌^◌, ◌≤◌, ◌∷◌, [], length, drop, ◌==◌, position, MatchOption};
ghost use Rattle.ft_text.specs.Items.{pieces};

use std::marker::Model;

/// A piece of a text, and the byte of the text that it begins at.
///
/// Contracts see the same with the piece as a list of bytes.
#[derive(Drop)]
pub struct Piece<'a> {
    place: usize,
    bytes: &'a [u8],
}

/// The pieces of a text between separators, one after the other; there is at least one, which may
/// be empty.
///
/// Contracts see the list of the pieces that are left.
#[derive(Drop)]
pub struct Pieces<'a> {
    separator: u8,
    place: usize,
    rest: Option<&'a [u8]>,
}

impl<'a> Model for Piece<'a> {
    ghost use Rattle.std.specs.Prelude.{◌+◌, ◌<◌, ◌^◌, length};
    ghost use Rattle.ft_text.specs.Items.{Piece};

    ghost Value = { Piece };

    ghost view = { λ p. record { place = p.place; bytes = p.bytes.now } };

    // A place in a text that memory holds.
    ghost invariant = { λ p. p.place + length p.bytes.now < 2 ^ 63 };
}

impl<'a> Model for Pieces<'a> {
    ghost use Rattle.std.specs.Prelude.{◌+◌, ◌<◌, ◌^◌, List, [], length};
    ghost use Rattle.std.specs.Option.{option_map_or, ForSome};
    ghost use Rattle.ft_text.specs.Items.{Piece, pieces};

    ghost Value = { List Piece };

    ghost view = { λ p. option_map_or (λ rest. pieces p.separator p.place rest.now) p.rest [] };

    // Places in a text that memory holds.
    ghost invariant = { λ p. ForSome p.rest (λ rest. p.place + length rest.now < 2 ^ 63) };
}

impl<'a> Piece<'a> {
    /// The piece of these bytes, at this place of a text.
    pub fn of(place: usize, bytes: &'a [u8]) -> Piece<'a>
        requires { place + length bytes.now < 2 ^ 63 }
        ensures place { result.place ≡ place }
        ensures bytes { result.bytes ≡ bytes.now }
    {
        Piece { place, bytes }
    }

    /// The byte of the text that it begins at.
    pub fn place(&self) -> usize
        ensures { result ≡ self.now.place }
    {
        self.place
    }

    /// Its bytes.
    pub fn bytes(&self) -> &'a [u8]
        ensures { result.now ≡ self.now.bytes }
    {
        self.bytes
    }

    /// What is after so many of its bytes.
    pub fn behind(&self, len: usize) -> Piece<'a>
        requires { len ≤ length self.now.bytes }
        ensures place { result.place ≡ self.now.place + len }
        ensures bytes { result.bytes ≡ drop len self.now.bytes }
    {
        Piece {
            place: self.place + len,
            bytes: &self.bytes[len..],
        }
    }
}

impl<'a> Pieces<'a> {
    /// The pieces of a piece.
    pub fn of(text: &Piece<'a>, separator: u8) -> Pieces<'a>
        ensures { result ≡ pieces separator text.now.place text.now.bytes }
    {
        Pieces {
            separator,
            place: text.place,
            rest: Some(text.bytes),
        }
    }

    /// The next piece, or `None` after the last.
    pub fn next_piece(&mut self) -> Option<Piece<'a>>
        ensures { MatchOption result ((self.old ≡ []) × (self.new ≡ []))
            (λ piece. self.old ≡ piece ∷ self.new) }
    {
        let bytes = self.rest?;
        let place = self.place;
        match first(bytes, self.separator) {
            Some(at) => {
                self.place = place + at + 1;
                self.rest = Some(&bytes[at + 1..]);
                Some(Piece {
                    place,
                    bytes: &bytes[..at],
                })
            }
            None => {
                self.rest = None;
                Some(Piece { place, bytes })
            }
        }
    }
}

/// The place of the first such byte.
fn first(text: &[u8], mark: u8) -> Option<usize>
    ensures { result ≡ position (λ byte. byte == mark) text.now }
{
    text.iter().position(|byte| *byte == mark)
}
