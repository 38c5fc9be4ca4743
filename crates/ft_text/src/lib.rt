//! Texts of bytes: lines, numbers, names, pieces between separators, words, and globs.
//!
//! A text grows in a vector and may run out of memory. What was added before a refusal stays, so
//! that the vector begins with its old bytes, and whoever began the text cuts it back.
//!
//! Gaps, names, quoted texts and numbers are read at the head of a text. A reader gives what it
//! found there and the text after it, or nothing. A number is read whole, however large it is, so
//! that a number out of range isn't mistaken for a text that begins with no number.
//!
//! A text is cut into lines at line breaks, and into pieces at a separator. Each piece keeps the
//! place in the text at which it begins, so that a fault can name it. A word is what a piece of a
//! trigger's text may be: a `$` or none, a name, and a suffix after a `.`, or none.
//!
//! A glob is a pattern in which `*` matches any run of bytes, `?` one byte, a class such as `[a-c]`
//! or `[!a-c]` one byte that it has or has not, and any other byte itself. It matches a whole text
//! or not at all. Each of these four is an item; a glob reads as items, and these say what it
//! matches. A pattern with a backslash, or with a `!` in front, is no glob.
//!
//! Reading and matching need no memory.
//!
//! ```ignore
//! let mut text = Vec::from_slice(alloc, b"cpu ")?;
//! write_right(2, 3, b'0', &mut text)?;
//! assert_eq!(rt; text.as_slice(), b"cpu 002".as_slice());
//! assert!(rt; number_within(&text[4..], 4095) == Some(2));
//! assert!(rt; number_within(b"4096", 4095).is_none());
//! ```
//!
//! ```ignore
//! let text = skip(b"  prio > -1");
//! assert_eq!(rt; name_at(text), Some((b"prio".as_slice(), b" > -1".as_slice())));
//! assert_eq!(rt; number_at(b"0x1f)"), Some((Number::InRange(31), b")".as_slice())));
//! assert_eq!(rt; quoted_at(b"'a b' "), Some((b"a b".as_slice(), b" ".as_slice())));
//! assert!(rt; quoted_at(b"'a b").is_none());
//! ```
//!
//! ```ignore
//! let mut pieces = Pieces::of(&Piece::of(5, b"pid,$ts0,prio.log2"), b',');
//! let Some(piece) = pieces.next_piece() else {
//!     return Err("a text has a piece");
//! };
//! assert!(rt; piece.place() == 5 && piece.bytes() == b"pid");
//! match word_of(b"prio.log2") {
//!     Some(word) => assert!(rt; !word.dollar() && word.suffix() == Some(b"log2".as_slice())),
//!     None => return Err("that piece is a word"),
//! }
//! assert!(rt; number_in(b"065", 1, 100) == Some(65) && number_in(b"101", 1, 100).is_none());
//! ```
//!
//! ```ignore
//! let pattern = b"a[!b-d]*";
//! if is_glob(pattern) {
//!     assert!(rt; glob(pattern, b"aex"));
//!     assert!(rt; !glob(pattern, b"ab"));
//! }
//! assert!(rt; !is_glob(b"[b-a]"));
//! ```
//!
//! # Contracts
//!
//! - `write_decimal`, `write_signed`, `write_right`, `write_fill`: the number, or the filling of
//!   its column, stands after the old bytes; after an error the text still begins with these
//!   (`specs/Fronts.antt`). Lets through: running out of memory at any time, and then any bytes
//!   after the old ones.
//! - `are_digits`, `is_same`: whether all bytes are decimal digits, and whether two texts are the
//!   same; exact.
//! - `number_within`: the number that decimal digits write, if it is within the limit; an empty
//!   text is 0 (`specs/Digits.antt`); exact.
//! - `is_gap`, `skip`, `name_at`, `is_quote`, `quoted_at`, `number_at`, `Number`: what stands at
//!   the head of a text, and the text after it (`specs/Tokens.antt`, `specs/Ranged.antt`); exact.
//! - `next_line`: a text is its first line and the lines of what is left (`specs/Lines.antt`).
//! - `Pieces::of`, `Pieces::next_piece`, `Piece`: the pieces of a text between separators, in
//!   order, each with the place at which it begins (`specs/Items.antt`); exact.
//! - `word_of`, `Word`: the word that a text is, or none if it has another form; its parts;
//!   whether it is a name without a `$` (`Word::is`); whether two words have the same name, both
//!   with a `$` or both without (`Word::is_same`). Exact (`specs/Items.antt`).
//! - `is_name`, `number_in`: whether a text is a name and nothing else; the number that one or more
//!   decimal digits write, if it is within both limits (`specs/Items.antt`). Exact.
//! - Laws `one_list`, `one_word`: a text is cut into exactly the pieces that make it again, and is
//!   read as exactly the word that writes it (`specs/Spelling.antt`).
//! - `is_glob`: whether the pattern is a glob, by the items that it reads as (clause `meaning`), and
//!   exact.
//! - `glob`: whether the items of a glob match the whole text, defined by splits of the text
//!   (`specs/Glob.antt`); the code goes back only to the last star instead. Lets through: any
//!   running time. A test matches a long text against many stars.
//! - Law `one_reading`: a pattern reads as items in one way.
//! - Law `what_matches`: the truth value `matches`, by which filters are stated, is that of the
//!   items (`specs/Matching.antt`).
#![tactic(auto)]

mod digits;
mod globs;
mod items;
pub mod laws;
mod lines;
mod number;
mod pieces;
mod same;
mod words;
mod writing;

pub use digits::{are_digits, number_within};
pub use globs::{glob, is_glob};
pub use items::{Word, is_name, number_in, word_of};
pub use laws::{one_list, one_reading, one_word, what_matches};
pub use lines::next_line;
pub use number::{Number, number_at};
pub use pieces::{Piece, Pieces};
pub use same::is_same;
pub use words::{is_gap, is_quote, name_at, quoted_at, skip};
pub use writing::{write_decimal, write_fill, write_right, write_signed};
