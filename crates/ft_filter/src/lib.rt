//! Filters of events, as they stand after a trigger: reading them, writing them, and testing
//! events.
//!
//! A filter compares fields of one event with numbers, texts and globs, joined by `&&`, `||`, `!`
//! and parentheses. What its text is read as, its first fault and where it is, and which events
//! pass, are functions of the text and of the tree; its canonical text reads as the same tree.
//!
//! ```ignore
//! let text = b"prio < 100 && comm ~ \"kworker*\"";
//! match parse(alloc, text, Name::Waking) {
//!     Ok(filter) => {
//!         let passes = filter.holds(&event);
//!         filter.write(&mut line)?;
//!     }
//!     Err(fault) => report(fault.number(), fault.place()),
//! }
//! ```
//!
//! # Contracts
//!
//! - `parse`, clause `meaning`: the grammar `FilterIs` (`specs/FilterIs.antt`), for every text and
//!   event: the tree by its rules, or the first fault with its place. Clause `exact`: the answer is
//!   the function `filter_of`. Both let through: running out of memory at any time.
//! - `Filter::holds`: whether an event passes, by cases of the tree (`specs/Holds.antt`); exact.
//! - `Filter::write`: the canonical text, the one spelling that the desk writes, is added
//!   (`specs/Canonical.antt`); after an error the text is as it was. Lets through: running out of
//!   memory at any time.
//! - `Filter::event`, `Filter::expr`, the parts of an expression, `FilterFault::number`,
//!   `FilterFault::place`: exact.
//! - `Pattern::bytes`, `Pattern::matches`: exact. A pattern's bytes are always a glob, so this is
//!   not tested again for each event.
//! - Law `one_answer`: every text has one answer on every event.
//! - Laws `reads_again`, `trees_of_texts`: a tree that some text gives is given again by its
//!   canonical text; which trees those are (`specs/Shape.antt`).
//! - Law `predicates_of_texts`: what the text of a predicate is read as, or its first fault with
//!   its place, by conditions on cuts (`specs/PredIs.antt`).
//! - Laws `words_of_texts`, `numbers_of_words`: gaps, names, operators and quoted texts by cuts; a
//!   word writes a number exactly if it has one of the three forms (`specs/Numbers.antt`).
#![tactic(auto)]

mod fault;
mod filter;
pub mod laws;
mod operators;
mod passing;
mod predicate;
mod reading;
mod tree;
mod writing;

pub use fault::FilterFault;
pub use filter::Filter;
pub use ft_text::{glob, is_gap, is_glob, name_at, skip};
pub use laws::{
    numbers_of_words, one_answer, predicates_of_texts, reads_again, trees_of_texts, words_of_texts,
};
pub use reading::parse;
pub use tree::{Expr, Exprs, Literal, Op, Pattern, Pred, Text};
