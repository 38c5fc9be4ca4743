//! A number for each PID, which takes two steps to find, whatever other PIDs there are.
//!
//! What is kept of tasks can stand in a vector: the number of a task's PID is its index there. A
//! number that was never put is 0, so an entry of such a vector says of which PID it is.
//!
//! ```ignore
//! let mut numbers = Numbers::new(alloc);
//! numbers.put(1234, entries.len())?;
//! entries.push(Entry { pid: 1234, woken: 0 })?;
//! assert_eq!(rt; (numbers.get(1234), numbers.get(-1)), (0, 0));
//! ```
//!
//! # Contracts
//!
//! - `Numbers::new`, `get`, `put`: `number_of` (`specs/Numbers.antt`): 0 for each PID at first, and what
//!   was put last at it from then on; exact. A PID below 4,194,304, the most that Linux has, takes
//!   two look-ups by index, and any other number the logarithm of how many such others there are.
//!   `put` fails only for memory. Lets through: running out of memory at any time; which numbers
//!   PIDs have then.
#![tactic(auto)]

mod numbers;
mod pages;

pub use numbers::Numbers;
