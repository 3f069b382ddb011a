//! Tests that call a buffer, the engine and its links directly.
//!
//! The small sets of rules are in `samples`. [`Rows`] are numbers, sums of rows, and rows that a byte names, with circles.
//! A [`Chain`] is as deep as one likes. [`Sums`] are as deep, and can be kept by their numbers alone; [`SlottedSums`] mean the same.
//!
//! A function that owns an engine lends it to another function and then drops it by name. So the drop is proved once, and
//! not in each function and for each way out of it.
//!
//! To run them:
//!
//! ```sh
//! cd crates/ksv_test_engine && rt test
//! ```
//!
//! Modules:
//!
//! - `behind`: how few looks an append, an insert or a delete takes
//! - `buffer`: edits of a buffer, its limit, and what an edit touches
//! - `chain`: a chain of nodes that is a hundred thousand deep
//! - `edits`: an engine that is right for the bytes of a buffer, and edits of both
//! - `engine`: the engine over rows: worked questions, what edits take, how many looks that takes
//! - `links`: links between slots: what an overwrite takes along them
//! - `numbers`: numbers that look random
//! - `plain`: what a row answers, plainly, and whether an engine answers so
//! - `random`: random questions between random edits, beside plain recursion
//! - `refusals`: rules that are refused memory at one of their calls
//! - `samples`: the sets of rules
//! - `samples/chain`: a chain of nodes, each of which asks the one before it
//! - `samples/hashed`: nodes with numbers, found by a hash
//! - `samples/link`: a link of a chain
//! - `samples/row`: a row and its number
//! - `samples/rows`: rows that depend on rows and on bytes
//! - `samples/sum_folds`: the links of sums, for an engine that keeps them by numbers alone
//! - `samples/sum_list`: sums of a file's bytes, in order
//! - `samples/sums`: sums of a file's first bytes, each of which asks the one before it
//! - `sparing`: slots that are given to other nodes, and numbers that are tidied
//! - `summed`: sums that an engine keeps by numbers alone, beside one with slots
//! - `tower`: a tower of links of which only the lowest reads the file
//!
//! Definitions (`specs/`):
//!
//! - `Chain`: a chain of nodes, and its laws
//! - `Rows`: rows, and their laws
//! - `Sums`: sums of a file's first bytes, their laws, and the sequence of them
//! - `Leaves`: links that ask none, and their laws
//! - `Tower`: a tower of links, and its laws
//!
//! Lemmas (`proofs/`):
//!
//! - `Hashing`: what a list is after its last element took the place of another
//! - `Reading`: a byte in the two slices of a window
//! - `Summing`: the sums of a sequence are those that links of so many bytes answer
//! - `Telling`: what a link of a file's sums answers, asks and uses
//! - `Totals`: the total of replies
#![tactic(auto)]

#[cfg(test)]
mod behind;
#[cfg(test)]
mod buffer;
#[cfg(test)]
mod chain;
#[cfg(test)]
mod edits;
#[cfg(test)]
mod engine;
#[cfg(test)]
mod links;
#[cfg(test)]
mod numbers;
#[cfg(test)]
mod plain;
#[cfg(test)]
mod random;
#[cfg(test)]
mod refusals;
mod samples;
#[cfg(test)]
mod sparing;
#[cfg(test)]
mod summed;
#[cfg(test)]
mod tower;

pub use samples::chain::Chain;
pub use samples::hashed::{Exact, Hashed};
pub use samples::link::Link;
pub use samples::row::{Missing, Row, RowNumber};
pub use samples::rows::Rows;
pub use samples::sum_list::SumList;
pub use samples::sums::{SlottedSums, Sums};
