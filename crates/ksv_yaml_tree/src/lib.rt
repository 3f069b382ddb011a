//! The tree that a YAML text spells, and how it is read.
//!
//! A node is a text, a sequence or a mapping, each with the line on which it begins. Contracts see it as a plain
//! tree (`specs/Tree`), by `view` of `specs/View`.
//!
//! A tree, read, in `crates/ksv_rows/src/descriptions/trees.rt`:
//!
//! ```
//! Yaml::Text { quoted, text, .. } => {
//!     found.push_str(if *quoted { " quoted" } else { "" })?;
//!     add_text(found, text.as_slice())
//! }
//! ```
//!
//! Modules:
//!
//! - `keys`: what a mapping has at its keys
//! - `numeral`: plain numbers
//! - `tree`: `Yaml` and `Entry`, and how they are read
//!
//! Definitions (`specs/`):
//!
//! - `Keys`: what a mapping has at its keys
//! - `Numerals`: plain numbers
//! - `Tree`: the tree as plain data
//! - `View`: the plain trees of the code's values
//!
//! Lemmas (`proofs/`):
//!
//! - `Views`: what the code reads of a tree
#![tactic(auto)]

pub mod keys;
mod numeral;
pub mod tree;

pub use numeral::{Numeral, plain_number, signed_number};
pub use tree::{Entry, Yaml, find};
