//! Values of a described file: paths, integers, texts, encodings, values and faults.
//!
//! Calls, in `crates/ksv_test_rules/src/expressions.rt`:
//!
//! ```
//! let has_last = root.child_index(alloc, 1_048_575)?.is_some();
//! let has_next = root.child_index(alloc, Path::MAX_INDEX)?.is_some();
//! ```
//!
//! Modules:
//!
//! - `bits`: the number that some bits of bytes write
//! - `context`: the context in which an expression is evaluated
//! - `encoding`: the encodings of texts
//! - `fault`: kinds of faults, and the path of each
//! - `integer`: integers of expressions, from -2^63 to 2^64 - 1
//! - `laws`: the laws of paths
//! - `parts`: bytes that are lent in two slices
//! - `path`: paths: the steps from the root to something in a described file
//! - `place`: places in a described file
//! - `step`: one step of a path
//! - `steps`: the steps of a path
//! - `stream_end`: ends of streams, in four bytes
//! - `text`: texts of expressions
//! - `value`: values of a described file
//!
//! Definitions (`specs/`):
//!
//! - `Bits`: bits, and the numbers that they write
//! - `Bytes`: bytes that are lent in two slices
//! - `Elements`: what `_` is, as the code has it
//! - `Encodings`: the encodings of texts: ASCII, of bytes below 128, and UTF-8
//! - `Exact`: a lemma that a reader may skip: paths that `==` finds equal are the same
//! - `Faults`: the names of faults, as replies write them
//! - `Kept`: where the steps of a path are: in an array, or on the heap
//! - `Numbers`: numbers of paths, with lemmas that a reader may skip
//! - `Optional`: optional numbers in 32 bits
//! - `Places`: places of a file, counted in bits, and the bytes beside them
//! - `Range`: the range of expressions' integers
//! - `Setting`: the context in which an expression is evaluated
//! - `Trail`: paths as contracts see them: their steps, the last one first
//!
//! Lemmas (`proofs/`):
//!
//! - `Binary`: bits of bytes, and numbers
//! - `Encodings`: which bytes are texts
//! - `Halves`: bytes that are cut in two, compared
//! - `Paths`: steps in the code's order and in that of the definitions
//! - `Places`: places and the bytes beside them
//! - `Room`: whether the path of a part fits
#![tactic(auto)]

mod bits;
mod context;
mod encoding;
mod fault;
mod integer;
mod laws;
mod parts;
mod path;
mod place;
mod step;
mod steps;
mod stream_end;
mod text;
mod value;

pub use context::{Ctx, Element};
pub use encoding::Encoding;
pub use fault::{Fault, FaultKind};
pub use integer::Integer;
pub use laws::{equal_paths_are_same, paths_are_numbered};
pub use parts::Parts;
pub use path::Path;
pub use place::Place;
pub use step::Step;
pub use stream_end::StreamEnd;
pub use text::Text;
pub use value::{Stream, Value};
