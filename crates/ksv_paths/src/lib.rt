//! Paths as texts: which path a text names in a description ([`path_of`]), and the text of a path.
//!
//! Both are defined in `specs/PathTexts`. A text names at most one path.
//!
//! A call, in `crates/ksv_refusals/src/question.rt`:
//!
//! ```
//! match path_of(alloc, rules.desc(), text.as_bytes())? {
//!     Some(path) => Ok(Node { kind, path }),
//!     None => Err(io::Error::from(ErrorKind::InvalidData)),
//! ```
//!
//! Modules:
//!
//! - `laws`: the laws of the texts of paths
//! - `path_text`: which path a text names
//!
//! Definitions (`specs/`):
//!
//! - `Laws`: the laws: read after written, and written after read
//! - `PathTexts`: how a path is written, and which one a text names
//!
//! Lemmas (`proofs/`):
//!
//! - `Cuts`: where the first part of a text ends
//! - `Digits`: decimal digits, and what `parse` reads of them
//! - `PathReading`: the text of a path, read, gives the path
//! - `PathSpelling`: a text that names a path is that path's text
//! - `PathTexts`: paths read step by step
#![tactic(auto)]

mod laws;
mod path_text;

pub use laws::{paths_are_read, texts_are_written};
pub use path_text::{decimal, path_of};
