//! The bytes of a file, and the edits that change them.
//!
//! Contracts see a [`Buffer`] as the list of its bytes, of which there are at most [`FILE_LIMIT`]. Each edit is an
//! equation of lists, or a named refusal that changes nothing (`specs/Edits.antt`). A [`Use`] is what a reading of
//! the bytes depends on, and [`touches`] decides whether an edit may have changed it (`specs/Uses.antt`).
//!
//! Calls, in `crates/ksv_test_engine/src/buffer.rt`:
//!
//! ```
//! let mut is_put = buffer.insert(0, b"a").is_ok();
//! is_put &= buffer.insert(2, b"cC").is_ok();
//! is_put &= buffer.insert(5, b"e").is_ok();
//! ```
//!
//! Modules:
//!
//! - `buffer`: the bytes of a file
//! - `edit`: why an edit is refused
//! - `gap`: bytes with a gap among them, which edits move, widen and fill
//! - `uses`: what an answer depends on in the bytes, and what an edit touches of it
//! - `window`: a range of a file's bytes
//!
//! Definitions (`specs/`):
//!
//! - `Code`: bytes with a gap among them, for private contracts
//! - `Edits`: edits of a file's bytes, as equations of lists
//! - `Uses`: uses of bytes, changes, and what a change touches
//!
//! Lemmas (`proofs/`):
//!
//! - `Around`: what is before and after a gap once bytes are written in it or beside it
//! - `Made`: an edit that a buffer accepts makes its change
//! - `Untouched`: what a change doesn't touch is the same before and after it
#![tactic(auto)]

mod buffer;
mod edit;
mod gap;
mod uses;
mod window;

pub use buffer::{Buffer, FILE_LIMIT, TooLarge};
pub use edit::EditRefusal;
pub use uses::{Change, Use, touches};
pub use window::Window;
