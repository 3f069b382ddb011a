//! Lines, the words on them, the devices that they come from and go to, and the program's messages. Nothing here depends
//! on descriptions.
//!
//! How bytes are cut into lines and words is defined in `specs/Lines`. A device is a [`Source`] or a [`Sink`].
//!
//! A call, in `crates/ksv_commands/src/command.rt`:
//!
//! ```
//! let (word, rest) = next_word(text)?;
//! if no_word(rest) { Some(word) } else { None }
//! ```
//!
//! Modules:
//!
//! - `command_line`: the program's arguments, by `clap`
//! - `device`: `Source` and `Sink`: what a session reads from and writes to
//! - `digits`: hexadecimal digits on a line, and the bytes that they stand for
//! - `line`: a line as it is gathered
//! - `memory`: a device over memory
//! - `standard`: devices over the readers and writers of std
//! - `stop`: the program's messages and exit statuses
//! - `words`: the words of a line
//!
//! Definitions (`specs/`):
//!
//! - `Digits`: the bytes of hexadecimal digits on a line
//! - `Lines`: how bytes are cut: an input into lines, a line into words
//! - `Messages`: the program's message where it stops, and its exit status
//! - `Words`: the program's arguments as `clap` reads them
//!
//! Lemmas (`proofs/`):
//!
//! - `CommandLineLemmas`: the command with one option and two arguments, and its matches
//! - `CutLemmas`: bytes that are cut into parts, piece by piece
//! - `DigitLemmas`: digits that stand for bytes
//! - `WordLemmas`: the words of a text, one after the other
//! - `Written`: texts that are written one after the other
#![tactic(auto)]

mod command_line;
mod device;
mod digits;
mod line;
mod memory;
mod standard;
mod stop;
mod words;

pub use command_line::{Args, arguments};
pub use device::{Failed, Sink, Source, send};
pub use digits::{EDIT_LIMIT, EditDigits, edit_digits};
pub use line::LineBuffer;
pub use memory::Memory;
pub use standard::Std;
pub use stop::{Stop, say};
pub use words::{line_text, next_word};
