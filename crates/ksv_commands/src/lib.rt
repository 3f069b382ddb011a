//! Command lines: what each means.
//!
//! A line is nothing, a command with its values, or refused. What a command does to a session, and each reply, is in ksv_session.
//!
//! A call, in `crates/ksv_session/src/session.rt`:
//!
//! ```
//! let Ok(command) = read_line(self.alloc, self.described.desc(), line) else {
//!     self.turns = None;
//!     return Reply::NoMemory;
//! };
//! ```
//!
//! Modules:
//!
//! - `command`: reads a line: nothing, a command with its values, or a refusal
//! - `number`: numbers on a command line
//! - `refusal`: why a line is no command
//!
//! Definitions (`specs/`):
//!
//! - `Commands`: what a line means, with the checks in their order
//! - `Numbers`: numbers of a command line, in decimal
#![tactic(auto)]

mod command;
mod number;
mod refusal;

pub use command::{Command, Question, read_line};
pub use refusal::LineRefusal;
