//! Questions about a described file: what each asks, and the text that it ends in.
//!
//! A question is a plan (`specs/Asking.antt`): nodes that it asks, and what it does with what it hears of each. Its definition in
//! specs/ (`Questions`, `Dumps`, `Writing`) knows no engine. The function of the same name here asks an engine and gives the
//! same result, and the engine keeps what evaluating the asked nodes completes.
//!
//! [`answer`] gives the reply to any question, a text or a refusal; [`overwrite_for`] gives the bytes that `put` writes.
//!
//! A call, in `crates/ksv_session/src/session.rt`:
//!
//! ```
//! let told = answer(
//!     self.alloc,
//!     &mut self.engine,
//!     &self.described,
//!     &self.buffer,
//!     question,
//! )?;
//! let reply = told_reply(told)?;
//! ```
//!
//! Modules:
//!
//! - `asking`: asks an engine
//! - `dump`: `dump`: the value at a path with all its parts, as JSON
//! - `file`: a file under its description
//! - `found`: what `dump` finds at a path, or writes in its place
//! - `get`: `get`: the text of the value at a path
//! - `laws`: the law that written integers are read back
//! - `list`: the text of a list
//! - `members`: `ls`: the members of an object, or the length of a list
//! - `parts`: an answer of the form that is needed
//! - `place`: `at`: where something begins and ends
//! - `put`: `put`: writing an integer over another
//! - `question`: any question about a path, on one engine
//! - `told`: what is told of a question
//!
//! Definitions (`specs/`):
//!
//! - `Answers`: what a question ends in over evaluation from nothing
//! - `Asking`: questions as plans over nodes
//! - `Code`: words of private contracts
//! - `Dumps`: what `dump` asks, and its JSON
//! - `Engines`: what an engine keeps, and its turns, after a question
//! - `Questions`: what `get`, `at` and `ls` ask, and their texts
//! - `Seen`: the plain data of the code's values
//! - `Writing`: what `put` asks, and the bytes that it writes
//!
//! Lemmas (`proofs/`):
//!
//! - `AskLemmas`: an engine answers what evaluation from nothing gives
//! - `Asked`: asking one list of nodes and then another
//! - `Bound`: one question after another
//! - `Cases`: questions that need no further ask
//! - `Common`: what many of them name, of definitions and of other crates
//! - `Dumping`: the steps of a dump
//! - `Exact`: a dump has no float
//! - `Fresh`: what two questions complete one after the other, and their costs
//! - `ReadBack`: the bytes of an integer read as that integer
//! - `Steps`: what running one question after another gives
//! - `Written`: bits that are written are read as their number, and no other bit changes
#![tactic(auto)]

mod asking;
mod dump;
mod file;
mod found;
mod get;
mod laws;
mod list;
mod members;
mod parts;
mod place;
mod put;
mod question;
mod told;

pub use ksv_commands::Question;
pub use ksv_texts::{Refusal, bytes_text, refusal_text};
pub use laws::{bits_are_written, integers_are_read_back};
pub use put::{Overwrite, overwrite_for};
pub use question::answer;
pub use told::Told;
