//! A session of line commands over a file and its description.
//!
//! [`Session::line`] answers one line, and [`run`] serves a whole session over a source of bytes and a sink. The
//! reply to each line is defined in `specs/`: `Session` is a fold over the lines, with the
//! file's bytes as its only state, and `Runs` has the headline, which `run` is proved to meet.
//!
//! A call, in `crates/ksv/src/session.rt`:
//!
//! ```
//! ksv_session::run::<DescriptionRules, R, W>(alloc, reader, writer, desc, bytes)
//! ```
//!
//! Modules:
//!
//! - `reply`: replies
//! - `serve`: `run`: a session over devices
//! - `session`: `Session`: the current bytes, an engine, and the reply to each line
//!
//! Definitions (`specs/`):
//!
//! - `Code`: words of private contracts
//! - `Explored`: a session as contracts see it
//! - `Kept`: what is kept across lines: a fold beside that of replies
//! - `Replies`: the reply to a line, and the bytes after it
//! - `Runs`: what holds when a run ends: the headline
//! - `Seen`: the plain data of the code's values
//! - `Session`: a whole session: a fold over its lines whose state is the current bytes
//! - `Tallies`: what `stats` tells along a session
//!
//! Lemmas (`proofs/`):
//!
//! - `AnswerLemmas`: one line answered over a device
//! - `EditLemmas`: an accepted edit makes its change
//! - `KeptLemmas`: what an engine keeps, in the words of the fold
//! - `QuestionLemmas`: commands by what they ask
//! - `RunLemmas`: one step of a run, and a whole run
//! - `TallyLemmas`: what is kept along a session, line by line
#![tactic(auto)]

mod reply;
mod serve;
mod session;

pub use reply::{Reply, Short};
pub use serve::{End, run};
pub use session::{NewFault, Session};
