//! A session of line commands over a file and its description.
//!
//! [`describe`] reads the text of a description, and returns the description or the reason why the program stops.
//! [`Session::line`] answers one line, and [`run`] serves a whole session over a [`Source`] and a [`Sink`]. The headline that
//! [`run`] is proved to meet is in `specs/Runs` of ksv_session.
//!
//! [`Session`] and [`run`] are those of ksv_session, run by the code of the rules (ksv_rules). The rest is re-exported from
//! below: lines and devices (ksv_lines), descriptions (ksv_desc), and replies (ksv_session).
//!
//! Calls, in `crates/ksv_cli/src/main.rt`:
//!
//! ```
//! let mut reader = Std::new(rt.stdin());
//! let mut writer = Std::new(rt.stdout());
//! match run(rt.alloc(), &mut reader, &mut writer, desc, bytes) {
//!     Ok((buffer, End::Quit | End::Input)) => keep(rt, target.as_ref(), &buffer),
//! ```
//!
//! Modules:
//!
//! - `description`: reads a description
//! - `session`: the session of the program, over the code of the rules
//!
//! Definitions (`specs/`):
//!
//! - `Accepted`: which texts describe files
#![tactic(auto)]

mod description;
mod session;

pub use description::describe;
pub use ksv_desc::Desc;
pub use ksv_lines::{Args, Failed, Memory, Sink, Source, Std, Stop, arguments, say};
pub use ksv_session::{End, NewFault, Reply, Short};
pub use session::{Session, run};
