//! Rules by which the answers of nodes follow from the answers of other nodes, and what evaluation by them means.
//!
//! [`Rules`] define what a node does next after some replies: it needs the answer of another node, or it is done. The
//! replies are lent ([`Replies`]). `specs/Evaluation` defines what a node answers from nothing, and what it asks and
//! uses; `specs/Right` what is right to keep, `specs/Touched` what an edit takes. There is no engine here, so what depends
//! on rules alone doesn't wait for the proof of one.
//!
//! A call, in `crates/ksv_memo/src/slots.rt`:
//!
//! ```
//! let replies = Replies::new(slots.lend(), asked);
//! rules.next(alloc, node, bytes, &replies, uses)
//! ```
//!
//! Modules:
//!
//! - `folds`: `trait Folds`: nodes that an engine can keep by numbers alone
//! - `held`: `Held` and `Lent`, a node that is lent for one call of the rules at a time
//! - `places`: `trait Places`: the numbers of nodes
//! - `replies`: `Replies`, the answers that an engine lends to rules
//! - `rules`: `trait Rules`: what a node does next, with the laws of rules
//!
//! Definitions (`specs/`):
//!
//! - `Entry`: kept nodes as contracts see them
//! - `Evaluation`: evaluation from nothing by rules alone: no table, no stack
//! - `Folds`: nodes in an order, kept by numbers alone
//! - `Meaning`: what rules mean, and their laws
//! - `Right`: what is right to keep, what a question keeps, and its turns
//! - `Slots`: the answers that slots lend
//! - `Touched`: what an edit takes from the kept nodes
//! - `Unfolded`: a sequence of no nodes
//!
//! Lemmas (`proofs/`):
//!
//! - `Evals`: an answer is the same whatever is open outside its tree; the depth doesn't matter
//! - `Keeping`: the tree of a kept node is kept, and its answer is right whatever is open
//! - `Lists`: what holds of each element of a list
//! - `Replying`: lent replies are the answers in the asked slots
//! - `Standing`: the laws of rules over one list of bytes
//! - `Standins`: an entry with its node's own asks and uses is right, so one more can be kept
#![tactic(auto)]

mod folds;
mod held;
mod places;
mod replies;
mod rules;

pub use folds::{Folds, NoFold};
pub use held::{Held, Lent};
pub use places::Places;
pub use replies::{Replies, Slot, answer_at};
pub use rules::{Next, Outcome, Reply, Rules};
