//! An engine that answers the nodes of any rules over the bytes of a file, and keeps what it has answered.
//!
//! [`Rules`] define what a node does next after some replies: it needs the answer of another node, or it is done.
//! An [`Engine`] runs a node by them on an explicit stack and never runs a node twice while its answer is kept.
//! Each of its answers is what evaluation from nothing gives (`specs/Evaluation` of ksv_memo_rules). After an edit it
//! forgets the nodes with a touched use in their tree, and no others (`specs/Touched` of ksv_memo_rules). It doesn't
//! depend on what nodes and answers mean, nor on how the number of a node is found: the `Places` of the rules do that. They
//! give no node back, so the frame of an open node holds it.
//!
//! A call, in `crates/ksv_questions/src/asking.rt`:
//!
//! ```
//! let answer = engine.ask(file.described, file.buffer, Node { kind, path })?;
//! heard(answer)
//! ```
//!
//! Modules:
//!
//! - `engine`: `Engine`, the public face
//! - `folded`: the table with nodes that are kept by numbers alone
//! - `frames`: a frame for each open node, which holds it, with what it asked and used
//! - `laws`: the laws of all rules
//! - `lendings`: the nodes that are kept by numbers alone and have slots too
//! - `machine`: one turn, what follows it, the loop, and the look-up before it
//! - `machine/turns`: the count of turns
//! - `slots`: the numbers of nodes and their slots, each look counted; `call`, the only caller of `next`
//! - `table`: the table of kept and open nodes
//! - `uses`: uses, each once
//! - `vacancy`: slots with nothing in them, which are given to other nodes
//!
//! Definitions (`specs/`):
//!
//! - `Answers`: the answer to a question, and the turns that are counted for it
//! - `Behind`: how few looks an insert, a delete or an append takes
//! - `Calls`: what one call of the rules does to frames, for private contracts
//! - `Emptying`: how slots that are taken are emptied, for private contracts
//! - `Folding`: nodes that are kept by numbers alone, beside those that have slots, for private contracts
//! - `Growing`: a table that grows before a node is looked up, for private contracts
//! - `Layout`: how the table keeps nodes, and the lists that this means, for private contracts
//! - `Lending`: nodes that are kept by numbers alone and have slots too, for private contracts
//! - `Moves`: what each call of the table does to slots and frames, for private contracts
//! - `Near`: how few looks an overwrite takes
//! - `Nodes`: the table as the machine sees it, for private contracts
//! - `Open`: the open nodes, as contracts see them
//! - `Resting`: an engine between two calls, for private contracts
//! - `Running`: the invariants of the machine, for private contracts
//! - `Slotted`: the slots as contracts see them, for private contracts
//! - `Sweep`: what an edit takes, entry by entry, for private contracts
//!
//! Lemmas (`proofs/`):
//!
//! - `Absorbing`: a node that was open before a run began becomes the next one of it
//! - `Beside`: folded nodes beside those that have slots
//! - `Change`: what is still right when the bytes change
//! - `Changing`: links and frames after one slot has changed
//! - `Common`: what many of them name, of definitions and of other crates
//! - `Counted`: several calls, counted at once
//! - `Emptying`: slots are emptied one after another
//! - `Ends`: what is kept ends by the engine's reach
//! - `Finding`: what the slot at a place says
//! - `Forgetting`: what forgetting takes is what an edit takes, and the rest is right
//! - `Founding`: a run begins where its root has its answer
//! - `Retelling`: a run whose nodes are told anew, and which of them may be kept by numbers alone then
//! - `Growing`: a question goes on as if the table had grown before the call
//! - `Growth`: a run grows by nodes that evaluation of an asked one completes
//! - `Knowing`: which nodes are kept or open, read from the slots
//! - `Laying`: the lists of kept and open nodes when one slot changes
//! - `Leasts`: the least number that an open node has among nodes that are kept by numbers alone
//! - `Leaving`: what an edit leaves of folded nodes, and of the table beside them
//! - `Lending`: a folded node that is kept in a slot too
//! - `Listing`: the nodes that are kept by numbers alone and have slots too
//! - `Moves`: what each move of the machine does to the invariants
//! - `Once`: the members of a list, each once
//! - `Places`: an entry among others is as one after them
//! - `Questions`: what a question keeps, as sets
//! - `Resting`: frames when no node is open, and an empty table
//! - `Runs`: a run, or none, through the table's moves
//! - `Sums`: sums over different slots
//! - `Sweeping`: the emptied slots are those of the entries that an edit takes
//! - `Tabling`: what a look-up says of kept and open nodes
//! - `Taking`: what the table's moves mean for a question
//! - `Topping`: the last open node: opened, run, kept, taken out
//! - `Turns`: tests and moves on kept and open nodes, and the measure
//! - `Unfolded`: what is known of nodes that are kept by numbers alone, from their root
//! - `Waiting`: what an open node waits for has no open node in its tree
//! - `Zipping`: nodes beside their slots
#![tactic(auto)]

mod engine;
mod folded;
mod frames;
pub mod laws;
mod lendings;
mod machine;
mod slots;
mod table;
mod uses;
mod vacancy;

pub use engine::{Answer, Engine};
pub use ksv_memo_rules::{Held, Lent, Next, Replies, Rules, Slot};
