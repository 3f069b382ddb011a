//! Nodes of a described file: what can be asked of one, what is answered, and how a node's rule reads the bytes and
//! goes on with the replies to its questions.
//!
//! A rule is a plan (`specs/Plan` of ksv_basics) of two kinds of question: other nodes, and readings of the bytes.
//! Nothing here depends on descriptions.
//!
//! A turn, in `crates/ksv_rule_meaning/src/described.rt`:
//!
//! ```
//! let mut turn = Turn::new(alloc, &node.path, bytes, replies);
//! let ruled = N::rule(&mut turn, &self.desc, node);
//! add_uses(uses, turn.uses())?;
//! ```
//!
//! Modules:
//!
//! - `case_number`: which case a switch chose, in four bytes
//! - `element_count`: how many elements a list has, in four bytes
//! - `given`: the answers of nodes: head, value, end, rest
//! - `laws`: the laws of readings, turns and nodes
//! - `node`: nodes: a kind of question and a path
//! - `node_fault`: why a node has no answer: a fault of a rule, or a circle
//! - `object_origin`: how an object is read, in the room of an origin
//! - `search`: where a byte is first in bytes that are lent
//! - `turn`: `Turn`: a rule while it runs
//! - `turn/readings`: how it reads the bytes, and what that rests on
//! - `turn/replies`: how it takes the replies, in order
//!
//! Definitions (`specs/`):
//!
//! - `Bounds`: how many nodes a rule asks
//! - `Exact`: a lemma that a reader may skip: nodes that `==` finds equal are the same
//! - `Laws`: the laws of every rule: true replies, locality, uses within the bytes, an end
//! - `NodeFaults`: the names and paths of the faults of nodes
//! - `Numbers`: each node has a number of its own, with lemmas that a reader may skip
//! - `Origins`: optional origins in the room of one, with a lemma that a reader may skip
//! - `Reading`: the five readings, and what each depends on
//! - `Rule`: rules as plans over nodes and readings
//! - `Truth`: what a rule answers, asks and uses where each node has an answer
//! - `Turning`: a rule run on the replies so far
//!
//! Lemmas (`proofs/`):
//!
//! - `Bounds`: a run with as many replies as its bound has no open question
//! - `Common`: what many of them name, of definitions and of other crates
//! - `First`: the first byte of a value in two slices
//! - `Local`: a run is the same on bytes that agree on its uses
//! - `Looks`: readings on bytes that agree on their uses
//! - `Parts`: the path one step further
//! - `Ranges`: the uses of a run fit the bytes
//! - `Replied`: the next reply
//! - `Resuming`: the laws of a run from its beginning
//! - `Truth`: with true replies a rule asks, uses and answers what it does over a map
//! - `Turns`: what turns keep and add
#![tactic(auto)]

mod case_number;
mod element_count;
mod given;
mod laws;
mod node;
mod node_fault;
mod object_origin;
mod search;
mod turn;

pub use case_number::CaseNumber;
pub use element_count::{ELEMENT_LIMIT, ElementCount};
pub use given::{
    Calc, Ended, Given, Head, Holder, Leaf, List, MemberRef, Object, ObjectEnd, Origin, Rested,
};
pub use laws::{
    equal_nodes_are_same, nodes_are_numbered, readings_are_local, readings_fit, turns_are_bounded,
    turns_are_local, turns_fit, turns_meet_truth,
};
pub use node::{Node, NodeKind};
pub use node_fault::NodeFault;
pub use object_origin::ObjectOrigin;
pub use search::first_in_parts;
pub use turn::readings::Found;
pub use turn::{Halt, Turn};
