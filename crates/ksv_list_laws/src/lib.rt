//! What the nodes of a plain list tell, in closed form: laws over definitions alone.
//!
//! A list is plain if its elements always take the same bytes, or are objects of fields that do, but for those whose size one
//! earlier integer says (`list_layout`, in `specs/Lists`). It goes on to the end of its stream, or has a count. What such a list's
//! nodes answer, ask and use follows from where it begins and from the sizes that its elements say. So an engine could hold these
//! numbers in place of the nodes; ksv_folds has them.
//!
//! In
//!
//! ```yaml
//! meta: {id: a}
//! seq:
//!   - {id: items, type: item, repeat: eos}
//! types:
//!   item:
//!     seq:
//!       - {id: len, type: u1}
//!       - {id: body, size: len}
//! ```
//!
//! the file `01 07 02 08 09` has two items, which begin at the bytes 0 and 2. The end of the second is at the byte 5, and is the
//! last. A change touches it just where it touches the value of its `len`, or the size of the file. If a tenth item is asked for, so are
//! the third to the ninth, each with the fault that there is no third.
//!
//! To prove the laws:
//!
//! ```sh
//! cd crates/ksv_list_laws && rt check
//! ```
//!
//! Modules:
//!
//! - `laws`: the laws, as contracts
//!
//! Definitions (`specs/`):
//!
//! - `Examples`: three plain lists
//! - `Laws`: the laws' statements
//! - `Lists`: what a list may be
//! - `Nodes`: the nodes of a list, and what each of them is to answer, to ask and to use
//!
//! Lemmas (`proofs/`):
//!
//! - `Chains`: nodes of which each asks an earlier one first tell from nothing what they tell where the earlier ones do
//! - `Common`: what many of them name, of definitions and of other crates
//! - `Entries`: what a node tells is right to keep
//! - `Examples`: the lists of the examples are plain
//! - `Fields`: what the rules of fields say, and of the value that says their size
//! - `Folding`: a guard and a place stand in for a node
//! - `Growing`: how an engine may grow by these nodes
//! - `Guards`: a change touches a node just where it touches its guard or the farthest place
//! - `Laid`: what a layout that was found says
//! - `Ordering`: what is so of a node where it is so of one before it
//! - `Paths`: paths of elements and of their fields
//! - `Places`: where elements and fields begin, in order; the ranks of nodes
//! - `Plain`: what the test of a plain list says
//! - `Rising`: what is so of a node where it is so of one that it asks
//! - `Rules`: what the rules of elements and rests say
//! - `Says`: what a rule answers, asks and uses where the nodes that it asks have known answers
//! - `Shorter`: what an edit leaves of a list
//! - `Telling`: the nodes of a plain list are a chain
//! - `Trees`: the tree of a node, and what touches it
//! - `Truth`: truth values, and what there may be
//! - `Written`: a list is plain by what its values answer
#![tactic(auto)]

mod laws;

pub use laws::{
    entries_are_right, examples_are_plain, guards_tell, nodes_complete_in_order, nodes_grow,
    nodes_tell, shorter_stays_plain, trees_are_asked, values_are_written,
};
