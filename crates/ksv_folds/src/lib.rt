//! The nodes of a plain list by numbers alone, where its elements are of one size, or all but the last field of each are.
//!
//! A [`PlainList`] holds a few numbers of a list: where it begins, the size of an element, and the fields. From these follow the
//! nodes of all elements in order, and what each of them answers, uses and takes. So an engine could hold how many of them it
//! keeps, in place of a slot for each: it implements [`ksv_memo_rules::Folds`]. ksv_rules uses it.
//!
//! In
//!
//! ```yaml
//! meta: {id: a}
//! seq:
//!   - {id: points, type: point, repeat: eos}
//! types:
//!   point:
//!     seq:
//!       - {id: x, type: u1}
//!       - {id: y, type: u1}
//! ```
//!
//! an element has six nodes: its head, the head and the end of `x`, those of `y`, and its end. In the file `01 02 03 04 05 06` the
//! end of the last point has the number 17, and the sequence goes on with the rests: 18 is that from the last point on, and 20 that
//! of the whole list. Behind an append the list ends elsewhere: then the sequence has the nodes up to the end of the second point.
//!
//! To prove the crate:
//!
//! ```sh
//! cd crates/ksv_folds && rt check
//! ```
//!
//! Modules:
//!
//! - `calls`: the calls of all nodes before one
//! - `counting`: how many nodes the sequence has over some bytes
//! - `entries`: what a node answers, and how far it reads
//! - `finding`: which node of an element a node is, and its number
//! - `folds`: the nodes, for an engine that keeps them by numbers alone
//! - `laws`: the law, as a contract
//! - `layout`: whether the description says what a list's numbers say
//! - `leaving`: which nodes an edit leaves
//! - `making`: finds the numbers of a list, and tells it anew
//! - `nodes`: the node of a number
//! - `numbers`: which node a number is of, and where elements and fields are
//! - `part`: the fields of an element
//! - `plain_list`: the numbers of a list
//! - `same`: whether two lists are the same
//! - `scanning`: finds where elements begin that say the size of their last field
//! - `spot`: which node of an element
//! - `tail`: paths of elements and of their members
//!
//! Definitions (`specs/`):
//!
//! - `Laws`: the law's statement
//! - `Layouts`: what the code finds of the layout of a list's elements
//! - `Lemmas`: lemmas that a reader may skip: each node comes once; parts, spots, numbers, and what is found
//! - `Parts`: the fields of an element, by numbers
//! - `Sequence`: the sequence of a plain list
//! - `Tails`: what a path is to a list
//!
//! Lemmas (`proofs/`):
//!
//! - `Adding`: the calls of the nodes of a sequence, added up
//! - `Asked`: what nodes ask, by their numbers
//! - `Counted`: the nodes that are counted are as the sequence says
//! - `Covered`: of which elements the nodes are told
//! - `Laid`: where elements and fields are, by the numbers of the list
//! - `Edits`: which nodes an insert, a delete or an append takes
//! - `Overwrites`: which nodes an overwrite takes, where elements say sizes
//! - `Most`: how many elements may have numbers
//! - `Plain`: what the code found is a plain list's layout
//! - `Reaches`: nodes read farther and farther
//! - `Retold`: the nodes before both last ends stay where a list is told anew
//! - `Right`: the sequence of a plain list is as it says
//! - `Rooms`: where elements and fields are in the file
//! - `Scanned`: places that are added behind others
//! - `Sized`: what the code found of a type whose last field has a size that is said
//! - `Steps`: equal steps are the same, and what the steps behind those of a list say
//! - `Tests`: tests that are true
//! - `Told`: what the nodes of a plain list are, answer and use, by the numbers of the list
//! - `Written`: which elements say their sizes
#![tactic(auto)]

mod calls;
mod counting;
mod entries;
mod finding;
mod folds;
mod laws;
mod layout;
mod leaving;
mod making;
mod nodes;
mod numbers;
mod part;
mod plain_list;
mod same;
mod scanning;
mod spot;
mod tail;

pub use laws::sequences_are_right;
pub use plain_list::PlainList;
