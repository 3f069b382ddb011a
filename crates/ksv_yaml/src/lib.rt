//! Reads a subset of YAML 1.2 to a tree.
//!
//! Unless memory is refused, [`read`] returns the tree that a text spells, or a fault if it spells none. What a text
//! spells is a relation by cases on whole blocks of lines (`specs/Grammar`, `specs/Flow`); that no text spells two
//! trees is the law [`one_tree`].
//!
//! The subset has block and flow mappings and sequences, compact items, plain and quoted scalars, block scalars,
//! comments and one mark `---`. Anchors, aliases, tags, complex keys, directives and several documents are
//! unsupported.
//!
//! A call, in `crates/ksv/src/description.rt`:
//!
//! ```
//! let tree = match read(alloc, ksy) {
//!     Ok(tree) => tree,
//!     Err(fault) => return Err(of_yaml(fault)),
//! };
//! ```
//!
//! Modules:
//!
//! - `block`: blocks that are open, and the fault of a line that fits none of them
//! - `document`: `read`: cutting, the mark `---`, control characters, the reported fault
//! - `fault`: why a text has no tree
//! - `flow`: flow nodes, from their parts
//! - `keys`: the keys of a mapping so far
//! - `make`: nodes and entries as the reader makes them, each with its plain tree
//! - `reader`: blocks: node, mapping, value, sequence and item
//! - `scalar`: scalars and flow nodes that begin on a line
//!
//! Definitions (`specs/`):
//!
//! - `Code`: words of private contracts
//! - `Faults`: codes and texts of refusals, and what a refusal means
//! - `Flow`: flow nodes from their parts
//! - `Grammar`: blocks, by cases on whole blocks of lines
//! - `Keys`: the keys that a set holds
//! - `Reading`: reading from front to back, with a bound on nested calls
//! - `Text`: the tree that a text spells
//!
//! Lemmas (`proofs/`):
//!
//! - `Answering`: what a step of the code answers, in the words of its contract
//! - `BlockLoops`: a lemma for each step of the reader of blocks
//! - `Common`: what many of them name, of definitions and of other crates
//! - `Complete`: what is spelled is read
//! - `Distinct`: keys read one after another are distinct
//! - `FlowComplete`: the same for flow nodes
//! - `FlowLoops`: a lemma for each step of the reader of flow nodes
//! - `FlowSound`: a flow node that is read is spelled
//! - `InlineComplete`: the same for scalars and flow nodes on lines
//! - `InlineSound`: a scalar or flow node that is read is spelled
//! - `Joins`: items and entries added one by one
//! - `Sound`: what is read is spelled
//! - `Steps`: what follows from a step of reading that found something
//! - `TextTheorem`: no text spells two trees, and a refused text spells none
//! - `Theorem`: lines spell the tree that is read
//! - `Whole`: what `read` answers
#![tactic(auto)]

mod block;
pub mod document;
pub mod fault;
mod flow;
mod keys;
mod make;
mod reader;
mod scalar;

ghost use Rattle.std.specs.Prelude.{◌≡◌, ◌≤◌, ℕ, List, Option, Some, None, length, IsUtf8};
ghost use Rattle.ksv_yaml_tree.specs.Tree.{Tree};
ghost use Rattle.ksv_yaml.specs.Text.{Spells, tree_of_text};
ghost use Rattle.ksv_yaml_scan.specs.Text.{text_limit};

pub use document::read;
pub use fault::{YamlFault, YamlKind};
pub use ksv_yaml_tree::{Entry, Yaml, find};

/// No text spells two trees.
pub fn one_tree()
    ensures { (text : List ℕ) (t u : Tree) → Spells text t → Spells text u → t ≡ u }
{}

/// Reading finds exactly the tree that a text spells.
pub fn reading_is_spelling()
    ensures sound { (text : List ℕ) (t : Tree) → length text ≤ text_limit → IsUtf8 text → tree_of_text text ≡ Some t → Spells text t }
    ensures complete { (text : List ℕ) (t : Tree) → Spells text t → tree_of_text text ≡ Some t }
{}
