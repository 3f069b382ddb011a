//! The lexical half of the YAML subset: a text's lines, what begins on a line, and the scalars and parts of flow
//! nodes on lines.
//!
//! [`cut::cut`] cuts a text into lines. [`start::read_start`] decides what begins on one: a dash, a key, a scalar
//! or a flow node. What is on several lines is read by [`plain::continue_plain`], [`block::block_scalar`] and
//! [`flow::flow_parts`]. How nodes nest, and what a text spells as a whole, is defined in ksv_yaml.
//!
//! A function that returns `Ok` has found exactly what the definitions in `specs/` give. One that returns a fault
//! has shown that they give nothing.
//!
//! A call, in `crates/ksv_yaml/src/document.rt`:
//!
//! ```
//! let Text { lines, stray } = match cut(alloc, text) {
//!     Ok(text) => text,
//!     Err(error) => return Err(of_text(error)),
//! };
//! ```
//!
//! Modules:
//!
//! - `block`: block scalars
//! - `cut`: cuts a text into lines
//! - `fault`: what is wrong with a text, or with what is on a line
//! - `flow`: the parts of flow nodes
//! - `line`: a line of a text
//! - `plain`: plain scalars
//! - `quiet`: lines without content, and runs of lines
//! - `quoted`: quoted scalars
//! - `start`: what begins on a line
//! - `white`: white space and comments
//!
//! Definitions (`specs/`):
//!
//! - `Blocks`: the text of a block scalar
//! - `Got`: what reading from the front of a list finds
//! - `Lines`: lines, white space and comments
//! - `Plain`: plain scalars, on a line and over several
//! - `Quoted`: quoted scalars on one line, escapes as steps
//! - `Rows`: the text of a block scalar from front to back, for private contracts
//! - `Starts`: what begins on a line
//! - `Text`: a text's lines, and which texts are refused before their lines are read
//! - `Tokens`: the parts of flow nodes
//! - `Views`: the plain data of the code's values
//!
//! Lemmas (`proofs/`):
//!
//! - `Choices`: choices by a truth value
//! - `Common`: what many of them name, of definitions and of other crates
//! - `Continuing`: a plain scalar that goes on over lines
//! - `Cutting`: a text is cut at its line feeds
//! - `Folding`: the rows of a block scalar give the same text from front to back
//! - `Numbers`: lines have their numbers
//! - `Parts`: steps of a reader of parts go forward; a quiet line has no part, another has one
//! - `Runs`: a plain run is found from front to back
//! - `Spaces`: white space is skipped, and a comment with it
//! - `Starts`: only one thing begins on a line
#![tactic(auto)]

pub mod block;
pub mod cut;
pub mod fault;
pub mod flow;
pub mod line;
pub mod plain;
pub mod quiet;
mod quoted;
pub mod start;
mod white;
