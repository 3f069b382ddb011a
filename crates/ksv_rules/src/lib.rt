//! The rules of a description's nodes: what is at a path of a file, its value, and where it ends.
//!
//! Each rule is a definition of ksv_rule_meaning (`Heads`, `Values`, `Ends`, and `Fields`, `Choosing`, `Checks`, `Wanted` below them)
//! and a function of the same name here that runs it on the replies so far. [`DescriptionRules`] runs the rule of any node. An engine
//! (ksv_memo) calls it and keeps what it answers.
//!
//! These rules, in a session, in `crates/ksv/src/session.rt`:
//!
//! ```
//! ksv_session::run::<DescriptionRules, R, W>(alloc, reader, writer, desc, bytes)
//! ```
//!
//! Modules:
//!
//! - `answers`: a turn answers the wants of expressions
//! - `calculated`: the values of value instances and parameters
//! - `checks`: what a value must meet
//! - `choosing`: the case that a switch chooses
//! - `ends`: where something ends, and how a list goes on to its last element
//! - `evaluation`: the value of an expression in a rule, whose wants the turn answers
//! - `fields`: the members of types
//! - `heads`: what is at a path, and where
//! - `lent`: bytes that are lent in two slices
//! - `parts`: where a member or an element ends, and the list that has it
//! - `rules`: the rule of a node, and `DescriptionRules`, the code of all rules
//! - `settings`: where the expressions of a member are evaluated
//! - `shapes`: what is read at a place in the bytes
//! - `values`: the value of what is at a path
//! - `wanted`: integers, truth values, sizes and objects that expressions give
//!
//! Definitions (`specs/`):
//!
//! - `Chosen`: the plain data of a case that the code has chosen
//! - `Code`: words of private contracts
//! - `Met`: how a turn meets the wants of an expression
//!
//! Lemmas (`proofs/`):
//!
//! - `Arguments`: an argument by its number
//! - `Conditions`: conditions that are evaluated one after another
//! - `Meeting`: an expression in a rule runs as its plan does where the turn answers
//! - `Naming`: an expression that is one name asks for that member
//! - `Parameters`: how many parameters are among the first members
//! - `Peeked`: how many bytes a reading of a range gives
#![tactic(auto)]

mod answers;
mod calculated;
mod checks;
mod choosing;
mod ends;
mod evaluation;
mod fields;
mod heads;
mod lent;
mod parts;
mod rules;
mod settings;
mod shapes;
mod values;
mod wanted;

pub use ksv_nodes::{
    Calc, CaseNumber, ElementCount, Given, Head, Holder, Leaf, List, MemberRef, Node, NodeKind,
    Object, ObjectEnd, ObjectOrigin, Origin,
};
pub use ksv_paths::{decimal, path_of, paths_are_read, texts_are_written};
pub use ksv_rule_meaning::{evaluation_is_direct, next_meets_truth, rules_are_bounded};
pub use rules::DescriptionRules;

/// The rules of a description, run by the code of this crate.
pub type Described = ksv_rule_meaning::Described<DescriptionRules>;
