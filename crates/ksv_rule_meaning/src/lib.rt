//! What the rules of a description's nodes mean: the definitions, and what is proved of them alone.
//!
//! A rule (`specs/`: `Heads`, `Values` and `Ends`, and `Fields`, `Wanted`, `Choosing`, `Checks` and `Integers`, which they use) is
//! a plan over nodes and readings of the bytes. [`NodeRules`] is code that runs the rule of any node, and [`Described`] is a description
//! with such code, as an engine (ksv_memo) sees it. So what depends on these doesn't wait for the proof of any rule's code.
//!
//! Which nodes evaluation from nothing completes, which of them an edit touches, and how many calls of rules they take
//! (`specs/Completed`, `specs/Kept`) are direct recursions on the rules too, and know no engine. The laws state that an
//! engine's contracts, in their own words, say the same.
//!
//! A call, in `crates/ksv_rule_meaning/src/described.rt`:
//!
//! ```
//! let ruled = N::rule(&mut turn, &self.desc, node);
//! ```
//!
//! Modules:
//!
//! - `described`: `NodeRules` and `Described`: the rules as an engine sees them
//! - `integer`: the integer that bytes say, as code
//! - `laws`: laws of evaluation and of what is kept: the engine's are the direct ones; how many nodes a rule asks
//! - `members`: the members of a type, as code
//!
//! Definitions (`specs/`):
//!
//! - `Checks`: what a value must meet
//! - `Choosing`: the case that a switch chooses
//! - `Completed`: what evaluation from nothing completes, by direct recursion
//! - `Described`: what the rules mean to an engine, and how many nodes a rule asks at most
//! - `Direct`: laws: evaluation by replies is the direct one
//! - `Ends`: where something ends; what a list is from an element on
//! - `Fields`: the members of types
//! - `FromNothing`: evaluation from nothing
//! - `Heads`: what is at a path, and where
//! - `Integers`: the integer that some bytes are
//! - `Kept`: what is kept across questions and edits, and the turns
//! - `Laws`: laws: an engine's words for what it keeps are the direct ones; how many nodes a rule asks
//! - `Lemmas`: lemmas that a reader may skip: how many nodes each rule asks; the rules keep the laws of `Rules`
//! - `Meaning`: the rule of a node
//! - `Members`: what code keeps of a member that it looked for
//! - `Values`: the value of what is at a path
//! - `Wanted`: expressions in rules: which nodes and readings answer their wants
//!
//! Lemmas (`proofs/`):
//!
//! - `Completing`: what an engine completes, touches and counts is what the direct definitions say
//! - `Direct`: evaluation by replies is the direct one
//! - `Integers`: integers of bytes one by one, and of two slices
#![tactic(auto)]

mod described;
mod integer;
mod laws;
mod members;

pub use described::{Described, NodeRules};
pub use integer::integer_value;
pub use laws::{
    completion_is_direct, cost_is_direct, evaluation_is_direct, next_meets_truth,
    rules_are_bounded, touch_is_direct,
};
pub use members::{Sought, find_member, last_attribute, members_of, number_of};
