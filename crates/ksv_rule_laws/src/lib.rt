//! Laws of what the nodes of a file answer.
//!
//! They are about the definitions of ksv_rule_meaning alone. An error that is made twice, in a rule and in the function of
//! its name, would break them. No program uses this crate.
//!
//! To prove them:
//!
//! ```sh
//! cd crates/ksv_rule_laws && rt check
//! ```
//!
//! Modules:
//!
//! - `laws`: the laws, as contracts
//!
//! Definitions (`specs/`):
//!
//! - `Expressions`: what an expression means in a rule
//! - `Laws`: the laws of what nodes answer
//!
//! Lemmas (`proofs/`):
//!
//! - `Answering`: an answer is its rule's, with fewer nodes open it is the same, and what is so of all answers
//! - `Checking`: a value that was checked meets what it must
//! - `Circles`: a circle comes from nodes that ask for each other, and from no rule
//! - `Common`: what many of them name, of definitions and of other crates
//! - `Counting`: the count of a list is that of the elements that end
//! - `Enclosing`: what is read is in the stream of the object or list that holds it
//! - `Expressions`: what an expression gives, by its parts
//! - `Following`: an attribute begins after the one before it
//! - `Forms`: an answer has its node's form, and a value fits its head and meets what it must
//! - `Members`: how the members of a description read, and the case that a switch chose
//! - `Meeting`: what an expression answers in a rule where each node has an answer
//! - `Places`: each place in an answer is in the file
//! - `Ranges`: places in the value of an expression are in the file
//! - `Rules`: what is so of each answer of a rule, by its parts
//! - `Shapes`: what an answered head, value, end and rest is
//! - `Shaping`: what rules of heads, ends and rests answer has a shape, a lemma a rule
//! - `Sources`: what is at a path is read by a member of the description
//! - `Starts`: places, and the bytes beside them
//! - `Touching`: an element begins where the one before it ends
//! - `Values`: what rules of values answer, a lemma a rule
#![tactic(auto)]

mod laws;

pub use laws::{
    answers_have_forms, answers_stay, attributes_touch, circles_lead_back, elements_touch,
    expressions_are_met, heads_are_read, no_rule_makes_circles, parts_lie_in_streams,
    places_are_in_file, rests_count, values_have_heads, values_meet_checks,
};
