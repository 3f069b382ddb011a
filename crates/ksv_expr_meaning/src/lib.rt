//! The meaning of expressions: what they ask for, what they get, and their values over any answers.
//!
//! What an expression wants, in `crates/ksv_expr_eval/src/asking.rt`:
//!
//! ```
//! value_for(answers, ctx, Want::Value(path))
//! ```
//!
//! Modules:
//!
//! - `laws`: the laws of evaluation
//! - `method`: the methods of values
//! - `want`: what an expression asks for, and what it gets
//!
//! Definitions (`specs/`):
//!
//! - `Asked`: what expressions ask, and the plans of single questions
//! - `Evaluation`: the value over a map from wants to answers, and the evaluation on replies
//! - `Heard`: what replies mean
//! - `Integers`: the operators of integers, and in mathematical terms: division by its equation, bits one by one
//! - `Meaning`: what an expression means: what it asks, and what it does with the answers
//! - `Methods`: the names of methods
//! - `Operators`: operators and methods that ask nothing
//! - `Replying`: a map that answers as some replies do
//! - `Texts`: the methods of texts
//!
//! Lemmas (`proofs/`):
//!
//! - `Bits`: the bits of two's complement, of any width and in 128 bits
//! - `Division`: floored division, and by a divisor below 0
//! - `Truths`: the laws of evaluation
//! - `Wants`: how many wants an expression has
#![tactic(auto)]

mod laws;
mod method;
mod want;

pub use laws::{bits_are_told, division_is_floored, is_bounded, meaning_is_direct, truth_is_met};
pub use method::Method;
pub use want::{EvalStep, Got, Opened, Want};
