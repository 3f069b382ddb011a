//! Evaluation of expressions: an expression asks for what it needs of the file, and whoever answers answers. Replies in a row do
//! (`eval`), and so may anything else ([`Answers`], `evaluate`).
//!
//! A call, in `crates/ksv_rows/src/expressions/ask.rt`:
//!
//! ```
//! show(alloc, &eval(alloc, expr, ctx, replies)?, out)
//! ```
//!
//! Modules:
//!
//! - `answer`: the answer to a want
//! - `answers`: `trait Answers`: who answers wants
//! - `arithmetic`: the operators of integers
//! - `asking`: what is asked of other places, and what is done with the answers
//! - `evaluation`: the one recursion over expressions, `evaluate` and `eval`
//! - `forms`: what each form of expression gives, from the values of its parts
//! - `halt`: why an evaluation stops before its end
//! - `method`: names of methods
//! - `operators`: operators and methods that ask nothing
//! - `replies`: replies that answer in order
//! - `texts`: the methods of texts
//! - `wants`: a want and its answer, by the answer's form; every want is asked here
//!
//! Definitions (`specs/`):
//!
//! - `Answering`: who answers wants
//! - `Runs`: the clause of each function: it runs a plan, where someone answers
//! - `Said`: what an answer says
//!
//! Lemmas (`proofs/`):
//!
//! - `Cases`: the meaning of an expression, clause by clause, so that no proof needs to unfold all of it
//! - `Characters`: characters in a row, and their bytes
//! - `Numerals`: numbers of digits that stop at a bound above every integer
#![tactic(auto)]

mod answer;
mod answers;
mod arithmetic;
mod asking;
mod evaluation;
mod forms;
mod halt;
mod method;
mod operators;
mod replies;
mod texts;
mod wants;

pub use answer::Answer;
pub use answers::Answers;
pub use evaluation::{eval, evaluate};
pub use halt::Halt;
pub use ksv_expr_meaning::{
    EvalStep, Got, Opened, Want, bits_are_told, division_is_floored, is_bounded, meaning_is_direct,
    truth_is_met,
};
pub use ksv_expr_tree::Expr;
pub use ksv_expr_value::{
    Ctx, Element, Encoding, Fault, FaultKind, Integer, Parts, Path, Place, Step, Stream, StreamEnd,
    Text, Value, equal_paths_are_same, paths_are_numbered,
};
