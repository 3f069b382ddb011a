//! Values of a described file, and expressions over them: their text, their tree and their evaluation.
//!
//! This crate only re-exports. The parser (ksv_expr_syntax) and the evaluation (ksv_expr_eval) don't depend on each other,
//! so a crate that only evaluates doesn't wait for the parser's proof.
//!
//! A call, in `crates/ksv_rows/src/expressions/ask.rt`:
//!
//! ```
//! match parse(alloc, text.as_bytes()) {
//!     Ok(expr) => {
//! ```
#![tactic(auto)]

pub use ksv_expr_eval::{
    Ctx, Element, Encoding, EvalStep, Expr, Fault, FaultKind, Got, Integer, Parts, Path, Place,
    Step, Stream, StreamEnd, Text, Value, Want, bits_are_told, division_is_floored,
    equal_paths_are_same, eval, is_bounded, meaning_is_direct, paths_are_numbered, truth_is_met,
};
pub use ksv_expr_syntax::{ExprFault, ExprFaultKind, parse, parse_type};
