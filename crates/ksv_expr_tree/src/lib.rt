//! Expressions and types with arguments as trees.
//!
//! Contracts see an expression as a plain tree (`specs/Tree`), by `view`.
//!
//! A tree, read, in `crates/ksv_expr_eval/src/evaluation.rt`:
//!
//! ```
//! Literal::Number(number) => Value::Int(Integer::from(*number)),
//! Literal::Truth(truth) => Value::Bool(*truth),
//! ```
//!
//! Modules:
//!
//! - `tree`: expressions and types with arguments, with fields for the numbers of their names
//!
//! Definitions (`specs/`):
//!
//! - `Tree`: the same as plain trees
#![tactic(auto)]

pub mod tree;

pub use tree::{
    BinaryOperator, EnumMember, Expr, Literal, LogicalOperator, Member, Name, SpecialName,
    TypeName, TypeRef, UnaryOperator,
};
