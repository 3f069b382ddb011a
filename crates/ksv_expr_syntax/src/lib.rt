//! The expression language of a description: its tokens, its grammar, and the trees that texts spell.
//!
//! `parse` reads an expression and `parse_type` a type with its arguments, both within two limits: 256 parts, and
//! 32 nested levels. What a text spells is defined apart from the code: `specs/Tokens` defines what a token is
//! and which one is the longest at a place, `specs/Grammar` which tokens are which tree.
//!
//! A call, in `crates/ksv_schema/src/keys/expressions.rt`:
//!
//! ```
//! match parse(alloc, text) {
//! ```
//!
//! Modules:
//!
//! - `cursor`: a place among tokens, and the steps forward from it
//! - `fault`: why a text is no expression
//! - `laws`: the laws of the language
//! - `lexer`: cuts a text into tokens, each as long as possible
//! - `make`: expressions as the parser makes them, each with its plain tree
//! - `outcome`: expressions from the results of reading their parts, a fault included
//! - `parser`: reads an expression from front to back, one token ahead
//! - `read`: the crate's two readers: `parse` and `parse_type`
//! - `token`: tokens: how symbols are written, which operators they are, and how tightly these bind
//!
//! Definitions (`specs/`):
//!
//! - `Code`: the results of the parser's functions, for private contracts
//! - `Cutting`: how the lexer finds the longest token
//! - `Faults`: the codes and texts of refusals
//! - `Grammar`: which tokens are which tree, one case a rule
//! - `Lexemes`: tokens as plain data
//! - `Reading`: reading one token ahead, with a bound on nested calls
//! - `Symbols`: symbols: how each is written and found, and which operator it is
//! - `Text`: what a text spells: its tokens, and their tree within the limits
//! - `Tokens`: what a token is, which is the longest at a place, and the tokens of a text
//!
//! Lemmas (`proofs/`):
//!
//! - `Common`: what many of them name, of definitions and of other crates
//! - `Complete`: what is spelled is read
//! - `Exits`: what each exit of the parser's functions means for reading
//! - `Flow`: reading as equations without the bound on calls
//! - `Lexing`: facts about cutting a text
//! - `Longest`: what is cut is the longest token
//! - `Loops`: the invariants of the parser's loops
//! - `Same`: any bound that is large enough reads the same
//! - `Scan`: cutting a text from front to back gives its tokens
//! - `Sound`: what is read is spelled
//! - `Steps`: what follows from a step of reading that found something
//! - `Symbols`: each symbol is found where it is written, and how tightly tokens bind
//! - `Theorem`: tokens spell one tree, the one that is read
#![tactic(auto)]

mod cursor;
mod fault;
mod laws;
mod lexer;
mod make;
mod outcome;
mod parser;
mod read;
mod token;

pub use fault::{ExprFault, ExprFaultKind};
pub use ksv_expr_tree::{
    BinaryOperator, EnumMember, Expr, Literal, LogicalOperator, Member, Name, SpecialName,
    TypeName, TypeRef, UnaryOperator,
};
pub use laws::{less_stands_behind, one_longest_token, one_reading};
pub use read::{DEPTH, PARTS, parse, parse_type};
