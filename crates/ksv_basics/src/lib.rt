//! What expressions, descriptions and nodes have in common: plans, and digits.
//!
//! A rule that asks for other values is written as a plan. A plan answers, fails, or asks one question and states for
//! each answer how it goes on. A plan can be read in three ways: what it answers if a map answers every question, which
//! questions it then asks (both `specs/Asking`), and what running it on a list of replies gives (`specs/Plan`). The
//! lemmas in `proofs/` relate these ways. Each holds for every plan, so no rule needs a proof of its own that it can be
//! resumed from replies.
//!
//! A numeral is digits in a row ([`is_numeral`]); [`numeral`] is its number.
//!
//! A call, in `crates/ksv_yaml_tree/src/numeral.rt`:
//!
//! ```
//! match numeral(digits, 10) {
//!     None => Numeral::NoNumeral,
//!     Some(number) => {
//! ```
//!
//! Modules:
//!
//! - `digits`: digits in a row, and their number
//!
//! Definitions (`specs/`):
//!
//! - `Asking`: plans over one kind of question, answered by a map or by a list of replies
//! - `Numerals`: digits in a row, and their number
//! - `Plan`: what a plan is, and what running one gives
//!
//! Lemmas (`proofs/`):
//!
//! - `Bounds`: how many questions a plan asks
//! - `Running`: what running one plan after another gives
//! - `Truth`: with true replies a plan asks and answers what it does over a map
//! - `Worth`: digits in a row, and their number
#![tactic(auto)]

mod digits;

pub use digits::{is_numeral, numeral};
