//! Examples that are computed from the definitions themselves.
//!
//! Contracts state that the code does what the definitions say. No contract can state that the definitions say what is
//! meant. So here each layer's definitions are run on small inputs whose results were found by hand or by another program:
//! which tree a YAML text spells, which value an expression has, which descriptions are refused, what others state, and what
//! a whole session writes. An error that is made twice, in a definition and in the function of its name, shows here.
//!
//! The crate has definitions and lemmas alone, and no other crate uses it.
//!
//! A text, and the tree that it spells, in `crates/ksv_examples/specs/Trees.antt`:
//!
//! ```
//! -- a character of three bytes
//! lines (codes "\"\\u20ac\"" ∷ []) (Some (quoted 1 (226 ∷ 130 ∷ 172 ∷ []))) ∷
//! ```
//!
//! Definitions (`specs/`):
//!
//! - `Depth`: evaluation from nothing to a given depth, so that it can be computed
//! - `Descriptions`: texts that are refused, with line and code, and texts with what they state
//! - `Dialogues`: whole sessions: description, bytes and input, with all that is written and the bytes at the end
//! - `Expressions`: expressions with their values, and what expressions of names ask for
//! - `Stats`: whole sessions with `stats`
//! - `Trees`: YAML texts with their trees
//! - `Walks`: what evaluating a node gives, asks, reads and completes, computed to a given depth all at once
//!
//! Lemmas (`proofs/`):
//!
//! - `Depth`: what is computed to a depth is what evaluation from nothing answers
//! - `Dialogues`: the dialogues are those of the definitions
//! - `Sessions`: a session by answers to a depth writes what the session writes
//! - `Stating`: what a text states, with every definition on the way unfolded
//! - `Stats`: what `stats` tells by evaluation to a depth is what it tells by the definitions
//! - `Walks`: what is computed of a node to a depth is what the definitions say of it
#![tactic(auto)]
