//! Tests that call what is below sessions: what expressions depend on, places of nodes, a node's turn, nodes of a described file,
//! how many looks an overwrite takes, trees and descriptions.
//!
//! A function that owns a turn, or what a turn reads, lends it to another function and then drops it by name. So the drop
//! is proved once, and not in each function and for each way out of it.
//!
//! To run them:
//!
//! ```sh
//! cd crates/ksv_test_rules && rt test
//! ```
//!
//! Modules:
//!
//! - `descriptions`: trees of YAML, and what a description holds
//! - `expressions`: paths, integers, bytes in parts, encodings, faults and refused texts
//! - `folded`: long plain lists, by an engine that keeps nodes by their numbers alone and one that has a slot for each
//! - `near`: how many looks an overwrite takes where the nodes of a described file are kept
//! - `nodes`: paths from texts, answers of nodes, decimal numbers
//! - `places`: places of nodes, by the five calls
//! - `turns`: each call of a turn, with and without a fault, and what each reading depends on
#![tactic(auto)]

#[cfg(test)]
mod descriptions;
#[cfg(test)]
mod expressions;
#[cfg(test)]
mod folded;
#[cfg(test)]
mod near;
#[cfg(test)]
mod nodes;
#[cfg(test)]
mod places;
#[cfg(test)]
mod turns;
