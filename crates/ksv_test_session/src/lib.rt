//! Tests of what no row of a table reaches: a file of the greatest size, messages, devices that fail, and what sessions
//! keep across random lines, compared with a slow program that evaluates each node from nothing.
//!
//! To run them:
//!
//! ```sh
//! cd crates/ksv_test_session && rt test
//! ```
//!
//! Modules:
//!
//! - `devices`: sessions over readers and writers of std that fail once
//! - `kept`: what a session keeps across random lines
//! - `messages`: the program's messages, and the words that it takes
//! - `plain`: a slow program that evaluates each node from nothing
//! - `random`: numbers that look random
//! - `sessions`: a file of the greatest size; a session line by line
#![tactic(auto)]

#[cfg(test)]
mod devices;
#[cfg(test)]
mod kept;
#[cfg(test)]
mod messages;
#[cfg(test)]
mod plain;
#[cfg(test)]
mod random;
#[cfg(test)]
mod sessions;
