//! What is read at a key of a description's tree, by the form of its value: `specs/Values`. `specs/Rules` has the keys
//! and the rules of keys together, `specs/Faults` which fault is the least.

pub(crate) mod fault;
pub(crate) mod key;
pub(crate) mod reader;
pub(crate) mod rule;
pub(crate) mod types;
pub(crate) mod valid;
pub(crate) mod value;
