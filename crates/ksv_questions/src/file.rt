//! A file under its description.

use ksv_bytes::Buffer;
use ksv_rule_meaning::Described;
use std::alloc::Global;

/// A file under its description: what a question needs beside an engine.
#[derive(Drop)]
pub(crate) struct File<'a, N> {
    /// Where memory comes from.
    pub(crate) alloc: Global,
    /// The description, with the code of its rules.
    pub(crate) described: &'a Described<N>,
    /// The bytes.
    pub(crate) buffer: &'a Buffer,
}
