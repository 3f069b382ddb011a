//! Links of paths, rows of marks, and spots.

use ksv_expr_value::Step;
use ksv_nodes::NodeKind;

/// A path: the number of the path one step shorter, its last step, and the number of the next member in a chain; 0 for none.
#[derive(Clone, Copy)]
pub(crate) struct Link {
    /// The path one step shorter.
    pub(crate) parent: u32,
    /// The last step.
    pub(crate) step: Step,
    /// The next member of the same path in a chain; 0 for none.
    pub(crate) next: u32,
}

/// The marks of the four nodes of a path: each is its place and one more, or 0 for none.
#[derive(Clone, Copy)]
pub(crate) struct Row {
    /// The mark of its head.
    pub(crate) head: u32,
    /// The mark of its value.
    pub(crate) value: u32,
    /// The mark of its end.
    pub(crate) end: u32,
    /// The mark of its rest.
    pub(crate) rest: u32,
}

/// Which node has a place.
#[derive(Clone, Copy)]
pub(crate) struct Spot {
    /// The number of its path.
    pub(crate) path: u32,
    /// What it asks.
    pub(crate) kind: NodeKind,
}
