//! Nodes: what can be asked of a place in a described file.

ghost use Rattle.std.specs.Prelude.{◌≡◌, IfOk};

use ksv_expr_value::Path;
use std::alloc::{AllocError, Global};

/// What is asked of a path.
#[derive(Clone, Copy, PartialEq, Eq)]
pub enum NodeKind {
    /// What is there, and where.
    Head,
    /// Its value.
    Value,
    /// Where it ends; for an element also whether it is the last one.
    End,
    /// From an element on, how many elements its list has, and where the list ends.
    Rest,
}

/// A question about a path.
#[derive(PartialEq, Eq, Drop)]
pub struct Node {
    /// What is asked.
    pub kind: NodeKind,
    /// Of which path.
    pub path: Path,
}

impl Node {
    /// A copy of the node.
    pub fn copy(&self, alloc: Global) -> Result<Node, AllocError>
        ensures { IfOk result (λ copy. copy ≡ self.now) }
    {
        Ok(Node {
            kind: self.kind,
            path: self.path.copy(alloc)?,
        })
    }
}
