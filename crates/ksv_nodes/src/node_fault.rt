//! Why a node has no answer.
ghost use Rattle.std.specs.Prelude.{◌≡◌};
ghost use Rattle.ksv_nodes.specs.NodeFaults.{fault_name, fault_path};

use ksv_expr_value::{Fault, Path};

/// Why a node has no answer.
#[derive(Drop)]
pub enum NodeFault {
    /// A fault that a rule or an expression raised.
    Raised(Fault),
    /// F15: a value that needs itself. The path is that of the node that was asked while it was open.
    Circle(Path),
}

impl NodeFault {
    /// The fault's name, as replies write it.
    pub fn name(&self) -> &'static str
        ensures { result.now ≡ fault_name self.now }
    {
        match self {
            NodeFault::Raised(fault) => fault.kind.name(),
            NodeFault::Circle(_) => "circle",
        }
    }

    /// Where it arose.
    pub fn path(&self) -> &Path
        ensures { result.now ≡ fault_path self.now }
    {
        match self {
            NodeFault::Raised(fault) => &fault.path,
            NodeFault::Circle(path) => path,
        }
    }
}
