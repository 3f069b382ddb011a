//! Asking an engine: what the nodes of a described file answer.
ghost use Rattle.std.specs.Prelude.{◌≡◌};
ghost use Rattle.ksv_nodes.specs.NodeFaults.{raised_at};
ghost use Rattle.ksv_questions.specs.Code.{Hears, IsFault, IsHeard, IsRightFor, bytes_of, desc_of, plain_answer};

use crate::file::File;
use ksv_expr_value::{Fault, FaultKind, Path};
use ksv_memo::{Answer, Engine};
use ksv_nodes::{Given, Node, NodeFault, NodeKind};
use ksv_rule_meaning::{Described, NodeRules};
use ksv_texts::Refusal;
use std::alloc::{AllocError, Global};

/// Why a question has no answer.
#[derive(Drop)]
pub(crate) enum Untold {
    /// A fault prevents it.
    Fault(NodeFault),
    /// It is refused.
    Refused(Refusal),
    /// Memory was refused.
    NoMemory,
}

impl From<AllocError> for Untold {
    ghost use Rattle.std.specs.Prelude.{◌≡◌};
    ghost use Rattle.ksv_questions.specs.declared.asking.Untold.TheVariants.{NoMemory};

    ghost from_gives = { λ _ untold. untold ≡ NoMemory };

    fn from(_: AllocError) -> Untold {
        Untold::NoMemory
    }
}

/// A fault of a kind at a path.
pub(crate) fn fault_at(alloc: Global, path: &Path, kind: FaultKind) -> Untold
    ensures { IsFault (raised_at path.now kind) result }
{
    match path.copy(alloc) {
        Ok(path) => Untold::Fault(NodeFault::Raised(Fault { kind, path })),
        Err(_) => Untold::NoMemory,
    }
}

/// What is heard by an engine's answer. A circle is a fault, at the path of the node that was open.
fn heard(answer: Answer<Node, Given, Fault>) -> Result<Given, Untold>
    ensures { IsHeard (plain_answer answer) result }
{
    match answer {
        Answer::Value(given) => Ok(given),
        Answer::Fault(fault) => Err(Untold::Fault(NodeFault::Raised(fault))),
        Answer::Circle(open) => Err(Untold::Fault(NodeFault::Circle(open.path))),
    }
}

/// What the node of a kind at a path answers, or the fault that prevents it.
pub(crate) fn ask<N: NodeRules>(
    file: &File<N>,
    engine: &mut Engine<Described<N>>,
    kind: NodeKind,
    path: &Path,
) -> Result<Given, Untold>
    requires { IsRightFor file.now engine.old }
    ensures { Hears (desc_of file.now) (bytes_of file.now) (record { kind = kind; path = path.now }) engine.old engine.new result }
{
    let path = path.copy(file.alloc)?;
    let answer = engine.ask(file.described, file.buffer, Node { kind, path })?;
    heard(answer)
}
