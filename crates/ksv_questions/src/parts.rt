//! What a question needs of a node, by the form of its answer.
ghost use Rattle.ksv_expr_value.specs.Trail.{child};
ghost use Rattle.ksv_expr_value.specs.declared.step.Step.TheVariants.{Index};
ghost use Rattle.ksv_questions.specs.Code.{IsRightFor, RunsOn, Settles};
ghost use Rattle.ksv_questions.specs.Questions.{ask_end, ask_head, ask_value, first_asked, in_end, in_head, in_rest, in_value};

use crate::asking::{Untold, ask, fault_at};
use crate::file::File;
use ksv_expr_value::{FaultKind, Path, Place, Value};
use ksv_memo::Engine;
use ksv_nodes::{Given, Head, NodeKind};
use ksv_rule_meaning::{Described, NodeRules};
use std::alloc::Global;

/// What is at a path. An answer of another form is a fault.
fn in_head(alloc: Global, path: &Path, given: &Given) -> Result<Head, Untold>
    ensures { Settles (in_head path.now given.now) (λ head. head) result }
{
    match given {
        Given::Head(head) => Ok(*head),
        _ => Err(fault_at(alloc, path, FaultKind::BadType)),
    }
}

/// The number of elements. An answer of another form is a fault.
fn in_rest(alloc: Global, path: &Path, given: &Given) -> Result<u32, Untold>
    ensures { Settles (in_rest path.now given.now) (λ count. count) result }
{
    match given {
        Given::Rest { count, .. } => Ok(*count),
        _ => Err(fault_at(alloc, path, FaultKind::BadType)),
    }
}

/// A value. An answer of another form is a fault.
fn in_value(alloc: Global, path: &Path, given: Given) -> Result<Value, Untold>
    ensures { Settles (in_value path.now given) (λ value. value) result }
{
    match given {
        Given::Value(value) => Ok(value),
        _ => Err(fault_at(alloc, path, FaultKind::BadType)),
    }
}

/// The place of an end. An answer of another form is a fault.
fn in_end(alloc: Global, path: &Path, given: &Given) -> Result<Place, Untold>
    ensures { Settles (in_end path.now given.now) (λ place. place) result }
{
    match given {
        Given::End { place, .. } => Ok(*place),
        _ => Err(fault_at(alloc, path, FaultKind::BadType)),
    }
}

/// What is at a path; `path` is the one that the question is about.
#[tactic(auto, unfolding(crate::specs::Questions::ask_head))]
pub(crate) fn ask_head<N: NodeRules>(
    file: &File<N>,
    engine: &mut Engine<Described<N>>,
    path: &Path,
    asked: &Path,
) -> Result<Head, Untold>
    requires { IsRightFor file.now engine.old }
    ensures { RunsOn file.now (λ _ _. ask_head path.now asked.now) (λ head. head) engine.old engine.new result }
{
    let given = ask(file, engine, NodeKind::Head, asked)?;
    in_head(file.alloc, path, &given)
}

/// The number of elements of a list.
#[tactic(auto, unfolding(crate::specs::Questions::first_asked))]
pub(crate) fn first_asked<N: NodeRules>(
    file: &File<N>,
    engine: &mut Engine<Described<N>>,
    path: &Path,
    list: &Path,
) -> Result<u32, Untold>
    requires { IsRightFor file.now engine.old }
    ensures { RunsOn file.now (λ _ _. first_asked path.now list.now (child list.now (Index 0))) (λ count. count) engine.old engine.new result }
{
    let Some(first) = list.child_index(file.alloc, 0)? else {
        return Err(fault_at(file.alloc, list, FaultKind::PathTooLong));
    };
    let given = ask(file, engine, NodeKind::Rest, &first)?;
    in_rest(file.alloc, path, &given)
}

/// The value at a path.
#[tactic(auto, unfolding(crate::specs::Questions::ask_value))]
pub(crate) fn ask_value<N: NodeRules>(
    file: &File<N>,
    engine: &mut Engine<Described<N>>,
    path: &Path,
) -> Result<Value, Untold>
    requires { IsRightFor file.now engine.old }
    ensures { RunsOn file.now (λ _ _. ask_value path.now) (λ value. value) engine.old engine.new result }
{
    let given = ask(file, engine, NodeKind::Value, path)?;
    in_value(file.alloc, path, given)
}

/// The place where what is at a path ends.
#[tactic(auto, unfolding(crate::specs::Questions::ask_end))]
pub(crate) fn ask_end<N: NodeRules>(
    file: &File<N>,
    engine: &mut Engine<Described<N>>,
    path: &Path,
) -> Result<Place, Untold>
    requires { IsRightFor file.now engine.old }
    ensures { RunsOn file.now (λ _ _. ask_end path.now) (λ place. place) engine.old engine.new result }
{
    let given = ask(file, engine, NodeKind::End, path)?;
    in_end(file.alloc, path, &given)
}
