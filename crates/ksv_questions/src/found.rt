//! What a dump finds at a path, or what it writes in its place.
ghost use Rattle.std.specs.Prelude.{None, Some};
ghost use Rattle.ksv_desc.specs.Whole.{plain_pieces};
ghost use Rattle.ksv_expr_value.specs.Trail.{child};
ghost use Rattle.ksv_expr_value.specs.declared.step.Step.TheVariants.{Index};
ghost use Rattle.ksv_basics.specs.Plan.{Answer};
ghost use Rattle.ksv_questions.specs.Code.{IsRightFor, RunsOn, Settles, SettlesHeard, found_of};
ghost use Rattle.ksv_questions.specs.Dumps.{count_in, find_list, find_object, find_value, object_in, value_in};

use crate::asking::{Untold, ask};
use crate::file::File;
use ksv_desc::Desc;
use ksv_expr_value::{FaultKind, Path, Value};
use ksv_memo::Engine;
use ksv_nodes::{Given, Head, NodeKind};
use ksv_rule_meaning::{Described, NodeRules};
use ksv_texts::{failed_part, fault_part, kind_part};
use serde_json::Value as Json;
use std::alloc::Global;

/// The value, by what was heard of its node.
fn value_in(
    alloc: Global,
    desc: &Desc,
    path: &Path,
    asked: Result<Given, Untold>,
) -> Result<Result<Value, Json>, Untold>
    ensures { SettlesHeard (λ heard. Answer (value_in (plain_pieces desc.now) path.now heard)) found_of asked result }
{
    match asked {
        Ok(Given::Value(value)) => Ok(Ok(value)),
        Ok(_) => Ok(Err(kind_part(alloc, desc, path, FaultKind::BadType)?)),
        Err(Untold::Fault(fault)) => Ok(Err(failed_part(alloc, desc, path, &fault)?)),
        Err(untold) => Err(untold),
    }
}

/// The value at a path.
#[tactic(auto, unfolding(crate::specs::Dumps::find_value))]
pub(crate) fn find_value<N: NodeRules>(
    file: &File<N>,
    engine: &mut Engine<Described<N>>,
    path: &Path,
) -> Result<Result<Value, Json>, Untold>
    requires { IsRightFor file.now engine.old }
    ensures { RunsOn file.now (λ d _. find_value d path.now) found_of engine.old engine.new result }
{
    let asked = ask(file, engine, NodeKind::Value, path);
    value_in(file.alloc, &file.described.desc, path, asked)
}

/// The type of the object, by what was heard of its node.
fn object_in(
    alloc: Global,
    desc: &Desc,
    object: &Path,
    asked: Result<Given, Untold>,
) -> Result<Result<u32, Json>, Untold>
    ensures { SettlesHeard (λ heard. Answer (object_in (plain_pieces desc.now) object.now heard)) found_of asked result }
{
    match asked {
        Ok(given) => {
            let number = match &given {
                Given::Head(Head::Object(found)) => Some(found.type_number),
                _ => None,
            };
            drop(given);
            match number {
                Some(number) => Ok(Ok(number)),
                None => Ok(Err(kind_part(alloc, desc, object, FaultKind::BadType)?)),
            }
        }
        Err(Untold::Fault(fault)) => {
            let part = fault_part(alloc, desc, &fault);
            drop(fault);
            Ok(Err(part?))
        }
        Err(untold) => Err(untold),
    }
}

/// The type of the object at a path.
#[tactic(auto, unfolding(crate::specs::Dumps::find_object))]
pub(crate) fn find_object<N: NodeRules>(
    file: &File<N>,
    engine: &mut Engine<Described<N>>,
    object: &Path,
) -> Result<Result<u32, Json>, Untold>
    requires { IsRightFor file.now engine.old }
    ensures { RunsOn file.now (λ d _. find_object d object.now) found_of engine.old engine.new result }
{
    let asked = ask(file, engine, NodeKind::Head, object);
    object_in(file.alloc, &file.described.desc, object, asked)
}

/// The number of elements, by what was heard of their node.
fn count_in(
    alloc: Global,
    desc: &Desc,
    list: &Path,
    asked: Result<Given, Untold>,
) -> Result<Result<u32, Json>, Untold>
    ensures { SettlesHeard (λ heard. Answer (count_in (plain_pieces desc.now) list.now heard)) found_of asked result }
{
    match asked {
        Ok(given) => {
            let number = match &given {
                Given::Rest { count, .. } => Some(*count),
                _ => None,
            };
            drop(given);
            match number {
                Some(number) => Ok(Ok(number)),
                None => Ok(Err(kind_part(alloc, desc, list, FaultKind::BadType)?)),
            }
        }
        Err(Untold::Fault(fault)) => {
            let part = fault_part(alloc, desc, &fault);
            drop(fault);
            Ok(Err(part?))
        }
        Err(untold) => Err(untold),
    }
}

/// The number of elements of the list at a path, by the path of its first element.
fn counted<N: NodeRules>(
    file: &File<N>,
    engine: &mut Engine<Described<N>>,
    list: &Path,
    first: &Path,
) -> Result<Result<u32, Json>, Untold>
    requires { IsRightFor file.now engine.old }
    ensures { RunsOn file.now (λ d _. find_list d list.now (Some first.now)) found_of engine.old engine.new result }
{
    let asked = ask(file, engine, NodeKind::Rest, first);
    count_in(file.alloc, &file.described.desc, list, asked)
}

/// A list whose elements' paths would be too long.
#[tactic(auto, unfolding(crate::specs::Dumps::find_list))]
fn uncounted(alloc: Global, desc: &Desc, list: &Path) -> Result<Result<u32, Json>, Untold>
    ensures { Settles (find_list (plain_pieces desc.now) list.now None) found_of result }
{
    Ok(Err(kind_part(alloc, desc, list, FaultKind::PathTooLong)?))
}

/// The number of elements of the list at a path.
pub(crate) fn find_list<N: NodeRules>(
    file: &File<N>,
    engine: &mut Engine<Described<N>>,
    list: &Path,
) -> Result<Result<u32, Json>, Untold>
    requires { IsRightFor file.now engine.old }
    ensures { RunsOn file.now (λ d _. find_list d list.now (child list.now (Index 0))) found_of engine.old engine.new result }
{
    match list.child_index(file.alloc, 0)? {
        Some(first) => counted(file, engine, list, &first),
        None => uncounted(file.alloc, &file.described.desc, list),
    }
}
