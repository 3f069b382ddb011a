//! `get`: the text of the value at a path.
ghost use Rattle.std.specs.Prelude.{string_bytes};
ghost use Rattle.ksv_desc.specs.Whole.{plain_pieces};
ghost use Rattle.ksv_questions.specs.Code.{IsRightFor, RunsOn, Settles};
ghost use Rattle.ksv_questions.specs.Questions.{object_text, of_object, of_value, plain_value, value_question};

use crate::asking::{Untold, fault_at};
use crate::file::File;
use crate::list::of_list;
use crate::parts::{ask_head, ask_value};
use ksv_bytes::Buffer;
use ksv_desc::Desc;
use ksv_expr_value::{FaultKind, Path, Value};
use ksv_memo::Engine;
use ksv_nodes::Head;
use ksv_rule_meaning::{Described, NodeRules};
use ksv_texts::{bytes_text, integer_text, member_text, quoted_text, truth_text};
use std::alloc::Global;

/// The text of an object: its type's id. Another head is a fault.
fn object_text(alloc: Global, desc: &Desc, path: &Path, head: Head) -> Result<String, Untold>
    ensures { Settles (object_text (plain_pieces desc.now) path.now head) (λ text. string_bytes text) result }
{
    match head {
        Head::Object(object) => {
            let mut text = String::from_str(alloc, "object ")?;
            text.push_str(desc.type_id(object.type_number))?;
            Ok(text)
        }
        _ => Err(fault_at(alloc, path, FaultKind::BadType)),
    }
}

/// The text of the object of a path.
#[tactic(auto, unfolding(crate::specs::Questions::of_object))]
fn of_object<N: NodeRules>(
    file: &File<N>,
    engine: &mut Engine<Described<N>>,
    path: &Path,
    object: &Path,
) -> Result<String, Untold>
    requires { IsRightFor file.now engine.old }
    ensures { RunsOn file.now (λ d _. of_object d path.now object.now) (λ text. string_bytes text) engine.old engine.new result }
{
    let head = ask_head(file, engine, path, object)?;
    object_text(file.alloc, &file.described.desc, path, head)
}

/// The text of a value that asks nothing. An object, a list or a stream is a fault.
fn plain_text(
    alloc: Global,
    desc: &Desc,
    buffer: &Buffer,
    path: &Path,
    value: &Value,
) -> Result<String, Untold>
    ensures { Settles (plain_value (plain_pieces desc.now) buffer.now path.now value.now) (λ text. string_bytes text) result }
{
    match value {
        Value::Int(number) => Ok(integer_text(alloc, *number)?),
        Value::Bool(truth) => Ok(String::from_str(alloc, truth_text(*truth))?),
        Value::Text(text) => Ok(quoted_text(alloc, text)?),
        Value::Bytes { from, to } => Ok(bytes_text(alloc, buffer, *from, *to)?),
        Value::Member {
            enum_number,
            number,
        } => Ok(member_text(alloc, desc, *enum_number, *number)?),
        _ => Err(fault_at(alloc, path, FaultKind::BadType)),
    }
}

/// The text of a value.
#[tactic(auto, unfolding(crate::specs::Questions::of_value))]
fn of_value<N: NodeRules>(
    file: &File<N>,
    engine: &mut Engine<Described<N>>,
    path: &Path,
    value: &Value,
) -> Result<String, Untold>
    requires { IsRightFor file.now engine.old }
    ensures { RunsOn file.now (λ d b. of_value d b path.now value.now) (λ text. string_bytes text) engine.old engine.new result }
{
    match value {
        Value::Object(object) => of_object(file, engine, path, object),
        Value::List(list) => of_list(file, engine, path, list),
        _ => plain_text(file.alloc, &file.described.desc, file.buffer, path, value),
    }
}

/// The text of the value at a path.
#[tactic(auto, unfolding(crate::specs::Questions::value_question))]
pub(crate) fn value_question<N: NodeRules>(
    file: &File<N>,
    engine: &mut Engine<Described<N>>,
    path: &Path,
) -> Result<String, Untold>
    requires { IsRightFor file.now engine.old }
    ensures { RunsOn file.now (λ d b. value_question d b path.now) (λ text. string_bytes text) engine.old engine.new result }
{
    let value = ask_value(file, engine, path)?;
    of_value(file, engine, path, &value)
}
