//! Parts of a dump that ask nothing.
ghost use Rattle.std.specs.Prelude.{◌≡◌, ◌++◌, ◌∷◌, [], map, slice_range, string_bytes, IfOk, OnOk};
ghost use Rattle.hex.specs.Hex.{encode_lower};
ghost use Rattle.serde_json.specs.Data.{number as json_number, put};
ghost use Rattle.serde_json.specs.Find.{of_integer};
ghost use Rattle.serde_json.specs.View.{members_view, view};
ghost use Rattle.ksv_desc.specs.Whole.{plain_pieces};
ghost use Rattle.ksv_nodes.specs.NodeFaults.{raised_at};
ghost use Rattle.ksv_texts.specs.Parts.{failed_part, fault_part, is_absence, is_absent, member_part, one_member, plain_part};

use crate::text::{fault_words, member_name, window};
use ksv_bytes::Buffer;
use ksv_desc::Desc;
use ksv_expr_value::{Fault, FaultKind, Integer, Path, Value};
use ksv_nodes::NodeFault;
use serde_json::{Map, Number, Value as Json};
use std::alloc::{AllocError, Global};

/// Writes a member of an object.
#[tactic(auto, using(crate::proofs::Json::member_put))]
pub fn put_member(
    alloc: Global,
    members: &mut Map<String, Json>,
    key: &str,
    json: Json,
) -> Result<(), AllocError>
    ensures { OnOk result (members_view members.new.entries ≡ put key.now (view json) (members_view members.old.entries)) }
{
    members.insert(String::from_str(alloc, key)?, json)?;
    Ok(())
}

/// Writes an element of a list.
pub fn push_element(elements: &mut Vec<Json>, json: Json) -> Result<(), AllocError>
    ensures { OnOk result (map view elements.new.items ≡ map view elements.old.items ++ view json ∷ []) }
{
    elements.push(json)?;
    Ok(())
}

/// An object of one member.
#[tactic(auto, using(crate::proofs::Json::object_view))]
fn one_member(alloc: Global, key: &str, json: Json) -> Result<Json, AllocError>
    ensures { IfOk result (λ object. view object ≡ one_member key.now (view json)) }
{
    let mut members = Map::new(alloc);
    put_member(alloc, &mut members, key, json)?;
    Ok(Json::Object(members))
}

/// The part of a fault.
#[tactic(auto, unfolding(crate::specs::Parts::fault_part))]
pub fn fault_part(alloc: Global, desc: &Desc, fault: &NodeFault) -> Result<Json, AllocError>
    ensures { IfOk result (λ json. view json ≡ fault_part (plain_pieces desc.now) fault.now) }
{
    let words = fault_words(alloc, desc, fault)?;
    one_member(alloc, "fault", Json::String(words))
}

/// The part of a fault of this kind at a path.
pub fn kind_part(
    alloc: Global,
    desc: &Desc,
    path: &Path,
    kind: FaultKind,
) -> Result<Json, AllocError>
    ensures { IfOk result (λ json. view json ≡ fault_part (plain_pieces desc.now) (raised_at path.now kind)) }
{
    let path = path.copy(alloc)?;
    fault_part(alloc, desc, &NodeFault::Raised(Fault { kind, path }))
}

/// Whether something is absent.
fn is_absent(kind: FaultKind) -> bool
    ensures { result ≡ is_absent kind }
{
    match kind {
        FaultKind::Absent => true,
        _ => false,
    }
}

/// Whether a fault is that something is absent.
fn is_absence(fault: &NodeFault) -> bool
    ensures { result ≡ is_absence fault.now }
{
    match fault {
        NodeFault::Raised(fault) => is_absent(fault.kind),
        NodeFault::Circle(_) => false,
    }
}

/// The part of a path whose value is a fault: null if the value is absent, and the fault otherwise.
#[tactic(auto, unfolding(crate::specs::Parts::failed_part))]
pub fn failed_part(
    alloc: Global,
    desc: &Desc,
    path: &Path,
    fault: &NodeFault,
) -> Result<Json, AllocError>
    ensures { IfOk result (λ json. view json ≡ failed_part (plain_pieces desc.now) path.now fault.now) }
{
    if is_absence(fault) && *fault.path() == *path {
        return Ok(Json::Null);
    }
    fault_part(alloc, desc, fault)
}

/// An integer.
fn integer_part(number: Integer) -> Json
    ensures { view result ≡ json_number (of_integer number) }
{
    match Number::from_i128(number.get()) {
        Some(number) => Json::Number(number),
        None => Json::Null,
    }
}

/// An enum value, with its number.
#[tactic(auto, using(crate::proofs::Json::object_view), unfolding(crate::specs::Parts::member_part))]
fn member_part(
    alloc: Global,
    desc: &Desc,
    enumeration: u32,
    number: Integer,
) -> Result<Json, AllocError>
    ensures { IfOk result (λ json. view json ≡ member_part (plain_pieces desc.now) enumeration number) }
{
    let name = member_name(alloc, desc, enumeration, number)?;
    let mut members = Map::new(alloc);
    put_member(alloc, &mut members, "enum", Json::String(name))?;
    put_member(alloc, &mut members, "value", integer_part(number))?;
    Ok(Json::Object(members))
}

/// The bytes of a range, in hexadecimal.
fn digits(alloc: Global, buffer: &Buffer, from: u32, to: u32) -> Result<String, AllocError>
    ensures { IfOk result (λ text. string_bytes text ≡ encode_lower (slice_range buffer.now from to)) }
{
    let (front, back) = buffer.parts(window(buffer, from, to));
    let mut text = hex::encode(alloc, front)?;
    text.push_str(hex::encode(alloc, back)?.as_str())?;
    Ok(text)
}

/// A value that is neither an object nor a list.
#[tactic(auto, unfolding(crate::specs::Parts::plain_part))]
pub fn plain_part(
    alloc: Global,
    desc: &Desc,
    buffer: &Buffer,
    path: &Path,
    value: &Value,
) -> Result<Json, AllocError>
    ensures { IfOk result (λ json. view json ≡ plain_part (plain_pieces desc.now) buffer.now path.now value.now) }
{
    match value {
        Value::Int(number) => Ok(integer_part(*number)),
        Value::Bool(truth) => Ok(Json::Bool(*truth)),
        Value::Text(text) => Ok(Json::String(String::from_str(alloc, text.as_str())?)),
        Value::Bytes { from, to } => {
            let digits = digits(alloc, buffer, *from, *to)?;
            one_member(alloc, "hex", Json::String(digits))
        }
        Value::Member {
            enum_number,
            number,
        } => member_part(alloc, desc, *enum_number, *number),
        _ => kind_part(alloc, desc, path, FaultKind::BadType),
    }
}
