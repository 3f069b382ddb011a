//! `dump`: the value at a path with all that is in it, as JSON.
ghost use Rattle.std.specs.Prelude.{◌≡◌, [], false, string_bytes};
ghost use Rattle.serde_json.specs.Data.{no_members};
ghost use Rattle.serde_json.specs.Written.{compact_text, has_float};
ghost use Rattle.ksv_basics.specs.Plan.{Answer};
ghost use Rattle.ksv_desc.specs.Whole.{plain_pieces};
ghost use Rattle.ksv_questions.specs.Code.{IsRightFor, RunsOn, Settles, dumped};
ghost use Rattle.ksv_questions.specs.Dumps.{asked_part, begin, dump_question, elements_part, inner, list_part, members_part, object_part, part, unasked, value_part, whole_text};

use crate::asking::Untold;
use crate::file::File;
use crate::found::{find_list, find_object, find_value};
use crate::parts::ask_value;
use ksv_desc::Desc;
use ksv_expr_value::{FaultKind, Path, Value};
use ksv_memo::Engine;
use ksv_rule_meaning::{Described, NodeRules};
use ksv_texts::{Refusal, kind_part, plain_part, push_element, put_member};
use serde_json::{Map, Value as Json};
use std::alloc::Global;

/// The most parts of a dump.
const PART_LIMIT: u32 = 10_000;

/// How deep parts nest: a path has at most 64 steps.
const DEPTH_LIMIT: u32 = 64;

/// What was written, and how many parts may still begin.
#[derive(Drop)]
pub(crate) struct Dumped {
    /// What was written.
    pub(crate) json: Json,
    /// How many parts may still begin.
    pub(crate) left: u32,
}

/// Begins a part, if one is left.
fn begin(left: u32) -> Result<u32, Untold>
    ensures { Settles (begin left) (λ left. left) result }
{
    if left == 0 {
        return Err(Untold::Refused(Refusal::TooLarge));
    }
    Ok(left - 1)
}

/// A part whose path would be too long.
#[tactic(auto, unfolding(crate::specs::Dumps::unasked))]
fn unasked(alloc: Global, desc: &Desc, path: &Path, left: u32) -> Result<Dumped, Untold>
    ensures { Settles (unasked (plain_pieces desc.now) path.now left) dumped result }
{
    let left = begin(left)?;
    let json = kind_part(alloc, desc, path, FaultKind::PathTooLong)?;
    Ok(Dumped { json, left })
}

/// The part of a path. The parts in it nest at most `depth` deep.
#[cycle(dump)]
fn dump_part<N: NodeRules>(
    file: &File<N>,
    engine: &mut Engine<Described<N>>,
    depth: u32,
    left: u32,
    path: &Path,
) -> Result<Dumped, Untold>
    requires { IsRightFor file.now engine.old }
    ensures { RunsOn file.now (λ d b. part d b depth left path.now) dumped engine.old engine.new result }
{
    if depth == 0 {
        return unasked(file.alloc, &file.described.desc, path, left);
    }
    let left = begin(left)?;
    asked_part(file, engine, depth - 1, left, path)
}

/// The part of a path that was begun.
#[cycle(dump)]
fn asked_part<N: NodeRules>(
    file: &File<N>,
    engine: &mut Engine<Described<N>>,
    depth: u32,
    left: u32,
    path: &Path,
) -> Result<Dumped, Untold>
    requires { IsRightFor file.now engine.old }
    ensures { RunsOn file.now (λ d b. asked_part d b (part d b depth) path.now left) dumped engine.old engine.new result }
{
    match find_value(file, engine, path)? {
        Ok(value) => value_part(file, engine, depth, left, path, &value),
        Err(json) => Ok(Dumped { json, left }),
    }
}

/// The part of a value.
#[cycle(dump)]
fn value_part<N: NodeRules>(
    file: &File<N>,
    engine: &mut Engine<Described<N>>,
    depth: u32,
    left: u32,
    path: &Path,
    value: &Value,
) -> Result<Dumped, Untold>
    requires { IsRightFor file.now engine.old }
    ensures { RunsOn file.now (λ d b. value_part d b (part d b depth) path.now left value.now) dumped engine.old engine.new result }
{
    match value {
        Value::Object(object) => object_part(file, engine, depth, left, object),
        Value::List(list) => list_part(file, engine, depth, left, list),
        _ => {
            let json = plain_part(file.alloc, &file.described.desc, file.buffer, path, value)?;
            Ok(Dumped { json, left })
        }
    }
}

/// The part of an object.
#[cycle(dump)]
fn object_part<N: NodeRules>(
    file: &File<N>,
    engine: &mut Engine<Described<N>>,
    depth: u32,
    left: u32,
    object: &Path,
) -> Result<Dumped, Untold>
    requires { IsRightFor file.now engine.old }
    ensures { RunsOn file.now (λ d b. object_part d (part d b depth) object.now left) dumped engine.old engine.new result }
{
    match find_object(file, engine, object)? {
        Ok(type_number) => {
            let names = file.described.desc.fields(type_number);
            members_part(file, engine, depth, left, object, names)
        }
        Err(json) => Ok(Dumped { json, left }),
    }
}

/// The members of an object.
#[cycle(dump)]
fn members_part<N: NodeRules>(
    file: &File<N>,
    engine: &mut Engine<Described<N>>,
    depth: u32,
    left: u32,
    object: &Path,
    names: &[u32],
) -> Result<Dumped, Untold>
    requires { IsRightFor file.now engine.old }
    ensures { RunsOn file.now (λ d b. members_part d (part d b depth) object.now left names.now no_members) dumped engine.old engine.new result }
{
    let mut left = left;
    let mut members = Map::new(file.alloc);
    for name in names {
        let path = object.child_name(file.alloc, *name)?;
        let written = inner_part(file, engine, depth, left, object, path)?;
        left = written.left;
        put_member(
            file.alloc,
            &mut members,
            file.described.desc.name(*name),
            written.json,
        )?;
    }
    Ok(Dumped {
        json: Json::Object(members),
        left,
    })
}

/// The part of a list.
#[cycle(dump)]
fn list_part<N: NodeRules>(
    file: &File<N>,
    engine: &mut Engine<Described<N>>,
    depth: u32,
    left: u32,
    list: &Path,
) -> Result<Dumped, Untold>
    requires { IsRightFor file.now engine.old }
    ensures { RunsOn file.now (λ d b. list_part d (part d b depth) list.now left) dumped engine.old engine.new result }
{
    match find_list(file, engine, list)? {
        Ok(count) => elements_part(file, engine, depth, left, list, count),
        Err(json) => Ok(Dumped { json, left }),
    }
}

/// The elements of a list.
#[cycle(dump)]
fn elements_part<N: NodeRules>(
    file: &File<N>,
    engine: &mut Engine<Described<N>>,
    depth: u32,
    left: u32,
    list: &Path,
    count: u32,
) -> Result<Dumped, Untold>
    requires { IsRightFor file.now engine.old }
    ensures { RunsOn file.now (λ d b. elements_part d (part d b depth) list.now left 0 count []) dumped engine.old engine.new result }
{
    let mut left = left;
    let mut elements = Vec::new(file.alloc);
    for index in 0..count {
        let path = list.child_index(file.alloc, index)?;
        let written = inner_part(file, engine, depth, left, list, path)?;
        left = written.left;
        push_element(&mut elements, written.json)?;
    }
    Ok(Dumped {
        json: Json::Array(elements),
        left,
    })
}

/// The part of a member or element. It has no path if that would be too long.
#[cycle(dump)]
fn inner_part<N: NodeRules>(
    file: &File<N>,
    engine: &mut Engine<Described<N>>,
    depth: u32,
    left: u32,
    outer: &Path,
    path: Option<Path>,
) -> Result<Dumped, Untold>
    requires { IsRightFor file.now engine.old }
    ensures { RunsOn file.now (λ d b. inner d (part d b depth) outer.now left path) dumped engine.old engine.new result }
{
    match path {
        None => unasked(file.alloc, &file.described.desc, outer, left),
        Some(path) => dump_part(file, engine, depth, left, &path),
    }
}

/// The text of what was written.
fn written_text(alloc: Global, whole: &Dumped) -> Result<String, Untold>
    requires { has_float (dumped whole.now).json ≡ false }
    ensures { Settles (Answer (compact_text (dumped whole.now).json)) (λ text. string_bytes text) result }
{
    Ok(whole.json.to_string(alloc)?)
}

/// The text of a value with all that is in it.
#[tactic(auto, unfolding(crate::specs::Dumps::whole_text))]
fn whole_text<N: NodeRules>(
    file: &File<N>,
    engine: &mut Engine<Described<N>>,
    path: &Path,
    value: &Value,
) -> Result<String, Untold>
    requires { IsRightFor file.now engine.old }
    ensures { RunsOn file.now (λ d b. whole_text d b path.now value.now) (λ text. string_bytes text) engine.old engine.new result }
{
    let left = PART_LIMIT - 1;
    let whole = value_part(file, engine, DEPTH_LIMIT, left, path, value)?;
    written_text(file.alloc, &whole)
}

/// The value at a path with all that is in it.
#[tactic(auto, unfolding(crate::specs::Dumps::dump_question))]
pub(crate) fn dump_question<N: NodeRules>(
    file: &File<N>,
    engine: &mut Engine<Described<N>>,
    path: &Path,
) -> Result<String, Untold>
    requires { IsRightFor file.now engine.old }
    ensures { RunsOn file.now (λ d b. dump_question d b path.now) (λ text. string_bytes text) engine.old engine.new result }
{
    let value = ask_value(file, engine, path)?;
    whole_text(file, engine, path, &value)
}
