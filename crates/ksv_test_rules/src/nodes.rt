//! Which path a text names, what nodes of a described file answer, and numbers in decimal.
//!
//! Values are by hand: the places of the bytes 2, 1, 97, 0 are counted. The 18 nodes and 49 turns of a list of five bytes
//! are computed from the definitions in ksv_examples.

use crate::near::counts_of_list;
use ksv_bytes::Buffer;
use ksv_expr_value::{Fault, Path, Step};
use ksv_memo::{Answer, Engine, Rules};
use ksv_rules::{Described, Given, Head, Leaf, List, Node, NodeKind, Object, decimal, path_of};
use ksv_schema::{Desc, load};
use ksv_yaml::read;
use std::alloc::{AllocError, Global};
use std::fmt::Write;
use std::test::Fail;

/// A file and the rules of its description.
#[derive(Clone, Copy)]
pub(crate) struct File<'a> {
    pub(crate) alloc: Global,
    pub(crate) rules: &'a Described,
    pub(crate) bytes: &'a Buffer,
}

/// A list of items, each with a size.
pub(crate) const LIST: &str = "meta:
  id: t
  endian: le
seq:
  - id: n
    type: u1
  - id: items
    type: item
    repeat: expr
    repeat-expr: n
types:
  item:
    seq:
      - id: len
        type: u1
      - id: body
        size: len
";

/// Texts that each name a path of `LIST`, whose text is the same again.
const PATHS: &str = "/|/n|/items|/items/3/len|/len/body|/0|/0/0|/1048575";

/// Texts that name none.
const NO_PATHS: &str =
    "/1048576|/4294967296|/99999999999999999999999|/00|/007|/+1|/-1|/x|/N|/item|/n/|//n|//|n||/n ";

/// Heads of `LIST` over the bytes 2, 1, 97, 0 at some paths, and what each answers.
const HEADS: &str = "/ => object 0 at 0
/n => leaf 0 to 1, end 1
/items => list at 1
/items/1 => object 1 at 3";

/// Values of the same file.
const VALUES: &str = "/n => a value
/items/0/body => a value
/len => no-such at /len";

/// Ends in the same file.
const ENDS: &str = "/n => end 1, false
/items/0 => end 3, false
/items/1 => end 4, true";

/// What comes from an element on in the same file.
const RESTS: &str = "/items/0 => 2 elements, end 4";

/// An attribute whose size needs its own end.
const CIRCLE: &str = "meta:\n  id: t\nseq:\n  - id: a\n    size: b\n  - id: b\n    type: u1\n";

/// Bytes up to the end of the file.
pub(crate) const BYTES: &str = "meta:\n  id: t\nseq:\n  - id: xs\n    type: u1\n    repeat: eos\n";

/// The description that a text states.
pub(crate) fn described(alloc: Global, text: &str) -> Result<Desc, Fail> {
    let tree = read(alloc, text.as_bytes())?;
    Ok(load(alloc, &tree)?)
}

/// Adds a path as it is written.
fn add_path(desc: &Desc, path: &Path, out: &mut String) -> Result<(), AllocError> {
    if path.len() == 0 {
        return out.push_str("/");
    }
    for step in path.steps() {
        out.push_str("/")?;
        match *step {
            Step::Name(name) => out.push_str(desc.name(name))?,
            Step::Index(index) => write!(out, "{index}")?,
        }
    }
    Ok(())
}

/// Whether a path is written like this.
fn is_written(alloc: Global, desc: &Desc, path: &Path, text: &str) -> Result<bool, AllocError> {
    let mut out = String::new(alloc);
    add_path(desc, path, &mut out)?;
    Ok(out.as_str() == text)
}

/// Whether a text names a path that is written like it.
fn is_named(alloc: Global, desc: &Desc, text: &str) -> Result<bool, AllocError> {
    match path_of(alloc, desc, text.as_bytes())? {
        Some(path) => is_written(alloc, desc, &path, text),
        None => Ok(false),
    }
}

/// Whether a text names no path.
fn is_no_path(alloc: Global, desc: &Desc, text: &str) -> Result<bool, AllocError> {
    match path_of(alloc, desc, text.as_bytes())? {
        Some(_) => Ok(false),
        None => Ok(true),
    }
}

/// Whether each of `PATHS` names a path, and none of `NO_PATHS`.
fn are_paths_named(alloc: Global, desc: &Desc) -> Result<bool, AllocError> {
    let mut are_right = true;
    for text in PATHS.split('|') {
        are_right &= is_named(alloc, desc, text)?;
    }
    for text in NO_PATHS.split('|') {
        are_right &= is_no_path(alloc, desc, text)?;
    }
    Ok(are_right)
}

#[test]
fn paths_are_named(rt: HostRuntime) -> Result<(), Fail> {
    let desc = described(rt.alloc(), LIST)?;
    let are_named = are_paths_named(rt.alloc(), &desc)?;
    assert!(rt; are_named);
    Ok(())
}

/// The length of the path that this many indices name.
fn steps_named(alloc: Global, desc: &Desc, steps: usize) -> Result<Option<usize>, AllocError> {
    let mut text = String::new(alloc);
    for _ in 0..steps {
        text.push_str("/0")?;
    }
    match path_of(alloc, desc, text.as_bytes())? {
        Some(path) => Ok(Some(path.len())),
        None => Ok(None),
    }
}

#[test]
fn paths_of_64_steps_are_named(rt: HostRuntime) -> Result<(), Fail> {
    let desc = described(rt.alloc(), LIST)?;
    let is_named = steps_named(rt.alloc(), &desc, 64)? == Some(64);
    let is_refused = steps_named(rt.alloc(), &desc, 65)?.is_none();
    assert!(rt; is_named && is_refused);
    Ok(())
}

/// Adds a word and a number.
fn add_number(word: &str, number: u32, out: &mut String) -> Result<(), AllocError> {
    write!(out, "{word}{number}")
}

/// Adds where bytes are.
fn add_leaf(leaf: &Leaf, out: &mut String) -> Result<(), AllocError> {
    add_number("leaf ", leaf.from.byte(), out)?;
    add_number(" to ", leaf.to.byte(), out)?;
    add_number(", end ", leaf.end.byte(), out)
}

/// Adds which type an object has, and where it begins.
fn add_object(object: &Object, out: &mut String) -> Result<(), AllocError> {
    let (number, start) = (object.type_number, object.start.byte());
    write!(out, "object {number} at {start}")
}

/// Adds where a list begins.
fn add_list(list: &List, out: &mut String) -> Result<(), AllocError> {
    let start = list.start.byte();
    write!(out, "list at {start}")
}

/// Adds what is there.
fn add_head(head: &Head, out: &mut String) -> Result<(), AllocError> {
    match head {
        Head::Leaf(leaf) => add_leaf(leaf, out),
        Head::Object(object) => add_object(object, out),
        Head::List(list) => add_list(list, out),
        Head::Absent(_) => out.push_str("gone"),
        Head::Calc(_) => out.push_str("calculated"),
    }
}

/// Adds where something ends.
fn add_end(end: u32, last: bool, out: &mut String) -> Result<(), AllocError> {
    write!(out, "end {end}, {last}")
}

/// Adds how many elements there are, and where they end.
fn add_rest(count: u32, end: u32, out: &mut String) -> Result<(), AllocError> {
    write!(out, "{count} elements, end {end}")
}

/// Adds what a node answers, except a value.
fn add_given(given: &Given, out: &mut String) -> Result<(), AllocError> {
    match given {
        Given::Head(head) => add_head(head, out),
        Given::Value(_) => out.push_str("a value"),
        Given::End { place, last } => add_end(place.byte(), *last, out),
        Given::Rest { count, place } => add_rest(*count, place.byte(), out),
    }
}

/// Adds a fault and its path.
fn add_fault(desc: &Desc, fault: &Fault, out: &mut String) -> Result<(), AllocError> {
    write!(out, "{} at ", fault.kind)?;
    add_path(desc, &fault.path, out)
}

/// Adds a circle and the path where it begins.
fn add_circle(desc: &Desc, path: &Path, out: &mut String) -> Result<(), AllocError> {
    out.push_str("circle at ")?;
    add_path(desc, path, out)
}

/// Adds an answer as it is written.
pub(crate) fn add_written(
    desc: &Desc,
    answer: &Answer<Node, Given, Fault>,
    out: &mut String,
) -> Result<(), AllocError> {
    match answer {
        Answer::Value(given) => add_given(given, out),
        Answer::Fault(fault) => add_fault(desc, fault, out),
        Answer::Circle(node) => add_circle(desc, &node.path, out),
    }
}

/// What a node answers by rules to an engine that keeps nothing.
fn answer_of<R: Rules>(
    alloc: Global,
    rules: &R,
    bytes: &Buffer,
    node: R::Node,
) -> Result<Answer<R::Node, R::Value, R::Fault>, AllocError> {
    let mut engine = Engine::new(alloc);
    let answer = engine.ask(rules, bytes, node);
    drop(engine);
    answer
}

/// Adds what a node of a file answers.
fn add_answer(file: File<'_>, node: Node, out: &mut String) -> Result<(), AllocError> {
    let answer = answer_of(file.alloc, file.rules, file.bytes, node)?;
    add_written(file.rules.desc(), &answer, out)
}

/// The node of this kind at a path.
pub(crate) fn node_at(
    alloc: Global,
    rules: &Described,
    kind: NodeKind,
    path: &str,
) -> Result<Node, Fail> {
    match path_of(alloc, rules.desc(), path.as_bytes())? {
        Some(path) => Ok(Node { kind, path }),
        None => Err(Fail::from("no path")),
    }
}

/// Whether the node of this kind answers as a row `PATH => ANSWER` says.
fn is_answered(file: File<'_>, kind: NodeKind, row: &str) -> Result<bool, Fail> {
    let (path, wanted) = row.split_once(" => ").unwrap_or((row, ""));
    let node = node_at(file.alloc, file.rules, kind, path)?;
    let mut found = String::new(file.alloc);
    add_answer(file, node, &mut found)?;
    Ok(found.as_str() == wanted)
}

/// Whether the nodes of this kind answer as these rows say.
fn are_answered(file: File<'_>, kind: NodeKind, rows: &str) -> Result<bool, Fail> {
    let mut are_right = true;
    for row in rows.split('\n') {
        are_right &= is_answered(file, kind, row)?;
    }
    Ok(are_right)
}

/// Whether the nodes of `LIST` answer so.
fn is_list_answered(file: File<'_>) -> Result<bool, Fail> {
    let are_heads = are_answered(file, NodeKind::Head, HEADS)?;
    let are_values = are_answered(file, NodeKind::Value, VALUES)?;
    let are_ends = are_answered(file, NodeKind::End, ENDS)?;
    let are_rests = are_answered(file, NodeKind::Rest, RESTS)?;
    Ok(are_heads && are_values && are_ends && are_rests)
}

#[test]
fn nodes_answer(rt: HostRuntime) -> Result<(), Fail> {
    let alloc = rt.alloc();
    let bytes = Buffer::new(b"\x02\x01\x61\x00".to_vec(alloc)?)?;
    let rules = Described::new(described(alloc, LIST)?);
    let file = File {
        alloc,
        rules: &rules,
        bytes: &bytes,
    };
    let are_right = is_list_answered(file);
    drop(rules);
    drop(bytes);
    assert!(rt; are_right?);
    Ok(())
}

#[test]
fn a_size_behind_is_a_circle(rt: HostRuntime) -> Result<(), Fail> {
    let alloc = rt.alloc();
    let bytes = Buffer::new(b"\x01\x01".to_vec(alloc)?)?;
    let rules = Described::new(described(alloc, CIRCLE)?);
    let file = File {
        alloc,
        rules: &rules,
        bytes: &bytes,
    };
    let is_circle = is_answered(file, NodeKind::Value, "/a => circle at /a");
    drop(rules);
    drop(bytes);
    assert!(rt; is_circle?);
    Ok(())
}

/// Whether an engine keeps 18 nodes after the two questions of `get /xs`, which took 49 turns.
fn are_counted(file: File<'_>) -> Result<bool, Fail> {
    let counts = counts_of_list(file, "/xs/4")?;
    let is_kept = counts.kept_of_list == 18 && counts.turns_of_list == Some(49);
    Ok(counts.are_told && is_kept)
}

#[test]
fn an_engine_keeps_and_counts(rt: HostRuntime) -> Result<(), Fail> {
    let alloc = rt.alloc();
    let bytes = Buffer::new(b"\x01\x02\x03\x04\x05".to_vec(alloc)?)?;
    let rules = Described::new(described(alloc, BYTES)?);
    let file = File {
        alloc,
        rules: &rules,
        bytes: &bytes,
    };
    let are_right = are_counted(file);
    drop(rules);
    drop(bytes);
    assert!(rt; are_right?);
    Ok(())
}

#[test]
fn decimal_digits_write_numbers(rt: HostRuntime) -> Result<(), Fail> {
    let are_numbers = decimal(b"0") == Some(0)
        && decimal(b"007") == Some(7)
        && decimal(b"18446744073709551615") == Some(u64::MAX);
    let are_none = decimal(b"18446744073709551616").is_none()
        && decimal(b"").is_none()
        && decimal(b"1a").is_none()
        && decimal(b"+1").is_none();
    assert!(rt; are_numbers && are_none);
    Ok(())
}
