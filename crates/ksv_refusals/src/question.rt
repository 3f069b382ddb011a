//! One question to an engine: where it is refused memory, what is kept is whole, so that none of it is run again.
ghost use Rattle.ksv_memo_rules.specs.Meaning.{on};
ghost use Rattle.ksv_memo_rules.specs.Right.{IsRight};

use crate::session::Given;
use crate::{Outcome, room};
use ksv_bytes::Buffer;
use ksv_memo::{Engine, Rules};
use ksv_rules::{Described, Node, NodeKind, path_of};
use std::alloc::{AllocError, Global};
use std::io::{self, ErrorKind};

/// The nodes of the question for the length of the second item, in the order in which they are completed: by hand, from the rules for heads,
/// values and ends. Each asks nodes before it alone.
const NODES: [(NodeKind, &str); 17] = [
    (NodeKind::Head, "/"),
    (NodeKind::Head, "/magic"),
    (NodeKind::End, "/magic"),
    (NodeKind::Head, "/n"),
    (NodeKind::End, "/n"),
    (NodeKind::Value, "/n"),
    (NodeKind::Head, "/items"),
    (NodeKind::Head, "/items/0"),
    (NodeKind::Head, "/items/0/len"),
    (NodeKind::End, "/items/0/len"),
    (NodeKind::Value, "/items/0/len"),
    (NodeKind::Head, "/items/0/body"),
    (NodeKind::End, "/items/0/body"),
    (NodeKind::End, "/items/0"),
    (NodeKind::Head, "/items/1"),
    (NodeKind::Head, "/items/1/len"),
    (NodeKind::Value, "/items/1/len"),
];

/// The node of a kind at a path.
fn node_at(alloc: Global, rules: &Described, kind: NodeKind, text: &str) -> io::Result<Node> {
    match path_of(alloc, rules.desc(), text.as_bytes())? {
        Some(path) => Ok(Node { kind, path }),
        None => Err(io::Error::from(ErrorKind::InvalidData)),
    }
}

/// All nodes in their order.
fn nodes(alloc: Global, rules: &Described) -> io::Result<Vec<Node>> {
    let mut nodes = Vec::new(alloc);
    for (kind, text) in NODES {
        nodes.push(node_at(alloc, rules, kind, text)?)?;
    }
    Ok(nodes)
}

/// Asks a node of an engine, and returns the turns that it took, or none where it was refused memory.
fn turns<R: Rules>(engine: &mut Engine<R>, rules: &R, bytes: &Buffer, node: R::Node) -> Option<u64>
    requires { IsRight (on (R.meaning rules.now) bytes.now) engine.old.kept }
    ensures { IsRight (on (R.meaning rules.now) bytes.now) engine.new.kept }
{
    engine.begin();
    let _ = engine.ask(rules, bytes, node);
    engine.turns()
}

/// Asks each of some nodes of an engine that keeps this many. Whether those are kept that come first, and no others.
fn are_first<R: Rules>(
    engine: &mut Engine<R>,
    rules: &R,
    bytes: &Buffer,
    nodes: Vec<R::Node>,
    kept: usize,
) -> bool
    requires { IsRight (on (R.meaning rules.now) bytes.now) engine.old.kept }
    ensures { IsRight (on (R.meaning rules.now) bytes.now) engine.new.kept }
{
    let (mut are_first, mut place) = (true, 0usize);
    for node in nodes {
        let turns = turns(engine, rules, bytes, node);
        are_first &= turns.is_some() && (turns == Some(0)) == (place < kept);
        place = place.saturating_add(1);
    }
    are_first && engine.kept() == place
}

/// Asks the last of some nodes while memory may be refused, and then each of them. Whether those are kept that were completed, and no
/// others, and all of them in the end.
fn asked<R: Rules>(
    alloc: Global,
    engine: &mut Engine<R>,
    rules: &R,
    bytes: &Buffer,
    last: R::Node,
    nodes: Vec<R::Node>,
) -> Result<Outcome, AllocError>
    requires { IsRight (on (R.meaning rules.now) bytes.now) engine.old.kept }
{
    let count = nodes.len();
    let is_refused = turns(engine, rules, bytes, last).is_none();
    let mut notes = room(alloc)?;
    notes.push(u8::from(is_refused))?;
    let kept = engine.kept();
    let are_first = are_first(engine, rules, bytes, nodes, kept);
    let refused = if notes.as_slice() == [1u8].as_slice() {
        Some(1)
    } else {
        None
    };
    Ok(Outcome {
        refused,
        agrees: are_first && (is_refused || kept == count),
    })
}

/// The same of a new engine.
fn newly_asked<R: Rules>(
    alloc: Global,
    rules: &R,
    bytes: &Buffer,
    last: R::Node,
    nodes: Vec<R::Node>,
) -> Result<Outcome, AllocError> {
    let mut notes = room(alloc)?;
    notes.push(0)?;
    let mut engine = Engine::new(alloc);
    let outcome = asked(alloc, &mut engine, rules, bytes, last, nodes);
    drop(engine);
    notes.push(0)?;
    outcome
}

/// The question over bytes and their description.
fn asked_over(alloc: Global, rules: &Described, bytes: &Buffer) -> io::Result<Outcome> {
    let last = node_at(alloc, rules, NodeKind::Value, "/items/1/len")?;
    let nodes = nodes(alloc, rules)?;
    Ok(newly_asked(alloc, rules, bytes, last, nodes)?)
}

/// The question over a file, by these rules.
fn asked_of_file(alloc: Global, rules: &Described, file: &[u8]) -> io::Result<Outcome> {
    match Buffer::new(file.to_vec(alloc)?) {
        Ok(bytes) => asked_over(alloc, rules, &bytes),
        Err(_) => Err(io::Error::from(ErrorKind::FileTooLarge)),
    }
}

/// The question over a file and its description.
pub(crate) fn asks(alloc: Global, given: Given<'_>) -> io::Result<Outcome> {
    let rules = Described::new(given.desc(alloc)?);
    asked_of_file(alloc, &rules, given.file)
}
