//! What a session should keep, by a slow program that evaluates each node from nothing.

use ksv_bytes::{Buffer, Change, Use, touches};
use ksv_expr_value::{Fault, Value};
use ksv_memo::{Held, Next, Replies, Rules, Slot};
use ksv_rules::{Described, Given, Node, NodeKind};
use std::alloc::{AllocError, Global};

/// What a node answers.
type Reply = Result<Given, Fault>;

/// How deep nodes may ask each other in the tests, and how many a node may ask.
const DEPTH: u32 = 60;

/// A file and the rules of its description.
#[derive(Clone, Copy)]
pub(crate) struct File<'a> {
    pub(crate) alloc: Global,
    pub(crate) rules: &'a Described,
    pub(crate) bytes: &'a Buffer,
}

/// A node that was evaluated to its end: how many nodes it asked, and what its own readings rest on.
#[derive(Drop)]
struct Completed {
    node: Node,
    asks: usize,
    uses: Vec<Use>,
}

/// A node that is evaluated: the replies that it had, each in the slot of its place, and what its own readings rest on.
#[derive(Drop)]
struct Evaluation {
    slots: Vec<Slot<Given, Fault>>,
    asked: Vec<u32>,
    uses: Vec<Use>,
}

impl Evaluation {
    fn new(alloc: Global) -> Self {
        Evaluation {
            slots: Vec::new(alloc),
            asked: Vec::new(alloc),
            uses: Vec::new(alloc),
        }
    }

    /// What the node does next; None if a slot has no reply.
    fn next(
        &mut self,
        file: File<'_>,
        node: &Held<Node>,
    ) -> Result<Option<Next<Node, Reply>>, AllocError> {
        let Some(replies) = Replies::checked(&self.slots, &self.asked) else {
            return Ok(None);
        };
        let uses = &mut self.uses;
        let next = file
            .rules
            .next(file.alloc, node.lend(), file.bytes, &replies, uses)?;
        Ok(Some(next))
    }

    /// Adds the reply at a place.
    fn hear(&mut self, place: u32, reply: Reply) -> Result<(), AllocError> {
        self.slots.push(match reply {
            Ok(given) => Slot::Value(given),
            Err(fault) => Slot::Fault(fault),
        })?;
        self.asked.push(place)?;
        Ok(())
    }
}

/// The answer of a node while others are open, each node that it asks being answered in the same way; None if that
/// comes upon an open node. All nodes that are completed on the way are added, a node as often as it is asked.
fn evaluate(
    file: File<'_>,
    open: &mut Vec<Node>,
    node: Node,
    depth: u32,
    completed: &mut Vec<Completed>,
) -> Result<Option<Reply>, AllocError> {
    if depth == 0 || open.as_slice().contains(&node) {
        return Ok(None);
    }
    let mut evaluation = Evaluation::new(file.alloc);
    let held = Held::new(node.copy(file.alloc)?);
    for place in 0..DEPTH {
        match evaluation.next(file, &held)? {
            None => return Ok(None),
            Some(Next::Done(reply)) => {
                let asks = place as usize;
                let uses = evaluation.uses;
                completed.push(Completed { node, asks, uses })?;
                return Ok(Some(reply));
            }
            Some(Next::Need(needed)) => {
                open.push(node.copy(file.alloc)?)?;
                let reply = evaluate(file, open, needed, depth - 1, completed)?;
                open.pop();
                match reply {
                    Some(reply) => evaluation.hear(place, reply)?,
                    None => return Ok(None),
                }
            }
        }
    }
    Ok(None)
}

/// What `get` asks after a value: what an object is, or how many elements a list has.
fn node_after(alloc: Global, given: &Given) -> Result<Option<Node>, AllocError> {
    match given {
        Given::Value(Value::Object(path)) => Ok(Some(Node {
            kind: NodeKind::Head,
            path: path.copy(alloc)?,
        })),
        Given::Value(Value::List(path)) => match path.child_index(alloc, 0)? {
            Some(path) => {
                let kind = NodeKind::Rest;
                Ok(Some(Node { kind, path }))
            }
            None => Ok(None),
        },
        _ => Ok(None),
    }
}

/// Whether a change touches what evaluating a node, or a node that it asks, rests on.
fn is_touched(file: File<'_>, change: Change, node: &Node) -> Result<bool, AllocError> {
    let mut completed = Vec::new(file.alloc);
    let mut open = Vec::new(file.alloc);
    evaluate(
        file,
        &mut open,
        node.copy(file.alloc)?,
        DEPTH,
        &mut completed,
    )?;
    let mut is_touched = false;
    for one in &completed {
        is_touched |= one
            .uses
            .as_slice()
            .iter()
            .any(|used| touches(change, *used));
    }
    Ok(is_touched)
}

/// The kept nodes as a plain list, and the calls of rules that the last question took; None after a circle.
#[derive(Drop)]
pub(crate) struct Plain {
    pub(crate) kept: Vec<Node>,
    pub(crate) turns: Option<u64>,
}

impl Plain {
    /// Keeps a completed node, if it isn't kept.
    fn keep(&mut self, one: Completed) -> Result<(), AllocError> {
        let Completed { node, asks, .. } = one;
        if self.kept.as_slice().contains(&node) {
            return Ok(());
        }
        let calls = (asks as u64).saturating_add(1);
        self.turns = self.turns.map(|turns| turns.saturating_add(calls));
        self.kept.push(node)?;
        Ok(())
    }

    /// Asks a node, and keeps what is completed.
    fn ask(&mut self, file: File<'_>, node: Node) -> Result<Option<Reply>, AllocError> {
        let mut completed = Vec::new(file.alloc);
        let mut open = Vec::new(file.alloc);
        let reply = evaluate(file, &mut open, node, DEPTH, &mut completed)?;
        for one in completed {
            self.keep(one)?;
        }
        if reply.is_none() {
            self.turns = None;
        }
        Ok(reply)
    }

    /// Asks what `get` asks of a path: its value, and then what follows from that.
    pub(crate) fn get(&mut self, file: File<'_>, value: Node) -> Result<(), AllocError> {
        self.turns = Some(0);
        let reply = self.ask(file, value)?;
        if let Some(Ok(given)) = &reply {
            if let Some(node) = node_after(file.alloc, given)? {
                self.ask(file, node)?;
            }
        }
        Ok(())
    }

    /// Forgets each node that a change touches. The file is as it was before the change.
    pub(crate) fn forget(&mut self, file: File<'_>, change: Change) -> Result<(), AllocError> {
        let mut left = Vec::new(file.alloc);
        for node in &self.kept {
            if !is_touched(file, change, node)? {
                left.push(node.copy(file.alloc)?)?;
            }
        }
        self.kept = left;
        Ok(())
    }
}
