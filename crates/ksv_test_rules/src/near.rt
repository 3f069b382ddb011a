//! How many looks an overwrite takes where the nodes of a described file are kept.
//!
//! Values are by hand: which nodes stay follows from what each reads (a list of n bytes keeps 3n + 3 nodes, and the value
//! of an element one more); the most looks are eight times the sum that an overwrite is allowed, whose parts stand beside it.

use crate::nodes::{BYTES, File, described, node_at};
use ksv_bytes::{Buffer, Change};
use ksv_memo::{Answer, Engine, Rules};
use ksv_rules::{Described, NodeKind};
use std::alloc::{AllocError, Global};
use std::test::Fail;

/// An overwrite, how many nodes are kept after it, and how many looks it takes at least and at most.
struct Overwrite {
    at: usize,
    n: usize,
    left: usize,
    least: u64,
    most: u64,
}

impl Overwrite {
    /// Whether it leaves and looks so in an engine.
    fn is_near<R: Rules>(&self, engine: &mut Engine<R>) -> bool {
        engine.forget(Change::Overwrite {
            at: self.at,
            n: self.n,
        });
        let (left, looked) = (engine.kept(), engine.looked());
        left == self.left && looked >= self.least && looked <= self.most
    }
}

/// Whether a question has an answer.
fn is_told<N: Drop, V: Drop, F: Drop>(told: Result<Answer<N, V, F>, AllocError>) -> bool {
    told.is_ok()
}

/// What an engine answered and counted, of a list.
#[derive(Clone, Copy)]
pub(crate) struct Counts {
    pub(crate) are_told: bool,
    pub(crate) kept_of_list: usize,
    pub(crate) turns_of_list: Option<u64>,
    kept: usize,
    turns: Option<u64>,
    is_near: bool,
}

/// The counts of an engine that was asked for a list and what comes from its first element on, and in a question of its
/// own for its last element; and whether an overwrite is near after that.
fn list_counts<R: Rules>(
    alloc: Global,
    rules: &R,
    bytes: &Buffer,
    list: R::Node,
    rest: R::Node,
    last: R::Node,
) -> Counts {
    let mut engine = Engine::new(alloc);
    let is_list = is_told(engine.ask(rules, bytes, list));
    let is_rest = is_told(engine.ask(rules, bytes, rest));
    let (kept_of_list, turns_of_list) = (engine.kept(), engine.turns());
    engine.begin();
    let is_last = is_told(engine.ask(rules, bytes, last));
    let (kept, turns) = (engine.kept(), engine.turns());
    let is_near = LAST.is_near(&mut engine);
    drop(engine);
    Counts {
        are_told: is_list && is_rest && is_last,
        kept_of_list,
        turns_of_list,
        kept,
        turns,
        is_near,
    }
}

/// The same of the list `/xs` of a file, whose last element is at this path.
pub(crate) fn counts_of_list(file: File<'_>, last: &str) -> Result<Counts, Fail> {
    let list = node_at(file.alloc, file.rules, NodeKind::Value, "/xs")?;
    let rest = node_at(file.alloc, file.rules, NodeKind::Rest, "/xs/0")?;
    let last = node_at(file.alloc, file.rules, NodeKind::Value, last)?;
    let (rules, bytes) = (file.rules, file.bytes);
    Ok(list_counts(file.alloc, rules, bytes, list, rest, last))
}

/// Whether overwrites, one after the other, are near.
fn are_near<R: Rules>(engine: &mut Engine<R>, overwrites: &[Overwrite]) -> bool {
    let mut are_near = true;
    for overwrite in overwrites {
        are_near &= overwrite.is_near(engine);
    }
    are_near
}

/// Whether an engine that was asked for a node keeps this many, and overwrites are near.
fn is_asked_near<R: Rules>(
    alloc: Global,
    rules: &R,
    bytes: &Buffer,
    node: R::Node,
    kept: usize,
    overwrites: &[Overwrite],
) -> bool {
    let mut engine = Engine::new(alloc);
    let is_asked = is_told(engine.ask(rules, bytes, node));
    let is_kept = engine.kept() == kept;
    let are_near = are_near(&mut engine, overwrites);
    drop(engine);
    is_asked && is_kept && are_near
}

/// Whether an engine that was asked for the value at a path of a described file keeps this many nodes, and overwrites are near.
fn is_near(
    alloc: Global,
    text: &str,
    bytes: &[u8],
    path: &str,
    kept: usize,
    overwrites: &[Overwrite],
) -> Result<bool, Fail> {
    let bytes = Buffer::new(bytes.to_vec(alloc)?)?;
    let rules = Described::new(described(alloc, text)?);
    let file = File {
        alloc,
        rules: &rules,
        bytes: &bytes,
    };
    let is_near = is_near_in(file, path, kept, overwrites);
    drop(rules);
    drop(bytes);
    is_near
}

/// The same in a file.
fn is_near_in(
    file: File<'_>,
    path: &str,
    kept: usize,
    overwrites: &[Overwrite],
) -> Result<bool, Fail> {
    let node = node_at(file.alloc, file.rules, NodeKind::Value, path)?;
    Ok(is_asked_near(file.alloc, file.rules, file.bytes, node, kept, overwrites))
}

/// A byte after an object of four bytes.
const BEHIND: &str = "meta:
  id: t
seq:
  - id: o
    type: inner
    size: 4
  - id: z
    type: u1
types:
  inner:
    seq:
      - id: p
        type: u4be
      - id: q
        type: u2be
";

/// An overwrite inside of the object takes no node, and then one of the byte takes its value.
static BESIDE: [Overwrite; 2] = [
    Overwrite {
        at: 0,
        n: 1,
        left: 5,
        least: 0,
        most: 16,
    },
    Overwrite {
        at: 4,
        n: 1,
        left: 4,
        least: 0,
        most: 40,
    },
];

#[test]
fn an_overwrite_beside_looks_at_its_page_alone(rt: HostRuntime) -> Result<(), Fail> {
    let bytes = b"\x00\x00\x00\x07\x09\x0a";
    let is_near = is_near(rt.alloc(), BEHIND, bytes, "/z", 5, &BESIDE)?;
    assert!(rt; is_near);
    Ok(())
}

/// An overwrite of the last of 64,000 bytes takes one node.
static LAST: Overwrite = Overwrite {
    at: 63_999,
    n: 1,
    left: 192_003,
    least: 0,
    most: 40,
};

/// Whether an engine that was asked for a list of 64,000 elements and the last of them keeps 192,004 nodes, and an
/// overwrite of the last byte takes one.
fn is_last_of_list_near(file: File<'_>) -> Result<bool, Fail> {
    let counts = counts_of_list(file, "/xs/63999")?;
    let is_kept = counts.kept == 192_004 && counts.turns == Some(2);
    Ok(counts.are_told && is_kept && counts.is_near)
}

#[test]
fn an_overwrite_of_one_of_64000_elements_looks_only_near(rt: HostRuntime) -> Result<(), Fail> {
    let alloc = rt.alloc();
    let bytes = Buffer::new(vec![in alloc; 0u8; 64_000]?)?;
    let rules = Described::new(described(alloc, BYTES)?);
    let file = File {
        alloc,
        rules: &rules,
        bytes: &bytes,
    };
    let is_near = is_last_of_list_near(file);
    drop(rules);
    drop(bytes);
    assert!(rt; is_near?);
    Ok(())
}

/// A byte that a calculated value asks for twice.
const TWICE: &str = "meta:
  id: t
seq:
  - id: n
    type: u1
instances:
  s:
    value: n + n
";

/// Of the sum the byte's value and the sum go: one page, one use of it, two nodes, four asks, and one page of a use.
static OF_A_SUM: [Overwrite; 1] = [Overwrite {
    at: 0,
    n: 1,
    left: 3,
    least: 2,
    most: 8 * (1 + 1 + 2 + 4 + 1),
}];

#[test]
fn an_overwrite_takes_a_sum_of_a_node_and_itself(rt: HostRuntime) -> Result<(), Fail> {
    let is_near = is_near(rt.alloc(), TWICE, b"a", "/s", 5, &OF_A_SUM)?;
    assert!(rt; is_near);
    Ok(())
}

/// A text over four pages.
const WIDE: &str = "meta:
  id: t
  encoding: ASCII
seq:
  - id: s
    type: str
    size: 200
";

/// Of the text its value goes, with one ask and four pages of a use: for one page and one use that meets it, and for two.
/// Nothing goes where no byte of it is overwritten, for one page and one use that meets it.
static OF_A_TEXT: [[Overwrite; 1]; 3] = [
    [Overwrite {
        at: 150,
        n: 1,
        left: 2,
        least: 0,
        most: 8 * (1 + 1 + 1 + 1 + 4),
    }],
    [Overwrite {
        at: 70,
        n: 100,
        left: 2,
        least: 0,
        most: 8 * (2 + 2 + 1 + 1 + 4),
    }],
    [Overwrite {
        at: 200,
        n: 9,
        left: 3,
        least: 0,
        most: 8 * (1 + 1),
    }],
];

#[test]
fn an_overwrite_takes_a_text_over_several_pages(rt: HostRuntime) -> Result<(), Fail> {
    let mut are_near = true;
    for overwrites in &OF_A_TEXT {
        are_near &= is_near(rt.alloc(), WIDE, &[b'a'; 300], "/s", 3, overwrites)?;
    }
    assert!(rt; are_near);
    Ok(())
}
