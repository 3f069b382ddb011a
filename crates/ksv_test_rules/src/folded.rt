//! Random questions about long plain lists between random edits, to an engine that keeps nodes by their numbers alone, and beside it to one that has a
//! slot for each.
//!
//! Where the values are from: the second engine, which runs the same rules and keeps no node by its number. Both must answer alike, keep as many nodes
//! and count as many turns, after each question and each edit.
ghost use Rattle.std.specs.Prelude.{◌≡◌, ◌≤◌, IfOk, IfSome, IfNone, OnErr};
ghost use Rattle.ksv_bytes.specs.Uses.{Makes};
ghost use Rattle.ksv_memo_rules.specs.Meaning.{on};
ghost use Rattle.ksv_memo_rules.specs.Right.{IsRight};

use crate::nodes::{add_written, described};
use ksv_bytes::{Buffer, Change};
use ksv_desc::Desc;
use ksv_expr_value::{Fault, Value};
use ksv_memo::{Answer, Engine, Rules};
use ksv_memo_rules::NoFold;
use ksv_nodes::{Halt, Head, Turn};
use ksv_rule_meaning::NodeRules;
use ksv_rules::{Described, DescriptionRules, Given, Node, NodeKind, path_of};
use std::alloc::{AllocError, Global};
use std::fmt::Write;
use std::test::Fail;

/// The code of the rules, with no nodes that can be kept by numbers alone.
struct Slotted;

impl NodeRules for Slotted {
    type Fold = NoFold<Node, Given>;

    fn rule(turn: &mut Turn, desc: &Desc, node: &Node) -> Result<Given, Halt> {
        DescriptionRules::rule(turn, desc, node)
    }

    fn fold(
        _alloc: Global,
        _desc: &Desc,
        _root: &Node,
        _given: &Given,
        _bytes: &Buffer,
        _asker: Option<&Node>,
    ) -> Result<Option<NoFold<Node, Given>>, AllocError> {
        Ok(None)
    }

    #[tactic(auto, using(ksv_memo::proofs::Unfolded::no_fold))]
    fn foldable(
        _nodes: &NoFold<Node, Given>,
        _desc: &Desc,
        _given: &Given,
        _bytes: &Buffer,
        _kept: u32,
        _sought: u32,
    ) -> u32 {
        0
    }
}

type SlottedRules = ksv_rule_meaning::Described<Slotted>;

/// How many files of each sample there are.
const ROUNDS: usize = 40;

/// How many questions are asked about a file, and how many there are between two edits, about.
const QUESTIONS: usize = 420;

const QUESTIONS_BETWEEN: usize = 20;

/// Which bytes are drawn.
#[derive(Clone, Copy)]
struct Drawn {
    /// The largest.
    most: u8,
    /// How many there are for one that may be other than 0, about.
    apart: usize,
}

/// Any bytes.
const ANY: Drawn = Drawn {
    most: 255,
    apart: 1,
};

/// Bytes that say small sizes.
const SMALL: Drawn = Drawn { most: 3, apart: 1 };

/// Bytes of which two mostly say 0, and now and then 1, 256 or 257.
const RARE: Drawn = Drawn { most: 1, apart: 64 };

/// A description with long lists, the first bytes of its file, and paths in it, where `#` is an element's number.
struct Sample {
    text: &'static str,
    first: &'static [u8],
    paths: &'static [&'static str],
    /// The other bytes of its file, and those of most edits.
    drawn: Drawn,
    /// Elements from this number on aren't asked.
    elements: usize,
}

/// Lists of elements of one size.
static SAMPLES: [Sample; 6] = [
    // Bytes to the file's end.
    Sample {
        text: "meta: {id: t}\nseq:\n  - {id: xs, type: u1, repeat: eos}\n",
        first: b"",
        paths: &["/xs", "/xs/#"],
        drawn: ANY,
        elements: 1_800,
    },
    // 1,024 bytes, or as many as two bytes say, and then numbers of two bytes.
    Sample {
        text: "meta: {id: t, endian: be}\nseq:\n  - {id: n, type: u2}\n  - {id: xs, type: u1, repeat: expr, repeat-expr: n}\n  - {id: ys, type: u2, repeat: eos}\n",
        first: b"\x04\x00",
        paths: &["/xs", "/xs/#", "/ys", "/ys/#", "/n"],
        drawn: ANY,
        elements: 1_800,
    },
    // Points.
    Sample {
        text: "meta: {id: t, endian: le}\nseq:\n  - {id: xs, type: point, repeat: eos}\ntypes:\n  point:\n    seq:\n      - {id: a, type: u1}\n      - {id: b, type: u2}\n",
        first: b"",
        paths: &["/xs", "/xs/#", "/xs/#/a", "/xs/#/b"],
        drawn: ANY,
        elements: 1_800,
    },
    // Objects of which one field's bytes are mostly other ones than they must be.
    Sample {
        text: "meta: {id: t}\nseq:\n  - {id: xs, type: marked, repeat: eos}\ntypes:\n  marked:\n    seq:\n      - {id: mark, contents: [7]}\n      - {id: b, type: u1}\n",
        first: b"",
        paths: &["/xs", "/xs/#", "/xs/#/mark", "/xs/#/b"],
        drawn: ANY,
        elements: 1_800,
    },
    // A list in a window of 1,200 bytes, and one behind it.
    Sample {
        text: "meta: {id: t, endian: le}\nseq:\n  - {id: w, type: inner, size: 1200}\n  - {id: ys, type: u1, repeat: eos}\ntypes:\n  inner:\n    seq:\n      - {id: xs, type: u2, repeat: eos}\n",
        first: b"",
        paths: &["/w", "/w/xs", "/w/xs/#", "/ys", "/ys/#"],
        drawn: ANY,
        elements: 1_800,
    },
    // A list whose elements ask those of another.
    Sample {
        text: "meta: {id: t}\nseq:\n  - {id: xs, type: u1, repeat: expr, repeat-expr: 900}\n  - {id: ys, type: pick, repeat: eos}\ntypes:\n  pick:\n    seq:\n      - {id: at, type: u1}\n      - {id: body, size: '_root.xs[at * 3] % 3'}\n",
        first: b"",
        paths: &["/xs", "/xs/#", "/ys", "/ys/#/body", "/ys/#"],
        drawn: ANY,
        elements: 1_800,
    },
];

/// Lists whose elements say the size of their last field.
static SIZED: [Sample; 5] = [
    // Items to the file's end, and a value of two of them.
    Sample {
        text: "meta: {id: t}\nseq:\n  - {id: xs, type: item, repeat: eos}\ninstances:\n  sum: {value: 'xs[250].len + xs[40].body.size'}\ntypes:\n  item:\n    seq:\n      - {id: len, type: u1}\n      - {id: body, size: len}\n",
        first: b"",
        paths: &["/xs", "/xs/#", "/xs/#/len", "/xs/#/body", "/sum"],
        drawn: SMALL,
        elements: 720,
    },
    // A field before the size, which takes two bytes; and a value of both.
    Sample {
        text: "meta: {id: t, endian: be}\nseq:\n  - {id: xs, type: item, repeat: eos}\ntypes:\n  item:\n    seq:\n      - {id: kind, type: u1}\n      - {id: len, type: u2}\n      - {id: body, size: len}\n    instances:\n      both: {value: kind + len}\n",
        first: b"",
        paths: &[
            "/xs",
            "/xs/#",
            "/xs/#/kind",
            "/xs/#/len",
            "/xs/#/body",
            "/xs/#/both",
        ],
        drawn: RARE,
        elements: 360,
    },
    // 400 items, or as many as two bytes say, and bytes behind them.
    Sample {
        text: "meta: {id: t, endian: be}\nseq:\n  - {id: n, type: u2}\n  - {id: xs, type: item, repeat: expr, repeat-expr: n}\n  - {id: ys, type: u1, repeat: eos}\ntypes:\n  item:\n    seq:\n      - {id: len, type: u1}\n      - {id: body, size: len}\n",
        first: b"\x01\x90",
        paths: &[
            "/xs",
            "/xs/#",
            "/xs/#/len",
            "/xs/#/body",
            "/ys",
            "/ys/#",
            "/n",
        ],
        drawn: SMALL,
        elements: 460,
    },
    // Items in a window of 1,200 bytes, and a list behind it. Their sizes may be below 0.
    Sample {
        text: "meta: {id: t}\nseq:\n  - {id: w, type: inner, size: 1200}\n  - {id: ys, type: u1, repeat: eos}\ntypes:\n  inner:\n    seq:\n      - {id: xs, type: item, repeat: eos}\n  item:\n    seq:\n      - {id: len, type: s1}\n      - {id: body, size: len}\n",
        first: b"",
        paths: &[
            "/w",
            "/w/xs",
            "/w/xs/#",
            "/w/xs/#/len",
            "/w/xs/#/body",
            "/ys/#",
        ],
        drawn: SMALL,
        elements: 540,
    },
    // Sizes of two bytes, the lowest first, behind two that must be as they mostly are.
    Sample {
        text: "meta: {id: t, endian: le}\nseq:\n  - {id: xs, type: item, repeat: eos}\ntypes:\n  item:\n    seq:\n      - {id: mark, contents: [0, 0]}\n      - {id: len, type: s2}\n      - {id: body, size: len}\n",
        first: b"",
        paths: &["/xs", "/xs/#", "/xs/#/mark", "/xs/#/len", "/xs/#/body"],
        drawn: RARE,
        elements: 300,
    },
];

/// Numbers that look random, by Marsaglia's xorshift.
#[derive(Drop)]
struct Random {
    state: u64,
}

impl Random {
    fn next(&mut self) -> u64 {
        self.state ^= self.state << 13;
        self.state ^= self.state >> 7;
        self.state ^= self.state << 17;
        self.state
    }

    /// A number below another; 0 where that is 0.
    fn below(&mut self, bound: usize) -> usize
        ensures { result ≤ bound }
    {
        if bound == 0 {
            0
        } else {
            (self.next() % bound as u64) as usize
        }
    }

    fn byte(&mut self, drawn: Drawn) -> u8 {
        if self.below(drawn.apart) > 0 {
            return 0;
        }
        (self.next() % (u64::from(drawn.most) + 1)) as u8
    }
}

/// So many random bytes.
fn random_bytes(
    alloc: Global,
    random: &mut Random,
    drawn: Drawn,
    count: usize,
) -> Result<Vec<u8>, AllocError> {
    let mut bytes = Vec::new(alloc);
    for _ in 0..count {
        bytes.push(random.byte(drawn))?;
    }
    Ok(bytes)
}

/// A file of a sample, of 1,300 to 1,699 bytes.
fn random_file(alloc: Global, sample: &Sample, random: &mut Random) -> Result<Vec<u8>, AllocError> {
    let mut bytes = sample.first.to_vec(alloc)?;
    let count = 1_300 + random.below(400);
    let more = random_bytes(alloc, random, sample.drawn, count)?;
    bytes.extend_from_slice(more.as_slice())?;
    Ok(bytes)
}

/// One of a sample's paths, of a random element.
fn random_path(alloc: Global, sample: &Sample, random: &mut Random) -> Result<String, AllocError> {
    let chosen = match sample.paths.get(random.below(sample.paths.len())) {
        Some(path) => *path,
        None => "/",
    };
    let mut text = String::new(alloc);
    for part in chosen.split('#') {
        if !text.as_str().is_empty() {
            write!(text, "{}", random.below(sample.elements))?;
        }
        text.push_str(part)?;
    }
    Ok(text)
}

/// A random kind of node.
fn random_kind(random: &mut Random) -> NodeKind {
    match random.below(4) {
        0 => NodeKind::Head,
        1 => NodeKind::End,
        2 => NodeKind::Value,
        _ => NodeKind::Rest,
    }
}

/// The node of this kind at a path.
fn node_at(alloc: Global, desc: &Desc, kind: NodeKind, path: &str) -> Result<Node, Fail> {
    match path_of(alloc, desc, path.as_bytes())? {
        Some(path) => Ok(Node { kind, path }),
        None => Err(Fail::from("no path")),
    }
}

/// Makes an edit of a kind, with as many bytes; which it was, unless the buffer refuses it.
fn edited(bytes: &mut Buffer, how: usize, at: usize, new: &[u8]) -> Option<Change>
    ensures some { IfSome result (λ change. Makes change bytes.old bytes.new) }
    ensures none { IfNone result (bytes.new ≡ bytes.old) }
{
    let n = new.len();
    let (made, change) = match how {
        0 => (bytes.insert(at, new), Change::Insert { at, n }),
        1 => (bytes.delete(at, n), Change::Delete { at, n }),
        2 => (bytes.append(new), Change::Append),
        _ => (bytes.overwrite(at, new), Change::Overwrite { at, n }),
    };
    match made {
        Ok(()) => Some(change),
        Err(_) => None,
    }
}

/// The place of a random edit of so many bytes: one in eight times among the first bytes, which say how many elements there are, and one in eight times
/// right before the end.
fn random_place(bytes: &Buffer, random: &mut Random, count: usize) -> usize {
    match random.below(8) {
        0 => random.below(4),
        1 => bytes.len().saturating_sub(count),
        _ => random.below(bytes.len()),
    }
}

/// The bytes of a random edit: one in eight times any.
fn edit_bytes(alloc: Global, sample: &Sample, random: &mut Random) -> Result<Vec<u8>, AllocError> {
    let drawn = if random.below(8) == 0 {
        ANY
    } else {
        sample.drawn
    };
    let count = 1 + random.below(3);
    random_bytes(alloc, random, drawn, count)
}

/// Makes a random edit of a sample's file; which it was, unless the bytes refuse it.
fn random_edit(
    alloc: Global,
    sample: &Sample,
    bytes: &mut Buffer,
    random: &mut Random,
) -> Result<Option<Change>, AllocError>
    ensures some { IfOk result (λ made. IfSome made (λ change. Makes change bytes.old bytes.new)) }
    ensures none { IfOk result (λ made. IfNone made (bytes.new ≡ bytes.old)) }
    ensures err { OnErr result (bytes.new ≡ bytes.old) }
{
    let new = edit_bytes(alloc, sample, random)?;
    let at = random_place(bytes, random, new.len());
    let how = random.below(5);
    Ok(edited(bytes, how, at, new.as_slice()))
}

/// Adds more of what a node answers: which member is read, an integer, and where bytes are.
fn add_more(answer: &Answer<Node, Given, Fault>, out: &mut String) -> Result<(), AllocError> {
    match answer {
        Answer::Value(Given::Head(Head::Leaf(leaf))) => {
            let (type_number, member) = (leaf.origin.member.type_number, leaf.origin.member.member);
            write!(out, ", member {member} of type {type_number}")
        }
        Answer::Value(Given::Value(Value::Int(number))) => write!(out, " {}", number.get()),
        Answer::Value(Given::Value(Value::Bytes { from, to })) => {
            let (from, to) = (*from, *to);
            write!(out, " from {from} to {to}")
        }
        _ => Ok(()),
    }
}

/// What an engine answers to a question, keeps and counts, in words.
fn told<R: Rules<Node = Node, Value = Given, Fault = Fault>>(
    alloc: Global,
    engine: &mut Engine<R>,
    rules: &R,
    desc: &Desc,
    bytes: &Buffer,
    node: Node,
) -> Result<String, AllocError>
    requires { IsRight (on (R.meaning rules.now) bytes.now) engine.old.kept }
    ensures { IsRight (on (R.meaning rules.now) bytes.now) engine.new.kept }
{
    engine.begin();
    let answer = engine.ask(rules, bytes, node)?;
    let mut out = String::new(alloc);
    add_written(desc, &answer, &mut out)?;
    add_more(&answer, &mut out)?;
    let turns = engine.turns().unwrap_or(0);
    write!(out, ", {} kept, {turns} turns", engine.kept())?;
    Ok(out)
}

/// The rules of two engines, of one description.
#[derive(Clone, Copy)]
struct Both<'a, A, B> {
    desc: &'a Desc,
    first: &'a A,
    second: &'a B,
}

/// Whether two engines answer a random question alike, keep as much and count as many turns.
fn are_told_alike<
    A: Rules<Node = Node, Value = Given, Fault = Fault>,
    B: Rules<Node = Node, Value = Given, Fault = Fault>,
>(
    alloc: Global,
    rules: &Both<'_, A, B>,
    first: &mut Engine<A>,
    second: &mut Engine<B>,
    bytes: &Buffer,
    asked: (NodeKind, &str),
) -> Result<bool, Fail>
    requires first { IsRight (on (A.meaning rules.now.first.now) bytes.now) first.old.kept }
    requires second { IsRight (on (B.meaning rules.now.second.now) bytes.now) second.old.kept }
    ensures first { IsRight (on (A.meaning rules.now.first.now) bytes.now) first.new.kept }
    ensures second { IsRight (on (B.meaning rules.now.second.now) bytes.now) second.new.kept }
{
    let (kind, path) = asked;
    let node = node_at(alloc, rules.desc, kind, path)?;
    let same = node_at(alloc, rules.desc, kind, path)?;
    let told_first = told(alloc, first, rules.first, rules.desc, bytes, node)?;
    let told_second = told(alloc, second, rules.second, rules.desc, bytes, same)?;
    Ok(told_first.as_str() == told_second.as_str())
}

/// A new engine.
fn new_engine<R: Rules>(alloc: Global, _rules: &R, _bytes: &Buffer) -> Engine<R>
    ensures { IsRight (on (R.meaning _rules.now) _bytes.now) result.kept }
{
    Engine::new(alloc)
}

/// Makes a random edit, of which two engines are told.
fn edit_for<A: Rules, B: Rules>(
    alloc: Global,
    rules: &Both<'_, A, B>,
    first: &mut Engine<A>,
    second: &mut Engine<B>,
    sample: &Sample,
    bytes: &mut Buffer,
    random: &mut Random,
) -> Result<(), AllocError>
    requires first { IsRight (on (A.meaning rules.now.first.now) bytes.old) first.old.kept }
    requires second { IsRight (on (B.meaning rules.now.second.now) bytes.old) second.old.kept }
    ensures first { IsRight (on (A.meaning rules.now.first.now) bytes.new) first.new.kept }
    ensures second { IsRight (on (B.meaning rules.now.second.now) bytes.new) second.new.kept }
{
    match random_edit(alloc, sample, bytes, random) {
        Ok(Some(change)) => {
            first.forget(change);
            second.forget(change);
            Ok(())
        }
        Ok(None) => Ok(()),
        Err(refused) => Err(refused),
    }
}

/// Whether two engines answer random questions alike between random edits, and keep as much after each.
fn are_alike<
    A: Rules<Node = Node, Value = Given, Fault = Fault>,
    B: Rules<Node = Node, Value = Given, Fault = Fault>,
>(
    alloc: Global,
    rules: &Both<'_, A, B>,
    sample: &Sample,
    bytes: &mut Buffer,
    random: &mut Random,
) -> Result<bool, Fail> {
    let mut first = new_engine(alloc, rules.first, bytes);
    let mut second = new_engine(alloc, rules.second, bytes);
    let mut are_alike = true;
    for _ in 0..QUESTIONS {
        let path = random_path(alloc, sample, random)?;
        let asked = (random_kind(random), path.as_str());
        are_alike &= are_told_alike(alloc, rules, &mut first, &mut second, bytes, asked)?;
        if random.below(QUESTIONS_BETWEEN) == 0 {
            edit_for(alloc, rules, &mut first, &mut second, sample, bytes, random)?;
        }
        are_alike &= first.kept() == second.kept();
    }
    Ok(are_alike)
}

/// Whether engines of the rules with and without folded nodes answer alike over a random file of a sample.
fn is_alike(alloc: Global, sample: &Sample, random: &mut Random) -> Result<bool, Fail> {
    let desc = described(alloc, sample.text)?;
    let folding = Described::new(described(alloc, sample.text)?);
    let slotted = SlottedRules::new(described(alloc, sample.text)?);
    let mut bytes = Buffer::new(random_file(alloc, sample, random)?)?;
    let rules = Both {
        desc: &desc,
        first: &folding,
        second: &slotted,
    };
    are_alike(alloc, &rules, sample, &mut bytes, random)
}

/// The description of a sample for which engines with and without folded nodes answer otherwise, over random files of each.
fn first_unlike(
    alloc: Global,
    samples: &[Sample],
    random: &mut Random,
) -> Result<Option<&'static str>, Fail> {
    for _ in 0..ROUNDS {
        for sample in samples {
            if !is_alike(alloc, sample, random)? {
                return Ok(Some(sample.text));
            }
        }
    }
    Ok(None)
}

#[test]
fn folded_nodes_are_told_as_those_that_have_slots(rt: HostRuntime) -> Result<(), Fail> {
    let mut random = Random {
        state: 88_172_645_463_325_252,
    };
    let unlike = first_unlike(rt.alloc(), &SAMPLES, &mut random)?;
    assert!(rt; unlike.is_none(), "{}", unlike.unwrap_or(""));
    Ok(())
}

#[test]
fn folded_nodes_that_say_sizes_are_told_as_those_that_have_slots(
    rt: HostRuntime,
) -> Result<(), Fail> {
    let mut random = Random {
        state: 2_463_534_242_521_288_629,
    };
    let unlike = first_unlike(rt.alloc(), &SIZED, &mut random)?;
    assert!(rt; unlike.is_none(), "{}", unlike.unwrap_or(""));
    Ok(())
}
