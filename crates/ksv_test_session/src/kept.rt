//! What a session keeps across random lines, beside a slow program that evaluates each node from nothing.
//!
//! Values are from that program (`plain`): what it keeps and how many turns it counts; a reply is that of a new session
//! over the same bytes.

use crate::plain::{File, Plain};
use crate::random::Random;
use ksv::Session;
use ksv_bytes::{Buffer, Change, Window};
use ksv_rules::{Described, Node, NodeKind, path_of};
use ksv_schema::load;
use ksv_yaml::{Yaml, read};
use std::alloc::{AllocError, Global};
use std::test::Fail;

/// Items of a size, how many depends on a byte; a place that depends on the file's size; a sum of a node and the same
/// node; and two values that are a circle or not, which depends on a byte.
const DESCRIPTION: &[u8] = b"meta: {id: t}
seq:
  - {id: n, type: u1}
  - {id: items, type: item, repeat: expr, repeat-expr: n % 3}
  - {id: tail, type: u1}
types:
  item: {seq: [{id: len, type: u1}, {id: body, size: len % 4}]}
instances:
  last: {pos: _io.size - 1, type: u1}
  twice: {value: n + n}
  this: {value: 'tail % 2 == 0 ? that : 7'}
  that: {value: this}
";

const PATHS: [&str; 14] = [
    "/",
    "/n",
    "/items",
    "/items/0",
    "/items/1",
    "/items/0/len",
    "/items/0/body",
    "/items/1/body",
    "/items/2",
    "/tail",
    "/last",
    "/twice",
    "/this",
    "/that",
];

/// One of the paths.
fn random_path(random: &mut Random) -> &'static str {
    match PATHS.get(random.below(14) as usize) {
        Some(text) => *text,
        None => "/",
    }
}

/// Some random bytes, so few that many of them are equal.
fn random_bytes(alloc: Global, random: &mut Random, count: u8) -> Result<Vec<u8>, AllocError> {
    let mut bytes = Vec::new(alloc);
    for _ in 0..count {
        bytes.push(random.below(9))?;
    }
    Ok(bytes)
}

/// A random change, and the byte that it writes.
fn random_change(random: &mut Random) -> (Change, u8) {
    let (at, n) = (random.below(24) as usize, random.below(3) as usize);
    let byte = random.below(9);
    let change = match random.below(4) {
        0 => Change::Overwrite { at, n: 1 },
        1 => Change::Insert { at, n: 1 },
        2 => Change::Delete { at, n },
        _ => Change::Append,
    };
    (change, byte)
}

/// The line that makes a change.
fn line_of(alloc: Global, change: Change, byte: u8) -> Result<String, AllocError> {
    match change {
        Change::Overwrite { at, .. } => format!(in alloc; "set {at} {byte:02x}"),
        Change::Insert { at, .. } => format!(in alloc; "ins {at} {byte:02x}"),
        Change::Delete { at, n } => format!(in alloc; "del {at} {n}"),
        Change::Append => format!(in alloc; "app {byte:02x}"),
    }
}

/// Makes a change of some bytes. Whether it is accepted.
fn is_made(bytes: &mut Buffer, change: Change, byte: u8) -> bool {
    match change {
        Change::Overwrite { at, .. } => bytes.overwrite(at, &[byte]).is_ok(),
        Change::Insert { at, .. } => bytes.insert(at, &[byte]).is_ok(),
        Change::Delete { at, n } => bytes.delete(at, n).is_ok(),
        Change::Append => bytes.append(&[byte]).is_ok(),
    }
}

/// A session, and the slow program beside it with the bytes that both should have.
#[derive(Drop)]
struct Pair<'a> {
    alloc: Global,
    tree: &'a Yaml,
    rules: Described,
    bytes: Buffer,
    plain: Plain,
    session: Session,
}

/// The bytes of a buffer, in a vector of their own.
fn bytes_of(alloc: Global, buffer: &Buffer) -> Result<Vec<u8>, AllocError> {
    let window = Window {
        from: 0,
        to: buffer.len(),
    };
    let (front, back) = buffer.parts(window);
    let mut bytes = front.to_vec(alloc)?;
    bytes.extend_from_slice(back)?;
    Ok(bytes)
}

/// A session over the description that a tree states, and these bytes.
fn session_over(alloc: Global, tree: &Yaml, bytes: &Buffer) -> Result<Session, Fail> {
    let bytes = bytes_of(alloc, bytes)?;
    let desc = load(alloc, tree)?;
    Ok(Session::new(alloc, desc, bytes)?)
}

/// A pair over these bytes.
fn pair_over<'a>(alloc: Global, tree: &'a Yaml, bytes: Buffer) -> Result<Pair<'a>, Fail> {
    let desc = load(alloc, tree)?;
    let session = session_over(alloc, tree, &bytes)?;
    Ok(Pair {
        alloc,
        tree,
        rules: Described::new(desc),
        bytes,
        plain: Plain {
            kept: Vec::new(alloc),
            turns: Some(0),
        },
        session,
    })
}

/// A pair over random bytes.
fn random_pair<'a>(alloc: Global, tree: &'a Yaml, random: &mut Random) -> Result<Pair<'a>, Fail> {
    let count = 8 + random.below(13);
    let bytes = random_bytes(alloc, random, count)?;
    pair_over(alloc, tree, Buffer::new(bytes)?)
}

impl<'a> Pair<'a> {
    /// What `stats` should tell: what the slow program keeps.
    fn stats(&self) -> Result<String, AllocError> {
        let kept = self.plain.kept.len();
        match self.plain.turns {
            Some(turns) => format!(in self.alloc; "kept {kept} turns {turns}\n"),
            None => format!(in self.alloc; "kept {kept} turns -\n"),
        }
    }

    /// Whether the session tells so.
    fn is_told(&mut self) -> Result<bool, AllocError> {
        let wanted = self.stats()?;
        Ok(self.session.line(b"stats").as_bytes() == wanted.as_bytes())
    }

    /// Asks the slow program for what is at a path, if it is one.
    fn get_plain(&mut self, text: &str) -> Result<(), AllocError> {
        let Some(path) = path_of(self.alloc, self.rules.desc(), text.as_bytes())? else {
            return Ok(());
        };
        let file = File {
            alloc: self.alloc,
            rules: &self.rules,
            bytes: &self.bytes,
        };
        let kind = NodeKind::Value;
        self.plain.get(file, Node { kind, path })
    }

    /// Whether the session answers a line as a new one over the same bytes does.
    fn answers_as_new(&mut self, line: &[u8]) -> Result<bool, Fail> {
        let mut new = session_over(self.alloc, self.tree, &self.bytes)?;
        let reply = self.session.line(line);
        let is_same = reply.as_bytes() == new.line(line).as_bytes();
        new.into_buffer();
        Ok(is_same)
    }

    /// Asks both for what is at a random path. Whether the session answers as a new one over the same bytes does.
    fn get(&mut self, random: &mut Random) -> Result<bool, Fail> {
        let text = random_path(random);
        self.get_plain(text)?;
        let line = format!(in self.alloc; "get {text}")?;
        self.answers_as_new(line.as_bytes())
    }

    /// Makes a change that was accepted: what the slow program keeps is looked at on the bytes before.
    fn forget(&mut self, before: &Buffer, change: Change) -> Result<(), AllocError> {
        let file = File {
            alloc: self.alloc,
            rules: &self.rules,
            bytes: before,
        };
        self.plain.forget(file, change)
    }

    /// Makes a change for the slow program. Whether it is accepted.
    fn change(&mut self, change: Change, byte: u8) -> Result<bool, Fail> {
        let before = Buffer::new(bytes_of(self.alloc, &self.bytes)?)?;
        let is_made = is_made(&mut self.bytes, change, byte);
        if is_made {
            self.forget(&before, change)?;
        }
        Ok(is_made)
    }

    /// Whether the session takes the line of a change.
    fn takes(&mut self, line: &[u8]) -> Result<bool, AllocError> {
        let done = format!(in self.alloc; "ok {}\n", self.bytes.len())?;
        Ok(self.session.line(line).as_bytes() == done.as_bytes())
    }

    /// Makes a random edit in both. Whether the session takes or refuses it as a buffer does.
    fn edit(&mut self, random: &mut Random) -> Result<bool, Fail> {
        let (change, byte) = random_change(random);
        let is_made = self.change(change, byte)?;
        let line = line_of(self.alloc, change, byte)?;
        Ok(self.takes(line.as_bytes())? == is_made)
    }

    /// Whether the session keeps and tells what the slow program does, after each of 40 random lines.
    fn are_lines_right(&mut self, random: &mut Random) -> Result<bool, Fail> {
        let mut are_right = true;
        for _ in 0..40 {
            are_right &= match random.below(2) {
                0 => self.get(random)?,
                _ => self.edit(random)?,
            };
            are_right &= self.is_told()?;
        }
        Ok(are_right)
    }
}

/// Whether a session over random bytes is right after each of 40 random lines.
fn is_list_right(alloc: Global, tree: &Yaml, random: &mut Random) -> Result<bool, Fail> {
    let mut pair = random_pair(alloc, tree, random)?;
    let are_right = pair.are_lines_right(random);
    let Pair { session, .. } = pair;
    session.into_buffer();
    are_right
}

/// Whether 2,000 random lists of lines are right that follow from this number.
fn are_lists_right(alloc: Global, state: u64) -> Result<bool, Fail> {
    let tree = read(alloc, DESCRIPTION)?;
    let mut random = Random { state };
    let mut are_right = true;
    for _ in 0..2000 {
        are_right &= is_list_right(alloc, &tree, &mut random)?;
    }
    Ok(are_right)
}

#[test]
fn first_random_lines_keep_what_is_defined(rt: HostRuntime) -> Result<(), Fail> {
    let are_right = are_lists_right(rt.alloc(), 88_172_645_463_325_252)?;
    assert!(rt; are_right);
    Ok(())
}

#[test]
fn second_random_lines_keep_what_is_defined(rt: HostRuntime) -> Result<(), Fail> {
    let are_right = are_lists_right(rt.alloc(), 1_234_567_890_123_457)?;
    assert!(rt; are_right);
    Ok(())
}

#[test]
fn third_random_lines_keep_what_is_defined(rt: HostRuntime) -> Result<(), Fail> {
    let are_right = are_lists_right(rt.alloc(), 982_451_653_000_000_007)?;
    assert!(rt; are_right);
    Ok(())
}

#[test]
fn fourth_random_lines_keep_what_is_defined(rt: HostRuntime) -> Result<(), Fail> {
    let are_right = are_lists_right(rt.alloc(), 31_415_926_535_897_932)?;
    assert!(rt; are_right);
    Ok(())
}

#[test]
fn fifth_random_lines_keep_what_is_defined(rt: HostRuntime) -> Result<(), Fail> {
    let are_right = are_lists_right(rt.alloc(), 27_182_818_284_590_452)?;
    assert!(rt; are_right);
    Ok(())
}
