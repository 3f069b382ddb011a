//! A tower of links, of which the lowest alone reads the file: an edit that touches what it reads takes all links, and
//! another one looks at none of them.
//!
//! Where the values are from: by hand. Link n answers n more than the file's size and keeps n + 1 links. An overwrite of byte 0, which
//! link 0 reads, takes all of them; one of byte 1, in the same page, takes none; an append changes the size, so it takes all. The
//! most looks are 8 times what is near: a page, a use that meets it, and of the links that go themselves and their asks.
ghost use Rattle.std.specs.Prelude.{◌≡◌, ◌<◌, ◌≤◌, ◌^◌, ◌==◌, ◌++◌, length, IfOk, OnOk, OnErr};
ghost use Rattle.ksv_memo_rules.specs.Meaning.{IsAddedTo, on};
ghost use Rattle.ksv_memo_rules.specs.Right.{IsRight};
ghost use Rattle.ksv_test_engine.specs.Chain.{same_if_equal};
ghost use Rattle.ksv_test_engine.specs.Tower.{read_by, tower_lawful, tower_meaning};

use crate::edits::{new_engine, overwrite};
use crate::samples::chain::linked;
use crate::samples::hashed::Hashed;
use crate::samples::link::Link;
use crate::samples::row::{Missing, Reply, copied};
use ksv_bytes::{Buffer, Change, Use};
use ksv_memo::{Answer, Engine, Lent, Next, Replies, Rules};
use ksv_memo_rules::NoFold;
use std::alloc::{AllocError, Global};
use std::test::Fail;

/// A tower: link 0 answers the file's size, and reads its first byte too; each other link answers one more than the link
/// below it, without reading anything.
#[derive(Drop)]
struct Tower;

/// Notes what a link of a tower over this many bytes reads.
fn read(is_lowest: bool, size: usize, uses: &mut Vec<Use>) -> Result<(), AllocError>
    ensures ok { OnOk result (uses.new.items ≡ uses.old.items ++ read_by is_lowest (size == 0)) }
    ensures err { OnErr result (uses.new.items ≡ uses.old.items) }
{
    if !is_lowest {
        return Ok(());
    }
    if size == 0 {
        uses.push(Use::Size)?;
        return Ok(());
    }
    uses.extend_from_slice(&[Use::Size, Use::Bytes(0, 1)])
}

impl Rules for Tower {
    type Node = Link;

    type Places = Hashed<Link>;

    type Value = u32;

    type Fault = Missing;

    type Fold = NoFold<Link, u32>;

    ghost meaning = { λ _. tower_meaning };

    fn next(
        &self,
        _alloc: Global,
        node: Lent<'_, Link>,
        bytes: &Buffer,
        replies: &Replies<u32, Missing>,
        uses: &mut Vec<Use>,
    ) -> Result<Next<Link, Reply>, AllocError>
        ensures step { IfOk result (λ step. step ≡ (tower_meaning).follow bytes.now node.entry replies.now) }
        ensures uses { OnOk result (uses.new.items ≡ uses.old.items ++ (tower_meaning).added bytes.now node.entry replies.now) }
        ensures refused { OnErr result (IsAddedTo uses.old.items uses.new.items) }
    {
        let node = node.node();
        let size = bytes.len();
        read(node.number == 0, size, uses)?;
        Ok(linked(*node, size as u32, replies))
    }

    fn copy_answer(
        &self,
        _alloc: Global,
        answer: Result<&u32, &Missing>,
    ) -> Result<Reply, AllocError> {
        Ok(copied(answer))
    }

    fn may_fold(&self, _value: &u32) -> bool {
        false
    }

    fn fold(
        &self,
        _alloc: Global,
        _root: &Link,
        _value: &u32,
        _bytes: &Buffer,
        _asker: Option<&Link>,
    ) -> Result<Option<NoFold<Link, u32>>, AllocError> {
        Ok(None)
    }

    #[tactic(auto, using(ksv_memo::proofs::Unfolded::no_fold))]
    fn foldable(
        &self,
        _nodes: &NoFold<Link, u32>,
        _value: &u32,
        _bytes: &Buffer,
        _kept: u32,
        _sought: u32,
    ) -> u32 {
        0
    }

    ghost exact = { same_if_equal };

    ghost lawful = { λ _. tower_lawful };
}

/// Asks a link of a tower over some bytes; whether it has the value that follows from them, and this many links are kept.
fn stands(engine: &mut Engine<Tower>, bytes: &Buffer, number: u32) -> Result<bool, AllocError>
    requires { IsRight (on tower_meaning bytes.now) engine.old.kept }
    ensures { IsRight (on tower_meaning bytes.now) engine.new.kept }
{
    let answer = engine.ask(&Tower, bytes, Link { number })?;
    let is_right = match answer {
        Answer::Value(value) => value as usize == (number as usize).saturating_add(bytes.len()),
        _ => false,
    };
    Ok(is_right && engine.kept() == number as usize + 1)
}

/// What an overwrite did: how many nodes it took, and how many looks that was.
#[derive(Clone, Copy, Drop)]
struct Fall {
    gone: u64,
    looked: u64,
}

/// What is done where a byte is written over itself.
fn touch(engine: &mut Engine<Tower>, bytes: &mut Buffer, at: usize) -> Fall
    requires { IsRight (on tower_meaning bytes.old) engine.old.kept }
    ensures { IsRight (on tower_meaning bytes.new) engine.new.kept }
{
    let kept = engine.kept();
    overwrite(engine, &Tower, bytes, at, b"a");
    let gone = kept.saturating_sub(engine.kept()) as u64;
    let looked = engine.looked();
    Fall { gone, looked }
}

/// Whether no link went, with looks at one page and one use of it alone.
fn is_beside(fall: Fall) -> bool {
    fall.gone == 0 && fall.looked <= 16
}

/// Whether all of this many links went, with no fewer looks than them and no more than near: one page, one use of it, and the
/// links with their asks.
fn is_whole(fall: Fall, links: u64) -> bool {
    let near = links.saturating_mul(2).saturating_add(2);
    fall.gone == links && links <= fall.looked && fall.looked <= near.saturating_mul(8)
}

/// Overwrites the second byte, and then the first, of two bytes over which a link was asked. Whether the first of these takes
/// none and the second takes all.
fn falls_by_overwrites(engine: &mut Engine<Tower>, bytes: &mut Buffer, number: u32) -> bool
    requires { IsRight (on tower_meaning bytes.old) engine.old.kept }
    ensures { IsRight (on tower_meaning bytes.new) engine.new.kept }
{
    let beside = touch(engine, bytes, 1);
    let whole = touch(engine, bytes, 0);
    is_beside(beside) && is_whole(whole, u64::from(number).saturating_add(1))
}

/// Whether an append takes all links.
fn falls_by_an_append(engine: &mut Engine<Tower>) -> bool {
    engine.forget(Change::Append);
    engine.kept() == 0
}

/// Asks a link of a tower over two bytes. Whether it falls by an overwrite of the first byte alone, and, asked again, by an
/// append.
fn falls_twice(
    engine: &mut Engine<Tower>,
    bytes: &mut Buffer,
    number: u32,
) -> Result<bool, AllocError>
    requires { IsRight (on tower_meaning bytes.old) engine.old.kept }
{
    let stood = stands(engine, bytes, number)?;
    let fell = falls_by_overwrites(engine, bytes, number);
    let stands_again = stands(engine, bytes, number)?;
    let fell_again = falls_by_an_append(engine);
    Ok(stood && fell && stands_again && fell_again)
}

/// The same of a new engine.
fn falls(alloc: Global, number: u32) -> Result<bool, Fail> {
    let mut bytes = Buffer::new(b"aa".to_vec(alloc)?)?;
    let mut engine = new_engine(alloc, &Tower, &bytes);
    let has_fallen = falls_twice(&mut engine, &mut bytes, number);
    drop(engine);
    drop(bytes);
    Ok(has_fallen?)
}

#[test]
fn a_million_links_fall_with_the_lowest(rt: HostRuntime) -> Result<(), Fail> {
    for number in [0, 1, 2, 63_999, 999_999] {
        let has_fallen = falls(rt.alloc(), number)?;
        assert!(rt; has_fallen, "at {number}");
    }
    Ok(())
}
