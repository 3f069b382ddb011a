//! That slots are given to other nodes, and numbers tidied: numbers of nodes that are refused where an engine takes more than it has to.
//!
//! Where the values are from: by hand. Each link answers the size of the file, and asks none. In each of 100 rounds 500 links are asked,
//! each for the first time, and then a byte is appended, which takes them all. So no more than 501 nodes are kept or open at one time, and
//! twice these and 16,384 are 17,386 slots; then each node gets the slot of another, one in each question, and each question begins with a
//! tidying. An engine that gives no slot to another node asks for 50,000 numbers, and one that doesn't tidy gives more than 30,000 between
//! two tidyings.
ghost use Rattle.std.specs.Prelude.{◌≡◌, ◌++◌, ⊤, IfOk, OnOk, OnErr};
ghost use Rattle.ksv_memo_rules.specs.Meaning.{IsAddedTo, on};
ghost use Rattle.ksv_memo_rules.specs.Right.{IsRight};
ghost use Rattle.ksv_test_engine.specs.Leaves.{leaves_meaning};

use crate::edits::{append, new_engine};
use crate::samples::hashed::Hashed;
use crate::samples::link::Link;
use crate::samples::row::{Missing, Reply, copied};
use ksv_bytes::{Buffer, Use};
use ksv_memo::{Answer, Engine, Lent, Next, Replies, Rules};
use ksv_memo_rules::{NoFold, Places};
use std::alloc::{AllocError, Global};
use std::test::Fail;

/// How many nodes have a number at most.
const MOST: usize = 17_400;

/// How many numbers are given to other nodes at most between two tidyings.
const FEW: usize = 10;

/// How many rounds there are, and how many links are asked in each.
const ROUNDS: u32 = 100;

const EACH: u32 = 500;

/// Numbers of few nodes.
#[derive(Drop)]
pub struct Limited {
    all: Hashed<Link>,
    added: usize,
    given: usize,
}

impl Places<Link> for Limited {
    ghost nodes = { λ places. places.all.nodes.keys };

    ghost ends = { λ _ _. ⊤ };

    fn new(alloc: Global) -> Self {
        Limited {
            all: Hashed::new(alloc),
            added: 0,
            given: 0,
        }
    }

    fn find(&mut self, node: &Link) -> Option<usize> {
        self.all.find(node)
    }

    fn add(&mut self, node: &Link) -> Result<(), AllocError> {
        if self.added >= MOST {
            return Err(AllocError);
        }
        self.all.add(node)?;
        self.added += 1;
        Ok(())
    }

    fn give(&mut self, place: usize, node: &Link) -> Result<(), AllocError> {
        if self.given >= FEW {
            return Err(AllocError);
        }
        self.all.give(place, node)?;
        self.given += 1;
        Ok(())
    }

    fn tidy(&mut self) {
        self.given = 0;
        self.all.tidy();
    }
}

/// Links that have few numbers, and ask none.
struct Leaves;

impl Rules for Leaves {
    ghost use Rattle.ksv_test_engine.specs.Chain.{same_if_equal};
    ghost use Rattle.ksv_test_engine.specs.Leaves.{leaves_lawful};

    type Node = Link;

    type Places = Limited;

    type Value = u32;

    type Fault = Missing;

    type Fold = NoFold<Link, u32>;

    ghost meaning = { λ _. leaves_meaning };

    fn next(
        &self,
        _alloc: Global,
        _node: Lent<'_, Link>,
        bytes: &Buffer,
        _replies: &Replies<u32, Missing>,
        uses: &mut Vec<Use>,
    ) -> Result<Next<Link, Reply>, AllocError>
        ensures step { IfOk result (λ step. step ≡ (leaves_meaning).follow bytes.now _node.entry _replies.now) }
        ensures uses { OnOk result (uses.new.items ≡ uses.old.items ++ (leaves_meaning).added bytes.now _node.entry _replies.now) }
        ensures refused { OnErr result (IsAddedTo uses.old.items uses.new.items) }
    {
        uses.push(Use::Size)?;
        Ok(Next::Done(Ok(bytes.len() as u32)))
    }

    fn copy_answer(
        &self,
        _alloc: Global,
        answer: Result<&u32, &Missing>,
    ) -> Result<Reply, AllocError> {
        Ok(copied(answer))
    }

    fn may_fold(&self, _value: &u32) -> bool {
        false
    }

    fn fold(
        &self,
        _alloc: Global,
        _root: &Link,
        _value: &u32,
        _bytes: &Buffer,
        _asker: Option<&Link>,
    ) -> Result<Option<NoFold<Link, u32>>, AllocError> {
        Ok(None)
    }

    #[tactic(auto, using(ksv_memo::proofs::Unfolded::no_fold))]
    fn foldable(
        &self,
        _nodes: &NoFold<Link, u32>,
        _value: &u32,
        _bytes: &Buffer,
        _kept: u32,
        _sought: u32,
    ) -> u32 {
        0
    }

    ghost exact = { same_if_equal };

    ghost lawful = { λ _. leaves_lawful };
}

/// Whether a link answers the size of the file.
fn is_size(engine: &mut Engine<Leaves>, bytes: &Buffer, number: u32) -> bool
    requires { IsRight (on leaves_meaning bytes.now) engine.old.kept }
    ensures { IsRight (on leaves_meaning bytes.now) engine.new.kept }
{
    match engine.ask(&Leaves, bytes, Link { number }) {
        Ok(Answer::Value(size)) => size as usize == bytes.len(),
        _ => false,
    }
}

/// Whether the links of a round do, and are kept.
fn are_sizes(engine: &mut Engine<Leaves>, bytes: &Buffer, round: u32) -> bool
    requires { IsRight (on leaves_meaning bytes.now) engine.old.kept }
    ensures { IsRight (on leaves_meaning bytes.now) engine.new.kept }
{
    let mut are_sizes = true;
    for number in 0..EACH {
        let number = round.saturating_mul(EACH).saturating_add(number);
        are_sizes &= is_size(engine, bytes, number);
    }
    are_sizes && engine.kept() == EACH as usize
}

/// Whether all rounds go well.
fn goes_round(engine: &mut Engine<Leaves>, bytes: &mut Buffer) -> bool
    requires { IsRight (on leaves_meaning bytes.old) engine.old.kept }
{
    let mut is_right = true;
    for round in 0..ROUNDS {
        is_right &= are_sizes(engine, bytes, round);
        append(engine, &Leaves, bytes, b"\0");
        is_right &= engine.kept() == 0;
    }
    is_right
}

#[test]
fn gives_slots_to_other_nodes_and_tidies(rt: HostRuntime) -> Result<(), Fail> {
    let mut bytes = Buffer::new(vec![in rt.alloc(); 0u8; 1]?)?;
    let mut engine = new_engine(rt.alloc(), &Leaves, &bytes);
    let is_right = goes_round(&mut engine, &mut bytes);
    drop(engine);
    drop(bytes);
    assert!(rt; is_right);
    Ok(())
}
