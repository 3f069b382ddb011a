//! A chain of nodes, each of which asks the one before it.
ghost use Rattle.std.specs.Prelude.{◌≡◌, ◌<◌, ◌+◌, ◌-◌, ◌^◌, ◌++◌, min, length, IfOk, OnOk, OnErr};
ghost use Rattle.ksv_memo_rules.specs.Meaning.{IsAddedTo};
ghost use Rattle.ksv_test_engine.specs.Chain as spec;

use crate::samples::hashed::Hashed;
use crate::samples::link::Link;
use crate::samples::row::{Missing, Reply, copied};
use ksv_bytes::{Buffer, Use};
use ksv_memo_rules::{Lent, Next, NoFold, Replies, Rules};
use std::alloc::{AllocError, Global};

/// A chain: link 0 answers the file's size, and each other link one more than the link before it. Each of them
/// reads the size.
#[derive(Drop)]
pub struct Chain;

/// The link before another than link 0.
pub(crate) fn link_before(link: Link) -> Link
    requires { 0 < link.number }
    ensures { result ≡ spec.link_before link }
{
    Link {
        number: link.number - 1,
    }
}

/// What a link does next.
pub(crate) fn linked(link: Link, size: u32, replies: &Replies<u32, Missing>) -> Next<Link, Reply>
    ensures { result ≡ spec.linked link size replies.now }
{
    match replies.get(0) {
        None if link.number == 0 => Next::Done(Ok(size)),
        None => Next::Need(link_before(link)),
        Some(Ok(before)) => Next::Done(Ok(before.saturating_add(1))),
        Some(Err(missing)) => Next::Done(Err(*missing)),
    }
}

impl Rules for Chain {
    type Node = Link;

    type Places = Hashed<Link>;

    type Value = u32;

    type Fault = Missing;

    type Fold = NoFold<Link, u32>;

    ghost meaning = { λ _. spec.chain_meaning };

    fn next(
        &self,
        _alloc: Global,
        node: Lent<'_, Link>,
        bytes: &Buffer,
        replies: &Replies<u32, Missing>,
        uses: &mut Vec<Use>,
    ) -> Result<Next<Link, Reply>, AllocError>
        ensures step { IfOk result (λ step. step ≡ (spec.chain_meaning).follow bytes.now node.entry replies.now) }
        ensures uses { OnOk result (uses.new.items ≡ uses.old.items ++ (spec.chain_meaning).added bytes.now node.entry replies.now) }
        ensures refused { OnErr result (IsAddedTo uses.old.items uses.new.items) }
    {
        uses.push(Use::Size)?;
        let size = bytes.len();
        Ok(linked(*node.node(), size as u32, replies))
    }

    fn copy_answer(
        &self,
        _alloc: Global,
        answer: Result<&u32, &Missing>,
    ) -> Result<Reply, AllocError> {
        Ok(copied(answer))
    }

    fn may_fold(&self, _value: &u32) -> bool {
        false
    }

    fn fold(
        &self,
        _alloc: Global,
        _root: &Link,
        _value: &u32,
        _bytes: &Buffer,
        _asker: Option<&Link>,
    ) -> Result<Option<NoFold<Link, u32>>, AllocError> {
        Ok(None)
    }

    #[tactic(auto, using(ksv_memo::proofs::Unfolded::no_fold))]
    fn foldable(
        &self,
        _nodes: &NoFold<Link, u32>,
        _value: &u32,
        _bytes: &Buffer,
        _kept: u32,
        _sought: u32,
    ) -> u32 {
        0
    }

    ghost exact = { spec.same_if_equal };

    ghost lawful = { λ _. spec.chain_lawful };
}
