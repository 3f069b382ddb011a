//! Sums of the first bytes of a file, each of which asks the one before it.
ghost use Rattle.std.specs.Prelude.{◌≡◌, ◌-◌, ◌++◌, slice_get, IfOk, OnOk, OnErr};
ghost use Rattle.ksv_memo_rules.specs.Meaning.{IsAddedTo};
ghost use Rattle.ksv_test_engine.specs.Chain.{same_if_equal};
ghost use Rattle.ksv_test_engine.specs.Rows.{read_uses};
ghost use Rattle.ksv_test_engine.specs.Sums as spec;

use crate::samples::chain::link_before;
use crate::samples::hashed::Hashed;
use crate::samples::link::Link;
use crate::samples::row::{Missing, Reply, copied};
use crate::samples::rows::byte_at;
use crate::samples::sum_folds::{so_far, summed};
use crate::samples::sum_list::SumList;
use ksv_bytes::{Buffer, Use};
use ksv_memo_rules::{Lent, Next, NoFold, Replies, Rules};
use std::alloc::{AllocError, Global};

/// Sums: link 0 answers 0, and each other link what the one before it answers and the byte of that one's number; its byte is missing where it is 255, or isn't
/// there, and the next sum begins anew. So link n answers the sum of the bytes before place n from the last 255 on, at most the largest number. An engine can
/// keep all but link 0 by their numbers alone, where their bytes are there, those too that answer that a byte is missing.
#[derive(Drop)]
pub struct Sums;

/// The same sums, of which an engine has a slot for each.
#[derive(Drop)]
pub struct SlottedSums;

/// A sum with the byte at a place, which is behind what it is of, if it isn't missing.
fn with_byte(sum: u32, place: u32, bytes: &Buffer, uses: &mut Vec<Use>) -> Result<Reply, AllocError>
    ensures reply { IfOk result (λ reply. reply ≡ spec.with_byte sum (slice_get bytes.now place)) }
    ensures uses { OnOk result (uses.new.items ≡ uses.old.items ++ read_uses place (slice_get bytes.now place)) }
    ensures refused { OnErr result (uses.new.items ≡ uses.old.items) }
{
    match byte_at(bytes, place) {
        None => {
            uses.push(Use::Size)?;
            Ok(Err(Missing))
        }
        Some(byte) => {
            uses.push(Use::Bytes(place, place + 1))?;
            Ok(summed(sum, byte))
        }
    }
}

/// What a link does next.
fn next_of(
    link: Link,
    bytes: &Buffer,
    replies: &Replies<u32, Missing>,
    uses: &mut Vec<Use>,
) -> Result<Next<Link, Reply>, AllocError>
    ensures step { IfOk result (λ step. step ≡ (spec.sums_meaning).follow bytes.now link replies.now) }
    ensures uses { OnOk result (uses.new.items ≡ uses.old.items ++ (spec.sums_meaning).added bytes.now link replies.now) }
    ensures refused { OnErr result (uses.new.items ≡ uses.old.items) }
{
    match replies.get(0) {
        None if link.number == 0 => Ok(Next::Done(Ok(0))),
        None => Ok(Next::Need(link_before(link))),
        Some(before) => {
            let place = link.number.saturating_sub(1);
            let sum = so_far(copied(before));
            Ok(Next::Done(with_byte(sum, place, bytes, uses)?))
        }
    }
}

impl Rules for Sums {
    type Node = Link;

    type Places = Hashed<Link>;

    type Value = u32;

    type Fault = Missing;

    type Fold = SumList;

    ghost meaning = { λ _. spec.sums_meaning };

    fn next(
        &self,
        _alloc: Global,
        node: Lent<'_, Link>,
        bytes: &Buffer,
        replies: &Replies<u32, Missing>,
        uses: &mut Vec<Use>,
    ) -> Result<Next<Link, Reply>, AllocError>
        ensures step { IfOk result (λ step. step ≡ (spec.sums_meaning).follow bytes.now node.entry replies.now) }
        ensures uses { OnOk result (uses.new.items ≡ uses.old.items ++ (spec.sums_meaning).added bytes.now node.entry replies.now) }
        ensures refused { OnErr result (IsAddedTo uses.old.items uses.new.items) }
    {
        next_of(*node.node(), bytes, replies, uses)
    }

    fn copy_answer(
        &self,
        _alloc: Global,
        answer: Result<&u32, &Missing>,
    ) -> Result<Reply, AllocError> {
        Ok(copied(answer))
    }

    fn may_fold(&self, value: &u32) -> bool {
        *value == 0
    }

    fn fold(
        &self,
        alloc: Global,
        root: &Link,
        _value: &u32,
        bytes: &Buffer,
        _asker: Option<&Link>,
    ) -> Result<Option<SumList>, AllocError> {
        SumList::of(alloc, root, bytes)
    }

    fn foldable(
        &self,
        nodes: &SumList,
        _value: &u32,
        bytes: &Buffer,
        kept: u32,
        sought: u32,
    ) -> u32 {
        nodes.count_in(bytes, kept, sought)
    }

    ghost exact = { same_if_equal };

    ghost lawful = { λ _. spec.sums_lawful };
}

impl Rules for SlottedSums {
    type Node = Link;

    type Places = Hashed<Link>;

    type Value = u32;

    type Fault = Missing;

    type Fold = NoFold<Link, u32>;

    ghost meaning = { λ _. spec.sums_meaning };

    fn next(
        &self,
        _alloc: Global,
        node: Lent<'_, Link>,
        bytes: &Buffer,
        replies: &Replies<u32, Missing>,
        uses: &mut Vec<Use>,
    ) -> Result<Next<Link, Reply>, AllocError>
        ensures step { IfOk result (λ step. step ≡ (spec.sums_meaning).follow bytes.now node.entry replies.now) }
        ensures uses { OnOk result (uses.new.items ≡ uses.old.items ++ (spec.sums_meaning).added bytes.now node.entry replies.now) }
        ensures refused { OnErr result (IsAddedTo uses.old.items uses.new.items) }
    {
        next_of(*node.node(), bytes, replies, uses)
    }

    fn copy_answer(
        &self,
        _alloc: Global,
        answer: Result<&u32, &Missing>,
    ) -> Result<Reply, AllocError> {
        Ok(copied(answer))
    }

    fn may_fold(&self, _value: &u32) -> bool {
        false
    }

    fn fold(
        &self,
        _alloc: Global,
        _root: &Link,
        _value: &u32,
        _bytes: &Buffer,
        _asker: Option<&Link>,
    ) -> Result<Option<NoFold<Link, u32>>, AllocError> {
        Ok(None)
    }

    #[tactic(auto, using(ksv_memo::proofs::Unfolded::no_fold))]
    fn foldable(
        &self,
        _nodes: &NoFold<Link, u32>,
        _value: &u32,
        _bytes: &Buffer,
        _kept: u32,
        _sought: u32,
    ) -> u32 {
        0
    }

    ghost exact = { same_if_equal };

    ghost lawful = { λ _. spec.sums_lawful };
}
