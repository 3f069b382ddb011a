//! Rows that depend on rows and on bytes.
ghost use Rattle.std.specs.Prelude.{◌≡◌, ◌<◌, ◌≤◌, ◌+◌, ◌-◌, ◌^◌, ◌++◌, min, nat_le, length, slice_get, slice_range, IfOk, OnOk, OnErr, IsSome, Some};
ghost use Rattle.std.specs.Option.{option_copied};
ghost use Rattle.ksv_bytes.specs.Edits.{file_limit};
ghost use Rattle.ksv_memo_rules.specs.Meaning.{IsAddedTo};
ghost use Rattle.ksv_test_engine.specs.Rows as spec;

use crate::samples::hashed::Hashed;
use crate::samples::row::{Missing, Reply, Row, RowNumber, copied};
use ksv_bytes::{Buffer, Use, Window};
use ksv_memo_rules::{Lent, Next, NoFold, Replies, Rules};
use std::alloc::{AllocError, Global};

/// Rows, each asked by its number.
#[derive(Drop)]
pub struct Rows {
    /// The rows from number 0 on.
    pub rows: Vec<Row>,
}

/// The sum of the replies, or the first that is missing.
#[tactic(auto, using(crate::proofs::Totals::total_number, crate::proofs::Totals::total_fault, crate::proofs::Totals::total_past, crate::proofs::Totals::total_end))]
fn total(replies: &Replies<u32, Missing>) -> Reply
    ensures { result ≡ spec.total 0 replies.now }
{
    let mut so_far = 0u32;
    for place in 0..replies.len() {
        match replies.get(place) {
            Some(Ok(number)) => so_far = so_far.saturating_add(*number),
            Some(Err(missing)) => return Err(*missing),
            None => break,
        }
    }
    Ok(so_far)
}

/// What a sum does next.
fn summed(numbers: &[RowNumber], replies: &Replies<u32, Missing>) -> Next<RowNumber, Reply>
    ensures { result ≡ spec.summed numbers.now replies.now }
{
    match total(replies) {
        Err(missing) => Next::Done(Err(missing)),
        Ok(sum) => match numbers.get(replies.len()) {
            Some(number) => Next::Need(*number),
            None => Next::Done(Ok(sum)),
        },
    }
}

/// The byte at a place.
pub(crate) fn byte_at(bytes: &Buffer, place: u32) -> Option<u8>
    ensures value { result ≡ slice_get bytes.now place }
    ensures within { IsSome result → place < file_limit }
{
    let from = place as usize;
    if from >= bytes.len() {
        return None;
    }
    let (front, back) = bytes.parts(Window { from, to: from + 1 });
    match front {
        [byte, ..] => Some(*byte),
        [] => back.first().copied(),
    }
}

/// The row that a byte names.
fn row_number(byte: u8) -> RowNumber
    ensures { result ≡ spec.row_number byte }
{
    RowNumber { number: byte }
}

/// What a row that a byte names does next. The byte is read only in its first call.
fn named(
    place: u32,
    bytes: &Buffer,
    replies: &Replies<u32, Missing>,
    uses: &mut Vec<Use>,
) -> Result<Next<RowNumber, Reply>, AllocError>
    ensures step { IfOk result (λ step. step ≡ spec.named bytes.now place replies.now) }
    ensures uses { OnOk result (uses.new.items ≡ uses.old.items ++ spec.named_uses bytes.now place replies.now) }
    ensures refused { OnErr result (uses.new.items ≡ uses.old.items) }
{
    if let Some(reply) = replies.get(0) {
        return Ok(Next::Done(copied(reply)));
    }
    match byte_at(bytes, place) {
        None => {
            uses.push(Use::Size)?;
            Ok(Next::Done(Err(Missing)))
        }
        Some(byte) => {
            uses.push(Use::Bytes(place, place + 1))?;
            Ok(Next::Need(row_number(byte)))
        }
    }
}

/// What a row of whether the file reaches a place does next.
fn reaching(
    place: u32,
    bytes: &Buffer,
    uses: &mut Vec<Use>,
) -> Result<Next<RowNumber, Reply>, AllocError>
    ensures step { IfOk result (λ step. step ≡ spec.reached (nat_le place (length bytes.now))) }
    ensures uses { OnOk result (uses.new.items ≡ uses.old.items ++ spec.reach_uses place (nat_le place (length bytes.now))) }
    ensures refused { OnErr result (uses.new.items ≡ uses.old.items) }
{
    if place as usize <= bytes.len() {
        uses.push(Use::Reach(place))?;
        Ok(Next::Done(Ok(1)))
    } else {
        uses.push(Use::Size)?;
        Ok(Next::Done(Err(Missing)))
    }
}

/// The row of a number, if there is one.
fn row_at(rows: &[Row], number: usize) -> Option<&Row>
    ensures { option_copied result ≡ slice_get rows.now number }
{
    rows.get(number)
}

/// What a row does next.
fn row_next(
    row: &Row,
    bytes: &Buffer,
    replies: &Replies<u32, Missing>,
    uses: &mut Vec<Use>,
) -> Result<Next<RowNumber, Reply>, AllocError>
    ensures step { IfOk result (λ step. step ≡ spec.row_next bytes.now replies.now (Some row.now)) }
    ensures uses { OnOk result (uses.new.items ≡ uses.old.items ++ spec.row_uses bytes.now replies.now (Some row.now)) }
    ensures refused { OnErr result (uses.new.items ≡ uses.old.items) }
{
    match row {
        Row::Number(number) => Ok(Next::Done(Ok(*number))),
        Row::Sum(numbers) => Ok(summed(numbers.as_slice(), replies)),
        Row::Named(place) => named(*place, bytes, replies, uses),
        Row::Reaching(place) => reaching(*place, bytes, uses),
    }
}

impl Rules for Rows {
    type Node = RowNumber;

    type Places = Hashed<RowNumber>;

    type Value = u32;

    type Fault = Missing;

    type Fold = NoFold<RowNumber, u32>;

    ghost meaning = { λ rules. spec.rows_meaning rules.rows.items };

    fn next(
        &self,
        _alloc: Global,
        node: Lent<'_, RowNumber>,
        bytes: &Buffer,
        replies: &Replies<u32, Missing>,
        uses: &mut Vec<Use>,
    ) -> Result<Next<RowNumber, Reply>, AllocError>
        ensures step { IfOk result (λ step. step ≡ (spec.rows_meaning self.now.rows.items).follow bytes.now node.entry replies.now) }
        ensures uses { OnOk result (uses.new.items ≡ uses.old.items ++ (spec.rows_meaning self.now.rows.items).added bytes.now node.entry replies.now) }
        ensures refused { OnErr result (IsAddedTo uses.old.items uses.new.items) }
    {
        match row_at(self.rows.as_slice(), node.node().number as usize) {
            None => Ok(Next::Done(Err(Missing))),
            Some(row) => row_next(row, bytes, replies, uses),
        }
    }

    fn copy_answer(
        &self,
        _alloc: Global,
        answer: Result<&u32, &Missing>,
    ) -> Result<Reply, AllocError> {
        Ok(copied(answer))
    }

    fn may_fold(&self, _value: &u32) -> bool {
        false
    }

    fn fold(
        &self,
        _alloc: Global,
        _root: &RowNumber,
        _value: &u32,
        _bytes: &Buffer,
        _asker: Option<&RowNumber>,
    ) -> Result<Option<NoFold<RowNumber, u32>>, AllocError> {
        Ok(None)
    }

    #[tactic(auto, using(ksv_memo::proofs::Unfolded::no_fold))]
    fn foldable(
        &self,
        _nodes: &NoFold<RowNumber, u32>,
        _value: &u32,
        _bytes: &Buffer,
        _kept: u32,
        _sought: u32,
    ) -> u32 {
        0
    }

    ghost exact = { spec.same_if_equal };

    ghost lawful = { λ rules. spec.rows_lawful rules.rows.items };
}
