//! Rules that are refused memory at one of their calls: the engine keeps whole what was completed before, and goes on from there.
//!
//! Where the values are from: by hand. Of [`LINKED`] row 5 asks row 3, that row 2, that row 1 and that row 0, and then row 4, which asks row 0. So
//! its 12 calls are, by the number of the row that is called: 5 3 2 1 0 1 2 3 5 4 4 5. A row is completed by its last call, so the
//! rows are completed in the order of their numbers. The answer of the row that was asked is copied before that row is kept.
ghost use Rattle.std.specs.Prelude.{◌≡◌, ◌++◌, IfOk, OnOk, OnErr};
ghost use Rattle.ksv_memo_rules.specs.Meaning.{IsAddedTo, on};
ghost use Rattle.ksv_memo_rules.specs.Right.{IsRight};
ghost use Rattle.ksv_test_engine.specs.Rows.{rows_meaning};

use crate::edits::new_engine;
use crate::engine::{LINKED, rows};
use crate::plain::row;
use crate::samples::hashed::Hashed;
use crate::samples::row::{Missing, Reply, RowNumber};
use crate::samples::rows::Rows;
use ksv_bytes::{Buffer, Use};
use ksv_memo::{Answer, Engine, Lent, Next, Replies, Rules};
use ksv_memo_rules::NoFold;
use std::alloc::{AllocError, Global};
use std::cell::Cell;
use std::test::Fail;

/// Rows whose rules are refused memory once.
#[derive(Drop)]
struct Refusing {
    rows: Rows,
    /// How many calls of `next` come before the one that is refused.
    calls_left: Cell<u32>,
    /// How many copies of an answer come before the one that is refused.
    copies_left: Cell<u32>,
}

/// More calls than there are.
const NEVER: u32 = u32::MAX;

/// Whether it is this call that is refused.
fn is_refused(left: &Cell<u32>) -> bool {
    let now = left.get();
    left.set(now.wrapping_sub(1));
    now == 0
}

impl Rules for Refusing {
    ghost use Rattle.ksv_test_engine.specs.Rows.{rows_lawful, same_if_equal};

    type Node = RowNumber;

    type Places = Hashed<RowNumber>;

    type Value = u32;

    type Fault = Missing;

    type Fold = NoFold<RowNumber, u32>;

    ghost meaning = { λ rules. rows_meaning rules.rows.rows.items };

    fn next(
        &self,
        alloc: Global,
        node: Lent<'_, RowNumber>,
        bytes: &Buffer,
        replies: &Replies<u32, Missing>,
        uses: &mut Vec<Use>,
    ) -> Result<Next<RowNumber, Reply>, AllocError>
        ensures step { IfOk result (λ step. step ≡ (rows_meaning self.now.rows.rows.items).follow bytes.now node.entry replies.now) }
        ensures uses { OnOk result (uses.new.items ≡ uses.old.items ++ (rows_meaning self.now.rows.rows.items).added bytes.now node.entry replies.now) }
        ensures refused { OnErr result (IsAddedTo uses.old.items uses.new.items) }
    {
        if is_refused(&self.calls_left) {
            return Err(AllocError);
        }
        self.rows.next(alloc, node, bytes, replies, uses)
    }

    fn copy_answer(
        &self,
        alloc: Global,
        answer: Result<&u32, &Missing>,
    ) -> Result<Reply, AllocError> {
        if is_refused(&self.copies_left) {
            return Err(AllocError);
        }
        self.rows.copy_answer(alloc, answer)
    }

    fn may_fold(&self, _value: &u32) -> bool {
        false
    }

    fn fold(
        &self,
        _alloc: Global,
        _root: &RowNumber,
        _value: &u32,
        _bytes: &Buffer,
        _asker: Option<&RowNumber>,
    ) -> Result<Option<NoFold<RowNumber, u32>>, AllocError> {
        Ok(None)
    }

    #[tactic(auto, using(ksv_memo::proofs::Unfolded::no_fold))]
    fn foldable(
        &self,
        _nodes: &NoFold<RowNumber, u32>,
        _value: &u32,
        _bytes: &Buffer,
        _kept: u32,
        _sought: u32,
    ) -> u32 {
        0
    }

    ghost exact = { same_if_equal };

    ghost lawful = { λ rules. rows_lawful rules.rows.rows.items };
}

/// What an engine tells of a row in a question of its own.
#[derive(Clone, Copy, PartialEq, Eq)]
enum Told {
    /// That it answers this number, after this many turns.
    Number(u32, Option<u64>),
    /// That memory was refused, and this many turns.
    Refused(Option<u64>),
    /// Anything else.
    Other,
}

/// What an engine tells of the row of a number.
fn answer_of(engine: &mut Engine<Refusing>, rules: &Refusing, bytes: &Buffer, number: u8) -> Told
    requires { IsRight (on (rows_meaning rules.now.rows.rows.items) bytes.now) engine.old.kept }
    ensures { IsRight (on (rows_meaning rules.now.rows.rows.items) bytes.now) engine.new.kept }
{
    engine.begin();
    match engine.ask(rules, bytes, row(number)) {
        Ok(Answer::Value(value)) => Told::Number(value, engine.turns()),
        Ok(_) => Told::Other,
        Err(_) => Told::Refused(engine.turns()),
    }
}

/// How many turns a row of [`LINKED`] takes where the rows before it are kept.
fn turns_of(number: u8) -> u64 {
    match number {
        0 => 1,
        5 => 3,
        _ => 2,
    }
}

/// Whether an engine keeps the first rows, this many of them, which take no turn, and each row after them takes its own turns alone.
fn are_whole(engine: &mut Engine<Refusing>, rules: &Refusing, bytes: &Buffer, kept: usize) -> bool
    requires { IsRight (on (rows_meaning rules.now.rows.rows.items) bytes.now) engine.old.kept }
{
    let mut are_whole = engine.kept() == kept;
    for number in 0..6u8 {
        let turns = if (number as usize) < kept {
            0
        } else {
            turns_of(number)
        };
        let value = if number == 5 { 14 } else { 7 };
        are_whole &= answer_of(engine, rules, bytes, number) == Told::Number(value, Some(turns));
    }
    are_whole
}

/// Whether a question for row 5 is refused memory, after which this many rows are kept whole; before it come as many that aren't.
fn is_left(
    engine: &mut Engine<Refusing>,
    rules: &Refusing,
    bytes: &Buffer,
    before: usize,
    kept: usize,
) -> bool
    requires { IsRight (on (rows_meaning rules.now.rows.rows.items) bytes.now) engine.old.kept }
{
    let mut is_left = true;
    for _ in 0..before {
        is_left &= matches!(answer_of(engine, rules, bytes, 5), Told::Number(14, _));
    }
    is_left &= answer_of(engine, rules, bytes, 5) == Told::Refused(None);
    is_left && are_whole(engine, rules, bytes, kept)
}

/// Which calls are refused, how many questions come before, and how many rows are kept then.
#[derive(Clone, Copy)]
struct Refusal {
    calls: u32,
    copies: u32,
    before: usize,
    kept: usize,
}

/// The same of a new engine.
fn is_newly_left(alloc: Global, refusal: Refusal) -> Result<bool, Fail> {
    let rules = Refusing {
        rows: rows(alloc, &LINKED)?,
        calls_left: Cell::new(refusal.calls),
        copies_left: Cell::new(refusal.copies),
    };
    let bytes = Buffer::new(vec![in alloc; 0u8; 2]?)?;
    let mut engine = new_engine(alloc, &rules, &bytes);
    let is_left = is_left(&mut engine, &rules, &bytes, refusal.before, refusal.kept);
    drop(engine);
    drop(bytes);
    drop(rules);
    Ok(is_left)
}

/// How many rows are kept where the first call is refused, where the second is, and so on.
const KEPT: [usize; 12] = [0, 0, 0, 0, 0, 1, 2, 3, 4, 4, 4, 5];

#[test]
fn a_refused_call_leaves_what_was_completed(rt: HostRuntime) -> Result<(), Fail> {
    for (calls, kept) in (0u32..12).zip(KEPT) {
        let refusal = Refusal {
            calls,
            copies: NEVER,
            before: 0,
            kept,
        };
        let is_left = is_newly_left(rt.alloc(), refusal)?;
        assert!(rt; is_left, "call {calls}");
    }
    Ok(())
}

#[test]
fn a_refused_copy_leaves_what_was_completed(rt: HostRuntime) -> Result<(), Fail> {
    // The first copy, which is before row 5 is kept, and the second and third, where it is.
    for (copies, before, kept) in [(0, 0, 5), (1, 1, 6), (2, 2, 6)] {
        let refusal = Refusal {
            calls: NEVER,
            copies,
            before,
            kept,
        };
        let is_left = is_newly_left(rt.alloc(), refusal)?;
        assert!(rt; is_left, "copy {copies}");
    }
    Ok(())
}
