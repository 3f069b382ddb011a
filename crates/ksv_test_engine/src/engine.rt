//! The engine with a small set of rules: worked questions, what edits take from what is kept, and how many looks that
//! takes.
//!
//! Where the values are from: by hand, from the rows that the tables below tell. A row's call is counted once for itself and once
//! more for each row that it asks, kept or not; a row is run once while it is kept. What an edit takes is the rows that read a byte
//! that it touches, and all that asked them. The most looks are 8 times what is near: pages met, uses that meet them, rows that go,
//! their asks, and the pages of their uses; the fewest are the rows that go.
ghost use Rattle.std.specs.Prelude.{◌≡◌};
ghost use Rattle.ksv_memo_rules.specs.Meaning.{on};
ghost use Rattle.ksv_memo_rules.specs.Right.{IsRight};
ghost use Rattle.ksv_test_engine.specs.Rows.{rows_meaning};

use crate::edits::{append, begin, delete, insert, new_engine, overwrite};
use crate::plain::{Plain, answers, row};
use crate::samples::row::Row;
use crate::samples::rows::Rows;
use ksv_bytes::{Buffer, Change};
use ksv_memo::Engine;
use ksv_memo::laws::{edits_leave_untouched_nodes, untouched_answers_stay_right};
use std::alloc::{AllocError, Global};
use std::test::Fail;

/// Rows with sums over kept rows, a row named by a byte, a circle of two rows, and a sum of a row that isn't there. Each
/// is a letter, for a number, a sum or the name by a byte, and its numbers.
static ROWS: [&[u8]; 6] = [
    b"n\x07",
    b"s\x00\x02",
    b"b\x00",
    b"s\x01\x04",
    b"s\x00\x03",
    b"s\x00\x09\x01",
];

/// Rows of which none depends on itself, in the same letters. Row 1 is named by byte 0; rows 2 and 3 follow from it;
/// row 4 is named by byte 1; row 5 is the sum of rows 3 and 4.
pub(crate) static LINKED: [&[u8]; 6] = [
    b"n\x07",
    b"b\x00",
    b"s\x01",
    b"s\x02",
    b"b\x01",
    b"s\x03\x04",
];

/// Rows of which one is the sum of another and the same again, in the same letters. Row 1 is named by byte 0; row 2 is
/// twice row 1.
static DOUBLED: [&[u8]; 3] = [b"n\x07", b"b\x00", b"s\x01\x01"];

/// The rows that these tell.
pub(crate) fn rows(alloc: Global, told: &[&[u8]]) -> Result<Rows, AllocError> {
    let mut rows = Vec::new(alloc);
    for one in told {
        rows.push(told_row(alloc, one)?)?;
    }
    Ok(Rows { rows })
}

/// The row that one of [`ROWS`], [`LINKED`] or [`DOUBLED`] tells.
fn told_row(alloc: Global, told: &[u8]) -> Result<Row, AllocError> {
    let Some((letter, numbers)) = told.split_first() else {
        return told_sum(alloc, told);
    };
    let number = match numbers.first() {
        Some(number) => u32::from(*number),
        None => 0,
    };
    match *letter {
        b'n' => Ok(Row::Number(number)),
        b'b' => Ok(Row::Named(number)),
        _ => told_sum(alloc, numbers),
    }
}

/// The sum of the rows of these numbers.
fn told_sum(alloc: Global, told: &[u8]) -> Result<Row, AllocError> {
    let mut numbers = Vec::new(alloc);
    for number in told {
        numbers.push(row(*number))?;
    }
    Ok(Row::Sum(numbers))
}

/// Whether an engine has kept this many nodes and counted these turns.
fn counts(engine: &Engine<Rows>, kept: usize, turns: Option<u64>) -> bool {
    engine.kept() == kept && engine.turns() == turns
}

/// Asks the same row twice: row 0 takes a call, row 2 two and row 1 three.
fn keeps_answers(
    engine: &mut Engine<Rows>,
    rules: &Rows,
    bytes: &Buffer,
) -> Result<bool, AllocError>
    requires { IsRight (on (rows_meaning rules.now.rows.items) bytes.now) engine.old.kept }
{
    let is_new = counts(engine, 0, Some(0));
    let is_sum = answers(engine, rules, bytes, 1, Plain::Value(14))?;
    let is_counted = counts(engine, 3, Some(6));
    let is_same = answers(engine, rules, bytes, 1, Plain::Value(14))?;
    Ok(is_new && is_sum && is_counted && is_same && counts(engine, 3, Some(6)))
}

/// Asks two questions and forgets what an append touches, which is nothing: no row reads the size. Row 9 isn't there and
/// takes a call; row 5 asks row 0, which is kept, and row 9.
fn counts_and_forgets(
    engine: &mut Engine<Rows>,
    rules: &Rows,
    bytes: &Buffer,
) -> Result<bool, AllocError>
    requires { IsRight (on (rows_meaning rules.now.rows.items) bytes.now) engine.old.kept }
{
    let is_sum = answers(engine, rules, bytes, 1, Plain::Value(14))?;
    begin(engine, rules, bytes);
    let is_begun = counts(engine, 3, Some(0));
    let is_fault = answers(engine, rules, bytes, 5, Plain::Missing)?;
    let is_counted = counts(engine, 5, Some(4));
    engine.forget(Change::Append);
    untouched_answers_stay_right(rules, Change::Append);
    edits_leave_untouched_nodes(rules, Change::Append);
    Ok(is_sum && is_begun && is_fault && is_counted && counts(engine, 5, Some(4)))
}

/// Asks two rows that depend on each other, one after the other. The rows that were completed on the way are kept.
fn ends_around(
    engine: &mut Engine<Rows>,
    rules: &Rows,
    bytes: &Buffer,
    first: u8,
    second: u8,
) -> Result<bool, AllocError>
    requires { IsRight (on (rows_meaning rules.now.rows.items) bytes.now) engine.old.kept }
{
    let is_circle = answers(engine, rules, bytes, first, Plain::Circle(first))?;
    let is_other = answers(engine, rules, bytes, second, Plain::Circle(second))?;
    let is_uncounted = counts(engine, 3, None);
    begin(engine, rules, bytes);
    Ok(is_circle && is_other && is_uncounted && counts(engine, 3, Some(0)))
}

/// What is tried with some rows and a new engine.
#[derive(Clone, Copy)]
enum Trial {
    /// The same question twice.
    Twice,
    /// Two questions, of which the second is counted from 0, and then an edit that touches nothing.
    Forgets,
    /// Two rows that depend on each other, in this order.
    Around(u8, u8),
    /// A question, an edit and the same question.
    Leaves(Leaving),
    /// An overwrite of the byte in this place, and the fewest and most looks that it takes.
    Looks(usize, u64, u64),
    /// Edits after each other, each with a question.
    Refills,
}

/// Whether a trial ends as it should.
fn is_tried(
    engine: &mut Engine<Rows>,
    rules: &Rows,
    bytes: &mut Buffer,
    trial: Trial,
) -> Result<bool, AllocError>
    requires { IsRight (on (rows_meaning rules.now.rows.items) bytes.old) engine.old.kept }
{
    match trial {
        Trial::Twice => keeps_answers(engine, rules, bytes),
        Trial::Forgets => counts_and_forgets(engine, rules, bytes),
        Trial::Around(first, second) => ends_around(engine, rules, bytes, first, second),
        Trial::Leaves(leaving) => leaves(engine, rules, bytes, leaving),
        Trial::Looks(place, least, most) => looks(engine, rules, bytes, place, least, most),
        Trial::Refills => fills_slots_again(engine, rules, bytes),
    }
}

/// The same with a new engine.
fn is_newly_tried(
    alloc: Global,
    rules: &Rows,
    bytes: &mut Buffer,
    trial: Trial,
) -> Result<bool, AllocError> {
    let mut engine = new_engine(alloc, rules, bytes);
    let is_right = is_tried(&mut engine, rules, bytes, trial);
    drop(engine);
    is_right
}

/// The same over the rows that are told and a file of this many zero bytes.
fn ends_well(alloc: Global, told: &[&[u8]], size: usize, trial: Trial) -> Result<bool, Fail> {
    let rules = rows(alloc, told)?;
    let mut bytes = Buffer::new(vec![in alloc; 0u8; size]?)?;
    let is_right = is_newly_tried(alloc, &rules, &mut bytes, trial);
    drop(bytes);
    drop(rules);
    Ok(is_right?)
}

#[test]
fn answers_rows_and_keeps_them(rt: HostRuntime) -> Result<(), Fail> {
    let is_right = ends_well(rt.alloc(), &ROWS, 1, Trial::Twice)?;
    assert!(rt; is_right);
    Ok(())
}

#[test]
fn counts_each_question_and_forgets(rt: HostRuntime) -> Result<(), Fail> {
    let is_right = ends_well(rt.alloc(), &ROWS, 1, Trial::Forgets)?;
    assert!(rt; is_right);
    Ok(())
}

#[test]
fn ends_at_a_circle_and_keeps_what_was_completed(rt: HostRuntime) -> Result<(), Fail> {
    let is_right = ends_well(rt.alloc(), &ROWS, 1, Trial::Around(3, 4))?;
    let is_other = ends_well(rt.alloc(), &ROWS, 1, Trial::Around(4, 3))?;
    assert!(rt; is_right && is_other);
    Ok(())
}

/// An edit of two bytes that name row 0.
#[derive(Clone, Copy)]
enum Edit {
    /// Another byte in this place, which names row 0 too.
    At(usize),
    /// A byte after the last one.
    After,
    /// A byte before the second one.
    Between,
    /// None in place of the second one.
    Without,
}

/// Makes an edit, and tells the engine.
fn make_edit(engine: &mut Engine<Rows>, rules: &Rows, bytes: &mut Buffer, edit: Edit)
    requires { IsRight (on (rows_meaning rules.now.rows.items) bytes.old) engine.old.kept }
    ensures { IsRight (on (rows_meaning rules.now.rows.items) bytes.new) engine.new.kept }
{
    match edit {
        Edit::At(place) => overwrite(engine, rules, bytes, place, b"\0"),
        Edit::After => append(engine, rules, bytes, b"\0"),
        Edit::Between => insert(engine, rules, bytes, 1, b"\0"),
        Edit::Without => delete(engine, rules, bytes, 1, 1),
    }
}

/// A row that answers 14, and how many rows and turns this takes.
#[derive(Clone, Copy)]
struct Asked {
    number: u8,
    kept: usize,
    turns: u64,
}

/// The last row of [`LINKED`].
const LAST: Asked = Asked {
    number: 5,
    kept: 6,
    turns: 12,
};

/// The last row of [`DOUBLED`]: three turns for itself, two for row 1 and one for row 0.
const TWICE: Asked = Asked {
    number: 2,
    kept: 3,
    turns: 6,
};

/// What an edit leaves of the rows that a question keeps, and how many turns the same question takes then.
#[derive(Clone, Copy)]
struct Leaving {
    asked: Asked,
    edited: Edit,
    kept: usize,
    turns: u64,
}

/// Whether this many of the rows that a question keeps are kept after an edit, and the next question takes this many turns.
fn leaves(
    engine: &mut Engine<Rows>,
    rules: &Rows,
    bytes: &mut Buffer,
    leaving: Leaving,
) -> Result<bool, AllocError>
    requires { IsRight (on (rows_meaning rules.now.rows.items) bytes.old) engine.old.kept }
{
    let Leaving {
        asked,
        edited,
        kept,
        turns,
    } = leaving;
    let is_sum = answers(engine, rules, bytes, asked.number, Plain::Value(14))?;
    let is_counted = counts(engine, asked.kept, Some(asked.turns));
    make_edit(engine, rules, bytes, edited);
    let is_left = counts(engine, kept, Some(asked.turns));
    begin(engine, rules, bytes);
    let is_same = answers(engine, rules, bytes, asked.number, Plain::Value(14))?;
    Ok(is_sum && is_counted && is_left && is_same && counts(engine, asked.kept, Some(turns)))
}

/// What an edit leaves of the rows of a question, in these numbers.
const fn after(asked: Asked, edited: Edit, kept: usize, turns: u64) -> Trial {
    Trial::Leaves(Leaving {
        asked,
        edited,
        kept,
        turns,
    })
}

#[test]
fn forgets_a_row_and_its_users_alone(rt: HostRuntime) -> Result<(), Fail> {
    // Row 4 and row 5, and then rows 1, 2, 3 and 5.
    let is_last = ends_well(rt.alloc(), &LINKED, 2, after(LAST, Edit::At(1), 4, 5))?;
    let is_first = ends_well(rt.alloc(), &LINKED, 2, after(LAST, Edit::At(0), 2, 9))?;
    let is_between = ends_well(rt.alloc(), &LINKED, 2, after(LAST, Edit::Between, 4, 5))?;
    assert!(rt; is_last && is_first && is_between);
    Ok(())
}

#[test]
fn forgets_nothing_that_an_edit_leaves_alone(rt: HostRuntime) -> Result<(), Fail> {
    let is_right = ends_well(rt.alloc(), &LINKED, 2, after(LAST, Edit::After, 6, 0))?;
    assert!(rt; is_right);
    Ok(())
}

#[test]
fn forgets_a_row_that_asks_another_twice(rt: HostRuntime) -> Result<(), Fail> {
    // Nothing, and then rows 1 and 2.
    let is_beside = ends_well(rt.alloc(), &DOUBLED, 2, after(TWICE, Edit::At(1), 3, 0))?;
    let is_both = ends_well(rt.alloc(), &DOUBLED, 2, after(TWICE, Edit::At(0), 1, 5))?;
    assert!(rt; is_beside && is_both);
    Ok(())
}

/// Whether an overwrite of the byte in a place, after the last row of [`DOUBLED`] was asked, takes at least this many looks
/// and no more than this many.
fn looks(
    engine: &mut Engine<Rows>,
    rules: &Rows,
    bytes: &mut Buffer,
    place: usize,
    least: u64,
    most: u64,
) -> Result<bool, AllocError>
    requires { IsRight (on (rows_meaning rules.now.rows.items) bytes.old) engine.old.kept }
{
    let is_none = engine.looked() == 0;
    let is_sum = answers(engine, rules, bytes, TWICE.number, Plain::Value(14))?;
    make_edit(engine, rules, bytes, Edit::At(place));
    let looked = engine.looked();
    Ok(is_none && is_sum && least <= looked && looked <= most)
}

#[test]
fn looks_near_an_overwrite_alone(rt: HostRuntime) -> Result<(), Fail> {
    // The page and the use that meets it, and then with them two rows, three asks and the page of a use.
    let is_beside = ends_well(rt.alloc(), &DOUBLED, 2, Trial::Looks(1, 0, 8 * 2))?;
    let is_both = ends_well(
        rt.alloc(),
        &DOUBLED,
        2,
        Trial::Looks(0, 2, 8 * (2 + 2 + 3 + 1)),
    )?;
    assert!(rt; is_beside && is_both);
    Ok(())
}

/// Whether, after an edit, this many rows of [`LINKED`] are kept, and then all of them once the last row was asked again.
fn refills(
    engine: &mut Engine<Rows>,
    rules: &Rows,
    bytes: &mut Buffer,
    edited: Edit,
    kept: usize,
) -> Result<bool, AllocError>
    requires { IsRight (on (rows_meaning rules.now.rows.items) bytes.old) engine.old.kept }
    ensures { IsRight (on (rows_meaning rules.now.rows.items) bytes.new) engine.new.kept }
{
    make_edit(engine, rules, bytes, edited);
    let is_left = engine.kept() == kept;
    let is_sum = answers(engine, rules, bytes, LAST.number, Plain::Value(14))?;
    Ok(is_sum && is_left && engine.kept() == LAST.kept)
}

/// Whether rows are taken and asked again: by an insert, a delete, and overwrites of both bytes. The last one takes rows 1,
/// 2, 3 and 5 with no more looks than near: a page and the two uses of it, four rows, five asks and the page of a use.
fn fills_slots(
    engine: &mut Engine<Rows>,
    rules: &Rows,
    bytes: &mut Buffer,
) -> Result<bool, AllocError>
    requires { IsRight (on (rows_meaning rules.now.rows.items) bytes.old) engine.old.kept }
    ensures { IsRight (on (rows_meaning rules.now.rows.items) bytes.new) engine.new.kept }
{
    let is_put = refills(engine, rules, bytes, Edit::Between, 4)?;
    let is_cut = refills(engine, rules, bytes, Edit::Without, 4)?;
    let is_last = refills(engine, rules, bytes, Edit::At(1), 4)?;
    let is_first = refills(engine, rules, bytes, Edit::At(0), 2)?;
    let looked = engine.looked();
    let is_near = 4 <= looked && looked <= 8 * (1 + 2 + 4 + 5 + 1);
    Ok(is_put && is_cut && is_last && is_first && is_near)
}

/// The same 20 times.
fn fills_slots_again(
    engine: &mut Engine<Rows>,
    rules: &Rows,
    bytes: &mut Buffer,
) -> Result<bool, AllocError>
    requires { IsRight (on (rows_meaning rules.now.rows.items) bytes.old) engine.old.kept }
{
    let mut is_right = answers(engine, rules, bytes, LAST.number, Plain::Value(14))?;
    for _ in 0..20 {
        is_right &= fills_slots(engine, rules, bytes)?;
    }
    Ok(is_right)
}

#[test]
fn fills_slots_again_after_inserts_and_deletes(rt: HostRuntime) -> Result<(), Fail> {
    let is_right = ends_well(rt.alloc(), &LINKED, 2, Trial::Refills)?;
    assert!(rt; is_right);
    Ok(())
}
