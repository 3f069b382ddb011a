//! Random questions about random rows between random edits, beside plain recursion and a plain pass.
//!
//! Where the values are from: `plainly` answers a row by recursion over the rows and the bytes, with no engine; `touched_of` says
//! which rows an overwrite takes by a pass over all of them, each with its whole tree. Neither calls the engine or its links. The
//! most looks are 8 times a bound of what is near: of each row that goes itself, up to three asks and a page of its use; a use of
//! each kept row; and a page.
ghost use Rattle.std.specs.Prelude.{◌≡◌, ◌<◌, ◌≤◌, ◌^◌, OnOk};
ghost use Rattle.ksv_memo_rules.specs.Meaning.{on};
ghost use Rattle.ksv_memo_rules.specs.Right.{IsRight};
ghost use Rattle.ksv_test_engine.specs.Rows.{rows_meaning};

use crate::edits::{append, delete, insert, new_engine, overwrite};
use crate::numbers::Random;
use crate::plain::{Plain, answers, row};
use crate::samples::row::Row;
use crate::samples::rows::Rows;
use ksv_bytes::{Buffer, Window};
use ksv_memo::Engine;
use std::alloc::{AllocError, Global};
use std::test::Fail;

/// The sum of up to three rows below a number.
fn random_sum(alloc: Global, random: &mut Random, bound: u8) -> Result<Row, AllocError>
    requires { 0 < bound }
{
    let mut numbers = Vec::new(alloc);
    for _ in 0..random.below(4) {
        numbers.push(row(random.below(bound)))?;
    }
    Ok(Row::Sum(numbers))
}

/// A number, a sum of up to three rows, a row that a byte names, or whether the file reaches a place; row 8 is never there.
fn random_row(alloc: Global, random: &mut Random) -> Result<Row, AllocError> {
    match random.below(5) {
        0 => Ok(Row::Number(u32::from(random.below(10)))),
        1 => Ok(Row::Named(u32::from(random.below(8)))),
        2 => Ok(Row::Reaching(u32::from(random.below(12)))),
        _ => random_sum(alloc, random, 9),
    }
}

fn random_rows(alloc: Global, random: &mut Random) -> Result<Rows, AllocError> {
    let mut rows = Vec::new(alloc);
    for _ in 0..8 {
        rows.push(random_row(alloc, random)?)?;
    }
    Ok(Rows { rows })
}

/// The bit of a row among those that are open.
fn bit_of(number: u8) -> u16 {
    1u16 << (number % 16)
}

/// What a row answers by plain recursion. `open` has a bit for each open row.
fn plainly(rows: &[Row], bytes: &[u8], open: u16, number: u8, depth: u8) -> Plain {
    let bit = bit_of(number);
    if depth == 0 || open & bit != 0 {
        return Plain::Circle(number);
    }
    let (open, depth) = (open | bit, depth - 1);
    match rows.get(number as usize) {
        None => Plain::Missing,
        Some(Row::Number(value)) => Plain::Value(*value),
        Some(Row::Named(place)) => match bytes.get(*place as usize) {
            None => Plain::Missing,
            Some(byte) => plainly(rows, bytes, open, *byte, depth),
        },
        Some(Row::Sum(numbers)) => {
            let mut sum = Plain::Value(0);
            for part in numbers {
                sum = sum.plus(plainly(rows, bytes, open, part.number, depth));
            }
            sum
        }
        Some(Row::Reaching(place)) => {
            if *place as usize <= bytes.len() {
                Plain::Value(1)
            } else {
                Plain::Missing
            }
        }
    }
}

fn random_edit(engine: &mut Engine<Rows>, rules: &Rows, bytes: &mut Buffer, random: &mut Random)
    requires { IsRight (on (rows_meaning rules.now.rows.items) bytes.old) engine.old.kept }
    ensures { IsRight (on (rows_meaning rules.now.rows.items) bytes.new) engine.new.kept }
{
    let new = [random.below(9)];
    let at = random.below(8) as usize;
    match random.below(4) {
        0 => overwrite(engine, rules, bytes, at, &new),
        1 => insert(engine, rules, bytes, at, &new),
        2 => delete(engine, rules, bytes, at, 1),
        _ => append(engine, rules, bytes, &new),
    }
}

/// All bytes of a buffer.
fn all_bytes(alloc: Global, bytes: &Buffer) -> Result<Vec<u8>, AllocError> {
    let (front, back) = bytes.parts(Window {
        from: 0,
        to: bytes.len(),
    });
    let mut all = Vec::from_slice(alloc, front)?;
    all.extend_from_slice(back)?;
    Ok(all)
}

/// What a row answers by plain recursion over the bytes of a buffer.
fn plain_answer(
    alloc: Global,
    rules: &Rows,
    bytes: &Buffer,
    number: u8,
) -> Result<Plain, AllocError> {
    let all = all_bytes(alloc, bytes)?;
    Ok(plainly(rules.rows.as_slice(), all.as_slice(), 0, number, 20))
}

/// Whether a new engine answers this to a row.
fn answers_anew(
    alloc: Global,
    rules: &Rows,
    bytes: &Buffer,
    number: u8,
    wanted: Plain,
) -> Result<bool, AllocError> {
    let mut fresh = new_engine(alloc, rules, bytes);
    let is_right = answers(&mut fresh, rules, bytes, number, wanted);
    drop(fresh);
    is_right
}

/// Asks a random row of an engine that has answered others before, of a new engine and by plain recursion.
fn random_question(
    alloc: Global,
    engine: &mut Engine<Rows>,
    rules: &Rows,
    bytes: &Buffer,
    random: &mut Random,
) -> Result<bool, AllocError>
    requires { IsRight (on (rows_meaning rules.now.rows.items) bytes.now) engine.old.kept }
    ensures { IsRight (on (rows_meaning rules.now.rows.items) bytes.now) engine.new.kept }
{
    let number = random.below(9);
    let plain = plain_answer(alloc, rules, bytes, number)?;
    let is_same = answers(engine, rules, bytes, number, plain)?;
    Ok(answers_anew(alloc, rules, bytes, number, plain)? && is_same)
}

/// Whether an engine answers 20 random questions as a new one and plain recursion do, with random edits between them.
fn random_questions(
    alloc: Global,
    engine: &mut Engine<Rows>,
    rules: &Rows,
    bytes: &mut Buffer,
    random: &mut Random,
) -> Result<bool, AllocError>
    requires { IsRight (on (rows_meaning rules.now.rows.items) bytes.old) engine.old.kept }
{
    let mut are_same = true;
    for _ in 0..20 {
        are_same &= random_question(alloc, engine, rules, bytes, random)?;
        if random.below(3) == 0 {
            random_edit(engine, rules, bytes, random);
        }
    }
    Ok(are_same)
}

/// The same of a new engine.
fn new_random_questions(
    alloc: Global,
    rules: &Rows,
    bytes: &mut Buffer,
    random: &mut Random,
) -> Result<bool, AllocError> {
    let mut engine = new_engine(alloc, rules, bytes);
    let are_same = random_questions(alloc, &mut engine, rules, bytes, random);
    drop(engine);
    are_same
}

/// A round of random questions over random rows and a file whose first byte depends on the round.
fn random_round(alloc: Global, round: u8, random: &mut Random) -> Result<bool, Fail> {
    let rules = random_rows(alloc, random)?;
    let mut bytes = Buffer::new(Vec::from_slice(alloc, &[round % 9, 1, 4])?)?;
    let are_same = new_random_questions(alloc, &rules, &mut bytes, random);
    drop(bytes);
    drop(rules);
    Ok(are_same?)
}

#[test]
fn answers_random_questions_between_edits_as_from_nothing(rt: HostRuntime) -> Result<(), Fail> {
    let mut random = Random::new();
    for round in 0..150 {
        let is_same = random_round(rt.alloc(), round, &mut random)?;
        assert!(rt; is_same, "round {round}");
    }
    Ok(())
}

/// A number for rows 0 and 1; for another row the sum of up to three lower rows, or a row that a byte names.
fn random_lower_row(alloc: Global, random: &mut Random, number: u8) -> Result<Row, AllocError> {
    if number < 2 {
        return Ok(Row::Number(u32::from(random.below(10))));
    }
    if random.below(2) == 0 {
        return Ok(Row::Named(u32::from(random.below(8))));
    }
    random_sum(alloc, random, number)
}

/// 16 rows, of which each asks lower ones, as long as no byte names another than rows 0 and 1.
fn random_lower_rows(alloc: Global, random: &mut Random) -> Result<Rows, AllocError> {
    let mut rows = Vec::new(alloc);
    for number in 0..16 {
        rows.push(random_lower_row(alloc, random, number)?)?;
    }
    Ok(Rows { rows })
}

/// The bits of the rows that a row asks, and theirs, with its own.
fn tree_of(rows: &[Row], bytes: &[u8], number: u8, depth: u8) -> u16 {
    if depth == 0 {
        return 0;
    }
    let depth = depth - 1;
    let mut bits = bit_of(number);
    match rows.get(number as usize) {
        Some(Row::Named(place)) => {
            if let Some(byte) = bytes.get(*place as usize) {
                bits |= tree_of(rows, bytes, *byte, depth);
            }
        }
        Some(Row::Sum(numbers)) => {
            for part in numbers {
                bits |= tree_of(rows, bytes, part.number, depth);
            }
        }
        _ => {}
    }
    bits
}

/// Whether a row is named by the byte in a place.
fn is_named_by(rows: &[Row], number: u8, place: usize) -> bool {
    match rows.get(number as usize) {
        Some(Row::Named(at)) => *at as usize == place,
        _ => false,
    }
}

/// The bits of the rows that are named by the byte in a place.
fn named_by(rows: &[Row], place: usize) -> u16 {
    let mut bits = 0u16;
    for number in 0..16u8 {
        if is_named_by(rows, number, place) {
            bits |= bit_of(number);
        }
    }
    bits
}

/// Of some rows, the bits of those in whose trees one is that the byte in a place names: the plain pass over all.
fn touched_of(rows: &[Row], bytes: &[u8], kept: u16, place: usize) -> u16 {
    let named = named_by(rows, place);
    let mut bits = 0u16;
    for number in 0..16u8 {
        let bit = bit_of(number);
        if kept & bit != 0 && tree_of(rows, bytes, number, 20) & named != 0 {
            bits |= bit;
        }
    }
    bits
}

/// How many bits are set.
fn counted(bits: u16) -> u64 {
    let mut count = 0u64;
    for number in 0..16u8 {
        if bits & bit_of(number) != 0 {
            count = count.saturating_add(1);
        }
    }
    count
}

/// Asks a random row and overwrites a random byte. The bits of the rows that are kept then by the plain pass, if the engine
/// has kept as many, and looked no fewer times than rows went and no more than near.
fn random_overwrite(
    alloc: Global,
    engine: &mut Engine<Rows>,
    rules: &Rows,
    bytes: &mut Buffer,
    random: &mut Random,
    kept: u16,
) -> Result<Option<u16>, AllocError>
    requires { IsRight (on (rows_meaning rules.now.rows.items) bytes.old) engine.old.kept }
    ensures { IsRight (on (rows_meaning rules.now.rows.items) bytes.new) engine.new.kept }
{
    let number = random.below(16);
    let place = random.below(8) as usize;
    let new = [random.below(2)];
    let before = all_bytes(alloc, bytes)?;
    let wanted = plainly(rules.rows.as_slice(), before.as_slice(), 0, number, 20);
    let is_right = answers(engine, rules, bytes, number, wanted)?;
    let kept = kept | tree_of(rules.rows.as_slice(), before.as_slice(), number, 20);
    let gone = touched_of(rules.rows.as_slice(), before.as_slice(), kept, place);
    overwrite(engine, rules, bytes, place, &new);
    let left = kept & !gone;
    let looked = engine.looked();
    let (kept, gone) = (counted(kept), counted(gone));
    let near = gone
        .saturating_mul(5)
        .saturating_add(kept)
        .saturating_add(1);
    let is_near = gone <= looked && looked <= near.saturating_mul(8);
    if is_right && is_near && engine.kept() as u64 == counted(left) {
        Ok(Some(left))
    } else {
        Ok(None)
    }
}

/// Five random questions and overwrites.
fn five_overwrites(
    alloc: Global,
    engine: &mut Engine<Rows>,
    rules: &Rows,
    bytes: &mut Buffer,
    random: &mut Random,
) -> Result<bool, AllocError>
    requires { IsRight (on (rows_meaning rules.now.rows.items) bytes.old) engine.old.kept }
{
    let mut kept = 0u16;
    for _ in 0..5 {
        match random_overwrite(alloc, engine, rules, bytes, random, kept)? {
            Some(left) => kept = left,
            None => return Ok(false),
        }
    }
    Ok(true)
}

/// The same of a new engine.
fn five_new_overwrites(
    alloc: Global,
    rules: &Rows,
    bytes: &mut Buffer,
    random: &mut Random,
) -> Result<bool, AllocError> {
    let mut engine = new_engine(alloc, rules, bytes);
    let is_right = five_overwrites(alloc, &mut engine, rules, bytes, random);
    drop(engine);
    is_right
}

/// Five random questions and overwrites over random rows.
fn random_overwrites(alloc: Global, random: &mut Random) -> Result<bool, Fail> {
    let rules = random_lower_rows(alloc, random)?;
    let mut bytes = Buffer::new(b"\0\x01\0\x01\0\x01\0\x01".to_vec(alloc)?)?;
    let is_right = five_new_overwrites(alloc, &rules, &mut bytes, random);
    drop(bytes);
    drop(rules);
    Ok(is_right?)
}

#[test]
fn forgets_at_random_overwrites_what_a_plain_pass_does(rt: HostRuntime) -> Result<(), Fail> {
    let mut random = Random::new();
    for round in 0..10_000 {
        let is_right = random_overwrites(rt.alloc(), &mut random)?;
        assert!(rt; is_right, "round {round}");
    }
    Ok(())
}
