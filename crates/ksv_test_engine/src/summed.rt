//! Questions about the sums of a long file's first bytes between edits, to an engine that keeps them by their numbers alone, each named by the one
//! before it, and beside it to one that has a slot for each.
//!
//! Where the values are from: of the worked questions, by hand. Of the random ones what a link answers is from a plain pass over the bytes, and what is
//! kept and counted from the second engine: both must answer alike, keep as many links and count as many turns, after each question and each edit.
//!
//! No call tells that links are kept by their numbers. It is seen by the looks of an edit: both engines look alike where none is; but a link that goes and has
//! a slot takes looks at it, what it asked and what it used, and one that was kept by its number alone takes one.
ghost use Rattle.std.specs.Prelude.{◌≡◌, ◌<◌, IfSome, IfNone};
ghost use Rattle.ksv_bytes.specs.Uses.{Makes};
ghost use Rattle.ksv_memo_rules.specs.Meaning.{on};
ghost use Rattle.ksv_memo_rules.specs.Right.{IsRight};
ghost use Rattle.ksv_test_engine.specs.Sums.{sums_meaning};

use crate::edits::new_engine;
use crate::numbers::Random;
use crate::samples::link::Link;
use crate::samples::row::Missing;
use crate::samples::sums::{SlottedSums, Sums};
use ksv_bytes::{Buffer, Change, Window};
use ksv_memo::{Answer, Engine, Rules};
use std::alloc::{AllocError, Global};
use std::test::Fail;

/// How many files there are, how many questions about each, and how many of these there are between two edits, about.
const ROUNDS: usize = 50;

const QUESTIONS: usize = 500;

const QUESTIONS_BETWEEN: u8 = 8;

/// After how many edits the engine that keeps links by their numbers must have looked less than half as much, at least, in all rounds.
const FEWER: usize = 500;

/// What a link answered.
#[derive(Clone, Copy, PartialEq, Eq)]
enum Heard {
    Sum(u32),
    Missing,
    Circle,
}

/// What a link answered, and how many links are kept and turns counted then.
#[derive(Clone, Copy, PartialEq, Eq)]
struct Told {
    heard: Heard,
    kept: usize,
    turns: Option<u64>,
}

/// Asks a link.
fn ask_of<R: Rules<Node = Link, Value = u32, Fault = Missing>>(
    engine: &mut Engine<R>,
    rules: &R,
    bytes: &Buffer,
    number: u32,
) -> Result<Told, AllocError>
    requires { IsRight (on (R.meaning rules.now) bytes.now) engine.old.kept }
    ensures { IsRight (on (R.meaning rules.now) bytes.now) engine.new.kept }
{
    engine.begin();
    let heard = match engine.ask(rules, bytes, Link { number })? {
        Answer::Value(sum) => Heard::Sum(sum),
        Answer::Fault(Missing) => Heard::Missing,
        Answer::Circle(_) => Heard::Circle,
    };
    Ok(Told {
        heard,
        kept: engine.kept(),
        turns: engine.turns(),
    })
}

/// The sum of some bytes, after such a one; 255 is missing, and the next sum begins anew.
fn total(before: Heard, bytes: &[u8]) -> Heard {
    let mut heard = before;
    for byte in bytes {
        heard = match (heard, *byte) {
            (_, 255) => Heard::Missing,
            (Heard::Sum(sum), byte) => Heard::Sum(sum.saturating_add(u32::from(byte))),
            (_, byte) => Heard::Sum(u32::from(byte)),
        };
    }
    heard
}

/// What a link answers by a pass over the bytes.
fn plainly(bytes: &Buffer, number: u32) -> Heard {
    let to = number as usize;
    if to > bytes.len() {
        return Heard::Missing;
    }
    let (front, back) = bytes.parts(Window { from: 0, to });
    total(total(Heard::Sum(0), front), back)
}

/// Whether both engines tell the same of a link, and its sum is that of the bytes.
fn are_told_alike(
    first: &mut Engine<Sums>,
    second: &mut Engine<SlottedSums>,
    bytes: &Buffer,
    number: u32,
) -> Result<bool, AllocError>
    requires first { IsRight (on sums_meaning bytes.now) first.old.kept }
    requires second { IsRight (on sums_meaning bytes.now) second.old.kept }
    ensures first { IsRight (on sums_meaning bytes.now) first.new.kept }
    ensures second { IsRight (on sums_meaning bytes.now) second.new.kept }
{
    let told_first = ask_of(first, &Sums, bytes, number)?;
    let told_second = ask_of(second, &SlottedSums, bytes, number)?;
    Ok(told_first == told_second && told_first.heard == plainly(bytes, number))
}

/// A kind of edit.
#[derive(Clone, Copy)]
enum How {
    Append,
    Insert,
    Delete,
    Overwrite,
}

/// An edit: a delete takes out as many bytes as these.
#[derive(Clone, Copy)]
struct Edit<'a> {
    how: How,
    at: usize,
    new: &'a [u8],
}

/// Makes an edit; which change it was, unless the buffer refuses it.
fn edited(bytes: &mut Buffer, edit: Edit<'_>) -> Option<Change>
    ensures some { IfSome result (λ change. Makes change bytes.old bytes.new) }
    ensures none { IfNone result (bytes.new ≡ bytes.old) }
{
    let Edit { how, at, new } = edit;
    let n = new.len();
    let (made, change) = match how {
        How::Append => (bytes.append(new), Change::Append),
        How::Insert => (bytes.insert(at, new), Change::Insert { at, n }),
        How::Delete => (bytes.delete(at, n), Change::Delete { at, n }),
        How::Overwrite => (bytes.overwrite(at, new), Change::Overwrite { at, n }),
    };
    match made {
        Ok(()) => Some(change),
        Err(_) => None,
    }
}

/// Makes an edit, of which both engines are told; whether it was made.
fn edit_for(
    first: &mut Engine<Sums>,
    second: &mut Engine<SlottedSums>,
    bytes: &mut Buffer,
    edit: Edit<'_>,
) -> bool
    requires first { IsRight (on sums_meaning bytes.old) first.old.kept }
    requires second { IsRight (on sums_meaning bytes.old) second.old.kept }
    ensures first { IsRight (on sums_meaning bytes.new) first.new.kept }
    ensures second { IsRight (on sums_meaning bytes.new) second.new.kept }
{
    match edited(bytes, edit) {
        Some(change) => {
            first.forget(change);
            second.forget(change);
            true
        }
        None => false,
    }
}

// ---- worked questions

/// A kind of edit, its place and its bytes; how many links both engines keep after it, and whether those that it took had no slots in the first; and a link
/// that is asked then: its number, its sum, if it has one, how many links are kept then, and the turns.
type Step = (
    How,
    usize,
    &'static [u8],
    (usize, bool),
    (u32, Option<u32>, usize, u64),
);

/// Edits of a file of 1,200 bytes of 1. Link 0 takes a call, and each other one two.
#[rattlefmt::skip]
static STEPS: [Step; 9] = [
    (How::Overwrite, 1_199, b"\x01", (0, false), (1, Some(1), 2, 3)),
    (How::Overwrite, 1_199, b"\x01", (2, false), (1_000, Some(1_000), 1_001, 1_998)),
    // It takes links 501 to 1,000: no link asked one of them of the engine, and the question was for the last.
    (How::Overwrite, 500, b"\x03", (501, true), (1_000, Some(1_002), 1_001, 1_000)),
    // The links behind the overwritten byte were told anew, and got no slots.
    (How::Insert, 100, b"\x05", (101, true), (1_000, Some(1_006), 1_001, 1_800)),
    (How::Delete, 300, b"\x01\x01\x01", (301, true), (1_000, Some(1_006), 1_001, 1_400)),
    // No link that is kept uses the size, or reads behind the end.
    (How::Append, 0, b"\x09", (1_001, false), (1_199, Some(1_213), 1_200, 398)),
    (How::Insert, 1_199, b"\x02", (1_200, false), (1_201, None, 1_202, 4)),
    // Link 1,201 does, for which there was no byte.
    (How::Append, 0, b"\x04", (1_201, false), (1_201, Some(1_219), 1_202, 2)),
    (How::Overwrite, 0, b"\0", (1, false), (1_201, Some(1_218), 1_202, 2_402)),
];

/// Edits of such a file but that its bytes at places 499 and 1,199 are 255.
#[rattlefmt::skip]
static FAULTS: [Step; 7] = [
    // Link 500 is open before the root has its answer, and is kept by its number too, as those behind it.
    (How::Overwrite, 600, b"\x01", (0, false), (1_000, Some(500), 1_001, 2_001)),
    (How::Overwrite, 600, b"\x01", (601, false), (1_000, Some(500), 1_001, 800)),
    (How::Overwrite, 600, b"\x01", (601, true), (1_000, Some(500), 1_001, 800)),
    (How::Overwrite, 450, b"\x01", (451, false), (500, None, 501, 100)),
    // The last link is kept by its number alone, and asked by the one behind the end.
    (How::Overwrite, 1_199, b"\xff", (501, false), (1_201, None, 1_202, 1_402)),
    (How::Append, 0, b"\x05", (1_201, false), (1_201, Some(5), 1_202, 2)),
    (How::Overwrite, 1_199, b"\x06", (1_200, false), (1_201, Some(710), 1_202, 4)),
];

/// Whether an edit took links without slots with a look each, where they had none, and where they have slots with more.
fn are_bare(first: &Engine<Sums>, second: &Engine<SlottedSums>, went: usize) -> bool {
    first.looked() == went as u64 && second.looked() > went as u64
}

/// What a link answers that has this sum, if it has one.
fn as_heard(sum: Option<u32>) -> Heard {
    match sum {
        Some(sum) => Heard::Sum(sum),
        None => Heard::Missing,
    }
}

/// Whether a step is as worked.
fn is_as_worked(
    first: &mut Engine<Sums>,
    second: &mut Engine<SlottedSums>,
    bytes: &mut Buffer,
    step: &Step,
) -> Result<bool, AllocError>
    requires first { IsRight (on sums_meaning bytes.old) first.old.kept }
    requires second { IsRight (on sums_meaning bytes.old) second.old.kept }
    ensures first { IsRight (on sums_meaning bytes.new) first.new.kept }
    ensures second { IsRight (on sums_meaning bytes.new) second.new.kept }
{
    let (how, at, new, (left, bare), (number, sum, kept, turns)) = *step;
    let before = first.kept();
    let is_made = edit_for(first, second, bytes, Edit { how, at, new });
    let is_left = first.kept() == left && second.kept() == left;
    let is_bare = !bare || are_bare(first, second, before.saturating_sub(left));
    let wanted = Told {
        heard: as_heard(sum),
        kept,
        turns: Some(turns),
    };
    let is_told = ask_of(first, &Sums, bytes, number)? == wanted
        && ask_of(second, &SlottedSums, bytes, number)? == wanted;
    Ok(is_made && is_left && is_bare && is_told)
}

/// The number of the first step that isn't as worked; none if all are.
fn unlike(
    first: &mut Engine<Sums>,
    second: &mut Engine<SlottedSums>,
    bytes: &mut Buffer,
    steps: &[Step],
) -> Result<Option<usize>, AllocError>
    requires first { IsRight (on sums_meaning bytes.old) first.old.kept }
    requires second { IsRight (on sums_meaning bytes.old) second.old.kept }
{
    for (number, step) in steps.iter().enumerate() {
        if !is_as_worked(first, second, bytes, step)? {
            return Ok(Some(number));
        }
    }
    Ok(None)
}

/// The same of new engines.
fn unlike_anew(
    alloc: Global,
    bytes: &mut Buffer,
    steps: &[Step],
) -> Result<Option<usize>, AllocError> {
    let mut first = new_engine(alloc, &Sums, bytes);
    let mut second = new_engine(alloc, &SlottedSums, bytes);
    let unlike = unlike(&mut first, &mut second, bytes, steps);
    drop(first);
    drop(second);
    unlike
}

/// The same of a file of 1,200 bytes of 1, of which those at these places are 255.
fn unlike_of_ones(alloc: Global, missing: &[usize], steps: &[Step]) -> Result<Option<usize>, Fail> {
    let mut file = vec![in alloc; 1u8; 1_200]?;
    for place in missing {
        if let Some(byte) = file.get_mut(*place) {
            *byte = 255;
        }
    }
    let mut bytes = Buffer::new(file)?;
    let unlike = unlike_anew(alloc, &mut bytes, steps);
    drop(bytes);
    Ok(unlike?)
}

#[test]
fn edits_take_links_without_slots_as_worked(rt: HostRuntime) -> Result<(), Fail> {
    if let Some(number) = unlike_of_ones(rt.alloc(), &[], &STEPS)? {
        assert!(rt; false, "step {number}");
    }
    Ok(())
}

#[test]
fn links_whose_byte_is_missing_are_kept_by_their_numbers_too(rt: HostRuntime) -> Result<(), Fail> {
    if let Some(number) = unlike_of_ones(rt.alloc(), &[499, 1_199], &FAULTS)? {
        assert!(rt; false, "step {number}");
    }
    Ok(())
}

// ---- random questions

/// 0 or 1, or one in sixteen times 255.
fn random_byte(random: &mut Random) -> u8 {
    if random.below(16) == 0 {
        255
    } else {
        random.below(2)
    }
}

/// The place of an edit: one in four times among the first hundred bytes.
fn random_place(bytes: &Buffer, random: &mut Random) -> usize {
    if random.below(4) == 0 {
        random.place(100)
    } else {
        random.place(bytes.len() + 1)
    }
}

fn random_how(random: &mut Random) -> How {
    match random.below(8) {
        0 => How::Append,
        1 | 2 => How::Insert,
        3 | 4 => How::Delete,
        _ => How::Overwrite,
    }
}

/// Makes a random edit of up to three bytes, which often writes what stood there. Whether it was made, and the first engine looked less than half as much.
fn random_edit(
    first: &mut Engine<Sums>,
    second: &mut Engine<SlottedSums>,
    bytes: &mut Buffer,
    random: &mut Random,
) -> bool
    requires first { IsRight (on sums_meaning bytes.old) first.old.kept }
    requires second { IsRight (on sums_meaning bytes.old) second.old.kept }
    ensures first { IsRight (on sums_meaning bytes.new) first.new.kept }
    ensures second { IsRight (on sums_meaning bytes.new) second.new.kept }
{
    let new = [
        random_byte(random),
        random_byte(random),
        random_byte(random),
    ];
    let count = random.below(3) as usize + 1;
    let edit = Edit {
        how: random_how(random),
        at: random_place(bytes, random),
        new: &new[..count],
    };
    edit_for(first, second, bytes, edit) && first.looked() < second.looked() / 2
}

/// A link: one of the first 40, one of the last 40 or of 20 behind the end, or any up to 200 behind it.
fn random_number(bytes: &Buffer, random: &mut Random) -> u32 {
    let size = bytes.len();
    let number = match random.below(4) {
        0 => random.place(40),
        1 => size.saturating_sub(40) + random.place(60),
        _ => random.place(size + 200),
    };
    number as u32
}

/// What was seen of two engines: whether they were alike, and after how many edits the first had looked less than half as much.
#[derive(Clone, Copy)]
struct Seen {
    are_alike: bool,
    fewer: usize,
}

/// Asks two engines random links between random edits.
fn watch(
    first: &mut Engine<Sums>,
    second: &mut Engine<SlottedSums>,
    bytes: &mut Buffer,
    random: &mut Random,
) -> Result<Seen, AllocError>
    requires first { IsRight (on sums_meaning bytes.old) first.old.kept }
    requires second { IsRight (on sums_meaning bytes.old) second.old.kept }
{
    let mut are_alike = true;
    let mut fewer = 0usize;
    for _ in 0..QUESTIONS {
        let number = random_number(bytes, random);
        are_alike &= are_told_alike(first, second, bytes, number)?;
        if random.below(QUESTIONS_BETWEEN) == 0 && random_edit(first, second, bytes, random) {
            fewer = fewer.saturating_add(1);
        }
        are_alike &= first.kept() == second.kept();
    }
    Ok(Seen { are_alike, fewer })
}

/// The same of new engines.
fn watch_anew(alloc: Global, bytes: &mut Buffer, random: &mut Random) -> Result<Seen, AllocError> {
    let mut first = new_engine(alloc, &Sums, bytes);
    let mut second = new_engine(alloc, &SlottedSums, bytes);
    let seen = watch(&mut first, &mut second, bytes, random);
    drop(first);
    drop(second);
    seen
}

/// A file of 1,400 to 1,599 bytes.
fn random_file(alloc: Global, random: &mut Random) -> Result<Vec<u8>, AllocError> {
    let mut bytes = Vec::new(alloc);
    for _ in 0..1_400 + random.place(200) {
        bytes.push(random_byte(random))?;
    }
    Ok(bytes)
}

/// A round of random links and edits over a random file.
fn random_round(alloc: Global, random: &mut Random) -> Result<Seen, Fail> {
    let mut bytes = Buffer::new(random_file(alloc, random)?)?;
    let seen = watch_anew(alloc, &mut bytes, random);
    drop(bytes);
    Ok(seen?)
}

#[test]
fn links_without_slots_are_told_as_those_that_have_them(rt: HostRuntime) -> Result<(), Fail> {
    let mut random = Random::new();
    let mut fewer = 0usize;
    for round in 0..ROUNDS {
        let seen = random_round(rt.alloc(), &mut random)?;
        assert!(rt; seen.are_alike, "round {round}");
        fewer = fewer.saturating_add(seen.fewer);
    }
    assert!(rt; fewer >= FEWER, "{fewer}");
    Ok(())
}
