//! How few looks an append, an insert or a delete takes, at a number of rows, twice and four times as many.
//!
//! Where the values are from: by hand. The file has this many pages of 64 bytes 0. Row 0 is 7. The rows from 1 on are named by the
//! first byte of a page each, so they are 7 too. Behind them are a row that is named by the byte after the last one, which isn't there
//! (it uses the size), and two that say whether the file reaches its end and place 10 (it does).
//!
//! A row that goes and asked nothing takes 5 looks where it is found in a list of ends (the item, its uses, the flag that it is kept, the
//! flag written, the worklist), 2 where its users are looked for (the worklist, its users), and 5 where it is taken (the worklist,
//! its asks, pages and uses, its slot): 12. A row that is found by its page and stays takes 2. The end of each list takes 1 look, and
//! that of the worklist 2, of its users' pass and of the taking.
//!
//! - An append takes the row of the size: 12, the end of one list, and 2: 15 looks.
//! - An insert or a delete after the first byte of the last page takes it and the row of the file's end: 24, the ends of two lists of ends,
//!   a row that stays, the end of its page, and 2: 31 looks.
//! - One at the first byte of the page in the middle takes the second half of the rows that bytes name, too. The most looks are 8 times
//!   what is after: one, the pages from there on with one past the last byte, the uses of bytes there, the two other rows, the rows
//!   that go, their asks, and the pages of their uses.
ghost use Rattle.ksv_memo_rules.specs.Meaning.{on};
ghost use Rattle.ksv_memo_rules.specs.Right.{IsRight};
ghost use Rattle.ksv_test_engine.specs.Rows.{rows_meaning};

use crate::edits::{append, delete, insert, new_engine};
use crate::plain::{Plain, answers};
use crate::samples::row::Row;
use crate::samples::rows::Rows;
use ksv_bytes::Buffer;
use ksv_memo::Engine;
use std::alloc::{AllocError, Global};
use std::test::Fail;

/// How many bytes a page has.
const PAGE: u32 = 64;

/// The rows over this many pages.
fn paged_rows(alloc: Global, pages: u8) -> Result<Rows, AllocError> {
    let mut rows = Vec::new(alloc);
    rows.push(Row::Number(7))?;
    for page in 0..pages {
        rows.push(Row::Named(u32::from(page) * PAGE))?;
    }
    rows.push(Row::Named(u32::from(pages) * PAGE))?;
    rows.push(Row::Reaching(u32::from(pages) * PAGE))?;
    rows.push(Row::Reaching(10))?;
    Ok(Rows { rows })
}

/// An edit of a file of this many pages.
#[derive(Clone, Copy)]
enum Edit {
    /// A byte after the last one.
    After,
    /// A byte before the one at this place.
    At(usize),
    /// None in place of the one at this place.
    Without(usize),
}

/// What an edit leaves and how many looks it takes.
#[derive(Clone, Copy)]
struct Trial {
    pages: u8,
    edit: Edit,
    kept: usize,
    least: u64,
    most: u64,
}

/// What a row over this many pages answers.
fn wanted(pages: u8, number: u8) -> Plain {
    if number <= pages {
        return Plain::Value(7);
    }
    if number - pages == 1 {
        return Plain::Missing;
    }
    Plain::Value(1)
}

/// Whether each row over this many pages answers as it should.
fn answers_all(
    engine: &mut Engine<Rows>,
    rules: &Rows,
    bytes: &Buffer,
    pages: u8,
) -> Result<bool, AllocError>
    requires { IsRight (on (rows_meaning rules.now.rows.items) bytes.now) engine.old.kept }
    ensures { IsRight (on (rows_meaning rules.now.rows.items) bytes.now) engine.new.kept }
{
    let mut are_right = true;
    for number in 0..pages.saturating_add(4) {
        are_right &= answers(engine, rules, bytes, number, wanted(pages, number))?;
    }
    Ok(are_right)
}

/// Makes an edit, and tells the engine.
fn make_edit(engine: &mut Engine<Rows>, rules: &Rows, bytes: &mut Buffer, edit: Edit)
    requires { IsRight (on (rows_meaning rules.now.rows.items) bytes.old) engine.old.kept }
{
    match edit {
        Edit::After => append(engine, rules, bytes, b"\0"),
        Edit::At(place) => insert(engine, rules, bytes, place, b"\0"),
        Edit::Without(place) => delete(engine, rules, bytes, place, 1),
    }
}

/// Whether a trial ends as it should.
fn is_tried(
    engine: &mut Engine<Rows>,
    rules: &Rows,
    bytes: &mut Buffer,
    trial: Trial,
) -> Result<bool, AllocError>
    requires { IsRight (on (rows_meaning rules.now.rows.items) bytes.old) engine.old.kept }
{
    let are_right = answers_all(engine, rules, bytes, trial.pages)?;
    make_edit(engine, rules, bytes, trial.edit);
    let looked = engine.looked();
    Ok(are_right && engine.kept() == trial.kept && trial.least <= looked && looked <= trial.most)
}

/// The same with a new engine.
fn is_newly_tried(
    alloc: Global,
    rules: &Rows,
    bytes: &mut Buffer,
    trial: Trial,
) -> Result<bool, AllocError> {
    let mut engine = new_engine(alloc, rules, bytes);
    let is_right = is_tried(&mut engine, rules, bytes, trial);
    drop(engine);
    is_right
}

/// The same over new rows and a new file.
fn ends_well(alloc: Global, trial: Trial) -> Result<bool, Fail> {
    let rules = paged_rows(alloc, trial.pages)?;
    let size = trial.pages as usize * PAGE as usize;
    let mut bytes = Buffer::new(vec![in alloc; 0u8; size]?)?;
    let is_right = is_newly_tried(alloc, &rules, &mut bytes, trial);
    drop(bytes);
    drop(rules);
    Ok(is_right?)
}

#[test]
fn an_append_looks_at_the_uses_of_the_size_alone(rt: HostRuntime) -> Result<(), Fail> {
    for pages in [50, 100, 200] {
        let trial = Trial {
            pages,
            edit: Edit::After,
            kept: pages as usize + 3,
            least: 15,
            most: 15,
        };
        let is_right = ends_well(rt.alloc(), trial)?;
        assert!(rt; is_right, "over {pages}");
    }
    Ok(())
}

#[test]
fn an_insert_near_the_end_looks_there_alone(rt: HostRuntime) -> Result<(), Fail> {
    for pages in [50u8, 100, 200] {
        let trial = Trial {
            pages,
            edit: Edit::At((pages as usize - 1) * 64 + 1),
            kept: pages as usize + 2,
            least: 31,
            most: 31,
        };
        let is_right = ends_well(rt.alloc(), trial)?;
        assert!(rt; is_right, "over {pages}");
    }
    Ok(())
}

#[test]
fn a_delete_near_the_end_looks_there_alone(rt: HostRuntime) -> Result<(), Fail> {
    for pages in [50u8, 100, 200] {
        let trial = Trial {
            pages,
            edit: Edit::Without((pages as usize - 1) * 64 + 1),
            kept: pages as usize + 2,
            least: 31,
            most: 31,
        };
        let is_right = ends_well(rt.alloc(), trial)?;
        assert!(rt; is_right, "over {pages}");
    }
    Ok(())
}

/// An insert in the middle of twice this many pages.
fn in_the_middle(half: u8) -> Trial {
    let behind = u64::from(half);
    let gone = behind + 2;
    Trial {
        pages: half.saturating_mul(2),
        edit: Edit::At(half as usize * 64),
        kept: half as usize + 2,
        least: gone,
        most: 8 * (1 + (behind + 1) + behind + 2 + gone + behind + behind),
    }
}

#[test]
fn an_insert_in_the_middle_looks_behind_it_alone(rt: HostRuntime) -> Result<(), Fail> {
    for half in [25, 50, 100] {
        let is_right = ends_well(rt.alloc(), in_the_middle(half))?;
        assert!(rt; is_right, "over twice {half}");
    }
    Ok(())
}
