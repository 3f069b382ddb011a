//! Tables: their rows are read, answered and counted.

use crate::described::add_described;
use crate::descriptions::add_unserved;
use crate::dialogues::add_served;
use crate::pairs::run_pairs;
use crate::row::{Parts, Row, parts_of};
use std::alloc::{AllocError, Global};
use std::process::ExitCode;
use std::{env, fs, io};

/// How many rows and replies a table has, and how many things are wrong with it.
#[derive(Clone, Copy)]
pub(crate) struct Tally {
    pub(crate) rows: usize,
    pub(crate) replies: usize,
    wrong: usize,
}

/// Where something is: a table, and a line of it.
#[derive(Clone, Copy)]
pub(crate) struct Place<'a> {
    path: &'a str,
    line: usize,
}

impl<'a> Place<'a> {
    /// The place this many lines below.
    pub(crate) fn below(self, count: usize) -> Place<'a> {
        Place {
            path: self.path,
            line: self.line.saturating_add(count),
        }
    }
}

/// Counts and prints what is wrong with a place of a table.
pub(crate) fn blame(
    rt: &HostRuntime,
    tally: &mut Tally,
    place: Place<'_>,
    what: &str,
) -> io::Result<()> {
    tally.wrong = tally.wrong.saturating_add(1);
    println!(rt; "{}: line {}: {what}", place.path, place.line)
}

/// Reads the lines above the first heading: each is blank or begins with `#`, and one says where the values are from.
fn read_head(rt: &HostRuntime, tally: &mut Tally, path: &str, head: &str) -> io::Result<()> {
    let mut place = Place { path, line: 1 };
    let mut says_source = false;
    for line in head.lines() {
        says_source |= line.starts_with("# Values: ");
        if !line.is_empty() && !line.starts_with('#') {
            blame(
                rt,
                tally,
                place,
                "neither a row nor a line that begins with `#`",
            )?;
        }
        place = place.below(1);
    }
    if says_source {
        return Ok(());
    }
    blame(rt, tally, place, "no line `# Values: ` above the first row")
}

/// Adds the answers to a row, whose description is written out; whether its kind is known.
fn add_answers(
    alloc: Global,
    parts: Parts<'_>,
    questions: &str,
    found: &mut String,
) -> Result<bool, AllocError> {
    let mut text = Vec::new(alloc);
    add_described(alloc, &mut text, parts.described)?;
    let row = Row {
        text: text.as_slice(),
        kind: parts.kind,
        questions,
    };
    Ok(add_unserved(alloc, row, found)? || add_served(alloc, row, found)?)
}

/// Answers a row at a place; counts it, and prints the answers where they differ.
fn run_parts(
    rt: &HostRuntime,
    tally: &mut Tally,
    place: Place<'_>,
    parts: Parts<'_>,
) -> io::Result<()> {
    let mut questions = String::new(rt.alloc());
    let mut wanted = String::new(rt.alloc());
    let mut found = String::new(rt.alloc());
    parts.add_lines(&mut questions, &mut wanted)?;
    let is_known = add_answers(rt.alloc(), parts, questions.as_str(), &mut found)?;
    let replies = wanted.as_str().lines().count();
    tally.replies = tally.replies.saturating_add(replies);
    if !is_known {
        return blame(rt, tally, place.below(parts.lines_above()), "no such kind");
    }
    if found.as_str() != wanted.as_str() {
        blame(rt, tally, place, "another answer")?;
        println!(rt; "found\n{found}in place of\n{wanted}")?;
    }
    Ok(())
}

/// Runs what is below a heading, which is at a place of a table: a row, or one on each line.
fn run_row(rt: &HostRuntime, tally: &mut Tally, place: Place<'_>, text: &str) -> io::Result<()> {
    let Some(parts) = parts_of(text) else {
        return run_pairs(rt, tally, place, text);
    };
    tally.rows = tally.rows.saturating_add(1);
    if let Some(count) = parts.misspelt_reply() {
        let below = parts.lines_above().saturating_add(count);
        blame(
            rt,
            tally,
            place.below(below),
            "neither a question nor `> ` and a reply",
        )?;
    }
    run_parts(rt, tally, place, parts)
}

/// Runs a table.
fn run_table(rt: &HostRuntime, path: &str, table: &str) -> io::Result<Tally> {
    let mut tally = Tally {
        rows: 0,
        replies: 0,
        wrong: 0,
    };
    let (head, rows) = table.split_once("\n== ").unwrap_or((table, ""));
    read_head(rt, &mut tally, path, head)?;
    let mut place = Place { path, line: 1 }.below(head.split('\n').count());
    for text in rows.split("\n== ") {
        run_row(rt, &mut tally, place, text)?;
        place = place.below(text.split('\n').count());
    }
    Ok(tally)
}

/// Runs the table of a file, and prints its counts; how much is wrong.
fn run_file(rt: &HostRuntime, path: &str) -> io::Result<usize> {
    let table = fs::read_to_string(rt, path)?;
    let Tally {
        rows,
        replies,
        wrong,
    } = run_table(rt, path, table.as_str())?;
    println!(rt; "{path}: {rows} rows, {replies} replies, {wrong} wrong")?;
    Ok(wrong)
}

/// Runs the tables that the program's arguments name. It prints each row whose answers differ or that can't be read,
/// with its table and line, and for each table how many rows and replies it has, and how much is wrong. The program
/// succeeds if nothing is.
pub(crate) fn run_tables(rt: &HostRuntime) -> io::Result<ExitCode> {
    let mut wrong = 0usize;
    for path in env::args(rt)?.skip(1) {
        wrong = wrong.saturating_add(run_file(rt, path.as_str())?);
    }
    Ok(if wrong == 0 {
        ExitCode::SUCCESS
    } else {
        ExitCode::FAILURE
    })
}
