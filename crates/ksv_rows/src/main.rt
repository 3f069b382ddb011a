//! Runs tables of rows, and compares each row's answers with those in the table: `ksv_rows TABLE..`.
//!
//! It prints the rows that have other answers, and for each table how many rows and replies it has, and how much is wrong.
//! Above its first heading a table has lines that begin with `#`. They say what it holds, and in one that begins with
//! `# Values: ` where its values are from. Below a heading there is
//!
//! - one row: the lines of a description, a line `-- KIND` for what is done with it, and then questions and replies, each
//!   reply on a line that begins with `> `; the heading is the row's title. The module `described` explains how a description
//!   may be shortened.
//! - or a row on each line, `INPUT => WANTED`, where the heading is the kind (`pairs`).
//!
//! Which kinds there are is said in `descriptions`, `dialogues` and `expressions`.
//!
//! Modules:
//!
//! - `bytes`: the bytes of a file, as tables write them
//! - `described`: descriptions whose repeated lines are written once
//! - `descriptions`: rows that need no session
//! - `descriptions/lines`: what begins on a line, and what is on several
//! - `descriptions/loaded`: descriptions: the answer to loading one, and what one has
//! - `descriptions/names`: names in expressions, and their numbers
//! - `descriptions/question`: a question of a table: a verb and a text
//! - `descriptions/scopes`: the types, members and enums of a description, and the lookup of names
//! - `descriptions/shown`: how values are written in a reply
//! - `descriptions/trees`: trees of texts
//! - `dialogues`: rows of dialogues
//! - `dialogues/cuts`: files and descriptions that are cut at each byte
//! - `dialogues/devices`: sessions over devices that fail after each number of calls
//! - `dialogues/reader`: a reader that gives few bytes at once, and may fail
//! - `dialogues/sessions`: sessions over memory, and over readers that give few bytes at once
//! - `dialogues/spans`: what is told of numbers that follow each other
//! - `dialogues/writers`: writers that fail
//! - `expressions`: rows of expressions and paths
//! - `expressions/ask`: expressions, the questions that they ask, and their ends
//! - `expressions/names`: the numbers of names, as a description would give them
//! - `expressions/paths`: paths as texts
//! - `expressions/replies`: the replies of rows
//! - `expressions/shown`: how results are written
//! - `expressions/spelled`: the bytes that a row spells
//! - `expressions/trees`: trees as texts, operators first
//! - `expressions/values`: values, faults and questions as texts
//! - `pairs`: rows of one line
//! - `row`: the parts of a row
//! - `table`: reads tables, has each row answered, and counts
#![tactic(auto)]

mod bytes;
mod described;
mod descriptions;
mod dialogues;
mod expressions;
mod pairs;
mod row;
mod table;

use crate::table::run_tables;
use std::io;
use std::process::ExitCode;

fn main(rt: HostRuntime) -> io::Result<ExitCode> {
    run_tables(&rt)
}
