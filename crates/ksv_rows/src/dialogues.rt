//! Rows of dialogues. A row's kind is a word for how its lines are read, and then words for the bytes of a file, each
//! hexadecimal digits, or `N*HEX` for N times these:
//!
//! - `file`: the lines are the input of one session;
//! - `cut`: the same, from readers that give few bytes at once;
//! - `inputs`: each line is the whole input of a session of its own, also from readers that give few bytes at once;
//! - `readers`, `writers`, `std`: the input of sessions over a reader that gives a byte at once, a writer that takes one, or a writer of std, which fail
//!   after each number of calls;
//! - `cuts`: the lines are the input of a session over each front part of the file, and of one that gets the other bytes and loses them
//!   again;
//! - `prefixes`: there are no lines: each front part of the description is read.

mod cuts;
mod devices;
mod reader;
mod sessions;
mod spans;
mod writers;

use self::cuts::{add_cuts, add_prefixes};
use self::devices::{Failing, add_broken};
use self::sessions::{Given, add_cut, add_inputs, add_session};
use crate::bytes::bytes_of;
use crate::row::{Row, known};
use std::alloc::{AllocError, Global};

/// Adds the answers to a row of sessions; whether it is one.
pub(crate) fn add_served(
    alloc: Global,
    row: Row<'_>,
    found: &mut String,
) -> Result<bool, AllocError> {
    let (word, words) = row.kind.split_once(' ').unwrap_or((row.kind, ""));
    match bytes_of(alloc, words)? {
        Some(file) => {
            let given = Given {
                ksy: row.text,
                file: file.as_slice(),
            };
            add_dialogue(alloc, word, given, row.questions, found)
        }
        None => Ok(false),
    }
}

/// Adds what sessions write, by the word for how their lines are read; whether it is one.
fn add_dialogue(
    alloc: Global,
    word: &str,
    given: Given<'_>,
    lines: &str,
    found: &mut String,
) -> Result<bool, AllocError> {
    match word {
        "file" => known(add_session(alloc, given, lines, found)),
        "cut" => known(add_cut(alloc, given, lines, found)),
        "inputs" => known(add_inputs(alloc, given, lines, found)),
        "readers" => known(add_broken(alloc, given, lines, Failing::Reader, found)),
        "writers" => known(add_broken(alloc, given, lines, Failing::Writer, found)),
        "std" => known(add_broken(alloc, given, lines, Failing::StdWriter, found)),
        "cuts" => known(add_cuts(alloc, given, lines, found)),
        "prefixes" => known(add_prefixes(alloc, given.ksy, found)),
        _ => Ok(false),
    }
}
