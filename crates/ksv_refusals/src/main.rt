//! What a refused request for memory costs: `ksv_refusals NAME`, with a word on standard input for what is tried.
//!
//! - `session`: the lines NAME.lines, over the file NAME.bin and its description NAME.ksy;
//! - `stats`: the same with a line `stats` before the last one;
//! - `again`: the same as `session`, where a line that was refused memory is given once more;
//! - `insert`, `append`: edits of a buffer that has no room for them;
//! - `ask`: one question to an engine, over the same file and description.
//!
//! It prints the replies of a session with ample memory, which line, edit or question was refused memory, and whether all else is as
//! with ample memory. Nothing here refuses memory: `.ci/refusals` has the Nth request refused, from the first request for [`ROOM`]
//! bytes on up to the second one.
//!
//! Modules:
//!
//! - `edits`: edits of a buffer that has no room
//! - `question`: a question to an engine
//! - `session`: a session, beside one with ample memory
#![tactic(auto)]

mod edits;
mod question;
mod session;

use crate::edits::{appends, inserts};
use crate::question::asks;
use crate::session::{Given, How, Line, lines_of, serve};
use std::alloc::{AllocError, Global};
use std::io::Read;
use std::process::ExitCode;
use std::{env, fs, io};

/// How many bytes are asked for where the counting of requests begins, and again where it ends.
const ROOM: usize = 1_234_567;

/// What a trial shows.
#[derive(Drop)]
pub(crate) struct Outcome {
    /// The number, from 1, of the line, edit or question that was refused memory.
    pub(crate) refused: Option<usize>,
    /// Whether no other was, and all else is as with ample memory.
    pub(crate) agrees: bool,
}

/// Room for what is noted in a trial: to ask for it begins the counting of requests, or ends it.
pub(crate) fn room(alloc: Global) -> Result<Vec<u8>, AllocError> {
    Vec::with_capacity(alloc, ROOM)
}

/// Tries what a word says of these lines; `None` where it is none of those above.
fn tried_with(
    rt: &HostRuntime,
    word: &str,
    given: Given<'_>,
    lines: &[Line<'_>],
) -> io::Result<Option<Outcome>> {
    let alloc = rt.alloc();
    Ok(match word {
        "session" | "stats" => Some(serve(rt, given, lines, How::Once)?),
        "again" => Some(serve(rt, given, lines, How::Again)?),
        "insert" => Some(inserts(alloc)?),
        "append" => Some(appends(alloc)?),
        "ask" => Some(asks(alloc, given)?),
        _ => None,
    })
}

/// The bytes of the file of a name with this ending.
fn bytes_at(rt: &HostRuntime, name: &str, ending: &str) -> io::Result<Vec<u8>> {
    fs::read(rt, format!(in rt.alloc(); "{name}.{ending}")?.as_str())
}

/// Tries what a word says over the files of a name, and these lines.
fn tried_over(rt: &HostRuntime, word: &str, name: &str, text: &str) -> io::Result<Option<Outcome>> {
    let ksy = bytes_at(rt, name, "ksy")?;
    let file = bytes_at(rt, name, "bin")?;
    let given = Given {
        ksy: ksy.as_slice(),
        file: file.as_slice(),
    };
    let lines = lines_of(rt.alloc(), text, word == "stats")?;
    tried_with(rt, word, given, lines.as_slice())
}

/// Tries what a word says over the files of a name; `None` where it is none of those above.
fn tried(rt: &HostRuntime, word: &str, name: &str) -> io::Result<Option<Outcome>> {
    let text = fs::read_to_string(rt, format!(in rt.alloc(); "{name}.lines")?.as_str())?;
    tried_over(rt, word, name, text.as_str())
}

fn main(rt: HostRuntime) -> io::Result<ExitCode> {
    let mut word = String::new(rt.alloc());
    rt.stdin().read_to_string(&mut word)?;
    let name = env::args(&rt)?.nth(1);
    let name = name.as_ref().map_or("", |name| name.as_str());
    let Some(outcome) = tried(&rt, word.as_str().trim(), name)? else {
        println!(&rt; "no such trial")?;
        return Ok(ExitCode::FAILURE);
    };
    match outcome.refused {
        Some(number) => println!(&rt; "refused: {number}")?,
        None => println!(&rt; "refused: none")?,
    }
    println!(&rt; "agrees: {}", outcome.agrees)?;
    Ok(ExitCode::SUCCESS)
}
