//! Sessions over memory, and over readers that give few bytes at once.

use crate::dialogues::reader::Pieces;
use bstr::{BStr, ByteVec};
use ksv::{End, Memory, describe, run, say};
use std::alloc::{AllocError, Global};
use std::fmt::Write;

/// The most bytes that are written.
const ROOM: usize = 65_536;

/// A description, and the bytes of a file.
#[derive(Clone, Copy)]
pub(crate) struct Given<'a> {
    pub(crate) ksy: &'a [u8],
    pub(crate) file: &'a [u8],
}

/// Adds what a session writes if it is given this many bytes at once, or the message for a description that is refused; returns how the session ends.
fn add_output(
    alloc: Global,
    given: Given<'_>,
    input: &[u8],
    step: usize,
    found: &mut String,
) -> Result<Option<End>, AllocError> {
    let mut writer = Memory::new(Vec::with_capacity(alloc, ROOM)?);
    let end = match describe(alloc, given.ksy) {
        Ok(desc) => {
            let file = given.file.to_vec(alloc)?;
            let mut reader = Pieces {
                left: input,
                step,
                reads_left: usize::MAX,
                failed: false,
                ended: false,
            };
            match run(alloc, &mut reader, &mut writer, desc, file) {
                Ok((_, end)) => Some(end),
                Err(_) => None,
            }
        }
        Err(stop) => {
            let _ = say(&stop, ["FILE", "KSY", ""], &mut writer);
            None
        }
    };
    write!(found, "{}", BStr::new(writer.bytes.as_slice()))?;
    Ok(end)
}

/// Adds what a session writes to these lines.
pub(crate) fn add_session(
    alloc: Global,
    given: Given<'_>,
    lines: &str,
    found: &mut String,
) -> Result<(), AllocError> {
    add_output(alloc, given, lines.as_bytes(), ROOM, found)?;
    Ok(())
}

/// Whether a session that is given this many bytes at once writes something else than this, or ends otherwise.
fn is_otherwise(
    alloc: Global,
    given: Given<'_>,
    input: &[u8],
    step: usize,
    (whole, end): (&str, Option<End>),
) -> Result<bool, AllocError> {
    let mut again = String::new(alloc);
    let ends = add_output(alloc, given, input, step, &mut again)?;
    Ok(again.as_str() != whole || ends != end)
}

/// Adds what a session writes to an input, after a line for each number of bytes at once with which it writes something else or ends
/// otherwise; returns how it ends.
fn add_in_pieces(
    alloc: Global,
    given: Given<'_>,
    input: &[u8],
    found: &mut String,
) -> Result<Option<End>, AllocError> {
    let mut whole = String::new(alloc);
    let end = add_output(alloc, given, input, 4096, &mut whole)?;
    for step in 1..4usize {
        if is_otherwise(alloc, given, input, step, (whole.as_str(), end))? {
            writeln!(found, "otherwise by {step} bytes at once")?;
        }
    }
    found.push_str(whole.as_str())?;
    Ok(end)
}

/// Adds what a session writes to these lines and how it ends, and where that differs if the reader gives few bytes
/// at once.
pub(crate) fn add_cut(
    alloc: Global,
    given: Given<'_>,
    lines: &str,
    found: &mut String,
) -> Result<(), AllocError> {
    let input = Vec::unescape_bytes(alloc, lines)?;
    let end = add_in_pieces(alloc, given, input.as_slice(), found)?;
    add_end(end, found)
}

/// Adds how a session ends.
fn add_end(end: Option<End>, found: &mut String) -> Result<(), AllocError> {
    match end {
        Some(end) => writeln!(found, "ends by {end:?}"),
        None => writeln!(found, "no session"),
    }
}

/// Adds what each line gives as the whole input of its own session, and where that differs if the reader gives few bytes at once.
pub(crate) fn add_inputs(
    alloc: Global,
    given: Given<'_>,
    lines: &str,
    found: &mut String,
) -> Result<(), AllocError> {
    for line in lines.lines() {
        let input = Vec::unescape_bytes(alloc, line)?;
        add_in_pieces(alloc, given, input.as_slice(), found)?;
    }
    Ok(())
}
