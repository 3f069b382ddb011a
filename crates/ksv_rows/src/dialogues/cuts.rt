//! Files and descriptions that are cut at each byte.

use crate::dialogues::sessions::{Given, add_session};
use crate::dialogues::spans::add_spans;
use ksv::{Memory, describe, say};
use std::alloc::{AllocError, Global};
use std::fmt::Write;

/// The most bytes of a message.
const ROOM: usize = 256;

/// Adds the lines by which a session gets bytes after its last one, and loses them again.
fn add_edits(
    alloc: Global,
    size: usize,
    more: &[u8],
    lines: &mut String,
) -> Result<(), AllocError> {
    if more.is_empty() {
        return Ok(());
    }
    let digits = hex::encode(alloc, more)?;
    write!(lines, "app {digits}\ndel {size} {}\n", more.len())
}

/// Adds the replies to those lines.
fn add_edited(size: usize, more: &[u8], replies: &mut String) -> Result<(), AllocError> {
    if more.is_empty() {
        return Ok(());
    }
    let whole = size.saturating_add(more.len());
    write!(replies, "ok {whole}\nok {size}\n")
}

/// What a session replies over a file that gets more bytes, loses them again and is asked these lines.
fn once_edited(
    alloc: Global,
    cut: Given<'_>,
    more: &[u8],
    lines: &str,
) -> Result<String, AllocError> {
    let mut input = String::new(alloc);
    add_edits(alloc, cut.file.len(), more, &mut input)?;
    input.push_str(lines)?;
    let mut again = String::new(alloc);
    add_session(alloc, cut, input.as_str(), &mut again)?;
    Ok(again)
}

/// Whether that is otherwise than these replies after those to the edits.
fn is_otherwise(
    alloc: Global,
    cut: Given<'_>,
    more: &[u8],
    lines: &str,
    replies: &str,
) -> Result<bool, AllocError> {
    let mut wanted = String::new(alloc);
    add_edited(cut.file.len(), more, &mut wanted)?;
    wanted.push_str(replies)?;
    let again = once_edited(alloc, cut, more, lines)?;
    Ok(again.as_str() != wanted.as_str())
}

/// Adds the replies to lines over a file that ends at a place, each after that place; and whether a session over the same bytes, which gets
/// the ones after the place and loses them again, replies otherwise.
fn add_cut(
    alloc: Global,
    given: Given<'_>,
    place: usize,
    lines: &str,
    found: &mut String,
) -> Result<(), AllocError> {
    let Some((front, back)) = given.file.split_at_checked(place) else {
        return Ok(());
    };
    let cut = Given {
        file: front,
        ..given
    };
    let mut replies = String::new(alloc);
    add_session(alloc, cut, lines, &mut replies)?;
    for reply in replies.as_str().lines() {
        writeln!(found, "{place}: {reply}")?;
    }
    if is_otherwise(alloc, cut, back, lines, replies.as_str())? {
        writeln!(found, "{place}: otherwise once bytes came and went")?;
    }
    Ok(())
}

/// Adds the same for each place of a file, its end among them.
pub(crate) fn add_cuts(
    alloc: Global,
    given: Given<'_>,
    lines: &str,
    found: &mut String,
) -> Result<(), AllocError> {
    for place in 0..=given.file.len() {
        add_cut(alloc, given, place, lines, found)?;
    }
    Ok(())
}

/// That a text describes files, or the message that it doesn't.
fn verdict(alloc: Global, ksy: &[u8]) -> Result<String, AllocError> {
    let mut verdict = String::new(alloc);
    let Err(stop) = describe(alloc, ksy) else {
        verdict.push_str("accepted\n")?;
        return Ok(verdict);
    };
    let mut message = Memory::new(Vec::with_capacity(alloc, ROOM)?);
    let _ = say(&stop, ["FILE", "KSY", ""], &mut message);
    verdict.push_str(str::from_utf8(message.bytes.as_slice()).unwrap_or("not UTF-8\n"))?;
    Ok(verdict)
}

/// Adds the verdicts on a text that is cut at each place, its end among them.
pub(crate) fn add_prefixes(
    alloc: Global,
    ksy: &[u8],
    found: &mut String,
) -> Result<(), AllocError> {
    let mut verdicts = Vec::new(alloc);
    for place in 0..=ksy.len() {
        verdicts.push(verdict(alloc, &ksy[..place])?)?;
    }
    add_spans(verdicts.as_slice(), found)
}
