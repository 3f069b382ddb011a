//! Edits of a buffer that has no room for them: one that is refused memory leaves the bytes.

use crate::{Outcome, room};
use ksv_bytes::{Buffer, EditRefusal, Window};
use std::alloc::{AllocError, Global};

/// The first bytes of the buffer, in a vector that has room for no more.
const FIRST: &[u8] = b"abcd";

/// How many edits are tried.
const EDITS: usize = 9;

/// How many bytes an edit puts in: more than a buffer keeps room for after the edit before it.
const COUNT: usize = 300;

/// What an edit puts in.
const MORE: &[u8] = &[b'.'; COUNT];

/// Whether a buffer has these bytes.
fn has(buffer: &Buffer, wanted: &[u8]) -> bool {
    let (front, back) = buffer.parts(Window {
        from: 0,
        to: buffer.len(),
    });
    match wanted.strip_prefix(front) {
        Some(rest) => rest == back,
        None => false,
    }
}

/// Puts the same bytes into a vector that has room for them.
fn put(bytes: &mut Vec<u8>, place: usize) -> Result<(), AllocError> {
    for byte in MORE {
        let place = place.min(bytes.len());
        bytes.insert(place, *byte)?;
    }
    Ok(())
}

/// Where an edit puts its bytes.
#[derive(Clone, Copy)]
enum Place {
    /// At the front, in the middle and at the end, by turns.
    Anywhere,
    /// Behind the last byte.
    Behind,
}

/// Makes one edit of a buffer, and of a vector that has its bytes where it is made. Whether it was refused memory.
fn edit(
    buffer: &mut Buffer,
    bytes: &mut Vec<u8>,
    place: Place,
    number: usize,
) -> Result<bool, AllocError> {
    let at = bytes.len() / 2 * (number % 3);
    let edited = match place {
        Place::Anywhere => buffer.insert(at, MORE),
        Place::Behind => buffer.append(MORE),
    };
    match (edited, place) {
        (Ok(()), Place::Anywhere) => put(bytes, at)?,
        (Ok(()), Place::Behind) => put(bytes, bytes.len())?,
        (Err(refusal), _) => return Ok(refusal == EditRefusal::NoMemory),
    }
    Ok(false)
}

/// Makes edits of a buffer while memory may be refused, and looks at its bytes after each. As many as aren't refused memory are made.
fn edits(alloc: Global, place: Place) -> Result<Outcome, AllocError> {
    let Ok(mut buffer) = Buffer::new(FIRST.to_vec(alloc)?) else {
        return Err(AllocError);
    };
    let (mut refused, mut refusals, mut is_right) = (None, 0usize, true);
    let mut bytes = room(alloc)?;
    bytes.extend_from_slice(FIRST)?;
    for number in 0..EDITS {
        if edit(&mut buffer, &mut bytes, place, number)? {
            refused = Some(number.saturating_add(1));
            refusals = refusals.saturating_add(1);
        }
        is_right &= has(&buffer, bytes.as_slice());
    }
    let mut wanted = room(alloc)?;
    wanted.extend_from_slice(bytes.as_slice())?;
    let made = EDITS.saturating_sub(refusals);
    let is_whole = wanted.len() == FIRST.len() + made.saturating_mul(COUNT);
    Ok(Outcome {
        refused,
        agrees: is_right && is_whole && refusals <= 1,
    })
}

/// Inserts of bytes at the front, in the middle and at the end.
pub(crate) fn inserts(alloc: Global) -> Result<Outcome, AllocError> {
    edits(alloc, Place::Anywhere)
}

/// Bytes put after the last one.
pub(crate) fn appends(alloc: Global) -> Result<Outcome, AllocError> {
    edits(alloc, Place::Behind)
}
