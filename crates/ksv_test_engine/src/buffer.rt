//! Edits of a buffer, its limit, and what an edit touches.
//!
//! Where the values are from: by hand. The bytes after an edit, and the parts of a window, were written down by cutting the text in
//! the test at the edit's place, with the gap where the last insert or delete ended. A refusal is the first that holds of: a range
//! that isn't in the file, nothing to do, a file over the limit. Of the touched uses: an overwrite touches a range of bytes that it
//! meets; a shift one that ends after its place, a reach over its place and the size; an append the size alone.

use ksv_bytes::{Buffer, Change, EditRefusal, FILE_LIMIT, Use, Window, touches};
use std::alloc::{AllocError, Global};
use std::test::Fail;

/// Whether a refused edit is out of the file.
fn is_outside(edited: Result<(), EditRefusal>) -> bool {
    matches!(edited, Err(EditRefusal::Outside))
}

/// Whether a refused edit has nothing to do.
fn is_nothing(edited: Result<(), EditRefusal>) -> bool {
    matches!(edited, Err(EditRefusal::NothingToDo))
}

/// Whether a buffer of the bytes `abcd` is edited, or refuses an edit.
fn is_edited(buffer: &mut Buffer) -> bool {
    let mut is_edited = !buffer.is_empty();
    is_edited &= buffer.overwrite(1, b"XY").is_ok();
    is_edited &= is_outside(buffer.overwrite(3, b"xy"));
    is_edited &= is_outside(buffer.overwrite(5, b""));
    is_edited &= is_nothing(buffer.overwrite(4, b""));
    is_edited &= is_outside(buffer.overwrite(usize::MAX, b"x"));
    is_edited &= buffer.append(b"e").is_ok();
    is_edited &= is_nothing(buffer.append(b""));
    is_edited &= buffer.len() == 5;
    is_edited &= is_cut(buffer, Window { from: 0, to: 5 }, b"aXYde", b"");
    is_edited
}

#[test]
fn edits_or_refuses(rt: HostRuntime) -> Result<(), Fail> {
    let mut buffer = Buffer::new(b"abcd".to_vec(rt.alloc())?)?;
    let is_edited = is_edited(&mut buffer);
    drop(buffer);
    assert!(rt; is_edited);
    Ok(())
}

/// Whether a window of a buffer is these bytes before the gap, and those after it.
fn is_cut(buffer: &Buffer, window: Window, front: &[u8], back: &[u8]) -> bool {
    if window.from > window.to || window.to > buffer.len() {
        return false;
    }
    let (first, second) = buffer.parts(window);
    first == front && second == back
}

/// Whether a buffer has these bytes.
fn has(buffer: &Buffer, wanted: &[u8]) -> bool {
    let (front, back) = buffer.parts(Window {
        from: 0,
        to: buffer.len(),
    });
    match wanted.strip_prefix(front) {
        Some(rest) => rest == back,
        None => false,
    }
}

/// Whether bytes are put anywhere into a buffer of the bytes `bd`, and nowhere else.
fn is_put_in(buffer: &mut Buffer) -> bool {
    let mut is_put = buffer.insert(0, b"a").is_ok();
    is_put &= buffer.insert(2, b"cC").is_ok();
    is_put &= buffer.insert(5, b"e").is_ok();
    is_put &= has(buffer, b"abcCde");
    is_put &= is_outside(buffer.insert(7, b"x"));
    is_put &= is_outside(buffer.insert(7, b""));
    is_put &= is_outside(buffer.insert(usize::MAX, b"x"));
    is_put &= is_nothing(buffer.insert(6, b""));
    is_put &= has(buffer, b"abcCde");
    is_put
}

#[test]
fn inserts_anywhere(rt: HostRuntime) -> Result<(), Fail> {
    let mut buffer = Buffer::new(b"bd".to_vec(rt.alloc())?)?;
    let is_put = is_put_in(&mut buffer);
    drop(buffer);
    assert!(rt; is_put);
    Ok(())
}

/// Whether bytes are taken out anywhere of a buffer of the bytes `abcdef`, and nowhere else.
fn is_taken_out(buffer: &mut Buffer) -> bool {
    let mut is_cut = is_outside(buffer.delete(7, 0));
    is_cut &= is_outside(buffer.delete(3, 4));
    is_cut &= is_outside(buffer.delete(1, usize::MAX));
    is_cut &= is_nothing(buffer.delete(6, 0));
    is_cut &= has(buffer, b"abcdef");
    is_cut &= buffer.delete(0, 1).is_ok();
    is_cut &= buffer.delete(1, 2).is_ok();
    is_cut &= has(buffer, b"bef");
    is_cut &= buffer.delete(2, 1).is_ok();
    is_cut &= has(buffer, b"be");
    is_cut &= buffer.delete(0, 2).is_ok();
    is_cut && buffer.is_empty()
}

#[test]
fn deletes_anywhere(rt: HostRuntime) -> Result<(), Fail> {
    let mut buffer = Buffer::new(b"abcdef".to_vec(rt.alloc())?)?;
    let is_cut = is_taken_out(&mut buffer);
    drop(buffer);
    assert!(rt; is_cut);
    Ok(())
}

/// Whether an insert and a delete at a place leave the bytes as they were, in front of the place and after it.
fn is_cut_at(alloc: Global, bytes: &[u8], place: usize) -> Result<bool, Fail> {
    if place > bytes.len() {
        return Ok(false);
    }
    let mut buffer = Buffer::new(bytes.to_vec(alloc)?)?;
    let is_put = buffer.insert(place, b"xyz").is_ok();
    let is_cut_out = buffer.delete(place, 3).is_ok();
    let whole = Window {
        from: 0,
        to: bytes.len(),
    };
    Ok(is_put && is_cut_out && is_cut(&buffer, whole, &bytes[..place], &bytes[place..]))
}

/// Whether windows of a buffer of the bytes `abcdef`, once one of them was replaced, are lent in two parts.
fn is_lent(buffer: &mut Buffer) -> bool {
    let mut is_lent = buffer.delete(3, 1).is_ok();
    is_lent &= buffer.insert(3, b"D").is_ok();
    is_lent &= is_cut(buffer, Window { from: 1, to: 3 }, b"bc", b"");
    is_lent &= is_cut(buffer, Window { from: 2, to: 5 }, b"c", b"De");
    is_lent &= is_cut(buffer, Window { from: 3, to: 5 }, b"", b"De");
    is_lent &= is_cut(buffer, Window { from: 6, to: 6 }, b"", b"");
    is_lent
}

#[test]
fn lends_a_window_in_two_parts(rt: HostRuntime) -> Result<(), Fail> {
    let mut are_cut = true;
    for place in 0..9usize {
        are_cut &= is_cut_at(rt.alloc(), b"KS\x02\x01\xaa\x02\xbb\xcc", place)?;
    }
    assert!(rt; are_cut);
    let mut buffer = Buffer::new(b"abcdef".to_vec(rt.alloc())?)?;
    let is_lent = is_lent(&mut buffer);
    drop(buffer);
    assert!(rt; is_lent);
    Ok(())
}

/// Whether edits on both sides of the gap and across it are written into a buffer of the bytes `abcdef`.
fn is_written(buffer: &mut Buffer) -> bool {
    let mut is_written = buffer.delete(3, 1).is_ok();
    is_written &= buffer.overwrite(2, b"CE").is_ok();
    is_written &= has(buffer, b"abCEf");
    is_written &= buffer.overwrite(0, b"AB").is_ok();
    is_written &= buffer.overwrite(4, b"F").is_ok();
    is_written &= has(buffer, b"ABCEF");
    is_written &= buffer.insert(3, b"D").is_ok();
    is_written &= buffer.append(b"G").is_ok();
    is_written &= buffer.insert(0, b"_").is_ok();
    is_written &= buffer.append(b"H").is_ok();
    is_written &= has(buffer, b"_ABCDEFGH");
    is_written
}

#[test]
fn edits_around_the_gap(rt: HostRuntime) -> Result<(), Fail> {
    let mut buffer = Buffer::new(b"abcdef".to_vec(rt.alloc())?)?;
    let is_written = is_written(&mut buffer);
    drop(buffer);
    assert!(rt; is_written);
    Ok(())
}

#[test]
fn grows_at_one_place(rt: HostRuntime) -> Result<(), Fail> {
    let mut buffer = Buffer::new(Vec::new(rt.alloc()))?;
    let mut is_put = true;
    for count in 0..2_000usize {
        is_put &= buffer.insert(0, &[(count % 251) as u8]).is_ok();
    }
    let last = is_cut(&buffer, Window { from: 0, to: 1 }, b"", &[242]);
    let first = is_cut(
        &buffer,
        Window {
            from: 1_999,
            to: 2_000,
        },
        b"",
        &[0],
    );
    assert!(rt; is_put && last && first);
    Ok(())
}

/// This many bytes.
fn sevens(alloc: Global, count: usize) -> Result<Vec<u8>, AllocError> {
    vec![in alloc; 7u8; count]
}

/// Whether a buffer of this many bytes is made, and refuses one more.
fn is_full(alloc: Global, count: usize) -> Result<bool, AllocError> {
    match Buffer::new(sevens(alloc, count)?) {
        Ok(mut full) => {
            let is_refused = full.append(b"x") == Err(EditRefusal::TooLarge)
                && full.insert(0, b"x") == Err(EditRefusal::TooLarge);
            Ok(is_refused && full.len() == count)
        }
        Err(_) => Ok(false),
    }
}

/// Whether this many bytes make no buffer and are handed back.
fn is_too_large(alloc: Global, count: usize) -> Result<bool, AllocError> {
    match Buffer::new(sevens(alloc, count)?) {
        Ok(_) => Ok(false),
        Err(large) => Ok(large.bytes.len() == count),
    }
}

#[test]
fn holds_no_more_than_the_limit(rt: HostRuntime) -> Result<(), Fail> {
    let is_held = is_full(rt.alloc(), FILE_LIMIT)?;
    let is_refused = is_too_large(rt.alloc(), FILE_LIMIT + 1)?;
    assert!(rt; is_held && is_refused);
    Ok(())
}

/// Whether an overwrite of two bytes at 2, an insert and a delete of one there, and an append touch a use as
/// stated.
fn is_touched(used: Use, by_overwrite: bool, by_shift: bool, by_append: bool) -> bool {
    touches(Change::Overwrite { at: 2, n: 2 }, used) == by_overwrite
        && touches(Change::Insert { at: 2, n: 1 }, used) == by_shift
        && touches(Change::Delete { at: 2, n: 1 }, used) == by_shift
        && touches(Change::Append, used) == by_append
}

#[test]
fn touches_what_an_edit_may_change(rt: HostRuntime) {
    let is_right = is_touched(Use::Bytes(0, 2), false, false, false)
        && is_touched(Use::Bytes(0, 3), true, true, false)
        && is_touched(Use::Bytes(3, 4), true, true, false)
        && is_touched(Use::Bytes(4, 9), false, true, false)
        && is_touched(Use::Reach(2), false, false, false)
        && is_touched(Use::Reach(3), false, true, false)
        && is_touched(Use::Size, false, true, true);
    assert!(rt; is_right);
}
