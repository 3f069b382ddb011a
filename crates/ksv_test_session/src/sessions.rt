//! A file of the greatest size, and a session line by line.
//!
//! Values are by hand: the greatest size is the limit that docs/REFERENCE.md states, and the replies are those of its
//! first dialogue, read from three bytes; a session keeps five nodes for a second field, and takes ten turns.

use ksv::{Desc, End, Memory, NewFault, Session, describe, run};
use ksv_bytes::{Buffer, FILE_LIMIT, Window};
use std::alloc::Global;
use std::test::Fail;

/// The description of the first dialogue.
const FIRST: &[u8] = b"meta:\n  id: p\nseq:\n  - id: a\n    type: u1\n  - id: b\n    type: s2le\n";

/// A description that is accepted.
fn accepted(alloc: Global, ksy: &[u8]) -> Result<Desc, Fail> {
    match describe(alloc, ksy) {
        Ok(desc) => Ok(desc),
        Err(_) => Err(Fail::from("a description is refused")),
    }
}

/// What a session over memory writes.
fn output(alloc: Global, input: Vec<u8>, file: Vec<u8>) -> Result<Vec<u8>, Fail> {
    let mut reader = Memory::new(input);
    let mut writer = Memory::new(Vec::with_capacity(alloc, 100)?);
    let desc = accepted(alloc, FIRST)?;
    run(alloc, &mut reader, &mut writer, desc, file)?;
    Ok(writer.bytes)
}

/// Whether a session over a file that grows to 16 MiB, and no further, writes so.
fn is_limit_told(alloc: Global) -> Result<bool, Fail> {
    let input = b"app 00\nsize\n".to_vec(alloc)?;
    let found = output(alloc, input, vec![in alloc; 7u8; FILE_LIMIT]?)?;
    Ok(found.as_slice() == b"error: file too large\nsize 16777216\n".as_slice())
}

/// Whether the refusal of a file is this, and is told so.
fn is_told(alloc: Global, fault: NewFault) -> Result<bool, Fail> {
    let text = format!(in alloc; "{fault}")?;
    Ok(fault == NewFault::FileTooLarge && text.as_str() == "file too large")
}

/// Whether a file over the limit is refused.
fn is_refused(alloc: Global) -> Result<bool, Fail> {
    let large = vec![in alloc; 7u8; FILE_LIMIT + 1]?;
    let desc = accepted(alloc, FIRST)?;
    match Session::new(alloc, desc, large) {
        Ok(session) => {
            session.into_buffer();
            Ok(false)
        }
        Err(fault) => is_told(alloc, fault),
    }
}

#[test]
fn a_file_may_have_16_mib_and_no_more(rt: HostRuntime) -> Result<(), Fail> {
    let is_limit = is_limit_told(rt.alloc())? && is_refused(rt.alloc())?;
    assert!(rt; is_limit);
    Ok(())
}

/// Whether a session answers a line with this.
fn is_answered(session: &mut Session, line: &[u8], wanted: &[u8]) -> bool {
    session.line(line).as_bytes() == wanted
}

/// Whether a session over three bytes answers one line after the other, as it should.
fn are_answered(session: &mut Session) -> bool {
    let mut are_right = is_answered(session, b"stats", b"kept 0 turns 0\n");
    are_right &= is_answered(session, b"get /b", b"-2\n");
    are_right &= is_answered(session, b"app 00", b"ok 4\n");
    are_right &= is_answered(session, b"stats", b"kept 5 turns 10\n");
    are_right &= is_answered(session, b"", b"");
    are_right &= is_answered(session, b"quit", b"bye\n");
    are_right
}

/// Whether the first dialogue's description has its names.
fn is_named(desc: &Desc) -> bool {
    desc.type_id(0) == "p" && desc.number_of("b") == Some(1)
}

/// Whether a session over the first dialogue's description answers it, and has a byte more then.
fn is_right(alloc: Global) -> Result<bool, Fail> {
    let file = b"\x07\xfe\xff".to_vec(alloc)?;
    let desc = accepted(alloc, FIRST)?;
    let is_named = is_named(&desc);
    let mut session = Session::new(alloc, desc, file)?;
    let are_answered = are_answered(&mut session);
    Ok(session.into_buffer().len() == 4 && is_named && are_answered)
}

#[test]
fn a_session_answers_line_by_line(rt: HostRuntime) -> Result<(), Fail> {
    let is_right = is_right(rt.alloc())?;
    assert!(rt; is_right);
    Ok(())
}

/// A list of items, each with a size.
const ITEMS: &[u8] =
    b"meta: {id: k}\nseq:\n  - {id: magic, contents: [0x4b, 0x53]}\n  - {id: n, type: u1}\n  - {id: items, type: item, repeat: expr, repeat-expr: n}\ntypes:\n  item:\n    seq:\n      - {id: len, type: u1}\n      - {id: body, size: len}\n";

/// Two items.
const FILE: &[u8] = b"KS\x02\x01\xaa\x02\xbb\xcc";

/// Whether a buffer lends the file in two parts, cut at a place.
fn is_cut(buffer: &Buffer, place: usize) -> bool {
    let Some((front, back)) = FILE.split_at_checked(place) else {
        return false;
    };
    let (lent_front, lent_back) = buffer.parts(Window {
        from: 0,
        to: buffer.len(),
    });
    let is_front = lent_front == front;
    let is_back = lent_back == back;
    is_front && is_back
}

/// Whether a session that inserts a byte at a place and deletes it answers as before, and hands the bytes back with
/// the gap there.
fn is_answered_around(alloc: Global, place: usize) -> Result<bool, Fail> {
    let input = format!(in alloc;
        "ins {place} ff\ndel {place} 1\nget /items/1/body\nget /magic\nquit\n"
    )?;
    let mut reader = Memory::new(input.into_bytes());
    let mut writer = Memory::new(Vec::with_capacity(alloc, 100)?);
    let file = FILE.to_vec(alloc)?;
    let desc = accepted(alloc, ITEMS)?;
    let (buffer, end) = run(alloc, &mut reader, &mut writer, desc, file)?;
    let mut is_right = writer.bytes.as_slice()
        == b"ok 9\nok 8\nhex bbcc\nhex 4b53\nbye\n".as_slice();
    is_right &= end == End::Quit;
    is_right &= is_cut(&buffer, place);
    Ok(is_right)
}

#[test]
fn a_session_answers_around_the_gap(rt: HostRuntime) -> Result<(), Fail> {
    let mut are_right = true;
    for place in 0..9usize {
        are_right &= is_answered_around(rt.alloc(), place)?;
    }
    assert!(rt; are_right);
    Ok(())
}
