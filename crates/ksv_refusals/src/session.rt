//! A session, beside one with ample memory.

use crate::{Outcome, room};
use ksv::{Desc, Reply, Session, describe};
use ksv_bytes::{Buffer, Window};
use std::alloc::{AllocError, Global};
use std::io::{self, ErrorKind};

/// A description, and the bytes of a file.
#[derive(Clone, Copy)]
pub(crate) struct Given<'a> {
    pub(crate) ksy: &'a [u8],
    pub(crate) file: &'a [u8],
}

impl Given<'_> {
    /// The description.
    pub(crate) fn desc(self, alloc: Global) -> io::Result<Desc> {
        match describe(alloc, self.ksy) {
            Ok(desc) => Ok(desc),
            Err(_) => Err(io::Error::from(ErrorKind::InvalidData)),
        }
    }
}

/// What is done with a line that is refused memory.
#[derive(Clone, Copy, PartialEq, Eq)]
pub(crate) enum How {
    /// It has no reply.
    Once,
    /// It is given once more, and has that reply.
    Again,
}

/// A line of a session, and whether it may be refused memory.
#[derive(Clone, Copy)]
pub(crate) struct Line<'a> {
    text: &'a str,
    takes_memory: bool,
}

/// The lines of a text, each after a mark: `?` if it may be refused memory, a space if it takes none. Those that begin with `#`
/// are left out. With a line `stats` before the last one, if that is asked for.
pub(crate) fn lines_of(
    alloc: Global,
    text: &str,
    with_stats: bool,
) -> Result<Vec<Line<'_>>, AllocError> {
    let mut lines: Vec<Line<'_>> = Vec::new(alloc);
    for row in text.lines() {
        let Some((mark, text)) = row.split_at_checked(2) else {
            continue;
        };
        if mark.starts_with('#') {
            continue;
        }
        lines.push(Line {
            text,
            takes_memory: mark == "? ",
        })?;
    }
    if with_stats {
        let last = lines.pop();
        lines.push(Line {
            text: "stats",
            takes_memory: false,
        })?;
        if let Some(last) = last {
            lines.push(last)?;
        }
    }
    Ok(lines)
}

/// What a session replied.
#[derive(Drop)]
struct Played {
    /// The replies; for one to `stats`, whether it has its form.
    replies: Vec<u8>,
    /// The place of the last line that was refused memory.
    refused: Option<usize>,
    refusals: usize,
    /// Whether a reply had no room.
    is_cut: bool,
}

/// Whether a text is some decimal digits.
fn is_decimal(text: &str) -> bool {
    !text.is_empty() && text.bytes().all(|byte| byte.is_ascii_digit())
}

/// Whether a reply is `kept K turns T`, T being a number or `-`.
fn is_tally(reply: &str) -> bool {
    let Some(numbers) = reply.strip_prefix("kept ") else {
        return false;
    };
    let Some((kept, turns)) = numbers.split_once(" turns ") else {
        return false;
    };
    let turns = turns.trim_end_matches('\n');
    is_decimal(kept) && (turns == "-" || is_decimal(turns))
}

/// Notes the reply to a line; of a reply to `stats`, whether it has its form.
fn note(replies: &mut Vec<u8>, line: Line<'_>, reply: &Reply) -> Result<(), AllocError> {
    let bytes = reply.as_bytes();
    match str::from_utf8(bytes) {
        Ok(text) if line.text == "stats" => {
            let told = if is_tally(text) {
                "a tally\n"
            } else {
                "no tally\n"
            };
            replies.extend_from_slice(told.as_bytes())
        }
        _ => replies.extend_from_slice(bytes),
    }
}

/// Gives a session a line, and notes its reply. Whether it was refused memory, at first.
fn ask(session: &mut Session, played: &mut Played, line: Line<'_>, how: How) -> bool {
    let reply = session.line(line.text.as_bytes());
    let is_refused = matches!(&reply, Reply::NoMemory);
    if !is_refused {
        played.is_cut |= note(&mut played.replies, line, &reply).is_err();
    }
    if is_refused && how == How::Again {
        let reply = session.line(line.text.as_bytes());
        played.is_cut |= note(&mut played.replies, line, &reply).is_err();
    }
    is_refused
}

/// Gives a session each line but the one at a place, and notes the replies.
fn play(
    session: &mut Session,
    played: &mut Played,
    lines: &[Line<'_>],
    without: Option<usize>,
    how: How,
) {
    for (place, line) in lines.iter().enumerate() {
        if without != Some(place) && ask(session, played, *line, how) {
            played.refused = Some(place);
            played.refusals = played.refusals.saturating_add(1);
        }
    }
}

/// The bytes of a buffer, in a vector of their own.
fn bytes_of(alloc: Global, buffer: &Buffer) -> Result<Vec<u8>, AllocError> {
    let (front, back) = buffer.parts(Window {
        from: 0,
        to: buffer.len(),
    });
    let mut bytes = front.to_vec(alloc)?;
    bytes.extend_from_slice(back)?;
    Ok(bytes)
}

/// Plays lines in a session over a file whose bytes leave no room, with room for the replies. Returns what it replied and its bytes afterwards, if
/// there is a session.
fn play_anew(
    alloc: Global,
    desc: Desc,
    file: Vec<u8>,
    lines: &[Line<'_>],
    without: Option<usize>,
    how: How,
    replies: Vec<u8>,
) -> Option<(Played, Buffer)> {
    let mut played = Played {
        replies,
        refused: None,
        refusals: 0,
        is_cut: false,
    };
    match Session::new(alloc, desc, file) {
        Ok(mut session) => {
            play(&mut session, &mut played, lines, without, how);
            Some((played, session.into_buffer()))
        }
        Err(_) => None,
    }
}

/// What two sessions come to: the first one, in which memory may be refused, and one with ample memory.
fn outcome(
    alloc: Global,
    tried: &(Played, Buffer),
    ample: &(Played, Buffer),
    lines: &[Line<'_>],
) -> Result<Outcome, AllocError> {
    let (tried, buffer) = tried;
    let (ample, whole) = ample;
    let is_fair = match tried.refused {
        Some(place) => lines.get(place).is_some_and(|line| line.takes_memory),
        None => true,
    };
    let is_alone = tried.refusals <= 1 && ample.refusals == 0 && !tried.is_cut && !ample.is_cut;
    let bytes = bytes_of(alloc, buffer)?;
    let is_same = bytes.as_slice() == bytes_of(alloc, whole)?.as_slice();
    let has_same = tried.replies.as_slice() == ample.replies.as_slice();
    Ok(Outcome {
        refused: tried.refused.map(|place| place.saturating_add(1)),
        agrees: is_fair && is_alone && is_same && has_same,
    })
}

/// What was played, where there was a session.
fn whole(played: Option<(Played, Buffer)>) -> io::Result<(Played, Buffer)> {
    match played {
        Some(played) => Ok(played),
        None => Err(io::Error::from(ErrorKind::FileTooLarge)),
    }
}

/// Plays lines while memory may be refused.
fn play_tried(
    alloc: Global,
    desc: Desc,
    file: Vec<u8>,
    lines: &[Line<'_>],
    how: How,
) -> io::Result<(Played, Buffer)> {
    match room(alloc) {
        Ok(replies) => whole(play_anew(alloc, desc, file, lines, None, how, replies)),
        Err(refused) => {
            drop(desc);
            Err(io::Error::from(refused))
        }
    }
}

/// Plays lines with ample memory, and with room for the replies.
fn play_ample(
    alloc: Global,
    given: Given<'_>,
    lines: &[Line<'_>],
    without: Option<usize>,
    how: How,
    replies: Vec<u8>,
) -> io::Result<(Played, Buffer)> {
    let file = given.file.to_vec(alloc)?;
    match given.desc(alloc) {
        Ok(desc) => whole(play_anew(alloc, desc, file, lines, without, how, replies)),
        Err(error) => Err(error),
    }
}

/// Plays lines with ample memory after they were tried, and prints the replies: the same lines where a refused one was given again, else all
/// but the refused one.
fn serve_again(
    rt: &HostRuntime,
    given: Given<'_>,
    lines: &[Line<'_>],
    how: How,
    tried: &(Played, Buffer),
) -> io::Result<Outcome> {
    let alloc = rt.alloc();
    let replies = room(alloc)?;
    let without = if how == How::Again {
        None
    } else {
        tried.0.refused
    };
    let ample = play_ample(alloc, given, lines, without, how, replies)?;
    let text = str::from_utf8(ample.0.replies.as_slice()).unwrap_or("not UTF-8\n");
    print!(rt; "{text}")?;
    Ok(outcome(alloc, tried, &ample, lines)?)
}

/// Serves lines while memory may be refused, and then with ample memory.
pub(crate) fn serve(
    rt: &HostRuntime,
    given: Given<'_>,
    lines: &[Line<'_>],
    how: How,
) -> io::Result<Outcome> {
    let file = given.file.to_vec(rt.alloc())?;
    let tried = match given.desc(rt.alloc()) {
        Ok(desc) => play_tried(rt.alloc(), desc, file, lines, how)?,
        Err(error) => return Err(error),
    };
    serve_again(rt, given, lines, how, &tried)
}
