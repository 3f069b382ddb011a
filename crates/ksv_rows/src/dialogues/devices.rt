//! Sessions over devices that fail after each number of calls.
ghost use Rattle.std.specs.Prelude.{◌≡◌, false};

use crate::dialogues::reader::Pieces;
use crate::dialogues::sessions::{Given, add_session};
use crate::dialogues::spans::add_spans;
use crate::dialogues::writers::{Brittle, Stuck};
use bstr::ByteSlice;
use ksv::{End, Memory, Sink, Source, Std, describe, run};
use ksv_bytes::{Buffer, Window};
use std::alloc::{AllocError, Global};
use std::fmt::Write;

/// The most bytes that are written.
const ROOM: usize = 65_536;

/// A call that no session makes.
const NEVER: usize = usize::MAX;

/// What fails, and after how many calls.
#[derive(Clone, Copy)]
pub(crate) enum Failing {
    /// The reader, which gives a byte at once.
    Reader,
    /// The writer, which takes a byte at once; a flush is a call too.
    Writer,
    /// A writer of std, which then takes nothing.
    StdWriter,
}

/// A session's end, and the bytes of its file, if there was one.
type Ended = Option<(End, Buffer)>;

/// Runs a session over devices.
fn end_over<R: Source, W: Sink>(
    alloc: Global,
    given: Given<'_>,
    reader: &mut R,
    writer: &mut W,
) -> Result<Ended, AllocError>
    requires reads { R.failed reader.old ≡ false }
    requires goes_on { R.ended reader.old ≡ false }
    requires writes { W.failed writer.old ≡ false }
{
    let Ok(desc) = describe(alloc, given.ksy) else {
        return Ok(None);
    };
    let file = given.file.to_vec(alloc)?;
    match run(alloc, reader, writer, desc, file) {
        Ok((buffer, end)) => Ok(Some((end, buffer))),
        Err(_) => Ok(None),
    }
}

/// What a session over a device that fails after this many calls came to, and what it wrote, where that is known.
fn broken(
    alloc: Global,
    given: Given<'_>,
    lines: &str,
    failing: Failing,
    calls: usize,
) -> Result<(Ended, Vec<u8>), AllocError> {
    let (is_reader, is_writer) = match failing {
        Failing::Reader => (true, false),
        Failing::Writer => (false, true),
        Failing::StdWriter => (false, false),
    };
    let mut reader = Pieces {
        left: lines.as_bytes(),
        step: if is_reader { 1 } else { ROOM },
        reads_left: if is_reader { calls } else { NEVER },
        failed: false,
        ended: false,
    };
    if is_reader {
        let mut writer = Memory::new(Vec::with_capacity(alloc, ROOM)?);
        let ended = end_over(alloc, given, &mut reader, &mut writer)?;
        return Ok((ended, writer.bytes));
    }
    if is_writer {
        let mut writer = Brittle {
            taken: Vec::with_capacity(alloc, ROOM)?,
            calls_left: calls,
            failed: false,
        };
        let ended = end_over(alloc, given, &mut reader, &mut writer)?;
        return Ok((ended, writer.taken));
    }
    let mut writer = Std::new(Stuck { writes_left: calls });
    let ended = end_over(alloc, given, &mut reader, &mut writer)?;
    Ok((ended, Vec::new(alloc)))
}

/// Adds the bytes of a buffer in hexadecimal digits.
fn add_bytes(alloc: Global, buffer: &Buffer, told: &mut String) -> Result<(), AllocError> {
    let (front, back) = buffer.parts(Window {
        from: 0,
        to: buffer.len(),
    });
    told.push_str(hex::encode(alloc, front)?.as_str())?;
    told.push_str(hex::encode(alloc, back)?.as_str())
}

/// Adds the end of a session, the bytes of its file and how many whole lines it wrote; and whether these aren't the first of all that a session over
/// whole devices writes.
fn told(alloc: Global, ended: &Ended, written: &[u8], whole: &str) -> Result<String, AllocError> {
    let mut told = String::new(alloc);
    let Some((end, buffer)) = ended else {
        told.push_str("no session\n")?;
        return Ok(told);
    };
    let lines = written.find_iter(b"\n").count();
    write!(&mut told, "{lines} lines, file ")?;
    add_bytes(alloc, buffer, &mut told)?;
    write!(&mut told, ", {end:?}")?;
    if !whole.as_bytes().starts_with(written) {
        told.push_str(", other lines")?;
    }
    told.push('\n')?;
    Ok(told)
}

/// Adds what sessions over these lines come to, for each number of calls after which a device fails, up to the first that is enough for all.
pub(crate) fn add_broken(
    alloc: Global,
    given: Given<'_>,
    lines: &str,
    failing: Failing,
    found: &mut String,
) -> Result<(), AllocError> {
    let mut whole = String::new(alloc);
    add_session(alloc, given, lines, &mut whole)?;
    let mut all = Vec::new(alloc);
    for calls in 0..ROOM {
        let (ended, written) = broken(alloc, given, lines, failing, calls)?;
        all.push(told(alloc, &ended, written.as_slice(), whole.as_str())?)?;
        if !matches!(ended, Some((End::ReadFailed | End::WriteFailed, _))) {
            break;
        }
    }
    add_spans(all.as_slice(), found)
}
