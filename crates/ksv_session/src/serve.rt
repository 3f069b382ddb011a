//! A session over devices.
ghost use Rattle.std.specs.Prelude.{◌≡◌, ◌≢◌, ◌≤◌, ◌<◌, ◌+◌, ◌-◌, ◌^◌, ◌↔◌, ◌++◌, List, ℕ, false, [], length, IsTrue, is_err, IsErr, IfOk, OnErr};
ghost use Rattle.ksv_bytes.specs.Edits.{file_limit};
ghost use Rattle.ksv_session.specs.Code.{Answered, Fed, Stands};
ghost use Rattle.ksv_desc.specs.Description.{Description};
ghost use Rattle.ksv_desc.specs.Whole.{plain_pieces};
ghost use Rattle.ksv_session.specs.Explored.{description_of};
ghost use Rattle.ksv_session.specs.Kept.{Holds, nothing_kept};
ghost use Rattle.ksv_session.specs.Runs.{Ended, Taken, took};

use crate::session::{NewFault, Session};
use ksv_bytes::Buffer;
use ksv_desc::Desc;
use ksv_lines::{Failed, LineBuffer, Sink, Source, send};
use ksv_rule_meaning::NodeRules;
use std::alloc::Global;

/// Why a session ended.
#[derive(Clone, Copy, Debug, PartialEq, Eq)]
pub enum End {
    /// The line `quit` was read.
    Quit,
    /// The input ended.
    Input,
    /// A read failed.
    ReadFailed,
    /// A write or a flush failed.
    WriteFailed,
}

/// How much is read at once.
const PIECE_ROOM: usize = 4096;

/// Answers one line, and returns whether it was the last.
fn answer_line<N: NodeRules, W: Sink>(
    session: &mut Session<N>,
    line: &[u8],
    writer: &mut W,
) -> Result<bool, Failed>
    requires { W.failed writer.old ≡ false }
    ensures answered { Answered session.old line.now session.new W.tells (took (W.bytes writer.old) (W.flushed writer.old)) (took (W.bytes writer.new) (W.flushed writer.new)) result }
    ensures fault { W.failed writer.new ≡ is_err result }
{
    let reply = session.line(line);
    match send(writer, reply.as_bytes()) {
        Ok(()) => Ok(reply.is_last()),
        Err(failed) => Err(failed),
    }
}

/// Takes a piece of the input, answers each line that it ends, and returns whether the session ended.
fn feed<N: NodeRules, W: Sink>(
    session: &mut Session<N>,
    line: &mut LineBuffer,
    piece: &[u8],
    writer: &mut W,
) -> Result<bool, Failed>
    requires { W.failed writer.old ≡ false }
    ensures goes { (d : Description) (begin taken : List ℕ) (before : Taken) (left : List ℕ) → description_of session.old ≡ d
        → Stands d begin taken session.old line.old W.tells before (took (W.bytes writer.old) (W.flushed writer.old))
        → Fed d begin (taken ++ piece.now) (taken ++ (piece.now ++ left)) session.new line.new W.tells before (took (W.bytes writer.new) (W.flushed writer.new)) result }
    ensures kept { description_of session.new ≡ description_of session.old }
    ensures fault { W.failed writer.new ≡ is_err result }
{
    for byte in piece {
        if *byte == b'\n' {
            match answer_line(session, line.as_slice(), writer) {
                Ok(true) => return Ok(true),
                Ok(false) => line.clear(),
                Err(failed) => return Err(failed),
            }
        } else {
            line.push(*byte);
        }
    }
    Ok(false)
}

/// Answers what comes after the last LF.
fn finish<N: NodeRules, W: Sink>(session: &mut Session<N>, line: &LineBuffer, writer: &mut W) -> End
    requires { W.failed writer.old ≡ false }
    ensures goes { (d : Description) (begin taken : List ℕ) (before : Taken) → description_of session.old ≡ d
        → Stands d begin taken session.old line.now W.tells before (took (W.bytes writer.old) (W.flushed writer.old))
        → Ended result d begin taken [] session.new.bytes W.tells before (took (W.bytes writer.new) (W.flushed writer.new)) }
    ensures fault { IsTrue (W.failed writer.new) ↔ (result ≡ End.WriteFailed) }
    ensures reads { result ≢ End.ReadFailed }
{
    match answer_line(session, line.as_slice(), writer) {
        Ok(true) => End::Quit,
        Ok(false) => End::Input,
        Err(_) => End::WriteFailed,
    }
}

/// Serves a session that has begun: reads lines to the end of the input or to `quit`, and answers each.
fn serve<N: NodeRules, R: Source, W: Sink>(
    reader: &mut R,
    writer: &mut W,
    session: &mut Session<N>,
) -> End
    requires begun { Holds session.old nothing_kept }
    requires reads { R.failed reader.old ≡ false }
    requires goes_on { R.ended reader.old ≡ false }
    requires writes { W.failed writer.old ≡ false }
    ensures served { IsTrue R.tells →
        Ended result (description_of session.old) session.old.bytes (R.bytes reader.old) (R.bytes reader.new) session.new.bytes W.tells (took (W.bytes writer.old) (W.flushed writer.old)) (took (W.bytes writer.new) (W.flushed writer.new)) }
    ensures read_fault { IsTrue (R.failed reader.new) → result ≡ End.ReadFailed }
    ensures read_end { result ≡ End.ReadFailed → R.failed reader.new ≡ false → IsTrue R.tells
        → 2 ^ 64 - 1 + length (R.bytes reader.new) ≤ length (R.bytes reader.old) }
    ensures write_fault { IsTrue (W.failed writer.new) ↔ (result ≡ End.WriteFailed) }
{
    let mut line = LineBuffer::new();
    let mut piece = [0u8; PIECE_ROOM];
    for turn in 0..u64::MAX {
        let count = match reader.read(&mut piece) {
            Ok(count) => count,
            Err(_) => return End::ReadFailed,
        };
        if count == 0 {
            return finish(session, &line, writer);
        }
        match feed(session, &mut line, &piece[..count], writer) {
            Ok(false) => {}
            Ok(true) => return End::Quit,
            Err(_) => return End::WriteFailed,
        }
    }
    End::ReadFailed
}

/// Runs a session over the bytes of a file: reads command lines from the reader to the end of the input or to a
/// line `quit`, and writes the reply to each. Returns the current bytes, and why the session ended.
///
/// [`End::ReadFailed`] means that a read failed, or that 2^64 - 1 reads gave bytes; [`End::WriteFailed`] that a
/// write or a flush failed. The one error, of a file that is too large, comes before anything is read.
#[tactic(auto, unfolding(crate::specs::Explored::description_of))]
pub fn run<N: NodeRules, R: Source, W: Sink>(
    alloc: Global,
    reader: &mut R,
    writer: &mut W,
    desc: Desc,
    bytes: Vec<u8>,
) -> Result<(Buffer, End), NewFault>
    requires reads { R.failed reader.old ≡ false }
    requires goes_on { R.ended reader.old ≡ false }
    requires writes { W.failed writer.old ≡ false }
    ensures served { IsTrue R.tells → IfOk result (λ done.
        Ended done.1 (plain_pieces desc) bytes.items (R.bytes reader.old) (R.bytes reader.new) done.0 W.tells (took (W.bytes writer.old) (W.flushed writer.old)) (took (W.bytes writer.new) (W.flushed writer.new))) }
    ensures read_fault { IfOk result (λ done. IsTrue (R.failed reader.new) → done.1 ≡ End.ReadFailed) }
    ensures read_end { IsTrue R.tells → IfOk result (λ done. done.1 ≡ End.ReadFailed → R.failed reader.new ≡ false
        → 2 ^ 64 - 1 + length (R.bytes reader.new) ≤ length (R.bytes reader.old)) }
    ensures write_fault { IfOk result (λ done. IsTrue (W.failed writer.new) ↔ (done.1 ≡ End.WriteFailed)) }
    ensures too_large { IsErr result ↔ (file_limit < length bytes.items) }
    ensures untouched { OnErr result ((reader.new ≡ reader.old) × (writer.new ≡ writer.old)) }
{
    let mut session: Session<N> = Session::new(alloc, desc, bytes)?;
    let end = serve(reader, writer, &mut session);
    Ok((session.into_buffer(), end))
}
