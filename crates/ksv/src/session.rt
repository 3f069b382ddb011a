//! The session of the program: the rules of nodes are run by the code of `ksv_rules`.
ghost use Rattle.std.specs.Prelude.{◌≡◌, ◌≤◌, ◌<◌, ◌+◌, ◌-◌, ◌^◌, ◌↔◌, false, length, IsTrue, IsErr, IfOk, OnErr};
ghost use Rattle.ksv_bytes.specs.Edits.{file_limit};
ghost use Rattle.ksv_desc.specs.Whole.{plain_pieces};
ghost use Rattle.ksv_session.specs.Runs.{Ended, took};

use ksv_bytes::Buffer;
use ksv_desc::Desc;
use ksv_lines::{Sink, Source};
use ksv_rules::DescriptionRules;
use ksv_session::{End, NewFault};
use std::alloc::Global;

/// A file that is explored by its description.
pub type Session = ksv_session::Session<DescriptionRules>;

/// Runs a session over the bytes of a file: reads command lines from the reader to the end of the input or to a
/// line `quit`, and writes the reply to each. Returns the current bytes and the reason of the end.
///
/// [`End::ReadFailed`] means that a read failed, or that 2^64 - 1 reads gave bytes; [`End::WriteFailed`] that a
/// write or a flush failed. The one error, of a file that is too large, comes before anything is read.
pub fn run<R: Source, W: Sink>(
    alloc: Global,
    reader: &mut R,
    writer: &mut W,
    desc: Desc,
    bytes: Vec<u8>,
) -> Result<(Buffer, End), NewFault>
    requires reads { R.failed reader.old ≡ false }
    requires goes_on { R.ended reader.old ≡ false }
    requires writes { W.failed writer.old ≡ false }
    ensures served { IsTrue R.tells → IfOk result (λ done.
        Ended done.1 (plain_pieces desc) bytes.items (R.bytes reader.old) (R.bytes reader.new) done.0 W.tells (took (W.bytes writer.old) (W.flushed writer.old)) (took (W.bytes writer.new) (W.flushed writer.new))) }
    ensures read_fault { IfOk result (λ done. IsTrue (R.failed reader.new) → done.1 ≡ End.ReadFailed) }
    ensures read_end { IsTrue R.tells → IfOk result (λ done. done.1 ≡ End.ReadFailed → R.failed reader.new ≡ false
        → 2 ^ 64 - 1 + length (R.bytes reader.new) ≤ length (R.bytes reader.old)) }
    ensures write_fault { IfOk result (λ done. IsTrue (W.failed writer.new) ↔ (done.1 ≡ End.WriteFailed)) }
    ensures too_large { IsErr result ↔ (file_limit < length bytes.items) }
    ensures untouched { OnErr result ((reader.new ≡ reader.old) × (writer.new ≡ writer.old)) }
{
    ksv_session::run::<DescriptionRules, R, W>(alloc, reader, writer, desc, bytes)
}
