//! How a turn reads the bytes of the file, and what these readings rest on.

ghost use Rattle.std.specs.Prelude.{◌≡◌, ◌≤◌, ◌<◌, ◌+◌, length, slice_range, IfOk, IfSome};
ghost use Rattle.ksv_bytes.specs.Edits.{file_limit};
ghost use Rattle.ksv_expr_value.specs.Bytes.{content};
ghost use Rattle.ksv_nodes.specs.Reading.{first_at, end_in};
ghost use Rattle.ksv_nodes.specs.Rule.{reach, finish, done, peek, find};
ghost use Rattle.ksv_nodes.specs.Turning.{Runs, StandsBelow};

use crate::search::first_in_parts;
use crate::turn::{Halt, Turn};
use ksv_bytes::{Use, Window};
use ksv_expr_value::{FaultKind, Parts, Place, Stream};

/// Where the first byte of a value is in a stream.
#[derive(Clone, Copy, Debug)]
pub enum Found {
    /// It is the byte of this number.
    At(u32),
    /// Nowhere; the byte of this number is the first after the stream.
    Missing(u32),
}

impl<'a> Turn<'a> {
    /// The number of the byte that is a size after another one. The stream and the file must go on to it.
    #[tactic(auto, unfolding(crate::specs::Reading::reach_within, crate::specs::Reading::reach_file))]
    #[inline(always)]
    pub fn reach(&mut self, stream: Stream, from: u32, size: u64) -> Result<u32, Halt>
        ensures runs { Runs (reach stream (from + size)) (λ _. tt) self.old self.new result }
        ensures byte { IfOk result (λ to. to ≡ from + size) }
        ensures fits { IfOk result (λ to. to ≤ file_limit) }
    {
        let to = u128::from(from) + u128::from(size);
        if let Some(end) = stream.to.get() {
            if u128::from(end) < to {
                return self.raise(FaultKind::EndOfBytes);
            }
        }
        if to <= self.bytes.len() as u128 {
            self.uses.push(Use::Reach(to as u32))?;
            Ok(to as u32)
        } else {
            self.uses.push(Use::Size)?;
            self.raise(FaultKind::EndOfBytes)
        }
    }

    /// The number of the byte after a stream's last one.
    #[tactic(auto, unfolding(crate::specs::Reading::finish_of))]
    pub fn finish(&mut self, stream: Stream) -> Result<u32, Halt>
        ensures runs { Runs (finish stream) (λ end. end) self.old self.new result }
        ensures fits { IfOk result (λ end. end ≤ file_limit) }
    {
        match stream.to.get() {
            Some(end) => Ok(end),
            None => {
                self.uses.push(Use::Size)?;
                Ok(self.bytes.len() as u32)
            }
        }
    }

    /// Whether a place is at the end of a stream or after it.
    #[tactic(auto, unfolding(crate::specs::Reading::done_at))]
    #[inline(always)]
    pub fn done(&mut self, stream: Stream, place: Place) -> Result<bool, Halt>
        ensures { Runs (done stream place) (λ is_done. is_done) self.old self.new result }
    {
        let byte = place.byte_in();
        if let Some(end) = stream.to.get() {
            return Ok(end <= byte);
        }
        if (byte as usize) < self.bytes.len() {
            self.uses.push(Use::Reach(byte + 1))?;
            Ok(false)
        } else {
            self.uses.push(Use::Size)?;
            Ok(true)
        }
    }

    /// The bytes from one of a number on and before another.
    #[tactic(auto, unfolding(crate::specs::Reading::peek_at, crate::specs::Reading::cut_uses))]
    pub fn peek(&mut self, from: u32, to: u32) -> Result<Parts<'a>, Halt>
        ensures { Runs (peek from to) content self.old self.new result }
    {
        if from == to {
            return Ok(Parts {
                front: &[],
                back: &[],
            });
        }
        let size = self.bytes.len();
        if to as usize <= size && from < to {
            self.uses.push(Use::Bytes(from, to))?;
            let (front, back) = self.bytes.parts(Window {
                from: from as usize,
                to: to as usize,
            });
            return Ok(Parts { front, back });
        }
        self.uses.push(Use::Size)?;
        if (from as usize) < size {
            self.uses.push(Use::Bytes(from, size as u32))?;
        }
        self.raise(FaultKind::EndOfBytes)
    }

    /// Where a stream ends in the bytes. It notes no use.
    fn end_in(&self, stream: &Stream) -> u32
        ensures end { result ≡ end_in self.now.bytes stream.now.to }
        ensures fits { result ≤ file_limit }
    {
        match stream.to.get() {
            Some(end) => end,
            None => self.bytes.len() as u32,
        }
    }

    /// How many bytes come before the first such byte of a range. It notes no use.
    #[tactic(auto, using(crate::proofs::First::range_cut, crate::proofs::First::range_none))]
    fn first_in(&self, from: u32, to: u32, byte: u8) -> Option<u32>
        ensures found { result ≡ first_at byte (slice_range self.now.bytes from to) }
        ensures inside { IfSome result (λ place. from + place < length self.now.bytes) }
        ensures small { IfSome result (λ place. from + place < file_limit) }
    {
        let from = from as usize;
        let to = (to as usize).min(self.bytes.len());
        if to <= from {
            return None;
        }
        let (front, back) = self.bytes.parts(Window { from, to });
        let place = first_in_parts(Parts { front, back }, byte)?;
        Some(place as u32)
    }

    /// The first byte of a value from one of this number on, before the stream's end.
    #[tactic(auto, unfolding(crate::specs::Reading::find_at, crate::specs::Reading::found_from, crate::specs::Reading::found_none, crate::specs::Reading::finish_of))]
    pub fn find(&mut self, stream: Stream, start: u32, byte: u8) -> Result<Found, Halt>
        ensures runs { Runs (find stream start byte) (λ found. found) self.old self.new result }
        ensures fits { IfOk result (StandsBelow file_limit) }
    {
        let end = self.end_in(&stream);
        match self.first_in(start, end, byte) {
            Some(place) => {
                self.uses.push(Use::Bytes(start, start + place + 1))?;
                Ok(Found::At(start + place))
            }
            None => {
                self.finish(stream)?;
                self.peek(start, end)?;
                Ok(Found::Missing(end))
            }
        }
    }
}
