//! A device over memory.
ghost use Rattle.std.specs.Prelude.{◌≡◌, ◌≤◌, true, false, length, drop};

use crate::device::{Failed, Sink, Source};

/// Bytes that are read from the front, or room that is filled at the end. All its bytes are known to contracts. It
/// takes no memory: a write fails if the vector has no room left.
#[derive(Drop)]
pub struct Memory {
    /// The bytes.
    pub bytes: Vec<u8>,
    /// How many of them were read.
    pub read: usize,
    /// How many there were at the last flush.
    pub flushed: usize,
    /// Whether a call has failed.
    pub failed: bool,
    /// Whether a read gave nothing.
    pub ended: bool,
    ghost within: { read ≤ length bytes.items },
}

impl Memory {
    /// A device over the bytes of a vector. What is written to it goes into the room that the vector has left.
    pub fn new(bytes: Vec<u8>) -> Memory
        ensures bytes { result.bytes ≡ bytes }
        ensures start { (result.read ≡ 0) × (result.flushed ≡ 0) }
        ensures works { result.failed ≡ false }
        ensures goes_on { result.ended ≡ false }
    {
        Memory {
            bytes,
            read: 0,
            flushed: 0,
            failed: false,
            ended: false,
        }
    }
}

impl Source for Memory {
    ghost tells = { true };

    ghost bytes = { λ m. drop m.read m.bytes.items };

    ghost failed = { λ m. m.failed };

    ghost ended = { λ m. m.ended };

    fn read(&mut self, buf: &mut [u8]) -> Result<usize, Failed> {
        let left = self.bytes.len() - self.read;
        let count = left.min(buf.len());
        buf[..count].copy_from_slice(&self.bytes[self.read..self.read + count]);
        self.read += count;
        self.ended = count == 0;
        Ok(count)
    }
}

impl Sink for Memory {
    ghost tells = { true };

    ghost bytes = { λ m. m.bytes.items };

    ghost flushed = { λ m. m.flushed };

    ghost failed = { λ m. m.failed };

    fn write(&mut self, buf: &[u8]) -> Result<usize, Failed> {
        let room = self.bytes.capacity() - self.bytes.len();
        let count = room.min(buf.len());
        if count == 0 && !buf.is_empty() {
            self.failed = true;
            return Err(Failed);
        }
        self.bytes.extend_from_slice(&buf[..count]).unwrap();
        Ok(count)
    }

    fn flush(&mut self) -> Result<(), Failed> {
        self.flushed = self.bytes.len();
        Ok(())
    }
}
