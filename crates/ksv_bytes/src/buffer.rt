//! The bytes of a file.
ghost use Rattle.std.specs.Prelude.{◌≡◌, ◌+◌, ◌≤◌, ◌<◌, ◌↔◌, ◌⊎◌, ◌++◌, List, ℕ, length, IfOk, IfErr, OnOk, IsOk, IsErr, OnErr, IsTrue, MatchResult, slice_range};
ghost use Rattle.ksv_bytes.specs.Code.{around};
ghost use Rattle.ksv_bytes.specs.Edits.{append, delete, file_limit, insert, overwrite, IsRefusedAs};

use crate::edit::EditRefusal;
use crate::gap::{
    fill_from_end, fill_from_start, move_gap, overwrite_around, parts_around, room_for,
};
use crate::window::Window;
use std::marker::Model;
use thiserror::Error;

/// The most bytes that a file may have: 16 MiB.
pub const FILE_LIMIT: usize = 16_777_216;

/// The bytes of a file, at most [`FILE_LIMIT`] of them. Contracts see it as their list.
///
/// They are kept in two runs with a gap between them, which edits fill and widen. So an edit moves the bytes between
/// its place and the gap, and no others.
#[derive(Drop)]
pub struct Buffer {
    /// The bytes before the gap, those in it, which mean nothing, and those after it.
    bytes: Vec<u8>,
    /// How many bytes are before the gap.
    front: usize,
    /// How many bytes the gap has.
    gap: usize,
}

impl Model for Buffer {
    ghost Value = { List ℕ };

    ghost view = { λ buffer. around buffer.bytes.items buffer.front buffer.gap };

    ghost invariant = { λ buffer. (buffer.front + buffer.gap ≤ length buffer.bytes.items) × (length buffer.bytes.items ≤ file_limit) };
}

/// B3: a file of more than [`FILE_LIMIT`] bytes, which are returned.
#[derive(Debug, Drop, Error)]
#[error("file too large")]
pub struct TooLarge {
    /// The bytes as they were given.
    pub bytes: Vec<u8>,
}

impl Buffer {
    /// The buffer of these bytes. It takes no memory.
    pub fn new(bytes: Vec<u8>) -> Result<Buffer, TooLarge>
        ensures taken { IfOk result (λ buffer. buffer ≡ bytes.items) }
        ensures refused { IsErr result ↔ (file_limit < length bytes.items) }
        ensures handed_back { IfErr result (λ large. large.bytes ≡ bytes) }
    {
        if bytes.len() > FILE_LIMIT {
            return Err(TooLarge { bytes });
        }
        let front = bytes.len();
        Ok(Buffer {
            bytes,
            front,
            gap: 0,
        })
    }

    /// The number of bytes.
    pub fn len(&self) -> usize
        ensures len { result ≡ length self.now }
        ensures limit { result ≤ file_limit }
    {
        self.bytes.len() - self.gap
    }

    /// Whether there are no bytes.
    pub fn is_empty(&self) -> bool
        ensures { IsTrue result ↔ (length self.now ≡ 0) }
    {
        self.bytes.len() == self.gap
    }

    /// Lends the bytes of a window in two slices: those before the gap, and those after it. Nothing is copied.
    pub fn parts(&self, window: Window) -> (&[u8], &[u8])
        requires ordered { window.from ≤ window.to }
        requires inside { window.to ≤ length self.now }
        ensures { result.0.now ++ result.1.now ≡ slice_range self.now window.from window.to }
    {
        parts_around(&self.bytes, self.front, self.gap, window)
    }

    /// Writes bytes over those from a place on. It takes no memory, and the gap stays where it is.
    pub fn overwrite(&mut self, at: usize, bytes: &[u8]) -> Result<(), EditRefusal>
        ensures { MatchResult result
            (λ _. overwrite self.old at bytes.now ≡ Ok self.new)
            (λ refusal. (overwrite self.old at bytes.now ≡ Err refusal) × (self.new ≡ self.old)) }
    {
        let len = self.len();
        if at > len || bytes.len() > len - at {
            return Err(EditRefusal::Outside);
        }
        if bytes.is_empty() {
            return Err(EditRefusal::NothingToDo);
        }
        overwrite_around(&mut self.bytes, self.front, self.gap, at, bytes);
        Ok(())
    }

    /// Puts bytes before the byte at a place, or after the last one. It runs out of memory only if nothing else is wrong
    /// with the edit. The gap is then before the new bytes, so a further edit at this place moves no byte.
    pub fn insert(&mut self, at: usize, bytes: &[u8]) -> Result<(), EditRefusal>
        ensures done { OnOk result (insert self.old at bytes.now ≡ Ok self.new) }
        ensures unchanged { OnErr result (self.new ≡ self.old) }
        ensures refused { IfErr result (λ refusal. IsRefusedAs refusal (insert self.old at bytes.now)) }
    {
        if at > self.len() {
            return Err(EditRefusal::Outside);
        }
        let gap = room_for(&mut self.bytes, self.front, self.gap, bytes)?;
        move_gap(&mut self.bytes, self.front, gap, at);
        fill_from_end(&mut self.bytes, at, gap, bytes);
        self.front = at;
        self.gap = gap - bytes.len();
        Ok(())
    }

    /// Takes out `count` bytes from a place on. It takes no memory. The gap is then at this place.
    pub fn delete(&mut self, at: usize, count: usize) -> Result<(), EditRefusal>
        ensures { MatchResult result
            (λ _. delete self.old at count ≡ Ok self.new)
            (λ refusal. (delete self.old at count ≡ Err refusal) × (self.new ≡ self.old)) }
    {
        let len = self.len();
        if at > len || count > len - at {
            return Err(EditRefusal::Outside);
        }
        if count == 0 {
            return Err(EditRefusal::NothingToDo);
        }
        move_gap(&mut self.bytes, self.front, self.gap, at);
        self.front = at;
        self.gap += count;
        Ok(())
    }

    /// Adds bytes at the end. It runs out of memory only if nothing else is wrong with the edit. The gap is then after
    /// them, so adding more moves no byte.
    pub fn append(&mut self, bytes: &[u8]) -> Result<(), EditRefusal>
        ensures done { OnOk result (append self.old bytes.now ≡ Ok self.new) }
        ensures unchanged { OnErr result (self.new ≡ self.old) }
        ensures refused { IfErr result (λ refusal. IsRefusedAs refusal (append self.old bytes.now)) }
    {
        let len = self.len();
        let gap = room_for(&mut self.bytes, self.front, self.gap, bytes)?;
        move_gap(&mut self.bytes, self.front, gap, len);
        fill_from_start(&mut self.bytes, len, gap, bytes);
        self.front = len + bytes.len();
        self.gap = gap - bytes.len();
        Ok(())
    }
}
