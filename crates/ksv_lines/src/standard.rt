//! Devices over the readers and writers of std.
ghost use Rattle.std.specs.Prelude.{◌≡◌, ◌==◌, ◌≤◌, ◌<◌, false, [], length, IfOk, is_err};
ghost use Rattle.std.specs.Io.KnownBytes.{Keeps, ReadConsumes, WriteAppends};

use crate::device::{Failed, Sink, Source};
use std::io::{Read, Write};

/// A reader or a writer of std. Each error counts as a failure, and so does a write that takes nothing. Where contracts know the bytes of a
/// reader or a writer, none is lost and none comes twice; of a file or a terminal they know none.
#[derive(Drop)]
pub struct Std<T> {
    inner: T,
    failed: bool,
    ended: bool,
}

impl<T> Std<T> {
    /// A device over this reader or writer.
    pub fn new(inner: T) -> Std<T>
        ensures inner { result.inner ≡ inner }
        ensures works { result.failed ≡ false }
        ensures goes_on { result.ended ≡ false }
    {
        Std {
            inner,
            failed: false,
            ended: false,
        }
    }
}

impl<T: Read> Source for Std<T> {
    ghost tells = { false };

    ghost bytes = { λ _. [] };

    ghost failed = { λ s. s.failed };

    ghost ended = { λ s. s.ended };

    fn read(&mut self, buf: &mut [u8]) -> Result<usize, Failed>
        requires works { self.old.failed ≡ false }
        requires goes_on { self.old.ended ≡ false }
        ensures within { IfOk result (λ n. n ≤ length buf.new) }
        ensures bytes { ReadConsumes (T.remaining self.old.inner) (T.remaining self.new.inner) result buf.new }
        ensures fault { self.new.failed ≡ is_err result }
        ensures over { IfOk result (λ n. self.new.ended ≡ (n == 0)) }
    {
        match self.inner.read(buf) {
            Ok(count) => {
                self.ended = count == 0;
                Ok(count)
            }
            Err(_) => {
                self.failed = true;
                Err(Failed)
            }
        }
    }
}

impl<T: Write> Sink for Std<T> {
    ghost tells = { false };

    ghost bytes = { λ _. [] };

    ghost flushed = { λ _. 0 };

    ghost failed = { λ s. s.failed };

    fn write(&mut self, buf: &[u8]) -> Result<usize, Failed>
        requires { self.old.failed ≡ false }
        ensures within { IfOk result (λ n. n ≤ length buf.now) }
        ensures some { IfOk result (λ n. 0 < length buf.now → 0 < n) }
        ensures bytes { WriteAppends (T.contents self.old.inner) (T.contents self.new.inner) result buf.now }
        ensures fault { self.new.failed ≡ is_err result }
    {
        match self.inner.write(buf) {
            Ok(count) if count > 0 || buf.is_empty() => Ok(count),
            _ => {
                self.failed = true;
                Err(Failed)
            }
        }
    }

    fn flush(&mut self) -> Result<(), Failed>
        requires { self.old.failed ≡ false }
        ensures bytes { Keeps (T.contents self.old.inner) (T.contents self.new.inner) }
        ensures fault { self.new.failed ≡ is_err result }
    {
        match self.inner.flush() {
            Ok(()) => Ok(()),
            Err(_) => {
                self.failed = true;
                Err(Failed)
            }
        }
    }
}
