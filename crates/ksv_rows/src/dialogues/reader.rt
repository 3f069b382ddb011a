//! A reader that gives few bytes at once, and may fail.

use ksv::{Failed, Source};

/// A source of these bytes that gives at most `step` of them at once, and fails after this many reads.
#[derive(Drop)]
pub(crate) struct Pieces<'a> {
    pub(crate) left: &'a [u8],
    pub(crate) step: usize,
    pub(crate) reads_left: usize,
    pub(crate) failed: bool,
    pub(crate) ended: bool,
}

impl Source for Pieces<'_> {
    ghost use Rattle.std.specs.Prelude.{true};

    ghost tells = { true };

    ghost bytes = { λ p. p.left.now };

    ghost failed = { λ p. p.failed };

    ghost ended = { λ p. p.ended };

    fn read(&mut self, buf: &mut [u8]) -> Result<usize, Failed> {
        if self.reads_left == 0 {
            self.failed = true;
            return Err(Failed);
        }
        self.reads_left -= 1;
        let count = self.left.len().min(buf.len()).min(self.step.max(1));
        buf[..count].copy_from_slice(&self.left[..count]);
        self.left = &self.left[count..];
        self.ended = count == 0;
        Ok(count)
    }
}
