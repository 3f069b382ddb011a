//! Writers that fail.

use ksv::{Failed, Sink};
use std::io;

/// A sink that takes a byte at once, and fails after this many calls, a flush being one too.
#[derive(Drop)]
pub(crate) struct Brittle {
    pub(crate) taken: Vec<u8>,
    pub(crate) calls_left: usize,
    pub(crate) failed: bool,
}

impl Sink for Brittle {
    ghost use Rattle.std.specs.Prelude.{false, []};

    ghost tells = { false };

    ghost bytes = { λ _. [] };

    ghost flushed = { λ _. 0 };

    ghost failed = { λ b. b.failed };

    fn write(&mut self, buf: &[u8]) -> Result<usize, Failed> {
        if self.calls_left == 0 {
            self.failed = true;
            return Err(Failed);
        }
        self.calls_left -= 1;
        let count = buf.len().min(1);
        if self.taken.extend_from_slice(&buf[..count]).is_err() {
            self.failed = true;
            return Err(Failed);
        }
        Ok(count)
    }

    fn flush(&mut self) -> Result<(), Failed> {
        if self.calls_left == 0 {
            self.failed = true;
            return Err(Failed);
        }
        self.calls_left -= 1;
        Ok(())
    }
}

/// A writer of std that takes nothing after this many writes.
#[derive(Drop)]
pub(crate) struct Stuck {
    pub(crate) writes_left: usize,
}

impl io::Write for Stuck {
    fn write(&mut self, buf: &[u8]) -> io::Result<usize> {
        if self.writes_left == 0 {
            return Ok(0);
        }
        self.writes_left -= 1;
        Ok(buf.len())
    }

    fn flush(&mut self) -> io::Result<()> {
        Ok(())
    }
}
