//! Sessions over readers and writers of std that fail once, at each of their calls in turn, and would work again after that.
//!
//! Values are by hand: a session over whole devices makes eight reads, of seven bytes of lines that come one at a time and of the end, and after each
//! of its two lines, and of what comes after the last LF, one write for each byte of the reply and a flush. A device that failed, or that came to its
//! end, isn't called again; a device that is interrupted has failed.

use ksv::{End, Std, describe, run};
use std::alloc::Global;
use std::io::{self, ErrorKind, Read, Write};
use std::test::Fail;

/// What is read, byte by byte.
const LINES: &[u8] = b"size\nx\n";

/// What is written.
const REPLIES: &[u8] = b"size 1\nerror: unknown command\n";

/// How often whole devices are called: reads, and writes with flushes.
const READS: usize = 8;

const WRITES: usize = 33;

/// What a call that fails is told of.
const KINDS: [ErrorKind; 3] = [
    ErrorKind::Interrupted,
    ErrorKind::WouldBlock,
    ErrorKind::Other,
];

/// A device that is called one time after the other, and fails at one of them.
#[derive(Drop)]
struct Calls {
    /// How often it was called.
    made: usize,
    /// The call that fails, from 1; 0 for none.
    failing: usize,
    /// As what it fails.
    kind: ErrorKind,
}

impl Calls {
    /// Makes a call.
    fn make(&mut self) -> io::Result<()> {
        self.made = self.made.saturating_add(1);
        if self.made == self.failing {
            return Err(io::Error::from(self.kind));
        }
        Ok(())
    }
}

/// A reader of std, which gives a byte at each call.
#[derive(Drop)]
struct Input {
    calls: Calls,
    left: &'static [u8],
}

impl Read for Input {
    fn read(&mut self, buf: &mut [u8]) -> io::Result<usize> {
        self.calls.make()?;
        let count = self.left.len().min(buf.len()).min(1);
        buf[..count].copy_from_slice(&self.left[..count]);
        self.left = &self.left[count..];
        Ok(count)
    }
}

/// A writer of std, which takes a byte at each call, and passes on what it took when it is flushed.
#[derive(Drop)]
struct Output {
    calls: Calls,
    taken: Vec<u8>,
    passed: usize,
}

impl Write for Output {
    fn write(&mut self, buf: &[u8]) -> io::Result<usize> {
        self.calls.make()?;
        let count = buf.len().min(1);
        self.taken.extend_from_slice(&buf[..count])?;
        Ok(count)
    }

    fn flush(&mut self) -> io::Result<()> {
        self.calls.make()?;
        self.passed = self.taken.len();
        Ok(())
    }
}

/// How a session ended over devices of which one may fail at a call.
fn ended(alloc: Global, input: &mut Input, output: &mut Output) -> Result<End, Fail> {
    let Ok(desc) = describe(alloc, b"meta: {id: t}\n") else {
        return Err(Fail::from("a description is refused"));
    };
    let file = b"\x07".to_vec(alloc)?;
    let mut reader = Std::new(input);
    let mut writer = Std::new(output);
    let (_, end) = run(alloc, &mut reader, &mut writer, desc, file)?;
    Ok(end)
}

/// A reader that fails at a call.
fn failing_input(failing: usize, kind: ErrorKind) -> Input {
    Input {
        calls: Calls {
            made: 0,
            failing,
            kind,
        },
        left: LINES,
    }
}

/// A writer that fails at a call.
fn failing_output(alloc: Global, failing: usize, kind: ErrorKind) -> Output {
    Output {
        calls: Calls {
            made: 0,
            failing,
            kind,
        },
        taken: Vec::new(alloc),
        passed: 0,
    }
}

/// Whether a session over a reader that fails at a call ends there, and its reader isn't called again.
fn is_read_once(alloc: Global, failing: usize, kind: ErrorKind) -> Result<bool, Fail> {
    let mut input = failing_input(failing, kind);
    let mut output = failing_output(alloc, 0, kind);
    let end = ended(alloc, &mut input, &mut output)?;
    let mut is_right = end == End::ReadFailed && input.calls.made == failing;
    is_right &= output.passed == output.taken.len();
    is_right &= REPLIES.starts_with(output.taken.as_slice());
    Ok(is_right)
}

/// Whether a session over a writer that fails at a call ends there, and its writer isn't called again.
fn is_written_once(alloc: Global, failing: usize, kind: ErrorKind) -> Result<bool, Fail> {
    let mut input = failing_input(0, kind);
    let mut output = failing_output(alloc, failing, kind);
    let end = ended(alloc, &mut input, &mut output)?;
    let mut is_right = end == End::WriteFailed && output.calls.made == failing;
    is_right &= REPLIES.starts_with(output.taken.as_slice());
    Ok(is_right)
}

/// Whether whole devices are called as often as they must be, and no reply is held back.
fn are_called(alloc: Global) -> Result<bool, Fail> {
    let mut input = failing_input(0, ErrorKind::Other);
    let mut output = failing_output(alloc, 0, ErrorKind::Other);
    let end = ended(alloc, &mut input, &mut output)?;
    let mut is_right = end == End::Input && input.calls.made == READS;
    is_right &= output.calls.made == WRITES;
    is_right &= output.taken.as_slice() == REPLIES;
    is_right &= output.passed == REPLIES.len();
    Ok(is_right)
}

#[test]
fn whole_devices_are_called_no_more_than_needed(rt: HostRuntime) -> Result<(), Fail> {
    let are_called = are_called(rt.alloc())?;
    assert!(rt; are_called);
    Ok(())
}

#[test]
fn a_reader_that_failed_is_not_read_again(rt: HostRuntime) -> Result<(), Fail> {
    let mut are_right = true;
    for kind in KINDS {
        for failing in 1..READS + 1 {
            are_right &= is_read_once(rt.alloc(), failing, kind)?;
        }
    }
    assert!(rt; are_right);
    Ok(())
}

#[test]
fn a_writer_that_failed_is_not_called_again(rt: HostRuntime) -> Result<(), Fail> {
    let mut are_right = true;
    for kind in KINDS {
        for failing in 1..WRITES + 1 {
            are_right &= is_written_once(rt.alloc(), failing, kind)?;
        }
    }
    assert!(rt; are_right);
    Ok(())
}
