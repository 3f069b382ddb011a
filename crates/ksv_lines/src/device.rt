//! What a session reads from and writes to.
ghost use Rattle.std.specs.Prelude.{◌≡◌, ◌≤◌, ◌<◌, ◌==◌, ◌++◌, List, ℕ, Bool, false, [], length, take, IfOk, OnErr, OnOk, IsTrue, is_err};

/// A device failed to do what it was asked.
#[derive(Clone, Copy)]
pub struct Failed;

/// Where bytes come from. Nobody reads from a source again once a read has failed or given nothing.
pub trait Source {
    // Whether contracts know its bytes, those that it has left, whether a call has failed, and whether one gave nothing.
    ghost tells: { Bool };

    ghost bytes: { Self → List ℕ };

    ghost failed: { Self → Bool };

    ghost ended: { Self → Bool };

    /// Fills the front of the buffer and returns how many bytes it wrote there: 0 only at the end, or if the buffer
    /// has no room. A call that fails takes no bytes.
    fn read(&mut self, buf: &mut [u8]) -> Result<usize, Failed>
        requires works { failed self.old ≡ false }
        requires goes_on { ended self.old ≡ false }
        ensures within { IfOk result (λ n. n ≤ length buf.new) }
        ensures given { IsTrue tells → IfOk result (λ n. bytes self.old ≡ take n buf.new ++ bytes self.new) }
        ensures end { IsTrue tells → result ≡ Ok 0 → 0 < length buf.old → bytes self.new ≡ [] }
        ensures kept { IsTrue tells → OnErr result (bytes self.new ≡ bytes self.old) }
        ensures fault { failed self.new ≡ is_err result }
        ensures over { IfOk result (λ n. ended self.new ≡ (n == 0)) };
}

/// Where bytes go. Nobody writes to a sink or flushes it again once a call has failed.
pub trait Sink {
    // Whether contracts know its bytes, those that it has taken, how many of them it has passed on, and whether a call has failed.
    ghost tells: { Bool };

    ghost bytes: { Self → List ℕ };

    ghost flushed: { Self → ℕ };

    ghost failed: { Self → Bool };

    /// Takes bytes from the front of the buffer and returns how many: 0 only if the buffer is empty. A call that
    /// fails takes no bytes.
    fn write(&mut self, buf: &[u8]) -> Result<usize, Failed>
        requires { failed self.old ≡ false }
        ensures within { IfOk result (λ n. n ≤ length buf.now) }
        ensures some { IfOk result (λ n. 0 < length buf.now → 0 < n) }
        ensures taken { IsTrue tells → IfOk result (λ n. bytes self.new ≡ bytes self.old ++ take n buf.now) }
        ensures kept { IsTrue tells → OnErr result (bytes self.new ≡ bytes self.old) }
        ensures held { IsTrue tells → flushed self.new ≡ flushed self.old }
        ensures fault { failed self.new ≡ is_err result };

    /// Passes on what it has taken.
    fn flush(&mut self) -> Result<(), Failed>
        requires { failed self.old ≡ false }
        ensures kept { IsTrue tells → bytes self.new ≡ bytes self.old }
        ensures passed { IsTrue tells → OnOk result (flushed self.new ≡ length (bytes self.old)) }
        ensures held { IsTrue tells → OnErr result (flushed self.new ≡ flushed self.old) }
        ensures fault { failed self.new ≡ is_err result };
}

/// Writes all of a text, in as many writes as it takes.
pub(crate) fn write_all<W: Sink>(writer: &mut W, text: &[u8]) -> Result<(), Failed>
    requires { W.failed writer.old ≡ false }
    ensures ok { IsTrue W.tells → OnOk result (W.bytes writer.new ≡ W.bytes writer.old ++ text.now) }
    ensures err { IsTrue W.tells → OnErr result ((n : ℕ) × (W.bytes writer.new ≡ W.bytes writer.old ++ take n text.now)) }
    ensures held { IsTrue W.tells → W.flushed writer.new ≡ W.flushed writer.old }
    ensures fault { W.failed writer.new ≡ is_err result }
{
    let mut done = 0;
    while done < text.len() {
        done += writer.write(&text[done..])?;
    }
    Ok(())
}

/// Writes all of a text, and flushes.
pub fn send<W: Sink>(writer: &mut W, text: &[u8]) -> Result<(), Failed>
    requires { W.failed writer.old ≡ false }
    ensures ok { IsTrue W.tells → OnOk result (W.bytes writer.new ≡ W.bytes writer.old ++ text.now) }
    ensures err { IsTrue W.tells → OnErr result ((n : ℕ) × (W.bytes writer.new ≡ W.bytes writer.old ++ take n text.now)) }
    ensures passed { IsTrue W.tells → OnOk result (W.flushed writer.new ≡ length (W.bytes writer.new)) }
    ensures held { IsTrue W.tells → OnErr result (W.flushed writer.new ≡ W.flushed writer.old) }
    ensures fault { W.failed writer.new ≡ is_err result }
{
    write_all(writer, text)?;
    writer.flush()
}
