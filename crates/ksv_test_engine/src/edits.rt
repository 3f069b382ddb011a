//! An engine that is right for the bytes of a buffer, and edits of both.
ghost use Rattle.ksv_memo_rules.specs.Meaning.{on};
ghost use Rattle.ksv_memo_rules.specs.Right.{IsRight};

use ksv_bytes::{Buffer, Change};
use ksv_memo::{Engine, Rules};
use std::alloc::Global;

/// A new engine.
pub(crate) fn new_engine<R: Rules>(alloc: Global, _rules: &R, _bytes: &Buffer) -> Engine<R>
    ensures { IsRight (on (R.meaning _rules.now) _bytes.now) result.kept }
{
    Engine::new(alloc)
}

/// Begins a question of an engine.
pub(crate) fn begin<R: Rules>(engine: &mut Engine<R>, rules: &R, bytes: &Buffer)
    requires { IsRight (on (R.meaning rules.now) bytes.now) engine.old.kept }
    ensures { IsRight (on (R.meaning rules.now) bytes.now) engine.new.kept }
{
    engine.begin();
}

/// Writes bytes over others, and tells the engine.
pub(crate) fn overwrite<R: Rules>(
    engine: &mut Engine<R>,
    rules: &R,
    bytes: &mut Buffer,
    at: usize,
    new: &[u8],
)
    requires { IsRight (on (R.meaning rules.now) bytes.old) engine.old.kept }
    ensures { IsRight (on (R.meaning rules.now) bytes.new) engine.new.kept }
{
    if let Ok(()) = bytes.overwrite(at, new) {
        engine.forget(Change::Overwrite { at, n: new.len() });
    }
}

/// Writes bytes after the last one, and tells the engine.
pub(crate) fn append<R: Rules>(engine: &mut Engine<R>, rules: &R, bytes: &mut Buffer, new: &[u8])
    requires { IsRight (on (R.meaning rules.now) bytes.old) engine.old.kept }
    ensures { IsRight (on (R.meaning rules.now) bytes.new) engine.new.kept }
{
    if let Ok(()) = bytes.append(new) {
        engine.forget(Change::Append);
    }
}

/// Puts bytes between others, and tells the engine.
pub(crate) fn insert<R: Rules>(
    engine: &mut Engine<R>,
    rules: &R,
    bytes: &mut Buffer,
    at: usize,
    new: &[u8],
)
    requires { IsRight (on (R.meaning rules.now) bytes.old) engine.old.kept }
    ensures { IsRight (on (R.meaning rules.now) bytes.new) engine.new.kept }
{
    if let Ok(()) = bytes.insert(at, new) {
        engine.forget(Change::Insert { at, n: new.len() });
    }
}

/// Takes out bytes, and tells the engine.
pub(crate) fn delete<R: Rules>(
    engine: &mut Engine<R>,
    rules: &R,
    bytes: &mut Buffer,
    at: usize,
    n: usize,
)
    requires { IsRight (on (R.meaning rules.now) bytes.old) engine.old.kept }
    ensures { IsRight (on (R.meaning rules.now) bytes.new) engine.new.kept }
{
    if let Ok(()) = bytes.delete(at, n) {
        engine.forget(Change::Delete { at, n });
    }
}
