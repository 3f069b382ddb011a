//! Why a text has no tree.

ghost use Rattle.std.specs.Prelude.{◌≡◌, true, false};
ghost use Rattle.ksv_yaml.specs.Code.{public_kind, wants_memory, lines_want};
ghost use Rattle.ksv_yaml.specs.Faults.{code_of, text_of};

use ksv_yaml_scan::fault::{LineError, LineFault, ScanFault};
use std::alloc::{AllocError, AllocFailed};
use std::fmt::{self, Display, Formatter, Write};
use thiserror::Error;

/// What is wrong with a text.
///
/// Y2 is checked first, then Y1. Where several of the others are true of the named line, the first of Y3, Y5, Y9, Y7,
/// Y4, Y8 and Y6 is given.
#[derive(Debug, Clone, Copy, Error)]
pub enum YamlKind {
    /// Y1: the text isn't UTF-8; the line is that of the first bad byte.
    NotUtf8,
    /// Y2: the text has more than 1,048,576 bytes; the line is 1.
    TooLong,
    /// Y3: a tab is in the white space at the front of the line, or between a dash and a block.
    Tab,
    /// Y4: the line's indentation is that of no open block, and nothing deeper is allowed there.
    Indentation,
    /// Y5: the mapping has this key already.
    KeyTwice,
    /// Y6: a form of YAML that the subset doesn't support, or none at all.
    LeftOut,
    /// Y7: a quote isn't closed on its line, or a bracket at the end of the text.
    NotClosed,
    /// Y8: a plain scalar with a key's colon inside, or a line that is no entry of the block at its indentation.
    ValueForKey,
    /// Y9: a mapping or sequence is nested in 64 others.
    TooDeep,
    /// Y10: memory was refused.
    NoMemory,
}

impl YamlKind {
    /// The code, from `Y1` to `Y10`.
    pub fn code(self) -> &'static str
        ensures { result.now ≡ code_of self }
    {
        match self {
            YamlKind::NotUtf8 => "Y1",
            YamlKind::TooLong => "Y2",
            YamlKind::Tab => "Y3",
            YamlKind::Indentation => "Y4",
            YamlKind::KeyTwice => "Y5",
            YamlKind::LeftOut => "Y6",
            YamlKind::NotClosed => "Y7",
            YamlKind::ValueForKey => "Y8",
            YamlKind::TooDeep => "Y9",
            YamlKind::NoMemory => "Y10",
        }
    }

    /// What is wrong, in words.
    pub fn text(self) -> &'static str
        ensures { result.now ≡ text_of self }
    {
        match self {
            YamlKind::NotUtf8 => "not UTF-8",
            YamlKind::TooLong => "too long",
            YamlKind::Tab => "tab in the indentation",
            YamlKind::Indentation => "indentation fits no level",
            YamlKind::KeyTwice => "key twice",
            YamlKind::LeftOut => "left-out form",
            YamlKind::NotClosed => "not closed",
            YamlKind::ValueForKey => "value in a key's place",
            YamlKind::TooDeep => "nested too deeply",
            YamlKind::NoMemory => "no memory",
        }
    }
}

impl Display for YamlKind {
    fn fmt<W: Write>(&self, f: &mut Formatter<W>) -> fmt::Result {
        f.write_str(self.text())
    }
}

/// Why a text has no tree, and the line, from 1, that shows it: no text that begins with the lines up to this one
/// has a tree.
#[derive(Debug, Clone, Copy, Error)]
#[error("line {line}: {kind}")]
pub struct YamlFault {
    pub line: usize,
    pub kind: YamlKind,
}

/// What is wrong with the lines of a text: the kinds of [`YamlKind`] but those of a text without lines. As a type of their
/// own they need no clause that says so in each function that reads.
#[derive(Clone, Copy, PartialEq, Eq)]
pub(crate) enum ReadKind {
    Tab,
    Indentation,
    KeyTwice,
    LeftOut,
    NotClosed,
    ValueForKey,
    TooDeep,
    NoMemory,
}

/// Why lines have no tree, and the number of the line that shows it.
#[derive(Clone, Copy)]
pub(crate) struct ReadFault {
    pub(crate) line: usize,
    pub(crate) kind: ReadKind,
}

/// The kind as callers see it.
pub(crate) fn published(kind: ReadKind) -> YamlKind
    ensures { result ≡ public_kind kind }
{
    match kind {
        ReadKind::Tab => YamlKind::Tab,
        ReadKind::Indentation => YamlKind::Indentation,
        ReadKind::KeyTwice => YamlKind::KeyTwice,
        ReadKind::LeftOut => YamlKind::LeftOut,
        ReadKind::NotClosed => YamlKind::NotClosed,
        ReadKind::ValueForKey => YamlKind::ValueForKey,
        ReadKind::TooDeep => YamlKind::TooDeep,
        ReadKind::NoMemory => YamlKind::NoMemory,
    }
}

/// The fault that memory was refused.
pub(crate) fn no_memory() -> ReadFault
    ensures { wants_memory result.kind ≡ true }
{
    ReadFault {
        line: 1,
        kind: ReadKind::NoMemory,
    }
}

impl From<AllocError> for ReadFault {
    ghost from_gives = { λ _ fault. wants_memory fault.kind ≡ true };

    fn from(_: AllocError) -> ReadFault {
        no_memory()
    }
}

impl<T: Drop> From<AllocFailed<T>> for ReadFault {
    ghost from_gives = { λ _ fault. wants_memory fault.kind ≡ true };

    fn from(_: AllocFailed<T>) -> ReadFault {
        no_memory()
    }
}

impl From<LineError> for ReadFault {
    ghost from_gives = { λ error fault. wants_memory fault.kind ≡ lines_want error };

    fn from(error: LineError) -> ReadFault {
        match error {
            LineError::Fault(fault) => at_line(fault),
            LineError::NoMemory => no_memory(),
        }
    }
}

/// The fault that the scanner found on a line.
pub(crate) fn at_line(fault: LineFault) -> ReadFault
    ensures { wants_memory result.kind ≡ false }
{
    ReadFault {
        line: fault.line,
        kind: kind_of(fault.fault),
    }
}

/// The kind of what the scanner found.
pub(crate) fn kind_of(fault: ScanFault) -> ReadKind
    ensures { wants_memory result ≡ false }
{
    match fault {
        ScanFault::Tab => ReadKind::Tab,
        ScanFault::NotClosed => ReadKind::NotClosed,
        ScanFault::Indentation => ReadKind::Indentation,
        ScanFault::ValueForKey => ReadKind::ValueForKey,
        ScanFault::LeftOut => ReadKind::LeftOut,
    }
}
