//! What is wrong with a text, or with what is on a line.

ghost use Rattle.std.specs.Prelude.{◌≡◌};
ghost use Rattle.ksv_yaml_scan.specs.declared.fault.ScanError.TheVariants as scan;
ghost use Rattle.ksv_yaml_scan.specs.declared.fault.LineError.TheVariants as on_line;

use std::alloc::{AllocError, AllocFailed};

/// What is wrong with what is on a line.
#[derive(Debug, Clone, Copy)]
pub enum ScanFault {
    /// A tab is in front of what begins on the line.
    Tab,
    /// A quote has no end on its line.
    NotClosed,
    /// A line of a block scalar is indented less than the scalar, or a blank line before the scalar's first text has more
    /// spaces than that text.
    Indentation,
    /// A line that continues a plain scalar has a colon before white space or at its end.
    ValueForKey,
    /// A form of YAML that the subset doesn't support, or none at all.
    LeftOut,
}

/// A fault, and the number of its line.
#[derive(Debug, Clone, Copy)]
pub struct LineFault {
    /// The line's number, counted from 1.
    pub line: usize,
    /// What is wrong with it.
    pub fault: ScanFault,
}

/// Why there is no answer about a line.
#[derive(Debug, Clone, Copy)]
pub enum ScanError {
    /// The line is wrong.
    Fault(ScanFault),
    /// Memory ran out.
    NoMemory,
}

/// Why there is no answer about lines.
#[derive(Debug, Clone, Copy)]
pub enum LineError {
    /// One of the lines is wrong.
    Fault(LineFault),
    /// Memory ran out.
    NoMemory,
}

/// Why a text has no lines.
#[derive(Debug, Clone, Copy)]
pub enum TextError {
    /// It has more than [`crate::cut::MAX_LENGTH`] bytes.
    TooLong,
    /// It isn't UTF-8; the first bad byte is on this line.
    NotUtf8 { line: usize },
    /// Memory ran out.
    NoMemory,
}

impl From<AllocError> for ScanError {
    ghost from_gives = { λ _ e. e ≡ scan.NoMemory };

    fn from(_: AllocError) -> ScanError {
        ScanError::NoMemory
    }
}

impl<T: Drop> From<AllocFailed<T>> for ScanError {
    ghost from_gives = { λ _ e. e ≡ scan.NoMemory };

    fn from(_: AllocFailed<T>) -> ScanError {
        ScanError::NoMemory
    }
}

impl From<ScanFault> for ScanError {
    ghost from_gives = { λ f e. e ≡ scan.Fault f };

    fn from(fault: ScanFault) -> ScanError {
        ScanError::Fault(fault)
    }
}

impl From<AllocError> for LineError {
    ghost from_gives = { λ _ e. e ≡ on_line.NoMemory };

    fn from(_: AllocError) -> LineError {
        LineError::NoMemory
    }
}

impl<T: Drop> From<AllocFailed<T>> for LineError {
    ghost from_gives = { λ _ e. e ≡ on_line.NoMemory };

    fn from(_: AllocFailed<T>) -> LineError {
        LineError::NoMemory
    }
}
