//! Faults: why something has no value.
ghost use Rattle.std.specs.Prelude.{◌≡◌, IfOk};
ghost use Rattle.ksv_expr_value.specs.Faults.{name_of};

use crate::path::Path;
use std::alloc::{AllocError, Global};
use std::fmt;

/// What kind of fault a rule or an expression raises. F15, a circle, is raised by none: `NodeFault` of ksv_nodes has it.
#[derive(Clone, Copy, PartialEq, Eq, Hash, Debug)]
pub enum FaultKind {
    /// F1: nothing has this path.
    NoSuch,
    /// F2: an attribute whose condition is false.
    Absent,
    /// F3: the bytes end before the value.
    EndOfBytes,
    /// F4: a value of a kind that doesn't fit.
    BadType,
    /// F5: an integer outside -2^63 to 2^64 - 1, or a shift by a count outside 0 to 63.
    Overflow,
    /// F6: a division by 0.
    ZeroDivisor,
    /// F7: no element, byte or character has this index.
    BadIndex,
    /// F8: bytes that aren't text in their encoding, or an unknown encoding.
    BadText,
    /// F9: other bytes than `contents` requires.
    Contents,
    /// F10: a size, a count or a position below 0.
    BadSize,
    /// F11: no terminator before the stream's end.
    NoTerminator,
    /// F12: an element of no bytes in a repetition that bytes end.
    NoBytes,
    /// F13: too many elements, or a text over 16,777,216 bytes.
    TooMany,
    /// F14: a path of more than 64 steps.
    PathTooLong,
    /// F16: a text that is no number.
    BadNumber,
    /// F17: the root has no parent.
    NoParent,
    /// F18: a value that doesn't meet `valid`.
    Invalid,
}

impl FaultKind {
    /// The fault's name, as replies write it.
    pub fn name(self) -> &'static str
        ensures { result.now ≡ name_of self }
    {
        match self {
            FaultKind::NoSuch => "no-such",
            FaultKind::Absent => "absent",
            FaultKind::EndOfBytes => "end-of-bytes",
            FaultKind::BadType => "bad-type",
            FaultKind::Overflow => "overflow",
            FaultKind::ZeroDivisor => "zero-divisor",
            FaultKind::BadIndex => "bad-index",
            FaultKind::BadText => "bad-text",
            FaultKind::Contents => "contents",
            FaultKind::BadSize => "bad-size",
            FaultKind::NoTerminator => "no-terminator",
            FaultKind::NoBytes => "no-bytes",
            FaultKind::TooMany => "too-many",
            FaultKind::PathTooLong => "path-too-long",
            FaultKind::BadNumber => "bad-number",
            FaultKind::NoParent => "no-parent",
            FaultKind::Invalid => "invalid",
        }
    }
}

impl fmt::Display for FaultKind {
    ghost use Rattle.std.specs.Prelude.{Some};
    ghost use Rattle.ksv_expr_value.specs.Faults.{name_of};

    ghost output = { λ kind. Some (name_of kind) };

    fn fmt<W: fmt::Write>(&self, f: &mut fmt::Formatter<W>) -> fmt::Result {
        let name = self.name();
        write!(f, "{name}")
    }
}

/// A fault, and the path where it arose.
#[derive(Drop)]
pub struct Fault {
    /// What kind of fault it is.
    pub kind: FaultKind,
    /// Where it arose.
    pub path: Path,
}

impl Fault {
    /// A copy of the fault.
    pub fn copy(&self, alloc: Global) -> Result<Fault, AllocError>
        ensures { IfOk result (λ fault. fault ≡ self.now) }
    {
        Ok(Fault {
            kind: self.kind,
            path: self.path.copy(alloc)?,
        })
    }
}
