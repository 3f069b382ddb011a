//! What is wrong with a description, and the least fault found so far.

ghost use Rattle.std.specs.Prelude.{◌≡◌};
ghost use Rattle.ksv_schema.specs.Faults.{is_below, noted, fault, fault_if};
ghost use Rattle.ksv_schema.specs.Code.{number_of, code_of, text_of, plain, seen_fault};

use ksv_expr_syntax::ExprFault;
use std::fmt::{self, Display, Formatter, Write};
use thiserror::Error;

/// What is wrong with a description.
#[derive(Clone, Copy, PartialEq, Eq, Debug, Error)]
pub enum DescFaultKind {
    /// S1: the mapping has no such key.
    UnknownKey,
    /// S2: a required key is missing; the line is the first one of the mapping.
    MissingKey,
    /// S3: keys that don't fit together, or a name or number that is given twice.
    KeysAgainst,
    /// S4: nothing has this name here.
    UnknownName,
    /// S5: an integer of several bytes without a byte order.
    NoByteOrder,
    /// S6: a name or a value that isn't allowed here, or a node of the wrong kind.
    BadValue,
    /// S7: a type has another count of arguments than of parameters.
    WrongCount,
    /// S8: an unsupported feature of Kaitai Struct.
    LeftOut,
    /// S9: more than 1,024 types, 256 members of a type, or 65,536 entries of enums.
    OverLimit,
    /// S10: a text is no expression or no type.
    NoExpression(ExprFault),
    /// S11: memory was refused.
    NoMemory,
}

impl DescFaultKind {
    /// The code, from `S1` to `S11`.
    pub fn code(self) -> &'static str
        ensures { result.now ≡ code_of self }
    {
        match self {
            DescFaultKind::UnknownKey => "S1",
            DescFaultKind::MissingKey => "S2",
            DescFaultKind::KeysAgainst => "S3",
            DescFaultKind::UnknownName => "S4",
            DescFaultKind::NoByteOrder => "S5",
            DescFaultKind::BadValue => "S6",
            DescFaultKind::WrongCount => "S7",
            DescFaultKind::LeftOut => "S8",
            DescFaultKind::OverLimit => "S9",
            DescFaultKind::NoExpression(_) => "S10",
            DescFaultKind::NoMemory => "S11",
        }
    }

    /// What is wrong, in words.
    pub fn text(self) -> &'static str
        ensures { result.now ≡ text_of self }
    {
        match self {
            DescFaultKind::UnknownKey => "unknown key",
            DescFaultKind::MissingKey => "missing key",
            DescFaultKind::KeysAgainst => "keys against each other",
            DescFaultKind::UnknownName => "unknown name",
            DescFaultKind::NoByteOrder => "no byte order",
            DescFaultKind::BadValue => "bad name or value",
            DescFaultKind::WrongCount => "wrong count of arguments",
            DescFaultKind::LeftOut => "left-out feature",
            DescFaultKind::OverLimit => "over a limit",
            DescFaultKind::NoExpression(fault) => fault.kind.text(),
            DescFaultKind::NoMemory => "no memory",
        }
    }

    /// The number of the code.
    fn number(self) -> u8
        ensures { result ≡ number_of self }
    {
        match self {
            DescFaultKind::UnknownKey => 1,
            DescFaultKind::MissingKey => 2,
            DescFaultKind::KeysAgainst => 3,
            DescFaultKind::UnknownName => 4,
            DescFaultKind::NoByteOrder => 5,
            DescFaultKind::BadValue => 6,
            DescFaultKind::WrongCount => 7,
            DescFaultKind::LeftOut => 8,
            DescFaultKind::OverLimit => 9,
            DescFaultKind::NoExpression(_) => 10,
            DescFaultKind::NoMemory => 11,
        }
    }
}

impl Display for DescFaultKind {
    fn fmt<W: Write>(&self, f: &mut Formatter<W>) -> fmt::Result {
        match self {
            DescFaultKind::NoExpression(fault) => write!(f, "{} at {}", fault.kind, fault.at),
            kind => f.write_str(kind.text()),
        }
    }
}

/// What is wrong with a description, and the line, from 1, of the key or list item with the fault.
#[derive(Clone, Copy, PartialEq, Eq, Debug, Error)]
#[error("line {line}: {kind}")]
pub struct DescFault {
    pub line: usize,
    pub kind: DescFaultKind,
}

/// Whether one fault is reported before another.
#[tactic(auto, unfolding(crate::specs::Faults::is_below))]
fn is_below(one: DescFault, other: DescFault) -> bool
    ensures { result ≡ is_below (plain one) (plain other) }
{
    one.line < other.line || (one.line == other.line && one.kind.number() < other.kind.number())
}

/// The least fault so far.
pub(crate) type Least = Option<DescFault>;

/// Notes a fault.
#[tactic(auto, unfolding(crate::specs::Faults::noted))]
pub(crate) fn note(least: &mut Least, line: usize, kind: DescFaultKind)
    ensures { seen_fault least.new ≡ noted (seen_fault least.old) (fault line (number_of kind)) }
{
    let found = DescFault { line, kind };
    match *least {
        None => *least = Some(found),
        Some(so_far) => {
            if is_below(found, so_far) {
                *least = Some(found);
            }
        }
    }
}

/// Notes a fault if something is wrong.
#[tactic(auto, unfolding(crate::specs::Faults::noted))]
pub(crate) fn note_if(least: &mut Least, is_wrong: bool, line: usize, kind: DescFaultKind)
    ensures { seen_fault least.new ≡ noted (seen_fault least.old) (fault_if is_wrong line (number_of kind)) }
{
    if is_wrong {
        note(least, line, kind);
    }
}
