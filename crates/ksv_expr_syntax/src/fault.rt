//! Why a text is no expression.

ghost use Rattle.ksv_expr_syntax.specs.declared.fault.ExprFaultKind.TheVariants.{NoMemory};
ghost use Rattle.std.specs.Prelude.{◌≡◌};
ghost use Rattle.ksv_expr_syntax.specs.Faults.{code_of, text_of};

use std::alloc::{AllocError, AllocFailed};
use std::fmt::{self, Display, Formatter, Write};
use thiserror::Error;

/// What is wrong with a text.
#[derive(Clone, Copy, PartialEq, Eq, Debug, Error)]
pub enum ExprFaultKind {
    /// A character that begins no token, or a token that can't come here.
    UnexpectedCharacter,
    /// The text ends in the middle of a token or of an expression.
    UnexpectedEnd,
    /// An unsupported form of Kaitai's language, such as a float or an array.
    LeftOutForm,
    /// A number above 2^64 - 1.
    NumberOutsideRange,
    /// More than 256 parts, or more than 32 nested levels.
    TooLarge,
    /// Memory was refused.
    NoMemory,
}

impl ExprFaultKind {
    /// The code by which messages name the refusal: `X1` to `X6`.
    pub fn code(self) -> &'static str
        ensures { result.now ≡ code_of self }
    {
        match self {
            ExprFaultKind::UnexpectedCharacter => "X1",
            ExprFaultKind::UnexpectedEnd => "X2",
            ExprFaultKind::LeftOutForm => "X3",
            ExprFaultKind::NumberOutsideRange => "X4",
            ExprFaultKind::TooLarge => "X5",
            ExprFaultKind::NoMemory => "X6",
        }
    }

    /// What is wrong, in words, after the code.
    pub fn text(self) -> &'static str
        ensures { result.now ≡ text_of self }
    {
        match self {
            ExprFaultKind::UnexpectedCharacter => "expression: X1 unexpected character",
            ExprFaultKind::UnexpectedEnd => "expression: X2 unexpected end",
            ExprFaultKind::LeftOutForm => "expression: X3 left-out form",
            ExprFaultKind::NumberOutsideRange => "expression: X4 number outside the range",
            ExprFaultKind::TooLarge => "expression: X5 too large",
            ExprFaultKind::NoMemory => "expression: X6 no memory",
        }
    }
}

impl Display for ExprFaultKind {
    fn fmt<W: Write>(&self, f: &mut Formatter<W>) -> fmt::Result {
        f.write_str(self.text())
    }
}

/// What is wrong with a text, and where.
#[derive(Clone, Copy, PartialEq, Eq, Debug, Error)]
#[error("{kind}")]
pub struct ExprFault {
    /// What is wrong.
    pub kind: ExprFaultKind,
    /// The place of the token's first byte in the text; the text's length if the end is unexpected.
    pub at: usize,
}

impl From<AllocError> for ExprFault {
    ghost from_gives = { λ _ e. e.kind ≡ NoMemory };

    fn from(_: AllocError) -> ExprFault {
        ExprFault {
            kind: ExprFaultKind::NoMemory,
            at: 0,
        }
    }
}

impl<T: Drop> From<AllocFailed<T>> for ExprFault {
    ghost from_gives = { λ _ e. e.kind ≡ NoMemory };

    fn from(_: AllocFailed<T>) -> ExprFault {
        ExprFault {
            kind: ExprFaultKind::NoMemory,
            at: 0,
        }
    }
}

impl From<AllocError> for ExprFaultKind {
    ghost from_gives = { λ _ e. e ≡ NoMemory };

    fn from(_: AllocError) -> ExprFaultKind {
        ExprFaultKind::NoMemory
    }
}

impl<T: Drop> From<AllocFailed<T>> for ExprFaultKind {
    ghost from_gives = { λ _ e. e ≡ NoMemory };

    fn from(_: AllocFailed<T>) -> ExprFaultKind {
        ExprFaultKind::NoMemory
    }
}
