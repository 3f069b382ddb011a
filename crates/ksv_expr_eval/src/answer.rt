//! Answers to wants.

use ksv_expr_meaning::Opened;
use ksv_expr_value::Value;

/// The answer to a want, with bytes as `B`. An answer of another form than its want's counts as a value of a kind that doesn't fit.
#[derive(Drop)]
pub enum Answer<B> {
    /// A value.
    Value(Value),
    /// An object's type and stream.
    Object(Opened),
    /// A count.
    Number(u64),
    /// A truth value.
    Truth(bool),
    /// Bytes.
    Bytes(B),
}
