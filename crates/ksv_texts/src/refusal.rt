//! Why a question about a path is refused.

/// Why a question that can be asked has no answer.
#[derive(Clone, Copy)]
pub enum Refusal {
    /// C7: an integer can only be written over an integer.
    NotAnInteger,
    /// C8: the integer does not fit there.
    OutOfRange,
    /// C9: a dump of more than 10,000 parts.
    TooLarge,
}
