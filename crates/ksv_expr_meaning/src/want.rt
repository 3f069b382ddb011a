//! What an expression asks for, and what it gets.

use ksv_expr_value::{Fault, Path, Stream, Value};

/// A question that an expression asks.
#[derive(Drop)]
pub enum Want {
    /// The value at this path.
    Value(Path),
    /// The type and the stream of the object at this path.
    Head(Path),
    /// How many elements a list has; the path is that of its element 0.
    Rest(Path),
    /// The size of the file.
    Size,
    /// Whether the current place is the end of the home's stream.
    Done,
    /// The bytes of a range of the file.
    Bytes {
        /// The place of the first.
        from: u32,
        /// The place after the last.
        to: u32,
    },
}

/// The reply to a question. A reply of another form than its question's counts as a value of a kind that doesn't
/// fit.
#[derive(Drop)]
pub enum Got<'a> {
    /// A value.
    Value(Value),
    /// An object's type and stream.
    Object {
        /// The type's number in the description.
        type_number: u32,
        /// The stream in which the object's places are counted.
        stream: Stream,
    },
    /// A count.
    Number(u64),
    /// A truth value.
    Truth(bool),
    /// Bytes, cut in two.
    Slices(&'a [u8], &'a [u8]),
    /// A fault, which ends the expression.
    Fault(Fault),
}

/// The result of an evaluation.
#[derive(Drop)]
pub enum EvalStep {
    /// It asks this question, to which it has no reply.
    Need(Want),
    /// It ended with a value or a fault.
    Done(Result<Value, Fault>),
}

/// An object's type and stream.
#[derive(Clone, Copy)]
pub struct Opened {
    /// The type's number in the description.
    pub type_number: u32,
    /// The stream in which the object's places are counted.
    pub stream: Stream,
}
