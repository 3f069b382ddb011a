//! Values of a described file.
ghost use Rattle.std.specs.Prelude.{◌≡◌, IfOk};

use crate::integer::Integer;
use crate::path::Path;
use crate::stream_end::StreamEnd;
use crate::text::Text;
use std::alloc::{AllocError, Global};

/// A stream: the range of the file in which an object's places are counted.
#[derive(Clone, Copy)]
pub struct Stream {
    /// Its first byte, as a place in the file.
    pub from: u32,
    /// The place after its last byte, or open if it goes on to the file's end, whatever that is.
    pub to: StreamEnd,
}

/// A value.
#[derive(Drop)]
pub enum Value {
    /// An integer.
    Int(Integer),
    /// A truth value.
    Bool(bool),
    /// A text.
    Text(Text),
    /// Bytes, as the range of the file that holds them: their content is that of the current file.
    Bytes {
        /// The place of the first.
        from: u32,
        /// The place after the last.
        to: u32,
    },
    /// A member of an enum.
    Member {
        /// The enum's number in the description.
        enum_number: u32,
        /// The member's number in the enum, which need not have a name.
        number: Integer,
    },
    /// The object of this path.
    Object(Path),
    /// The list of this path.
    List(Path),
    /// A stream, the value only of an expression that names one.
    Stream(Stream),
}

impl Value {
    /// A copy of the value.
    pub fn copy(&self, alloc: Global) -> Result<Value, AllocError>
        ensures { IfOk result (λ value. value ≡ self.now) }
    {
        Ok(match self {
            Value::Int(number) => Value::Int(*number),
            Value::Bool(truth) => Value::Bool(*truth),
            Value::Text(text) => Value::Text(text.copy()?),
            Value::Bytes { from, to } => Value::Bytes {
                from: *from,
                to: *to,
            },
            Value::Member {
                enum_number,
                number,
            } => Value::Member {
                enum_number: *enum_number,
                number: *number,
            },
            Value::Object(path) => Value::Object(path.copy(alloc)?),
            Value::List(path) => Value::List(path.copy(alloc)?),
            Value::Stream(stream) => Value::Stream(*stream),
        })
    }
}
