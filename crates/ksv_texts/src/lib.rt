//! The texts of values, names, faults and refusals, the parts of a dump that ask nothing, and the bytes of integers: what an answer
//! needs and no engine gives.
//!
//! Each function is the definition of the same name in `specs/` (`Texts`, `Parts`, `Integers`, `Bits`). What a question asks is in
//! ksv_questions.
//!
//! A call, in `crates/ksv_questions/src/get.rt`:
//!
//! ```
//! Value::Int(number) => Ok(integer_text(alloc, *number)?),
//! ```
//!
//! Modules:
//!
//! - `bits`: bits that are written among those of bytes
//! - `integer`: the integers that a file holds: their types, and their bytes
//! - `refusal`: why a question about a path is refused
//! - `text`: the texts of values, names, faults and refusals
//! - `written`: the parts of a dump that ask nothing
//!
//! Definitions (`specs/`):
//!
//! - `Bits`: bits that are written among those of bytes
//! - `Integers`: the integer that a leaf holds, which numbers it can hold, and their bytes
//! - `Parts`: the JSON of the parts of a dump that ask nothing
//! - `Seen`: the plain data of the code's values
//! - `Texts`: the texts of values, names, faults and refusals
//!
//! Lemmas (`proofs/`):
//!
//! - `Among`: bits that are written among others
//! - `Digits`: the digits of a number, one by one
//! - `Json`: values of JSON as data
//! - `Powers`: how many values an integer has
//! - `TextLemmas`: digits and other texts one after the other
#![tactic(auto)]

mod bits;
mod integer;
mod refusal;
mod text;
mod written;

pub use bits::{bits_hold, with_bits};
pub use integer::{IntegerType, NumberType, holds, integer_bytes, number_type};
pub use refusal::Refusal;
pub use text::{
    bytes_text, fault_text, integer_text, member_text, names_text, push_place, quoted_text,
    refusal_text, truth_text,
};
pub use written::{failed_part, fault_part, kind_part, plain_part, push_element, put_member};
