//! The integers that a file holds: their types, and their bytes.
ghost use Rattle.std.specs.Prelude.{◌≡◌, ◌≤◌, ◌^◌, ◌*◌, IsTrue, IfSome, option_map, pos};
ghost use Rattle.ksv_desc.specs.Pieces.{plain_content};
ghost use Rattle.ksv_desc.specs.Whole.{plain_pieces};
ghost use Rattle.ksv_texts.specs.Integers.{as_unsigned, holds, integer_bytes, little_endian, number_type, type_in, value_count};
ghost use Rattle.ksv_texts.specs.Seen.{IsSmall, number_of_leaf, type_of};

use arrayvec::ArrayVec;
use ksv_desc::{ByteOrder, Content, Desc, is_truth};
use ksv_expr_value::Integer;
use ksv_nodes::Leaf;

/// The type of an integer.
#[derive(Clone, Copy)]
pub struct IntegerType {
    /// Whether it has a sign.
    pub is_signed: bool,
    /// How many bytes it has.
    pub size: usize,
    /// The order of its bytes.
    pub order: ByteOrder,
}

/// What an integer in a file is made of.
#[derive(Clone, Copy)]
pub enum NumberType {
    /// Of whole bytes.
    Bytes(IntegerType),
    /// Of bits, which are those of its leaf.
    Bits,
}

// ---- the integer that a leaf holds

/// The type of an integer that is read, of at most 8 bytes or of bits; None if no integer is read.
fn type_in(content: &Content) -> Option<NumberType>
    ensures found { option_map number_of_leaf result ≡ type_in (plain_content content.now) }
    ensures small { IfSome result IsSmall }
{
    match content {
        Content::Number {
            is_signed,
            size,
            order,
            ..
        } => {
            let size = usize::from(*size);
            if size > 8 {
                return None;
            }
            Some(NumberType::Bytes(IntegerType {
                is_signed: *is_signed,
                size,
                order: *order,
            }))
        }
        Content::Bits { width, enumeration } => {
            if is_truth(*width, *enumeration) {
                return None;
            }
            Some(NumberType::Bits)
        }
        _ => None,
    }
}

/// The type of the integer that a leaf holds, if it holds one.
#[tactic(auto, unfolding(crate::specs::Integers::number_type))]
pub fn number_type(desc: &Desc, leaf: Leaf) -> Option<NumberType>
    ensures found { option_map number_of_leaf result ≡ number_type (plain_pieces desc.now) leaf }
    ensures small { IfSome result IsSmall }
{
    let member = leaf.origin.member;
    let field = desc.field(member.type_number, member.member)?;
    type_in(field.choice.content(leaf.origin.case.get())??)
}

// ---- the bytes of an integer

/// The number of integers that fit a type.
#[tactic(auto, using(crate::proofs::Powers::values_shifted, crate::proofs::Powers::values_small))]
fn value_count(kind: IntegerType) -> i128
    requires { kind.size ≤ 8 }
    ensures value { result ≡ pos (value_count (type_of kind)) }
    ensures small { value_count (type_of kind) ≤ 2 ^ 64 }
{
    let values = 1_u128 << (8 * kind.size);
    values as i128
}

/// Whether an integer fits a type.
#[tactic(auto, unfolding(crate::specs::Integers::holds))]
pub fn holds(kind: IntegerType, number: Integer) -> bool
    requires { kind.size ≤ 8 }
    ensures { result ≡ holds (type_of kind) number }
{
    let values = value_count(kind);
    let half = values / 2;
    let number = number.get();
    if kind.is_signed {
        -half <= number && number < half
    } else {
        0 <= number && number < values
    }
}

/// An integer that fits a type, in two's complement.
#[tactic(auto, unfolding(crate::specs::Integers::holds))]
fn as_unsigned(kind: IntegerType, number: Integer) -> u64
    requires size { kind.size ≤ 8 }
    requires holds { IsTrue (holds (type_of kind) number) }
    ensures { result ≡ as_unsigned (type_of kind) number }
{
    let values = value_count(kind);
    let number = number.get();
    if number < 0 {
        (values + number) as u64
    } else {
        number as u64
    }
}

/// The digits of a number to the base 256, the least significant first.
#[tactic(auto, using(crate::proofs::Digits::digit_more, crate::proofs::Digits::digits_begin))]
pub(crate) fn little_endian(size: usize, number: u128) -> ArrayVec<u8, 9>
    requires { size ≤ 9 }
    ensures { result.items ≡ little_endian size number }
{
    let mut digits = ArrayVec::new();
    let mut rest = number;
    for _index in 0..size {
        digits.push((rest % 256) as u8);
        rest /= 256;
    }
    digits
}

/// The bytes of an integer that fits a type.
#[tactic(auto, unfolding(crate::specs::Integers::integer_bytes))]
pub fn integer_bytes(kind: IntegerType, number: Integer) -> ArrayVec<u8, 9>
    requires size { kind.size ≤ 8 }
    requires holds { IsTrue (holds (type_of kind) number) }
    ensures { result.items ≡ integer_bytes (type_of kind) number }
{
    let mut bytes = little_endian(kind.size, u128::from(as_unsigned(kind, number)));
    match kind.order {
        ByteOrder::Little => {}
        ByteOrder::Big => bytes.as_mut_slice().reverse(),
    }
    bytes
}
