//! The operators of integers: each by itself, and an operator between two integers.

ghost use Rattle.std.specs.Prelude.{◌≡◌, ◌≢◌, ◌<◌, ◌^◌, ℤ, pos, negsuc, neg_ℤ, ◌+ℤ◌, ◌-ℤ◌, ◌*ℤ◌, ◌≤ℤ◌, IsTrue, IsFalse, true, Some, None, option_map};
ghost use Rattle.std.specs.Ordering.{int_cmp, int_eq};
ghost use Rattle.ksv_expr_value.specs.Range.{in_range, ranged};
ghost use Rattle.ksv_expr_meaning.specs.Integers.{floored_quotient, floored_remainder, shifted_left, shifted_right, places, complement, bits_and, bits_or, bits_xor, divided, shifted};
ghost use Rattle.ksv_expr_meaning.specs.Operators.{exactly, ranged_value, integers_of};

use crate::operators::{matched, ordered};
use ksv_expr_tree::BinaryOperator;
use ksv_expr_value::{FaultKind, Integer, Value};
use std::cmp::Ordering;

/// An exact integer, which is an overflow outside the range.
pub(crate) fn exactly(number: Option<Integer>) -> Result<Value, FaultKind>
    ensures { result ≡ exactly number }
{
    match number {
        None => Err(FaultKind::Overflow),
        Some(number) => Ok(Value::Int(number)),
    }
}

/// `-x`, if it is in the range.
pub(crate) fn negate(number: Integer) -> Option<Integer>
    ensures { result ≡ ranged (neg_ℤ number) }
{
    Integer::new(-number.get())
}

/// `x + y`, if it is in the range.
fn add(number: Integer, other: Integer) -> Option<Integer>
    ensures { result ≡ ranged (number +ℤ other) }
{
    Integer::new(number.get() + other.get())
}

/// `x - y`, if it is in the range.
fn subtract(number: Integer, other: Integer) -> Option<Integer>
    ensures { result ≡ ranged (number -ℤ other) }
{
    Integer::new(number.get() - other.get())
}

/// `x * y`, if it is in the range.
fn multiply(number: Integer, other: Integer) -> Option<Integer>
    ensures { result ≡ ranged (number *ℤ other) }
{
    match number.get().checked_mul(other.get()) {
        Some(product) => Integer::new(product),
        None => None,
    }
}

/// `x / y` rounded down, if it is in the range.
fn divide(number: Integer, divisor: Integer) -> Option<Integer>
    requires { divisor ≢ pos 0 }
    ensures { result ≡ ranged (floored_quotient number divisor) }
{
    let value = number.get();
    let by = divisor.get();
    if by < 0 {
        Integer::new((-value).div_euclid(-by))
    } else {
        Integer::new(value.div_euclid(by))
    }
}

fn quotient_of(dividend: Integer, divisor: Integer) -> Result<Value, FaultKind>
    ensures { result ≡ ranged_value (divided divisor (floored_quotient dividend divisor)) }
{
    if is_zero(divisor) {
        return Err(FaultKind::ZeroDivisor);
    }
    exactly(divide(dividend, divisor))
}

/// The remainder of `x / y` rounded down.
fn remainder(number: Integer, divisor: Integer) -> Option<Integer>
    requires { divisor ≢ pos 0 }
    ensures { result ≡ ranged (floored_remainder number divisor) }
{
    let value = number.get();
    let by = divisor.get();
    if by < 0 {
        Integer::new(-(-value).rem_euclid(-by))
    } else {
        Integer::new(value.rem_euclid(by))
    }
}

fn remainder_of(dividend: Integer, divisor: Integer) -> Result<Value, FaultKind>
    ensures { result ≡ ranged_value (divided divisor (floored_remainder dividend divisor)) }
{
    if is_zero(divisor) {
        return Err(FaultKind::ZeroDivisor);
    }
    exactly(remainder(dividend, divisor))
}

/// The integer as a count of places to shift by, which is 0 to 63.
fn places(number: Integer) -> Option<u32>
    ensures { result ≡ places number }
{
    if number.get() < 0 || number.get() > 63 {
        None
    } else {
        Some(number.get() as u32)
    }
}

/// `x << n`, if it is in the range.
fn shift_left(number: Integer, places: u32) -> Option<Integer>
    requires { places < 64 }
    ensures { result ≡ ranged (shifted_left number places) }
{
    match number.get().checked_mul(1_i128 << places) {
        Some(product) => Integer::new(product),
        None => None,
    }
}

fn shift_left_by(number: Integer, count: Integer) -> Result<Value, FaultKind>
    ensures { result ≡ ranged_value (shifted (shifted_left number) (places count)) }
{
    match places(count) {
        None => Err(FaultKind::Overflow),
        Some(places) => exactly(shift_left(number, places)),
    }
}

/// `x >> n`, rounded down.
fn shift_right(number: Integer, places: u32) -> Option<Integer>
    requires { places < 64 }
    ensures { result ≡ ranged (shifted_right number places) }
{
    Integer::new(number.get() >> places)
}

fn shift_right_by(number: Integer, count: Integer) -> Result<Value, FaultKind>
    ensures { result ≡ ranged_value (shifted (shifted_right number) (places count)) }
{
    match places(count) {
        None => Err(FaultKind::Overflow),
        Some(places) => exactly(shift_right(number, places)),
    }
}

/// `~x`, if it is in the range.
pub(crate) fn complement(number: Integer) -> Option<Integer>
    ensures { result ≡ ranged (complement number) }
{
    Integer::new(!number.get())
}

/// `x & y`, if it is in the range.
#[tactic(auto, using(ksv_expr_meaning::proofs::Bits::seen_and))]
fn bit_and(number: Integer, other: Integer) -> Option<Integer>
    ensures { result ≡ ranged (bits_and number other) }
{
    Integer::new(number.get() & other.get())
}

/// `x | y`, if it is in the range.
#[tactic(auto, using(ksv_expr_meaning::proofs::Bits::seen_or))]
fn bit_or(number: Integer, other: Integer) -> Option<Integer>
    ensures { result ≡ ranged (bits_or number other) }
{
    Integer::new(number.get() | other.get())
}

/// `x ^ y`, if it is in the range.
#[tactic(auto, using(ksv_expr_meaning::proofs::Bits::seen_xor))]
fn bit_xor(number: Integer, other: Integer) -> Option<Integer>
    ensures { result ≡ ranged (bits_xor number other) }
{
    Integer::new(number.get() ^ other.get())
}

/// The integer before this one, which is not below 0.
pub(crate) fn before(number: Integer) -> Integer
    requires { pos 0 ≤ℤ number }
    ensures { result ≡ number -ℤ pos 1 }
{
    Integer::new(number.get() - 1).unwrap_or(number)
}

/// Whether it is 0.
fn is_zero(number: Integer) -> bool
    ensures zero { result ≡ int_eq number (pos 0) }
    ensures other { IsFalse result → number ≢ pos 0 }
{
    number.get() == 0
}

/// Whether the two are the same.
pub(crate) fn equals(number: Integer, other: Integer) -> bool
    ensures { result ≡ int_eq number other }
{
    number.get() == other.get()
}

/// The order of the two.
pub(crate) fn compare(number: Integer, other: Integer) -> Ordering
    ensures { result ≡ int_cmp number other }
{
    number.get().cmp(&other.get())
}

/// An operator between two integers.
pub(crate) fn integers(
    operator: BinaryOperator,
    left: Integer,
    right: Integer,
) -> Result<Value, FaultKind>
    ensures { result ≡ integers_of operator left right }
{
    match operator {
        BinaryOperator::Add => exactly(add(left, right)),
        BinaryOperator::Subtract => exactly(subtract(left, right)),
        BinaryOperator::Multiply => exactly(multiply(left, right)),
        BinaryOperator::Divide => quotient_of(left, right),
        BinaryOperator::Remainder => remainder_of(left, right),
        BinaryOperator::ShiftLeft => shift_left_by(left, right),
        BinaryOperator::ShiftRight => shift_right_by(left, right),
        BinaryOperator::BitAnd => exactly(bit_and(left, right)),
        BinaryOperator::BitXor => exactly(bit_xor(left, right)),
        BinaryOperator::BitOr => exactly(bit_or(left, right)),
        BinaryOperator::Equal => matched(BinaryOperator::Equal, equals(left, right)),
        BinaryOperator::NotEqual => matched(BinaryOperator::NotEqual, equals(left, right)),
        BinaryOperator::Less
        | BinaryOperator::LessOrEqual
        | BinaryOperator::Greater
        | BinaryOperator::GreaterOrEqual => ordered(operator, compare(left, right)),
    }
}
