//! Bits that are written among those of bytes.
ghost use Rattle.std.specs.Prelude.{◌≡◌, ◌+◌, ◌^◌, ◌≤◌, ◌<◌, IsTrue, length};
ghost use Rattle.ksv_expr_value.specs.Bits.{number_of};
ghost use Rattle.ksv_expr_value.specs.Bytes.{content};
ghost use Rattle.ksv_expr_value.specs.Places.{bits_between, byte_in, byte_of};
ghost use Rattle.ksv_texts.specs.Bits.{bits_hold, magnitude, replaced_bits, with_bits};

use crate::integer::little_endian;
use arrayvec::ArrayVec;
use ksv_expr_value::{Integer, Parts, Place};

/// How many numbers can be written with `count` bits.
#[tactic(auto, using(ksv_expr_value::proofs::Binary::count_unit))]
fn power(count: u64) -> u128
    requires { count ≤ 72 }
    ensures { result ≡ 2 ^ count }
{
    1_u128 << count
}

/// A number that isn't below 0; else 0.
fn magnitude(number: Integer) -> u128
    ensures { result ≡ magnitude number }
{
    let number = number.get();
    if number < 0 {
        return 0;
    }
    number as u128
}

/// Whether the bits from one place to another hold an integer. There are at most 72 of them.
#[tactic(auto, unfolding(crate::specs::Bits::bits_hold))]
pub fn bits_hold(from: Place, to: Place, number: Integer) -> bool
    requires { bits_between from to ≤ 72 }
    ensures { result ≡ bits_hold from to number }
{
    let count = power(from.bits_to(to));
    let number = number.get();
    0 <= number && (number as u128) < count
}

/// The number that all bits of some bytes write with another number in the bits from one place to another.
fn replaced_number(parts: Parts, from: Place, to: Place, number: u128) -> u128
    requires few { length (content parts) ≤ 9 }
    requires met { byte_in from + length (content parts) ≡ byte_of to }
    requires ordered { from.bits ≤ to.bits }
    requires holds { number < 2 ^ bits_between from to }
    ensures { result ≡ number_of (replaced_bits from to number (content parts.entry)) }
{
    let whole = parts.number();
    let unit = power(u64::from(to.bits_left()));
    let values = power(from.bits_to(to));
    let above = whole / unit / values;
    (above * values + number) * unit + whole % unit
}

/// Bytes with an integer in the bits from one place to another; all other bits are as they were. The bytes are those that these bits
/// meet, and at most nine.
#[tactic(auto, using(crate::proofs::Among::held), unfolding(crate::specs::Bits::with_bits))]
pub fn with_bits(parts: Parts, from: Place, to: Place, number: Integer) -> ArrayVec<u8, 9>
    requires few { length (content parts) ≤ 9 }
    requires met { byte_in from + length (content parts) ≡ byte_of to }
    requires ordered { from.bits ≤ to.bits }
    requires holds { IsTrue (bits_hold from to number) }
    ensures { result.items ≡ with_bits from to (magnitude number) (content parts.entry) }
{
    let count = parts.front.len() + parts.back.len();
    let number = replaced_number(parts, from, to, magnitude(number));
    let mut bytes = little_endian(count, number);
    bytes.as_mut_slice().reverse();
    bytes
}
