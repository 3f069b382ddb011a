//! Integers, as the bytes of a file hold them.

ghost use Rattle.std.specs.Prelude.{◌≡◌, ◌<◌, ◌≤◌, ◌+◌, ◌-◌, ◌*◌, ◌^◌, length, pos, reverse};
ghost use Rattle.ksv_expr_value.specs.Bytes.{content};
ghost use Rattle.ksv_rule_meaning.specs.Integers.{integer_value, unsigned_value, sum_of_bytes};

use ksv_desc::ByteOrder;
use ksv_expr_value::Parts;

/// The number that bytes write, the most significant first.
fn big_endian(bytes: &[u8]) -> u64
    requires { length bytes.now ≤ 8 }
    ensures value { result ≡ sum_of_bytes (reverse bytes.now) }
    ensures small { result < 256 ^ length bytes.now }
{
    let mut value = 0u64;
    for byte in bytes {
        value = value * 256 + u64::from(*byte);
    }
    value
}

/// The number that bytes write, the least significant first.
fn little_endian(bytes: &[u8]) -> u64
    requires { length bytes.now ≤ 8 }
    ensures value { result ≡ sum_of_bytes bytes.now }
    ensures small { result < 256 ^ length bytes.now }
{
    let mut value = 0u64;
    for index in 0..bytes.len() {
        value = value * 256 + u64::from(bytes[bytes.len() - 1 - index]);
    }
    value
}

/// A number of some bytes, with another above it; both together have at most 8 bytes.
#[tactic(auto, using(crate::proofs::Integers::sum_fits, crate::proofs::Integers::byte_unit, crate::proofs::Integers::power_small))]
fn with_above(low: u64, count: usize, high: u64) -> u64
    requires count { count ≤ 8 }
    requires low { low < 256 ^ count }
    requires high { high < 256 ^ (8 - count) }
    ensures { result ≡ low + 256 ^ count * high }
{
    let unit = 1_u128 << (8 * count);
    (u128::from(low) + unit * u128::from(high)) as u64
}

/// The number that at most 8 bytes write.
#[tactic(auto, using(crate::proofs::Integers::sum_append, crate::proofs::Integers::reverse_sum, crate::proofs::Integers::fits_above))]
fn unsigned_value(order: ByteOrder, parts: Parts) -> u64
    requires { length (content parts) ≤ 8 }
    ensures { result ≡ unsigned_value order (content parts.entry) }
{
    let (front, back) = (parts.front, parts.back);
    match order {
        ByteOrder::Little => with_above(little_endian(front), front.len(), little_endian(back)),
        ByteOrder::Big => with_above(big_endian(back), back.len(), big_endian(front)),
    }
}

/// How many values an integer of a number of bytes can have.
#[tactic(auto, using(crate::proofs::Integers::byte_unit, ksv_expr_value::proofs::Binary::byte_power, crate::proofs::Integers::power_small))]
fn value_count(count: usize) -> i128
    requires { count ≤ 8 }
    ensures value { result ≡ pos (2 ^ (8 * count)) }
    ensures small { 2 ^ (8 * count) ≤ 2 ^ 64 }
{
    let values = 1_u128 << (8 * count);
    values as i128
}

/// The integer that at most 8 bytes say: unsigned, or in two's complement (User Guide, "Fixed-size structures"), in this order.
#[tactic(auto, unfolding(crate::specs::Integers::integer_value))]
pub fn integer_value(is_signed: bool, order: ByteOrder, parts: Parts) -> i128
    requires { length (content parts) ≤ 8 }
    ensures { result ≡ integer_value is_signed order (content parts.entry) }
{
    let unsigned = i128::from(unsigned_value(order, parts));
    let values = value_count(parts.front.len() + parts.back.len());
    if is_signed && unsigned >= values / 2 {
        unsigned - values
    } else {
        unsigned
    }
}
