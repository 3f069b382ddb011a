//! Plain numbers.

ghost use Rattle.std.specs.Prelude.{◌≡◌, slice_index, length, nat_lt, ◌==◌, ◌&&◌};
ghost use Rattle.ksv_yaml_tree.specs.Numerals.{decimal_to, hexadecimal_to, opposite, plain_number, signed_number};

use ksv_basics::numeral;

/// What a text means where a plain number is wanted.
#[derive(Clone, Copy, Debug)]
pub enum Numeral {
    /// A number.
    Whole(i128),
    /// A decimal with a leading zero, which is unsupported.
    LeadingZero,
    /// No plain number, or one outside the range.
    NoNumeral,
}

/// The lowest number of a description, without its sign.
const LOWEST: u64 = 0x8000_0000_0000_0000;

/// Whether a decimal has a leading zero.
fn has_leading_zero(digits: &[u8]) -> bool
    ensures { result ≡ (slice_index digits.now 0 == 48 && nat_lt 1 (length digits.now)) }
{
    digits.len() > 1 && digits[0] == b'0'
}

/// A decimal of at most `most`.
fn decimal_to(most: u64, digits: &[u8]) -> Numeral
    ensures { result ≡ decimal_to most digits.now }
{
    match numeral(digits, 10) {
        None => Numeral::NoNumeral,
        Some(number) => {
            if has_leading_zero(digits) {
                Numeral::LeadingZero
            } else if number <= u128::from(most) {
                Numeral::Whole(number as i128)
            } else {
                Numeral::NoNumeral
            }
        }
    }
}

/// The negative of a decimal of at most `most`.
fn negative_to(most: u64, digits: &[u8]) -> Numeral
    ensures { result ≡ opposite (decimal_to most digits.now) }
{
    match numeral(digits, 10) {
        None => Numeral::NoNumeral,
        Some(number) => {
            if has_leading_zero(digits) {
                Numeral::LeadingZero
            } else if number <= u128::from(most) {
                Numeral::Whole(-(number as i128))
            } else {
                Numeral::NoNumeral
            }
        }
    }
}

/// A hexadecimal of at most `most`.
fn hexadecimal_to(most: u64, digits: &[u8]) -> Numeral
    ensures { result ≡ hexadecimal_to most digits.now }
{
    match numeral(digits, 16) {
        None => Numeral::NoNumeral,
        Some(number) => {
            if number <= u128::from(most) {
                Numeral::Whole(number as i128)
            } else {
                Numeral::NoNumeral
            }
        }
    }
}

/// A plain number of at most `most`: decimal, or hexadecimal after `0x`.
#[tactic(auto, unfolding(crate::specs::Numerals::plain_number))]
pub fn plain_number(most: u64, text: &[u8]) -> Numeral
    ensures { result ≡ plain_number most text.now }
{
    match text {
        [b'0', b'x', digits @ ..] => hexadecimal_to(most, digits),
        _ => decimal_to(most, text),
    }
}

/// A number from -2^63 to 2^64 - 1: a plain number, or a decimal after `-`.
#[tactic(auto, unfolding(crate::specs::Numerals::signed_number))]
pub fn signed_number(text: &[u8]) -> Numeral
    ensures { result ≡ signed_number text.now }
{
    match text.split_first() {
        None => Numeral::NoNumeral,
        Some((first, rest)) => {
            if *first == b'-' {
                negative_to(LOWEST, rest)
            } else {
                plain_number(u64::MAX, text)
            }
        }
    }
}
