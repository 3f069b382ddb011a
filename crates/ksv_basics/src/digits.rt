//! Digits in a row.

ghost use Rattle.std.specs.Prelude.{◌≡◌, ◌≤◌, ◌^◌, min, IsTrue, IsFalse, MatchOption};
ghost use Rattle.std.specs.List.{list_all};
ghost use Rattle.std.specs.Str.Parse.{digits_value};
ghost use Rattle.ksv_basics.specs.Numerals.{is_digit, is_numeral};

/// A bound above every number of ksv.
const LIMIT: u128 = 0x1_0000_0000_0000_0000;

/// Whether all bytes are digits of a radix.
fn are_digits(text: &[u8], radix: u32) -> bool
    requires lower { 2 ≤ radix }
    requires upper { radix ≤ 36 }
    ensures { result ≡ list_all (is_digit radix) text.now }
{
    text.iter().all(|byte| char::from(*byte).is_digit(radix))
}

/// Whether a text is one digit or more, and nothing else.
pub fn is_numeral(text: &[u8], radix: u32) -> bool
    requires lower { 2 ≤ radix }
    requires upper { radix ≤ 36 }
    ensures { result ≡ is_numeral radix text.now }
{
    match text {
        [] => false,
        [_, ..] => are_digits(text, radix),
    }
}

/// The number of a numeral, or 2^64 if it is larger; none where a text is no numeral.
pub fn numeral(text: &[u8], radix: u32) -> Option<u128>
    requires lower { 2 ≤ radix }
    requires upper { radix ≤ 36 }
    ensures { MatchOption result (IsFalse (is_numeral radix text.now)) (λ n. IsTrue (is_numeral radix text.now) × (n ≡ min (digits_value radix text.now) (2 ^ 64))) }
{
    if text.is_empty() {
        return None;
    }
    let mut number = 0u128;
    for digit in text {
        let value = char::from(*digit).to_digit(radix)?;
        number = (number * u128::from(radix) + u128::from(value)).min(LIMIT);
    }
    Some(number)
}
