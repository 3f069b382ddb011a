//! The methods of texts.

ghost use Rattle.std.specs.Prelude.{◌≡◌, ◌+◌, ◌<◌, ◌≤◌, ◌^◌, IfOk, string_bytes, length, reverse, ℤ, pos, option_map, map, Some, None, if◌then◌else◌};
ghost use Rattle.std.specs.Str.{chars, encode_utf8_all, bytes_eq};
ghost use Rattle.std.specs.Cmp.Lexicographic.{slice_cmp};
ghost use Rattle.std.specs.Ordering.{nat_cmp};
ghost use Rattle.std.specs.Fmt.{signed_decimal};
ghost use Rattle.ksv_expr_meaning.specs.Texts.{joined, char_count, reversed, between, substring, text_number, number_of, written, numeral, opposite};

use ksv_basics::numeral;
use ksv_expr_value::{FaultKind, Integer, Text};
use std::alloc::{AllocError, Global};
use std::cmp::Ordering;

/// The decimal text of an integer.
pub(crate) fn decimal(alloc: Global, number: Integer) -> Result<Text, AllocError>
    ensures { IfOk result (λ text. text ≡ signed_decimal number) }
{
    let number = number.get();
    Text::new(alloc, format!(in alloc; "{number}")?)
}

/// This text and another after it; None if it has more than 16,777,216 bytes.
pub(crate) fn join(alloc: Global, text: &Text, other: &Text) -> Result<Option<Text>, AllocError>
    ensures { IfOk result (λ made. made ≡ joined text.now other.now) }
{
    let left = text.as_str().len();
    let right = other.as_str().len();
    if left > Text::MAX_LEN || right > Text::MAX_LEN - left {
        return Ok(None);
    }
    let mut string = String::from_str(alloc, text.as_str())?;
    string.push_str(other.as_str())?;
    Ok(Some(Text::new(alloc, string)?))
}

/// Whether the two have the same bytes.
pub(crate) fn equals(text: &Text, other: &Text) -> bool
    ensures { result ≡ bytes_eq text.now other.now }
{
    text.as_str() == other.as_str()
}

/// The order of the two, by their bytes.
pub(crate) fn compare(text: &Text, other: &Text) -> Ordering
    ensures { result ≡ slice_cmp nat_cmp text.now other.now }
{
    text.as_str().cmp(other.as_str())
}

/// How many characters the text has.
#[tactic(auto, using(std::proofs::lemmas::Str::chars_from_encodes))]
pub(crate) fn char_count(text: &Text) -> usize
    ensures { result ≡ char_count text.now }
{
    text.as_str().chars().count()
}

#[tactic(auto, using(std::proofs::lemmas::Str::chars_from_encodes))]
fn characters(alloc: Global, text: &Text) -> Result<Vec<char>, AllocError>
    ensures { IfOk result (λ characters. characters.items ≡ chars text.now) }
{
    text.as_str().chars().collect(alloc)
}

#[tactic(auto, using(crate::proofs::Characters::encode_more))]
fn from_characters(alloc: Global, characters: &[char]) -> Result<Text, AllocError>
    ensures { IfOk result (λ text. text ≡ encode_utf8_all characters.now) }
{
    let mut string = String::new(alloc);
    for character in characters {
        string.push(*character)?;
    }
    Text::new(alloc, string)
}

/// The text with its characters from the last to the first.
pub(crate) fn reverse(alloc: Global, text: &Text) -> Result<Text, AllocError>
    ensures { IfOk result (λ made. made ≡ reversed text.now) }
{
    let mut characters = characters(alloc, text)?;
    characters.reverse();
    from_characters(alloc, &characters)
}

/// The characters from one place on and before another, both within the text.
pub(crate) fn between(
    alloc: Global,
    text: &Text,
    from: usize,
    to: usize,
) -> Result<Option<Text>, AllocError>
    ensures { IfOk result (λ made. made ≡ between text.now from to) }
{
    if from > to || to > char_count(text) {
        return Ok(None);
    }
    let characters = characters(alloc, text)?;
    Ok(Some(from_characters(alloc, &characters[from..to])?))
}

/// The characters from one place on and before another, if both are places in the text.
pub(crate) fn substring(
    alloc: Global,
    text: &Text,
    from: Integer,
    to: Integer,
) -> Result<Option<Text>, AllocError>
    ensures { IfOk result (λ made. made ≡ substring text.now from to) }
{
    let from = from.get();
    let to = to.get();
    if from < 0 || to < 0 {
        return Ok(None);
    }
    between(alloc, text, from as usize, to as usize)
}

/// The integer that the text is in a radix of 2 to 36: one optional `-`, and digits of either case.
pub(crate) fn number(text: &Text, radix: Integer) -> Result<Integer, FaultKind>
    ensures { result ≡ text_number radix text.now }
{
    let radix = radix.get();
    if radix < 2 || radix > 36 {
        return Err(FaultKind::BadNumber);
    }
    match written(text.as_str().as_bytes(), radix as u32) {
        None => Err(FaultKind::BadNumber),
        Some(number) => Integer::new(number).ok_or(FaultKind::Overflow),
    }
}

/// The number of a numeral, or one outside the integers' range if the numeral's number is outside it.
#[tactic(auto, using(crate::proofs::Numerals::seen_number))]
fn positive(digits: &[u8], radix: u32) -> Option<i128>
    requires lower { 2 ≤ radix }
    requires upper { radix ≤ 36 }
    ensures { number_of result ≡ number_of (numeral radix digits.now) }
{
    match numeral(digits, radix) {
        None => None,
        Some(number) => Some(number as i128),
    }
}

/// The opposite of a numeral's number, or one outside the integers' range if that number is outside it.
#[tactic(auto, using(crate::proofs::Numerals::seen_opposite))]
fn negative(digits: &[u8], radix: u32) -> Option<i128>
    requires lower { 2 ≤ radix }
    requires upper { radix ≤ 36 }
    ensures { number_of result ≡ number_of (opposite (numeral radix digits.now)) }
{
    match numeral(digits, radix) {
        None => None,
        Some(number) => Some(-(number as i128)),
    }
}

/// The integer of these bytes, or one outside the integers' range if theirs is outside it.
fn written(bytes: &[u8], radix: u32) -> Option<i128>
    requires lower { 2 ≤ radix }
    requires upper { radix ≤ 36 }
    ensures { number_of result ≡ number_of (written radix bytes.now) }
{
    match bytes.split_first() {
        None => None,
        Some((first, digits)) => {
            if *first == b'-' {
                return negative(digits, radix);
            }
            positive(bytes, radix)
        }
    }
}
