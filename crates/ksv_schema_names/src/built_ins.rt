//! The types that the language itself has.

ghost use Rattle.std.specs.Prelude.{◌≡◌, Some, None, if◌then◌else◌, map, string_bytes};
ghost use Rattle.std.specs.Str.Parse.{digits_value};
ghost use Rattle.ksv_schema_names.specs.BuiltIn.{has_size, of_kind, order_suffix, number_type, is_width, is_little, before_order, is_bits, bits_type, built_in, built_in_at};

use crate::outwards::order_named;
use ksv_desc::ByteOrder;

/// A type of the language.
#[derive(Clone, Copy, Debug)]
pub enum BuiltIn {
    /// `u1` to `s8be`
    Integer {
        /// Whether it has a sign.
        is_signed: bool,
        /// How many bytes it has: 1, 2, 4 or 8.
        size: u8,
        /// The order of its bytes, if the name has one.
        order: Option<ByteOrder>,
    },
    /// `b1` to `b64be`
    Bits {
        /// How many bits it has: 1 to 64.
        width: u8,
        /// Whether the lowest bit of a byte is its first, as `le` at the end says. That is unsupported.
        is_little: bool,
    },
    /// `str`
    Str,
    /// `strz`
    Strz,
    /// An unsupported type: a floating-point number.
    NotHere,
}

/// The type of the language that a name is.
#[tactic(auto, unfolding(crate::specs::BuiltIn::built_in))]
pub fn built_in(name: &[u8]) -> Option<BuiltIn>
    ensures { result ≡ built_in name.now }
{
    match bits_type(name) {
        Some(bits) => Some(bits),
        None => {
            if name == b"str".as_slice() {
                return Some(BuiltIn::Str);
            }
            if name == b"strz".as_slice() {
                return Some(BuiltIn::Strz);
            }
            number_type(name)
        }
    }
}

/// Whether a number has a size, if this is its order.
fn has_size(size: u8, order: Option<ByteOrder>) -> bool
    ensures { result ≡ has_size size order }
{
    match size {
        1 => order.is_none(),
        2 | 4 | 8 => true,
        _ => false,
    }
}

/// The type of a number: its first letter, its size and its order.
fn of_kind(kind: u8, size: u8, order: Option<ByteOrder>) -> Option<BuiltIn>
    ensures { result ≡ of_kind kind size order }
{
    let has_size = has_size(size, order);
    let is_signed = kind == b's';
    if has_size && (is_signed || kind == b'u') {
        return Some(BuiltIn::Integer {
            is_signed,
            size,
            order,
        });
    }
    if kind == b'f' && (size == 4 || size == 8) {
        return Some(BuiltIn::NotHere);
    }
    None
}

/// The order that the end of a type's name states; an empty one states none.
fn order_suffix(suffix: &[u8]) -> Option<Option<ByteOrder>>
    ensures { result ≡ order_suffix suffix.now }
{
    match suffix {
        [] => Some(None),
        [_, ..] => Some(Some(order_named(suffix)?)),
    }
}

/// The type of a name that is that of a number.
fn number_type(name: &[u8]) -> Option<BuiltIn>
    ensures { result ≡ number_type name.now }
{
    match name {
        [kind, digit, suffix @ ..] => {
            of_kind(*kind, digit.saturating_sub(b'0'), order_suffix(suffix)?)
        }
        _ => None,
    }
}

/// The type of a name that is that of an integer of 1 to 64 bits.
#[tactic(auto, unfolding(crate::specs::BuiltIn::is_bits))]
fn bits_type(name: &[u8]) -> Option<BuiltIn>
    ensures { result ≡ (if is_bits name.now then Some (bits_type name.now) else None) }
{
    match name {
        [b'b', rest @ ..] => Some(BuiltIn::Bits {
            width: width(before_order(rest))?,
            is_little: is_little(name),
        }),
        _ => None,
    }
}

/// Whether a text has `le` at the end.
fn is_little(text: &[u8]) -> bool
    ensures { result ≡ is_little text.now }
{
    let start = text.len().saturating_sub(2);
    &text[start..] == b"le".as_slice()
}

/// What comes before `le` or `be` at the end.
fn before_order(text: &[u8]) -> &[u8]
    ensures { result.now ≡ before_order text.now }
{
    let start = text.len().saturating_sub(2);
    let suffix = &text[start..];
    if suffix == b"le".as_slice() || suffix == b"be".as_slice() {
        &text[..start]
    } else {
        text
    }
}

/// The number of a text that is a decimal from 1 to 64 and doesn't begin with 0.
fn width(text: &[u8]) -> Option<u8>
    ensures { result ≡ (if is_width text.now then Some (digits_value 10 text.now) else None) }
{
    match text {
        [ones] if ones.is_ascii_digit() && *ones > b'0' => Some(*ones - b'0'),
        [tens, ones] if tens.is_ascii_digit() && ones.is_ascii_digit() && *tens > b'0' => {
            let width = (*tens - b'0') * 10 + (*ones - b'0');
            if width <= 64 { Some(width) } else { None }
        }
        _ => None,
    }
}

/// The type of the language that a path means; only a path of one name means one.
pub fn built_in_at(path: &[String]) -> Option<BuiltIn>
    ensures { result ≡ built_in_at (map string_bytes path.now) }
{
    match path {
        [name] => built_in(name.as_bytes()),
        _ => None,
    }
}
