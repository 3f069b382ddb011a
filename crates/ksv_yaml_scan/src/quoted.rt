//! Quoted scalars.

ghost use Rattle.std.specs.Prelude.{◌≡◌, ℕ, suc, ◌+◌, ◌*◌, ◌<◌, ◌≤◌, ◌++◌, ◌∷◌, Some, None, length, IfOk, IfErr, IfSome, OnOk};
ghost use Rattle.ksv_yaml_scan.specs.Quoted.{Between, Escaped, single, double, with_bytes, inside, quote_of, hex_digit as hex_digit_of, letter_of, is_surrogate as is_surrogate_of, utf8, digits_from};
ghost use Rattle.ksv_yaml_scan.specs.Views.{quote_view, Unless};

use crate::fault::{ScanError, ScanFault};
use crate::white::next;
use std::alloc::{AllocError, Global};

/// A quoted scalar: its text, and what comes after the closing quote.
#[derive(Drop)]
pub(crate) struct Quote<'a> {
    pub(crate) text: Vec<u8>,
    pub(crate) rest: &'a [u8],
}

/// The quoted scalar that begins here.
pub(crate) fn read_quote(alloc: Global, content: &[u8]) -> Result<Quote<'_>, ScanError>
    ensures ok { IfOk result (λ q. quote_of content.now ≡ Some (quote_view q)) }
    ensures within { IfOk result (λ q. length q.rest.now < length content.now) }
    ensures err { IfErr result (λ e. Unless e (quote_of content.now ≡ None)) }
{
    let Some((byte, rest)) = next(content) else {
        return Err(ScanError::Fault(ScanFault::LeftOut));
    };
    match byte {
        b'\'' => read_single(alloc, rest),
        b'"' => read_double(alloc, rest),
        _ => Err(ScanError::Fault(ScanFault::LeftOut)),
    }
}

/// The text after a single quote, up to the first one that isn't doubled.
fn read_single(alloc: Global, content: &[u8]) -> Result<Quote<'_>, ScanError>
    ensures ok { IfOk result (λ q. inside single Between content.now ≡ Some (quote_view q)) }
    ensures within { IfOk result (λ q. length q.rest.now ≤ length content.now) }
    ensures err { IfErr result (λ e. Unless e (inside single Between content.now ≡ None)) }
{
    let mut text = Vec::new(alloc);
    let mut rest = content;
    while let Some((byte, behind)) = next(rest) {
        rest = behind;
        if byte == b'\'' {
            match next(behind) {
                Some((b'\'', after)) => rest = after,
                _ => return Ok(Quote { text, rest }),
            }
        }
        text.push(byte)?;
    }
    Err(ScanError::Fault(ScanFault::NotClosed))
}

/// The text after a double quote, up to the next one without a backslash before it.
fn read_double(alloc: Global, content: &[u8]) -> Result<Quote<'_>, ScanError>
    ensures ok { IfOk result (λ q. inside double Between content.now ≡ Some (quote_view q)) }
    ensures within { IfOk result (λ q. length q.rest.now ≤ length content.now) }
    ensures err { IfErr result (λ e. Unless e (inside double Between content.now ≡ None)) }
{
    let mut text = Vec::new(alloc);
    let mut rest = content;
    while let Some((byte, behind)) = next(rest) {
        if byte == b'"' {
            return Ok(Quote { text, rest: behind });
        }
        if byte == b'\\' {
            let (code, after) = match read_escape(behind) {
                Ok(escape) => escape,
                Err(fault) => return Err(ScanError::Fault(bad_escape(fault, behind))),
            };
            push_code(&mut text, code)?;
            rest = after;
        } else {
            text.push(byte)?;
            rest = behind;
        }
    }
    Err(ScanError::Fault(ScanFault::NotClosed))
}

/// The fault of an invalid escape, given what follows the backslash; a quote that isn't closed on its line is
/// reported first.
fn bad_escape(fault: ScanFault, content: &[u8]) -> ScanFault {
    let mut escaped = true;
    for byte in content {
        if escaped {
            escaped = false;
        } else if *byte == b'\\' {
            escaped = true;
        } else if *byte == b'"' {
            return fault;
        }
    }
    ScanFault::NotClosed
}

/// The character of an escape, given what follows the backslash, and what comes after it.
fn read_escape(content: &[u8]) -> Result<(u32, &[u8]), ScanFault>
    ensures ok { IfOk result (λ x. inside double Escaped content.now ≡ with_bytes (utf8 x.0) (inside double Between x.1.now)) }
    ensures within { IfOk result (λ x. (x.0 < 65536) × (length x.1.now < length content.now)) }
    ensures err { IfErr result (λ _. inside double Escaped content.now ≡ None) }
{
    let Some((byte, rest)) = next(content) else {
        return Err(ScanFault::NotClosed);
    };
    let (code, rest) = read_code(byte, rest)?;
    if is_surrogate(code) {
        return Err(ScanFault::LeftOut);
    }
    Ok((code, rest))
}

/// The number of an escape, given what follows the backslash: of two or four digits, or a letter's.
fn read_code(byte: u8, content: &[u8]) -> Result<(u32, &[u8]), ScanFault>
    ensures ok { IfOk result (λ x. inside double Escaped (byte ∷ content.now) ≡ digits_from 0 x.0 x.1.now) }
    ensures within { IfOk result (λ x. (x.0 < 65536) × (length x.1.now ≤ length content.now)) }
    ensures err { IfErr result (λ _. inside double Escaped (byte ∷ content.now) ≡ None) }
{
    match byte {
        b'x' => read_byte(content),
        b'u' => read_pair(content),
        _ => match letter(byte) {
            Some(byte) => Ok((byte as u32, content)),
            None => Err(ScanFault::LeftOut),
        },
    }
}

/// The byte of a letter after a backslash.
fn letter(byte: u8) -> Option<u8>
    ensures value { result ≡ letter_of byte }
    ensures small { IfSome result (λ b. b < 128) }
{
    match byte {
        b'"' | b'\\' | b'/' => Some(byte),
        b'0' => Some(0),
        b'a' => Some(7),
        b'b' => Some(8),
        b't' => Some(9),
        b'n' => Some(10),
        b'v' => Some(11),
        b'f' => Some(12),
        b'r' => Some(13),
        b'e' => Some(27),
        _ => None,
    }
}

/// Whether the number is half of a pair in UTF-16, which is no character.
fn is_surrogate(code: u32) -> bool
    ensures { result ≡ is_surrogate_of code }
{
    code >= 0xd800 && code < 0xe000
}

/// The number of four hexadecimal digits, and what comes after them.
fn read_pair(content: &[u8]) -> Result<(u32, &[u8]), ScanFault>
    ensures ok { IfOk result (λ x. (k n : ℕ) → digits_from (suc (suc (suc (suc k)))) n content.now ≡ digits_from k (n * 65536 + x.0) x.1.now) }
    ensures within { IfOk result (λ x. (x.0 < 65536) × (length x.1.now < length content.now)) }
    ensures err { IfErr result (λ _. (k n : ℕ) → digits_from (suc (suc (suc (suc k)))) n content.now ≡ None) }
{
    let (high, rest) = read_byte(content)?;
    let (low, rest) = read_byte(rest)?;
    Ok((high * 256 + low, rest))
}

/// The number of two hexadecimal digits, and what comes after them.
fn read_byte(content: &[u8]) -> Result<(u32, &[u8]), ScanFault>
    ensures ok { IfOk result (λ x. (k n : ℕ) → digits_from (suc (suc k)) n content.now ≡ digits_from k (n * 256 + x.0) x.1.now) }
    ensures within { IfOk result (λ x. (x.0 < 256) × (length x.1.now < length content.now)) }
    ensures err { IfErr result (λ _. (k n : ℕ) → digits_from (suc (suc k)) n content.now ≡ None) }
{
    let (high, rest) = read_digit(content)?;
    let (low, rest) = read_digit(rest)?;
    Ok((high * 16 + low, rest))
}

/// The number of a hexadecimal digit, and what comes after it.
fn read_digit(content: &[u8]) -> Result<(u32, &[u8]), ScanFault>
    ensures ok { IfOk result (λ x. (k n : ℕ) → digits_from (suc k) n content.now ≡ digits_from k (n * 16 + x.0) x.1.now) }
    ensures within { IfOk result (λ x. (x.0 < 16) × (length x.1.now < length content.now)) }
    ensures err { IfErr result (λ _. (k n : ℕ) → digits_from (suc k) n content.now ≡ None) }
{
    let Some((byte, rest)) = next(content) else {
        return Err(ScanFault::NotClosed);
    };
    match hex_digit(byte) {
        Some(digit) => Ok((digit, rest)),
        None => Err(ScanFault::LeftOut),
    }
}

/// The number of a hexadecimal digit.
fn hex_digit(byte: u8) -> Option<u32>
    ensures value { result ≡ hex_digit_of byte }
    ensures small { IfSome result (λ x. x < 16) }
{
    match byte {
        b'0'..=b'9' => Some((byte - b'0') as u32),
        b'A'..=b'F' => Some((byte - b'A' + 10) as u32),
        b'a'..=b'f' => Some((byte - b'a' + 10) as u32),
        _ => None,
    }
}

/// Adds the character of this number, in UTF-8.
fn push_code(text: &mut Vec<u8>, code: u32) -> Result<(), AllocError>
    requires { code < 65536 }
    ensures { OnOk result (text.new.items ≡ text.old.items ++ utf8 code) }
{
    if code < 128 {
        text.push(code as u8)?;
    } else if code < 2048 {
        text.push((192 + code / 64) as u8)?;
        text.push((128 + code % 64) as u8)?;
    } else {
        text.push((224 + code / 4096) as u8)?;
        text.push((128 + code / 64 % 64) as u8)?;
        text.push((128 + code % 64) as u8)?;
    }
    Ok(())
}
