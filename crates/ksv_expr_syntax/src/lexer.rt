//! Cuts a text into tokens, each the longest that the rest of the text begins with.

ghost use Rattle.std.specs.Prelude.{◌≡◌, ◌≢◌, ◌+◌, ◌<◌, ◌≤◌, [], ◌∷◌, ◌++◌, length, take, drop, take_while, position, slice_index, codes, bytes_eq, ◌==◌, ◌&&◌, ◌*◌, ◌^◌, IsUtf8, Some, None, encode_utf8, OnOk, IfOk, MatchOption, MatchResult};
ghost use Rattle.ksv_expr_syntax.specs.Lexemes.{lexeme_of};
ghost use Rattle.ksv_expr_syntax.specs.Tokens.{is_space, is_name_start, is_name_byte, skip, word_lexeme, base, is_digit, digit_value, natural, escape_of, four_digits, is_surrogate, unicode_of, less_follows, is_dot, is_as, mark};
ghost use Rattle.ksv_expr_syntax.specs.Cutting.{cut_name, radix_of, prefix_size, run, goes_on_as_float, is_left_out_number, cut_number, text_of, cut_single, put, quoted, escaped, unicode, cut_double, cut_symbol, cut};
ghost use Rattle.ksv_expr_syntax.specs.Code.{GivesCut, GivesQuoted, GivesTokens};
ghost use Rattle.std.specs.Char.{is_ascii_hexdigit};

use crate::fault::{ExprFault, ExprFaultKind};
use crate::token::{Placed, Symbol, Token, one_byte_symbol, two_byte_symbol};
use ksv_expr_tree::Literal;
use std::alloc::{AllocError, Global};

/// How a number is written.
#[derive(Clone, Copy)]
pub enum Radix {
    /// `0b..`
    Binary,
    /// Decimal digits.
    Decimal,
    /// `0x..`
    Hexadecimal,
}

/// The byte at this place, or 0 past the end.
fn byte_at(text: &[u8], index: usize) -> u8
    ensures { result ≡ slice_index text.now index }
{
    if index < text.len() { text[index] } else { 0 }
}

/// The first byte, and those after it.
fn first_byte(text: &[u8]) -> Option<(u8, &[u8])>
    ensures { MatchOption result (text.now ≡ []) (λ x. text.now ≡ x.0 ∷ x.1.now) }
{
    match text {
        [] => None,
        [first, rest @ ..] => Some((*first, rest)),
    }
}

/// The bytes before this place.
fn before(text: &[u8], count: usize) -> &[u8]
    ensures { result.now ≡ take count text.now }
{
    if count < text.len() {
        text.split_at(count).0
    } else {
        text
    }
}

/// The bytes from this place on.
fn behind(text: &[u8], count: usize) -> &[u8]
    ensures { result.now ≡ drop count text.now }
{
    if count < text.len() {
        text.split_at(count).1
    } else {
        &[]
    }
}

/// The text after its white space.
fn skip_spaces(text: &[u8]) -> &[u8]
    ensures { result.now ≡ skip text.now }
{
    behind(text, space_size(text))
}

/// How many bytes of white space are at the front.
fn space_size(text: &[u8]) -> usize
    ensures { result ≡ length (take_while is_space text.now) }
{
    text.iter().take_while(|byte| is_white(**byte)).count()
}

fn is_white(byte: u8) -> bool
    ensures { result ≡ is_space byte }
{
    byte == b' ' || byte == b'\t' || byte == b'\n' || byte == b'\r'
}

fn begins_name(byte: u8) -> bool
    ensures { result ≡ is_name_start byte }
{
    byte.is_ascii_lowercase() || byte == b'_'
}

fn continues_name(byte: u8) -> bool
    ensures { result ≡ is_name_byte byte }
{
    byte.is_ascii_lowercase() || byte.is_ascii_digit() || byte == b'_'
}

/// The token of a name or a word.
fn word_token(alloc: Global, text: &str) -> Result<Token, AllocError>
    ensures { IfOk result (λ t. lexeme_of t ≡ word_lexeme text.now) }
{
    if text == "true" {
        Ok(Token::Literal(Literal::Truth(true)))
    } else if text == "false" {
        Ok(Token::Literal(Literal::Truth(false)))
    } else if text == "and" {
        Ok(Token::Symbol(Symbol::And))
    } else if text == "or" {
        Ok(Token::Symbol(Symbol::Or))
    } else if text == "not" {
        Ok(Token::Symbol(Symbol::Not))
    } else {
        Ok(Token::Name(String::from_str(alloc, text)?))
    }
}

/// These bytes as a text.
fn as_text(bytes: &[u8]) -> &str
    requires { IsUtf8 bytes.now }
    ensures { result.now ≡ bytes.now }
{
    match str::from_utf8(bytes) {
        Ok(text) => text,
        Err(_) => "",
    }
}

/// How many bytes the name at the front has.
fn name_size(text: &[u8]) -> usize
    ensures { result ≡ length (take_while is_name_byte text.now) }
{
    text.iter()
        .take_while(|byte| continues_name(**byte))
        .count()
}

/// Whether this name begins a format string, which is unsupported.
fn begins_format(word: &str, rest: &[u8]) -> bool
    ensures { result ≡ (bytes_eq word.now (codes "f") && slice_index rest.now 0 == 34) }
{
    word == "f" && byte_at(rest, 0) == b'"'
}

/// A name or a word.
fn name_token<'a>(alloc: Global, text: &'a [u8]) -> Result<(Token, &'a [u8]), ExprFaultKind>
    ensures { GivesCut (cut_name text.now) result }
{
    let size = name_size(text);
    let word = as_text(before(text, size));
    let rest = behind(text, size);
    if begins_format(word, rest) {
        return Err(ExprFaultKind::LeftOutForm);
    }
    Ok((word_token(alloc, word)?, rest))
}

fn is_digit_of(radix: Radix, byte: u8) -> bool
    ensures { result ≡ is_digit radix byte }
{
    match radix {
        Radix::Binary => byte == b'0' || byte == b'1',
        Radix::Decimal => byte.is_ascii_digit(),
        Radix::Hexadecimal => byte.is_ascii_hexdigit(),
    }
}

/// The radix of the number at the front.
fn radix_at(text: &[u8]) -> Radix
    ensures { result ≡ radix_of text.now }
{
    if byte_at(text, 0) == b'0'
        && byte_at(text, 1) == b'x'
        && is_digit_of(Radix::Hexadecimal, byte_at(text, 2))
    {
        Radix::Hexadecimal
    } else if byte_at(text, 0) == b'0'
        && byte_at(text, 1) == b'b'
        && is_digit_of(Radix::Binary, byte_at(text, 2))
    {
        Radix::Binary
    } else {
        Radix::Decimal
    }
}

/// How many bytes the longest run of digits at the front has; one `_` may come between two digits.
fn run_size(radix: Radix, text: &[u8]) -> usize
    ensures is { result ≡ run radix text.now }
    ensures within { result ≤ length text.now }
{
    let mut size = 0;
    let mut rest = text;
    'digits: loop {
        let Some((byte, after)) = first_byte(rest) else {
            return size;
        };
        if is_digit_of(radix, byte) {
            size += 1;
            rest = after;
            continue 'digits;
        }
        if byte != b'_' {
            return size;
        }
        let Some((byte, after)) = first_byte(after) else {
            return size;
        };
        if !is_digit_of(radix, byte) {
            return size;
        }
        size += 2;
        rest = after;
    }
}

/// How many bytes come before the digits.
fn prefix_of(radix: Radix) -> usize
    ensures { result ≡ prefix_size radix }
{
    match radix {
        Radix::Decimal => 0,
        Radix::Binary | Radix::Hexadecimal => 2,
    }
}

/// The value of a digit.
fn digit_of(byte: u8) -> u8
    ensures { result ≡ digit_value byte }
{
    if byte <= b'9' {
        byte.saturating_sub(48)
    } else if byte >= b'a' {
        byte - 87
    } else {
        byte.saturating_sub(55)
    }
}

/// A number with room for one digit more.
fn shifted(radix: Radix, number: u64) -> u128
    ensures is { result ≡ number * base radix }
    ensures bound { result < 16 * 2 ^ 64 }
{
    let number = number as u128;
    match radix {
        Radix::Binary => number * 2,
        Radix::Decimal => number * 10,
        Radix::Hexadecimal => number * 16,
    }
}

/// A number with one digit more, below 2^64.
fn one_more(radix: Radix, number: u64, byte: u8) -> Option<u64>
    ensures { MatchOption result (2 ^ 64 ≤ number * base radix + digit_value byte) (λ n. n ≡ number * base radix + digit_value byte) }
{
    let wide = shifted(radix, number) + digit_of(byte) as u128;
    if wide < 0x1_0000_0000_0000_0000 {
        Some(wide as u64)
    } else {
        None
    }
}

/// The number of these digits, below 2^64.
fn number_of_digits(radix: Radix, digits: &[u8]) -> Option<u64>
    ensures { MatchOption result (2 ^ 64 ≤ natural radix 0 digits.now) (λ n. n ≡ natural radix 0 digits.now) }
{
    let mut number = 0;
    let mut rest = digits;
    'digits: loop {
        let Some((byte, after)) = first_byte(rest) else {
            return Some(number);
        };
        if byte != b'_' {
            number = one_more(radix, number, byte)?;
        }
        rest = after;
    }
}

/// Whether a float goes on here.
fn continues_float(rest: &[u8]) -> bool
    ensures { result ≡ goes_on_as_float rest.now }
{
    (byte_at(rest, 0) == b'.' && byte_at(rest, 1).is_ascii_digit())
        || ((byte_at(rest, 0) == b'e' || byte_at(rest, 0) == b'E')
            && (byte_at(rest, 1).is_ascii_digit()
                || ((byte_at(rest, 1) == b'+' || byte_at(rest, 1) == b'-')
                    && byte_at(rest, 2).is_ascii_digit())))
}

/// Whether this is a float, or a decimal with a leading zero.
fn left_out_number(radix: Radix, digits: &[u8], rest: &[u8]) -> bool
    ensures { result ≡ is_left_out_number radix digits.now rest.now }
{
    match radix {
        Radix::Decimal => {
            continues_float(rest) || (byte_at(digits, 0) == b'0' && digits.len() > 1)
        }
        Radix::Binary | Radix::Hexadecimal => false,
    }
}

/// A number.
fn number_token(text: &[u8]) -> Result<(Token, &[u8]), ExprFaultKind>
    ensures { GivesCut (cut_number text.now) result }
{
    let radix = radix_at(text);
    let digits = behind(text, prefix_of(radix));
    let size = run_size(radix, digits);
    let piece = before(digits, size);
    let rest = behind(digits, size);
    if left_out_number(radix, piece, rest) {
        return Err(ExprFaultKind::LeftOutForm);
    }
    let Some(number) = number_of_digits(radix, piece) else {
        return Err(ExprFaultKind::NumberOutsideRange);
    };
    Ok((Token::Literal(Literal::Number(number)), rest))
}

/// A text of these bytes.
fn text_token<'a>(
    alloc: Global,
    bytes: &[u8],
    rest: &'a [u8],
) -> Result<(Token, &'a [u8]), ExprFaultKind>
    ensures { GivesCut (text_of bytes.now rest.now) result }
{
    match str::from_utf8(bytes) {
        Ok(text) => Ok((
            Token::Literal(Literal::Text(String::from_str(alloc, text)?)),
            rest,
        )),
        Err(_) => Err(ExprFaultKind::UnexpectedCharacter),
    }
}

/// Where the first `'` is.
fn quote_place(text: &[u8]) -> Option<usize>
    ensures { result ≡ position (λ c. c == 39) text.now }
{
    text.iter().position(|byte| *byte == b'\'')
}

/// A text after its `'`.
fn single_token<'a>(alloc: Global, text: &'a [u8]) -> Result<(Token, &'a [u8]), ExprFaultKind>
    ensures { GivesCut (cut_single text.now) result }
{
    let Some(size) = quote_place(text) else {
        return Err(ExprFaultKind::UnexpectedEnd);
    };
    text_token(alloc, before(text, size), behind(behind(text, size), 1))
}

/// The character of a letter after a backslash.
fn simple_escape(letter: u8) -> Option<char>
    ensures { result ≡ escape_of letter }
{
    if letter == b'\\' {
        Some('\\')
    } else if letter == b'"' {
        Some('"')
    } else if letter == b'\'' {
        Some('\'')
    } else if letter == b'a' {
        Some('\u{7}')
    } else if letter == b'b' {
        Some('\u{8}')
    } else if letter == b't' {
        Some('\t')
    } else if letter == b'n' {
        Some('\n')
    } else if letter == b'v' {
        Some('\u{b}')
    } else if letter == b'f' {
        Some('\u{c}')
    } else if letter == b'r' {
        Some('\r')
    } else if letter == b'e' {
        Some('\u{1b}')
    } else {
        None
    }
}

fn all_hexadecimal(first: u8, second: u8, third: u8, fourth: u8) -> bool
    ensures { result ≡ (is_ascii_hexdigit first && is_ascii_hexdigit second && is_ascii_hexdigit third && is_ascii_hexdigit fourth) }
{
    first.is_ascii_hexdigit()
        && second.is_ascii_hexdigit()
        && third.is_ascii_hexdigit()
        && fourth.is_ascii_hexdigit()
}

/// The number of four hexadecimal digits.
fn four_digit_number(first: u8, second: u8, third: u8, fourth: u8) -> u32
    ensures is { result ≡ four_digits first second third fourth }
    ensures bound { result < 0x110000 }
{
    ((digit_of(first) as u32 * 16 + digit_of(second) as u32) * 16 + digit_of(third) as u32) * 16
        + digit_of(fourth) as u32
}

/// Whether this is a surrogate: half of a character in another encoding, and itself no character.
fn is_half(number: u32) -> bool
    ensures { result ≡ is_surrogate number }
{
    number >= 0xd800 && number <= 0xdfff
}

/// The character of four hexadecimal digits; a surrogate is none.
fn unicode_character(first: u8, second: u8, third: u8, fourth: u8) -> Option<char>
    ensures { result ≡ unicode_of first second third fourth }
{
    let valid = all_hexadecimal(first, second, third, fourth);
    let number = four_digit_number(first, second, third, fourth);
    let half = is_half(number);
    if !valid {
        return None;
    }
    if half {
        return None;
    }
    char::from_u32(number)
}

/// What is wrong with `\u` and too few bytes after it.
fn short_unicode(text: &[u8]) -> ExprFaultKind {
    if text.iter().all(|byte| byte.is_ascii_hexdigit()) {
        ExprFaultKind::UnexpectedEnd
    } else {
        ExprFaultKind::LeftOutForm
    }
}

/// The character of `\u`, and the bytes after it.
fn unicode_escape(text: &[u8]) -> Result<(char, &[u8]), ExprFaultKind>
    ensures is { MatchResult result (λ x. unicode text.now ≡ put (encode_utf8 x.0) (quoted x.1.now)) (λ _. unicode text.now ≡ None) }
    ensures shorter { IfOk result (λ x. length x.1.now < length text.now) }
{
    if text.len() < 4 {
        return Err(short_unicode(text));
    }
    match unicode_character(
        byte_at(text, 0),
        byte_at(text, 1),
        byte_at(text, 2),
        byte_at(text, 3),
    ) {
        Some(character) => Ok((character, behind(text, 4))),
        None => Err(ExprFaultKind::LeftOutForm),
    }
}

/// The character of an escape, given the text after its backslash, and the bytes after it.
fn escape(text: &[u8]) -> Result<(char, &[u8]), ExprFaultKind>
    ensures is { MatchResult result (λ x. escaped text.now ≡ put (encode_utf8 x.0) (quoted x.1.now)) (λ _. escaped text.now ≡ None) }
    ensures shorter { IfOk result (λ x. length x.1.now < length text.now) }
{
    let Some((letter, rest)) = first_byte(text) else {
        return Err(ExprFaultKind::UnexpectedEnd);
    };
    if letter == b'u' {
        return unicode_escape(rest);
    }
    match simple_escape(letter) {
        Some(character) => Ok((character, rest)),
        None => Err(ExprFaultKind::LeftOutForm),
    }
}

/// A character's bytes at the end of others.
fn push_character(bytes: &mut Vec<u8>, character: char) -> Result<(), AllocError>
    ensures { OnOk result (bytes.new.items ≡ bytes.old.items ++ encode_utf8 character) }
{
    let mut room = [0; 4];
    bytes.extend_from_slice(character.encode_utf8(&mut room).as_bytes())
}

/// The bytes of a text after its `"`, and what comes after the closing one.
fn quoted_bytes<'a>(alloc: Global, text: &'a [u8]) -> Result<(Vec<u8>, &'a [u8]), ExprFaultKind>
    ensures { GivesQuoted text.now result }
{
    let mut bytes = Vec::new(alloc);
    let mut rest = text;
    'bytes: loop {
        let Some((byte, after)) = first_byte(rest) else {
            return Err(ExprFaultKind::UnexpectedEnd);
        };
        if byte == b'"' {
            return Ok((bytes, after));
        }
        if byte == b'\\' {
            let (character, behind) = escape(after)?;
            push_character(&mut bytes, character)?;
            rest = behind;
        } else {
            bytes.push(byte)?;
            rest = after;
        }
    }
}

/// A text after its `"`.
fn double_token<'a>(alloc: Global, text: &'a [u8]) -> Result<(Token, &'a [u8]), ExprFaultKind>
    ensures { GivesCut (cut_double text.now) result }
{
    let (bytes, rest) = quoted_bytes(alloc, text)?;
    text_token(alloc, bytes.as_slice(), rest)
}

/// A symbol.
fn symbol_token(text: &[u8]) -> Result<(Token, &[u8]), ExprFaultKind>
    ensures { GivesCut (cut_symbol text.now) result }
{
    if let Some(symbol) = two_byte_symbol(byte_at(text, 0), byte_at(text, 1)) {
        return Ok((Token::Symbol(symbol), behind(text, 2)));
    }
    match one_byte_symbol(byte_at(text, 0)) {
        Some(symbol) => Ok((Token::Symbol(symbol), behind(text, 1))),
        None => Err(ExprFaultKind::UnexpectedCharacter),
    }
}

/// The token at the front, and the bytes after it.
fn token_at<'a>(alloc: Global, text: &'a [u8]) -> Result<(Token, &'a [u8]), ExprFaultKind>
    ensures { GivesCut (cut text.now) result }
{
    let byte = byte_at(text, 0);
    if begins_name(byte) {
        name_token(alloc, text)
    } else if byte.is_ascii_digit() {
        number_token(text)
    } else if byte == b'\'' {
        single_token(alloc, behind(text, 1))
    } else if byte == b'"' {
        double_token(alloc, behind(text, 1))
    } else {
        symbol_token(text)
    }
}

/// The tokens of a text, and what is wrong if they end too early.
#[derive(Drop)]
pub struct Scan {
    /// The tokens, each with its place.
    pub tokens: Vec<Placed>,
    /// What is wrong with the text after them; None if they are all.
    pub fault: Option<ExprFault>,
}

/// Whether the next token is `<`.
fn is_before_less(text: &[u8]) -> bool
    ensures { result ≡ less_follows text.now }
{
    let next = skip_spaces(text);
    byte_at(next, 0) == b'<' && !(byte_at(next, 1) == b'<' || byte_at(next, 1) == b'=')
}

/// Whether a token is the name `as`.
fn is_named_as(token: &Token) -> bool
    ensures { result ≡ is_as (lexeme_of token.now) }
{
    match token {
        Token::Name(name) => name.as_str() == "as",
        _ => false,
    }
}

/// A token with `as` marked as a symbol where it begins a cast: after a dot, before this text.
fn marked(dot: bool, token: Token, rest: &[u8]) -> Token
    ensures { lexeme_of result ≡ mark dot (record { lexeme = lexeme_of token; rest = rest.now }) }
{
    if dot && is_named_as(&token) && is_before_less(rest) {
        Token::Symbol(Symbol::As)
    } else {
        token
    }
}

fn is_dot_token(token: &Token) -> bool
    ensures { result ≡ is_dot (lexeme_of token.now) }
{
    match token {
        Token::Symbol(Symbol::Dot) => true,
        _ => false,
    }
}

/// What is wrong with the token here in a text of this length; out of memory is no fault of the text.
fn placed_fault(kind: ExprFaultKind, at: usize, length: usize) -> Result<ExprFault, ExprFault>
    ensures { MatchResult result (λ _. kind ≢ ExprFaultKind.NoMemory) (λ f. f.kind ≡ ExprFaultKind.NoMemory) }
{
    match kind {
        ExprFaultKind::NoMemory => Err(ExprFault { kind, at: 0 }),
        ExprFaultKind::UnexpectedEnd => Ok(ExprFault { kind, at: length }),
        _ => Ok(ExprFault { kind, at }),
    }
}

/// Cuts a text into tokens.
pub(crate) fn scan_text(alloc: Global, text: &[u8]) -> Result<Scan, ExprFault>
    ensures { GivesTokens text.now result }
{
    let mut tokens = Vec::new(alloc);
    let mut rest = text;
    let mut dot = false;
    'tokens: loop {
        let start = skip_spaces(rest);
        if start.is_empty() {
            return Ok(Scan {
                tokens,
                fault: None,
            });
        }
        let at = text.len().saturating_sub(start.len());
        match token_at(alloc, start) {
            Ok((token, behind)) => {
                let token = marked(dot, token, behind);
                dot = is_dot_token(&token);
                tokens.push(Placed { token, at })?;
                rest = behind;
            }
            Err(kind) => {
                let fault = placed_fault(kind, at, text.len())?;
                return Ok(Scan {
                    tokens,
                    fault: Some(fault),
                });
            }
        }
    }
}
