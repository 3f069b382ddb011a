//! Cuts a text into lines.

ghost use Rattle.std.specs.Prelude.{◌≡◌, ℕ, ◌<◌, ◌≤◌, [], ◌∷◌, None, Some, length, IfOk, IfErr, if◌then◌else◌, MatchOption, IfSome};
ghost use Rattle.std.specs.Option.{option_or};
ghost use Rattle.ksv_yaml_scan.specs.Text.{IsCut, line_at as number_at, unmarked as unmarked_of, is_clean as is_clean_of, is_clean_byte as is_clean_byte_of, is_wide_control as is_wide_control_of, spaces as spaces_of, cut_lines, number_from, stray_from, line_of, line_bytes, without_return};
ghost use Rattle.ksv_yaml_scan.specs.Views.{line_view, lines_view, RefusesText};

use crate::fault::TextError;
use crate::line::Line;
use bstr::ByteSlice;
use std::alloc::{AllocError, Global};

/// The most bytes that a text may have.
pub const MAX_LENGTH: usize = 1_048_576;

/// A text's lines.
#[derive(Drop)]
pub struct Text<'a> {
    /// The lines, in order.
    pub lines: Vec<Line<'a>>,
    /// The number of the first line with a control character other than a tab, if there is one: no tree has such a line.
    pub stray: Option<usize>,
}

/// The bytes up to a line end or the end of the text, whether there is a line end, and what comes after it.
#[derive(Clone, Copy)]
struct FirstLine<'a> {
    bytes: &'a [u8],
    ended: bool,
    behind: &'a [u8],
}

/// Cuts a text into lines, each up to LF or CR LF; a byte order mark at the start is skipped.
///
/// A text of more than [`MAX_LENGTH`] bytes is `TooLong`, any other that isn't UTF-8 is `NotUtf8`.
pub fn cut(alloc: Global, text: &[u8]) -> Result<Text<'_>, TextError>
    ensures ok { IfOk result (λ t. IsCut text.now (lines_view t.lines.items) t.stray) }
    ensures err { IfErr result (λ e. RefusesText text.now e) }
{
    if text.len() > MAX_LENGTH {
        return Err(TextError::TooLong);
    }
    if let Err(error) = str::from_utf8(text) {
        let line = line_at(text, error.valid_up_to());
        return Err(TextError::NotUtf8 { line });
    }
    match lines(alloc, unmarked(text)) {
        Ok(text) => Ok(text),
        Err(_) => Err(TextError::NoMemory),
    }
}

/// The number of the line of the byte at a place.
fn line_at(text: &[u8], place: usize) -> usize
    requires { place ≤ length text.now }
    ensures { result ≡ number_at text.now place }
{
    text[..place].iter().filter(|byte| **byte == b'\n').count() + 1
}

/// What comes after a byte order mark.
fn unmarked(text: &[u8]) -> &[u8]
    ensures value { result.now ≡ unmarked_of text.now }
    ensures shorter { length result.now ≤ length text.now }
{
    match text.strip_prefix(b"\xef\xbb\xbf") {
        Some(rest) => rest,
        None => text,
    }
}

/// The lines, and the number of the first that has a control character.
fn lines(alloc: Global, text: &[u8]) -> Result<Text<'_>, AllocError>
    requires { length text.now ≤ MAX_LENGTH }
    ensures lines { IfOk result (λ t. lines_view t.lines.items ≡ number_from 1 (cut_lines text.now)) }
    ensures stray { IfOk result (λ t. t.stray ≡ stray_from 1 (cut_lines text.now)) }
{
    let mut lines = Vec::new(alloc);
    let mut stray = None;
    let mut number = 1;
    let mut rest = text;
    while let Some(first) = first_line(rest) {
        let bytes = line_bytes(first.bytes, first.ended);
        stray = first_stray(stray, number, bytes);
        lines.push(make_line(number, bytes, first.ended))?;
        number += 1;
        rest = first.behind;
    }
    Ok(Text { lines, stray })
}

/// The first line.
fn first_line(text: &[u8]) -> Option<FirstLine<'_>>
    ensures cut { MatchOption result (text.now ≡ []) (λ l. cut_lines text.now ≡ record { bytes = l.bytes.now; ended = l.ended } ∷ cut_lines l.behind.now) }
    ensures shorter { IfSome result (λ l. (length l.bytes.now ≤ length text.now) × (length l.behind.now < length text.now)) }
{
    if text.is_empty() {
        return None;
    }
    match text.find_byte(b'\n') {
        Some(at) => Some(FirstLine {
            bytes: &text[..at],
            ended: true,
            behind: &text[at + 1..],
        }),
        None => Some(FirstLine {
            bytes: text,
            ended: false,
            behind: &text[text.len()..],
        }),
    }
}

/// The number of the first line with a control character, this line included.
fn first_stray(stray: Option<usize>, number: usize, bytes: &[u8]) -> Option<usize>
    ensures { result ≡ option_or stray (if is_clean_of bytes.now then None else Some number) }
{
    match stray {
        Some(_) => stray,
        None => if is_clean(bytes) { None } else { Some(number) },
    }
}

/// A line's bytes: before LF a CR is part of the line end.
fn line_bytes(bytes: &[u8], ended: bool) -> &[u8]
    ensures value { result.now ≡ line_bytes (record { bytes = bytes.now; ended = ended }) }
    ensures shorter { length result.now ≤ length bytes.now }
{
    if ended { without_return(bytes) } else { bytes }
}

/// The bytes without a CR at the end.
fn without_return(bytes: &[u8]) -> &[u8]
    ensures value { result.now ≡ without_return bytes.now }
    ensures shorter { length result.now ≤ length bytes.now }
{
    match bytes.split_last() {
        Some((last, front)) => if *last == b'\r' { front } else { bytes },
        None => bytes,
    }
}

/// A line with these bytes.
fn make_line(number: usize, bytes: &[u8], ended: bool) -> Line<'_>
    requires { length bytes.now ≤ MAX_LENGTH }
    ensures { line_view result ≡ line_of number ended bytes.now }
{
    let indent = spaces(bytes);
    let (_, content) = bytes.split_at(indent);
    Line {
        number,
        indent,
        content,
        ended,
    }
}

/// How many spaces are at the front.
fn spaces(bytes: &[u8]) -> usize
    ensures value { result ≡ spaces_of bytes.now }
    ensures within { result ≤ length bytes.now }
{
    for (i, byte) in bytes.iter().enumerate() {
        if *byte != b' ' {
            return i;
        }
    }
    bytes.len()
}

/// Whether these bytes of UTF-8 have no control character except tabs.
fn is_clean(bytes: &[u8]) -> bool
    ensures { result ≡ is_clean_of bytes.now }
{
    let mut before = 0;
    for byte in bytes {
        if is_wide_control(before, *byte) || !is_clean_byte(*byte) {
            return false;
        }
        before = *byte;
    }
    true
}

/// Whether the two bytes are a control character from U+0080 to U+009F.
fn is_wide_control(first: u8, second: u8) -> bool
    ensures { result ≡ is_wide_control_of first second }
{
    first == 194 && second < 160
}

/// Whether the byte is a tab, or no control character below 128.
fn is_clean_byte(byte: u8) -> bool
    ensures { result ≡ is_clean_byte_of byte }
{
    (byte >= 32 && byte != 127) || byte == b'\t'
}
