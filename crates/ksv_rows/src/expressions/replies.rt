//! The replies of rows.

use crate::expressions::paths::path;
use crate::expressions::spelled::spelled;
use ksv_expr::{Fault, FaultKind, Got, Integer, Stream, StreamEnd, Text, Value};
use std::alloc::{AllocError, Global};

/// Adds the reply of some words.
pub(crate) fn add_reply<'a>(
    alloc: Global,
    words: &'a str,
    replies: &mut Vec<Got<'a>>,
) -> Result<(), AllocError> {
    replies.push(reply(alloc, words)?)?;
    Ok(())
}

/// The reply of some words.
fn reply<'a>(alloc: Global, words: &'a str) -> Result<Got<'a>, AllocError> {
    let mut words = words.split(' ');
    let word = words.next().unwrap_or("");
    let first = words.next().unwrap_or("");
    let second = words.next().unwrap_or("");
    Ok(match word {
        "opened" => Got::Object {
            type_number: number(first),
            stream: stream(second, words.next().unwrap_or("")),
        },
        "count" => Got::Number(first.parse().unwrap_or(0u64)),
        "truth" => Got::Truth(first == "true"),
        "slices" => Got::Slices(lent(first), lent(second)),
        "contents" => Got::Fault(Fault {
            kind: FaultKind::Contents,
            path: path(alloc, second)?,
        }),
        _ => Got::Value(value(alloc, word, first, second)?),
    })
}

/// The value of a reply's words.
fn value(alloc: Global, word: &str, first: &str, second: &str) -> Result<Value, AllocError> {
    Ok(match word {
        "true" => Value::Bool(true),
        "false" => Value::Bool(false),
        "bytes" => Value::Bytes {
            from: number(first),
            to: number(second),
        },
        "member" => Value::Member {
            enum_number: number(first),
            number: integer(second),
        },
        "object" => Value::Object(path(alloc, first)?),
        "list" => Value::List(path(alloc, first)?),
        _ => match word.split_once('\'') {
            Some((_, rest)) => Value::Text(text(alloc, rest.trim_end_matches('\''))?),
            None => Value::Int(integer(word)),
        },
    })
}

/// A stream, which goes on to the file's end if `open` is in the place of its own end.
pub(crate) fn stream(from: &str, to: &str) -> Stream {
    Stream {
        from: number(from),
        to: stream_end(to),
    }
}

/// The end of a stream; no file goes on past the limit.
fn stream_end(word: &str) -> StreamEnd {
    match word.parse::<u32>() {
        Ok(byte) => StreamEnd::at(byte.min(16_777_216)),
        Err(_) => StreamEnd::open(),
    }
}

/// A number, or 0.
pub(crate) fn number(word: &str) -> u32 {
    word.parse().unwrap_or(0u32)
}

fn integer(word: &str) -> Integer {
    Integer::new(word.parse().unwrap_or(0i128)).unwrap_or(Integer::from(0u64))
}

fn text(alloc: Global, string: &str) -> Result<Text, AllocError> {
    match String::from_utf8(spelled(alloc, string)?) {
        Ok(string) => Text::new(alloc, string),
        Err(_) => Text::new(alloc, String::new(alloc)),
    }
}

/// Lent bytes: `-` for none, digits for those that are no text, and otherwise the text's own.
fn lent(word: &str) -> &[u8] {
    match word {
        "-" => b"",
        "80" => b"\x80",
        "c080" => b"\xc0\x80",
        "c3" => b"\xc3",
        "a9!" => b"\xa9!",
        "ff" => b"\xff",
        _ => word.as_bytes(),
    }
}
