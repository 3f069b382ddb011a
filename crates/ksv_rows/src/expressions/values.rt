//! Values, faults and questions as texts.

use crate::expressions::paths::show_path;
use crate::expressions::shown::add;
use ksv_expr::{EvalStep, Fault, Path, Stream, Value, Want};
use std::alloc::{AllocError, Global};
use std::fmt::{Display, Write};

/// Adds the result of an evaluation: a question after `? `, or a copy of the end.
pub(crate) fn show(alloc: Global, outcome: &EvalStep, out: &mut String) -> Result<(), AllocError> {
    match outcome {
        EvalStep::Need(want) => show_want(want, out),
        EvalStep::Done(Ok(value)) => show_value(&value.copy(alloc)?, out),
        EvalStep::Done(Err(fault)) => show_fault(&fault.copy(alloc)?, out),
    }
}

/// Adds a word and a path.
fn show_at(word: &str, path: &Path, out: &mut String) -> Result<(), AllocError> {
    out.push_str(word)?;
    show_path(path, out)
}

/// Adds a word and two values.
fn show_two<A: Display, B: Display>(
    word: &str,
    first: &A,
    second: &B,
    out: &mut String,
) -> Result<(), AllocError> {
    write!(out, "{word} {first} {second}")
}

/// Adds a question.
fn show_want(want: &Want, out: &mut String) -> Result<(), AllocError> {
    match want {
        Want::Value(path) => show_at("? value ", path, out),
        Want::Head(path) => show_at("? head ", path, out),
        Want::Rest(path) => show_at("? rest ", path, out),
        Want::Size => out.push_str("? size"),
        Want::Done => out.push_str("? done"),
        Want::Bytes { from, to } => show_two("? bytes", from, to, out),
    }
}

/// Adds a value.
fn show_value(value: &Value, out: &mut String) -> Result<(), AllocError> {
    match value {
        Value::Int(number) => add(&number.get(), out),
        Value::Bool(truth) => add(truth, out),
        Value::Text(text) => show_text(text.as_str(), out),
        Value::Bytes { from, to } => show_two("bytes", from, to, out),
        Value::Member {
            enum_number,
            number,
        } => show_two("member", enum_number, &number.get(), out),
        Value::Object(path) => show_at("object ", path, out),
        Value::List(path) => show_at("list ", path, out),
        Value::Stream(stream) => show_stream(*stream, out),
    }
}

/// Adds a text in quotes.
pub(crate) fn show_text(text: &str, out: &mut String) -> Result<(), AllocError> {
    out.push_str("'")?;
    out.push_str(text)?;
    out.push_str("'")
}

/// Adds a stream, with `open` in the place of an end that it hasn't.
fn show_stream(stream: Stream, out: &mut String) -> Result<(), AllocError> {
    match stream.to.get() {
        Some(to) => show_two("stream", &stream.from, &to, out),
        None => show_two("stream", &stream.from, &"open", out),
    }
}

/// Adds a fault and its path.
fn show_fault(fault: &Fault, out: &mut String) -> Result<(), AllocError> {
    add(&fault.kind, out)?;
    show_at(" at ", &fault.path, out)
}
