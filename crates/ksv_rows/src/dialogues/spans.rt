//! What is told of numbers that follow each other.

use std::alloc::AllocError;
use std::fmt::Write;

/// Adds a line for all numbers, from 0 on, that follow each other and are told the same.
pub(crate) fn add_spans(told: &[String], found: &mut String) -> Result<(), AllocError> {
    let mut first = 0usize;
    let mut before: Option<&String> = None;
    for (number, line) in told.iter().enumerate() {
        if let Some(before) = before {
            if before.as_str() != line.as_str() {
                add_span(first, number.saturating_sub(1), before.as_str(), found)?;
                first = number;
            }
        }
        before = Some(line);
    }
    match before {
        Some(line) => add_span(first, told.len().saturating_sub(1), line.as_str(), found),
        None => Ok(()),
    }
}

/// Adds what is told of some numbers.
fn add_span(first: usize, last: usize, told: &str, found: &mut String) -> Result<(), AllocError> {
    if first == last {
        write!(found, "{first}: {told}")
    } else {
        write!(found, "{first} to {last}: {told}")
    }
}
