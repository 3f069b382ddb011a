//! Descriptions whose lines are written with the number of their copies.
//!
//! A line `*N LINE` means N such lines, and the lines between `**N` and `**` are repeated N times. In a copy `#` is
//! its number, from 0.

use bstr::ByteSlice;
use std::alloc::{AllocError, Global};

/// Adds the lines below a heading, each with a line end.
pub(crate) fn add_described(
    alloc: Global,
    text: &mut Vec<u8>,
    described: &str,
) -> Result<(), AllocError> {
    let mut is_group = false;
    for part in described.split("\n**") {
        if let Some((count, lines)) = part.split_once('\n') {
            if is_group {
                add_group(alloc, text, count, lines)?;
            } else {
                add_lines(alloc, text, lines, b"#")?;
            }
        }
        is_group = !is_group;
    }
    Ok(())
}

/// Adds lines this often.
fn add_group(
    alloc: Global,
    text: &mut Vec<u8>,
    count: &str,
    lines: &str,
) -> Result<(), AllocError> {
    for number in 0..count.parse().unwrap_or(0u32) {
        let mark = number.to_string(alloc)?;
        add_lines(alloc, text, lines, mark.as_bytes())?;
    }
    Ok(())
}

/// Adds lines in which `#` is this mark; of a line `*N LINE`, its copies.
fn add_lines(
    alloc: Global,
    text: &mut Vec<u8>,
    lines: &str,
    mark: &[u8],
) -> Result<(), AllocError> {
    for line in lines.split('\n') {
        match line.strip_prefix('*') {
            Some(told) => add_copies(alloc, text, told)?,
            None => add_line(text, line.as_bytes(), mark)?,
        }
    }
    Ok(())
}

/// Adds the copies of a line `N LINE`.
fn add_copies(alloc: Global, text: &mut Vec<u8>, told: &str) -> Result<(), AllocError> {
    let (count, line) = told.split_once(' ').unwrap_or((told, ""));
    for number in 0..count.parse().unwrap_or(0u32) {
        let mark = number.to_string(alloc)?;
        add_line(text, line.as_bytes(), mark.as_bytes())?;
    }
    Ok(())
}

/// Adds a line in which `#` is this mark.
fn add_line(text: &mut Vec<u8>, line: &[u8], mark: &[u8]) -> Result<(), AllocError> {
    line.replace_into(b"#", mark, text)?;
    text.push(b'\n')?;
    Ok(())
}
