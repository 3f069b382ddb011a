//! Lines: what begins on one, and what is on several.
//!
//! `start TEXT` prints what begins on a line, and `dash TEXT` whether an item of a sequence does. The others cut a
//! text into lines. `cut` prints the lines, each with its number, indentation, content and whether it is ended;
//! `count` how many these are; `stray` the first that has a control character; `quiet` which are quiet, and how
//! many come after the quiet ones at the front; `node:N` how many lines belong to a block and to a flow node at a
//! column, and how many come after; `plain:N` and `commented:N` how a plain scalar `a` goes on at a column, and how
//! many lines are left; `block:SIGN` the text of a block scalar of this sign; `flow` the parts of flow nodes, each
//! with its line.

use crate::descriptions::question::{Question, question_of};
use crate::descriptions::shown::{add, add_debug, add_text, add_unknown};
use ksv_yaml_scan::block::block_scalar;
use ksv_yaml_scan::cut::{Text, cut};
use ksv_yaml_scan::flow::{Part, flow_parts};
use ksv_yaml_scan::line::Line;
use ksv_yaml_scan::plain::continue_plain;
use ksv_yaml_scan::quiet::{block_lines, flow_lines, is_quiet, skip_quiet};
use ksv_yaml_scan::start::{InlineKind, Start, is_dash, read_start};
use std::alloc::{AllocError, Global};

/// Adds the answers to questions about lines.
pub(crate) fn add_lines(
    alloc: Global,
    questions: &str,
    found: &mut String,
) -> Result<(), AllocError> {
    for line in questions.lines() {
        add_answer(alloc, question_of(line), found)?;
        found.push('\n')?;
    }
    Ok(())
}

/// Adds the answer to a question about a line or several.
fn add_answer(alloc: Global, question: Question<'_>, found: &mut String) -> Result<(), AllocError> {
    found.push_str(question.verb)?;
    let Some(text) = question.bytes(alloc)? else {
        return add_unknown(found);
    };
    match question.verb {
        "start" => add_start(alloc, text.as_slice(), found),
        "dash" => add(found, &is_dash(text.as_slice())),
        _ => match cut(alloc, text.as_slice()) {
            Ok(text) => add_of_text(alloc, question, &text, found),
            Err(error) => add_debug(found, &error),
        },
    }
}

/// Adds the answer to a question about a text that is cut into lines.
fn add_of_text(
    alloc: Global,
    question: Question<'_>,
    text: &Text<'_>,
    found: &mut String,
) -> Result<(), AllocError> {
    let lines = text.lines.as_slice();
    match question.verb {
        "cut" => add_cut(lines, found),
        "count" => add(found, &lines.len()),
        "stray" => add_debug(found, &text.stray),
        "quiet" => add_quiet(lines, found),
        "node" => add_node(lines, question.number(), found),
        "plain" => add_plain(alloc, lines, question.number(), false, found),
        "commented" => add_plain(alloc, lines, question.number(), true, found),
        "block" => add_block(alloc, lines, question.word, found),
        "flow" => add_flow(alloc, lines, found),
        _ => add_unknown(found),
    }
}

/// Adds the lines of a text.
fn add_cut(lines: &[Line<'_>], found: &mut String) -> Result<(), AllocError> {
    for line in lines {
        add(found, &line.number)?;
        add(found, &line.indent)?;
        add_text(found, line.content)?;
        add(found, &line.ended)?;
    }
    Ok(())
}

/// Adds which lines are quiet, and how many come after the quiet ones at the front.
fn add_quiet(lines: &[Line<'_>], found: &mut String) -> Result<(), AllocError> {
    for line in lines {
        add(found, &is_quiet(line))?;
    }
    add(found, &skip_quiet(lines).len())
}

/// Adds how many lines belong to a block node at a column, and how many come after; the same for a flow node.
fn add_node(lines: &[Line<'_>], column: usize, found: &mut String) -> Result<(), AllocError> {
    let (front, behind) = block_lines(lines, column);
    add(found, &front.len())?;
    add(found, &behind.len())?;
    let (front, behind) = flow_lines(lines, column);
    add(found, &front.len())?;
    add(found, &behind.len())
}

/// Adds how the plain scalar `a` goes on, and how many lines are left.
fn add_plain(
    alloc: Global,
    lines: &[Line<'_>],
    column: usize,
    commented: bool,
    found: &mut String,
) -> Result<(), AllocError> {
    let start = Vec::from_slice(alloc, b"a")?;
    match continue_plain(alloc, start, commented, column, lines) {
        Ok((whole, rest)) => {
            add_text(found, whole.as_slice())?;
            add(found, &rest.len())
        }
        Err(error) => add_debug(found, &error),
    }
}

/// Adds the text of a block scalar of this sign.
fn add_block(
    alloc: Global,
    lines: &[Line<'_>],
    sign: &str,
    found: &mut String,
) -> Result<(), AllocError> {
    match block_scalar(alloc, sign.starts_with('>'), !sign.ends_with('-'), lines) {
        Ok(text) => add_text(found, text.as_slice()),
        Err(error) => add_debug(found, &error),
    }
}

/// Adds the parts of flow nodes, each with its line, and what is wrong after them.
fn add_flow(alloc: Global, lines: &[Line<'_>], found: &mut String) -> Result<(), AllocError> {
    let [first, rest @ ..] = lines else {
        return found.push_str(" nothing");
    };
    let parts = flow_parts(alloc, *first, rest)?;
    for token in &parts.tokens {
        add(found, &token.line)?;
        add_part(&token.part, found)?;
    }
    add_debug(found, &parts.fault)
}

/// Adds a part of a flow node.
fn add_part(part: &Part, found: &mut String) -> Result<(), AllocError> {
    match part {
        Part::Scalar { quoted, text } => {
            found.push_str(if *quoted { " quoted" } else { "" })?;
            add_text(found, text.as_slice())
        }
        Part::Key { text, .. } => {
            found.push_str(" key")?;
            add_text(found, text.as_slice())
        }
        _ => add_debug(found, part),
    }
}

/// Adds what begins on a line.
fn add_start(alloc: Global, text: &[u8], found: &mut String) -> Result<(), AllocError> {
    match read_start(alloc, text) {
        Ok(start) => add_what_starts(&start, found),
        Err(error) => add_debug(found, &error),
    }
}

/// Adds what begins on a line that has no fault.
fn add_what_starts(start: &Start<'_>, found: &mut String) -> Result<(), AllocError> {
    match start {
        Start::Key { key, behind } => {
            found.push_str(" key")?;
            add_text(found, key.as_slice())?;
            add_text(found, behind)
        }
        Start::Dash {
            columns,
            tab,
            behind,
        } => {
            found.push_str(" dash")?;
            add(found, columns)?;
            add(found, tab)?;
            add_text(found, behind)
        }
        Start::Inline(kind) => add_kind(kind, found),
        Start::Nothing => found.push_str(" nothing"),
    }
}

/// Adds a scalar or flow node that begins on a line.
fn add_kind(kind: &InlineKind, found: &mut String) -> Result<(), AllocError> {
    match kind {
        InlineKind::Plain { text, commented } => {
            found.push_str(" plain")?;
            add_text(found, text.as_slice())?;
            add(found, commented)
        }
        InlineKind::Quoted { text } => {
            found.push_str(" quoted")?;
            add_text(found, text.as_slice())
        }
        _ => add_debug(found, kind),
    }
}
