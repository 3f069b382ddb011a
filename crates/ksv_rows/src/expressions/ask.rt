//! Expressions, the questions that they ask, and their ends.

use crate::expressions::names::number as give_numbers;
use crate::expressions::paths::path;
use crate::expressions::replies::{add_reply, number, stream};
use crate::expressions::values::show;
use ksv_expr::{Ctx, Expr, Got, Path, Place, Stream, eval, parse};
use std::alloc::{AllocError, Global};

/// The first word of some, and the others.
fn first_word(words: &str) -> (&str, &str) {
    words.split_once(' ').unwrap_or((words, ""))
}

/// Adds the end of a row's expression at the place that a heading gives.
pub(crate) fn add_end(
    alloc: Global,
    told: &str,
    row: &str,
    out: &mut String,
) -> Result<(), AllocError> {
    let (home, words) = first_word(told);
    let home = path(alloc, home)?;
    let (from, words) = first_word(words);
    let (to, words) = first_word(words);
    add_end_at(alloc, &home, stream(from, to), words, row, out)
}

/// The same with the home's path and its stream.
fn add_end_at(
    alloc: Global,
    home: &Path,
    stream: Stream,
    words: &str,
    row: &str,
    out: &mut String,
) -> Result<(), AllocError> {
    let (place, words) = first_word(words);
    let (here, words) = first_word(words);
    let here = path(alloc, here)?;
    let place = Place::at_byte(number(place).min(16_777_216));
    let ctx = Ctx::new(home, stream, place, &here);
    let (index, element) = first_word(words);
    match index.parse::<u32>() {
        Ok(index) => add_end_behind(alloc, ctx.within(index), element, row, out),
        Err(_) => add_end_behind(alloc, ctx, element, row, out),
    }
}

/// The same in a context that has all but the element just read.
fn add_end_behind(
    alloc: Global,
    ctx: Ctx<'_>,
    element: &str,
    row: &str,
    out: &mut String,
) -> Result<(), AllocError> {
    if element == "-" {
        return add_end_in(alloc, &ctx, row, out);
    }
    let behind = path(alloc, element)?;
    add_end_in(alloc, &ctx.behind(&behind), row, out)
}

/// Adds the end of a row's expression in its context.
fn add_end_in(alloc: Global, ctx: &Ctx<'_>, row: &str, out: &mut String) -> Result<(), AllocError> {
    let (text, _) = row.split_once("; ").unwrap_or((row, ""));
    match parse(alloc, text.as_bytes()) {
        Ok(expr) => {
            let mut expr = expr;
            give_numbers(&mut expr);
            add_dialogue(alloc, &expr, ctx, row, out)
        }
        Err(_) => out.push_str("no expression"),
    }
}

/// Adds the end of an expression. In front of it each question that isn't the row's, and after it what a further
/// reply changes.
fn add_dialogue(
    alloc: Global,
    expr: &Expr,
    ctx: &Ctx<'_>,
    row: &str,
    out: &mut String,
) -> Result<(), AllocError> {
    let mut replies = Vec::new(alloc);
    for part in row.split("; ").skip(1) {
        let (question, words) = part.split_once(" -> ").unwrap_or((part, ""));
        add_other_question(alloc, expr, ctx, replies.as_slice(), question, out)?;
        add_reply(alloc, words, &mut replies)?;
    }
    add_last(alloc, expr, ctx, &mut replies, out)
}

/// Adds the outcome of an expression with these replies, unless it is this question.
fn add_other_question(
    alloc: Global,
    expr: &Expr,
    ctx: &Ctx<'_>,
    replies: &[Got<'_>],
    question: &str,
    out: &mut String,
) -> Result<(), AllocError> {
    let mut outcome = String::new(alloc);
    add_outcome(alloc, expr, ctx, replies, &mut outcome)?;
    if let Some(asked) = outcome.as_str().strip_prefix("? ") {
        if asked == question {
            return Ok(());
        }
    }
    out.push_str(outcome.as_str())?;
    out.push_str("; ")
}

/// Adds the outcome of an expression with these replies, and what a further reply changes.
fn add_last<'a>(
    alloc: Global,
    expr: &Expr,
    ctx: &Ctx<'_>,
    replies: &mut Vec<Got<'a>>,
    out: &mut String,
) -> Result<(), AllocError> {
    let mut end = String::new(alloc);
    add_outcome(alloc, expr, ctx, replies.as_slice(), &mut end)?;
    out.push_str(end.as_str())?;
    replies.push(Got::Number(77))?;
    add_change(alloc, expr, ctx, replies.as_slice(), end.as_str(), out)
}

/// Adds the outcome of an expression with these replies, unless it is this end.
fn add_change(
    alloc: Global,
    expr: &Expr,
    ctx: &Ctx<'_>,
    replies: &[Got<'_>],
    end: &str,
    out: &mut String,
) -> Result<(), AllocError> {
    let mut again = String::new(alloc);
    add_outcome(alloc, expr, ctx, replies, &mut again)?;
    if again.as_str() == end {
        return Ok(());
    }
    out.push_str("; ")?;
    out.push_str(again.as_str())
}

/// Adds the outcome of an expression with these replies.
fn add_outcome(
    alloc: Global,
    expr: &Expr,
    ctx: &Ctx<'_>,
    replies: &[Got<'_>],
    out: &mut String,
) -> Result<(), AllocError> {
    show(alloc, &eval(alloc, expr, ctx, replies)?, out)
}
