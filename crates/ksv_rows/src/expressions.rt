//! Rows of expressions and paths, one on each line. The kinds are:
//!
//! - `tree`: the text of an expression; wanted is its tree, or its refusal with the place;
//! - `type`: the text of a type with its arguments, in the same way;
//! - `path`: a path; wanted are the path, its parent, and the object that holds it;
//! - `ask HOME FROM TO PLACE HERE INDEX ELEMENT`: an expression of the object at the path HOME, whose stream is
//!   from FROM to TO, at the current PLACE, with faults at the path HERE, within the element of this INDEX and
//!   after the ELEMENT of this path (`-`: none). After the expression come its questions with the reply to each,
//!   `; QUESTION -> REPLY`; wanted is the end.
//!
//! `{HEX}` means these bytes, and `{N*TEXT}` N times this text: in what is wanted, in inputs of the first two
//! kinds, and in the paths and texts of the others.

mod ask;
mod names;
mod paths;
mod replies;
mod shown;
mod spelled;
mod trees;
mod values;

use self::ask::add_end;
use self::paths::add_around;
pub(crate) use self::spelled::spelled;
use self::trees::{add_tree, add_type};
use crate::row::known;
use std::alloc::{AllocError, Global};

/// Adds the tree of an expression or of a type.
fn add_syntax(
    alloc: Global,
    is_type: bool,
    input: &str,
    found: &mut String,
) -> Result<(), AllocError> {
    let text = spelled(alloc, input)?;
    if is_type {
        add_type(alloc, text.as_slice(), found)
    } else {
        add_tree(alloc, text.as_slice(), found)
    }
}

/// Adds the result of an input below a heading; whether that is a kind.
pub(crate) fn add_result(
    alloc: Global,
    heading: &str,
    input: &str,
    found: &mut String,
) -> Result<bool, AllocError> {
    let (kind, told) = heading.split_once(' ').unwrap_or((heading, ""));
    match kind {
        "tree" => known(add_syntax(alloc, false, input, found)),
        "type" => known(add_syntax(alloc, true, input, found)),
        "path" => known(add_around(alloc, input, found)),
        "ask" => known(add_end(alloc, told, input, found)),
        _ => Ok(false),
    }
}
