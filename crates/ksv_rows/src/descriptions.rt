//! Rows that need no session. Their kinds are:
//!
//! - `load`: loads the description, and asks what it has (`loaded`);
//! - `tree`: the tree of the lines of the description (`trees`), `trees`: those of the texts in the questions;
//! - `lines`: lines of YAML (`lines`);
//! - `scopes`: what the description declares (`scopes`);
//! - `names`: names in expressions at places in it (`names`).

mod lines;
mod loaded;
mod names;
mod question;
mod scopes;
mod shown;
mod trees;

use self::lines::add_lines;
use self::loaded::add_loaded;
use self::names::add_names;
use self::scopes::add_scopes;
use self::trees::{add_tree, add_trees};
use crate::row::{Row, known};
use std::alloc::{AllocError, Global};

/// Adds the answer to loading a row's description, without the last line end, and what it has.
fn add_whole(alloc: Global, row: Row<'_>, found: &mut String) -> Result<(), AllocError> {
    let text = row.text.strip_suffix(b"\n").unwrap_or(row.text);
    add_loaded(alloc, text, row.questions, found)
}

/// Adds the answers to a row that needs no session; whether it is one.
pub(crate) fn add_unserved(
    alloc: Global,
    row: Row<'_>,
    found: &mut String,
) -> Result<bool, AllocError> {
    match row.kind {
        "load" => known(add_whole(alloc, row, found)),
        "tree" => known(add_tree(alloc, row.text, found)),
        "trees" => known(add_trees(alloc, row.questions, found)),
        "lines" => known(add_lines(alloc, row.questions, found)),
        "scopes" => known(add_scopes(alloc, row.text, row.questions, found)),
        "names" => known(add_names(alloc, row.text, row.questions, found)),
        _ => Ok(false),
    }
}
