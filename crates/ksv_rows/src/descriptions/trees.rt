//! Trees of texts.
//!
//! `read TEXT` prints the tree of a text, or its refusal, and then where the text, cut off, gets a wrong answer;
//! `once TEXT` prints only whether there is a tree. In a tree each node and key has its line in front: `"x"` is a
//! text, `[x, y, ]` a sequence and `{k: x, }` a mapping.

use crate::descriptions::question::{Question, question_of};
use crate::descriptions::shown::{add, add_text, add_unknown, add_word};
use ksv_yaml::{Entry, Yaml, YamlFault, YamlKind, read};
use std::alloc::{AllocError, Global};
use std::fmt::Write;

/// Adds the answers to questions about texts.
pub(crate) fn add_trees(
    alloc: Global,
    questions: &str,
    found: &mut String,
) -> Result<(), AllocError> {
    for line in questions.lines() {
        add_answer(alloc, question_of(line), found)?;
    }
    Ok(())
}

/// Adds the answer to a question about a text.
fn add_answer(alloc: Global, question: Question<'_>, found: &mut String) -> Result<(), AllocError> {
    let Some(text) = question.bytes(alloc)? else {
        return add_unknown(found);
    };
    match question.verb {
        "read" => add_tree(alloc, text.as_slice(), found),
        "once" => add_once(alloc, text.as_slice(), found),
        _ => add_unknown(found),
    }
}

/// Adds whether a text has a tree, or the refusal.
fn add_once(alloc: Global, text: &[u8], found: &mut String) -> Result<(), AllocError> {
    match read(alloc, text) {
        Ok(_) => found.push_str("a tree\n"),
        Err(fault) => add_refusal(&fault, found),
    }
}

/// Adds what is read from a text, and where it has a wrong answer once it is cut off.
pub(crate) fn add_tree(alloc: Global, text: &[u8], found: &mut String) -> Result<(), AllocError> {
    match read(alloc, text) {
        Ok(tree) => {
            add_node(&tree, found)?;
            found.push('\n')?;
        }
        Err(fault) => add_refusal(&fault, found)?,
    }
    match wrong_cut(alloc, text) {
        Some(end) => writeln!(found, "but not of the first {end} bytes"),
        None => Ok(()),
    }
}

/// Adds the code of a refusal, and the refusal.
pub(crate) fn add_refusal(fault: &YamlFault, found: &mut String) -> Result<(), AllocError> {
    found.push_str(fault.kind.code())?;
    add(found, fault)?;
    found.push('\n')
}

/// Adds a node.
#[cycle(nodes)]
fn add_node(node: &Yaml, found: &mut String) -> Result<(), AllocError> {
    write!(found, "{}", node.line())?;
    match node {
        Yaml::Text { quoted, text, .. } => {
            found.push_str(if *quoted { " quoted" } else { "" })?;
            add_text(found, text.as_slice())
        }
        Yaml::List { items, .. } => {
            found.push_str(" [")?;
            for item in items {
                add_node(item, found)?;
                found.push_str(", ")?;
            }
            found.push(']')
        }
        Yaml::Map { entries, .. } => {
            found.push_str(" {")?;
            for entry in entries {
                add_entry(entry, found)?;
            }
            found.push('}')
        }
    }
}

/// Adds an entry.
#[cycle(nodes)]
fn add_entry(entry: &Entry, found: &mut String) -> Result<(), AllocError> {
    write!(found, "{}", entry.line())?;
    add_word(found, Some(entry.key()))?;
    found.push_str(": ")?;
    add_node(&entry.value, found)?;
    found.push_str(", ")
}

/// A number of bytes after which the text can be cut off so that the front has neither a tree nor a fault on one of
/// its lines.
fn wrong_cut(alloc: Global, text: &[u8]) -> Option<usize> {
    let mut feeds = 0usize;
    let mut lines = 1usize;
    for (end, byte) in text.iter().enumerate() {
        if !is_answered(alloc, &text[..end], lines) {
            return Some(end);
        }
        lines = feeds.saturating_add(1);
        if *byte == b'\n' {
            feeds = feeds.saturating_add(1);
        }
    }
    None
}

/// Whether a text of this many lines has a tree, or a fault on one of them.
fn is_answered(alloc: Global, text: &[u8], lines: usize) -> bool {
    match read(alloc, text) {
        Ok(_) => true,
        Err(fault) => { 0 < fault.line && fault.line <= lines && fault.kind != YamlKind::NoMemory }
    }
}
