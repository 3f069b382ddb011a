//! Paths as texts.

use crate::expressions::names::{name_of, number_of};
use crate::expressions::shown::add;
use crate::expressions::spelled::spelled;
use ksv_expr::{Path, Step};
use std::alloc::{AllocError, Global};

/// The path of `/o/items/3`; `/` is the root's. Parts that lead nowhere are dropped.
pub(crate) fn path(alloc: Global, text: &str) -> Result<Path, AllocError> {
    let told = spelled(alloc, text)?;
    let mut path = Path::root(alloc);
    for part in str::from_utf8(told.as_slice()).unwrap_or("").split('/') {
        let next = match (number_of(part), part.parse::<u32>()) {
            (Some(name), _) => path.child_name(alloc, name)?,
            (None, Ok(index)) => path.child_index(alloc, index)?,
            (None, Err(_)) => None,
        };
        if let Some(longer) = next {
            path = longer;
        }
    }
    Ok(path)
}

/// Adds a path.
pub(crate) fn show_path(path: &Path, out: &mut String) -> Result<(), AllocError> {
    if path.len() == 0 {
        return out.push_str("/");
    }
    for step in path.steps() {
        out.push_str("/")?;
        match *step {
            Step::Name(name) => out.push_str(name_of(name))?,
            Step::Index(index) => add(&index, out)?,
        }
    }
    Ok(())
}

/// Adds a path, its parent, and the object that holds it.
pub(crate) fn add_around(alloc: Global, text: &str, out: &mut String) -> Result<(), AllocError> {
    let whole = path(alloc, text)?;
    show_path(&whole, out)?;
    out.push_str(" ")?;
    add_parent(alloc, &whole, out)?;
    out.push_str(" ")?;
    add_holder(alloc, &whole, out)
}

/// Adds the parent of a path.
fn add_parent(alloc: Global, path: &Path, out: &mut String) -> Result<(), AllocError> {
    show_path(&path.parent(alloc)?, out)
}

/// Adds the object that holds what has a path.
fn add_holder(alloc: Global, path: &Path, out: &mut String) -> Result<(), AllocError> {
    match path.holder(alloc)? {
        Some(holder) => show_path(&holder, out),
        None => out.push_str("none"),
    }
}
