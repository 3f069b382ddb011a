//! How values are written in a reply: each after a space.

use bstr::BStr;
use std::alloc::AllocError;
use std::fmt::{Debug, Display, Write};

/// Adds the answer to a question that isn't one.
pub(crate) fn add_unknown(found: &mut String) -> Result<(), AllocError> {
    found.push_str(" no such question")
}

/// Adds a value as it prints.
pub(crate) fn add<T: Display>(found: &mut String, value: &T) -> Result<(), AllocError> {
    write!(found, " {value}")
}

/// Adds a value in its debugging form.
pub(crate) fn add_debug<T: Debug>(found: &mut String, value: &T) -> Result<(), AllocError> {
    write!(found, " {value:?}")
}

/// Adds a text between quotes, with escapes.
pub(crate) fn add_text(found: &mut String, text: &[u8]) -> Result<(), AllocError> {
    add_debug(found, &BStr::new(text))
}

/// Adds a text as it is; where there is none the word `nothing`.
pub(crate) fn add_word(found: &mut String, text: Option<&[u8]>) -> Result<(), AllocError> {
    match text {
        Some(text) => add(found, &BStr::new(text)),
        None => found.push_str(" nothing"),
    }
}
