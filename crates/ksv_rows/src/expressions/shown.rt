//! How what is found is written.

use std::alloc::AllocError;
use std::fmt::{Debug, Display, Write};

/// Adds a value as it prints.
pub(crate) fn add<T: Display>(value: &T, out: &mut String) -> Result<(), AllocError> {
    write!(out, "{value}")
}

/// Adds a value in its debugging form.
pub(crate) fn add_debug<T: Debug>(value: &T, out: &mut String) -> Result<(), AllocError> {
    write!(out, "{value:?}")
}
