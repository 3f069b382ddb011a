//! The fields of an element.

use ksv_desc::ByteOrder;

/// A field of an element, by numbers.
#[derive(Clone, Copy)]
pub(crate) struct Part {
    /// The number of its name.
    pub name: u32,
    /// Its place among the members of the element's type, from 0.
    pub member: u32,
    /// How many bytes of the element there are up to its end.
    pub to: u32,
}

/// How bytes write an integer.
#[derive(Clone, Copy)]
pub(crate) struct Format {
    /// Whether it has a sign.
    pub is_signed: bool,
    /// The order of its bytes.
    pub order: ByteOrder,
}
