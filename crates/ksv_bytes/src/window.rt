//! A range of a file's bytes.

/// The bytes from one place up to another, without the byte at that one. Places are counted in bytes from the file's
/// start.
#[derive(Clone, Copy)]
pub struct Window {
    /// The first byte's place.
    pub from: usize,
    /// The place after the last byte.
    pub to: usize,
}
