//! A line of a text.

ghost use Rattle.std.specs.Prelude.{◌+◌, ◌^◌, ◌<◌, length};

/// A line of a text.
#[derive(Clone, Copy)]
pub struct Line<'a> {
    /// Its number, counted from 1.
    pub number: usize,
    /// Its indentation: how many spaces it begins with.
    pub indent: usize,
    /// The bytes after these spaces, without the line end. A tab among the white space at the front is the first of
    /// them.
    pub content: &'a [u8],
    /// Whether it has a line end; the last line of a text may lack it.
    pub ended: bool,
    pub ghost in_range: { indent + length content.now < 2 ^ 32 },
}
