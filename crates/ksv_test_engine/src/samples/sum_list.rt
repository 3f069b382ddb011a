//! Sums of a file's bytes, in order.

ghost use Rattle.std.specs.Prelude.{◌≡◌, ◌^◌, ◌<◌, length};

use crate::samples::link::Link;
use crate::samples::row::Reply;

/// What the links of the first bytes of a file answer, from that of the first byte on, and link 0, which is their root.
#[derive(Drop)]
pub struct SumList {
    /// Link 0.
    pub(crate) root: Link,
    /// The answers: sums, or that a byte is missing.
    pub(crate) sums: Vec<Reply>,
    ghost first: { root.number ≡ 0 },
    ghost few: { length sums.items < 2 ^ 32 },
}
