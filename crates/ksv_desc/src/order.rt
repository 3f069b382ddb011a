//! Which byte of an integer comes first.

/// The order of an integer's bytes.
#[derive(Clone, Copy, Debug)]
pub enum ByteOrder {
    /// The lowest byte first, `le`.
    Little,
    /// The highest byte first, `be`.
    Big,
}
