//! Why an edit is refused.

use thiserror::Error;

/// Why an edit was refused. The bytes are then unchanged.
#[derive(Clone, Copy, Debug, PartialEq, Eq, Error)]
pub enum EditRefusal {
    /// B1: the range goes past the end.
    #[error("outside")]
    Outside,
    /// B2: there are no bytes to write.
    #[error("nothing to do")]
    NothingToDo,
    /// B3: the file would have more than 16,777,216 bytes.
    #[error("file too large")]
    TooLarge,
    /// B4: memory for the growth was refused.
    #[error("no memory")]
    NoMemory,
}
