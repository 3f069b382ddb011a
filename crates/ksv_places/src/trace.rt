//! Where searches end.

/// Where the last search for a node ended: at a path, which is that of the node's first steps.
///
/// Where there are no paths yet both numbers are 0.
#[derive(Clone, Copy)]
pub(crate) struct Trace {
    /// The number of the path.
    pub(crate) path: u32,
    /// How many steps lead there.
    pub(crate) steps: u32,
}
