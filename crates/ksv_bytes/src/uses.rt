//! What an answer depends on in the bytes, and which of it an edit touches.
ghost use Rattle.std.specs.Prelude.{◌≡◌, ◌↔◌, IsTrue, false};
ghost use Rattle.ksv_bytes.specs.Uses.{Touches, Keeps, is_use_touched};

/// What one reading of the bytes depends on. Places count from the first byte, and are below 2^32, since a file has
/// at most 16,777,216 bytes.
#[derive(Clone, Copy, Debug, Default, PartialEq, Eq)]
pub enum Use {
    /// The bytes from the first place up to the second, and that the file reaches that far.
    Bytes(u32, u32),
    /// That the file reaches this place.
    Reach(u32),
    /// How many bytes the file has.
    #[default]
    Size,
}

/// An edit that was made, without the bytes that it wrote.
#[derive(Clone, Copy)]
pub enum Change {
    /// `n` bytes from the place `at` on were replaced by `n` others.
    Overwrite { at: usize, n: usize },
    /// `n` bytes were put before the byte at the place `at`.
    Insert { at: usize, n: usize },
    /// `n` bytes from the place `at` on were deleted.
    Delete { at: usize, n: usize },
    /// Bytes were added after the last one.
    Append,
}

/// Whether an edit may have changed what a use depends on. An overwrite touches the ranges that it meets. An insert
/// or a delete touches what ends after its place, and the size. An append touches the size alone.
#[tactic(auto, using(crate::proofs::Untouched::use_touched, crate::proofs::Untouched::failed_keeps))]
pub fn touches(change: Change, used: Use) -> bool
    ensures test { result ≡ is_use_touched change used }
    ensures table { IsTrue result ↔ Touches change used }

    // If an edit doesn't touch a use, what the use depends on is the same before and after it.
    ensures untouched { result ≡ false → Keeps change used }
{
    is_touched(change, used)
}

/// The table of what a change touches.
fn is_touched(change: Change, used: Use) -> bool
    ensures { result ≡ is_use_touched change used }
{
    match (change, used) {
        (Change::Overwrite { at, n }, Use::Bytes(from, to)) => {
            at < to as usize && (from as usize) < at.saturating_add(n)
        }
        (Change::Overwrite { .. }, _) => false,
        (
            Change::Insert { at, .. } | Change::Delete { at, .. },
            Use::Bytes(_, to) | Use::Reach(to),
        ) => { at < to as usize }
        (Change::Append, Use::Bytes(..) | Use::Reach(_)) => false,
        (_, Use::Size) => true,
    }
}
