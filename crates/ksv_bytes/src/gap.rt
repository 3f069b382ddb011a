//! Bytes with a gap among them. The gap begins at the place `front` and is `gap` bytes long; what is in it means nothing.
ghost use Rattle.std.specs.Prelude.{◌≡◌, ◌+◌, ◌-◌, ◌≤◌, ◌++◌, length, slice_range, IfOk, IfErr, IsOk, OnOk, OnErr};
ghost use Rattle.ksv_bytes.specs.Code.{around, inserted, overwritten};
ghost use Rattle.ksv_bytes.specs.Edits.{append, file_limit, IsRefusedAs};

use crate::buffer::FILE_LIMIT;
use crate::edit::EditRefusal;
use crate::window::Window;
use std::alloc::AllocError;

/// The fewest bytes by which a gap grows.
const LEAST_GROWTH: usize = 256;

/// Lends the bytes of a window on what is around the gap: those before the gap, and those after it.
pub(crate) fn parts_around(bytes: &[u8], front: usize, gap: usize, window: Window) -> (&[u8], &[u8])
    requires gap { front + gap ≤ length bytes.now }
    requires ordered { window.from ≤ window.to }
    requires inside { window.to + gap ≤ length bytes.now }
    ensures { result.0.now ++ result.1.now ≡ slice_range (around bytes.now front gap) window.from window.to }
{
    let cut = front.clamp(window.from, window.to);
    (&bytes[window.from..cut], &bytes[cut + gap..window.to + gap])
}

/// Writes bytes over those from a place on.
fn write(bytes: &mut [u8], at: usize, new: &[u8])
    requires { at + length new.now ≤ length bytes.old }
    ensures { bytes.new ≡ overwritten bytes.old at new.now }
{
    bytes[at..at + new.len()].copy_from_slice(new);
}

/// Writes bytes over those from a place on, around the gap, which stays where it is.
pub(crate) fn overwrite_around(bytes: &mut [u8], front: usize, gap: usize, at: usize, new: &[u8])
    requires gap { front + gap ≤ length bytes.old }
    requires inside { at + length new.now + gap ≤ length bytes.old }
    ensures { around bytes.new front gap ≡ overwritten (around bytes.old front gap) at new.now }
{
    let cut = front.clamp(at, at + new.len());
    let (before, behind) = new.split_at(cut - at);
    write(bytes, at, before);
    write(bytes, cut + gap, behind);
}

/// Moves the gap, so that it begins at a place. Only the bytes between the two places are moved.
pub(crate) fn move_gap(bytes: &mut [u8], front: usize, gap: usize, to: usize)
    requires gap { front + gap ≤ length bytes.old }
    requires inside { to + gap ≤ length bytes.old }
    ensures { around bytes.new to gap ≡ around bytes.old front gap }
{
    if to < front {
        bytes.copy_within(to..front, to + gap);
    } else if front < to {
        bytes.copy_within(front + gap..to + gap, front);
    }
}

/// The length of the gap once these bytes have room in it, or why they may not be put.
pub(crate) fn room_for(
    bytes: &mut Vec<u8>,
    front: usize,
    gap: usize,
    new: &[u8],
) -> Result<usize, EditRefusal>
    requires gap { front + gap ≤ length bytes.old.items }
    requires limit { length bytes.old.items ≤ file_limit }
    ensures wide { IfOk result (λ wide. length new.now ≤ wide) }
    ensures length { IfOk result (λ wide. length bytes.new.items + gap ≡ length bytes.old.items + wide) }
    ensures limit { length bytes.new.items ≤ file_limit }
    ensures same { IfOk result (λ wide. around bytes.new.items front wide ≡ around bytes.old.items front gap) }
    ensures allowed { OnOk result (IsOk (append (around bytes.old.items front gap) new.now)) }
    ensures refused { IfErr result (λ refusal. IsRefusedAs refusal (append (around bytes.old.items front gap) new.now)) }
    ensures unchanged { OnErr result (bytes.new.items ≡ bytes.old.items) }
{
    if new.is_empty() {
        return Err(EditRefusal::NothingToDo);
    }
    if new.len() > FILE_LIMIT - (bytes.len() - gap) {
        return Err(EditRefusal::TooLarge);
    }
    match widen_gap(bytes, front, gap, new.len()) {
        Ok(wide) => Ok(wide),
        Err(_) => Err(EditRefusal::NoMemory),
    }
}

/// The length of the gap, once it has at least `count` bytes. It grows by half of all bytes, so that many small edits
/// cost no more than a few large ones, and never past the limit of a file. It takes memory only if it grows, before any
/// byte is moved.
fn widen_gap(
    bytes: &mut Vec<u8>,
    front: usize,
    gap: usize,
    count: usize,
) -> Result<usize, AllocError>
    requires gap { front + gap ≤ length bytes.old.items }
    requires limit { length bytes.old.items ≤ file_limit }
    requires fits { length bytes.old.items + count ≤ file_limit + gap }
    ensures wide { IfOk result (λ wide. count ≤ wide) }
    ensures length { IfOk result (λ wide. length bytes.new.items + gap ≡ length bytes.old.items + wide) }
    ensures limit { length bytes.new.items ≤ file_limit }
    ensures same { IfOk result (λ wide. around bytes.new.items front wide ≡ around bytes.old.items front gap) }
    ensures unchanged { OnErr result (bytes.new.items ≡ bytes.old.items) }
{
    if count <= gap {
        return Ok(gap);
    }
    let end = bytes.len();
    let growth = (count - gap)
        .max(LEAST_GROWTH)
        .max(end / 2)
        .min(FILE_LIMIT - end);
    bytes.reserve_exact(growth)?;
    bytes.resize(end + growth, 0)?;
    bytes.copy_within(front + gap..end, front + gap + growth);
    Ok(gap + growth)
}

/// Writes bytes at the gap's end, which then belong to what is after it. The gap begins where it did.
pub(crate) fn fill_from_end(bytes: &mut [u8], front: usize, gap: usize, new: &[u8])
    requires gap { front + gap ≤ length bytes.old }
    requires wide { length new.now ≤ gap }
    ensures { around bytes.new front (gap - length new.now) ≡ inserted (around bytes.old front gap) front new.now }
{
    write(bytes, front + gap - new.len(), new);
}

/// Writes bytes at the gap's start, which then belong to what is before it.
pub(crate) fn fill_from_start(bytes: &mut [u8], front: usize, gap: usize, new: &[u8])
    requires gap { front + gap ≤ length bytes.old }
    requires wide { length new.now ≤ gap }
    ensures { around bytes.new (front + length new.now) (gap - length new.now) ≡ inserted (around bytes.old front gap) front new.now }
{
    write(bytes, front, new);
}
