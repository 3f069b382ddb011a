//! Parts that are made only where one is needed: pages of a table, and tables of paths.
ghost use Rattle.std.specs.Prelude.{◌≡◌, ℕ, ◌≤◌, ◌<◌, length, IfOk};
ghost use Rattle.ksv_places.specs.Table.{number_at, part_at, IsApart, IsPartOf};

use crate::numbers::Numbers;
use std::alloc::AllocError;

/// A count in 32 bits. A larger one is refused, as memory for it would be.
#[inline(always)]
pub(crate) fn count_of(count: usize) -> Result<u32, AllocError>
    ensures { IfOk result (λ number. number ≡ count) }
{
    if count > u32::MAX as usize {
        return Err(AllocError);
    }
    Ok(count as u32)
}

/// The number of an index's part, which is `fresh` if there was none: its place among the parts, and one more.
pub(crate) fn reach_part<T: Drop>(
    starts: &mut Numbers,
    parts: &mut Vec<T>,
    index: u32,
    fresh: T,
) -> Result<u32, AllocError>
    requires { IsApart (number_at starts.old) (length parts.old.items) }
    ensures apart { IsApart (number_at starts.new) (length parts.new.items) }
    ensures ok { IfOk result (λ number. IsPartOf (number_at starts.new) (length parts.new.items) index number) }
    ensures same { (other : ℕ) → part_at fresh parts.new.items (number_at starts.new other) ≡ part_at fresh parts.old.items (number_at starts.old other) }
{
    let number = starts.at(index);
    if number != 0 {
        return Ok(number);
    }
    let count = count_of(parts.as_slice().len())?;
    let number = count_of(count as usize + 1)?;
    parts.reserve(1)?;
    starts.put(index, number)?;
    parts.push_reserved(fresh);
    Ok(number)
}
