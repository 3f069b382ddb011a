//! Plain lists by numbers.

ghost use Rattle.std.specs.Prelude.{◌≡◌, ◌+◌, ◌*◌, ◌^◌, ◌<◌, ◌≤◌, None, true, length, IsTrue};
ghost use Rattle.ksv_expr_value.specs.Places.{end_limit};
ghost use Rattle.ksv_expr_value.specs.Trail.{element_limit};
ghost use Rattle.ksv_folds.specs.Parts.{is_rising, have_own_names, nodes_in, start_in, are_starts};

use crate::part::{Format, Part};
use ksv_nodes::{List, Node, ObjectOrigin};

/// A list, by numbers. Its elements are of one size, or all but the last field of each are, and the field before that one says how many bytes it takes.
#[derive(Drop)]
pub struct PlainList {
    /// The list's head.
    pub(crate) root: Node,
    /// What it gave.
    pub(crate) list: List,
    /// How its elements are read where they are objects.
    pub(crate) origin: ObjectOrigin,
    /// The type of its elements; none if they have no fields.
    pub(crate) type_number: Option<u32>,
    /// The number of its first byte.
    pub(crate) first: u32,
    /// How many bytes an element takes, without a last field whose size is said.
    pub(crate) size: u32,
    /// The fields of an element.
    pub(crate) parts: Vec<Part>,
    /// How many nodes an element has.
    pub(crate) per: u32,
    /// How many elements have numbers.
    pub(crate) most: u32,
    /// Where each of these begins and the last ends, where they are not of one size.
    pub(crate) starts: Option<Vec<u32>>,
    /// How the sizes are written that elements say.
    pub(crate) format: Format,
    /// Whether these were all elements of the list as this was made, or told anew: then nodes behind them have numbers too.
    pub(crate) closed: bool,
    /// Whether those are the heads and ends of elements that aren't there, and not rests.
    pub(crate) missing: bool,
    ghost short: { length root.path.upward < 63 },
    ghost some: { 0 < size },
    ghost width: { per ≡ nodes_in starts (length parts.items) },
    ghost rising: { IsTrue (is_rising 0 size parts.items) },
    ghost named: { IsTrue (have_own_names parts.items) },
    ghost any: { 0 < most },
    ghost few: { most ≤ element_limit },
    ghost started: { IsTrue (are_starts starts first size most (length parts.items)) },
    ghost room: { start_in starts first size most ≤ end_limit },
    ghost numbered: { (per + 1) * most + 2 * element_limit < 2 ^ 32 },
    ghost uncounted: { missing ≡ true → list.count ≡ None },
}
