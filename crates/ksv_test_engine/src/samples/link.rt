//! A link of a chain.
ghost use Rattle.std.specs.Prelude.{◌<◌, ◌^◌};

use crate::samples::hashed::Exact;

/// A link of the chain, by its number.
#[derive(Clone, Copy, PartialEq, Eq, Hash)]
pub struct Link {
    /// How many links are before it.
    pub number: u32,
    ghost small: { number < 2 ^ 32 },
}

impl Exact for Link {
    ghost use Rattle.ksv_test_engine.specs.Chain.{same_if_equal};

    ghost exact = { same_if_equal };
}
