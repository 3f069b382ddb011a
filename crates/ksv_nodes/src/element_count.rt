//! How many elements a list has.
ghost use Rattle.std.specs.Prelude.{◌≡◌, ◌≤◌, Some, None};
ghost use Rattle.ksv_expr_value.specs.Trail.{element_limit};

use std::marker::Model;

/// How many elements a list has at most.
pub const ELEMENT_LIMIT: u32 = 1_048_576;

/// How many elements a list has, if that is known beforehand, in four bytes. Contracts see that optional number.
#[derive(Clone, Copy)]
pub struct ElementCount {
    /// That number; the greatest number, which no list reaches, means none.
    number: u32,
}

impl Model for ElementCount {
    ghost use Rattle.std.specs.Prelude.{ℕ, Option};
    ghost use Rattle.ksv_expr_value.specs.Optional.{optional_of, number_for, number_back};

    ghost Value = { Option ℕ };

    ghost view = { λ count. optional_of count.number };

    ghost inverse = { λ number. record { number = number_for number } };

    ghost inverse_ok = { λ count h i. record { number = number_back count.number i } };
}

impl ElementCount {
    /// The list tells it only at its end.
    #[inline(always)]
    pub fn unknown() -> ElementCount
        ensures { result ≡ None }
    {
        ElementCount { number: u32::MAX }
    }

    /// It has this many. No list has more than the limit.
    #[inline(always)]
    pub fn known(number: u32) -> ElementCount
        requires { number ≤ element_limit }
        ensures { result ≡ Some number }
    {
        ElementCount { number }
    }

    /// How many there are, if that is known.
    #[inline(always)]
    pub fn get(self) -> Option<u32>
        ensures { result ≡ self }
    {
        if self.number == u32::MAX {
            None
        } else {
            Some(self.number)
        }
    }
}
