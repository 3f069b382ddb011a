//! Which case a switch chose.
ghost use Rattle.std.specs.Prelude.{◌≡◌, Some, None, IfOk, OnErr};

use std::alloc::AllocError;
use std::marker::Model;

/// Which case a switch chose, by its place among the cases, from 0, in four bytes; or none. Contracts see that optional number.
#[derive(Clone, Copy)]
pub struct CaseNumber {
    /// The place of the case; the greatest number means none.
    number: u32,
}

impl Model for CaseNumber {
    ghost use Rattle.std.specs.Prelude.{ℕ, Option};
    ghost use Rattle.ksv_expr_value.specs.Optional.{optional_of, number_for, number_back};

    ghost Value = { Option ℕ };

    ghost view = { λ case. optional_of case.number };

    ghost inverse = { λ place. record { number = number_for place } };

    ghost inverse_ok = { λ case h i. record { number = number_back case.number i } };
}

impl CaseNumber {
    /// No case was chosen.
    #[inline(always)]
    pub fn none() -> CaseNumber
        ensures { result ≡ None }
    {
        CaseNumber { number: u32::MAX }
    }

    /// The case at this place, if one was chosen. No contract bounds lists of cases, so the greatest number of 32 bits, which is
    /// for none and as a place takes a list of hundreds of gigabytes, is refused as memory is.
    #[inline(always)]
    pub fn new(place: Option<u32>) -> Result<CaseNumber, AllocError>
        ensures same { IfOk result (λ case. case ≡ place) }
        ensures far { OnErr result (place ≡ Some 4294967295) }
    {
        match place {
            None => Ok(CaseNumber::none()),
            Some(u32::MAX) => Err(AllocError),
            Some(number) => Ok(CaseNumber { number }),
        }
    }

    /// The place of the case, if one was chosen.
    #[inline(always)]
    pub fn get(self) -> Option<u32>
        ensures { result ≡ self }
    {
        if self.number == u32::MAX {
            None
        } else {
            Some(self.number)
        }
    }
}
