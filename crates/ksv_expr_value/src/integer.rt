//! Integers of expressions, from -2^63 to 2^64 - 1.
ghost use Rattle.std.specs.Prelude.{◌≡◌, ℤ, pos, IsTrue, Some, None};
ghost use Rattle.ksv_expr_value.specs.Range.{in_range, ranged};

use std::marker::Model;

/// An integer from -2^63 to 2^64 - 1, in nine bytes. Contracts see the integer.
#[derive(Clone, Copy, Debug)]
pub struct Integer {
    /// How far it is from 0, or from -1 where it is below 0.
    distance: u64,
    /// Whether it is below 0.
    is_below: bool,
}

impl Model for Integer {
    ghost use Rattle.std.specs.Prelude.{ℤ, IsTrue};
    ghost use Rattle.ksv_expr_value.specs.Range.{in_range, signed, distance_of, is_below_zero, signed_back};

    ghost Value = { ℤ };

    ghost view = { λ n. signed n.distance n.is_below };

    ghost invariant = { λ n. IsTrue (in_range (signed n.distance n.is_below)) };

    ghost inverse = { λ z. record { distance = distance_of z; is_below = is_below_zero z } };

    ghost inverse_ok = { λ n h i. record { distance = (signed_back n.distance n.is_below i).0; is_below = (signed_back n.distance n.is_below i).1 } };
}

impl From<u64> for Integer {
    ghost use Rattle.std.specs.Prelude.{◌≡◌, pos};

    ghost from_gives = { λ n i. i ≡ pos n };

    fn from(number: u64) -> Integer {
        Integer {
            distance: number,
            is_below: false,
        }
    }
}

impl Integer {
    /// The least integer, -2^63.
    pub const MIN: i128 = -0x8000_0000_0000_0000;

    /// The greatest integer, 2^64 - 1.
    pub const MAX: i128 = 0xffff_ffff_ffff_ffff;

    /// The integer of this value; none outside the range.
    pub fn new(value: i128) -> Option<Integer>
        ensures { result ≡ ranged value }
    {
        if value < Integer::MIN || value > Integer::MAX {
            None
        } else {
            Some(integer_of(value))
        }
    }

    /// Its value.
    pub fn get(self) -> i128
        ensures value { result ≡ self }
        ensures in_range { IsTrue (in_range result) }
    {
        let distance = i128::from(self.distance);
        if self.is_below {
            -1 - distance
        } else {
            distance
        }
    }
}

/// The integer of a value in the range.
fn integer_of(value: i128) -> Integer
    requires { IsTrue (in_range value) }
    ensures { result ≡ value }
{
    if value < 0 {
        Integer {
            distance: (-1 - value) as u64,
            is_below: true,
        }
    } else {
        Integer {
            distance: value as u64,
            is_below: false,
        }
    }
}
