//! Places in a described file.
ghost use Rattle.std.specs.Prelude.{◌≡◌, ◌+◌, ◌*◌, ◌≤◌};
ghost use Rattle.ksv_expr_value.specs.Places.{at_byte, byte_of, byte_in, bit_in, aligned, bits_between, bits_left, further, is_same, end_limit, last_place};

use std::marker::Model;

/// A place in a file: before one of its bits, or at its end. It is a type and no number, here as in contracts, so that none is taken
/// for a number of bytes or bits.
#[derive(Clone, Copy)]
pub struct Place {
    /// How many bits of the file are before it.
    bits: u32,
}

impl Model for Place {
    ghost use Rattle.std.specs.Prelude.{◌≤◌};
    ghost use Rattle.ksv_expr_value.specs.Places as places;

    ghost Value = { places.Place };

    ghost view = { λ p. record { bits = p.bits } };

    ghost inverse = { λ p. record { bits = p.bits } };

    ghost invariant = { λ p. p.bits ≤ places.last_place };
}

impl Place {
    /// The place where the byte of this number begins. No file has more bytes than the limit, so the number of a file's byte, and of
    /// its end, can always be given.
    #[tactic(auto, unfolding(crate::specs::Places::at_byte))]
    #[inline(always)]
    pub fn at_byte(byte: u32) -> Place
        requires { byte ≤ end_limit }
        ensures { result ≡ at_byte byte }
    {
        Place { bits: 8 * byte }
    }

    /// The number of the first byte that doesn't begin before the place.
    #[tactic(auto, unfolding(crate::specs::Places::byte_of))]
    #[inline(always)]
    pub fn byte(self) -> u32
        ensures { result ≡ byte_of self }
    {
        (self.bits + 7) / 8
    }

    /// The number of the byte in which the place is.
    #[tactic(auto, unfolding(crate::specs::Places::byte_in))]
    #[inline(always)]
    pub fn byte_in(self) -> u32
        ensures { result ≡ byte_in self }
    {
        self.bits / 8
    }

    /// How many bits of that byte are before the place: 0 to 7.
    #[tactic(auto, unfolding(crate::specs::Places::bit_in))]
    #[inline(always)]
    pub fn bit_in(self) -> u8
        ensures { result ≡ bit_in self }
    {
        (self.bits % 8) as u8
    }

    /// How many bits of the file are before the place.
    #[inline(always)]
    pub fn bits(self) -> u64
        ensures { result ≡ self.bits }
    {
        u64::from(self.bits)
    }

    /// The next place where a byte begins.
    #[tactic(auto, unfolding(crate::specs::Places::at_byte, crate::specs::Places::byte_of))]
    #[inline(always)]
    pub fn aligned(self) -> Place
        ensures { result ≡ aligned self }
    {
        Place {
            bits: (self.bits + 7) / 8 * 8,
        }
    }

    /// The place that many bits further on.
    #[tactic(auto, unfolding(crate::specs::Places::further))]
    #[inline(always)]
    pub fn further(self, count: u8) -> Place
        requires { self.bits + count ≤ last_place }
        ensures { result ≡ further self count }
    {
        Place {
            bits: self.bits + u32::from(count),
        }
    }

    /// How many bits there are to another place; none if it is before this one.
    #[inline(always)]
    pub fn bits_to(self, other: Place) -> u64
        ensures { result ≡ bits_between self other }
    {
        other.bits().saturating_sub(self.bits())
    }

    /// How many bits there are to the next place where a byte begins: 0 to 7.
    #[tactic(auto, unfolding(crate::specs::Places::byte_of, crate::specs::Places::bits_left))]
    #[inline(always)]
    pub fn bits_left(self) -> u8
        ensures { result ≡ bits_left self }
    {
        let bit = (self.bits % 8) as u8;
        if bit == 0 { 0 } else { 8 - bit }
    }

    /// Whether two places are the same.
    #[inline(always)]
    pub fn is_same(self, other: Place) -> bool
        ensures { result ≡ is_same self other }
    {
        other.bits() == self.bits()
    }
}
