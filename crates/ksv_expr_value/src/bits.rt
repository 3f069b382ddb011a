//! The number that some bits of bytes write.
ghost use Rattle.std.specs.Prelude.{◌≡◌, ◌+◌, ◌*◌, ◌^◌, ◌<◌, ◌≤◌, length};
ghost use Rattle.ksv_expr_value.specs.Bits.{number_of, bits_of, bits_from};
ghost use Rattle.ksv_expr_value.specs.Bytes.{content};
ghost use Rattle.ksv_expr_value.specs.Places.{byte_in, byte_of};

use crate::parts::Parts;
use crate::place::Place;

/// The number that all bits of some bytes write, after those of a number.
fn with_bytes(above: u128, bytes: &[u8]) -> u128
    requires { (above + 1) * 256 ^ length bytes.now ≤ 2 ^ 72 }
    ensures { result ≡ above * 256 ^ length bytes.now + number_of (bits_of bytes.now) }
{
    let mut value = above;
    for byte in bytes {
        value = value * 256 + u128::from(*byte);
    }
    value
}

impl<'a> Parts<'a> {
    /// The number that all their bits write. They are at most nine bytes.
    #[tactic(auto, using(crate::proofs::Binary::bytes_joined, crate::proofs::Binary::bytes_small))]
    pub fn number(self) -> u128
        requires { length (content self) ≤ 9 }
        ensures value { result ≡ number_of (bits_of (content self.entry)) }
        ensures small { result < 2 ^ 72 }
    {
        let front = with_bytes(0, self.front);
        with_bytes(front, self.back)
    }

    /// The number that the bits from one place to another write. The bytes are those that these bits meet: from the byte in which the
    /// first place is, to the first byte that doesn't begin before the other; at most nine.
    #[tactic(auto, using(crate::proofs::Places::few_left))]
    pub fn number_between(self, from: Place, to: Place) -> u128
        requires few { length (content self) ≤ 9 }
        requires met { byte_in from + length (content self) ≡ byte_of to }
        ensures value { result ≡ number_of (bits_from from to (content self.entry)) }
        ensures small { result < 2 ^ 72 }
    {
        (self.number() >> to.bits_left()) % (1_u128 << from.bits_to(to))
    }
}
