//! Where a byte is first in bytes that are lent.
ghost use Rattle.std.specs.Prelude.{◌≡◌, ◌<◌, length, IfSome};
ghost use Rattle.ksv_expr_value.specs.Bytes.{content};
ghost use Rattle.ksv_nodes.specs.Reading.{first_at};

use ksv_expr_value::Parts;

/// The place of the first such byte.
fn first_in(bytes: &[u8], byte: u8) -> Option<usize>
    ensures found { result ≡ first_at byte bytes.now }
    ensures inside { IfSome result (λ place. place < length bytes.now) }
{
    let mut place = 0;
    for other in bytes {
        if *other == byte {
            return Some(place);
        }
        place += 1;
    }
    None
}

/// The place of the first such byte in bytes that are cut in two; None if there is no such byte.
#[tactic(auto, using(crate::proofs::First::first_at_append))]
pub fn first_in_parts(parts: Parts, byte: u8) -> Option<usize>
    ensures found { result ≡ first_at byte (content parts.entry) }
    ensures inside { IfSome result (λ place. place < length (content parts.entry)) }
{
    match first_in(parts.front, byte) {
        Some(place) => Some(place),
        None => {
            let place = first_in(parts.back, byte)?;
            Some(parts.front.len() + place)
        }
    }
}
