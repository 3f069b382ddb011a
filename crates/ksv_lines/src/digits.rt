//! Hexadecimal digits on a line, and the bytes that they stand for.
ghost use Rattle.std.specs.Prelude.{◌≡◌, ◌≤◌, ◌↔◌, IsTrue, length};
ghost use Rattle.std.specs.List.{AllPass};
ghost use Rattle.hex.specs.Hex.{is_hex_digit};
ghost use Rattle.ksv_lines.specs.Digits.{bytes_of};
ghost use Rattle.ksv_lines.specs.Lines.{line_limit};

use std::marker::Model;

/// The most bytes that one line can write: two digits make one.
pub const EDIT_LIMIT: usize = 2048;

/// The digits of an edit, where they are on the line. Contracts see the bytes that they stand for. These are read from
/// the digits only where they are written, so that no other line makes room for them.
#[derive(Drop)]
pub struct EditDigits<'a> {
    digits: &'a [u8],
}

impl<'a> Model for EditDigits<'a> {
    ghost use Rattle.std.specs.Prelude.{List, ℕ};
    ghost use Rattle.ksv_lines.specs.Digits.{IsEdit, written};

    ghost Value = { List ℕ };

    ghost view = { λ edit. written edit.digits.now };

    ghost invariant = { λ edit. IsEdit edit.digits.now };
}

impl<'a> EditDigits<'a> {
    /// The bytes, written into this room.
    pub fn bytes<'r>(&self, room: &'r mut [u8; EDIT_LIMIT]) -> &'r [u8]
        ensures { result.now ≡ self.now }
    {
        let bytes = &mut room[..self.digits.len() / 2];
        hex::decode_to_slice(self.digits, bytes).unwrap();
        bytes
    }
}

/// Whether there are only hexadecimal digits, of either case.
fn all_digits(text: &[u8]) -> bool
    ensures { IsTrue result ↔ AllPass is_hex_digit text.now }
{
    text.iter().all(|byte| byte.is_ascii_hexdigit())
}

/// An even number of hexadecimal digits. They aren't read yet, and stay where they are.
pub fn edit_digits(digits: &[u8]) -> Option<EditDigits<'_>>
    requires { length digits.now ≤ line_limit }
    ensures { result ≡ bytes_of digits.now }
{
    if digits.len() % 2 == 0 && all_digits(digits) {
        Some(EditDigits { digits })
    } else {
        None
    }
}
