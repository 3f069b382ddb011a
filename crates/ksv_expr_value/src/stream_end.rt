//! Ends of streams.
ghost use Rattle.std.specs.Prelude.{◌≡◌, ◌≤◌, Some, None, IfSome};
ghost use Rattle.ksv_expr_value.specs.Places.{end_limit};

use std::marker::Model;

/// Where a stream ends, in four bytes: at a byte of the file, or open, wherever the file ends. Contracts see the number of the byte
/// after its last one, if it has one.
#[derive(Clone, Copy)]
pub struct StreamEnd {
    /// The number of that byte; of an open end the greatest number, which is after the end of every file.
    number: u32,
}

impl Model for StreamEnd {
    ghost use Rattle.std.specs.Prelude.{ℕ, ◌≤◌, Option, IfSome};
    ghost use Rattle.ksv_expr_value.specs.Places.{end_limit};
    ghost use Rattle.ksv_expr_value.specs.Optional.{optional_of, number_for, number_back};

    ghost Value = { Option ℕ };

    ghost view = { λ end. optional_of end.number };

    ghost invariant = { λ end. IfSome (optional_of end.number) (λ byte. byte ≤ end_limit) };

    ghost inverse = { λ byte. record { number = number_for byte } };

    ghost inverse_ok = { λ end h i. record { number = number_back end.number i } };
}

impl StreamEnd {
    /// The end of a stream that goes on to the file's end, whatever that is.
    #[inline(always)]
    pub fn open() -> StreamEnd
        ensures { result ≡ None }
    {
        StreamEnd { number: u32::MAX }
    }

    /// The end before the byte of this number. No file has more bytes, so whoever has a place of a file can make one.
    #[inline(always)]
    pub fn at(byte: u32) -> StreamEnd
        requires { byte ≤ end_limit }
        ensures { result ≡ Some byte }
    {
        StreamEnd { number: byte }
    }

    /// The number of the byte before which it is; none of an open end.
    #[inline(always)]
    pub fn get(self) -> Option<u32>
        ensures value { result ≡ self }
        ensures in_file { IfSome result (λ byte. byte ≤ end_limit) }
    {
        if self.number == u32::MAX {
            None
        } else {
            Some(self.number)
        }
    }
}
