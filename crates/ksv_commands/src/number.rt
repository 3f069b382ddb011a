//! Numbers on a command line.
ghost use Rattle.std.specs.Prelude.{◌≡◌};
ghost use Rattle.ksv_commands.specs.Numbers.{integer_of, number_of};

use ksv_expr_value::Integer;
use ksv_paths::decimal;

/// The most digits of a number.
const DIGIT_LIMIT: usize = 20;

/// A place or a number of bytes: 1 to 20 digits of a number below 2^64.
pub(crate) fn number(text: &[u8]) -> Option<u64>
    ensures { result ≡ number_of text.now }
{
    if text.len() > DIGIT_LIMIT {
        return None;
    }
    decimal(text)
}

/// An integer: a number, or a `-` and a number, that is at least -2^63.
pub(crate) fn integer(text: &[u8]) -> Option<Integer>
    ensures { result ≡ integer_of text.now }
{
    match text {
        [b'-', digits @ ..] => Integer::new(-i128::from(number(digits)?)),
        _ => Integer::new(i128::from(number(text)?)),
    }
}
