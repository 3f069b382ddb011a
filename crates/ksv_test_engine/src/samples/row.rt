//! A row, its number, and what it answers.
ghost use Rattle.std.specs.Prelude.{◌≡◌, ◌<◌};
ghost use Rattle.ksv_memo_rules.specs.Slots.{lent};

use crate::samples::hashed::Exact;

/// The number of a row.
#[derive(Clone, Copy, PartialEq, Eq, Hash)]
pub struct RowNumber {
    /// The number.
    pub number: u8,
    ghost small: { number < 256 },
}

impl Exact for RowNumber {
    ghost use Rattle.ksv_test_engine.specs.Rows.{same_if_equal};

    ghost exact = { same_if_equal };
}

/// A row that isn't there, or a missing byte that should name one.
#[derive(Clone, Copy)]
pub struct Missing;

/// What a row or a link answers.
pub(crate) type Reply = Result<u32, Missing>;

/// A copy of an answer that is lent.
pub(crate) fn copied(answer: Result<&u32, &Missing>) -> Reply
    ensures { result ≡ lent answer.entry }
{
    match answer {
        Ok(number) => Ok(*number),
        Err(missing) => Err(*missing),
    }
}

/// A row.
#[derive(Drop)]
pub enum Row {
    /// This number.
    Number(u32),
    /// The sum of the rows of these numbers, at most the largest number.
    Sum(Vec<RowNumber>),
    /// The row that the byte at this place names.
    Named(u32),
    /// 1, if the file reaches this place.
    Reaching(u32),
}
