//! What a row answers, plainly, and whether an engine answers so. There are no expected values here: a test finds them by
//! hand (`engine`) or by recursion (`random`).
ghost use Rattle.ksv_memo_rules.specs.Meaning.{on};
ghost use Rattle.ksv_memo_rules.specs.Right.{IsRight};
ghost use Rattle.ksv_test_engine.specs.Rows.{rows_meaning};

use crate::samples::row::{Missing, RowNumber};
use crate::samples::rows::Rows;
use ksv_bytes::Buffer;
use ksv_memo::{Answer, Engine};
use std::alloc::{AllocError, Global};

/// What an engine answers to a row.
type RowAnswer = Answer<RowNumber, u32, Missing>;

/// The row of a number.
pub(crate) fn row(number: u8) -> RowNumber {
    RowNumber { number }
}

/// What a row answers.
#[derive(Clone, Copy)]
pub(crate) enum Plain {
    /// This number.
    Value(u32),
    /// That a row isn't there.
    Missing,
    /// That the row of this number depends on itself.
    Circle(u8),
}

impl Plain {
    /// What a sum answers that so far answers this, and whose next row answers that.
    pub(crate) fn plus(self, next: Plain) -> Plain {
        match self {
            Plain::Value(sum) => next.added_to(sum),
            _ => self,
        }
    }

    /// What a sum answers whose next row answers this, after rows that answer a number.
    fn added_to(self, sum: u32) -> Plain {
        match self {
            Plain::Value(value) => Plain::Value(sum.saturating_add(value)),
            _ => self,
        }
    }
}

/// Whether an engine's answer is this.
fn agrees(answer: &RowAnswer, plain: Plain) -> bool {
    match answer {
        Answer::Value(value) => matches!(plain, Plain::Value(wanted) if *value == wanted),
        Answer::Fault(Missing) => matches!(plain, Plain::Missing),
        Answer::Circle(node) => matches!(plain, Plain::Circle(wanted) if node.number == wanted),
    }
}

/// Whether an engine that is right for its rules and bytes answers this to a row. It still is right afterwards.
pub(crate) fn answers(
    engine: &mut Engine<Rows>,
    rules: &Rows,
    bytes: &Buffer,
    number: u8,
    wanted: Plain,
) -> Result<bool, AllocError>
    requires { IsRight (on (rows_meaning rules.now.rows.items) bytes.now) engine.old.kept }
    ensures { IsRight (on (rows_meaning rules.now.rows.items) bytes.now) engine.new.kept }
{
    let answer = engine.ask(rules, bytes, row(number))?;
    Ok(agrees(&answer, wanted))
}
