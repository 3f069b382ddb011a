//! The count of turns.
ghost use Rattle.std.specs.Prelude.{◌≡◌, Some, None};
ghost use Rattle.ksv_memo_rules.specs.Right.{counted};

use std::marker::Model;

/// The calls of rules since a question began; none if it met a circle or was refused memory. The machine alone makes one, begins it
/// and stops it; all below it can only count.
#[derive(Drop)]
pub struct Turns {
    count: Option<u64>,
}

impl Model for Turns {
    ghost use Rattle.std.specs.Prelude.{ℕ, Option};

    ghost Value = { Option ℕ };

    ghost view = { λ turns. turns.count };
}

impl Turns {
    /// No turns.
    pub(super) fn new() -> Self
        ensures { result ≡ Some 0 }
    {
        Turns { count: Some(0) }
    }

    /// The turns are counted from 0 again.
    pub(super) fn begin(&mut self)
        ensures { self.new ≡ Some 0 }
    {
        self.count = Some(0);
    }

    /// No turns are told.
    pub(super) fn stop(&mut self)
        ensures { self.new ≡ None }
    {
        self.count = None;
    }

    /// The turns so far.
    pub(super) fn now(&self) -> Option<u64>
        ensures { result ≡ self.now }
    {
        self.count
    }

    /// One more. The count stops at 2^64 - 1.
    #[inline(always)]
    pub(crate) fn add(&mut self)
        ensures { self.new ≡ counted 1 self.old }
    {
        self.count = match self.count {
            None => None,
            Some(turns) => Some(turns.saturating_add(1)),
        };
    }

    /// So many more. The count stops at 2^64 - 1.
    pub(crate) fn add_all(&mut self, more: u64)
        ensures { self.new ≡ counted more self.old }
    {
        self.count = match self.count {
            None => None,
            Some(turns) => Some(turns.saturating_add(more)),
        };
    }
}
