//! Numbers of indices one below the other.
ghost use Rattle.std.specs.Prelude.{◌≡◌, true, OnOk, OnErr};
ghost use Rattle.ksv_places.specs.Table.{IsPut, descent_at, takes, no_descent};

use crate::numbers::Numbers;
use std::alloc::{AllocError, Global};
use std::marker::Model;

/// The numbers of a top index and of those one after another below it. `down` has them from the top on, so the next below comes at its
/// end. 0 means none.
#[derive(Drop)]
pub(crate) struct Descent {
    top: u32,
    down: Numbers,
}

impl Model for Descent {
    ghost use Rattle.ksv_places.specs.Table.{Downwards};

    ghost Value = { Downwards };

    ghost view = { λ descent. record { top = descent.top; down = descent.down } };
}

impl Descent {
    /// No numbers, which take no memory.
    #[inline(always)]
    pub(crate) fn new(alloc: Global) -> Self
        ensures { result ≡ no_descent }
    {
        Descent {
            top: 0,
            down: Numbers::new(alloc),
        }
    }

    /// The number of an index; 0 for none.
    #[inline(always)]
    pub(crate) fn at(&self, index: u32) -> u32
        ensures { result ≡ descent_at self.now index }
    {
        if index > self.top {
            return 0;
        }
        self.down.at(self.top - index)
    }

    /// Whether it takes an index: any one if it has no numbers; else one of those that it has, or the next below them.
    pub(crate) fn takes(&self, index: u32) -> bool
        ensures { result ≡ takes self.now index }
    {
        let count = self.down.len();
        count == 0 || index <= self.top && (self.top - index) as usize <= count
    }

    /// Sets the number of an index that it takes.
    pub(crate) fn put(&mut self, index: u32, number: u32) -> Result<(), AllocError>
        requires { takes self.old index ≡ true }
        ensures ok { OnOk result (IsPut (descent_at self.old) (descent_at self.new) index number) }
        ensures err { OnErr result (self.new ≡ self.old) }
    {
        if self.down.len() == 0 {
            self.down.put(0, number)?;
            self.top = index;
            return Ok(());
        }
        self.down.put(self.top - index, number)
    }
}
