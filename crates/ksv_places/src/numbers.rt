//! Numbers by small indices.
ghost use Rattle.std.specs.Prelude.{◌≡◌, [], length, OnOk, OnErr};
ghost use Rattle.ksv_places.specs.Table.{IsPut, number_at};

use std::alloc::{AllocError, Global};
use std::marker::Model;

/// A number for each index, in one block of memory up to the last index that has one. 0 means none. Contracts see the list of
/// the numbers.
#[derive(Drop)]
pub(crate) struct Numbers {
    numbers: Vec<u32>,
}

impl Model for Numbers {
    ghost use Rattle.std.specs.Prelude.{ℕ, List};

    ghost Value = { List ℕ };

    ghost view = { λ all. all.numbers.items };
}

impl Numbers {
    /// No numbers, which take no memory.
    #[inline(always)]
    pub(crate) fn new(alloc: Global) -> Self
        ensures { result ≡ [] }
    {
        Numbers {
            numbers: Vec::new(alloc),
        }
    }

    /// One more than the last index that was set; 0 where none was.
    #[inline(always)]
    pub(crate) fn len(&self) -> usize
        ensures { result ≡ length self.now }
    {
        self.numbers.len()
    }

    /// The number of an index; 0 for none.
    #[inline(always)]
    pub(crate) fn at(&self, index: u32) -> u32
        ensures { result ≡ number_at self.now index }
    {
        match self.numbers.get(index as usize) {
            Some(number) => *number,
            None => 0,
        }
    }

    /// Sets the number of an index.
    pub(crate) fn put(&mut self, index: u32, number: u32) -> Result<(), AllocError>
        ensures ok { OnOk result (IsPut (number_at self.old) (number_at self.new) index number) }
        ensures err { OnErr result (self.new ≡ self.old) }
    {
        let index = index as usize;
        if self.numbers.len() == index {
            self.numbers.push(number)?;
            return Ok(());
        }
        if self.numbers.len() < index {
            self.numbers.resize(index + 1, 0)?;
        }
        self.numbers[index] = number;
        Ok(())
    }
}
