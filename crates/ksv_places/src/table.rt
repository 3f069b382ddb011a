//! Numbers by indices that may lie far apart.
ghost use Rattle.std.specs.Prelude.{◌≡◌, ◌<◌, [], OnOk, OnErr};
ghost use Rattle.ksv_places.specs.Table.{IsPut, number_at, no_pages, part_at, table_at};

use crate::descent::Descent;
use crate::numbers::Numbers;
use crate::parts::reach_part;
use std::alloc::{AllocError, Global};
use std::marker::Model;

/// How many indices a page has.
const PAGE: u32 = 1024;

/// A number for each index. Those of the first 1,024 indices lie in one block of memory. Further ones are in the descent: the first of
/// them, and those that come one after another below it. All others lie in pages of 1,024, which are made only where an index has a
/// number. 0 means none. `starts` has the number of each page: its place among the pages, and one more.
#[derive(Drop)]
pub(crate) struct Table {
    alloc: Global,
    near: Numbers,
    descent: Descent,
    starts: Numbers,
    pages: Vec<Numbers>,
}

impl Model for Table {
    ghost use Rattle.std.specs.Prelude.{length};
    ghost use Rattle.ksv_places.specs.Table.{Pages, number_at, IsApart};

    ghost Value = { Pages };

    ghost view = { λ table. record { near = table.near; descent = table.descent; starts = table.starts; pages = table.pages.items } };

    ghost invariant = { λ table. IsApart (number_at table.starts) (length table.pages.items) };
}

/// The number of an index in a page; 0 for none.
#[inline(always)]
fn in_page(pages: &[Numbers], page: u32, index: u32) -> u32
    ensures { result ≡ number_at (part_at [] pages.now page) index }
{
    if page == 0 {
        return 0;
    }
    match pages.get((page - 1) as usize) {
        Some(numbers) => numbers.at(index),
        None => 0,
    }
}

impl Table {
    /// No numbers, which take no memory.
    #[inline(always)]
    pub(crate) fn new(alloc: Global) -> Self
        ensures { result ≡ no_pages }
    {
        Table {
            alloc,
            near: Numbers::new(alloc),
            descent: Descent::new(alloc),
            starts: Numbers::new(alloc),
            pages: Vec::new(alloc),
        }
    }

    /// The number of an index; 0 for none.
    #[inline(always)]
    pub(crate) fn at(&self, index: u32) -> u32
        ensures { result ≡ table_at self.now index }
    {
        if index < PAGE {
            return self.near.at(index);
        }
        let number = self.descent.at(index);
        if number != 0 {
            return number;
        }
        in_page(
            self.pages.as_slice(),
            self.starts.at(index / PAGE),
            index % PAGE,
        )
    }

    /// Sets the number of an index, which is not 0.
    pub(crate) fn put(&mut self, index: u32, number: u32) -> Result<(), AllocError>
        requires some { 0 < number }
        ensures ok { OnOk result (IsPut (table_at self.old) (table_at self.new) index number) }
        ensures err { OnErr result (table_at self.new ≡ table_at self.old) }
    {
        if index < PAGE {
            return self.near.put(index, number);
        }
        if self.descent.takes(index) {
            return self.descent.put(index, number);
        }
        let fresh = Numbers::new(self.alloc);
        let page = reach_part(&mut self.starts, &mut self.pages, index / PAGE, fresh)?;
        let numbers = &mut self.pages[(page - 1) as usize];
        numbers.put(index % PAGE, number)
    }
}
