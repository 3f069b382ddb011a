//! Tables of paths.
ghost use Rattle.std.specs.Prelude.{◌≡◌, ◌<◌, [], OnOk, OnErr};
ghost use Rattle.ksv_places.specs.Table.{IsPutAt, no_pages, no_tables, part_at, shelf_at, table_at};

use crate::numbers::Numbers;
use crate::parts::reach_part;
use crate::table::Table;
use std::alloc::{AllocError, Global};
use std::marker::Model;

/// A table for each path, made only where one is needed. 0 means none. `starts` has the number of
/// each path's table: its place among the tables, and one more.
#[derive(Drop)]
pub(crate) struct Tables {
    alloc: Global,
    starts: Numbers,
    tables: Vec<Table>,
}

impl Model for Tables {
    ghost use Rattle.std.specs.Prelude.{length};
    ghost use Rattle.ksv_places.specs.Table.{Shelf, number_at, IsApart};

    ghost Value = { Shelf };

    ghost view = { λ all. record { starts = all.starts; tables = all.tables.items } };

    ghost invariant = { λ all. IsApart (number_at all.starts) (length all.tables.items) };
}

/// The number of an index in a table; 0 for none.
#[inline(always)]
fn in_table(tables: &[Table], table: u32, index: u32) -> u32
    ensures { result ≡ table_at (part_at no_pages tables.now table) index }
{
    if table == 0 {
        return 0;
    }
    match tables.get((table - 1) as usize) {
        Some(numbers) => numbers.at(index),
        None => 0,
    }
}

impl Tables {
    /// No tables, which take no memory.
    #[inline(always)]
    pub(crate) fn new(alloc: Global) -> Self
        ensures { result ≡ no_tables }
    {
        Tables {
            alloc,
            starts: Numbers::new(alloc),
            tables: Vec::new(alloc),
        }
    }

    /// The number of an index of a path; 0 for none.
    #[inline(always)]
    pub(crate) fn at(&self, path: u32, index: u32) -> u32
        ensures { result ≡ shelf_at self.now path index }
    {
        in_table(self.tables.as_slice(), self.starts.at(path), index)
    }

    /// Sets the number of an index of a path, which is not 0.
    pub(crate) fn put(&mut self, path: u32, index: u32, number: u32) -> Result<(), AllocError>
        requires some { 0 < number }
        ensures ok { OnOk result (IsPutAt (shelf_at self.old) (shelf_at self.new) path index number) }
        ensures err { OnErr result (shelf_at self.new ≡ shelf_at self.old) }
    {
        let fresh = Table::new(self.alloc);
        let table = reach_part(&mut self.starts, &mut self.tables, path, fresh)?;
        let numbers = &mut self.tables[(table - 1) as usize];
        numbers.put(index, number)
    }
}
