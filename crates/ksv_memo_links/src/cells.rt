//! A list, each reading and writing counted.
ghost use Rattle.std.specs.Prelude.{◌≡◌, ◌+◌, ◌-◌, ◌^◌, ◌<◌, ◌≤◌, [], ◌∷◌, ◌++◌, length, take, replicate, slice_index_or, slice_set, OnOk, OnErr, IfSome, IfNone};
ghost use Rattle.std.specs.Option.{option_to_list};
ghost use Rattle.ksv_memo_links.specs.Shelved.{ticked};

use std::alloc::{AllocError, Global};
use std::marker::Model;

/// A list. Each call that reads or writes it is one look. The count of looks only grows, until it stops at 2^64 - 1: no call sets
/// it back.
#[derive(Drop)]
pub(crate) struct Cells<T: Copy + Drop> {
    items: Vec<T>,
    looks: u64,
}

impl<T: Copy + Drop> Model for Cells<T> {
    ghost use Rattle.std.specs.Prelude.{vec_capacity};
    ghost use Rattle.ksv_memo_links.specs.Shelved.{Celled};

    ghost Value = { Celled T };

    ghost view = { λ cells. record { items = cells.items.items; room = vec_capacity cells.items; looks = cells.looks } };
}

impl<T: Copy + Drop> Cells<T> {
    /// The empty list, which takes no memory.
    pub(crate) fn new(alloc: Global) -> Self
        ensures items { result.items ≡ [] }
        ensures looks { result.looks ≡ 0 }
    {
        Cells {
            items: Vec::new(alloc),
            looks: 0,
        }
    }

    /// The looks so far.
    pub(crate) fn looks(&self) -> u64
        ensures { result ≡ self.now.looks }
    {
        self.looks
    }

    /// The length, which isn't counted.
    pub(crate) fn count(&self) -> usize
        ensures { result ≡ length self.now.items }
    {
        self.items.as_slice().len()
    }

    pub(crate) fn get(&mut self, i: u32) -> T
        requires { i < length self.old.items }
        ensures result { result ≡ slice_index_or self.old.items i result }
        ensures items { self.new.items ≡ self.old.items }
        ensures room { self.new.room ≡ self.old.room }
        ensures looks { self.new.looks ≡ ticked self.old.looks }
        ensures grows { self.old.looks ≤ self.new.looks }
    {
        self.looks = self.looks.saturating_add(1);
        self.items[i as usize]
    }

    pub(crate) fn at(&mut self, i: usize) -> Option<T>
        ensures some { IfSome result (λ x. (i < length self.old.items) × (x ≡ slice_index_or self.old.items i x)) }
        ensures none { IfNone result (length self.old.items ≤ i) }
        ensures fits { IfSome result (λ x. i + 1 < 2 ^ 64) }
        ensures items { self.new.items ≡ self.old.items }
        ensures room { self.new.room ≡ self.old.room }
        ensures looks { self.new.looks ≡ ticked self.old.looks }
        ensures grows { self.old.looks ≤ self.new.looks }
    {
        self.looks = self.looks.saturating_add(1);
        if i < self.items.len() {
            Some(self.items[i])
        } else {
            None
        }
    }

    pub(crate) fn set(&mut self, i: u32, item: T)
        requires { i < length self.old.items }
        ensures items { self.new.items ≡ slice_set self.old.items i item }
        ensures room { self.new.room ≡ self.old.room }
        ensures looks { self.new.looks ≡ ticked self.old.looks }
        ensures grows { self.old.looks ≤ self.new.looks }
    {
        self.looks = self.looks.saturating_add(1);
        self.items[i as usize] = item;
    }

    pub(crate) fn pop(&mut self) -> Option<T>
        ensures items { self.old.items ≡ self.new.items ++ option_to_list result }
        ensures none { IfNone result (self.new.items ≡ []) }
        ensures room { self.new.room ≡ self.old.room }
        ensures looks { self.new.looks ≡ ticked self.old.looks }
        ensures grows { self.old.looks ≤ self.new.looks }
    {
        self.looks = self.looks.saturating_add(1);
        self.items.pop()
    }

    /// Puts an item at the end, where there is room for it: it takes no memory.
    pub(crate) fn put(&mut self, item: T)
        requires { length self.old.items < self.old.room }
        ensures items { self.new.items ≡ self.old.items ++ item ∷ [] }
        ensures room { self.old.room ≤ self.new.room }
        ensures looks { self.new.looks ≡ ticked self.old.looks }
        ensures grows { self.old.looks ≤ self.new.looks }
    {
        self.looks = self.looks.saturating_add(1);
        self.items.push_reserved(item);
    }

    /// At least this many items. The new ones are this one.
    pub(crate) fn reach(&mut self, count: usize, item: T) -> Result<(), AllocError>
        ensures ok { OnOk result (self.new.items ≡ self.old.items ++ replicate (count - length self.old.items) item) }
        ensures err { OnErr result (self.new.items ≡ self.old.items) }
        ensures room { self.old.room ≤ self.new.room }
        ensures grows { self.old.looks ≤ self.new.looks }
    {
        if self.items.as_slice().len() < count {
            self.items.resize(count, item)?;
        }
        Ok(())
    }

    /// Room for this many items in all.
    pub(crate) fn reserve(&mut self, count: usize) -> Result<(), AllocError>
        ensures items { self.new.items ≡ self.old.items }
        ensures ok { OnOk result (count ≤ self.new.room) }
        ensures room { self.old.room ≤ self.new.room }
        ensures grows { self.old.looks ≤ self.new.looks }
    {
        let held = self.items.as_slice().len();
        if held < count {
            self.items.reserve(count - held)?;
        }
        Ok(())
    }
}
