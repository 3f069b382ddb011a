//! What lists each owner is linked to, and each list's items, each look counted.
ghost use Rattle.std.specs.Prelude.{◌≡◌, ◌+◌, ◌-◌, ◌*◌, ◌^◌, ◌<◌, ◌≤◌, ℕ, max, min, [], length, slice_set, IfOk, IfSome, IfNone, OnOk, OnErr};
ghost use Rattle.std.specs.List.{All};
ghost use Rattle.ksv_memo_links.specs.Shelved.{row, ticked, ticked_by, HasSameRows};
ghost use Rattle.ksv_memo_links.specs.Linked.{item_at};
ghost use Rattle.ksv_memo_links.specs.Chained.{IsListed};

use crate::blocks::{
    Block, Entry, Item, clear_block, copy_block, has_room, link_block, number, reach_blocks,
    reach_first,
};
use std::alloc::{AllocError, Global};
use std::marker::Model;

/// Half of how many places may be no entry's, beside as many as there are entries and half as many as there are owners,
/// before the entries move together. That looks at each owner, so it waits until the places are worth it.
const SPARE: usize = 512;

/// Lists of owners: what lists each owner is linked to, and each list's items. The entries of an owner stand beside each
/// other, in its block; those of the same list lead to each other, from the newest on. The count of looks only grows, until it
/// stops at 2^64 - 1: no call sets it back.
#[derive(Drop)]
pub(crate) struct Chains {
    alloc: Global,
    entries: Vec<Entry>,
    blocks: Vec<Block>,
    first: Vec<u32>,
    live: usize,
    looks: u64,
}

impl Model for Chains {
    ghost use Rattle.ksv_memo_links.specs.Chained.{Chained, IsChained, named_of, lists_of};

    ghost Value = { Chained };

    ghost view = { λ a. record { named = named_of a.entries.items a.blocks.items; lists = lists_of a.entries.items a.blocks.items a.first.items; looks = a.looks } };

    ghost invariant = { λ a. IsChained a.entries.items a.blocks.items a.first.items };
}

impl Chains {
    /// No owners and no lists, which take no memory.
    pub(crate) fn new(alloc: Global) -> Self
        ensures { result ≡ record { named = []; lists = []; looks = 0 } }
    {
        Chains {
            alloc,
            entries: Vec::new(alloc),
            blocks: Vec::new(alloc),
            first: Vec::new(alloc),
            live: 0,
            looks: 0,
        }
    }

    /// The looks so far.
    pub(crate) fn looks(&self) -> u64
        ensures { result ≡ min self.now.looks (2 ^ 64 - 1) }
    {
        self.looks
    }

    /// The items of a list are the owners that are linked to it.
    pub(crate) fn linked(&self)
        ensures { IsListed self.now.lists self.now.named }
    {
        let _ = &self.entries;
    }

    /// The place of the first entry of a list, 0 if it has none. It is one look.
    pub(crate) fn first_item(&mut self, list: u32) -> u32
        requires { list < length self.old.lists }
        ensures result { result ≡ (item_at self.old.lists list 0).at }
        ensures none { result ≡ 0 → length (row self.old.lists list) ≤ 0 }
        ensures named { self.new.named ≡ self.old.named }
        ensures lists { self.new.lists ≡ self.old.lists }
        ensures looks { self.new.looks ≡ ticked self.old.looks }
        ensures grows { self.old.looks ≤ self.new.looks }
    {
        self.looks = self.looks.saturating_add(1);
        self.first[list as usize]
    }

    /// The owner of the entry at a place, with the place of the next entry of its list, if there is one. It is one look;
    /// none where the place is 0, after the last entry.
    pub(crate) fn item(&mut self, at: u32) -> Option<Item>
        ensures some { IfSome result (λ x. (list i : ℕ) → at ≡ (item_at self.old.lists list i).at → (i < length (row self.old.lists list)) × (x.owner ≡ (item_at self.old.lists list i).owner) × (x.at ≡ (item_at self.old.lists list (i + 1)).at)) }
        ensures none { IfNone result ((list i : ℕ) → at ≡ (item_at self.old.lists list i).at → length (row self.old.lists list) ≤ i) }
        ensures named { self.new.named ≡ self.old.named }
        ensures lists { self.new.lists ≡ self.old.lists }
        ensures looks { IfSome result (λ x. self.new.looks ≡ ticked self.old.looks) }
        ensures idle { IfNone result (self.new.looks ≡ self.old.looks) }
        ensures grows { self.old.looks ≤ self.new.looks }
    {
        if at == 0 || at as usize >= self.entries.len() {
            return None;
        }
        self.looks = self.looks.saturating_add(1);
        let entry = self.entries[at as usize];
        Some(Item {
            owner: entry.owner,
            at: entry.next,
        })
    }

    /// Unlinks an owner from all its lists. How many they were. It is one look, and four for each list.
    #[inline(always)]
    pub(crate) fn clear(&mut self, owner: u32) -> u32
        requires { owner < length self.old.named }
        ensures count { result ≡ length (row self.old.named owner) }
        ensures named { self.new.named ≡ slice_set self.old.named owner [] }
        ensures lists { length self.new.lists ≡ length self.old.lists }
        ensures looks { self.new.looks ≡ ticked_by self.old.looks (1 + 4 * length (row self.old.named owner)) }
        ensures grows { self.old.looks ≤ self.new.looks }
    {
        let cleared = clear_block(&mut self.entries, &mut self.blocks, &mut self.first, owner);
        self.looks = self.looks.saturating_add(cleared.looks);
        self.live = self.live.saturating_sub(cleared.count as usize);
        cleared.count
    }

    /// How many lists there are, which isn't counted.
    pub(crate) fn lists(&self) -> usize
        ensures { result ≡ length self.now.lists }
    {
        self.first.as_slice().len()
    }

    /// At least this many lists. No owner is linked to the new ones.
    pub(crate) fn reach_lists(&mut self, count: u32) -> Result<(), AllocError>
        ensures named { self.new.named ≡ self.old.named }
        ensures lists { length self.old.lists ≤ length self.new.lists }
        ensures few { length self.new.lists ≤ max (length self.old.lists) count }
        ensures grows { self.old.looks ≤ self.new.looks }
        ensures ok { OnOk result (count ≤ length self.new.lists) }
    {
        reach_first(&mut self.first, count as usize)
    }

    /// At least this many owners. The new ones are linked to nothing.
    pub(crate) fn reach_owners(&mut self, count: u32) -> Result<(), AllocError>
        ensures named { HasSameRows self.old.named self.new.named }
        ensures few { length self.new.named ≤ max (length self.old.named) count }
        ensures lists { length self.new.lists ≡ length self.old.lists }
        ensures grows { self.old.looks ≤ self.new.looks }
        ensures ok { OnOk result (count ≤ length self.new.named) }
    {
        reach_blocks(&mut self.blocks, count as usize)
    }

    /// Links an owner that is linked to nothing. Where memory is refused, it is linked to nothing again.
    #[inline(always)]
    fn link_row(&mut self, owner: u32, lists: &[u32]) -> Result<(), AllocError>
        requires owner_in { owner < length self.old.named }
        requires none { row self.old.named owner ≡ [] }
        requires lists_in { All (λ l. l < length self.old.lists) lists.now }
        ensures ok { OnOk result (self.new.named ≡ slice_set self.old.named owner lists.now) }
        ensures err { OnErr result (self.new.named ≡ self.old.named) }
        ensures count { length self.new.lists ≡ length self.old.lists }
        ensures grows { self.old.looks ≤ self.new.looks }
    {
        link_block(
            &mut self.entries,
            &mut self.blocks,
            &mut self.first,
            owner,
            lists,
        )?;
        self.live = self.live.saturating_add(lists.len());
        Ok(())
    }

    /// The lists that an owner is linked to, into a vector.
    fn copy_row(&self, owner: u32, into: &mut Vec<u32>) -> Result<(), AllocError>
        requires { owner < length self.now.named }
        ensures { OnOk result (into.new.items ≡ row self.now.named owner) }
    {
        copy_block(self.entries.as_slice(), self.blocks[owner as usize], into)
    }

    /// The same entries, each block right after the one before it.
    fn packed(&self) -> Result<Chains, AllocError>
        ensures named { IfOk result (λ packed. packed.named ≡ self.now.named) }
        ensures lists { IfOk result (λ packed. length packed.lists ≡ length self.now.lists) }
    {
        let mut packed = Chains::new(self.alloc);
        let owners = self.blocks.as_slice().len();
        packed.reach_owners(number(owners)?)?;
        packed.reach_lists(number(self.first.as_slice().len())?)?;
        let mut named = Vec::new(self.alloc);
        self.linked();
        for owner in 0..owners {
            self.copy_row(owner as u32, &mut named)?;
            packed.link_row(owner as u32, named.as_slice())?;
        }
        Ok(packed)
    }

    /// Moves the entries together, so that no place is left between them. Where memory is refused, they stay where they are.
    #[cold]
    #[inline(never)]
    fn pack(&mut self)
        ensures named { self.new.named ≡ self.old.named }
        ensures lists { length self.new.lists ≡ length self.old.lists }
        ensures grows { self.old.looks ≤ self.new.looks }
    {
        if let Ok(packed) = self.packed() {
            let looks = self.looks;
            *self = packed;
            self.looks = looks;
        }
    }

    /// Whether this many entries of an owner that has none need new places, and few of those that there are are entries'.
    #[inline(always)]
    fn is_worn(&self, owner: u32, count: usize) -> bool
        requires { owner < length self.now.named }
    {
        let most = self
            .live
            .saturating_add(self.blocks.as_slice().len() / 4 + SPARE);
        self.entries.as_slice().len() / 2 > most && !self.has_room(owner, count)
    }

    /// Whether this many entries of an owner have room where its entries were.
    fn has_room(&self, owner: u32, count: usize) -> bool
        requires { owner < length self.now.named }
    {
        let begin = self.blocks[owner as usize].begin;
        match number(count) {
            Ok(count) => has_room(self.entries.as_slice(), owner, begin, count),
            Err(_) => false,
        }
    }

    /// Links an owner that is linked to nothing. Where memory is refused, it is linked to nothing again.
    #[inline(always)]
    pub(crate) fn link_all(&mut self, owner: u32, lists: &[u32]) -> Result<(), AllocError>
        requires owner_in { owner < length self.old.named }
        requires none { row self.old.named owner ≡ [] }
        requires lists_in { All (λ l. l < length self.old.lists) lists.now }
        ensures ok { OnOk result (self.new.named ≡ slice_set self.old.named owner lists.now) }
        ensures err { OnErr result (self.new.named ≡ self.old.named) }
        ensures count { length self.new.lists ≡ length self.old.lists }
        ensures grows { self.old.looks ≤ self.new.looks }
    {
        if self.is_worn(owner, lists.len()) {
            self.pack();
        }
        self.link_row(owner, lists)
    }
}
