//! The nodes that are kept by numbers alone and have slots too, since they were asked.
ghost use Rattle.std.specs.Prelude.{◌≡◌, ◌≤◌, ◌+◌, ◌^◌, ◌++◌, ◌∷◌, [], filter, length, nat_lt, vec_capacity, OnOk, OnErr};
ghost use Rattle.std.specs.List.{AllPairs};
ghost use Rattle.ksv_memo.specs.Lending.{AreAllKept, AreSlotsOf, AreTwo, dropped_last, is_lent_from};

use crate::slots::{Known, Slots};
use ksv_memo_rules::Places;
use std::alloc::{AllocError, Global};
use std::marker::Model;

/// A node that has a slot, and its number among those that are kept by numbers alone.
#[derive(Drop)]
pub struct Lending<N> {
    /// Its number.
    pub place: u32,
    /// It.
    pub node: N,
}

/// The nodes that have slots, with room for the numbers of all these slots.
#[derive(Drop)]
pub struct Lendings<N: Eq + Drop> {
    items: Vec<Lending<N>>,
    /// The slots that were found last.
    found: Vec<u32>,
}

impl<N: Eq + Drop> Model for Lendings<N> {
    ghost use Rattle.std.specs.Prelude.{◌≤◌, length, vec_capacity};
    ghost use Rattle.ksv_memo.specs.Lending.{Listed};

    ghost Value = { Listed N };

    ghost view = { λ lendings. record { items = lendings.items.items; found = lendings.found.items } };

    ghost invariant = { λ lendings. length lendings.items.items ≤ vec_capacity lendings.found };
}

impl<N: Eq + Drop> Lendings<N> {
    /// None, which take no memory.
    pub(crate) fn new(alloc: Global) -> Self
        ensures { result.items ≡ [] }
    {
        Lendings {
            items: Vec::new(alloc),
            found: Vec::new(alloc),
        }
    }

    /// How many there are.
    pub(crate) fn len(&self) -> usize
        ensures { result ≡ length self.now.items }
    {
        self.items.as_slice().len()
    }

    /// One more. Where memory is refused, it isn't one.
    pub(crate) fn push(&mut self, place: u32, node: N) -> Result<(), AllocError>
        ensures ok { OnOk result (self.new.items ≡ self.old.items ++ record { place = place; node = node } ∷ []) }
        ensures err { OnErr result (self.new.items ≡ self.old.items) }
    {
        self.items.reserve(1)?;
        self.found.clear();
        self.found.reserve(self.items.as_slice().len() + 1)?;
        self.items.push_reserved(Lending { place, node });
        Ok(())
    }

    /// The last one isn't one any more.
    pub(crate) fn drop_last(&mut self)
        ensures { self.new.items ≡ dropped_last self.old.items }
    {
        let _ = self.items.pop();
    }

    /// Those below a number are left.
    pub(crate) fn cut(&mut self, left: u32)
        ensures { self.new.items ≡ filter (λ lending. nat_lt lending.place left) self.old.items }
    {
        self.items.retain(|lending| lending.place < left);
    }

    /// The numbers of slots that were found last.
    pub(crate) fn found(&self) -> &[u32]
        ensures { result.now ≡ self.now.found }
    {
        self.found.as_slice()
    }

    /// Finds the slots of the nodes from one of a number on, all of which are kept. Each is one look. It takes no memory.
    pub(crate) fn find_from<P: Places<N> + Drop, V: Drop, F: Drop>(
        &mut self,
        left: u32,
        slots: &mut Slots<N, P, V, F>,
    )
        requires kept { AreAllKept slots.old.entries self.old.items }
        requires apart { AllPairs (AreTwo N.eq) self.old.items }
        requires few { length slots.old.entries ≤ 2 ^ 32 }
        ensures found { AreSlotsOf (is_lent_from N.eq left self.old.items) slots.old.entries self.new.found }
        ensures items { self.new.items ≡ self.old.items }
        ensures entries { slots.new.entries ≡ slots.old.entries }
        ensures looks { slots.new.looks ≤ slots.old.looks + length self.new.found }
        ensures grows { slots.old.looks ≤ slots.new.looks }
    {
        self.found.clear();
        find_all(self.items.as_slice(), left, slots, &mut self.found);
    }
}

/// Finds the slots of some nodes from one of a number on, all of which are kept. There is room for the numbers of all.
fn find_all<N: Eq + Drop, P: Places<N> + Drop, V: Drop, F: Drop>(
    lendings: &[Lending<N>],
    left: u32,
    slots: &mut Slots<N, P, V, F>,
    found: &mut Vec<u32>,
)
    requires kept { AreAllKept slots.old.entries lendings.now }
    requires apart { AllPairs (AreTwo N.eq) lendings.now }
    requires few { length slots.old.entries ≤ 2 ^ 32 }
    requires none { found.old.items ≡ [] }
    requires room { length lendings.now ≤ vec_capacity found.old }
    ensures found { AreSlotsOf (is_lent_from N.eq left lendings.now) slots.old.entries found.new.items }
    ensures room { vec_capacity found.new ≡ vec_capacity found.old }
    ensures entries { slots.new.entries ≡ slots.old.entries }
    ensures looks { slots.new.looks ≤ slots.old.looks + length found.new.items }
    ensures grows { slots.old.looks ≤ slots.new.looks }
{
    for lending in lendings {
        if lending.place >= left {
            if let Known::Kept(slot) = slots.find(&lending.node) {
                found.push_reserved(slot as u32);
            }
        }
    }
}
