//! The parts of the links, and the steps of forgetting.
ghost use Rattle.std.specs.Prelude.{◌≡◌, ◌≢◌, ℕ, ◌+◌, ◌-◌, ◌^◌, ◌/◌, ◌<◌, ◌≤◌, max, min, length, slice_set, count_by, [], ◌∷◌, ◌++◌, OnOk, OnErr, IfSome, IfNone, true, false};
ghost use Rattle.std.specs.List.{All, AllPairs};
ghost use Rattle.std.specs.Option.{option_to_list};
ghost use Rattle.ksv_memo_links.specs.Shelved.{row};
ghost use Rattle.ksv_memo_links.specs.Linked.{item_at};
ghost use Rattle.ksv_memo_links.specs.Placed.{end_lists, page_lists};
ghost use Rattle.ksv_memo_links.specs.Marking.{is_kept};
ghost use Rattle.ksv_memo_links.specs.Links.{IsMove, first_page, end_page, Forgets, Keeps, IsUnchanged, Grows, Takes, IsDone};
ghost use Rattle.ksv_memo_links.specs.Forgetting.{AreAllWithin, IsShaped, MarksFirst, HitsSlot, HitsRow, HitsRows, HitsBehind, HitsUsers, HitsTouched, Spreads, Clears, IsWhole, IsNear, IsBehind, IsVacant, IsAsBefore, Fills, linked_of, looks};

use crate::chains::Chains;
use crate::marks::Marks;
use crate::used::{PAGE, Uses, end_list, page_list};
use ksv_bytes::{Change, Use};
use std::alloc::{AllocError, Global};

/// What each slot asked and its users, its uses and the lists in which it is by them, and whether it is kept. Each of the three
/// counts its looks, and no call sets a count back.
#[derive(Drop)]
pub(crate) struct Parts {
    asks: Chains,
    uses: Uses,
    marks: Marks,
}

impl Parts {
    /// No slots, which take no memory.
    pub(crate) fn new(alloc: Global) -> Self
        ensures linked { linked_of result ≡ record { kept = []; asked = []; uses = []; waits = []; looks = 0; marked = 0 } }
        ensures whole { IsWhole result }
    {
        Parts {
            asks: Chains::new(alloc),
            uses: Uses::new(alloc),
            marks: Marks::new(alloc),
        }
    }

    /// The looks so far, which stop at 2^64 - 1.
    pub(crate) fn looks(&self) -> u64
        ensures { result ≡ min (looks self.now) (2 ^ 64 - 1) }
    {
        self.asks
            .looks()
            .saturating_add(self.uses.looks())
            .saturating_add(self.marks.looks())
    }

    /// How many slots are kept.
    pub(crate) fn count(&self) -> usize
        ensures { result ≡ count_by (λ b. b) self.now.marks.kept }
    {
        self.marks.count()
    }

    /// The number of slots, which isn't counted.
    pub(crate) fn slots(&self) -> usize
        ensures { result ≡ length self.now.marks.kept }
    {
        self.marks.slots()
    }

    /// How many slots wait, which isn't counted.
    pub(crate) fn waiting(&self) -> usize
        ensures { result ≡ length self.now.marks.work }
    {
        self.marks.waiting()
    }

    /// There are fewer slots than numbers of slots.
    pub(crate) fn are_numbered(&self)
        ensures { length self.now.marks.kept < 2 ^ 32 }
    {
        let _ = self.marks.slots();
    }

    /// There are fewer slots that wait than numbers of slots.
    pub(crate) fn few(&self)
        ensures { length self.now.marks.work < 2 ^ 32 }
    {
        self.marks.few();
    }

    /// Marks a slot, if a change touches one of its uses.
    fn hit(&mut self, slot: u32, change: Change)
        requires shaped { IsShaped self.old }
        requires slot_in { slot < length self.old.marks.kept }
        ensures { HitsSlot self.old self.new change slot }
    {
        if self.uses.is_touched(slot, change) {
            self.marks.mark(slot);
        }
    }

    /// Marks the slots of a list that a change touches, of which the first entry has this place.
    #[inline(never)]
    fn hit_items(&mut self, list: u32, first: u32, change: Change)
        requires shaped { IsShaped self.old }
        requires begins { first ≡ (item_at self.old.uses.lists list 0).at }
        ensures { HitsRow self.old self.new change (row self.old.uses.lists list) (length (row self.old.uses.lists list)) 0 }
    {
        self.uses.linked();
        let mut at = first;
        while let Some(item) = self.uses.item(at) {
            self.hit(item.owner, change);
            at = item.at;
        }
    }

    /// Marks the slots of a list that a change touches.
    #[inline(always)]
    fn hit_list(&mut self, list: u32, change: Change)
        requires shaped { IsShaped self.old }
        requires list_in { list < length self.old.uses.lists }
        ensures { HitsRow self.old self.new change (row self.old.uses.lists list) (length (row self.old.uses.lists list)) 1 }
    {
        let first = self.uses.first_item(list);
        self.hit_items(list, first, change);
    }

    /// Marks the slots that a change touches and one of whose uses meets a page of a range.
    fn hit_pages(&mut self, change: Change, first: usize, end: usize)
        requires shaped { IsShaped self.old }
        ensures { HitsRows self.old self.new change (page_lists self.old.uses.lists) first (min end (length (page_lists self.old.uses.lists))) }
    {
        let last = end.min(self.uses.pages());
        for page in first..last {
            self.hit_list(page_list(page as u32), change);
        }
    }

    /// Marks the slots that a change touches and whose uses end in one of a range of ends.
    fn hit_ends(&mut self, change: Change, first: usize, end: usize)
        requires shaped { IsShaped self.old }
        ensures { HitsRows self.old self.new change (end_lists self.old.uses.lists) first (min end (length (end_lists self.old.uses.lists))) }
    {
        let last = end.min(self.uses.ends());
        for list in first..last {
            self.hit_list(end_list(list as u32), change);
        }
    }

    /// Marks the slots that a change touches and that use the size: those of the first list of ends, if there is one.
    #[inline(always)]
    fn hit_size(&mut self, change: Change)
        requires shaped { IsShaped self.old }
        ensures { HitsRows self.old self.new change (end_lists self.old.uses.lists) 0 (min 1 (length (end_lists self.old.uses.lists))) }
    {
        if self.uses.ends() > 0 {
            self.hit_list(end_list(0), change);
        }
    }

    /// Marks the slots that an overwrite touches, by the pages that it meets.
    fn hit_met(&mut self, change: Change, at: usize, n: usize)
        requires shaped { IsShaped self.old }
        ensures { HitsRows self.old self.new change (page_lists self.old.uses.lists) (first_page at) (min (end_page at n) (length (page_lists self.old.uses.lists))) }
    {
        self.uses.linked();
        let first = at / PAGE as usize;
        let end = (at.saturating_add(n.max(1)) - 1) / PAGE as usize + 1;
        self.hit_pages(change, first, end);
    }

    /// Marks the slots that an insert or a delete touches: by the uses of the size, and by the pages after it.
    fn hit_behind(&mut self, change: Change, at: usize, pages: usize)
        requires shaped { IsShaped self.old }
        ensures { HitsBehind self.old self.new change at pages }
    {
        self.uses.linked();
        let first = at / PAGE as usize;
        self.hit_size(change);
        self.hit_ends(change, first + 1, pages.saturating_add(1));
        self.hit_pages(change, first, pages);
    }

    /// Marks the users of a slot.
    fn mark_users(&mut self, slot: u32)
        requires shaped { IsShaped self.old }
        requires slot_in { slot < length self.old.marks.kept }
        ensures { HitsUsers self.old self.new slot (length (row self.old.asks.lists slot)) 1 }
    {
        self.asks.linked();
        let mut at = self.asks.first_item(slot);
        while let Some(user) = self.asks.item(at) {
            self.marks.mark(user.owner);
            at = user.at;
        }
    }

    /// Marks all from which a marked slot is reached.
    fn spread(&mut self)
        requires shaped { IsShaped self.old }
        ensures { Spreads self.old self.new (length self.new.marks.work) 1 }
    {
        let mut i = 0;
        while let Some(slot) = self.marks.at(i) {
            self.mark_users(slot);
            i += 1;
        }
    }

    /// Takes all that a slot asked and uses.
    fn clear(&mut self, slot: u32)
        requires shaped { IsShaped self.old }
        requires slot_in { slot < length self.old.marks.kept }
        ensures { Clears self.old self.new slot }
    {
        let _ = self.asks.clear(slot);
        self.uses.clear(slot);
    }

    /// Marks these slots, which are kept.
    fn mark_all(&mut self, slots: &[u32])
        requires kept { All (λ s. is_kept self.old.marks.kept s ≡ true) slots.now }
        requires once { AllPairs (λ (a b : ℕ). a ≢ b) slots.now }
        ensures { MarksFirst self.old self.new slots.now (length slots.now) }
    {
        for slot in slots {
            self.marks.mark_kept(*slot);
        }
    }

    /// Marks the slots that a change touches. But for an overwrite, the uses of kept slots are within this many pages.
    fn hit_touched(&mut self, change: Change, pages: usize)
        requires shaped { IsShaped self.old }
        requires within { IsMove change → AreAllWithin pages self.old }
        ensures { HitsTouched self.old self.new change pages }
    {
        self.uses.linked();
        match change {
            Change::Overwrite { at, n } => self.hit_met(change, at, n),
            Change::Insert { at, .. } => self.hit_behind(change, at, pages),
            Change::Delete { at, .. } => self.hit_behind(change, at, pages),
            Change::Append => self.hit_size(change),
        }
    }

    /// Marks each kept slot from which one is reached that a change touches, or that is one of these. But for an overwrite,
    /// the uses of kept slots are within this many pages. It takes no memory.
    pub(crate) fn forget(&mut self, change: Change, pages: usize, also: &[u32])
        requires whole { IsWhole self.old }
        requires within { IsMove change → AreAllWithin pages self.old }
        requires idle { self.old.marks.work ≡ [] }
        requires also_kept { All (λ s. is_kept self.old.marks.kept s ≡ true) also.now }
        requires also_once { AllPairs (λ (a b : ℕ). a ≢ b) also.now }
        ensures forgets { Forgets (linked_of self.old) (linked_of self.new) change also.now }
        ensures whole { IsWhole self.new }
        ensures near { IsNear change self.old self.new }
        ensures behind { IsBehind change pages self.old self.new }
        ensures grows { looks self.old ≤ looks self.new }
        ensures least { min (self.old.marks.looks + length self.new.marks.work) (2 ^ 64 - 1) ≤ self.new.marks.looks }
        ensures vacant { (s : ℕ) → is_kept self.old.marks.kept s ≡ false → row self.old.uses.rows s ≡ [] }
    {
        self.asks.linked();
        self.mark_all(also);
        self.hit_touched(change, pages);
        self.spread();
    }

    /// Takes a slot that was marked, with all that it asked and uses.
    pub(crate) fn take(&mut self) -> Option<u32>
        requires whole { IsWhole self.old }
        ensures some { IfSome result (λ slot. Takes (linked_of self.old) (linked_of self.new) slot) }
        ensures none { IfNone result (IsDone (linked_of self.old) (linked_of self.new)) }
        ensures whole { IsWhole self.new }
        ensures grows { looks self.old ≤ looks self.new }
    {
        let slot = self.marks.take()?;
        self.clear(slot);
        Some(slot)
    }

    /// Gives a slot without any what it asked and uses. Where memory is refused, it has nothing again.
    #[inline(always)]
    fn fill(&mut self, slot: u32, asked: &[u32], uses: &[Use]) -> Result<(), AllocError>
        requires shaped { IsShaped self.old }
        requires slot_in { slot < length self.old.marks.kept }
        requires vacant { IsVacant self.old slot }
        requires asked_in { All (λ s. s < length self.old.marks.kept) asked.now }
        ensures ok { OnOk result (Fills self.old self.new slot asked.now uses.now) }
        ensures err { OnErr result (IsAsBefore self.old self.new) }
        ensures grows { looks self.old ≤ looks self.new }
    {
        self.asks.link_all(slot, asked)?;
        if let Err(error) = self.uses.put(slot, uses) {
            let _ = self.asks.clear(slot);
            return Err(error);
        }
        Ok(())
    }

    /// Keeps a slot that isn't kept, with what it asked, which is kept, and its uses.
    #[inline(always)]
    pub(crate) fn keep(&mut self, slot: u32, asked: &[u32], uses: &[Use]) -> Result<(), AllocError>
        requires whole { IsWhole self.old }
        requires idle { self.old.marks.work ≡ [] }
        requires slot_in { slot < length self.old.marks.kept }
        requires out { is_kept self.old.marks.kept slot ≡ false }
        requires asked_kept { All (λ s. is_kept self.old.marks.kept s ≡ true) asked.now }
        ensures ok { OnOk result (Keeps (linked_of self.old) (linked_of self.new) slot asked.now uses.now) }
        ensures err { OnErr result (IsUnchanged (linked_of self.old) (linked_of self.new)) }
        ensures whole { IsWhole self.new }
        ensures grows { looks self.old ≤ looks self.new }
    {
        self.fill(slot, asked, uses)?;
        self.marks.keep(slot);
        Ok(())
    }

    /// At least this many slots. The new ones aren't kept.
    #[cold]
    #[inline(never)]
    pub(crate) fn reach(&mut self, count: u32) -> Result<(), AllocError>
        requires whole { IsWhole self.old }
        ensures same { Grows (linked_of self.old) (linked_of self.new) }
        ensures ok { OnOk result (count ≤ length self.new.marks.kept) }
        ensures whole { IsWhole self.new }
        ensures grows { looks self.old ≤ looks self.new }
    {
        self.asks.reach_lists(count)?;
        self.asks.reach_owners(count)?;
        self.uses.reach(count)?;
        self.marks.reach(count)
    }
}
