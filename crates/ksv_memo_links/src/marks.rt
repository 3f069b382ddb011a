//! Which slots are kept, and which of them are to go.
ghost use Rattle.std.specs.Prelude.{◌≡◌, ℕ, ◌+◌, ◌-◌, min, ◌*◌, ◌^◌, ◌<◌, ◌≤◌, max, [], ◌∷◌, ◌++◌, length, slice_index_or, slice_set, count_by, IfSome, IfNone, OnOk, OnErr, true, false};
ghost use Rattle.std.specs.Option.{option_to_list};
ghost use Rattle.ksv_memo_links.specs.Marking.{marked_work, is_kept, IsCounted, HasMore};

use crate::cells::Cells;
use std::alloc::{AllocError, Global};
use std::marker::Model;

/// Which slots are kept, how many they are, and the slots that wait to be taken. Both lists count their looks.
#[derive(Drop)]
pub(crate) struct Marks {
    kept: Cells<bool>,
    work: Cells<u32>,
    count: usize,
}

impl Model for Marks {
    ghost use Rattle.std.specs.Prelude.{◌+◌};
    ghost use Rattle.ksv_memo_links.specs.Marking.{Marked, HasRoom};

    ghost Value = { Marked };

    ghost view = { λ marks. record { kept = marks.kept.items; work = marks.work.items; looks = marks.kept.looks + marks.work.looks } };

    ghost invariant = { λ marks. HasRoom marks.kept marks.work marks.count };
}

impl Marks {
    /// No slots, which take no memory.
    pub(crate) fn new(alloc: Global) -> Self
        ensures kept { result.kept ≡ [] }
        ensures work { result.work ≡ [] }
        ensures looks { result.looks ≡ 0 }
    {
        Marks {
            kept: Cells::new(alloc),
            work: Cells::new(alloc),
            count: 0,
        }
    }

    /// The looks so far.
    pub(crate) fn looks(&self) -> u64
        ensures { result ≡ min self.now.looks (2 ^ 64 - 1) }
    {
        self.kept.looks().saturating_add(self.work.looks())
    }

    /// How many slots are kept.
    pub(crate) fn count(&self) -> usize
        ensures { result ≡ count_by (λ b. b) self.now.kept }
    {
        self.count
    }

    /// The number of slots, which isn't counted.
    pub(crate) fn slots(&self) -> usize
        ensures count { result ≡ length self.now.kept }
        ensures fits { result < 2 ^ 32 }
    {
        self.kept.count()
    }

    /// How many slots wait, which isn't counted.
    pub(crate) fn waiting(&self) -> usize
        ensures { result ≡ length self.now.work }
    {
        self.work.count()
    }

    /// There are fewer slots that wait than numbers of slots.
    pub(crate) fn few(&self)
        ensures { length self.now.work < 2 ^ 32 }
    {
        let _ = &self.work;
    }

    /// At least this many slots, and room for each in the worklist. The new ones aren't kept.
    pub(crate) fn reach(&mut self, count: u32) -> Result<(), AllocError>
        ensures kept { HasMore self.old.kept self.new.kept }
        ensures few { length self.new.kept ≤ max (length self.old.kept) count }
        ensures work { self.new.work ≡ self.old.work }
        ensures ok { OnOk result (count ≤ length self.new.kept) }
        ensures grows { self.old.looks ≤ self.new.looks }
    {
        self.work.reserve(count as usize)?;
        self.kept.reach(count as usize, false)
    }

    /// A slot that isn't kept, and doesn't wait, is kept.
    pub(crate) fn keep(&mut self, slot: u32)
        requires slot_in { slot < length self.old.kept }
        requires none { is_kept self.old.kept slot ≡ false }
        requires idle { self.old.work ≡ [] }
        ensures kept { self.new.kept ≡ slice_set self.old.kept slot true }
        ensures work { self.new.work ≡ [] }
        ensures grows { self.old.looks ≤ self.new.looks }
    {
        self.kept.set(slot, true);
        self.count += 1;
    }

    /// A slot that is kept is so no more, and waits. It takes no memory, and doesn't ask whether the slot is kept.
    #[inline(always)]
    pub(crate) fn mark_kept(&mut self, slot: u32)
        requires { is_kept self.old.kept slot ≡ true }
        ensures kept { self.new.kept ≡ slice_set self.old.kept slot false }
        ensures work { self.new.work ≡ self.old.work ++ slot ∷ [] }
        ensures looks { self.new.looks ≤ self.old.looks + 2 }
        ensures grows { self.old.looks ≤ self.new.looks }
        ensures least { (from : ℕ) → IsCounted from self.old → IsCounted from self.new }
    {
        self.kept.set(slot, false);
        self.work.put(slot);
        self.count -= 1;
    }

    /// A slot, if it is kept, is so no more, and waits. It takes no memory.
    pub(crate) fn mark(&mut self, slot: u32)
        requires { slot < length self.old.kept }
        ensures kept { self.new.kept ≡ slice_set self.old.kept slot false }
        ensures work { self.new.work ≡ marked_work self.old.kept self.old.work slot }
        ensures looks { self.new.looks + 2 * length self.old.work ≤ self.old.looks + 1 + 2 * length self.new.work }
        ensures grows { self.old.looks ≤ self.new.looks }
        ensures least { (from : ℕ) → IsCounted from self.old → IsCounted from self.new }
    {
        if self.kept.get(slot) {
            self.mark_kept(slot);
        }
    }

    /// The slot at a place of the worklist.
    pub(crate) fn at(&mut self, i: usize) -> Option<u32>
        ensures some { IfSome result (λ x. (i < length self.old.work) × (x ≡ slice_index_or self.old.work i x)) }
        ensures none { IfNone result (length self.old.work ≤ i) }
        ensures inside { IfSome result (λ x. x < length self.old.kept) }
        ensures fits { IfSome result (λ x. i + 1 < 2 ^ 64) }
        ensures few { length self.old.work ≤ length self.old.kept }
        ensures kept { self.new.kept ≡ self.old.kept }
        ensures work { self.new.work ≡ self.old.work }
        ensures looks { self.new.looks ≤ self.old.looks + 1 }
        ensures grows { self.old.looks ≤ self.new.looks }
        ensures least { (from : ℕ) → IsCounted from self.old → IsCounted from self.new }
    {
        self.work.at(i)
    }

    /// Takes the worklist's last slot.
    pub(crate) fn take(&mut self) -> Option<u32>
        ensures work { self.old.work ≡ self.new.work ++ option_to_list result }
        ensures none { IfNone result (self.new.work ≡ []) }
        ensures kept { self.new.kept ≡ self.old.kept }
        ensures looks { self.new.looks ≤ self.old.looks + 1 }
        ensures grows { self.old.looks ≤ self.new.looks }
        ensures inside { IfSome result (λ x. x < length self.old.kept) }
    {
        self.work.pop()
    }
}
