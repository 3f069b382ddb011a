//! The links between the kept slots of an engine.
ghost use Rattle.std.specs.Prelude.{◌≡◌, ◌≢◌, ℕ, ◌+◌, ◌-◌, ◌*◌, ◌^◌, ◌<◌, ◌≤◌, min, [], ◌++◌, ◌∷◌, length, count_by, sum_by, OnOk, OnErr, IfSome, IfNone, true, false};
ghost use Rattle.std.specs.List.{All, AllPairs};
ghost use Rattle.ksv_memo_links.specs.Shelved.{row};
ghost use Rattle.ksv_memo_links.specs.Touching.{AreWithin, pages_in};
ghost use Rattle.ksv_memo_links.specs.Marking.{is_kept};
ghost use Rattle.ksv_memo_links.specs.Links.{Forgets, Grows, IsDone, IsUnchanged, Keeps, Takes, IsMove, IsOverwrite, asks_of, behind_by, ended_by, met_by, pages_behind, pages_met};

use crate::parts::Parts;
use ksv_bytes::{Change, Use};
use std::alloc::{AllocError, Global};
use std::marker::Model;

/// How many slots more than are needed are made, so that most new nodes find theirs made. Of so few the rows take less
/// than 2 KB, which are filled by vectors.
const MORE: u32 = 63;

/// Of each slot that is kept, the slots that it asked, its users and its uses; and of each page, the uses that meet it.
/// Each reading or writing of one of these counts as a look. The count only grows.
#[derive(Drop)]
pub struct Links {
    parts: Parts,
}

impl Model for Links {
    ghost use Rattle.ksv_memo_links.specs.Links.{Linked};
    ghost use Rattle.ksv_memo_links.specs.Forgetting.{IsWhole, linked_of};

    ghost Value = { Linked };

    ghost view = { λ links. linked_of links.parts };

    ghost invariant = { λ links. IsWhole links.parts };
}

impl Links {
    /// No slots, which take no memory.
    pub fn new(alloc: Global) -> Self
        ensures { result ≡ record { kept = []; asked = []; uses = []; waits = []; looks = 0; marked = 0 } }
    {
        Links {
            parts: Parts::new(alloc),
        }
    }

    /// How many slots are kept.
    pub fn count(&self) -> usize
        ensures { result ≡ count_by (λ b. b) self.now.kept }
    {
        self.parts.count()
    }

    /// The number of each slot fits in 32 bits. It isn't a look.
    pub fn are_numbered(&self)
        ensures { length self.now.kept < 2 ^ 32 }
    {
        self.parts.are_numbered();
    }

    /// Makes slots until there are at least this many. The new ones aren't kept.
    #[inline(always)]
    pub fn reach(&mut self, count: u32) -> Result<(), AllocError>
        ensures same { Grows self.old self.new }
        ensures ok { OnOk result (count ≤ length self.new.kept) }
        ensures grows { self.old.looks ≤ self.new.looks }
    {
        if count as usize <= self.parts.slots() {
            return Ok(());
        }
        self.parts.reach(count.saturating_add(MORE))
    }

    /// Keeps a slot, with the slots that it asked and its uses. Where memory is refused, nothing has changed.
    #[inline(always)]
    pub fn keep(&mut self, slot: u32, asked: &[u32], uses: &[Use]) -> Result<(), AllocError>
        requires idle { self.old.waits ≡ [] }
        requires slot_in { slot < length self.old.kept }
        requires out { is_kept self.old.kept slot ≡ false }
        requires asked_kept { All (λ s. is_kept self.old.kept s ≡ true) asked.now }
        ensures ok { OnOk result (Keeps self.old self.new slot asked.now uses.now) }
        ensures err { OnErr result (IsUnchanged self.old self.new) }
        ensures grows { self.old.looks ≤ self.new.looks }
    {
        self.parts.keep(slot, asked, uses)
    }

    /// Marks the slots that go: those with a use that a change touches, further ones that go also, whatever it touches, and
    /// those that asked one that goes. They are no longer kept, and `take` takes them one by one. But for an overwrite, the
    /// uses of kept slots are within this many pages. It takes no memory.
    pub fn forget(&mut self, change: Change, pages: usize, also: &[u32])
        requires idle { self.old.waits ≡ [] }
        requires within { IsMove change → (s : ℕ) → is_kept self.old.kept s ≡ true → AreWithin pages (row self.old.uses s) }
        requires also_kept { All (λ s. is_kept self.old.kept s ≡ true) also.now }
        requires also_once { AllPairs (λ (a b : ℕ). a ≢ b) also.now }
        ensures forgets { Forgets self.old self.new change also.now }

        // This many looks more.
        ensures most { IsOverwrite change → self.new.looks ≤ self.old.looks + pages_met change + 3 * sum_by (met_by change) self.old.uses + 1 + 4 * length self.new.waits + 2 * asks_of self.old.asked self.new.waits }
        ensures behind { IsMove change → self.new.looks ≤ self.old.looks + 2 * pages_behind change pages + 3 * sum_by (behind_by change) self.old.uses + 3 * sum_by (ended_by change) self.old.uses + 2 + 4 * length self.new.waits + 2 * asks_of self.old.asked self.new.waits }
        ensures least { min (self.old.marked + length self.new.waits) (2 ^ 64 - 1) ≤ self.new.marked }
        ensures grows { self.old.looks ≤ self.new.looks }
        ensures fits { length self.new.waits < 2 ^ 32 }
        ensures vacant { (s : ℕ) → is_kept self.old.kept s ≡ false → row self.old.uses s ≡ [] }
    {
        self.parts.forget(change, pages, also);
        self.parts.few();
    }

    /// How many slots are to be taken. It isn't a look.
    pub fn waiting(&self) -> usize
        ensures { result ≡ length self.now.waits }
    {
        self.parts.waiting()
    }

    /// Takes a slot that goes, with all that it asked and uses. It takes no memory.
    pub fn take(&mut self) -> Option<u32>
        ensures some { IfSome result (λ slot. Takes self.old self.new slot) }
        ensures none { IfNone result (IsDone self.old self.new) }
        ensures grows { self.old.looks ≤ self.new.looks }
    {
        self.parts.take()
    }

    /// The looks so far, of all calls. The count stops at 2^64 - 1.
    pub fn looks(&self) -> u64
        ensures count { result ≡ min self.now.looks (2 ^ 64 - 1) }
        ensures least { self.now.marked ≤ self.now.looks }
    {
        self.parts.looks()
    }
}
