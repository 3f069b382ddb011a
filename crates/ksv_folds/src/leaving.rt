//! Which nodes of a sequence an edit leaves.
#![tactic(auto)]

ghost use Rattle.std.specs.Prelude.{◌≡◌, ◌+◌, ◌<◌, ◌≤◌, ◌&&◌, ℕ, suc, nat_lt, true, false};
ghost use Rattle.ksv_bytes.specs.declared.uses.Change.TheVariants.{Append, Delete, Insert, Overwrite};
ghost use Rattle.ksv_memo_rules.specs.Folds.{Leaves};
ghost use Rattle.ksv_folds.specs.Sequence.{says_sizes, sizer, edge_of, spot_at, numbered_at, reach_of, uses_in, is_open, is_read_past, elements_size, size_of, fold_of};

use crate::plain_list::PlainList;

impl PlainList {
    /// Whether the node of a number, which is of an element, reads farther than to a place.
    fn reads_past(&self, place: u32, at: usize) -> bool
        requires { place < elements_size self.now }
        ensures { result ≡ nat_lt at (reach_of self.now (spot_at self.now place)) }
    {
        at < self.reach_of(self.spot(place)) as usize
    }

    /// How many of the first nodes, which are of elements, read no farther than to a place. Later nodes read as far as earlier ones, so the
    /// number is halved.
    #[tactic(auto, using(crate::proofs::Reaches::reach_up))]
    fn border(&self, kept: u32, at: usize) -> u32
        requires { kept ≤ elements_size self.now }
        ensures within { result ≤ kept }
        ensures stays { (j : ℕ) → j < result → reach_of self.now (spot_at self.now j) ≤ at }
        ensures goes { (j : ℕ) → result ≤ j → j < kept → at < reach_of self.now (spot_at self.now j) }
    {
        let mut low = 0;
        let mut high = kept;
        while low < high {
            let middle = low + (high - low) / 2;
            if self.reads_past(middle, at) {
                high = middle;
            } else {
                low = middle + 1;
            }
        }
        low
    }

    /// Whether the file's size tells where the list ends. The last end uses it, and all rests.
    fn ends_with_file(&self) -> bool
        ensures { result ≡ (is_open self.now && self.now.closed) }
    {
        self.is_open() && self.closed
    }

    /// How many of the first nodes read no farther than to a place. Those behind them do.
    fn left_at(&self, kept: u32, at: usize) -> u32
        requires { kept ≤ size_of self.now }
        ensures within { result ≤ kept }
        ensures stays { (j : ℕ) → j < result → is_read_past at (uses_in self.now (numbered_at self.now j)) ≡ false }
        ensures goes { (j : ℕ) → result ≤ j → j < kept → is_read_past at (uses_in self.now (numbered_at self.now j)) ≡ true }
    {
        let elements = self.elements_size();
        if self.ends_with_file() {
            return self.border(kept.min(elements - 1), at);
        }
        let near = self.border(kept.min(elements), at);
        if near < elements { near } else { kept }
    }

    /// How many of the first nodes an insert or a delete at a place leaves.
    #[tactic(auto, using(crate::proofs::Edits::insert_leaves, crate::proofs::Edits::delete_leaves))]
    pub(crate) fn left_from(&self, kept: u32, at: usize) -> u32
        requires { kept ≤ size_of self.now }
        ensures inserts { (n : ℕ) → Leaves (fold_of self.now) (Insert at n) kept result }
        ensures deletes { (n : ℕ) → Leaves (fold_of self.now) (Delete at n) kept result }
    {
        self.left_at(kept, at)
    }

    /// How many of the first nodes an append leaves.
    pub(crate) fn left_behind(&self, kept: u32) -> u32
        requires { kept ≤ size_of self.now }
        ensures { Leaves (fold_of self.now) Append kept result }
    {
        if self.ends_with_file() {
            kept.min(self.elements_size() - 1)
        } else {
            kept
        }
    }

    /// How many of the first elements have the bytes of their sizes up to a place, or before it.
    #[tactic(auto, using(crate::proofs::Overwrites::said_up, crate::specs::Lemmas::Numbers::fields_some))]
    fn said_before(&self, at: usize) -> u32
        requires { says_sizes self.now ≡ true }
        ensures within { result ≤ self.now.most }
        ensures before { (i : ℕ) → i < result → edge_of self.now i (suc (sizer self.now)) ≤ at }
        ensures behind { (i : ℕ) → result ≤ i → i < self.now.most → at < edge_of self.now i (suc (sizer self.now)) }
    {
        let mut low = 0;
        let mut high = self.most;
        while low < high {
            let middle = low + (high - low) / 2;
            if self.said_past(middle, at) {
                high = middle;
            } else {
                low = middle + 1;
            }
        }
        low
    }

    /// Whether the bytes of an element's size end behind a place.
    fn said_past(&self, element: u32, at: usize) -> bool
        requires says { says_sizes self.now ≡ true }
        requires few { element < self.now.most }
        ensures { result ≡ nat_lt at (edge_of self.now element (suc (sizer self.now))) }
    {
        at < self.edge_at(element, self.sizer() + 1) as usize
    }

    /// Whether those bytes begin before another place, so many bytes on.
    fn said_from(&self, element: u32, at: usize, count: usize) -> bool
        requires says { says_sizes self.now ≡ true }
        requires few { element < self.now.most }
        ensures { result ≡ nat_lt (edge_of self.now element (sizer self.now)) (at + count) }
    {
        let from = self.edge_at(element, self.sizer()) as usize;
        from < at || from - at < count
    }

    /// How many of the first nodes an overwrite leaves, where elements say sizes: those before the first value of which it changes a byte.
    fn left_sized(&self, kept: u32, at: usize, count: usize) -> u32
        requires says { says_sizes self.now ≡ true }
        requires few { kept ≤ size_of self.now }
        ensures { Leaves (fold_of self.now) (Overwrite at count) kept result }
    {
        let element = self.said_before(at);
        if element == self.most {
            return kept;
        }
        if !self.said_from(element, at, count) {
            return kept;
        }
        kept.min(self.per * element + (self.per - 4))
    }

    /// How many of the first nodes an overwrite leaves.
    pub(crate) fn left_over(&self, kept: u32, at: usize, count: usize) -> u32
        requires { kept ≤ size_of self.now }
        ensures { Leaves (fold_of self.now) (Overwrite at count) kept result }
    {
        if self.says_sizes() {
            self.left_sized(kept, at, count)
        } else {
            kept
        }
    }
}
