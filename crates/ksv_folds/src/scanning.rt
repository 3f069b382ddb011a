//! Finds where elements begin that say the size of their last field.
#![tactic(auto)]

ghost use Rattle.std.specs.Prelude.{◌≡◌, ◌+◌, ◌-◌, ◌<◌, ◌≤◌, ℕ, true, length, take, IfSome};
ghost use Rattle.ksv_expr_value.specs.Places.{end_limit};
ghost use Rattle.ksv_folds.specs.Parts.{are_apart, nth};

use crate::part::Format;
use ksv_bytes::{Buffer, Window};
use ksv_expr_value::Parts;
use ksv_rule_meaning::integer_value;

/// The last place of a file.
pub(crate) const LAST_BYTE: u32 = 16_777_216;

/// How an element says the size of its last field.
#[derive(Clone, Copy)]
pub(crate) struct Saying {
    /// How many bytes of an element are before the field that says it.
    pub from: u32,
    /// How many bytes of it are before the last field.
    pub size: u32,
    /// How that number is written.
    pub format: Format,
}

impl Saying {
    /// Where an element ends that begins at a place; none if it isn't whole up to another place, or says no size.
    fn end_of(self, bytes: &Buffer, start: u32, end: usize) -> Option<u32>
        requires { start ≤ end_limit }
        ensures { IfSome result (λ to. (start + self.size ≤ to) × (to ≤ end_limit)) }
    {
        let from = start as usize + self.from as usize;
        let to = start as usize + self.size as usize;
        if to > end || end > bytes.len() || from > to || to - from > 8 {
            return None;
        }
        let (front, back) = bytes.parts(Window { from, to });
        let Format { is_signed, order } = self.format;
        let said = integer_value(is_signed, order, Parts { front, back });
        if said < 0 || said > i128::from(LAST_BYTE) {
            return None;
        }
        let next = to + said as usize;
        if next > end || next > LAST_BYTE as usize {
            return None;
        }
        Some(next as u32)
    }

    /// Adds where the elements end that are behind the last place, as long as they are whole, say sizes, and there aren't so many places.
    pub(crate) fn add_starts(self, starts: &mut Vec<u32>, bytes: &Buffer, end: usize, limit: usize)
        requires some { 0 < length starts.old.items }
        requires few { length starts.old.items ≤ limit }
        requires apart { are_apart self.size 0 starts.old.items ≡ true }
        requires room { nth starts.old.items (length starts.old.items - 1) ≤ end_limit }
        ensures kept { take (length starts.old.items) starts.new.items ≡ starts.old.items }
        ensures some { length starts.old.items ≤ length starts.new.items }
        ensures few { length starts.new.items ≤ limit }
        ensures apart { are_apart self.size 0 starts.new.items ≡ true }
        ensures room { nth starts.new.items (length starts.new.items - 1) ≤ end_limit }
    {
        while starts.len() < limit {
            let last = starts[starts.len() - 1];
            let Some(next) = self.end_of(bytes, last, end) else {
                return;
            };
            if starts.push(next).is_err() {
                return;
            }
        }
    }

    /// Sets the last place to where the last element ends, if its bytes say so.
    #[tactic(auto, using(crate::proofs::Scanned::apart_set, crate::proofs::Scanned::nth_before, crate::proofs::Scanned::nth_set))]
    fn set_last(self, starts: &mut Vec<u32>, element: usize, bytes: &Buffer, end: usize)
        requires last { element + 2 ≡ length starts.old.items }
        requires apart { are_apart self.size 0 starts.old.items ≡ true }
        requires from { nth starts.old.items element ≤ end_limit }
        requires room { nth starts.old.items (element + 1) ≤ end_limit }
        ensures same { (i : ℕ) → i ≤ element → nth starts.new.items i ≡ nth starts.old.items i }
        ensures count { length starts.new.items ≡ length starts.old.items }
        ensures apart { are_apart self.size 0 starts.new.items ≡ true }
        ensures room { nth starts.new.items (element + 1) ≤ end_limit }
    {
        if let Some(next) = self.end_of(bytes, starts[element], end) {
            starts[element + 1] = next;
        }
    }

    /// Leaves the places up to that of an element, and one more, which is set to where the element ends, if its bytes say so.
    #[tactic(auto, using(crate::proofs::Scanned::apart_first, crate::proofs::Scanned::nth_first))]
    fn cut(self, starts: &mut Vec<u32>, element: usize, bytes: &Buffer, end: usize)
        requires last { element + 2 ≤ length starts.old.items }
        requires apart { are_apart self.size 0 starts.old.items ≡ true }
        requires room { (i : ℕ) → i < length starts.old.items → nth starts.old.items i ≤ end_limit }
        ensures same { (i : ℕ) → i ≤ element → nth starts.new.items i ≡ nth starts.old.items i }
        ensures count { length starts.new.items ≡ element + 2 }
        ensures apart { are_apart self.size 0 starts.new.items ≡ true }
        ensures room { nth starts.new.items (element + 1) ≤ end_limit }
    {
        starts.truncate(element + 2);
        self.set_last(starts, element, bytes, end);
    }

    /// Adds places as far as they take no more memory, and there aren't more than so many.
    #[tactic(auto, using(crate::proofs::Scanned::nth_kept))]
    fn add_free(self, starts: &mut Vec<u32>, bytes: &Buffer, end: usize, limit: usize)
        requires some { 0 < length starts.old.items }
        requires few { length starts.old.items ≤ limit }
        requires apart { are_apart self.size 0 starts.old.items ≡ true }
        requires room { nth starts.old.items (length starts.old.items - 1) ≤ end_limit }
        ensures same { (i : ℕ) → i < length starts.old.items → nth starts.new.items i ≡ nth starts.old.items i }
        ensures some { length starts.old.items ≤ length starts.new.items }
        ensures few { length starts.new.items ≤ limit }
        ensures apart { are_apart self.size 0 starts.new.items ≡ true }
        ensures room { nth starts.new.items (length starts.new.items - 1) ≤ end_limit }
    {
        let most = limit.min(starts.capacity()).max(starts.len());
        self.add_starts(starts, bytes, end, most);
    }

    /// Tells anew where elements end, from one on, and how many there are, of no more than so many.
    pub(crate) fn renew(
        self,
        starts: &mut Vec<u32>,
        element: usize,
        bytes: &Buffer,
        end: usize,
        limit: usize,
    )
        requires some { element < length starts.old.items }
        requires few { length starts.old.items ≤ limit }
        requires apart { are_apart self.size 0 starts.old.items ≡ true }
        requires room { (i : ℕ) → i < length starts.old.items → nth starts.old.items i ≤ end_limit }
        ensures same { (i : ℕ) → i ≤ element → nth starts.new.items i ≡ nth starts.old.items i }
        ensures some { element < length starts.new.items }
        ensures more { element + 2 ≤ length starts.old.items → element + 2 ≤ length starts.new.items }
        ensures few { length starts.new.items ≤ limit }
        ensures apart { are_apart self.size 0 starts.new.items ≡ true }
        ensures room { nth starts.new.items (length starts.new.items - 1) ≤ end_limit }
    {
        if element + 2 <= starts.len() {
            self.cut(starts, element, bytes, end);
        }
        self.add_free(starts, bytes, end, limit);
    }
}
