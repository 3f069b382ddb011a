//! How many nodes the sequence has over some bytes.
#![tactic(auto)]

ghost use Rattle.std.specs.Prelude.{◌≡◌, ◌-◌, ◌<◌, ◌≤◌, ℕ, suc, true, false, [], Ok, IfSome, length};
ghost use Rattle.ksv_desc.specs.Whole.{plain_pieces};
ghost use Rattle.ksv_memo_rules.specs.Evaluation.{tells};
ghost use Rattle.ksv_memo_rules.specs.Meaning.{on};
ghost use Rattle.ksv_memo_rules.specs.declared.rules.Outcome.TheVariants.{Answered};
ghost use Rattle.ksv_nodes.specs.Reading.{end_in};
ghost use Rattle.ksv_nodes.specs.declared.given.Given.TheVariants as givens;
ghost use Rattle.ksv_nodes.specs.declared.given.Head.TheVariants as heads;
ghost use Rattle.ksv_rule_meaning.specs.Described.{described};
ghost use Rattle.ksv_memo_rules.specs.Folds.{AreTold, IsFold};
ghost use Rattle.ksv_list_laws.specs.Nodes.{is_last_at};
ghost use Rattle.ksv_folds.specs.declared.spot.Spot.{Spot};
ghost use Rattle.ksv_folds.specs.Layouts.{IsOf, AreWhole, WritesSize, AreSaidTo};
ghost use Rattle.ksv_folds.specs.Sequence.{says_sizes, index_of, fold_of, start_of, size_of};

use crate::part::Format;
use crate::plain_list::PlainList;
use crate::same::{is_head, same_list, same_object};
use crate::spot::Spot;
use ksv_bytes::{Buffer, Window};
use ksv_desc::Desc;
use ksv_expr_value::{Parts, Place, StreamEnd};
use ksv_nodes::{ELEMENT_LIMIT, Given, Head, List};
use ksv_rule_meaning::integer_value;

/// The number of the byte where a stream ends.
pub(crate) fn end_of(to: StreamEnd, bytes: &Buffer) -> usize
    ensures { result ≡ end_in bytes.now to }
{
    match to.get() {
        None => bytes.len(),
        Some(end) => end as usize,
    }
}

impl PlainList {
    /// Whether the numbers are of this list, which begins at a byte and isn't empty.
    pub(crate) fn is_of(&self, list: &List) -> bool
        ensures { result ≡ true → IsOf self.now list.now }
    {
        is_head(self.root.kind)
            && same_list(&self.list, list)
            && same_object(self.origin, list.origin)
            && list.start.is_same(Place::at_byte(self.first))
            && !list.is_empty
    }

    /// How many elements there are at most.
    fn at_most(&self, list: &List) -> u32
        ensures most { result ≤ self.now.most }
        ensures counted { IfSome list.now.count (λ all. result ≤ all) }
    {
        match list.count.get() {
            None => self.most,
            Some(count) => count.min(self.most),
        }
    }

    /// How many elements are whole, where they are of one size.
    pub(crate) fn whole_elements(&self, list: &List, bytes: &Buffer) -> u32
        requires { says_sizes self.now ≡ false }
        ensures { AreWhole self.now list.now bytes.now result }
    {
        let length = bytes.len();
        let end = end_of(list.stream.to, bytes);
        let first = self.first as usize;
        if length < end || end < first {
            return 0;
        }
        let most = self.at_most(list);
        let room = (end - first) / self.size as usize;
        if room < most as usize {
            room as u32
        } else {
            most
        }
    }

    /// Whether the bytes of a field write the size that its element says.
    fn writes_size(&self, bytes: &Buffer, element: u32) -> bool
        requires says { says_sizes self.now ≡ true }
        requires few { element < self.now.most }
        requires within { start_of self.now (suc element) ≤ length bytes.now }
        ensures { result ≡ true → WritesSize self.now bytes.now element }
    {
        let field = self.sizer();
        let from = self.edge_at(element, field) as usize;
        let to = self.edge_at(element, field + 1) as usize;
        if from + 8 < to {
            return false;
        }
        let (front, back) = bytes.parts(Window { from, to });
        let Format { is_signed, order } = self.format;
        integer_value(is_signed, order, Parts { front, back }) == i128::from(self.says(element))
    }

    /// How many of the first elements have a value among the first nodes.
    pub(crate) fn told_elements(&self, kept: u32) -> u32
        requires { says_sizes self.now ≡ true }
        ensures told { (i : ℕ) → i < result → index_of self.now (Spot.Value i) < kept }
        ensures all { (i : ℕ) → index_of self.now (Spot.Value i) < kept → i < result }
    {
        let whole = kept / self.per;
        if kept % self.per > self.per - 4 {
            whole + 1
        } else {
            whole
        }
    }

    /// How many of the first elements are looked at, so that the node of a number has been.
    fn sought_elements(&self, list: &List, sought: u32) -> u32
        ensures most { result ≤ self.now.most }
        ensures counted { IfSome list.now.count (λ all. result ≤ all) }
    {
        let most = self.at_most(list);
        if sought < self.elements_size() {
            most.min(sought / self.per + 2)
        } else {
            most
        }
    }

    /// How many of the first elements are whole and say their sizes, of those with a value among the first nodes, and those that are looked at.
    fn said_elements(&self, list: &List, bytes: &Buffer, kept: u32, sought: u32) -> u32
        requires { says_sizes self.now ≡ true }
        ensures whole { AreWhole self.now list.now bytes.now result }
        ensures said { AreSaidTo self.now bytes.now kept result }
    {
        let end = end_of(list.stream.to, bytes);
        let most = self.sought_elements(list, sought);
        let mut whole = self.told_elements(kept).min(most);
        if bytes.len() < end || self.start(whole) as usize > end {
            return 0;
        }
        while whole < most
            && self.start(whole + 1) as usize <= end
            && self.writes_size(bytes, whole)
        {
            whole += 1;
        }
        whole
    }

    /// How many of the first elements are whole, and say their sizes where they do.
    fn elements(&self, list: &List, bytes: &Buffer, kept: u32, sought: u32) -> u32
        ensures whole { AreWhole self.now list.now bytes.now result }
        ensures said { AreSaidTo self.now bytes.now kept result }
    {
        if self.says_sizes() {
            self.said_elements(list, bytes, kept, sought)
        } else {
            self.whole_elements(list, bytes)
        }
    }

    /// Whether a list of so many elements ends with the last of them, where these are whole.
    pub(crate) fn ends_with(&self, list: &List, bytes: &Buffer, elements: u32) -> bool
        requires some { 0 < elements }
        requires few { elements ≤ self.now.most }
        ensures { result ≡ is_last_at list.now.count bytes.now list.now.stream.to (elements - 1) (start_of self.now elements) }
    {
        match list.count.get() {
            Some(count) => count == elements,
            None => end_of(list.stream.to, bytes) <= self.start(elements) as usize,
        }
    }

    /// How many nodes there are of elements and behind them.
    fn size(&self) -> u32
        requires { self.now.closed ≡ true }
        ensures { result ≡ size_of self.now }
    {
        if self.missing {
            self.elements_size() + 2 * (ELEMENT_LIMIT - self.most)
        } else {
            self.elements_size() + self.most
        }
    }

    /// How many nodes the sequence has over these bytes, where the list's head still gives this list, and so many of the first nodes are kept. It looks no farther
    /// than to the node of a number.
    fn count_in(&self, desc: &Desc, list: &List, bytes: &Buffer, kept: u32, sought: u32) -> u32
        ensures { (tells (on (described (plain_pieces desc.now)) bytes.now) [] (fold_of self.now).root).outcome ≡ Answered (Ok (givens.Head (heads.List list.now))) → AreTold (on (described (plain_pieces desc.now)) bytes.now) (fold_of self.now) kept → IsFold (on (described (plain_pieces desc.now)) bytes.now) (fold_of self.now) result }
    {
        if !self.is_of(list) || !self.has_layout(desc, list) {
            return 0;
        }
        let whole = self.elements(list, bytes, kept, sought);
        if whole == 0 {
            return 0;
        }
        let ends = self.ends_with(list, bytes, whole);
        if ends != self.is_closing(whole - 1) {
            return self.per * (whole - 1);
        }
        if ends { self.size() } else { self.per * whole }
    }

    /// How many nodes the sequence has over these bytes, where the list's head still gives this, and so many of the first nodes are kept. It looks no farther than
    /// to the node of a number.
    pub fn count(&self, desc: &Desc, given: &Given, bytes: &Buffer, kept: u32, sought: u32) -> u32
        ensures { (tells (on (described (plain_pieces desc.now)) bytes.now) [] (fold_of self.now).root).outcome ≡ Answered (Ok given.now) → AreTold (on (described (plain_pieces desc.now)) bytes.now) (fold_of self.now) kept → IsFold (on (described (plain_pieces desc.now)) bytes.now) (fold_of self.now) result }
    {
        match given {
            Given::Head(Head::List(list)) => self.count_in(desc, list, bytes, kept, sought),
            _ => 0,
        }
    }
}
