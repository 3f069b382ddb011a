//! The slots of nodes, each reaching of one counted, and calls of rules, which alone are lent them.
ghost use Rattle.std.specs.Prelude.{◌≡◌, ◌<◌, ◌≤◌, ◌^◌, ◌++◌, ◌∷◌, [], length, slice_set, true, false, option_map, Some, None, IfOk, OnOk, OnErr, IfSome, IfNone};
ghost use Rattle.std.specs.List.{AllByRecursion, list_any, zip, IsDistinct};
ghost use Rattle.std.specs.Map.{keys_of};
ghost use Rattle.ksv_memo_links.specs.Shelved.{ticked, ticked_by};
ghost use Rattle.ksv_memo.specs.Layout.{slots_of};
ghost use Rattle.ksv_memo.specs.Folding.{TellsFold};
ghost use Rattle.ksv_memo.specs.Moves.{with_slot, IsVacant, Knows};
ghost use Rattle.ksv_memo_rules.specs.Folds.{BeginsAs};
ghost use Rattle.ksv_memo_rules.specs.Meaning.{IsAddedTo, on};
ghost use Rattle.ksv_memo_rules.specs.Slots.{HasAnswer, answer_at, answers_at};

use ksv_bytes::{Buffer, Use};
use ksv_memo_rules::{Folds, Lent, Next, Outcome, Places, Replies, Reply, Rules, Slot, answer_at};
use std::alloc::{AllocError, Global};
use std::marker::{Model, PhantomData};

/// What the slots have of a node.
#[derive(Clone, Copy)]
pub enum Known {
    /// No slot is its.
    New,
    /// Its slot has this number, and nothing is in it.
    Empty(usize),
    /// It is open.
    Open,
    /// It is kept, in the slot of this number.
    Kept(usize),
}

/// The slots of nodes. A node's slot has the node's number, which doesn't change while something is in it.
///
/// Each call that looks a node up, adds one or writes a slot is one look, and none does more; looking for a slot with nothing
/// in it is one for each slot that is seen, and giving it to another node two. The count only grows, until it stops at 2^64 - 1: no
/// call sets it back. The slots are lent to rules alone, which isn't counted: by [`outcome_at`] and [`call`], which no code can
/// call that has no rules, as forgetting.
#[derive(Drop)]
pub(crate) struct Slots<N: Eq + Drop, P: Places<N> + Drop, V: Drop, F: Drop> {
    /// The numbers of the nodes.
    places: P,
    /// What is in the slot of each node, in the order of their numbers.
    slots: Vec<Slot<V, F>>,
    looks: u64,
    /// Where a slot with nothing in it is looked for.
    cursor: usize,
    node: PhantomData<N>,
}

impl<N: Eq + Drop, P: Places<N> + Drop, V: Drop, F: Drop> Model for Slots<N, P, V, F> {
    ghost use Rattle.std.specs.Prelude.{◌≡◌, length};
    ghost use Rattle.std.specs.List.{zip};
    ghost use Rattle.ksv_memo.specs.Slotted.{Slotted};

    ghost Value = { Slotted N P V F };

    ghost view = { λ slots. record { entries = zip (P.nodes slots.places) slots.slots.items; looks = slots.looks; places = slots.places } };

    ghost invariant = { λ slots. length slots.slots.items ≡ length (P.nodes slots.places) };
}

impl<N: Eq + Drop, P: Places<N> + Drop, V: Drop, F: Drop> Slots<N, P, V, F> {
    /// No slots, which take no memory.
    pub(crate) fn new(alloc: Global) -> Self
        ensures entries { result.entries ≡ [] }
        ensures looks { result.looks ≡ 0 }
    {
        Slots {
            places: P::new(alloc),
            slots: Vec::new(alloc),
            looks: 0,
            cursor: 0,
            node: PhantomData,
        }
    }

    /// The looks so far.
    pub(crate) fn looks(&self) -> u64
        ensures { result ≡ self.now.looks }
    {
        self.looks
    }

    #[inline(always)]
    fn look(&mut self)
        ensures entries { self.new.entries ≡ self.old.entries }
        ensures looks { self.new.looks ≡ ticked self.old.looks }
        ensures grows { self.old.looks ≤ self.new.looks }
        ensures places { self.new.places ≡ self.old.places }
    {
        self.looks = self.looks.saturating_add(1);
    }

    /// The number of slots, which isn't counted.
    pub(crate) fn len(&self) -> usize
        ensures len { result ≡ length self.now.entries }
        ensures small { result < 2 ^ 63 }
    {
        self.slots.as_slice().len()
    }

    /// What the slots have of a node.
    #[inline(always)]
    pub(crate) fn find(&mut self, node: &N) -> Known
        ensures knows { Knows N.eq self.new.entries node.now result }
        ensures ends { P.ends self.new.places node.now }
        ensures unique { IsDistinct N.eq (keys_of self.new.entries) }
        ensures entries { self.new.entries ≡ self.old.entries }
        ensures looks { self.new.looks ≡ ticked self.old.looks }
        ensures grows { self.old.looks ≤ self.new.looks }
    {
        self.look();
        look_up(&mut self.places, self.slots.as_slice(), node)
    }

    /// Writes the slot of a number.
    #[inline(always)]
    pub(crate) fn set(&mut self, place: usize, new: Slot<V, F>)
        requires { place < length self.old.entries }
        ensures slots { self.new.entries ≡ with_slot self.old.entries place new }
        ensures looks { self.new.looks ≡ ticked self.old.looks }
        ensures grows { self.old.looks ≤ self.new.looks }
    {
        self.look();
        write(&mut self.slots, place, new);
    }

    /// A slot for a node that has none, open, right after the search for it.
    #[inline(always)]
    pub(crate) fn add(&mut self, node: &N) -> Result<(), AllocError>
        requires none { list_any (λ p. N.eq node.now p.0) self.old.entries ≡ false }
        requires ends { P.ends self.old.places node.now }
        ensures ok { OnOk result (self.new.entries ≡ self.old.entries ++ (node.now, Slot.Open) ∷ []) }
        ensures err { OnErr result (self.new.entries ≡ self.old.entries) }
        ensures looks { self.new.looks ≡ ticked self.old.looks }
        ensures grows { self.old.looks ≤ self.new.looks }
    {
        self.looks = self.looks.saturating_add(1);
        self.slots.reserve(1)?;
        self.places.add(node)?;
        self.slots.push_reserved(Slot::Open);
        Ok(())
    }

    /// Whether nothing is in the slot of a number.
    fn is_vacant(&self, place: usize) -> bool
        ensures { result ≡ true → IsVacant self.now.entries place }
    {
        match self.slots.as_slice().get(place) {
            Some(slot) => matches!(slot, Slot::Empty),
            None => false,
        }
    }

    /// The first slot with nothing in it, from one of a number on.
    fn empty_from(&mut self, from: usize) -> Option<usize>
        ensures some { IfSome result (IsVacant self.old.entries) }
        ensures entries { self.new.entries ≡ self.old.entries }
        ensures places { self.new.places ≡ self.old.places }
        ensures grows { self.old.looks ≤ self.new.looks }
    {
        for place in from..self.len() {
            self.look();
            if self.is_vacant(place) {
                return Some(place);
            }
        }
        None
    }

    /// A slot with nothing in it, if there is one: the first after the one that was found before, or the first of all. So those
    /// that are given to nodes one after the other lie beside each other.
    #[cold]
    #[inline(never)]
    pub(crate) fn vacant(&mut self) -> Option<usize>
        ensures some { IfSome result (IsVacant self.old.entries) }
        ensures entries { self.new.entries ≡ self.old.entries }
        ensures places { self.new.places ≡ self.old.places }
        ensures grows { self.old.looks ≤ self.new.looks }
    {
        let mut found = self.empty_from(self.cursor);
        if found.is_none() {
            found = self.empty_from(0);
        }
        let place = found?;
        self.cursor = place;
        Some(place)
    }

    /// Gives a slot to a node that has none, open. The node that had it has none then.
    pub(crate) fn give(&mut self, place: usize, node: &N) -> Result<(), AllocError>
        requires none { list_any (λ p. N.eq node.now p.0) self.old.entries ≡ false }
        requires place_in { place < length self.old.entries }
        ensures ok { OnOk result (self.new.entries ≡ slice_set self.old.entries place (node.now, Slot.Open)) }
        ensures err { OnErr result (self.new.entries ≡ self.old.entries) }
        ensures looks { self.new.looks ≡ ticked_by self.old.looks 2 }
        ensures grows { self.old.looks ≤ self.new.looks }
    {
        self.looks = self.looks.saturating_add(2);
        self.places.give(place, node)?;
        write(&mut self.slots, place, Slot::Open);
        Ok(())
    }

    /// Gives memory of numbers back, if it is much. It may go over all numbers, so how many looks it takes isn't promised, as of
    /// [`Slots::vacant`]: what promises few looks can't call it.
    #[inline(always)]
    pub(crate) fn tidy(&mut self)
        ensures entries { self.new.entries ≡ self.old.entries }
        ensures grows { self.old.looks ≤ self.new.looks }
    {
        self.places.tidy();
    }

    /// The slots by their numbers, lent to rules.
    #[inline(always)]
    fn lend(&self) -> &[Slot<V, F>]
        ensures { result.now ≡ slots_of self.now.entries }
    {
        self.slots.as_slice()
    }
}

/// Writes the slot at a place.
#[inline(always)]
fn write<V: Drop, F: Drop>(slots: &mut Vec<Slot<V, F>>, place: usize, new: Slot<V, F>)
    requires { place < length slots.old.items }
    ensures { slots.new.items ≡ slice_set slots.old.items place new }
{
    slots[place] = new;
}

/// What numbers and their slots have of a node.
#[inline(always)]
fn look_up<N: Eq + Drop, P: Places<N>, V: Drop, F: Drop>(
    places: &mut P,
    slots: &[Slot<V, F>],
    node: &N,
) -> Known
    requires { length slots.now ≡ length (P.nodes places.old) }
    ensures knows { Knows N.eq (zip (P.nodes places.new) slots.now) node.now result }
    ensures ends { P.ends places.new node.now }
    ensures nodes { P.nodes places.new ≡ P.nodes places.old }
    ensures unique { IsDistinct N.eq (keys_of (zip (P.nodes places.new) slots.now)) }
{
    match places.find(node) {
        None => Known::New,
        Some(place) => match &slots[place] {
            Slot::Empty => Known::Empty(place),
            Slot::Open => Known::Open,
            Slot::Value(_) => Known::Kept(place),
            Slot::Fault(_) => Known::Kept(place),
        },
    }
}

/// The answer in the slot of a number, copied by the rules, if there is one.
pub(crate) fn outcome_at<R: Rules>(
    alloc: Global,
    rules: &R,
    slots: &Slots<R::Node, R::Places, R::Value, R::Fault>,
    place: usize,
) -> Result<Option<Outcome<R::Node, Reply<R>>>, AllocError>
    ensures { IfOk result (λ outcome. outcome ≡ option_map (λ a. Outcome.Answered a) (answer_at (slots_of slots.now.entries) place)) }
{
    match answer_at(slots.lend(), place) {
        Some(answer) => Ok(Some(Outcome::Answered(rules.copy_answer(alloc, answer)?))),
        None => Ok(None),
    }
}

/// How many nodes can be kept by numbers alone over these bytes, whose root has its answer in the slot of a number, where so many of the first are. It looks no
/// farther than to a number.
pub(crate) fn foldable_at<R: Rules>(
    rules: &R,
    slots: &Slots<R::Node, R::Places, R::Value, R::Fault>,
    place: usize,
    nodes: &R::Fold,
    bytes: &Buffer,
    kept: u32,
    sought: u32,
) -> u32
    ensures { TellsFold (on (R.meaning rules.now) bytes.now) (R.Fold.fold nodes.now) (answer_at (slots_of slots.now.entries) place) kept result }
{
    match answer_at(slots.lend(), place) {
        Some(Ok(value)) => rules.foldable(nodes, value, bytes, kept, sought),
        _ => 0,
    }
}

/// Tells nodes anew over these bytes, whose root has its answer in the slot of a number. So many of the first stay as they are. A node is asked next.
pub(crate) fn retell_at<R: Rules>(
    slots: &Slots<R::Node, R::Places, R::Value, R::Fault>,
    place: usize,
    nodes: &mut R::Fold,
    bytes: &Buffer,
    kept: u32,
    asked: &R::Node,
)
    requires { kept ≤ (R.Fold.fold nodes.old).size }
    ensures { BeginsAs (R.Fold.fold nodes.old) (R.Fold.fold nodes.new) kept }
{
    match answer_at(slots.lend(), place) {
        Some(Ok(value)) => nodes.retell(value, bytes, kept, asked),
        _ => {}
    }
}

/// One call of the rules for a node that is lent, with the replies in the slots of these numbers. Nobody else calls `next`, and it
/// takes the node: so there is one call for each node that is lent, and a frame lends its node by a count of turns
/// (`Frame::lend`).
#[inline(always)]
pub(crate) fn call<R: Rules>(
    slots: &Slots<R::Node, R::Places, R::Value, R::Fault>,
    asked: &[u32],
    node: Lent<'_, R::Node>,
    alloc: Global,
    rules: &R,
    bytes: &Buffer,
    uses: &mut Vec<Use>,
) -> Result<Next<R::Node, Reply<R>>, AllocError>
    requires { AllByRecursion (HasAnswer (slots_of slots.now.entries)) asked.now }
    ensures step { IfOk result (λ step. step ≡ (R.meaning rules.now).follow bytes.now node.entry (answers_at (slots_of slots.now.entries) asked.now)) }
    ensures uses { OnOk result (uses.new.items ≡ uses.old.items ++ (R.meaning rules.now).added bytes.now node.entry (answers_at (slots_of slots.now.entries) asked.now)) }
    ensures refused { OnErr result (IsAddedTo uses.old.items uses.new.items) }
{
    let replies = Replies::new(slots.lend(), asked);
    rules.next(alloc, node, bytes, &replies, uses)
}
