//! The table of kept and open nodes.
ghost use Rattle.std.specs.List.{All, AllByRecursion, AllPairs, IsDistinct};
ghost use Rattle.std.specs.Prelude.{◌≡◌, ◌≢◌, ◌<◌, ◌≤◌, ◌+◌, ◌-◌, ◌^◌, max, ℕ, [], Some, length, true, false, option_map, nat_lt, IfOk, IfSome, IfNone, OnOk, OnErr};
ghost use Rattle.ksv_memo_links.specs.Touching.{AreWithin};
ghost use Rattle.ksv_memo_rules.specs.Meaning.{IsAddedTo, on};
ghost use Rattle.ksv_memo_rules.specs.Folds.{AreTold, BeginsAs, IsFold};
ghost use Rattle.ksv_memo_rules.specs.Right.{counted, nodes_of};
ghost use Rattle.ksv_memo.specs.Layout.{AreFrames, IsLaidOut};
ghost use Rattle.ksv_memo.specs.Nodes.{Asks, Closes, HasNoEntry, KeepsNode, MayKeep, MayLose, Opens, Seeks, Starts, Steps, TakesFirst, is_there, looks_of, nodes, nodes_with};
ghost use Rattle.ksv_memo.specs.Folding.{ClosesAs, IsFirst, IsLastAt, IsLastOut, IsNoneBelow, IsTold, LosesFirst};
ghost use Rattle.ksv_memo.specs.Moves.{Knows, with_slot};
ghost use Rattle.ksv_memo_links.specs.Shelved.{ticked};
ghost use Rattle.ksv_memo_rules.specs.Slots.{answer_in};
ghost use Rattle.ksv_memo.specs.Calls.{Runs};
ghost use Rattle.ksv_memo.specs.Open.{nodes_in};
ghost use Rattle.ksv_memo.specs.Lending.{AreTwo, is_lent_from};
ghost use Rattle.ksv_memo.specs.Sweep.{Sweeps, SweepsBy};
ghost use Rattle.ksv_memo.specs.Emptying.{IsEmptied};

use crate::frames::{Frames, frame_below, last_frame, least_place, number, open_new, reopen};
use crate::lendings::Lendings;
use crate::machine::turns::Turns;
use crate::slots::{Known, Slots, call, foldable_at, outcome_at, retell_at};
use crate::uses::{keep_by, keep_once};
use crate::vacancy::{open_in, vacant};
use ksv_bytes::{Buffer, Change};
use ksv_memo_links::Links;
use ksv_memo_rules::{Folds, Next, Outcome, Places, Reply, Rules, Slot};
use std::alloc::{AllocError, Global};
use std::marker::Model;

/// What came of looking for a node.
#[derive(Drop)]
enum Asked<N> {
    /// It is kept, in the slot of this number.
    Kept(usize),
    /// It was neither kept nor open, and is open now.
    Opened,
    /// This node, which was looked for, is open.
    Circle(N),
}

/// Opens a node that has no slot, right after the search for it.
#[inline(always)]
fn open_node<N: Eq + Drop, P: Places<N> + Drop, V: Drop, F: Drop>(
    slots: &mut Slots<N, P, V, F>,
    links: &mut Links,
    frames: &mut Frames<N>,
    node: N,
) -> Result<(), AllocError>
    requires laid { IsLaidOut slots.old.entries links.old frames.old }
    requires none { Knows N.eq slots.old.entries node Known.New }
    requires ends { P.ends slots.old.places node }
    ensures laid { IsLaidOut slots.new.entries links.new frames.new }
    ensures ok { OnOk result (Opens N.eq node (nodes_with slots.old.entries links.old frames.old) (nodes_with slots.new.entries links.new frames.new)) }
    ensures err { OnErr result (nodes_with slots.new.entries links.new frames.new ≡ nodes_with slots.old.entries links.old frames.old) }
    ensures grows { links.old.looks + slots.old.looks ≤ links.new.looks + slots.new.looks }
{
    match vacant(slots, links, frames) {
        Some(place) => {
            open_in(slots, frames, place, node)?;
            Ok(())
        }
        None => {
            links.reach(number(slots.len().saturating_add(1))?)?;
            open_new(slots, frames, node)?;
            Ok(())
        }
    }
}

/// Looks for a node, and opens it if it is neither kept nor open. Its number is searched for once, and once more
/// if it gets that of another node.
#[inline(always)]
fn seek<N: Eq + Drop, P: Places<N> + Drop, V: Drop, F: Drop>(
    slots: &mut Slots<N, P, V, F>,
    links: &mut Links,
    frames: &mut Frames<N>,
    node: N,
) -> Result<Asked<N>, AllocError>
    requires { IsLaidOut slots.old.entries links.old frames.old }
    ensures laid { IsLaidOut slots.new.entries links.new frames.new }
    ensures ok { IfOk result (Seeks N.eq node slots.new.entries (nodes_with slots.old.entries links.old frames.old) (nodes_with slots.new.entries links.new frames.new)) }
    ensures err { OnErr result (nodes_with slots.new.entries links.new frames.new ≡ nodes_with slots.old.entries links.old frames.old) }
    ensures grows { links.old.looks + slots.old.looks ≤ links.new.looks + slots.new.looks }
{
    match slots.find(&node) {
        Known::Kept(place) => Ok(Asked::Kept(place)),
        Known::Open => Ok(Asked::Circle(node)),
        Known::Empty(place) => {
            reopen(slots, frames, place, node)?;
            Ok(Asked::Opened)
        }
        Known::New => {
            open_node(slots, links, frames, node)?;
            Ok(Asked::Opened)
        }
    }
}

/// A kept answer as a slot.
#[inline(always)]
fn slot_of<V, F>(answer: Result<V, F>) -> Slot<V, F>
    ensures { answer_in result ≡ Some answer }
{
    match answer {
        Ok(value) => Slot::Value(value),
        Err(fault) => Slot::Fault(fault),
    }
}

/// One turn of the last open node, which is counted: a call of the rules with the replies that it got.
#[inline(always)]
fn run_last<R: Rules>(
    slots: &Slots<R::Node, R::Places, R::Value, R::Fault>,
    frames: &mut Frames<R::Node>,
    alloc: Global,
    rules: &R,
    bytes: &Buffer,
    turns: &mut Turns,
) -> Result<Next<R::Node, Reply<R>>, AllocError>
    requires there { is_there frames.old.frames.items ≡ true }
    requires waits { AreFrames slots.now.entries frames.old }
    ensures step { IfOk result (λ step. Runs (on (R.meaning rules.now) bytes.now) slots.now.entries frames.old frames.new step) }
    ensures frames { frames.new.frames ≡ frames.old.frames }
    ensures asked { frames.new.asked ≡ frames.old.asked }
    ensures refused { OnErr result (IsAddedTo frames.old.uses.items frames.new.uses.items) }
    ensures turns { turns.new ≡ counted 1 turns.old }
{
    let Some(frame) = last_frame(frames.frames.as_slice()) else {
        unreachable!()
    };
    let asked = &frames.asked[frame.asked as usize..];
    let node = frame.lend(turns);
    call(slots, asked, node, alloc, rules, bytes, &mut frames.uses)
}

/// The looks at links and slots so far. The count stops at 2^64 - 1.
fn looks_at<N: Eq + Drop, P: Places<N> + Drop, V: Drop, F: Drop>(
    slots: &Slots<N, P, V, F>,
    links: &Links,
) -> u64
    ensures { result ≡ looks_of links.now.looks slots.now.looks }
{
    links.looks().saturating_add(slots.looks())
}

/// Empties a slot. It is one look, and not more.
fn empty<N: Eq + Drop, P: Places<N> + Drop, V: Drop, F: Drop>(
    slots: &mut Slots<N, P, V, F>,
    place: usize,
)
    requires { place < length slots.old.entries }
    ensures slots { slots.new.entries ≡ with_slot slots.old.entries place Slot.Empty }
    ensures looks { slots.new.looks ≡ ticked slots.old.looks }
{
    slots.set(place, Slot::Empty);
}

/// Empties the slots that are to be taken.
fn empty_taken<N: Eq + Drop, P: Places<N> + Drop, V: Drop, F: Drop>(
    slots: &mut Slots<N, P, V, F>,
    links: &mut Links,
)
    requires inside { All (λ s. s < length slots.old.entries) links.old.waits }
    requires apart { AllPairs (λ (a b : ℕ). a ≢ b) links.old.waits }
    ensures { IsEmptied slots.old.entries slots.new.entries links.old links.new slots.old.looks slots.new.looks }
{
    while let Some(slot) = links.take() {
        empty(slots, slot as usize);
    }
}

/// Empties the slots that are to be taken. How many looks there were since this count; and no fewer than there are such slots.
fn swept<N: Eq + Drop, P: Places<N> + Drop, V: Drop, F: Drop>(
    slots: &mut Slots<N, P, V, F>,
    links: &mut Links,
    before: u64,
) -> u64
    requires inside { All (λ s. s < length slots.old.entries) links.old.waits }
    requires apart { AllPairs (λ (a b : ℕ). a ≢ b) links.old.waits }
    requires few { length links.old.waits < 2 ^ 32 }
    ensures emptied { IsEmptied slots.old.entries slots.new.entries links.old links.new slots.old.looks slots.new.looks }
    ensures looked { result ≡ max (looks_of links.new.looks slots.new.looks - before) (length links.old.waits) }
{
    let went = links.waiting();
    empty_taken(slots, links);
    let now = looks_at(slots, links);
    now.saturating_sub(before).max(went as u64)
}

/// The nodes that are kept and those that are open.
#[derive(Drop)]
pub struct Table<R: Rules> {
    slots: Slots<R::Node, R::Places, R::Value, R::Fault>,
    links: Links,
    frames: Frames<R::Node>,
}

impl<R: Rules> Model for Table<R> {
    ghost use Rattle.std.specs.Prelude.{Result};
    ghost use Rattle.ksv_memo.specs.Nodes.{Tabled, looks_of};
    ghost use Rattle.ksv_memo.specs.Layout.{IsLaidOut, entries_of, opens_of};

    ghost Value = { Tabled R.Node (Result R.Value R.Fault) };

    ghost view = { λ table. record { kept = entries_of table.slots.entries table.links; opened = opens_of table.slots.entries table.frames; looks = looks_of table.links.looks table.slots.looks } };

    ghost invariant = { λ table. IsLaidOut table.slots.entries table.links table.frames };
}

impl<R: Rules> Table<R> {
    /// The empty table, which takes no memory.
    pub(crate) fn new(alloc: Global) -> Self
        ensures { result ≡ record { kept = []; opened = []; looks = 0 } }
    {
        Table {
            slots: Slots::new(alloc),
            links: Links::new(alloc),
            frames: Frames {
                frames: Vec::new(alloc),
                asked: Vec::new(alloc),
                uses: Vec::new(alloc),
                has_grown: false,
            },
        }
    }

    /// The number of kept nodes.
    pub(crate) fn len(&self) -> usize
        ensures len { result ≡ length self.now.kept }
        ensures small { result < 2 ^ 63 }
    {
        // No more nodes are kept than there are slots.
        let _slots = self.slots.len();
        self.links.count()
    }

    /// Gives memory back that was taken for nodes whose numbers others have now, if it is much.
    #[inline(always)]
    pub(crate) fn tidy(&mut self)
        ensures nodes { nodes self.new ≡ nodes self.old }
        ensures grows { self.old.looks ≤ self.new.looks }
    {
        self.slots.tidy();
    }

    /// Starts a question for a node: its outcome if the node is kept or open; else the node is opened.
    pub(crate) fn start(
        &mut self,
        alloc: Global,
        rules: &R,
        node: R::Node,
    ) -> Result<Option<Outcome<R::Node, Reply<R>>>, AllocError>
        ensures ok { IfOk result (Starts R.Node.eq node (nodes self.old) (nodes self.new)) }
        ensures err { OnErr result (nodes self.new ≡ nodes self.old) }
        ensures grows { self.old.looks ≤ self.new.looks }
    {
        let came = seek(&mut self.slots, &mut self.links, &mut self.frames, node)?;
        match came {
            Asked::Kept(place) => outcome_at(alloc, rules, &self.slots, place),
            Asked::Opened => Ok(None),
            Asked::Circle(node) => Ok(Some(Outcome::Circle(node))),
        }
    }

    /// Asks for a node, which is given back if it is open. If it is kept, the last open node gets its answer; else it is
    /// opened.
    #[inline(always)]
    pub(crate) fn ask(&mut self, node: R::Node) -> Result<Option<R::Node>, AllocError>
        ensures ok { IfOk result (Asks R.Node.eq node (nodes self.old) (nodes self.new)) }
        ensures err { OnErr result (nodes self.new ≡ nodes self.old) }
        ensures grows { self.old.looks ≤ self.new.looks }
    {
        match seek(&mut self.slots, &mut self.links, &mut self.frames, node) {
            Ok(Asked::Kept(place)) => {
                self.frames.hear(place)?;
                Ok(None)
            }
            Ok(Asked::Opened) => Ok(None),
            Ok(Asked::Circle(node)) => Ok(Some(node)),
            Err(refused) => Err(refused),
        }
    }

    /// One call of the rules for the last open node, which is counted.
    #[inline(always)]
    pub(crate) fn turn(
        &mut self,
        alloc: Global,
        rules: &R,
        bytes: &Buffer,
        turns: &mut Turns,
    ) -> Result<Next<R::Node, Reply<R>>, AllocError>
        requires { is_there self.old.opened ≡ true }
        ensures step { IfOk result (λ step. Steps (on (R.meaning rules.now) bytes.now) self.old.opened self.new.opened step) }
        ensures kept { self.new.kept ≡ self.old.kept }
        ensures waiting { nodes_in self.new.opened ≡ nodes_in self.old.opened }
        ensures turns { turns.new ≡ counted 1 turns.old }
        ensures looks { self.new.looks ≡ self.old.looks }
    {
        run_last(&self.slots, &mut self.frames, alloc, rules, bytes, turns)
    }

    /// Keeps the last open node with its answer, which the one below gets, if there is one.
    #[inline(always)]
    pub(crate) fn close(&mut self, alloc: Global, answer: Reply<R>) -> Result<(), AllocError>
        requires { is_there self.old.opened ≡ true }
        ensures ok { OnOk result (Closes answer self.old.opened (nodes self.old) (nodes self.new)) }
        ensures err { OnErr result (MayKeep answer self.old.opened self.old.kept self.new.kept) }
        ensures waiting { OnErr result (MayLose self.old.opened self.new.opened) }
        ensures grows { self.old.looks ≤ self.new.looks }
    {
        let Some(frame) = last_frame(self.frames.frames.as_slice()) else {
            unreachable!()
        };
        let uses = &self.frames.uses[frame.uses as usize..];
        let asked = &self.frames.asked[frame.asked as usize..];
        let slot = frame.slot as usize;
        keep_once(alloc, &mut self.links, frame.slot, asked, uses)?;
        self.slots.set(slot, slot_of(answer));
        self.frames.take_last();
        if self.frames.frames.as_slice().is_empty() {
            return Ok(());
        }
        self.frames.hear(slot)?;
        Ok(())
    }

    /// Keeps the last open node, which is that of a number among nodes whose root is kept, by that root and its use there. The one below
    /// gets its answer, if there is one; whether that could be noted. If memory is refused for the node, it is taken out.
    #[cold]
    #[inline(never)]
    pub(crate) fn close_folded(
        &mut self,
        folded: &R::Fold,
        place: u32,
        answer: Reply<R>,
    ) -> Result<bool, AllocError>
        requires there { is_there self.old.opened ≡ true }
        requires root { KeepsNode R.Node.eq self.old.kept (R.Fold.fold folded.now).root }
        requires place_in { place < (R.Fold.fold folded.now).size }
        ensures ok { IfOk result (λ is_heard. ClosesAs (R.Fold.fold folded.now) place answer is_heard self.old.opened (nodes self.old) (nodes self.new)) }
        ensures err { OnErr result (LosesFirst (nodes self.old) (nodes self.new)) }
        ensures grows { self.old.looks ≤ self.new.looks }
    {
        let Known::Kept(root) = self.slots.find(folded.root()) else {
            unreachable!()
        };
        let Some(frame) = last_frame(self.frames.frames.as_slice()) else {
            unreachable!()
        };
        let number = frame.slot;
        let slot = number as usize;
        match keep_by(&mut self.links, number, root, folded.used(place)) {
            Ok(()) => {}
            Err(refused) => {
                self.slots.set(slot, Slot::Empty);
                self.frames.take_last();
                return Err(refused);
            }
        }
        self.slots.set(slot, slot_of(answer));
        self.frames.take_last();
        if self.frames.frames.as_slice().is_empty() {
            return Ok(true);
        }
        match self.frames.hear(slot) {
            Ok(()) => Ok(true),
            Err(_) => Ok(false),
        }
    }

    /// Whether a node is kept.
    pub(crate) fn holds(&mut self, node: &R::Node) -> bool
        ensures yes { result ≡ true → KeepsNode R.Node.eq self.old.kept node.now }
        ensures no { result ≡ false → HasNoEntry R.Node.eq self.old.kept node.now }
        ensures once { IsDistinct R.Node.eq (nodes_of self.old.kept) }
        ensures nodes { nodes self.new ≡ nodes self.old }
        ensures looks { self.new.looks ≤ self.old.looks + 1 }
        ensures fits { self.new.looks < 2 ^ 64 }
        ensures grows { self.old.looks ≤ self.new.looks }
    {
        matches!(self.slots.find(node), Known::Kept(_))
    }

    /// How many nodes can be kept by numbers alone over these bytes, where so many of the first are: none if their root isn't kept. It looks no farther than to
    /// a number.
    pub(crate) fn foldable(
        &mut self,
        rules: &R,
        folded: &R::Fold,
        bytes: &Buffer,
        kept: u32,
        sought: u32,
    ) -> u32
        ensures fold { IsTold (on (R.meaning rules.now) bytes.now) R.Node.eq self.old.kept (R.Fold.fold folded.now).root → AreTold (on (R.meaning rules.now) bytes.now) (R.Fold.fold folded.now) kept → IsFold (on (R.meaning rules.now) bytes.now) (R.Fold.fold folded.now) result }
        ensures nodes { nodes self.new ≡ nodes self.old }
        ensures grows { self.old.looks ≤ self.new.looks }
    {
        match self.slots.find(folded.root()) {
            Known::Kept(place) => {
                foldable_at(rules, &self.slots, place, folded, bytes, kept, sought)
            }
            _ => 0,
        }
    }

    /// Tells nodes that can be kept by numbers alone anew over these bytes, if their root is kept. So many of the first stay as they are. A node is asked next.
    pub(crate) fn retell(
        &mut self,
        folded: &mut R::Fold,
        bytes: &Buffer,
        kept: u32,
        asked: &R::Node,
    )
        requires { kept ≤ (R.Fold.fold folded.old).size }
        ensures begins { BeginsAs (R.Fold.fold folded.old) (R.Fold.fold folded.new) kept }
        ensures nodes { nodes self.new ≡ nodes self.old }
        ensures grows { self.old.looks ≤ self.new.looks }
    {
        match self.slots.find(folded.root()) {
            Known::Kept(place) => retell_at::<R>(&self.slots, place, folded, bytes, kept, asked),
            _ => {}
        }
    }

    /// The nodes that can be kept by numbers alone once the last open node, which the one below asked for, has this value over these bytes.
    pub(crate) fn fold(
        &self,
        alloc: Global,
        rules: &R,
        value: &R::Value,
        bytes: &Buffer,
    ) -> Result<Option<R::Fold>, AllocError>
        ensures { IfOk result (λ found. IfSome found (λ nodes. IsFirst (R.Fold.fold nodes).root self.now.opened)) }
    {
        let frames = self.frames.frames.as_slice();
        match last_frame(frames) {
            Some(frame) => frame.fold(rules, alloc, value, bytes, frame_below(frames)),
            None => Ok(None),
        }
    }

    /// The number of the last open node among nodes that can be kept by numbers alone.
    pub(crate) fn last_place(&self, folded: &R::Fold) -> Option<u32>
        ensures some { IfSome result (λ place. IsLastAt (R.Fold.fold folded.now) place self.now.opened) }
        ensures none { IfNone result (IsLastOut (R.Fold.fold folded.now) self.now.opened) }
    {
        match last_frame(self.frames.frames.as_slice()) {
            Some(frame) => frame.place_in(folded),
            None => None,
        }
    }

    /// The least number that an open node has among nodes that can be kept by numbers alone; this number, if none has a less one.
    pub(crate) fn least_open(&self, folded: &R::Fold, most: u32) -> u32
        requires { most ≤ (R.Fold.fold folded.now).size }
        ensures within { result ≤ most }
        ensures apart { AllByRecursion (λ waiting. IsNoneBelow (R.Fold.fold folded.now) result waiting.node) self.now.opened }
    {
        least_place(self.frames.frames.as_slice(), folded, most)
    }

    /// Takes the last open node out, if there is one.
    pub(crate) fn abandon(&mut self) -> bool
        ensures kept { self.new.kept ≡ self.old.kept }
        ensures rest { TakesFirst result self.old.opened self.new.opened }
        ensures grows { self.old.looks ≤ self.new.looks }
    {
        let Some(frame) = last_frame(self.frames.frames.as_slice()) else {
            return false;
        };
        self.slots.set(frame.slot as usize, Slot::Empty);
        self.frames.take_last();
        true
    }

    /// Whether an open node waits for the last one.
    pub(crate) fn waits(&self) -> bool
        ensures { result ≡ nat_lt 1 (length self.now.opened) }
    {
        self.frames.frames.as_slice().len() > 1
    }

    /// Takes out each kept node that a change touches or that asked one that goes, in its tree. No node is open. It takes
    /// no memory. The uses of kept nodes are within this many pages. An overwrite looks only near, and any other edit at
    /// what is after it. How many looks it took: what the count is now, less what it was; and no fewer than the nodes that went,
    /// where the count has stopped at 2^64 - 1.
    #[inline(always)]
    pub(crate) fn forget(&mut self, change: Change, pages: usize) -> u64
        requires opened { self.old.opened ≡ [] }
        requires within { AllByRecursion (λ entry. AreWithin pages entry.uses) self.old.kept }
        ensures kept { Sweeps change pages self.old.kept self.new.kept result }
        ensures opened { self.new.opened ≡ [] }
        ensures told { self.new.looks ≤ self.old.looks + result }
    {
        let before = looks_at(&self.slots, &self.links);
        self.frames.asked.clear();
        self.links.forget(change, pages, &[]);
        swept(&mut self.slots, &mut self.links, before)
    }

    /// The same, and so goes each of these nodes from one of a number on: all of them are kept, each once.
    #[cold]
    #[inline(never)]
    pub(crate) fn forget_lent(
        &mut self,
        change: Change,
        pages: usize,
        lent: &mut Lendings<R::Node>,
        left: u32,
    ) -> u64
        requires opened { self.old.opened ≡ [] }
        requires within { AllByRecursion (λ entry. AreWithin pages entry.uses) self.old.kept }
        requires lent { AllByRecursion (λ lending. KeepsNode R.Node.eq self.old.kept lending.node) lent.old.items }
        requires apart { AllPairs (AreTwo R.Node.eq) lent.old.items }
        ensures kept { SweepsBy (is_lent_from R.Node.eq left lent.old.items) change pages self.old.kept self.new.kept result }

        // There is room for two looks more.
        ensures room { SweepsBy (is_lent_from R.Node.eq left lent.old.items) change pages self.old.kept self.new.kept (result + 2) }
        ensures lent { lent.new.items ≡ lent.old.items }
        ensures opened { self.new.opened ≡ [] }
        ensures told { self.new.looks ≤ self.old.looks + result }
    {
        let first = looks_at(&self.slots, &self.links);
        self.frames.asked.clear();
        self.links.are_numbered();
        lent.find_from(left, &mut self.slots);
        self.links.forget(change, pages, lent.found());
        swept(&mut self.slots, &mut self.links, first)
    }
}
