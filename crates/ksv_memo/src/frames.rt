//! What open nodes asked and used, by frames.
ghost use Rattle.std.specs.Prelude.{◌≡◌, ◌<◌, ◌≤◌, ◌++◌, ◌∷◌, ℕ, [], length, false, IfOk, IfSome, IfNone, OnOk, OnErr};
ghost use Rattle.std.specs.List.{AllByRecursion, list_any};
ghost use Rattle.ksv_memo_rules.specs.Right.{counted};
ghost use Rattle.ksv_memo.specs.Folding.{IsNoneBelow};
ghost use Rattle.ksv_memo.specs.Moves.{with_slot, Heard, SameFrames, IsPart, IsNewFrame, Popped, Framed, EndsWith};

use crate::machine::turns::Turns;
use crate::slots::Slots;
use ksv_bytes::{Buffer, Use};
use ksv_memo_rules::{Folds, Held, Lent, Places, Rules, Slot};
use std::alloc::{AllocError, Global};

/// An open node, the number of its slot, and where its part of what open nodes asked and used begins. The node is lent for one
/// turn at a time, by a count.
#[derive(Drop)]
pub struct Frame<N> {
    node: Held<N>,
    pub slot: u32,
    pub asked: u32,
    pub uses: u32,
}

impl<N> Frame<N> {
    /// The node, lent for one turn, which is counted.
    #[inline(always)]
    pub(crate) fn lend(&self, turns: &mut Turns) -> Lent<'_, N>
        ensures node { result ≡ self.now.node }
        ensures turns { turns.new ≡ counted 1 turns.old }
    {
        turns.add();
        self.node.lend()
    }

    /// The number of its node among nodes that can be kept by numbers alone.
    pub(crate) fn place_in<V, F, S: Folds<N, V, F>>(&self, nodes: &S) -> Option<u32>
        ensures in_size { IfSome result (λ j. j < (S.fold nodes.now).size) }
        ensures some { IfSome result (λ j. ((S.fold nodes.now).entry j).node ≡ self.now.node) }
        ensures none { IfNone result ((j : ℕ) → j < (S.fold nodes.now).size → ((S.fold nodes.now).entry j).node ≡ self.now.node → ⊥) }
    {
        self.node.place_in(nodes)
    }

    /// The nodes that can be kept by numbers alone once its node has this value over these bytes, where the node of this one asked for it.
    pub(crate) fn fold<R: Rules<Node = N>>(
        &self,
        rules: &R,
        alloc: Global,
        value: &R::Value,
        bytes: &Buffer,
        asker: Option<&Frame<N>>,
    ) -> Result<Option<R::Fold>, AllocError>
        ensures { IfOk result (λ found. IfSome found (λ nodes. (R.Fold.fold nodes).root ≡ self.now.node)) }
    {
        let asker = match asker {
            Some(frame) => Some(&frame.node),
            None => None,
        };
        self.node.fold(rules, alloc, value, bytes, asker)
    }
}

/// The least number that an open node has among nodes that can be kept by numbers alone; this number, if none has a less one.
pub(crate) fn least_place<N, V, F, S: Folds<N, V, F>>(
    frames: &[Frame<N>],
    nodes: &S,
    most: u32,
) -> u32
    requires { most ≤ (S.fold nodes.now).size }
    ensures within { result ≤ most }
    ensures apart { AllByRecursion (λ frame. IsNoneBelow (S.fold nodes.now) result frame.node) frames.now }
{
    let mut least = most;
    for frame in frames {
        match frame.place_in(nodes) {
            Some(place) => least = least.min(place),
            None => {}
        }
    }
    least
}

/// A frame without its node: the number of its slot, and where its part of what open nodes asked and used begins.
#[derive(Clone, Copy)]
pub struct Part {
    pub slot: u32,
    pub asked: u32,
    pub uses: u32,
}

impl Part {
    /// The frame of this part, with its node.
    #[inline(always)]
    pub(crate) fn frame<N>(self, node: N) -> Frame<N>
        ensures node { result.node ≡ node }
        ensures slot { result.slot ≡ self.slot }
        ensures asked { result.asked ≡ self.asked }
        ensures uses { result.uses ≡ self.uses }
    {
        Frame {
            node: Held::new(node),
            slot: self.slot,
            asked: self.asked,
            uses: self.uses,
        }
    }
}

/// The open nodes, the one that is run last; the slots that they asked, and the uses of their calls, with repeats.
#[derive(Drop)]
pub struct Frames<N> {
    pub frames: Vec<Frame<N>>,
    pub asked: Vec<u32>,
    pub uses: Vec<Use>,
    /// Whether a node got a slot more since no node was open: so answers are kept in memory that wasn't taken yet.
    pub has_grown: bool,
}

/// A number in 32 bits. A larger one is refused, as memory for this many would be.
#[inline(always)]
pub(crate) fn number(count: usize) -> Result<u32, AllocError>
    ensures { IfOk result (λ number. number ≡ count) }
{
    if count > u32::MAX as usize {
        return Err(AllocError);
    }
    Ok(count as u32)
}

/// How many nodes are closed before the memory that open nodes took is looked at; and how many items have room at least.
const FEW: usize = 256;

/// Gives back memory of items that are no more, if it is much: all but that of an eighth of those that there are, and of a few.
/// Where that is refused, it isn't given back this time.
fn shrink<T: Drop>(items: &mut Vec<T>)
    ensures { items.new.items ≡ items.old.items }
{
    let len = items.as_slice().len();
    let spare = len / 8;
    let room = len.saturating_add(spare).saturating_add(FEW);
    if items.capacity() > room.saturating_add(spare) {
        items.shrink_to(room);
    }
}

/// The frame of the last open node, of the frames of all.
#[inline(always)]
pub(crate) fn last_frame<N>(frames: &[Frame<N>]) -> Option<&Frame<N>>
    ensures some { IfSome result (λ frame. EndsWith frame.now frames.now) }
    ensures none { IfNone result (frames.now ≡ []) }
{
    frames.last()
}

/// The frame of the node that asked for the last open one, if there is one. Nothing is told of it, as no answer rests on it.
pub(crate) fn frame_below<N>(frames: &[Frame<N>]) -> Option<&Frame<N>> {
    frames.get(frames.len().checked_sub(2)?)
}

impl<N: Drop> Frames<N> {
    /// Notes that the last open node got the reply in the slot of a number.
    #[inline(always)]
    pub(crate) fn hear(&mut self, place: usize) -> Result<(), AllocError>
        ensures ok { OnOk result (Heard place self.old self.new) }
        ensures err { OnErr result (SameFrames self.old self.new) }
    {
        self.asked.push(number(place)?)?;
        Ok(())
    }

    /// The part of a node that is opened now, in the slot of a number.
    #[inline(always)]
    pub(crate) fn part(&self, place: usize) -> Result<Part, AllocError>
        ensures { IfOk result (IsPart place self.now) }
    {
        let slot = number(place)?;
        let asked = number(self.asked.len())?;
        let uses = number(self.uses.len())?;
        Ok(Part { slot, asked, uses })
    }

    /// Takes out the last open node, if there is one, with what it asked and used.
    #[inline(always)]
    pub(crate) fn take_last(&mut self)
        ensures { (frame : Frame N) → EndsWith frame self.old.frames.items → Popped frame self.old self.new }
    {
        if let Some(frame) = self.frames.pop() {
            self.asked.truncate(frame.asked as usize);
            self.uses.truncate(frame.uses as usize);
            if self.has_grown && self.frames.as_slice().len() % FEW == 0 {
                self.shrink();
            }
        }
    }

    /// Gives back memory of nodes that are no longer open.
    #[cold]
    #[inline(never)]
    fn shrink(&mut self)
        ensures { SameFrames self.old self.new }
    {
        shrink(&mut self.frames);
        shrink(&mut self.asked);
        shrink(&mut self.uses);
        self.has_grown = !self.frames.as_slice().is_empty();
    }
}

/// Opens a node that has a slot with nothing in it.
#[inline(always)]
pub(crate) fn reopen<N: Eq + Drop, P: Places<N> + Drop, V: Drop, F: Drop>(
    slots: &mut Slots<N, P, V, F>,
    frames: &mut Frames<N>,
    place: usize,
    node: N,
) -> Result<(), AllocError>
    requires { place < length slots.old.entries }
    ensures slots { OnOk result (slots.new.entries ≡ with_slot slots.old.entries place Slot.Open) }
    ensures frames { OnOk result (Framed place node frames.old frames.new) }
    ensures kept { OnErr result (slots.new.entries ≡ slots.old.entries) }
    ensures err { OnErr result (SameFrames frames.old frames.new) }
    ensures grows { slots.old.looks ≤ slots.new.looks }
{
    let part = frames.part(place)?;
    frames.frames.reserve(1)?;
    slots.set(place, Slot::Open);
    frames.frames.push_reserved(part.frame(node));
    Ok(())
}

/// Opens a node that has no slot, right after the search for it.
#[inline(always)]
pub(crate) fn open_new<N: Eq + Drop, P: Places<N> + Drop, V: Drop, F: Drop>(
    slots: &mut Slots<N, P, V, F>,
    frames: &mut Frames<N>,
    node: N,
) -> Result<(), AllocError>
    requires none { list_any (λ p. N.eq node p.0) slots.old.entries ≡ false }
    requires ends { P.ends slots.old.places node }
    ensures slots { OnOk result (slots.new.entries ≡ slots.old.entries ++ (node, Slot.Open) ∷ []) }
    ensures frames { OnOk result (Framed (length slots.old.entries) node frames.old frames.new) }
    ensures kept { OnErr result (slots.new.entries ≡ slots.old.entries) }
    ensures err { OnErr result (SameFrames frames.old frames.new) }
    ensures grows { slots.old.looks ≤ slots.new.looks }
{
    let part = frames.part(slots.len())?;
    frames.frames.reserve(1)?;
    slots.add(&node)?;
    frames.frames.push_reserved(part.frame(node));
    frames.has_grown = true;
    Ok(())
}
