//! Slots with nothing in them, which are given to other nodes.
ghost use Rattle.std.specs.Prelude.{◌≡◌, ◌<◌, ◌≤◌, length, slice_set, false, IfSome, OnOk, OnErr};
ghost use Rattle.std.specs.List.{list_any};
ghost use Rattle.ksv_memo.specs.Moves.{IsVacant, SameFrames, Framed};

use crate::frames::Frames;
use crate::slots::Slots;
use ksv_memo_links::Links;
use ksv_memo_rules::{Places, Slot};
use std::alloc::AllocError;

/// How many slots more than twice those in use there may be before new nodes are given slots with nothing in them.
const SPARE: usize = 16_384;

/// A slot with nothing in it, where far more slots have nothing in them than are in use: so memory stays in proportion to the
/// nodes that are kept and open at one time.
#[inline(always)]
pub(crate) fn vacant<N: Eq + Drop, P: Places<N> + Drop, V: Drop, F: Drop>(
    slots: &mut Slots<N, P, V, F>,
    links: &Links,
    frames: &Frames<N>,
) -> Option<usize>
    ensures some { IfSome result (IsVacant slots.old.entries) }
    ensures entries { slots.new.entries ≡ slots.old.entries }
    ensures places { slots.new.places ≡ slots.old.places }
    ensures grows { slots.old.looks ≤ slots.new.looks }
{
    let used = links.count().saturating_add(frames.frames.len());
    if slots.len() < used.saturating_mul(2).saturating_add(SPARE) {
        return None;
    }
    slots.vacant()
}

/// Opens a node that has no slot in one with nothing in it, which was another's.
#[cold]
#[inline(never)]
pub(crate) fn open_in<N: Eq + Drop, P: Places<N> + Drop, V: Drop, F: Drop>(
    slots: &mut Slots<N, P, V, F>,
    frames: &mut Frames<N>,
    place: usize,
    node: N,
) -> Result<(), AllocError>
    requires none { list_any (λ p. N.eq node p.0) slots.old.entries ≡ false }
    requires place_in { place < length slots.old.entries }
    ensures slots { OnOk result (slots.new.entries ≡ slice_set slots.old.entries place (node, Slot.Open)) }
    ensures frames { OnOk result (Framed place node frames.old frames.new) }
    ensures kept { OnErr result (slots.new.entries ≡ slots.old.entries) }
    ensures err { OnErr result (SameFrames frames.old frames.new) }
    ensures grows { slots.old.looks ≤ slots.new.looks }
{
    let part = frames.part(place)?;
    frames.frames.reserve(1)?;
    slots.give(place, &node)?;
    frames.frames.push_reserved(part.frame(node));
    Ok(())
}
