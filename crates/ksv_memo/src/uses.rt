//! Uses as a set.
ghost use Rattle.std.specs.Prelude.{◌≡◌, ◌<◌, ◌≤◌, [], ◌∷◌, length, true, false, IfOk, OnOk, OnErr};
ghost use Rattle.std.specs.List.{All};
ghost use Rattle.ksv_memo_links.specs.Links.{IsUnchanged, Keeps};
ghost use Rattle.ksv_memo_links.specs.Marking.{is_kept};
ghost use Rattle.ksv_memo_rules.specs.Folds.{used_of};
ghost use Rattle.ksv_memo_rules.specs.Right.{HasEachOnce};
ghost use Rattle.ksv_memo.specs.Moves.{KeepsOnce};

use crate::frames::number;
use ksv_bytes::Use;
use ksv_memo_links::Links;
use smallvec::SmallVec;
use std::alloc::{AllocError, Global};

/// How many uses of a node take no heap block while it is kept. Few nodes have more.
const INLINE_USES: usize = 4;

/// Each of these uses once, in the order of their first occurrences.
#[cold]
#[inline(never)]
pub(crate) fn each_once(
    alloc: Global,
    uses: &[Use],
) -> Result<SmallVec<Use, INLINE_USES>, AllocError>
    ensures { IfOk result (λ once. HasEachOnce once.items uses.now) }
{
    let mut once: SmallVec<Use, INLINE_USES> = SmallVec::new(alloc);
    for used in uses {
        if !once.as_slice().contains(used) {
            once.push(*used)?;
        }
    }
    Ok(once)
}

/// Keeps a slot whose uses may be several, with the slots that it asked and each of its uses once.
#[cold]
#[inline(never)]
fn keep_several(
    alloc: Global,
    links: &mut Links,
    slot: u32,
    asked: &[u32],
    uses: &[Use],
) -> Result<(), AllocError>
    requires idle { links.old.waits ≡ [] }
    requires slot_in { slot < length links.old.kept }
    requires out { is_kept links.old.kept slot ≡ false }
    requires asked_kept { All (λ s. is_kept links.old.kept s ≡ true) asked.now }
    ensures ok { OnOk result (KeepsOnce links.old links.new slot asked.now uses.now) }
    ensures err { OnErr result (IsUnchanged links.old links.new) }
    ensures grows { links.old.looks ≤ links.new.looks }
{
    let once = each_once(alloc, uses)?;
    links.keep(slot, asked, once.as_slice())
}

/// Keeps a slot, with the slots that it asked and each of its uses once. Most nodes have one use or none, which need no copy.
#[inline(always)]
pub(crate) fn keep_once(
    alloc: Global,
    links: &mut Links,
    slot: u32,
    asked: &[u32],
    uses: &[Use],
) -> Result<(), AllocError>
    requires idle { links.old.waits ≡ [] }
    requires slot_in { slot < length links.old.kept }
    requires out { is_kept links.old.kept slot ≡ false }
    requires asked_kept { All (λ s. is_kept links.old.kept s ≡ true) asked.now }
    ensures ok { OnOk result (KeepsOnce links.old links.new slot asked.now uses.now) }
    ensures err { OnErr result (IsUnchanged links.old links.new) }
    ensures grows { links.old.looks ≤ links.new.looks }
{
    if uses.len() < 2 {
        return links.keep(slot, asked, uses);
    }
    keep_several(alloc, links, slot, asked, uses)
}

/// Keeps a slot by one other slot, and a use, if there is one.
pub(crate) fn keep_by(
    links: &mut Links,
    slot: u32,
    other: usize,
    used: Option<Use>,
) -> Result<(), AllocError>
    requires idle { links.old.waits ≡ [] }
    requires slot_in { slot < length links.old.kept }
    requires out { is_kept links.old.kept slot ≡ false }
    requires other_kept { is_kept links.old.kept other ≡ true }
    ensures ok { OnOk result (Keeps links.old links.new slot (other ∷ []) (used_of used)) }
    ensures err { OnErr result (IsUnchanged links.old links.new) }
    ensures grows { links.old.looks ≤ links.new.looks }
{
    let asked = [number(other)?];
    match used {
        Some(used) => links.keep(slot, &asked, &[used]),
        None => links.keep(slot, &asked, &[]),
    }
}
