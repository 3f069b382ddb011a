//! The uses of each slot, and the lists in which slots stand by them, each look counted.
ghost use Rattle.std.specs.Prelude.{◌≡◌, ◌≢◌, ℕ, ◌+◌, ◌-◌, ◌*◌, ◌^◌, ◌<◌, ◌≤◌, max, [], ◌∷◌, ◌++◌, length, map, slice_set, IfOk, IfSome, IfNone, OnOk, OnErr};
ghost use Rattle.std.specs.List.{All, list_any};
ghost use Rattle.std.specs.Option.{option_to_list};
ghost use Rattle.ksv_bytes.specs.Uses.{is_use_touched};
ghost use Rattle.ksv_memo_links.specs.Placed.{uses_of, list_of_end, list_of_page, lists_of_uses, end_lists, page_lists};
ghost use Rattle.ksv_memo_links.specs.Linked.{item_at};
ghost use Rattle.ksv_memo_links.specs.Chained.{IsListed};
ghost use Rattle.ksv_memo_links.specs.Shelved.{row, ticked, ticked_by, HasSameRows};
ghost use Rattle.ksv_memo_links.specs.Touching.{is_size, reach_of, farthest, end_at, ends_in, pages_of, pages_in};

use crate::blocks::{Item, number};
use crate::chains::Chains;
use ksv_bytes::{Change, Use, touches};
use std::alloc::{AllocError, Global};
use std::marker::Model;

/// How many bytes a page has.
pub const PAGE: u32 = 64;

/// Whether a change touches one of these uses.
fn has_touched(change: Change, uses: &[Use]) -> bool
    ensures { result ≡ list_any (is_use_touched change) uses.now }
{
    uses.iter().any(|used| touches(change, *used))
}

/// The uses of a slot. Most slots have one or none, which takes no memory of its own.
#[derive(Drop)]
pub enum Noted {
    /// No use.
    Nothing,
    /// One use.
    One(Use),
    /// More uses.
    Many(Box<Vec<Use>>),
}

/// These uses, noted in a block of their own.
#[cold]
#[inline(never)]
fn note_many(alloc: Global, uses: &[Use]) -> Result<Noted, AllocError>
    ensures { IfOk result (λ noted. uses_of noted ≡ uses.now) }
{
    let uses = Vec::from_slice(alloc, uses)?;
    Ok(Noted::Many(Box::new(alloc, uses)?))
}

/// Whether a change touches one of the uses of a slot.
fn is_noted_touched(change: Change, noted: &Noted) -> bool
    ensures { result ≡ list_any (is_use_touched change) (uses_of noted.now) }
{
    match noted {
        Noted::Nothing => false,
        Noted::One(used) => touches(change, *used),
        Noted::Many(uses) => has_touched(change, uses.as_slice()),
    }
}

/// These uses, noted.
#[inline(always)]
fn note_uses(alloc: Global, uses: &[Use]) -> Result<Noted, AllocError>
    ensures { IfOk result (λ noted. uses_of noted ≡ uses.now) }
{
    match uses {
        [] => Ok(Noted::Nothing),
        [used] => Ok(Noted::One(*used)),
        _ => note_many(alloc, uses),
    }
}

/// Whether a use is of the size.
fn is_of_size(used: Use) -> bool
    ensures { result ≡ is_size used }
{
    match used {
        Use::Bytes(_, _) => false,
        Use::Reach(_) => false,
        Use::Size => true,
    }
}

/// Whether one of these uses is of the size.
fn has_size(uses: &[Use]) -> bool
    ensures { result ≡ list_any is_size uses.now }
{
    uses.iter().any(|used| is_of_size(*used))
}

/// The place that a use reaches, or 0.
fn reached(used: Use) -> u32
    ensures { result ≡ reach_of used }
{
    match used {
        Use::Bytes(_, _) => 0,
        Use::Reach(to) => to,
        Use::Size => 0,
    }
}

/// The farthest place that these uses reach, or 0.
fn farthest_of(uses: &[Use]) -> u32
    ensures { result ≡ farthest uses.now }
{
    let mut place: u32 = 0;
    for used in uses {
        place = place.max(reached(*used));
    }
    place
}

/// The end of what reaches a place: one more than the page of the byte before it. None of place 0.
fn end_before(place: u32) -> Option<u32>
    ensures end { option_to_list result ≡ end_at place }
    ensures fits { IfSome result (λ end. end ≤ 2 ^ 26) }
{
    match place {
        0 => None,
        place => Some((place - 1) / PAGE + 1),
    }
}

/// Where these uses end: 0 for the size; else one more than the page of the last byte that they reach.
#[cold]
#[inline(never)]
fn end_of_many(uses: &[Use]) -> Option<u32>
    ensures end { option_to_list result ≡ ends_in uses.now }
    ensures fits { IfSome result (λ end. end ≤ 2 ^ 26) }
{
    if has_size(uses) {
        return Some(0);
    }
    end_before(farthest_of(uses))
}

/// Where these uses end, of which there are none or one mostly.
#[inline(always)]
fn end_of(uses: &[Use]) -> Option<u32>
    ensures end { option_to_list result ≡ ends_in uses.now }
    ensures fits { IfSome result (λ end. end ≤ 2 ^ 26) }
{
    match uses {
        [] => None,
        [Use::Bytes(_, _)] => None,
        [Use::Reach(to)] => end_before(*to),
        [Use::Size] => Some(0),
        _ => end_of_many(uses),
    }
}

/// Where the uses of a slot end, of which there are none or one mostly.
#[inline(always)]
fn noted_end(noted: &Noted) -> Option<u32>
    ensures { option_to_list result ≡ ends_in (uses_of noted.now) }
{
    match noted {
        Noted::Nothing => None,
        Noted::One(used) => end_of(&[*used]),
        Noted::Many(uses) => end_of_many(uses.as_slice()),
    }
}

/// How many of the lists of uses are those of pages.
#[inline(always)]
fn pages_linked(linked: u32, end: Option<u32>) -> u32
    ensures { result ≡ linked - length (option_to_list end) }
{
    match end {
        None => linked,
        Some(_) => linked.saturating_sub(1),
    }
}

/// The number of the list of an end. No page has it.
#[inline(always)]
pub(crate) fn end_list(end: u32) -> u32
    requires { end < 2 ^ 31 }
    ensures number { result ≡ list_of_end end }
    ensures apart { (page : ℕ) → result ≢ list_of_page page }
{
    2 * end
}

/// The number of the list of a page. No end has it.
#[inline(always)]
pub(crate) fn page_list(page: u32) -> u32
    requires { page < 2 ^ 31 }
    ensures number { result ≡ list_of_page page }
    ensures apart { (end : ℕ) → result ≢ list_of_end end }
{
    2 * page + 1
}

/// The list of a use, if it is in just one.
#[inline(always)]
fn only_list(used: Use) -> Option<u32>
    ensures { IfSome result (λ list. lists_of_uses (used ∷ []) ≡ list ∷ []) }
{
    match used {
        Use::Bytes(from, to) => {
            if from.max(to.saturating_sub(1)) / PAGE > from / PAGE {
                return None;
            }
            Some(page_list(from / PAGE))
        }
        Use::Reach(to) => {
            if to == 0 {
                return None;
            }
            Some(end_list((to - 1) / PAGE + 1))
        }
        Use::Size => Some(end_list(0)),
    }
}

/// The lists of the pages that a use meets, after those that are there.
fn add_pages(lists: &mut Vec<u32>, used: Use) -> Result<(), AllocError>
    ensures { OnOk result (lists.new.items ≡ lists.old.items ++ map list_of_page (pages_of used)) }
{
    match used {
        Use::Bytes(from, to) => {
            let end = from.max(to.saturating_sub(1)) / PAGE + 1;
            for page in from / PAGE..end {
                lists.push(page_list(page))?;
            }
            Ok(())
        }
        Use::Reach(_) => Ok(()),
        Use::Size => Ok(()),
    }
}

/// The lists of the pages that these uses meet.
fn all_pages(alloc: Global, uses: &[Use]) -> Result<Vec<u32>, AllocError>
    ensures { IfOk result (λ lists. lists.items ≡ map list_of_page (pages_in uses.now)) }
{
    let mut lists = Vec::new(alloc);
    for used in uses {
        add_pages(&mut lists, *used)?;
    }
    Ok(lists)
}

/// The lists of these uses.
fn all_lists(alloc: Global, uses: &[Use]) -> Result<Vec<u32>, AllocError>
    ensures { IfOk result (λ lists. lists.items ≡ lists_of_uses uses.now) }
{
    let mut lists = all_pages(alloc, uses)?;
    if let Some(end) = end_of(uses) {
        lists.push(end_list(end))?;
    }
    Ok(lists)
}

/// One more than the largest of these numbers, or 0.
fn above_all(lists: &[u32]) -> Result<u32, AllocError>
    ensures { IfOk result (λ above. All (λ list. list < above) lists.now) }
{
    let mut above: u32 = 0;
    for list in lists {
        above = above.max(number(*list as usize + 1)?);
    }
    Ok(above)
}

/// Makes lists until there is this one.
#[cold]
#[inline(never)]
fn reach_list(chains: &mut Chains, list: u32) -> Result<(), AllocError>
    requires fits { length chains.old.lists < 2 ^ 32 }
    ensures named { chains.new.named ≡ chains.old.named }
    ensures few { length chains.new.lists < 2 ^ 32 }
    ensures ok { OnOk result (list < length chains.new.lists) }
    ensures grows { chains.old.looks ≤ chains.new.looks }
{
    chains.reach_lists(number(list as usize + 1)?)
}

/// Links a slot that is linked to nothing to one list, which is made where it isn't there. Where memory is refused, the slot
/// is linked to nothing again.
#[inline(always)]
fn link_only(chains: &mut Chains, slot: u32, list: u32) -> Result<(), AllocError>
    requires slot_in { slot < length chains.old.named }
    requires none { row chains.old.named slot ≡ [] }
    requires fits { length chains.old.lists < 2 ^ 32 }
    ensures ok { OnOk result (chains.new.named ≡ slice_set chains.old.named slot (list ∷ [])) }
    ensures err { OnErr result (chains.new.named ≡ chains.old.named) }
    ensures few { length chains.new.lists < 2 ^ 32 }
    ensures grows { chains.old.looks ≤ chains.new.looks }
{
    if list as usize >= chains.lists() {
        reach_list(chains, list)?;
    }
    chains.link_all(slot, &[list])
}

/// Links a slot that is linked to nothing to the lists of its uses, which are made where they aren't there. Where memory is
/// refused, the slot is linked to nothing again.
#[cold]
#[inline(never)]
fn link_many(alloc: Global, chains: &mut Chains, slot: u32, uses: &[Use]) -> Result<(), AllocError>
    requires slot_in { slot < length chains.old.named }
    requires none { row chains.old.named slot ≡ [] }
    requires fits { length chains.old.lists < 2 ^ 32 }
    ensures ok { OnOk result (chains.new.named ≡ slice_set chains.old.named slot (lists_of_uses uses.now)) }
    ensures err { OnErr result (chains.new.named ≡ chains.old.named) }
    ensures few { length chains.new.lists < 2 ^ 32 }
    ensures grows { chains.old.looks ≤ chains.new.looks }
{
    let lists = all_lists(alloc, uses)?;
    chains.reach_lists(above_all(lists.as_slice())?)?;
    chains.link_all(slot, lists.as_slice())
}

/// Links a slot that is linked to nothing to the lists of its uses, of which there are none or one mostly. Where memory is
/// refused, the slot is linked to nothing again.
#[inline(always)]
fn link_uses(alloc: Global, chains: &mut Chains, slot: u32, uses: &[Use]) -> Result<(), AllocError>
    requires slot_in { slot < length chains.old.named }
    requires none { row chains.old.named slot ≡ [] }
    requires fits { length chains.old.lists < 2 ^ 32 }
    ensures ok { OnOk result (chains.new.named ≡ slice_set chains.old.named slot (lists_of_uses uses.now)) }
    ensures err { OnErr result (chains.new.named ≡ chains.old.named) }
    ensures few { length chains.new.lists < 2 ^ 32 }
    ensures grows { chains.old.looks ≤ chains.new.looks }
{
    match uses {
        [] => Ok(()),
        [used] => match only_list(*used) {
            Some(list) => link_only(chains, slot, list),
            None => link_many(alloc, chains, slot, uses),
        },
        _ => link_many(alloc, chains, slot, uses),
    }
}

/// At least this many rows. The new ones have no use.
fn reach_rows(rows: &mut Vec<Noted>, count: usize) -> Result<(), AllocError>
    ensures same { HasSameRows (map uses_of rows.old.items) (map uses_of rows.new.items) }
    ensures few { length rows.new.items ≤ max (length rows.old.items) count }
    ensures ok { OnOk result (count ≤ length rows.new.items) }
{
    if rows.len() < count {
        rows.resize_with(count, || Noted::Nothing)?;
    }
    Ok(())
}

/// The uses of each slot, and the lists in which slots stand by them: one for each page, and one for each place in which uses
/// of the size or of reaching end. Each call that reads or writes what a slot has, or an item of a list, is one look. The count of
/// looks only grows, until it stops at 2^64 - 1: no call sets it back.
#[derive(Drop)]
pub(crate) struct Uses {
    alloc: Global,
    rows: Vec<Noted>,
    chains: Chains,
    looks: u64,
}

impl Model for Uses {
    ghost use Rattle.std.specs.Prelude.{map};
    ghost use Rattle.ksv_memo_links.specs.Placed.{Used, IsMet, uses_of};

    ghost Value = { Used };

    ghost view = { λ uses. record { rows = map uses_of uses.rows.items; lists = uses.chains.lists; looks = uses.looks } };

    ghost invariant = { λ uses. IsMet (map uses_of uses.rows.items) uses.chains.named uses.chains.lists };
}

impl Uses {
    /// No rows, which take no memory.
    pub(crate) fn new(alloc: Global) -> Self
        ensures { result ≡ record { rows = []; lists = []; looks = 0 } }
    {
        Uses {
            alloc,
            rows: Vec::new(alloc),
            chains: Chains::new(alloc),
            looks: 0,
        }
    }

    /// The looks so far.
    pub(crate) fn looks(&self) -> u64
        ensures { result ≡ self.now.looks }
    {
        self.looks
    }

    /// Whether a change touches one of a slot's uses.
    pub(crate) fn is_touched(&mut self, slot: u32, change: Change) -> bool
        requires { slot < length self.old.rows }
        ensures result { result ≡ list_any (is_use_touched change) (row self.old.rows slot) }
        ensures rows { self.new.rows ≡ self.old.rows }
        ensures lists { self.new.lists ≡ self.old.lists }
        ensures looks { self.new.looks ≡ ticked self.old.looks }
        ensures grows { self.old.looks ≤ self.new.looks }
    {
        self.looks = self.looks.saturating_add(1);
        is_noted_touched(change, &self.rows[slot as usize])
    }

    /// Gives a slot that has no uses these.
    #[inline(always)]
    pub(crate) fn put(&mut self, slot: u32, uses: &[Use]) -> Result<(), AllocError>
        requires slot_in { slot < length self.old.rows }
        requires none { row self.old.rows slot ≡ [] }
        ensures ok { OnOk result (self.new.rows ≡ slice_set self.old.rows slot uses.now) }
        ensures err { OnErr result (self.new.rows ≡ self.old.rows) }
        ensures grows { self.old.looks ≤ self.new.looks }
    {
        self.looks = self.looks.saturating_add(1);
        let noted = note_uses(self.alloc, uses)?;
        link_uses(self.alloc, &mut self.chains, slot, uses)?;
        self.rows[slot as usize] = noted;
        Ok(())
    }

    /// The place of the first entry of a list, 0 if it has none.
    pub(crate) fn first_item(&mut self, list: u32) -> u32
        requires { list < length self.old.lists }
        ensures result { result ≡ (item_at self.old.lists list 0).at }
        ensures none { result ≡ 0 → length (row self.old.lists list) ≤ 0 }
        ensures rows { self.new.rows ≡ self.old.rows }
        ensures lists { self.new.lists ≡ self.old.lists }
        ensures looks { self.new.looks ≡ ticked self.old.looks }
        ensures grows { self.old.looks ≤ self.new.looks }
    {
        self.looks = self.looks.saturating_add(1);
        self.chains.first_item(list)
    }

    /// The slot of the entry at a place, with the place of the next entry of its list, if there is one; none where the place
    /// is 0, after the last entry, which is no look.
    pub(crate) fn item(&mut self, at: u32) -> Option<Item>
        ensures some { IfSome result (λ x. (list i : ℕ) → at ≡ (item_at self.old.lists list i).at → (i < length (row self.old.lists list)) × (x.owner ≡ (item_at self.old.lists list i).owner) × (x.at ≡ (item_at self.old.lists list (i + 1)).at)) }
        ensures none { IfNone result ((list i : ℕ) → at ≡ (item_at self.old.lists list i).at → length (row self.old.lists list) ≤ i) }
        ensures rows { self.new.rows ≡ self.old.rows }
        ensures lists { self.new.lists ≡ self.old.lists }
        ensures looks { IfSome result (λ x. self.new.looks ≡ ticked self.old.looks) }
        ensures idle { IfNone result (self.new.looks ≡ self.old.looks) }
        ensures grows { self.old.looks ≤ self.new.looks }
    {
        let item = self.chains.item(at)?;
        self.looks = self.looks.saturating_add(1);
        Some(item)
    }

    /// How many lists of ends there are, which isn't counted.
    pub(crate) fn ends(&self) -> usize
        ensures count { result ≡ length (end_lists self.now.lists) }
        ensures fits { result ≤ 2 ^ 31 }
    {
        (self.chains.lists() + 1) / 2
    }

    /// How many lists of pages there are, which isn't counted.
    pub(crate) fn pages(&self) -> usize
        ensures count { result ≡ length (page_lists self.now.lists) }
        ensures fits { result < 2 ^ 31 }
    {
        self.chains.lists() / 2
    }

    /// Each slot is in the lists of its uses.
    pub(crate) fn linked(&self)
        ensures listed { IsListed self.now.lists (map lists_of_uses self.now.rows) }
        ensures fits { length self.now.lists < 2 ^ 32 }
    {
        self.chains.linked();
    }

    /// Takes the uses of a slot, and the slot from the lists of them. It is one look for the uses and where they end, one for
    /// the block, and four for each page.
    pub(crate) fn clear(&mut self, slot: u32)
        requires { slot < length self.old.rows }
        ensures rows { self.new.rows ≡ slice_set self.old.rows slot [] }
        ensures looks { self.new.looks ≡ ticked_by self.old.looks (2 + 4 * length (pages_in (row self.old.rows slot))) }
        ensures grows { self.old.looks ≤ self.new.looks }
    {
        let end = noted_end(&self.rows[slot as usize]);
        let linked = self.chains.clear(slot);
        let pages = pages_linked(linked, end);
        self.looks = self.looks.saturating_add(2 + 4 * pages as u64);
        self.rows[slot as usize] = Noted::Nothing;
    }

    /// At least this many rows, and a block for each of them. The new ones have no use.
    pub(crate) fn reach(&mut self, count: u32) -> Result<(), AllocError>
        ensures same { HasSameRows self.old.rows self.new.rows }
        ensures ok { OnOk result (count ≤ length self.new.rows) }
        ensures grows { self.old.looks ≤ self.new.looks }
    {
        self.chains.reach_owners(count)?;
        reach_rows(&mut self.rows, count as usize)
    }
}
