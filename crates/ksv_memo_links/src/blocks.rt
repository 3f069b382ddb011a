//! Entries in blocks, and the chains of those of the same list.
ghost use Rattle.std.specs.Prelude.{◌≡◌, ◌≢◌, ◌⊎◌, ℕ, ◌+◌, ◌-◌, ◌*◌, ◌<◌, ◌≤◌, [], ◌++◌, length, replicate, slice_set, IfOk, OnOk, OnErr, IsTrue};
ghost use Rattle.std.specs.List.{All};
ghost use Rattle.ksv_memo_links.specs.declared.blocks.Entry.{Entry};
ghost use Rattle.ksv_memo_links.specs.Shelved.{row};
ghost use Rattle.ksv_memo_links.specs.Chained.{block_at, entry_at, first_at, lists_in, named_of, Unlinks, Links, IsChained, IsFree, IsRoom, IsExtended};

use std::alloc::AllocError;

/// One entry of an owner in a list. `next` and `before` lead to the other entries of the list; 0 is none.
#[derive(Clone, Copy, Default, Drop)]
pub struct Entry {
    pub owner: u32,
    pub list: u32,
    pub next: u32,
    pub before: u32,
}

/// An item of a list: its owner, and the place of an entry.
#[derive(Clone, Copy, Drop)]
pub struct Item {
    pub owner: u32,
    pub at: u32,
}

/// A number in 32 bits. A larger one is refused, as memory for this many would be.
#[inline(always)]
pub(crate) fn number(count: usize) -> Result<u32, AllocError>
    ensures { IfOk result (λ number. number ≡ count) }
{
    if count > u32::MAX as usize {
        return Err(AllocError);
    }
    Ok(count as u32)
}

/// Where the entries of an owner begin, and how many there are.
#[derive(Clone, Copy, Default, Drop)]
pub struct Block {
    pub begin: u32,
    pub count: u32,
}

/// Writes which entry comes next.
#[inline(always)]
fn put_next(entries: &mut Vec<Entry>, at: u32, next: u32)
    requires { at < length entries.old.items }
    ensures { entries.new.items ≡ slice_set entries.old.items at (record { owner = (entry_at entries.old.items at).owner; list = (entry_at entries.old.items at).list; next = next; before = (entry_at entries.old.items at).before }) }
{
    entries[at as usize].next = next;
}

/// Writes which entry comes before.
#[inline(always)]
fn put_before(entries: &mut Vec<Entry>, at: u32, before: u32)
    requires { at < length entries.old.items }
    ensures { entries.new.items ≡ slice_set entries.old.items at (record { owner = (entry_at entries.old.items at).owner; list = (entry_at entries.old.items at).list; next = (entry_at entries.old.items at).next; before = before }) }
{
    entries[at as usize].before = before;
}

/// Takes an entry out of the chain of its list. At most three cells are read or written; that of place 0, which is no
/// entry's, comes after the last entry of each chain.
#[inline(always)]
fn unlink(entries: &mut Vec<Entry>, first: &mut Vec<u32>, at: u32)
    requires inside { at < length entries.old.items }
    requires before { (entry_at entries.old.items at).before < length entries.old.items }
    requires next { (entry_at entries.old.items at).next < length entries.old.items }
    requires named { (entry_at entries.old.items at).list < length first.old.items }
    ensures { Unlinks entries.old.items entries.new.items first.old.items first.new.items at }
{
    let entry = entries[at as usize];
    put_before(entries, entry.next, entry.before);
    if entry.before == 0 {
        first[entry.list as usize] = entry.next;
    } else {
        put_next(entries, entry.before, entry.next);
    }
}

/// Puts an entry of an owner before the first of a list.
#[inline(always)]
fn link(entries: &mut Vec<Entry>, first: &mut Vec<u32>, at: u32, owner: u32, list: u32)
    requires inside { at < length entries.old.items }
    requires list_in { list < length first.old.items }
    requires next_in { first_at first.old.items list < length entries.old.items }
    requires other { first_at first.old.items list ≢ at }
    ensures { Links entries.old.items entries.new.items first.old.items first.new.items at owner list }
{
    let next = first[list as usize];
    entries[at as usize] = Entry {
        owner,
        list,
        next,
        before: 0,
    };
    put_before(entries, next, at);
    first[list as usize] = at;
}

/// What was taken of an owner: how many entries, and by how many looks.
#[derive(Clone, Copy, Drop)]
pub(crate) struct Cleared {
    pub count: u32,
    pub looks: u64,
}

/// Writes how many entries an owner has.
#[inline(always)]
fn put_count(blocks: &mut Vec<Block>, owner: u32, count: u32)
    requires { owner < length blocks.old.items }
    ensures { blocks.new.items ≡ slice_set blocks.old.items owner (record { begin = (block_at blocks.old.items owner).begin; count = count }) }
{
    blocks[owner as usize].count = count;
}

/// Takes the entries of an owner, the last first. It is one look for the block, and for each entry four: three for taking it
/// out of its chain, and one for the block.
pub(crate) fn clear_block(
    entries: &mut Vec<Entry>,
    blocks: &mut Vec<Block>,
    first: &mut Vec<u32>,
    owner: u32,
) -> Cleared
    requires chained { IsChained entries.old.items blocks.old.items first.old.items }
    requires owner_in { owner < length blocks.old.items }
    ensures chained { IsChained entries.new.items blocks.new.items first.new.items }
    ensures named { named_of entries.new.items blocks.new.items ≡ slice_set (named_of entries.old.items blocks.old.items) owner [] }
    ensures count { result.count ≡ length (row (named_of entries.old.items blocks.old.items) owner) }
    ensures looks { result.looks ≡ 1 + 4 * length (row (named_of entries.old.items blocks.old.items) owner) }
    ensures size { length first.new.items ≡ length first.old.items }
{
    let Block { begin, count } = blocks[owner as usize];
    let mut left = count;
    let mut looks = 1;
    while left > 0 {
        left -= 1;
        unlink(entries, first, begin + left);
        put_count(blocks, owner, left);
        looks += 4;
    }
    Cleared { count, looks }
}

/// Whether the places of this many entries from one on were an owner's: the entries there still name it.
#[inline(always)]
pub(crate) fn has_room(entries: &[Entry], owner: u32, begin: u32, count: u32) -> bool
    ensures { IsTrue result → IsRoom entries.now owner begin count }
{
    if begin == 0 || begin as usize + count as usize > entries.len() {
        return false;
    }
    for k in 0..count {
        if entries[begin as usize + k as usize].owner != owner {
            return false;
        }
    }
    true
}

/// Makes places for this many entries after all others. The first of them; place 0 is no entry's.
#[inline(always)]
fn extend(entries: &mut Vec<Entry>, count: u32) -> Result<u32, AllocError>
    ensures ok { IfOk result (λ begin. IsExtended entries.old.items entries.new.items begin count) }
    ensures err { OnErr result (entries.new.items ≡ entries.old.items) }
{
    let begin = number(entries.len().max(1))?;
    let end = number(begin as usize + count as usize)?;
    entries.reserve(end as usize - entries.len())?;
    while entries.len() < end as usize {
        entries.push_reserved(Entry::default());
    }
    Ok(begin)
}

/// The place for this many entries of an owner that has none: where its entries were, if there is room for these, else after
/// all others.
#[inline(always)]
fn place(
    entries: &mut Vec<Entry>,
    blocks: &[Block],
    owner: u32,
    count: u32,
) -> Result<u32, AllocError>
    requires owner_in { owner < length blocks.now }
    ensures ok { IfOk result (λ begin. (IsRoom entries.old.items owner begin count × (entries.new.items ≡ entries.old.items)) ⊎ IsExtended entries.old.items entries.new.items begin count) }
    ensures err { OnErr result (entries.new.items ≡ entries.old.items) }
{
    let begin = blocks[owner as usize].begin;
    if has_room(entries.as_slice(), owner, begin, count) {
        return Ok(begin);
    }
    extend(entries, count)
}

/// Links an owner that has no entries, at a place where there is room for them.
#[inline(always)]
fn fill_block(
    entries: &mut Vec<Entry>,
    blocks: &mut Vec<Block>,
    first: &mut Vec<u32>,
    owner: u32,
    begin: u32,
    lists: &[u32],
)
    requires chained { IsChained entries.old.items blocks.old.items first.old.items }
    requires owner_in { owner < length blocks.old.items }
    requires none { row (named_of entries.old.items blocks.old.items) owner ≡ [] }
    requires some { 0 < begin }
    requires inside { begin + length lists.now ≤ length entries.old.items }
    requires free { (k : ℕ) → k < length lists.now → IsFree blocks.old.items owner (begin + k) }
    requires lists_in { All (λ l. l < length first.old.items) lists.now }
    ensures chained { IsChained entries.new.items blocks.new.items first.new.items }
    ensures named { named_of entries.new.items blocks.new.items ≡ slice_set (named_of entries.old.items blocks.old.items) owner lists.now }
    ensures size { length first.new.items ≡ length first.old.items }
{
    let count = lists.len() as u32;
    for i in 0..count {
        link(entries, first, begin + i, owner, lists[i as usize]);
        blocks[owner as usize] = Block {
            begin,
            count: i + 1,
        };
    }
}

/// Links an owner that is linked to nothing. Where memory is refused, nothing has changed.
#[inline(always)]
pub(crate) fn link_block(
    entries: &mut Vec<Entry>,
    blocks: &mut Vec<Block>,
    first: &mut Vec<u32>,
    owner: u32,
    lists: &[u32],
) -> Result<(), AllocError>
    requires chained { IsChained entries.old.items blocks.old.items first.old.items }
    requires owner_in { owner < length blocks.old.items }
    requires none { row (named_of entries.old.items blocks.old.items) owner ≡ [] }
    requires lists_in { All (λ l. l < length first.old.items) lists.now }
    ensures chained { IsChained entries.new.items blocks.new.items first.new.items }
    ensures ok { OnOk result (named_of entries.new.items blocks.new.items ≡ slice_set (named_of entries.old.items blocks.old.items) owner lists.now) }
    ensures err { OnErr result (named_of entries.new.items blocks.new.items ≡ named_of entries.old.items blocks.old.items) }
    ensures size { length first.new.items ≡ length first.old.items }
{
    let count = number(lists.len())?;
    if count == 0 {
        return Ok(());
    }
    let begin = place(entries, blocks.as_slice(), owner, count)?;
    fill_block(entries, blocks, first, owner, begin, lists);
    Ok(())
}

/// Writes the lists of the entries of a block into a vector, in place of what it has.
pub(crate) fn copy_block(
    entries: &[Entry],
    block: Block,
    into: &mut Vec<u32>,
) -> Result<(), AllocError>
    requires { (i : ℕ) → i < block.count → block.begin + i < length entries.now }
    ensures { OnOk result (into.new.items ≡ lists_in entries.now block.begin block.count) }
{
    into.clear();
    for i in 0..block.count {
        into.push(entries[block.begin as usize + i as usize].list)?;
    }
    Ok(())
}

/// At least this many blocks. The new ones have no entries.
pub(crate) fn reach_blocks(blocks: &mut Vec<Block>, count: usize) -> Result<(), AllocError>
    ensures ok { OnOk result (blocks.new.items ≡ blocks.old.items ++ replicate (count - length blocks.old.items) (record { begin = 0; count = 0 })) }
    ensures err { OnErr result (blocks.new.items ≡ blocks.old.items) }
{
    if blocks.as_slice().len() < count {
        blocks.resize(count, Block::default())?;
    }
    Ok(())
}

/// At least this many lists. No owner is linked to the new ones.
pub(crate) fn reach_first(first: &mut Vec<u32>, count: usize) -> Result<(), AllocError>
    ensures ok { OnOk result (first.new.items ≡ first.old.items ++ replicate (count - length first.old.items) 0) }
    ensures err { OnErr result (first.new.items ≡ first.old.items) }
{
    if first.as_slice().len() < count {
        first.resize(count, 0)?;
    }
    Ok(())
}
