//! The links of a file's sums, for an engine that keeps them by numbers alone.

ghost use Rattle.std.specs.Prelude.{◌≡◌, ◌+◌, ◌^◌, ◌<◌, ◌≤◌, ℕ, min, length, true, slice_index_or, IfOk, Ok};
ghost use Rattle.ksv_test_engine.specs.Sums.{AreSums, link_at, so_far, sum_before, summed};

use crate::samples::link::Link;
use crate::samples::row::{Missing, Reply};
use crate::samples::rows::byte_at;
use crate::samples::sum_list::SumList;
use ksv_bytes::{Buffer, Change, Use};
use ksv_memo_rules::Folds;
use std::alloc::{AllocError, Global};

/// The link of a number from 0 on.
fn link_at(place: u32) -> Link
    ensures { result ≡ link_at place }
{
    Link {
        number: place.saturating_add(1),
    }
}

/// The sum that an answer is, or 0 if its byte is missing.
pub(crate) fn so_far(reply: Reply) -> u32
    ensures { result ≡ so_far reply }
{
    match reply {
        Ok(sum) => sum,
        Err(_) => 0,
    }
}

/// A sum with the next byte, which is missing where it is 255.
pub(crate) fn summed(sum: u32, byte: u8) -> Reply
    ensures { result ≡ summed sum byte }
{
    if byte == 255 {
        Err(Missing)
    } else {
        Ok(sum.saturating_add(u32::from(byte)))
    }
}

/// Whether two answers are the same.
fn are_same(first: Reply, second: Reply) -> bool
    ensures { result ≡ true → first ≡ second }
{
    match (first, second) {
        (Ok(one), Ok(other)) => one == other,
        (Err(_), Err(_)) => true,
        _ => false,
    }
}

/// The sum before one of a number.
fn sum_before(sums: &[Reply], place: usize) -> u32
    requires { place ≤ length sums.now }
    ensures { result ≡ sum_before sums.now place }
{
    if place == 0 {
        0
    } else {
        so_far(sums[place - 1])
    }
}

/// Whether the sum of a number is that of these bytes, where the one before it is.
fn is_sum(sums: &[Reply], bytes: &Buffer, place: u32) -> bool
    requires { place < length sums.now }
    ensures { result ≡ true → AreSums bytes.now sums.now place → AreSums bytes.now sums.now (place + 1) }
{
    let at = place as usize;
    match byte_at(bytes, place) {
        Some(byte) => are_same(summed(sum_before(sums, at), byte), sums[at]),
        None => false,
    }
}

/// How many of the first sums are those of these bytes, where so many are. It looks no farther than to the one of a number.
fn sums_in(sums: &[Reply], bytes: &Buffer, kept: u32, sought: u32) -> u32
    requires { length sums.now < 2 ^ 32 }
    ensures in_size { result ≤ length sums.now }
    ensures in_file { result ≤ length bytes.now }
    ensures summed { AreSums bytes.now sums.now kept → AreSums bytes.now sums.now result }
{
    let all = sums.len().min(bytes.len()) as u32;
    let mut count = kept.min(all);
    while count < all && count <= sought && is_sum(sums, bytes, count) {
        count += 1;
    }
    count
}

/// Tells the sums from one of a number on anew over these bytes, where the byte is there; else there are no more.
fn tell(sums: &mut Vec<Reply>, bytes: &Buffer, kept: usize)
    requires in_size { kept ≤ length sums.old.items }
    requires few { length sums.old.items < 2 ^ 32 }
    ensures fewer { length sums.new.items ≤ length sums.old.items }
    ensures in_size { kept ≤ length sums.new.items }
    ensures same { (j : ℕ) → j < kept → slice_index_or sums.new.items j (Ok 0) ≡ slice_index_or sums.old.items j (Ok 0) }
{
    for place in kept..sums.len() {
        match byte_at(bytes, place as u32) {
            Some(byte) => {
                sums[place] = summed(sum_before(sums.as_slice(), place), byte);
            }
            None => {
                sums.truncate(place);
                return;
            }
        }
    }
}

/// The sums of all bytes.
fn all_sums(alloc: Global, bytes: &Buffer) -> Result<Vec<Reply>, AllocError>
    ensures { IfOk result (λ sums. length sums.items < 2 ^ 32) }
{
    let mut sums = Vec::with_capacity(alloc, bytes.len())?;
    let mut last: Reply = Ok(0);
    for place in 0..bytes.len() as u32 {
        if let Some(byte) = byte_at(bytes, place) {
            last = summed(so_far(last), byte);
            sums.push(last)?;
        }
    }
    Ok(sums)
}

/// The lesser of two numbers.
fn lesser(kept: u32, at: usize) -> u32
    ensures { result ≡ min kept at }
{
    if at < kept as usize { at as u32 } else { kept }
}

impl SumList {
    ghost use Rattle.std.specs.Prelude.{IfSome};
    ghost use Rattle.ksv_test_engine.specs.Sums.{fold_of};

    /// The sums of these bytes, if the root is link 0.
    pub(crate) fn of(
        alloc: Global,
        root: &Link,
        bytes: &Buffer,
    ) -> Result<Option<SumList>, AllocError>
        ensures { IfOk result (λ found. IfSome found (λ nodes. (fold_of nodes).root ≡ root.now)) }
    {
        if root.number != 0 {
            return Ok(None);
        }
        let sums = all_sums(alloc, bytes)?;
        Ok(Some(SumList { root: *root, sums }))
    }

    /// How many of the first sums are those of these bytes, where so many are. It looks no farther than to the one of a number.
    pub(crate) fn count_in(&self, bytes: &Buffer, kept: u32, sought: u32) -> u32
        ensures in_size { result ≤ length self.now.sums.items }
        ensures in_file { result ≤ length bytes.now }
        ensures summed { AreSums bytes.now self.now.sums.items kept → AreSums bytes.now self.now.sums.items result }
    {
        sums_in(self.sums.as_slice(), bytes, kept, sought)
    }
}

impl Folds<Link, u32, Missing> for SumList {
    ghost use Rattle.ksv_test_engine.specs.Sums.{fold_of, sums_laid};

    ghost fold = { fold_of };

    ghost laid = { sums_laid };

    fn root(&self) -> &Link {
        &self.root
    }

    fn place(&self, node: &Link) -> Option<u32> {
        if node.number == 0 || node.number as usize > self.sums.len() {
            None
        } else {
            Some(node.number - 1)
        }
    }

    fn node(&self, _alloc: Global, place: u32) -> Result<Link, AllocError> {
        Ok(link_at(place))
    }

    fn answer(&self, _alloc: Global, place: u32) -> Result<Reply, AllocError> {
        match self.sums.get(place as usize) {
            Some(answer) => Ok(*answer),
            None => Err(AllocError),
        }
    }

    fn used(&self, place: u32) -> Option<Use> {
        Some(Use::Bytes(place, place.saturating_add(1)))
    }

    fn left(&self, kept: u32, change: Change) -> u32 {
        match change {
            Change::Overwrite { n: 0, .. } | Change::Append => kept,
            Change::Overwrite { at, .. } => lesser(kept, at),
            Change::Insert { at, .. } | Change::Delete { at, .. } => lesser(kept, at),
        }
    }

    fn whole(&self, place: u32) -> u32 {
        place.saturating_add(1)
    }

    fn calls(&self, from: u32, to: u32) -> u64 {
        2 * u64::from(to - from)
    }

    fn retell(&mut self, _value: &u32, bytes: &Buffer, kept: u32, _asked: &Link) {
        tell(&mut self.sums, bytes, kept as usize);
    }
}
