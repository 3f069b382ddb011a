//! The replies that an engine lends to rules.
ghost use Rattle.std.specs.Prelude.{◌≡◌, IfSome, is_some, length};
ghost use Rattle.std.specs.List.{AllByRecursion, list_all, slice_get};
ghost use Rattle.std.specs.Option.{option_map};
ghost use Rattle.ksv_memo_rules.specs.Slots.{HasAnswer, answer_at, answer_in, answers_at, lent};

use std::marker::Model;

/// What an engine knows of a node.
#[derive(Drop)]
pub enum Slot<V, F> {
    /// Nothing: it was forgotten, or the question that opened it ended before its answer.
    Empty,
    /// It is open: its answer isn't known yet.
    Open,
    /// It is kept with this value.
    Value(V),
    /// It is kept with this fault.
    Fault(F),
}

/// The answer in a slot, if one is kept there.
#[inline(always)]
fn answer_in<V, F>(slot: &Slot<V, F>) -> Option<Result<&V, &F>>
    ensures { option_map lent result ≡ answer_in slot.now }
{
    match slot {
        Slot::Value(value) => Some(Ok(value)),
        Slot::Fault(fault) => Some(Err(fault)),
        Slot::Empty | Slot::Open => None,
    }
}

/// The answer in the slot of a number, if one is kept there.
#[inline(always)]
pub fn answer_at<V, F>(slots: &[Slot<V, F>], place: usize) -> Option<Result<&V, &F>>
    ensures { option_map lent result ≡ answer_at slots.now place }
{
    answer_in(slots.get(place)?)
}

/// Whether the slot of a number keeps an answer.
fn is_kept<V, F>(slots: &[Slot<V, F>], slot: u32) -> bool
    ensures { result ≡ is_some (answer_at slots.now slot) }
{
    answer_at(slots, slot as usize).is_some()
}

/// Whether each of the slots of these numbers keeps an answer.
fn are_kept<V, F>(slots: &[Slot<V, F>], asked: &[u32]) -> bool
    ensures { result ≡ list_all (λ i. is_some (answer_at slots.now i)) asked.now }
{
    asked.iter().all(|slot| is_kept(slots, *slot))
}

/// The slot that was asked at a place.
#[inline(always)]
fn slot_at(asked: &[u32], place: usize) -> Option<u32>
    ensures { result ≡ slice_get asked.now place }
{
    asked.get(place).copied()
}

/// The replies so far to what a node asked, in the order in which it asked: answers in slots, lent and not copied.
/// Contracts see the list of the answers.
#[derive(Drop)]
pub struct Replies<'a, V, F> {
    slots: &'a [Slot<V, F>],
    asked: &'a [u32],
}

impl<'a, V, F> Model for Replies<'a, V, F> {
    ghost use Rattle.std.specs.Prelude.{List, Result};
    ghost use Rattle.std.specs.List.{AllByRecursion};
    ghost use Rattle.ksv_memo_rules.specs.Slots.{HasAnswer, answers_at};

    ghost Value = { List (Result V F) };

    ghost view = { λ replies. answers_at replies.slots.now replies.asked.now };

    ghost invariant = { λ replies. AllByRecursion (HasAnswer replies.slots.now) replies.asked.now };
}

impl<'a, V, F> Replies<'a, V, F> {
    /// The answers in the slots of these numbers.
    #[inline(always)]
    pub fn new(slots: &'a [Slot<V, F>], asked: &'a [u32]) -> Self
        requires { AllByRecursion (HasAnswer slots.now) asked.now }
        ensures { result ≡ answers_at slots.now asked.now }
    {
        Replies { slots, asked }
    }

    /// The same, if each of these slots keeps an answer.
    pub fn checked(slots: &'a [Slot<V, F>], asked: &'a [u32]) -> Option<Self>
        ensures some { IfSome result (λ replies. replies ≡ answers_at slots.now asked.now) }
        ensures kept { is_some result ≡ list_all (λ i. is_some (answer_at slots.now i)) asked.now }
    {
        if are_kept(slots, asked) {
            Some(Replies { slots, asked })
        } else {
            None
        }
    }

    /// How many there are.
    #[inline(always)]
    pub fn len(&self) -> usize
        ensures { result ≡ length self.now }
    {
        self.asked.len()
    }

    /// The reply to the ask of a number, counted from 0; none if there were fewer asks.
    #[inline(always)]
    pub fn get(&self, place: usize) -> Option<Result<&'a V, &'a F>>
        ensures { option_map lent result ≡ slice_get self.now place }
    {
        answer_at(self.slots, slot_at(self.asked, place)? as usize)
    }
}
