//! The calls that nodes take.
#![tactic(auto)]

ghost use Rattle.std.specs.Prelude.{◌≡◌, ◌+◌, ◌-◌, ◌*◌, ◌^◌, ◌<◌, ◌≤◌, ◌==◌, ◌⊎◌, suc, true, false, length, if◌then◌else◌};
ghost use Rattle.ksv_folds.specs.Sequence.{IsIn, says_sizes, asked_before, plain_calls, sized_calls, spot_calls, rest_calls, missing_calls, behind_calls, calls_to, size_of};

use crate::plain_list::PlainList;
use crate::spot::Spot;

/// The calls of so many fields: five each, but one less for the first, before which there is none.
fn field_calls(fields: u64) -> u64
    requires { fields < 2 ^ 32 }
    ensures { result ≡ 5 * fields - asked_before fields }
{
    if fields == 0 { 0 } else { 5 * fields - 1 }
}

/// The calls of so many nodes of elements that aren't there: three of a head, and two of an end.
fn missing_calls(nodes: u32) -> u64
    ensures value { result ≡ missing_calls nodes }
    ensures small { result ≤ 3 * nodes }
{
    let nodes = u64::from(nodes);
    5 * (nodes / 2) + 3 * (nodes % 2)
}

impl PlainList {
    /// The calls of so many elements, as if there was one before the first; so many are there for an element besides five of each field.
    #[tactic(auto, using(crate::proofs::Adding::calls_room))]
    fn element_calls(&self, others: u64, elements: u32) -> u64
        requires others { others ≤ 9 }
        requires plain { others ≤ 6 ⊎ (says_sizes self.now ≡ true) }
        requires few { elements ≤ self.now.most }
        ensures value { result ≡ (5 * length self.now.parts.items + others) * elements }
        ensures small { result ≤ 3 * 2 ^ 32 }
    {
        (5 * self.parts.len() as u64 + others) * u64::from(elements)
    }

    /// The calls of all nodes before one of an element, where there are no values.
    fn plain_calls(&self, spot: Spot) -> u64
        requires { IsIn false (length self.now.parts.items) (self.now.most + 1) spot }
        ensures { result ≡ plain_calls (length self.now.parts.items) spot }
    {
        match spot {
            Spot::ElementHead(0) => 0,
            Spot::ElementHead(element) => self.element_calls(6, element).saturating_sub(1),
            Spot::ElementEnd(element) => {
                self.element_calls(6, element) + 2 + field_calls(self.parts.len() as u64)
            }
            Spot::FieldHead(element, field) => {
                self.element_calls(6, element) + 2 + field_calls(u64::from(field))
            }
            Spot::FieldEnd(element, field) => self.element_calls(6, element)
                + 4
                + 5 * u64::from(field),
            Spot::Value(_) => 0,
        }
    }

    /// So many, if a field is the last.
    fn if_last(&self, field: u32, calls: u64) -> u64
        requires { field < length self.now.parts.items }
        ensures { result ≡ (if suc field == length self.now.parts.items then calls else 0) }
    {
        if field as usize + 1 == self.parts.len() {
            calls
        } else {
            0
        }
    }

    /// The calls of all nodes before one of an element, where each says the size of its last field.
    #[tactic(auto, using(crate::specs::Lemmas::Numbers::fields_some))]
    fn sized_calls(&self, spot: Spot) -> u64
        requires says { says_sizes self.now ≡ true }
        requires low { IsIn true (length self.now.parts.items) (self.now.most + 1) spot }
        ensures { result ≡ sized_calls (length self.now.parts.items) spot }
    {
        let fields = self.parts.len() as u64;
        match spot {
            Spot::ElementHead(0) => 0,
            Spot::ElementHead(element) => self.element_calls(9, element).saturating_sub(1),
            Spot::ElementEnd(element) => self.element_calls(9, element) + (5 * fields + 4),
            Spot::FieldHead(element, field) => {
                let before = 2 + field_calls(u64::from(field));
                self.element_calls(9, element) + (before + self.if_last(field, 2))
            }
            Spot::FieldEnd(element, field) => {
                let before = 4 + 5 * u64::from(field);
                self.element_calls(9, element) + (before + self.if_last(field, 3))
            }
            Spot::Value(element) => self.element_calls(9, element) + (5 * fields - 4),
        }
    }

    /// The calls of all nodes before one of an element.
    fn spot_calls(&self, spot: Spot) -> u64
        requires { IsIn (says_sizes self.now) (length self.now.parts.items) (self.now.most + 1) spot }
        ensures { result ≡ spot_calls self.now spot }
    {
        if self.says_sizes() {
            self.sized_calls(spot)
        } else {
            self.plain_calls(spot)
        }
    }

    /// The calls of so many of the last rests: three each, but one less for the last, behind which there is none, and one more for the first,
    /// which asks the list too.
    fn rest_calls(&self, rests: u32) -> u64
        requires { rests ≤ self.now.most }
        ensures { result ≡ rest_calls self.now.most rests }
    {
        if rests == 0 {
            0
        } else if rests == self.most {
            3 * u64::from(rests)
        } else {
            3 * u64::from(rests) - 1
        }
    }

    /// The calls of so many nodes behind the elements.
    fn behind_calls(&self, number: u32) -> u64
        requires { self.now.missing ≡ false → number ≤ self.now.most }
        ensures value { result ≡ behind_calls self.now.missing self.now.most number }
        ensures small { result ≤ 3 * number }
    {
        if self.missing {
            missing_calls(number)
        } else {
            self.rest_calls(number)
        }
    }

    /// The calls of all nodes before that of a number.
    #[tactic(auto, using(crate::proofs::Adding::calls_room, crate::proofs::Adding::rests_few))]
    pub(crate) fn calls_to(&self, place: u32) -> u64
        requires { place ≤ size_of self.now }
        ensures { result ≡ calls_to self.now place }
    {
        let elements = self.elements_size();
        if place < elements {
            return self.spot_calls(self.spot(place));
        }
        self.spot_calls(Spot::ElementHead(self.most)) + self.behind_calls(place - elements)
    }
}
