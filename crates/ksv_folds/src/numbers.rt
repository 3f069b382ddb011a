//! Which node a number is of, and where elements and fields are.
#![tactic(auto)]

ghost use Rattle.std.specs.Prelude.{◌≡◌, ◌-◌, ◌<◌, ◌≤◌, length, true};
ghost use Rattle.ksv_expr_value.specs.Places.{end_limit};
ghost use Rattle.ksv_folds.specs.Parts.{part, edge};
ghost use Rattle.ksv_folds.specs.Sequence.{says_sizes, sizer, field_spot, plain_spot, sized_spot, spot_in, spot_at, missing_at, numbered_at, IsOne, IsThere, start_of, edge_of, says_of, elements_size, size_of};

use crate::part::Part;
use crate::plain_list::PlainList;
use crate::spot::{Numbered, Spot};

/// A field's head or its end.
fn field_spot(element: u32, field: u32, half: u32) -> Spot
    ensures { result ≡ field_spot element field half }
{
    if half == 0 {
        Spot::FieldHead(element, field)
    } else {
        Spot::FieldEnd(element, field)
    }
}

/// The node of this number of an element, where each has so many, and no values.
fn plain_spot(per: u32, element: u32, rest: u32) -> Spot
    requires { rest < per }
    ensures { result ≡ plain_spot per element rest }
{
    if rest == 0 {
        Spot::ElementHead(element)
    } else if rest + 1 == per {
        Spot::ElementEnd(element)
    } else {
        field_spot(element, (rest - 1) / 2, (rest - 1) % 2)
    }
}

/// The same, where each has a value before the last three nodes.
fn sized_spot(per: u32, element: u32, rest: u32) -> Spot
    requires some { 7 ≤ per }
    requires low { rest < per }
    ensures { result ≡ sized_spot per element rest }
{
    if rest == per - 4 {
        Spot::Value(element)
    } else if rest < per - 4 {
        plain_spot(per - 1, element, rest)
    } else {
        plain_spot(per - 1, element, rest - 1)
    }
}

/// The same, where each element says a size, or none does.
fn spot_in(says: bool, per: u32, element: u32, rest: u32) -> Spot
    requires some { says ≡ true → 7 ≤ per }
    requires low { rest < per }
    ensures { result ≡ spot_in says per element rest }
{
    if says {
        sized_spot(per, element, rest)
    } else {
        plain_spot(per, element, rest)
    }
}

/// Of the nodes of elements that aren't there the one of a number, counted from the first.
fn missing_at(number: u32) -> Numbered
    ensures { result ≡ missing_at number }
{
    if number % 2 == 0 {
        Numbered::MissingHead(number / 2)
    } else {
        Numbered::MissingEnd(number / 2)
    }
}

impl PlainList {
    /// Whether each element says the size of its last field.
    pub(crate) fn says_sizes(&self) -> bool
        ensures { result ≡ says_sizes self.now }
    {
        self.starts.is_some()
    }

    /// The number of the field that says it.
    #[tactic(auto, using(crate::specs::Lemmas::Numbers::fields_some))]
    pub(crate) fn sizer(&self) -> u32
        requires { says_sizes self.now ≡ true }
        ensures { result ≡ sizer self.now }
    {
        self.parts.len() as u32 - 2
    }

    /// How many nodes all elements have.
    pub(crate) fn elements_size(&self) -> u32
        ensures { result ≡ elements_size self.now }
    {
        self.per * self.most
    }

    /// Which node has this number, where it is of an element.
    #[tactic(auto, using(crate::specs::Lemmas::Numbers::nodes_some, crate::specs::Lemmas::Numbers::per_some))]
    pub(crate) fn spot(&self, place: u32) -> Spot
        ensures value { result ≡ spot_at self.now place }
        ensures is_in { place < elements_size self.now → IsOne self.now result }
    {
        spot_in(
            self.says_sizes(),
            self.per,
            place / self.per,
            place % self.per,
        )
    }

    /// Which node has this number.
    #[tactic(auto, using(crate::specs::Lemmas::Numbers::numbered_there, crate::specs::Lemmas::Numbers::rests_low))]
    pub(crate) fn numbered(&self, place: u32) -> Numbered
        requires { place < size_of self.now }
        ensures value { result ≡ numbered_at self.now place }
        ensures there { IsThere self.now result }
    {
        let elements = self.elements_size();
        if place < elements {
            return Numbered::Of(self.spot(place));
        }
        let number = place - elements;
        if self.missing {
            missing_at(number)
        } else {
            Numbered::Rest(self.most - 1 - number)
        }
    }

    /// The field of this number.
    pub(crate) fn part(&self, field: u32) -> Part
        ensures { result ≡ part self.now.parts.items field }
    {
        match self.parts.get(field as usize) {
            Some(part) => *part,
            None => Part {
                name: 0,
                member: 0,
                to: 0,
            },
        }
    }

    /// How many bytes of an element are before a field.
    pub(crate) fn edge(&self, field: u32) -> u32
        ensures { result ≡ edge self.now.parts.items field }
    {
        if field == 0 {
            0
        } else {
            self.part(field - 1).to
        }
    }

    /// Where an element begins.
    fn start_at(&self, element: u32) -> u32
        requires { element ≤ self.now.most }
        ensures { result ≡ start_of self.now element }
    {
        match &self.starts {
            None => self.first + self.size * element,
            Some(starts) => match starts.get(element as usize) {
                Some(start) => *start,
                None => 0,
            },
        }
    }

    /// The number of an element's first byte.
    #[tactic(auto, using(crate::proofs::Rooms::start_room))]
    pub(crate) fn start(&self, element: u32) -> u32
        requires { element ≤ self.now.most }
        ensures value { result ≡ start_of self.now element }
        ensures in_file { result ≤ end_limit }
    {
        self.start_at(element)
    }

    /// The size that an element says.
    #[tactic(auto, using(crate::proofs::Rooms::start_up))]
    pub(crate) fn says(&self, element: u32) -> u32
        requires { element < self.now.most }
        ensures { result ≡ says_of self.now element }
    {
        self.start(element + 1) - self.start(element) - self.size
    }

    /// The number of the first byte of an element's field; of the number behind the last field, where that ends.
    #[tactic(auto, using(crate::proofs::Rooms::near_room))]
    pub(crate) fn edge_at(&self, element: u32, field: u32) -> u32
        requires element { element < self.now.most }
        requires field { field ≤ length self.now.parts.items }
        ensures value { result ≡ edge_of self.now element field }
        ensures in_file { result ≤ end_limit }
    {
        if self.starts.is_some() && field as usize == self.parts.len() {
            return self.start(element + 1);
        }
        self.start(element) + self.edge(field)
    }
}
