//! What nodes answer.

ghost use Rattle.std.specs.Prelude.{◌≡◌, IfOk};

use crate::case_number::CaseNumber;
use crate::element_count::ElementCount;
use crate::object_origin::ObjectOrigin;
use ksv_expr_value::{Fault, Place, Stream, Value};
use ksv_memo_rules::Slot;
use std::alloc::{AllocError, Global};
use std::mem::size_of;

/// A member of a type of the description.
#[derive(Clone, Copy)]
pub struct MemberRef {
    /// The type's number.
    pub type_number: u32,
    /// The member's place among the type's members, from 0.
    pub member: u32,
}

/// How something is read: what a head carries of the description, so that nothing else is asked for it.
#[derive(Clone, Copy)]
pub struct Origin {
    /// The attribute or parse instance by which it is read.
    pub member: MemberRef,
    /// The case that its switch chose, by its place among the cases, from 0; none without a switch, where no case was
    /// chosen, and for a list, each element of which has its own.
    pub case: CaseNumber,
    /// The stream of the object that holds it.
    pub home: Stream,
}

/// Some bytes.
#[derive(Clone, Copy)]
pub struct Leaf {
    /// How they are read.
    pub origin: Origin,
    /// The place of the first.
    pub from: Place,
    /// The place after the last.
    pub to: Place,
    /// Where what follows begins: after a terminator that isn't a part of the bytes.
    pub end: Place,
}

/// How the end of an object is known.
#[derive(Clone, Copy)]
pub enum ObjectEnd {
    /// It ends with its stream.
    OfStream,
    /// It ends with the last attribute of its type's `seq`.
    ByFields,
}

/// An object of a type.
#[derive(Clone, Copy)]
pub struct Object {
    /// How it is read; the root is read by nothing.
    pub origin: ObjectOrigin,
    /// The type's number.
    pub type_number: u32,
    /// The stream in which its places are counted.
    pub stream: Stream,
    /// Where it begins.
    pub start: Place,
    /// How its end is known.
    pub ending: ObjectEnd,
}

/// The elements of an attribute or a parse instance.
#[derive(Clone, Copy)]
pub struct List {
    /// How they are read.
    pub origin: Origin,
    /// The stream in which they are.
    pub stream: Stream,
    /// Where the first begins.
    pub start: Place,
    /// How many there are, if that is known beforehand.
    pub count: ElementCount,
    /// Whether there are none.
    pub is_empty: bool,
}

/// The object that holds a calculated value. How its end is known is left out: no such value depends on it.
#[derive(Clone, Copy)]
pub struct Holder {
    /// How it is read; the root is read by nothing.
    pub origin: ObjectOrigin,
    /// The type's number.
    pub type_number: u32,
    /// The stream in which its places are counted.
    pub stream: Stream,
    /// Where it begins.
    pub start: Place,
}

/// A value that isn't read at a place of its own: a value instance or a parameter.
#[derive(Clone, Copy)]
pub struct Calc {
    /// The place of the member among the members of the object's type, from 0.
    pub member: u32,
    /// The object that holds it.
    pub object: Holder,
}

/// What is at a path, and where.
#[derive(Clone, Copy)]
pub enum Head {
    /// Nothing: an attribute or instance that is absent, at its place if it has one.
    Absent(Option<Place>),
    /// A value that is calculated.
    Calc(Calc),
    /// Bytes that hold a value.
    Leaf(Leaf),
    /// An object.
    Object(Object),
    /// A list.
    List(List),
}

/// What a node answers, one form for each kind of node.
#[derive(Drop)]
pub enum Given {
    /// What is there.
    Head(Head),
    /// Its value.
    Value(Value),
    /// Where it ends.
    End {
        /// The place after its last byte.
        place: Place,
        /// Whether it is the last element of a list.
        last: bool,
    },
    /// What a list is from an element on.
    Rest {
        /// How many elements the list has.
        count: u32,
        /// Where it ends.
        place: Place,
    },
}

// An engine keeps each answer in a slot, so its places, ends of streams and cases take four bytes each, and a calculated value
// keeps of its object only what it depends on.
const _: () = prove!(size_of::<Slot<Given, Fault>>() == 56);

impl Given {
    /// A copy of the answer.
    pub fn copy(&self, alloc: Global) -> Result<Given, AllocError>
        ensures { IfOk result (λ copy. copy ≡ self.now) }
    {
        Ok(match self {
            Given::Head(head) => Given::Head(*head),
            Given::Value(value) => Given::Value(value.copy(alloc)?),
            Given::End { place, last } => Given::End {
                place: *place,
                last: *last,
            },
            Given::Rest { count, place } => Given::Rest {
                count: *count,
                place: *place,
            },
        })
    }
}

/// Where something ends.
#[derive(Clone, Copy)]
pub struct Ended {
    /// The place after its last byte.
    pub place: Place,
    /// Whether it is the last element of a list.
    pub last: bool,
}

/// What a list is from an element on.
#[derive(Clone, Copy)]
pub struct Rested {
    /// How many elements the list has.
    pub count: u32,
    /// Where it ends.
    pub place: Place,
}
