//! What a node answers, and how far it reads.
#![tactic(auto)]

ghost use Rattle.std.specs.Prelude.{◌≡◌, ◌+◌, ◌<◌, ◌≤◌, suc, length, IfOk};
ghost use Rattle.ksv_expr_value.specs.Places.{end_limit};
ghost use Rattle.ksv_memo_rules.specs.Folds.{used_of};
ghost use Rattle.ksv_folds.specs.Sequence.{IsOne, IsThere, leaf, element_answer, field_origin, answer_of, missing_fault, answer_in, is_closing, is_open, start_of, end_reach, prior_reach, head_reach, reach_of, spot_uses, uses_in};

use crate::plain_list::PlainList;
use crate::spot::{Numbered, Spot};
use ksv_bytes::Use;
use ksv_expr_value::{Fault, FaultKind, Integer, Place, Value};
use ksv_nodes::{CaseNumber, Given, Head, Leaf, MemberRef, Object, ObjectEnd, Origin};
use std::alloc::{AllocError, Global};

/// The bytes from one to another.
fn leaf(origin: Origin, from: u32, to: u32) -> Given
    requires from { from ≤ end_limit }
    requires to { to ≤ end_limit }
    ensures { result ≡ leaf origin from to }
{
    let end = Place::at_byte(to);
    Given::Head(Head::Leaf(Leaf {
        origin,
        from: Place::at_byte(from),
        to: end,
        end,
    }))
}

impl PlainList {
    /// What an element's head answers.
    fn element_answer(&self, element: u32) -> Given
        requires { element < self.now.most }
        ensures { result ≡ element_answer self.now self.now.type_number element }
    {
        let from = self.start(element);
        match self.type_number {
            None => {
                let origin = Origin {
                    member: self.list.origin.member,
                    case: CaseNumber::none(),
                    home: self.list.origin.home,
                };
                leaf(origin, from, self.start(element + 1))
            }
            Some(type_number) => Given::Head(Head::Object(Object {
                origin: self.origin,
                type_number,
                stream: self.list.stream,
                start: Place::at_byte(from),
                ending: ObjectEnd::ByFields,
            })),
        }
    }

    /// How a field is read.
    fn field_origin(&self, field: u32) -> Origin
        ensures { result ≡ field_origin self.now field }
    {
        Origin {
            member: MemberRef {
                type_number: self.type_number.unwrap_or(0),
                member: self.part(field).member,
            },
            case: CaseNumber::none(),
            home: self.list.stream,
        }
    }

    /// What a field's head answers.
    fn field_answer(&self, element: u32, field: u32) -> Given
        requires element { element < self.now.most }
        requires field { field < length self.now.parts.items }
        ensures { result ≡ answer_of self.now (Spot.FieldHead element field) }
    {
        let from = self.edge_at(element, field);
        let to = self.edge_at(element, field + 1);
        leaf(self.field_origin(field), from, to)
    }

    /// Whether the list is known to end with an element.
    pub(crate) fn is_closing(&self, element: u32) -> bool
        requires { element < self.now.most }
        ensures { result ≡ is_closing self.now element }
    {
        self.closed && element + 1 == self.most
    }

    /// What a node of an element answers.
    fn answer_of(&self, spot: Spot) -> Given
        requires { IsOne self.now spot }
        ensures { result ≡ answer_of self.now spot }
    {
        let (to, last) = match spot {
            Spot::ElementHead(element) => return self.element_answer(element),
            Spot::FieldHead(element, field) => return self.field_answer(element, field),
            Spot::ElementEnd(element) => (self.start(element + 1), self.is_closing(element)),
            Spot::FieldEnd(element, field) => (self.edge_at(element, field + 1), false),
            Spot::Value(element) => {
                return Given::Value(Value::Int(Integer::from(u64::from(self.says(element)))));
            }
        };
        Given::End {
            place: Place::at_byte(to),
            last,
        }
    }

    /// The fault of the first element that isn't there.
    fn missing_fault(&self, alloc: Global) -> Result<Fault, AllocError>
        ensures { IfOk result (λ fault. fault ≡ missing_fault self.now) }
    {
        let path = match self.root.path.child_index(alloc, self.most)? {
            Some(path) => path,
            None => self.root.path.copy(alloc)?,
        };
        Ok(Fault {
            kind: FaultKind::BadIndex,
            path,
        })
    }

    /// What a node answers.
    pub(crate) fn answer_in(
        &self,
        alloc: Global,
        numbered: Numbered,
    ) -> Result<Result<Given, Fault>, AllocError>
        requires { IsThere self.now numbered }
        ensures { IfOk result (λ answer. answer ≡ answer_in self.now numbered) }
    {
        match numbered {
            Numbered::Of(spot) => Ok(Ok(self.answer_of(spot))),
            Numbered::Rest(_) => Ok(Ok(Given::Rest {
                count: self.most,
                place: Place::at_byte(self.start(self.most)),
            })),
            Numbered::MissingHead(_) | Numbered::MissingEnd(_) => {
                Ok(Err(self.missing_fault(alloc)?))
            }
        }
    }

    // ---- uses

    /// Whether an element is the last one depends on the byte behind it.
    pub(crate) fn is_open(&self) -> bool
        ensures { result ≡ is_open self.now }
    {
        self.list.count.get().is_none() && self.list.stream.to.get().is_none()
    }

    /// How far the file must go, where an element ends and isn't the last.
    fn end_reach(&self, place: u32) -> u32
        requires { place ≤ end_limit }
        ensures { result ≡ end_reach self.now place }
    {
        if self.is_open() { place + 1 } else { place }
    }

    /// How far the head of an object reads.
    fn prior_reach(&self, element: u32) -> u32
        requires { element ≤ self.now.most }
        ensures { result ≡ prior_reach self.now element }
    {
        if element == 0 {
            0
        } else {
            self.end_reach(self.start(element))
        }
    }

    /// How far the head of an element reads.
    fn head_reach(&self, element: u32) -> u32
        requires { element < self.now.most }
        ensures { result ≡ head_reach self.now self.now.parts.items element }
    {
        if self.parts.is_empty() {
            self.start(element + 1)
        } else {
            self.prior_reach(element)
        }
    }

    /// The farthest place to which a node reads; 0 if to none.
    pub(crate) fn reach_of(&self, spot: Spot) -> u32
        requires { IsOne self.now spot }
        ensures { result ≡ reach_of self.now spot }
    {
        match spot {
            Spot::ElementHead(element) => self.head_reach(element),
            Spot::ElementEnd(element) => self.end_reach(self.start(element + 1)),
            Spot::FieldHead(element, field) | Spot::FieldEnd(element, field) => {
                self.edge_at(element, field + 1)
            }
            Spot::Value(element) => self.edge_at(element, self.sizer() + 1),
        }
    }

    /// What a value uses: the bytes of its field.
    fn value_used(&self, element: u32) -> Option<Use>
        requires { IsOne self.now (Spot.Value element) }
        ensures { spot_uses self.now (Spot.Value element) ≡ used_of result }
    {
        let field = self.sizer();
        let from = self.edge_at(element, field);
        let to = self.edge_at(element, field + 1);
        Some(Use::Bytes(from, to))
    }

    /// What a node of an element uses.
    fn spot_used(&self, spot: Spot) -> Option<Use>
        requires { IsOne self.now spot }
        ensures { spot_uses self.now spot ≡ used_of result }
    {
        let is_sized = match spot {
            Spot::ElementEnd(element) => self.is_open() && self.is_closing(element),
            Spot::ElementHead(_) | Spot::FieldHead(_, _) | Spot::FieldEnd(_, _) => false,
            Spot::Value(element) => return self.value_used(element),
        };
        if is_sized {
            return Some(Use::Size);
        }
        let reach = self.reach_of(spot);
        if reach == 0 {
            None
        } else {
            Some(Use::Reach(reach))
        }
    }

    /// What a node uses: behind the elements what the last end does.
    pub(crate) fn used_in(&self, numbered: Numbered) -> Option<Use>
        requires { IsThere self.now numbered }
        ensures { uses_in self.now numbered ≡ used_of result }
    {
        match numbered {
            Numbered::Of(spot) => self.spot_used(spot),
            Numbered::Rest(_) | Numbered::MissingHead(_) | Numbered::MissingEnd(_) => {
                self.spot_used(Spot::ElementEnd(self.most - 1))
            }
        }
    }
}
