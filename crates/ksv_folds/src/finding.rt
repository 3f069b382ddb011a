//! Which node of an element a node is, and its number.
#![tactic(auto)]

ghost use Rattle.std.specs.Prelude.{◌≡◌, ◌<◌, ◌+◌, ◌∷◌, ℕ, length, IfSome, IfNone};
ghost use Rattle.ksv_expr_value.specs.declared.step.Step.TheVariants.{Index};
ghost use Rattle.ksv_folds.specs.Parts.{part};
ghost use Rattle.ksv_folds.specs.Sequence.{IsOne, IsAt, IsBehind, IsMissing, IsThere, IsNumbered, element_spot, member_spot, past_value, index_of, number_of, elements_size, size_of};
ghost use Rattle.ksv_folds.specs.declared.spot.Numbered.{Numbered};
ghost use Rattle.ksv_nodes.specs.declared.node.NodeKind.{NodeKind};
ghost use Rattle.ksv_folds.specs.declared.spot.Spot.{Spot};

use crate::plain_list::PlainList;
use crate::spot::{Numbered, Spot};
use crate::tail::{Tail, tail_of};
use ksv_nodes::{ELEMENT_LIMIT, Node, NodeKind};

/// The head or the end of an element.
fn element_spot(kind: NodeKind, element: u32) -> Option<Spot>
    ensures { result ≡ element_spot kind element }
{
    match kind {
        NodeKind::Head => Some(Spot::ElementHead(element)),
        NodeKind::End => Some(Spot::ElementEnd(element)),
        NodeKind::Value | NodeKind::Rest => None,
    }
}

impl PlainList {
    /// The head or the end of a field, or the value that says a size.
    fn member_spot(&self, kind: NodeKind, element: u32, field: u32) -> Option<Spot>
        ensures { result ≡ member_spot self.now kind element field }
    {
        match kind {
            NodeKind::Head => Some(Spot::FieldHead(element, field)),
            NodeKind::End => Some(Spot::FieldEnd(element, field)),
            NodeKind::Value => {
                if self.says_sizes() && field == self.sizer() {
                    Some(Spot::Value(element))
                } else {
                    None
                }
            }
            NodeKind::Rest => None,
        }
    }

    /// The number of the first field of a name.
    fn field_named(&self, name: u32) -> Option<u32>
        ensures some { IfSome result (λ f. (f < length self.now.parts.items) × ((part self.now.parts.items f).name ≡ name)) }
        ensures none { IfNone result ((f : ℕ) → f < length self.now.parts.items → (part self.now.parts.items f).name ≡ name → ⊥) }
    {
        let mut field = 0;
        for part in &self.parts {
            if part.name == name {
                return Some(field);
            }
            field += 1;
        }
        None
    }

    /// Which node of an element this is.
    fn spot_for(&self, node: &Node) -> Option<Spot>
        ensures some { IfSome result (IsAt self.now node.now) }
        ensures none { IfNone result ((s : Spot) → IsAt self.now node.now s → ⊥) }
    {
        match tail_of(&node.path, &self.root.path) {
            Tail::Other => None,
            Tail::Element(element) => {
                if element >= self.most {
                    return None;
                }
                element_spot(node.kind, element)
            }
            Tail::Member(element, name) => {
                if element >= self.most {
                    return None;
                }
                let field = self.field_named(name)?;
                self.member_spot(node.kind, element, field)
            }
        }
    }

    /// From which element on it is a rest.
    fn rest_for(&self, node: &Node) -> Option<u32>
        ensures some { IfSome result (λ i. IsBehind self.now node.now (Numbered.Rest i) NodeKind.Rest i) }
        ensures none { IfNone result ((i : ℕ) → IsBehind self.now node.now (Numbered.Rest i) NodeKind.Rest i → ⊥) }
    {
        match node.kind {
            NodeKind::Rest => {}
            NodeKind::Head | NodeKind::End | NodeKind::Value => return None,
        }
        match tail_of(&node.path, &self.root.path) {
            Tail::Element(element) => {
                if !self.closed || self.missing || element >= self.most {
                    return None;
                }
                Some(element)
            }
            Tail::Other | Tail::Member(_, _) => None,
        }
    }

    /// Which of the elements that aren't there its path leads to, counted from the first.
    fn missing_element(&self, node: &Node) -> Option<u32>
        ensures some { IfSome result (λ k. IsMissing self.now k × (node.now.path.upward ≡ Index (self.now.most + k) ∷ self.now.root.path.upward)) }
        ensures none { IfNone result ((k : ℕ) → IsMissing self.now k → node.now.path.upward ≡ Index (self.now.most + k) ∷ self.now.root.path.upward → ⊥) }
    {
        if !self.closed || !self.missing {
            return None;
        }
        match tail_of(&node.path, &self.root.path) {
            Tail::Element(element) => {
                if element < self.most || element >= ELEMENT_LIMIT {
                    return None;
                }
                Some(element - self.most)
            }
            Tail::Other | Tail::Member(_, _) => None,
        }
    }

    /// Which node of these it is.
    fn missing_for(&self, node: &Node) -> Option<Numbered>
        ensures some { IfSome result (IsNumbered self.now node.now) }
        ensures heads { IfNone result ((k : ℕ) → IsBehind self.now node.now (Numbered.MissingHead k) NodeKind.Head (self.now.most + k) → ⊥) }
        ensures ends { IfNone result ((k : ℕ) → IsBehind self.now node.now (Numbered.MissingEnd k) NodeKind.End (self.now.most + k) → ⊥) }
    {
        let element = self.missing_element(node)?;
        match node.kind {
            NodeKind::Head => Some(Numbered::MissingHead(element)),
            NodeKind::End => Some(Numbered::MissingEnd(element)),
            NodeKind::Value | NodeKind::Rest => None,
        }
    }

    /// Which node this is.
    pub(crate) fn numbered_for(&self, node: &Node) -> Option<Numbered>
        ensures some { IfSome result (IsNumbered self.now node.now) }
        ensures none { IfNone result ((s : Numbered) → IsNumbered self.now node.now s → ⊥) }
    {
        match self.spot_for(node) {
            Some(spot) => Some(Numbered::Of(spot)),
            None => match self.rest_for(node) {
                Some(element) => Some(Numbered::Rest(element)),
                None => self.missing_for(node),
            },
        }
    }

    /// One for the value, before the last field.
    fn past_value(&self, field: u32) -> u32
        requires { field < length self.now.parts.items }
        ensures { result ≡ past_value self.now.per field }
    {
        if 2 * field + 5 == self.per { 1 } else { 0 }
    }

    /// The number of a node of an element.
    #[tactic(auto, using(crate::specs::Lemmas::Numbers::index_low))]
    fn index(&self, spot: Spot) -> u32
        requires { IsOne self.now spot }
        ensures value { result ≡ index_of self.now spot }
        ensures small { result < elements_size self.now }
    {
        match spot {
            Spot::ElementHead(element) => self.per * element,
            Spot::ElementEnd(element) => self.per * element + (self.per - 1),
            Spot::FieldHead(element, field) => {
                self.per * element + (2 * field + 1 + self.past_value(field))
            }
            Spot::FieldEnd(element, field) => {
                self.per * element + (2 * field + 2 + self.past_value(field))
            }
            Spot::Value(element) => self.per * element + (self.per - 4),
        }
    }

    /// The number of a node.
    #[tactic(auto, using(crate::specs::Lemmas::Numbers::number_low))]
    pub(crate) fn number(&self, numbered: Numbered) -> u32
        requires { IsThere self.now numbered }
        ensures value { result ≡ number_of self.now numbered }
        ensures small { result < size_of self.now }
    {
        match numbered {
            Numbered::Of(spot) => self.index(spot),
            Numbered::Rest(element) => self.elements_size() + (self.most - 1 - element),
            Numbered::MissingHead(element) => self.elements_size() + 2 * element,
            Numbered::MissingEnd(element) => self.elements_size() + (2 * element + 1),
        }
    }
}
