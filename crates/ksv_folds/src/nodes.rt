//! The nodes of numbers.
#![tactic(auto)]

ghost use Rattle.std.specs.Prelude.{◌≡◌, IfOk, unwrap_or};
ghost use Rattle.std.specs.Option.{option_map};
ghost use Rattle.ksv_folds.specs.Sequence.{IsOne, IsThere, field_path, node_of, node_in};

use crate::plain_list::PlainList;
use crate::spot::{Numbered, Spot};
use ksv_expr_value::Path;
use ksv_nodes::{Node, NodeKind};
use std::alloc::{AllocError, Global};

impl PlainList {
    /// The path of an element's field.
    fn field_path(
        &self,
        alloc: Global,
        element: u32,
        field: u32,
    ) -> Result<Option<Path>, AllocError>
        ensures { IfOk result (λ path. path ≡ field_path self.now element field) }
    {
        match self.root.path.child_index(alloc, element)? {
            Some(path) => path.child_name(alloc, self.part(field).name),
            None => Ok(None),
        }
    }

    /// The node of a kind and a path; where there is no path, the list's head.
    fn node_at(&self, alloc: Global, kind: NodeKind, path: Option<Path>) -> Result<Node, AllocError>
        ensures { IfOk result (λ node. node ≡ unwrap_or (option_map (λ q. record { kind = kind; path = q }) path) self.now.root) }
    {
        match path {
            Some(path) => Ok(Node { kind, path }),
            None => self.root.copy(alloc),
        }
    }

    /// A node of an element.
    fn node_of(&self, alloc: Global, spot: Spot) -> Result<Node, AllocError>
        requires { IsOne self.now spot }
        ensures { IfOk result (λ node. node ≡ node_of self.now spot) }
    {
        match spot {
            Spot::ElementHead(element) => {
                let path = self.root.path.child_index(alloc, element)?;
                self.node_at(alloc, NodeKind::Head, path)
            }
            Spot::ElementEnd(element) => {
                let path = self.root.path.child_index(alloc, element)?;
                self.node_at(alloc, NodeKind::End, path)
            }
            Spot::FieldHead(element, field) => {
                let path = self.field_path(alloc, element, field)?;
                self.node_at(alloc, NodeKind::Head, path)
            }
            Spot::FieldEnd(element, field) => {
                let path = self.field_path(alloc, element, field)?;
                self.node_at(alloc, NodeKind::End, path)
            }
            Spot::Value(element) => {
                let path = self.field_path(alloc, element, self.sizer())?;
                self.node_at(alloc, NodeKind::Value, path)
            }
        }
    }

    /// A node.
    pub(crate) fn node_in(&self, alloc: Global, numbered: Numbered) -> Result<Node, AllocError>
        requires { IsThere self.now numbered }
        ensures { IfOk result (λ node. node ≡ node_in self.now numbered) }
    {
        match numbered {
            Numbered::Of(spot) => self.node_of(alloc, spot),
            Numbered::Rest(element) => {
                let path = self.root.path.child_index(alloc, element)?;
                self.node_at(alloc, NodeKind::Rest, path)
            }
            Numbered::MissingHead(element) => {
                let path = self.root.path.child_index(alloc, self.most + element)?;
                self.node_at(alloc, NodeKind::Head, path)
            }
            Numbered::MissingEnd(element) => {
                let path = self.root.path.child_index(alloc, self.most + element)?;
                self.node_at(alloc, NodeKind::End, path)
            }
        }
    }
}
