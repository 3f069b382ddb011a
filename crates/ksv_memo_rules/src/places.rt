//! The numbers of nodes.
ghost use Rattle.std.specs.Prelude.{◌≡◌, ◌<◌, ◌++◌, ◌∷◌, [], List, length, false, Some, slice_get, slice_set, IfSome, IfNone, OnOk, OnErr};
ghost use Rattle.std.specs.List.{list_any, IsDistinct};

use std::alloc::{AllocError, Global};

/// Nodes with numbers: from 0 on, in the order in which they came. An engine has a slot for each number.
///
/// Rules choose how a node's number is found, since they know what their nodes are.
pub trait Places<N: Eq + Drop> {
    /// The nodes in the order of their numbers.
    ghost nodes: { Self → List N };

    /// The last search ended on the way to a node. Where it ended is noted, so that the way there isn't gone again.
    ghost ends: { Self → N → Type 0 };

    /// No nodes, which take no memory.
    fn new(alloc: Global) -> Self
        ensures { nodes result ≡ [] };

    /// The number of a node, if it has one.
    fn find(&mut self, node: &N) -> Option<usize>
        ensures some { IfSome result (λ i. slice_get (nodes self.new) i ≡ Some node.now) }
        ensures none { IfNone result (list_any (N.eq node.now) (nodes self.new) ≡ false) }
        ensures ends { ends self.new node.now }
        ensures nodes { nodes self.new ≡ nodes self.old }
        ensures unique { IsDistinct N.eq (nodes self.new) };

    /// Gives the next number to a node that has none, right after the search for it.
    fn add(&mut self, node: &N) -> Result<(), AllocError>
        requires none { list_any (N.eq node.now) (nodes self.old) ≡ false }
        requires ends { ends self.old node.now }
        ensures ok { OnOk result (nodes self.new ≡ nodes self.old ++ node.now ∷ []) }
        ensures err { OnErr result (nodes self.new ≡ nodes self.old) };

    /// Gives the number of another node to a node that has none. The other node has none then.
    fn give(&mut self, place: usize, node: &N) -> Result<(), AllocError>
        requires none { list_any (N.eq node.now) (nodes self.old) ≡ false }
        requires place_in { place < length (nodes self.old) }
        ensures ok { OnOk result (nodes self.new ≡ slice_set (nodes self.old) place node.now) }
        ensures err { OnErr result (nodes self.new ≡ nodes self.old) };

    /// Gives memory back that was taken for nodes whose numbers others have now, if it is much. Where memory is refused, it
    /// isn't given back this time.
    fn tidy(&mut self)
        ensures { nodes self.new ≡ nodes self.old };
}
