//! The places of nodes.
ghost use Rattle.std.specs.Prelude.{◌≡◌, ◌+◌, ◌&&◌, length, nat_le, reverse};
ghost use Rattle.ksv_places.specs.Tree.{EndsAt};

use crate::spots::Spots;
use ksv_memo_rules::Places;
use ksv_nodes::Node;
use std::alloc::{AllocError, Global};
use std::marker::Model;

/// How many paths have to be made for nodes that take others' places before the tree of paths is built anew.
const FEW_MADE: usize = 16384;

/// Whether most of `paths` paths were made for nodes that took others' places (`made`), if these are enough to matter.
fn is_worn(paths: usize, made: usize) -> bool
    ensures { result ≡ (nat_le 16384 made && nat_le paths (made + made)) }
{
    made >= FEW_MADE && paths.saturating_sub(made) <= made
}

/// The places of nodes, found along a tree of their paths. Contracts see the list of the nodes by their places, the paths by their
/// numbers, and where the last search ended.
#[derive(Drop)]
pub struct NodePlaces {
    spots: Spots,
    made: usize,
}

impl Model for NodePlaces {
    ghost use Rattle.ksv_places.specs.Nodes.{Placed, all_named, AllFit};

    ghost Value = { Placed };

    ghost view = { λ places. record { nodes = all_named places.spots.nodes; paths = places.spots.paths; end = places.spots.end } };

    ghost invariant = { λ places. AllFit places.spots.nodes };
}

impl NodePlaces {
    /// How many paths have numbers, also such as lead to no node; at most 2^32.
    pub fn path_count(&self) -> usize
        ensures counted { result ≡ length self.now.paths }
    {
        self.spots.path_count()
    }
}

impl Places<Node> for NodePlaces {
    ghost nodes = { λ places. places.nodes };

    ghost ends = { λ places node. EndsAt places.paths (reverse node.path.upward) places.end };

    fn new(alloc: Global) -> Self {
        NodePlaces {
            spots: Spots::new(alloc),
            made: 0,
        }
    }

    #[inline(always)]
    fn find(&mut self, node: &Node) -> Option<usize> {
        self.spots.apart();
        self.spots.find(node.kind, node.path.steps())
    }

    fn add(&mut self, node: &Node) -> Result<(), AllocError> {
        self.spots.add(node.kind, node.path.steps())
    }

    fn give(&mut self, place: usize, node: &Node) -> Result<(), AllocError> {
        let before = self.spots.path_count();
        let given = self.spots.give(place, node.kind, node.path.steps());
        let made = self.spots.path_count().saturating_sub(before);
        self.made = self.made.saturating_add(made);
        given
    }

    fn tidy(&mut self) {
        if !is_worn(self.spots.path_count(), self.made) {
            return;
        }
        self.made = 0;
        let count = self.spots.len();
        if let Ok(fresh) = self.spots.rebuilt(count) {
            self.spots = fresh;
        }
    }
}
