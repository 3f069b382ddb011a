//! Nodes with numbers, found by a hash.
ghost use Rattle.std.specs.Prelude.{◌≡◌, true, ⊤};

use indexmap::IndexSet;
use ksv_memo_rules::Places;
use std::alloc::{AllocError, Global};
use std::hash::Hash;

/// Small nodes, each of which is equal only to itself.
pub trait Exact: Eq + Hash + Copy + Drop {
    /// Equal nodes are the same.
    ghost exact: { (a b : Self) → Self.eq a b ≡ true → a ≡ b };
}

/// Nodes with numbers, in a set that keeps their order.
#[derive(Drop)]
pub struct Hashed<N: Exact> {
    nodes: IndexSet<N>,
}

impl<N: Exact> Places<N> for Hashed<N> {
    ghost nodes = { λ places. places.nodes.keys };

    ghost ends = { λ _ _. ⊤ };

    fn new(alloc: Global) -> Self {
        Hashed {
            nodes: IndexSet::new(alloc),
        }
    }

    fn find(&mut self, node: &N) -> Option<usize> {
        if self.nodes.len() == 0 {
            return None;
        }
        self.nodes.get_index_of(node)
    }

    fn add(&mut self, node: &N) -> Result<(), AllocError> {
        self.nodes.insert(*node)?;
        Ok(())
    }

    fn give(&mut self, place: usize, node: &N) -> Result<(), AllocError> {
        self.nodes.insert(*node)?;
        // The node that was added last takes the place of the one that had the number.
        let _ = self.nodes.swap_remove_index(place);
        Ok(())
    }

    fn tidy(&mut self) {}
}
