//! Nodes that an engine can keep by numbers alone.
ghost use Rattle.std.specs.Prelude.{◌≡◌, ℕ, ◌-◌, ◌<◌, ◌≤◌, IfOk, IfSome, IfNone, Result};
ghost use Rattle.ksv_memo_rules.specs.Folds.{BeginsAs, Fold, IsLaid, Leaves, calls_from, used_of};

use ksv_bytes::{Buffer, Change, Use};
use std::alloc::{AllocError, Global};

/// Nodes in an order that an engine can keep by numbers alone, from 0 on, once the first of all, their *root*, has its answer: it
/// needs no slot for each.
///
/// What is kept of a node follows from its number: its answer, and the use by which an edit takes it, unless the edit takes the root or the earlier node
/// that its entry names.
pub trait Folds<N, V, F> {
    /// The sequence of the nodes.
    ghost fold: { Self → Fold N (Result V F) };

    /// Each node comes once, and is kept by one node, the root or an earlier one, and one use at most.
    ghost laid: { (nodes : Self) → IsLaid (fold nodes) };

    /// The root.
    fn root(&self) -> &N
        ensures { result.now ≡ (fold self.now).root };

    /// The number of a node, if it is one of them.
    fn place(&self, node: &N) -> Option<u32>
        ensures in_size { IfSome result (λ j. j < (fold self.now).size) }
        ensures some { IfSome result (λ j. ((fold self.now).entry j).node ≡ node.now) }
        ensures none { IfNone result ((j : ℕ) → j < (fold self.now).size → ((fold self.now).entry j).node ≡ node.now → ⊥) };

    /// The node of a number. Where there are no nodes, any number will do.
    fn node(&self, alloc: Global, place: u32) -> Result<N, AllocError>
        requires { 0 < (fold self.now).size → place < (fold self.now).size }
        ensures { IfOk result (λ node. ((fold self.now).entry place).node ≡ node) };

    /// The answer of the node of a number, a value or a fault. Where there are no nodes, any number will do.
    fn answer(&self, alloc: Global, place: u32) -> Result<Result<V, F>, AllocError>
        requires { 0 < (fold self.now).size → place < (fold self.now).size }
        ensures { IfOk result (λ answer. ((fold self.now).entry place).answer ≡ answer) };

    /// The use by which an edit takes the node of a number, if there is one, unless it takes what its entry names. Where there are no nodes, any number will do.
    fn used(&self, place: u32) -> Option<Use>
        requires { 0 < (fold self.now).size → place < (fold self.now).size }
        ensures { ((fold self.now).entry place).uses ≡ used_of result };

    /// How many of the first nodes an edit leaves that doesn't take the root.
    fn left(&self, kept: u32, change: Change) -> u32
        requires { kept ≤ (fold self.now).size }
        ensures { Leaves (fold self.now) change kept result };

    /// How many of the first nodes evaluation of the node of a number completes. Where there are no nodes, any number will do.
    fn whole(&self, place: u32) -> u32
        requires { 0 < (fold self.now).size → place < (fold self.now).size }
        ensures { result ≡ (fold self.now).whole place };

    /// The calls of the rules that the nodes take from one of a number on, before one of another.
    fn calls(&self, from: u32, to: u32) -> u64
        requires order { from ≤ to }
        requires in_size { to ≤ (fold self.now).size }
        ensures { result ≡ calls_from (fold self.now).calls from (to - from) };

    /// Tells the nodes anew over these bytes, where the root has this value: there may be more of them, or fewer. So many of the first stay as they are. Which
    /// others there are may depend on the node that is asked next.
    fn retell(&mut self, value: &V, bytes: &Buffer, kept: u32, asked: &N)
        requires { kept ≤ (fold self.old).size }
        ensures { BeginsAs (fold self.old) (fold self.new) kept };
}

/// No nodes, for rules of which none can be kept so.
#[derive(Drop)]
pub struct NoFold<N, V> {
    root: N,
    value: V,
}

impl<N, V, F> Folds<N, V, F> for NoFold<N, V> {
    ghost use Rattle.std.specs.Prelude.{[], ◌∷◌, None, Ok};
    ghost use Rattle.ksv_memo_rules.specs.Unfolded.{none_laid};

    ghost fold = { λ nodes. record { root = nodes.root; size = 0; entry = λ j. record { node = nodes.root; answer = Ok nodes.value; asked = nodes.root ∷ []; uses = [] }; prior = λ j. None; whole = λ j. 0; calls = λ j. 0 } };

    ghost laid = { λ nodes. none_laid nodes.root (Ok nodes.value) };

    fn root(&self) -> &N {
        &self.root
    }

    fn place(&self, _node: &N) -> Option<u32> {
        None
    }

    fn node(&self, _alloc: Global, _place: u32) -> Result<N, AllocError> {
        Err(AllocError)
    }

    fn answer(&self, _alloc: Global, _place: u32) -> Result<Result<V, F>, AllocError> {
        Err(AllocError)
    }

    fn used(&self, _place: u32) -> Option<Use> {
        None
    }

    fn left(&self, _kept: u32, _change: Change) -> u32 {
        0
    }

    fn whole(&self, _place: u32) -> u32 {
        0
    }

    fn calls(&self, _from: u32, _to: u32) -> u64 {
        0
    }

    fn retell(&mut self, _value: &V, _bytes: &Buffer, _kept: u32, _asked: &N) {}
}
