//! Nodes that are run: one that is held is lent for one call of the rules at a time.
ghost use Rattle.std.specs.Prelude.{◌≡◌, ℕ, ◌<◌, IfOk, IfSome, IfNone};

use crate::folds::Folds;
use crate::rules::Rules;
use ksv_bytes::Buffer;
use std::alloc::{AllocError, Global};
use std::marker::Model;

/// A node that is held until it has been run. It is lent, and never given back: who holds it can do nothing else with it.
#[derive(Drop)]
pub struct Held<N> {
    node: N,
}

impl<N> Model for Held<N> {
    ghost Value = { N };

    ghost view = { λ held. held.node };
}

impl<N> Held<N> {
    /// Holds a node.
    #[inline(always)]
    pub fn new(node: N) -> Self
        ensures { result ≡ node }
    {
        Held { node }
    }

    /// Lends the node for one call.
    #[inline(always)]
    pub fn lend(&self) -> Lent<'_, N>
        ensures { result ≡ self.now }
    {
        Lent { node: &self.node }
    }

    /// The number of the node among nodes that can be kept by numbers alone.
    pub fn place_in<V, F, S: Folds<N, V, F>>(&self, nodes: &S) -> Option<u32>
        ensures in_size { IfSome result (λ j. j < (S.fold nodes.now).size) }
        ensures some { IfSome result (λ j. ((S.fold nodes.now).entry j).node ≡ self.now) }
        ensures none { IfNone result ((j : ℕ) → j < (S.fold nodes.now).size → ((S.fold nodes.now).entry j).node ≡ self.now → ⊥) }
    {
        nodes.place(&self.node)
    }

    /// The nodes that can be kept by numbers alone once the node has this value over these bytes, where this one asked for it.
    pub fn fold<R: Rules<Node = N>>(
        &self,
        rules: &R,
        alloc: Global,
        value: &R::Value,
        bytes: &Buffer,
        asker: Option<&Held<N>>,
    ) -> Result<Option<R::Fold>, AllocError>
        ensures { IfOk result (λ found. IfSome found (λ nodes. (R.Fold.fold nodes).root ≡ self.now)) }
    {
        let asker = match asker {
            Some(held) => Some(&held.node),
            None => None,
        };
        rules.fold(alloc, &self.node, value, bytes, asker)
    }
}

/// A node that is lent for one call of the rules, which takes it. It can't be copied, and only who holds a node makes one.
#[derive(Drop)]
pub struct Lent<'a, N> {
    node: &'a N,
}

impl<'a, N> Model for Lent<'a, N> {
    ghost Value = { N };

    ghost view = { λ lent. lent.node.now };
}

impl<'a, N> Lent<'a, N> {
    /// The node, for the rules that are called.
    #[inline(always)]
    pub fn node(self) -> &'a N
        ensures { result.now ≡ self.entry }
    {
        self.node
    }
}
