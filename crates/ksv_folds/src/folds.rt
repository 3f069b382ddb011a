//! The nodes of a plain list, for an engine that keeps them by numbers alone.
#![tactic(auto)]

use crate::plain_list::PlainList;
use crate::spot::{Numbered, Spot};
use ksv_bytes::{Buffer, Change, Use};
use ksv_expr_value::Fault;
use ksv_memo_rules::Folds;
use ksv_nodes::{Given, Head, Node};
use std::alloc::{AllocError, Global};

impl Folds<Node, Given, Fault> for PlainList {
    ghost use Rattle.ksv_folds.specs.Lemmas.Once.{sequence_laid};
    ghost use Rattle.ksv_folds.specs.Sequence.{fold_of};

    ghost fold = { fold_of };

    ghost laid = { sequence_laid };

    fn root(&self) -> &Node {
        &self.root
    }

    fn place(&self, node: &Node) -> Option<u32> {
        match self.numbered_for(node) {
            Some(numbered) => Some(self.number(numbered)),
            None => None,
        }
    }

    #[tactic(auto, using(crate::proofs::Most::size_some))]
    fn node(&self, alloc: Global, place: u32) -> Result<Node, AllocError> {
        self.node_in(alloc, self.numbered(place))
    }

    #[tactic(auto, using(crate::proofs::Most::size_some))]
    fn answer(&self, alloc: Global, place: u32) -> Result<Result<Given, Fault>, AllocError> {
        self.answer_in(alloc, self.numbered(place))
    }

    #[tactic(auto, using(crate::proofs::Most::size_some))]
    fn used(&self, place: u32) -> Option<Use> {
        self.used_in(self.numbered(place))
    }

    fn left(&self, kept: u32, change: Change) -> u32 {
        match change {
            Change::Insert { at, .. } => self.left_from(kept, at),
            Change::Delete { at, .. } => self.left_from(kept, at),
            Change::Append => self.left_behind(kept),
            Change::Overwrite { at, n } => self.left_over(kept, at, n),
        }
    }

    #[tactic(auto, using(crate::proofs::Most::size_some, crate::specs::Lemmas::Numbers::unvalued))]
    fn whole(&self, place: u32) -> u32 {
        if self.starts.is_none() {
            return place + 1;
        }
        match self.numbered(place) {
            Numbered::Of(Spot::Value(_)) => place.saturating_sub(1),
            _ => place + 1,
        }
    }

    #[tactic(auto, using(crate::proofs::Adding::calls_between))]
    fn calls(&self, from: u32, to: u32) -> u64 {
        self.calls_to(to) - self.calls_to(from)
    }

    fn retell(&mut self, value: &Given, bytes: &Buffer, kept: u32, asked: &Node) {
        match value {
            Given::Head(Head::List(list)) => self.retell_list(list, bytes, kept, asked),
            _ => {}
        }
    }
}
