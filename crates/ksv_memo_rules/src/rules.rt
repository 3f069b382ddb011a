//! What rules are, and the laws that they obey.
ghost use Rattle.std.specs.Prelude.{◌≡◌, ℕ, ◌++◌, List, [], true, Result, Ok, IfOk, IfSome, OnOk, OnErr};
ghost use Rattle.ksv_memo_rules.specs.Evaluation.{tells};
ghost use Rattle.ksv_memo_rules.specs.Folds.{AreTold, IsFold};
ghost use Rattle.ksv_memo_rules.specs.Meaning.{on};
ghost use Rattle.ksv_memo_rules.specs.Slots.{lent};

use crate::folds::Folds;
use crate::held::Lent;
use crate::places::Places;
use crate::replies::Replies;
use ksv_bytes::{Buffer, Use};
use std::alloc::{AllocError, Global};

/// The reply to a question for a node: a value or a fault.
pub type Reply<R> = Result<<R as Rules>::Value, <R as Rules>::Fault>;

/// What a node does next.
#[derive(Drop)]
pub enum Next<N, A> {
    /// It needs the answer of this node.
    Need(N),
    /// It has this answer.
    Done(A),
}

/// The outcome of asking a node while some nodes are open.
#[derive(Drop)]
pub enum Outcome<N, A> {
    /// The node's answer.
    Answered(A),
    /// A node was asked while it was open.
    Circle(N),
}

/// Rules by which the answers of nodes follow from the answers of other nodes and from the bytes of a file.
///
/// Their laws, for all replies: a node is equal only to itself; each node has a number of its own below a bound of
/// the rules; a second bound is the number of replies after which every node is done; and if two lists of bytes
/// agree on the uses that a call adds, the call is the same on both.
pub trait Rules {
    ghost use Rattle.ksv_memo_rules.specs.Meaning.{Meaning, IsLawful, IsAddedTo};

    /// What can be asked.
    type Node: Eq + Drop;

    /// The numbers of nodes.
    type Places: Places<Self::Node> + Drop;

    /// What a node answers.
    type Value: Drop;

    /// What a node answers if it has no value.
    type Fault: Drop;

    /// Nodes that can be kept by numbers alone.
    type Fold: Folds<Self::Node, Self::Value, Self::Fault> + Drop;

    /// What the rules mean, for all bytes.
    ghost meaning: { Self → Meaning Self.Node (Result Self.Value Self.Fault) };

    /// What a node does next after these replies to what it needed. It takes the node that it is lent, so who has lent one can't
    /// call it twice. It adds to `uses` what its readings of the bytes depend on. If memory is refused, `uses` still begins with
    /// what it held before.
    fn next(
        &self,
        alloc: Global,
        node: Lent<'_, Self::Node>,
        bytes: &Buffer,
        replies: &Replies<Self::Value, Self::Fault>,
        uses: &mut Vec<Use>,
    ) -> Result<Next<Self::Node, Result<Self::Value, Self::Fault>>, AllocError>
        ensures step { IfOk result (λ step. step ≡ (meaning self.now).follow bytes.now node.entry replies.now) }
        ensures uses { OnOk result (uses.new.items ≡ uses.old.items ++ (meaning self.now).added bytes.now node.entry replies.now) }
        ensures refused { OnErr result (IsAddedTo uses.old.items uses.new.items) };

    /// A copy of an answer that is lent.
    fn copy_answer(
        &self,
        alloc: Global,
        answer: Result<&Self::Value, &Self::Fault>,
    ) -> Result<Result<Self::Value, Self::Fault>, AllocError>
        ensures { IfOk result (λ copy. copy ≡ lent answer.entry) };

    /// Whether there may be nodes that can be kept by numbers alone once a node has this value: asked of each value, so that few are tried. What it says
    /// changes no answer.
    fn may_fold(&self, value: &Self::Value) -> bool;

    /// The nodes that can be kept by numbers alone once this one has this value over these bytes, if there are such. Which there are may depend on the node that
    /// asked for it.
    fn fold(
        &self,
        alloc: Global,
        root: &Self::Node,
        value: &Self::Value,
        bytes: &Buffer,
        asker: Option<&Self::Node>,
    ) -> Result<Option<Self::Fold>, AllocError>
        ensures { IfOk result (λ found. IfSome found (λ nodes. (Self.Fold.fold nodes).root ≡ root.now)) };

    /// How many of such nodes there are over these bytes, if their root has this value, and so many of the first are kept. It may look no farther than to the
    /// node of a number.
    fn foldable(
        &self,
        nodes: &Self::Fold,
        value: &Self::Value,
        bytes: &Buffer,
        kept: u32,
        sought: u32,
    ) -> u32
        ensures { (tells (on (meaning self.now) bytes.now) [] (Self.Fold.fold nodes.now).root).outcome ≡ Outcome.Answered (Ok value.now) → AreTold (on (meaning self.now) bytes.now) (Self.Fold.fold nodes.now) kept → IsFold (on (meaning self.now) bytes.now) (Self.Fold.fold nodes.now) result };

    /// Equal nodes are the same.
    ghost exact: { (a b : Self.Node) → Self.Node.eq a b ≡ true → a ≡ b };

    /// The laws of what the rules mean.
    ghost lawful: { (rules : Self) → IsLawful (meaning rules) };
}
