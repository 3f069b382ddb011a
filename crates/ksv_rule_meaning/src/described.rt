//! The rules of a description, for an engine.

ghost use Rattle.std.specs.Prelude.{◌≡◌, ◌++◌, [], Ok, IfOk, IfSome, OnOk, OnErr};
ghost use Rattle.ksv_desc.specs.Whole.{plain_pieces};
ghost use Rattle.ksv_memo_rules.specs.Evaluation.{tells};
ghost use Rattle.ksv_memo_rules.specs.Folds.{AreTold, IsFold};
ghost use Rattle.ksv_memo_rules.specs.Meaning.{IsAddedTo, on};
ghost use Rattle.ksv_memo_rules.specs.declared.rules.Outcome.TheVariants.{Answered};
ghost use Rattle.ksv_nodes.specs.Exact.{node_exact};
ghost use Rattle.ksv_nodes.specs.Turning.{Runs};
ghost use Rattle.ksv_rule_meaning.specs.Described.{described};
ghost use Rattle.ksv_rule_meaning.specs.Lemmas.Lawful.{described_lawful};
ghost use Rattle.ksv_rule_meaning.specs.Meaning.{rule_of};

use ksv_bytes::{Buffer, Use};
use ksv_desc::Desc;
use ksv_expr_value::Fault;
use ksv_memo_rules::{Folds, Lent, Next, Replies, Rules};
use ksv_nodes::{Given, Halt, Head, Node, Turn};
use ksv_places::NodePlaces;
use std::alloc::{AllocError, Global};
use std::marker::PhantomData;

type Answer = Result<Given, Fault>;

/// Code that runs the rule of each node of a file that a description describes, and finds nodes that can be kept by numbers alone.
pub trait NodeRules {
    /// Nodes that can be kept by numbers alone.
    type Fold: Folds<Node, Given, Fault> + Drop;

    /// Runs a node's rule.
    fn rule(turn: &mut Turn, desc: &Desc, node: &Node) -> Result<Given, Halt>
        ensures { Runs (rule_of (plain_pieces desc.now) node.now) (λ given. given) turn.old turn.new result };

    /// The nodes that can be kept by numbers alone once this one has this answer over these bytes, if there are such. Which there are may depend on the node
    /// that asked for it.
    fn fold(
        alloc: Global,
        desc: &Desc,
        root: &Node,
        given: &Given,
        bytes: &Buffer,
        asker: Option<&Node>,
    ) -> Result<Option<Self::Fold>, AllocError>
        ensures { IfOk result (λ found. IfSome found (λ nodes. (Self.Fold.fold nodes).root ≡ root.now)) };

    /// How many of such nodes there are over these bytes, if their root has this answer, and so many of the first are kept. It may look no farther than to the
    /// node of a number.
    fn foldable(
        nodes: &Self::Fold,
        desc: &Desc,
        given: &Given,
        bytes: &Buffer,
        kept: u32,
        sought: u32,
    ) -> u32
        ensures { (tells (on (described (plain_pieces desc.now)) bytes.now) [] (Self.Fold.fold nodes.now).root).outcome ≡ Answered (Ok given.now) → AreTold (on (described (plain_pieces desc.now)) bytes.now) (Self.Fold.fold nodes.now) kept → IsFold (on (described (plain_pieces desc.now)) bytes.now) (Self.Fold.fold nodes.now) result };
}

/// The rules of a description: what each node of a file that it describes asks and answers, run by the code of `N`.
#[derive(Drop)]
pub struct Described<N> {
    /// The description.
    pub desc: Desc,
    rules: PhantomData<N>,
}

impl<N> Described<N> {
    /// The rules of this description. It takes no memory.
    pub fn new(desc: Desc) -> Self
        ensures { result.desc ≡ desc }
    {
        Described {
            desc,
            rules: PhantomData,
        }
    }

    /// The description.
    pub fn desc(&self) -> &Desc
        ensures { result.now ≡ self.now.desc }
    {
        &self.desc
    }
}

/// Adds what a turn used. Most turns use nothing, most others one thing.
fn add_uses(uses: &mut Vec<Use>, used: &[Use]) -> Result<(), AllocError>
    ensures ok { OnOk result (uses.new.items ≡ uses.old.items ++ used.now) }
    ensures err { OnErr result (uses.new.items ≡ uses.old.items) }
{
    match used {
        [] => {}
        [one] => uses.push(*one)?,
        _ => uses.extend_from_slice(used)?,
    }
    Ok(())
}

impl<N: NodeRules> Rules for Described<N> {
    ghost use Rattle.ksv_desc.specs.Whole.{plain_pieces};
    ghost use Rattle.ksv_nodes.specs.Exact.{node_exact};
    ghost use Rattle.ksv_rule_meaning.specs.Described.{described};
    ghost use Rattle.ksv_rule_meaning.specs.Lemmas.Lawful.{described_lawful};

    type Node = Node;

    type Places = NodePlaces;

    type Value = Given;

    type Fault = Fault;

    type Fold = N::Fold;

    ghost meaning = { λ rules. described (plain_pieces rules.desc) };

    #[inline(always)]
    fn next(
        &self,
        alloc: Global,
        node: Lent<'_, Node>,
        bytes: &Buffer,
        replies: &Replies<Given, Fault>,
        uses: &mut Vec<Use>,
    ) -> Result<Next<Node, Answer>, AllocError>
        ensures step { IfOk result (λ step. step ≡ (described (plain_pieces self.now.desc)).follow bytes.now node.entry replies.now) }
        ensures uses { OnOk result (uses.new.items ≡ uses.old.items ++ (described (plain_pieces self.now.desc)).added bytes.now node.entry replies.now) }
        ensures refused { OnErr result (IsAddedTo uses.old.items uses.new.items) }
    {
        let node = node.node();
        let mut turn = Turn::new(alloc, &node.path, bytes, replies);
        let ruled = N::rule(&mut turn, &self.desc, node);
        add_uses(uses, turn.uses())?;
        match ruled {
            Ok(given) => Ok(Next::Done(Ok(given))),
            Err(Halt::Need(needed)) => Ok(Next::Need(needed)),
            Err(Halt::Fault(fault)) => Ok(Next::Done(Err(fault))),
            Err(Halt::Memory) => Err(AllocError),
        }
    }

    fn copy_answer(
        &self,
        alloc: Global,
        answer: Result<&Given, &Fault>,
    ) -> Result<Answer, AllocError> {
        Ok(match answer {
            Ok(given) => Ok(given.copy(alloc)?),
            Err(fault) => Err(fault.copy(alloc)?),
        })
    }

    #[inline(always)]
    fn may_fold(&self, value: &Given) -> bool {
        matches!(value, Given::Head(Head::List(_)))
    }

    fn fold(
        &self,
        alloc: Global,
        root: &Node,
        value: &Given,
        bytes: &Buffer,
        asker: Option<&Node>,
    ) -> Result<Option<N::Fold>, AllocError> {
        N::fold(alloc, &self.desc, root, value, bytes, asker)
    }

    fn foldable(
        &self,
        nodes: &N::Fold,
        value: &Given,
        bytes: &Buffer,
        kept: u32,
        sought: u32,
    ) -> u32 {
        N::foldable(nodes, &self.desc, value, bytes, kept, sought)
    }

    ghost exact = { node_exact };

    ghost lawful = { λ rules. described_lawful (plain_pieces rules.desc) };
}
