//! A node's rule, as code that an engine's rules run, and the nodes that can be kept by numbers alone.
#![tactic(auto, using(ksv_basics::proofs::Running::run_bind), unfolding(ksv_rule_meaning::specs::Meaning::meaning_of, ksv_rule_meaning::specs::Meaning::rule_of))]

ghost use Rattle.ksv_desc.specs.Whole.{plain_pieces};
ghost use Rattle.ksv_nodes.specs.Turning.{Runs};
ghost use Rattle.ksv_rule_meaning.specs.Meaning.{rule_of};

use crate::ends::{end_of, rest_of};
use crate::heads::head_of;
use crate::values::value_of;
use ksv_bytes::Buffer;
use ksv_desc::Desc;
use ksv_folds::PlainList;
use ksv_nodes::{Given, Halt, Node, NodeKind, Turn};
use ksv_rule_meaning::NodeRules;
use std::alloc::{AllocError, Global};

/// A node's rule.
#[inline(always)]
fn rule(turn: &mut Turn, desc: &Desc, node: &Node) -> Result<Given, Halt>
    ensures { Runs (rule_of (plain_pieces desc.now) node.now) (λ given. given) turn.old turn.new result }
{
    let path = &node.path;
    match node.kind {
        NodeKind::Head => match head_of(turn, desc, path) {
            Ok(head) => Ok(Given::Head(head)),
            Err(halt) => Err(halt),
        },
        NodeKind::Value => match value_of(turn, desc, path) {
            Ok(value) => Ok(Given::Value(value)),
            Err(halt) => Err(halt),
        },
        NodeKind::End => {
            let end = end_of(turn, desc, path)?;
            Ok(Given::End {
                place: end.place,
                last: end.last,
            })
        }
        NodeKind::Rest => {
            let rest = rest_of(turn, desc, path)?;
            Ok(Given::Rest {
                count: rest.count,
                place: rest.place,
            })
        }
    }
}

/// The code of the rules of heads, values and ends.
#[derive(Drop)]
pub struct DescriptionRules;

impl NodeRules for DescriptionRules {
    type Fold = PlainList;

    #[inline(always)]
    fn rule(turn: &mut Turn, desc: &Desc, node: &Node) -> Result<Given, Halt> {
        rule(turn, desc, node)
    }

    fn fold(
        alloc: Global,
        desc: &Desc,
        root: &Node,
        given: &Given,
        bytes: &Buffer,
        asker: Option<&Node>,
    ) -> Result<Option<PlainList>, AllocError> {
        PlainList::of(alloc, desc, root, given, bytes, asker)
    }

    fn foldable(
        nodes: &PlainList,
        desc: &Desc,
        given: &Given,
        bytes: &Buffer,
        kept: u32,
        sought: u32,
    ) -> u32 {
        nodes.count(desc, given, bytes, kept, sought)
    }
}
