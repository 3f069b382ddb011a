//! Parts of what is at a path: where each ends, and the list of elements.
#![tactic(auto)]

ghost use Rattle.ksv_expr_value.specs.Trail.{parent};
ghost use Rattle.ksv_nodes.specs.Turning.{Runs};
ghost use Rattle.ksv_rule_meaning.specs.Heads.{part_end, in_list};

use crate::wanted::missing_above;
use ksv_expr_value::{Path, Step};
use ksv_nodes::{Ended, Halt, Head, List, Turn};

/// Where a part of what is at a path ends.
#[tactic(auto, using(ksv_basics::proofs::Running::run_bind), unfolding(ksv_rule_meaning::specs::Heads::part_end))]
#[inline(always)]
pub(crate) fn part_end(turn: &mut Turn, path: &Path, step: Step) -> Result<Ended, Halt>
    ensures { Runs (part_end path.now step) (λ ended. ended) turn.old turn.new result }
{
    turn.end_of_part(path, step)
}

/// Where a part of what is at the path above a path ends.
#[tactic(auto, using(ksv_basics::proofs::Running::run_bind), unfolding(ksv_rule_meaning::specs::Heads::part_end))]
#[inline(always)]
pub(crate) fn end_beside(turn: &mut Turn, path: &Path, step: Step) -> Result<Ended, Halt>
    ensures { Runs (part_end (parent path.now) step) (λ ended. ended) turn.old turn.new result }
{
    turn.end_beside(path, step)
}

/// The list that is at the path above a path. The elements of an absent attribute are absent; what is no list has none.
#[inline(always)]
pub(crate) fn in_list_above<'a>(turn: &Turn, path: &Path, head: &'a Head) -> Result<&'a List, Halt>
    ensures { Runs (in_list (parent path.now) head.now) (λ list. list.now) turn.now turn.now result }
{
    match head {
        Head::List(list) => Ok(list),
        _ => missing_above(turn, path, head),
    }
}
