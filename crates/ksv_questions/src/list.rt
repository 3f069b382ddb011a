//! The text of a list.
ghost use Rattle.std.specs.Prelude.{string_bytes};
ghost use Rattle.ksv_basics.specs.Plan.{Answer};
ghost use Rattle.ksv_questions.specs.Code.{IsRightFor, RunsOn, Settles};
ghost use Rattle.ksv_questions.specs.Questions.{list_text, of_list};

use crate::asking::Untold;
use crate::file::File;
use crate::parts::first_asked;
use itoa::Buffer as Digits;
use ksv_expr_value::Path;
use ksv_memo::Engine;
use ksv_rule_meaning::{Described, NodeRules};
use std::alloc::Global;

/// The text of a list: the number of its elements.
fn list_text(alloc: Global, count: u32) -> Result<String, Untold>
    ensures { Settles (Answer (list_text count)) (λ text. string_bytes text) result }
{
    let mut text = String::from_str(alloc, "[")?;
    text.push_str(Digits::new().format(count))?;
    text.push_str("]")?;
    Ok(text)
}

/// The text of the list of a path; `path` is the one that the question is about.
#[tactic(auto, unfolding(crate::specs::Questions::of_list))]
pub(crate) fn of_list<N: NodeRules>(
    file: &File<N>,
    engine: &mut Engine<Described<N>>,
    path: &Path,
    list: &Path,
) -> Result<String, Untold>
    requires { IsRightFor file.now engine.old }
    ensures { RunsOn file.now (λ _ _. of_list path.now list.now) (λ text. string_bytes text) engine.old engine.new result }
{
    let count = first_asked(file, engine, path, list)?;
    list_text(file.alloc, count)
}
