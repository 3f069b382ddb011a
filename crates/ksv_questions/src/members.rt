//! `ls`: the members of the object at a path, or the number of elements of the list.
ghost use Rattle.std.specs.Prelude.{string_bytes};
ghost use Rattle.ksv_questions.specs.Code.{IsRightFor, RunsOn};
ghost use Rattle.ksv_questions.specs.Questions.{members_question, parts_of};

use crate::asking::Untold;
use crate::file::File;
use crate::list::of_list;
use crate::parts::ask_head;
use ksv_expr_value::Path;
use ksv_memo::Engine;
use ksv_nodes::Head;
use ksv_rule_meaning::{Described, NodeRules};
use ksv_texts::names_text;

/// The members of an object, or the number of elements of a list.
fn parts_of<N: NodeRules>(
    file: &File<N>,
    engine: &mut Engine<Described<N>>,
    path: &Path,
    head: Head,
) -> Result<String, Untold>
    requires { IsRightFor file.now engine.old }
    ensures { RunsOn file.now (λ d _. parts_of d path.now head) (λ text. string_bytes text) engine.old engine.new result }
{
    match head {
        Head::Absent(_) => Ok(String::from_str(file.alloc, "absent")?),
        Head::Object(object) => {
            let desc = &file.described.desc;
            Ok(names_text(file.alloc, desc, desc.members(object.type_number))?)
        }
        Head::List(_) => of_list(file, engine, path, path),
        _ => Ok(String::from_str(file.alloc, "no members")?),
    }
}

/// The members of the object at a path, or the number of elements of the list.
#[tactic(auto, unfolding(crate::specs::Questions::members_question))]
pub(crate) fn members_question<N: NodeRules>(
    file: &File<N>,
    engine: &mut Engine<Described<N>>,
    path: &Path,
) -> Result<String, Untold>
    requires { IsRightFor file.now engine.old }
    ensures { RunsOn file.now (λ d _. members_question d path.now) (λ text. string_bytes text) engine.old engine.new result }
{
    let head = ask_head(file, engine, path, path)?;
    parts_of(file, engine, path, head)
}
