//! `at`: where what is at a path begins and ends.
ghost use Rattle.std.specs.Prelude.{◌++◌, codes, string_bytes};
ghost use Rattle.ksv_basics.specs.Plan.{Answer};
ghost use Rattle.ksv_questions.specs.Code.{IsRightFor, RunsOn, Settles};
ghost use Rattle.ksv_questions.specs.Questions.{from_place, of_head, place_question};
ghost use Rattle.ksv_texts.specs.Texts.{place_text};

use crate::asking::Untold;
use crate::file::File;
use crate::parts::{ask_end, ask_head};
use ksv_expr_value::{Path, Place};
use ksv_memo::Engine;
use ksv_nodes::Head;
use ksv_rule_meaning::{Described, NodeRules};
use ksv_texts::push_place;
use std::alloc::Global;

/// Where something begins and ends.
fn places_text(alloc: Global, from: Place, to: Place) -> Result<String, Untold>
    ensures { Settles (Answer (codes "at " ++ place_text from ++ codes " " ++ place_text to)) (λ text. string_bytes text) result }
{
    let mut text = String::from_str(alloc, "at ")?;
    push_place(&mut text, from)?;
    text.push_str(" ")?;
    push_place(&mut text, to)?;
    Ok(text)
}

/// Where the thing at a path begins and ends; where it begins is known.
#[tactic(auto, unfolding(crate::specs::Questions::from_place))]
fn from_place<N: NodeRules>(
    file: &File<N>,
    engine: &mut Engine<Described<N>>,
    path: &Path,
    from: Place,
) -> Result<String, Untold>
    requires { IsRightFor file.now engine.old }
    ensures { RunsOn file.now (λ _ _. from_place path.now from) (λ text. string_bytes text) engine.old engine.new result }
{
    let to = ask_end(file, engine, path)?;
    places_text(file.alloc, from, to)
}

/// Where the thing at a path begins and ends, by its head.
fn of_head<N: NodeRules>(
    file: &File<N>,
    engine: &mut Engine<Described<N>>,
    path: &Path,
    head: Head,
) -> Result<String, Untold>
    requires { IsRightFor file.now engine.old }
    ensures { RunsOn file.now (λ _ _. of_head path.now head) (λ text. string_bytes text) engine.old engine.new result }
{
    match head {
        Head::Absent(_) => Ok(String::from_str(file.alloc, "absent")?),
        Head::Calc(_) => Ok(String::from_str(file.alloc, "calculated")?),
        Head::Leaf(leaf) => { from_place(file, engine, path, leaf.from) }
        Head::Object(object) => { from_place(file, engine, path, object.start) }
        Head::List(list) => { from_place(file, engine, path, list.start) }
    }
}

/// Where the thing at a path begins and ends.
#[tactic(auto, unfolding(crate::specs::Questions::place_question))]
pub(crate) fn place_question<N: NodeRules>(
    file: &File<N>,
    engine: &mut Engine<Described<N>>,
    path: &Path,
) -> Result<String, Untold>
    requires { IsRightFor file.now engine.old }
    ensures { RunsOn file.now (λ _ _. place_question path.now) (λ text. string_bytes text) engine.old engine.new result }
{
    let head = ask_head(file, engine, path, path)?;
    of_head(file, engine, path, head)
}
