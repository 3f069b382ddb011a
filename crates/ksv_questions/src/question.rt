//! Any question about a path, on one engine.
ghost use Rattle.std.specs.Prelude.{◌≡◌, string_bytes, IfOk, OnErr, OnOk};
ghost use Rattle.ksv_desc.specs.Whole.{plain_pieces};
ghost use Rattle.ksv_memo_rules.specs.Right.{IsRight};
ghost use Rattle.ksv_questions.specs.Answers.{asking, asks, question_text, question_told, text_of};
ghost use Rattle.ksv_questions.specs.Code.{IsRightFor, RunsOn, Tells};
ghost use Rattle.ksv_questions.specs.Engines.{HasAsked, HasAskedSome, world};
ghost use Rattle.ksv_questions.specs.Seen.{told_of};

use crate::asking::Untold;
use crate::dump::dump_question;
use crate::file::File;
use crate::get::value_question;
use crate::members::members_question;
use crate::place::place_question;
use crate::told::Told;
use ksv_bytes::Buffer;
use ksv_commands::Question;
use ksv_desc::Desc;
use ksv_memo::Engine;
use ksv_rule_meaning::{Described, NodeRules};
use ksv_texts::fault_text;
use std::alloc::{AllocError, Global};

/// The text that answers a question.
fn asked<N: NodeRules>(
    file: &File<N>,
    engine: &mut Engine<Described<N>>,
    question: &Question,
) -> Result<String, Untold>
    requires { IsRightFor file.now engine.old }
    ensures { RunsOn file.now (λ d b. asking d b question.now) (λ text. string_bytes text) engine.old engine.new result }
{
    match question {
        Question::Value(path) => value_question(file, engine, path),
        Question::Place(path) => place_question(file, engine, path),
        Question::Members(path) => members_question(file, engine, path),
        Question::Dump(path) => dump_question(file, engine, path),
    }
}

/// Why a question fails, as it is told.
pub(crate) fn failure_told(alloc: Global, desc: &Desc, why: &Untold) -> Result<Told, AllocError>
    ensures { IfOk result (λ told. Tells (plain_pieces desc.now) why.now (told_of told)) }
{
    match why {
        Untold::Fault(fault) => Ok(Told::Text(fault_text(alloc, desc, fault)?)),
        Untold::Refused(refusal) => Ok(Told::Refused(*refusal)),
        Untold::NoMemory => Err(AllocError),
    }
}

/// The reply to a question, its LF aside: what a fresh evaluation of the description on the current bytes would answer, or a
/// refusal. The engine must be right for these bytes, and keeps what was evaluated.
#[tactic(auto, unfolding(crate::specs::Answers::question_told, crate::specs::Answers::question_text))]
pub fn answer<N: NodeRules>(
    alloc: Global,
    engine: &mut Engine<Described<N>>,
    described: &Described<N>,
    buffer: &Buffer,
    question: &Question,
) -> Result<Told, AllocError>
    requires { IsRight (world (plain_pieces described.now.desc) buffer.now) engine.old.kept }
    ensures told { IfOk result (λ told. told_of told ≡ question_told (plain_pieces described.now.desc) buffer.now question.now) }
    ensures text { IfOk result (λ told. text_of (told_of told) ≡ question_text (plain_pieces described.now.desc) buffer.now question.now) }

    // Which nodes are kept afterwards, and the turns.
    ensures asked { OnOk result (HasAsked (world (plain_pieces described.now.desc) buffer.now) (asks (plain_pieces described.now.desc) buffer.now (asking (plain_pieces described.now.desc) buffer.now question.now)) engine.old engine.new) }
    ensures refused { OnErr result (HasAskedSome (world (plain_pieces described.now.desc) buffer.now) (asks (plain_pieces described.now.desc) buffer.now (asking (plain_pieces described.now.desc) buffer.now question.now)) engine.old engine.new) }
{
    let file = File {
        alloc,
        described,
        buffer,
    };
    match asked(&file, engine, question) {
        Ok(text) => Ok(Told::Text(text)),
        Err(why) => failure_told(alloc, described.desc(), &why),
    }
}
