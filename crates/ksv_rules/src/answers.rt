//! A turn answers the wants of expressions: what they want is asked of nodes and read from the bytes.

ghost use Rattle.ksv_expr_value.specs.Bytes.{content};
ghost use Rattle.ksv_expr_eval.specs.Said.{said};
ghost use Rattle.ksv_nodes.specs.Turning.{Runs};
ghost use Rattle.ksv_rules.specs.Code.{ask_opened, ask_rested, ask_valued, bytes_between, file_size, is_done};
ghost use Rattle.ksv_rule_meaning.specs.Wanted.{wanted};

use crate::wanted::in_object;
use ksv_expr_eval::{Answer, Answers, Halt as Stop};
use ksv_expr_meaning::{Opened, Want};
use ksv_expr_value::{Ctx, Fault, FaultKind, Parts, Path, Stream, StreamEnd};
use ksv_nodes::{Halt, Node, Turn};
use std::alloc::{AllocError, Global};

/// The value of what is at a path.
#[tactic(auto, using(ksv_basics::proofs::Running::run_bind))]
fn valued<'a>(turn: &mut Turn<'a>, path: &Path) -> Result<Answer<Parts<'a>>, Halt>
    ensures { Runs (ask_valued path.now) (said content) turn.old turn.new result }
{
    let value = turn.value(path)?;
    Ok(Answer::Value(value.copy(turn.alloc())?))
}

/// The type and the stream of the object at a path.
#[tactic(auto, using(ksv_basics::proofs::Running::run_bind))]
fn opened<'a>(turn: &mut Turn<'a>, path: &Path) -> Result<Answer<Parts<'a>>, Halt>
    ensures { Runs (ask_opened path.now) (said content) turn.old turn.new result }
{
    let head = turn.head(path)?;
    let object = in_object(turn, path, head)?;
    Ok(Answer::Object(Opened {
        type_number: object.type_number,
        stream: object.stream,
    }))
}

/// How many elements a list has from one on.
#[inline(always)]
#[tactic(auto, using(ksv_basics::proofs::Running::run_bind))]
fn rested<'a>(turn: &mut Turn<'a>, path: &Path) -> Result<Answer<Parts<'a>>, Halt>
    ensures { Runs (ask_rested path.now) (said content) turn.old turn.new result }
{
    let rested = turn.rest(path)?;
    Ok(Answer::Number(u64::from(rested.count)))
}

/// The file's size.
#[inline(always)]
#[tactic(auto, using(ksv_basics::proofs::Running::run_bind))]
fn sized<'a>(turn: &mut Turn<'a>) -> Result<Answer<Parts<'a>>, Halt>
    ensures { Runs file_size (said content) turn.old turn.new result }
{
    let whole = Stream {
        from: 0,
        to: StreamEnd::open(),
    };
    let size = turn.finish(whole)?;
    Ok(Answer::Number(u64::from(size)))
}

/// Whether the place of an expression is its stream's end.
#[inline(always)]
#[tactic(auto, using(ksv_basics::proofs::Running::run_bind))]
fn ended<'a>(turn: &mut Turn<'a>, ctx: &Ctx) -> Result<Answer<Parts<'a>>, Halt>
    ensures { Runs (is_done ctx.now) (said content) turn.old turn.new result }
{
    let is_done = turn.done(ctx.stream, ctx.place)?;
    Ok(Answer::Truth(is_done))
}

/// Bytes of the file.
#[inline(always)]
#[tactic(auto, using(ksv_basics::proofs::Running::run_bind))]
fn peeked<'a>(turn: &mut Turn<'a>, from: u32, to: u32) -> Result<Answer<Parts<'a>>, Halt>
    ensures { Runs (bytes_between from to) (said content) turn.old turn.new result }
{
    let bytes = turn.peek(from, to)?;
    Ok(Answer::Bytes(bytes))
}

/// The answer to a want. A fault of a node that it asks ends the rule.
#[tactic(auto, using(ksv_basics::proofs::Running::run_bind), unfolding(ksv_rule_meaning::specs::Wanted::wanted))]
fn answer<'a>(turn: &mut Turn<'a>, ctx: &Ctx, want: Want) -> Result<Answer<Parts<'a>>, Halt>
    ensures { Runs (wanted ctx.now want) (said content) turn.old turn.new result }
{
    match want {
        Want::Value(path) => valued(turn, &path),
        Want::Head(path) => opened(turn, &path),
        Want::Rest(path) => rested(turn, &path),
        Want::Size => sized(turn),
        Want::Done => ended(turn, ctx),
        Want::Bytes { from, to } => peeked(turn, from, to),
    }
}

/// A turn answers by nodes and by the bytes.
pub(crate) struct ByTurn;

impl<'a> Answers<ByTurn> for Turn<'a> {
    ghost use Rattle.ksv_expr_value.specs.Bytes.{content};
    ghost use Rattle.ksv_rules.specs.Met.{meeting};

    type Need = Node;

    type Bytes = Parts<'a>;

    ghost handler = { meeting };

    ghost bytes = { content };

    fn alloc(&self) -> Global {
        self.alloc()
    }

    fn parts<'s>(lent: &'s Parts<'a>) -> Parts<'s> {
        *lent
    }

    fn own_fault(&self, _ctx: &Ctx, kind: FaultKind) -> Result<Fault, AllocError> {
        Ok(Fault {
            kind,
            path: self.here().copy(self.alloc())?,
        })
    }

    fn answer(&mut self, ctx: &Ctx, want: Want) -> Result<Answer<Parts<'a>>, Stop<Node>> {
        match answer(self, ctx, want) {
            Ok(answer) => Ok(answer),
            Err(Halt::Need(node)) => Err(Stop::Need(node)),
            Err(Halt::Fault(fault)) => Err(Stop::Fault(fault)),
            Err(Halt::Memory) => Err(Stop::Memory),
        }
    }
}
