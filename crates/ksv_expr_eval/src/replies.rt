//! Replies that answer the wants of an expression, in order.

ghost use Rattle.std.specs.Prelude.{◌≡◌, map};
ghost use Rattle.ksv_expr_value.specs.Bytes.{content};
ghost use Rattle.ksv_expr_meaning.specs.Asked.{want_for};
ghost use Rattle.ksv_expr_meaning.specs.Heard.{heard};
ghost use Rattle.ksv_expr_meaning.specs.Replying.{replying};
ghost use Rattle.ksv_expr_eval.specs.Runs.{Runs};
ghost use Rattle.ksv_expr_eval.specs.Said.{said, Tells};

use crate::answer::Answer;
use crate::answers::Answers;
use crate::halt::Halt;
use ksv_expr_meaning::{Got, Opened, Want};
use ksv_expr_value::{Ctx, Fault, FaultKind, Parts, Path};
use std::alloc::{AllocError, Global};
use std::marker::Model;

/// The replies that are left.
#[derive(Drop)]
pub(crate) struct Replies<'a> {
    alloc: Global,
    here: &'a Path,
    replies: &'a [Got<'a>],
    at: usize,
}

impl<'a> Model for Replies<'a> {
    ghost use Rattle.std.specs.Prelude.{◌≤◌, length, drop, map};
    ghost use Rattle.ksv_expr_meaning.specs.Heard.{heard};
    ghost use Rattle.ksv_expr_meaning.specs.Asked.{State};

    ghost Value = { State };

    ghost view = { λ r. record { here = r.here.now; replies = map heard (drop r.at r.replies.now) } };

    ghost invariant = { λ r. r.at ≤ length r.replies.now };
}

impl<'a> Replies<'a> {
    /// All replies, to an expression whose faults have the path `here`.
    pub(crate) fn new(alloc: Global, here: &'a Path, replies: &'a [Got<'a>]) -> Replies<'a>
        ensures { result ≡ record { here = here.now; replies = map heard replies.now } }
    {
        Replies {
            alloc,
            here,
            replies,
            at: 0,
        }
    }

    /// The next reply, to whatever is wanted. One that is a fault ends the expression.
    fn next(&mut self, want: Want) -> Result<Answer<Parts<'a>>, Halt<Want>>
        ensures { Runs replying (want_for want) (said content) self.old self.new result }
    {
        match self.replies.get(self.at) {
            None => Err(Halt::Need(want)),
            Some(reply) => {
                self.at += 1;
                answer_of(self.alloc, reply)
            }
        }
    }
}

/// What a reply answers.
fn answer_of<'a>(alloc: Global, reply: &Got<'a>) -> Result<Answer<Parts<'a>>, Halt<Want>>
    ensures { Tells content (heard reply.now) result }
{
    match reply {
        Got::Value(value) => Ok(Answer::Value(value.copy(alloc)?)),
        Got::Object {
            type_number,
            stream,
        } => Ok(Answer::Object(Opened {
            type_number: *type_number,
            stream: *stream,
        })),
        Got::Number(number) => Ok(Answer::Number(*number)),
        Got::Truth(truth) => Ok(Answer::Truth(*truth)),
        Got::Slices(front, back) => Ok(Answer::Bytes(Parts { front, back })),
        Got::Fault(fault) => Err(Halt::Fault(fault.copy(alloc)?)),
    }
}

/// Replies answer in their order.
pub(crate) struct InOrder;

impl<'a> Answers<InOrder> for Replies<'a> {
    ghost use Rattle.ksv_expr_value.specs.Bytes.{content};
    ghost use Rattle.ksv_expr_meaning.specs.Replying.{replying};

    type Need = Want;

    type Bytes = Parts<'a>;

    ghost handler = { λ _. replying };

    ghost bytes = { content };

    fn alloc(&self) -> Global {
        self.alloc
    }

    fn parts<'s>(lent: &'s Parts<'a>) -> Parts<'s> {
        *lent
    }

    fn own_fault(&self, _ctx: &Ctx, kind: FaultKind) -> Result<Fault, AllocError> {
        Ok(Fault {
            kind,
            path: self.here.copy(self.alloc)?,
        })
    }

    fn answer(&mut self, _ctx: &Ctx, want: Want) -> Result<Answer<Parts<'a>>, Halt<Want>> {
        self.next(want)
    }
}
