//! What is asked, each by the form that its answer must have.

ghost use Rattle.std.specs.Prelude.{◌≡◌};
ghost use Rattle.ksv_expr_eval.specs.Runs.{Runs};
ghost use Rattle.ksv_expr_meaning.specs.Asked.{raise, given, value_for, opened_for, number_for, truth_for, bytes_for};

use crate::answer::Answer;
use crate::answers::Answers;
use crate::halt::Halt;
use ksv_expr_meaning::{Opened, Want};
use ksv_expr_value::{Ctx, FaultKind, Value};

/// A fault of the expression's own.
pub(crate) fn raise<By, A: Answers<By>, X>(
    answers: &A,
    ctx: &Ctx,
    kind: FaultKind,
) -> Result<X, Halt<A::Need>>
    ensures { Runs (A.handler ctx.now) (raise kind) (λ x. x) answers.now answers.now result }
{
    Err(Halt::Fault(answers.own_fault(ctx, kind)?))
}

/// A result that took no question.
pub(crate) fn given<By, A: Answers<By>>(
    answers: &A,
    ctx: &Ctx,
    answer: Result<Value, FaultKind>,
) -> Result<Value, Halt<A::Need>>
    ensures { Runs (A.handler ctx.now) (given answer) (λ v. v) answers.now answers.now result }
{
    match answer {
        Ok(value) => Ok(value),
        Err(kind) => raise(answers, ctx, kind),
    }
}

/// The answer to a want, a value.
pub(crate) fn value_for<By, A: Answers<By>>(
    answers: &mut A,
    ctx: &Ctx,
    want: Want,
) -> Result<Value, Halt<A::Need>>
    ensures { Runs (A.handler ctx.now) (value_for want) (λ v. v) answers.old answers.new result }
{
    match answers.answer(ctx, want)? {
        Answer::Value(value) => Ok(value),
        _ => raise(answers, ctx, FaultKind::BadType),
    }
}

/// The answer to a want, an object's type and stream.
pub(crate) fn opened_for<By, A: Answers<By>>(
    answers: &mut A,
    ctx: &Ctx,
    want: Want,
) -> Result<Opened, Halt<A::Need>>
    ensures { Runs (A.handler ctx.now) (opened_for want) (λ o. o) answers.old answers.new result }
{
    let answer = answers.answer(ctx, want)?;
    let opened = match &answer {
        Answer::Object(opened) => Some(*opened),
        _ => None,
    };
    drop(answer);
    match opened {
        Some(opened) => Ok(opened),
        None => raise(answers, ctx, FaultKind::BadType),
    }
}

/// The answer to a want, a count.
pub(crate) fn number_for<By, A: Answers<By>>(
    answers: &mut A,
    ctx: &Ctx,
    want: Want,
) -> Result<u64, Halt<A::Need>>
    ensures { Runs (A.handler ctx.now) (number_for want) (λ n. n) answers.old answers.new result }
{
    let answer = answers.answer(ctx, want)?;
    let number = match &answer {
        Answer::Number(number) => Some(*number),
        _ => None,
    };
    drop(answer);
    match number {
        Some(number) => Ok(number),
        None => raise(answers, ctx, FaultKind::BadType),
    }
}

/// The answer to a want, a truth value.
pub(crate) fn truth_for<By, A: Answers<By>>(
    answers: &mut A,
    ctx: &Ctx,
    want: Want,
) -> Result<bool, Halt<A::Need>>
    ensures { Runs (A.handler ctx.now) (truth_for want) (λ b. b) answers.old answers.new result }
{
    match answers.answer(ctx, want)? {
        Answer::Truth(truth) => Ok(truth),
        _ => raise(answers, ctx, FaultKind::BadType),
    }
}

/// The answer to a want, bytes.
pub(crate) fn bytes_for<By, A: Answers<By>>(
    answers: &mut A,
    ctx: &Ctx,
    want: Want,
) -> Result<A::Bytes, Halt<A::Need>>
    ensures { Runs (A.handler ctx.now) (bytes_for want) A.bytes answers.old answers.new result }
{
    match answers.answer(ctx, want)? {
        Answer::Bytes(bytes) => Ok(bytes),
        _ => raise(answers, ctx, FaultKind::BadType),
    }
}
