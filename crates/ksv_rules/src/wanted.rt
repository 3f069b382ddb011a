//! Integers, truth values and sizes that expressions give, and the objects at paths.
#![tactic(auto)]

ghost use Rattle.std.specs.Prelude.{option_map};
ghost use Rattle.ksv_expr_tree.specs.Tree.{view};
ghost use Rattle.ksv_expr_value.specs.Trail.{parent};
ghost use Rattle.ksv_basics.specs.Plan.{Fail};
ghost use Rattle.ksv_nodes.specs.Rule.{There};
ghost use Rattle.ksv_nodes.specs.Turning.{Runs};
ghost use Rattle.ksv_rule_meaning.specs.Wanted.{missing, in_object, in_integer, in_truth, integer_of, truth_of, holds, in_size, size_of, in_stream, stream_for};

use crate::evaluation::value_of_expression;
use ksv_expr_tree::Expr;
use ksv_expr_value::{Ctx, Fault, FaultKind, Integer, Path, Stream, Value};
use ksv_nodes::{Halt, Head, Object, Turn};

/// A fault of a kind at a path.
fn fault_at<X>(turn: &Turn, path: &Path, kind: FaultKind) -> Result<X, Halt>
    ensures { Runs (Fail (There kind path.now)) (λ x. x) turn.now turn.now result }
{
    let path = path.copy(turn.alloc())?;
    Err(Halt::Fault(Fault { kind, path }))
}

/// The fault when the head at a path has the wrong form: `absent`, at that path, if nothing is there; else `no-such`, at the
/// asker's.
#[cold]
#[inline(never)]
pub(crate) fn missing<X>(turn: &Turn, path: &Path, head: &Head, asker: &Path) -> Result<X, Halt>
    ensures { Runs (missing path.now head.now asker.now) (λ x. x) turn.now turn.now result }
{
    match head {
        Head::Absent(_) => fault_at(turn, path, FaultKind::Absent),
        _ => fault_at(turn, asker, FaultKind::NoSuch),
    }
}

/// As `missing`, for the head at the path above a path; the asker is the node of the turn.
#[cold]
#[inline(never)]
pub(crate) fn missing_above<X>(turn: &Turn, path: &Path, head: &Head) -> Result<X, Halt>
    ensures { Runs (missing (parent path.now) head.now turn.now.here) (λ x. x) turn.now turn.now result }
{
    let above = path.parent(turn.alloc())?;
    missing(turn, &above, head, turn.here())
}

/// The object that is at a path. Inside an absent attribute all is absent; what is no object has no members.
pub(crate) fn in_object<'a>(turn: &Turn, path: &Path, head: &'a Head) -> Result<&'a Object, Halt>
    ensures { Runs (in_object path.now head.now) (λ object. object.now) turn.now turn.now result }
{
    match head {
        Head::Object(object) => Ok(object),
        _ => missing(turn, path, head, turn.here()),
    }
}

/// The object that is at the path above a path.
#[inline(always)]
pub(crate) fn in_object_above<'a>(
    turn: &Turn,
    path: &Path,
    head: &'a Head,
) -> Result<&'a Object, Halt>
    ensures { Runs (in_object (parent path.now) head.now) (λ object. object.now) turn.now turn.now result }
{
    match head {
        Head::Object(object) => Ok(object),
        _ => missing_above(turn, path, head),
    }
}

fn in_integer(turn: &mut Turn, value: Value) -> Result<Integer, Halt>
    ensures { Runs (in_integer value) (λ number. number) turn.old turn.new result }
{
    match value {
        Value::Int(number) => Ok(number),
        _ => turn.raise(FaultKind::BadType),
    }
}

fn in_truth(turn: &mut Turn, value: Value) -> Result<bool, Halt>
    ensures { Runs (in_truth value) (λ truth. truth) turn.old turn.new result }
{
    match value {
        Value::Bool(truth) => Ok(truth),
        _ => turn.raise(FaultKind::BadType),
    }
}

/// The integer that an expression gives; another kind doesn't fit.
#[tactic(auto, using(ksv_basics::proofs::Running::run_bind), unfolding(ksv_rule_meaning::specs::Wanted::integer_of))]
fn integer_of(turn: &mut Turn, ctx: &Ctx, expr: &Expr) -> Result<Integer, Halt>
    ensures { Runs (integer_of ctx.now (view expr.now)) (λ number. number) turn.old turn.new result }
{
    let value = value_of_expression(turn, ctx, expr)?;
    in_integer(turn, value)
}

/// The truth value that an expression gives; another kind doesn't fit.
#[tactic(auto, using(ksv_basics::proofs::Running::run_bind), unfolding(ksv_rule_meaning::specs::Wanted::truth_of))]
pub(crate) fn truth_of(turn: &mut Turn, ctx: &Ctx, expr: &Expr) -> Result<bool, Halt>
    ensures { Runs (truth_of ctx.now (view expr.now)) (λ truth. truth) turn.old turn.new result }
{
    let value = value_of_expression(turn, ctx, expr)?;
    in_truth(turn, value)
}

/// Whether a condition holds; without one it does.
#[tactic(auto, unfolding(ksv_rule_meaning::specs::Wanted::holds))]
pub(crate) fn holds(turn: &mut Turn, ctx: &Ctx, condition: &Option<Expr>) -> Result<bool, Halt>
    ensures { Runs (holds ctx.now (option_map view condition.now)) (λ truth. truth) turn.old turn.new result }
{
    match condition {
        None => Ok(true),
        Some(expr) => truth_of(turn, ctx, expr),
    }
}

/// A size, a count or a position isn't below 0.
fn in_size(turn: &mut Turn, number: Integer) -> Result<u64, Halt>
    ensures { Runs (in_size number) (λ size. size) turn.old turn.new result }
{
    let number = number.get();
    if number < 0 {
        return turn.raise(FaultKind::BadSize);
    }
    Ok(number as u64)
}

/// The size that an expression gives.
#[tactic(auto, using(ksv_basics::proofs::Running::run_bind), unfolding(ksv_rule_meaning::specs::Wanted::size_of))]
pub(crate) fn size_of(turn: &mut Turn, ctx: &Ctx, expr: &Expr) -> Result<u64, Halt>
    ensures { Runs (size_of ctx.now (view expr.now)) (λ size. size) turn.old turn.new result }
{
    let number = integer_of(turn, ctx, expr)?;
    in_size(turn, number)
}

/// A stream; another kind doesn't fit.
fn in_stream(turn: &mut Turn, value: Value) -> Result<Stream, Halt>
    ensures { Runs (in_stream value) (λ stream. stream) turn.old turn.new result }
{
    match &value {
        Value::Stream(stream) => Ok(*stream),
        _ => turn.raise(FaultKind::BadType),
    }
}

/// The stream that an expression names; without one it is the object's own.
#[tactic(auto, using(ksv_basics::proofs::Running::run_bind), unfolding(ksv_rule_meaning::specs::Wanted::stream_for))]
pub(crate) fn stream_for(turn: &mut Turn, ctx: &Ctx, io: &Option<Expr>) -> Result<Stream, Halt>
    ensures { Runs (stream_for ctx.now (option_map view io.now)) (λ stream. stream) turn.old turn.new result }
{
    match io {
        None => Ok(ctx.stream),
        Some(expr) => {
            let value = value_of_expression(turn, ctx, expr)?;
            in_stream(turn, value)
        }
    }
}
