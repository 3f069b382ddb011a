//! The value of an expression, by who answers its wants.

ghost use Rattle.std.specs.Prelude.{◌≡◌, ◌≤◌, pos, IfOk, map, length, if◌then◌else◌};
ghost use Rattle.ksv_basics.specs.Plan.{Answer, bind};
ghost use Rattle.ksv_expr_tree.specs.Tree.{view, literal_of, name_of};
ghost use Rattle.ksv_expr_value.specs.declared.value.Value.TheVariants as values;
ghost use Rattle.ksv_expr_meaning.specs.Heard.{heard};
ghost use Rattle.ksv_expr_meaning.specs.Asked.{given};
ghost use Rattle.ksv_expr_meaning.specs.Operators.{unary_of};
ghost use Rattle.ksv_expr_meaning.specs.Evaluation.{outcome_of, resumed, most_wants, IsDone};
ghost use Rattle.ksv_expr_eval.specs.Runs.{Runs};
ghost use Rattle.ksv_expr_meaning.specs.Meaning.{meaning, value_of, literal_value, is_own_stream, decides, in_truth_value, truth_value, binary_of, field_of, special_of, call_one, call_two, item_at, cast_to};
ghost use Rattle.ksv_expr_meaning.specs.Methods.{method_named};

use crate::answers::Answers;
use crate::halt::Halt;
use crate::method::method_of_name;
use crate::replies::Replies;
use crate::wants::{given, raise};
use crate::{asking, forms, operators};
use ksv_expr_meaning::{EvalStep, Got, Method};
use ksv_expr_tree::{
    BinaryOperator, Expr, Literal, LogicalOperator, Name, SpecialName, TypeName, UnaryOperator,
};
use ksv_expr_value::{Ctx, FaultKind, Integer, Text, Value};
use std::alloc::{AllocError, Global};

fn is_own_stream(expr: &Expr) -> bool
    ensures { result ≡ is_own_stream (view expr.now) }
{
    match expr {
        Expr::Special(name) => matches!(name, SpecialName::Io),
        _ => false,
    }
}

fn literal(alloc: Global, literal: &Literal) -> Result<Value, AllocError>
    ensures { IfOk result (λ v. v ≡ literal_value (literal_of literal.now)) }
{
    Ok(match literal {
        Literal::Number(number) => Value::Int(Integer::from(*number)),
        Literal::Truth(truth) => Value::Bool(*truth),
        Literal::Text(text) => {
            Value::Text(Text::new(alloc, String::from_str(alloc, text.as_str())?)?)
        }
    })
}

/// Whether the left operand decides alone.
fn decides(operator: LogicalOperator, left: bool) -> bool
    ensures { result ≡ decides operator left }
{
    match operator {
        LogicalOperator::And => !left,
        LogicalOperator::Or => left,
    }
}

#[cycle(value)]
#[tactic(auto, using(ksv_basics::proofs::Running::run_bind))]
fn unary_expr<By, A: Answers<By>>(
    answers: &mut A,
    ctx: &Ctx,
    operator: UnaryOperator,
    operand: &Expr,
) -> Result<Value, Halt<A::Need>>
    ensures { Runs (A.handler ctx.now) (bind (meaning ctx.now operand.now) (λ v. given (unary_of operator v))) (λ v. v) answers.old answers.new result }
{
    let operand = value(answers, ctx, operand)?;
    given(answers, ctx, operators::unary(operator, &operand))
}

/// The left operand, the right operand, and then the operator.
#[cycle(value)]
#[tactic(auto, using(ksv_basics::proofs::Running::run_bind))]
fn binary_expr<By, A: Answers<By>>(
    answers: &mut A,
    ctx: &Ctx,
    operator: BinaryOperator,
    left: &Expr,
    right: &Expr,
) -> Result<Value, Halt<A::Need>>
    ensures { Runs (A.handler ctx.now) (bind (meaning ctx.now left.now) (λ v. bind (meaning ctx.now right.now) (λ w. binary_of operator v w))) (λ v. v) answers.old answers.new result }
{
    let left = value(answers, ctx, left)?;
    let right = value(answers, ctx, right)?;
    forms::binary(answers, ctx, operator, &left, &right)
}

/// The truth value that an expression gives.
#[cycle(value)]
#[tactic(auto, using(ksv_basics::proofs::Running::run_bind))]
fn truth_of<By, A: Answers<By>>(
    answers: &mut A,
    ctx: &Ctx,
    expr: &Expr,
) -> Result<bool, Halt<A::Need>>
    ensures { Runs (A.handler ctx.now) (bind (meaning ctx.now expr.now) in_truth_value) (λ b. b) answers.old answers.new result }
{
    let value = value(answers, ctx, expr)?;
    forms::in_truth_value(answers, ctx, &value)
}

/// The result that the left operand decides, or the right operand's.
#[cycle(value)]
#[tactic(auto, using(ksv_basics::proofs::Running::run_bind))]
fn logical_expr<By, A: Answers<By>>(
    answers: &mut A,
    ctx: &Ctx,
    operator: LogicalOperator,
    left: &Expr,
    right: &Expr,
) -> Result<Value, Halt<A::Need>>
    ensures { Runs (A.handler ctx.now) (bind (bind (meaning ctx.now left.now) in_truth_value) (λ b. if decides operator b then Answer (values.Bool b) else bind (meaning ctx.now right.now) truth_value)) (λ v. v) answers.old answers.new result }
{
    let left = truth_of(answers, ctx, left)?;
    if decides(operator, left) {
        return Ok(Value::Bool(left));
    }
    let right = value(answers, ctx, right)?;
    forms::truth_value(answers, ctx, &right)
}

/// The result of one of two expressions, as a truth value says.
#[cycle(value)]
#[tactic(auto, using(ksv_basics::proofs::Running::run_bind))]
fn choice_expr<By, A: Answers<By>>(
    answers: &mut A,
    ctx: &Ctx,
    condition: &Expr,
    yes: &Expr,
    no: &Expr,
) -> Result<Value, Halt<A::Need>>
    ensures { Runs (A.handler ctx.now) (bind (bind (meaning ctx.now condition.now) in_truth_value) (λ b. if b then meaning ctx.now yes.now else meaning ctx.now no.now)) (λ v. v) answers.old answers.new result }
{
    if truth_of(answers, ctx, condition)? {
        value(answers, ctx, yes)
    } else {
        value(answers, ctx, no)
    }
}

#[cycle(value)]
#[tactic(auto, using(ksv_basics::proofs::Running::run_bind))]
fn field_expr<By, A: Answers<By>>(
    answers: &mut A,
    ctx: &Ctx,
    object: &Expr,
    name: &Name,
) -> Result<Value, Halt<A::Need>>
    ensures { Runs (A.handler ctx.now) (bind (meaning ctx.now object.now) (λ v. field_of ctx.now (is_own_stream (view object.now)) v (name_of name.now))) (λ v. v) answers.old answers.new result }
{
    let own = is_own_stream(object);
    let object = value(answers, ctx, object)?;
    forms::field(answers, ctx, own, &object, name)
}

#[cycle(value)]
#[tactic(auto, using(ksv_basics::proofs::Running::run_bind))]
fn special_field_expr<By, A: Answers<By>>(
    answers: &mut A,
    ctx: &Ctx,
    object: &Expr,
    name: SpecialName,
) -> Result<Value, Halt<A::Need>>
    ensures { Runs (A.handler ctx.now) (bind (meaning ctx.now object.now) (λ v. special_of v name)) (λ v. v) answers.old answers.new result }
{
    let object = value(answers, ctx, object)?;
    forms::special_field(answers, ctx, &object, name)
}

/// The value before a method, its one argument, and then the method.
#[cycle(value)]
#[tactic(auto, using(ksv_basics::proofs::Running::run_bind))]
fn call_with_one<By, A: Answers<By>>(
    answers: &mut A,
    ctx: &Ctx,
    object: &Expr,
    method: &str,
    argument: &Expr,
) -> Result<Value, Halt<A::Need>>
    ensures { Runs (A.handler ctx.now) (bind (meaning ctx.now object.now) (λ v. bind (meaning ctx.now argument.now) (λ w. call_one v (method_named method.now) w))) (λ v. v) answers.old answers.new result }
{
    let object = value(answers, ctx, object)?;
    let argument = value(answers, ctx, argument)?;
    forms::call_one(answers, ctx, &object, method_of_name(method), &argument)
}

/// Two arguments, and then the method.
#[cycle(value)]
#[tactic(auto, using(ksv_basics::proofs::Running::run_bind))]
fn call_behind<By, A: Answers<By>>(
    answers: &mut A,
    ctx: &Ctx,
    object: &Value,
    method: &str,
    first: &Expr,
    second: &Expr,
) -> Result<Value, Halt<A::Need>>
    ensures { Runs (A.handler ctx.now) (bind (meaning ctx.now first.now) (λ w. bind (meaning ctx.now second.now) (λ u. call_two object.now (method_named method.now) w u))) (λ v. v) answers.old answers.new result }
{
    let first = value(answers, ctx, first)?;
    let second = value(answers, ctx, second)?;
    forms::call_two(
        answers,
        ctx,
        object,
        method_of_name(method),
        &first,
        &second,
    )
}

/// The value before a method, its two arguments, and then the method.
#[cycle(value)]
#[tactic(auto, using(ksv_basics::proofs::Running::run_bind))]
fn call_with_two<By, A: Answers<By>>(
    answers: &mut A,
    ctx: &Ctx,
    object: &Expr,
    method: &str,
    first: &Expr,
    second: &Expr,
) -> Result<Value, Halt<A::Need>>
    ensures { Runs (A.handler ctx.now) (bind (meaning ctx.now object.now) (λ v. bind (meaning ctx.now first.now) (λ w. bind (meaning ctx.now second.now) (λ u. call_two v (method_named method.now) w u)))) (λ v. v) answers.old answers.new result }
{
    let object = value(answers, ctx, object)?;
    call_behind(answers, ctx, &object, method, first, second)
}

/// The list, the index, and then the item there.
#[cycle(value)]
#[tactic(auto, using(ksv_basics::proofs::Running::run_bind))]
fn index_expr<By, A: Answers<By>>(
    answers: &mut A,
    ctx: &Ctx,
    list: &Expr,
    place: &Expr,
) -> Result<Value, Halt<A::Need>>
    ensures { Runs (A.handler ctx.now) (bind (meaning ctx.now list.now) (λ v. bind (meaning ctx.now place.now) (λ w. item_at v w))) (λ v. v) answers.old answers.new result }
{
    let list = value(answers, ctx, list)?;
    let place = value(answers, ctx, place)?;
    forms::item_at(answers, ctx, &list, &place)
}

#[cycle(value)]
#[tactic(auto, using(ksv_basics::proofs::Running::run_bind))]
fn cast_expr<By, A: Answers<By>>(
    answers: &mut A,
    ctx: &Ctx,
    object: &Expr,
    type_name: &TypeName,
) -> Result<Value, Halt<A::Need>>
    ensures { Runs (A.handler ctx.now) (bind (meaning ctx.now object.now) (λ v. cast_to v type_name.now.number)) (λ v. v) answers.old answers.new result }
{
    let object = value(answers, ctx, object)?;
    forms::cast_to(answers, ctx, &object, type_name.number)
}

#[cycle(value)]
fn value<By, A: Answers<By>>(
    answers: &mut A,
    ctx: &Ctx,
    expr: &Expr,
) -> Result<Value, Halt<A::Need>>
    ensures { Runs (A.handler ctx.now) (meaning ctx.now expr.now) (λ v. v) answers.old answers.new result }
{
    match expr {
        Expr::Literal(constant) => Ok(literal(answers.alloc(), constant)?),
        Expr::Name(name) => asking::member_value(answers, ctx, ctx.home, name.number),
        Expr::Special(name) => asking::special_value(answers, ctx, *name),
        Expr::Member(member) => asking::enum_member(answers, ctx, member.given),
        Expr::Unary(operator, operand) => unary_expr(answers, ctx, *operator, operand),
        Expr::Binary(operator, left, right) => binary_expr(answers, ctx, *operator, left, right),
        Expr::Logical(operator, left, right) => logical_expr(answers, ctx, *operator, left, right),
        Expr::Choice(condition, yes, no) => choice_expr(answers, ctx, condition, yes, no),
        Expr::Field(object, name) => field_expr(answers, ctx, object, name),
        Expr::SpecialField(object, name) => special_field_expr(answers, ctx, object, *name),
        Expr::Call(object, method, arguments) => match arguments.as_slice() {
            [] => raise(answers, ctx, FaultKind::BadType),
            [argument] => call_with_one(answers, ctx, object, method.as_str(), argument),
            [first, second] => call_with_two(answers, ctx, object, method.as_str(), first, second),
            _ => raise(answers, ctx, FaultKind::BadType),
        },
        Expr::Index(list, place) => index_expr(answers, ctx, list, place),
        Expr::Cast(object, type_name) => cast_expr(answers, ctx, object, type_name),
    }
}

/// The value of an expression in its context, by who answers: each of its parts is evaluated once, and each want is asked as it
/// comes. An answer that is a fault ends the expression with that fault.
///
/// What it returned, asked and did to who answers is what running the expression's plan gives. [`Answers`] says how each
/// want is answered.
#[tactic(auto, unfolding(ksv_expr_meaning::specs::Meaning::meaning))]
pub fn evaluate<By, A: Answers<By>>(
    answers: &mut A,
    ctx: &Ctx,
    expr: &Expr,
) -> Result<Value, Halt<A::Need>>
    ensures { Runs (A.handler ctx.now) (value_of ctx.now (view expr.now)) (λ v. v) answers.old answers.new result }
{
    value(answers, ctx, expr)
}

fn outcome(alloc: Global, expr: &Expr, ctx: &Ctx, replies: &[Got]) -> Result<EvalStep, AllocError>
    ensures { IfOk result (λ outcome. outcome ≡ outcome_of (resumed ctx.now (view expr.now) (map heard replies.now))) }
{
    let mut replies = Replies::new(alloc, ctx.here, replies);
    match evaluate(&mut replies, ctx, expr) {
        Ok(value) => Ok(EvalStep::Done(Ok(value))),
        Err(Halt::Need(want)) => Ok(EvalStep::Need(want)),
        Err(Halt::Fault(fault)) => Ok(EvalStep::Done(Err(fault))),
        Err(Halt::Memory) => Err(AllocError),
    }
}

/// The value of an expression in its context, by the replies to its questions in their order. The result is the
/// question that has no reply yet, or the value or fault that the expression ends with. A reply that is a fault
/// ends the expression with that fault, and replies after the end are ignored.
///
/// The outcome depends only on the expression, the context and what the replies mean (for lent bytes, their
/// content). [`crate::truth_is_met`] states the outcome for true replies. Every expression ends after finitely many
/// replies.
pub fn eval(alloc: Global, expr: &Expr, ctx: &Ctx, replies: &[Got]) -> Result<EvalStep, AllocError>
    ensures outcome { IfOk result (λ outcome. outcome ≡ outcome_of (resumed ctx.now (view expr.now) (map heard replies.now))) }
    ensures ended { IfOk result (λ outcome. most_wants (view expr.now) ≤ length replies.now → IsDone outcome) }
{
    outcome(alloc, expr, ctx, replies)
}
