//! What each form of expression gives, from the values of its parts.
#![tactic(auto, using(ksv_basics::proofs::Running::run_bind))]

ghost use Rattle.std.specs.Prelude.{◌≡◌, pos};
ghost use Rattle.ksv_expr_eval.specs.Runs.{Runs};
ghost use Rattle.ksv_expr_meaning.specs.Meaning.{in_truth_value, truth_value, same_bytes, bytes_with, integer_and, truth_and, text_and, bytes_and, member_and, binary_of, stream_method, list_method, method_of, method_by, field_of, object_special, special_of, bytes_call, call_one, call_two, list_at, bytes_at, item_at, cast_to};
ghost use Rattle.ksv_expr_meaning.specs.Methods.{method_named};
ghost use Rattle.ksv_expr_tree.specs.Tree.{name_of};

use crate::answers::Answers;
use crate::halt::Halt;
use crate::method::method_of_name;
use crate::wants::{bytes_for, given, raise};
use crate::{arithmetic, asking, operators};
use ksv_expr_meaning::{Method, Want};
use ksv_expr_tree::{BinaryOperator, Name, SpecialName};
use ksv_expr_value::{Ctx, FaultKind, Integer, Path, Stream, Text, Value};

/// A truth value; another value is bad-type.
pub(crate) fn in_truth_value<By, A: Answers<By>>(
    answers: &mut A,
    ctx: &Ctx,
    value: &Value,
) -> Result<bool, Halt<A::Need>>
    ensures { Runs (A.handler ctx.now) (in_truth_value value.now) (λ b. b) answers.old answers.new result }
{
    match value {
        Value::Bool(truth) => Ok(*truth),
        _ => raise(answers, ctx, FaultKind::BadType),
    }
}

/// A truth value as a value; another value is bad-type.
#[tactic(auto, using(ksv_basics::proofs::Running::run_bind), unfolding(ksv_expr_meaning::specs::Meaning::truth_value))]
pub(crate) fn truth_value<By, A: Answers<By>>(
    answers: &mut A,
    ctx: &Ctx,
    value: &Value,
) -> Result<Value, Halt<A::Need>>
    ensures { Runs (A.handler ctx.now) (truth_value value.now) (λ v. v) answers.old answers.new result }
{
    let truth = in_truth_value(answers, ctx, value)?;
    Ok(Value::Bool(truth))
}

#[tactic(auto, using(ksv_basics::proofs::Running::run_bind), unfolding(ksv_expr_meaning::specs::Meaning::same_bytes))]
fn same_bytes<By, A: Answers<By>>(
    answers: &mut A,
    ctx: &Ctx,
    from: u32,
    to: u32,
    other_from: u32,
    other_to: u32,
) -> Result<bool, Halt<A::Need>>
    ensures { Runs (A.handler ctx.now) (same_bytes from to other_from other_to) (λ b. b) answers.old answers.new result }
{
    if to.saturating_sub(from) == other_to.saturating_sub(other_from) {
        let left = bytes_for(answers, ctx, Want::Bytes { from, to })?;
        let right = bytes_for(
            answers,
            ctx,
            Want::Bytes {
                from: other_from,
                to: other_to,
            },
        )?;
        Ok(A::parts(&left).equals(A::parts(&right)))
    } else {
        Ok(false)
    }
}

#[tactic(auto, using(ksv_basics::proofs::Running::run_bind), unfolding(ksv_expr_meaning::specs::Meaning::bytes_with))]
fn bytes_with<By, A: Answers<By>>(
    answers: &mut A,
    ctx: &Ctx,
    operator: BinaryOperator,
    from: u32,
    to: u32,
    other_from: u32,
    other_to: u32,
) -> Result<Value, Halt<A::Need>>
    ensures { Runs (A.handler ctx.now) (bytes_with operator from to other_from other_to) (λ v. v) answers.old answers.new result }
{
    match operator {
        BinaryOperator::Equal | BinaryOperator::NotEqual => {
            let same = same_bytes(answers, ctx, from, to, other_from, other_to)?;
            given(answers, ctx, operators::matched(operator, same))
        }
        _ => raise(answers, ctx, FaultKind::BadType),
    }
}

#[tactic(auto, using(ksv_basics::proofs::Running::run_bind), unfolding(ksv_expr_meaning::specs::Meaning::integer_and))]
fn integer_and<By, A: Answers<By>>(
    answers: &mut A,
    ctx: &Ctx,
    operator: BinaryOperator,
    left: Integer,
    right: &Value,
) -> Result<Value, Halt<A::Need>>
    ensures { Runs (A.handler ctx.now) (integer_and operator left right.now) (λ v. v) answers.old answers.new result }
{
    match right {
        Value::Int(right) => given(answers, ctx, arithmetic::integers(operator, left, *right)),
        _ => raise(answers, ctx, FaultKind::BadType),
    }
}

#[tactic(auto, using(ksv_basics::proofs::Running::run_bind), unfolding(ksv_expr_meaning::specs::Meaning::truth_and))]
fn truth_and<By, A: Answers<By>>(
    answers: &mut A,
    ctx: &Ctx,
    operator: BinaryOperator,
    left: bool,
    right: &Value,
) -> Result<Value, Halt<A::Need>>
    ensures { Runs (A.handler ctx.now) (truth_and operator left right.now) (λ v. v) answers.old answers.new result }
{
    match right {
        Value::Bool(right) => given(answers, ctx, operators::truths(operator, left, *right)),
        _ => raise(answers, ctx, FaultKind::BadType),
    }
}

#[tactic(auto, using(ksv_basics::proofs::Running::run_bind), unfolding(ksv_expr_meaning::specs::Meaning::text_and))]
fn text_and<By, A: Answers<By>>(
    answers: &mut A,
    ctx: &Ctx,
    operator: BinaryOperator,
    left: &Text,
    right: &Value,
) -> Result<Value, Halt<A::Need>>
    ensures { Runs (A.handler ctx.now) (text_and operator left.now right.now) (λ v. v) answers.old answers.new result }
{
    match right {
        Value::Text(right) => {
            let answer = operators::two_texts(answers.alloc(), operator, left, right)?;
            given(answers, ctx, answer)
        }
        _ => raise(answers, ctx, FaultKind::BadType),
    }
}

#[tactic(auto, using(ksv_basics::proofs::Running::run_bind), unfolding(ksv_expr_meaning::specs::Meaning::bytes_and))]
fn bytes_and<By, A: Answers<By>>(
    answers: &mut A,
    ctx: &Ctx,
    operator: BinaryOperator,
    from: u32,
    to: u32,
    right: &Value,
) -> Result<Value, Halt<A::Need>>
    ensures { Runs (A.handler ctx.now) (bytes_and operator from to right.now) (λ v. v) answers.old answers.new result }
{
    match right {
        Value::Bytes {
            from: other_from,
            to: other_to,
        } => bytes_with(answers, ctx, operator, from, to, *other_from, *other_to),
        _ => raise(answers, ctx, FaultKind::BadType),
    }
}

#[tactic(auto, using(ksv_basics::proofs::Running::run_bind), unfolding(ksv_expr_meaning::specs::Meaning::member_and))]
fn member_and<By, A: Answers<By>>(
    answers: &mut A,
    ctx: &Ctx,
    operator: BinaryOperator,
    enum_number: u32,
    left: Integer,
    right: &Value,
) -> Result<Value, Halt<A::Need>>
    ensures { Runs (A.handler ctx.now) (member_and operator enum_number left right.now) (λ v. v) answers.old answers.new result }
{
    match right {
        Value::Member {
            enum_number: other,
            number,
        } => given(
            answers,
            ctx,
            operators::members(operator, enum_number, left, *other, *number),
        ),
        _ => raise(answers, ctx, FaultKind::BadType),
    }
}

/// An operator between two values.
#[tactic(auto, using(ksv_basics::proofs::Running::run_bind), unfolding(ksv_expr_meaning::specs::Meaning::binary_of))]
pub(crate) fn binary<By, A: Answers<By>>(
    answers: &mut A,
    ctx: &Ctx,
    operator: BinaryOperator,
    left: &Value,
    right: &Value,
) -> Result<Value, Halt<A::Need>>
    ensures { Runs (A.handler ctx.now) (binary_of operator left.now right.now) (λ v. v) answers.old answers.new result }
{
    match left {
        Value::Int(number) => integer_and(answers, ctx, operator, *number, right),
        Value::Bool(truth) => truth_and(answers, ctx, operator, *truth, right),
        Value::Text(text) => text_and(answers, ctx, operator, text, right),
        Value::Bytes { from, to } => bytes_and(answers, ctx, operator, *from, *to, right),
        Value::Member {
            enum_number,
            number,
        } => member_and(answers, ctx, operator, *enum_number, *number, right),
        _ => raise(answers, ctx, FaultKind::BadType),
    }
}

#[tactic(auto, using(ksv_basics::proofs::Running::run_bind), unfolding(ksv_expr_meaning::specs::Meaning::stream_method))]
fn stream_method<By, A: Answers<By>>(
    answers: &mut A,
    ctx: &Ctx,
    own: bool,
    stream: Stream,
    method: Method,
) -> Result<Value, Halt<A::Need>>
    ensures { Runs (A.handler ctx.now) (stream_method ctx.now own stream method) (λ v. v) answers.old answers.new result }
{
    match method {
        Method::Size => asking::stream_size(answers, ctx, stream),
        Method::Place => {
            if own {
                asking::place_in(answers, ctx, ctx.place, stream)
            } else {
                raise(answers, ctx, FaultKind::BadType)
            }
        }
        Method::IsAtEnd => {
            if own {
                asking::at_end(answers, ctx)
            } else {
                raise(answers, ctx, FaultKind::BadType)
            }
        }
        _ => raise(answers, ctx, FaultKind::BadType),
    }
}

#[tactic(auto, using(ksv_basics::proofs::Running::run_bind), unfolding(ksv_expr_meaning::specs::Meaning::list_method))]
fn list_method<By, A: Answers<By>>(
    answers: &mut A,
    ctx: &Ctx,
    list: &Path,
    method: Method,
) -> Result<Value, Halt<A::Need>>
    ensures { Runs (A.handler ctx.now) (list_method list.now method) (λ v. v) answers.old answers.new result }
{
    match method {
        Method::First => asking::element_value(answers, ctx, list, Integer::from(0)),
        Method::Last => asking::last_element(answers, ctx, list),
        Method::Size => asking::list_size(answers, ctx, list),
        _ => raise(answers, ctx, FaultKind::BadType),
    }
}

#[tactic(auto, using(ksv_basics::proofs::Running::run_bind), unfolding(ksv_expr_meaning::specs::Meaning::method_of))]
fn method_of<By, A: Answers<By>>(
    answers: &mut A,
    ctx: &Ctx,
    own: bool,
    value: &Value,
    method: Method,
) -> Result<Value, Halt<A::Need>>
    ensures { Runs (A.handler ctx.now) (method_of ctx.now own value.now method) (λ v. v) answers.old answers.new result }
{
    match value {
        Value::Int(number) => {
            let answer = operators::integer_method(answers.alloc(), method, *number)?;
            given(answers, ctx, answer)
        }
        Value::Bool(truth) => given(answers, ctx, operators::truth_method(method, *truth)),
        Value::Text(text) => {
            let answer = operators::text_method(answers.alloc(), method, text)?;
            given(answers, ctx, answer)
        }
        Value::Bytes { from, to } => given(
            answers,
            ctx,
            operators::bytes_method(method, *from, *to),
        ),
        Value::Member { number, .. } => given(
            answers,
            ctx,
            operators::member_method(method, *number),
        ),
        Value::Object(_) => raise(answers, ctx, FaultKind::BadType),
        Value::List(path) => list_method(answers, ctx, path, method),
        Value::Stream(stream) => stream_method(answers, ctx, own, *stream, method),
    }
}

fn method_by<By, A: Answers<By>>(
    answers: &mut A,
    ctx: &Ctx,
    own: bool,
    value: &Value,
    method: Option<Method>,
) -> Result<Value, Halt<A::Need>>
    ensures { Runs (A.handler ctx.now) (method_by ctx.now own value.now method) (λ v. v) answers.old answers.new result }
{
    match method {
        None => raise(answers, ctx, FaultKind::BadType),
        Some(method) => method_of(answers, ctx, own, value, method),
    }
}

fn method_behind<By, A: Answers<By>>(
    answers: &mut A,
    ctx: &Ctx,
    own: bool,
    value: &Value,
    name: &Name,
) -> Result<Value, Halt<A::Need>>
    ensures { Runs (A.handler ctx.now) (method_by ctx.now own value.now (method_named (name_of name.now).text)) (λ v. v) answers.old answers.new result }
{
    let method = method_of_name(name.text.as_str());
    method_by(answers, ctx, own, value, method)
}

/// What a name after a value gives. `own` means that the value is the home's own stream, `_io`.
#[tactic(auto, using(ksv_basics::proofs::Running::run_bind), unfolding(ksv_expr_meaning::specs::Meaning::field_of))]
pub(crate) fn field<By, A: Answers<By>>(
    answers: &mut A,
    ctx: &Ctx,
    own: bool,
    value: &Value,
    name: &Name,
) -> Result<Value, Halt<A::Need>>
    ensures { Runs (A.handler ctx.now) (field_of ctx.now own value.now (name_of name.now)) (λ v. v) answers.old answers.new result }
{
    match value {
        Value::Object(path) => asking::member_value(answers, ctx, path, name.number),
        _ => method_behind(answers, ctx, own, value, name),
    }
}

fn object_special<By, A: Answers<By>>(
    answers: &mut A,
    ctx: &Ctx,
    object: &Path,
    name: SpecialName,
) -> Result<Value, Halt<A::Need>>
    ensures { Runs (A.handler ctx.now) (object_special object.now name) (λ v. v) answers.old answers.new result }
{
    match name {
        SpecialName::Root => Ok(Value::Object(Path::root(answers.alloc()))),
        SpecialName::Parent => asking::holder_of(answers, ctx, object),
        SpecialName::Io => asking::stream_of(answers, ctx, object),
        _ => raise(answers, ctx, FaultKind::BadType),
    }
}

/// What a special name after a value gives.
#[tactic(auto, using(ksv_basics::proofs::Running::run_bind), unfolding(ksv_expr_meaning::specs::Meaning::special_of))]
pub(crate) fn special_field<By, A: Answers<By>>(
    answers: &mut A,
    ctx: &Ctx,
    value: &Value,
    name: SpecialName,
) -> Result<Value, Halt<A::Need>>
    ensures { Runs (A.handler ctx.now) (special_of value.now name) (λ v. v) answers.old answers.new result }
{
    match value {
        Value::Object(path) => object_special(answers, ctx, path, name),
        _ => raise(answers, ctx, FaultKind::BadType),
    }
}

#[tactic(auto, using(ksv_basics::proofs::Running::run_bind), unfolding(ksv_expr_meaning::specs::Meaning::bytes_call))]
fn bytes_call<By, A: Answers<By>>(
    answers: &mut A,
    ctx: &Ctx,
    method: Method,
    from: u32,
    to: u32,
    argument: &Value,
) -> Result<Value, Halt<A::Need>>
    ensures { Runs (A.handler ctx.now) (bytes_call method from to argument.now) (λ v. v) answers.old answers.new result }
{
    match method {
        Method::ToText => match argument {
            Value::Text(encoding) => asking::text_in(answers, ctx, from, to, encoding),
            _ => raise(answers, ctx, FaultKind::BadType),
        },
        _ => raise(answers, ctx, FaultKind::BadType),
    }
}

/// A method with one value in parentheses.
#[tactic(auto, using(ksv_basics::proofs::Running::run_bind), unfolding(ksv_expr_meaning::specs::Meaning::call_one))]
pub(crate) fn call_one<By, A: Answers<By>>(
    answers: &mut A,
    ctx: &Ctx,
    value: &Value,
    method: Option<Method>,
    argument: &Value,
) -> Result<Value, Halt<A::Need>>
    ensures { Runs (A.handler ctx.now) (call_one value.now method argument.now) (λ v. v) answers.old answers.new result }
{
    match method {
        None => raise(answers, ctx, FaultKind::BadType),
        Some(method) => match value {
            Value::Text(text) => given(
                answers,
                ctx,
                operators::text_call_one(method, text, argument),
            ),
            Value::Bytes { from, to } => bytes_call(answers, ctx, method, *from, *to, argument),
            _ => raise(answers, ctx, FaultKind::BadType),
        },
    }
}

/// A method with two values in parentheses.
#[tactic(auto, using(ksv_basics::proofs::Running::run_bind), unfolding(ksv_expr_meaning::specs::Meaning::call_two))]
pub(crate) fn call_two<By, A: Answers<By>>(
    answers: &mut A,
    ctx: &Ctx,
    value: &Value,
    method: Option<Method>,
    first: &Value,
    second: &Value,
) -> Result<Value, Halt<A::Need>>
    ensures { Runs (A.handler ctx.now) (call_two value.now method first.now second.now) (λ v. v) answers.old answers.new result }
{
    match method {
        None => raise(answers, ctx, FaultKind::BadType),
        Some(method) => match value {
            Value::Text(text) => {
                let answer = operators::text_call_two(
                    answers.alloc(),
                    method,
                    text,
                    first,
                    second,
                )?;
                given(answers, ctx, answer)
            }
            _ => raise(answers, ctx, FaultKind::BadType),
        },
    }
}

#[tactic(auto, using(ksv_basics::proofs::Running::run_bind), unfolding(ksv_expr_meaning::specs::Meaning::list_at))]
fn list_at<By, A: Answers<By>>(
    answers: &mut A,
    ctx: &Ctx,
    list: &Path,
    place: &Value,
) -> Result<Value, Halt<A::Need>>
    ensures { Runs (A.handler ctx.now) (list_at list.now place.now) (λ v. v) answers.old answers.new result }
{
    match place {
        Value::Int(index) => asking::element_value(answers, ctx, list, *index),
        _ => raise(answers, ctx, FaultKind::BadType),
    }
}

#[tactic(auto, using(ksv_basics::proofs::Running::run_bind), unfolding(ksv_expr_meaning::specs::Meaning::bytes_at))]
fn bytes_at<By, A: Answers<By>>(
    answers: &mut A,
    ctx: &Ctx,
    from: u32,
    to: u32,
    place: &Value,
) -> Result<Value, Halt<A::Need>>
    ensures { Runs (A.handler ctx.now) (bytes_at from to place.now) (λ v. v) answers.old answers.new result }
{
    match place {
        Value::Int(index) => asking::byte_at(answers, ctx, from, to, *index),
        _ => raise(answers, ctx, FaultKind::BadType),
    }
}

/// The item of a value at an index.
#[tactic(auto, using(ksv_basics::proofs::Running::run_bind), unfolding(ksv_expr_meaning::specs::Meaning::item_at))]
pub(crate) fn item_at<By, A: Answers<By>>(
    answers: &mut A,
    ctx: &Ctx,
    value: &Value,
    place: &Value,
) -> Result<Value, Halt<A::Need>>
    ensures { Runs (A.handler ctx.now) (item_at value.now place.now) (λ v. v) answers.old answers.new result }
{
    match value {
        Value::List(path) => list_at(answers, ctx, path, place),
        Value::Bytes { from, to } => bytes_at(answers, ctx, *from, *to, place),
        _ => raise(answers, ctx, FaultKind::BadType),
    }
}

/// An object, if it has this type.
#[tactic(auto, using(ksv_basics::proofs::Running::run_bind), unfolding(ksv_expr_meaning::specs::Meaning::cast_to))]
pub(crate) fn cast_to<By, A: Answers<By>>(
    answers: &mut A,
    ctx: &Ctx,
    value: &Value,
    type_number: Option<u32>,
) -> Result<Value, Halt<A::Need>>
    ensures { Runs (A.handler ctx.now) (cast_to value.now type_number) (λ v. v) answers.old answers.new result }
{
    match value {
        Value::Object(path) => asking::object_as(answers, ctx, path, type_number),
        _ => raise(answers, ctx, FaultKind::BadType),
    }
}
