//! The results of operators and methods that ask no question.
ghost use Rattle.std.specs.Prelude.{◌≡◌, ◌≢◌, ◌==◌, IfOk, pos, int_lt};
ghost use Rattle.std.specs.Ordering.{nat_cmp, int_cmp, int_eq};
ghost use Rattle.std.specs.Cmp.Lexicographic.{slice_cmp};
ghost use Rattle.std.specs.Str.{bytes_eq};
ghost use Rattle.ksv_expr_meaning.specs.Operators.{matched, ordered, same_truth, texts_of, members_of, unary_of, integer_with, truth_with, integer_method, truth_method, text_method, bytes_method, member_method, text_call_one, text_call_two, as_value, substring_of, joined_text};

use crate::{arithmetic, texts};
use ksv_expr_meaning::Method;
use ksv_expr_tree::{BinaryOperator, UnaryOperator};
use ksv_expr_value::{FaultKind, Integer, Text, Value};
use std::alloc::{AllocError, Global};
use std::cmp::Ordering;

/// The result of an operator of equality, given whether the two values are the same.
pub(crate) fn matched(operator: BinaryOperator, same: bool) -> Result<Value, FaultKind>
    ensures { result ≡ matched operator same }
{
    match operator {
        BinaryOperator::Equal => Ok(Value::Bool(same)),
        BinaryOperator::NotEqual => Ok(Value::Bool(!same)),
        _ => Err(FaultKind::BadType),
    }
}

/// The result of an operator of order, given the order of the two values.
pub(crate) fn ordered(operator: BinaryOperator, ordering: Ordering) -> Result<Value, FaultKind>
    ensures { result ≡ ordered operator ordering }
{
    match operator {
        BinaryOperator::Less => Ok(Value::Bool(ordering.is_lt())),
        BinaryOperator::LessOrEqual => Ok(Value::Bool(!ordering.is_gt())),
        BinaryOperator::Greater => Ok(Value::Bool(ordering.is_gt())),
        BinaryOperator::GreaterOrEqual => Ok(Value::Bool(!ordering.is_lt())),
        _ => Err(FaultKind::BadType),
    }
}

/// An operator between two truth values.
pub(crate) fn truths(operator: BinaryOperator, left: bool, right: bool) -> Result<Value, FaultKind>
    ensures { result ≡ matched operator (same_truth left right) }
{
    matched(operator, left == right)
}

/// An operator between two texts.
pub(crate) fn two_texts(
    alloc: Global,
    operator: BinaryOperator,
    left: &Text,
    right: &Text,
) -> Result<Result<Value, FaultKind>, AllocError>
    ensures { IfOk result (λ r. r ≡ texts_of operator left.now right.now) }
{
    Ok(match operator {
        BinaryOperator::Add => joined(texts::join(alloc, left, right)?),
        BinaryOperator::Equal => matched(BinaryOperator::Equal, texts::equals(left, right)),
        BinaryOperator::NotEqual => matched(BinaryOperator::NotEqual, texts::equals(left, right)),
        _ => ordered(operator, texts::compare(left, right)),
    })
}

fn joined(text: Option<Text>) -> Result<Value, FaultKind>
    ensures { result ≡ joined_text text }
{
    match text {
        None => Err(FaultKind::TooMany),
        Some(text) => Ok(Value::Text(text)),
    }
}

/// An operator between two members.
pub(crate) fn members(
    operator: BinaryOperator,
    left_enum: u32,
    left: Integer,
    right_enum: u32,
    right: Integer,
) -> Result<Value, FaultKind>
    ensures { result ≡ members_of operator left_enum left right_enum right }
{
    if left_enum == right_enum {
        matched(operator, arithmetic::equals(left, right))
    } else {
        Err(FaultKind::BadType)
    }
}

fn integer_with(operator: UnaryOperator, number: Integer) -> Result<Value, FaultKind>
    ensures { result ≡ integer_with operator number }
{
    match operator {
        UnaryOperator::Negate => arithmetic::exactly(arithmetic::negate(number)),
        UnaryOperator::Plus => Ok(Value::Int(number)),
        UnaryOperator::Complement => arithmetic::exactly(arithmetic::complement(number)),
        UnaryOperator::Not => Err(FaultKind::BadType),
    }
}

fn truth_with(operator: UnaryOperator, truth: bool) -> Result<Value, FaultKind>
    ensures { result ≡ truth_with operator truth }
{
    match operator {
        UnaryOperator::Not => Ok(Value::Bool(!truth)),
        _ => Err(FaultKind::BadType),
    }
}

/// An operator in front of a value.
pub(crate) fn unary(operator: UnaryOperator, value: &Value) -> Result<Value, FaultKind>
    ensures { result ≡ unary_of operator value.now }
{
    match value {
        Value::Int(number) => integer_with(operator, *number),
        Value::Bool(truth) => truth_with(operator, *truth),
        _ => Err(FaultKind::BadType),
    }
}

/// A method of an integer.
pub(crate) fn integer_method(
    alloc: Global,
    method: Method,
    number: Integer,
) -> Result<Result<Value, FaultKind>, AllocError>
    ensures { IfOk result (λ r. r ≡ integer_method method number) }
{
    match method {
        Method::ToText => Ok(Ok(Value::Text(texts::decimal(alloc, number)?))),
        _ => Ok(Err(FaultKind::BadType)),
    }
}

/// A method of a truth value.
pub(crate) fn truth_method(method: Method, truth: bool) -> Result<Value, FaultKind>
    ensures { result ≡ truth_method method truth }
{
    match method {
        Method::ToInteger => Ok(Value::Int(Integer::from(u64::from(truth)))),
        _ => Err(FaultKind::BadType),
    }
}

fn as_value(number: Result<Integer, FaultKind>) -> Result<Value, FaultKind>
    ensures { result ≡ as_value number }
{
    match number {
        Ok(number) => Ok(Value::Int(number)),
        Err(kind) => Err(kind),
    }
}

/// A method of a text.
pub(crate) fn text_method(
    alloc: Global,
    method: Method,
    text: &Text,
) -> Result<Result<Value, FaultKind>, AllocError>
    ensures { IfOk result (λ r. r ≡ text_method method text.now) }
{
    match method {
        Method::Length => Ok(Ok(Value::Int(Integer::from(texts::char_count(text) as u64)))),
        Method::Reverse => Ok(Ok(Value::Text(texts::reverse(alloc, text)?))),
        Method::ToInteger => Ok(as_value(texts::number(text, Integer::from(10)))),
        _ => Ok(Err(FaultKind::BadType)),
    }
}

/// A method of bytes.
pub(crate) fn bytes_method(method: Method, from: u32, to: u32) -> Result<Value, FaultKind>
    ensures { result ≡ bytes_method method from to }
{
    match method {
        Method::Length => Ok(Value::Int(Integer::from(u64::from(to.saturating_sub(from))))),
        _ => Err(FaultKind::BadType),
    }
}

/// A method of a member.
pub(crate) fn member_method(method: Method, number: Integer) -> Result<Value, FaultKind>
    ensures { result ≡ member_method method number }
{
    match method {
        Method::ToInteger => Ok(Value::Int(number)),
        _ => Err(FaultKind::BadType),
    }
}

/// A method of a text with one value in parentheses.
pub(crate) fn text_call_one(method: Method, text: &Text, value: &Value) -> Result<Value, FaultKind>
    ensures { result ≡ text_call_one method text.now value.now }
{
    match method {
        Method::ToInteger => match value {
            Value::Int(radix) => as_value(texts::number(text, *radix)),
            _ => Err(FaultKind::BadType),
        },
        _ => Err(FaultKind::BadType),
    }
}

fn substring(text: Option<Text>) -> Result<Value, FaultKind>
    ensures { result ≡ substring_of text }
{
    match text {
        None => Err(FaultKind::BadIndex),
        Some(text) => Ok(Value::Text(text)),
    }
}

/// A method of a text with two values in parentheses.
pub(crate) fn text_call_two(
    alloc: Global,
    method: Method,
    text: &Text,
    first: &Value,
    second: &Value,
) -> Result<Result<Value, FaultKind>, AllocError>
    ensures { IfOk result (λ r. r ≡ text_call_two method text.now first.now second.now) }
{
    match method {
        Method::Substring => match first {
            Value::Int(from) => match second {
                Value::Int(to) => Ok(substring(texts::substring(alloc, text, *from, *to)?)),
                _ => Ok(Err(FaultKind::BadType)),
            },
            _ => Ok(Err(FaultKind::BadType)),
        },
        _ => Ok(Err(FaultKind::BadType)),
    }
}
