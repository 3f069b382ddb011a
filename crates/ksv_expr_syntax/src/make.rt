//! Expressions as the parser makes them, each with its plain tree.

ghost use Rattle.std.specs.Prelude.{◌≡◌, None, map, IfOk, string_bytes, box_value};
ghost use Rattle.ksv_expr_tree.specs.Tree.{view, arguments_of, literal_of, literal, member, unary, binary, logical, choice, call, index, cast};
ghost use Rattle.ksv_expr_syntax.specs.Grammar.{special_of, name_tree, select_tree};

use ksv_expr_tree::{
    BinaryOperator, Expr, Literal, LogicalOperator, Member, Name, SpecialName, TypeName,
    UnaryOperator,
};
use std::alloc::{AllocError, Global};

pub(crate) fn literal_expr(value: Literal) -> Expr
    ensures { view result ≡ literal (literal_of value) }
{
    Expr::Literal(value)
}

/// A name alone, with no number.
pub(crate) fn name_expr(text: String) -> Expr
    ensures { view result ≡ name_tree (string_bytes text) }
{
    match special_name(text.as_str()) {
        Some(name) => Expr::Special(name),
        None => Expr::Name(Name { text, number: None }),
    }
}

pub(crate) fn member_expr(path: Vec<String>, name: String) -> Expr
    ensures { view result ≡ member (record { path = map string_bytes path.items; name = string_bytes name; given = None }) }
{
    Expr::Member(Member {
        path,
        name,
        given: None,
    })
}

/// Two expressions, each in a box.
fn boxed(alloc: Global, left: Expr, right: Expr) -> Result<(Box<Expr>, Box<Expr>), AllocError>
    ensures { IfOk result (λ x. (box_value x.0 ≡ left) × (box_value x.1 ≡ right)) }
{
    Ok((Box::new(alloc, left)?, Box::new(alloc, right)?))
}

pub(crate) fn unary_expr(
    alloc: Global,
    operator: UnaryOperator,
    operand: Expr,
) -> Result<Expr, AllocError>
    ensures { IfOk result (λ e. view e ≡ unary operator (view operand)) }
{
    Ok(Expr::Unary(operator, Box::new(alloc, operand)?))
}

pub(crate) fn binary_expr(
    alloc: Global,
    operator: BinaryOperator,
    left: Expr,
    right: Expr,
) -> Result<Expr, AllocError>
    ensures { IfOk result (λ e. view e ≡ binary operator (view left) (view right)) }
{
    let (left, right) = boxed(alloc, left, right)?;
    Ok(Expr::Binary(operator, left, right))
}

pub(crate) fn logical_expr(
    alloc: Global,
    operator: LogicalOperator,
    left: Expr,
    right: Expr,
) -> Result<Expr, AllocError>
    ensures { IfOk result (λ e. view e ≡ logical operator (view left) (view right)) }
{
    let (left, right) = boxed(alloc, left, right)?;
    Ok(Expr::Logical(operator, left, right))
}

pub(crate) fn choice_expr(
    alloc: Global,
    condition: Expr,
    yes: Expr,
    no: Expr,
) -> Result<Expr, AllocError>
    ensures { IfOk result (λ e. view e ≡ choice (view condition) (view yes) (view no)) }
{
    let (yes, no) = boxed(alloc, yes, no)?;
    Ok(Expr::Choice(Box::new(alloc, condition)?, yes, no))
}

/// A name after a dot, with no number.
pub(crate) fn select_expr(alloc: Global, object: Expr, text: String) -> Result<Expr, AllocError>
    ensures { IfOk result (λ e. view e ≡ select_tree (view object) (string_bytes text)) }
{
    let object = Box::new(alloc, object)?;
    match special_name(text.as_str()) {
        Some(name) => Ok(Expr::SpecialField(object, name)),
        None => Ok(Expr::Field(object, Name { text, number: None })),
    }
}

pub(crate) fn call_expr(
    alloc: Global,
    object: Expr,
    method: &str,
    arguments: Vec<Expr>,
) -> Result<Expr, AllocError>
    ensures { IfOk result (λ e. view e ≡ call (view object) method.now (arguments_of (map view arguments.items))) }
{
    let object = Box::new(alloc, object)?;
    Ok(Expr::Call(object, String::from_str(alloc, method)?, arguments))
}

pub(crate) fn index_expr(alloc: Global, list: Expr, place: Expr) -> Result<Expr, AllocError>
    ensures { IfOk result (λ e. view e ≡ index (view list) (view place)) }
{
    let (list, place) = boxed(alloc, list, place)?;
    Ok(Expr::Index(list, place))
}

pub(crate) fn cast_expr(alloc: Global, object: Expr, path: Vec<String>) -> Result<Expr, AllocError>
    ensures { IfOk result (λ e. view e ≡ cast (view object) (record { path = map string_bytes path.items; number = None })) }
{
    Ok(Expr::Cast(Box::new(alloc, object)?, TypeName { path, number: None }))
}

/// A name's special meaning.
fn special_name(text: &str) -> Option<SpecialName>
    ensures { result ≡ special_of text.now }
{
    if text == "_root" {
        Some(SpecialName::Root)
    } else if text == "_parent" {
        Some(SpecialName::Parent)
    } else if text == "_io" {
        Some(SpecialName::Io)
    } else if text == "_index" {
        Some(SpecialName::Index)
    } else if text == "_" {
        Some(SpecialName::Element)
    } else {
        None
    }
}

/// A copy of a literal.
pub(crate) fn copy_literal(alloc: Global, value: &Literal) -> Result<Literal, AllocError>
    ensures { IfOk result (λ l. literal_of l ≡ literal_of value.now) }
{
    match value {
        Literal::Number(number) => Ok(Literal::Number(*number)),
        Literal::Truth(truth) => Ok(Literal::Truth(*truth)),
        Literal::Text(text) => Ok(Literal::Text(String::from_str(alloc, text.as_str())?)),
    }
}
