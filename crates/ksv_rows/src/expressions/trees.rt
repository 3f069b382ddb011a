//! Trees as texts: operators first, in parentheses.

use crate::expressions::shown::{add, add_debug};
use crate::expressions::values::show_text;
use ksv_expr_syntax::{ExprFault, parse, parse_type};
use ksv_expr_tree::{Expr, Literal, Member};
use std::alloc::{AllocError, Global};
use std::fmt::Debug;

/// Adds the tree of an expression's text, or its refusal.
pub(crate) fn add_tree(alloc: Global, text: &[u8], out: &mut String) -> Result<(), AllocError> {
    match parse(alloc, text) {
        Err(fault) => show_refusal(&fault, out),
        Ok(expr) => show(&expr, out),
    }
}

/// Adds the name and the arguments of a type's text, or its refusal.
pub(crate) fn add_type(alloc: Global, text: &[u8], out: &mut String) -> Result<(), AllocError> {
    match parse_type(alloc, text) {
        Err(fault) => show_refusal(&fault, out),
        Ok(found) => {
            show_path(found.name.path.as_slice(), out)?;
            show_arguments(found.arguments.as_slice(), out)
        }
    }
}

/// What a text says after some front, or all of it where it begins otherwise.
fn after<'a>(text: &'a str, front: &str) -> &'a str {
    match text.strip_prefix(front) {
        Some(rest) => rest,
        None => text,
    }
}

/// Adds the code of a refusal, what its text says after that code, and its place.
fn show_refusal(fault: &ExprFault, out: &mut String) -> Result<(), AllocError> {
    let code = fault.kind.code();
    out.push_str(code)?;
    out.push_str(after(after(fault.kind.text(), "expression: "), code))?;
    out.push_str(" at ")?;
    add(&fault.at, out)
}

/// Adds an expression.
#[cycle(trees)]
fn show(expr: &Expr, out: &mut String) -> Result<(), AllocError> {
    match expr {
        Expr::Literal(value) => show_literal(value, out),
        Expr::Name(name) => out.push_str(name.text.as_str()),
        Expr::Special(name) => add_debug(name, out),
        Expr::Member(member) => show_member(member, out),
        Expr::Unary(operator, operand) => {
            show_operator(operator, out)?;
            show_before(operand, ")", out)
        }
        Expr::Binary(operator, left, right) => {
            show_operator(operator, out)?;
            show_before(left, " ", out)?;
            show_before(right, ")", out)
        }
        Expr::Logical(operator, left, right) => {
            show_operator(operator, out)?;
            show_before(left, " ", out)?;
            show_before(right, ")", out)
        }
        Expr::Choice(condition, yes, no) => {
            out.push_str("(? ")?;
            show_before(condition, " ", out)?;
            show_before(yes, " ", out)?;
            show_before(no, ")", out)
        }
        Expr::Field(object, name) => {
            show_before(object, ".", out)?;
            out.push_str(name.text.as_str())
        }
        Expr::SpecialField(object, name) => {
            show_before(object, ".", out)?;
            add_debug(name, out)
        }
        Expr::Call(object, method, arguments) => {
            show_before(object, ".", out)?;
            show_call(method.as_str(), arguments, out)
        }
        Expr::Index(list, place) => {
            show_before(list, "[", out)?;
            show_before(place, "]", out)
        }
        Expr::Cast(object, name) => {
            show_before(object, ".as<", out)?;
            show_path(name.path.as_slice(), out)?;
            out.push_str(">")
        }
    }
}

/// Adds an operator in front of its operands.
fn show_operator<T: Debug>(operator: &T, out: &mut String) -> Result<(), AllocError> {
    out.push_str("(")?;
    add_debug(operator, out)?;
    out.push_str(" ")
}

/// Adds an expression and what comes after it.
#[cycle(trees)]
fn show_before(expr: &Expr, behind: &str, out: &mut String) -> Result<(), AllocError> {
    show(expr, out)?;
    out.push_str(behind)
}

/// Adds a method with its arguments.
#[cycle(trees)]
fn show_call(method: &str, arguments: &[Expr], out: &mut String) -> Result<(), AllocError> {
    out.push_str(method)?;
    out.push_str("(")?;
    show_arguments(arguments, out)?;
    out.push_str(")")
}

/// Adds arguments, with a `;` after each.
#[cycle(trees)]
fn show_arguments(arguments: &[Expr], out: &mut String) -> Result<(), AllocError> {
    for argument in arguments {
        show_before(argument, ";", out)?;
    }
    Ok(())
}

/// Adds a literal.
fn show_literal(value: &Literal, out: &mut String) -> Result<(), AllocError> {
    match value {
        Literal::Number(number) => add(number, out),
        Literal::Truth(truth) => add(truth, out),
        Literal::Text(text) => show_text(text.as_str(), out),
    }
}

/// Adds an enum's member.
fn show_member(member: &Member, out: &mut String) -> Result<(), AllocError> {
    show_path(member.path.as_slice(), out)?;
    out.push_str(member.name.as_str())
}

/// Adds names, with `::` after each.
fn show_path(path: &[String], out: &mut String) -> Result<(), AllocError> {
    for name in path {
        out.push_str(name.as_str())?;
        out.push_str("::")?;
    }
    Ok(())
}
