//! Names in expressions: what is wrong with them, and the numbers that they are given.
//!
//! A question about an expression has after its colon the number of the type that the expression is in. `fault`
//! prints what is wrong with the names of an expression `SITE PLACES EXPRESSION`; among the places `s` means that
//! it is in a `seq` and `r` that it is repeated. `arguments` does the same for a type's arguments. `numbers` prints
//! the numbers of an expression's names, `member` the value of an enum's member, `type` the number of a type in `t`
//! and those of its arguments. `add` adds a name to the table, `name:N` and `number` look one up. `built_in` and
//! `built_in_at` print a type of the language by a name and by a path.

use crate::descriptions::question::{Question, question_of};
use crate::descriptions::shown::{add, add_debug, add_unknown};
use crate::descriptions::trees::add_refusal;
use ksv_expr_syntax::{parse, parse_type};
use ksv_expr_tree::{Expr, Name, TypeRef};
use ksv_schema_names::{
    NameFault, Names, Position, Scopes, Site, argument_fault, built_in, built_in_at, given_member,
    name_fault, number_arguments, number_expr, number_type,
};
use ksv_yaml::read;
use std::alloc::{AllocError, Global};

/// Adds the answers to questions about names in the description of a text.
pub(crate) fn add_names(
    alloc: Global,
    text: &[u8],
    questions: &str,
    found: &mut String,
) -> Result<(), AllocError> {
    match read(alloc, text) {
        Ok(tree) => {
            let scopes = Scopes::new(alloc, &tree)?;
            add_answers(alloc, &scopes, questions, found)
        }
        Err(fault) => add_refusal(&fault, found),
    }
}

/// Adds the answers to questions about names; the table of names grows with them.
fn add_answers(
    alloc: Global,
    scopes: &Scopes<'_>,
    questions: &str,
    found: &mut String,
) -> Result<(), AllocError> {
    let mut names = Names::new(alloc);
    for line in questions.lines() {
        add_answer(alloc, scopes, &mut names, question_of(line), found)?;
        found.push('\n')?;
    }
    Ok(())
}

/// Adds the answer to a question about names.
fn add_answer(
    alloc: Global,
    scopes: &Scopes<'_>,
    names: &mut Names,
    question: Question<'_>,
    found: &mut String,
) -> Result<(), AllocError> {
    let text = question.text;
    let within = question.number();
    found.push_str(question.verb)?;
    match question.verb {
        "fault" => add_fault(alloc, scopes, within, text, found),
        "numbers" => add_numbers_in(alloc, scopes, names, question, found),
        "member" => add_member_in(alloc, scopes, question, found),
        "arguments" | "type" | "built_in_at" => add_type_in(alloc, scopes, names, question, found),
        "built_in" => add_debug(found, &built_in(text.as_bytes())),
        _ => add_in_table(names, question, found),
    }
}

/// Adds the numbers of the names in the expression that a question has.
fn add_numbers_in(
    alloc: Global,
    scopes: &Scopes<'_>,
    names: &mut Names,
    question: Question<'_>,
    found: &mut String,
) -> Result<(), AllocError> {
    match parse(alloc, question.text.as_bytes()) {
        Ok(expr) => add_numbers(scopes, names, question.number(), expr, found),
        Err(fault) => add(found, &fault),
    }
}

/// Adds the enum's member that the expression of a question is.
fn add_member_in(
    alloc: Global,
    scopes: &Scopes<'_>,
    question: Question<'_>,
    found: &mut String,
) -> Result<(), AllocError> {
    match parse(alloc, question.text.as_bytes()) {
        Ok(expr) => add_member(scopes, question.number(), &expr, found),
        Err(fault) => add(found, &fault),
    }
}

/// Adds what the type is that a question has.
fn add_type_in(
    alloc: Global,
    scopes: &Scopes<'_>,
    names: &mut Names,
    question: Question<'_>,
    found: &mut String,
) -> Result<(), AllocError> {
    match parse_type(alloc, question.text.as_bytes()) {
        Ok(type_ref) => add_type(scopes, names, question, type_ref, found),
        Err(fault) => add(found, &fault),
    }
}

/// Adds the answer to a question about the table of names alone.
fn add_in_table(
    names: &mut Names,
    question: Question<'_>,
    found: &mut String,
) -> Result<(), AllocError> {
    match question.verb {
        "add" => {
            names.add(question.text)?;
            add(found, &names.len())
        }
        "number" => add_debug(found, &names.number_of(question.text)),
        "name" => add_debug(found, &names.name(question.word.parse().unwrap_or(0u32))),
        "names" => {
            add(found, &names.len())?;
            add(found, &names.is_empty())
        }
        _ => add_unknown(found),
    }
}

/// The place of this name.
fn site_of(name: &str) -> Site {
    match name {
        "if" => Site::Condition,
        "size" => Site::Size,
        "repeat-expr" => Site::Count,
        "repeat-until" => Site::Until,
        "switch-on" => Site::Switch,
        "argument" => Site::Argument,
        "pos" => Site::Place,
        "io" => Site::Stream,
        "cases" => Site::Case,
        _ => Site::Value,
    }
}

/// Adds what is wrong with the names of an expression.
fn add_fault(
    alloc: Global,
    scopes: &Scopes<'_>,
    within: usize,
    asked: &str,
    found: &mut String,
) -> Result<(), AllocError> {
    let (site, asked) = asked.split_once(' ').unwrap_or((asked, ""));
    let (places, text) = asked.split_once(' ').unwrap_or((asked, ""));
    let position = Position {
        site: site_of(site),
        in_sequence: places.contains('s'),
        is_repeated: places.contains('r'),
    };
    match parse(alloc, text.as_bytes()) {
        Ok(expr) => found.push_str(named(name_fault(scopes, within, position, &expr))),
        Err(fault) => add(found, &fault),
    }
}

/// A fault by name.
fn named(fault: Option<NameFault>) -> &'static str {
    match fault {
        None => " fine",
        Some(NameFault::Unknown) => " unknown",
        Some(NameFault::LeftOut) => " left out",
    }
}

/// Adds the numbers of an expression's names.
fn add_numbers(
    scopes: &Scopes<'_>,
    names: &mut Names,
    within: usize,
    expr: Expr,
    found: &mut String,
) -> Result<(), AllocError> {
    let mut expr = expr;
    names.add_dotted(&expr)?;
    number_expr(scopes, names, within, &mut expr);
    add_numbered(&expr, found)
}

/// Adds the value of an enum's member.
fn add_member(
    scopes: &Scopes<'_>,
    within: usize,
    expr: &Expr,
    found: &mut String,
) -> Result<(), AllocError> {
    match expr {
        Expr::Member(member) => add_debug(found, &given_member(scopes, within, member)),
        _ => found.push_str(" no member"),
    }
}

/// Adds the answer to a question about a type: whether it is one of the language, what is wrong with its arguments,
/// or its number in the type `t` and those of its arguments' names.
fn add_type(
    scopes: &Scopes<'_>,
    names: &mut Names,
    question: Question<'_>,
    type_ref: TypeRef,
    found: &mut String,
) -> Result<(), AllocError> {
    let mut type_ref = type_ref;
    let position = Position {
        site: Site::Argument,
        in_sequence: true,
        is_repeated: true,
    };
    let within = question.number();
    let arguments = type_ref.arguments.as_slice();
    match question.verb {
        "arguments" => {
            found.push_str(named(argument_fault(scopes, within, position, arguments)))
        }
        "built_in_at" => add_debug(found, &built_in_at(type_ref.name.path.as_slice())),
        _ => {
            names.add_all_dotted(arguments)?;
            number_type(scopes, 2, &mut type_ref.name);
            number_arguments(scopes, names, within, &mut type_ref.arguments);
            add_debug(found, &type_ref.name.number)?;
            add_all_numbered(type_ref.arguments.as_slice(), found)
        }
    }
}

/// Adds the numbers of an expression's names in the order of the text.
#[cycle(numbers)]
fn add_numbered(expr: &Expr, found: &mut String) -> Result<(), AllocError> {
    match expr {
        Expr::Literal(_) | Expr::Special(_) => Ok(()),
        Expr::Name(name) => add_name(name, found),
        Expr::Member(member) => {
            add(found, &member.name.as_str())?;
            add_debug(found, &member.given)
        },
        Expr::Unary(_, object) | Expr::SpecialField(object, _) => add_numbered(object, found),
        Expr::Binary(_, left, right) | Expr::Logical(_, left, right) | Expr::Index(left, right) => {
            add_numbered(left, found)?;
            add_numbered(right, found)
        }
        Expr::Choice(condition, yes, no) => {
            add_numbered(condition, found)?;
            add_numbered(yes, found)?;
            add_numbered(no, found)
        }
        Expr::Field(object, name) => {
            add_numbered(object, found)?;
            add_name(name, found)
        }
        Expr::Call(object, _, arguments) => {
            add_numbered(object, found)?;
            add_all_numbered(arguments.as_slice(), found)
        }
        Expr::Cast(object, name) => {
            add_numbered(object, found)?;
            found.push_str(" type")?;
            add_debug(found, &name.number)
        }
    }
}

/// Adds a name with its number.
fn add_name(name: &Name, found: &mut String) -> Result<(), AllocError> {
    add(found, &name.text.as_str())?;
    add_debug(found, &name.number)
}

/// The same for arguments.
#[cycle(numbers)]
fn add_all_numbered(arguments: &[Expr], found: &mut String) -> Result<(), AllocError> {
    for argument in arguments {
        add_numbered(argument, found)?;
    }
    Ok(())
}
