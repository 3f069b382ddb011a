//! Descriptions: the answer to loading one, and what one has.
//!
//! `type:N` prints the type of a number: its name, the numbers of its members' names, of the names of those in its
//! `seq`, and how many these are. `enum:E N` prints an enum: whether it is there, its name, and the id of a number
//! in it. `number TEXT` prints the number of a name, and `name:N` the name of a number.

use crate::descriptions::question::{Question, question_of};
use crate::descriptions::shown::{add, add_debug, add_unknown};
use crate::descriptions::trees::add_refusal;
use ksv_schema::{Desc, load};
use ksv_yaml::read;
use std::alloc::{AllocError, Global};

/// Adds the answer to loading a text: `ok` and then the answers to questions, or the code and the fault.
pub(crate) fn add_loaded(
    alloc: Global,
    text: &[u8],
    questions: &str,
    found: &mut String,
) -> Result<(), AllocError> {
    match read(alloc, text) {
        Err(fault) => add_refusal(&fault, found),
        Ok(tree) => match load(alloc, &tree) {
            Ok(desc) => add_answers(&desc, questions, found),
            Err(fault) => {
                found.push_str(fault.kind.code())?;
                add(found, &fault)?;
                found.push('\n')
            }
        },
    }
}

/// Adds the answers to questions about a description.
fn add_answers(desc: &Desc, questions: &str, found: &mut String) -> Result<(), AllocError> {
    found.push_str("ok\n")?;
    for line in questions.lines() {
        add_answer(desc, question_of(line), found)?;
        found.push('\n')?;
    }
    Ok(())
}

/// Adds the answer to a question about a description.
fn add_answer(desc: &Desc, question: Question<'_>, found: &mut String) -> Result<(), AllocError> {
    let number = question.word.parse().unwrap_or(0u32);
    found.push_str(question.verb)?;
    match question.verb {
        "type" => add_type(desc, number, found),
        "enum" => add_enum(desc, number, question.text, found),
        "number" => add_debug(found, &desc.number_of(question.text)),
        "name" => add_debug(found, &desc.name(number)),
        _ => add_unknown(found),
    }
}

/// Adds a type.
fn add_type(desc: &Desc, number: u32, found: &mut String) -> Result<(), AllocError> {
    add_debug(found, &desc.type_id(number))?;
    add_debug(found, &desc.members(number))?;
    add_debug(found, &desc.fields(number))?;
    add_debug(found, &count_in_sequence(desc, number))
}

/// How many members of a type are in its `seq`.
fn count_in_sequence(desc: &Desc, number: u32) -> Option<usize> {
    let mut count = 0usize;
    for member in desc.type_desc(number)?.members() {
        if member.is_attribute() {
            count = count.saturating_add(1);
        }
    }
    Some(count)
}

/// Adds an enum, and the id of a number in it.
fn add_enum(
    desc: &Desc,
    enumeration: u32,
    number: &str,
    found: &mut String,
) -> Result<(), AllocError> {
    add(found, &desc.enum_desc(enumeration).is_some())?;
    add_debug(found, &desc.enum_id(enumeration))?;
    add_debug(
        found,
        &desc.member_id(enumeration, number.parse().unwrap_or(0i128)),
    )
}
