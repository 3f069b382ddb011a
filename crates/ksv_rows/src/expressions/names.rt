//! The numbers that names have here, as a description would give them.

use ksv_expr_tree::{EnumMember, Expr, TypeName};

/// The names that members have, in the order of their numbers. Every other name has no number.
const NAMES: &str = "a b c o v items len xs blk first z i";

/// The number of a member's name.
pub(crate) fn number_of(name: &str) -> Option<u32> {
    let mut number = 0u32;
    for known in NAMES.split(' ') {
        if known == name {
            return Some(number);
        }
        number = number.saturating_add(1);
    }
    None
}

/// The name that has a number.
pub(crate) fn name_of(number: u32) -> &'static str {
    let mut left = number;
    for known in NAMES.split(' ') {
        if left == 0 {
            return known;
        }
        left = left.saturating_sub(1);
    }
    "?"
}

/// The members of enums, each with its enum's number and its own: `animal` is the enum 0 and `plant` the enum 1.
const MEMBERS: &str = "cat 0 4;dog 0 7;oak 1 4;far 1 18446744073709551616";

/// The value of an enum's member.
fn given(name: &str) -> Option<EnumMember> {
    for row in MEMBERS.split(';') {
        let (known, value) = row.split_once(' ').unwrap_or((row, ""));
        if known == name {
            let (enum_number, number) = value.split_once(' ').unwrap_or((value, ""));
            return Some(EnumMember {
                enum_number: enum_number.parse().unwrap_or(0u32),
                number: number.parse().unwrap_or(0i128),
            });
        }
    }
    None
}

/// The type `t` has the number 7, and no other type has one.
fn type_number(name: &TypeName) -> Option<u32> {
    match name.path.last() {
        Some(last) if last.as_str() == "t" => Some(7),
        _ => None,
    }
}

/// Gives the names, types and members of an expression their numbers.
#[cycle(numbers)]
pub(crate) fn number(expr: &mut Expr) {
    match expr {
        Expr::Literal(_) | Expr::Special(_) => {}
        Expr::Name(name) => name.number = number_of(name.text.as_str()),
        Expr::Member(member) => member.given = given(member.name.as_str()),
        Expr::Unary(_, operand) => number(operand),
        Expr::Binary(_, left, right) => {
            number(left);
            number(right);
        }
        Expr::Logical(_, left, right) => {
            number(left);
            number(right);
        }
        Expr::Choice(condition, yes, no) => {
            number(condition);
            number(yes);
            number(no);
        }
        Expr::Field(object, name) => {
            number(object);
            name.number = number_of(name.text.as_str());
        }
        Expr::SpecialField(object, _) => number(object),
        Expr::Call(object, _, arguments) => {
            number(object);
            number_each(arguments);
        }
        Expr::Index(list, place) => {
            number(list);
            number(place);
        }
        Expr::Cast(object, name) => {
            number(object);
            name.number = type_number(name);
        }
    }
}

#[cycle(numbers)]
fn number_each(arguments: &mut [Expr]) {
    for argument in arguments.iter_mut() {
        number(argument);
    }
}
