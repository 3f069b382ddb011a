//! The case that a switch chooses.
#![tactic(auto)]

ghost use Rattle.std.specs.Option.{option_map_or};
ghost use Rattle.std.specs.Prelude.{◌≡◌, IfOk, map, option_map};
ghost use Rattle.ksv_expr_tree.specs.Tree.{view, literal_of};
ghost use Rattle.ksv_desc.specs.Description.{Bytes};
ghost use Rattle.ksv_desc.specs.Pieces.{plain_case, plain_choice, plain_content, plain_value};
ghost use Rattle.ksv_nodes.specs.Turning.{Runs};
ghost use Rattle.ksv_rule_meaning.specs.Choosing.{is_constant, is_negative, is_enum_member, is_equal, is_case_of, is_default, first_case, case_for, switched, choose, content_of};
ghost use Rattle.ksv_rules.specs.Chosen.{plain_chosen};

use crate::evaluation::value_of_expression;
use ksv_desc::{Case, CaseValue, Choice, Content};
use ksv_expr_tree::{EnumMember, Expr, Literal};
use ksv_expr_value::{Ctx, FaultKind, Value};
use ksv_nodes::{Halt, Turn};
use ksv_rule_meaning::number_of;
use std::alloc::AllocError;

/// What is read, and by which case.
#[derive(Clone, Copy)]
pub(crate) struct Chosen<'d> {
    /// The place of the case among those of its switch, from 0, if a switch chose it.
    pub case: Option<u32>,
    /// What is read.
    pub content: &'d Content,
}

/// Whether a value is this number, truth value or text.
fn is_constant(value: &Value, literal: &Literal) -> bool
    ensures { result ≡ is_constant value.now (literal_of literal.now) }
{
    match (value, literal) {
        (Value::Int(number), Literal::Number(literal)) => number.get() == i128::from(*literal),
        (Value::Bool(truth), Literal::Truth(literal)) => truth == literal,
        (Value::Text(text), Literal::Text(literal)) => text.as_str() == literal.as_str(),
        _ => false,
    }
}

/// Whether a value is the negative of a number.
fn is_negative(value: &Value, magnitude: u64) -> bool
    ensures { result ≡ is_negative value.now magnitude }
{
    match value {
        Value::Int(number) => number.get() == -i128::from(magnitude),
        _ => false,
    }
}

/// Whether a value is this member of an enum.
fn is_enum_member(value: &Value, member: EnumMember) -> bool
    ensures { result ≡ is_enum_member value.now member }
{
    match value {
        Value::Member {
            enum_number,
            number,
        } => *enum_number == member.enum_number && number.get() == member.number,
        _ => false,
    }
}

fn is_equal(value: &Value, case: &CaseValue) -> bool
    ensures { result ≡ is_equal value.now (plain_value case.now) }
{
    match case {
        CaseValue::Literal(literal) => is_constant(value, literal),
        CaseValue::Negated(magnitude) => is_negative(value, *magnitude),
        CaseValue::Member(member) => is_enum_member(value, *member),
    }
}

/// Whether a case has this value; `_` has none.
fn is_case_of(value: &Value, case: &Case) -> bool
    ensures { result ≡ is_case_of value.now (plain_case case.now) }
{
    match &case.value {
        None => false,
        Some(wanted) => is_equal(value, wanted),
    }
}

/// The first case of this value.
#[tactic(auto, unfolding(ksv_rule_meaning::specs::Choosing::first_case))]
fn matching_case<'d>(value: &Value, cases: &'d [Case]) -> Result<Option<Chosen<'d>>, AllocError>
    ensures { IfOk result (λ chosen. option_map plain_chosen chosen ≡ first_case (is_case_of value.now) 0 (map plain_case cases.now)) }
{
    let mut place = 0;
    for case in cases {
        if is_case_of(value, case) {
            return Ok(Some(Chosen {
                case: Some(number_of(place)?),
                content: &case.content,
            }));
        }
        place += 1;
    }
    Ok(None)
}

/// The case `_`.
#[tactic(auto, unfolding(ksv_rule_meaning::specs::Choosing::first_case))]
fn default_case(cases: &[Case]) -> Result<Option<Chosen<'_>>, AllocError>
    ensures { IfOk result (λ chosen. option_map plain_chosen chosen ≡ first_case is_default 0 (map plain_case cases.now)) }
{
    let mut place = 0;
    for case in cases {
        if case.value.is_none() {
            return Ok(Some(Chosen {
                case: Some(number_of(place)?),
                content: &case.content,
            }));
        }
        place += 1;
    }
    Ok(None)
}

/// The case of a value, if there is one.
#[tactic(auto, unfolding(ksv_rule_meaning::specs::Choosing::case_for))]
fn case_for<'d>(value: &Value, cases: &'d [Case]) -> Result<Option<Chosen<'d>>, AllocError>
    ensures { IfOk result (λ chosen. option_map plain_chosen chosen ≡ case_for value.now (map plain_case cases.now)) }
{
    match matching_case(value, cases)? {
        Some(chosen) => Ok(Some(chosen)),
        None => default_case(cases),
    }
}

#[tactic(auto, using(ksv_basics::proofs::Running::run_bind), unfolding(ksv_rule_meaning::specs::Choosing::switched))]
fn switched<'d>(
    turn: &mut Turn,
    ctx: &Ctx,
    on: &Expr,
    cases: &'d [Case],
) -> Result<Option<Chosen<'d>>, Halt>
    ensures { Runs (switched ctx.now (view on.now) (map plain_case cases.now)) (λ chosen. option_map plain_chosen chosen) turn.old turn.new result }
{
    let value = value_of_expression(turn, ctx, on)?;
    Ok(case_for(&value, cases)?)
}

/// What is read, and by which case; none where a switch has no case for its value.
#[tactic(auto, unfolding(ksv_rule_meaning::specs::Choosing::choose))]
#[inline(always)]
pub(crate) fn choose<'d>(
    turn: &mut Turn,
    ctx: &Ctx,
    choice: &'d Choice,
) -> Result<Option<Chosen<'d>>, Halt>
    ensures { Runs (choose ctx.now (plain_choice choice.now)) (λ chosen. option_map plain_chosen chosen) turn.old turn.new result }
{
    match choice {
        Choice::Always(content) => Ok(Some(Chosen {
            case: None,
            content,
        })),
        Choice::Switch { on, cases } => switched(turn, ctx, on, cases),
    }
}

/// What was read by a choice; none is bytes, which a switch without a case for its value reads.
#[tactic(auto, unfolding(ksv_rule_meaning::specs::Choosing::content_of))]
#[inline(always)]
pub(crate) fn content_of<'d>(
    turn: &mut Turn,
    choice: &'d Choice,
    case: Option<u32>,
) -> Result<Option<&'d Content>, Halt>
    ensures { Runs (content_of (plain_choice choice.now) case) (λ content. option_map_or (λ c. plain_content c.now) content Bytes) turn.old turn.new result }
{
    match choice.content(case) {
        Some(content) => Ok(content),
        None => turn.raise(FaultKind::NoSuch),
    }
}
