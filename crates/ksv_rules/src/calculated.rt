//! The values of value instances and parameters.
#![tactic(auto)]

ghost use Rattle.std.specs.Option.{option_map_or};
ghost use Rattle.std.specs.Prelude.{◌≡◌, map};
ghost use Rattle.ksv_expr_tree.specs.Tree.{arguments_of, view};
ghost use Rattle.ksv_expr_value.specs.Trail.{parent};
ghost use Rattle.ksv_desc.specs.Description.{Bytes};
ghost use Rattle.ksv_desc.specs.Pieces.{plain_content, plain_kind};
ghost use Rattle.ksv_desc.specs.Whole.{plain_pieces};
ghost use Rattle.ksv_nodes.specs.Turning.{Runs};
ghost use Rattle.ksv_rule_meaning.specs.Heads.{holder_setting};
ghost use Rattle.ksv_rule_meaning.specs.Values.{in_no_stream, in_enum, instance_value, given_by, arguments_for, argument_at, argument_setting, plain_value, argument_value, parameter_value, calc_value, calculated};

use crate::choosing::content_of;
use crate::evaluation::value_of_expression;
use crate::fields::{field_of, kind_of, parameters_before};
use crate::settings::{home_of, member_ctx};
use ksv_desc::{Content, Desc, MemberKind};
use ksv_expr_tree::Expr;
use ksv_expr_value::{Ctx, FaultKind, Path, Place, Value};
use ksv_nodes::{Calc, Halt, MemberRef, Object, Origin, Turn};
use ksv_rule_meaning::members_of;

/// No member's value is a stream.
fn in_no_stream(turn: &mut Turn, value: Value) -> Result<Value, Halt>
    ensures { Runs (in_no_stream value) (λ value. value) turn.old turn.new result }
{
    match value {
        Value::Stream(_) => turn.raise(FaultKind::BadType),
        value => Ok(value),
    }
}

/// A value as a member of an enum, where it is one; what is no integer doesn't fit.
fn in_enum(turn: &mut Turn, enumeration: Option<u32>, value: Value) -> Result<Value, Halt>
    ensures { Runs (in_enum enumeration value) (λ value. value) turn.old turn.new result }
{
    match enumeration {
        None => in_no_stream(turn, value),
        Some(enum_number) => match value {
            Value::Int(number) => Ok(Value::Member {
                enum_number,
                number,
            }),
            _ => turn.raise(FaultKind::BadType),
        },
    }
}

/// The value of a value instance, whose expression is evaluated in its object.
#[tactic(auto, using(ksv_basics::proofs::Running::run_bind), unfolding(ksv_rule_meaning::specs::Values::instance_value))]
fn instance_value(
    turn: &mut Turn,
    ctx: &Ctx,
    value: &Expr,
    enumeration: Option<u32>,
) -> Result<Value, Halt>
    ensures { Runs (instance_value ctx.now (view value.now) enumeration) (λ value. value) turn.old turn.new result }
{
    let value = value_of_expression(turn, ctx, value)?;
    in_enum(turn, enumeration, value)
}

/// The arguments that were given to an object of a type.
fn given_by<'d>(turn: &mut Turn, content: Option<&'d Content>) -> Result<&'d [Expr], Halt>
    ensures { Runs (given_by (option_map_or (λ c. plain_content c.now) content.entry Bytes)) (λ given. arguments_of (map view given.now)) turn.old turn.new result }
{
    match content {
        Some(Content::Object { arguments, .. }) => Ok(arguments.as_slice()),
        _ => turn.raise(FaultKind::NoSuch),
    }
}

/// The arguments that were given to the object that is read so.
#[tactic(auto, using(ksv_basics::proofs::Running::run_bind), unfolding(ksv_rule_meaning::specs::Values::arguments_for))]
fn arguments_for<'d>(turn: &mut Turn, desc: &'d Desc, origin: Origin) -> Result<&'d [Expr], Halt>
    ensures { Runs (arguments_for (plain_pieces desc.now) origin) (λ given. arguments_of (map view given.now)) turn.old turn.new result }
{
    let field = field_of(turn, desc, origin.member)?;
    let content = content_of(turn, &field.choice, origin.case.get())?;
    given_by(turn, content)
}

/// The argument of a number.
fn argument_at<'d>(turn: &mut Turn, given: &'d [Expr], number: usize) -> Result<&'d Expr, Halt>
    ensures { Runs (argument_at (arguments_of (map view given.now)) number) (λ argument. view argument.now) turn.old turn.new result }
{
    match given.get(number) {
        None => turn.raise(FaultKind::NoSuch),
        Some(argument) => Ok(argument),
    }
}

/// The value of an expression, which is no stream.
#[tactic(auto, using(ksv_basics::proofs::Running::run_bind), unfolding(ksv_rule_meaning::specs::Values::plain_value))]
fn plain_value(turn: &mut Turn, ctx: &Ctx, expr: &Expr) -> Result<Value, Halt>
    ensures { Runs (plain_value ctx.now (view expr.now)) (λ value. value) turn.old turn.new result }
{
    let value = value_of_expression(turn, ctx, expr)?;
    in_no_stream(turn, value)
}

/// The value of an argument for the object at a path, evaluated where that object is read.
fn evaluated(
    turn: &mut Turn,
    path: &Path,
    holder: &Path,
    origin: Origin,
    start: Place,
    argument: &Expr,
) -> Result<Value, Halt>
    ensures { Runs (plain_value (argument_setting path.now holder.now origin start) (view argument.now)) (λ value. value) turn.old turn.new result }
{
    let home = home_of(turn.alloc(), holder)?;
    let ctx = member_ctx(&home, path, holder, origin, start);
    plain_value(turn, &ctx, argument)
}

/// The value of a parameter of the object at `holder`: its argument's.
#[tactic(auto, using(ksv_basics::proofs::Running::run_bind), unfolding(ksv_rule_meaning::specs::Values::argument_value))]
fn argument_value(
    turn: &mut Turn,
    desc: &Desc,
    path: &Path,
    holder: &Path,
    calc: &Calc,
    origin: &Origin,
) -> Result<Value, Halt>
    ensures { Runs (argument_value (plain_pieces desc.now) path.now holder.now calc.now.member calc.now.object origin.now) (λ value. value) turn.old turn.new result }
{
    let given = arguments_for(turn, desc, *origin)?;
    let members = members_of(desc, calc.object.type_number);
    let argument = argument_at(turn, given, parameters_before(members, calc.member))?;
    evaluated(turn, path, holder, *origin, calc.object.start, argument)
}

/// The value of a parameter; nothing is given to the root.
#[tactic(auto, unfolding(ksv_rule_meaning::specs::Values::parameter_value))]
fn parameter_value(
    turn: &mut Turn,
    desc: &Desc,
    path: &Path,
    holder: &Path,
    calc: &Calc,
) -> Result<Value, Halt>
    ensures { Runs (parameter_value (plain_pieces desc.now) path.now holder.now calc.now.member calc.now.object calc.now.object.origin) (λ value. value) turn.old turn.new result }
{
    match calc.object.origin.get() {
        None => turn.raise(FaultKind::NoSuch),
        Some(origin) => argument_value(turn, desc, path, holder, calc, &origin),
    }
}

#[tactic(auto, unfolding(ksv_rule_meaning::specs::Values::calc_value))]
fn calc_value(
    turn: &mut Turn,
    desc: &Desc,
    path: &Path,
    holder: &Path,
    calc: Calc,
    kind: &MemberKind,
) -> Result<Value, Halt>
    ensures { Runs (calc_value (plain_pieces desc.now) path.now holder.now calc (plain_kind kind.now)) (λ value. value) turn.old turn.new result }
{
    match kind {
        MemberKind::Parameter => parameter_value(turn, desc, path, holder, &calc),
        MemberKind::ValueInstance {
            value,
            enumeration,
            ..
        } => {
            let ctx = Ctx::new(holder, calc.object.stream, calc.object.start, path);
            instance_value(turn, &ctx, value, *enumeration)
        }
        _ => turn.raise(FaultKind::NoSuch),
    }
}

/// The value of what is calculated at a path.
#[tactic(auto, using(ksv_basics::proofs::Running::run_bind), unfolding(ksv_rule_meaning::specs::Values::calculated))]
pub(crate) fn calculated(
    turn: &mut Turn,
    desc: &Desc,
    path: &Path,
    calc: Calc,
) -> Result<Value, Halt>
    ensures { Runs (calculated (plain_pieces desc.now) path.now (parent path.now) calc) (λ value. value) turn.old turn.new result }
{
    let member = MemberRef {
        type_number: calc.object.type_number,
        member: calc.member,
    };
    let kind = kind_of(turn, desc, member)?;
    let holder = path.parent(turn.alloc())?;
    calc_value(turn, desc, path, &holder, calc, kind)
}
