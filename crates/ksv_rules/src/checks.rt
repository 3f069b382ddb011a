//! What a value must meet.
#![tactic(auto)]

ghost use Rattle.std.specs.Prelude.{map};
ghost use Rattle.ksv_expr_tree.specs.Tree.{view};
ghost use Rattle.ksv_expr_value.specs.Trail.{last};
ghost use Rattle.ksv_desc.specs.Pieces.{plain_valid};
ghost use Rattle.ksv_desc.specs.Whole.{plain_pieces};
ghost use Rattle.ksv_nodes.specs.Turning.{Runs};
ghost use Rattle.ksv_rule_meaning.specs.Checks.{meets_one, meets_each, meets, checked, member_checked, calc_checked, object_checked, value_checked};
ghost use Rattle.ksv_rule_meaning.specs.Heads.{member_setting};

use crate::fields::kind_of;
use crate::settings::{home_of, member_ctx};
use crate::wanted::truth_of;
use ksv_desc::{Desc, Valid};
use ksv_expr_tree::Expr;
use ksv_expr_value::{Ctx, FaultKind, Path, Place, Value};
use ksv_nodes::{Calc, Halt, Head, MemberRef, Object, Origin, Turn};

/// Whether one of some conditions is true: they are evaluated in their order, up to the first that is.
fn meets_one(turn: &mut Turn, ctx: &Ctx, conditions: &[Expr]) -> Result<bool, Halt>
    ensures { Runs (meets_one ctx.now (map view conditions.now)) (λ truth. truth) turn.old turn.new result }
{
    for condition in conditions {
        if truth_of(turn, ctx, condition)? {
            return Ok(true);
        }
    }
    Ok(false)
}

/// Whether each of some conditions is true: they are evaluated in their order, up to the first that isn't.
fn meets_each(turn: &mut Turn, ctx: &Ctx, conditions: &[Expr]) -> Result<bool, Halt>
    ensures { Runs (meets_each ctx.now (map view conditions.now)) (λ truth. truth) turn.old turn.new result }
{
    for condition in conditions {
        if !truth_of(turn, ctx, condition)? {
            return Ok(false);
        }
    }
    Ok(true)
}

/// Whether the value that a context has meets what it must.
fn meets(turn: &mut Turn, ctx: &Ctx, valid: &Valid) -> Result<bool, Halt>
    ensures { Runs (meets ctx.now (plain_valid valid.now)) (λ truth. truth) turn.old turn.new result }
{
    match valid {
        Valid::AnyOf(conditions) => meets_one(turn, ctx, conditions),
        Valid::AllOf(conditions) => meets_each(turn, ctx, conditions),
    }
}

/// A value that doesn't meet what it must is a fault.
#[tactic(auto, using(ksv_basics::proofs::Running::run_bind), unfolding(ksv_rule_meaning::specs::Checks::checked))]
fn checked<'a>(turn: &mut Turn, ctx: Ctx<'a>, valid: &Valid, value: &'a Value) -> Result<(), Halt>
    ensures { Runs (checked ctx.entry (plain_valid valid.now) value.now) (λ unit. unit) turn.old turn.new result }
{
    let ctx = ctx.with_value(value);
    if !meets(turn, &ctx, valid)? {
        return turn.raise(FaultKind::Invalid);
    }
    Ok(())
}

/// Checks the value that is read at a path, by the member that reads it; with its number, if it is an element.
fn checked_in(
    turn: &mut Turn,
    path: &Path,
    origin: Origin,
    start: Place,
    valid: &Valid,
    value: &Value,
) -> Result<(), Halt>
    ensures { Runs (checked (member_setting path.now path.now (last path.now) origin start) (plain_valid valid.now) value.now) (λ unit. unit) turn.old turn.new result }
{
    let home = home_of(turn.alloc(), path)?;
    let ctx = member_ctx(&home, path, path, origin, start);
    checked(turn, ctx, valid, value)
}

/// The value of a member that is read, or of an element of it.
#[tactic(auto, using(ksv_basics::proofs::Running::run_bind), unfolding(ksv_rule_meaning::specs::Checks::member_checked))]
fn member_checked(
    turn: &mut Turn,
    desc: &Desc,
    path: &Path,
    origin: Origin,
    start: Place,
    value: &Value,
) -> Result<(), Halt>
    ensures { Runs (member_checked (plain_pieces desc.now) origin.member (member_setting path.now path.now (last path.now) origin start) value.now) (λ unit. unit) turn.old turn.new result }
{
    let kind = kind_of(turn, desc, origin.member)?;
    match kind.valid() {
        None => Ok(()),
        Some(valid) => checked_in(turn, path, origin, start, valid, value),
    }
}

/// The value of what is calculated, in its object.
#[tactic(auto, using(ksv_basics::proofs::Running::run_bind), unfolding(ksv_rule_meaning::specs::Checks::member_checked))]
fn calc_checked(
    turn: &mut Turn,
    desc: &Desc,
    path: &Path,
    calc: Calc,
    value: &Value,
) -> Result<(), Halt>
    ensures { Runs (calc_checked (plain_pieces desc.now) path.now calc value.now) (λ unit. unit) turn.old turn.new result }
{
    let member = MemberRef {
        type_number: calc.object.type_number,
        member: calc.member,
    };
    let kind = kind_of(turn, desc, member)?;
    match kind.valid() {
        None => Ok(()),
        Some(valid) => {
            let holder = path.parent(turn.alloc())?;
            let ctx = Ctx::new(&holder, calc.object.stream, calc.object.start, path);
            checked(turn, ctx, valid, value)
        }
    }
}

/// An object; the root is no member.
fn object_checked(
    turn: &mut Turn,
    desc: &Desc,
    path: &Path,
    object: &Object,
    value: &Value,
) -> Result<(), Halt>
    ensures { Runs (object_checked (plain_pieces desc.now) path.now object.now object.now.origin value.now) (λ unit. unit) turn.old turn.new result }
{
    match object.origin.get() {
        None => Ok(()),
        Some(origin) => member_checked(turn, desc, path, origin, object.start, value),
    }
}

/// The value of what is at a path: it is a fault unless it meets what it must. A list isn't checked, its elements are.
#[tactic(auto, unfolding(ksv_rule_meaning::specs::Checks::value_checked))]
pub(crate) fn value_checked(
    turn: &mut Turn,
    desc: &Desc,
    path: &Path,
    head: &Head,
    value: &Value,
) -> Result<(), Halt>
    ensures { Runs (value_checked (plain_pieces desc.now) path.now head.now value.now) (λ unit. unit) turn.old turn.new result }
{
    match head {
        Head::Absent(_) => Ok(()),
        Head::Calc(calc) => calc_checked(turn, desc, path, *calc, value),
        Head::Leaf(leaf) => member_checked(turn, desc, path, leaf.origin, leaf.from, value),
        Head::Object(object) => object_checked(turn, desc, path, object, value),
        Head::List(_) => Ok(()),
    }
}
