//! The value of an expression in a rule.

ghost use Rattle.ksv_expr_tree.specs.Tree.{view};
ghost use Rattle.ksv_nodes.specs.Turning.{Runs};
ghost use Rattle.ksv_rules.specs.Code.{value_of_name};
ghost use Rattle.ksv_rule_meaning.specs.Wanted.{expression};

use ksv_expr_eval::{Halt as Stop, evaluate};
use ksv_expr_tree::{Expr, Name};
use ksv_expr_value::{Ctx, FaultKind, Path, Step, Value};
use ksv_nodes::{Halt, Turn};

/// The value of an expression, whose wants the turn answers. Its own faults are at the path of the node.
#[tactic(auto, using(crate::proofs::Meeting::expression_met))]
#[inline(never)]
fn evaluated(turn: &mut Turn, ctx: &Ctx, expr: &Expr) -> Result<Value, Halt>
    ensures { Runs (expression ctx.now (view expr.now)) (λ v. v) turn.old turn.new result }
{
    match evaluate(turn, ctx, expr) {
        Ok(value) => Ok(value),
        Err(Stop::Need(node)) => Err(Halt::Need(node)),
        Err(Stop::Fault(fault)) => Err(Halt::Fault(fault)),
        Err(Stop::Memory) => Err(Halt::Memory),
    }
}

/// The value of a name alone, which is that of a member of the context's object. It is asked of the turn as it is.
#[tactic(auto, using(ksv_basics::proofs::Running::run_bind))]
#[inline(always)]
fn value_of_name(turn: &mut Turn, home: &Path, name: &Name) -> Result<Value, Halt>
    ensures { Runs (value_of_name home.now name.now.number) (λ v. v) turn.old turn.new result }
{
    match name.number {
        None => turn.raise(FaultKind::BadType),
        Some(number) => {
            let value = turn.value_of_part(home, Step::Name(number))?;
            Ok(value.copy(turn.alloc())?)
        }
    }
}

/// The value of an expression. Its own faults are at the path of the node.
#[inline(always)]
pub(crate) fn value_of_expression(turn: &mut Turn, ctx: &Ctx, expr: &Expr) -> Result<Value, Halt>
    ensures { Runs (expression ctx.now (view expr.now)) (λ v. v) turn.old turn.new result }
{
    match expr {
        Expr::Name(name) => value_of_name(turn, ctx.home, name),
        _ => evaluated(turn, ctx, expr),
    }
}
