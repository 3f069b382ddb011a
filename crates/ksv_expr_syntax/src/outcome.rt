//! Expressions made of what reading their parts gave, a fault included.

ghost use Rattle.std.specs.Prelude.{◌≡◌, ℕ, ◌<◌, length, Option, Ok, Err, IfOk, MatchResult};
ghost use Rattle.ksv_expr_tree.specs.Tree.{Tree, view, unary, choice, call, index};
ghost use Rattle.ksv_expr_syntax.specs.Grammar.{join_tree};
ghost use Rattle.ksv_expr_syntax.specs.Reading.{Found, FoundList};
ghost use Rattle.ksv_expr_syntax.specs.Code.{Gives, GivesArms, GivesList, IsWithin, closing, with_tree, with_list};
ghost use Rattle.ksv_expr_syntax.specs.declared.fault.ExprFaultKind.TheVariants.{NoMemory};

use crate::cursor::{Rest, expect};
use crate::fault::ExprFault;
use crate::make;
use crate::token::{Infix, Symbol};
use ksv_expr_tree::{Expr, UnaryOperator};
use std::alloc::{AllocError, Global};

/// An expression and what is left after it.
pub(crate) type Read<'a> = Result<(Expr, Rest<'a>), ExprFault>;

/// This expression, if there was memory for it, and what is left.
pub(crate) fn beside<'a>(made: Result<Expr, AllocError>, at: Rest<'a>) -> Read<'a>
    ensures { MatchResult result (λ x. (made ≡ Ok x.0) × (x.1 ≡ at.entry)) (λ f. f.kind ≡ NoMemory) }
{
    Ok((made?, at))
}

/// What is there already, and what is added to it; without the second the first is let go.
fn pair<A: Drop, T, E>(first: A, second: Result<T, E>) -> Result<(A, T), E>
    ensures { MatchResult result (λ x. (x.0 ≡ first) × (second ≡ Ok x.1)) (λ e. second ≡ Err e) }
{
    match second {
        Ok(value) => Ok((first, value)),
        Err(fault) => Err(fault),
    }
}

/// An expression before this symbol.
pub(crate) fn closed<'a>(inner: Read<'a>, wanted: Symbol) -> Read<'a>
    ensures is { (o : Option Found) → Gives o inner.entry → Gives (closing wanted o) result }
    ensures shorter { (n : ℕ) → IsWithin n inner.entry → IsWithin n result }
{
    let (expr, after) = inner?;
    pair(expr, expect(after, wanted))
}

/// An operator before its operand.
pub(crate) fn unary<'a>(alloc: Global, operator: UnaryOperator, operand: Read<'a>) -> Read<'a>
    ensures is { (o : Option Found) → Gives o operand.entry → Gives (with_tree (λ a. unary operator a) o) result }
    ensures shorter { (n : ℕ) → IsWithin n operand.entry → IsWithin n result }
{
    let (operand, at) = operand?;
    beside(make::unary_expr(alloc, operator, operand), at)
}

/// An operator between two expressions.
fn infix_expr(alloc: Global, operator: Infix, left: Expr, right: Expr) -> Result<Expr, AllocError>
    ensures { IfOk result (λ e. view e ≡ join_tree operator (view left) (view right)) }
{
    match operator {
        Infix::Logical(operator) => make::logical_expr(alloc, operator, left, right),
        Infix::Binary(operator) => make::binary_expr(alloc, operator, left, right),
    }
}

/// An operator between its operands.
pub(crate) fn infix<'a>(alloc: Global, operator: Infix, left: Expr, right: Read<'a>) -> Read<'a>
    ensures is { (o : Option Found) → Gives o right.entry → Gives (with_tree (λ b. join_tree operator (view left) b) o) result }
    ensures shorter { (n : ℕ) → IsWithin n right.entry → IsWithin n result }
{
    let (left, (right, at)) = pair(left, right)?;
    beside(infix_expr(alloc, operator, left, right), at)
}

/// Both arms of a choice.
pub(crate) fn both<'a>(yes: Expr, no: Read<'a>) -> Result<(Expr, Expr, Rest<'a>), ExprFault>
    ensures is { (o : Option Found) → Gives o no.entry → GivesArms (λ e. with_tree (λ b. choice e (view yes) b) o) result }
    ensures shorter { (n : ℕ) → IsWithin n no.entry → IfOk result (λ x. length x.2.tokens.now < n) }
{
    let (yes, (no, at)) = pair(yes, no)?;
    Ok((yes, no, at))
}

/// A condition before both arms.
pub(crate) fn choice<'a>(
    alloc: Global,
    condition: Expr,
    arms: Result<(Expr, Expr, Rest<'a>), ExprFault>,
) -> Read<'a>
    ensures is { (f : Tree → Option Found) → GivesArms f arms.entry → Gives (f (view condition)) result }
    ensures shorter { (n : ℕ) → IfOk arms.entry (λ x. length x.2.tokens.now < n) → IsWithin n result }
{
    let (condition, (yes, no, at)) = pair(condition, arms)?;
    beside(make::choice_expr(alloc, condition, yes, no), at)
}

/// An object before a method's name and its arguments.
pub(crate) fn call<'a>(
    alloc: Global,
    object: Expr,
    method: &str,
    list: Result<(Vec<Expr>, Rest<'a>), ExprFault>,
) -> Read<'a>
    ensures is { (o : Option FoundList) → GivesList o list.entry → Gives (with_list (λ es. call (view object) method.now es) o) result }
    ensures shorter { (n : ℕ) → IfOk list.entry (λ x. length x.1.tokens.now < n) → IsWithin n result }
{
    let (object, (list, at)) = pair(object, list)?;
    beside(make::call_expr(alloc, object, method, list), at)
}

/// A list before a place in it.
pub(crate) fn index<'a>(alloc: Global, object: Expr, place: Read<'a>) -> Read<'a>
    ensures is { (o : Option Found) → Gives o place.entry → Gives (with_tree (λ i. index (view object) i) o) result }
    ensures shorter { (n : ℕ) → IsWithin n place.entry → IsWithin n result }
{
    let (object, (place, at)) = pair(object, place)?;
    beside(make::index_expr(alloc, object, place), at)
}
