//! Expressions and types, read from a description's texts.

ghost use Rattle.std.specs.Prelude.{◌≡◌, IfOk};
ghost use Rattle.ksv_schema.specs.Expressions.{expression_of, type_of};
ghost use Rattle.ksv_schema.specs.KeyCode.{seen_expression, seen_type};

use ksv_expr_syntax::{ExprFault, ExprFaultKind, parse, parse_type};
use ksv_expr_tree::{Expr, TypeRef};
use std::alloc::{AllocError, Global};

/// The expression of a text, or why it has none.
#[tactic(auto, using(crate::proofs::Spellings::expression_is))]
pub(crate) fn read_expression(
    alloc: Global,
    text: &[u8],
) -> Result<Result<Expr, ExprFault>, AllocError>
    ensures { IfOk result (λ r. seen_expression r ≡ expression_of text.now) }
{
    match parse(alloc, text) {
        Ok(expr) => Ok(Ok(expr)),
        Err(fault) => match fault.kind {
            ExprFaultKind::NoMemory => Err(AllocError),
            _ => Ok(Err(fault)),
        },
    }
}

/// The type with its arguments of a text, or why it has none.
#[tactic(auto, using(crate::proofs::Spellings::type_is))]
pub(crate) fn read_type(
    alloc: Global,
    text: &[u8],
) -> Result<Result<TypeRef, ExprFault>, AllocError>
    ensures { IfOk result (λ r. seen_type r ≡ type_of text.now) }
{
    match parse_type(alloc, text) {
        Ok(type_ref) => Ok(Ok(type_ref)),
        Err(fault) => match fault.kind {
            ExprFaultKind::NoMemory => Err(AllocError),
            _ => Ok(Err(fault)),
        },
    }
}
