//! Texts to trees: the crate's two readers.

ghost use Rattle.std.specs.Prelude.{◌≢◌, IfOk, IfErr};
ghost use Rattle.ksv_expr_tree.specs.Tree.{Tree, TypeTree, view, view_type};
ghost use Rattle.ksv_expr_syntax.specs.Lexemes.{lexemes};
ghost use Rattle.ksv_expr_syntax.specs.Grammar.{IsExpr, SpellsType};
ghost use Rattle.ksv_expr_syntax.specs.Code.{GivesList, type_list};
ghost use Rattle.ksv_expr_syntax.specs.Text.{SpellsText, SpellsTypeText};
ghost use Rattle.ksv_expr_syntax.specs.declared.fault.ExprFaultKind.TheVariants.{NoMemory};

use crate::cursor::{Rest, behind, path, unexpected};
use crate::fault::{ExprFault, ExprFaultKind};
use crate::lexer::scan_text;
use crate::parser::{arguments, whole};
use crate::token::{Placed, Symbol};
use ksv_expr_tree::{Expr, TypeName, TypeRef};
use std::alloc::Global;

/// How many literals, names, members, operators, calls, indices and casts a text may have.
pub const PARTS: u32 = 256;

/// How deep parentheses, brackets, arms of `?:` and unary operators may be nested.
pub const DEPTH: u32 = 32;

/// The expression that a text spells, with no numbers given to its names.
///
/// A text is UTF-8. Its bytes are cut into the longest tokens, which are read by the grammar of Kaitai's expression
/// language as docs/REFERENCE.md has it. The refusal is the first fault in the order of the text.
pub fn parse(alloc: Global, text: &[u8]) -> Result<Expr, ExprFault>
    ensures found { IfOk result (λ e. SpellsText text.now (view e)) }
    ensures refused { IfErr result (λ f. f.kind ≢ NoMemory → (e : Tree) → SpellsText text.now e → ⊥) }
{
    let scan = scan_text(alloc, text)?;
    let end = end_of(text, scan.fault);
    let expr = read_tokens(alloc, scan.tokens.as_slice(), end)?;
    match scan.fault {
        Some(fault) => Err(fault),
        None => Ok(expr),
    }
}

/// What is wrong if the tokens end too early.
fn end_of(text: &[u8], fault: Option<ExprFault>) -> ExprFault {
    match fault {
        Some(fault) => fault,
        None => ExprFault {
            kind: ExprFaultKind::UnexpectedEnd,
            at: text.len(),
        },
    }
}

/// The expression that these tokens spell.
fn read_tokens(alloc: Global, tokens: &[Placed], end: ExprFault) -> Result<Expr, ExprFault>
    ensures found { IfOk result (λ e. IsExpr (lexemes tokens.now) (view e)) }
    ensures refused { IfErr result (λ f. f.kind ≢ NoMemory → (e : Tree) → IsExpr (lexemes tokens.now) e → ⊥) }
{
    let start = Rest {
        tokens,
        parts: PARTS,
        end,
    };
    let (expr, rest) = whole(alloc, DEPTH, start)?;
    if !rest.tokens.is_empty() {
        return Err(unexpected(rest));
    }
    Ok(expr)
}

/// The type with its arguments that a text spells, `a::b` or `a::b(E, E)`, with no numbers given to its names.
///
/// All arguments together have at most 256 parts; the type's parentheses count as one level. The refusal is the
/// first fault in the order of the text.
pub fn parse_type(alloc: Global, text: &[u8]) -> Result<TypeRef, ExprFault>
    ensures found { IfOk result (λ t. SpellsTypeText text.now (view_type t)) }
    ensures refused { IfErr result (λ f. f.kind ≢ NoMemory → (t : TypeTree) → SpellsTypeText text.now t → ⊥) }
{
    let scan = scan_text(alloc, text)?;
    let end = end_of(text, scan.fault);
    let type_ref = read_type(alloc, scan.tokens.as_slice(), end)?;
    match scan.fault {
        Some(fault) => Err(fault),
        None => Ok(type_ref),
    }
}

/// The type with its arguments that these tokens spell.
fn read_type(alloc: Global, tokens: &[Placed], end: ExprFault) -> Result<TypeRef, ExprFault>
    ensures found { IfOk result (λ t. SpellsType (lexemes tokens.now) (view_type t)) }
    ensures refused { IfErr result (λ f. f.kind ≢ NoMemory → (t : TypeTree) → SpellsType (lexemes tokens.now) t → ⊥) }
{
    let start = Rest {
        tokens,
        parts: PARTS,
        end,
    };
    let (path, behind) = path(alloc, start)?;
    let (arguments, rest) = type_arguments(alloc, behind)?;
    if !rest.tokens.is_empty() {
        return Err(unexpected(rest));
    }
    Ok(TypeRef {
        name: TypeName { path, number: None },
        arguments,
    })
}

/// The arguments after a type's name, if there are any.
fn type_arguments<'a>(alloc: Global, at: Rest<'a>) -> Result<(Vec<Expr>, Rest<'a>), ExprFault>
    ensures { GivesList (type_list (lexemes at.entry.tokens.now) at.entry.parts) result }
{
    let Some(tokens) = behind(at.tokens, Symbol::OpenParenthesis) else {
        return Ok((Vec::new(alloc), at));
    };
    arguments(alloc, DEPTH - 1, Rest { tokens, ..at })
}
