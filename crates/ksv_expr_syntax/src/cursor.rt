//! A place among tokens, and the steps forward from it.

ghost use Rattle.std.specs.Prelude.{◌≡◌, ◌≢◌, ℕ, suc, ◌+◌, ◌<◌, List, [], ◌∷◌, length, map, string_bytes, Option, Some, None, IfOk, MatchOption, MatchResult};
ghost use Rattle.ksv_expr_syntax.specs.Lexemes.{Lexeme, lexemes, lexeme_of};
ghost use Rattle.ksv_expr_syntax.specs.Reading.{next, after, path_at};
ghost use Rattle.ksv_expr_syntax.specs.Code.{GivesPath, inside, opened};

use crate::fault::{ExprFault, ExprFaultKind};
use crate::token::{Placed, Symbol, Token};
use std::alloc::Global;

/// What is left to read.
#[derive(Clone, Copy)]
pub struct Rest<'a> {
    /// The tokens.
    pub tokens: &'a [Placed],
    /// How many parts may still come.
    pub parts: u32,
    /// What is wrong if the tokens end too early.
    pub end: ExprFault,
}

/// The first token, and those after it.
pub(crate) fn first(tokens: &[Placed]) -> Option<(&Token, &[Placed])>
    ensures is { MatchOption result (lexemes tokens.now ≡ []) (λ x. lexemes tokens.now ≡ lexeme_of x.0.now ∷ lexemes x.1.now) }
    ensures shorter { MatchOption result (Unit {0}) (λ x. length x.1.now + 1 ≡ length tokens.now) }
{
    match tokens {
        [] => None,
        [first, rest @ ..] => Some((&first.token, rest)),
    }
}

/// The tokens after this symbol, if it is first.
pub(crate) fn behind(tokens: &[Placed], wanted: Symbol) -> Option<&[Placed]>
    ensures is { MatchOption result (after wanted (lexemes tokens.now) ≡ None) (λ rest. after wanted (lexemes tokens.now) ≡ Some (lexemes rest.now)) }
    ensures shorter { MatchOption result (Unit {0}) (λ rest. length rest.now + 1 ≡ length tokens.now) }
{
    let (token, rest) = first(tokens)?;
    match token {
        Token::Symbol(symbol) if *symbol == wanted => Some(rest),
        _ => None,
    }
}

/// What is wrong if the next token can't come here.
pub(crate) fn unexpected(at: Rest) -> ExprFault {
    match at.tokens {
        [] => at.end,
        [next, ..] => ExprFault {
            kind: ExprFaultKind::UnexpectedCharacter,
            at: next.at,
        },
    }
}

/// What is wrong if an unsupported form begins.
pub(crate) fn left_out(at: Rest) -> ExprFault {
    match at.tokens {
        [] => at.end,
        [next, ..] => ExprFault {
            kind: ExprFaultKind::LeftOutForm,
            at: next.at,
        },
    }
}

/// What is wrong if the next token passes a limit.
pub(crate) fn too_large(at: Rest) -> ExprFault {
    match at.tokens {
        [] => at.end,
        [next, ..] => ExprFault {
            kind: ExprFaultKind::TooLarge,
            at: next.at,
        },
    }
}

/// Goes on after this symbol, which must be first.
pub(crate) fn expect(at: Rest, wanted: Symbol) -> Result<Rest, ExprFault>
    ensures is { MatchResult result (λ r. after wanted (lexemes at.entry.tokens.now) ≡ Some (lexemes r.tokens.now)) (λ _. after wanted (lexemes at.entry.tokens.now) ≡ None) }
    ensures same { IfOk result (λ r. r.parts ≡ at.entry.parts) }
    ensures shorter { IfOk result (λ r. length r.tokens.now + 1 ≡ length at.entry.tokens.now) }
{
    match behind(at.tokens, wanted) {
        Some(tokens) => Ok(Rest { tokens, ..at }),
        None => Err(unexpected(at)),
    }
}

/// Counts a part that begins with the next token, and goes on with these tokens.
pub(crate) fn spend<'a>(at: Rest<'a>, tokens: &'a [Placed]) -> Result<Rest<'a>, ExprFault>
    ensures is { MatchResult result (λ r. at.entry.parts ≡ suc r.parts) (λ _. at.entry.parts ≡ 0) }
    ensures same { IfOk result (λ r. r.tokens.now ≡ tokens.now) }
{
    if at.parts == 0 {
        return Err(too_large(at));
    }
    Ok(Rest {
        tokens,
        parts: at.parts - 1,
        ..at
    })
}

/// How many levels may still be nested in the one that begins with the next token.
pub(crate) fn deeper(depth: u32, at: Rest) -> Result<u32, ExprFault>
    ensures { MatchResult result (λ d. depth ≡ suc d) (λ _. depth ≡ 0) }
{
    if depth == 0 {
        return Err(too_large(at));
    }
    Ok(depth - 1)
}

/// Counts a part that begins with the next token and a level that begins with the first of `opening`, and goes on
/// with `tokens`.
pub(crate) fn enter<'a>(
    depth: u32,
    at: Rest<'a>,
    opening: &'a [Placed],
    tokens: &'a [Placed],
) -> Result<(u32, Rest<'a>), ExprFault>
    ensures is { MatchResult result (λ x. inside depth at.entry.parts ≡ Some (x.0, x.1.parts)) (λ _. inside depth at.entry.parts ≡ None) }
    ensures same { IfOk result (λ x. x.1.tokens.now ≡ tokens.now) }
{
    let start = spend(at, opening)?;
    let inner = deeper(depth, start)?;
    Ok((inner, Rest { tokens, ..start }))
}

/// What is wrong where an expression begins without a literal, a name or `(`; `[` is unsupported there.
fn no_group(at: Rest) -> ExprFault {
    if behind(at.tokens, Symbol::OpenBracket).is_some() {
        left_out(at)
    } else {
        unexpected(at)
    }
}

/// Goes on one level deeper after `(`, which must be first.
pub(crate) fn open_group(depth: u32, at: Rest) -> Result<(u32, Rest), ExprFault>
    ensures is { MatchResult result (λ x. opened depth (lexemes at.entry.tokens.now) ≡ next x.0 (lexemes x.1.tokens.now)) (λ _. opened depth (lexemes at.entry.tokens.now) ≡ None) }
    ensures same { IfOk result (λ x. x.1.parts ≡ at.entry.parts) }
    ensures shorter { IfOk result (λ x. length x.1.tokens.now + 1 ≡ length at.entry.tokens.now) }
{
    let Some(tokens) = behind(at.tokens, Symbol::OpenParenthesis) else {
        return Err(no_group(at));
    };
    let inner = deeper(depth, at)?;
    Ok((inner, Rest { tokens, ..at }))
}

/// The name that is first.
pub(crate) fn name(tokens: &[Placed]) -> Option<(&str, &[Placed])>
    ensures is { MatchOption result ((w : List ℕ) (rest : List Lexeme) → lexemes tokens.now ≢ Lexeme.word w ∷ rest) (λ x. lexemes tokens.now ≡ Lexeme.word x.0.now ∷ lexemes x.1.now) }
    ensures shorter { MatchOption result (Unit {0}) (λ x. length x.1.now + 1 ≡ length tokens.now) }
{
    let (token, rest) = first(tokens)?;
    match token {
        Token::Name(name) => Some((name.as_str(), rest)),
        _ => None,
    }
}

/// Names with `::` between them.
pub(crate) fn path<'a>(alloc: Global, at: Rest<'a>) -> Result<(Vec<String>, Rest<'a>), ExprFault>
    ensures is { GivesPath (lexemes at.entry.tokens.now) result }
    ensures same { IfOk result (λ x. x.1.parts ≡ at.entry.parts) }
    ensures shorter { IfOk result (λ x. length x.1.tokens.now < length at.entry.tokens.now) }
{
    let mut names = Vec::new(alloc);
    let mut now = at;
    'names: loop {
        let Some((text, tokens)) = name(now.tokens) else {
            return Err(unexpected(now));
        };
        names.push(String::from_str(alloc, text)?)?;
        now = Rest { tokens, ..now };
        let Some(tokens) = behind(now.tokens, Symbol::ColonColon) else {
            return Ok((names, now));
        };
        now = Rest { tokens, ..now };
    }
}
