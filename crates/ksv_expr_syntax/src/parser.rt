//! Reads an expression from front to back, one token ahead.

ghost use Rattle.std.specs.Prelude.{◌≡◌, ◌+◌, ◌<◌, ◌≤◌, ◌∷◌, length, map, string_bytes, Some, None, IfOk, MatchOption};
ghost use Rattle.ksv_expr_tree.specs.Tree.{view, literal_of};
ghost use Rattle.ksv_expr_syntax.specs.Lexemes.{Lexeme, lexemes};
ghost use Rattle.ksv_expr_syntax.specs.Grammar.{Whole, Joined, Negation, Comparison, Prefix, Postfix, Primary, is_left_out};
ghost use Rattle.ksv_expr_syntax.specs.Reading.{after, path_tree, read, read_list};
ghost use Rattle.ksv_expr_syntax.specs.Code.{Gives, GivesArms, GivesList, GivesCastType, IsWithin, OpensWith, SelectsWith, IsNoCall, level_of, arms_at, right_at, list_at, place_at, cast_at, member_at, literal_at, word_at, suffix_step};

use crate::cursor::{Rest, behind, enter, expect, first, left_out, name, open_group, path, spend};
use crate::fault::ExprFault;
use crate::make;
use crate::outcome::{self, Read};
use crate::token::{
    Infix, Operand, Placed, Precedence, Symbol, Token, comparison_operator, infix_operator,
    operand_of, prefix_operator,
};
use ksv_expr_tree::{Expr, Literal, UnaryOperator};
use std::alloc::Global;

/// What continues a postfix expression.
#[derive(Clone, Copy)]
pub enum Opening<'a> {
    /// `.`, and no call after it.
    Member,
    /// `.`, this name, and these tokens, which begin with `(`.
    Call(&'a str, &'a [Placed]),
    /// `[`
    Place,
}

/// A name with `(` after it, if one is first: the name, the tokens from the `(` on, and those after it.
fn call_at(tokens: &[Placed]) -> Option<(&str, &[Placed], &[Placed])>
    ensures is { MatchOption result (IsNoCall (lexemes tokens.now)) (λ x. (lexemes tokens.now ≡ Lexeme.word x.0.now ∷ lexemes x.1.now) × (after Symbol.OpenParenthesis (lexemes x.1.now) ≡ Some (lexemes x.2.now))) }
    ensures shorter { MatchOption result (Unit {0}) (λ x. length x.2.now < length tokens.now) }
{
    let (text, opening) = name(tokens)?;
    let rest = behind(opening, Symbol::OpenParenthesis)?;
    Some((text, opening, rest))
}

/// What a dot before these tokens begins, and the tokens after that.
fn selection(tokens: &[Placed]) -> (Opening, &[Placed])
    ensures is { SelectsWith result.0 (lexemes tokens.now) (lexemes result.1.now) }
    ensures shorter { length result.1.now ≤ length tokens.now }
{
    match call_at(tokens) {
        Some((text, opening, rest)) => (Opening::Call(text, opening), rest),
        None => (Opening::Member, tokens),
    }
}

/// What continues a postfix expression, if anything does, and the tokens after that.
fn opening_at(tokens: &[Placed]) -> Option<(Opening, &[Placed])>
    ensures is { MatchOption result ((after Symbol.Dot (lexemes tokens.now) ≡ None) × (after Symbol.OpenBracket (lexemes tokens.now) ≡ None)) (λ x. OpensWith x.0 (lexemes tokens.now) (lexemes x.1.now)) }
    ensures shorter { MatchOption result (Unit {0}) (λ x. length x.1.now < length tokens.now) }
{
    if let Some(rest) = behind(tokens, Symbol::Dot) {
        return Some(selection(rest));
    }
    let rest = behind(tokens, Symbol::OpenBracket)?;
    Some((Opening::Place, rest))
}

/// A name alone; of several names with `::` between them, an enum's member.
fn path_expr(alloc: Global, mut names: Vec<String>) -> Expr
    ensures { view result ≡ path_tree (map string_bytes names.items) }
{
    let Some(last) = names.pop() else {
        return make::name_expr(String::new(alloc));
    };
    if names.is_empty() {
        make::name_expr(last)
    } else {
        make::member_expr(names, last)
    }
}

/// Whether an unsupported form begins with this name.
fn begins_left_out(text: &str) -> bool
    ensures { result ≡ is_left_out text.now }
{
    text == "sizeof" || text == "bitsizeof"
}

/// The names in `as<a::b>`.
fn cast_type<'a>(alloc: Global, at: Rest<'a>) -> Result<(Vec<String>, Rest<'a>), ExprFault>
    ensures is { GivesCastType (lexemes at.entry.tokens.now) at.entry.parts result }
    ensures shorter { IfOk result (λ x. length x.1.tokens.now < length at.entry.tokens.now) }
{
    let now = expect(at, Symbol::As)?;
    let now = expect(now, Symbol::Less)?;
    let (names, now) = path(alloc, now)?;
    let now = expect(now, Symbol::Greater)?;
    Ok((names, now))
}

/// `as<a::b>` after this object and a dot.
fn cast<'a>(alloc: Global, object: Expr, at: Rest<'a>) -> Read<'a>
    ensures is { Gives (cast_at (view object) (lexemes at.entry.tokens.now) at.entry.parts) result }
    ensures shorter { IsWithin (length at.entry.tokens.now) result }
{
    let (names, now) = cast_type(alloc, at)?;
    outcome::beside(make::cast_expr(alloc, object, names), now)
}

/// A member or a cast of this object; `rest` is what comes after the dot, which begins `at`.
fn member<'a>(alloc: Global, object: Expr, at: Rest<'a>, rest: &'a [Placed]) -> Read<'a>
    ensures is { Gives (member_at (view object) (lexemes rest.now) at.entry.parts) result }
    ensures shorter { IsWithin (length rest.now) result }
{
    let start = spend(at, rest)?;
    let Some((text, tokens)) = name(start.tokens) else {
        return cast(alloc, object, start);
    };
    let text = String::from_str(alloc, text)?;
    outcome::beside(
        make::select_expr(alloc, object, text),
        Rest { tokens, ..start },
    )
}

/// A literal, which begins `at`; `rest` is what comes after it.
fn literal<'a>(alloc: Global, value: &Literal, at: Rest<'a>, rest: &'a [Placed]) -> Read<'a>
    ensures is { Gives (literal_at (literal_of value.now) (lexemes rest.now) at.entry.parts) result }
    ensures same { IfOk result (λ x. x.1.tokens.now ≡ rest.now) }
{
    let now = spend(at, rest)?;
    Ok((make::literal_expr(make::copy_literal(alloc, value)?), now))
}

/// A name or an enum's member, which begins `at` with this name.
fn word<'a>(alloc: Global, text: &str, at: Rest<'a>) -> Read<'a>
    ensures is { Gives (word_at text.now (lexemes at.entry.tokens.now) at.entry.parts) result }
    ensures shorter { IsWithin (length at.entry.tokens.now) result }
{
    if begins_left_out(text) {
        return Err(left_out(at));
    }
    let now = spend(at, at.tokens)?;
    let (names, now) = path(alloc, now)?;
    Ok((path_expr(alloc, names), now))
}

/// An expression.
#[cycle(parser)]
pub(crate) fn whole<'a>(alloc: Global, depth: u32, at: Rest<'a>) -> Read<'a>
    ensures is { Gives (read Whole depth (lexemes at.entry.tokens.now) at.entry.parts) result }
    ensures shorter { IsWithin (length at.entry.tokens.now) result }
{
    let (condition, at) = joined(alloc, Precedence::Or, depth, at)?;
    let Some(rest) = behind(at.tokens, Symbol::Question) else {
        return Ok((condition, at));
    };
    outcome::choice(alloc, condition, arms(alloc, depth, at, rest))
}

/// Both arms of a choice; `rest` is what comes after `?`, which begins `at`.
#[cycle(parser)]
fn arms<'a>(
    alloc: Global,
    depth: u32,
    at: Rest<'a>,
    rest: &'a [Placed],
) -> Result<(Expr, Expr, Rest<'a>), ExprFault>
    ensures is { GivesArms (λ e. arms_at e depth (lexemes rest.now) at.entry.parts) result }
    ensures shorter { IfOk result (λ x. length x.2.tokens.now < length rest.now) }
{
    let (inner, start) = enter(depth, at, at.tokens, rest)?;
    let (yes, now) = outcome::closed(whole(alloc, inner, start), Symbol::Colon)?;
    outcome::both(yes, whole(alloc, inner, now))
}

/// Operands of this precedence, joined from the left.
#[cycle(parser)]
fn joined<'a>(alloc: Global, precedence: Precedence, depth: u32, at: Rest<'a>) -> Read<'a>
    ensures is { Gives (read (Joined precedence) depth (lexemes at.entry.tokens.now) at.entry.parts) result }
    ensures shorter { IsWithin (length at.entry.tokens.now) result }
{
    let kind = operand_of(precedence);
    let (mut left, mut now) = operand(alloc, kind, depth, at)?;
    'operators: while let Some((operator, rest)) = infix_operator(precedence, now.tokens) {
        let right = right_side(alloc, kind, depth, now, rest);
        let (larger, after) = outcome::infix(alloc, operator, left, right)?;
        left = larger;
        now = after;
    }
    Ok((left, now))
}

/// What comes after an operator, which begins `at`; `rest` is what comes after it.
#[cycle(parser)]
fn right_side<'a>(
    alloc: Global,
    kind: Operand,
    depth: u32,
    at: Rest<'a>,
    rest: &'a [Placed],
) -> Read<'a>
    ensures is { Gives (right_at (level_of kind) depth (lexemes rest.now) at.entry.parts) result }
    ensures shorter { IsWithin (length rest.now) result }
{
    let start = spend(at, rest)?;
    operand(alloc, kind, depth, start)
}

/// An operand of this kind.
#[cycle(parser)]
fn operand<'a>(alloc: Global, kind: Operand, depth: u32, at: Rest<'a>) -> Read<'a>
    ensures is { Gives (read (level_of kind) depth (lexemes at.entry.tokens.now) at.entry.parts) result }
    ensures shorter { IsWithin (length at.entry.tokens.now) result }
{
    match kind {
        Operand::Joined(precedence) => joined(alloc, precedence, depth, at),
        Operand::Negation => negation(alloc, depth, at),
        Operand::Prefix => unary(alloc, depth, at),
    }
}

/// `not` any number of times, and a comparison.
#[cycle(parser)]
fn negation<'a>(alloc: Global, depth: u32, at: Rest<'a>) -> Read<'a>
    ensures is { Gives (read Negation depth (lexemes at.entry.tokens.now) at.entry.parts) result }
    ensures shorter { IsWithin (length at.entry.tokens.now) result }
{
    let Some(rest) = behind(at.tokens, Symbol::Not) else {
        return comparison(alloc, depth, at);
    };
    let (inner, start) = enter(depth, at, at.tokens, rest)?;
    outcome::unary(alloc, UnaryOperator::Not, negation(alloc, inner, start))
}

/// One comparison at most.
#[cycle(parser)]
fn comparison<'a>(alloc: Global, depth: u32, at: Rest<'a>) -> Read<'a>
    ensures is { Gives (read Comparison depth (lexemes at.entry.tokens.now) at.entry.parts) result }
    ensures shorter { IsWithin (length at.entry.tokens.now) result }
{
    let (left, at) = joined(alloc, Precedence::BitOr, depth, at)?;
    let Some((operator, rest)) = comparison_operator(at.tokens) else {
        return Ok((left, at));
    };
    let right = right_side(alloc, Operand::Joined(Precedence::BitOr), depth, at, rest);
    outcome::infix(alloc, Infix::Binary(operator), left, right)
}

/// `-`, `~` and `+` any number of times, and a postfix expression.
#[cycle(parser)]
fn unary<'a>(alloc: Global, depth: u32, at: Rest<'a>) -> Read<'a>
    ensures is { Gives (read Prefix depth (lexemes at.entry.tokens.now) at.entry.parts) result }
    ensures shorter { IsWithin (length at.entry.tokens.now) result }
{
    let Some((operator, rest)) = prefix_operator(at.tokens) else {
        return postfix(alloc, depth, at);
    };
    let (inner, start) = enter(depth, at, at.tokens, rest)?;
    outcome::unary(alloc, operator, unary(alloc, inner, start))
}

/// A primary expression, and what continues it.
#[cycle(parser)]
fn postfix<'a>(alloc: Global, depth: u32, at: Rest<'a>) -> Read<'a>
    ensures is { Gives (read Postfix depth (lexemes at.entry.tokens.now) at.entry.parts) result }
    ensures shorter { IsWithin (length at.entry.tokens.now) result }
{
    let (mut object, mut now) = primary(alloc, depth, at)?;
    'suffixes: while let Some((opening, rest)) = opening_at(now.tokens) {
        let (larger, after) = suffix(alloc, depth, object, opening, now, rest)?;
        object = larger;
        now = after;
    }
    Ok((object, now))
}

/// What continues this object, which begins `at`; `rest` is what comes after its opening.
#[cycle(parser)]
fn suffix<'a>(
    alloc: Global,
    depth: u32,
    object: Expr,
    opening: Opening<'a>,
    at: Rest<'a>,
    rest: &'a [Placed],
) -> Read<'a>
    ensures is { Gives (suffix_step opening.entry (view object) depth (lexemes rest.now) at.entry.parts) result }
    ensures shorter { IsWithin (length rest.now) result }
{
    match opening {
        Opening::Member => member(alloc, object, at, rest),
        Opening::Call(text, tokens) => {
            let list = call_list(alloc, depth, at, tokens, rest);
            outcome::call(alloc, object, text, list)
        }
        Opening::Place => outcome::index(alloc, object, place(alloc, depth, at, rest)),
    }
}

/// A call's arguments and the closing parenthesis; `opening` begins with the other one, and `rest` is what comes
/// after it.
#[cycle(parser)]
fn call_list<'a>(
    alloc: Global,
    depth: u32,
    at: Rest<'a>,
    opening: &'a [Placed],
    rest: &'a [Placed],
) -> Result<(Vec<Expr>, Rest<'a>), ExprFault>
    ensures is { GivesList (list_at depth (lexemes rest.now) at.entry.parts) result }
    ensures shorter { IfOk result (λ x. length x.1.tokens.now < length rest.now) }
{
    let (inner, start) = enter(depth, at, opening, rest)?;
    arguments(alloc, inner, start)
}

/// What is between brackets, and the closing one; `rest` is what comes after the other, which begins `at`.
#[cycle(parser)]
fn place<'a>(alloc: Global, depth: u32, at: Rest<'a>, rest: &'a [Placed]) -> Read<'a>
    ensures is { Gives (place_at depth (lexemes rest.now) at.entry.parts) result }
    ensures shorter { IsWithin (length rest.now) result }
{
    let (inner, start) = enter(depth, at, at.tokens, rest)?;
    outcome::closed(whole(alloc, inner, start), Symbol::CloseBracket)
}

/// Expressions with commas between them, and the closing parenthesis.
#[cycle(parser)]
pub(crate) fn arguments<'a>(
    alloc: Global,
    depth: u32,
    at: Rest<'a>,
) -> Result<(Vec<Expr>, Rest<'a>), ExprFault>
    ensures is { GivesList (read_list depth (lexemes at.entry.tokens.now) at.entry.parts) result }
    ensures shorter { IfOk result (λ x. length x.1.tokens.now < length at.entry.tokens.now) }
{
    let mut list = Vec::new(alloc);
    if let Some(tokens) = behind(at.tokens, Symbol::CloseParenthesis) {
        return Ok((list, Rest { tokens, ..at }));
    }
    let mut now = at;
    'list: loop {
        let (expr, after) = whole(alloc, depth, now)?;
        list.push(expr)?;
        let Some(tokens) = behind(after.tokens, Symbol::Comma) else {
            let end = expect(after, Symbol::CloseParenthesis)?;
            return Ok((list, end));
        };
        now = Rest { tokens, ..after };
    }
}

/// A literal, a name, an enum's member, or an expression in parentheses.
#[cycle(parser)]
fn primary<'a>(alloc: Global, depth: u32, at: Rest<'a>) -> Read<'a>
    ensures is { Gives (read Primary depth (lexemes at.entry.tokens.now) at.entry.parts) result }
    ensures shorter { IsWithin (length at.entry.tokens.now) result }
{
    let Some((token, rest)) = first(at.tokens) else {
        return Err(at.end);
    };
    match token {
        Token::Literal(value) => literal(alloc, value, at, rest),
        Token::Name(text) => word(alloc, text.as_str(), at),
        Token::Symbol(_) => {
            let (inner, start) = open_group(depth, at)?;
            outcome::closed(whole(alloc, inner, start), Symbol::CloseParenthesis)
        }
    }
}
