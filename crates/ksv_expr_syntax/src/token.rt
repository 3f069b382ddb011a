//! Tokens: how symbols are written, which operators they are, and how tightly these bind.

ghost use Rattle.std.specs.Prelude.{◌≡◌, ◌+◌, length, None, MatchOption};
ghost use Rattle.ksv_expr_syntax.specs.Lexemes.{Lexeme, lexemes};
ghost use Rattle.ksv_expr_syntax.specs.Symbols.{two_bytes, one_byte, operator};
ghost use Rattle.ksv_expr_syntax.specs.Grammar.{tighter};
ghost use Rattle.ksv_expr_syntax.specs.Reading.{next, operator_at, comparison_at, prefix_at};
ghost use Rattle.ksv_expr_syntax.specs.Code.{level_of};

use crate::cursor::first;
use ksv_expr_tree::{BinaryOperator, Literal, LogicalOperator, UnaryOperator};

/// An operator, a bracket, a mark between parts, or a word with the role of one of these.
#[derive(Clone, Copy, PartialEq, Eq)]
pub enum Symbol {
    /// `+`
    Plus,
    /// `-`
    Minus,
    /// `*`
    Star,
    /// `/`
    Slash,
    /// `%`
    Percent,
    /// `~`
    Tilde,
    /// `&`
    Ampersand,
    /// `|`
    Bar,
    /// `^`
    Caret,
    /// `<<`
    ShiftLeft,
    /// `>>`
    ShiftRight,
    /// `<`
    Less,
    /// `<=`
    LessOrEqual,
    /// `>`
    Greater,
    /// `>=`
    GreaterOrEqual,
    /// `==`
    Equal,
    /// `!=`
    NotEqual,
    /// `?`
    Question,
    /// `:`
    Colon,
    /// `::`
    ColonColon,
    /// `(`
    OpenParenthesis,
    /// `)`
    CloseParenthesis,
    /// `[`
    OpenBracket,
    /// `]`
    CloseBracket,
    /// `,`
    Comma,
    /// `.`
    Dot,
    /// The word `and`.
    And,
    /// The word `or`.
    Or,
    /// The word `not`.
    Not,
    /// The word `as` between `.` and `<`, where a cast begins.
    As,
}

/// A token.
#[derive(Drop)]
pub enum Token {
    /// A number, a text, `true` or `false`.
    Literal(Literal),
    /// A name, the special ones too.
    Name(String),
    /// An operator, a bracket, a mark or a word.
    Symbol(Symbol),
}

/// A token and where it begins.
#[derive(Drop)]
pub struct Placed {
    /// The token.
    pub token: Token,
    /// The place of its first byte in the text.
    pub at: usize,
}

/// The symbol of two bytes that these are.
pub(crate) fn two_byte_symbol(first: u8, second: u8) -> Option<Symbol>
    ensures { result ≡ two_bytes first second }
{
    if first == b'<' && second == b'<' {
        Some(Symbol::ShiftLeft)
    } else if first == b'>' && second == b'>' {
        Some(Symbol::ShiftRight)
    } else if first == b'<' && second == b'=' {
        Some(Symbol::LessOrEqual)
    } else if first == b'>' && second == b'=' {
        Some(Symbol::GreaterOrEqual)
    } else if first == b'=' && second == b'=' {
        Some(Symbol::Equal)
    } else if first == b'!' && second == b'=' {
        Some(Symbol::NotEqual)
    } else if first == b':' && second == b':' {
        Some(Symbol::ColonColon)
    } else {
        None
    }
}

/// The symbol of one byte that this is.
pub(crate) fn one_byte_symbol(byte: u8) -> Option<Symbol>
    ensures { result ≡ one_byte byte }
{
    match byte {
        b'+' => Some(Symbol::Plus),
        b'-' => Some(Symbol::Minus),
        b'*' => Some(Symbol::Star),
        b'/' => Some(Symbol::Slash),
        b'%' => Some(Symbol::Percent),
        b'~' => Some(Symbol::Tilde),
        b'&' => Some(Symbol::Ampersand),
        b'|' => Some(Symbol::Bar),
        b'^' => Some(Symbol::Caret),
        b'<' => Some(Symbol::Less),
        b'>' => Some(Symbol::Greater),
        b'?' => Some(Symbol::Question),
        b':' => Some(Symbol::Colon),
        b'(' => Some(Symbol::OpenParenthesis),
        b')' => Some(Symbol::CloseParenthesis),
        b'[' => Some(Symbol::OpenBracket),
        b']' => Some(Symbol::CloseBracket),
        b',' => Some(Symbol::Comma),
        b'.' => Some(Symbol::Dot),
        _ => None,
    }
}

/// A level of operators that associate to the left, from the loosest to the tightest.
#[derive(Clone, Copy)]
pub enum Precedence {
    /// `or`
    Or,
    /// `and`
    And,
    /// `|`
    BitOr,
    /// `^`
    BitXor,
    /// `&`
    BitAnd,
    /// `<<` and `>>`
    Shift,
    /// `+` and `-`
    Sum,
    /// `*`, `/` and `%`
    Term,
}

/// What the operands of such a level are.
#[derive(Clone, Copy)]
pub enum Operand {
    /// Operands of this level, joined.
    Joined(Precedence),
    /// `not` any number of times, and a comparison.
    Negation,
    /// `-`, `~` and `+` any number of times, and a postfix expression.
    Prefix,
}

/// What this precedence's operands are.
pub(crate) fn operand_of(precedence: Precedence) -> Operand
    ensures { level_of result ≡ tighter precedence }
{
    match precedence {
        Precedence::Or => Operand::Joined(Precedence::And),
        Precedence::And => Operand::Negation,
        Precedence::BitOr => Operand::Joined(Precedence::BitXor),
        Precedence::BitXor => Operand::Joined(Precedence::BitAnd),
        Precedence::BitAnd => Operand::Joined(Precedence::Shift),
        Precedence::Shift => Operand::Joined(Precedence::Sum),
        Precedence::Sum => Operand::Joined(Precedence::Term),
        Precedence::Term => Operand::Prefix,
    }
}

/// An operator of such a level.
#[derive(Clone, Copy)]
pub enum Infix {
    /// `and` or `or`
    Logical(LogicalOperator),
    /// One of arithmetic or of bits.
    Binary(BinaryOperator),
}

/// The operator of this precedence, if it is first.
pub(crate) fn infix_operator(
    precedence: Precedence,
    tokens: &[Placed],
) -> Option<(Infix, &[Placed])>
    ensures is { MatchOption result (operator_at precedence (lexemes tokens.now) ≡ None) (λ x. operator_at precedence (lexemes tokens.now) ≡ next x.0 (lexemes x.1.now)) }
    ensures shorter { MatchOption result (Unit {0}) (λ x. length x.1.now + 1 ≡ length tokens.now) }
{
    let (token, rest) = first(tokens)?;
    let Token::Symbol(symbol) = token else {
        return None;
    };
    let operator = infix_of(precedence, *symbol)?;
    Some((operator, rest))
}

/// The operator of this precedence that a symbol is.
fn infix_of(precedence: Precedence, symbol: Symbol) -> Option<Infix>
    ensures { result ≡ operator precedence (Lexeme.symbol symbol) }
{
    match (precedence, symbol) {
        (Precedence::Or, Symbol::Or) => Some(Infix::Logical(LogicalOperator::Or)),
        (Precedence::And, Symbol::And) => Some(Infix::Logical(LogicalOperator::And)),
        (Precedence::BitOr, Symbol::Bar) => Some(Infix::Binary(BinaryOperator::BitOr)),
        (Precedence::BitXor, Symbol::Caret) => Some(Infix::Binary(BinaryOperator::BitXor)),
        (Precedence::BitAnd, Symbol::Ampersand) => Some(Infix::Binary(BinaryOperator::BitAnd)),
        (Precedence::Shift, Symbol::ShiftLeft) => Some(Infix::Binary(BinaryOperator::ShiftLeft)),
        (Precedence::Shift, Symbol::ShiftRight) => Some(Infix::Binary(BinaryOperator::ShiftRight)),
        (Precedence::Sum, Symbol::Plus) => Some(Infix::Binary(BinaryOperator::Add)),
        (Precedence::Sum, Symbol::Minus) => Some(Infix::Binary(BinaryOperator::Subtract)),
        (Precedence::Term, Symbol::Star) => Some(Infix::Binary(BinaryOperator::Multiply)),
        (Precedence::Term, Symbol::Slash) => Some(Infix::Binary(BinaryOperator::Divide)),
        (Precedence::Term, Symbol::Percent) => Some(Infix::Binary(BinaryOperator::Remainder)),
        _ => None,
    }
}

/// The comparison that is first.
pub(crate) fn comparison_operator(tokens: &[Placed]) -> Option<(BinaryOperator, &[Placed])>
    ensures is { MatchOption result (comparison_at (lexemes tokens.now) ≡ None) (λ x. comparison_at (lexemes tokens.now) ≡ next x.0 (lexemes x.1.now)) }
    ensures shorter { MatchOption result (Unit {0}) (λ x. length x.1.now + 1 ≡ length tokens.now) }
{
    let (token, rest) = first(tokens)?;
    let Token::Symbol(symbol) = token else {
        return None;
    };
    let operator = match symbol {
        Symbol::Less => BinaryOperator::Less,
        Symbol::LessOrEqual => BinaryOperator::LessOrEqual,
        Symbol::Greater => BinaryOperator::Greater,
        Symbol::GreaterOrEqual => BinaryOperator::GreaterOrEqual,
        Symbol::Equal => BinaryOperator::Equal,
        Symbol::NotEqual => BinaryOperator::NotEqual,
        _ => return None,
    };
    Some((operator, rest))
}

/// The prefix operator that is first, except `not`.
pub(crate) fn prefix_operator(tokens: &[Placed]) -> Option<(UnaryOperator, &[Placed])>
    ensures is { MatchOption result (prefix_at (lexemes tokens.now) ≡ None) (λ x. prefix_at (lexemes tokens.now) ≡ next x.0 (lexemes x.1.now)) }
    ensures shorter { MatchOption result (Unit {0}) (λ x. length x.1.now + 1 ≡ length tokens.now) }
{
    let (token, rest) = first(tokens)?;
    let Token::Symbol(symbol) = token else {
        return None;
    };
    let operator = match symbol {
        Symbol::Minus => UnaryOperator::Negate,
        Symbol::Tilde => UnaryOperator::Complement,
        Symbol::Plus => UnaryOperator::Plus,
        _ => return None,
    };
    Some((operator, rest))
}
