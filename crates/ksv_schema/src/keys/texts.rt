//! What the values of a description's keys mean.

ghost use Rattle.std.specs.Prelude.{◌≡◌, ◌≤◌, nat_abs, IfOk, map, slice_index, drop, ◌==◌, ◌&&◌};
ghost use Rattle.ksv_yaml_tree.specs.View.{view, pair, seen_entry, seen_text};
ghost use Rattle.std.specs.List.{list_all};
ghost use Rattle.ksv_expr_tree.specs.Tree.{view as view_expression, literal_of};
ghost use Rattle.ksv_schema.specs.KeyTexts.{type_text, is_a, type_at, own_type, byte_number, byte_at, looks_like_number, number_piece, piece_of, case_key};
ghost use Rattle.ksv_schema.specs.KeyCode.{seen_type_text, seen_type_at, kind_test, IsUpTo, seen_piece, seen_case_key, negative_constant, negative_key};

use crate::keys::expressions::read_type;
use ksv_basics::is_numeral;
use ksv_expr_syntax::ExprFault;
use ksv_expr_tree::{Expr, Literal, Member, SpecialName, TypeName, TypeRef, UnaryOperator};
use ksv_schema_names::{BuiltIn, built_in_at};
use ksv_yaml_tree::keys::text_at;
use ksv_yaml_tree::{Entry, Numeral, Yaml, find, plain_number};
use std::alloc::{AllocError, Global};

/// The greatest number that may come after `-` in a key of `cases`.
const MOST_NEGATIVE: u64 = 0x8000_0000_0000_0000;

/// What the text of a type is.
#[derive(Drop)]
pub(crate) enum TypeText {
    /// No type's text.
    Unspelled(ExprFault),
    /// A type of the language, with its arguments.
    OfLanguage(BuiltIn, Vec<Expr>),
    /// A type of the description, with its arguments.
    OfDescription(TypeName, Vec<Expr>),
}

/// What the text of a type is.
#[tactic(auto, unfolding(crate::specs::KeyTexts::type_text))]
pub(crate) fn type_text(alloc: Global, text: &[u8]) -> Result<TypeText, AllocError>
    ensures { IfOk result (λ t. seen_type_text t ≡ type_text text.now) }
{
    match read_type(alloc, text)? {
        Ok(TypeRef { name, arguments }) => match built_in_at(name.path.as_slice()) {
            Some(built_in) => Ok(TypeText::OfLanguage(built_in, arguments)),
            None => Ok(TypeText::OfDescription(name, arguments)),
        },
        Err(fault) => Ok(TypeText::Unspelled(fault)),
    }
}

/// A kind of type that rules ask for.
#[derive(Clone, Copy)]
pub(crate) enum TypeKind {
    /// An integer, of bytes or of bits.
    Integer,
    /// An integer of bits.
    Bits,
    /// `str`
    Str,
    /// `strz`
    Strz,
}

/// Whether a type is of this kind.
pub(crate) fn is_of_kind(kind: TypeKind, text: &TypeText) -> bool
    ensures { result ≡ kind_test kind (seen_type_text text.now) }
{
    match kind {
        TypeKind::Integer => matches!(
            text,
            TypeText::OfLanguage(BuiltIn::Integer { .. } | BuiltIn::Bits { .. }, _)
        ),
        TypeKind::Bits => matches!(text, TypeText::OfLanguage(BuiltIn::Bits { .. }, _)),
        TypeKind::Str => matches!(text, TypeText::OfLanguage(BuiltIn::Str, _)),
        TypeKind::Strz => matches!(text, TypeText::OfLanguage(BuiltIn::Strz, _)),
    }
}

/// Whether there is a type, and it is of this kind.
pub(crate) fn is_a(kind: TypeKind, text: &Option<TypeText>) -> bool
    ensures { result ≡ is_a (kind_test kind) (seen_type_at text.now) }
{
    match text {
        Some(text) => is_of_kind(kind, text),
        None => false,
    }
}

/// The type whose text is at an entry.
fn type_at(alloc: Global, entry: &Entry) -> Result<Option<TypeText>, AllocError>
    ensures { IfOk result (λ t. seen_type_at t ≡ type_at (pair entry.now)) }
{
    match entry.value().text() {
        Some(text) => Ok(Some(type_text(alloc, text)?)),
        None => Ok(None),
    }
}

/// The type whose text is at the key `type`.
pub(crate) fn own_type(alloc: Global, entries: &[Entry]) -> Result<Option<TypeText>, AllocError>
    ensures { IfOk result (λ t. seen_type_at t ≡ own_type (map pair entries.now)) }
{
    match find(entries, b"type") {
        Some(entry) => type_at(alloc, entry),
        None => Ok(None),
    }
}

/// The plain number from 0 to 255 that a text is.
#[tactic(auto, unfolding(crate::specs::KeyTexts::byte_number))]
pub(crate) fn byte_number(text: &[u8]) -> Numeral
    ensures { result ≡ byte_number text.now }
{
    plain_number(255, text)
}

fn to_byte(number: i128) -> u8
    requires { IsUpTo 255 number }
    ensures { result ≡ nat_abs number }
{
    number as u8
}

/// The number from 0 to 255 at a key.
#[tactic(auto, using(crate::proofs::Bytes::byte_fits), unfolding(crate::specs::KeyTexts::byte_at))]
pub(crate) fn byte_at(entries: &[Entry], key: &[u8]) -> Option<u8>
    ensures { result ≡ byte_at key.now (map pair entries.now) }
{
    match byte_number(text_at(entries, key)?) {
        Numeral::Whole(number) => Some(to_byte(number)),
        Numeral::LeadingZero => None,
        Numeral::NoNumeral => None,
    }
}

/// Whether a text has the form of a plain number.
#[tactic(auto, unfolding(crate::specs::KeyTexts::looks_like_number))]
pub(crate) fn looks_like_number(text: &[u8]) -> bool
    ensures { result ≡ looks_like_number text.now }
{
    match text {
        [b'0', b'x', digits @ ..] => is_numeral(digits, 16),
        _ => is_numeral(text, 10),
    }
}

/// What an item of `contents` is.
#[derive(Clone, Copy)]
pub(crate) enum Piece<'a> {
    /// The byte of a number.
    Byte(u8),
    /// The bytes of a text.
    Text(&'a [u8]),
    /// A number that is too large, or a node of the wrong kind.
    Bad,
    /// A number with a leading zero.
    LeftOut,
}

#[tactic(auto, using(crate::proofs::Bytes::byte_fits))]
fn number_piece(text: &[u8]) -> Piece<'_>
    ensures { seen_piece result ≡ number_piece (byte_number text.now) }
{
    match byte_number(text) {
        Numeral::Whole(number) => Piece::Byte(to_byte(number)),
        Numeral::LeadingZero => Piece::LeftOut,
        Numeral::NoNumeral => Piece::Bad,
    }
}

/// What an item of `contents` is.
#[tactic(auto, using(crate::proofs::Bytes::quoted_piece, crate::proofs::Bytes::digits_piece, crate::proofs::Bytes::plain_piece, crate::proofs::Bytes::bad_piece))]
pub(crate) fn piece_of(item: &Yaml) -> Piece<'_>
    ensures { seen_piece result ≡ piece_of (view item.now) }
{
    match item.text() {
        Some(text) => {
            if item.is_quoted() {
                Piece::Text(text)
            } else if looks_like_number(text) {
                number_piece(text)
            } else {
                Piece::Text(text)
            }
        }
        None => Piece::Bad,
    }
}

/// What a key of `cases` may be.
#[derive(Clone, Copy)]
pub(crate) enum CaseKey<'a> {
    /// A number, truth value or text.
    Constant(&'a Literal),
    /// The number after a `-`.
    Negative(u64),
    /// A member of an enum.
    OfEnum(&'a Member),
    /// `_`
    Default,
    /// Another expression.
    NoKey,
}

fn negative_constant(literal: &Literal) -> CaseKey<'_>
    ensures { seen_case_key result ≡ negative_constant (literal_of literal.now) }
{
    match literal {
        Literal::Number(number) => {
            if *number <= MOST_NEGATIVE {
                CaseKey::Negative(*number)
            } else {
                CaseKey::NoKey
            }
        }
        Literal::Truth(_) => CaseKey::NoKey,
        Literal::Text(_) => CaseKey::NoKey,
    }
}

fn negative_key(operand: &Expr) -> CaseKey<'_>
    ensures { seen_case_key result ≡ negative_key (view_expression operand.now) }
{
    match operand {
        Expr::Literal(literal) => negative_constant(literal),
        _ => CaseKey::NoKey,
    }
}

/// What an expression is as a key of `cases`.
#[tactic(auto, using(crate::proofs::CaseKeys::key_negated), unfolding(crate::specs::KeyTexts::case_key))]
pub(crate) fn case_key(expr: &Expr) -> CaseKey<'_>
    ensures { seen_case_key result ≡ case_key (view_expression expr.now) }
{
    match expr {
        Expr::Literal(literal) => CaseKey::Constant(literal),
        Expr::Special(SpecialName::Element) => CaseKey::Default,
        Expr::Member(member) => CaseKey::OfEnum(member),
        Expr::Unary(UnaryOperator::Negate, operand) => negative_key(operand),
        _ => CaseKey::NoKey,
    }
}
