//! The value of what is at a path.
#![tactic(auto)]

ghost use Rattle.std.specs.Option.{option_map_or};
ghost use Rattle.std.specs.Prelude.{◌≡◌, ◌≤◌, ◌<◌, ◌+◌, ◌^◌, IfOk, length, option_map};
ghost use Rattle.ksv_expr_value.specs.Bytes.{content};
ghost use Rattle.ksv_expr_value.specs.Places.{byte_of, byte_in};
ghost use Rattle.ksv_desc.specs.Description.{Bytes};
ghost use Rattle.ksv_desc.specs.Pieces.{plain_content, plain_extent, plain_field, plain_terminator};
ghost use Rattle.ksv_desc.specs.Whole.{plain_pieces};
ghost use Rattle.ksv_nodes.specs.Rule.{peek};
ghost use Rattle.ksv_nodes.specs.Turning.{Runs};
ghost use Rattle.ksv_rule_meaning.specs.Values.{as_member, in_number, number_in, number_value, of_bits, bits_in, bits_value, fixed_value, cut_by, is_cut, kept_by, kept, cut_bytes, bytes_value, in_text, cut_text, text_value, content_value, leaf_value, value_at, value_of};

use crate::calculated::calculated;
use crate::checks::value_checked;
use crate::choosing::content_of;
use crate::fields::field_of;
use crate::lent::{are, cut, len_of};
use ksv_desc::{ByteOrder, Content, Desc, Extent, Field, Terminator, is_truth};
use ksv_expr_value::{Encoding, FaultKind, Integer, Parts, Path, Text, Value};
use ksv_nodes::{Halt, Head, Leaf, Turn, first_in_parts};
use ksv_rule_meaning::integer_value;

/// The bytes from one of a number on and before another.
fn peeked<'a>(turn: &mut Turn<'a>, from: u32, to: u32) -> Result<Parts<'a>, Halt>
    ensures runs { Runs (peek from to) content turn.old turn.new result }
    ensures fits { IfOk result (λ parts. from + length (content parts) ≡ to) }
    ensures small { IfOk result (λ parts. from + length (content parts) < 4294967296) }
{
    let parts = turn.peek(from, to)?;
    Ok(parts)
}

/// The bytes of a leaf.
fn bytes_of<'a>(turn: &mut Turn<'a>, leaf: &Leaf) -> Result<Parts<'a>, Halt>
    ensures runs { Runs (peek (byte_of leaf.now.from) (byte_of leaf.now.to)) content turn.old turn.new result }
    ensures fits { IfOk result (λ parts. byte_of leaf.now.from + length (content parts) ≡ byte_of leaf.now.to) }
    ensures small { IfOk result (λ parts. byte_of leaf.now.from + length (content parts) < 4294967296) }
{
    peeked(turn, leaf.from.byte(), leaf.to.byte())
}

/// The bytes that the bits of a leaf meet.
fn met_bytes<'a>(turn: &mut Turn<'a>, leaf: &Leaf) -> Result<Parts<'a>, Halt>
    ensures runs { Runs (peek (byte_in leaf.now.from) (byte_of leaf.now.to)) content turn.old turn.new result }
    ensures fits { IfOk result (λ parts. byte_in leaf.now.from + length (content parts) ≡ byte_of leaf.now.to) }
    ensures small { IfOk result (λ parts. byte_in leaf.now.from + length (content parts) < 4294967296) }
{
    peeked(turn, leaf.from.byte_in(), leaf.to.byte())
}

/// An integer, as a member of an enum where it is one.
fn as_member(enumeration: Option<u32>, number: Integer) -> Value
    ensures { result ≡ as_member enumeration number }
{
    match enumeration {
        None => Value::Int(number),
        Some(enum_number) => Value::Member {
            enum_number,
            number,
        },
    }
}

/// As `as_member`, where the number is in the range of integers.
fn in_number(
    turn: &mut Turn,
    enumeration: Option<u32>,
    number: Option<Integer>,
) -> Result<Value, Halt>
    ensures { Runs (in_number enumeration number) (λ value. value) turn.old turn.new result }
{
    match number {
        None => turn.raise(FaultKind::Overflow),
        Some(number) => Ok(as_member(enumeration, number)),
    }
}

/// The integer that bytes say; none has more than 8.
fn number_in(
    turn: &mut Turn,
    is_signed: bool,
    order: ByteOrder,
    enumeration: Option<u32>,
    parts: Parts,
) -> Result<Value, Halt>
    requires { length (content parts) < 4294967296 }
    ensures { Runs (number_in is_signed order enumeration (content parts.entry)) (λ value. value) turn.old turn.new result }
{
    if len_of(parts) > 8 {
        return turn.raise(FaultKind::BadType);
    }
    let number = Integer::new(integer_value(is_signed, order, parts));
    in_number(turn, enumeration, number)
}

/// The integer of a leaf.
#[tactic(auto, using(ksv_basics::proofs::Running::run_bind), unfolding(ksv_rule_meaning::specs::Values::number_value))]
fn number_value(
    turn: &mut Turn,
    leaf: Leaf,
    is_signed: bool,
    order: ByteOrder,
    enumeration: Option<u32>,
) -> Result<Value, Halt>
    ensures { Runs (number_value leaf is_signed order enumeration) (λ value. value) turn.old turn.new result }
{
    let bytes = bytes_of(turn, &leaf)?;
    number_in(turn, is_signed, order, enumeration, bytes)
}

/// The value of a number that bits write.
fn of_bits(
    turn: &mut Turn,
    width: u8,
    enumeration: Option<u32>,
    number: u128,
) -> Result<Value, Halt>
    requires { number < 2 ^ 72 }
    ensures { Runs (of_bits width enumeration number) (λ value. value) turn.old turn.new result }
{
    if is_truth(width, enumeration) {
        return Ok(Value::Bool(number != 0));
    }
    in_number(turn, enumeration, Integer::new(number as i128))
}

/// The value of a leaf's bits, of the bytes that they meet; these are at most nine.
fn bits_in(
    turn: &mut Turn,
    leaf: &Leaf,
    width: u8,
    enumeration: Option<u32>,
    parts: Parts,
) -> Result<Value, Halt>
    requires met { byte_in leaf.now.from + length (content parts) ≡ byte_of leaf.now.to }
    requires small { length (content parts) < 4294967296 }
    ensures { Runs (bits_in width enumeration leaf.now (content parts.entry)) (λ value. value) turn.old turn.new result }
{
    if len_of(parts) > 9 {
        return turn.raise(FaultKind::BadType);
    }
    let number = parts.number_between(leaf.from, leaf.to);
    of_bits(turn, width, enumeration, number)
}

/// The value of a leaf's bits.
#[tactic(auto, using(ksv_basics::proofs::Running::run_bind), unfolding(ksv_rule_meaning::specs::Values::bits_value))]
fn bits_value(
    turn: &mut Turn,
    leaf: &Leaf,
    width: u8,
    enumeration: Option<u32>,
) -> Result<Value, Halt>
    ensures { Runs (bits_value leaf.now width enumeration) (λ value. value) turn.old turn.new result }
{
    let bytes = met_bytes(turn, leaf)?;
    bits_in(turn, leaf, width, enumeration, bytes)
}

/// Certain bytes and no others.
#[tactic(auto, using(ksv_basics::proofs::Running::run_bind), unfolding(ksv_rule_meaning::specs::Values::fixed_value))]
fn fixed_value(turn: &mut Turn, leaf: Leaf, wanted: &[u8]) -> Result<Value, Halt>
    ensures { Runs (fixed_value leaf wanted.now) (λ value. value) turn.old turn.new result }
{
    let bytes = bytes_of(turn, &leaf)?;
    if !are(bytes, wanted) {
        return turn.raise(FaultKind::Contents);
    }
    Ok(Value::Bytes {
        from: leaf.from.byte(),
        to: leaf.to.byte(),
    })
}

/// The terminator that cuts bytes. Without a size of their own they end at it already.
fn cut_by(extent: &Extent, terminator: Option<Terminator>) -> Option<Terminator>
    ensures { option_map plain_terminator result ≡ cut_by (plain_extent extent.now) (option_map plain_terminator terminator) }
{
    match extent {
        Extent::Sized(_) => terminator,
        Extent::SizeEos => terminator,
        Extent::ByItself => None,
    }
}

/// Whether the bytes of an attribute or instance may be cut.
fn is_cut(field: &Field) -> bool
    ensures { result ≡ is_cut (plain_field field.now) }
{
    cut_by(&field.extent, field.terminator).is_some()
}

/// How many of the bytes are kept before the first terminator, or up to it where it is included.
fn kept_by(terminator: Option<Terminator>, parts: Parts) -> usize
    requires { length (content parts) < 4294967296 }
    ensures kept { result ≡ kept_by (option_map plain_terminator terminator) (content parts.entry) }
    ensures inside { result ≤ length (content parts.entry) }
{
    let Some(terminator) = terminator else {
        return len_of(parts);
    };
    match first_in_parts(parts, terminator.byte) {
        None => len_of(parts),
        Some(place) => {
            if terminator.is_included {
                place + 1
            } else {
                place
            }
        }
    }
}

/// How many of the bytes of an attribute or instance are its value.
#[tactic(auto, unfolding(ksv_rule_meaning::specs::Values::kept))]
fn kept(field: &Field, parts: Parts) -> usize
    requires { length (content parts) < 4294967296 }
    ensures kept { result ≡ kept (plain_field field.now) (content parts.entry) }
    ensures inside { result ≤ length (content parts.entry) }
{
    kept_by(cut_by(&field.extent, field.terminator), parts)
}

/// The range of bytes, as far as they are the value.
#[tactic(auto, using(ksv_basics::proofs::Running::run_bind), unfolding(ksv_rule_meaning::specs::Values::cut_bytes))]
fn cut_bytes(turn: &mut Turn, leaf: Leaf, field: &Field) -> Result<Value, Halt>
    ensures { Runs (cut_bytes leaf (plain_field field.now)) (λ value. value) turn.old turn.new result }
{
    let bytes = bytes_of(turn, &leaf)?;
    let kept = kept(field, bytes);
    let from = leaf.from.byte();
    Ok(Value::Bytes {
        from,
        to: from + kept as u32,
    })
}

/// The range of bytes; where they may be cut they are read.
#[tactic(auto, unfolding(ksv_rule_meaning::specs::Values::bytes_value))]
fn bytes_value(turn: &mut Turn, leaf: Leaf, field: &Field) -> Result<Value, Halt>
    ensures { Runs (bytes_value leaf (plain_field field.now)) (λ value. value) turn.old turn.new result }
{
    if is_cut(field) {
        return cut_bytes(turn, leaf, field);
    }
    Ok(Value::Bytes {
        from: leaf.from.byte(),
        to: leaf.to.byte(),
    })
}

/// A text; bytes that spell none are a fault.
fn in_text(turn: &mut Turn, text: Option<Text>) -> Result<Value, Halt>
    ensures { Runs (in_text text) (λ value. value) turn.old turn.new result }
{
    match text {
        None => turn.raise(FaultKind::BadText),
        Some(text) => Ok(Value::Text(text)),
    }
}

/// The bytes of a text, as far as they are the value.
fn cut_text<'a>(field: &Field, parts: Parts<'a>) -> Parts<'a>
    requires { length (content parts) < 4294967296 }
    ensures { content result ≡ cut_text (plain_field field.now) (content parts.entry) }
{
    if is_cut(field) {
        return cut(parts, kept(field, parts));
    }
    parts
}

/// The text of a leaf.
#[tactic(auto, using(ksv_basics::proofs::Running::run_bind), unfolding(ksv_rule_meaning::specs::Values::text_value))]
fn text_value(turn: &mut Turn, leaf: Leaf, encoding: Encoding, field: &Field) -> Result<Value, Halt>
    ensures { Runs (text_value leaf encoding (plain_field field.now)) (λ value. value) turn.old turn.new result }
{
    let bytes = bytes_of(turn, &leaf)?;
    let text = encoding.decode(turn.alloc(), cut_text(field, bytes))?;
    in_text(turn, text)
}

#[tactic(auto, unfolding(ksv_rule_meaning::specs::Values::content_value))]
fn content_value(
    turn: &mut Turn,
    leaf: Leaf,
    field: &Field,
    content: &Content,
) -> Result<Value, Halt>
    ensures { Runs (content_value leaf (plain_field field.now) (plain_content content.now)) (λ value. value) turn.old turn.new result }
{
    match content {
        Content::Bytes => bytes_value(turn, leaf, field),
        Content::Fixed(bytes) => fixed_value(turn, leaf, bytes),
        Content::Number {
            is_signed,
            order,
            enumeration,
            ..
        } => number_value(turn, leaf, *is_signed, *order, *enumeration),
        Content::Bits { width, enumeration } => bits_value(turn, &leaf, *width, *enumeration),
        Content::Characters(encoding) => text_value(turn, leaf, *encoding, field),
        Content::Object { .. } => turn.raise(FaultKind::NoSuch),
    }
}

/// The value of what was read by a case; without one it is bytes.
#[tactic(auto, unfolding(ksv_rule_meaning::specs::Values::content_value))]
fn known_value(
    turn: &mut Turn,
    leaf: Leaf,
    field: &Field,
    content: Option<&Content>,
) -> Result<Value, Halt>
    ensures { Runs (content_value leaf (plain_field field.now) (option_map_or (λ c. plain_content c.now) content.entry Bytes)) (λ value. value) turn.old turn.new result }
{
    match content {
        None => bytes_value(turn, leaf, field),
        Some(content) => content_value(turn, leaf, field, content),
    }
}

/// The value of a leaf, by the attribute that reads it and its case.
#[tactic(auto, using(ksv_basics::proofs::Running::run_bind), unfolding(ksv_rule_meaning::specs::Values::leaf_value))]
fn leaf_value(turn: &mut Turn, desc: &Desc, leaf: &Leaf) -> Result<Value, Halt>
    ensures { Runs (leaf_value (plain_pieces desc.now) leaf.now) (λ value. value) turn.old turn.new result }
{
    let field = field_of(turn, desc, leaf.origin.member)?;
    let content = content_of(turn, &field.choice, leaf.origin.case.get())?;
    known_value(turn, *leaf, field, content)
}

#[tactic(auto, unfolding(ksv_rule_meaning::specs::Values::value_at))]
fn value_at(turn: &mut Turn, desc: &Desc, path: &Path, head: &Head) -> Result<Value, Halt>
    ensures { Runs (value_at (plain_pieces desc.now) path.now head.now) (λ value. value) turn.old turn.new result }
{
    match head {
        Head::Absent(_) => turn.raise(FaultKind::Absent),
        Head::Calc(calc) => calculated(turn, desc, path, *calc),
        Head::Leaf(leaf) => leaf_value(turn, desc, leaf),
        Head::Object(_) => Ok(Value::Object(path.copy(turn.alloc())?)),
        Head::List(_) => Ok(Value::List(path.copy(turn.alloc())?)),
    }
}

/// The value of what is at a path; objects and lists by their path. It is made, and then checked.
#[tactic(auto, using(ksv_basics::proofs::Running::run_bind), unfolding(ksv_rule_meaning::specs::Values::value_of))]
pub(crate) fn value_of(turn: &mut Turn, desc: &Desc, path: &Path) -> Result<Value, Halt>
    ensures { Runs (value_of (plain_pieces desc.now) path.now) (λ value. value) turn.old turn.new result }
{
    let head = turn.head(path)?;
    let value = value_at(turn, desc, path, head)?;
    value_checked(turn, desc, path, head, &value)?;
    Ok(value)
}
