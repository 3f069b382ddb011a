//! Questions about the values of other places, and what is done with the answers.
#![tactic(auto, using(ksv_basics::proofs::Running::run_bind))]

ghost use Rattle.std.specs.Prelude.{◌≡◌, ◌+◌, ◌<◌, ◌^◌, pos, Some};
ghost use Rattle.ksv_expr_value.specs.Bytes.{content};
ghost use Rattle.ksv_expr_value.specs.Elements.{element_of};
ghost use Rattle.ksv_expr_value.specs.Places.{byte_of};
ghost use Rattle.ksv_expr_value.specs.Trail.{holder};
ghost use Rattle.ksv_expr_eval.specs.Runs.{Runs};
ghost use Rattle.ksv_expr_meaning.specs.Asked.{bytes_for, opened_for};
ghost use Rattle.ksv_expr_meaning.specs.declared.want.Want.TheVariants.{Head};
ghost use Rattle.ksv_expr_meaning.specs.Meaning.{in_path, member_path, member_value, element_path, element_value, element_count, holder_of, stream_of, index_value, element_read, special_value, ranged_member, enum_member, distance, size_to, stream_size, at_end, list_size, last_element, object_of_type, object_as, text_in, decoded_by, decoded_text, byte_from, byte_at, first_byte};

use crate::answers::Answers;
use crate::arithmetic;
use crate::halt::Halt;
use crate::wants::{bytes_for, number_for, opened_for, raise, truth_for, value_for};
use ksv_expr_meaning::{Opened, Want};
use ksv_expr_tree::{EnumMember, SpecialName};
use ksv_expr_value::{
    Ctx, Element, Encoding, FaultKind, Integer, Parts, Path, Place, Stream, Text, Value,
};

fn in_path<By, A: Answers<By>>(
    answers: &mut A,
    ctx: &Ctx,
    path: Option<Path>,
) -> Result<Path, Halt<A::Need>>
    ensures { Runs (A.handler ctx.now) (in_path path) (λ p. p) answers.old answers.new result }
{
    match path {
        None => raise(answers, ctx, FaultKind::PathTooLong),
        Some(path) => Ok(path),
    }
}

#[tactic(auto, using(ksv_basics::proofs::Running::run_bind), unfolding(ksv_expr_meaning::specs::Meaning::member_path))]
fn member_path<By, A: Answers<By>>(
    answers: &mut A,
    ctx: &Ctx,
    object: &Path,
    name: Option<u32>,
) -> Result<Path, Halt<A::Need>>
    ensures { Runs (A.handler ctx.now) (member_path object.now name) (λ p. p) answers.old answers.new result }
{
    match name {
        None => raise(answers, ctx, FaultKind::BadType),
        Some(name) => {
            let path = object.child_name(answers.alloc(), name)?;
            in_path(answers, ctx, path)
        }
    }
}

/// The value of a member of an object.
#[tactic(auto, using(ksv_basics::proofs::Running::run_bind), unfolding(ksv_expr_meaning::specs::Meaning::member_value))]
pub(crate) fn member_value<By, A: Answers<By>>(
    answers: &mut A,
    ctx: &Ctx,
    object: &Path,
    name: Option<u32>,
) -> Result<Value, Halt<A::Need>>
    ensures { Runs (A.handler ctx.now) (member_value object.now name) (λ v. v) answers.old answers.new result }
{
    let path = member_path(answers, ctx, object, name)?;
    value_for(answers, ctx, Want::Value(path))
}

#[tactic(auto, using(ksv_basics::proofs::Running::run_bind), unfolding(ksv_expr_meaning::specs::Meaning::element_path))]
fn element_path<By, A: Answers<By>>(
    answers: &mut A,
    ctx: &Ctx,
    list: &Path,
    index: Integer,
) -> Result<Path, Halt<A::Need>>
    ensures { Runs (A.handler ctx.now) (element_path list.now index) (λ p. p) answers.old answers.new result }
{
    let index = index.get();
    if index < 0 || index >= i128::from(Path::MAX_INDEX) {
        return raise(answers, ctx, FaultKind::BadIndex);
    }
    let path = list.child_index(answers.alloc(), index as u32)?;
    in_path(answers, ctx, path)
}

/// The value of an element of a list.
#[tactic(auto, using(ksv_basics::proofs::Running::run_bind), unfolding(ksv_expr_meaning::specs::Meaning::element_value))]
pub(crate) fn element_value<By, A: Answers<By>>(
    answers: &mut A,
    ctx: &Ctx,
    list: &Path,
    index: Integer,
) -> Result<Value, Halt<A::Need>>
    ensures { Runs (A.handler ctx.now) (element_value list.now index) (λ v. v) answers.old answers.new result }
{
    let path = element_path(answers, ctx, list, index)?;
    value_for(answers, ctx, Want::Value(path))
}

#[tactic(auto, using(ksv_basics::proofs::Running::run_bind), unfolding(ksv_expr_meaning::specs::Meaning::element_count))]
fn element_count<By, A: Answers<By>>(
    answers: &mut A,
    ctx: &Ctx,
    list: &Path,
) -> Result<u64, Halt<A::Need>>
    ensures { Runs (A.handler ctx.now) (element_count list.now) (λ n. n) answers.old answers.new result }
{
    let first = list.child_index(answers.alloc(), 0)?;
    let first = in_path(answers, ctx, first)?;
    number_for(answers, ctx, Want::Rest(first))
}

/// How many elements a list has.
#[tactic(auto, using(ksv_basics::proofs::Running::run_bind), unfolding(ksv_expr_meaning::specs::Meaning::list_size))]
pub(crate) fn list_size<By, A: Answers<By>>(
    answers: &mut A,
    ctx: &Ctx,
    list: &Path,
) -> Result<Value, Halt<A::Need>>
    ensures { Runs (A.handler ctx.now) (list_size list.now) (λ v. v) answers.old answers.new result }
{
    let count = element_count(answers, ctx, list)?;
    Ok(Value::Int(Integer::from(count)))
}

/// The last element of a list.
#[tactic(auto, using(ksv_basics::proofs::Running::run_bind), unfolding(ksv_expr_meaning::specs::Meaning::last_element))]
pub(crate) fn last_element<By, A: Answers<By>>(
    answers: &mut A,
    ctx: &Ctx,
    list: &Path,
) -> Result<Value, Halt<A::Need>>
    ensures { Runs (A.handler ctx.now) (last_element list.now) (λ v. v) answers.old answers.new result }
{
    let count = element_count(answers, ctx, list)?;
    element_value(answers, ctx, list, arithmetic::before(Integer::from(count)))
}

/// The object that holds the object at this path.
pub(crate) fn holder_of<By, A: Answers<By>>(
    answers: &mut A,
    ctx: &Ctx,
    object: &Path,
) -> Result<Value, Halt<A::Need>>
    ensures { Runs (A.handler ctx.now) (holder_of (holder object.now)) (λ v. v) answers.old answers.new result }
{
    match object.holder(answers.alloc())? {
        None => raise(answers, ctx, FaultKind::NoParent),
        Some(path) => Ok(Value::Object(path)),
    }
}

/// An object's type and stream.
fn head_of<By, A: Answers<By>>(
    answers: &mut A,
    ctx: &Ctx,
    object: &Path,
) -> Result<Opened, Halt<A::Need>>
    ensures { Runs (A.handler ctx.now) (opened_for (Head object.now)) (λ o. o) answers.old answers.new result }
{
    let path = object.copy(answers.alloc())?;
    opened_for(answers, ctx, Want::Head(path))
}

/// The stream of an object.
#[tactic(auto, using(ksv_basics::proofs::Running::run_bind), unfolding(ksv_expr_meaning::specs::Meaning::stream_of))]
pub(crate) fn stream_of<By, A: Answers<By>>(
    answers: &mut A,
    ctx: &Ctx,
    object: &Path,
) -> Result<Value, Halt<A::Need>>
    ensures { Runs (A.handler ctx.now) (stream_of object.now) (λ v. v) answers.old answers.new result }
{
    let opened = head_of(answers, ctx, object)?;
    Ok(Value::Stream(opened.stream))
}

fn index_value<By, A: Answers<By>>(
    answers: &mut A,
    ctx: &Ctx,
    index: Option<u32>,
) -> Result<Value, Halt<A::Need>>
    ensures { Runs (A.handler ctx.now) (index_value index) (λ v. v) answers.old answers.new result }
{
    match index {
        None => raise(answers, ctx, FaultKind::BadType),
        Some(index) => Ok(Value::Int(Integer::from(u64::from(index)))),
    }
}

fn element_read<By, A: Answers<By>>(
    answers: &mut A,
    ctx: &Ctx,
    element: Element,
) -> Result<Value, Halt<A::Need>>
    ensures { Runs (A.handler ctx.now) (element_read (element_of element.entry)) (λ v. v) answers.old answers.new result }
{
    match element {
        Element::None => raise(answers, ctx, FaultKind::BadType),
        Element::At(path) => {
            let path = path.copy(answers.alloc())?;
            value_for(answers, ctx, Want::Value(path))
        }
        Element::Made(value) => Ok(value.copy(answers.alloc())?),
    }
}

/// The value of a name to which the language gives a meaning.
#[tactic(auto, using(ksv_basics::proofs::Running::run_bind), unfolding(ksv_expr_meaning::specs::Meaning::special_value))]
pub(crate) fn special_value<By, A: Answers<By>>(
    answers: &mut A,
    ctx: &Ctx,
    name: SpecialName,
) -> Result<Value, Halt<A::Need>>
    ensures { Runs (A.handler ctx.now) (special_value ctx.now name) (λ v. v) answers.old answers.new result }
{
    match name {
        SpecialName::Root => Ok(Value::Object(Path::root(answers.alloc()))),
        SpecialName::Parent => holder_of(answers, ctx, ctx.home),
        SpecialName::Io => Ok(Value::Stream(ctx.stream)),
        SpecialName::Index => index_value(answers, ctx, ctx.index),
        SpecialName::Element => element_read(answers, ctx, ctx.element),
    }
}

/// A member of an enum.
pub(crate) fn enum_member<By, A: Answers<By>>(
    answers: &mut A,
    ctx: &Ctx,
    given: Option<EnumMember>,
) -> Result<Value, Halt<A::Need>>
    ensures { Runs (A.handler ctx.now) (enum_member given) (λ v. v) answers.old answers.new result }
{
    match given {
        None => raise(answers, ctx, FaultKind::BadType),
        Some(member) => match Integer::new(member.number) {
            None => raise(answers, ctx, FaultKind::Overflow),
            Some(number) => Ok(Value::Member {
                enum_number: member.enum_number,
                number,
            }),
        },
    }
}

fn distance<By, A: Answers<By>>(
    answers: &mut A,
    ctx: &Ctx,
    end: u64,
    start: u32,
) -> Result<Value, Halt<A::Need>>
    ensures { Runs (A.handler ctx.now) (distance end start) (λ v. v) answers.old answers.new result }
{
    match Integer::new(i128::from(end) - i128::from(start)) {
        None => raise(answers, ctx, FaultKind::Overflow),
        Some(distance) => Ok(Value::Int(distance)),
    }
}

/// The size of a stream.
#[tactic(auto, using(ksv_basics::proofs::Running::run_bind), unfolding(ksv_expr_meaning::specs::Meaning::stream_size))]
pub(crate) fn stream_size<By, A: Answers<By>>(
    answers: &mut A,
    ctx: &Ctx,
    stream: Stream,
) -> Result<Value, Halt<A::Need>>
    ensures { Runs (A.handler ctx.now) (stream_size stream) (λ v. v) answers.old answers.new result }
{
    match stream.to.get() {
        None => {
            let size = number_for(answers, ctx, Want::Size)?;
            distance(answers, ctx, size, stream.from)
        }
        Some(to) => distance(answers, ctx, u64::from(to), stream.from),
    }
}

/// The current place, counted from a stream's start.
pub(crate) fn place_in<By, A: Answers<By>>(
    answers: &mut A,
    ctx: &Ctx,
    place: Place,
    stream: Stream,
) -> Result<Value, Halt<A::Need>>
    ensures { Runs (A.handler ctx.now) (distance (byte_of place) stream.from) (λ v. v) answers.old answers.new result }
{
    distance(answers, ctx, u64::from(place.byte()), stream.from)
}

/// Whether the current place is the end of the home's stream.
#[tactic(auto, using(ksv_basics::proofs::Running::run_bind), unfolding(ksv_expr_meaning::specs::Meaning::at_end))]
pub(crate) fn at_end<By, A: Answers<By>>(answers: &mut A, ctx: &Ctx) -> Result<Value, Halt<A::Need>>
    ensures { Runs (A.handler ctx.now) at_end (λ v. v) answers.old answers.new result }
{
    let done = truth_for(answers, ctx, Want::Done)?;
    Ok(Value::Bool(done))
}

#[tactic(auto, using(ksv_basics::proofs::Running::run_bind), unfolding(ksv_expr_meaning::specs::Meaning::object_of_type))]
fn object_of_type<By, A: Answers<By>>(
    answers: &mut A,
    ctx: &Ctx,
    object: &Path,
    type_number: u32,
) -> Result<Value, Halt<A::Need>>
    ensures { Runs (A.handler ctx.now) (object_of_type object.now type_number) (λ v. v) answers.old answers.new result }
{
    let opened = head_of(answers, ctx, object)?;
    if opened.type_number == type_number {
        Ok(Value::Object(object.copy(answers.alloc())?))
    } else {
        raise(answers, ctx, FaultKind::BadType)
    }
}

/// An object, if it has this type.
pub(crate) fn object_as<By, A: Answers<By>>(
    answers: &mut A,
    ctx: &Ctx,
    object: &Path,
    type_number: Option<u32>,
) -> Result<Value, Halt<A::Need>>
    ensures { Runs (A.handler ctx.now) (object_as object.now type_number) (λ v. v) answers.old answers.new result }
{
    match type_number {
        None => raise(answers, ctx, FaultKind::BadType),
        Some(type_number) => object_of_type(answers, ctx, object, type_number),
    }
}

fn decoded_text<By, A: Answers<By>>(
    answers: &mut A,
    ctx: &Ctx,
    text: Option<Text>,
) -> Result<Value, Halt<A::Need>>
    ensures { Runs (A.handler ctx.now) (decoded_text text) (λ v. v) answers.old answers.new result }
{
    match text {
        None => raise(answers, ctx, FaultKind::BadText),
        Some(text) => Ok(Value::Text(text)),
    }
}

fn decoded_by<By, A: Answers<By>>(
    answers: &mut A,
    ctx: &Ctx,
    encoding: Option<Encoding>,
    parts: Parts,
) -> Result<Value, Halt<A::Need>>
    ensures { Runs (A.handler ctx.now) (decoded_by encoding (content parts.entry)) (λ v. v) answers.old answers.new result }
{
    match encoding {
        None => raise(answers, ctx, FaultKind::BadText),
        Some(encoding) => {
            let text = encoding.decode(answers.alloc(), parts)?;
            decoded_text(answers, ctx, text)
        }
    }
}

/// The text that bytes spell in an encoding.
#[tactic(auto, using(ksv_basics::proofs::Running::run_bind), unfolding(ksv_expr_meaning::specs::Meaning::text_in))]
pub(crate) fn text_in<By, A: Answers<By>>(
    answers: &mut A,
    ctx: &Ctx,
    from: u32,
    to: u32,
    encoding: &Text,
) -> Result<Value, Halt<A::Need>>
    ensures { Runs (A.handler ctx.now) (text_in from to encoding.now) (λ v. v) answers.old answers.new result }
{
    let bytes = bytes_for(answers, ctx, Want::Bytes { from, to })?;
    decoded_by(
        answers,
        ctx,
        Encoding::named(encoding.as_str().as_bytes()),
        A::parts(&bytes),
    )
}

fn first_byte<By, A: Answers<By>>(
    answers: &mut A,
    ctx: &Ctx,
    parts: Parts,
) -> Result<Value, Halt<A::Need>>
    ensures { Runs (A.handler ctx.now) (first_byte (content parts.entry)) (λ v. v) answers.old answers.new result }
{
    match parts.first() {
        None => raise(answers, ctx, FaultKind::BadType),
        Some(byte) => Ok(Value::Int(Integer::from(u64::from(byte)))),
    }
}

#[tactic(auto, using(ksv_basics::proofs::Running::run_bind), unfolding(ksv_expr_meaning::specs::Meaning::byte_from))]
fn byte_from<By, A: Answers<By>>(
    answers: &mut A,
    ctx: &Ctx,
    place: u32,
) -> Result<Value, Halt<A::Need>>
    requires { place + 1 < 2 ^ 32 }
    ensures { Runs (A.handler ctx.now) (byte_from place) (λ v. v) answers.old answers.new result }
{
    let bytes = bytes_for(
        answers,
        ctx,
        Want::Bytes {
            from: place,
            to: place + 1,
        },
    )?;
    first_byte(answers, ctx, A::parts(&bytes))
}

/// The byte at a place of a range.
#[tactic(auto, using(ksv_basics::proofs::Running::run_bind), unfolding(ksv_expr_meaning::specs::Meaning::byte_at))]
pub(crate) fn byte_at<By, A: Answers<By>>(
    answers: &mut A,
    ctx: &Ctx,
    from: u32,
    to: u32,
    index: Integer,
) -> Result<Value, Halt<A::Need>>
    ensures { Runs (A.handler ctx.now) (byte_at from to index) (λ v. v) answers.old answers.new result }
{
    let index = index.get();
    if index < 0 || index >= i128::from(to.saturating_sub(from)) {
        return raise(answers, ctx, FaultKind::BadIndex);
    }
    byte_from(answers, ctx, from + index as u32)
}
