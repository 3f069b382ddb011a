//! What an attribute, or one of its elements, reads at a place.
#![tactic(auto)]

ghost use Rattle.std.specs.Prelude.{◌≡◌, ◌+◌, ◌≤◌, IfOk, option_map};
ghost use Rattle.ksv_bytes.specs.Edits.{file_limit};
ghost use Rattle.ksv_expr_tree.specs.Tree.{view};
ghost use Rattle.ksv_expr_value.specs.Places.{byte_of, further, last_place};
ghost use Rattle.ksv_desc.specs.Pieces.{plain_content, plain_extent, plain_terminator, plain_field};
ghost use Rattle.ksv_nodes.specs.Rule.{reach};
ghost use Rattle.ksv_nodes.specs.Turning.{Runs, StandsBelow};
ghost use Rattle.ksv_nodes.specs.declared.turn.readings.Found.TheVariants.{Missing};
ghost use Rattle.ksv_rule_meaning.specs.Heads.{leaf, bits_leaf, leaf_to_end, terminated_at, terminated, run_of, sized_leaf, bytes_at, sized_object, object_at, content_at, unchosen_at, chosen_at, shape_at};
ghost use Rattle.ksv_rules.specs.Chosen.{plain_chosen};

use crate::choosing::{Chosen, choose};
use crate::wanted::size_of;
use ksv_desc::{Content, Extent, Field, Terminator};
use ksv_expr_tree::Expr;
use ksv_expr_value::{Ctx, FaultKind, Place, Stream, StreamEnd};
use ksv_nodes::{
    CaseNumber, Found, Halt, Head, Leaf, Object, ObjectEnd, ObjectOrigin, Origin, Turn,
};

/// As many bytes as a size says, from a place on.
#[tactic(auto, using(ksv_basics::proofs::Running::run_bind), unfolding(ksv_rule_meaning::specs::Heads::leaf))]
#[inline(always)]
fn leaf(
    turn: &mut Turn,
    origin: Origin,
    stream: Stream,
    start: Place,
    size: u64,
) -> Result<Head, Halt>
    ensures { Runs (leaf origin stream start size) (λ head. head) turn.old turn.new result }
{
    let to = turn.reach(stream, start.byte(), size)?;
    let to = Place::at_byte(to);
    Ok(Head::Leaf(Leaf {
        origin,
        from: start,
        to,
        end: to,
    }))
}

/// The number of the byte after the last one that `width` bits from a place on touch. The stream and the file must go on to it.
fn reach_bits(turn: &mut Turn, stream: Stream, start: Place, width: u8) -> Result<u32, Halt>
    ensures runs { Runs (reach stream (byte_of (further start width))) (λ _. tt) turn.old turn.new result }
    ensures fits { IfOk result (λ _. start.bits + width ≤ last_place) }
{
    let size = (u64::from(start.bit_in()) + u64::from(width) + 7) / 8;
    turn.reach(stream, start.byte_in(), size)
}

/// That many bits from a place on.
#[tactic(auto, using(ksv_basics::proofs::Running::run_bind), unfolding(ksv_rule_meaning::specs::Heads::bits_leaf))]
fn bits_leaf(
    turn: &mut Turn,
    origin: Origin,
    stream: Stream,
    start: Place,
    width: u8,
) -> Result<Head, Halt>
    ensures { Runs (bits_leaf origin stream start width) (λ head. head) turn.old turn.new result }
{
    reach_bits(turn, stream, start, width)?;
    let to = start.further(width);
    Ok(Head::Leaf(Leaf {
        origin,
        from: start,
        to,
        end: to,
    }))
}

/// All bytes to the stream's end.
#[tactic(auto, using(ksv_basics::proofs::Running::run_bind), unfolding(ksv_rule_meaning::specs::Heads::leaf_to_end))]
fn leaf_to_end(turn: &mut Turn, origin: Origin, stream: Stream, start: Place) -> Result<Head, Halt>
    ensures { Runs (leaf_to_end origin stream start) (λ head. head) turn.old turn.new result }
{
    let end = turn.finish(stream)?;
    let end = Place::at_byte(end);
    Ok(Head::Leaf(Leaf {
        origin,
        from: start,
        to: end,
        end,
    }))
}

/// Bytes that no terminator ends: a fault where one is required.
fn unterminated(
    turn: &mut Turn,
    origin: Origin,
    start: Place,
    terminator: Terminator,
    end: u32,
) -> Result<Head, Halt>
    requires { end ≤ file_limit }
    ensures { Runs (terminated_at origin start (plain_terminator terminator) (Missing end)) (λ head. head) turn.old turn.new result }
{
    if terminator.is_required {
        return turn.raise(FaultKind::NoTerminator);
    }
    let end = Place::at_byte(end);
    Ok(Head::Leaf(Leaf {
        origin,
        from: start,
        to: end,
        end,
    }))
}

/// Bytes up to a terminator, of which it is known where it is.
fn terminated_at(
    turn: &mut Turn,
    origin: Origin,
    start: Place,
    terminator: Terminator,
    found: Found,
) -> Result<Head, Halt>
    requires { StandsBelow file_limit found }
    ensures { Runs (terminated_at origin start (plain_terminator terminator) found) (λ head. head) turn.old turn.new result }
{
    let byte = match found {
        Found::At(byte) => byte,
        Found::Missing(end) => return unterminated(turn, origin, start, terminator, end),
    };
    let after = byte + 1;
    let to = if terminator.is_included { after } else { byte };
    let end = if terminator.is_consumed { after } else { byte };
    Ok(Head::Leaf(Leaf {
        origin,
        from: start,
        to: Place::at_byte(to),
        end: Place::at_byte(end),
    }))
}

/// Bytes up to a terminator.
#[tactic(auto, using(ksv_basics::proofs::Running::run_bind), unfolding(ksv_rule_meaning::specs::Heads::terminated))]
fn terminated(
    turn: &mut Turn,
    origin: Origin,
    stream: Stream,
    start: Place,
    terminator: Terminator,
) -> Result<Head, Halt>
    ensures { Runs (terminated origin stream start (plain_terminator terminator)) (λ head. head) turn.old turn.new result }
{
    let found = turn.find(stream, start.byte(), terminator.byte)?;
    terminated_at(turn, origin, start, terminator, found)
}

/// What goes as far as it goes by itself; where nothing says how far, nothing is there.
#[tactic(auto, unfolding(ksv_rule_meaning::specs::Heads::run_of))]
fn run_of(
    turn: &mut Turn,
    origin: Origin,
    stream: Stream,
    start: Place,
    terminator: Option<Terminator>,
) -> Result<Head, Halt>
    ensures { Runs (run_of origin stream start (option_map plain_terminator terminator)) (λ head. head) turn.old turn.new result }
{
    match terminator {
        None => Ok(Head::Absent(Some(start))),
        Some(terminator) => terminated(turn, origin, stream, start, terminator),
    }
}

/// Bytes or a text of a size that is evaluated.
#[tactic(auto, using(ksv_basics::proofs::Running::run_bind), unfolding(ksv_rule_meaning::specs::Heads::sized_leaf))]
#[inline(always)]
fn sized_leaf(
    turn: &mut Turn,
    ctx: &Ctx,
    origin: Origin,
    stream: Stream,
    size: &Expr,
) -> Result<Head, Halt>
    ensures { Runs (sized_leaf ctx.now origin stream ctx.now.place (view size.now)) (λ head. head) turn.old turn.new result }
{
    let size = size_of(turn, ctx, size)?;
    leaf(turn, origin, stream, ctx.place, size)
}

/// Bytes or a text.
#[tactic(auto, unfolding(ksv_rule_meaning::specs::Heads::bytes_at))]
#[inline(always)]
fn bytes_at(
    turn: &mut Turn,
    ctx: &Ctx,
    origin: Origin,
    stream: Stream,
    field: &Field,
) -> Result<Head, Halt>
    ensures { Runs (bytes_at ctx.now origin stream ctx.now.place (plain_extent field.now.extent) (option_map plain_terminator field.now.terminator)) (λ head. head) turn.old turn.new result }
{
    match &field.extent {
        Extent::Sized(size) => sized_leaf(turn, ctx, origin, stream, size),
        Extent::SizeEos => leaf_to_end(turn, origin, stream, ctx.place),
        Extent::ByItself => run_of(turn, origin, stream, ctx.place, field.terminator),
    }
}

/// An object with a size has a stream of its own.
#[tactic(auto, using(ksv_basics::proofs::Running::run_bind), unfolding(ksv_rule_meaning::specs::Heads::sized_object))]
fn sized_object(
    turn: &mut Turn,
    ctx: &Ctx,
    origin: Origin,
    type_number: u32,
    stream: Stream,
    size: &Expr,
) -> Result<Head, Halt>
    ensures { Runs (sized_object ctx.now origin type_number stream ctx.now.place (view size.now)) (λ head. head) turn.old turn.new result }
{
    let size = size_of(turn, ctx, size)?;
    let start = ctx.place;
    let end = turn.reach(stream, start.byte(), size)?;
    Ok(Head::Object(Object {
        origin: ObjectOrigin::new(origin)?,
        type_number,
        stream: Stream {
            from: start.byte(),
            to: StreamEnd::at(end),
        },
        start,
        ending: ObjectEnd::OfStream,
    }))
}

/// An object of a type: one to the stream's end has a stream of its own too, another ends with its fields.
#[tactic(auto, unfolding(ksv_rule_meaning::specs::Heads::object_at))]
fn object_at(
    turn: &mut Turn,
    ctx: &Ctx,
    origin: Origin,
    type_number: u32,
    stream: Stream,
    extent: &Extent,
) -> Result<Head, Halt>
    ensures { Runs (object_at ctx.now origin type_number stream ctx.now.place (plain_extent extent.now)) (λ head. head) turn.old turn.new result }
{
    let start = ctx.place;
    match extent {
        Extent::Sized(size) => { sized_object(turn, ctx, origin, type_number, stream, size) },
        Extent::SizeEos => Ok(Head::Object(Object {
            origin: ObjectOrigin::new(origin)?,
            type_number,
            stream: Stream {
                from: start.byte(),
                to: stream.to,
            },
            start,
            ending: ObjectEnd::OfStream,
        })),
        Extent::ByItself => Ok(Head::Object(Object {
            origin: ObjectOrigin::new(origin)?,
            type_number,
            stream,
            start,
            ending: ObjectEnd::ByFields,
        })),
    }
}

/// What an attribute of this content reads at a place of a stream.
#[tactic(auto, unfolding(ksv_rule_meaning::specs::Heads::content_at))]
#[inline(always)]
fn content_at(
    turn: &mut Turn,
    ctx: &Ctx,
    origin: Origin,
    stream: Stream,
    field: &Field,
    content: &Content,
) -> Result<Head, Halt>
    ensures { Runs (content_at ctx.now origin stream ctx.now.place (plain_field field.now) (plain_content content.now)) (λ head. head) turn.old turn.new result }
{
    match content {
        Content::Bytes => bytes_at(turn, ctx, origin, stream, field),
        Content::Fixed(bytes) => leaf(turn, origin, stream, ctx.place, bytes.len() as u64),
        Content::Number { size, .. } => { leaf(turn, origin, stream, ctx.place, u64::from(*size)) }
        Content::Bits { width, .. } => bits_leaf(turn, origin, stream, ctx.place, *width),
        Content::Characters(_) => bytes_at(turn, ctx, origin, stream, field),
        Content::Object { type_number, .. } => object_at(
            turn,
            ctx,
            origin,
            *type_number,
            stream,
            &field.extent,
        ),
    }
}

/// What is read where a switch chose no case: bytes of a size, and without one nothing.
#[tactic(auto, unfolding(ksv_rule_meaning::specs::Heads::unchosen_at))]
fn unchosen_at(
    turn: &mut Turn,
    ctx: &Ctx,
    origin: Origin,
    stream: Stream,
    extent: &Extent,
) -> Result<Head, Halt>
    ensures { Runs (unchosen_at ctx.now origin stream ctx.now.place (plain_extent extent.now)) (λ head. head) turn.old turn.new result }
{
    match extent {
        Extent::Sized(size) => sized_leaf(turn, ctx, origin, stream, size),
        Extent::SizeEos => leaf_to_end(turn, origin, stream, ctx.place),
        Extent::ByItself => Ok(Head::Absent(Some(ctx.place))),
    }
}

/// What is read by the case that was chosen.
#[inline(always)]
fn chosen_at(
    turn: &mut Turn,
    ctx: &Ctx,
    origin: Origin,
    stream: Stream,
    field: &Field,
    chosen: Option<Chosen>,
) -> Result<Head, Halt>
    ensures { Runs (chosen_at ctx.now origin stream ctx.now.place (plain_field field.now) (option_map plain_chosen chosen.entry)) (λ head. head) turn.old turn.new result }
{
    match chosen {
        None => unchosen_at(turn, ctx, origin, stream, &field.extent),
        Some(chosen) => {
            let origin = Origin {
                member: origin.member,
                case: CaseNumber::new(chosen.case)?,
                home: origin.home,
            };
            content_at(turn, ctx, origin, stream, field, chosen.content)
        }
    }
}

/// What an attribute or a parse instance, or one of its elements, reads at a place of a stream: first its case is chosen.
#[tactic(auto, using(ksv_basics::proofs::Running::run_bind), unfolding(ksv_rule_meaning::specs::Heads::shape_at))]
#[inline(always)]
pub(crate) fn shape_at(
    turn: &mut Turn,
    ctx: &Ctx,
    origin: Origin,
    stream: Stream,
    field: &Field,
) -> Result<Head, Halt>
    ensures { Runs (shape_at ctx.now origin stream ctx.now.place (plain_field field.now)) (λ head. head) turn.old turn.new result }
{
    let chosen = choose(turn, ctx, &field.choice)?;
    chosen_at(turn, ctx, origin, stream, field, chosen)
}
