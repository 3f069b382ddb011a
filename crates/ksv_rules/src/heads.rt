//! What is at a path, and where.
#![tactic(auto)]

ghost use Rattle.std.specs.Prelude.{◌≡◌, ◌≤◌, IfOk, option_map};
ghost use Rattle.ksv_expr_tree.specs.Tree.{view};
ghost use Rattle.ksv_expr_value.specs.Trail.{element_limit, parent};
ghost use Rattle.ksv_desc.specs.Pieces.{plain_choice, plain_repeat, plain_field, plain_kind};
ghost use Rattle.ksv_desc.specs.Whole.{plain_pieces};
ghost use Rattle.ksv_nodes.specs.Turning.{Runs};
ghost use Rattle.ksv_rule_meaning.specs.Members.{plain_sought};
ghost use Rattle.ksv_rule_meaning.specs.Heads.{in_count, count_of, counted, until_eos, repeated, attribute_at, is_of_bits, start_after, attribute_start, attribute_setting, element_setting, origin_of, attribute_head, instance_setting, positioned_in, positioned, instance_head, holder_of, calc, value_head, member_at, member_head, is_past, in_next, next_start, element_start, shape_at, element_head, root_head, head_of};

use crate::fields::{field_of, member_named};
use crate::parts::{end_beside, in_list_above};
use crate::shapes::shape_at;
use crate::wanted::{holds, in_object_above, size_of, stream_for};
use ksv_desc::{Choice, Content, Desc, Field, MemberKind, Repeat};
use ksv_expr_tree::Expr;
use ksv_expr_value::{Ctx, FaultKind, Path, Place, Step, Stream, StreamEnd};
use ksv_nodes::{
    Calc, CaseNumber, ELEMENT_LIMIT, ElementCount, Ended, Halt, Head, Holder, List, MemberRef,
    Object, ObjectEnd, ObjectOrigin, Origin, Turn,
};
use ksv_rule_meaning::Sought;

// ---- attributes

/// How many elements there are: at most [`ELEMENT_LIMIT`].
fn in_count(turn: &mut Turn, count: u64) -> Result<u32, Halt>
    ensures runs { Runs (in_count count) (λ count. count) turn.old turn.new result }
    ensures few { IfOk result (λ count. count ≤ element_limit) }
{
    if count > ELEMENT_LIMIT as u64 {
        return turn.raise(FaultKind::TooMany);
    }
    Ok(count as u32)
}

/// How many elements an expression says that there are.
#[tactic(auto, using(ksv_basics::proofs::Running::run_bind), unfolding(ksv_rule_meaning::specs::Heads::count_of))]
fn count_of(turn: &mut Turn, ctx: &Ctx, count: &Expr) -> Result<u32, Halt>
    ensures runs { Runs (count_of ctx.now (view count.now)) (λ count. count) turn.old turn.new result }
    ensures few { IfOk result (λ count. count ≤ element_limit) }
{
    let count = size_of(turn, ctx, count)?;
    in_count(turn, count)
}

/// The elements of an attribute whose number is told beforehand.
#[tactic(auto, using(ksv_basics::proofs::Running::run_bind), unfolding(ksv_rule_meaning::specs::Heads::counted))]
fn counted(
    turn: &mut Turn,
    ctx: &Ctx,
    origin: Origin,
    stream: Stream,
    count: &Expr,
) -> Result<Head, Halt>
    ensures { Runs (counted ctx.now origin stream ctx.now.place (view count.now)) (λ head. head) turn.old turn.new result }
{
    let count = count_of(turn, ctx, count)?;
    Ok(Head::List(List {
        origin,
        stream,
        start: ctx.place,
        count: ElementCount::known(count),
        is_empty: count == 0,
    }))
}

/// The elements of an attribute that go on to the stream's end.
#[tactic(auto, using(ksv_basics::proofs::Running::run_bind), unfolding(ksv_rule_meaning::specs::Heads::until_eos))]
fn until_eos(turn: &mut Turn, ctx: &Ctx, origin: Origin, stream: &Stream) -> Result<Head, Halt>
    ensures { Runs (until_eos ctx.now origin stream.now ctx.now.place) (λ head. head) turn.old turn.new result }
{
    let is_empty = turn.done(*stream, ctx.place)?;
    Ok(Head::List(List {
        origin,
        stream: *stream,
        start: ctx.place,
        count: ElementCount::unknown(),
        is_empty,
    }))
}

/// What an attribute reads, once or several times.
#[tactic(auto, unfolding(ksv_rule_meaning::specs::Heads::repeated))]
#[inline(always)]
fn repeated(
    turn: &mut Turn,
    ctx: &Ctx,
    origin: Origin,
    stream: Stream,
    field: &Field,
) -> Result<Head, Halt>
    ensures { Runs (repeated ctx.now origin stream ctx.now.place (plain_field field.now) (plain_repeat field.now.repeat)) (λ head. head) turn.old turn.new result }
{
    match &field.repeat {
        Repeat::Once => shape_at(turn, ctx, origin, stream, field),
        Repeat::Expr(count) => counted(turn, ctx, origin, stream, count),
        Repeat::Eos => until_eos(turn, ctx, origin, &stream),
        Repeat::Until(_) => Ok(Head::List(List {
            origin,
            stream,
            start: ctx.place,
            count: ElementCount::unknown(),
            is_empty: false,
        })),
    }
}

/// An attribute at its place. One whose condition is false takes no bytes.
#[tactic(auto, using(ksv_basics::proofs::Running::run_bind), unfolding(ksv_rule_meaning::specs::Heads::attribute_at))]
fn attribute_at(
    turn: &mut Turn,
    ctx: &Ctx,
    origin: Origin,
    stream: Stream,
    field: &Field,
) -> Result<Head, Halt>
    ensures { Runs (attribute_at ctx.now origin stream ctx.now.place (plain_field field.now)) (λ head. head) turn.old turn.new result }
{
    if holds(turn, ctx, &field.condition)? {
        repeated(turn, ctx, origin, stream, field)
    } else {
        Ok(Head::Absent(Some(ctx.place)))
    }
}

/// Whether bits are read.
#[inline(always)]
fn is_of_bits(choice: &Choice) -> bool
    ensures { result ≡ is_of_bits (plain_choice choice.now) }
{
    match choice {
        Choice::Always(Content::Bits { .. }) => true,
        _ => false,
    }
}

/// Where an attribute begins after one that ends at a place: bits there, all else at the next byte.
#[inline(always)]
fn start_after(end: Place, choice: &Choice) -> Place
    ensures { result ≡ start_after end (plain_choice choice.now) }
{
    if is_of_bits(choice) {
        end
    } else {
        end.aligned()
    }
}

/// The attribute at a path begins where its object does, or after the attribute before it.
#[tactic(auto, using(ksv_basics::proofs::Running::run_bind), unfolding(ksv_rule_meaning::specs::Heads::attribute_start))]
fn attribute_start(
    turn: &mut Turn,
    path: &Path,
    object: &Object,
    before: Option<u32>,
    choice: &Choice,
) -> Result<Place, Halt>
    ensures { Runs (attribute_start (parent path.now) object.now before (plain_choice choice.now)) (λ place. place) turn.old turn.new result }
{
    match before {
        None => Ok(object.start),
        Some(name) => {
            let ended = end_beside(turn, path, Step::Name(name))?;
            Ok(start_after(ended.place, choice))
        }
    }
}

/// How a member of an object is read; its case isn't chosen yet.
fn origin_of(object: &Object, sought: Sought) -> Origin
    ensures { result ≡ origin_of object.now (plain_sought sought.entry) }
{
    Origin {
        member: MemberRef {
            type_number: object.type_number,
            member: sought.member,
        },
        case: CaseNumber::none(),
        home: object.stream,
    }
}

/// An attribute of `seq` that begins at a place.
fn attribute_behind(
    turn: &mut Turn,
    path: &Path,
    object: &Object,
    sought: Sought,
    start: Place,
    field: &Field,
) -> Result<Head, Halt>
    ensures { Runs (attribute_at (attribute_setting path.now (parent path.now) (origin_of object.now (plain_sought sought.entry)) start) (origin_of object.now (plain_sought sought.entry)) object.now.stream start (plain_field field.now)) (λ head. head) turn.old turn.new result }
{
    let home = path.parent(turn.alloc())?;
    let ctx = Ctx::new(&home, object.stream, start, path);
    let origin = origin_of(object, sought);
    attribute_at(turn, &ctx, origin, object.stream, field)
}

/// An attribute of `seq`.
#[tactic(auto, using(ksv_basics::proofs::Running::run_bind), unfolding(ksv_rule_meaning::specs::Heads::attribute_head))]
fn attribute_head(
    turn: &mut Turn,
    path: &Path,
    object: &Object,
    sought: Sought,
    field: &Field,
) -> Result<Head, Halt>
    ensures { Runs (attribute_head path.now (parent path.now) object.now (plain_sought sought.entry) (plain_field field.now)) (λ head. head) turn.old turn.new result }
{
    let start = attribute_start(turn, path, object, sought.before, &field.choice)?;
    attribute_behind(turn, path, object, sought, start, field)
}

// ---- instances

/// A parse instance in a stream, at a position that is counted from the stream's first byte.
#[tactic(auto, using(ksv_basics::proofs::Running::run_bind), unfolding(ksv_rule_meaning::specs::Heads::positioned_in))]
fn positioned_in(
    turn: &mut Turn,
    ctx: &Ctx,
    origin: Origin,
    stream: &Stream,
    position: &Expr,
    field: &Field,
) -> Result<Head, Halt>
    ensures { Runs (positioned_in ctx.now origin stream.now (view position.now) (plain_field field.now)) (λ head. head) turn.old turn.new result }
{
    let position = size_of(turn, ctx, position)?;
    let byte = turn.reach(*stream, stream.from, position)?;
    let place = Place::at_byte(byte);
    let ctx = Ctx {
        home: ctx.home,
        stream: ctx.stream,
        place,
        index: ctx.index,
        element: ctx.element,
        here: ctx.here,
    };
    repeated(turn, &ctx, origin, *stream, field)
}

/// A parse instance in the stream of its object, or in the one that its `io` names.
#[tactic(auto, using(ksv_basics::proofs::Running::run_bind), unfolding(ksv_rule_meaning::specs::Heads::positioned))]
fn positioned(
    turn: &mut Turn,
    ctx: &Ctx,
    origin: Origin,
    position: &Expr,
    io: &Option<Expr>,
    field: &Field,
) -> Result<Head, Halt>
    ensures { Runs (positioned ctx.now origin (view position.now) (option_map view io.now) (plain_field field.now)) (λ head. head) turn.old turn.new result }
{
    let stream = stream_for(turn, ctx, io)?;
    positioned_in(turn, ctx, origin, &stream, position, field)
}

/// A parse instance. One whose condition is false has no place.
#[tactic(auto, using(ksv_basics::proofs::Running::run_bind), unfolding(ksv_rule_meaning::specs::Heads::instance_head))]
fn instance_head(
    turn: &mut Turn,
    ctx: &Ctx,
    origin: Origin,
    position: &Expr,
    io: &Option<Expr>,
    field: &Field,
) -> Result<Head, Halt>
    ensures { Runs (instance_head ctx.now origin (view position.now) (option_map view io.now) (plain_field field.now)) (λ head. head) turn.old turn.new result }
{
    if holds(turn, ctx, &field.condition)? {
        positioned(turn, ctx, origin, position, io, field)
    } else {
        Ok(Head::Absent(None))
    }
}

/// What a calculated value depends on of the object that holds it: all but how its end is known.
fn holder_of(object: Object) -> Holder
    ensures { result ≡ holder_of object }
{
    Holder {
        origin: object.origin,
        type_number: object.type_number,
        stream: object.stream,
        start: object.start,
    }
}

/// A value instance or a parameter.
fn calc(object: Object, sought: Sought) -> Head
    ensures { result ≡ calc object (plain_sought sought.entry) }
{
    Head::Calc(Calc {
        member: sought.member,
        object: holder_of(object),
    })
}

/// A value instance. One whose condition is false has no place.
#[tactic(auto, using(ksv_basics::proofs::Running::run_bind), unfolding(ksv_rule_meaning::specs::Heads::value_head))]
fn value_head(
    turn: &mut Turn,
    ctx: &Ctx,
    object: Object,
    sought: Sought,
    condition: &Option<Expr>,
) -> Result<Head, Halt>
    ensures { Runs (value_head ctx.now object (plain_sought sought.entry) (option_map view condition.now)) (λ head. head) turn.old turn.new result }
{
    if holds(turn, ctx, condition)? {
        Ok(calc(object, sought))
    } else {
        Ok(Head::Absent(None))
    }
}

// ---- members

/// The parse instance at a path.
fn instance_at(
    turn: &mut Turn,
    path: &Path,
    object: &Object,
    origin: Origin,
    position: &Expr,
    io: &Option<Expr>,
    field: &Field,
) -> Result<Head, Halt>
    ensures { Runs (instance_head (instance_setting path.now (parent path.now) object.now) origin (view position.now) (option_map view io.now) (plain_field field.now)) (λ head. head) turn.old turn.new result }
{
    let home = path.parent(turn.alloc())?;
    let ctx = Ctx::new(&home, object.stream, object.start, path);
    instance_head(turn, &ctx, origin, position, io, field)
}

/// The value instance at a path.
fn value_at(
    turn: &mut Turn,
    path: &Path,
    object: &Object,
    sought: Sought,
    condition: &Option<Expr>,
) -> Result<Head, Halt>
    ensures { Runs (value_head (instance_setting path.now (parent path.now) object.now) object.now (plain_sought sought.entry) (option_map view condition.now)) (λ head. head) turn.old turn.new result }
{
    let home = path.parent(turn.alloc())?;
    let ctx = Ctx::new(&home, object.stream, object.start, path);
    value_head(turn, &ctx, *object, sought, condition)
}

/// The member at a path, of the object above it.
#[tactic(auto, unfolding(ksv_rule_meaning::specs::Heads::member_at))]
fn member_at(turn: &mut Turn, path: &Path, object: &Object, sought: Sought) -> Result<Head, Halt>
    ensures { Runs (member_at path.now (parent path.now) object.now (plain_sought sought.entry) (plain_kind sought.entry.kind.now)) (λ head. head) turn.old turn.new result }
{
    match sought.kind {
        MemberKind::Parameter => Ok(calc(*object, sought)),
        MemberKind::Attribute(field) => attribute_head(turn, path, object, sought, field),
        MemberKind::ParseInstance {
            place,
            stream,
            field,
        } => instance_at(
            turn,
            path,
            object,
            origin_of(object, sought),
            place,
            stream,
            field,
        ),
        MemberKind::ValueInstance { condition, .. } => {
            value_at(turn, path, object, sought, condition)
        }
    }
}

/// The member of a name, at a path, of what is above it.
#[tactic(auto, using(ksv_basics::proofs::Running::run_bind), unfolding(ksv_rule_meaning::specs::Heads::member_head))]
fn member_head(turn: &mut Turn, desc: &Desc, path: &Path, name: u32) -> Result<Head, Halt>
    ensures { Runs (member_head (plain_pieces desc.now) path.now (parent path.now) name) (λ head. head) turn.old turn.new result }
{
    let head = turn.head_above(path)?;
    let object = in_object_above(turn, path, head)?;
    let sought = member_named(turn, desc, object.type_number, name)?;
    member_at(turn, path, object, sought)
}

// ---- elements

/// Whether a list is known to have no element of this index.
fn is_past(count: Option<u32>, index: u32) -> bool
    ensures { result ≡ is_past count index }
{
    match count {
        None => false,
        Some(count) => count <= index,
    }
}

/// After the last element there is none.
fn in_next(turn: &mut Turn, ended: Ended) -> Result<Place, Halt>
    ensures { Runs (in_next ended) (λ place. place) turn.old turn.new result }
{
    if ended.last {
        return turn.raise(FaultKind::BadIndex);
    }
    Ok(ended.place)
}

/// Where the element after the one of this index begins, in the list above a path.
#[tactic(auto, using(ksv_basics::proofs::Running::run_bind), unfolding(ksv_rule_meaning::specs::Heads::next_start))]
fn next_start(turn: &mut Turn, path: &Path, index: u32) -> Result<Place, Halt>
    ensures { Runs (next_start (parent path.now) index) (λ place. place) turn.old turn.new result }
{
    let ended = end_beside(turn, path, Step::Index(index))?;
    in_next(turn, ended)
}

/// The element at a path begins where its list does, or where the element before it ends.
#[tactic(auto, unfolding(ksv_rule_meaning::specs::Heads::element_start))]
fn element_start(turn: &mut Turn, path: &Path, list: &List, index: u32) -> Result<Place, Halt>
    ensures { Runs (element_start (parent path.now) list.now index) (λ place. place) turn.old turn.new result }
{
    if list.is_empty || is_past(list.count.get(), index) {
        return turn.raise(FaultKind::BadIndex);
    }
    if index == 0 {
        return Ok(list.start);
    }
    next_start(turn, path, index - 1)
}

/// What the element of this index, at a path, reads at a place.
#[inline(always)]
fn element_at(
    turn: &mut Turn,
    path: &Path,
    list: &List,
    start: Place,
    index: u32,
    field: &Field,
) -> Result<Head, Halt>
    ensures { Runs (shape_at (element_setting path.now (parent (parent path.now)) list.now.origin start index) list.now.origin list.now.stream start (plain_field field.now)) (λ head. head) turn.old turn.new result }
{
    let list_path = path.parent(turn.alloc())?;
    let home = list_path.parent(turn.alloc())?;
    let ctx = Ctx::new(&home, list.origin.home, start, path).within(index);
    shape_at(turn, &ctx, list.origin, list.stream, field)
}

/// The element of this index, at a path, of the list above it, which is an attribute of the object above that.
#[tactic(auto, using(ksv_basics::proofs::Running::run_bind), unfolding(ksv_rule_meaning::specs::Heads::element_head))]
fn element_head(turn: &mut Turn, desc: &Desc, path: &Path, index: u32) -> Result<Head, Halt>
    ensures { Runs (element_head (plain_pieces desc.now) path.now (parent path.now) (parent (parent path.now)) index) (λ head. head) turn.old turn.new result }
{
    let head = turn.head_above(path)?;
    let list = in_list_above(turn, path, head)?;
    let start = element_start(turn, path, list, index)?;
    let field = field_of(turn, desc, list.origin.member)?;
    element_at(turn, path, list, start, index, field)
}

// ---- heads

/// The root is an object of the first type, in the whole file.
fn root_head() -> Head
    ensures { result ≡ root_head }
{
    Head::Object(Object {
        origin: ObjectOrigin::of_root(),
        type_number: 0,
        stream: Stream {
            from: 0,
            to: StreamEnd::open(),
        },
        start: Place::at_byte(0),
        ending: ObjectEnd::ByFields,
    })
}

/// What is at a path, and where.
#[tactic(auto, unfolding(ksv_rule_meaning::specs::Heads::head_of))]
pub(crate) fn head_of(turn: &mut Turn, desc: &Desc, path: &Path) -> Result<Head, Halt>
    ensures { Runs (head_of (plain_pieces desc.now) path.now) (λ head. head) turn.old turn.new result }
{
    match path.last() {
        None => Ok(root_head()),
        Some(Step::Name(name)) => member_head(turn, desc, path, name),
        Some(Step::Index(index)) => element_head(turn, desc, path, index),
    }
}
