//! Where something ends, and how a list goes on to its last element.
#![tactic(auto)]

ghost use Rattle.std.specs.Prelude.{◌≡◌, ◌+◌, ◌<◌, Some};
ghost use Rattle.ksv_desc.specs.Pieces.{plain_repeat};
ghost use Rattle.ksv_desc.specs.Whole.{plain_pieces};
ghost use Rattle.ksv_expr_tree.specs.Tree.{view};
ghost use Rattle.ksv_expr_value.specs.Trail.{element_limit, parent};
ghost use Rattle.ksv_nodes.specs.Turning.{Runs};
ghost use Rattle.ksv_rule_meaning.specs.Wanted.{truth_of};
ghost use Rattle.ksv_rule_meaning.specs.Ends.{stream_end, fields_end, object_end, part_rest, list_end, absent_end, place_of, start_of, is_counted, behind_element, is_last, is_by_bytes, not_empty, element_end, end_at, end_of, next_rest, rest_behind, rest_from, in_whole_list, first_rest, whole_rest, rest_at, rest_of};

use crate::fields::field_of;
use crate::parts::{in_list_above, part_end};
use crate::wanted::{missing, truth_of};
use ksv_desc::{Desc, Repeat};
use ksv_expr_tree::Expr;
use ksv_expr_value::{Ctx, FaultKind, Path, Place, Step, Stream};
use ksv_nodes::{ELEMENT_LIMIT, Ended, Halt, Head, List, Object, ObjectEnd, Rested, Turn};
use ksv_rule_meaning::{last_attribute, members_of};

/// The end of an object that ends with its last attribute: the next byte; without one it ends where it begins.
#[tactic(auto, using(ksv_basics::proofs::Running::run_bind), unfolding(ksv_rule_meaning::specs::Ends::fields_end))]
fn fields_end(turn: &mut Turn, path: &Path, start: Place, last: Option<u32>) -> Result<Place, Halt>
    ensures { Runs (fields_end path.now start last) (λ place. place) turn.old turn.new result }
{
    match last {
        None => Ok(start),
        Some(name) => {
            let end = part_end(turn, path, Step::Name(name))?;
            Ok(end.place.aligned())
        }
    }
}

/// Where a stream ends.
#[tactic(auto, using(ksv_basics::proofs::Running::run_bind), unfolding(ksv_rule_meaning::specs::Ends::stream_end))]
fn stream_end(turn: &mut Turn, stream: Stream) -> Result<Place, Halt>
    ensures { Runs (stream_end stream) (λ place. place) turn.old turn.new result }
{
    let end = turn.finish(stream)?;
    Ok(Place::at_byte(end))
}

/// Where an object ends.
#[tactic(auto, unfolding(ksv_rule_meaning::specs::Ends::object_end))]
fn object_end(
    turn: &mut Turn,
    desc: &Desc,
    path: &Path,
    object: &Object,
    ending: ObjectEnd,
) -> Result<Place, Halt>
    ensures { Runs (object_end (plain_pieces desc.now) path.now object.now ending) (λ place. place) turn.old turn.new result }
{
    match ending {
        ObjectEnd::OfStream => stream_end(turn, object.stream),
        ObjectEnd::ByFields => {
            let last = last_attribute(members_of(desc, object.type_number));
            fields_end(turn, path, object.start, last)
        }
    }
}

#[tactic(auto, using(ksv_basics::proofs::Running::run_bind), unfolding(ksv_rule_meaning::specs::Ends::part_rest))]
fn part_rest(turn: &mut Turn, path: &Path, step: Step) -> Result<Rested, Halt>
    ensures { Runs (part_rest path.now step) (λ rested. rested) turn.old turn.new result }
{
    let part = turn.part(path, step)?;
    turn.rest(&part)
}

/// A list ends where its last element does.
#[tactic(auto, using(ksv_basics::proofs::Running::run_bind), unfolding(ksv_rule_meaning::specs::Ends::list_end))]
fn list_end(turn: &mut Turn, path: &Path) -> Result<Place, Halt>
    ensures { Runs (list_end path.now) (λ place. place) turn.old turn.new result }
{
    let rest = part_rest(turn, path, Step::Index(0))?;
    Ok(rest.place)
}

/// The end of what is absent, where it has a place.
fn absent_end(turn: &mut Turn, at: Option<Place>) -> Result<Place, Halt>
    ensures { Runs (absent_end at) (λ place. place) turn.old turn.new result }
{
    match at {
        None => turn.raise(FaultKind::NoSuch),
        Some(place) => Ok(place),
    }
}

/// The place after what is at a path.
#[tactic(auto, unfolding(ksv_rule_meaning::specs::Ends::place_of))]
fn place_of(turn: &mut Turn, desc: &Desc, path: &Path, head: &Head) -> Result<Place, Halt>
    ensures { Runs (place_of (plain_pieces desc.now) path.now head.now) (λ place. place) turn.old turn.new result }
{
    match head {
        Head::Absent(at) => absent_end(turn, *at),
        Head::Calc(_) => turn.raise(FaultKind::NoSuch),
        Head::Leaf(leaf) => Ok(leaf.end),
        Head::Object(object) => object_end(turn, desc, path, object, object.ending),
        Head::List(_) => list_end(turn, path),
    }
}

/// Where something begins.
fn start_of(head: &Head) -> Place
    ensures { result ≡ start_of head.now }
{
    match head {
        Head::Absent(None) => Place::at_byte(0),
        Head::Absent(Some(place)) => *place,
        Head::Calc(_) => Place::at_byte(0),
        Head::Leaf(leaf) => leaf.from,
        Head::Object(object) => object.start,
        Head::List(list) => list.start,
    }
}

/// Whether a list of this count ends with this element.
fn is_counted(count: Option<u32>, index: u32) -> bool
    ensures { result ≡ is_counted count index }
{
    match count {
        None => false,
        Some(count) => u64::from(count) == u64::from(index) + 1,
    }
}

/// Whether what must hold of the last element of a list holds of this one, which ends at a place.
fn holds_behind(
    turn: &mut Turn,
    list: &List,
    element: &Path,
    index: u32,
    end: Place,
    condition: &Expr,
) -> Result<bool, Halt>
    ensures { Runs (truth_of (behind_element (parent (parent element.now)) list.now element.now index end) (view condition.now)) (λ truth. truth) turn.old turn.new result }
{
    let list_path = element.parent(turn.alloc())?;
    let home = list_path.parent(turn.alloc())?;
    let ctx = Ctx::new(&home, list.origin.home, end, element)
        .within(index)
        .behind(element);
    truth_of(turn, &ctx, condition)
}

/// Whether an element, which ends at a place, is the last one of its list.
#[tactic(auto, unfolding(ksv_rule_meaning::specs::Ends::is_last))]
fn is_last(
    turn: &mut Turn,
    list: &List,
    element: &Path,
    index: u32,
    end: Place,
    repeat: &Repeat,
) -> Result<bool, Halt>
    ensures { Runs (is_last (parent (parent element.now)) list.now element.now index end (plain_repeat repeat.now)) (λ truth. truth) turn.old turn.new result }
{
    match repeat {
        Repeat::Once => turn.raise(FaultKind::NoSuch),
        Repeat::Expr(_) => Ok(is_counted(list.count.get(), index)),
        Repeat::Eos => turn.done(list.stream, end),
        Repeat::Until(condition) => holds_behind(turn, list, element, index, end, condition),
    }
}

/// Whether bytes end the list.
fn is_by_bytes(repeat: &Repeat) -> bool
    ensures { result ≡ is_by_bytes (plain_repeat repeat.now) }
{
    match repeat {
        Repeat::Eos => true,
        Repeat::Until(_) => true,
        _ => false,
    }
}

/// Where bytes end a list, each of its elements has some.
#[tactic(auto, unfolding(ksv_rule_meaning::specs::Ends::not_empty))]
fn not_empty(turn: &mut Turn, repeat: &Repeat, start: Place, end: Place) -> Result<(), Halt>
    ensures { Runs (not_empty (plain_repeat repeat.now) start end) (λ unit. unit) turn.old turn.new result }
{
    if is_by_bytes(repeat) {
        if end.is_same(start) {
            return turn.raise(FaultKind::NoBytes);
        }
    }
    Ok(())
}

/// The end of an element, and whether it is the last one of its list.
#[tactic(auto, using(ksv_basics::proofs::Running::run_bind), unfolding(ksv_rule_meaning::specs::Ends::element_end))]
fn element_end(
    turn: &mut Turn,
    desc: &Desc,
    path: &Path,
    index: u32,
    head: &Head,
    place: Place,
) -> Result<Ended, Halt>
    ensures { Runs (element_end (plain_pieces desc.now) path.now (parent path.now) (parent (parent path.now)) index head.now place) (λ ended. ended) turn.old turn.new result }
{
    let list_head = turn.head_above(path)?;
    let list = in_list_above(turn, path, list_head)?;
    let field = field_of(turn, desc, list.origin.member)?;
    not_empty(turn, &field.repeat, start_of(head), place)?;
    let last = is_last(turn, list, path, index, place, &field.repeat)?;
    Ok(Ended { place, last })
}

fn end_at(
    turn: &mut Turn,
    desc: &Desc,
    path: &Path,
    step: Option<Step>,
    head: &Head,
    place: Place,
) -> Result<Ended, Halt>
    ensures { Runs (end_at (plain_pieces desc.now) path.now step head.now place) (λ ended. ended) turn.old turn.new result }
{
    match step {
        Some(Step::Index(index)) => element_end(turn, desc, path, index, head, place),
        _ => Ok(Ended { place, last: false }),
    }
}

/// The end of what is at a path.
#[tactic(auto, using(ksv_basics::proofs::Running::run_bind), unfolding(ksv_rule_meaning::specs::Ends::end_of))]
pub(crate) fn end_of(turn: &mut Turn, desc: &Desc, path: &Path) -> Result<Ended, Halt>
    ensures { Runs (end_of (plain_pieces desc.now) path.now) (λ ended. ended) turn.old turn.new result }
{
    let head = turn.head(path)?;
    let place = place_of(turn, desc, path, head)?;
    end_at(turn, desc, path, path.last(), head, place)
}

/// What a list is after an element.
#[tactic(auto, unfolding(ksv_rule_meaning::specs::Ends::next_rest))]
fn next_rest(turn: &mut Turn, list: &Path, index: u32) -> Result<Rested, Halt>
    requires { index < element_limit }
    ensures { Runs (next_rest list.now index) (λ rested. rested) turn.old turn.new result }
{
    if index + 1 == ELEMENT_LIMIT {
        return turn.raise(FaultKind::TooMany);
    }
    part_rest(turn, list, Step::Index(index + 1))
}

fn rest_behind(turn: &mut Turn, list: &Path, index: u32, end: Ended) -> Result<Rested, Halt>
    requires { index < element_limit }
    ensures { Runs (rest_behind list.now index end) (λ rested. rested) turn.old turn.new result }
{
    if !end.last {
        return next_rest(turn, list, index);
    }
    Ok(Rested {
        count: index + 1,
        place: end.place,
    })
}

/// What a list is from an element on.
#[tactic(auto, using(ksv_basics::proofs::Running::run_bind), unfolding(ksv_rule_meaning::specs::Ends::rest_from))]
fn rest_from(turn: &mut Turn, path: &Path, list: &Path, index: u32) -> Result<Rested, Halt>
    requires { index < element_limit }
    ensures { Runs (rest_from path.now list.now index) (λ rested. rested) turn.old turn.new result }
{
    let end = turn.end(path)?;
    rest_behind(turn, list, index, end)
}

/// The list of which an element is the first; faults are at the list.
fn in_whole_list<'a>(turn: &Turn, path: &Path, head: &'a Head) -> Result<&'a List, Halt>
    ensures { Runs (in_whole_list path.now head.now) (λ list. list.now) turn.now turn.now result }
{
    match head {
        Head::List(list) => Ok(list),
        _ => missing(turn, path, head, path),
    }
}

fn first_rest(turn: &mut Turn, path: &Path, list_path: &Path, list: &List) -> Result<Rested, Halt>
    ensures { Runs (first_rest path.now list_path.now list.now) (λ rested. rested) turn.old turn.new result }
{
    if list.is_empty {
        return Ok(Rested {
            count: 0,
            place: list.start,
        });
    }
    rest_from(turn, path, list_path, 0)
}

/// What a list is as a whole.
#[tactic(auto, using(ksv_basics::proofs::Running::run_bind), unfolding(ksv_rule_meaning::specs::Ends::whole_rest))]
fn whole_rest(turn: &mut Turn, path: &Path, list_path: &Path) -> Result<Rested, Halt>
    ensures { Runs (whole_rest path.now list_path.now) (λ rested. rested) turn.old turn.new result }
{
    let head = turn.head(list_path)?;
    let list = in_whole_list(turn, list_path, head)?;
    first_rest(turn, path, list_path, list)
}

/// What a list is from the element of this index on.
fn element_rest(turn: &mut Turn, path: &Path, index: u32) -> Result<Rested, Halt>
    requires { index < element_limit }
    ensures { Runs (rest_at path.now (Some (Step.Index index))) (λ rested. rested) turn.old turn.new result }
{
    let list_path = path.parent(turn.alloc())?;
    if index == 0 {
        return whole_rest(turn, path, &list_path);
    }
    rest_from(turn, path, &list_path, index)
}

/// What a list is from the element at a path on.
#[tactic(auto, unfolding(ksv_rule_meaning::specs::Ends::rest_of))]
pub(crate) fn rest_of(turn: &mut Turn, desc: &Desc, path: &Path) -> Result<Rested, Halt>
    ensures { Runs (rest_of (plain_pieces desc.now) path.now) (λ rested. rested) turn.old turn.new result }
{
    match path.last() {
        Some(Step::Index(index)) => element_rest(turn, path, index),
        _ => turn.raise(FaultKind::NoSuch),
    }
}
