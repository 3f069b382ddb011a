//! Each call of a turn on its happy path and on its fault, and the readings with what they depend on.
//!
//! Values are by hand. A reading depends on the bytes that it looked at, in `ab;cd;` counted from 0, on the file having
//! this many bytes (`Reach`), or on its size where it went to the end or past it; a stream with an end of its own needs no
//! size. What a turn is asked and what it needs next follows the replies that stand beside it.

use ksv_bytes::Buffer;
use ksv_expr_value::{Fault, FaultKind, Parts, Path, Place, Step, Stream, StreamEnd, Value};
use ksv_memo_rules::{Replies, Slot};
use ksv_nodes::{Ended, Found, Given, Halt, Head, Node, NodeKind, Rested, Turn, first_in_parts};
use std::alloc::{AllocError, Global};
use std::fmt::Write;
use std::test::Fail;

/// Readings of the file `ab;cd;`, each with what it gives (of bytes, the first) and what it depends on. The stream
/// `open` is the whole file, `short` is `b;c`, and the end of `long` is past the file's.
const READINGS: &str = "open reach 6 0 => reached [Reach(6)]
open reach 7 0 => end-of-bytes [Size]
short reach 4 0 => reached [Reach(4)]
short reach 5 0 => end-of-bytes []
long reach 9 0 => end-of-bytes [Size]
open finish 0 0 => place 6 [Size]
short finish 0 0 => place 4 []
open done 5 0 => done false [Reach(6)]
open done 6 0 => done true [Size]
short done 3 0 => done false []
short done 4 0 => done true []
open peek 1 3 => first Some(98) [Bytes(1, 3)]
open peek 9 9 => first None []
open peek 4 9 => end-of-bytes [Size, Bytes(4, 6)]
open peek 6 7 => end-of-bytes [Size]
open find 0 59 => At(2) [Bytes(0, 3)]
open find 3 59 => At(5) [Bytes(3, 6)]
open find 1 0 => Missing(6) [Size, Bytes(1, 6)]
open find 6 59 => Missing(6) [Size]
short find 3 59 => Missing(4) [Bytes(3, 4)]
short find 4 59 => Missing(4) []
long find 3 59 => At(5) [Bytes(3, 6)]
long find 3 0 => end-of-bytes [Size, Bytes(3, 6)]";

fn stream_of(word: &str) -> Stream {
    match word {
        "short" => Stream {
            from: 1,
            to: StreamEnd::at(4),
        },
        "long" => Stream {
            from: 0,
            to: StreamEnd::at(9),
        },
        _ => Stream {
            from: 0,
            to: StreamEnd::open(),
        },
    }
}

fn number(word: Option<&str>) -> u32 {
    word.unwrap_or("").parse().unwrap_or(0u32)
}

/// A reading, its places or the like, and the name of the stream that it is of.
#[derive(Clone, Copy)]
struct Reading<'a> {
    stream: &'a str,
    word: &'a str,
    first: u32,
    second: u32,
}

fn reading_of<'a>(row: &'a str) -> Reading<'a> {
    let mut words = row.split(' ');
    Reading {
        stream: words.next().unwrap_or(""),
        word: words.next().unwrap_or(""),
        first: number(words.next()),
        second: number(words.next()),
    }
}

/// What a reading gives.
#[derive(Clone, Copy)]
enum Seen {
    Reached,
    Place(u32),
    Done(bool),
    First(Option<u8>),
    At(u32),
    Missing(u32),
}

fn read(turn: &mut Turn, reading: Reading<'_>) -> Result<Seen, Halt> {
    match reading.word {
        "reach" => reach(turn, reading),
        "finish" => finish(turn, reading),
        "done" => is_done(turn, reading),
        "peek" => peek(turn, reading),
        _ => find(turn, reading),
    }
}

fn reach(turn: &mut Turn, reading: Reading<'_>) -> Result<Seen, Halt> {
    let size = u64::from(reading.first);
    turn.reach(stream_of(reading.stream), 0, size)?;
    Ok(Seen::Reached)
}

fn finish(turn: &mut Turn, reading: Reading<'_>) -> Result<Seen, Halt> {
    let end = turn.finish(stream_of(reading.stream))?;
    Ok(Seen::Place(end))
}

fn is_done(turn: &mut Turn, reading: Reading<'_>) -> Result<Seen, Halt> {
    let place = Place::at_byte(reading.first.min(9));
    let is_done = turn.done(stream_of(reading.stream), place)?;
    Ok(Seen::Done(is_done))
}

fn peek(turn: &mut Turn, reading: Reading<'_>) -> Result<Seen, Halt> {
    let parts = turn.peek(reading.first, reading.second)?;
    Ok(Seen::First(parts.first()))
}

fn find(turn: &mut Turn, reading: Reading<'_>) -> Result<Seen, Halt> {
    let byte = u8::try_from(reading.second).unwrap_or(0);
    let found = turn.find(stream_of(reading.stream), reading.first, byte)?;
    Ok(seen_of(found))
}

fn seen_of(found: Found) -> Seen {
    match found {
        Found::At(byte) => Seen::At(byte),
        Found::Missing(end) => Seen::Missing(end),
    }
}

/// Adds what a reading gave.
fn add_seen(text: &mut String, seen: Seen) -> Result<(), AllocError> {
    match seen {
        Seen::Reached => text.push_str("reached"),
        Seen::Place(place) => write!(text, "place {place}"),
        Seen::Done(is_done) => write!(text, "done {is_done}"),
        Seen::First(byte) => write!(text, "first {byte:?}"),
        Seen::At(place) => write!(text, "At({place})"),
        Seen::Missing(end) => write!(text, "Missing({end})"),
    }
}

/// Adds what a reading gave, or the kind of its fault.
fn add_outcome(outcome: &Result<Seen, Halt>, text: &mut String) -> Result<(), AllocError> {
    match outcome {
        Ok(seen) => add_seen(text, *seen),
        Err(Halt::Fault(fault)) => text.push_str(fault.kind.name()),
        Err(_) => text.push_str("no memory, or a node was needed"),
    }
}

/// Adds what a reading of a turn gives, and what it depends on.
fn add_reading(turn: &mut Turn, reading: Reading<'_>, text: &mut String) -> Result<(), AllocError> {
    let outcome = read(turn, reading);
    let added = add_outcome(&outcome, text);
    drop(outcome);
    added?;
    write!(text, " {:?}", turn.uses())
}

/// The same of a new turn.
fn add_new_reading(
    alloc: Global,
    bytes: &Buffer,
    reading: Reading<'_>,
    text: &mut String,
) -> Result<(), AllocError> {
    let here = Path::root(alloc);
    let none = Replies::new(&[], &[]);
    let mut turn = Turn::new(alloc, &here, bytes, &none);
    let added = add_reading(&mut turn, reading, text);
    drop(turn);
    drop(here);
    added
}

/// Whether the reading of a row gives this, or a fault of this kind, and depends on this.
fn is_seen(alloc: Global, bytes: &Buffer, row: &str, wanted: &str) -> Result<bool, AllocError> {
    let mut seen = String::new(alloc);
    add_new_reading(alloc, bytes, reading_of(row), &mut seen)?;
    Ok(seen.as_str() == wanted)
}

/// Whether each row of [`READINGS`] tells what is seen.
fn are_seen(alloc: Global, bytes: &Buffer) -> Result<bool, AllocError> {
    let mut are_right = true;
    for row in READINGS.split('\n') {
        let (reading, wanted) = row.split_once(" => ").unwrap_or((row, ""));
        are_right &= is_seen(alloc, bytes, reading, wanted)?;
    }
    Ok(are_right)
}

#[test]
fn readings_give_and_rest(rt: HostRuntime) -> Result<(), Fail> {
    let bytes = Buffer::new(b"ab;cd;".to_vec(rt.alloc())?)?;
    let are_right = are_seen(rt.alloc(), &bytes)?;
    assert!(rt; are_right);
    Ok(())
}

type Slots = Vec<Slot<Given, Fault>>;

/// Adds a slot with a copy of a reply.
fn add(alloc: Global, slots: &mut Slots, given: &Given) -> Result<(), AllocError> {
    slots.push(Slot::Value(given.copy(alloc)?))?;
    Ok(())
}

/// A reply of one of four forms.
fn given(form: u8) -> Given {
    match form {
        0 => Given::Head(Head::Absent(Some(Place::at_byte(3)))),
        1 => Given::Value(Value::Bool(true)),
        2 => Given::End {
            place: Place::at_byte(5),
            last: true,
        },
        _ => Given::Rest {
            count: 2,
            place: Place::at_byte(9),
        },
    }
}

/// Adds slots with one reply of each form.
fn add_each_form(alloc: Global, slots: &mut Slots) -> Result<(), AllocError> {
    for form in 0..4u8 {
        let given = given(form);
        let added = add(alloc, slots, &given);
        drop(given);
        added?;
    }
    Ok(())
}

/// The kind of the fault by which a call ended.
fn kind_of<T: Drop>(ended: Result<T, Halt>) -> Option<FaultKind> {
    match ended {
        Err(Halt::Fault(fault)) => Some(fault.kind),
        _ => None,
    }
}

/// Whether it is the head that was replied.
fn is_head(head: Option<&Head>) -> bool {
    match head {
        Some(Head::Absent(Some(place))) => place.byte() == 3,
        _ => false,
    }
}

/// Whether it is the value that was replied.
fn is_value(value: Option<&Value>) -> bool {
    matches!(value, Some(Value::Bool(true)))
}

/// Whether a turn gives the head that was replied.
fn gives_head(here: &Path, turn: &mut Turn) -> bool {
    is_head(turn.head(here).ok())
}

/// Whether a turn gives the value that was replied.
fn gives_value(here: &Path, turn: &mut Turn) -> bool {
    is_value(turn.value(here).ok())
}

/// Whether it is the end that was replied.
fn is_ended(ended: Option<Ended>) -> bool {
    match ended {
        Some(ended) => ended.place.byte() == 5 && ended.last,
        None => false,
    }
}

/// Whether it is the rest that was replied.
fn is_rested(rested: Option<Rested>) -> bool {
    match rested {
        Some(rested) => rested.place.byte() == 9 && rested.count == 2,
        None => false,
    }
}

/// Whether a turn gives the end that was replied.
fn gives_end(here: &Path, turn: &mut Turn) -> bool {
    is_ended(turn.end(here).ok())
}

/// Whether a turn gives the rest that was replied.
fn gives_rest(here: &Path, turn: &mut Turn) -> bool {
    is_rested(turn.rest(here).ok())
}

/// Whether a rest was asked for that is needed, at this path.
fn is_rest_needed(asked: &Result<Rested, Halt>, here: &Path) -> bool {
    match asked {
        Err(Halt::Need(node)) => node.kind == NodeKind::Rest && node.path == *here,
        _ => false,
    }
}

/// Whether a turn needs the rest at a path, since no reply is left.
fn needs_rest(here: &Path, turn: &mut Turn) -> bool {
    let asked = turn.rest(here);
    let is_needed = is_rest_needed(&asked, here);
    drop(asked);
    is_needed
}

/// Whether a node was asked for that is needed: of this kind, at a path with this last step.
fn is_part_needed<T: Drop>(asked: &Result<T, Halt>, kind: NodeKind, step: Step) -> bool {
    match asked {
        Err(Halt::Need(node)) => node.kind == kind && node.path.last() == Some(step),
        _ => false,
    }
}

/// Whether a turn gives its four replies in their order, and needs a fifth.
fn gives_each(here: &Path, turn: &mut Turn) -> bool {
    let is_head = gives_head(here, turn);
    let is_value = gives_value(here, turn);
    let is_end = gives_end(here, turn);
    let is_rest = gives_rest(here, turn);
    needs_rest(here, turn) && is_head && is_value && is_end && is_rest
}

/// Whether replies are of another form than a turn asks for, each of them.
fn are_bad(here: &Path, turn: &mut Turn) -> bool {
    let bad = Some(FaultKind::BadType);
    let rest = kind_of(turn.rest(here));
    let end = kind_of(turn.end(here));
    let value = kind_of(turn.value(here));
    let head = kind_of(turn.head(here));
    rest == bad && end == bad && value == bad && head == bad
}

/// Whether a turn whose next reply is an end takes it for the end of a part, and then needs that of another.
fn gives_end_of_part(path: &Path, turn: &mut Turn) -> bool {
    let is_end = is_ended(turn.end_of_part(path, Step::Index(7)).ok());
    needs_end_of_part(path, turn) && is_end
}

/// Whether a turn needs the end of a part, since no reply is left.
fn needs_end_of_part(path: &Path, turn: &mut Turn) -> bool {
    let asked = turn.end_of_part(path, Step::Name(4));
    let is_needed = is_part_needed(&asked, NodeKind::End, Step::Name(4));
    drop(asked);
    is_needed
}

/// Whether a turn whose next reply is a value takes it for the value of a part, and then needs that of another.
fn gives_value_of_part(path: &Path, turn: &mut Turn) -> bool {
    let is_value = is_value(turn.value_of_part(path, Step::Index(7)).ok());
    needs_value_of_part(path, turn) && is_value
}

/// Whether a turn needs the value of a part, since no reply is left.
fn needs_value_of_part(path: &Path, turn: &mut Turn) -> bool {
    let asked = turn.value_of_part(path, Step::Name(4));
    let is_needed = is_part_needed(&asked, NodeKind::Value, Step::Name(4));
    drop(asked);
    is_needed
}

/// Whether a head was asked for that is needed, at a root.
fn is_head_needed(asked: &Result<&Head, Halt>) -> bool {
    match asked {
        Err(Halt::Need(node)) => node.kind == NodeKind::Head && node.path.len() == 0,
        _ => false,
    }
}

/// Whether a turn needs the head above a path, since no reply is left.
fn needs_above(path: &Path, turn: &mut Turn) -> bool {
    let asked = turn.head_above(path);
    let is_needed = is_head_needed(&asked);
    drop(asked);
    is_needed
}

/// Whether a turn needs the end of a part beside a path, since no reply is left.
fn needs_beside(path: &Path, turn: &mut Turn) -> bool {
    let asked = turn.end_beside(path, Step::Index(2));
    let is_needed = is_part_needed(&asked, NodeKind::End, Step::Index(2));
    drop(asked);
    is_needed
}

/// Whether a turn gives the head that was replied for the path above.
fn gives_above(path: &Path, turn: &mut Turn) -> bool {
    is_head(turn.head_above(path).ok())
}

/// Whether a turn gives the end that was replied for a part beside a path.
fn gives_beside(path: &Path, turn: &mut Turn) -> bool {
    is_ended(turn.end_beside(path, Step::Name(4)).ok())
}

/// Whether a turn gives the head and the end that were replied for what is above and beside a path, and then needs
/// others.
fn gives_around(path: &Path, turn: &mut Turn) -> bool {
    let is_head = gives_above(path, turn);
    let is_end = gives_beside(path, turn);
    let is_head_needed = needs_above(path, turn);
    let is_end_needed = needs_beside(path, turn);
    is_head && is_end && is_head_needed && is_end_needed
}

/// The same of the path one step below another.
fn gives_around_below(alloc: Global, path: &Path, turn: &mut Turn) -> Result<bool, AllocError> {
    let below = path.child_name(alloc, 5)?;
    let is_right = match &below {
        Some(below) => gives_around(below, turn),
        None => false,
    };
    drop(below);
    Ok(is_right)
}

/// Whether a turn raises a fault of a kind.
fn is_raised(turn: &Turn) -> bool {
    kind_of(turn.raise::<u32>(FaultKind::BadSize)) == Some(FaultKind::BadSize)
}

/// What a turn is asked for.
#[derive(Clone, Copy)]
enum Trial {
    /// Each reply in its order.
    InOrder,
    /// Other forms than those of the replies.
    OtherForms,
    /// The ends of parts, over one reply, an end.
    EndsOfParts,
    /// The values of parts, over one reply, a value.
    ValuesOfParts,
    /// What is above and beside a path below, over two replies, a head and an end.
    AboveAndBeside,
}

/// Whether a turn at a path gives what it is asked for.
fn gives(alloc: Global, here: &Path, turn: &mut Turn, trial: Trial) -> Result<bool, AllocError> {
    match trial {
        Trial::InOrder => Ok(gives_each(here, turn)),
        Trial::OtherForms => Ok(are_bad(here, turn)),
        Trial::EndsOfParts => Ok(gives_end_of_part(here, turn)),
        Trial::ValuesOfParts => Ok(gives_value_of_part(here, turn)),
        Trial::AboveAndBeside => gives_around_below(alloc, here, turn),
    }
}

/// The same with a fault that is raised, and without a reading that the turn depends on.
fn is_tried(alloc: Global, here: &Path, turn: &mut Turn, trial: Trial) -> Result<bool, AllocError> {
    let is_right = gives(alloc, here, turn, trial)?;
    let is_fault = is_raised(turn);
    Ok(is_right && is_fault && turn.uses().is_empty())
}

/// The same of a new turn over these replies.
fn is_newly_tried(
    alloc: Global,
    here: &Path,
    bytes: &Buffer,
    replies: &Replies<Given, Fault>,
    trial: Trial,
) -> Result<bool, AllocError> {
    let mut turn = Turn::new(alloc, here, bytes, replies);
    let is_right = is_tried(alloc, here, &mut turn, trial);
    drop(turn);
    is_right
}

/// The same over the replies in these places, of one reply of each form.
fn is_tried_over(
    alloc: Global,
    bytes: &Buffer,
    slots: &mut Slots,
    places: &[u32],
    trial: Trial,
) -> Result<bool, AllocError> {
    add_each_form(alloc, slots)?;
    let Some(replies) = Replies::checked(slots, places) else {
        return Ok(false);
    };
    let here = Path::root(alloc);
    let is_right = is_newly_tried(alloc, &here, bytes, &replies, trial);
    drop(here);
    is_right
}

/// The same of a file of no bytes.
fn ends_well(alloc: Global, places: &[u32], trial: Trial) -> Result<bool, Fail> {
    let bytes = Buffer::new(Vec::new(alloc))?;
    let mut slots = Vec::new(alloc);
    let is_right = is_tried_over(alloc, &bytes, &mut slots, places, trial);
    drop(slots);
    drop(bytes);
    Ok(is_right?)
}

#[test]
fn nodes_are_answered_in_order(rt: HostRuntime) -> Result<(), Fail> {
    let is_right = ends_well(rt.alloc(), &[0, 1, 2, 3], Trial::InOrder)?;
    assert!(rt; is_right);
    Ok(())
}

#[test]
fn another_form_is_a_fault(rt: HostRuntime) -> Result<(), Fail> {
    let is_right = ends_well(rt.alloc(), &[0, 1, 2, 3], Trial::OtherForms)?;
    assert!(rt; is_right);
    Ok(())
}

#[test]
fn ends_of_parts_are_asked_by_their_place(rt: HostRuntime) -> Result<(), Fail> {
    let is_right = ends_well(rt.alloc(), &[2], Trial::EndsOfParts)?;
    assert!(rt; is_right);
    Ok(())
}

#[test]
fn values_of_parts_are_asked_by_their_place(rt: HostRuntime) -> Result<(), Fail> {
    let is_right = ends_well(rt.alloc(), &[1], Trial::ValuesOfParts)?;
    assert!(rt; is_right);
    Ok(())
}

#[test]
fn what_is_above_and_beside_is_asked_by_a_path_below(rt: HostRuntime) -> Result<(), Fail> {
    let is_right = ends_well(rt.alloc(), &[0, 2], Trial::AboveAndBeside)?;
    assert!(rt; is_right);
    Ok(())
}

/// Adds a slot with a reply, a fault at a path.
fn add_fault(alloc: Global, there: &Path, slots: &mut Slots) -> Result<(), AllocError> {
    let kind = FaultKind::Contents;
    let path = there.copy(alloc)?;
    slots.push(Slot::Fault(Fault { kind, path }))?;
    Ok(())
}

/// Whether it ended by a fault of this kind, at this path.
fn is_fault<T: Drop>(ended: &Result<T, Halt>, kind: FaultKind, path: &Path) -> bool {
    match ended {
        Err(Halt::Fault(fault)) => fault.kind == kind && fault.path == *path,
        _ => false,
    }
}

/// Whether a turn that asks for a node has the fault that the node has.
fn is_handed_on(there: &Path, turn: &mut Turn) -> bool {
    let asked = turn.head(there);
    let is_right = is_fault(&asked, FaultKind::Contents, there);
    drop(asked);
    is_right
}

/// Whether a turn at a root hands on the fault of a node at another path, the first of these replies.
fn hands_on(alloc: Global, bytes: &Buffer, there: &Path, slots: &Slots) -> bool {
    let Some(replies) = Replies::checked(slots, &[0]) else {
        return false;
    };
    let here = Path::root(alloc);
    let mut turn = Turn::new(alloc, &here, bytes, &replies);
    let is_right = is_handed_on(there, &mut turn);
    drop(turn);
    drop(here);
    is_right
}

/// The same with the reply added.
fn hands_on_fault(
    alloc: Global,
    bytes: &Buffer,
    there: &Path,
    slots: &mut Slots,
) -> Result<bool, AllocError> {
    add_fault(alloc, there, slots)?;
    Ok(hands_on(alloc, bytes, there, slots))
}

/// The same of the path one step on from a root.
fn hands_on_part(alloc: Global, bytes: &Buffer) -> Result<bool, AllocError> {
    let mut there = Path::root(alloc);
    let is_part = goes_on(alloc, bytes, &mut there, Step::Name(1));
    let mut slots = Vec::new(alloc);
    let is_right = hands_on_fault(alloc, bytes, &there, &mut slots);
    drop(slots);
    drop(there);
    Ok(is_right? && is_part)
}

#[test]
fn a_fault_of_an_asked_node_is_handed_on(rt: HostRuntime) -> Result<(), Fail> {
    let bytes = Buffer::new(Vec::new(rt.alloc()))?;
    let is_right = hands_on_part(rt.alloc(), &bytes);
    drop(bytes);
    assert!(rt; is_right?);
    Ok(())
}

/// The path one step on, by a turn.
fn part(alloc: Global, bytes: &Buffer, path: &Path, step: Step) -> Option<Path> {
    let none = Replies::new(&[], &[]);
    let turn = Turn::new(alloc, path, bytes, &none);
    let part = turn.part(path, step).ok();
    drop(turn);
    part
}

/// Goes one step on, and answers whether that was possible.
fn goes_on(alloc: Global, bytes: &Buffer, path: &mut Path, step: Step) -> bool {
    match part(alloc, bytes, path, step) {
        Some(part) => {
            *path = part;
            true
        }
        None => false,
    }
}

/// Whether a part is refused, by a fault at the path itself.
fn is_too_long(alloc: Global, bytes: &Buffer, path: &Path, step: Step) -> bool {
    let none = Replies::new(&[], &[]);
    let turn = Turn::new(alloc, path, bytes, &none);
    let part = turn.part(path, step);
    drop(turn);
    let is_refused = is_fault(&part, FaultKind::PathTooLong, path);
    drop(part);
    is_refused
}

/// Goes 64 steps on from a root. Answers whether each path's last step is the one that was taken.
fn goes_far(alloc: Global, bytes: &Buffer, path: &mut Path) -> bool {
    let mut last = None;
    let mut are_right = true;
    for name in 0..64u32 {
        are_right &= path.last() == last;
        are_right &= goes_on(alloc, bytes, path, Step::Name(name));
        last = Some(Step::Name(name));
    }
    are_right && path.last() == last
}

/// Whether a path has 64 steps at most, each of them within its bound.
fn is_bounded(alloc: Global, bytes: &Buffer) -> bool {
    let mut path = Path::root(alloc);
    let is_far = is_too_long(alloc, bytes, &path, Step::Index(1_048_576));
    let are_right = goes_far(alloc, bytes, &mut path);
    let is_full = is_too_long(alloc, bytes, &path, Step::Index(0));
    drop(path);
    are_right && is_full && is_far
}

#[test]
fn parts_have_paths_that_fit(rt: HostRuntime) -> Result<(), Fail> {
    let bytes = Buffer::new(Vec::new(rt.alloc()))?;
    let is_right = is_bounded(rt.alloc(), &bytes);
    drop(bytes);
    assert!(rt; is_right);
    Ok(())
}

/// Whether a node has an equal copy.
fn has_copy(alloc: Global, node: &Node) -> Result<bool, AllocError> {
    let copy = node.copy(alloc)?;
    Ok(copy == *node)
}

/// Whether a node at a path has an equal copy.
fn is_copied(alloc: Global, path: Path) -> Result<bool, AllocError> {
    let kind = NodeKind::Rest;
    let node = Node { kind, path };
    let is_same = has_copy(alloc, &node);
    drop(node);
    is_same
}

/// The same of the path one step on from a root.
fn is_part_copied(alloc: Global, bytes: &Buffer) -> Result<bool, AllocError> {
    let mut path = Path::root(alloc);
    let is_part = goes_on(alloc, bytes, &mut path, Step::Index(7));
    let is_same = is_copied(alloc, path)?;
    Ok(is_part && is_same)
}

#[test]
fn a_copy_of_a_node_is_the_same(rt: HostRuntime) -> Result<(), Fail> {
    let bytes = Buffer::new(Vec::new(rt.alloc()))?;
    let is_same = is_part_copied(rt.alloc(), &bytes);
    drop(bytes);
    assert!(rt; is_same?);
    Ok(())
}

#[test]
fn the_first_byte_of_cut_bytes_is_found(rt: HostRuntime) -> Result<(), Fail> {
    let parts = Parts {
        front: b"ab",
        back: b"cb",
    };
    let is_right = first_in_parts(parts, 98) == Some(1)
        && first_in_parts(parts, 99) == Some(2)
        && first_in_parts(parts, 100).is_none();
    assert!(rt; is_right);
    Ok(())
}
