//! Paths, integers, bytes in parts, faults and refused texts, by their public calls.
//!
//! Values are by hand: the names of faults as docs/REFERENCE.md lists them, the limits of paths and of integers that it
//! states, é in UTF-8 as the bytes c3 a9, and refusals by the grammar, with the byte at which a reader stops.

use ksv_desc::ByteOrder;
use ksv_expr_eval::{Encoding, FaultKind, Integer, Parts, Path, Step};
use ksv_expr_syntax::{ExprFault, ExprFaultKind, parse, parse_type};
use ksv_rule_meaning::integer_value;
use std::alloc::{AllocError, Global};
use std::collections::HashMap;
use std::fmt::Write;
use std::test::Fail;

static KINDS: [FaultKind; 17] = [
    FaultKind::NoSuch,
    FaultKind::Absent,
    FaultKind::EndOfBytes,
    FaultKind::BadType,
    FaultKind::Overflow,
    FaultKind::ZeroDivisor,
    FaultKind::BadIndex,
    FaultKind::BadText,
    FaultKind::Contents,
    FaultKind::BadSize,
    FaultKind::NoTerminator,
    FaultKind::NoBytes,
    FaultKind::TooMany,
    FaultKind::PathTooLong,
    FaultKind::BadNumber,
    FaultKind::NoParent,
    FaultKind::Invalid,
];

const NAMES: &str =
    "no-such absent end-of-bytes bad-type overflow zero-divisor bad-index bad-text contents bad-size no-terminator no-bytes too-many path-too-long bad-number no-parent invalid ";

/// Adds the name of a kind, and the kind as it prints, each with a space.
fn add_name(kind: FaultKind, names: &mut String, shown: &mut String) -> Result<(), AllocError> {
    names.push_str(kind.name())?;
    names.push_str(" ")?;
    write!(shown, "{kind} ")
}

/// Whether each kind has its name, and prints it.
fn are_named(alloc: Global) -> Result<bool, AllocError> {
    let (mut names, mut shown) = (String::new(alloc), String::new(alloc));
    for kind in &KINDS {
        add_name(*kind, &mut names, &mut shown)?;
    }
    Ok(names.as_str() == NAMES && shown.as_str() == NAMES)
}

#[test]
fn faults_have_names(rt: HostRuntime) -> Result<(), Fail> {
    let are_named = are_named(rt.alloc())?;
    assert!(rt; are_named);
    Ok(())
}

/// A path of as many steps as a path may have.
fn deepest(alloc: Global) -> Result<Path, Fail> {
    let mut deep = Path::root(alloc);
    for _ in 0..Path::MAX_STEPS {
        deep = deep.child_name(alloc, 0)?.ok_or(FaultKind::PathTooLong)?;
    }
    Ok(deep)
}

/// Whether a path has 64 steps, and can have no further one.
fn is_full(alloc: Global, path: &Path) -> Result<bool, AllocError> {
    let has_no_name = path.child_name(alloc, 0)?.is_none();
    let has_no_index = path.child_index(alloc, 0)?.is_none();
    Ok(path.len() == 64 && has_no_name && has_no_index)
}

/// Whether the root has no last step, and an element of the last index but none of the one after it.
fn is_far(alloc: Global, root: &Path) -> Result<bool, AllocError> {
    let has_last = root.child_index(alloc, 1_048_575)?.is_some();
    let has_next = root.child_index(alloc, Path::MAX_INDEX)?.is_some();
    Ok(has_last && !has_next && root.last().is_none())
}

/// Whether paths have the limits that they should.
fn are_limited(alloc: Global) -> Result<bool, Fail> {
    let deep = deepest(alloc)?;
    let is_full = is_full(alloc, &deep);
    drop(deep);
    Ok(is_full? && is_far(alloc, &Path::root(alloc))?)
}

#[test]
fn paths_have_limits(rt: HostRuntime) -> Result<(), Fail> {
    let are_limited = are_limited(rt.alloc())?;
    assert!(rt; are_limited);
    Ok(())
}

#[tactic(auto, unfolding(ksv_expr_value::specs::Trail::fits))]
fn third_of_three(alloc: Global) -> Result<Path, AllocError> {
    Path::from_steps(alloc, [Step::Name(3), Step::Index(3)].as_slice())
}

/// Whether a path has the steps of the third of three, and is equal to its copy but not to another.
fn is_third(alloc: Global, path: &Path, other: &Path) -> Result<bool, AllocError> {
    let steps = [Step::Name(3), Step::Index(3)];
    let has_steps = path.steps() == steps.as_slice();
    let has_last = path.last() == Some(Step::Index(3));
    let is_unlike = *path != *other;
    let is_same = path.copy(alloc)? == *path;
    Ok(has_steps && has_last && path.len() == 2 && is_unlike && is_same)
}

/// Whether a map that has a path finds the same path, and no other.
fn is_found(alloc: Global, given: Path, path: &Path, other: &Path) -> Result<bool, AllocError> {
    let mut known: HashMap<Path, u8> = HashMap::new(alloc);
    known.insert(given, 1)?;
    let is_known = known.get(path) == Some(&1);
    let is_other_known = known.get(other).is_some();
    Ok(is_known && !is_other_known)
}

/// Whether the path of these steps is equal to a path, and a map that has it finds that path, and not another.
fn is_given(alloc: Global, path: &Path, other: &Path) -> Result<bool, AllocError> {
    let given = third_of_three(alloc)?;
    let is_equal = given == *path;
    let is_found = is_found(alloc, given, path, other)?;
    Ok(is_equal && is_found)
}

/// The path of an element of a list.
fn element(alloc: Global, list: &Path, index: u32) -> Result<Path, Fail> {
    match list.child_index(alloc, index)? {
        Some(path) => Ok(path),
        None => Err(Fail::from(FaultKind::NoSuch)),
    }
}

/// Whether the paths of elements of a list are right.
fn are_right(alloc: Global, list: &Path) -> Result<bool, Fail> {
    let path = element(alloc, list, 3)?;
    let other = element(alloc, list, 4)?;
    let is_third = is_third(alloc, &path, &other)?;
    let is_given = is_given(alloc, &path, list)?;
    Ok(is_third && is_given)
}

/// The same of a list at the member of a number.
fn are_elements_right(alloc: Global) -> Result<bool, Fail> {
    match Path::root(alloc).child_name(alloc, 3)? {
        Some(list) => are_right(alloc, &list),
        None => Err(Fail::from(FaultKind::NoSuch)),
    }
}

#[test]
fn paths_have_steps(rt: HostRuntime) -> Result<(), Fail> {
    let are_right = are_elements_right(rt.alloc())?;
    assert!(rt; are_right);
    Ok(())
}

/// The number of the integer that is made from a number.
fn again(number: i128) -> Option<i128> {
    match Integer::new(number) {
        Some(integer) => Some(integer.get()),
        None => None,
    }
}

#[test]
fn integers_have_a_range(rt: HostRuntime) -> Result<(), Fail> {
    let is_inside = again(Integer::MIN) == Some(Integer::MIN)
        && again(Integer::MAX) == Some(Integer::MAX)
        && again(0) == Some(0)
        && Integer::from(u64::MAX).get() == 0xffff_ffff_ffff_ffff;
    let is_outside = again(Integer::MIN - 1).is_none() && again(Integer::MAX + 1).is_none();
    assert!(rt; is_inside && is_outside);
    Ok(())
}

/// The integer that a few bytes in two parts say.
fn said(is_signed: bool, order: ByteOrder, front: &[u8], back: &[u8]) -> Option<i128> {
    if front.len() > 4 || back.len() > 4 {
        return None;
    }
    Some(integer_value(is_signed, order, Parts { front, back }))
}

#[test]
fn bytes_in_two_parts_say_integers(rt: HostRuntime) -> Result<(), Fail> {
    let is_right = said(true, ByteOrder::Big, b"\xff", b"\xfe") == Some(-2)
        && said(false, ByteOrder::Big, b"\xff", b"\xfe") == Some(65_534)
        && said(false, ByteOrder::Little, b"\x01\x02", b"\x03") == Some(0x03_0201)
        && said(true, ByteOrder::Little, b"", b"\x80") == Some(-128)
        && said(false, ByteOrder::Big, b"", b"") == Some(0);
    assert!(rt; is_right);
    Ok(())
}

#[test]
fn parts_are_one_list_of_bytes(rt: HostRuntime) -> Result<(), Fail> {
    let whole = parts(b"h\xc3", b"\xa9");
    let other = parts(b"", b"h\xc3\xa9");
    let shorter = parts(b"h\xc3", b"");
    let is_right = whole.equals(other)
        && other.equals(whole)
        && !whole.equals(shorter)
        && !shorter.equals(other)
        && other.first() == Some(0x68)
        && parts(b"", b"").first().is_none();
    assert!(rt; is_right);
    Ok(())
}

fn parts<'a>(front: &'a [u8], back: &'a [u8]) -> Parts<'a> {
    Parts { front, back }
}

/// Whether encodings are found by their names.
fn are_encodings_named() -> bool {
    Encoding::named(b"utf-8") == Some(Encoding::Utf8)
        && Encoding::named(b"Ascii") == Some(Encoding::Ascii)
        && Encoding::named(b"utf8").is_none()
}

/// Whether bytes in two parts are this text, and so is its copy.
fn is_text(alloc: Global, whole: Parts<'_>, wanted: &str) -> Result<bool, AllocError> {
    match Encoding::Utf8.decode(alloc, whole)? {
        Some(text) => Ok(text.as_str() == wanted && text.copy()?.as_str() == wanted),
        None => Ok(false),
    }
}

/// Whether bytes are no text of an encoding.
fn is_no_text(alloc: Global, encoding: Encoding, bytes: Parts<'_>) -> Result<bool, AllocError> {
    Ok(encoding.decode(alloc, bytes)?.is_none())
}

#[test]
fn encodings_decode(rt: HostRuntime) -> Result<(), Fail> {
    let (alloc, whole) = (rt.alloc(), parts(b"h\xc3", b"\xa9"));
    let is_text = is_text(alloc, whole, "hé")?;
    let is_refused = is_no_text(alloc, Encoding::Ascii, whole)?
        && is_no_text(alloc, Encoding::Utf8, parts(b"h\xc3", b""))?;
    assert!(rt; are_encodings_named() && is_text && is_refused);
    Ok(())
}

/// Whether a text is refused with this kind at this place.
fn is_refused(alloc: Global, text: &str, kind: ExprFaultKind, at: usize) -> bool {
    match parse(alloc, text.as_bytes()) {
        Ok(_) => false,
        Err(fault) => fault == ExprFault { kind, at },
    }
}

/// Whether a fault of memory has its code, and prints its text.
fn has_text(alloc: Global) -> Result<bool, AllocError> {
    let kind = ExprFaultKind::NoMemory;
    let shown = format!(in alloc; "{kind}")?;
    Ok(kind.code() == "X6" && shown.as_str() == "expression: X6 no memory")
}

/// How many arguments the text of a type has.
fn count_of_arguments(alloc: Global, text: &[u8]) -> Result<usize, ExprFault> {
    Ok(parse_type(alloc, text)?.arguments.len())
}

#[test]
fn texts_are_refused(rt: HostRuntime) -> Result<(), Fail> {
    let alloc = rt.alloc();
    let are_refused = is_refused(alloc, "1 < 2 < 3", ExprFaultKind::UnexpectedCharacter, 6)
        && is_refused(alloc, "1 +", ExprFaultKind::UnexpectedEnd, 3)
        && is_refused(alloc, "1.5", ExprFaultKind::LeftOutForm, 0);
    let has_text = has_text(alloc)?;
    let count = count_of_arguments(alloc, b"a::b(1, c)")?;
    assert!(rt; are_refused && has_text && count == 2);
    Ok(())
}
