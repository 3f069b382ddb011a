//! Places of nodes, by the five calls.
//!
//! Values are by hand: places are counted from 0 in the order in which nodes came.

use ksv_expr_value::{Path, Step};
use ksv_memo_rules::Places;
use ksv_nodes::{Node, NodeKind};
use ksv_places::NodePlaces;
use std::alloc::{AllocError, Global};
use std::test::Fail;

/// The node of a kind and a path of these steps, which are few.
fn node(alloc: Global, kind: NodeKind, steps: &[Step]) -> Result<Node, AllocError> {
    let mut path = Path::root(alloc);
    for step in steps {
        let next = match *step {
            Step::Name(name) => path.child_name(alloc, name)?,
            Step::Index(index) => path.child_index(alloc, index)?,
        };
        path = next.ok_or(AllocError)?;
    }
    Ok(Node { kind, path })
}

/// The place of a node, which gets one if it has none.
fn visit(places: &mut NodePlaces, node: &Node) -> Result<Option<usize>, AllocError> {
    if places.find(node).is_none() {
        places.add(node)?;
    }
    Ok(places.find(node))
}

/// Gives a node's place to another node that has none. Whether it has the place then, and the first one has none.
#[tactic(auto, using(std::proofs::lemmas::Option::slice_get_within))]
fn pass(places: &mut NodePlaces, old: &Node, new: &Node) -> Result<bool, AllocError> {
    match places.find(old) {
        None => Ok(false),
        Some(place) => {
            if places.find(new).is_some() {
                return Ok(false);
            }
            places.give(place, new)?;
            Ok(places.find(new) == Some(place) && places.find(old).is_none())
        }
    }
}

/// Whether a node has this place, or gets it now.
fn is_at(
    alloc: Global,
    places: &mut NodePlaces,
    kind: NodeKind,
    steps: &[Step],
    place: usize,
) -> Result<bool, AllocError> {
    let node = node(alloc, kind, steps)?;
    Ok(visit(places, &node)? == Some(place))
}

/// Whether a node has no place.
fn has_none(
    alloc: Global,
    places: &mut NodePlaces,
    kind: NodeKind,
    steps: &[Step],
) -> Result<bool, AllocError> {
    let node = node(alloc, kind, steps)?;
    Ok(places.find(&node).is_none())
}

/// Gives the place of an element's value to another one's.
fn passes_to(
    alloc: Global,
    places: &mut NodePlaces,
    old: u32,
    new: u32,
) -> Result<bool, AllocError> {
    let old = node(alloc, NodeKind::Value, &[Step::Index(old)])?;
    let new = node(alloc, NodeKind::Value, &[Step::Index(new)])?;
    pass(places, &old, &new)
}

/// Whether the values of these elements have the places from 0 on.
fn are_elements(
    alloc: Global,
    places: &mut NodePlaces,
    indices: &[u32],
) -> Result<bool, AllocError> {
    let mut is_right = true;
    for (place, index) in indices.iter().enumerate() {
        let steps = [Step::Name(7), Step::Index(*index)];
        is_right = is_right && is_at(alloc, places, NodeKind::Value, &steps, place)?;
    }
    Ok(is_right)
}

/// Whether new places give each of these elements a place, and the same again when they are asked again.
fn are_placed(alloc: Global, indices: &[u32]) -> Result<bool, AllocError> {
    let mut places: NodePlaces = NodePlaces::new(alloc);
    let first = are_elements(alloc, &mut places, indices);
    let again = are_elements(alloc, &mut places, indices);
    drop(places);
    Ok(first? && again?)
}

/// This many indices downwards from this one.
fn downwards(alloc: Global, top: u32, count: u32) -> Result<Vec<u32>, AllocError> {
    let mut indices = Vec::new(alloc);
    for back in 0..count {
        indices.push(top.saturating_sub(back))?;
    }
    Ok(indices)
}

#[test]
fn far_elements_have_places(rt: HostRuntime) -> Result<(), Fail> {
    let indices = downwards(rt.alloc(), 1_048_575, 3000)?;
    assert!(rt; are_placed(rt.alloc(), indices.as_slice())?);
    assert!(rt; are_placed(rt.alloc(), &[5, 1029, 2053, 1023, 1024, 1_048_575, 0, 2047])?);
    Ok(())
}

#[test]
fn elements_one_below_the_other_have_places(rt: HostRuntime) -> Result<(), Fail> {
    let indices = downwards(rt.alloc(), 1300, 1301)?;
    assert!(rt; are_placed(rt.alloc(), indices.as_slice())?);
    assert!(rt; are_placed(rt.alloc(), &[1_048_575])?);
    assert!(rt;
        are_placed(
            rt.alloc(),
            &[
                5000, 4999, 4998, 9000, 8999, 2000, 1999, 4997, 4995, 4996, 4994, 5001
            ]
        )?
    );
    Ok(())
}

/// Whether the heads of 20 members have the places from 0 on.
fn are_members(alloc: Global, places: &mut NodePlaces) -> Result<bool, AllocError> {
    let mut is_right = true;
    for name in 0..20u32 {
        let steps = [Step::Index(3), Step::Name(name * 600)];
        is_right = is_right && is_at(alloc, places, NodeKind::Head, &steps, name as usize)?;
    }
    Ok(is_right)
}

/// Whether nodes beside theirs have none.
fn are_none_beside(alloc: Global, places: &mut NodePlaces) -> Result<bool, AllocError> {
    let other_name = has_none(
        alloc,
        places,
        NodeKind::Head,
        &[Step::Index(3), Step::Name(601)],
    )?;
    let other_kind = has_none(
        alloc,
        places,
        NodeKind::End,
        &[Step::Index(3), Step::Name(600)],
    )?;
    let element = has_none(
        alloc,
        places,
        NodeKind::Head,
        &[Step::Index(3), Step::Index(600)],
    )?;
    Ok(other_name && other_kind && element)
}

#[test]
fn twenty_members_have_places(rt: HostRuntime) -> Result<(), Fail> {
    let mut places: NodePlaces = NodePlaces::new(rt.alloc());
    let first = are_members(rt.alloc(), &mut places);
    let again = are_members(rt.alloc(), &mut places);
    let beside = are_none_beside(rt.alloc(), &mut places);
    drop(places);
    assert!(rt; first? && again? && beside?);
    Ok(())
}

/// Whether the places of two nodes are given on, and not to a node that has one.
fn are_given(alloc: Global, places: &mut NodePlaces) -> Result<bool, AllocError> {
    let zero = is_at(alloc, places, NodeKind::Value, &[Step::Index(1)], 0)?;
    let one = is_at(alloc, places, NodeKind::Value, &[Step::Index(2)], 1)?;
    let given = passes_to(alloc, places, 1, 3)? && passes_to(alloc, places, 2, 1)?;
    let refused = passes_to(alloc, places, 1, 3)?;
    let three = is_at(alloc, places, NodeKind::Value, &[Step::Index(3)], 0)?;
    let new = is_at(alloc, places, NodeKind::Value, &[Step::Index(2)], 2)?;
    Ok(zero && one && given && !refused && three && new)
}

#[test]
fn places_are_given_away(rt: HostRuntime) -> Result<(), Fail> {
    let mut places: NodePlaces = NodePlaces::new(rt.alloc());
    let given = are_given(rt.alloc(), &mut places);
    drop(places);
    assert!(rt; given?);
    Ok(())
}

/// Gives the place of the only node to `count` further nodes in turn.
fn is_given_on(alloc: Global, places: &mut NodePlaces, count: u32) -> Result<bool, AllocError> {
    let mut is_right = is_at(alloc, places, NodeKind::Value, &[Step::Index(0)], 0)?;
    for index in 0..count {
        is_right = is_right && passes_to(alloc, places, index, index + 1)?;
    }
    Ok(is_right)
}

/// Whether tidying leaves the node, and its path and the root's alone.
fn is_tidied(alloc: Global, places: &mut NodePlaces) -> Result<bool, AllocError> {
    let given = is_given_on(alloc, places, 40_000)?;
    let before = places.path_count();
    places.tidy();
    let after = places.path_count();
    let last = is_at(alloc, places, NodeKind::Value, &[Step::Index(40_000)], 0)?;
    let first = has_none(alloc, places, NodeKind::Value, &[Step::Index(0)])?;
    Ok(given && before == 40_002 && after == 2 && last && first)
}

#[test]
fn tidying_keeps_nodes_and_drops_paths(rt: HostRuntime) -> Result<(), Fail> {
    let mut places: NodePlaces = NodePlaces::new(rt.alloc());
    let tidied = is_tidied(rt.alloc(), &mut places);
    drop(places);
    assert!(rt; tidied?);
    Ok(())
}

/// Gives the place of the only node to `count` further elements in turn, each the next below.
fn is_given_down(
    alloc: Global,
    places: &mut NodePlaces,
    top: u32,
    count: u32,
) -> Result<bool, AllocError> {
    let mut is_right = is_at(alloc, places, NodeKind::Value, &[Step::Index(top)], 0)?;
    for back in 0..count {
        let index = top.saturating_sub(back);
        is_right = is_right && passes_to(alloc, places, index, index.saturating_sub(1))?;
    }
    Ok(is_right)
}

/// Whether tidying leaves the last of 40,001 elements, and those beside it get further places then.
fn is_tidied_below(alloc: Global, places: &mut NodePlaces) -> Result<bool, AllocError> {
    let given = is_given_down(alloc, places, 50_000, 40_000)?;
    places.tidy();
    let after = places.path_count();
    let last = is_at(alloc, places, NodeKind::Value, &[Step::Index(10_000)], 0)?;
    let above = is_at(alloc, places, NodeKind::Value, &[Step::Index(10_001)], 1)?;
    let below = is_at(alloc, places, NodeKind::Value, &[Step::Index(9999)], 2)?;
    let again = is_at(alloc, places, NodeKind::Value, &[Step::Index(10_001)], 1)?;
    let first = has_none(alloc, places, NodeKind::Value, &[Step::Index(50_000)])?;
    Ok(given && after == 2 && last && above && below && again && first)
}

#[test]
fn tidying_keeps_a_far_element(rt: HostRuntime) -> Result<(), Fail> {
    let mut places: NodePlaces = NodePlaces::new(rt.alloc());
    let tidied = is_tidied_below(rt.alloc(), &mut places);
    drop(places);
    assert!(rt; tidied?);
    Ok(())
}
