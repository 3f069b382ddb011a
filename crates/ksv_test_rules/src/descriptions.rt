//! What is asked of a tree of YAML, and what a description holds.
//!
//! Values are by hand: the tree of a text of two lines is written down beside it, and messages are those of
//! docs/REFERENCE.md.

use ksv_schema::{DescFault, DescFaultKind};
use ksv_yaml::{Entry, Yaml, find, read};
use std::test::Fail;

/// Whether the second of two items is quoted, and the first a text.
fn are_items(list: &Yaml) -> bool {
    match list.items() {
        Some([first, second]) => {
            second.is_quoted()
                && second.line() == 1
                && first.entries().is_none()
                && first.text() == Some(b"1".as_slice())
        }
        _ => false,
    }
}

/// Whether the entry `a` is a list of two items on the first line, and there is no entry `c`.
fn are_entries(entries: &[Entry]) -> bool {
    let Some(list) = find(entries, b"a") else {
        return false;
    };
    let is_list = list.line() == 1 && list.key() == b"a".as_slice() && are_items(list.value());
    is_list && find(entries, b"c").is_none()
}

/// Whether a tree is a mapping with such entries.
fn is_mapping(tree: &Yaml) -> bool {
    let is_plain = tree.text().is_none() && tree.items().is_none() && !tree.is_quoted();
    is_plain && are_entries(tree.entries().unwrap_or(&[]))
}

#[test]
fn a_tree_answers_what_is_asked(rt: HostRuntime) -> Result<(), Fail> {
    let tree = read(rt.alloc(), b"a: [1, '2']\nb: {c: 3}")?;
    let is_mapping = is_mapping(&tree);
    assert!(rt; is_mapping);
    Ok(())
}

#[test]
fn a_fault_of_memory_has_a_text(rt: HostRuntime) -> Result<(), Fail> {
    let kind = DescFaultKind::NoMemory;
    let text = format!(in rt.alloc(); "{}", DescFault { line: 7, kind })?;
    assert!(rt; kind.code() == "S11" && text.as_str() == "line 7: no memory");
    Ok(())
}
