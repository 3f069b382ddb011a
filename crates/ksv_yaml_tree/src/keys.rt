//! What a mapping has at its keys.

ghost use Rattle.std.specs.Prelude.{◌≡◌, [], map, unwrap_or};
ghost use Rattle.ksv_yaml_tree.specs.Tree.{list_of};
ghost use Rattle.ksv_yaml_tree.specs.View.{view, pair, seen_text};
ghost use Rattle.ksv_yaml_tree.specs.Keys.{entries_in, entries_at, items_at, text_at, has, says};

use crate::tree::{Entry, Yaml, find};

/// The entries of a mapping; none for another node.
pub fn entries_in(node: &Yaml) -> &[Entry]
    ensures { map pair result.now ≡ entries_in (view node.now) }
{
    match node.entries() {
        Some(entries) => entries,
        None => &[],
    }
}

/// The items of a sequence; none for another node.
pub fn items_in(node: &Yaml) -> &[Yaml]
    ensures { map view result.now ≡ unwrap_or (list_of (view node.now)) [] }
{
    match node.items() {
        Some(items) => items,
        None => &[],
    }
}

/// Whether a mapping has a key.
pub fn has(entries: &[Entry], key: &[u8]) -> bool
    ensures { result ≡ has key.now (map pair entries.now) }
{
    find(entries, key).is_some()
}

/// The text at a key.
pub fn text_at<'a>(entries: &'a [Entry], key: &[u8]) -> Option<&'a [u8]>
    ensures { seen_text result ≡ text_at key.now (map pair entries.now) }
{
    find(entries, key)?.value().text()
}

/// The items of the sequence at a key.
pub fn items_at<'a>(entries: &'a [Entry], key: &[u8]) -> &'a [Yaml]
    ensures { map view result.now ≡ items_at key.now (map pair entries.now) }
{
    match find(entries, key) {
        Some(entry) => items_in(entry.value()),
        None => &[],
    }
}

/// The entries of the mapping at a key.
pub fn entries_at<'a>(entries: &'a [Entry], key: &[u8]) -> &'a [Entry]
    ensures { map pair result.now ≡ entries_at key.now (map pair entries.now) }
{
    match find(entries, key) {
        Some(entry) => entries_in(entry.value()),
        None => &[],
    }
}

/// Whether a key has this text.
pub fn says(entries: &[Entry], key: &[u8], text: &[u8]) -> bool
    ensures { result ≡ says key.now text.now (map pair entries.now) }
{
    match text_at(entries, key) {
        Some(other) => text == other,
        None => false,
    }
}
